// Theorems alone: the figures of section 19 and the rules of fields and of admission at their borders, computed on bytes.
#![tactic(auto)]
