// The bench examples of docs/RULES.md, the borders of a packet's checks and of the writers, and two examples for demand 3, computed on the definitions.
// Theorems alone: definitions in specs/, proofs in proofs/.
#![tactic(auto)]
