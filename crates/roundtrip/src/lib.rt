// Theorems alone: what is written reads back, and what no bytes read as is 109.
#![tactic(auto)]
