// Demand 3: what holds of a connection's accounts over every history of frames and local calls. Theorems alone: definitions in specs/, proofs in proofs/.
#![tactic(auto)]
