// What a packet record holds over whatever numbers come: exactly the last 8,192 that were taken since it was new.
// Theorems alone: definitions in specs/, proofs in proofs/.
#![tactic(auto)]
