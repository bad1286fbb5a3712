// The two seats of a connection. What the role is: the mirror, of every frame and call; and the client's rules at their borders, computed on whole hosts.
// Theorems alone: definitions in specs/, proofs in proofs/.
#![tactic(auto)]
