// A packet before its frames, for every packet: each check by what it looks at, the number that its bytes stand for, and that a number sent short never misleads.
// Theorems alone: definitions in specs/, proofs in proofs/.
#![tactic(auto)]
