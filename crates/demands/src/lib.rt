// What holds across crates: demands 1 and 3 of every list of a host's calls, and that what one writes another reads as it was meant.
// Theorems alone: definitions in specs/, proofs in proofs/.
#![tactic(auto)]
