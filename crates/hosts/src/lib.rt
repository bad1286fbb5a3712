// What the public calls answer and leave, computed on whole hosts: where 120 comes, the order of a packet's checks, packets that stop in their middle, the three spaces, the call for one frame, local calls, opening;
// and laws: of 120 and 101, of the walk to a packet's end, of the closing mark, of every answer by the history alone, and of the records over every list of calls.
// Theorems alone: definitions in specs/, proofs in proofs/.
#![tactic(auto)]
