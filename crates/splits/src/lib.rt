// Theorems alone: whole datagrams split at the borders of every clause of docs/RULES.md, "Splitting a datagram", computed.
#![tactic(auto)]
