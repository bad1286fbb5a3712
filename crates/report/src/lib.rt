// What the listing shows (docs/RULES.md, "The listing").
#![tactic(auto)]

pub mod taken;
