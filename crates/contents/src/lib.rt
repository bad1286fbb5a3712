// What a frame says (RFC 9000, 19): its type, numbers and places, and whether it can be written.
#![tactic(auto)]

pub mod checks;
pub mod split;
