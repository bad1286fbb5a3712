// The check that a connection and its table keep to their limits (120), by value: entry by entry, and the connection's own numbers.
#![tactic(auto)]

pub mod fits;
pub mod rest;
