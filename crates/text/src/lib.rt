// Text, written and read: plain bytes and decimal numbers.
#![tactic(auto)]

pub mod decimal;
pub mod put;
