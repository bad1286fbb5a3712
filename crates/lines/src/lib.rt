// Text as lines, and lines as words.
#![tactic(auto)]

pub mod gather;
pub mod words;
