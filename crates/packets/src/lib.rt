// A packet before its frames (docs/RULES.md, "Taking a packet"): the order of checks up to them.
#![tactic(auto)]

pub mod checks;

use answers::Answer;
use kinds::Kind;
use streams::Conn;

// A packet up to its frames: where they begin, in a packet of which kind and number; or the answer that refuses it,
// and no frames.
#[derive(Clone, Copy)]
pub struct Begun {
    pub answer: Answer,
    pub conn: Conn,
    pub kind: Kind,
    pub at: usize,
    pub number: u64,
}
