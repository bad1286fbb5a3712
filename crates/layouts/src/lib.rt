// The figures of RFC 9000, section 19: what stands after a frame's type, by a table of layouts.
#![tactic(auto)]

pub mod pieces;
pub mod table;
pub mod types;

// What stands between a frame's first numbers and its end.
#[derive(Clone, Copy)]
pub enum Tail {
    Nothing,
    // Length (i), and so many bytes
    Counted,
    // bytes to the end of the payload
    Remainder,
    // Data (64)
    Eight,
    // Length (8), Connection ID (8..160), Stateless Reset Token (128)
    Identity,
    // ACK Range (..) ...
    Ranges,
}

// The layout of a type: how many numbers follow it, what stands after them, and how many numbers after that.
#[derive(Clone, Copy)]
pub struct Layout {
    pub numbers: u8,
    pub tail: Tail,
    pub after: u8,
}

// Four numbers, those that are not there 0, and the place after them.
#[derive(Clone, Copy)]
pub struct Numbers {
    pub a: u64,
    pub b: u64,
    pub c: u64,
    pub d: u64,
    pub next: usize,
}

// The places of a tail's bytes, those that it does not have 0, and the place after it.
#[derive(Clone, Copy)]
pub struct Body {
    pub at: usize,
    pub len: usize,
    pub token: usize,
    pub next: usize,
}
