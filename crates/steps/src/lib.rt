// One frame of a payload as a step on a connection and ONE entry, and the gate that comes before any call. By value
// (docs/RULES.md, "Taking a packet"): what a host's call does, apart from the lent table.
#![tactic(auto)]

pub mod frame;
pub mod gates;

use answers::Answer;
use entries::Entry;
use frames::Frame;
use rules::View;
use streams::Conn;

// What a frame at a place asks for: the place of the entry that it looks at, the place after the frame, its type, and what
// it asks of the streams or the code that refuses it as it stands.
#[derive(Clone, Copy)]
pub struct Request {
    pub place: usize,
    pub next: usize,
    pub ty: u64,
    pub asks: Result<View, Answer>,
}

// What a frame leaves: the connection, its answer, and the place after it, where a walk goes on while the connection is open.
#[derive(Clone, Copy)]
pub struct Stepped {
    pub conn: Conn,
    pub answer: Answer,
    pub next: usize,
}

// The same with the entry that it looked at.
#[derive(Clone, Copy)]
pub struct Decided {
    pub stepped: Stepped,
    pub entry: Entry,
}

// Where a walk over frames stopped, with which answer: at the frame that is refused or closes the connection, or after the last one.
#[derive(Clone, Copy)]
pub struct Stopped {
    pub conn: Conn,
    pub place: usize,
    pub answer: Answer,
}

// What a call for one frame shows the caller: the type if it could be read, the frame with the place after it if its
// fields could.
#[derive(Clone, Copy)]
pub enum Shown {
    Nothing,
    Typed { ty: u64 },
    Whole { frame: Frame, ty: u64, next: usize },
}

// The answer of a call for one frame.
#[derive(Clone, Copy)]
pub struct TookFrame {
    pub answer: Answer,
    pub shown: Shown,
    pub conn: Conn,
}
