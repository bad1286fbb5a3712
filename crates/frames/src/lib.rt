// Frames (RFC 9000, 12.4 and 19): one frame read at a place of a payload, in the order of docs/RULES.md, "For a frame".
#![tactic(auto)]

mod assembly;

ghost use Rattle.std.specs.Prelude.{◌≡◌};
ghost use Rattle.frames.specs.Fields.{fields_at};
ghost use Rattle.frames.specs.Reading.{frame_at, any_frame_at};

use answers::Answer;
use fields::{Refusal, heads};
use kinds::{Kind, Role};

// A frame. Numbers have the names of section 19, in short. Bytes are places in the slice that the frame was read
// from: `at` and `len`, or `at` alone for PATH data (8 bytes), `token` for a reset token (16 bytes), and `at` for
// the further ranges of an ACK, of which there are `count`.
#[derive(Clone, Copy)]
pub enum Frame {
    Padding,
    Ping,
    Ack {
        largest: u64,
        delay: u64,
        count: u64,
        first: u64,
        at: usize,
    },
    AckEcn {
        largest: u64,
        delay: u64,
        count: u64,
        first: u64,
        at: usize,
        ect0: u64,
        ect1: u64,
        ce: u64,
    },
    ResetStream {
        id: u64,
        code: u64,
        size: u64,
    },
    StopSending {
        id: u64,
        code: u64,
    },
    Crypto {
        offset: u64,
        at: usize,
        len: usize,
    },
    NewToken {
        at: usize,
        len: usize,
    },
    Stream {
        id: u64,
        offset: u64,
        fin: bool,
        at: usize,
        len: usize,
    },
    MaxData {
        maximum: u64,
    },
    MaxStreamData {
        id: u64,
        maximum: u64,
    },
    MaxStreams {
        uni: bool,
        maximum: u64,
    },
    DataBlocked {
        maximum: u64,
    },
    StreamDataBlocked {
        id: u64,
        maximum: u64,
    },
    StreamsBlocked {
        uni: bool,
        maximum: u64,
    },
    NewConnectionId {
        sequence: u64,
        retire: u64,
        at: usize,
        len: usize,
        token: usize,
    },
    RetireConnectionId {
        sequence: u64,
    },
    PathChallenge {
        at: usize,
    },
    PathResponse {
        at: usize,
    },
    ConnectionClose {
        code: u64,
        ty: u64,
        at: usize,
        len: usize,
    },
    ApplicationClose {
        code: u64,
        at: usize,
        len: usize,
    },
    HandshakeDone,
}

// A frame that was read, its type as on the wire and the place after it.
#[derive(Clone, Copy)]
pub struct Reading {
    pub frame: Frame,
    pub ty: u64,
    pub next: usize,
}

// The frame at a place, of a known type.
#[tactic(auto, unfolding(crate::specs::Fields::fields_at))]
fn read_fields(s: &[u8], at: usize, ty: u64) -> Result<Reading, Refusal>
    ensures { result ≡ fields_at s.now at ty }
{
    let (parts, next) = fields::read(s, at, ty).ok_or(Refusal {
        answer: Answer::FrameEncoding,
        ty,
    })?;
    Ok(Reading {
        frame: assembly::assemble(parts),
        ty,
        next,
    })
}

// Reads the frame at a place of a payload of a packet of this kind, at an end of this role.
#[tactic(auto, unfolding(crate::specs::Reading::frame_at))]
pub fn read(role: Role, s: &[u8], at: usize, kind: Kind) -> Result<Reading, Refusal>
    ensures { result ≡ frame_at role s.now at kind }
{
    let (ty, next) = heads::read(s, at)?;
    if !admission::admits(role, kind, ty) {
        return Err(Refusal {
            answer: Answer::ProtocolViolation,
            ty,
        });
    }
    read_fields(s, next, ty)
}

// Reads the frame at a place, whatever packet it stands in: what a writer's frames are read back by.
#[tactic(auto, unfolding(crate::specs::Reading::any_frame_at))]
pub fn read_any(s: &[u8], at: usize) -> Result<Reading, Refusal>
    ensures { result ≡ any_frame_at s.now at }
{
    let (ty, next) = heads::read(s, at)?;
    read_fields(s, next, ty)
}
