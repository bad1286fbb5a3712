// A packet before its frames: the order of checks up to them.
ghost use Rattle.std.specs.Prelude.{◌≡◌};
ghost use Rattle.answers.specs.declared.Answer.TheVariants.{Accepted};
ghost use Rattle.kinds.specs.Kinds.{space_of};
ghost use Rattle.spaces.specs.Spaces.{record_of};
ghost use Rattle.packets.specs.Begin.{refused_of, closes_of, tested_of, in_space_of, begin_of};

use crate::Begun;
use answers::Answer;
use kinds::Kind;
use records::Record;
use spaces::Records;
use streams::{Conn, Mark};

// A packet that is refused and changes nothing.
#[tactic(auto, unfolding(crate::specs::Begin::refused_of))]
fn refused(c: Conn, answer: Answer, end: usize) -> Begun
    ensures { result ≡ refused_of c answer end }
{
    Begun {
        answer,
        conn: c,
        kind: Kind::OneRtt,
        at: end,
        number: 0,
    }
}

// A packet that closes the connection with code 10 and no type.
#[tactic(auto, unfolding(crate::specs::Begin::closes_of))]
fn closes(c: Conn, end: usize) -> Begun
    ensures { result ≡ closes_of c end }
{
    refused(
        c.marked(Mark::Code {
            answer: Answer::ProtocolViolation,
            ty: 0,
        }),
        Answer::ProtocolViolation,
        end,
    )
}

// The number is known and passed its test: the reserved bits, no frames.
#[tactic(auto, unfolding(crate::specs::Begin::tested_of))]
fn tested(c: Conn, kind: Kind, number: u64, first: u8, n: usize, end: usize) -> Begun
    ensures { result ≡ tested_of c Accepted kind number first n end }
{
    if headers::reserved(first) || end <= n {
        return closes(c, end);
    }
    Begun {
        answer: Answer::Accepted,
        conn: c,
        kind,
        at: n,
        number,
    }
}

// A packet of the space whose record is lent: too few bytes, 111, 106 or 107, and then as above.
#[tactic(auto, unfolding(crate::specs::Begin::in_space_of, crate::specs::Begin::tested_of, wire::specs::Number::field_at))]
fn in_space(c: Conn, seen: &Record, kind: Kind, first: u8, s: &[u8]) -> Begun
    ensures { result ≡ in_space_of c seen.now kind first s.now }
{
    let size = headers::size(first);
    let Some((value, next)) = headers::truncated(s, size) else {
        return refused(c, Answer::NoPacket, s.len());
    };
    let number = match numbers::recover(seen.top, size, value) {
        Ok(number) => number,
        Err(answer) => return refused(c, answer, s.len()),
    };
    if let Err(answer) = records::test_of(seen, number) {
        return refused(c, answer, s.len());
    }
    tested(c, kind, number, first, next, s.len())
}

// A packet of a kind, with the record of its space; 0-RTT and 1-RTT share one.
fn by_kind(c: Conn, records: &Records, kind: Kind, first: u8, s: &[u8]) -> Begun
    ensures { result ≡ in_space_of c (record_of records.now (space_of kind)) kind first s.now }
{
    match kind {
        Kind::Initial => in_space(c, &records.initial, kind, first, s),
        Kind::Handshake => in_space(c, &records.handshake, kind, first, s),
        Kind::ZeroRtt | Kind::OneRtt => in_space(c, &records.application, kind, first, s),
    }
}

// A packet up to its frames; `fits` says whether the table fits.
#[tactic(auto, unfolding(crate::specs::Begin::begin_of))]
pub fn begin(c: Conn, records: Records, fits: bool, first: u8, s: &[u8]) -> Begun
    ensures { result ≡ begin_of c records fits first s.now }
{
    if !fits {
        return refused(c, Answer::DoesNotFit, s.len());
    }
    if !spaces::fit(&records) {
        return refused(c, Answer::DoesNotFit, s.len());
    }
    if !c.mark.is_open() {
        return refused(c, Answer::Closed, s.len());
    }
    let Some(kind) = headers::of_first(first) else {
        return refused(c, Answer::NoPacket, s.len());
    };
    by_kind(c, &records, kind, first, s)
}
