// The type and the fields of a frame, whatever packet carries it: read, and judged (RFC 9000, 12.4 and 19; docs/RULES.md, "For a frame").
#![tactic(auto)]

pub mod faults;
pub mod heads;

ghost use Rattle.std.specs.Prelude.{◌≡◌};
ghost use Rattle.fields.specs.Parts.{ended_at, parts_at};

use answers::Answer;
use layouts::{pieces, table};

// Why there is no frame: the answer, and the frame's type, 0 where none was read.
#[derive(Clone, Copy)]
pub struct Refusal {
    pub answer: Answer,
    pub ty: u64,
}

// A frame taken apart, the same for every type: its type, four numbers, places of bytes, and three numbers after
// them. What a type does not have is 0.
#[derive(Clone, Copy)]
pub struct Parts {
    pub ty: u64,
    pub a: u64,
    pub b: u64,
    pub c: u64,
    pub d: u64,
    pub at: usize,
    pub len: usize,
    pub token: usize,
    pub x: u64,
    pub y: u64,
    pub z: u64,
}

// The numbers after a frame's bytes, and the place after them; then the frame is judged.
#[tactic(auto, unfolding(crate::specs::Parts::ended_at))]
fn end(s: &[u8], at: usize, after: u8, p: Parts) -> Option<(Parts, usize)>
    ensures { result ≡ ended_at s.now at after p }
{
    let n = pieces::read_numbers(s, at, after)?;
    if faults::fault(p.ty, p.a, p.b, p.len as u64) {
        return None;
    }
    let parts = Parts {
        x: n.a,
        y: n.b,
        z: n.c,
        ..p
    };
    Some((parts, n.next))
}

// Reads the fields of a frame of a known type at a place: its parts and the place after it, unless it has none.
#[tactic(auto, unfolding(crate::specs::Parts::parts_at))]
pub fn read(s: &[u8], at: usize, ty: u64) -> Option<(Parts, usize)>
    ensures { result ≡ parts_at s.now at ty }
{
    let l = table::find(ty);
    let n = pieces::read_numbers(s, at, l.numbers)?;
    let body = pieces::read_body(s, n.next, l.tail, n.a, n.c, n.d)?;
    let parts = Parts {
        ty,
        a: n.a,
        b: n.b,
        c: n.c,
        d: n.d,
        at: body.at,
        len: body.len,
        token: body.token,
        x: 0,
        y: 0,
        z: 0,
    };
    end(s, body.next, l.after, parts)
}
