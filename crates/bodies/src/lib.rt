// The pieces of a frame (RFC 9000, 19), each all or none: the numbers before and after its body, bytes after their length; and the place where the next piece goes.
#![tactic(auto)]

ghost use Rattle.std.specs.Prelude.{◌≡◌};
ghost use Rattle.wire.specs.Writing.{writes};
ghost use Rattle.row.specs.Row.{row_draft};
ghost use Rattle.bodies.specs.Bodies.{place_after, front_of, back_of, counted_draft, identity_draft};

use answers::Answer;
use fields::Parts;
use text::put;

// The place after what was written, 0 after a refusal.
#[tactic(auto, unfolding(crate::specs::Bodies::place_after))]
pub fn past(wrote: Result<usize, Answer>) -> usize
    ensures { result ≡ place_after wrote }
{
    wrote.unwrap_or(0)
}

// Writes a frame's type and the numbers before its body. A refusal leaves the output untouched.
#[tactic(auto, using(sizes::proofs::Bounds::at_most_four))]
pub fn front(out: &mut [u8], at: usize, p: Parts) -> Result<usize, Answer>
    ensures { (result, out.new) ≡ writes (row_draft (front_of p)) out.old at }
{
    let numbers = [p.ty, p.a, p.b, p.c, p.d];
    let l = layouts::table::find(p.ty);
    let n = usize::from(l.numbers) + 1;
    row::write(out, at, &numbers[..n])
}

// Writes the numbers after a frame's body. A refusal leaves the output untouched.
#[tactic(auto, using(sizes::proofs::Bounds::at_most_four))]
pub fn back(out: &mut [u8], at: usize, p: Parts) -> Result<usize, Answer>
    ensures { (result, out.new) ≡ writes (row_draft (back_of p)) out.old at }
{
    let numbers = [p.x, p.y, p.z, 0];
    let l = layouts::table::find(p.ty);
    let n = usize::from(l.after);
    row::write(out, at, &numbers[..n])
}

// Writes bytes after their length, a number on the wire. A refusal leaves the output untouched.
#[tactic(auto, using(wire::proofs::Exit::size_bounds), unfolding(crate::specs::Bodies::counted_draft, wire::specs::Writing::writes))]
pub fn counted(out: &mut [u8], at: usize, body: &[u8]) -> Result<usize, Answer>
    ensures { (result, out.new) ≡ writes (counted_draft body.now) out.old at }
{
    let len = body.len() as u64;
    if wire::MOST < len {
        return Err(Answer::Unwritable);
    }
    if !put::fits(out.len(), at, wire::size(len) + body.len()) {
        return Err(Answer::NoRoom);
    }
    let next = wire::write(out, at, len)?;
    put::bytes(out, next, body)
}

// Writes a connection ID after its length, which has one byte, and its token. A refusal leaves the output untouched.
#[tactic(auto, unfolding(crate::specs::Bodies::identity_draft, wire::specs::Writing::writes))]
pub fn identity(out: &mut [u8], at: usize, id: &[u8], token: &[u8]) -> Result<usize, Answer>
    ensures { (result, out.new) ≡ writes (identity_draft id.now token.now) out.old at }
{
    let Ok(len) = u8::try_from(id.len()) else {
        return Err(Answer::Unwritable);
    };
    if !put::fits(out.len(), at, 1 + id.len() + token.len()) {
        return Err(Answer::NoRoom);
    }
    out[at] = len;
    let next = put::bytes(out, at + 1, id)?;
    put::bytes(out, next, token)
}
