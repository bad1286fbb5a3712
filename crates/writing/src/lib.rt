// Frames written (RFC 9000, 19): a frame, and the slice that its places refer to, into an output.
#![tactic(auto)]

mod pieces;

ghost use Rattle.std.specs.Prelude.{◌≡◌, true, ◌+◌, ◌≤◌, ◌<◌, ◌^◌, length};
ghost use Rattle.contents.specs.Content.{content_of, contents};
ghost use Rattle.contents.specs.Taken.{takes};
ghost use Rattle.sizes.specs.Spelled.{spelled_frame, frame_draft};
ghost use Rattle.wire.specs.Writing.{Bytes, writes};

use answers::Answer;
use fields::Parts;
use frames::Frame;

// Writes a frame that can be written at a place with room for it: its type and numbers, its body, the numbers after it.
fn put(p: Parts, s: &[u8], out: &mut [u8], at: usize) -> Result<usize, Answer>
    requires { (p.ty < 2 ^ 62) × (takes (content_of s.now p) ≡ true) × (at + length (spelled_frame (content_of s.now p)) ≤ length out.old) }
    ensures { (result, out.new) ≡ writes (Bytes (spelled_frame (content_of s.now p))) out.old at }
{
    let l = layouts::table::find(p.ty);
    let body = bodies::front(out, at, p)?;
    let rest = pieces::put(l.tail, p, s, out, body)?;
    bodies::back(out, rest, p)
}

// Writes a frame at a place. A refusal leaves the output untouched.
#[tactic(auto, using(sizes::proofs::Measuring::not_taken, sizes::proofs::Measuring::counted, sizes::proofs::Bounds::type_known), unfolding(sizes::specs::Spelled::frame_draft, wire::specs::Writing::writes))]
pub fn write(frame: Frame, s: &[u8], out: &mut [u8], at: usize) -> Result<usize, Answer>
    ensures { (result, out.new) ≡ writes (frame_draft (contents s.now frame)) out.old at }
{
    let p = contents::split::apart(frame);
    let Some(bytes) = sizes::measure(p, s) else {
        return Err(Answer::Unwritable);
    };
    if !text::put::fits(out.len(), at, bytes) {
        return Err(Answer::NoRoom);
    }
    put(p, s, out, at)
}
