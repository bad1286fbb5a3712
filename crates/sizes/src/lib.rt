// How many bytes a frame has when it is written (RFC 9000, 19), or none where it cannot be (109).
#![tactic(auto)]

mod pieces;

ghost use Rattle.std.specs.Prelude.{◌≡◌, true, length};
ghost use Rattle.contents.specs.Content.{content_of};
ghost use Rattle.contents.specs.Taken.{takes};
ghost use Rattle.sizes.specs.Spelled.{spelled_frame};
ghost use Rattle.sizes.specs.Measure.{measured_of};

use fields::Parts;

// How many bytes a frame that can be written has.
#[tactic(auto, using(crate::proofs::Bounds::at_most_four, crate::proofs::Bounds::bounded, crate::proofs::Spelling::four_size, crate::proofs::Spelling::spelled_length, wire::proofs::Exit::size_bounds))]
fn size(p: Parts, s: &[u8]) -> usize
    requires { takes (content_of s.now p) ≡ true }
    ensures { result ≡ length (spelled_frame (content_of s.now p)) }
{
    let l = layouts::table::find(p.ty);
    let numbers = [p.a, p.b, p.c, p.d];
    let after = [p.x, p.y, p.z, 0];
    let n = usize::from(l.numbers);
    let m = usize::from(l.after);
    let front = wire::size(p.ty) + row::size(&numbers[..n]);
    front + pieces::size(l.tail, p, s) + row::size(&after[..m])
}

// How many bytes a frame of these parts, whose places refer to s, has; or none where it cannot be written (109).
#[tactic(auto, unfolding(crate::specs::Measure::measured_of))]
pub fn measure(p: Parts, s: &[u8]) -> Option<usize>
    ensures { result ≡ measured_of (content_of s.now p) }
{
    if !contents::checks::writable(p, s) {
        return None;
    }
    Some(size(p, s))
}
