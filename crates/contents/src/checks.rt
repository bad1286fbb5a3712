// Whether a frame can be written (109 if not).
ghost use Rattle.std.specs.Prelude.{◌≡◌, [], ◌∷◌, ◌&&◌, ◌-◌, ◌*◌, leb};
ghost use Rattle.ranges.specs.Listed.{listed, fits};
ghost use Rattle.row.specs.Row.{in_range};
ghost use Rattle.contents.specs.Content.{body_of, token_inside, inside_of, content_of};
ghost use Rattle.contents.specs.Taken.{fitting, takes};

use fields::Parts;
use layouts::Tail;

fn token_inside(tail: Tail, p: Parts, n: usize) -> bool
    ensures { result ≡ token_inside n tail p }
{
    match tail {
        Tail::Identity => p.token <= n && 16 <= n - p.token,
        _ => true,
    }
}

// Whether all places lie inside a slice of n bytes.
#[tactic(auto, unfolding(crate::specs::Content::inside_of))]
fn inside(tail: Tail, p: Parts, n: usize) -> bool
    ensures { result ≡ inside_of n tail p }
{
    p.at <= n && p.len <= n - p.at && token_inside(tail, p, n)
}

// Whether no number is above 2^62-1.
fn in_range(p: Parts) -> bool
    ensures { result ≡ in_range (p.a ∷ p.b ∷ p.c ∷ p.d ∷ p.x ∷ p.y ∷ p.z ∷ p.len ∷ []) }
{
    row::in_range(&[p.a, p.b, p.c, p.d, p.x, p.y, p.z, p.len as u64])
}

// Whether an ACK's runs are there and none goes below 0.
#[tactic(auto, using(ranges::proofs::Listed::read_fits, ranges::proofs::Listed::broken_unfit))]
fn runs_fit(s: &[u8], at: usize, largest: u64, count: u64, first: u64) -> bool
    ensures { result ≡ (leb first largest && fits (largest - first) count (listed s.now at (2 * count))) }
{
    first <= largest && ranges::all(s, at, count, largest - first).is_some()
}

fn body_fits(tail: Tail, p: Parts, s: &[u8]) -> bool
    ensures { result ≡ fitting tail p.a p.c p.d (body_of s.now tail p) }
{
    match tail {
        Tail::Ranges => runs_fit(s, p.at, p.a, p.c, p.d),
        _ => true,
    }
}

// Whether a frame of these parts, whose places refer to s, can be written.
#[tactic(auto, unfolding(crate::specs::Taken::takes))]
pub fn writable(p: Parts, s: &[u8]) -> bool
    ensures { result ≡ takes (content_of s.now p) }
{
    let tail = layouts::table::find(p.ty).tail;
    inside(tail, p, s.len())
        && in_range(p)
        && !fields::faults::fault(p.ty, p.a, p.b, p.len as u64)
        && body_fits(tail, p, s)
}
