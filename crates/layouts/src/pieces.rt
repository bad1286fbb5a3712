// The parts of a frame after its type: numbers, some of them not there, and what a tail holds.
ghost use Rattle.std.specs.Prelude.{◌≡◌, length};
ghost use Rattle.layouts.specs.Body.{optional_at, numbers_at, sized_at, counted_at, remainder_at, identity_at, ranged_at, body_at};

use crate::{Body, Numbers, Tail};

// A number that is there if `there`, and else is 0.
#[tactic(auto, unfolding(crate::specs::Body::optional_at))]
fn read_optional(s: &[u8], at: usize, there: bool) -> Option<(u64, usize)>
    ensures { result ≡ optional_at s.now at there }
{
    if there {
        wire::read(s, at)
    } else {
        Some((0, at))
    }
}

// The first n of four numbers, and 0 for the others.
#[tactic(auto, unfolding(crate::specs::Body::numbers_at, crate::specs::Body::optional_at))]
pub fn read_numbers(s: &[u8], at: usize, n: u8) -> Option<Numbers>
    ensures { result ≡ numbers_at s.now at n }
{
    if n == 0 {
        return Some(Numbers {
            a: 0,
            b: 0,
            c: 0,
            d: 0,
            next: at,
        });
    }
    let Some((a, p)) = read_optional(s, at, 0 < n) else {
        return None;
    };
    let Some((b, q)) = read_optional(s, p, 1 < n) else {
        return None;
    };
    let Some((c, r)) = read_optional(s, q, 2 < n) else {
        return None;
    };
    let Some((d, next)) = read_optional(s, r, 3 < n) else {
        return None;
    };
    Some(Numbers { a, b, c, d, next })
}

// So many bytes from a place on, if they are there.
#[tactic(auto, unfolding(crate::specs::Body::sized_at))]
fn read_sized(s: &[u8], at: usize, n: u64) -> Option<Body>
    ensures { result ≡ sized_at (length s.now) at n }
{
    let left = s.len().checked_sub(at)?;
    let len = n as usize;
    if left < len {
        return None;
    }
    Some(Body {
        at,
        len,
        token: 0,
        next: at + len,
    })
}

// Bytes after their own number.
#[tactic(auto, unfolding(crate::specs::Body::counted_at))]
fn read_counted(s: &[u8], at: usize) -> Option<Body>
    ensures { result ≡ counted_at s.now at }
{
    let Some((n, next)) = wire::read(s, at) else {
        return None;
    };
    read_sized(s, next, n)
}

// All bytes that are left.
#[tactic(auto, unfolding(crate::specs::Body::remainder_at))]
fn read_remainder(s: &[u8], at: usize) -> Option<Body>
    ensures { result ≡ remainder_at (length s.now) at }
{
    let len = s.len().checked_sub(at)?;
    Some(Body {
        at,
        len,
        token: 0,
        next: s.len(),
    })
}

// A connection ID after its length, a plain byte, and a reset token of 16 bytes after that.
#[tactic(auto, unfolding(crate::specs::Body::identity_at))]
fn read_identity(s: &[u8], at: usize) -> Option<Body>
    ensures { result ≡ identity_at s.now at }
{
    let len = usize::from(*s.get(at)?);
    if s.len() - at - 1 < len + 16 {
        return None;
    }
    Some(Body {
        at: at + 1,
        len,
        token: at + 1 + len,
        next: at + 1 + len + 16,
    })
}

// The further ranges of an ACK, of which none may go below 0, nor the first.
#[tactic(auto, unfolding(crate::specs::Body::ranged_at))]
fn read_ranged(s: &[u8], at: usize, largest: u64, count: u64, first: u64) -> Option<Body>
    ensures { result ≡ ranged_at s.now at largest count first }
{
    let least = largest.checked_sub(first)?;
    let next = ranges::all(s, at, count, least)?;
    Some(Body {
        at,
        len: 0,
        token: 0,
        next,
    })
}

// What stands at a place for a tail; `a`, `c` and `d` are an ACK's largest number, its count and its first range.
pub fn read_body(s: &[u8], at: usize, tail: Tail, a: u64, c: u64, d: u64) -> Option<Body>
    ensures { result ≡ body_at s.now at tail a c d }
{
    match tail {
        Tail::Nothing => Some(Body {
            at: 0,
            len: 0,
            token: 0,
            next: at,
        }),
        Tail::Counted => read_counted(s, at),
        Tail::Remainder => read_remainder(s, at),
        Tail::Eight => read_sized(s, at, 8),
        Tail::Identity => read_identity(s, at),
        Tail::Ranges => read_ranged(s, at, a, c, d),
    }
}
