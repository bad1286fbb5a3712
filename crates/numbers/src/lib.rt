// Packet numbers (RFC 9000, 17.1, A.2 and A.3): what a truncated number stands for, and how many bytes to send.
#![tactic(auto)]

ghost use Rattle.std.specs.Prelude.{◌≡◌, ◌≤◌};
ghost use Rattle.numbers.specs.Numbers.{bytes_in, window_of, in_range, recovered_of, length_after, length_of};

use answers::Answer;

// One above the largest packet number: 2^62.
pub const LIMIT: u64 = 4611686018427387904;

// How many bytes a packet number has in a header.
#[derive(Clone, Copy)]
pub enum Size {
    One,
    Two,
    Three,
    Four,
}

impl Size {
    // How many bytes it is.
    pub fn bytes(self) -> usize
        ensures { result ≡ bytes_in self }
    {
        match self {
            Size::One => 1,
            Size::Two => 2,
            Size::Three => 3,
            Size::Four => 4,
        }
    }
}

// How many truncated numbers there are of a size.
fn width(size: Size) -> u64
    ensures { (result ≡ window_of size) × (256 ≤ result) × (result ≤ 4294967296) }
{
    match size {
        Size::One => 256,
        Size::Two => 65536,
        Size::Three => 16777216,
        Size::Four => 4294967296,
    }
}

fn in_range(number: u64) -> Result<u64, Answer>
    ensures { result ≡ in_range number }
{
    if number < LIMIT {
        return Ok(number);
    }
    Err(Answer::NoSuchNumber)
}

// The number that a truncated one stands for, or 111, where `expected` is one above the largest recorded, 0 if there is none.
// Of `truncated` only as many bytes count as the size has. The first of two tests has no sum wrap and no difference go below 0 in the second.
#[tactic(auto, unfolding(crate::specs::Numbers::recovered_of, crate::specs::Numbers::nearest_of))]
pub fn recover(expected: u64, size: Size, truncated: u64) -> Result<u64, Answer>
    ensures { result ≡ recovered_of expected size truncated }
{
    let w = width(size);
    let candidate = expected / w * w + truncated % w;
    if candidate < LIMIT - w && candidate + w / 2 <= expected {
        return in_range(candidate + w);
    }
    if w <= candidate && expected < candidate - w / 2 {
        return in_range(candidate - w);
    }
    in_range(candidate)
}

// How many bytes to send `pn` in, by `next`: one above the largest acknowledged number, so that it is 0 before any and never below.
#[tactic(auto, unfolding(crate::specs::Numbers::length_after))]
fn length_after(pn: u64, next: u64) -> Result<Size, Answer>
    ensures { result ≡ length_after pn next }
{
    if LIMIT <= pn || pn < next {
        return Err(Answer::AboveCeiling);
    }
    let twice = 2 * (pn + 1 - next);
    if twice <= 256 {
        return Ok(Size::One);
    }
    if twice <= 65536 {
        return Ok(Size::Two);
    }
    if twice <= 16777216 {
        return Ok(Size::Three);
    }
    if twice <= 4294967296 {
        return Ok(Size::Four);
    }
    Err(Answer::AboveCeiling)
}

// How many bytes to send the number `pn` in, or 103, where `acked` is the largest acknowledged, -1 before any.
#[tactic(auto, unfolding(crate::specs::Numbers::length_of))]
pub fn send_length(pn: u64, acked: i64) -> Result<Size, Answer>
    ensures { result ≡ length_of pn acked }
{
    if acked == -1 {
        return length_after(pn, 0);
    }
    if acked < 0 {
        return Err(Answer::AboveCeiling);
    }
    length_after(pn, acked as u64 + 1)
}
