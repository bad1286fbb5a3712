// The plain first byte of a packet and the bytes of its number (RFC 9000, 17.1 to 17.3).
#![tactic(auto)]

ghost use Rattle.std.specs.Prelude.{◌≡◌, ◌≤◌};
ghost use Rattle.wire.specs.Number.{plain_at};
ghost use Rattle.numbers.specs.Numbers.{bytes_in};
ghost use Rattle.headers.specs.First.{header_of, size_in, reserved_of};

use kinds::Kind;
use numbers::Size;

// The kind of packet that a plain first byte tells; none where it is no packet that can be taken.
#[tactic(auto, unfolding(crate::specs::First::header_of))]
pub fn of_first(first: u8) -> Option<Kind>
    ensures { result ≡ header_of first }
{
    if first / 64 % 2 == 0 {
        return None;
    }
    if first / 128 == 0 {
        return Some(Kind::OneRtt);
    }
    let form = first / 16 % 4;
    match form {
        0 => Some(Kind::Initial),
        1 => Some(Kind::ZeroRtt),
        2 => Some(Kind::Handshake),
        _ => None,
    }
}

// The length of the number: the low two bits, plus one.
#[tactic(auto, unfolding(crate::specs::First::size_in))]
pub fn size(first: u8) -> Size
    ensures { result ≡ size_in first }
{
    let low = first % 4;
    match low {
        0 => Size::One,
        1 => Size::Two,
        2 => Size::Three,
        _ => Size::Four,
    }
}

// Whether reserved bits are set: 0x0c of a long header, 0x18 of a short one.
#[tactic(auto, unfolding(crate::specs::First::reserved_of))]
pub fn reserved(first: u8) -> bool
    ensures { result ≡ reserved_of first }
{
    if first / 128 == 0 {
        return first / 8 % 4 != 0;
    }
    first / 4 % 4 != 0
}

// The truncated number and the place after it: the first bytes, the highest first.
pub fn truncated(s: &[u8], size: Size) -> Option<(u64, usize)>
    ensures { result ≡ plain_at s.now 0 (bytes_in size) }
{
    let n = size.bytes();
    if s.len() < n {
        return None;
    }
    let mut value = 0;
    for &b in &s[..n] {
        value = value * 256 + u64::from(b);
    }
    Some((value, n))
}
