// Numbers on the wire (RFC 9000, section 16): read, sized and written.
#![tactic(auto)]

ghost use Rattle.std.specs.Prelude.{◌≡◌, ◌+◌, ◌≤◌, ◌<◌, ◌^◌, leb, length};
ghost use Rattle.std.proofs.lemmas.List.Edits.{sets};
ghost use Rattle.wire.specs.Number.{big_endian, spelled, number_at, bytes_of, size_of};
ghost use Rattle.wire.specs.Writing.{Bytes, writes, number_draft};

use answers::Answer;

// The largest number: 2^62-1.
pub const MOST: u64 = 4611686018427387903;

#[tactic(auto, unfolding(crate::specs::Number::big_endian))]
fn two(s: &[u8], at: usize) -> u64
    requires { at + 2 ≤ length s.now }
    ensures { (result ≡ big_endian s.now at 2) × (result < 65536) }
{
    u64::from(s[at]) * 256 + u64::from(s[at + 1])
}

#[tactic(auto, unfolding(crate::specs::Number::big_endian))]
fn four(s: &[u8], at: usize) -> u64
    requires { at + 4 ≤ length s.now }
    ensures { (result ≡ big_endian s.now at 4) × (result < 4294967296) }
{
    two(s, at) * 65536 + two(s, at + 2)
}

// Reads the number at a place: its value and the place after it, or nothing where the bytes end before its own.
#[tactic(auto, unfolding(crate::specs::Number::number_at, crate::specs::Number::field_at, crate::specs::Number::values_in, crate::specs::Number::big_endian))]
pub fn read(s: &[u8], at: usize) -> Option<(u64, usize)>
    ensures { result ≡ number_at s.now at }
{
    if s.len() <= at {
        return None;
    }
    let left = s.len() - at;
    let first = s[at];
    if first < 64 {
        return Some((u64::from(first), at + 1));
    }
    if first < 128 {
        if left < 2 {
            return None;
        }
        return Some((two(s, at) % 16384, at + 2));
    }
    if first < 192 {
        if left < 4 {
            return None;
        }
        return Some((four(s, at) % 1073741824, at + 4));
    }
    if left < 8 {
        return None;
    }
    Some((
        (four(s, at) * 4294967296 + four(s, at + 4)) % 4611686018427387904,
        at + 8,
    ))
}

// How many bytes the shortest form of v has.
#[tactic(auto, unfolding(crate::specs::Number::size_of, crate::specs::Number::form_of))]
pub fn size(v: u64) -> usize
    ensures { result ≡ size_of v }
{
    if v < 64 {
        return 1;
    }
    if v < 16384 {
        return 2;
    }
    if v < 1073741824 {
        return 4;
    }
    8
}

#[tactic(auto, unfolding(crate::specs::Number::spelled))]
fn put_two(out: &mut [u8], at: usize, x: u64)
    requires { at + 2 ≤ length out.old }
    ensures { out.new ≡ sets out.old at (spelled 2 x) }
{
    out[at] = (x / 256 % 256) as u8;
    out[at + 1] = (x % 256) as u8;
}

#[tactic(auto, unfolding(crate::specs::Number::spelled))]
fn put_four(out: &mut [u8], at: usize, x: u64)
    requires { at + 4 ≤ length out.old }
    ensures { out.new ≡ sets out.old at (spelled 4 x) }
{
    put_two(out, at, x / 65536);
    put_two(out, at + 2, x);
}

// Whether an output of n bytes has room for so many from a place on.
fn has_room(n: usize, at: usize, bytes: usize) -> bool
    ensures { result ≡ leb (at + bytes) n }
{
    if n < bytes {
        return false;
    }
    at <= n - bytes
}

// Writes a number of one byte at a place, or says that there is no room.
#[tactic(auto, unfolding(crate::specs::Writing::writes, crate::specs::Number::bytes_of, crate::specs::Number::size_of, crate::specs::Number::form_of, crate::specs::Number::values_in, crate::specs::Number::spelled))]
fn write_one(out: &mut [u8], at: usize, v: u64) -> Result<usize, Answer>
    requires { v < 64 }
    ensures { (result, out.new) ≡ writes (Bytes (bytes_of v)) out.old at }
{
    if !has_room(out.len(), at, 1) {
        return Err(Answer::NoRoom);
    }
    out[at] = (v % 256) as u8;
    Ok(at + 1)
}

// The same for two bytes.
#[tactic(auto, unfolding(crate::specs::Writing::writes, crate::specs::Number::bytes_of, crate::specs::Number::size_of, crate::specs::Number::form_of, crate::specs::Number::values_in, crate::specs::Number::spelled))]
fn write_two(out: &mut [u8], at: usize, v: u64) -> Result<usize, Answer>
    requires { (64 ≤ v) × (v < 16384) }
    ensures { (result, out.new) ≡ writes (Bytes (bytes_of v)) out.old at }
{
    if !has_room(out.len(), at, 2) {
        return Err(Answer::NoRoom);
    }
    put_two(out, at, 16384 + v);
    Ok(at + 2)
}

// Writes v, which has four bytes or eight, at a place with room for it.
#[tactic(auto, unfolding(crate::specs::Number::bytes_of, crate::specs::Number::size_of, crate::specs::Number::form_of, crate::specs::Number::values_in, crate::specs::Number::spelled))]
fn put_long(out: &mut [u8], at: usize, v: u64) -> usize
    requires { (16384 ≤ v) × (v < 2 ^ 62) × (at + size_of v ≤ length out.old) }
    ensures { (result ≡ at + size_of v) × (out.new ≡ sets out.old at (bytes_of v)) }
{
    if v < 1073741824 {
        put_four(out, at, 2147483648 + v);
        return at + 4;
    }
    let x = 13835058055282163712 + v;
    put_four(out, at, x / 4294967296);
    put_four(out, at + 4, x);
    at + 8
}

// Writes the shortest form of v at a place. A refusal leaves the output untouched, and so does acceptance outside of v's bytes.
// The short forms come first, each with its own test for room: most numbers are short, and above 2^62-1 is none of these.
#[tactic(auto, using(crate::proofs::Exit::length_bytes), unfolding(crate::specs::Writing::writes, crate::specs::Writing::number_draft))]
pub fn write(out: &mut [u8], at: usize, v: u64) -> Result<usize, Answer>
    ensures { (result, out.new) ≡ writes (number_draft v) out.old at }
{
    if v < 64 {
        return write_one(out, at, v);
    }
    if v < 16384 {
        return write_two(out, at, v);
    }
    if MOST < v {
        return Err(Answer::Unwritable);
    }
    if !has_room(out.len(), at, size(v)) {
        return Err(Answer::NoRoom);
    }
    Ok(put_long(out, at, v))
}
