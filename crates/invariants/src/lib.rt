// What every version of QUIC has in common (RFC 8999, 5.1): the version and both connection IDs of a long header, and bytes
// after their own number.
#![tactic(auto)]

ghost use Rattle.std.specs.Prelude.{◌≡◌, ◌≤◌, ◌<◌, length};
ghost use Rattle.wire.specs.Number.{big_endian, plain_at};
ghost use Rattle.invariants.specs.Invariant.{bytes_after, invariant_of};

// A part of the rest: its place and its length. One that is not there is empty, at the place where it would stand.
#[derive(Clone, Copy)]
pub struct Part {
    pub at: usize,
    pub len: usize,
}

// What every version has after a long header's first byte: the version and both IDs.
#[derive(Clone, Copy)]
pub struct Invariant {
    pub version: u64,
    pub destination: Part,
    pub source: Part,
}

// As many bytes as a number says, from the place after it; none where the rest ends before theirs.
#[tactic(auto, unfolding(crate::specs::Invariant::bytes_after))]
pub fn bytes_after(rest: &[u8], count: Option<(u64, usize)>) -> Option<Part>
    ensures { result ≡ bytes_after rest.now count }
{
    let Some((value, at)) = count else {
        return None;
    };
    let left = rest.len().checked_sub(at)?;
    if (left as u64) < value {
        return None;
    }
    Some(Part {
        at,
        len: value as usize,
    })
}

// The four bytes after the first.
#[tactic(auto, unfolding(wire::specs::Number::big_endian))]
fn version_of(rest: &[u8]) -> u64
    requires { 5 ≤ length rest.now }
    ensures { result ≡ big_endian rest.now 1 4 }
{
    u64::from(rest[1]) * 16777216
        + u64::from(rest[2]) * 65536
        + u64::from(rest[3]) * 256
        + u64::from(rest[4])
}

// A connection ID after its length, which is a plain byte.
#[tactic(auto, unfolding(crate::specs::Invariant::bytes_after, wire::specs::Number::field_at, wire::specs::Number::big_endian))]
fn id_at(rest: &[u8], at: usize) -> Option<Part>
    ensures { result ≡ bytes_after rest.now (plain_at rest.now at 1) }
{
    let &len = rest.get(at)?;
    bytes_after(rest, Some((u64::from(len), at + 1)))
}

// The version and both IDs of a long header.
#[tactic(auto, unfolding(crate::specs::Invariant::invariant_of, wire::specs::Number::field_at))]
pub fn read(rest: &[u8]) -> Option<Invariant>
    ensures { result ≡ invariant_of rest.now }
{
    if rest.len() < 5 {
        return None;
    }
    let destination = id_at(rest, 5)?;
    let source = id_at(rest, destination.at + destination.len)?;
    Some(Invariant {
        version: version_of(rest),
        destination,
        source,
    })
}
