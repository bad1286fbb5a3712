// Splitting a datagram (RFC 9000, 17.2 and 17.3; RFC 8999, 5): one packet's header from the rest of it.
#![tactic(auto)]

ghost use Rattle.std.specs.Prelude.{◌≡◌, ◌+◌, ◌≤◌, ◌<◌, length, get_or};
ghost use Rattle.datagram.specs.Header.{whole_of};
ghost use Rattle.datagram.specs.Split.{negotiation_of, retry_of, numbered_of, initial_of, version_one_of, long_of, next_of};

use answers::Answer;
use invariants::{Invariant, Part};

// The seven kinds of packet that can be told apart before protection is removed.
#[derive(Clone, Copy)]
pub enum Kind {
    Initial,
    ZeroRtt,
    Handshake,
    Retry,
    OneRtt,
    VersionNegotiation,
    OtherVersion,
}

// A packet's header. Places count from the start of the rest that was handed in; `number` is the place of the
// packet number, or of what follows the IDs where there is none, and `end` the place after the packet.
#[derive(Clone, Copy)]
pub struct Header {
    pub kind: Kind,
    pub version: u64,
    pub destination: Part,
    pub source: Part,
    pub token: Part,
    pub number: usize,
    pub end: usize,
}

// A header after whose IDs all the rest belongs to the packet.
fn whole(rest: &[u8], kind: Kind, ids: Invariant) -> Header
    requires { ids.source.at + ids.source.len ≤ length rest.now }
    ensures { result ≡ whole_of rest.now kind ids.version ids.destination ids.source }
{
    let at = ids.source.at + ids.source.len;
    Header {
        kind,
        version: ids.version,
        destination: ids.destination,
        source: ids.source,
        token: Part { at, len: 0 },
        number: at,
        end: rest.len(),
    }
}

#[tactic(auto, unfolding(crate::specs::Split::negotiation_of))]
fn negotiation(rest: &[u8], ids: Invariant) -> Result<Header, Answer>
    requires { (ids.version ≡ 0) × (ids.source.at + ids.source.len ≤ length rest.now) }
    ensures { result ≡ negotiation_of rest.now ids.destination ids.source }
{
    let left = rest.len() - (ids.source.at + ids.source.len);
    if left == 0 || left % 4 != 0 {
        return Err(Answer::NoPacket);
    }
    Ok(whole(rest, Kind::VersionNegotiation, ids))
}

#[tactic(auto, unfolding(crate::specs::Split::retry_of))]
fn retry(rest: &[u8], ids: Invariant) -> Result<Header, Answer>
    requires { (ids.version ≡ 1) × (ids.source.at + ids.source.len ≤ length rest.now) }
    ensures { result ≡ retry_of rest.now ids.destination ids.source }
{
    if rest.len() - (ids.source.at + ids.source.len) < 16 {
        return Err(Answer::NoPacket);
    }
    Ok(whole(rest, Kind::Retry, ids))
}

// A packet with a Length, which counts from the packet number and leaves room for a sample.
#[tactic(auto, unfolding(crate::specs::Split::numbered_of))]
fn numbered(rest: &[u8], kind: Kind, ids: Invariant, token: Part) -> Result<Header, Answer>
    requires { (ids.version ≡ 1) × (token.at + token.len ≤ length rest.now) }
    ensures { result ≡ numbered_of rest.now kind ids.destination ids.source token }
{
    let length = wire::read(rest, token.at + token.len);
    let counted = invariants::bytes_after(rest, length).ok_or(Answer::NoPacket)?;
    if counted.len < 20 {
        return Err(Answer::NoPacket);
    }
    Ok(Header {
        kind,
        version: ids.version,
        destination: ids.destination,
        source: ids.source,
        token,
        number: counted.at,
        end: counted.at + counted.len,
    })
}

#[tactic(auto, unfolding(crate::specs::Split::initial_of))]
fn initial(rest: &[u8], ids: Invariant) -> Result<Header, Answer>
    requires { (ids.version ≡ 1) × (ids.source.at + ids.source.len ≤ length rest.now) }
    ensures { result ≡ initial_of rest.now ids.destination ids.source }
{
    let length = wire::read(rest, ids.source.at + ids.source.len);
    let token = invariants::bytes_after(rest, length).ok_or(Answer::NoPacket)?;
    numbered(rest, Kind::Initial, ids, token)
}

// By the type of a long header of version 1. Its low four bits are protected and are not looked at.
#[tactic(auto, unfolding(crate::specs::Split::version_one_of))]
fn version_one(rest: &[u8], first: u8, ids: Invariant) -> Result<Header, Answer>
    requires { (first ≡ get_or rest.now 0 0) × (ids.version ≡ 1) × (ids.source.at + ids.source.len ≤ length rest.now) }
    ensures { result ≡ version_one_of rest.now ids.destination ids.source }
{
    if first / 64 % 2 != 1 || 20 < ids.destination.len || 20 < ids.source.len {
        return Err(Answer::NoPacket);
    }
    let none = Part {
        at: ids.source.at + ids.source.len,
        len: 0,
    };
    let form = first / 16 % 4;
    match form {
        0 => initial(rest, ids),
        1 => numbered(rest, Kind::ZeroRtt, ids, none),
        2 => numbered(rest, Kind::Handshake, ids, none),
        _ => retry(rest, ids),
    }
}

#[tactic(auto, unfolding(crate::specs::Split::long_of))]
fn long(rest: &[u8], first: u8) -> Result<Header, Answer>
    requires { first ≡ get_or rest.now 0 0 }
    ensures { result ≡ long_of rest.now }
{
    let ids = invariants::read(rest).ok_or(Answer::NoPacket)?;
    if ids.version == 0 {
        return negotiation(rest, ids);
    }
    if ids.version == 1 {
        return version_one(rest, first, ids);
    }
    Ok(whole(rest, Kind::OtherVersion, ids))
}

// The header of the packet at the start of the rest of a datagram; done where the rest is empty, and no packet where it begins with none of
// these forms. The next rest begins at the header's end.
#[tactic(auto, unfolding(crate::specs::Split::next_of, crate::specs::Split::short_of))]
pub fn split(rest: &[u8]) -> Result<Header, Answer>
    ensures { result ≡ next_of rest.now }
{
    if rest.is_empty() {
        return Err(Answer::Done);
    }
    let first = rest[0];
    if first / 128 % 2 == 1 {
        return long(rest, first);
    }
    if first / 64 % 2 != 1 || rest.len() < 29 {
        return Err(Answer::NoPacket);
    }
    let ids = Invariant {
        version: 1,
        destination: Part { at: 1, len: 8 },
        source: Part { at: 9, len: 0 },
    };
    Ok(whole(rest, Kind::OneRtt, ids))
}
