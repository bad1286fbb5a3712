// A stream by its half and ordinal (RFC 9000, 2.1): who opens it, and where its entry stands in the table. Half and ordinal are read
// off the ID that the stream has at a server; a client's IDs are turned into such before anything else is asked of them.
#![tactic(auto)]

ghost use Rattle.std.specs.Prelude.{◌≡◌};
ghost use Rattle.halves.specs.Seat.{exchanged_of, seated_of};
ghost use Rattle.halves.specs.Stream.{stream_of, id_of, peers, place_of};

use kinds::Role;

// Halves by number: 0 the peer's two-way streams, 1 our two-way ones, 2 the peer's one-way, 3 our one-way.
#[derive(Clone, Copy)]
pub struct Stream {
    pub half: usize,
    pub ordinal: u64,
}

impl Stream {
    // The ceiling of a half: 64 streams a type.
    pub const MOST: u64 = 64;
}

// How many ordinals the IDs of 62 bits have: 2^60.
const ORDINALS: u64 = 1152921504606846976;

// The places that a half has in the table.
const PLACES: usize = Stream::MOST as usize;

// The types 0 and 1 exchanged, and 2 and 3: what one end calls its own streams, the other calls the peer's.
#[tactic(auto, unfolding(crate::specs::Seat::exchanged_of))]
fn exchanged(id: u64) -> u64
    ensures { result ≡ exchanged_of id }
{
    if id % 2 == 0 { id + 1 } else { id - 1 }
}

// An ID on the wire as the ID that the stream has at a server; and back, as twice is not at all.
pub fn seated(role: Role, id: u64) -> u64
    ensures { result ≡ seated_of role id }
{
    match role {
        Role::Server => id,
        Role::Client => exchanged(id),
    }
}

// The stream that an ID names.
pub fn named(id: u64) -> Stream
    ensures { result ≡ stream_of id }
{
    Stream {
        half: (id % 4) as usize,
        ordinal: id / 4,
    }
}

// Its ID again; 0 for what no ID names.
#[tactic(auto, unfolding(crate::specs::Stream::id_of))]
pub fn id_of(s: Stream) -> u64
    ensures { result ≡ id_of s.half s.ordinal }
{
    if s.half < 4 && s.ordinal < ORDINALS {
        4 * s.ordinal + s.half as u64
    } else {
        0
    }
}

// Whether the peer opens the streams of a half.
pub fn is_peers(half: usize) -> bool
    ensures { result ≡ peers half }
{
    half == 0 || half == 2
}

// The place of a stream's entry in the table; the first for a stream that has none.
#[tactic(auto, unfolding(crate::specs::Stream::place_of, crate::specs::Stream::listed))]
pub fn place_of(id: u64) -> usize
    ensures { result ≡ place_of id }
{
    let s = named(id);
    if s.half < 3 && s.ordinal < Stream::MOST {
        PLACES * s.half + s.ordinal as usize
    } else {
        0
    }
}
