// Whether a frame contradicts the bytes that ONE stream holds (docs/RULES.md, "Ordered bytes"), which are lent: a ring of 4,096 bytes and a mark for
// each. The byte of the place p has the slot p % 4096; it is held where p is from `read` up to `held` and its mark is set.
#![tactic(auto)]

ghost use Rattle.std.specs.Prelude.{◌≡◌};
ghost use Rattle.clashes.specs.Held.{room_for, clashes_in};

// The highest place that a stream has: 2^62-1.
const MOST: u64 = 4611686018427387903;

// How far ONE stream came: its bytes were read up to `read`, and none is held from `held` on.
#[derive(Clone, Copy)]
pub struct Reach {
    pub read: u64,
    pub held: u64,
}

// A frame's bytes among others: `len` of them from `from` on, at the places from `offset` on.
#[derive(Clone, Copy)]
pub struct Piece {
    pub from: usize,
    pub len: usize,
    pub offset: u64,
}

// Whether a frame, a piece of s, fits what is lent. Public as a part of `holding::offer`, which asks it before.
#[tactic(auto, unfolding(crate::specs::Held::room_for))]
pub fn has_room(ring: &[u8], marks: &[u64], reach: Reach, s: &[u8], piece: Piece) -> bool
    ensures { result ≡ room_for ring.now marks.now reach.read reach.held s.now piece.from piece.len piece.offset }
{
    let Piece { from, len, offset } = piece;
    if ring.len() != 4096 || marks.len() != 64 || MOST < reach.read {
        return false;
    }
    let last = reach.read + 4096;
    if last < reach.held || last < offset || last - offset < len as u64 {
        return false;
    }
    len <= s.len() && from <= s.len() - len
}

// Whether some byte of the frame contradicts a byte that is held; none does where it does not fit. It goes by runs of held places.
pub fn clash(ring: &[u8], marks: &[u64], reach: Reach, s: &[u8], piece: Piece) -> bool
    ensures { result ≡ clashes_in ring.now marks.now reach.read reach.held s.now piece.from piece.len piece.offset }
{
    if !has_room(ring, marks, reach, s, piece) {
        return false;
    }
    let mut at = piece.offset.max(reach.read);
    let to = (piece.offset + piece.len as u64).min(reach.held);
    while at < to {
        let first = places::up(marks, at, to, false);
        let last = places::up(marks, first, to, true);
        let place = piece.from + (first - piece.offset) as usize;
        if !seams::same_at(ring, first, s, place, (last - first) as usize) {
            return true;
        }
        at = last;
    }
    false
}
