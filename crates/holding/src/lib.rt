// The bytes that ONE stream holds (docs/RULES.md, "Ordered bytes"): a ring of 4,096 bytes and a mark for each, lent. The byte of the place p has
// the slot p % 4096; it is held where p is from `read` up to `held` and its mark is set.
#![tactic(auto)]

ghost use Rattle.std.specs.Prelude.{◌≡◌, length};
ghost use Rattle.holding.specs.Kept.{offered_of, ring_kept, marks_kept, handed_of, handed_out};

use clashes::{Piece, Reach};

// Why a frame's bytes are refused: they do not fit, or a byte that is held is contradicted.
#[derive(Clone, Copy, Debug, PartialEq, Eq)]
pub enum OfferError {
    Outside,
    Contradicts,
}

// A frame's bytes offered: refused where they do not fit or where one contradicts a byte that is held, and then nothing changes; else kept,
// and one above the furthest place reached is told.
#[tactic(auto, unfolding(crate::specs::Kept::offered_of, crate::specs::Kept::keeps, crate::specs::Kept::ring_kept, crate::specs::Kept::marks_kept, clashes::specs::Held::clashes_in))]
pub fn offer(
    ring: &mut [u8],
    marks: &mut [u64],
    reach: Reach,
    s: &[u8],
    piece: Piece,
) -> Result<u64, OfferError>
    ensures value { result ≡ offered_of ring.old marks.old reach.read reach.held s.now piece.from piece.len piece.offset }
    ensures ring_after { ring.new ≡ ring_kept ring.old marks.old reach.read reach.held s.now piece.from piece.len piece.offset }
    ensures marks_after { marks.new ≡ marks_kept ring.old marks.old reach.read reach.held s.now piece.from piece.len piece.offset }
{
    if !clashes::has_room(ring, marks, reach, s, piece) {
        return Err(OfferError::Outside);
    }
    if clashes::clash(ring, marks, reach, s, piece) {
        return Err(OfferError::Contradicts);
    }
    Ok(keeping::keep(ring, marks, reach, s, piece))
}

// The longest run of held bytes from `read` on, written to the front of `out`, or nothing where that is too short for it.
#[tactic(auto, unfolding(crate::specs::Kept::can_hand, crate::specs::Kept::handed_of, crate::specs::Kept::handed_out, crate::specs::Kept::front_of, seams::specs::Seam::read_of, ring::specs::Words::list_of))]
pub fn hand(ring: &[u8], marks: &[u64], reach: Reach, out: &mut [u8]) -> Option<usize>
    ensures value { result ≡ handed_of ring.now marks.now reach.read reach.held (length out.old) }
    ensures out_after { out.new ≡ handed_out ring.now marks.now reach.read reach.held out.old }
{
    if ring.len() != 4096 || marks.len() != 64 || 4096 < reach.held.saturating_sub(reach.read) {
        return Some(0);
    }
    let n = places::run(marks, reach.read, reach.held) as usize;
    if out.len() < n {
        return None;
    }
    seams::take(ring, out, reach.read, n);
    Some(n)
}
