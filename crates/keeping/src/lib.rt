// A frame kept among the bytes that ONE stream holds (docs/RULES.md, "Ordered bytes"): its bytes are stored, the marks of the places that it jumps
// over are cleared, and its own are set.
#![tactic(auto)]

ghost use Rattle.std.specs.Prelude.{◌≡◌, ◌+◌, max};
ghost use Rattle.answers.specs.Choice.{◌⇒◌∣◌};
ghost use Rattle.clashes.specs.Held.{room_for};
ghost use Rattle.keeping.specs.After.{ring_after, marks_after};

use clashes::{Piece, Reach};

// Keeps the frame's bytes at places from `read` on, and tells the new `held`; nothing changes where the frame does not fit. Public as a part of
// `holding::offer`, which has asked whether a byte that is held is contradicted.
pub fn keep(ring: &mut [u8], marks: &mut [u64], reach: Reach, s: &[u8], piece: Piece) -> u64
    ensures value { result ≡ (room_for ring.old marks.old reach.read reach.held s.now piece.from piece.len piece.offset ⇒ max reach.held (piece.offset + piece.len) ∣ reach.held) }
    ensures ring_after { ring.new ≡ (room_for ring.old marks.old reach.read reach.held s.now piece.from piece.len piece.offset ⇒ ring_after ring.old reach.read s.now piece.from piece.len piece.offset ∣ ring.old) }
    ensures marks_after { marks.new ≡ (room_for ring.old marks.old reach.read reach.held s.now piece.from piece.len piece.offset ⇒ marks_after marks.old reach.read reach.held piece.len piece.offset ∣ marks.old) }
{
    if !clashes::has_room(ring, marks, reach, s, piece) {
        return reach.held;
    }
    let Reach { read, held } = reach;
    let Piece { from, len, offset } = piece;
    let end = offset + len as u64;
    let top = held.max(end);
    if end <= read {
        return top;
    }
    let start = offset.max(read);
    let gap = held.max(read);
    let skip = (start - offset) as usize;
    seams::store(ring, start, s, from + skip, len - skip);
    places::paint(marks, gap, start, false);
    places::paint(marks, start, end, true);
    top
}
