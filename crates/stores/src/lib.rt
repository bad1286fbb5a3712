// The stores of all 192 streams (docs/RULES.md, "Ordered bytes"): 4,096 bytes and 64 words of marks for each, one stream after the other, lent. The
// parts of the stream at a place are lent on; no other stream's part is touched.
#![tactic(auto)]

ghost use Rattle.std.specs.Prelude.{◌≡◌};
ghost use Rattle.stores.specs.Stores.{offered_in, rings_kept, marks_kept_in, handed_in, handed_out_in};

use clashes::{Piece, Reach};
use holding::OfferError;

// A frame's bytes offered to the stream at a place: refused where they do not fit or where one contradicts a byte that is held, and then nothing changes; else kept.
#[tactic(auto, unfolding(crate::specs::Stores::offered_in, crate::specs::Stores::rings_kept, crate::specs::Stores::marks_kept_in, crate::specs::Stores::stores_fit))]
pub fn offer(
    rings: &mut [u8],
    marks: &mut [u64],
    place: usize,
    reach: Reach,
    s: &[u8],
    piece: Piece,
) -> Result<u64, OfferError>
    ensures value { result ≡ offered_in rings.old marks.old place reach.read reach.held s.now piece.from piece.len piece.offset }
    ensures rings_after { rings.new ≡ rings_kept rings.old marks.old place reach.read reach.held s.now piece.from piece.len piece.offset }
    ensures marks_after { marks.new ≡ marks_kept_in rings.old marks.old place reach.read reach.held s.now piece.from piece.len piece.offset }
{
    if rings.len() != 786432 || marks.len() != 12288 || 192 <= place {
        return Err(OfferError::Outside);
    }
    let bytes = place * 4096;
    let words = place * 64;
    holding::offer(
        &mut rings[bytes..bytes + 4096],
        &mut marks[words..words + 64],
        reach,
        s,
        piece,
    )
}

// The longest run of the stream at a place, written to the front of `out`, or nothing where that is too short for it.
#[tactic(auto, unfolding(crate::specs::Stores::handed_in, crate::specs::Stores::handed_out_in, crate::specs::Stores::stores_fit))]
pub fn hand(
    rings: &[u8],
    marks: &[u64],
    place: usize,
    reach: Reach,
    out: &mut [u8],
) -> Option<usize>
    ensures value { result ≡ handed_in rings.now marks.now place reach.read reach.held out.old }
    ensures out_after { out.new ≡ handed_out_in rings.now marks.now place reach.read reach.held out.old }
{
    if rings.len() != 786432 || marks.len() != 12288 || 192 <= place {
        return Some(0);
    }
    let byte = place * 4096;
    let word = place * 64;
    holding::hand(
        &rings[byte..byte + 4096],
        &marks[word..word + 64],
        reach,
        out,
    )
}
