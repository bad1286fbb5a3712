// The fields that no frame may have (docs/RULES.md, "Fields that give 7").
ghost use Rattle.std.specs.Prelude.{◌≡◌};
ghost use Rattle.fields.specs.Faults.{above_of, misissued_of, fault_of};

use layouts::types;

// The most streams of a type: 2^60.
const MOST_STREAMS: u64 = 1152921504606846976;

// Whether an end is above 2^62-1.
#[tactic(auto, unfolding(crate::specs::Faults::above_of))]
fn above(offset: u64, len: u64) -> bool
    ensures { result ≡ above_of offset len }
{
    wire::MOST < len || wire::MOST - len < offset
}

// Whether a connection ID has a length outside 1 to 20, or its frame retires a number above its own.
#[tactic(auto, unfolding(crate::specs::Faults::misissued_of))]
fn misissued(sequence: u64, retire: u64, len: u64) -> bool
    ensures { result ≡ misissued_of sequence retire len }
{
    len < 1 || 20 < len || sequence < retire
}

// Whether no frame of the type may have these fields.
#[tactic(auto, unfolding(crate::specs::Faults::fault_of, crate::specs::Faults::too_many))]
pub fn fault(ty: u64, a: u64, b: u64, len: u64) -> bool
    ensures { result ≡ fault_of ty a b len }
{
    if ty / 8 == 1 {
        return above(b, len);
    }
    match ty {
        types::CRYPTO => above(a, len),
        types::NEW_TOKEN => len == 0,
        types::MAX_STREAMS_BIDI
        | types::MAX_STREAMS_UNI
        | types::STREAMS_BLOCKED_BIDI
        | types::STREAMS_BLOCKED_UNI => MOST_STREAMS < a,
        types::NEW_CONNECTION_ID => misissued(a, b, len),
        _ => false,
    }
}
