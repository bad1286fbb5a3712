// The records of the three packet-number spaces together: whether all fit, and one number more in the space of a packet.
#![tactic(auto)]

ghost use Rattle.std.specs.Prelude.{◌≡◌};
ghost use Rattle.kinds.specs.Kinds.{space_of};
ghost use Rattle.spaces.specs.Spaces.{records_fit, recorded_of};

use kinds::Kind;
use records::Record;

// The records of the three spaces.
#[derive(Clone, Copy)]
pub struct Records {
    pub initial: Record,
    pub handshake: Record,
    pub application: Record,
}

// Whether all three records fit. They are lent, since all three by value are a copy of 3 KB.
#[tactic(auto, unfolding(crate::specs::Spaces::records_fit, records::specs::Marks::check_of))]
pub fn fit(records: &Records) -> bool
    ensures { result ≡ records_fit records.now }
{
    records::check_of(&records.initial).is_ok()
        && records::check_of(&records.handshake).is_ok()
        && records::check_of(&records.application).is_ok()
}

// The records with a number more in the space of a packet.
#[tactic(auto, unfolding(crate::specs::Spaces::recorded_of))]
pub fn recorded(mut records: Records, kind: Kind, number: u64) -> Records
    ensures { result ≡ recorded_of records (space_of kind) number }
{
    // what was taken is in the record; a number that was not leaves it as it was
    let _ = match kind {
        Kind::Initial => records::take_of(&mut records.initial, number),
        Kind::Handshake => records::take_of(&mut records.handshake, number),
        Kind::ZeroRtt | Kind::OneRtt => records::take_of(&mut records.application, number),
    };
    records
}
