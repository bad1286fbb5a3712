// The other calls with a stream table owned by value: each lends it to the crate whose call it is, and hands it back.
#![tactic(auto)]

ghost use Rattle.std.specs.Prelude.{◌≡◌};
ghost use Rattle.owned_calls.specs.Owned.{owned_packet_of, owned_call_of};

use calls::Call;
use endings::Took;
use entries::Entry;
use owned::Owned;
use spaces::Records;
use streams::{Called, Conn};

pub fn take_packet(
    c: Conn,
    records: Records,
    table: [Entry; Conn::ENTRIES],
    first: u8,
    s: &[u8],
) -> Owned<Took>
    ensures { result ≡ owned_packet_of c records table first s.now }
{
    let mut t = table;
    let told = receive::take_packet(c, records, &mut t, first, s);
    Owned { told, table: t }
}

pub fn call(c: Conn, table: [Entry; Conn::ENTRIES], call: Call) -> Owned<Called>
    ensures { result ≡ owned_call_of c table call }
{
    let mut t = table;
    let told = local::call(c, &mut t, call);
    Owned { told, table: t }
}
