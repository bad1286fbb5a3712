// What comes from the wire (docs/RULES.md, "Taking a packet"): a packet taken. The stream table is lent at each call,
// and nothing of it is copied but the one entry at hand. 120 comes before all else, in one pass over the table.
#![tactic(auto)]

ghost use Rattle.std.specs.Prelude.{◌≡◌};
ghost use Rattle.receive.specs.Taking.{took_of, took_table};

use endings::Took;
use entries::Entry;
use spaces::Records;
use streams::Conn;

// Takes a packet: its plain first byte, then the bytes of its number and its payload.
pub fn take_packet(c: Conn, records: Records, t: &mut [Entry], first: u8, s: &[u8]) -> Took
    ensures { (result ≡ took_of c records t.old first s.now) × (t.new ≡ took_table c records t.old first s.now) }
{
    let begun = packets::checks::begin(c, records, tables::fits(c, t), first, s);
    let stopped = walks::walk(begun.conn, t, s, begun.at, begun.kind);
    endings::finish(begun, stopped, records)
}
