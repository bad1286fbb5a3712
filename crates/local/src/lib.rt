// What the host does by itself (docs/RULES.md, "Local calls"): it makes a local call, hands out a number.
// The stream table is lent at each call, and nothing of it is copied but the one entry at hand.
#![tactic(auto)]

ghost use Rattle.std.specs.Prelude.{◌≡◌};
ghost use Rattle.streams.specs.Conn.{handed_out_of};
ghost use Rattle.local.specs.Calling.{called_at, called_table};

use answers::Answer;
use calls::Call;
use entries::Entry;
use kinds::Space;
use streams::{Called, Conn};

// Makes a local call: a credit or a count raised, a stream opened.
pub fn call(c: Conn, t: &mut [Entry], call: Call) -> Called
    ensures { (result ≡ called_at c t.old call) × (t.new ≡ called_table c t.old call) }
{
    if !tables::fits(c, t) {
        return Called {
            answer: Answer::DoesNotFit,
            number: 0,
            conn: c,
        };
    }
    let i = calls::place(c.role, call);
    let j = replies::judge(c, t[i], call);
    t[i] = j.entry;
    j.called
}

// Hands out the next number of a space: it looks at neither the table nor the closing mark.
pub fn hand_out(c: Conn, space: Space) -> Called
    ensures { result ≡ handed_out_of c space }
{
    c.hand_out(space)
}
