// One frame on the lent table (docs/RULES.md, "For a frame"): the step of a walk, and the call that takes a frame. Nothing of the
// table is copied but the one entry at hand.
#![tactic(auto)]

ghost use Rattle.std.specs.Prelude.{◌≡◌};
ghost use Rattle.single.specs.Single.{stepped_at, step_table, took_frame_of, frame_table};

use entries::Entry;
use kinds::Kind;
use steps::{Shown, Stepped, TookFrame};
use streams::Conn;

// The frame at a place, judged with the entry that it looks at. Whether the table fits is asked before, by the call that takes a
// frame or a packet: a frame whose entry is not there is judged as if it were as opening sets it with no credit.
pub fn step(c: Conn, t: &mut [Entry], s: &[u8], at: usize, kind: Kind) -> Stepped
    ensures { (result ≡ stepped_at c t.old s.now at kind) × (t.new ≡ step_table c t.old s.now at kind) }
{
    let a = steps::frame::request(c.role, s, at, kind);
    let i = a.place;
    if t.len() <= i {
        let none = Entry {
            credit: 0,
            end: 0,
            size: Entry::UNKNOWN,
        };
        let alone = steps::frame::decide(c, none, a);
        return alone.stepped;
    }
    let j = steps::frame::decide(c, t[i], a);
    t[i] = j.entry;
    j.stepped
}

// Takes the frame at a place of the payload of a packet of this kind.
#[tactic(auto, unfolding(crate::specs::Single::took_frame_of, crate::specs::Single::frame_table))]
pub fn take_frame(c: Conn, t: &mut [Entry], s: &[u8], at: usize, kind: Kind) -> TookFrame
    ensures { (result ≡ took_frame_of c t.old s.now at kind) × (t.new ≡ frame_table c t.old s.now at kind) }
{
    if let Err(answer) = steps::gates::gate(tables::fits(c, t), c.mark) {
        return TookFrame {
            answer,
            shown: Shown::Nothing,
            conn: c,
        };
    }
    let shown = steps::frame::show(c.role, s, at, kind);
    let r = step(c, t, s, at, kind);
    TookFrame {
        answer: r.answer,
        shown,
        conn: r.conn,
    }
}
