// The walk over all frames of a payload on the lent table (docs/RULES.md, "Taking a packet").
#![tactic(auto)]

ghost use Rattle.std.specs.Prelude.{◌≡◌};
ghost use Rattle.walks.specs.Walk.{stopped_of, walk_table};

use answers::Answer;
use entries::Entry;
use kinds::Kind;
use steps::Stopped;
use streams::Conn;

// The place where a walk stops, and the answer there.
#[derive(Clone, Copy)]
pub struct Stop {
    pub place: usize,
    pub answer: Answer,
}

// The walk over the frames from a place on: it stops at the first that is refused, and at one that closes the connection.
pub fn walk(c: Conn, t: &mut [Entry], s: &[u8], from: usize, kind: Kind) -> Stopped
    ensures { (result ≡ stopped_of c t.old s.now from kind) × (t.new ≡ walk_table c t.old s.now from kind) }
{
    let mut conn = c;
    let mut at = from;
    let stop = 'walk: loop {
        at = steps::frame::past_padding(conn.mark, conn.role, kind, s, at);
        if s.len() <= at {
            break 'walk Stop {
                place: at,
                answer: Answer::Accepted,
            };
        }
        let r = single::step(conn, t, s, at, kind);
        conn = r.conn;
        if !conn.mark.is_open() {
            break 'walk Stop {
                place: at,
                answer: r.answer,
            };
        }
        at = r.next;
    };
    Stopped {
        conn,
        place: stop.place,
        answer: stop.answer,
    }
}
