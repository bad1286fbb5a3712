// A packet after its frames (docs/RULES.md, "Taking a packet"): its answer, and its number recorded if no frame was refused.
#![tactic(auto)]

ghost use Rattle.std.specs.Prelude.{◌≡◌};
ghost use Rattle.endings.specs.Finish.{finish_of};

use answers::Answer;
use packets::Begun;
use spaces::Records;
use steps::Stopped;
use streams::Conn;

// The answer of a call for a packet, the place where its walk stopped, the connection and the records.
#[derive(Clone, Copy)]
pub struct Took {
    pub answer: Answer,
    pub place: usize,
    pub conn: Conn,
    pub records: Records,
}

// A packet after its frames: its number is recorded if none was refused.
#[tactic(auto, unfolding(crate::specs::Finish::finish_of))]
pub fn finish(begun: Begun, stopped: Stopped, records: Records) -> Took
    ensures { result ≡ finish_of begun stopped records }
{
    let answer = match begun.answer {
        Answer::Accepted => stopped.answer,
        refused => refused,
    };
    Took {
        answer,
        place: stopped.place,
        conn: stopped.conn,
        records: match answer {
            Answer::Accepted => spaces::recorded(records, begun.kind, begun.number),
            _ => records,
        },
    }
}
