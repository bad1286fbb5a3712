// The verdict on a frame for the connection and the one entry that it looks at, by value: its answer, and what it leaves of both.
#![tactic(auto)]

ghost use Rattle.std.specs.Prelude.{◌≡◌};
ghost use Rattle.entries.specs.Entry.{reached};
ghost use Rattle.verdicts.specs.Verdict.{heard_of, judged_of};

use answers::Answer;
use entries::Entry;
use rules::View;
use streams::{Conn, Mark};

// A verdict, with the connection and the entry after it.
#[derive(Clone, Copy)]
pub struct Judged {
    pub answer: Answer,
    pub conn: Conn,
    pub entry: Entry,
}

// An entry after an accepted STREAM or RESET_STREAM frame.
#[tactic(auto, unfolding(entries::specs::Entry::reached))]
fn after(e: Entry, end: u64, fin: bool) -> Entry
    ensures { result ≡ reached e end fin }
{
    Entry {
        end: e.end.max(end),
        size: if fin { end } else { e.size },
        ..e
    }
}

// What a frame makes of an open connection whose table fits, and of the entry; or the answer that refuses it.
#[tactic(auto, unfolding(crate::specs::Verdict::verdict_of, crate::specs::Verdict::conn_heard, crate::specs::Verdict::entry_heard))]
fn heard(c: Conn, e: Entry, view: View) -> Result<(Conn, Entry), Answer>
    ensures { result ≡ heard_of c e view }
{
    match view {
        View::Ends { id, end, fin } => {
            rules::ends(c, e, id, end, fin)?;
            let total = c.total + rules::growth(e.end, end);
            Ok((c.open_to(id, total), after(e, end, fin)))
        },
        View::Blocks { id } => {
            rules::blocked(c, id)?;
            Ok((c.open_to(id, c.total), e))
        },
        View::ForSender { id } => {
            rules::for_sender(c, id)?;
            Ok((c.open_to(id, c.total), e))
        },
        View::Acks { space, largest } => {
            if c.next_of(space) <= largest {
                return Err(Answer::ProtocolViolation);
            }
            Ok((c, e))
        },
        View::Closes => Ok((c.marked(Mark::ByPeer), e)),
        View::Nothing => Ok((c, e)),
    }
}

// The verdict on a frame of the type `ty`.
#[tactic(auto, unfolding(crate::specs::Verdict::judged_of, crate::specs::Verdict::settled_of))]
pub fn judge(c: Conn, e: Entry, ty: u64, view: View) -> Judged
    ensures { result ≡ judged_of c e ty view }
{
    match heard(c, e, view) {
        Ok((conn, entry)) => Judged {
            answer: Answer::Accepted,
            conn,
            entry,
        },
        Err(answer) => Judged {
            answer,
            conn: c.marked(Mark::Code { answer, ty }),
            entry: e,
        },
    }
}
