// What a local call answers and leaves (docs/RULES.md, "Local calls"), of a connection and of ONE entry of its table, by value.
#![tactic(auto)]

ghost use Rattle.std.specs.Prelude.{◌≡◌};
ghost use Rattle.halves.specs.Stream.{half_of};
ghost use Rattle.streams.specs.Conn.{limited_to, with_count};
ghost use Rattle.replies.specs.Replies.{next_of, made_of, replied_of};

use answers::Answer;
use calls::Call;
use entries::Entry;
use halves::Stream;
use streams::{Called, Conn};

// What a call answers, with the entry after it.
#[derive(Clone, Copy)]
pub struct Replied {
    pub called: Called,
    pub entry: Entry,
}

// With another count of the peer's half.
fn counted(c: Conn, ty: u64, new: u64) -> Conn
    ensures { result ≡ limited_to c (with_count c.limits (half_of ty) new) }
{
    let s = halves::named(ty);
    let i = s.half / 2;
    let mut conn = c;
    conn.limits.counts[i] = new;
    conn
}

// The ID of the next stream of a type.
fn next_id(c: Conn, ty: u64) -> u64
    ensures { result ≡ next_of c ty }
{
    let s = halves::named(ty);
    halves::id_of(Stream {
        half: s.half,
        ordinal: c.opened_of(ty),
    })
}

// What a call hands out and makes of the connection and the entry, its stream or type as at a server; or the answer that refuses it: 101,
// then 104, 105, 103, 102.
#[tactic(auto, unfolding(crate::specs::Replies::made_of))]
fn made(c: Conn, e: Entry, call: Call) -> Result<(u64, Conn, Entry), Answer>
    ensures { result ≡ made_of c e call }
{
    if !c.mark.is_open() {
        return Err(Answer::Closed);
    }
    calls::reply(c, e, call)?;
    match call {
        Call::RaiseCredit { new } => {
            let mut conn = c;
            conn.limits.credit = new;
            Ok((0, conn, e))
        },
        Call::RaiseStream { id: _, new } => Ok((0, c, Entry { credit: new, ..e })),
        Call::RaiseCount { ty, new } => Ok((0, counted(c, ty, new), e)),
        Call::OpenNext { ty } => {
            let id = next_id(c, ty);
            Ok((halves::seated(c.role, id), c.open_to(id, c.total), e))
        },
    }
}

// A call on a connection whose table fits. A refused one changes nothing.
#[tactic(auto, unfolding(crate::specs::Replies::replied_of, crate::specs::Replies::made_of, crate::specs::Replies::ruled_of, crate::specs::Replies::settled_of))]
pub fn judge(c: Conn, e: Entry, call: Call) -> Replied
    ensures { result ≡ replied_of c e call }
{
    match made(c, e, calls::seated(c.role, call)) {
        Ok((number, conn, entry)) => Replied {
            called: Called {
                answer: Answer::Accepted,
                number,
                conn,
            },
            entry,
        },
        Err(answer) => Replied {
            called: Called {
                answer,
                number: 0,
                conn: c,
            },
            entry: e,
        },
    }
}
