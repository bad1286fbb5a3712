// How a connection is opened (docs/RULES.md, "Local calls"): 103 for a limit above its ceiling, 120 for a table of another
// length, and the entries as opening sets them.
#![tactic(auto)]

ghost use Rattle.std.specs.Prelude.{◌≡◌, ◌/◌, replicate};
ghost use Rattle.halves.specs.Stream.{most_streams, entries};
ghost use Rattle.entries.specs.Entry.{fresh};
ghost use Rattle.streams.specs.Conn.{initial_of};
ghost use Rattle.opening.specs.Opening.{opened_conn, unopened_of, opening_of, opening_when, entries_of};

use answers::Answer;
use entries::Entry;
use kinds::Role;
use streams::{Conn, Limits, Mark};

// What opening a connection answers. A refused opening gives a connection that advertises nothing and is closed.
#[derive(Clone, Copy)]
pub struct Opened {
    pub answer: Answer,
    pub conn: Conn,
}

// Nothing is open, nothing counted, no number handed out.
fn unused(role: Role, limits: Limits, mark: Mark) -> Conn
    ensures { result ≡ opened_conn role limits mark }
{
    Conn {
        limits,
        opened: [0; 4],
        total: 0,
        next: [0; 3],
        mark,
        role,
    }
}

impl Opened {
    // A connection that was just opened, or 103 for a limit above its ceiling.
    #[tactic(auto, unfolding(crate::specs::Opening::opening_of))]
    pub fn open(role: Role, limits: Limits) -> Opened
        ensures { result ≡ opening_of role limits }
    {
        if limits.fit() {
            Opened {
                answer: Answer::Accepted,
                conn: unused(role, limits, Mark::Open),
            }
        } else {
            Opened::refused(role, Answer::AboveCeiling)
        }
    }

    // An opening that is refused.
    pub fn refused(role: Role, answer: Answer) -> Opened
        ensures { result ≡ unopened_of role answer }
    {
        let limits = Limits {
            credit: 0,
            counts: [0; 2],
            initial: [0; 3],
        };
        Opened {
            answer,
            conn: unused(role, limits, Mark::Code { answer, ty: 0 }),
        }
    }
}

// Opens a connection whose table has n entries.
#[tactic(auto, unfolding(crate::specs::Opening::opening_when))]
pub fn for_table(role: Role, n: usize, limits: Limits) -> Opened
    ensures { result ≡ opening_when role n limits }
{
    if n == Conn::ENTRIES {
        Opened::open(role, limits)
    } else {
        Opened::refused(role, Answer::DoesNotFit)
    }
}

// How many entries opening sets.
#[tactic(auto, unfolding(crate::specs::Opening::entries_of))]
pub fn count(answer: Answer) -> usize
    ensures { result ≡ entries_of answer }
{
    match answer {
        Answer::Accepted => Conn::ENTRIES,
        _ => 0,
    }
}

// The places that a half has in the table.
const PLACES: usize = Conn::ENTRIES / 3;

// The entry at a place of the table, as opening sets it.
pub fn entry(i: usize, limits: Limits) -> Entry
    ensures { result ≡ fresh (initial_of limits (i / most_streams)) }
{
    Entry {
        credit: limits.initial_of(i / PLACES),
        end: 0,
        size: Entry::UNKNOWN,
    }
}

// Room for a table: opening does not look at what stands in it.
pub fn room() -> [Entry; Conn::ENTRIES]
    ensures { result ≡ replicate entries (fresh 0) }
{
    let none = Entry {
        credit: 0,
        end: 0,
        size: Entry::UNKNOWN,
    };
    [none; Conn::ENTRIES]
}
