// What a script may change behind the core's back, so that 120 can be seen: a number of the connection, an entry of its
// table, a word or the top of a record. Each command begins with `set`.
use crate::session::Session;
use crate::{line, session};
use entries::Entry;
use kinds::Space;
use lines::words;

// What is changed.
#[derive(Clone, Copy)]
pub enum Spoil {
    Total { new: u64 },
    Credit { new: u64 },
    Count { at: usize, new: u64 },
    Opened { at: usize, new: u64 },
    Initial { at: usize, new: u64 },
    Place { at: usize, entry: Entry },
    Word { space: Space, at: usize, new: u64 },
    Top { space: Space, new: u64 },
}

// A word as an index below a bound.
fn index(s: &[u8], n: usize, bound: u64) -> Result<usize, usize> {
    let at = line::number(s, n)?;
    if at < bound { Ok(at as usize) } else { Err(n) }
}

// The index of a count: they are those of halves 0 and 2, in this order.
fn counted(s: &[u8], n: usize) -> Result<usize, usize> {
    match line::number(s, n)? {
        0 => Ok(0),
        2 => Ok(1),
        _ => Err(n),
    }
}

// A final size; `-` for none.
fn final_size(s: &[u8], n: usize) -> Result<u64, usize> {
    if line::is(s, n, b"-") {
        return Ok(Entry::UNKNOWN);
    }
    line::number(s, n)
}

// A number of the connection itself.
fn of_two(s: &[u8]) -> Result<Spoil, usize> {
    match words::word(s, 1) {
        b"total" => Ok(Spoil::Total {
            new: line::number(s, 2)?,
        }),
        b"credit" => Ok(Spoil::Credit {
            new: line::number(s, 2)?,
        }),
        _ => Err(1),
    }
}

// A number of a half, or the top of a record.
fn of_three(s: &[u8]) -> Result<Spoil, usize> {
    match words::word(s, 1) {
        b"count" => Ok(Spoil::Count {
            at: counted(s, 2)?,
            new: line::number(s, 3)?,
        }),
        b"opened" => Ok(Spoil::Opened {
            at: index(s, 2, 4)?,
            new: line::number(s, 3)?,
        }),
        b"initial" => Ok(Spoil::Initial {
            at: index(s, 2, 3)?,
            new: line::number(s, 3)?,
        }),
        b"top" => Ok(Spoil::Top {
            space: line::space(s, 2)?,
            new: line::number(s, 3)?,
        }),
        _ => Err(1),
    }
}

// A word of a record.
fn of_four(s: &[u8]) -> Result<Spoil, usize> {
    match words::word(s, 1) {
        b"word" => Ok(Spoil::Word {
            space: line::space(s, 2)?,
            at: index(s, 3, 128)?,
            new: line::number(s, 4)?,
        }),
        _ => Err(1),
    }
}

// An entry of the table.
fn of_five(s: &[u8]) -> Result<Spoil, usize> {
    match words::word(s, 1) {
        b"entry" => Ok(Spoil::Place {
            at: index(s, 2, 192)?,
            entry: Entry {
                credit: line::number(s, 3)?,
                end: line::number(s, 4)?,
                size: final_size(s, 5)?,
            },
        }),
        _ => Err(1),
    }
}

// A line of n words that begins with `set`; as for a command, the place of the first word that cannot stand there.
pub fn read(s: &[u8], n: usize) -> Result<Spoil, usize> {
    match n {
        3 => of_two(s),
        4 => of_three(s),
        5 => of_four(s),
        6 => of_five(s),
        _ => Err(0),
    }
}

// Spoils what the host keeps.
pub fn apply(now: &mut Session, spoil: Spoil) {
    match spoil {
        Spoil::Total { new } => now.conn.total = new,
        Spoil::Credit { new } => now.conn.limits.credit = new,
        Spoil::Count { at, new } if at < 2 => now.conn.limits.counts[at] = new,
        Spoil::Initial { at, new } if at < 3 => now.conn.limits.initial[at] = new,
        Spoil::Opened { at, new } if at < 4 => now.conn.opened[at] = new,
        Spoil::Place { at, entry } if at < 192 => now.table[at] = entry,
        Spoil::Word { space, at, new } if at < 128 => {
            session::record(&mut now.records, space).words[at] = new;
        },
        Spoil::Top { space, new } => session::record(&mut now.records, space).top = new,
        _ => {},
    }
}
