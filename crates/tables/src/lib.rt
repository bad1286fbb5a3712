// The lent stream table as a whole: set as opening sets it, and the check that it fits its connection, half after half in one
// pass. No other call looks at more of it than one entry.
#![tactic(auto)]

ghost use Rattle.std.specs.Prelude.{◌≡◌, ◌+◌, ◌-◌, ◌≤◌, length};
ghost use Rattle.limits.specs.Fits;
ghost use Rattle.opening.specs.Opening.{opening_when};
ghost use Rattle.tables.specs.Opened.{filled_to, opened_table};
ghost use Rattle.tables.specs.Table.{summed_to, untouched_to};

use entries::Entry;
use kinds::Role;
use limits::fits::Part;
use opening::Opened;
use streams::{Conn, Limits};

// The second and the third half's entries begin here: each half that receives has as many.
const SECOND: usize = Conn::ENTRIES / 3;

const THIRD: usize = 2 * SECOND;

// Whether the entries of a half from an ordinal up to the last are as opening sets them; its first entry is at a place.
#[tactic(auto, unfolding(crate::specs::Table::untouched_to))]
fn rest(t: &[Entry], from: usize, ordinal: u64, initial: u64) -> bool
    requires { (from + 64 ≤ length t.now) × (ordinal ≤ 64) }
    ensures { result ≡ untouched_to t.now (from + ordinal) initial (64 - ordinal) }
{
    let mut same = true;
    for n in ordinal..Conn::MOST_STREAMS {
        same = limits::rest::untouched(same, t[from + n as usize], initial);
    }
    same
}

// The check of the 64 entries of a half, from a place on: the opened ones one by one, the rest together.
#[tactic(auto, unfolding(crate::specs::Table::summed_to))]
fn part(t: &[Entry], from: usize, p: Part, before: Option<u64>) -> Option<u64>
    requires { from + 64 ≤ length t.now }
    ensures { result ≡ summed_to t.now from p.credit p.opened p.initial before 64 }
{
    let to = limits::rest::opened_in(p.opened);
    let mut sum = before;
    for n in 0..to {
        sum = limits::fits::one_more(p, n, t[from + n as usize], sum);
    }
    limits::rest::with_rest(p, to, sum, rest(t, from, to, p.initial))
}

// Whether the connection and its table fit: no 120.
pub fn fits(c: Conn, t: &[Entry]) -> bool
    ensures { result ≡ Fits.fits c t.now }
{
    if t.len() != Conn::ENTRIES {
        return false;
    }
    let first = part(t, 0, limits::fits::part_of(c, 0), Some(0));
    let second = part(t, SECOND, limits::fits::part_of(c, 1), first);
    let third = part(t, THIRD, limits::fits::part_of(c, 2), second);
    limits::fits::conclude(c, third)
}

// Sets the first n entries as opening does.
#[tactic(auto, unfolding(crate::specs::Opened::filled_to))]
fn fill(t: &mut [Entry], n: usize, limits: Limits)
    requires { n ≤ length t.old }
    ensures { t.new ≡ filled_to n t.old limits }
{
    for i in 0..n {
        t[i] = opening::entry(i, limits);
    }
}

// Opens a connection: 120 unless the table has 192 entries, then 103. Every entry is set to its half's initial credit.
pub fn open(t: &mut [Entry], role: Role, limits: Limits) -> Opened
    ensures { (result ≡ opening_when role (length t.old) limits) × (t.new ≡ opened_table role t.old limits) }
{
    let o = opening::for_table(role, t.len(), limits);
    let n = opening::count(o.answer);
    fill(t, n, limits);
    o
}
