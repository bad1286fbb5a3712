// The check of a connection's own numbers, and of one entry of its table as a step of a fold.
ghost use Rattle.std.specs.Prelude.{◌≡◌};
ghost use Rattle.limits.specs.Fits.{open_fit, conn_fits, summed_of, concluded_of, part_of};

use entries::Entry;
use streams::Conn;

// What the check of a half's entries asks of a connection.
#[derive(Clone, Copy)]
pub struct Part {
    pub credit: u64,
    pub opened: u64,
    pub initial: u64,
}

// One entry more: it fits, and the sum of the ends stays within the connection credit. There is no sum any more once one does not.
#[tactic(auto, unfolding(crate::specs::Fits::summed_of))]
pub fn one_more(p: Part, ordinal: u64, e: Entry, summed: Option<u64>) -> Option<u64>
    ensures { result ≡ summed_of p.credit p.opened p.initial ordinal e summed }
{
    let sum = summed?;
    if !entries::fits(p.opened, p.initial, ordinal, e) || p.credit < sum || p.credit - sum < e.end {
        return None;
    }
    Some(sum + e.end)
}

// After the last entry: the total is the sum, and the connection's own numbers fit.
#[tactic(auto, unfolding(crate::specs::Fits::concluded_of))]
pub fn conclude(c: Conn, summed: Option<u64>) -> bool
    ensures { result ≡ concluded_of c summed }
{
    summed.is_some_and(|sum| c.total == sum) && conn_fits(c)
}

// No more is open than the count allows, or than the ceiling where we open them.
#[tactic(auto, unfolding(crate::specs::Fits::open_fit))]
fn open_fit(c: Conn) -> bool
    ensures { result ≡ open_fit c }
{
    c.opened[0] <= c.count_of(0)
        && c.opened[1] <= Conn::MOST_STREAMS
        && c.opened[2] <= c.count_of(2)
        && c.opened[3] <= Conn::MOST_STREAMS
}

// The connection's own numbers.
#[tactic(auto, unfolding(crate::specs::Fits::conn_fits))]
pub fn conn_fits(c: Conn) -> bool
    ensures { result ≡ conn_fits c }
{
    c.total <= c.limits.credit && c.limits.fit() && open_fit(c)
}

// What the check asks of the half of a stream.
pub fn part_of(c: Conn, id: u64) -> Part
    ensures { result ≡ part_of c id }
{
    let s = halves::named(id);
    Part {
        credit: c.limits.credit,
        opened: c.opened_of(id),
        initial: c.limits.initial_of(s.half),
    }
}
