// The unopened entries of a half, which are most of a table: looked at together, apart from the opened ones.
ghost use Rattle.std.specs.Prelude.{◌≡◌, ◌&&◌};
ghost use Rattle.entries.specs.Fitting.{is_fresh};
ghost use Rattle.limits.specs.Rest.{opened_in, rest_of};

use crate::fits::Part;
use entries::Entry;
use streams::Conn;

// How many of the 64 entries of a half are opened.
#[tactic(auto, unfolding(crate::specs::Rest::opened_in))]
pub fn opened_in(opened: u64) -> u64
    ensures { result ≡ opened_in opened }
{
    opened.min(Conn::MOST_STREAMS)
}

// One unopened entry more: whether all so far are as opening set them. There is no way out of the row of tests, so that a
// loop over many entries has no branches.
pub fn untouched(before: bool, e: Entry, init: u64) -> bool
    ensures { result ≡ before && is_fresh e init }
{
    before & (e.credit == init) & (e.end == 0) & (e.size == Entry::UNKNOWN)
}

// The check of all 64 entries, from that of the first n and from whether the rest are as opening set them.
#[tactic(auto, unfolding(crate::specs::Rest::rest_of))]
pub fn with_rest(p: Part, n: u64, summed: Option<u64>, same: bool) -> Option<u64>
    ensures { result ≡ rest_of p.credit n p.initial summed same }
{
    let sum = summed?;
    if n < Conn::MOST_STREAMS && (!same || Conn::MOST_CREDIT < p.initial || p.credit < sum) {
        return None;
    }
    Some(sum)
}
