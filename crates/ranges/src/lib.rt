// The ranges of an ACK frame (RFC 9000, 19.3.1): checked as a whole, and walked downwards one by one.
#![tactic(auto)]

ghost use Rattle.std.specs.Prelude.{◌≡◌};
ghost use Rattle.ranges.specs.Ranges.{below_of, range_at, ranges_at};
ghost use Rattle.ranges.specs.Walk.{first_of, step_of};

// One range: its largest and smallest number and the place after it.
#[derive(Clone, Copy)]
pub struct Range {
    pub high: u64,
    pub low: u64,
    pub next: usize,
}

// Where a walk stands: the smallest number of the range before, the place of the next one, and how many are left.
#[derive(Clone, Copy)]
pub struct Walk {
    pub low: u64,
    pub at: usize,
    pub left: u64,
}

// The next range downwards and the walk below it.
#[derive(Clone, Copy)]
pub struct Step {
    pub high: u64,
    pub low: u64,
    pub rest: Walk,
}

// The range that is `gap` and `length` below a range whose smallest number is `low`, unless it goes below 0.
#[tactic(auto, unfolding(crate::specs::Ranges::below_of))]
fn below(low: u64, gap: u64, length: u64, next: usize) -> Option<Range>
    ensures { result ≡ below_of low gap length next }
{
    let high = low.checked_sub(gap)?.checked_sub(2)?;
    let low = high.checked_sub(length)?;
    Some(Range { high, low, next })
}

// The range at a place, below a range whose smallest number is `low`; or none, since the bytes end or it goes below 0.
#[tactic(auto, unfolding(crate::specs::Ranges::range_at))]
fn one(s: &[u8], at: usize, low: u64) -> Option<Range>
    ensures { result ≡ range_at s.now at low }
{
    let Some((gap, p)) = wire::read(s, at) else {
        return None;
    };
    let Some((length, next)) = wire::read(s, p) else {
        return None;
    };
    below(low, gap, length, next)
}

// The place after so many ranges from a place on, below a range whose smallest number is `low`.
#[tactic(auto, using(crate::proofs::Steps::ranges_more, crate::proofs::Steps::ranges_none))]
pub fn all(s: &[u8], at: usize, count: u64, low: u64) -> Option<usize>
    ensures { result ≡ ranges_at s.now count at low }
{
    let mut place = at;
    let mut least = low;
    for _ in 0..count {
        let range = one(s, place, least)?;
        place = range.next;
        least = range.low;
    }
    Some(place)
}

// The first range of an ACK frame, from its fields and the place of its further ranges.
#[tactic(auto, unfolding(crate::specs::Walk::first_of))]
pub fn first(largest: u64, length: u64, count: u64, at: usize) -> Option<Step>
    ensures { result ≡ first_of largest length count at }
{
    let low = largest.checked_sub(length)?;
    Some(Step {
        high: largest,
        low,
        rest: Walk {
            low,
            at,
            left: count,
        },
    })
}

// The next range downwards. Once the frame was read, the end comes when none is left and not before.
#[tactic(auto, unfolding(crate::specs::Walk::step_of))]
pub fn next(s: &[u8], walk: Walk) -> Option<Step>
    ensures { result ≡ step_of s.now walk }
{
    if walk.left == 0 {
        return None;
    }
    let range = one(s, walk.at, walk.low)?;
    Some(Step {
        high: range.high,
        low: range.low,
        rest: Walk {
            low: range.low,
            at: range.next,
            left: walk.left - 1,
        },
    })
}
