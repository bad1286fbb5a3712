// The record of the last 8,192 packet numbers of a space (docs/RULES.md, "The record of a space"): a ring of 128 words, a bit for each number.
#![tactic(auto)]

ghost use Rattle.std.specs.Prelude.{◌≡◌, ◌+◌, ◌≤◌, ◌<◌, ◌^◌};
ghost use Rattle.answers.specs.Outcome.{outcome_of};
ghost use Rattle.ring.specs.Parts.{Put};
ghost use Rattle.records.specs.Marks.{none_of, check_of, test_of};
ghost use Rattle.records.specs.Ring.{taken_of, taken_as};
ghost use Rattle.records.specs.Found.{found_of};
ghost use Rattle.records.specs.Parts.{Whole, Cleared, Slid, Marked};

use answers::Answer;
use ring::Run;

// A record is a value, handed in and handed back, or lent. The number n has the bit n % 64 of the word n / 64 % 128.
#[derive(Clone, Copy)]
pub struct Record {
    pub words: [u64; 128],
    // One above the largest number, 0 if there is none.
    pub top: u64,
}

// The answer to a number that comes, and the record after it.
#[derive(Drop)]
pub struct Taken {
    pub answer: Answer,
    pub record: Record,
}

// The largest packet number: 2^62-1.
const MOST: u64 = 4611686018427387903;

// The word w with the bit b.
fn put(w: u64, b: u64) -> u64
    requires { b < 64 }
    ensures { Put w b result }
{
    w | (1u64 << b)
}

// 120 for a record that does not fit. Public as a part of taking a packet: `spaces::fit` asks it of three records that are lent, so that none is copied.
#[tactic(auto, unfolding(crate::specs::Marks::check_of, crate::specs::Marks::sound_of, crate::specs::Marks::recorded))]
pub fn check_of(seen: &Record) -> Result<(), Answer>
    ensures { result ≡ outcome_of (check_of seen.now) }
{
    if 0 < seen.top {
        let largest = seen.top - 1;
        if MOST < largest {
            return Err(Answer::DoesNotFit);
        }
        if ring::bit_at(&seen.words, largest) == 0 {
            return Err(Answer::DoesNotFit);
        }
    }
    if ring::is_clean(&seen.words, seen.top) {
        return Ok(());
    }
    Err(Answer::DoesNotFit)
}

// 106 for a number below the record, 107 for one in it already. Public as a part of taking a packet: `packets::checks::begin` has asked
// `spaces::fit` for 120 before, and `numbers::recover` for 111; a host's call by itself is `Record::test`.
#[tactic(auto, unfolding(crate::specs::Marks::test_of, crate::specs::Marks::recorded))]
pub fn test_of(seen: &Record, n: u64) -> Result<(), Answer>
    ensures { result ≡ outcome_of (test_of seen.now n) }
{
    // above the largest every number is fresh, and its slot is still another's
    if seen.top <= n {
        return Ok(());
    }
    if 8192 < seen.top - n {
        return Err(Answer::BelowRecord);
    }
    if ring::bit_at(&seen.words, n) == 1 {
        return Err(Answer::InRecord);
    }
    Ok(())
}

// Clears the bits of the numbers from `from` up to `to`, a part of a word at a time.
fn clear(words: &mut [u64; 128], from: u64, to: u64)
    requires { (from ≤ to) × (to ≤ from + 8192) × (to < 2 ^ 63) × Whole words.old }
    ensures cleared { Cleared words.old from to words.new }
    ensures whole { Whole words.new }
{
    let mut at = from;
    while at < to {
        let lo = at % 64;
        let hi = (lo + (to - at)).min(64);
        let k = (at / 64 % 128) as usize;
        words[k] = ring::without(words[k], lo, hi);
        at += hi - lo;
    }
}

// Moves the window up so far that n is not above it. The slots that it passes are cleared, all of them for a jump of 8,192 or more.
fn slide(seen: &mut Record, n: u64)
    requires { (n < 2 ^ 62) × Whole seen.old.words }
    ensures slid { Slid seen.old n seen.new }
    ensures whole { Whole seen.new.words }
{
    if n < seen.top {
        return;
    }
    let from = seen.top.max(n.saturating_sub(8191));
    clear(&mut seen.words, from, n + 1);
    seen.top = n + 1;
}

// Marks the number n, which is not below the record.
fn mark(seen: &mut Record, n: u64)
    requires { (n < 2 ^ 62) × (seen.old.top ≤ n + 8192) × Whole seen.old.words }
    ensures marked { Marked seen.old n seen.new }
    ensures whole { Whole seen.new.words }
{
    slide(seen, n);
    let k = (n / 64 % 128) as usize;
    seen.words[k] = put(seen.words[k], n % 64);
}

// 128 words of 64 bits, as every value of the type is: a fact for the proof of what is lent, which reading one of them tells.
fn whole(words: &[u64; 128])
    ensures { Whole words.now }
{
    let _first = words[0];
}

// Whether a number that comes may be recorded: 120, 111, 106 or 107 if not.
#[tactic(auto, unfolding(crate::specs::Ring::taken_of, crate::specs::Marks::test_of, crate::specs::Marks::check_of))]
fn answer_to(seen: &Record, n: u64) -> Result<(), Answer>
    ensures { result ≡ outcome_of (taken_of seen.now n).answer }
{
    check_of(seen)?;
    if MOST < n {
        return Err(Answer::NoSuchNumber);
    }
    test_of(seen, n)
}

// Records a number that comes in a record that is lent: 120, 111, 106 and 107 leave it as it was.
// Public as a part of taking a packet: `spaces::recorded` records the number in place. `packets::checks::begin` has asked for 120 before, and it is asked again here.
pub fn take_of(seen: &mut Record, n: u64) -> Result<(), Answer>
    ensures { (result, seen.new) ≡ taken_as (taken_of seen.old n) }
{
    answer_to(seen, n)?;
    whole(&seen.words);
    mark(seen, n);
    Ok(())
}

impl Record {
    // The record of a space of which nothing came.
    #[tactic(auto, unfolding(crate::specs::Marks::none_of))]
    pub fn new() -> Self
        ensures { result ≡ none_of }
    {
        Record {
            words: [0; 128],
            top: 0,
        }
    }

    // 120 for a record that does not fit.
    pub fn check(self) -> Result<(), Answer>
        ensures { result ≡ outcome_of (check_of self) }
    {
        check_of(&self)
    }

    // What `take` would answer: 120 for a record that does not fit, 111 above 2^62-1, 106 for a number below the record, 107 for one in it already.
    pub fn test(self, n: u64) -> Result<(), Answer>
        ensures { result ≡ outcome_of (taken_of self n).answer }
    {
        answer_to(&self, n)
    }

    // Records a number that comes: 120, 111, 106 and 107 leave the record as it was.
    pub fn take(mut self, n: u64) -> Taken
        ensures { result ≡ taken_of self n }
    {
        let answer = match take_of(&mut self, n) {
            Ok(()) => Answer::Accepted,
            Err(refused) => refused,
        };
        Taken {
            answer,
            record: self,
        }
    }

    // The next run of recorded numbers below `below`, as long as it can be; 120 for a record that does not fit.
    #[tactic(auto, unfolding(crate::specs::Found::found_of, crate::specs::Marks::recorded, crate::specs::Marks::check_of))]
    pub fn next_run(self, below: u64) -> Result<Option<Run>, Answer>
        ensures { result ≡ found_of self below }
    {
        check_of(&self)?;
        Ok(ring::next_run(&self.words, self.top, below))
    }
}
