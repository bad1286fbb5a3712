// A ring of 128 words, a bit for each number: what is marked in it, and its runs. The words are lent, since a ring by value is
// a copy of 1 KB for each call. The number n has the bit n % 64 of the word n / 64 % 128. No function here is a call for a host: each is
// a part of one that takes a record, and what it answers of words that are no record is still fixed by its contract.
#![tactic(auto)]

ghost use Rattle.std.specs.Prelude.{◌≡◌, ◌*◌, ◌≤◌, ◌<◌, ◌-◌, max, min};
ghost use Rattle.ring.specs.Bits.{bit_at, alike, marked, unmarked};
ghost use Rattle.ring.specs.Runs.{lowest, next_run};
ghost use Rattle.ring.specs.Parts.{Blank, Clean, Complement, Decides, without};

// A run of marked numbers, from the highest down to the lowest.
#[derive(Clone, Copy)]
pub struct Run {
    pub high: u64,
    pub low: u64,
}

// The word w without the bits from lo up to hi; w itself where a word has no such bits. Public as a part of the crates that clear marks in their words.
#[tactic(auto, unfolding(crate::specs::Parts::without))]
pub fn without(w: u64, lo: u64, hi: u64) -> u64
    ensures { result ≡ without w lo hi }
{
    if hi <= lo || 64 < hi {
        return w;
    }
    let low = w % (1u64 << lo);
    // no shift may go by all 64 bits of a word
    if hi == 64 {
        return low;
    }
    ((w >> hi) << hi) + low
}

// Whether the word w has no bit from s on.
fn blank(w: u64, s: u64) -> bool
    requires { s < 64 }
    ensures { Decides (Blank w s) result }
{
    w >> s == 0
}

// The bit of the number n. Public as a part of `records::check_of`, which asks for 120 with it, and of `records::test_of`, whose callers have asked before.
#[tactic(auto, unfolding(crate::specs::Bits::bit_at, crate::specs::Bits::bit))]
pub fn bit_at(words: &[u64; 128], n: u64) -> u64
    ensures { result ≡ bit_at words.now n }
{
    let at = (n / 64 % 128) as usize;
    (words[at] >> (n % 64)) % 2
}

// Whether the words from `from` on have no bit. It does not stop at the first one that has, so that several words are looked at in one step.
fn zeros(words: &[u64; 128], from: usize) -> bool
    requires { from ≤ 128 }
    ensures { Decides (Clean words.now (64 * from)) result }
{
    let mut all = 0;
    for &w in &words[from..] {
        all |= w;
    }
    blank(all, 0)
}

// Whether no number below 0 is marked: while the largest is below 8,191 the slots above it are theirs, the rest of a word and whole words.
// Public as a part of `records::check_of`, which asks for 120 with it.
pub fn is_clean(words: &[u64; 128], top: u64) -> bool
    ensures { result ≡ unmarked words.now top (8192 - top) }
{
    if 8192 <= top {
        return true;
    }
    let k = (top / 64) as usize;
    if !blank(words[k], top % 64) {
        return false;
    }
    zeros(words, k + 1)
}

// The larger of two numbers.
pub fn larger(a: u64, b: u64) -> u64
    ensures { result ≡ max a b }
{
    a.max(b)
}

// The smaller of two numbers.
pub fn smaller(a: u64, b: u64) -> u64
    ensures { result ≡ min a b }
{
    a.min(b)
}

// Each bit the other way.
fn complement(word: u64) -> u64
    ensures { Complement word result }
{
    !word
}

// Where a stretch ends that goes down from below `end`: of numbers that came, or of numbers that are missing. One that goes past `bottom` ends anywhere there.
fn end_of(words: &[u64; 128], mut end: u64, bottom: u64, came: bool) -> u64
    ensures { max bottom result ≡ max bottom (lowest (alike words.now came) end) }
{
    while bottom < end {
        let first = end - 1;
        let word = words[(first / 64 % 128) as usize];
        // With the first number at the top, leading zeros are numbers that are missing, and the complement's are numbers that came.
        let others = (if came { complement(word) } else { word }) << (63 - first % 64);
        if others != 0 {
            return end - u64::from(others.leading_zeros());
        }
        end = first / 64 * 64;
    }
    end
}

// The next run of the numbers below `top` that are marked, below `below` and as long as it can be: from the end of the missing ones down to its own.
// Public as a part of `records::Record::next_run` and of `acks::write`, which have each asked for 120 once before, not for each run.
pub fn next_run(words: &[u64; 128], top: u64, below: u64) -> Option<Run>
    ensures { result ≡ next_run (marked words.now top) below }
{
    let bottom = top.saturating_sub(8192);
    let high = end_of(words, below.min(top), bottom, false);
    if high <= bottom {
        return None;
    }
    Some(Run {
        high: high - 1,
        low: bottom.max(end_of(words, high, bottom, true)),
    })
}
