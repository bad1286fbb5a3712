// The marks of one stream's places (docs/RULES.md, "Ordered bytes"): 64 words that are lent, a bit for each of 4,096 places that follow one
// another. The place p has the bit p % 64 of the word p / 64 % 64. Marks are looked at and made a word at a time.
#![tactic(auto)]

ghost use Rattle.std.specs.Prelude.{◌≡◌, ◌+◌, ◌-◌, ◌≤◌, ◌<◌, ◌^◌, length, eqb};
ghost use Rattle.answers.specs.Choice.{◌⇒◌∣◌};
ghost use Rattle.places.specs.Places.{marked, run_of, up_of, painted_of};
ghost use Rattle.places.specs.Parts.{Painted, Alike, Whole, Marked};

// The highest place that marks are painted up to: 2^63-1.
const MOST: u64 = 9223372036854775807;

// The word w with the bits from lo up to hi all set, or all clear.
fn painted(w: u64, lo: u64, hi: u64, ones: bool) -> u64
    requires { (lo < hi) × (hi ≤ 64) }
    ensures { Painted w lo hi ones result }
{
    if ones {
        !ring::without(!w, lo, hi)
    } else {
        ring::without(w, lo, hi)
    }
}

// How many bits of w, from b on upwards, are like `ones`.
fn alike(w: u64, b: u64, ones: bool) -> u64
    requires { b < 64 }
    ensures { Alike w b ones result }
{
    let like = if ones { w } else { !w };
    u64::from((!(like >> b)).trailing_zeros())
}

// The place up to which, from `at`, all marks are like `ones`, but not above `to`; `at` where the words are not 64.
pub fn up(marks: &[u64], at: u64, to: u64, ones: bool) -> u64
    ensures { result ≡ up_of marks.now at to ones }
{
    if marks.len() != 64 {
        return at;
    }
    let mut p = at;
    while p < to {
        let b = p % 64;
        let k = (p / 64 % 64) as usize;
        let n = alike(marks[k], b, ones);
        if to - p <= n {
            return to;
        }
        p += n;
        if n < 64 - b {
            return p;
        }
    }
    p
}

// The length of the longest run of marked places from `read` on, below `held`; 0 where the words are not 64.
pub fn run(marks: &[u64], read: u64, held: u64) -> u64
    ensures { result ≡ (eqb (length marks.now) 64 ⇒ run_of (marked marks.now) read (held - read) ∣ 0) }
{
    up(marks, read, held, true) - read
}

// Makes the marks of the places from `from` up to `to` like `ones`, a part of a word at a time.
fn mark(marks: &mut [u64], from: u64, to: u64, ones: bool)
    requires { (to ≤ from + 4096) × (to < 2 ^ 63) × (length marks.old ≡ 64) }
    ensures marked { Marked marks.old from to ones marks.new }
    ensures whole { Whole marks.new }
{
    let mut at = from;
    while at < to {
        let lo = at % 64;
        let hi = (lo + (to - at)).min(64);
        let k = (at / 64 % 64) as usize;
        marks[k] = painted(marks[k], lo, hi, ones);
        at += hi - lo;
    }
}

// The same for any words and places: nothing is changed where the words are not 64, where the places are more than 4,096 or go above 2^63-1.
pub fn paint(marks: &mut [u64], from: u64, to: u64, ones: bool)
    ensures { marks.new ≡ painted_of marks.old from to ones }
{
    if marks.len() != 64 {
        return;
    }
    if MOST < to {
        return;
    }
    if to <= from {
        return;
    }
    if 4096 < to - from {
        return;
    }
    mark(marks, from, to, ones);
}
