// A line as words with single blanks between them, and each word as a number or bytes.
ghost use Rattle.std.specs.Prelude.{◌≡◌, ◌≤◌, length, drop};
ghost use Rattle.lines.specs.Words.{count_of, behind_blank, word_of, signed_of, bytes_of};

use hexes::HexError;
use text::decimal;

// A number with or without "-" before it.
#[derive(Clone, Copy)]
pub enum Signed {
    Plus { value: u64 },
    Minus { value: u64 },
}

// How many words a line has; 0 where one is empty: a blank at either end, or two together.
pub fn count(s: &[u8]) -> usize
    ensures { result ≡ count_of s.now }
{
    let mut blanks = 0;
    let mut last = b' ';
    for &c in s {
        if c == b' ' {
            if last == b' ' {
                return 0;
            }
            blanks += 1;
        }
        last = c;
    }
    if last == b' ' { 0 } else { blanks + 1 }
}

// The place after the first blank, or the end.
fn behind_blank(s: &[u8]) -> usize
    ensures { (result ≤ length s.now) × (drop result s.now ≡ behind_blank s.now) }
{
    let end = search::word_end(s, 0);
    if end < s.len() { end + 1 } else { end }
}

// A word of a line; they count from 0, and one that is not there is empty.
pub fn word(s: &[u8], n: usize) -> &[u8]
    ensures { result.now ≡ word_of s.now n }
{
    let mut rest = s;
    for _ in 0..n {
        let at = behind_blank(rest);
        rest = &rest[at..];
    }
    let end = search::word_end(rest, 0);
    &rest[..end]
}

// A word as a number that may have "-" before its digits.
pub fn with_sign(word: &[u8]) -> Option<Signed>
    ensures { result ≡ signed_of word.now }
{
    if !word.is_empty() && word[0] == b'-' {
        let value = decimal::read(&word[1..])?;
        return Some(Signed::Minus { value });
    }
    let value = decimal::read(word)?;
    Some(Signed::Plus { value })
}

// A word as bytes, which go to the front of the output: pairs of digits, or "-" for none.
pub fn bytes(word: &[u8], out: &mut [u8]) -> Result<usize, HexError>
    ensures { (result, out.new) ≡ bytes_of word.now out.old }
{
    if search::same(word, b"-") {
        return Ok(0);
    }
    hexes::read(word, out)
}
