// The words of a line, by their place in it: as a name, a number or bytes. A word that is not what is asked for answers its place.
use kinds::Space;
use lines::words;
use lines::words::Signed;
use text::decimal;

// Whether a word is this one.
pub fn is(s: &[u8], n: usize, word: &[u8]) -> bool {
    search::same(words::word(s, n), word)
}

// A word as a number.
pub fn number(s: &[u8], n: usize) -> Result<u64, usize> {
    decimal::read(words::word(s, n)).ok_or(n)
}

// A word as a number that may have "-" before its digits.
pub fn with_sign(s: &[u8], n: usize) -> Result<Signed, usize> {
    words::with_sign(words::word(s, n)).ok_or(n)
}

// A word as bytes, which go to the front of the output: how many they are.
pub fn bytes(s: &[u8], n: usize, out: &mut [u8]) -> Result<usize, usize> {
    words::bytes(words::word(s, n), out).ok().ok_or(n)
}

// A word as the number of a space.
pub fn space(s: &[u8], n: usize) -> Result<Space, usize> {
    match number(s, n)? {
        0 => Ok(Space::Initial),
        1 => Ok(Space::Handshake),
        2 => Ok(Space::Application),
        _ => Err(n),
    }
}
