// Bytes in hexadecimal: two digits for each, the higher first.
#![tactic(auto)]

ghost use Rattle.std.specs.Prelude.{◌≡◌, true, ◌/◌, ◌≤◌, ◌<◌, length};
ghost use Rattle.std.proofs.lemmas.List.Edits.{sets};
ghost use Rattle.std.specs.List.{list_all};
ghost use Rattle.std.specs.Option.{is_some};
ghost use Rattle.dumps.specs.Digits.{half_of};
ghost use Rattle.wire.specs.Writing.{Bytes, writes};
ghost use Rattle.hexes.specs.Hex.{digit_of, hex_of, is_pairs, bytes_in, pairs_of};

use answers::Answer;

// Why a text is not read: it is no pairs of digits, or more of them than the output holds.
#[derive(Clone, Copy, Debug, PartialEq, Eq)]
pub enum HexError {
    Wrong,
    NoRoom,
}

// The digit of half a byte.
fn digit(half: u8) -> u8
    requires { half < 16 }
    ensures { result ≡ digit_of half }
{
    if half < 10 {
        b'0' + half
    } else {
        b'a' - 10 + half
    }
}

// Writes each byte as two digits, letters in lower case. A refusal leaves the output untouched.
pub fn write(out: &mut [u8], at: usize, s: &[u8]) -> Result<usize, Answer>
    ensures { (result, out.new) ≡ writes (Bytes (hex_of s.now)) out.old at }
{
    if out.len() < at || (out.len() - at) / 2 < s.len() {
        return Err(Answer::NoRoom);
    }
    let mut place = at;
    for &byte in s {
        out[place] = digit(byte / 16);
        out[place + 1] = digit(byte % 16);
        place += 2;
    }
    Ok(place)
}

// Whether every character of a text is a digit.
fn all_digits(s: &[u8]) -> bool
    ensures { result ≡ list_all (λ c. is_some (half_of c)) s.now }
{
    s.iter().all(|&c| dumps::half(c).is_some())
}

// Whether a text is pairs of digits.
fn is_pairs(s: &[u8]) -> bool
    ensures { result ≡ is_pairs s.now }
{
    s.len() % 2 == 0 && all_digits(s)
}

// Writes the bytes of pairs to the front of an output with room for them.
fn decode(s: &[u8], out: &mut [u8])
    requires { (is_pairs s.now ≡ true) × (length s.now / 2 ≤ length out.old) }
    ensures { out.new ≡ sets out.old 0 (bytes_in s.now) }
{
    for i in 0..s.len() / 2 {
        let (Some(high), Some(low)) = (dumps::half(s[2 * i]), dumps::half(s[2 * i + 1])) else {
            return;
        };
        out[i] = high * 16 + low;
    }
}

// Reads pairs of digits into the front of the output, whose rest stays, and answers how many bytes they are. A refusal leaves the output untouched.
pub fn read(s: &[u8], out: &mut [u8]) -> Result<usize, HexError>
    ensures { (result, out.new) ≡ pairs_of s.now out.old }
{
    if !is_pairs(s) {
        return Err(HexError::Wrong);
    }
    let count = s.len() / 2;
    if out.len() < count {
        return Err(HexError::NoRoom);
    }
    decode(s, out);
    Ok(count)
}
