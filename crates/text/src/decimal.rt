// Numbers in decimal digits.
ghost use Rattle.std.specs.Prelude.{◌≡◌};
ghost use Rattle.wire.specs.Writing.{Bytes, writes};
ghost use Rattle.text.specs.Decimal.{decimal_of, parsed_of};

use crate::put;
use answers::Answer;

// Writes a number at a place, in no more digits than it has. A refusal leaves the output untouched.
pub fn write(out: &mut [u8], at: usize, n: u64) -> Result<usize, Answer>
    ensures { (result, out.new) ≡ writes (Bytes (decimal_of n)) out.old at }
{
    let mut digits = [0u8; 20];
    digits[19] = (48 + n % 10) as u8;
    let mut higher = n / 10;
    let mut i = 19;
    while 0 < higher {
        i -= 1;
        digits[i] = (48 + higher % 10) as u8;
        higher /= 10;
    }
    put::bytes(out, at, &digits[i..])
}

// Reads a text that is digits and nothing else: its value, or nothing where 64 bits hold none.
pub fn read(s: &[u8]) -> Option<u64>
    ensures { result ≡ parsed_of s.now }
{
    if s.is_empty() {
        return None;
    }
    let mut value: u64 = 0;
    for &c in s {
        if !c.is_ascii_digit() {
            return None;
        }
        let digit = u64::from(c - b'0');
        if (u64::MAX - digit) / 10 < value {
            return None;
        }
        value = value * 10 + digit;
    }
    Some(value)
}
