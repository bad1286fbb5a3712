// What the program writes: bytes to standard output, and a line on a wrong character to standard error.
ghost use Rattle.std.specs.Prelude.{◌≡◌, ◌+◌, ◌-◌, ◌^◌, min};

use std::io;
use text::{decimal, put};

// A place so many characters later; the last that a number holds stands for all that are later still.
pub fn later(place: u64, n: u64) -> u64
    ensures { result ≡ min (place + n) (2 ^ 64 - 1) }
{
    place.saturating_add(n)
}

// Writes the first bytes of an output: never more than it has.
pub fn bytes(to: &impl Print, s: &[u8], len: usize) -> io::Result<()> {
    to.write_all(&s[..len.min(s.len())])
}

// A line that begins with what was said so far. It has room for all that is said, so that nothing is left off.
#[derive(Drop)]
struct Line {
    bytes: [u8; 64],
    len: usize,
}

impl Line {
    fn text(&mut self, t: &[u8]) {
        self.len = put::bytes(&mut self.bytes, self.len, t).unwrap_or(self.len);
    }

    fn number(&mut self, n: u64) {
        self.len = decimal::write(&mut self.bytes, self.len, n).unwrap_or(self.len);
    }
}

// One line on the character at a place, by the digit before it: where a byte has begun, its second digit is lacking.
pub fn wrong(err: &impl Print, place: u64, half: Option<u8>) -> io::Result<()> {
    let mut line = Line {
        bytes: [0u8; 64],
        len: 0,
    };
    line.text(b"place ");
    line.number(place);
    match half {
        Some(_) => line.text(b": a byte of one digit\n"),
        None => line.text(b": no hexadecimal digit\n"),
    }
    bytes(err, &line.bytes, line.len)
}
