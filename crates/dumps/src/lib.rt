// Bytes in hexadecimal as a person copies them out of a capture: two digits for each, in either case, with blanks and
// newlines between bytes alone. A text may come in pieces.
#![tactic(auto)]

ghost use Rattle.std.specs.Prelude.{◌≡◌};
ghost use Rattle.dumps.specs.Digits.{half_of};
ghost use Rattle.dumps.specs.Dump.{begun_of, next_of, taken_of};

// What a piece of such a text is that was read to its end: the first digit of a byte that has begun, and how many bytes were written.
#[derive(Clone, Copy)]
pub struct Taken {
    pub half: Option<u8>,
    pub len: usize,
}

// Why a piece is not: a character that cannot stand where it does, after that digit and so many bytes; or it is longer than the output.
#[derive(Clone, Copy, Debug, PartialEq, Eq)]
pub enum DumpError {
    Wrong {
        at: usize,
        half: Option<u8>,
        len: usize,
    },
    NoRoom,
}

// What a character is where it stands: between bytes, the first digit of a byte, or its second.
#[derive(Clone, Copy)]
pub enum Step {
    Between,
    Begun { half: u8 },
    Byte { byte: u8 },
}

// The half of a byte that a digit stands for, in either case.
pub fn half(c: u8) -> Option<u8>
    ensures { result ≡ half_of c }
{
    match c {
        b'0'..=b'9' => Some(c - b'0'),
        b'A'..=b'F' => Some(c - b'A' + 10),
        b'a'..=b'f' => Some(c - b'a' + 10),
        _ => None,
    }
}

// The first digit of a byte that has begun: 16 and above are no digit.
fn begun(half: Option<u8>) -> Option<u8>
    ensures { result ≡ begun_of half }
{
    match half {
        Some(digit) if digit < 16 => half,
        _ => None,
    }
}

// What a character is after such a digit, or nothing where it cannot stand there. `take` calls `begun` once, before its
// loop: a call here would test the digit again at each character.
fn next(half: Option<u8>, c: u8) -> Option<Step>
    requires { begun_of half ≡ half }
    ensures { result ≡ next_of half c }
{
    match (half, crate::half(c)) {
        (Some(high), Some(low)) => Some(Step::Byte {
            byte: high * 16 + low,
        }),
        (Some(_), None) => None,
        (None, Some(high)) => Some(Step::Begun { half: high }),
        (None, None) if c == b' ' || c == b'\n' => Some(Step::Between),
        (None, None) => None,
    }
}

// Reads a piece into the front of the output, whose rest stays: one as long as the piece always suffices. half: the value
// of the first digit of a byte that the piece before left begun; 16 and above count as none.
pub fn take(half: Option<u8>, s: &[u8], out: &mut [u8]) -> Result<Taken, DumpError>
    ensures { (result, out.new) ≡ taken_of half s.now out.old }
{
    if out.len() < s.len() {
        return Err(DumpError::NoRoom);
    }
    let mut half = begun(half);
    let mut len = 0;
    for (at, &c) in s.iter().enumerate() {
        let Some(step) = next(half, c) else {
            return Err(DumpError::Wrong { at, half, len });
        };
        match step {
            Step::Between => {},
            Step::Begun { half: first } => half = Some(first),
            Step::Byte { byte } => {
                out[len] = byte;
                len += 1;
                half = None;
            },
        }
    }
    Ok(Taken { half, len })
}
