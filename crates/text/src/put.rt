// A text at a place of an output, all of it or none.
ghost use Rattle.std.specs.Prelude.{◌≡◌, ◌+◌, leb};
ghost use Rattle.wire.specs.Writing.{Bytes, writes};

use answers::Answer;

// Whether an output of n bytes has room for so many from a place on.
pub fn fits(n: usize, at: usize, size: usize) -> bool
    ensures { result ≡ leb (at + size) n }
{
    at <= n && size <= n - at
}

// Writes a text at a place. A refusal leaves the output untouched.
pub fn bytes(out: &mut [u8], at: usize, text: &[u8]) -> Result<usize, Answer>
    ensures { (result, out.new) ≡ writes (Bytes text.now) out.old at }
{
    if !fits(out.len(), at, text.len()) {
        return Err(Answer::NoRoom);
    }
    let next = at + text.len();
    out[at..next].copy_from_slice(text);
    Ok(next)
}
