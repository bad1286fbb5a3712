// What the listing writes: what is gathered in a buffer, the first line and the last.
use answers::Answer;
use report::taken;
use std::io;
use streams::Mark;

// Writes what is gathered: never more than there is.
pub fn flush(to: &impl Print, buf: &[u8], used: usize) -> io::Result<()> {
    to.write_all(&buf[..used.min(buf.len())])
}

// Writes a line, which has room for all that is said: nothing is refused.
fn line<F: FnOnce(&mut [u8]) -> Result<usize, Answer>>(to: &impl Print, write: F) -> io::Result<()>
    requires { F.IsAlwaysCallable write }
{
    let mut bytes = [0u8; 32];
    let end = write(&mut bytes).unwrap_or(0);
    flush(to, &bytes, end)
}

// The first line for a payload of n bytes.
pub fn heading(to: &impl Print, n: usize) -> io::Result<()> {
    line(to, |out| taken::heading(out, 0, n))
}

// The last line: how the connection stands.
pub fn standing(to: &impl Print, mark: Mark) -> io::Result<()> {
    line(to, |out| taken::ending(out, 0, mark))
}
