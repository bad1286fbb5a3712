// A line that comes in pieces: what is kept of it, and where it ends.
ghost use Rattle.std.specs.Prelude.{◌≡◌};
ghost use Rattle.lines.specs.Gathered.{grown_of, gathered_of};

use text::put;

// The line with a piece more, whether it has ended, and how many bytes of what came are used. What is kept of a line is so many
// bytes at the front of a row, or nothing of one that the row does not hold.
#[derive(Clone, Copy)]
pub struct Gathered {
    pub line: Option<usize>,
    pub ended: bool,
    pub used: usize,
}

// Puts a piece after what is kept.
fn grown(row: &mut [u8], line: Option<usize>, piece: &[u8]) -> Option<usize>
    ensures { (result, row.new) ≡ grown_of line piece.now row.old }
{
    put::bytes(row, line?, piece).ok()
}

// Takes what comes up to the first newline.
pub fn gather(row: &mut [u8], line: Option<usize>, s: &[u8]) -> Gathered
    ensures { (result, row.new) ≡ gathered_of line s.now row.old }
{
    let end = search::line_end(s, 0);
    let line = grown(row, line, &s[..end]);
    let ended = end < s.len();
    let used = if ended { end + 1 } else { end };
    Gathered { line, ended, used }
}
