// What the listing writes of a frame that was taken, where it goes on, and its last line.
ghost use Rattle.std.specs.Prelude.{◌≡◌};
ghost use Rattle.wire.specs.Writing.{Bytes, writes};
ghost use Rattle.report.specs.Listing.{too_long, heading_of, type_shown, taken_row_of, after_of, last_of, ending_of};

use answers::Answer;
use steps::{Shown, TookFrame};
use streams::Mark;
use text::put;

// Whether a payload is longer than what a UDP datagram can carry.
#[tactic(auto, unfolding(crate::specs::Listing::too_long))]
pub fn too_long(n: usize) -> bool
    ensures { result ≡ too_long n }
{
    65527 < n
}

// Writes the first line for a payload of n bytes: the header, or of one that is too long all that is said. A refusal leaves the
// output untouched.
#[tactic(auto, unfolding(crate::specs::Listing::heading_of))]
pub fn heading(out: &mut [u8], at: usize, n: usize) -> Result<usize, Answer>
    ensures { (result, out.new) ≡ writes (Bytes (heading_of n)) out.old at }
{
    if too_long(n) {
        return put::bytes(out, at, b"too long\n");
    }
    put::bytes(out, at, b"place type code total\n")
}

#[tactic(auto, unfolding(crate::specs::Listing::type_shown))]
fn type_shown(shown: Shown) -> Option<u64>
    ensures { result ≡ type_shown shown }
{
    match shown {
        Shown::Nothing => None,
        Shown::Typed { ty } | Shown::Whole { ty, .. } => Some(ty),
    }
}

// Writes the row of a frame at a place of the output. A refusal leaves the output untouched.
#[tactic(auto, unfolding(crate::specs::Listing::taken_row_of))]
pub fn taken_row(out: &mut [u8], at: usize, place: usize, took: TookFrame) -> Result<usize, Answer>
    ensures { (result, out.new) ≡ writes (Bytes (taken_row_of place took)) out.old at }
{
    let TookFrame {
        answer,
        shown,
        conn,
    } = took;
    columns::row(
        out,
        at,
        place,
        type_shown(shown),
        answer.number(),
        conn.total,
    )
}

// Where the walk goes on after a frame: at the end if the frame closed the connection.
#[tactic(auto, unfolding(crate::specs::Listing::after_of, crate::specs::Listing::next_in))]
pub fn after(took: TookFrame, end: usize) -> usize
    ensures { result ≡ after_of took end }
{
    if !took.conn.mark.is_open() {
        return end;
    }
    match took.shown {
        Shown::Whole { next, .. } => next,
        _ => end,
    }
}

// How the connection stands in the end, after a payload of n bytes: one without frames breaks the protocol.
#[tactic(auto, unfolding(crate::specs::Listing::last_of))]
pub fn last(n: usize, mark: Mark) -> Mark
    ensures { result ≡ last_of n mark }
{
    if n == 0 {
        return Mark::Code {
            answer: Answer::ProtocolViolation,
            ty: 0,
        };
    }
    mark
}

// Writes the last line: how the connection stands. A refusal leaves the output untouched.
#[tactic(auto, unfolding(crate::specs::Listing::ending_of, columns::specs::Row::closed_text))]
pub fn ending(out: &mut [u8], at: usize, mark: Mark) -> Result<usize, Answer>
    ensures { (result, out.new) ≡ writes (Bytes (ending_of mark)) out.old at }
{
    match mark {
        Mark::Open => put::bytes(out, at, b"open\n"),
        Mark::Code { answer, .. } => columns::closed(out, at, answer.number()),
        Mark::ByPeer => put::bytes(out, at, b"closed by peer\n"),
    }
}
