// What a frame may ask of the streams, and rules 1 to 5 of docs/RULES.md, "Streams and credit", on a connection and ONE entry of its
// table, by value: one function each, and the answers that they give together.
#![tactic(auto)]

ghost use Rattle.std.specs.Prelude.{◌≡◌, ◌-◌};
ghost use Rattle.answers.specs.Outcome.{outcome_of};
ghost use Rattle.rules.specs.Rules;

use answers::Answer;
use entries::Entry;
use halves::Stream;
use kinds::Space;
use streams::Conn;

// What a frame asks of the streams: to take a stream's data up to an end; to note that a stream is blocked, or something
// for our sending half of one; to note an acknowledgement; to close the connection; or nothing. A stream stands by the ID
// that it has at a server, whichever end we are.
#[derive(Clone, Copy)]
pub enum View {
    Ends { id: u64, end: u64, fin: bool },
    Blocks { id: u64 },
    ForSender { id: u64 },
    Acks { space: Space, largest: u64 },
    Closes,
    Nothing,
}

// The peer does not send on the stream's half, or the stream is ours and we did not open it.
#[tactic(auto, unfolding(crate::specs::Rules::rule1))]
fn rule1(count: u64, s: Stream) -> bool
    ensures { result ≡ Rules.rule1 count s }
{
    2 < s.half || (!halves::is_peers(s.half) && count <= s.ordinal)
}

// The stream is the peer's, its ordinal not below the advertised count.
#[tactic(auto, unfolding(crate::specs::Rules::rule2))]
fn rule2(count: u64, s: Stream) -> bool
    ensures { result ≡ Rules.rule2 count s }
{
    halves::is_peers(s.half) && count <= s.ordinal
}

// Final size known and end above it, or FIN with another end; or FIN below the furthest end.
#[tactic(auto, unfolding(crate::specs::Rules::rule3))]
fn rule3(known: Option<u64>, furthest: u64, end: u64, fin: bool) -> bool
    ensures { result ≡ Rules.rule3 known furthest end fin }
{
    known.is_some_and(|size| size < end || (fin && end != size)) || (fin && end < furthest)
}

// End above the stream's credit.
#[tactic(auto, unfolding(crate::specs::Rules::rule4))]
fn rule4(credit: u64, end: u64) -> bool
    ensures { result ≡ Rules.rule4 credit end }
{
    credit < end
}

// Total plus growth of the furthest end above the connection credit, with no sum that wraps.
#[tactic(auto, unfolding(crate::specs::Rules::rule5))]
fn rule5(credit: u64, total: u64, furthest: u64, end: u64) -> bool
    ensures { result ≡ Rules.rule5 credit total furthest end }
{
    credit < total || credit - total < growth(furthest, end)
}

// Whether a STREAM frame may pass, or a RESET_STREAM frame with its final size as an end with FIN.
#[tactic(auto, unfolding(crate::specs::Rules::ends_of, crate::specs::Rules::blocked_of))]
pub fn ends(c: Conn, e: Entry, id: u64, end: u64, fin: bool) -> Result<(), Answer>
    ensures { result ≡ outcome_of (Rules.ends_of c e id end fin) }
{
    blocked(c, id)?;
    if rule3(e.known(), e.end, end, fin) {
        return Err(Answer::FinalSize);
    }
    if rule4(e.credit, end) || rule5(c.limits.credit, c.total, e.end, end) {
        return Err(Answer::FlowControl);
    }
    Ok(())
}

// Whether STREAM_DATA_BLOCKED may.
#[tactic(auto, unfolding(crate::specs::Rules::blocked_of))]
pub fn blocked(c: Conn, id: u64) -> Result<(), Answer>
    ensures { result ≡ outcome_of (Rules.blocked_of c id) }
{
    let s = halves::named(id);
    let count = c.count_of(id);
    if rule1(count, s) {
        return Err(Answer::StreamState);
    }
    if rule2(count, s) {
        return Err(Answer::StreamLimit);
    }
    Ok(())
}

// Whether STOP_SENDING and MAX_STREAM_DATA may.
#[tactic(auto, unfolding(crate::specs::Rules::for_sender_of, crate::specs::Rules::rule2))]
pub fn for_sender(c: Conn, id: u64) -> Result<(), Answer>
    ensures { result ≡ outcome_of (Rules.for_sender_of c id) }
{
    let s = halves::named(id);
    if s.half == 2 {
        return Err(Answer::StreamState);
    }
    if s.ordinal < c.count_of(id) {
        return Ok(());
    }
    if halves::is_peers(s.half) {
        Err(Answer::StreamLimit)
    } else {
        Err(Answer::StreamState)
    }
}

// How far `to` is above `from`, if it is.
pub fn growth(from: u64, to: u64) -> u64
    ensures { result ≡ to - from }
{
    to.saturating_sub(from)
}
