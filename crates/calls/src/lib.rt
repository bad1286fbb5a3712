// The local calls (docs/RULES.md, "Local calls"): one enum, the entry that a call looks at, and its answer on a connection and ONE
// entry, by value. Handing out a packet number is none of them: it looks at neither the table nor the closing mark.
#![tactic(auto)]

ghost use Rattle.std.specs.Prelude.{◌≡◌};
ghost use Rattle.answers.specs.Outcome.{outcome_of};
ghost use Rattle.halves.specs.Stream.{place_of};
ghost use Rattle.calls.specs.Calls.{seated_call, raise_of, reply_of, stream_in};

use answers::Answer;
use entries::Entry;
use kinds::Role;
use streams::Conn;

// A local call. A type is that on the wire.
#[derive(Clone, Copy)]
pub enum Call {
    RaiseCredit { new: u64 },
    RaiseStream { id: u64, new: u64 },
    RaiseCount { ty: u64, new: u64 },
    OpenNext { ty: u64 },
}

// A call with its stream or its type as at a server.
pub fn seated(role: Role, call: Call) -> Call
    ensures { result ≡ seated_call role call }
{
    match call {
        Call::RaiseCredit { new } => Call::RaiseCredit { new },
        Call::RaiseStream { id, new } => Call::RaiseStream {
            id: halves::seated(role, id),
            new,
        },
        Call::RaiseCount { ty, new } => Call::RaiseCount {
            ty: halves::seated(role, ty),
            new,
        },
        Call::OpenNext { ty } => Call::OpenNext {
            ty: halves::seated(role, ty),
        },
    }
}

// The place of the entry that a call looks at.
pub fn place(role: Role, call: Call) -> usize
    ensures { result ≡ place_of (stream_in (seated_call role call)) }
{
    match call {
        Call::RaiseStream { id, new: _ } => halves::place_of(halves::seated(role, id)),
        _ => halves::place_of(0),
    }
}

// 103 above the ceiling, 102 not above the present value.
#[tactic(auto, unfolding(crate::specs::Calls::raise_of))]
fn raise(present: u64, new: u64, ceiling: u64) -> Result<(), Answer>
    ensures { result ≡ outcome_of (raise_of present new ceiling) }
{
    if ceiling < new {
        return Err(Answer::AboveCeiling);
    }
    if new <= present {
        return Err(Answer::NotAbove);
    }
    Ok(())
}

// Whether a stream's credit may be raised.
#[tactic(auto, unfolding(crate::specs::Calls::reply_of))]
fn raise_stream(c: Conn, e: Entry, id: u64, new: u64) -> Result<(), Answer>
    ensures { result ≡ outcome_of (reply_of c e (Call.RaiseStream id new)) }
{
    let s = halves::named(id);
    if 2 < s.half || c.opened_of(id) <= s.ordinal {
        return Err(Answer::NotServed);
    }
    if e.known().is_some() {
        return Err(Answer::SizeKnown);
    }
    raise(e.credit, new, Conn::MOST_CREDIT)
}

// Whether a stream count may be: only the peer's halves have one that we advertise.
#[tactic(auto, unfolding(crate::specs::Calls::reply_of))]
fn raise_count(c: Conn, e: Entry, ty: u64, new: u64) -> Result<(), Answer>
    ensures { result ≡ outcome_of (reply_of c e (Call.RaiseCount ty new)) }
{
    let s = halves::named(ty);
    if 3 < ty || !halves::is_peers(s.half) {
        return Err(Answer::NotServed);
    }
    raise(c.count_of(ty), new, Conn::MOST_STREAMS)
}

// Whether the next stream may be opened: only our own halves have one.
#[tactic(auto, unfolding(crate::specs::Calls::reply_of))]
fn open_next(c: Conn, e: Entry, ty: u64) -> Result<(), Answer>
    ensures { result ≡ outcome_of (reply_of c e (Call.OpenNext ty)) }
{
    let s = halves::named(ty);
    if 3 < ty || halves::is_peers(s.half) {
        return Err(Answer::NotServed);
    }
    if Conn::MOST_STREAMS <= c.opened_of(ty) {
        return Err(Answer::AboveCeiling);
    }
    Ok(())
}

// Whether an open connection takes a call, its stream or type as at a server: 104, then 105, 103, 102.
#[tactic(auto, unfolding(crate::specs::Calls::reply_of))]
pub fn reply(c: Conn, e: Entry, call: Call) -> Result<(), Answer>
    ensures { result ≡ outcome_of (reply_of c e call) }
{
    match call {
        Call::RaiseCredit { new } => raise(c.limits.credit, new, Conn::MOST_CREDIT),
        Call::RaiseStream { id, new } => raise_stream(c, e, id, new),
        Call::RaiseCount { ty, new } => raise_count(c, e, ty, new),
        Call::OpenNext { ty } => open_next(c, e, ty),
    }
}
