// One frame of a payload: what it asks for, and what it leaves of a connection and of the entry that it looks at.
ghost use Rattle.std.specs.Prelude.{◌≡◌};
ghost use Rattle.steps.specs.Step.{request_of, request_at, decided_of, shown_at};
ghost use Rattle.steps.specs.Past.{passable, past_padding};

use crate::{Decided, Request, Shown, Stepped};
use entries::Entry;
use fields::Refusal;
use frames::Reading;
use kinds::{Kind, Role};
use layouts::types;
use streams::{Conn, Mark};
use verdicts::Judged;

// What a frame asks for, from what reading it gave.
#[tactic(auto, unfolding(crate::specs::Step::request_of))]
fn requested(role: Role, kind: Kind, at: usize, r: Result<Reading, Refusal>) -> Request
    ensures { result ≡ request_of role kind at r }
{
    match r {
        Ok(Reading { frame, ty, next }) => {
            let view = views::of_frame(role, kind, frame);
            Request {
                place: views::place(view),
                next,
                ty,
                asks: Ok(view),
            }
        },
        Err(Refusal { answer, ty }) => Request {
            place: 0,
            next: at,
            ty,
            asks: Err(answer),
        },
    }
}

// What the frame at a place asks for.
#[tactic(auto, unfolding(crate::specs::Step::request_at))]
pub fn request(role: Role, s: &[u8], at: usize, kind: Kind) -> Request
    ensures { result ≡ request_at role s.now at kind }
{
    requested(role, kind, at, frames::read(role, s, at, kind))
}

// What a frame leaves, on an open connection whose table fits.
#[tactic(auto, unfolding(crate::specs::Step::decided_of))]
pub fn decide(c: Conn, e: Entry, a: Request) -> Decided
    ensures { result ≡ decided_of c e a }
{
    let judged = match a.asks {
        Ok(view) => verdicts::judge(c, e, a.ty, view),
        Err(answer) => Judged {
            answer,
            conn: c.marked(Mark::Code { answer, ty: a.ty }),
            entry: e,
        },
    };
    Decided {
        stepped: Stepped {
            conn: judged.conn,
            answer: judged.answer,
            next: a.next,
        },
        entry: judged.entry,
    }
}

// The first place from `at` on that holds no PADDING, if the connection is open and the packet may carry it. Each PADDING byte is
// a frame that changes nothing.
#[tactic(auto, unfolding(crate::specs::Past::past_padding, crate::specs::Past::passable))]
pub fn past_padding(mark: Mark, role: Role, kind: Kind, s: &[u8], at: usize) -> usize
    ensures { result ≡ past_padding (passable mark role kind) s.now at }
{
    if !mark.is_open() || !admission::admits(role, kind, types::PADDING) {
        return at;
    }
    for i in at..s.len() {
        if s[i] != 0 {
            return i;
        }
    }
    at.max(s.len())
}

// What a call for the frame at a place shows the caller.
#[tactic(auto, unfolding(crate::specs::Step::shown_at, crate::specs::Step::shown_of))]
pub fn show(role: Role, s: &[u8], at: usize, kind: Kind) -> Shown
    ensures { result ≡ shown_at role s.now at kind }
{
    if let Ok(Reading { frame, ty, next }) = frames::read(role, s, at, kind) {
        return Shown::Whole { frame, ty, next };
    }
    match wire::read(s, at) {
        Some((ty, _)) => Shown::Typed { ty },
        None => Shown::Nothing,
    }
}
