// The commands that need a connection, run on the session, and opening one.
use crate::commands::Within;
use crate::say::{Out, front};
use crate::session::Session;
use crate::{say, session, spoils, state};
use answers::Answer;
use calls::Call;
use kinds::{Kind, Role, Space};
use owned::Owned;
use steps::Shown;
use streams::{Called, Limits};

// Opens a connection; a refusal leaves the one there was.
pub fn open(session: &mut Option<Session>, role: Role, limits: Limits, out: &mut Out) {
    let Owned { told, table } = owned::open(opening::room(), role, limits);
    out.number(told.answer.number());
    if let Answer::Accepted = told.answer {
        let opened = Session {
            conn: told.conn,
            records: session::no_records(),
            table,
        };
        state::end(&opened, out);
        *session = Some(opened);
    }
}

// The answer of a call that changes the connection alone.
fn called(now: &mut Session, d: Called, out: &mut Out) {
    now.conn = d.conn;
    out.number(d.answer.number());
    state::end(now, out);
}

// The same of a call that hands out a number: there is none on refusal.
fn numbered(now: &mut Session, d: Called, out: &mut Out) {
    now.conn = d.conn;
    match d.answer {
        Answer::Accepted => out.labelled(b"0 ", d.number),
        refused => out.refused(refused),
    }
    state::end(now, out);
}

fn packet(now: &mut Session, first: u8, s: &[u8], out: &mut Out) {
    let Owned { told, table } = owned_calls::take_packet(
        now.conn,
        now.records,
        now.table,
        first,
        s,
    );
    now.conn = told.conn;
    now.records = told.records;
    now.table = table;
    out.number(told.answer.number());
    state::end(now, out);
}

// A frame's type and the place after it.
fn shown(shown: Shown, out: &mut Out) {
    match shown {
        Shown::Nothing => out.text(b" - -"),
        Shown::Typed { ty } => {
            out.labelled(b" ", ty);
            out.text(b" -");
        },
        Shown::Whole { ty, next, .. } => {
            out.labelled(b" ", ty);
            out.labelled(b" ", next as u64);
        },
    }
}

fn frame(now: &mut Session, kind: Kind, s: &[u8], out: &mut Out) {
    let Owned { told, table } = owned::take_frame(now.conn, now.table, s, 0, kind);
    now.conn = told.conn;
    now.table = table;
    out.number(told.answer.number());
    shown(told.shown, out);
    state::end(now, out);
}

// A local call: one that opens a stream answers its ID as well.
fn make(now: &mut Session, call: Call, out: &mut Out) {
    let Owned { told, table } = owned_calls::call(now.conn, now.table, call);
    now.table = table;
    match call {
        Call::OpenNext { .. } => numbered(now, told, out),
        _ => called(now, told, out),
    }
}

fn mark(now: &mut Session, space: Space, number: u64, out: &mut Out) {
    let record = session::record(&mut now.records, space);
    let taken = record.take(number);
    *record = taken.record;
    out.number(taken.answer.number());
    state::end(now, out);
}

fn ack(now: &mut Session, space: Space, delay: u64, room: usize, out: &mut Out) {
    let mut frame = [0u8; 2048];
    let seen = *session::record(&mut now.records, space);
    let wrote = acks::write(seen, delay, say::room(&mut frame, room), 0);
    out.wrote(wrote, &frame);
}

fn set(now: &mut Session, spoil: spoils::Spoil, out: &mut Out) {
    spoils::apply(now, spoil);
    out.text(b"ok");
}

// Runs a command, whose bytes are the first of s.
pub fn run(now: &mut Session, within: Within, s: &[u8], out: &mut Out) {
    match within {
        Within::Packet { first, count } => packet(now, first, front(s, count), out),
        Within::Frame { kind, count } => frame(now, kind, front(s, count), out),
        Within::Hand { space } => numbered(now, local::hand_out(now.conn, space), out),
        Within::Make { call } => make(now, call, out),
        Within::Ack { space, delay, room } => ack(now, space, delay, room, out),
        Within::Mark { space, number } => mark(now, space, number, out),
        Within::Set { spoil } => set(now, spoil, out),
    }
}
