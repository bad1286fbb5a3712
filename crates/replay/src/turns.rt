// A line that has ended: read as a command, run, and answered.
use crate::commands::{Command, Within};
use crate::say::{Out, front};
use crate::session::Session;
use crate::{alone, commands, reasons, within};
use std::io;

// What was read leaves: what is kept of a line, and the line's number. The largest number stays, so that no input has too many lines.
#[derive(Clone, Copy)]
pub struct Fed {
    pub line: Option<usize>,
    pub number: u64,
}

// A command that needs a connection, where there is one.
fn within(session: &mut Option<Session>, within: Within, s: &[u8], out: &mut Out) {
    match session {
        Some(now) => within::run(now, within, s, out),
        None => out.text(b"none"),
    }
}

// Runs a command; a connection that is not opened leaves the one there was.
fn answer(session: &mut Option<Session>, command: Command, s: &[u8], out: &mut Out) {
    match command {
        Command::Blank => {},
        Command::Open { role, limits } => within::open(session, role, limits, out),
        Command::Alone(alone) => alone::run(alone, s, out),
        Command::Within(command) => within(session, command, s, out),
    }
}

// Runs a command, and writes its answer, if it has one.
fn call(
    to: &impl Print,
    session: &mut Option<Session>,
    command: Command,
    s: &[u8],
) -> io::Result<()> {
    let mut out = Out::new();
    answer(session, command, s, &mut out);
    if !out.is_empty() {
        out.send(to)?;
    }
    Ok(())
}

// Runs a line; of one that is no call, the reason is told after its answer.
fn run(
    to: &impl Print,
    err: &impl Print,
    session: &mut Option<Session>,
    s: &[u8],
    number: u64,
) -> io::Result<()> {
    let mut bytes = [0u8; 2048];
    match commands::read(s, &mut bytes) {
        Ok(command) => call(to, session, command, &bytes),
        Err(word) => {
            to.write_all(b"what\n")?;
            reasons::no_call(err, number, s, word)
        },
    }
}

// Runs the line that is kept at the front of a row, and begins the next one.
pub fn ended(
    to: &impl Print,
    err: &impl Print,
    session: &mut Option<Session>,
    now: Fed,
    row: &[u8],
) -> io::Result<Fed> {
    match now.line {
        Some(len) => run(to, err, session, front(row, len), now.number)?,
        None => {
            to.write_all(b"too long\n")?;
            reasons::too_long(err, now.number)?;
        },
    }
    Ok(Fed {
        line: Some(0),
        number: now.number.saturating_add(1),
    })
}
