// The bytes of a text in hexadecimal, as a person copies it out of a capture: the text is read from standard input in
// pieces, whatever its length, and the bytes go to standard output. At the first character that cannot stand where it
// does the program stops, and says the place on standard error.
#![tactic(auto)]

mod say;

use dumps::{DumpError, Taken};
use std::io;
use std::io::Read;

// How far the text is read: the first digit of a byte that has begun, and the place of what comes next.
#[derive(Clone, Copy)]
struct Progress {
    half: Option<u8>,
    place: u64,
}

// Takes a piece, and answers how far the text is read where there may be more: its bytes go out before anything is said
// of it, and where they cannot, the program ends with the error.
fn piece(
    rt: &impl Print,
    err: &impl Print,
    now: Progress,
    s: &[u8],
) -> io::Result<Option<Progress>> {
    let mut out = [0u8; 4096];
    match dumps::take(now.half, s, &mut out) {
        Ok(Taken { half, len }) => {
            say::bytes(rt, &out, len)?;
            let place = say::later(now.place, s.len() as u64);
            Ok(Some(Progress { half, place }))
        },
        Err(DumpError::Wrong { at, half, len }) => {
            say::bytes(rt, &out, len)?;
            say::wrong(err, say::later(now.place, at as u64), half)?;
            Ok(None)
        },
        // no piece is longer than the output
        Err(DumpError::NoRoom) => Ok(None),
    }
}

// The end of the text: a byte that has begun lacks its second digit.
fn end(err: &impl Print, now: Progress) -> io::Result<Option<Progress>> {
    if now.half.is_some() {
        say::wrong(err, now.place, now.half)?;
    }
    Ok(None)
}

// Reads once, and takes what came.
fn some(
    rt: &(impl Input + Print),
    err: &impl Print,
    now: Progress,
) -> io::Result<Option<Progress>> {
    let mut chunk = [0u8; 4096];
    let n = rt.reader().read(&mut chunk)?;
    if n == 0 {
        return end(err, now);
    }
    piece(rt, err, now, &chunk[..n])
}

// The turns are more than there can be reads: the loop ends with the text.
fn main(rt: HostRuntime) -> io::Result<()> {
    let err = rt.stderr();
    let mut now = Progress {
        half: None,
        place: 0,
    };
    for _ in 0..u64::MAX {
        let Some(next) = some(&rt, &err, now)? else {
            break;
        };
        now = next;
    }
    Ok(())
}
