// Calls read from standard input, one a line, each run and answered by one line: a way to try the core from a script.
#![tactic(auto)]

mod alone;
mod commands;
mod line;
mod reasons;
mod say;
mod session;
mod spoils;
mod state;
mod turns;
mod within;

use lines::gather;
use session::Session;
use std::io;
use std::io::Read;
use turns::Fed;

// Takes bytes as they come: each newline ends a line.
fn feed(
    to: &impl Print,
    err: &impl Print,
    session: &mut Option<Session>,
    fed: Fed,
    row: &mut [u8; 4096],
    s: &[u8],
) -> io::Result<Fed> {
    let mut now = fed;
    let mut at = 0;
    while at < s.len() {
        let got = gather::gather(row, now.line, &s[at..]);
        at += got.used;
        now.line = got.line;
        if got.ended {
            now = turns::ended(to, err, session, now, row)?;
        }
    }
    Ok(now)
}

// Reads once, and takes what came: there is nothing at the end of the input.
fn some(
    rt: &(impl Input + Print),
    err: &impl Print,
    session: &mut Option<Session>,
    fed: Fed,
    row: &mut [u8; 4096],
) -> io::Result<Option<Fed>> {
    let mut chunk = [0u8; 4096];
    let n = rt.reader().read(&mut chunk)?;
    if n == 0 {
        return Ok(None);
    }
    let now = feed(rt, err, session, fed, row, &chunk[..n])?;
    Ok(Some(now))
}

// The turns are more than there can be reads: the loop ends with the input. The last line may lack its newline.
fn main(rt: HostRuntime) -> io::Result<()> {
    let err = rt.stderr();
    // a line has at most so many bytes
    let mut row = [0u8; 4096];
    let mut session = None;
    let mut now = Fed {
        line: Some(0),
        number: 1,
    };
    for _ in 0..u64::MAX {
        let Some(next) = some(&rt, &err, &mut session, now, &mut row)? else {
            break;
        };
        now = next;
    }
    turns::ended(&rt, &err, &mut session, now, &row)?;
    Ok(())
}
