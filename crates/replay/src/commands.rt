// The commands of the list, and a line read as one of them. A line that is none of them is found out here, before it is
// looked whether there is a connection: it answers "what" and not "none".
use crate::spoils::Spoil;
use crate::{line, spoils};
use calls::Call;
use kinds::{Kind, Role, Space};
use lines::words;
use lines::words::Signed;
use numbers::Size;
use streams::Limits;

// A command, whose bytes, if it has any, stand beside it: `count` says how many.
#[derive(Clone, Copy)]
pub enum Command {
    Blank,
    Open { role: Role, limits: Limits },
    Alone(Alone),
    Within(Within),
}

// The commands that need no connection.
#[derive(Clone, Copy)]
pub enum Alone {
    Split {
        count: usize,
    },
    Recover {
        expected: u64,
        size: Size,
        truncated: u64,
    },
    Length {
        pn: u64,
        acked: i64,
    },
    Again {
        count: usize,
        room: usize,
    },
}

// The commands that need one.
#[derive(Clone, Copy)]
pub enum Within {
    Packet {
        first: u8,
        count: usize,
    },
    Frame {
        kind: Kind,
        count: usize,
    },
    Hand {
        space: Space,
    },
    Make {
        call: Call,
    },
    Ack {
        space: Space,
        delay: u64,
        room: usize,
    },
    Mark {
        space: Space,
        number: u64,
    },
    Set {
        spoil: Spoil,
    },
}

fn kind(s: &[u8], n: usize) -> Result<Kind, usize> {
    match words::word(s, n) {
        b"initial" => Ok(Kind::Initial),
        b"handshake" => Ok(Kind::Handshake),
        b"0rtt" => Ok(Kind::ZeroRtt),
        b"1rtt" => Ok(Kind::OneRtt),
        _ => Err(n),
    }
}

fn size(s: &[u8], n: usize) -> Result<Size, usize> {
    match line::number(s, n)? {
        1 => Ok(Size::One),
        2 => Ok(Size::Two),
        3 => Ok(Size::Three),
        4 => Ok(Size::Four),
        _ => Err(n),
    }
}

// An output has at most 2,048 bytes: no frame of a line needs more.
fn room(s: &[u8], n: usize) -> Result<usize, usize> {
    let bytes = line::number(s, n)?;
    Ok(bytes.min(2048) as usize)
}

// The first byte of a packet.
fn first(s: &[u8], n: usize) -> Result<u8, usize> {
    let mut one = [0u8; 1];
    match line::bytes(s, n, &mut one)? {
        1 => Ok(one[0]),
        _ => Err(n),
    }
}

// One above the largest number, 0 for -1. No packet number is near 2^64, so that 2^64-1 for 2^64 makes no difference:
// either answers 111.
fn expected(s: &[u8], n: usize) -> Result<u64, usize> {
    match line::with_sign(s, n)? {
        Signed::Plus { value } => Ok(value.saturating_add(1)),
        Signed::Minus { value: 0 } => Ok(1),
        Signed::Minus { value: 1 } => Ok(0),
        Signed::Minus { .. } => Err(n),
    }
}

// The largest acknowledged number; what is above 2^63-1, or below -2, is taken as that: either answers 103.
fn acked(s: &[u8], n: usize) -> Result<i64, usize> {
    match line::with_sign(s, n)? {
        Signed::Plus { value } => Ok(i64::try_from(value).unwrap_or(i64::MAX)),
        Signed::Minus { value: 0 } => Ok(0),
        Signed::Minus { value: 1 } => Ok(-1),
        Signed::Minus { .. } => Ok(-2),
    }
}

// Opening at either end: credits and counts go by halves, in the same order.
fn open(s: &[u8], role: Role) -> Result<Command, usize> {
    let initial = [
        line::number(s, 1)?,
        line::number(s, 2)?,
        line::number(s, 3)?,
    ];
    let counts = [line::number(s, 4)?, line::number(s, 5)?];
    let credit = line::number(s, 6)?;
    let limits = Limits {
        credit,
        counts,
        initial,
    };
    Ok(Command::Open { role, limits })
}

// A call that the host makes by itself, of one number or two.
fn one_number<F: FnOnce(u64) -> Call>(s: &[u8], call: F) -> Result<Within, usize>
    requires { F.IsAlwaysCallable call }
{
    let call = call(line::number(s, 1)?);
    Ok(Within::Make { call })
}

fn two_numbers<F: FnOnce(u64, u64) -> Call>(s: &[u8], call: F) -> Result<Within, usize>
    requires { F.IsAlwaysCallable call }
{
    let call = call(line::number(s, 1)?, line::number(s, 2)?);
    Ok(Within::Make { call })
}

// The commands with one word after the name.
fn of_one(s: &[u8], bytes: &mut [u8]) -> Result<Command, usize> {
    let within = match words::word(s, 0) {
        b"hand" => Within::Hand {
            space: line::space(s, 1)?,
        },
        b"credit" => one_number(s, |new| Call::RaiseCredit { new })?,
        b"start" => one_number(s, |ty| Call::OpenNext { ty })?,
        b"split" => {
            let count = line::bytes(s, 1, bytes)?;
            return Ok(Command::Alone(Alone::Split { count }));
        },
        _ => return Err(0),
    };
    Ok(Command::Within(within))
}

// The commands with two: those that need a connection, and the others.
fn of_two(s: &[u8], bytes: &mut [u8]) -> Result<Command, usize> {
    let within = match words::word(s, 0) {
        b"packet" => Within::Packet {
            first: first(s, 1)?,
            count: line::bytes(s, 2, bytes)?,
        },
        b"frame" => Within::Frame {
            kind: kind(s, 1)?,
            count: line::bytes(s, 2, bytes)?,
        },
        b"stream" => two_numbers(s, |id, new| Call::RaiseStream { id, new })?,
        b"count" => two_numbers(s, |ty, new| Call::RaiseCount { ty, new })?,
        b"mark" => Within::Mark {
            space: line::space(s, 1)?,
            number: line::number(s, 2)?,
        },
        _ => return alone_of_two(s, bytes),
    };
    Ok(Command::Within(within))
}

fn alone_of_two(s: &[u8], bytes: &mut [u8]) -> Result<Command, usize> {
    let alone = match words::word(s, 0) {
        b"length" => Alone::Length {
            pn: line::number(s, 1)?,
            acked: acked(s, 2)?,
        },
        b"again" => Alone::Again {
            count: line::bytes(s, 1, bytes)?,
            room: room(s, 2)?,
        },
        _ => return Err(0),
    };
    Ok(Command::Alone(alone))
}

// The commands with three.
fn of_three(s: &[u8]) -> Result<Command, usize> {
    match words::word(s, 0) {
        b"ack" => Ok(Command::Within(Within::Ack {
            space: line::space(s, 1)?,
            delay: line::number(s, 2)?,
            room: room(s, 3)?,
        })),
        b"recover" => Ok(Command::Alone(Alone::Recover {
            expected: expected(s, 1)?,
            size: size(s, 2)?,
            truncated: line::number(s, 3)?,
        })),
        _ => Err(0),
    }
}

// The commands with six.
fn of_six(s: &[u8]) -> Result<Command, usize> {
    match words::word(s, 0) {
        b"open" => open(s, Role::Server),
        b"join" => open(s, Role::Client),
        _ => Err(0),
    }
}

// A line as a command, whose bytes go to the front of `bytes`. Of a line that is none, the place of the first word that
// cannot stand there: 0, the name's own, if no command of that name has so many words.
pub fn read(s: &[u8], bytes: &mut [u8]) -> Result<Command, usize> {
    if s.is_empty() || s[0] == b'#' {
        return Ok(Command::Blank);
    }
    let n = words::count(s);
    if line::is(s, 0, b"set") {
        let spoil = spoils::read(s, n)?;
        return Ok(Command::Within(Within::Set { spoil }));
    }
    match n {
        2 => of_one(s, bytes),
        3 => of_two(s, bytes),
        4 => of_three(s),
        7 => of_six(s),
        _ => Err(0),
    }
}
