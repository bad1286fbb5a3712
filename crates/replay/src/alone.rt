// The calls that need no connection: splitting a datagram, packet numbers, and a frame read and written again.
use crate::commands::Alone;
use crate::say;
use crate::say::{Out, front};
use datagram::{Header, Kind};

fn kind(k: Kind, out: &mut Out) {
    match k {
        Kind::Initial => out.text(b"Initial"),
        Kind::ZeroRtt => out.text(b"0-RTT"),
        Kind::Handshake => out.text(b"Handshake"),
        Kind::Retry => out.text(b"Retry"),
        Kind::OneRtt => out.text(b"1-RTT"),
        Kind::VersionNegotiation => out.text(b"Version_Negotiation"),
        Kind::OtherVersion => out.text(b"other_version"),
    }
}

// A short header has no version.
fn version(k: Kind, n: u64, out: &mut Out) {
    match k {
        Kind::OneRtt => out.text(b" -"),
        _ => out.labelled(b" ", n),
    }
}

// A header, with places that count from the start of s.
fn header(h: Header, s: &[u8], out: &mut Out) {
    kind(h.kind, out);
    version(h.kind, h.version, out);
    out.bytes(s, h.destination.at, h.destination.len);
    out.bytes(s, h.source.at, h.source.len);
    out.bytes(s, h.token.at, h.token.len);
    out.labelled(b" ", h.number as u64);
    out.labelled(b" ", h.end as u64);
    out.text(b"; ");
}

// The packet at the front of what is left of a datagram, and how long it is; or 110.
fn packet(s: &[u8], out: &mut Out) -> Option<usize> {
    match datagram::split(s) {
        Ok(h) => {
            header(h, s, out);
            Some(h.end)
        },
        Err(answer) => {
            out.number(answer.number());
            None
        },
    }
}

// Each packet of a datagram in turn, as long as there is one.
fn packets(s: &[u8], out: &mut Out) {
    let mut rest = s;
    while !rest.is_empty() {
        let Some(size) = packet(rest, out) else {
            return;
        };
        if size == 0 || rest.len() < size {
            return;
        }
        rest = &rest[size..];
    }
    out.text(b"done");
}

fn length(pn: u64, acked: i64, out: &mut Out) {
    out.told(numbers::send_length(pn, acked).map(|size| size.bytes() as u64))
}

fn again(s: &[u8], room: usize, out: &mut Out) {
    match frames::read_any(s, 0) {
        Ok(read) => {
            let mut again = [0u8; 2048];
            let wrote = writing::write(read.frame, s, say::room(&mut again, room), 0);
            out.wrote(wrote, &again);
        },
        Err(refusal) => out.refused(refusal.answer),
    }
}

// Runs a call, whose bytes are the first of s.
pub fn run(alone: Alone, s: &[u8], out: &mut Out) {
    match alone {
        Alone::Split { count } => packets(front(s, count), out),
        Alone::Recover {
            expected,
            size,
            truncated,
        } => out.told(numbers::recover(expected, size, truncated)),
        Alone::Length { pn, acked } => length(pn, acked, out),
        Alone::Again { count, room } => again(front(s, count), room, out),
    }
}
