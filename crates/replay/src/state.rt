// STATE: the connection's accounts, its closing mark, and the largest number of each record.
use crate::say::Out;
use crate::session::Session;
use streams::{Conn, Mark};

fn mark(m: Mark, out: &mut Out) {
    match m {
        Mark::Open => out.text(b" mark=-"),
        Mark::Code { answer, ty } => {
            out.labelled(b" mark=code,", answer.number());
            out.labelled(b",", ty);
        },
        Mark::ByPeer => out.text(b" mark=peer"),
    }
}

// The largest number of a record, by its top: one above, or 0 if there is none.
fn largest(before: &[u8], top: u64, out: &mut Out) {
    out.text(before);
    if top == 0 {
        out.text(b"-1");
    } else {
        out.number(top - 1);
    }
}

// How many streams of a type on the wire are open.
fn opened(before: &[u8], c: Conn, ty: u64, out: &mut Out) {
    out.labelled(before, c.opened_of(halves::seated(c.role, ty)));
}

// The counts are those of the peer's two halves, in either seat; what is open goes by types.
fn accounts(c: Conn, out: &mut Out) {
    out.labelled(b" total=", c.total);
    out.labelled(b" credit=", c.limits.credit);
    out.labelled(b" counts=", c.limits.counts[0]);
    out.labelled(b",", c.limits.counts[1]);
    opened(b" opened=", c, 0, out);
    for ty in 1..4 {
        opened(b",", c, ty, out);
    }
}

// Writes a blank and STATE after an answer, which is then whole.
pub fn end(now: &Session, out: &mut Out) {
    accounts(now.conn, out);
    mark(now.conn.mark, out);
    largest(b" largest=", now.records.initial.top, out);
    largest(b",", now.records.handshake.top, out);
    largest(b",", now.records.application.top, out);
}
