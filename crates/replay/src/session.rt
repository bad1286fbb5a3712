// What is kept of a connection that was opened: itself, its three records and its table.
use entries::Entry;
use kinds::Space;
use records::Record;
use spaces::Records;
use streams::Conn;

#[derive(Clone, Copy)]
pub struct Session {
    pub conn: Conn,
    pub records: Records,
    pub table: [Entry; Conn::ENTRIES],
}

// The records of a connection that was just opened.
pub fn no_records() -> Records {
    Records {
        initial: Record::new(),
        handshake: Record::new(),
        application: Record::new(),
    }
}

// The record of a space.
pub fn record(records: &mut Records, space: Space) -> &mut Record {
    match space {
        Space::Initial => &mut records.initial,
        Space::Handshake => &mut records.handshake,
        Space::Application => &mut records.application,
    }
}
