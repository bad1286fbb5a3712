// A stream table owned by value, for a program that has no memory to lend: each call lends it to the crate whose call it is,
// and hands it back. The calls for packets and those that the host makes by itself are those of `owned_calls`.
#![tactic(auto)]

ghost use Rattle.std.specs.Prelude.{◌≡◌};
ghost use Rattle.owned.specs.Owned.{owned_opened_of, owned_frame_of};

use entries::Entry;
use kinds::{Kind, Role};
use opening::Opened;
use steps::TookFrame;
use streams::{Conn, Limits};

// What a call told, whichever it was, and the table after it.
#[derive(Clone, Copy)]
pub struct Owned<T> {
    pub told: T,
    pub table: [Entry; Conn::ENTRIES],
}

pub fn open(table: [Entry; Conn::ENTRIES], role: Role, limits: Limits) -> Owned<Opened>
    ensures { result ≡ owned_opened_of role table limits }
{
    let mut t = table;
    let told = tables::open(&mut t, role, limits);
    Owned { told, table: t }
}

pub fn take_frame(
    c: Conn,
    table: [Entry; Conn::ENTRIES],
    s: &[u8],
    at: usize,
    kind: Kind,
) -> Owned<TookFrame>
    ensures { result ≡ owned_frame_of c table s.now at kind }
{
    let mut t = table;
    let told = single::take_frame(c, &mut t, s, at, kind);
    Owned { told, table: t }
}
