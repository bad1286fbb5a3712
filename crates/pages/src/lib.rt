// The listing of a payload (docs/RULES.md, "The listing"), as many rows at a time as an output holds.
#![tactic(auto)]

ghost use Rattle.std.specs.Prelude.{◌≡◌};
ghost use Rattle.pages.specs.Pages.{small_of, one_more_of, page_of};

use entries::Entry;
use kinds::{Kind, Role};
use opening::Opened;
use owned::Owned;
use report::taken;
use streams::{Conn, Limits};

// How far a listing is: the connection and its table, the place of the next frame, how much of the output is used, and
// whether the next row waits for room.
#[derive(Clone, Copy)]
pub struct Page {
    pub conn: Conn,
    pub table: [Entry; Conn::ENTRIES],
    pub at: usize,
    pub used: usize,
    pub full: bool,
}

// The small connection, opened: the listing is a server's.
pub fn small() -> Owned<Opened>
    ensures { result ≡ small_of }
{
    let limits = Limits {
        credit: 40,
        counts: [4, 4],
        initial: [16, 16, 16],
    };
    owned::open(opening::room(), Role::Server, limits)
}

// One row more, unless there is no room for it.
fn one_more(p: Page, s: &[u8], out: &mut [u8]) -> Page
    ensures { (result, out.new) ≡ one_more_of p s.now out.old }
{
    let Owned { told: took, table } = owned::take_frame(p.conn, p.table, s, p.at, Kind::OneRtt);
    let Ok(used) = taken::taken_row(out, p.used, p.at, took) else {
        return Page { full: true, ..p };
    };
    Page {
        conn: took.conn,
        table,
        at: taken::after(took, s.len()),
        used,
        full: false,
    }
}

// The page after another: rows up to the last frame, or as many as there is room for.
pub fn fill(p: Page, s: &[u8], out: &mut [u8]) -> Page
    ensures { (result, out.new) ≡ page_of p s.now out.old }
{
    let mut now = Page {
        used: 0,
        full: false,
        ..p
    };
    for _ in 0..s.len() {
        if now.full || s.len() <= now.at {
            return now;
        }
        now = one_more(now, s, out);
    }
    now
}
