// The listing of a payload, page by page.
use crate::output;
use owned::Owned;
use pages::Page;
use std::io;
use streams::Mark;

// Rows for the frames of a payload, a page at a time; answers how the connection stands after them. A page has a row at
// least and a payload no more frames than bytes, so there are no more pages than bytes.
fn walk(to: &impl Print, first: Page, s: &[u8], buf: &mut [u8]) -> io::Result<Mark> {
    let mut now = first;
    for _ in 0..s.len() {
        now = pages::fill(now, s, buf);
        output::flush(to, buf, now.used)?;
        if !now.full {
            break;
        }
    }
    Ok(now.conn.mark)
}

// Rows and last line.
pub fn list(to: &impl Print, s: &[u8]) -> io::Result<()> {
    let Owned { told, table } = pages::small();
    let first = Page {
        conn: told.conn,
        table,
        at: 0,
        used: 0,
        full: false,
    };
    let mut buf = [0u8; 65536];
    let mark = walk(to, first, s, &mut buf)?;
    output::standing(to, report::taken::last(s.len(), mark))
}
