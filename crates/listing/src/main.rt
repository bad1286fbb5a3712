// Lists the frames of one 1-RTT payload, read from standard input into the small connection (docs/RULES.md, "The listing").
#![tactic(auto)]

mod input;
mod output;
mod walk;

use std::io;

fn main(rt: HostRuntime) -> io::Result<()> {
    // one byte more than a payload may have is enough to see that one is too long
    let mut bytes = [0u8; 65536];
    let n = input::fill(&mut rt.reader(), &mut bytes)?;
    output::heading(&rt, n)?;
    if report::taken::too_long(n) {
        return Ok(());
    }
    walk::list(&rt, &bytes[..n])
}
