// What stands between a frame's numbers: bytes copied, and an ACK's ranges written anew in shortest form.
ghost use Rattle.std.specs.Prelude.{◌≡◌, ◌+◌, ◌≤◌, length, Ok};
ghost use Rattle.std.proofs.lemmas.List.Edits.{sets};
ghost use Rattle.wire.specs.Writing.{Bytes, writes};
ghost use Rattle.row.specs.Row.{size_all, bytes_all};
ghost use Rattle.ranges.specs.Listed.{listed};
ghost use Rattle.contents.specs.Content.{body_of, token_of};
ghost use Rattle.sizes.specs.Spelled.{body_bytes, Bounded};

use answers::Answer;
use fields::Parts;
use layouts::Tail;

// Writes n numbers that stand in a row in shortest form, or those of them that can be read, at a place with room for all, so that none is refused.
#[tactic(auto, using(sizes::proofs::Listing::listed_none, sizes::proofs::Listing::listed_cut, crate::proofs::Listing::finished))]
fn put_listed(out: &mut [u8], at: usize, s: &[u8], from: usize, n: u64) -> Result<usize, Answer>
    requires { at + size_all (listed s.now from n) ≤ length out.old }
    ensures { (result ≡ Ok (at + size_all (listed s.now from n))) × (out.new ≡ sets out.old at (bytes_all (listed s.now from n))) }
{
    let mut place = from;
    let mut to = at;
    for _ in 0..n {
        let Some((value, next)) = wire::read(s, place) else {
            return Ok(to);
        };
        to = wire::write(out, to, value)?;
        place = next;
    }
    Ok(to)
}

// Writes what stands between the numbers of a frame, at a place with room for it.
#[tactic(auto, using(crate::proofs::Slices::part, bodies::proofs::Drafts::counted_draft_law, bodies::proofs::Drafts::identity_draft_law, row::proofs::Back::length_all, wire::proofs::Writing::all_written))]
pub(crate) fn put(
    tail: Tail,
    p: Parts,
    s: &[u8],
    out: &mut [u8],
    at: usize,
) -> Result<usize, Answer>
    requires { Bounded (length s.now) tail p × (at + length (body_bytes tail p.len (body_of s.now tail p) (token_of s.now tail p)) ≤ length out.old) }
    ensures { (result, out.new) ≡ writes (Bytes (body_bytes tail p.len (body_of s.now tail p) (token_of s.now tail p))) out.old at }
{
    let end = p.at + p.len;
    let body = &s[p.at..end];
    match tail {
        Tail::Nothing => Ok(at),
        Tail::Counted => bodies::counted(out, at, body),
        Tail::Remainder | Tail::Eight => text::put::bytes(out, at, body),
        Tail::Identity => {
            let stop = p.token + 16;
            bodies::identity(out, at, body, &s[p.token..stop])
        },
        Tail::Ranges => put_listed(out, at, s, p.at, 2 * p.c),
    }
}
