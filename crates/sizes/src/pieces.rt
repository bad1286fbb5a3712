// What stands between a frame's numbers, counted: bytes that are copied, and an ACK's ranges in shortest form.
ghost use Rattle.std.specs.Prelude.{◌≡◌, ◌≤◌, ◌^◌, length};
ghost use Rattle.row.specs.Row.{size_all};
ghost use Rattle.ranges.specs.Listed.{listed};
ghost use Rattle.contents.specs.Content.{body_of, token_of};
ghost use Rattle.sizes.specs.Spelled.{body_bytes, Bounded};

use fields::Parts;
use layouts::Tail;

// How many bytes n numbers that stand in a row have in shortest form, or those of them that can be read.
#[tactic(auto, using(crate::proofs::Listing::listed_none, crate::proofs::Listing::listed_cut, crate::proofs::Listed::listed_size), unfolding(row::specs::Row::size_all))]
fn listed_size(s: &[u8], from: usize, n: u64) -> usize
    requires { from ≤ length s.now }
    ensures { (result ≡ size_all (listed s.now from n)) × (result ≤ length s.now) }
{
    let mut total: usize = 0;
    let mut place = from;
    for _ in 0..n {
        let Some((value, next)) = wire::read(s, place) else {
            return total;
        };
        total += wire::size(value);
        place = next;
    }
    total
}

// How many bytes stand between the numbers of a frame.
pub(crate) fn size(tail: Tail, p: Parts, s: &[u8]) -> usize
    requires { Bounded (length s.now) tail p }
    ensures { (result ≡ length (body_bytes tail p.len (body_of s.now tail p) (token_of s.now tail p))) × (result ≤ 2 ^ 63) }
{
    match tail {
        Tail::Nothing => 0,
        Tail::Counted => wire::size(p.len as u64) + p.len,
        Tail::Remainder | Tail::Eight => p.len,
        Tail::Identity => 1 + p.len + 16,
        Tail::Ranges => listed_size(s, p.at, 2 * p.c),
    }
}
