// Bytes of a ring of 4,096 that is lent (docs/RULES.md, "Ordered bytes"): stored, compared and taken at places that follow one another. The byte
// of the place p has the slot p % 4096, so a row of places has a part up to the ring's seam and one after it.
#![tactic(auto)]

ghost use Rattle.std.specs.Prelude.{◌≡◌, ◌+◌, ◌-◌, ◌%◌, ◌≤◌, min, length};
ghost use Rattle.ring.specs.Parts.{Decides};
ghost use Rattle.seams.specs.Seam.{fit_of, stored_of, same_of, taken_out};
ghost use Rattle.seams.specs.Parts.{Copied, Same};

// Whether the ring has 4,096 bytes, n places are not more than it has, and other bytes have n from j on.
#[tactic(auto, unfolding(crate::specs::Seam::fit_of))]
fn fits(ring: usize, others: usize, j: usize, n: usize) -> bool
    ensures { result ≡ fit_of ring others j n }
{
    ring == 4096 && n <= 4096 && n <= others && j <= others - n
}

// How many of the n places from `at` on come before the ring's seam.
fn before_seam(at: u64, n: usize) -> usize
    ensures { result ≡ min n (4096 - at % 4096) }
{
    n.min(4096 - (at % 4096) as usize)
}

// Copies n bytes of s, from j on, to i.
fn copy(out: &mut [u8], i: usize, s: &[u8], j: usize, n: usize)
    requires { (i + n ≤ length out.old) × (j + n ≤ length s.now) }
    ensures { Copied out.old i s.now j n out.new }
{
    out[i..i + n].copy_from_slice(&s[j..j + n]);
}

// Stores n bytes of s, from j on, at the places from `at` on; nothing where they do not fit.
pub fn store(ring: &mut [u8], at: u64, s: &[u8], j: usize, n: usize)
    ensures { ring.new ≡ stored_of ring.old at s.now j n }
{
    if !fits(ring.len(), s.len(), j, n) {
        return;
    }
    let first = before_seam(at, n);
    copy(ring, (at % 4096) as usize, s, j, first);
    copy(ring, 0, s, j + first, n - first);
}

// Copies the n bytes at the places from `read` on to the front of `out`; nothing where they do not fit.
pub fn take(ring: &[u8], out: &mut [u8], read: u64, n: usize)
    ensures { out.new ≡ taken_out ring.now out.old read n }
{
    if !fits(ring.len(), out.len(), 0, n) {
        return;
    }
    let first = before_seam(read, n);
    copy(out, 0, ring, (read % 4096) as usize, first);
    copy(out, first, ring, 0, n - first);
}

// Whether n bytes of a from i on and of b from j on are the same. It does not stop at the first that is not, so that many are compared in one step.
fn same(a: &[u8], i: usize, b: &[u8], j: usize, n: usize) -> bool
    requires { (i + n ≤ length a.now) × (j + n ≤ length b.now) }
    ensures { Decides (Same a.now i b.now j n) result }
{
    let mut all = 0;
    for k in 0..n {
        all |= a[i + k] ^ b[j + k];
    }
    all == 0
}

// Whether the bytes of the ring at the n places from `at` on are those of s from j on; they are not where they do not fit.
pub fn same_at(ring: &[u8], at: u64, s: &[u8], j: usize, n: usize) -> bool
    ensures { result ≡ same_of ring.now at s.now j n }
{
    if !fits(ring.len(), s.len(), j, n) {
        return false;
    }
    let first = before_seam(at, n);
    if !same(ring, (at % 4096) as usize, s, j, first) {
        return false;
    }
    same(ring, 0, s, j + first, n - first)
}
