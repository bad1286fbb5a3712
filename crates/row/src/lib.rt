// Numbers on the wire in a row: written one after the other in shortest form, all of them or none.
#![tactic(auto)]

ghost use Rattle.std.specs.Prelude.{◌≡◌, true, ◌+◌, ◌≤◌, leb, length, Ok};
ghost use Rattle.std.proofs.lemmas.List.Edits.{sets};
ghost use Rattle.row.specs.Row.{in_range, size_all, bytes_all, row_draft};
ghost use Rattle.wire.specs.Writing.{writes};

use answers::Answer;

// Whether none is above 2^62-1: so it is exactly if none has a bit above the 62 low ones. It does not stop at the first that has, so that several
// numbers are looked at in one step.
#[tactic(auto, using(crate::proofs::Steps::range_joined, crate::proofs::Steps::ended), unfolding(crate::specs::Row::in_range))]
pub fn in_range(numbers: &[u64]) -> bool
    ensures { result ≡ in_range numbers.now }
{
    let mut all = 0;
    for n in numbers {
        all |= *n;
    }
    all <= wire::MOST
}

// How many bytes their shortest forms have together.
#[tactic(auto, using(crate::proofs::Steps::size_step, crate::proofs::Steps::ended, wire::proofs::Exit::size_bounds), unfolding(crate::specs::Row::size_all))]
pub fn size(numbers: &[u64]) -> usize
    ensures { result ≡ size_all numbers.now }
{
    let mut total: usize = 0;
    for n in numbers {
        total += wire::size(*n);
    }
    total
}

// Whether so many bytes are room for all of them. No form is longer than 8 bytes, so where there is room for that none is sized.
#[tactic(auto, using(crate::proofs::Back::size_most))]
fn has_room(numbers: &[u64], room: usize) -> bool
    ensures { result ≡ leb (size_all numbers.now) room }
{
    if numbers.len() <= room / 8 {
        return true;
    }
    size(numbers) <= room
}

// Writes them at a place with room for all, so that none is refused.
#[tactic(auto, using(crate::proofs::Steps::finished))]
fn put(out: &mut [u8], at: usize, numbers: &[u64]) -> Result<usize, Answer>
    requires { (in_range numbers.now ≡ true) × (at + size_all numbers.now ≤ length out.old) }
    ensures { (result ≡ Ok (at + size_all numbers.now)) × (out.new ≡ sets out.old at (bytes_all numbers.now)) }
{
    let mut place = at;
    for n in numbers {
        place = wire::write(out, place, *n)?;
    }
    Ok(place)
}

// Writes the shortest forms of all the numbers from a place on. A refusal leaves the output untouched.
#[tactic(auto, using(crate::proofs::Back::length_all), unfolding(crate::specs::Row::row_draft, wire::specs::Writing::writes))]
pub fn write(out: &mut [u8], at: usize, numbers: &[u64]) -> Result<usize, Answer>
    ensures { (result, out.new) ≡ writes (row_draft numbers.now) out.old at }
{
    if !in_range(numbers) {
        return Err(Answer::Unwritable);
    }
    if out.len() < at || !has_room(numbers, out.len() - at) {
        return Err(Answer::NoRoom);
    }
    put(out, at, numbers)
}
