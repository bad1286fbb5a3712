// An entry of the stream table (docs/RULES.md, "Streams and credit"): credit, furthest end and final size, and whether it fits by
// itself. What a frame or a local call may do to it is said by the crates above.
#![tactic(auto)]

ghost use Rattle.std.specs.Prelude.{◌≡◌};
ghost use Rattle.entries.specs.Entry.{final_of};
ghost use Rattle.entries.specs.Fitting.{size_fits, is_fresh, entry_fits_as};

// An entry of the stream table. `size` is the final size, and `Entry::UNKNOWN` as long as there is none.
#[repr(C)]
#[derive(Clone, Copy)]
pub struct Entry {
    pub credit: u64,
    pub end: u64,
    pub size: u64,
}

impl Entry {
    // Above every size that a stream can have.
    pub const UNKNOWN: u64 = 18446744073709551615;

    // The final size, if it is known.
    #[tactic(auto, unfolding(crate::specs::Entry::final_of))]
    pub fn known(self) -> Option<u64>
        ensures { result ≡ final_of self.size }
    {
        if self.size == Entry::UNKNOWN {
            None
        } else {
            Some(self.size)
        }
    }
}

// A known final size is the end.
fn size_fits(known: Option<u64>, end: u64) -> bool
    ensures { result ≡ size_fits known end }
{
    known.is_none_or(|size| size == end)
}

// As opening sets it.
#[tactic(auto, unfolding(crate::specs::Fitting::is_fresh))]
fn is_fresh(e: Entry, credit: u64) -> bool
    ensures { result ≡ is_fresh e credit }
{
    e.credit == credit && e.end == 0 && e.known().is_none()
}

// An entry at an ordinal of its half, of which so many are open and whose initial credit is `init`. Most entries of a
// table are unopened, and one that is as opening set it needs no other test of its own.
#[tactic(auto, unfolding(crate::specs::Fitting::entry_fits_as))]
pub fn fits(opened: u64, init: u64, ordinal: u64, e: Entry) -> bool
    ensures { result ≡ entry_fits_as opened init ordinal e }
{
    if opened <= ordinal {
        return is_fresh(e, init) && init <= wire::MOST;
    }
    e.end <= e.credit && size_fits(e.known(), e.end) && e.credit <= wire::MOST
}
