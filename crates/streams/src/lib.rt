// A connection in its parts (docs/RULES.md, "Streams and credit"): how it is read and changed, by value. What a frame or a
// local call may do to it is said by the crates above.
#![tactic(auto)]

ghost use Rattle.std.specs.Prelude.{◌≡◌, ◌<◌, max};
ghost use Rattle.halves.specs.Stream.{half_of};
ghost use Rattle.streams.specs.Conn.{is_open, opened_of, count_of, initial_of, marked_as, open_to, index_of, next_of, handed_out_of, limits_fit};

use answers::Answer;
use kinds::{Role, Space};

// The closing mark: none, a code and the type of the frame that gave it, or the peer's own closing.
#[derive(Clone, Copy)]
pub enum Mark {
    Open,
    Code { answer: Answer, ty: u64 },
    ByPeer,
}

// What a connection advertises: its credit; how many two-way and how many one-way streams the peer may open; and the
// initial credit of a stream of each half that receives.
#[derive(Clone, Copy)]
pub struct Limits {
    pub credit: u64,
    pub counts: [u64; 2],
    pub initial: [u64; 3],
}

// A connection: what it advertises, how many streams of each half are open, the total counted against its credit, the
// next packet number of each space, its closing mark, and which end of it we are.
#[derive(Clone, Copy)]
pub struct Conn {
    pub limits: Limits,
    pub opened: [u64; 4],
    pub total: u64,
    pub next: [u64; 3],
    pub mark: Mark,
    pub role: Role,
}

// What a call answers: a number where it hands one out, else 0; and the connection after it.
#[derive(Clone, Copy)]
pub struct Called {
    pub answer: Answer,
    pub number: u64,
    pub conn: Conn,
}

impl Mark {
    pub fn is_open(self) -> bool
        ensures { result ≡ is_open self }
    {
        matches!(self, Mark::Open)
    }
}

// Where the next number of a space stands.
fn index(space: Space) -> usize
    ensures { (result ≡ index_of space) × (result < 3) }
{
    match space {
        Space::Initial => 0,
        Space::Handshake => 1,
        Space::Application => 2,
    }
}

impl Limits {
    // None is above its ceiling.
    #[tactic(auto, unfolding(crate::specs::Conn::limits_fit))]
    pub fn fit(self) -> bool
        ensures { result ≡ limits_fit self }
    {
        self.credit <= Conn::MOST_CREDIT
            && self.counts[0] <= Conn::MOST_STREAMS
            && self.counts[1] <= Conn::MOST_STREAMS
            && self.initial[0] <= Conn::MOST_CREDIT
            && self.initial[1] <= Conn::MOST_CREDIT
            && self.initial[2] <= Conn::MOST_CREDIT
    }

    // The initial credit of a stream of a half.
    pub fn initial_of(self, half: usize) -> u64
        ensures { result ≡ initial_of self half }
    {
        match half {
            0 => self.initial[0],
            1 => self.initial[1],
            _ => self.initial[2],
        }
    }
}

impl Conn {
    // The ceilings: 64 streams a type, and 2^62-1 for each credit.
    pub const MOST_STREAMS: u64 = halves::Stream::MOST;

    pub const MOST_CREDIT: u64 = wire::MOST;

    // The entries of a table: 64 for each half that receives.
    pub const ENTRIES: usize = 192;

    // How many streams of a stream's half are open.
    pub fn opened_of(self, id: u64) -> u64
        ensures { result ≡ opened_of self (half_of id) }
    {
        let s = halves::named(id);
        let half = s.half;
        self.opened[half]
    }

    // The stream count of a stream's half: what the peer may open, or what we opened.
    #[tactic(auto, unfolding(crate::specs::Conn::count_of))]
    pub fn count_of(self, id: u64) -> u64
        ensures { result ≡ count_of self (half_of id) }
    {
        let limits = self.limits;
        let s = halves::named(id);
        let half = s.half;
        match half {
            0 => limits.counts[0],
            2 => limits.counts[1],
            _ => self.opened[half],
        }
    }

    // The next packet number of a space.
    pub fn next_of(self, space: Space) -> u64
        ensures { result ≡ next_of self space }
    {
        let i = index(space);
        self.next[i]
    }

    // With another closing mark, and nothing else changed.
    pub fn marked(self, mark: Mark) -> Conn
        ensures { result ≡ marked_as self mark }
    {
        Conn { mark, ..self }
    }

    // With the stream and all lower ordinals of its half open, and the total as given.
    pub fn open_to(self, id: u64, total: u64) -> Conn
        ensures { result ≡ open_to self id total }
    {
        let s = halves::named(id);
        let half = s.half;
        let mut conn = self;
        conn.total = total;
        conn.opened[half] = self.opened[half].max(s.ordinal + 1);
        conn
    }

    // Hands out the next number of a space, whatever the closing mark.
    #[tactic(auto, unfolding(crate::specs::Conn::handed_out_of))]
    pub fn hand_out(self, space: Space) -> Called
        ensures { result ≡ handed_out_of self space }
    {
        let i = index(space);
        let number = self.next[i];
        if Conn::MOST_CREDIT < number {
            return Called {
                answer: Answer::AboveCeiling,
                number: 0,
                conn: self,
            };
        }
        let mut conn = self;
        conn.next[i] = number + 1;
        Called {
            answer: Answer::Accepted,
            number,
            conn,
        }
    }
}

// The larger of two.
pub fn larger(a: u64, b: u64) -> u64
    ensures { result ≡ max a b }
{
    a.max(b)
}
