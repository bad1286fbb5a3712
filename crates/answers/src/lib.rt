// The fixed list of answers (docs/RULES.md, "Answer numbers"): every call of every crate answers from it.
#![tactic(auto)]

ghost use Rattle.std.specs.Prelude.{◌≡◌};
ghost use Rattle.answers.specs.Answers.{number_of};

#[derive(Clone, Copy)]
pub enum Answer {
    // accepted
    Accepted,
    // the rest of a datagram is empty
    Done,
    // RFC 9000, section 20.1: the peer broke a rule, and the connection closes with this code
    FlowControl,
    StreamLimit,
    StreamState,
    FinalSize,
    FrameEncoding,
    ProtocolViolation,
    // our own: the call is refused and changes nothing
    Closed,
    NotAbove,
    AboveCeiling,
    NotServed,
    SizeKnown,
    BelowRecord,
    InRecord,
    NoRoom,
    Unwritable,
    NoPacket,
    NoSuchNumber,
    NothingToAcknowledge,
    DoesNotFit,
}

impl Answer {
    // The number that docs/RULES.md gives to an answer.
    pub fn number(self) -> u64
        ensures { result ≡ number_of self }
    {
        match self {
            Answer::Accepted => 0,
            Answer::Done => 100,
            Answer::FlowControl => 3,
            Answer::StreamLimit => 4,
            Answer::StreamState => 5,
            Answer::FinalSize => 6,
            Answer::FrameEncoding => 7,
            Answer::ProtocolViolation => 10,
            Answer::Closed => 101,
            Answer::NotAbove => 102,
            Answer::AboveCeiling => 103,
            Answer::NotServed => 104,
            Answer::SizeKnown => 105,
            Answer::BelowRecord => 106,
            Answer::InRecord => 107,
            Answer::NoRoom => 108,
            Answer::Unwritable => 109,
            Answer::NoPacket => 110,
            Answer::NoSuchNumber => 111,
            Answer::NothingToAcknowledge => 112,
            Answer::DoesNotFit => 120,
        }
    }
}
