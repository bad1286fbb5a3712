// The kinds of packet that carry frames, the space that numbers each (RFC 9000, 12.3 and 17), and the two ends of a connection (1.2).
#![tactic(auto)]

ghost use Rattle.std.specs.Prelude.{◌≡◌};
ghost use Rattle.kinds.specs.Kinds.{space_of};

#[derive(Clone, Copy)]
pub enum Kind {
    Initial,
    Handshake,
    ZeroRtt,
    OneRtt,
}

// Which end of a connection we are: the one that takes it up, or the one that starts it.
#[derive(Clone, Copy)]
pub enum Role {
    Server,
    Client,
}

// The three spaces of packet numbers.
#[derive(Clone, Copy)]
pub enum Space {
    Initial,
    Handshake,
    Application,
}

impl Space {
    // The space of a packet: 0-RTT and 1-RTT share one.
    pub fn of(kind: Kind) -> Space
        ensures { result ≡ space_of kind }
    {
        match kind {
            Kind::Initial => Space::Initial,
            Kind::Handshake => Space::Handshake,
            Kind::ZeroRtt => Space::Application,
            Kind::OneRtt => Space::Application,
        }
    }
}
