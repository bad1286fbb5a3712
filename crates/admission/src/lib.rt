// Which frames a packet of a kind may carry to a server and to a client (RFC 9000, Table 3 and 12.5).
#![tactic(auto)]

ghost use Rattle.std.specs.Prelude.{◌≡◌};
ghost use Rattle.admission.specs.Admission.{except_early, only_one_rtt, early_or_one_rtt, reaches, from_servers, admitted};

use kinds::{Kind, Role};
use layouts::types;

fn except_early(kind: Kind) -> bool
    ensures { result ≡ except_early kind }
{
    !matches!(kind, Kind::ZeroRtt)
}

fn only_one_rtt(kind: Kind) -> bool
    ensures { result ≡ only_one_rtt kind }
{
    matches!(kind, Kind::OneRtt)
}

fn early_or_one_rtt(kind: Kind) -> bool
    ensures { result ≡ early_or_one_rtt kind }
{
    matches!(kind, Kind::ZeroRtt | Kind::OneRtt)
}

// Whether packets of a kind come to us at all: 0-RTT packets go to servers.
fn reaches_us(role: Role, kind: Kind) -> bool
    ensures { result ≡ reaches role kind }
{
    match role {
        Role::Server => true,
        Role::Client => except_early(kind),
    }
}

// A frame that servers alone send.
fn from_servers(role: Role, kind: Kind) -> bool
    ensures { result ≡ from_servers role kind }
{
    match role {
        Role::Server => false,
        Role::Client => only_one_rtt(kind),
    }
}

// Whether a packet of this kind may carry a frame of this type to us.
#[tactic(auto, unfolding(crate::specs::Admission::admitted))]
pub fn admits(role: Role, kind: Kind, ty: u64) -> bool
    ensures { result ≡ admitted role kind ty }
{
    if !reaches_us(role, kind) {
        return false;
    }
    match ty {
        types::PADDING | types::PING | types::CONNECTION_CLOSE => true,
        types::ACK | types::ACK_ECN | types::CRYPTO => except_early(kind),
        types::PATH_RESPONSE | types::RETIRE_CONNECTION_ID => only_one_rtt(kind),
        types::NEW_TOKEN | types::HANDSHAKE_DONE => from_servers(role, kind),
        _ => early_or_one_rtt(kind),
    }
}
