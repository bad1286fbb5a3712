// The type of a frame (RFC 9000, 12.4).
ghost use Rattle.std.specs.Prelude.{◌≡◌};
ghost use Rattle.fields.specs.Heads.{head_at};

use crate::Refusal;
use answers::Answer;
use layouts::types::HANDSHAKE_DONE;

// Reads the type at a place, and the place after it: one that can be read, is in its shortest form and known.
#[tactic(auto, using(wire::proofs::Sound::sound), unfolding(crate::specs::Heads::head_at, wire::specs::Number::shortest, layouts::specs::Layout::known))]
pub fn read(s: &[u8], at: usize) -> Result<(u64, usize), Refusal>
    ensures { result ≡ head_at s.now at }
{
    let Some((ty, next)) = wire::read(s, at) else {
        return Err(Refusal {
            answer: Answer::FrameEncoding,
            ty: 0,
        });
    };
    if next - at != wire::size(ty) {
        return Err(Refusal {
            answer: Answer::ProtocolViolation,
            ty,
        });
    }
    if HANDSHAKE_DONE < ty {
        return Err(Refusal {
            answer: Answer::FrameEncoding,
            ty,
        });
    }
    Ok((ty, next))
}
