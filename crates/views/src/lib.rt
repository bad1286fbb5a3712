// What a frame asks of the streams, and the place of the entry that it looks at.
#![tactic(auto)]

ghost use Rattle.std.specs.Prelude.{◌≡◌};
ghost use Rattle.views.specs.View.{end_of, view_of, frame_place};

use frames::Frame;
use kinds::{Kind, Role, Space};
use rules::View;

// Offset plus length, as far as 64 bits hold it.
#[tactic(auto, unfolding(crate::specs::View::end_of))]
fn end_of(offset: u64, len: u64) -> u64
    ensures { result ≡ end_of offset len }
{
    offset.saturating_add(len)
}

// What a frame in a packet of this kind asks of the streams. This is where a frame's ID becomes the one that the stream has
// at a server, by which all rules know it.
pub fn of_frame(role: Role, kind: Kind, frame: Frame) -> View
    ensures { result ≡ view_of role kind frame }
{
    match frame {
        Frame::Ack { largest, .. } | Frame::AckEcn { largest, .. } => View::Acks {
            space: Space::of(kind),
            largest,
        },
        Frame::ResetStream { id, size, .. } => View::Ends {
            id: halves::seated(role, id),
            end: size,
            fin: true,
        },
        Frame::Stream {
            id,
            offset,
            fin,
            len,
            ..
        } => View::Ends {
            id: halves::seated(role, id),
            end: end_of(offset, len as u64),
            fin,
        },
        Frame::StopSending { id, .. } | Frame::MaxStreamData { id, .. } => View::ForSender {
            id: halves::seated(role, id),
        },
        Frame::StreamDataBlocked { id, .. } => View::Blocks {
            id: halves::seated(role, id),
        },
        Frame::ConnectionClose { .. } | Frame::ApplicationClose { .. } => View::Closes,
        _ => View::Nothing,
    }
}

// The place in the table that a frame looks at.
pub fn place(view: View) -> usize
    ensures { result ≡ frame_place view }
{
    match view {
        View::Ends { id, .. } => halves::place_of(id),
        _ => halves::place_of(0),
    }
}
