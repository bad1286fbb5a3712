// A frame put together from its parts.
ghost use Rattle.std.specs.Prelude.{◌≡◌};
ghost use Rattle.frames.specs.Fields.{frame_of};

use crate::Frame;
use fields::Parts;
use layouts::types;

// The frame that is put together from its parts.
#[tactic(auto, unfolding(crate::specs::Fields::frame_of))]
pub fn assemble(p: Parts) -> Frame
    ensures { result ≡ frame_of p }
{
    let ty = p.ty;
    if ty / 8 == 1 {
        return Frame::Stream {
            id: p.a,
            offset: p.b,
            fin: ty % 2 == 1,
            at: p.at,
            len: p.len,
        };
    }
    match ty {
        types::PADDING => Frame::Padding,
        types::PING => Frame::Ping,
        types::ACK => Frame::Ack {
            largest: p.a,
            delay: p.b,
            count: p.c,
            first: p.d,
            at: p.at,
        },
        types::ACK_ECN => Frame::AckEcn {
            largest: p.a,
            delay: p.b,
            count: p.c,
            first: p.d,
            at: p.at,
            ect0: p.x,
            ect1: p.y,
            ce: p.z,
        },
        types::RESET_STREAM => Frame::ResetStream {
            id: p.a,
            code: p.b,
            size: p.c,
        },
        types::STOP_SENDING => Frame::StopSending { id: p.a, code: p.b },
        types::CRYPTO => Frame::Crypto {
            offset: p.a,
            at: p.at,
            len: p.len,
        },
        types::NEW_TOKEN => Frame::NewToken {
            at: p.at,
            len: p.len,
        },
        types::MAX_DATA => Frame::MaxData { maximum: p.a },
        types::MAX_STREAM_DATA => Frame::MaxStreamData {
            id: p.a,
            maximum: p.b,
        },
        types::MAX_STREAMS_BIDI => Frame::MaxStreams {
            uni: false,
            maximum: p.a,
        },
        types::MAX_STREAMS_UNI => Frame::MaxStreams {
            uni: true,
            maximum: p.a,
        },
        types::DATA_BLOCKED => Frame::DataBlocked { maximum: p.a },
        types::STREAM_DATA_BLOCKED => Frame::StreamDataBlocked {
            id: p.a,
            maximum: p.b,
        },
        types::STREAMS_BLOCKED_BIDI => Frame::StreamsBlocked {
            uni: false,
            maximum: p.a,
        },
        types::STREAMS_BLOCKED_UNI => Frame::StreamsBlocked {
            uni: true,
            maximum: p.a,
        },
        types::NEW_CONNECTION_ID => Frame::NewConnectionId {
            sequence: p.a,
            retire: p.b,
            at: p.at,
            len: p.len,
            token: p.token,
        },
        types::RETIRE_CONNECTION_ID => Frame::RetireConnectionId { sequence: p.a },
        types::PATH_CHALLENGE => Frame::PathChallenge { at: p.at },
        types::PATH_RESPONSE => Frame::PathResponse { at: p.at },
        types::CONNECTION_CLOSE => Frame::ConnectionClose {
            code: p.a,
            ty: p.b,
            at: p.at,
            len: p.len,
        },
        types::APPLICATION_CLOSE => Frame::ApplicationClose {
            code: p.a,
            at: p.at,
            len: p.len,
        },
        _ => Frame::HandshakeDone,
    }
}
