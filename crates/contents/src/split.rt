// A frame taken apart: the type under which it is written, its numbers and its places.
ghost use Rattle.std.specs.Prelude.{◌≡◌};
ghost use Rattle.contents.specs.Parts.{stream_type, way_type, plain_parts, holding_parts, parts_of};

use fields::Parts;
use frames::Frame;
use layouts::types;

// No numbers and no bytes: what a frame does not have is 0.
const NONE: Parts = Parts {
    ty: 0,
    a: 0,
    b: 0,
    c: 0,
    d: 0,
    at: 0,
    len: 0,
    token: 0,
    x: 0,
    y: 0,
    z: 0,
};

// STREAM with LEN always, and with OFF exactly when the offset is not 0.
#[tactic(auto, unfolding(crate::specs::Parts::stream_type))]
fn stream_type(offset: u64, fin: bool) -> u64
    ensures { result ≡ stream_type offset fin }
{
    match (0 < offset, fin) {
        (true, true) => 0x0f,
        (true, false) => 0x0e,
        (false, true) => 0x0b,
        (false, false) => 0x0a,
    }
}

// Of two types the one for one-way streams, or the one for two-way streams.
#[tactic(auto, unfolding(crate::specs::Parts::way_type))]
fn way_type(uni: bool, one: u64, two: u64) -> u64
    ensures { result ≡ way_type uni one two }
{
    if uni { one } else { two }
}

// A frame of numbers alone.
fn plain(ty: u64, a: u64, b: u64, c: u64) -> Parts
    ensures { result ≡ plain_parts ty a b c }
{
    Parts {
        ty,
        a,
        b,
        c,
        ..NONE
    }
}

// A frame of at most two numbers and bytes.
fn holding(ty: u64, a: u64, b: u64, at: usize, len: usize) -> Parts
    ensures { result ≡ holding_parts ty a b at len }
{
    Parts {
        ty,
        a,
        b,
        at,
        len,
        ..NONE
    }
}

// The parts of a frame: each kind of frame has its row here.
pub fn apart(frame: Frame) -> Parts
    ensures { result ≡ parts_of frame }
{
    match frame {
        Frame::Padding => plain(types::PADDING, 0, 0, 0),
        Frame::Ping => plain(types::PING, 0, 0, 0),
        Frame::Ack {
            largest,
            delay,
            count,
            first,
            at,
        } => Parts {
            ty: types::ACK,
            a: largest,
            b: delay,
            c: count,
            d: first,
            at,
            ..NONE
        },
        Frame::AckEcn {
            largest,
            delay,
            count,
            first,
            at,
            ect0,
            ect1,
            ce,
        } => Parts {
            ty: types::ACK_ECN,
            a: largest,
            b: delay,
            c: count,
            d: first,
            at,
            x: ect0,
            y: ect1,
            z: ce,
            ..NONE
        },
        Frame::ResetStream { id, code, size } => plain(types::RESET_STREAM, id, code, size),
        Frame::StopSending { id, code } => plain(types::STOP_SENDING, id, code, 0),
        Frame::Crypto { offset, at, len } => holding(types::CRYPTO, offset, 0, at, len),
        Frame::NewToken { at, len } => holding(types::NEW_TOKEN, 0, 0, at, len),
        Frame::Stream {
            id,
            offset,
            fin,
            at,
            len,
        } => holding(stream_type(offset, fin), id, offset, at, len),
        Frame::MaxData { maximum } => plain(types::MAX_DATA, maximum, 0, 0),
        Frame::MaxStreamData { id, maximum } => plain(types::MAX_STREAM_DATA, id, maximum, 0),
        Frame::MaxStreams { uni, maximum } => {
            let ty = way_type(uni, types::MAX_STREAMS_UNI, types::MAX_STREAMS_BIDI);
            plain(ty, maximum, 0, 0)
        },
        Frame::DataBlocked { maximum } => plain(types::DATA_BLOCKED, maximum, 0, 0),
        Frame::StreamDataBlocked { id, maximum } => plain(
            types::STREAM_DATA_BLOCKED,
            id,
            maximum,
            0,
        ),
        Frame::StreamsBlocked { uni, maximum } => {
            let ty = way_type(uni, types::STREAMS_BLOCKED_UNI, types::STREAMS_BLOCKED_BIDI);
            plain(ty, maximum, 0, 0)
        },
        Frame::NewConnectionId {
            sequence,
            retire,
            at,
            len,
            token,
        } => Parts {
            ty: types::NEW_CONNECTION_ID,
            a: sequence,
            b: retire,
            at,
            len,
            token,
            ..NONE
        },
        Frame::RetireConnectionId { sequence } => plain(
            types::RETIRE_CONNECTION_ID,
            sequence,
            0,
            0,
        ),
        Frame::PathChallenge { at } => holding(types::PATH_CHALLENGE, 0, 0, at, 8),
        Frame::PathResponse { at } => holding(types::PATH_RESPONSE, 0, 0, at, 8),
        Frame::ConnectionClose { code, ty, at, len } => holding(
            types::CONNECTION_CLOSE,
            code,
            ty,
            at,
            len,
        ),
        Frame::ApplicationClose { code, at, len } => holding(
            types::APPLICATION_CLOSE,
            code,
            0,
            at,
            len,
        ),
        Frame::HandshakeDone => plain(types::HANDSHAKE_DONE, 0, 0, 0),
    }
}
