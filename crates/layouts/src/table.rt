// The table of frame types (RFC 9000, section 19): a row for each, packed into three hexadecimal digits.
ghost use Rattle.std.specs.Prelude.{◌≡◌};
ghost use Rattle.layouts.specs.Layout.{layout_of};
ghost use Rattle.layouts.specs.Packed.{tail_in, layout_in};

use crate::types::HANDSHAKE_DONE;
use crate::{Layout, Tail};

// The digits of a row: how many numbers follow the type, the tail after them (0 nothing, 1 counted bytes, 2 all bytes
// that are left, 3 eight bytes, 4 a connection ID and its token, 5 ACK ranges), and how many numbers follow that.
const ROWS: [u16; 31] = [
    0x000, // 0x00 PADDING
    0x000, // 0x01 PING
    0x450, // 0x02 ACK
    0x453, // 0x03 ACK with ECN counts
    0x300, // 0x04 RESET_STREAM
    0x200, // 0x05 STOP_SENDING
    0x110, // 0x06 CRYPTO
    0x010, // 0x07 NEW_TOKEN
    0x120, // 0x08 STREAM
    0x120, // 0x09 STREAM, FIN
    0x110, // 0x0a STREAM, LEN
    0x110, // 0x0b STREAM, LEN, FIN
    0x220, // 0x0c STREAM, OFF
    0x220, // 0x0d STREAM, OFF, FIN
    0x210, // 0x0e STREAM, OFF, LEN
    0x210, // 0x0f STREAM, OFF, LEN, FIN
    0x100, // 0x10 MAX_DATA
    0x200, // 0x11 MAX_STREAM_DATA
    0x100, // 0x12 MAX_STREAMS, two-way
    0x100, // 0x13 MAX_STREAMS, one-way
    0x100, // 0x14 DATA_BLOCKED
    0x200, // 0x15 STREAM_DATA_BLOCKED
    0x100, // 0x16 STREAMS_BLOCKED, two-way
    0x100, // 0x17 STREAMS_BLOCKED, one-way
    0x240, // 0x18 NEW_CONNECTION_ID
    0x100, // 0x19 RETIRE_CONNECTION_ID
    0x030, // 0x1a PATH_CHALLENGE
    0x030, // 0x1b PATH_RESPONSE
    0x210, // 0x1c CONNECTION_CLOSE
    0x110, // 0x1d CONNECTION_CLOSE of the application
    0x000, // 0x1e HANDSHAKE_DONE
];

// The tail that a digit stands for.
#[tactic(auto, unfolding(crate::specs::Packed::tail_in))]
fn tail_in(digit: u16) -> Tail
    ensures { result ≡ tail_in digit }
{
    match digit {
        1 => Tail::Counted,
        2 => Tail::Remainder,
        3 => Tail::Eight,
        4 => Tail::Identity,
        5 => Tail::Ranges,
        _ => Tail::Nothing,
    }
}

// The layout in a row of the table.
#[tactic(auto, unfolding(crate::specs::Packed::layout_in))]
fn unpack(row: u16) -> Layout
    ensures { result ≡ layout_in row }
{
    Layout {
        numbers: (row / 256) as u8,
        tail: tail_in(row / 16 % 16),
        after: (row % 16) as u8,
    }
}

// The layout of a type; that of PADDING for a type that is not known.
pub fn find(ty: u64) -> Layout
    ensures { result ≡ layout_of ty }
{
    if HANDSHAKE_DONE < ty {
        return Layout {
            numbers: 0,
            tail: Tail::Nothing,
            after: 0,
        };
    }
    let i = ty as usize;
    unpack(ROWS[i])
}
