//! HEARTBEAT and HEARTBEAT ACK, whose info lies anywhere.

ghost use Rattle.dcsctp_buffer.specs.Heartbeat.{view};

use crate::one_item::{one_item_size, put_one_item};
use crate::widths::bytes_in_width;
use crate::writable_chunk::WritableChunk;
use dcsctp_wire::packet::heartbeat_info_parameter::PARAMETER_TYPE;
use dcsctp_wire::packet::{heartbeat_ack_chunk, heartbeat_request_chunk};

/// HEARTBEAT (RFC 9260 section 3.3.5) or HEARTBEAT ACK (section 3.3.6) to be written, with a
/// Heartbeat Info as its one parameter.
#[derive(Clone, Copy, Debug)]
pub struct BorrowedHeartbeat<'a> {
    /// Whether it is a HEARTBEAT ACK.
    pub is_ack: bool,
    /// Any bytes; HEARTBEAT ACK sends back those of the HEARTBEAT.
    pub info: &'a [u8],
}

impl WritableChunk for BorrowedHeartbeat<'_> {
    ghost tree = { view };

    fn written_size(&self) -> Option<usize> {
        one_item_size(self.info)
    }

    fn write_to(&self, output: &mut [u8]) {
        bytes_in_width(self.info);
        let typ = if self.is_ack {
            heartbeat_ack_chunk::CHUNK_TYPE
        } else {
            heartbeat_request_chunk::CHUNK_TYPE
        };
        put_one_item(typ, 0, PARAMETER_TYPE, self.info, output);
    }
}
