//! INIT and INIT ACK, to which parameters can be added.

ghost use Rattle.std.specs.Prelude.{◌≡◌, if◌then◌else◌};
ghost use Rattle.dcsctp_wire.specs.InitFields.{leading, IsInWidth};
ghost use Rattle.dcsctp_buffer.specs.Init.{fields, view};

use crate::writable_chunk::WritableChunk;
use dcsctp_tlv::frame::put_solid;
use dcsctp_types::types::Tsn;
use dcsctp_wire::packet::init_chunk::{self, InitNumbers};
use dcsctp_wire::packet::{TLV_HEADER_SIZE, init_ack_chunk};

/// INIT (RFC 9260 section 3.3.2) or INIT ACK (section 3.3.3) to be written, without parameters
/// (`add_item` adds them).
#[derive(Clone, Copy, Debug)]
pub struct BorrowedInit {
    /// Whether it is an INIT ACK. That has a State Cookie at least (section 3.3.3.1).
    pub is_ack: bool,
    /// The tag that the receiver puts in its packets.
    pub initiate_tag: u32,
    /// Bytes that the sender has room for.
    pub a_rwnd: u32,
    /// Streams that the sender will use.
    pub nbr_outbound_streams: u16,
    /// The most streams that the receiver may use.
    pub nbr_inbound_streams: u16,
    /// The TSN that the sender starts with.
    pub initial_tsn: Tsn,
}

impl BorrowedInit {
    /// Returns the value, as it is written.
    fn fixed(self) -> [u8; InitNumbers::SIZE]
        ensures bytes { result ≡ leading (fields self) }
        ensures width { IsInWidth (fields self) }
    {
        InitNumbers {
            initiate_tag: self.initiate_tag,
            a_rwnd: self.a_rwnd,
            nbr_outbound_streams: self.nbr_outbound_streams,
            nbr_inbound_streams: self.nbr_inbound_streams,
            initial_tsn: self.initial_tsn,
        }
        .bytes()
    }
}

impl WritableChunk for BorrowedInit {
    ghost tree = { view };

    fn written_size(&self) -> Option<usize> {
        Some(TLV_HEADER_SIZE + InitNumbers::SIZE)
    }

    fn write_to(&self, output: &mut [u8]) {
        put_solid(chunk_type(self.is_ack), 0, &self.fixed(), output);
    }
}

/// Returns the type of INIT ACK, or of INIT.
fn chunk_type(is_ack: bool) -> u8
    ensures { result ≡ (if is_ack then 2 else 1) }
{
    if is_ack {
        init_ack_chunk::CHUNK_TYPE
    } else {
        init_chunk::CHUNK_TYPE
    }
}
