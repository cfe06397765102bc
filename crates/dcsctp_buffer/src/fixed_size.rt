//! Chunks of a fixed size: SHUTDOWN and its two answers (RFC 9260 sections 3.3.8, 3.3.9 and
//! 3.3.13), and COOKIE ACK (section 3.3.12).

ghost use Rattle.dcsctp_wire.specs.Chunk.{CookieAck, Shutdown, ShutdownAck, ShutdownComplete};
ghost use Rattle.dcsctp_chunk.specs.Shutdown as shutdown;
ghost use Rattle.dcsctp_chunk.specs.ShutdownComplete as shutdown_complete;

use crate::writable_chunk::WritableChunk;
use dcsctp_tlv::tlv::SerializableTlv;
use dcsctp_wire::packet::cookie_ack_chunk::CookieAckChunk;
use dcsctp_wire::packet::shutdown_ack_chunk::ShutdownAckChunk;
use dcsctp_wire::packet::shutdown_chunk::ShutdownChunk;
use dcsctp_wire::packet::shutdown_complete_chunk::ShutdownCompleteChunk;

impl WritableChunk for ShutdownChunk {
    ghost tree = { λ c. Shutdown (shutdown.view c) };

    fn written_size(&self) -> Option<usize> {
        self.encoded_size()
    }

    fn write_to(&self, output: &mut [u8]) {
        self.has_widths();
        self.serialize_to(output);
    }
}

impl WritableChunk for ShutdownAckChunk {
    ghost tree = { λ c. ShutdownAck };

    fn written_size(&self) -> Option<usize> {
        self.encoded_size()
    }

    fn write_to(&self, output: &mut [u8]) {
        self.serialize_to(output);
    }
}

impl WritableChunk for ShutdownCompleteChunk {
    ghost tree = { λ c. ShutdownComplete (shutdown_complete.view c) };

    fn written_size(&self) -> Option<usize> {
        self.encoded_size()
    }

    fn write_to(&self, output: &mut [u8]) {
        self.serialize_to(output);
    }
}

impl WritableChunk for CookieAckChunk {
    ghost tree = { λ c. CookieAck };

    fn written_size(&self) -> Option<usize> {
        self.encoded_size()
    }

    fn write_to(&self, output: &mut [u8]) {
        self.serialize_to(output);
    }
}
