//! DATA, whose payload lies anywhere.

ghost use Rattle.std.specs.Prelude.{◌≡◌, ◌≤◌, ◌<◌, ◌+◌, ◌^◌, ◌++◌, length};
ghost use Rattle.dcsctp_tlv.specs.Format.{flagged_tlv};
ghost use Rattle.dcsctp_chunk.specs.{Data.{IsInWidth}, DataChunk.{fixed as fixed_bytes}};
ghost use Rattle.dcsctp_wire.specs.Chunk.{Data as DataTree};
ghost use Rattle.dcsctp_buffer.specs.{Buffer.{with_item}, Data.{view}};

use crate::widths::bytes_in_width;
use crate::writable_chunk::WritableChunk;
use dcsctp_chunk::flags::four_flags;
use dcsctp_tlv::frame::{item_size, put_fixed_and_rest};
use dcsctp_types::api::PpId;
use dcsctp_types::types::{Ssn, StreamKey, Tsn};
use dcsctp_wire::packet::data_chunk::{CHUNK_TYPE, DataNumbers};

/// DATA (RFC 9260 section 3.3.1) to be written: a message, or a fragment of one.
#[derive(Clone, Copy, Debug)]
pub struct BorrowedData<'a> {
    /// The chunk's place in its association.
    pub tsn: Tsn,
    /// The stream, and whether the message is delivered in sequence: the U bit is set where not.
    pub stream_key: StreamKey,
    /// The message's place in its stream.
    pub ssn: Ssn,
    /// What the payload is for.
    pub ppid: PpId,
    /// The fragment's bytes.
    pub payload: &'a [u8],
    /// Whether the message begins with it: the B bit.
    pub is_beginning: bool,
    /// Whether the message ends with it: the E bit.
    pub is_end: bool,
    /// Whether the sender asks for a SACK without delay (RFC 7053): the I bit.
    pub immediate_ack: bool,
}

impl BorrowedData<'_> {
    /// Returns the value before the payload, as it is written.
    fn fixed(&self) -> [u8; DataNumbers::SIZE]
        ensures bytes { result ≡ fixed_bytes (view self.now) }
        ensures width { IsInWidth (view self.now) }
    {
        bytes_in_width(self.payload);
        let _widths = (self.tsn.0, self.ssn.0, self.ppid.0);
        DataNumbers {
            tsn: self.tsn,
            stream_id: self.stream_key.id(),
            ssn: self.ssn,
            ppid: self.ppid,
        }
        .bytes()
    }
}

impl WritableChunk for BorrowedData<'_> {
    ghost tree = { λ d. DataTree (view d) };

    fn written_size(&self) -> Option<usize> {
        item_size(DataNumbers::SIZE + self.payload.len())
    }

    fn write_to(&self, output: &mut [u8]) {
        let flags = four_flags(
            self.is_end,
            self.is_beginning,
            self.stream_key.is_unordered(),
            self.immediate_ack,
        );
        put_data(CHUNK_TYPE, flags, &self.fixed(), self.payload, output);
    }
}

// ---- what DATA and I-DATA have in common

/// Writes a chunk whose value is a fixed part, and after it the payload; the bytes after it stay.
pub(crate) fn put_data(typ: u8, flags: u8, fixed: &[u8], payload: &[u8], output: &mut [u8])
    requires encodable { 4 + (length fixed.now + length payload.now) < 2 ^ 16 }
    requires room { 4 + (length fixed.now + length payload.now) ≤ length output.old }
    ensures { output.new ≡ with_item (flagged_tlv typ flags
        (length fixed.now + length payload.now) (fixed.now ++ payload.now)) output.old }
{
    put_fixed_and_rest(typ, flags, fixed, payload, output);
}
