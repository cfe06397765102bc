//! I-DATA, whose payload lies anywhere.

ghost use Rattle.std.specs.Prelude.{◌≡◌};
ghost use Rattle.dcsctp_chunk.specs.{Data.{IsInWidth}, IDataChunk.{fixed as fixed_bytes}};
ghost use Rattle.dcsctp_wire.specs.Chunk.{IData as IDataTree};
ghost use Rattle.dcsctp_buffer.specs.IData.{view};

use crate::data::put_data;
use crate::widths::bytes_in_width;
use crate::writable_chunk::WritableChunk;
use dcsctp_chunk::flags::four_flags;
use dcsctp_tlv::frame::item_size;
use dcsctp_types::api::PpId;
use dcsctp_types::types::{Fsn, Mid, StreamKey, Tsn};
use dcsctp_wire::packet::idata_chunk::{CHUNK_TYPE, IDataNumbers};

/// I-DATA (RFC 8260 section 2.1) to be written: a message, or a fragment of one.
#[derive(Clone, Copy, Debug)]
pub struct BorrowedIData<'a> {
    /// The chunk's place in its association.
    pub tsn: Tsn,
    /// The stream, and whether the message is delivered in sequence: the U bit is set where not.
    pub stream_key: StreamKey,
    /// The message's place in its stream.
    pub mid: Mid,
    /// The fragment's place in its message; it isn't written where the message begins.
    pub fsn: Fsn,
    /// What the payload is for; it is written only where the message begins.
    pub ppid: PpId,
    /// The fragment's bytes.
    pub payload: &'a [u8],
    /// Whether the message begins with it: the B bit.
    pub is_beginning: bool,
    /// Whether the message ends with it: the E bit.
    pub is_end: bool,
    /// Whether the sender asks for a SACK without delay (RFC 7053): the I bit.
    pub immediate_ack: bool,
}

impl BorrowedIData<'_> {
    /// Returns the value before the payload, as it is written.
    fn fixed(&self) -> [u8; IDataNumbers::SIZE]
        ensures bytes { result ≡ fixed_bytes (view self.now) }
        ensures width { IsInWidth (view self.now) }
    {
        bytes_in_width(self.payload);
        let (ppid, fsn) = (self.ppid.0, self.fsn.0);
        IDataNumbers {
            tsn: self.tsn,
            stream_id: self.stream_key.id(),
            mid: self.mid,
            ppid_or_fsn: if self.is_beginning { ppid } else { fsn },
        }
        .bytes()
    }
}

impl WritableChunk for BorrowedIData<'_> {
    ghost tree = { λ d. IDataTree (view d) };

    fn written_size(&self) -> Option<usize> {
        item_size(IDataNumbers::SIZE + self.payload.len())
    }

    fn write_to(&self, output: &mut [u8]) {
        let flags = four_flags(
            self.is_end,
            self.is_beginning,
            self.stream_key.is_unordered(),
            self.immediate_ack,
        );
        put_data(CHUNK_TYPE, flags, &self.fixed(), self.payload, output);
    }
}
