//! A chunk whose type has no kind of its own, to be written.

ghost use Rattle.dcsctp_wire.specs.Chunk.{Unknown};

use crate::value_bytes::ValueBytes;
use dcsctp_buffer::item::WritableItem;
use dcsctp_buffer::writable_chunk::WritableChunk;
use dcsctp_tlv::frame::{MAX_VALUE_SIZE, TLV_HEADER_SIZE, put_header};
use dcsctp_tlv::widths::are_bytes;

/// A chunk by its type, its flags and the bytes of its value.
#[derive(Clone, Debug, Drop)]
pub struct RegisteredChunk<'a> {
    /// The type.
    pub typ: u8,
    /// The flags.
    pub flags: u8,
    /// The value.
    pub value: ValueBytes<'a>,
}

impl WritableChunk for RegisteredChunk<'_> {
    ghost tree = { λ c. Unknown (record { typ = c.typ; flags = c.flags; value = c.value }) };

    fn written_size(&self) -> Option<usize> {
        let value_size = self.value.value_size();
        if value_size > MAX_VALUE_SIZE {
            return None;
        }
        Some(TLV_HEADER_SIZE + value_size)
    }

    fn write_to(&self, output: &mut [u8]) {
        put_header(self.typ, self.flags, self.value.value_size(), output);
        self.value.put_value(output, TLV_HEADER_SIZE);
        are_bytes(output);
    }
}
