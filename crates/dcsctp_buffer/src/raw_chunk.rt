//! A chunk of any type, whose value lies anywhere.

ghost use Rattle.dcsctp_wire.specs.Chunk.{Unknown};

use crate::widths::bytes_in_width;
use crate::writable_chunk::WritableChunk;
use dcsctp_chunk::raw_chunk::RawChunk;
use dcsctp_tlv::frame::{item_size, put_solid};

/// A chunk of any type (RFC 9260 section 3.2), named or not: its flags and its value are written as
/// they are.
impl WritableChunk for RawChunk<'_> {
    ghost tree = { λ r. Unknown (record { typ = r.typ; flags = r.flags; value = r.value.now }) };

    fn written_size(&self) -> Option<usize> {
        item_size(self.value.len())
    }

    fn write_to(&self, output: &mut [u8]) {
        bytes_in_width(self.value);
        put_solid(self.typ, self.flags, self.value, output);
    }
}
