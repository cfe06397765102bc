//! A chunk that is owned.

ghost use Rattle.dcsctp_wire.specs.Chunk.{view};

use crate::writable_chunk::WritableChunk;
use dcsctp_wire::packet::SerializableTlv;
use dcsctp_wire::packet::chunk::{Chunk, chunk_has_widths};

impl WritableChunk for Chunk {
    ghost tree = { view };

    fn written_size(&self) -> Option<usize> {
        self.encoded_size()
    }

    fn write_to(&self, output: &mut [u8]) {
        chunk_has_widths(self);
        let (front, _) = output.split_at_mut(self.serialized_size());
        front.fill(0);
        self.serialize_to(front);
    }
}
