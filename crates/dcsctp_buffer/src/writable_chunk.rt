//! What can be added to a packet in a buffer.

ghost use Rattle.std.specs.Prelude.{◌≡◌, ◌≤◌, length};
ghost use Rattle.dcsctp_tlv.specs.Image.{Sizes, size_of};
ghost use Rattle.dcsctp_wire.specs.Chunk.{ChunkTree, tlv as chunk_tlv, IsChunkEncodable, IsInWidth as IsChunkInWidth};
ghost use Rattle.dcsctp_buffer.specs.Buffer.{with_item};

/// A chunk (RFC 9260 section 3.2) that can be written, whatever holds it.
///
/// No call allocates or fails.
pub trait WritableChunk {
    /// The chunk as plain data.
    ghost tree: { Self → ChunkTree };

    /// Returns the number of bytes of its header and its value, without padding; `None` if and
    /// only if the chunk can't be written: two bytes can't hold this number, or a skipped stream
    /// isn't of the chunk's kind.
    fn written_size(&self) -> Option<usize>
        ensures { Sizes result (IsChunkEncodable (tree self.now))
            (size_of (chunk_tlv (tree self.now))) };

    /// Writes its header and its value at the front of the output. Where a list is in the value,
    /// there are zeros between its items. The bytes after the chunk stay.
    fn write_to(&self, output: &mut [u8])
        requires encodable { IsChunkEncodable (tree self.now) }
        requires room { size_of (chunk_tlv (tree self.now)) ≤ length output.old }
        ensures written { output.new ≡ with_item (chunk_tlv (tree self.now)) output.old }
        // Its numbers lie in their widths, by their types.
        ensures width { IsChunkInWidth (tree self.now) };
}
