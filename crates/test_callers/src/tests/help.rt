//! What the tests ask of bytes and values.

use dcsctp_wire::packet::chunk::{Chunk, RawChunk};
use dcsctp_wire::packet::{ChunkParseError, SerializableTlv};
use std::alloc::Global;

/// Both ports 5000, tag 16909060, checksum 0.
pub(crate) const HEADER: [u8; 12] = [0x13, 0x88, 0x13, 0x88, 1, 2, 3, 4, 0, 0, 0, 0];

/// The header, and a COOKIE ACK.
pub(crate) const PACKET: [u8; 16] = [
    0x13, 0x88, 0x13, 0x88, 1, 2, 3, 4, 0, 0, 0, 0, 0x0b, 0, 0, 4,
];

/// Returns the chunk at the front of the bytes, before its value is looked at.
pub(crate) fn raw_of(bytes: &[u8]) -> Result<RawChunk<'_>, ChunkParseError> {
    let (raw, _) = RawChunk::from_bytes(bytes)?;
    Ok(raw)
}

/// Returns the chunk at the front of the bytes.
pub(crate) fn chunk_of(alloc: Global, bytes: &[u8]) -> Result<Chunk, ChunkParseError> {
    Chunk::try_from(alloc, raw_of(bytes)?)
}

/// Returns how many bytes a value has, or nothing if it can't be written.
pub(crate) fn size_of<T: SerializableTlv + Drop>(value: T) -> Option<usize> {
    if value.encodable() {
        Some(value.serialized_size())
    } else {
        None
    }
}
