//! Values that are read and written again.

use crate::answer::{Answer, Change};
use dcsctp_wire::packet::chunk::{Chunk, RawChunk};
use dcsctp_wire::packet::{ChunkParseError, SerializableTlv};
use std::alloc::Global;
use std::fmt::{Debug, Display};

/// Returns the value as it is written over zeros, or nothing if it can't be written.
pub fn image_of<T: SerializableTlv>(value: &T, out: &mut Answer) -> Vec<u8> {
    if !value.encodable() {
        return Vec::new(out.alloc);
    }
    let size = value.serialized_size();
    let mut image = out.list(vec![in out.alloc; 0; size]);
    if image.len() == size {
        value.serialize_to(&mut image);
    }
    image
}

/// Returns the frame at the front of the bytes, without its padding.
fn frame_of(bytes: &[u8]) -> &[u8] {
    match RawChunk::from_bytes(bytes) {
        Ok((raw, _)) => bytes
            .get(..raw.value.len().wrapping_add(4))
            .unwrap_or(bytes),
        Err(_) => bytes,
    }
}

/// Returns the chunk at the front.
pub fn chunk_of(alloc: Global, bytes: &[u8]) -> Result<Chunk, ChunkParseError> {
    match RawChunk::from_bytes(bytes) {
        Ok((raw, _)) => Chunk::try_from(alloc, raw),
        Err(fault) => Err(fault),
    }
}

/// Writes all that a value holds, what it prints, and how it is written, where that isn't the frame
/// at the front.
pub fn write_value<T: SerializableTlv + Debug + Display>(
    bytes: &[u8],
    value: &T,
    out: &mut Answer,
) {
    let image = image_of(value, out);
    write!(out, "{value:?}; {value}{}", Change(frame_of(bytes), &image))
}

/// Writes the value that a reader answered for the bytes, as `write_value` does, or its fault.
pub fn write_read<T: SerializableTlv + Debug + Display + Drop>(
    bytes: &[u8],
    answer: Result<T, ChunkParseError>,
    out: &mut Answer,
) {
    match answer {
        Ok(value) => write_value(bytes, &value, out),
        Err(fault) => write!(out, "{fault:?}"),
    }
}
