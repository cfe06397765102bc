//! Packets that are built.

use crate::answer::{Answer, Digits, first, from, short_at, word_at};
use crate::values::chunk_of;
use dcsctp_wire::packet::chunk::Chunk;
use dcsctp_wire::packet::sctp_packet::SctpPacketBuilder;
use dcsctp_wire::packet::{SerializableTlv, round_up_to_4};
use std::alloc::{AllocError, Global};

/// Adds the chunk by either call, and returns whether it was added.
fn add(builder: &mut SctpPacketBuilder, chunk: &Chunk, is_tried: bool) -> Result<bool, AllocError> {
    if is_tried {
        return builder.try_add(chunk);
    }
    if !chunk.encodable() || round_up_to_4(chunk.serialized_size()) > builder.bytes_remaining() {
        return Ok(false);
    }
    builder.add(chunk)?;
    Ok(true)
}

/// Adds the chunk that the bytes are.
fn add_bytes(
    alloc: Global,
    builder: &mut SctpPacketBuilder,
    bytes: &[u8],
    is_tried: bool,
) -> Result<bool, AllocError> {
    match chunk_of(alloc, bytes) {
        Ok(chunk) => add(builder, &chunk, is_tried),
        Err(_) => Ok(false),
    }
}

/// Writes the room of a builder; whether each chunk is added, which may be refused for memory, and
/// the room that is left; and what the builder holds, and builds with this word.
fn write_filled(
    builder: &mut SctpPacketBuilder,
    chunks: &str,
    word: u32,
    is_tried: bool,
    out: &mut Answer,
) {
    write!(out, "{} {}", builder.is_empty(), builder.bytes_remaining());
    for words in chunks.split(" / ").skip(1) {
        let bytes = out.bytes_of(words);
        let text = match add_bytes(out.alloc, builder, &bytes, is_tried) {
            Ok(true) if builder.is_empty() => "true to nothing",
            Ok(true) => "true",
            Ok(false) => "false",
            Err(AllocError) => "OutOfMemory",
        };
        write!(out, ", {text} {}", builder.bytes_remaining());
    }
    write!(out, "; {}; ", Digits(builder.as_bytes()));
    write!(out, "{}", Digits(&builder.build(word)))
}

/// Writes what a builder builds of chunks; and again, once it built a packet, by the other call.
/// The numbers are both ports, the tag, the limit, the switch, and the word; a chunk is after each
/// slash.
pub fn write_built(words: &str, out: &mut Answer) {
    let (numbers, _) = words.split_once(" / ").unwrap_or((words, ""));
    let numbers = out.bytes_of(numbers);
    let (source, destination) = (short_at(&numbers, 0), short_at(&numbers, 2));
    let (tag, limit) = (word_at(&numbers, 4), usize::from(short_at(&numbers, 8)));
    let mut builder = SctpPacketBuilder::new(out.alloc, tag, source, destination, limit);
    builder.write_checksum(first(from(&numbers, 10)) == 1);
    let word = word_at(&numbers, 11);
    let mut second = out.another();
    write_filled(&mut builder, words, word, false, out);
    write_filled(&mut builder, words, word, true, &mut second);
    out.add_other("; and then ", &second)
}

/// Returns the packet that is built of the chunk alone; nothing if it can't be.
pub fn built_of(chunk: &[u8], out: &mut Answer) -> Vec<u8> {
    let mut builder = SctpPacketBuilder::new(out.alloc, 0x01020304, 5000, 5000, 65535);
    out.or_out_of_memory(add_bytes(out.alloc, &mut builder, chunk, true));
    builder.build(0)
}
