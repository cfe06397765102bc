//! Builders: no room in memory, the switch, and a chunk with a field that it doesn't carry.

use crate::tests::help::{chunk_of, raw_of};
use dcsctp_wire::packet::ChunkParseError;
use dcsctp_wire::packet::chunk::Chunk;
use dcsctp_wire::packet::data_chunk::DataChunk;
use dcsctp_wire::packet::sctp_packet::SctpPacketBuilder;
use dcsctp_wire::types::Mid;
use std::alloc::Global;
use std::test::Fail;

/// A COOKIE ECHO of one byte.
const COOKIE: &[u8] = &[0x0a, 0, 0, 5, 0x7f];

/// Returns whether a builder of the largest limit refuses its first chunk, and holds nothing then,
/// with as much room as before.
fn refuses_first(alloc: Global) -> Result<bool, ChunkParseError> {
    let chunk = chunk_of(alloc, COOKIE)?;
    let mut builder = SctpPacketBuilder::new(alloc, 7, 1, 2, usize::MAX);
    let room = builder.bytes_remaining();
    let is_refused = builder.try_add(&chunk).is_err();
    let is_empty = builder.is_empty() && builder.as_bytes().is_empty();
    Ok(is_refused && is_empty && builder.bytes_remaining() == room)
}

/// Returns the room after a packet was built and the switch was off, and on again; then a packet
/// that is built with the switch off.
fn switched(alloc: Global) -> Result<(usize, Vec<u8>), ChunkParseError> {
    let chunk = chunk_of(alloc, COOKIE)?;
    let mut builder = SctpPacketBuilder::new(alloc, 7, 1, 2, 40);
    let _added = builder.try_add(&chunk);
    builder.build(9);
    let room = builder
        .write_checksum(false)
        .write_checksum(true)
        .bytes_remaining();
    let _added = builder.write_checksum(false).try_add(&chunk);
    Ok((room, builder.build(9)))
}

/// Returns DATA with a MID, which it doesn't carry.
fn data(alloc: Global) -> Result<Chunk, ChunkParseError> {
    let raw = raw_of(b"\0\x07\0\x10\0\0\0\x01\0\x02\0\x03\0\0\0\x04")?;
    let mut data = DataChunk::try_from(alloc, raw)?;
    data.user_data.mid = Mid(9);
    Ok(Chunk::Data(data))
}

/// Returns the rooms after a COOKIE ECHO and after that DATA; and the packet.
fn with_data(alloc: Global) -> Result<(usize, usize, Vec<u8>), ChunkParseError> {
    let cookie = chunk_of(alloc, COOKIE)?;
    let data = data(alloc)?;
    let mut builder = SctpPacketBuilder::new(alloc, 7, 1, 2, 40);
    let _added = builder.try_add(&cookie);
    let first = builder.bytes_remaining();
    let _added = builder.try_add(&data);
    Ok((first, builder.bytes_remaining(), builder.build(9)))
}

#[test]
fn builders(rt: HostRuntime) -> Result<(), Fail> {
    // no memory holds such a packet
    assert!(rt; refuses_first(rt.alloc())?);
    let (room, bytes) = switched(rt.alloc())?;
    let wanted = b"\0\x01\0\x02\0\0\0\x07\0\0\0\0\x0a\0\0\x05\x7f\0\0\0";
    assert!(rt; room == 28 && bytes.as_slice() == wanted.as_slice());
    let (first, second, bytes) = with_data(rt.alloc())?;
    let wanted =
        b"\0\x01\0\x02\0\0\0\x07\0\0\0\x09\x0a\0\0\x05\x7f\0\0\0\0\x07\0\x10\0\0\0\x01\0\x02\0\x03\0\0\0\x04";
    assert!(rt; first == 20 && second == 4 && bytes.as_slice() == wanted.as_slice());
    Ok(())
}
