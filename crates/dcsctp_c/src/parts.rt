//! The parts of a packet: the common header, the chunks, and what those hold that have no list of
//! parameters or error causes, and INIT before its list.

ghost use Rattle.std.specs.{Prelude.{◌≡◌, ◌↔◌, ◌≤◌, ◌<◌, ◌+◌, ◌^◌, ℕ, List, Ok, Some, IsTrue, IfSome, option_map, is_some, false, length, take, drop}, Option.{unwrap_or}};
ghost use Rattle.dcsctp_tlv.specs.Frame.{BeginsWithFrame, frame_value, frame_rest};
ghost use Rattle.dcsctp_chunk.specs.{Cover.{IsCleaned, CleanedLaws, AreValid}, SkippedStreams.{skipped_stream_view}};
ghost use Rattle.dcsctp_wire.specs.{Chunk.{ChunkTree}, Packet.{PacketTree, Answer}, declared.packet.sctp_packet.ChecksumPolicy.{ChecksumPolicy}};
ghost use Rattle.dcsctp_borrowed.specs.{Sack.{sack_of}, SkippedStreams.{forward_of}, UserData.{data_of}};
ghost use Rattle.dcsctp_c.specs.Part.{ReadsInto, Reads, header_at, HoldsHeader, IsHeaderOf, value_at, ChunkMeans, IsChunkAt, data_at, HoldsData, sack_at, HoldsSack, block_at, duplicate_at, Holds, IsValidSack, init_of, read_init, init_at, HoldsInit, part_at, read_number, shutdown_of, read_shutdown, shutdown_at, forward_at, HoldsForward, skipped_at, HoldsSkipped};

use crate::structs::{
    DcsctpChunk, DcsctpData, DcsctpForwardTsn, DcsctpHeader, DcsctpInit, DcsctpSack,
    DcsctpSkippedStream,
};
use dcsctp_borrowed::forward_tsn_ref::ForwardTsnRef;
use dcsctp_borrowed::sack_ref::SackRef;
use dcsctp_borrowed::user_data::UserData;
use dcsctp_chunk::chunk_validators::clean_in_place;
use dcsctp_chunk::sack_chunk::GapAckBlock;
use dcsctp_tlv::frame::split_frame;
use dcsctp_tlv::skipped_stream::SkippedStream;
use dcsctp_wire::packet::init_chunk::{self, InitNumbers};
use dcsctp_wire::packet::raw_chunk::RawChunk;
use dcsctp_wire::packet::sctp_packet::CommonHeader;
use dcsctp_wire::packet::{TLV_HEADER_SIZE, init_ack_chunk, read_u32_be, shutdown_chunk};

/// Bytes of a value that is one number.
pub(crate) const NUMBER_SIZE: usize = 4;

/// Reads the common header (RFC 9260 section 3.1). Returns false, and `header` stays, for fewer
/// than 12 bytes.
#[unsafe(no_mangle)]
pub extern "C" fn dcsctp_header(bytes: &[u8], header: &mut DcsctpHeader) -> bool
    ensures read { ReadsInto HoldsHeader (header_at bytes.now) header.old header.new result }
    ensures means { (word : ℕ) (policy : ChecksumPolicy) (p : PacketTree)
        → Answer bytes.now word policy (Ok p) → IsHeaderOf p header.new }
{
    let Some(found) = CommonHeader::from_bytes(bytes) else {
        return false;
    };
    *header = DcsctpHeader {
        source_port: found.source_port,
        destination_port: found.destination_port,
        verification_tag: found.verification_tag,
        checksum: found.checksum,
    };
    true
}

/// Reads the chunk at an offset (RFC 9260 section 3.2), and writes where its value and the next
/// chunk are. The first chunk of a packet is at 12.
///
/// Returns false, and `chunk` stays, if and only if no header with a whole value is there: at the
/// end of a packet, and after it.
#[unsafe(no_mangle)]
pub extern "C" fn dcsctp_chunk_at(bytes: &[u8], offset: usize, chunk: &mut DcsctpChunk) -> bool
    ensures there { IsTrue result ↔ BeginsWithFrame (drop offset bytes.now) }
    ensures read { IsTrue result → IsChunkAt bytes.now offset chunk.new }
    ensures stays { result ≡ false → chunk.new ≡ chunk.old }
{
    if offset > bytes.len() {
        return false;
    }
    let (_, from) = bytes.split_at(offset);
    let Ok((value, rest)) = split_frame(from) else {
        return false;
    };
    *chunk = framed_chunk(bytes, offset, value, rest);
    true
}

/// Reads the user data of DATA (RFC 9260 section 3.3.1) or I-DATA (RFC 8260 section 2.1), and
/// writes where its payload is.
///
/// Returns false, and `user_data` stays, if and only if the chunk has another type, its value is
/// too short for its kind, or it does not lie within the bytes.
#[unsafe(no_mangle)]
pub extern "C" fn dcsctp_data(bytes: &[u8], chunk: &DcsctpChunk, user_data: &mut DcsctpData) -> bool
    ensures read { ReadsInto (HoldsData bytes.now chunk.now) (data_at bytes.now chunk.now)
        user_data.old user_data.new result }
    ensures means { (tree : ChunkTree) → ChunkMeans bytes.now chunk.now tree
        → ReadsInto (HoldsData bytes.now chunk.now) (data_of tree)
        user_data.old user_data.new result }
{
    let Some(found) = read_data(bytes, chunk) else {
        return false;
    };
    *user_data = found;
    true
}

/// Reads the numbers of a SACK (RFC 9260 section 3.3.4).
///
/// Returns false, and `sack` stays, if and only if the chunk has another type, its value isn't as
/// long as its counts say, or it does not lie within the bytes.
#[unsafe(no_mangle)]
pub extern "C" fn dcsctp_sack(bytes: &[u8], chunk: &DcsctpChunk, sack: &mut DcsctpSack) -> bool
    ensures read { ReadsInto HoldsSack (sack_at bytes.now chunk.now) sack.old sack.new result }
    ensures means { (tree : ChunkTree) → ChunkMeans bytes.now chunk.now tree
        → ReadsInto HoldsSack (sack_of tree) sack.old sack.new result }
{
    let Some(found) = sack_ref(bytes, chunk) else {
        return false;
    };
    *sack = sack_struct(&found);
    true
}

/// Reads a SACK's gap ack block at an index, from 0 on.
///
/// Returns false, and `block` stays, if and only if `dcsctp_sack` returns false, or the SACK has no
/// block at this index.
#[unsafe(no_mangle)]
pub extern "C" fn dcsctp_gap_ack_block(
    bytes: &[u8],
    chunk: &DcsctpChunk,
    index: usize,
    block: &mut GapAckBlock,
) -> bool
    ensures read { ReadsInto Holds (block_at index (sack_at bytes.now chunk.now))
        block.old block.new result }
    ensures means { (tree : ChunkTree) → ChunkMeans bytes.now chunk.now tree
        → ReadsInto Holds (block_at index (sack_of tree)) block.old block.new result }
{
    put_found(read_block(bytes, chunk, index), block)
}

/// Reads a SACK's duplicate TSN at an index, from 0 on.
///
/// Returns false, and `tsn` stays, if and only if `dcsctp_sack` returns false, or the SACK has no
/// duplicate TSN at this index.
#[unsafe(no_mangle)]
pub extern "C" fn dcsctp_duplicate_tsn(
    bytes: &[u8],
    chunk: &DcsctpChunk,
    index: usize,
    tsn: &mut u32,
) -> bool
    ensures read { ReadsInto Holds (duplicate_at index (sack_at bytes.now chunk.now))
        tsn.old tsn.new result }
    ensures means { (tree : ChunkTree) → ChunkMeans bytes.now chunk.now tree
        → ReadsInto Holds (duplicate_at index (sack_of tree)) tsn.old tsn.new result }
{
    put_found(read_duplicate(bytes, chunk, index), tsn)
}

/// Returns whether the chunk is a SACK whose gap ack blocks are in order, apart, and begin at 2 or
/// later: the runs of the offsets that they cover (RFC 9260 section 3.3.4).
#[unsafe(no_mangle)]
pub extern "C" fn dcsctp_validate_sack(bytes: &[u8], chunk: &DcsctpChunk) -> bool
    ensures read { IsTrue result ↔ IsValidSack (sack_at bytes.now chunk.now) }
    ensures means { (tree : ChunkTree) → ChunkMeans bytes.now chunk.now tree
        → IsTrue result ↔ IsValidSack (sack_of tree) }
{
    match sack_ref(bytes, chunk) {
        Some(sack) => sack.validate(),
        None => false,
    }
}

/// Brings gap ack blocks (RFC 9260 section 3.3.4) into order, joins those that overlap or touch,
/// and drops those that are empty: what is left are the runs of the offsets that they cover, as few
/// blocks as there can be. Returns how many; they are the first ones, and those after them are of
/// no use.
///
/// Blocks that `dcsctp_validate_sack` accepts stay as they are. Runs that start at 0 or 1 are kept.
#[unsafe(no_mangle)]
pub extern "C" fn dcsctp_clean_blocks(blocks: &mut [GapAckBlock]) -> usize
    ensures len { result ≤ length blocks.old }
    ensures cleaned { IsCleaned blocks.old (take result blocks.new) }
    ensures laws { CleanedLaws blocks.old (take result blocks.new) }
    ensures same { AreValid blocks.old
        → (result ≡ length blocks.old) × (blocks.new ≡ blocks.old) }
{
    clean_in_place(blocks)
}

/// Reads the numbers of INIT (RFC 9260 section 3.3.2) or INIT ACK (section 3.3.3). The parameters
/// are not looked at.
///
/// Returns false, and `init` stays, if and only if the chunk has another type, its value has fewer
/// than 16 bytes, or it does not lie within the bytes.
#[unsafe(no_mangle)]
pub extern "C" fn dcsctp_init(bytes: &[u8], chunk: &DcsctpChunk, init: &mut DcsctpInit) -> bool
    ensures read { ReadsInto HoldsInit (init_at bytes.now chunk.now) init.old init.new result }
    ensures means { (tree : ChunkTree) → ChunkMeans bytes.now chunk.now tree
        → ReadsInto HoldsInit (init_of tree) init.old init.new result }
{
    let Some(found) = read_init(bytes, chunk) else {
        return false;
    };
    *init = found;
    true
}

/// Reads the cumulative TSN ack of SHUTDOWN (RFC 9260 section 3.3.8).
///
/// Returns false, and `cumulative_tsn_ack` stays, if and only if the chunk has another type, its
/// value hasn't four bytes, or it does not lie within the bytes.
#[unsafe(no_mangle)]
pub extern "C" fn dcsctp_shutdown(
    bytes: &[u8],
    chunk: &DcsctpChunk,
    cumulative_tsn_ack: &mut u32,
) -> bool
    ensures read { ReadsInto Holds (shutdown_at bytes.now chunk.now)
        cumulative_tsn_ack.old cumulative_tsn_ack.new result }
    ensures means { (tree : ChunkTree) → ChunkMeans bytes.now chunk.now tree
        → ReadsInto Holds (shutdown_of tree)
        cumulative_tsn_ack.old cumulative_tsn_ack.new result }
{
    put_found(read_shutdown(bytes, chunk), cumulative_tsn_ack)
}

/// Reads the numbers of FORWARD-TSN (RFC 3758 section 3.2) or I-FORWARD-TSN (RFC 8260 section
/// 2.3.1).
///
/// Returns false, and `forward_tsn` stays, if and only if the chunk has another type, its value
/// isn't the TSN and whole streams, or it does not lie within the bytes.
#[unsafe(no_mangle)]
pub extern "C" fn dcsctp_forward_tsn(
    bytes: &[u8],
    chunk: &DcsctpChunk,
    forward_tsn: &mut DcsctpForwardTsn,
) -> bool
    ensures read { ReadsInto HoldsForward (forward_at bytes.now chunk.now)
        forward_tsn.old forward_tsn.new result }
    ensures means { (tree : ChunkTree) → ChunkMeans bytes.now chunk.now tree
        → ReadsInto HoldsForward (forward_of tree) forward_tsn.old forward_tsn.new result }
{
    let Some(found) = forward_ref(bytes, chunk) else {
        return false;
    };
    *forward_tsn = forward_struct(&found);
    true
}

/// Reads the skipped stream at an index, from 0 on, of FORWARD-TSN or I-FORWARD-TSN.
///
/// Returns false, and `skipped_stream` stays, if and only if `dcsctp_forward_tsn` returns false, or
/// the chunk has no stream at this index.
#[unsafe(no_mangle)]
pub extern "C" fn dcsctp_skipped_stream(
    bytes: &[u8],
    chunk: &DcsctpChunk,
    index: usize,
    skipped_stream: &mut DcsctpSkippedStream,
) -> bool
    ensures read { ReadsInto HoldsSkipped (skipped_at index (forward_at bytes.now chunk.now))
        skipped_stream.old skipped_stream.new result }
    ensures means { (tree : ChunkTree) → ChunkMeans bytes.now chunk.now tree
        → ReadsInto HoldsSkipped (skipped_at index (forward_of tree))
        skipped_stream.old skipped_stream.new result }
{
    put_found(read_skipped(bytes, chunk, index), skipped_stream)
}

// ---- helpers

/// Writes what was read to its output, if something was. Returns whether it was.
#[inline(always)]
pub(crate) fn put_found<T: Copy>(found: Option<T>, output: &mut T) -> bool
    ensures done { result ≡ is_some found }
    ensures output { output.new ≡ unwrap_or found output.old }
{
    match found {
        Some(it) => {
            *output = it;
            true
        }
        None => false,
    }
}

/// Returns the chunk at an offset, with this value, and this rest after it.
#[inline(always)]
pub(crate) fn framed_chunk(bytes: &[u8], offset: usize, value: &[u8], rest: &[u8]) -> DcsctpChunk
    requires frame { BeginsWithFrame (drop offset bytes.now) }
    requires value { value.now ≡ frame_value (drop offset bytes.now) }
    requires rest { rest.now ≡ frame_rest (drop offset bytes.now) }
    ensures chunk { IsChunkAt bytes.now offset result }
    ensures size { result.value_size ≡ length value.now }
    ensures within { result.value_offset + length value.now ≤ length bytes.now }
{
    let (_, from) = bytes.split_at(offset);
    DcsctpChunk {
        typ: from[0],
        flags: from[1],
        value_offset: offset + TLV_HEADER_SIZE,
        value_size: value.len(),
        next: bytes.len() - rest.len(),
    }
}

/// Returns a part of the bytes, if all of it lies within them.
#[inline(always)]
pub(crate) fn part_at(bytes: &[u8], offset: usize, size: usize) -> Option<&[u8]>
    ensures { option_map (λ value. value.now) result ≡ part_at bytes.now offset size }
{
    // a sum of the offset and the size could overflow
    if offset > bytes.len() || size > bytes.len() - offset {
        return None;
    }
    let (_, from) = bytes.split_at(offset);
    let (value, _) = from.split_at(size);
    Some(value)
}

/// Returns the chunk's value, if all of it lies within the bytes.
#[inline(always)]
pub(crate) fn value_of<'a>(bytes: &'a [u8], chunk: &DcsctpChunk) -> Option<&'a [u8]>
    ensures { option_map (λ value. value.now) result ≡ value_at bytes.now chunk.now }
{
    part_at(bytes, chunk.value_offset, chunk.value_size)
}

/// Reads the user data, and where its payload is.
#[inline(always)]
fn read_data(bytes: &[u8], chunk: &DcsctpChunk) -> Option<DcsctpData>
    ensures { Reads (HoldsData bytes.now chunk.now) (data_at bytes.now chunk.now) result }
{
    data_in(chunk, value_of(bytes, chunk)?)
}

/// Reads the user data of a chunk with this value, and where its payload is.
#[inline(always)]
pub(crate) fn data_in(chunk: &DcsctpChunk, value: &[u8]) -> Option<DcsctpData>
    requires { chunk.now.value_offset + length value.now < 2 ^ 64 }
    ensures { (bytes : List ℕ) → value_at bytes chunk.now ≡ Some value.now
        → Reads (HoldsData bytes chunk.now) (data_at bytes chunk.now) result }
{
    let raw = RawChunk {
        typ: chunk.typ,
        flags: chunk.flags,
        value,
    };
    let found = UserData::from_raw(&raw)?;
    Some(DcsctpData {
        tsn: found.tsn.0,
        mid: found.mid.0,
        fsn: found.fsn.0,
        ppid: found.ppid.0,
        stream: found.stream_key.id().0,
        ssn: found.ssn.0,
        is_unordered: found.stream_key.is_unordered(),
        is_beginning: found.is_beginning,
        is_end: found.is_end,
        immediate_ack: found.immediate_ack,
        payload_offset: chunk.value_offset + (value.len() - found.payload.len()),
        payload_size: found.payload.len(),
    })
}

/// Returns the SACK where it lies.
#[inline(always)]
pub(crate) fn sack_ref<'a>(bytes: &'a [u8], chunk: &DcsctpChunk) -> Option<SackRef<'a>>
    ensures read { result ≡ sack_at bytes.now chunk.now }
    ensures means { (tree : ChunkTree) → ChunkMeans bytes.now chunk.now tree
        → sack_at bytes.now chunk.now ≡ sack_of tree }
{
    let value = value_of(bytes, chunk)?;
    SackRef::from_raw(&RawChunk {
        typ: chunk.typ,
        flags: chunk.flags,
        value,
    })
}

/// Returns its numbers as their struct.
#[inline(always)]
pub(crate) fn sack_struct(found: &SackRef<'_>) -> DcsctpSack
    ensures { HoldsSack found.now result }
{
    DcsctpSack {
        cumulative_tsn_ack: found.cumulative_tsn_ack().0,
        a_rwnd: found.a_rwnd(),
        block_count: found.gap_ack_block_count(),
        duplicate_count: found.duplicate_tsn_count(),
    }
}

/// Reads the gap ack block.
#[inline(always)]
fn read_block(bytes: &[u8], chunk: &DcsctpChunk, index: usize) -> Option<GapAckBlock>
    ensures read { Reads Holds (block_at index (sack_at bytes.now chunk.now)) result }
    ensures means { (tree : ChunkTree) → ChunkMeans bytes.now chunk.now tree
        → sack_at bytes.now chunk.now ≡ sack_of tree }
{
    let sack = sack_ref(bytes, chunk)?;
    if index >= sack.gap_ack_block_count() {
        return None;
    }
    Some(sack.gap_ack_block(index))
}

/// Reads the duplicate TSN.
#[inline(always)]
fn read_duplicate(bytes: &[u8], chunk: &DcsctpChunk, index: usize) -> Option<u32>
    ensures read { Reads Holds (duplicate_at index (sack_at bytes.now chunk.now)) result }
    ensures means { (tree : ChunkTree) → ChunkMeans bytes.now chunk.now tree
        → sack_at bytes.now chunk.now ≡ sack_of tree }
{
    let sack = sack_ref(bytes, chunk)?;
    if index >= sack.duplicate_tsn_count() {
        return None;
    }
    Some(sack.duplicate_tsn(index).0)
}

/// Reads the numbers before the parameters.
#[inline(always)]
fn read_init(bytes: &[u8], chunk: &DcsctpChunk) -> Option<DcsctpInit>
    ensures { Reads HoldsInit (init_at bytes.now chunk.now) result }
{
    init_in(chunk.typ, value_of(bytes, chunk)?)
}

/// Reads the numbers before the parameters of a chunk of this type with this value.
#[inline(always)]
pub(crate) fn init_in(typ: u8, value: &[u8]) -> Option<DcsctpInit>
    ensures { Reads HoldsInit (read_init typ value.now) result }
{
    if typ != init_chunk::CHUNK_TYPE && typ != init_ack_chunk::CHUNK_TYPE {
        return None;
    }
    if value.len() < InitNumbers::SIZE {
        return None;
    }
    let numbers = InitNumbers::read(value);
    Some(DcsctpInit {
        initiate_tag: numbers.initiate_tag,
        a_rwnd: numbers.a_rwnd,
        outbound_streams: numbers.nbr_outbound_streams,
        inbound_streams: numbers.nbr_inbound_streams,
        initial_tsn: numbers.initial_tsn.0,
    })
}

/// Reads the cumulative TSN ack.
#[inline(always)]
fn read_shutdown(bytes: &[u8], chunk: &DcsctpChunk) -> Option<u32>
    ensures read { result ≡ shutdown_at bytes.now chunk.now }
    ensures means { (tree : ChunkTree) → ChunkMeans bytes.now chunk.now tree
        → shutdown_at bytes.now chunk.now ≡ shutdown_of tree }
{
    shutdown_in(chunk.typ, value_of(bytes, chunk)?)
}

/// Reads the cumulative TSN ack of a chunk of this type with this value.
#[inline(always)]
pub(crate) fn shutdown_in(typ: u8, value: &[u8]) -> Option<u32>
    ensures { result ≡ read_shutdown typ value.now }
{
    match typ {
        shutdown_chunk::CHUNK_TYPE => read_number(value),
        _ => None,
    }
}

/// Reads a value that is one number.
#[inline(always)]
pub(crate) fn read_number(value: &[u8]) -> Option<u32>
    ensures { result ≡ read_number value.now }
{
    if value.len() != NUMBER_SIZE {
        return None;
    }
    Some(read_u32_be(value))
}

/// Returns the FORWARD-TSN or I-FORWARD-TSN where it lies.
#[inline(always)]
pub(crate) fn forward_ref<'a>(bytes: &'a [u8], chunk: &DcsctpChunk) -> Option<ForwardTsnRef<'a>>
    ensures read { result ≡ forward_at bytes.now chunk.now }
    ensures means { (tree : ChunkTree) → ChunkMeans bytes.now chunk.now tree
        → forward_at bytes.now chunk.now ≡ forward_of tree }
{
    let value = value_of(bytes, chunk)?;
    ForwardTsnRef::from_raw(&RawChunk {
        typ: chunk.typ,
        flags: chunk.flags,
        value,
    })
}

/// Returns its numbers as their struct.
#[inline(always)]
pub(crate) fn forward_struct(found: &ForwardTsnRef<'_>) -> DcsctpForwardTsn
    ensures { HoldsForward found.now result }
{
    DcsctpForwardTsn {
        new_cumulative_tsn: found.new_cumulative_tsn().0,
        stream_count: found.skipped_stream_count(),
    }
}

/// Reads the skipped stream.
#[inline(always)]
fn read_skipped(bytes: &[u8], chunk: &DcsctpChunk, index: usize) -> Option<DcsctpSkippedStream>
    ensures read { Reads HoldsSkipped (skipped_at index (forward_at bytes.now chunk.now)) result }
    ensures means { (tree : ChunkTree) → ChunkMeans bytes.now chunk.now tree
        → forward_at bytes.now chunk.now ≡ forward_of tree }
{
    let forward = forward_ref(bytes, chunk)?;
    if index >= forward.skipped_stream_count() {
        return None;
    }
    Some(skipped_stream_of(forward.skipped_stream(index)))
}

/// Returns the stream as its struct.
#[inline(always)]
pub(crate) fn skipped_stream_of(stream: SkippedStream) -> DcsctpSkippedStream
    ensures { HoldsSkipped (skipped_stream_view stream) result }
{
    match stream {
        SkippedStream::ForwardTsn(stream, ssn) => DcsctpSkippedStream {
            stream: stream.0,
            ssn: ssn.0,
            mid: 0,
            is_unordered: false,
        },
        SkippedStream::IForwardTsn(key, mid) => DcsctpSkippedStream {
            stream: key.id().0,
            ssn: 0,
            mid: mid.0,
            is_unordered: key.is_unordered(),
        },
    }
}
