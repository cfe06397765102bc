//! A packet in one call: checked, and a row written for each of its chunks.

ghost use Rattle.std.specs.Prelude.{◌≡◌, ◌≢◌, ◌≤◌, ◌<◌, ◌+◌, ◌^◌, ℕ, List, Some, None, false, length, take, drop, slice_set};
ghost use Rattle.dcsctp_tlv.specs.{Frame.{lenient}, Level.{MeansTrees, MeansSome}};
ghost use Rattle.dcsctp_wire.specs.{Chunk.{ChunkTree, chunks}, Packet.{body}};
ghost use Rattle.dcsctp_borrowed.specs.{Sack.{read_sack}, SkippedStreams.{read_forward}, UserData.{read_user_data}};
ghost use Rattle.dcsctp_c.specs.declared.structs.DcsctpRow.{DcsctpRow};
ghost use Rattle.dcsctp_c.specs.{Code.{policy_of}, Part.{value_at, read_init, read_shutdown}, Row.{row_after, data_row, sack_row, init_row, forward_row, shutdown_row, IsRow, IsRowAt, AreRows, MeanChunks, IsReading}};

use crate::codes::{OK, code_of};
use crate::packet::checksum_policy;
use crate::parts::{
    NUMBER_SIZE, data_in, dcsctp_header, forward_struct, framed_chunk, init_in, sack_struct,
    shutdown_in,
};
use crate::structs::{
    DcsctpChunk, DcsctpData, DcsctpForwardTsn, DcsctpInit, DcsctpPacket, DcsctpPolicy, DcsctpRow,
    DcsctpSack,
};
use dcsctp_borrowed::forward_tsn_ref::ForwardTsnRef;
use dcsctp_borrowed::sack_ref::SackRef;
use dcsctp_chunk::sack_chunk::SackNumbers;
use dcsctp_tlv::frame::frame_parts;
use dcsctp_wire::packet::init_chunk::{self, InitNumbers};
use dcsctp_wire::packet::raw_chunk::RawChunk;
use dcsctp_wire::packet::sctp_packet::{COMMON_HEADER_SIZE, SctpPacket};
use dcsctp_wire::packet::{
    data_chunk, forward_tsn_chunk, idata_chunk, iforward_tsn_chunk, init_ack_chunk, sack_chunk,
    shutdown_chunk,
};

/// Checks a packet, and writes its header, how many chunks it has, and a row for each chunk to the
/// front of `rows`: as many as have room. Does not allocate.
///
/// Returns 0, or the code of the first fault, which is written too, with its offset. Then the
/// number of chunks is 0, and header and rows stay. The rows after those of the packet stay too.
#[unsafe(no_mangle)]
pub extern "C" fn dcsctp_read(
    bytes: &[u8],
    word: u32,
    policy: &DcsctpPolicy,
    rows: &mut [DcsctpRow],
    packet: &mut DcsctpPacket,
) -> u32
    ensures code { result ≡ packet.new.code }
    ensures reading { IsReading bytes.now word (policy_of policy.now) packet.new rows.new }
    ensures after { drop packet.new.chunk_count rows.new ≡ drop packet.new.chunk_count rows.old }
    ensures faulty { result ≢ 0 → packet.new.header ≡ packet.old.header }
{
    match SctpPacket::first_fault(bytes, word, &checksum_policy(policy)) {
        None => {
            dcsctp_header(bytes, &mut packet.header);
            packet.code = OK;
            packet.chunk_count = write_rows(bytes, rows);
            packet.fault_offset = bytes.len();
            OK
        }
        Some(found) => {
            let code = code_of(found.fault);
            packet.code = code;
            packet.chunk_count = 0;
            packet.fault_offset = found.offset;
            code
        }
    }
}

// ---- helpers

/// Writes the rows of the chunks of a packet, as many as have room. Returns how many chunks there
/// are.
#[inline(always)]
fn write_rows(bytes: &[u8], rows: &mut [DcsctpRow]) -> usize
    requires size { 12 ≤ length bytes.now }
    requires meant { MeansSome (chunks lenient) (body bytes.now) }
    ensures rows { AreRows bytes.now (take result rows.new) }
    ensures means { (trees : List ChunkTree) → MeansTrees (chunks lenient) (body bytes.now) trees
        → (result ≡ length trees) × MeanChunks bytes.now (take result rows.new) trees }
    ensures after { drop result rows.new ≡ drop result rows.old }
{
    let mut offset = COMMON_HEADER_SIZE;
    let mut count = 0;
    while offset < bytes.len() {
        offset = put_row_at(bytes, offset, rows, count);
        count += 1;
    }
    count
}

/// Writes an item to its place in an array, if it has room.
#[inline(always)]
#[tactic(auto, using(std::proofs::lemmas::List::set_past))]
pub(crate) fn put_item<T: Copy>(items: &mut [T], index: usize, item: T)
    ensures { items.new ≡ slice_set items.old index item }
{
    if index < items.len() {
        items[index] = item;
    }
}

/// Writes the row of the chunk at an offset, which is known to be there, to its place in an array,
/// if it has room. Returns the offset of the next chunk.
#[inline(always)]
fn put_row_at(bytes: &[u8], offset: usize, rows: &mut [DcsctpRow], index: usize) -> usize
    requires within { offset < length bytes.now }
    requires meant { MeansSome (chunks lenient) (drop offset bytes.now) }
    ensures { (row : DcsctpRow) × IsRowAt bytes.now offset row × (result ≡ row.chunk.next)
        × (rows.new ≡ slice_set rows.old index row) }
{
    let (_, from) = bytes.split_at(offset);
    let (value, rest) = frame_parts(from);
    let chunk = framed_chunk(bytes, offset, value, rest);
    put_row(rows, index, &chunk, value);
    chunk.next
}

/// Writes the row of a chunk with this value to its place in an array, if it has room.
#[inline(always)]
fn put_row(rows: &mut [DcsctpRow], index: usize, chunk: &DcsctpChunk, value: &[u8])
    requires size { chunk.now.value_size ≡ length value.now }
    requires fits { chunk.now.value_offset + length value.now < 2 ^ 64 }
    ensures { (bytes : List ℕ) → value_at bytes chunk.now ≡ Some value.now
        → (row : DcsctpRow) × (row.chunk ≡ chunk.now) × IsRow bytes chunk.now row
        × (rows.new ≡ slice_set rows.old index row) }
{
    // each kind writes its own row: to join them first takes longer
    if let Some(found) = data_in(chunk, value) {
        return put_item(rows, index, data_row(chunk, &found));
    }
    if !has_numbers(chunk.typ) {
        return put_item(rows, index, row_after(0, chunk));
    }
    let raw = RawChunk {
        typ: chunk.typ,
        flags: chunk.flags,
        value,
    };
    if let Some(found) = SackRef::from_raw(&raw) {
        return put_item(rows, index, sack_row(chunk, &sack_struct(&found)));
    }
    if let Some(found) = init_in(chunk.typ, value) {
        return put_item(rows, index, init_row(chunk, &found));
    }
    if let Some(found) = ForwardTsnRef::from_raw(&raw) {
        return put_item(rows, index, forward_row(chunk, &forward_struct(&found)));
    }
    match shutdown_in(chunk.typ, value) {
        Some(tsn) => put_item(rows, index, shutdown_row(chunk, tsn)),
        None => put_item(rows, index, row_after(0, chunk)),
    }
}

/// Returns whether a chunk of this type can have numbers in its row.
#[inline(always)]
fn has_numbers(typ: u8) -> bool
    ensures data { result ≡ false → (flags : ℕ) (value : List ℕ)
        → read_user_data typ flags value ≡ None }
    ensures sack { result ≡ false → (value : List ℕ) → read_sack typ value ≡ None }
    ensures init { result ≡ false → (value : List ℕ) → read_init typ value ≡ None }
    ensures forward { result ≡ false → (value : List ℕ) → read_forward typ value ≡ None }
    ensures shutdown { result ≡ false → (value : List ℕ) → read_shutdown typ value ≡ None }
{
    match typ {
        data_chunk::CHUNK_TYPE
        | init_chunk::CHUNK_TYPE
        | init_ack_chunk::CHUNK_TYPE
        | sack_chunk::CHUNK_TYPE
        | shutdown_chunk::CHUNK_TYPE
        | idata_chunk::CHUNK_TYPE
        | forward_tsn_chunk::CHUNK_TYPE
        | iforward_tsn_chunk::CHUNK_TYPE => true,
        _ => false,
    }
}

/// Returns the row of a chunk whose value begins with `size` bytes of numbers, all of them 0.
#[inline(always)]
fn row_after(size: usize, chunk: &DcsctpChunk) -> DcsctpRow
    requires { chunk.now.value_offset + chunk.now.value_size < 2 ^ 64 }
    ensures { result ≡ row_after size chunk.now }
{
    DcsctpRow {
        chunk: *chunk,
        rest_offset: chunk.value_offset + size.min(chunk.value_size),
        rest_size: chunk.value_size.saturating_sub(size),
        count: 0,
        duplicate_count: 0,
        tsn: 0,
        a_rwnd: 0,
        initiate_tag: 0,
        mid: 0,
        fsn: 0,
        ppid: 0,
        stream: 0,
        ssn: 0,
        outbound_streams: 0,
        inbound_streams: 0,
        is_unordered: false,
        is_beginning: false,
        is_end: false,
        immediate_ack: false,
    }
}

/// Returns the row of DATA or I-DATA.
#[inline(always)]
fn data_row(chunk: &DcsctpChunk, found: &DcsctpData) -> DcsctpRow
    requires { chunk.now.value_offset + chunk.now.value_size < 2 ^ 64 }
    ensures { result ≡ data_row chunk.now found.now }
{
    DcsctpRow {
        rest_offset: found.payload_offset,
        rest_size: found.payload_size,
        tsn: found.tsn,
        mid: found.mid,
        fsn: found.fsn,
        ppid: found.ppid,
        stream: found.stream,
        ssn: found.ssn,
        is_unordered: found.is_unordered,
        is_beginning: found.is_beginning,
        is_end: found.is_end,
        immediate_ack: found.immediate_ack,
        ..row_after(0, chunk)
    }
}

/// Returns the row of a SACK.
#[inline(always)]
fn sack_row(chunk: &DcsctpChunk, found: &DcsctpSack) -> DcsctpRow
    requires { chunk.now.value_offset + chunk.now.value_size < 2 ^ 64 }
    ensures { result ≡ sack_row chunk.now found.now }
{
    DcsctpRow {
        count: found.block_count,
        duplicate_count: found.duplicate_count,
        tsn: found.cumulative_tsn_ack,
        a_rwnd: found.a_rwnd,
        ..row_after(SackNumbers::SIZE, chunk)
    }
}

/// Returns the row of INIT or INIT ACK.
#[inline(always)]
fn init_row(chunk: &DcsctpChunk, found: &DcsctpInit) -> DcsctpRow
    requires { chunk.now.value_offset + chunk.now.value_size < 2 ^ 64 }
    ensures { result ≡ init_row chunk.now found.now }
{
    DcsctpRow {
        tsn: found.initial_tsn,
        a_rwnd: found.a_rwnd,
        initiate_tag: found.initiate_tag,
        outbound_streams: found.outbound_streams,
        inbound_streams: found.inbound_streams,
        ..row_after(InitNumbers::SIZE, chunk)
    }
}

/// Returns the row of FORWARD-TSN or I-FORWARD-TSN.
#[inline(always)]
fn forward_row(chunk: &DcsctpChunk, found: &DcsctpForwardTsn) -> DcsctpRow
    requires { chunk.now.value_offset + chunk.now.value_size < 2 ^ 64 }
    ensures { result ≡ forward_row chunk.now found.now }
{
    DcsctpRow {
        count: found.stream_count,
        tsn: found.new_cumulative_tsn,
        ..row_after(NUMBER_SIZE, chunk)
    }
}

/// Returns the row of SHUTDOWN.
#[inline(always)]
fn shutdown_row(chunk: &DcsctpChunk, tsn: u32) -> DcsctpRow
    requires { chunk.now.value_offset + chunk.now.value_size < 2 ^ 64 }
    ensures { result ≡ shutdown_row chunk.now tsn }
{
    DcsctpRow {
        tsn,
        ..row_after(NUMBER_SIZE, chunk)
    }
}
