//! The lists of a chunk, a parameter or an error cause, each written to an array in one call.
//!
//! Each call returns how many items there are, 0 where there is no such list. Those that have room
//! are written to the front of the array, in their order, and what lies after them stays.

ghost use Rattle.std.specs.{Prelude.{◌≡◌, ◌≤◌, List, Some, drop}, Option.{option_and_then}};
ghost use Rattle.dcsctp_tlv.specs.{Frame.{lenient}, Level.{MeansTrees}, Parameter.{ParameterTree, parameters}};
ghost use Rattle.dcsctp_cause.specs.Cause.{CauseTree, causes};
ghost use Rattle.dcsctp_wire.specs.Chunk.{ChunkTree};
ghost use Rattle.dcsctp_borrowed.specs.{MissingParameters.{missing_of}, RawCauses.{causes_of}, RawParameters.{parameters_of}, Sack.{sack_of}, SkippedStreams.{forward_of}};
ghost use Rattle.dcsctp_c.specs.{Part.{Holds, ChunkMeans, sack_at, forward_at, HoldsSkipped}, Parameter.{ParameterMeans, CauseMeans, short_numbers_at}, ReConfig.{re_config_at, reset_streams, missing_at}, Fill.{Fills, blocks_in, duplicates_in, skipped_in, numbers_in, AreParameters, WritesItems, WritesParameters}};
ghost use Rattle.dcsctp_c.specs.declared.structs.DcsctpParameter.{DcsctpParameter};

use crate::parameters::{dcsctp_list_offset, item_at, short_numbers_in, up_to_end};
use crate::parts::{forward_ref, sack_ref, skipped_stream_of};
use crate::re_config::{missing, reset_streams};
use crate::read::put_item;
use crate::structs::{DcsctpChunk, DcsctpParameter, DcsctpSkippedStream};
use dcsctp_borrowed::forward_tsn_ref::ForwardTsnRef;
use dcsctp_borrowed::numbers::Numbers;
use dcsctp_borrowed::sack_ref::SackRef;
use dcsctp_chunk::sack_chunk::GapAckBlock;

/// Writes a SACK's gap ack blocks (RFC 9260 section 3.3.4), as many as have room. Returns how many
/// it has: 0 where `dcsctp_sack` returns false. The rest of `blocks` stays.
#[unsafe(no_mangle)]
pub extern "C" fn dcsctp_gap_ack_blocks(
    bytes: &[u8],
    chunk: &DcsctpChunk,
    blocks: &mut [GapAckBlock],
) -> usize
    ensures read { Fills Holds (blocks_in (sack_at bytes.now chunk.now))
        blocks.old blocks.new result }
    ensures means { (tree : ChunkTree) → ChunkMeans bytes.now chunk.now tree
        → Fills Holds (blocks_in (sack_of tree)) blocks.old blocks.new result }
{
    match sack_ref(bytes, chunk) {
        Some(sack) => write_blocks(&sack, blocks),
        None => 0,
    }
}

/// Writes a SACK's duplicate TSNs, as many as have room. Returns how many it has: 0 where
/// `dcsctp_sack` returns false. The rest of `tsns` stays.
#[unsafe(no_mangle)]
pub extern "C" fn dcsctp_duplicate_tsns(
    bytes: &[u8],
    chunk: &DcsctpChunk,
    tsns: &mut [u32],
) -> usize
    ensures read { Fills Holds (duplicates_in (sack_at bytes.now chunk.now))
        tsns.old tsns.new result }
    ensures means { (tree : ChunkTree) → ChunkMeans bytes.now chunk.now tree
        → Fills Holds (duplicates_in (sack_of tree)) tsns.old tsns.new result }
{
    match sack_ref(bytes, chunk) {
        Some(sack) => write_duplicates(&sack, tsns),
        None => 0,
    }
}

/// Writes the skipped streams of FORWARD-TSN (RFC 3758 section 3.2) or I-FORWARD-TSN (RFC 8260
/// section 2.3.1), as many as have room. Returns how many the chunk has: 0 where
/// `dcsctp_forward_tsn` returns false. The rest of `skipped_streams` stays.
#[unsafe(no_mangle)]
pub extern "C" fn dcsctp_skipped_streams(
    bytes: &[u8],
    chunk: &DcsctpChunk,
    skipped_streams: &mut [DcsctpSkippedStream],
) -> usize
    ensures read { Fills HoldsSkipped (skipped_in (forward_at bytes.now chunk.now))
        skipped_streams.old skipped_streams.new result }
    ensures means { (tree : ChunkTree) → ChunkMeans bytes.now chunk.now tree
        → Fills HoldsSkipped (skipped_in (forward_of tree))
        skipped_streams.old skipped_streams.new result }
{
    match forward_ref(bytes, chunk) {
        Some(forward) => write_skipped(&forward, skipped_streams),
        None => 0,
    }
}

/// Writes the streams of an Outgoing SSN Reset Request (RFC 6525 section 4.1) or an Incoming one
/// (section 4.2), as many as have room. Returns how many the request names: 0 if it is for all of
/// them, and where `dcsctp_re_config` returns false, or reads something else. The rest of `streams`
/// stays.
#[unsafe(no_mangle)]
pub extern "C" fn dcsctp_reset_streams(
    bytes: &[u8],
    parameter: &DcsctpParameter,
    streams: &mut [u16],
) -> usize
    ensures read { Fills Holds
        (numbers_in (option_and_then reset_streams (re_config_at bytes.now parameter.now)))
        streams.old streams.new result }
    ensures means { (tree : ParameterTree) → ParameterMeans bytes.now parameter.now tree
        → Fills Holds (numbers_in (reset_streams tree)) streams.old streams.new result }
{
    match reset_streams(bytes, parameter) {
        Some(numbers) => write_numbers(&numbers, streams),
        None => 0,
    }
}

/// Writes the types of the cause Missing Mandatory Parameter (RFC 9260 section 3.3.10.2), as many
/// as have room. Returns how many it names: 0 where the cause has another code, its value isn't as
/// long as its count says, or it does not lie within the bytes. The rest of `types` stays.
#[unsafe(no_mangle)]
pub extern "C" fn dcsctp_missing_parameters(
    bytes: &[u8],
    cause: &DcsctpParameter,
    types: &mut [u16],
) -> usize
    ensures read { Fills Holds (numbers_in (missing_at bytes.now cause.now))
        types.old types.new result }
    ensures means { (tree : CauseTree) → CauseMeans bytes.now cause.now tree
        → Fills Holds (numbers_in (missing_of tree)) types.old types.new result }
{
    match missing(bytes, cause) {
        Some(numbers) => write_numbers(&numbers, types),
        None => 0,
    }
}

/// Writes the numbers of two bytes each that a value is, whatever its type, as many as have room:
/// the types of Supported Address Types (RFC 9260 section 3.3.2.1.5), the identifiers of Requested
/// HMAC Algorithm (RFC 4895 section 3.3). Returns how many they are: 0 where the value's size is
/// odd, or it does not lie within the bytes. The rest of `numbers` stays.
#[unsafe(no_mangle)]
pub extern "C" fn dcsctp_short_numbers(
    bytes: &[u8],
    parameter: &DcsctpParameter,
    numbers: &mut [u16],
) -> usize
    ensures { Fills Holds (numbers_in (short_numbers_at bytes.now parameter.now))
        numbers.old numbers.new result }
{
    match short_numbers_in(bytes, parameter) {
        Some(found) => write_numbers(&found, numbers),
        None => 0,
    }
}

/// Writes the parameters (RFC 9260 section 3.2.1) or the error causes (section 3.3.10) of a chunk,
/// each as `dcsctp_parameter_at` reads it, as many as have room. Returns how many there are from
/// the offset of `dcsctp_list_offset` on: 0 if the chunk's type has none, or its value does not lie
/// within the bytes. The rest of `parameters` stays.
#[unsafe(no_mangle)]
pub extern "C" fn dcsctp_parameters(
    bytes: &[u8],
    chunk: &DcsctpChunk,
    parameters: &mut [DcsctpParameter],
) -> usize
    ensures read { WritesParameters bytes.now chunk.now parameters.old parameters.new result }
    ensures of_parameters { (tree : ChunkTree) (trees : List ParameterTree)
        → ChunkMeans bytes.now chunk.now tree → parameters_of tree ≡ Some trees
        → Fills (λ t p. ParameterMeans bytes.now p t) trees
        parameters.old parameters.new result }
    ensures of_causes { (tree : ChunkTree) (trees : List CauseTree)
        → ChunkMeans bytes.now chunk.now tree → causes_of tree ≡ Some trees
        → Fills (λ t p. CauseMeans bytes.now p t) trees parameters.old parameters.new result }
{
    write_parameters(bytes, chunk, dcsctp_list_offset(chunk), parameters)
}

/// Writes the parameters (RFC 9260 section 3.2.1) or the error causes (section 3.3.10) from an
/// offset of bytes on, each as `dcsctp_item_at` reads it, as many as have room. Returns how many
/// there are, up to the end of the bytes or to where none begins. The rest of `items` stays.
#[unsafe(no_mangle)]
pub extern "C" fn dcsctp_items(bytes: &[u8], offset: usize, items: &mut [DcsctpParameter]) -> usize
    ensures read { WritesItems bytes.now offset items.old items.new result }
    ensures of_parameters { (trees : List ParameterTree)
        → MeansTrees (parameters lenient) (drop offset bytes.now) trees
        → Fills (λ t p. ParameterMeans bytes.now p t) trees items.old items.new result }
    ensures of_causes { (trees : List CauseTree)
        → MeansTrees (causes lenient) (drop offset bytes.now) trees
        → Fills (λ t p. CauseMeans bytes.now p t) trees items.old items.new result }
{
    write_items(bytes, offset, items)
}

// ---- helpers

/// Writes the blocks, and returns how many there are.
#[inline(always)]
fn write_blocks(sack: &SackRef<'_>, blocks: &mut [GapAckBlock]) -> usize
    ensures { Fills Holds sack.now.blocks blocks.old blocks.new result }
{
    let count = sack.gap_ack_block_count();
    for index in 0..count.min(blocks.len()) {
        blocks[index] = sack.gap_ack_block(index);
    }
    count
}

/// Writes the duplicate TSNs, and returns how many there are.
#[inline(always)]
fn write_duplicates(sack: &SackRef<'_>, tsns: &mut [u32]) -> usize
    ensures { Fills Holds sack.now.duplicates tsns.old tsns.new result }
{
    let count = sack.duplicate_tsn_count();
    for index in 0..count.min(tsns.len()) {
        tsns[index] = sack.duplicate_tsn(index).0;
    }
    count
}

/// Writes the skipped streams, and returns how many there are.
#[inline(always)]
fn write_skipped(forward: &ForwardTsnRef<'_>, skipped_streams: &mut [DcsctpSkippedStream]) -> usize
    ensures { Fills HoldsSkipped forward.now.streams
        skipped_streams.old skipped_streams.new result }
{
    let count = forward.skipped_stream_count();
    for index in 0..count.min(skipped_streams.len()) {
        skipped_streams[index] = skipped_stream_of(forward.skipped_stream(index));
    }
    count
}

/// Writes the numbers, and returns how many there are.
#[inline(always)]
fn write_numbers(numbers: &Numbers<'_>, output: &mut [u16]) -> usize
    ensures { Fills Holds numbers.now output.old output.new result }
{
    let count = numbers.count();
    for index in 0..count.min(output.len()) {
        output[index] = numbers.number(index);
    }
    count
}

/// Writes the parameters or the error causes of a chunk's value from an offset on, and returns how
/// many there are.
#[inline(always)]
fn write_parameters(
    bytes: &[u8],
    chunk: &DcsctpChunk,
    start: usize,
    parameters: &mut [DcsctpParameter],
) -> usize
    requires { chunk.now.value_offset ≤ start }
    ensures { (all : List DcsctpParameter) × AreParameters bytes.now chunk.now start all
        × Fills Holds all parameters.old parameters.new result }
{
    match up_to_end(bytes, chunk) {
        Some(list) => write_items(list, start, parameters),
        None => 0,
    }
}

/// Writes the parameters or the error causes from an offset on, and returns how many there are.
#[inline(always)]
fn write_items(bytes: &[u8], start: usize, items: &mut [DcsctpParameter]) -> usize
    ensures { WritesItems bytes.now start items.old items.new result }
{
    let mut offset = start;
    let mut count = 0;
    while let Some(item) = item_at(bytes, offset) {
        offset = item.next;
        put_item(items, count, item);
        count += 1;
    }
    count
}
