//! A packet that is read in its bytes, without memory.

ghost use Rattle.std.specs.Prelude.{◌≡◌, ℕ, List, Ok};
ghost use Rattle.dcsctp_wire.specs.Chunk.{ChunkTree};
ghost use Rattle.dcsctp_wire.specs.Packet.{PacketTree, Answer, IsPacket};
ghost use Rattle.dcsctp_borrowed.specs.RawChunks.{RawMeans};
ghost use Rattle.dcsctp_borrowed.specs.UserData.{user_data_view};
ghost use Rattle.test_callers.specs.Walk as spec;

use crate::probes::ANY_CHECKSUM;
use dcsctp_borrowed::checked_chunks::CheckedChunk;
use dcsctp_borrowed::packet_ref::SctpPacketRef;
use dcsctp_borrowed::sack_ref::SackRef;
use dcsctp_borrowed::user_data::UserData;
use dcsctp_wire::packet::data_chunk;

/// Reads a packet in its bytes, and adds up every number of its DATA, I-DATA and SACK, and 1 for
/// each other chunk, modulo 2^64; 0 where the bytes are no packet. Does not allocate.
#[unsafe(no_mangle)]
pub extern "C" fn probes_walk(bytes: &[u8]) -> u64
    ensures packet { (p : PacketTree) → Answer bytes.now 0 ANY_CHECKSUM (Ok p)
        → result ≡ spec.with_chunks 0 p.meaning.chunks }
    ensures none { ¬ IsPacket bytes.now 0 ANY_CHECKSUM → result ≡ 0 }
{
    match SctpPacketRef::from_bytes(bytes, 0, &ANY_CHECKSUM) {
        Ok(packet) => {
            let mut sum = 0;
            for chunk in packet.chunks.checked() {
                sum = with_chunk(sum, &chunk);
            }
            sum
        }
        Err(_) => 0,
    }
}

/// Adds the numbers of a chunk, or 1 where it is of another kind.
// DATA is a case of its own, so that its sum leaves out what I-DATA alone carries.
#[inline(always)]
fn with_chunk(sum: u64, chunk: &CheckedChunk) -> u64
    ensures { (tree : ChunkTree) → RawMeans chunk.now tree → result ≡ spec.with_chunk sum tree }
{
    match chunk.chunk_type() {
        data_chunk::CHUNK_TYPE => with_user_data_or_sack(sum, chunk),
        _ => with_sack_or_user_data(sum, chunk),
    }
}

/// Adds the numbers of a chunk, which is user data more often than a SACK.
#[inline(always)]
fn with_user_data_or_sack(sum: u64, chunk: &CheckedChunk) -> u64
    ensures { (tree : ChunkTree) → RawMeans chunk.now tree → result ≡ spec.with_chunk sum tree }
{
    if let Some(data) = chunk.as_user_data() {
        return with_data(sum, &data);
    }
    match chunk.as_sack() {
        Some(sack) => with_sack(sum, &sack),
        None => sum.wrapping_add(1),
    }
}

/// Adds the numbers of a chunk, which is a SACK more often than user data.
#[inline(always)]
fn with_sack_or_user_data(sum: u64, chunk: &CheckedChunk) -> u64
    ensures { (tree : ChunkTree) → RawMeans chunk.now tree → result ≡ spec.with_chunk sum tree }
{
    if let Some(sack) = chunk.as_sack() {
        return with_sack(sum, &sack);
    }
    match chunk.as_user_data() {
        Some(data) => with_data(sum, &data),
        None => sum.wrapping_add(1),
    }
}

/// Adds the numbers of user data, and its payload's length.
#[inline(always)]
fn with_data(sum: u64, user_data: &UserData) -> u64
    ensures { result ≡ spec.with_data sum (user_data_view user_data.now) }
{
    let places = user_data.tsn.0 as u64
        + user_data.stream_key.id().0 as u64
        + user_data.ssn.0 as u64;
    let numbers = places
        + user_data.mid.0 as u64
        + user_data.fsn.0 as u64
        + user_data.ppid.0 as u64;
    let unordered = user_data.stream_key.is_unordered() as u64;
    let ends = user_data.is_beginning as u64 + user_data.is_end as u64;
    let all = numbers + unordered + ends + user_data.immediate_ack as u64;
    sum.wrapping_add(all)
        .wrapping_add(user_data.payload.len() as u64)
}

/// Adds the numbers of a SACK, its blocks and its duplicate TSNs.
#[inline(always)]
fn with_sack(sum: u64, sack: &SackRef) -> u64
    ensures { result ≡ spec.with_sack sum sack.now }
{
    let numbers = sack.cumulative_tsn_ack().0 as u64 + sack.a_rwnd() as u64;
    let mut sum = with_blocks(sum.wrapping_add(numbers), sack);
    for tsn in sack.duplicate_tsns() {
        sum = sum.wrapping_add(tsn.0 as u64);
    }
    sum
}

/// Adds the starts and the ends of a SACK's gap ack blocks.
// 65,535 numbers of 16 bits have a sum of 32 bits, and an instruction adds four of those. The two
// numbers of a block are added as one, as they are read: less the starts, that sum is the ends'.
#[inline(always)]
fn with_blocks(sum: u64, sack: &SackRef) -> u64
    ensures { result ≡ spec.with_blocks sum sack.now.blocks }
{
    if sack.gap_ack_block_count() == 0 {
        return sum;
    }
    let mut starts: u32 = 0;
    let mut both: u32 = 0;
    for block in sack.gap_ack_blocks() {
        starts += block.start as u32;
        both = both.wrapping_add(block.start as u32 * 65536 + block.end as u32);
    }
    let ends = both.wrapping_sub(starts % 65536 * 65536);
    sum.wrapping_add(starts as u64 + ends as u64)
}
