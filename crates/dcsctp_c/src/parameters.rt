//! The parameters and the error causes of a chunk, or of any list: where they begin, one after the
//! other, and what they hold.

ghost use Rattle.std.specs.Prelude.{◌≡◌, ◌↔◌, ◌+◌, ◌^◌, ◌<◌, ◌≤◌, ℕ, List, IsTrue, IsSome, IfSome, Some, false, length, drop, option_map};
ghost use Rattle.dcsctp_tlv.specs.{Frame.{BeginsWithFrame}, Parameter.{ParameterTree}};
ghost use Rattle.dcsctp_cause.specs.Cause.{CauseTree};
ghost use Rattle.dcsctp_wire.specs.Chunk.{ChunkTree};
ghost use Rattle.dcsctp_c.specs.{Part.{ReadsInto, Holds, value_at, value_from, ChunkMeans, list_bytes, IsListOf, bytes_to}, Parameter.{IsListedIn, IsParameterAt, ParameterMeans, CauseMeans, parameter_value, number_at, number_of, cause_number_of, short_numbers_at}};

use crate::parts::{part_at, put_found, read_number};
use crate::structs::{DcsctpChunk, DcsctpParameter};
use dcsctp_borrowed::numbers::Numbers;
use dcsctp_registry::short_numbers::short_numbers;
use dcsctp_tlv::frame::split_frame;
use dcsctp_wire::packet::init_chunk::{self, InitNumbers};
use dcsctp_wire::packet::{
    TLV_HEADER_SIZE, abort_chunk, error_chunk, heartbeat_ack_chunk, heartbeat_request_chunk,
    init_ack_chunk, re_config_chunk, read_u16_be,
};

/// Returns the offset of a chunk's first parameter (RFC 9260 section 3.2.1) or error cause (section
/// 3.3.10); that of the end of its value, if the type has none.
#[unsafe(no_mangle)]
pub extern "C" fn dcsctp_list_offset(chunk: &DcsctpChunk) -> usize
    ensures after { chunk.now.value_offset ≤ result }
    ensures within { result ≤ chunk.now.value_offset + chunk.now.value_size }
    ensures list { (bytes value : List ℕ) → length bytes < 2 ^ 64
        → value_at bytes chunk.now ≡ Some value
        → value_from bytes chunk.now result ≡ list_bytes chunk.now.typ value }
    ensures lists { (bytes : List ℕ) (tree : ChunkTree) → length bytes < 2 ^ 64
        → ChunkMeans bytes chunk.now tree
        → IsListOf tree (value_from bytes chunk.now result) }
{
    // the sum could overflow where the value lies in no bytes
    chunk
        .value_offset
        .saturating_add(list_place(chunk.typ, chunk.value_size))
}

/// Reads the parameter (RFC 9260 section 3.2.1) or the error cause (section 3.3.10) at an offset of
/// a chunk's value, and writes where its value and the next one are. The first is where
/// `dcsctp_list_offset` says.
///
/// Returns false, and `parameter` stays, if and only if no header with a whole value is there: at
/// the end of the chunk's value and after it, before the value, and where that does not lie within
/// the bytes.
#[unsafe(no_mangle)]
pub extern "C" fn dcsctp_parameter_at(
    bytes: &[u8],
    chunk: &DcsctpChunk,
    offset: usize,
    parameter: &mut DcsctpParameter,
) -> bool
    ensures there { IsTrue result ↔ BeginsWithFrame (value_from bytes.now chunk.now offset) }
    ensures read { IsTrue result → IsParameterAt bytes.now chunk.now offset parameter.new }
    ensures stays { result ≡ false → parameter.new ≡ parameter.old }
{
    put_found(parameter_at(bytes, chunk, offset), parameter)
}

/// Reads the parameter (RFC 9260 section 3.2.1) or the error cause (section 3.3.10) at an offset of
/// bytes, and writes where its value and the next one are: in a chunk, in a parameter or in a
/// cause. The list ends where the bytes do.
///
/// Returns false, and `item` stays, if and only if no header with a whole value is there: at the
/// end of the bytes, and after it.
#[unsafe(no_mangle)]
pub extern "C" fn dcsctp_item_at(bytes: &[u8], offset: usize, item: &mut DcsctpParameter) -> bool
    ensures there { IsTrue result ↔ BeginsWithFrame (drop offset bytes.now) }
    ensures read { IsTrue result → IsListedIn bytes.now offset item.new }
    ensures stays { result ≡ false → item.new ≡ item.old }
{
    put_found(item_at(bytes, offset), item)
}

/// Reads a value that is one number of four bytes, whatever its type: the method of Zero Checksum
/// Acceptable (RFC 9653 section 4), the TSN of the cause No User Data (RFC 9260 section 3.3.10.9).
///
/// Returns false, and `number` stays, if and only if the value hasn't four bytes, or does not lie
/// within the bytes.
#[unsafe(no_mangle)]
pub extern "C" fn dcsctp_number(bytes: &[u8], parameter: &DcsctpParameter, number: &mut u32) -> bool
    ensures read { ReadsInto Holds (number_at bytes.now parameter.now)
        number.old number.new result }
    ensures parameters { (tree : ParameterTree) (n : ℕ)
        → ParameterMeans bytes.now parameter.now tree → number_of tree ≡ Some n
        → ReadsInto Holds (Some n) number.old number.new result }
    ensures causes { (tree : CauseTree) (n : ℕ)
        → CauseMeans bytes.now parameter.now tree → cause_number_of tree ≡ Some n
        → ReadsInto Holds (Some n) number.old number.new result }
{
    put_found(number_in(bytes, parameter), number)
}

// ---- helpers

/// Reads the parameter or the error cause at an offset of the chunk's value.
#[inline(always)]
fn parameter_at(bytes: &[u8], chunk: &DcsctpChunk, offset: usize) -> Option<DcsctpParameter>
    ensures there { IsSome result ↔ BeginsWithFrame (value_from bytes.now chunk.now offset) }
    ensures read { IfSome result (λ found. IsParameterAt bytes.now chunk.now offset found) }
{
    let list = up_to_end(bytes, chunk)?;
    if offset < chunk.value_offset {
        return None;
    }
    item_at(list, offset)
}

/// Reads the parameter or the error cause at an offset of the bytes.
#[inline(always)]
pub(crate) fn item_at(bytes: &[u8], offset: usize) -> Option<DcsctpParameter>
    ensures there { IsSome result ↔ BeginsWithFrame (drop offset bytes.now) }
    ensures read { IfSome result (λ found. IsListedIn bytes.now offset found) }
{
    if offset > bytes.len() {
        return None;
    }
    let (_, from) = bytes.split_at(offset);
    let Ok((value, rest)) = split_frame(from) else {
        return None;
    };
    Some(DcsctpParameter {
        typ: read_u16_be(from),
        value_offset: offset + TLV_HEADER_SIZE,
        value_size: value.len(),
        next: bytes.len() - rest.len(),
    })
}

/// Returns the bytes up to the end of the chunk's value, if all of that lies within them.
#[inline(always)]
pub(crate) fn up_to_end<'a>(bytes: &'a [u8], chunk: &DcsctpChunk) -> Option<&'a [u8]>
    ensures { option_map (λ list. list.now) result
        ≡ bytes_to bytes.now chunk.now.value_offset chunk.now.value_size }
{
    // a sum of the offset and the size could overflow
    if chunk.value_offset > bytes.len() || chunk.value_size > bytes.len() - chunk.value_offset {
        return None;
    }
    let (list, _) = bytes.split_at(chunk.value_offset + chunk.value_size);
    Some(list)
}

/// Returns where the parameters or the error causes begin in a value of this type and size: at its
/// end where it has no place for them.
#[inline(always)]
fn list_place(typ: u8, size: usize) -> usize
    ensures within { result ≤ size }
    ensures bytes { (value : List ℕ) → length value ≡ size
        → drop result value ≡ list_bytes typ value }
{
    match typ {
        init_chunk::CHUNK_TYPE | init_ack_chunk::CHUNK_TYPE => InitNumbers::SIZE.min(size),
        heartbeat_request_chunk::CHUNK_TYPE
        | heartbeat_ack_chunk::CHUNK_TYPE
        | re_config_chunk::CHUNK_TYPE
        | abort_chunk::CHUNK_TYPE
        | error_chunk::CHUNK_TYPE => 0,
        _ => size,
    }
}

/// Returns the value, if all of it lies within the bytes.
#[inline(always)]
pub(crate) fn parameter_value<'a>(bytes: &'a [u8], parameter: &DcsctpParameter) -> Option<&'a [u8]>
    ensures { option_map (λ value. value.now) result ≡ parameter_value bytes.now parameter.now }
{
    part_at(bytes, parameter.value_offset, parameter.value_size)
}

/// Reads the value that is one number.
#[inline(always)]
fn number_in(bytes: &[u8], parameter: &DcsctpParameter) -> Option<u32>
    ensures read { result ≡ number_at bytes.now parameter.now }
    ensures parameters { (tree : ParameterTree) (n : ℕ)
        → ParameterMeans bytes.now parameter.now tree → number_of tree ≡ Some n
        → number_at bytes.now parameter.now ≡ Some n }
    ensures causes { (tree : CauseTree) (n : ℕ)
        → CauseMeans bytes.now parameter.now tree → cause_number_of tree ≡ Some n
        → number_at bytes.now parameter.now ≡ Some n }
{
    read_number(parameter_value(bytes, parameter)?)
}

/// Returns the numbers of two bytes each that the value is.
#[inline(always)]
pub(crate) fn short_numbers_in<'a>(
    bytes: &'a [u8],
    parameter: &DcsctpParameter,
) -> Option<Numbers<'a>>
    ensures { result ≡ short_numbers_at bytes.now parameter.now }
{
    short_numbers(parameter_value(bytes, parameter)?)
}
