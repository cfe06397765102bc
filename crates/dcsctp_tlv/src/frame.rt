//! The frame of an item: a header of four bytes, and a value (RFC 9260 section 3.2).

ghost use Rattle.std.specs.Prelude.{◌≡◌, ◌≤◌, ◌<◌, ◌+◌, ◌*◌, ◌^◌, ◌++◌, ◌↔◌, length, drop, IsOk, IfOk, IfErr};
ghost use Rattle.dcsctp_tlv.specs.{Frame.{padding_size, are_zeros as are_zero_bytes, first_nonzero as first_nonzero_byte, header, BeginsWithFrame, frame_length, frame_value, frame_padding, frame_rest}, Format.{flagged_tlv}, Image.{Sizes, put, solid_tlv, typed_tlv, image_of, written}, declared.error.ChunkParseError.TheVariants.{InvalidLength}};

use crate::error::ChunkParseError;
use crate::number::{read_u16_be, round_up_to_4, write_u16_be};

/// Bytes of a header: two that say what the item is, and two of length.
pub const TLV_HEADER_SIZE: usize = 4;

/// The most bytes that a value can have: two bytes hold its size with the header's.
pub const MAX_VALUE_SIZE: usize = 65531;

/// Returns the length field at the front: how many bytes header and value have.
pub(crate) fn frame_length(bytes: &[u8]) -> usize
    requires { 4 ≤ length bytes.now }
    ensures { result ≡ frame_length bytes.now }
{
    read_u16_be(&bytes[2..]) as usize
}

/// Splits bytes into the value of the frame at their front, and the bytes after it and its padding:
/// `(value, rest)`.
///
/// Both are parts of the input. The last item of a list may lack padding: then nothing is left.
/// `InvalidLength` if and only if the bytes don't begin with a frame.
pub fn split_frame(bytes: &[u8]) -> Result<(&[u8], &[u8]), ChunkParseError>
    ensures frame { IsOk result ↔ BeginsWithFrame bytes.now }
    ensures value { IfOk result (λ x. x.0.now ≡ frame_value bytes.now) }
    ensures rest { IfOk result (λ x. x.1.now ≡ frame_rest bytes.now) }
    ensures fault { IfErr result (λ e. e ≡ InvalidLength) }
{
    if bytes.len() < TLV_HEADER_SIZE {
        return Err(ChunkParseError::InvalidLength);
    }
    let length = read_u16_be(&bytes[2..]) as usize;
    if length < TLV_HEADER_SIZE || length > bytes.len() {
        return Err(ChunkParseError::InvalidLength);
    }
    Ok(frame_parts(bytes))
}

/// Splits bytes that are known to begin with a frame into its value, and the bytes after it and its
/// padding: `(value, rest)`. Tests nothing.
pub fn frame_parts(bytes: &[u8]) -> (&[u8], &[u8])
    requires { BeginsWithFrame bytes.now }
    ensures value { result.0.now ≡ frame_value bytes.now }
    ensures rest { result.1.now ≡ frame_rest bytes.now }
{
    let length = read_u16_be(&bytes[2..]) as usize;
    let value = &bytes[TLV_HEADER_SIZE..length];
    let padded = round_up_to_4(length);
    let rest = &bytes[padded.min(bytes.len())..];
    (value, rest)
}

/// Returns the padding of the frame at the front: how many bytes there should be, and those that
/// are there.
pub fn padding_parts(bytes: &[u8]) -> (usize, &[u8])
    requires { BeginsWithFrame bytes.now }
    ensures size { result.0 ≡ padding_size (length (frame_value bytes.now)) }
    ensures there { result.1.now ≡ frame_padding bytes.now }
{
    let length = read_u16_be(&bytes[2..]) as usize;
    let padded = round_up_to_4(length);
    (padded - length, &bytes[length..padded.min(bytes.len())])
}

/// Returns whether every byte is zero, as a sender pads (RFC 9260 section 3.2).
pub fn are_zeros(bytes: &[u8]) -> bool
    ensures { result ≡ are_zero_bytes bytes.now }
{
    bytes.iter().all(|byte| *byte == 0)
}

/// Returns the offset of the first byte that isn't zero, or the number of bytes.
pub fn first_nonzero(bytes: &[u8]) -> usize
    ensures { result ≡ first_nonzero_byte bytes.now }
{
    bytes.iter().take_while(|byte| **byte == 0).count()
}

// A cold call, so that no valid item pays for it.
/// Returns the offset of the first padding byte that isn't zero in the frame at the front, or else
/// of the first padding byte that is missing.
#[cold]
#[inline(never)]
pub fn padding_fault(bytes: &[u8]) -> usize
    requires { BeginsWithFrame bytes.now }
    ensures place { result ≡ frame_length bytes.now + first_nonzero_byte (frame_padding bytes.now) }
    ensures within { result ≤ length bytes.now }
{
    let (_, there) = padding_parts(bytes);
    frame_length(bytes) + first_nonzero(there)
}

/// Returns the size in bytes of an item whose value has this size; `None` if and only if two bytes
/// can't hold it.
pub fn item_size(value_size: usize) -> Option<usize>
    ensures { Sizes result (4 + value_size < 2 ^ 16) (4 + value_size) }
{
    if value_size > MAX_VALUE_SIZE {
        return None;
    }
    Some(TLV_HEADER_SIZE + value_size)
}

/// Returns the size in bytes of an item whose value is `leading` bytes, and after them `count`
/// fields of `size` bytes each; `None` if and only if two bytes can't hold it.
#[inline(always)]
pub fn fields_item_size(leading: usize, size: usize, count: usize) -> Option<usize>
    requires { leading ≤ 65531 }
    ensures { Sizes result (4 + (leading + size * count) < 2 ^ 16)
        (4 + (leading + size * count)) }
{
    let fields = size.saturating_mul(count);
    if fields > MAX_VALUE_SIZE - leading {
        return None;
    }
    Some(TLV_HEADER_SIZE + leading + fields)
}

/// Writes a header into the first four bytes; the bytes after them stay.
pub fn put_header(first: u8, second: u8, value_size: usize, output: &mut [u8])
    requires encodable { 4 + value_size < 2 ^ 16 }
    requires room { 4 ≤ length output.old }
    ensures { output.new ≡ header first second value_size ++ drop 4 output.old }
{
    output[0] = first;
    output[1] = second;
    write_u16_be(&mut output[2..], 4 + value_size as u16);
}

/// Writes the bytes at a place; all others stay.
pub fn put_bytes(output: &mut [u8], place: usize, bytes: &[u8])
    requires { place + length bytes.now ≤ length output.old }
    ensures { output.new ≡ put output.old place bytes.now }
{
    let (_, rest) = output.split_at_mut(place);
    let (front, _) = rest.split_at_mut(bytes.len());
    front.copy_from_slice(bytes);
}

/// Writes an item whose value is these bytes.
pub fn put_solid(first: u8, second: u8, value: &[u8], output: &mut [u8])
    requires encodable { 4 + length value.now < 2 ^ 16 }
    requires room { 4 + length value.now ≤ length output.old }
    ensures { output.new ≡ written (image_of (solid_tlv first second value.now)) output.old }
{
    put_header(first, second, value.len(), output);
    put_bytes(output, TLV_HEADER_SIZE, value);
}

/// Writes an item whose value is a fixed part, and after it the rest.
pub fn put_fixed_and_rest(first: u8, second: u8, fixed: &[u8], rest: &[u8], output: &mut [u8])
    requires encodable { 4 + (length fixed.now + length rest.now) < 2 ^ 16 }
    requires room { 4 + (length fixed.now + length rest.now) ≤ length output.old }
    ensures { output.new ≡ written (image_of (flagged_tlv first second
        (length fixed.now + length rest.now) (fixed.now ++ rest.now))) output.old }
{
    put_header(first, second, fixed.len() + rest.len(), output);
    put_bytes(output, TLV_HEADER_SIZE, fixed);
    put_bytes(output, TLV_HEADER_SIZE + fixed.len(), rest);
}

/// Writes a parameter or an error cause whose value is these bytes.
pub fn put_parameter(typ: u16, value: &[u8], output: &mut [u8])
    requires encodable { 4 + length value.now < 2 ^ 16 }
    requires room { 4 + length value.now ≤ length output.old }
    ensures { output.new ≡ written (image_of (typed_tlv typ value.now)) output.old }
{
    put_solid((typ / 256) as u8, (typ % 256) as u8, value, output);
}
