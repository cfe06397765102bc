//! Parameters and error causes that are added to a chunk of the packet.

ghost use Rattle.std.specs.Prelude.{◌≡◌, ◌≤◌, ◌<◌, ◌+◌, ◌^◌, ◌↔◌, ℕ, List, length, drop, replicate, IsTrue, IsOk, IfErr};
ghost use Rattle.dcsctp_tlv.specs.{Frame.{round_up_to_4, typed_header, frame_length}, Image.{gap, put}};
ghost use Rattle.dcsctp_buffer.specs.Buffer.{Declines};
ghost use Rattle.dcsctp_buffer.specs.Item.{item_value, IsLastChunk, IsExtensible, HasItemRoom, IsItemAdded, ExtendsParameters, ExtendsCauses, MakesError, padded_item};

use crate::error::WriteError;
use crate::widths::bytes_in_width;
use crate::{MAX_SIZE, is_begun};
use dcsctp_tlv::fields::put_fields;
use dcsctp_tlv::frame::{MAX_VALUE_SIZE, TLV_HEADER_SIZE, put_bytes, put_header};
use dcsctp_tlv::number::{is_divisible_by_4, put_u16, read_u16_be, round_up_to_4};
use dcsctp_wire::packet::sctp_packet::COMMON_HEADER_SIZE;

/// The offset of the length field in an item.
const LENGTH_OFFSET: usize = 2;

/// The value of a parameter (RFC 9260 section 3.2.1) or of an error cause (section 3.3.10) that can
/// be written, whatever holds it.
///
/// No call allocates or fails.
pub trait WritableItem {
    /// The bytes of the value.
    ghost value: { Self → List ℕ };

    /// Returns the number of bytes of the value, without the item's header and its padding.
    fn value_size(&self) -> usize
        ensures { result ≡ length (value self.now) };

    /// Writes the value at a place; all other bytes stay.
    fn put_value(&self, output: &mut [u8], place: usize)
        requires room { place + length (value self.now) ≤ length output.old }
        ensures { output.new ≡ put output.old place (value self.now) };
}

/// Adds a parameter (RFC 9260 section 3.2.1) or an error cause (section 3.3.10) to the packet's
/// last chunk, which begins at `start`. The item's value is the leading bytes and, after them, the
/// numbers, two bytes each.
///
/// The chunk's value is padded with zeros to a multiple of 4 first; the item's own padding comes
/// after it, and isn't part of the chunk's length (section 3.2). The bytes of the item with its
/// padding are added to the size, and all other bytes stay. A chunk whose kind has such a list then
/// reads with one item more, the last; which kind it is, isn't looked at.
///
/// Returns the first of these errors that is so, and then changes nothing: `BadPlace` where the
/// size isn't that of a packet that was begun, or no chunk begins at `start` and ends the packet
/// with its padding; `BadValue` where two bytes can't hold the chunk's new length; `NoRoom` where
/// the packet has no room for the item and its padding, in the buffer or in the 65,532 bytes that a
/// packet can have.
pub fn add_item(
    buffer: &mut [u8],
    size: &mut usize,
    start: usize,
    typ: u16,
    leading: &[u8],
    numbers: &[u16],
) -> Result<(), WriteError>
    ensures room { IsOk result
        ↔ HasItemRoom buffer.old size.old start (item_value leading.now numbers.now) }
    ensures added { IsOk result → IsItemAdded typ (item_value leading.now numbers.now)
        buffer.old size.old start buffer.new size.new }
    ensures parameters { IsOk result
        → ExtendsParameters typ (item_value leading.now numbers.now) }
    ensures causes { IsOk result → ExtendsCauses typ (item_value leading.now numbers.now) }
    ensures error { IsOk result → MakesError typ (item_value leading.now numbers.now) }
    ensures declined { IfErr result (Declines (IsLastChunk buffer.old size.old start)
        (IsExtensible buffer.old start (item_value leading.now numbers.now))
        (HasItemRoom buffer.old size.old start (item_value leading.now numbers.now))) }
    ensures unchanged { IfErr result (λ e. (buffer.new ≡ buffer.old) × (size.new ≡ size.old)) }
{
    add_written(
        buffer,
        size,
        start,
        typ,
        &BytesAndNumbers { leading, numbers },
    )
}

/// Adds a parameter (RFC 9260 section 3.2.1) or an error cause (section 3.3.10) to the packet's
/// last chunk, which begins at `start`.
///
/// The chunk's value is padded with zeros to a multiple of 4 first; the item's own padding comes
/// after it, and isn't part of the chunk's length (section 3.2). The bytes of the item with its
/// padding are added to the size, and all other bytes stay. A chunk whose kind has such a list then
/// reads with one item more, the last; which kind it is, isn't looked at.
///
/// Returns the first of these errors that is so, and then changes nothing: `BadPlace` where the
/// size isn't that of a packet that was begun, or no chunk begins at `start` and ends the packet
/// with its padding; `BadValue` where two bytes can't hold the chunk's new length; `NoRoom` where
/// the packet has no room for the item and its padding, in the buffer or in the 65,532 bytes that a
/// packet can have.
pub fn add_written<I: WritableItem>(
    buffer: &mut [u8],
    size: &mut usize,
    start: usize,
    typ: u16,
    item: &I,
) -> Result<(), WriteError>
    ensures room { IsOk result ↔ HasItemRoom buffer.old size.old start (I.value item.now) }
    ensures added { IsOk result
        → IsItemAdded typ (I.value item.now) buffer.old size.old start buffer.new size.new }
    ensures parameters { IsOk result → ExtendsParameters typ (I.value item.now) }
    ensures causes { IsOk result → ExtendsCauses typ (I.value item.now) }
    ensures error { IsOk result → MakesError typ (I.value item.now) }
    ensures declined { IfErr result (Declines (IsLastChunk buffer.old size.old start)
        (IsExtensible buffer.old start (I.value item.now))
        (HasItemRoom buffer.old size.old start (I.value item.now))) }
    ensures unchanged { IfErr result (λ e. (buffer.new ≡ buffer.old) × (size.new ≡ size.old)) }
{
    let end = *size;
    if !is_last_chunk(buffer, end, start) {
        return Err(WriteError::BadPlace);
    }
    let value_size = item.value_size();
    let chunk_size = end - start;
    if value_size > MAX_VALUE_SIZE - chunk_size {
        return Err(WriteError::BadValue);
    }
    let padded_size = round_up_to_4(TLV_HEADER_SIZE + value_size);
    if padded_size > buffer.len().min(MAX_SIZE) - end {
        return Err(WriteError::NoRoom);
    }
    let old_length = chunk_length(buffer, start);
    let new_length = chunk_size + TLV_HEADER_SIZE + value_size;
    put_u16(buffer, start + LENGTH_OFFSET, new_length as u16);
    put_padded_item(buffer, start + old_length, old_length, typ, item);
    bytes_in_width(buffer);
    *size = end + padded_size;
    Ok(())
}

/// Returns whether a chunk begins at `start`, and it and its padding end the packet of this size.
pub fn is_last_chunk(buffer: &[u8], size: usize, start: usize) -> bool
    ensures { IsTrue result ↔ IsLastChunk buffer.now size start }
{
    if !is_begun(buffer.len(), size) || start < COMMON_HEADER_SIZE || !is_divisible_by_4(start) {
        return false;
    }
    if start > size - TLV_HEADER_SIZE {
        return false;
    }
    let length = chunk_length(buffer, start);
    length >= TLV_HEADER_SIZE && round_up_to_4(length) == size - start
}

/// Returns what the length field of the chunk at a place says.
fn chunk_length(buffer: &[u8], start: usize) -> usize
    requires { start + 4 ≤ length buffer.now }
    ensures result { result ≡ frame_length (drop start buffer.now) }
    ensures width { result < 2 ^ 16 }
{
    let chunk = &buffer[start..];
    read_u16_be(&chunk[LENGTH_OFFSET..]) as usize
}

/// A value of bytes and, after them, numbers of two bytes each.
#[derive(Clone, Copy, Debug)]
pub struct BytesAndNumbers<'a> {
    /// The bytes.
    pub leading: &'a [u8],
    /// The numbers: types of parameters, or stream ids.
    pub numbers: &'a [u16],
}

impl WritableItem for BytesAndNumbers<'_> {
    ghost value = { λ i. item_value i.leading.now i.numbers.now };

    fn value_size(&self) -> usize {
        self.leading.len() + 2 * self.numbers.len()
    }

    fn put_value(&self, output: &mut [u8], place: usize) {
        put_bytes(output, place, self.leading);
        put_fields::<u16>(output, place + self.leading.len(), self.numbers);
    }
}

/// Writes the padding of a chunk of `size` bytes at a place, and after it the item with its own.
fn put_padded_item<I: WritableItem>(
    output: &mut [u8],
    place: usize,
    size: usize,
    typ: u16,
    item: &I,
)
    requires encodable { 4 + length (I.value item.now) < 2 ^ 16 }
    requires size { size < 2 ^ 16 }
    requires room { place + (gap size + round_up_to_4 (4 + length (I.value item.now)))
        ≤ length output.old }
    ensures { output.new ≡ put output.old place (padded_item size typ (I.value item.now)) }
{
    let value_size = item.value_size();
    let begin = place + (round_up_to_4(size) - size);
    let header = item_header(typ, value_size);
    put_zeros(output, place, begin - place);
    put_bytes(output, begin, &header);
    item.put_value(output, begin + TLV_HEADER_SIZE);
    let item_size = TLV_HEADER_SIZE + value_size;
    put_zeros(
        output,
        begin + item_size,
        round_up_to_4(item_size) - item_size,
    );
}

/// Returns the header of a parameter or an error cause.
fn item_header(typ: u16, value_size: usize) -> [u8; TLV_HEADER_SIZE]
    requires { 4 + value_size < 2 ^ 16 }
    ensures { result ≡ typed_header typ value_size }
{
    let mut header = [0; TLV_HEADER_SIZE];
    put_header(
        (typ / 256) as u8,
        (typ % 256) as u8,
        value_size,
        &mut header,
    );
    header
}

/// Writes zeros at a place; all other bytes stay.
fn put_zeros(output: &mut [u8], place: usize, count: usize)
    requires { place + count ≤ length output.old }
    ensures { output.new ≡ put output.old place (replicate count 0) }
{
    let (_, rest) = output.split_at_mut(place);
    let (front, _) = rest.split_at_mut(count);
    front.fill(0);
}
