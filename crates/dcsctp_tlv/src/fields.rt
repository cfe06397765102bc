//! Fields of one size in a row: numbers, stream ids, and whatever else a value lists.

ghost use Rattle.std.specs.{Prelude.{◌≡◌, ◌≤◌, ◌+◌, ◌*◌, ◌++◌, ℕ, List, All, IfOk, length, drop, map, vec_capacity, refl, vec_len}, Int.{w16, w32, to_be_bytes}, List.{flat_map}};
ghost use Rattle.dcsctp_tlv.specs.{Fields.{fields, numbers_and_fields_tlv, fields_tlv}, Image.{put, IsEncodable, size_of, image_of, written}, Number.{number16, number32}};

use crate::frame::{TLV_HEADER_SIZE, put_header};
use crate::number::{read_u16_be, read_u32_be, write_u16_be, write_u32_be};
use dcsctp_types::api::StreamId;
use dcsctp_types::types::Tsn;
use std::alloc::{AllocError, Global};

/// How a field of a fixed size is laid out.
pub trait Field {
    /// What a field holds.
    type Value: Drop;

    /// What its bytes mean.
    ghost Tree: { Type 0 };

    ghost view: { Self.Value → Tree };

    /// What the bytes mean that begin with the field.
    ghost field_at: { List ℕ → Tree };

    /// The field as it is written.
    ghost field_bytes: { Tree → List ℕ };

    /// The field has a place for it.
    ghost is_writable: { Self.Value → Type 0 };

    ghost SIZE: { ℕ };

    /// Bytes of the field.
    const SIZE: usize;

    /// Reads the field at the front.
    fn read(bytes: &[u8]) -> Self::Value
        requires { SIZE ≤ length bytes.now }
        ensures { view result ≡ field_at bytes.now };

    /// Writes the field at the front; the bytes after it stay.
    fn write(value: &Self::Value, output: &mut [u8])
        requires writable { is_writable value.now }
        requires room { SIZE ≤ length output.old }
        ensures { output.new ≡ field_bytes (view value.now) ++ drop SIZE output.old };

    ghost field_length: { (value : Self.Value) → is_writable value
        → length (field_bytes (view value)) ≡ SIZE };
}

impl Field for u16 {
    type Value = u16;

    ghost Tree = { ℕ };

    ghost view = { λ n. n };

    ghost field_at = { number16 };

    ghost field_bytes = { to_be_bytes w16 };

    ghost is_writable = { λ n. Unit {0} };

    ghost SIZE = { 2 };

    const SIZE: usize = 2;

    fn read(bytes: &[u8]) -> u16 {
        read_u16_be(bytes)
    }

    fn write(value: &u16, output: &mut [u8]) {
        write_u16_be(output, *value);
    }

    ghost field_length = { λ n fits. refl };
}

impl Field for u32 {
    type Value = u32;

    ghost Tree = { ℕ };

    ghost view = { λ n. n };

    ghost field_at = { number32 };

    ghost field_bytes = { to_be_bytes w32 };

    ghost is_writable = { λ n. Unit {0} };

    ghost SIZE = { 4 };

    const SIZE: usize = 4;

    fn read(bytes: &[u8]) -> u32 {
        read_u32_be(bytes)
    }

    fn write(value: &u32, output: &mut [u8]) {
        write_u32_be(output, *value);
    }

    ghost field_length = { λ n fits. refl };
}

impl Field for Tsn {
    type Value = Tsn;

    ghost Tree = { ℕ };

    ghost view = { λ tsn. tsn.0 };

    ghost field_at = { number32 };

    ghost field_bytes = { to_be_bytes w32 };

    ghost is_writable = { λ tsn. Unit {0} };

    ghost SIZE = { 4 };

    const SIZE: usize = 4;

    fn read(bytes: &[u8]) -> Tsn {
        Tsn(read_u32_be(bytes))
    }

    fn write(value: &Tsn, output: &mut [u8]) {
        write_u32_be(output, value.0);
    }

    ghost field_length = { λ tsn fits. refl };
}

impl Field for StreamId {
    type Value = StreamId;

    ghost Tree = { ℕ };

    ghost view = { λ id. id.0 };

    ghost field_at = { number16 };

    ghost field_bytes = { to_be_bytes w16 };

    ghost is_writable = { λ id. Unit {0} };

    ghost SIZE = { 2 };

    const SIZE: usize = 2;

    fn read(bytes: &[u8]) -> StreamId {
        StreamId(read_u16_be(bytes))
    }

    fn write(value: &StreamId, output: &mut [u8]) {
        write_u16_be(output, value.0);
    }

    ghost field_length = { λ id fits. refl };
}

/// Reads `count` fields from the front; the memory is taken at once.
pub fn fields_from_bytes<F: Field>(
    alloc: Global,
    bytes: &[u8],
    count: usize,
) -> Result<Vec<F::Value>, AllocError>
    requires { F.SIZE * count ≤ length bytes.now }
    ensures fields { IfOk result (λ list. map F.view list.items
        ≡ fields F.field_at F.SIZE count bytes.now) }
    ensures reserved { IfOk result (λ list. vec_capacity list ≡ count) }
    ensures tight { IfOk result (λ list. vec_capacity list ≡ vec_len list) }
{
    let mut list = Vec::with_capacity(alloc, count)?;
    for i in 0..count {
        list.push_reserved(F::read(&bytes[F::SIZE * i..]));
    }
    Ok(list)
}

/// Writes the fields one after the other from a place on; all other bytes stay.
pub fn put_fields<F: Field>(output: &mut [u8], place: usize, list: &[F::Value])
    requires writable { All F.is_writable list.now }
    requires room { place + F.SIZE * length list.now ≤ length output.old }
    ensures { output.new ≡ put output.old place (flat_map F.field_bytes (map F.view list.now)) }
{
    let mut end = place;
    for value in list {
        let (_, rest) = output.split_at_mut(end);
        F::write(value, rest);
        end += F::SIZE;
    }
}

/// Writes an item whose value is numbers of four bytes, and after them a list of fields.
pub fn put_numbers_and_fields<F: Field>(
    first: u8,
    second: u8,
    leading: &[u32],
    list: &[F::Value],
    output: &mut [u8],
)
    requires writable { All F.is_writable list.now }
    requires encodable { IsEncodable (numbers_and_fields_tlv
        first second leading.now F.field_bytes F.SIZE (map F.view list.now)) }
    requires room { size_of (numbers_and_fields_tlv
        first second leading.now F.field_bytes F.SIZE (map F.view list.now)) ≤ length output.old }
    ensures { output.new ≡ written (image_of (numbers_and_fields_tlv
        first second leading.now F.field_bytes F.SIZE (map F.view list.now))) output.old }
{
    let place = 4 * leading.len();
    let value_size = place + F::SIZE * list.len();
    put_header(first, second, value_size, output);
    put_fields::<u32>(output, TLV_HEADER_SIZE, leading);
    put_fields::<F>(output, TLV_HEADER_SIZE + place, list);
}

/// Writes a parameter or an error cause whose value is numbers of four bytes, and after them a
/// list of fields.
pub fn put_parameter_fields<F: Field>(
    typ: u16,
    leading: &[u32],
    list: &[F::Value],
    output: &mut [u8],
)
    requires writable { All F.is_writable list.now }
    requires encodable { IsEncodable
        (fields_tlv typ leading.now F.field_bytes F.SIZE (map F.view list.now)) }
    requires room { size_of (fields_tlv typ leading.now F.field_bytes F.SIZE (map F.view list.now))
        ≤ length output.old }
    ensures { output.new ≡ written (image_of
        (fields_tlv typ leading.now F.field_bytes F.SIZE (map F.view list.now))) output.old }
{
    let (first, second) = ((typ / 256) as u8, (typ % 256) as u8);
    put_numbers_and_fields::<F>(first, second, leading, list, output);
}
