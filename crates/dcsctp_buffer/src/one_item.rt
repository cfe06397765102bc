//! Chunks whose value is one parameter or one error cause.

ghost use Rattle.std.specs.Prelude.{◌≡◌, ◌≤◌, ◌<◌, ◌+◌, ◌^◌, [], ◌∷◌, length};
ghost use Rattle.dcsctp_tlv.specs.Image.{Sizes, listed_tlv, typed_tlv};
ghost use Rattle.dcsctp_buffer.specs.Buffer.{with_item};

use dcsctp_tlv::frame::{TLV_HEADER_SIZE, item_size, put_header, put_parameter};

/// Returns how many bytes a chunk with one item has, with its header; `None` if two bytes can't
/// hold this number.
pub(crate) fn one_item_size(item_value: &[u8]) -> Option<usize>
    ensures { Sizes result (8 + length item_value.now < 2 ^ 16) (8 + length item_value.now) }
{
    item_size(TLV_HEADER_SIZE + item_value.len())
}

/// Writes such a chunk, with an item of this type; the bytes after it stay.
pub(crate) fn put_one_item(first: u8, second: u8, typ: u16, item_value: &[u8], output: &mut [u8])
    requires encodable { 8 + length item_value.now < 2 ^ 16 }
    requires room { 8 + length item_value.now ≤ length output.old }
    ensures { output.new ≡ with_item
        (listed_tlv first second [] (typed_tlv typ) (item_value.now ∷ [])) output.old }
{
    put_header(first, second, TLV_HEADER_SIZE + item_value.len(), output);
    let (_, rest) = output.split_at_mut(TLV_HEADER_SIZE);
    put_parameter(typ, item_value, rest);
}
