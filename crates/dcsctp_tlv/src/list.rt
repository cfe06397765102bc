//! Lists of what can be written: one item after the other, each but the last padded to a multiple
//! of 4 bytes. For parameters, error causes and chunks.

ghost use Rattle.std.specs.Prelude.{◌≡◌, ◌≤◌, ◌<◌, ◌+◌, ◌^◌, ◌↔◌, length, map, IsTrue};
ghost use Rattle.dcsctp_tlv.specs.{Format.{tlv_by}, Image.{written, image_of, size_of, IsEncodable, Sizes, list_image, list_size, listed_tlv, IsListEncodable}};

use crate::frame::{MAX_VALUE_SIZE, TLV_HEADER_SIZE, frame_length, item_size, put_header};
use crate::number::round_up_to_4;
use crate::tlv::{ListedTlv, SerializableTlv};

/// Returns how many bytes the list has, without padding after its last item; `None` if an item
/// can't be written, or the list has more than 65,535 bytes.
pub fn encoded_list_size<T: SerializableTlv>(list: &[T]) -> Option<usize>
    ensures { Sizes result (IsListEncodable (tlv_by T.format) T.placed list.now)
        (list_size (tlv_by T.format) list.now) }
{
    let mut total: usize = 0;
    for item in list {
        let Some(size) = item.encoded_size() else {
            return None;
        };
        total = round_up_to_4(total) + size;
        if total > 65535 {
            return None;
        }
    }
    Some(total)
}

/// Returns whether each item can be written, and the list has at most 65,535 bytes.
pub fn list_encodable<T: SerializableTlv>(list: &[T]) -> bool
    ensures { IsTrue result ↔ IsListEncodable (tlv_by T.format) T.placed list.now }
{
    encoded_list_size(list).is_some()
}

/// Returns how many bytes the list has, without padding after its last item.
pub fn list_size<T: SerializableTlv>(list: &[T]) -> usize
    requires { IsListEncodable (tlv_by T.format) T.placed list.now }
    ensures { result ≡ list_size (tlv_by T.format) list.now }
{
    encoded_list_size(list).unwrap()
}

/// Writes the list at the front of `output`, and returns its bytes. The bytes between items, and
/// those past the list, stay as they stood.
pub fn put_list<T: SerializableTlv>(list: &[T], output: &mut [u8]) -> usize
    requires encodable { IsListEncodable (tlv_by T.format) T.placed list.now }
    requires room { list_size (tlv_by T.format) list.now ≤ length output.old }
    ensures written { output.new ≡ written (list_image (tlv_by T.format) list.now) output.old }
    ensures size { result ≡ list_size (tlv_by T.format) list.now }
{
    let mut end: usize = 0;
    for item in list {
        let start = round_up_to_4(end);
        let (_, rest) = output.split_at_mut(start);
        item.serialize_to(rest);
        // The length that was written: the item needn't be sized again.
        end = start + frame_length(rest);
    }
    end
}

/// Returns the size in bytes of an item whose value is the list after `leading` bytes; `None` if it
/// can't be written.
pub fn listed_encoded_size<T: ListedTlv>(leading: usize, list: &[T]) -> Option<usize>
    requires { leading ≤ MAX_VALUE_SIZE }
    ensures { Sizes result (4 + (leading + list_size T.tree_tlv (map T.view list.now)) < 2 ^ 16)
        (4 + (leading + list_size T.tree_tlv (map T.view list.now))) }
{
    match encoded_list_size(list) {
        Some(size) => item_size(leading + size),
        None => None,
    }
}

/// Writes an item whose value begins with these bytes, and after them is the list.
pub fn put_listed<T: ListedTlv>(
    first: u8,
    second: u8,
    leading: &[u8],
    list: &[T],
    output: &mut [u8],
)
    requires encodable { IsEncodable
        (listed_tlv first second leading.now T.tree_tlv (map T.view list.now)) }
    requires room { size_of (listed_tlv first second leading.now T.tree_tlv (map T.view list.now))
        ≤ length output.old }
    ensures { output.new ≡ written
        (image_of (listed_tlv first second leading.now T.tree_tlv (map T.view list.now)))
        output.old }
{
    let (header, value) = output.split_at_mut(TLV_HEADER_SIZE);
    let (front, rest) = value.split_at_mut(leading.len());
    front.copy_from_slice(leading);
    let size = put_list(list, rest);
    put_header(first, second, leading.len() + size, header);
}
