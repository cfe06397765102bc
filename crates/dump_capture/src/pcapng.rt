//! The blocks of capture files in the pcapng format (draft-ietf-opsawg-pcapng).

ghost use Rattle.std.specs.Prelude.{◌≡◌, ◌≤◌, nat_eq, length, IfSome};
ghost use Rattle.std.specs.List.{starts_with};
ghost use Rattle.dump_capture.specs.Pcap.{section_header};
ghost use Rattle.dump_capture.specs.Pcapng.{magic_order, block_header, header_in, body_of, option_size, is_option, option_in, resolution_of, offset_of, interface_of};

use crate::decoder::MOST_KEPT;
use crate::parts::{after, front};
use crate::pcap::{ByteOrder, read_u16, read_u32, read_u64};

/// The type of a section header, which is the same in both byte orders.
pub const SECTION_HEADER: u32 = 0x0a0d_0d0a;

/// The type of an interface description.
pub const INTERFACE: u32 = 1;

/// The type of an obsolete packet.
pub const OBSOLETE_PACKET: u32 = 2;

/// The type of a simple packet.
pub const SIMPLE_PACKET: u32 = 3;

/// The type of an enhanced packet.
pub const ENHANCED_PACKET: u32 = 6;

/// The size of a block without a body in bytes.
pub const LEAST_BLOCK_SIZE: usize = 12;

/// The first fields of a block.
#[derive(Clone, Copy)]
pub struct BlockHeader {
    /// The order of the block's numbers.
    pub order: ByteOrder,
    /// What the block is.
    pub block_type: u32,
    /// The number of all its bytes.
    pub total_length: u32,
}

/// An interface that packets were captured on.
#[derive(Clone, Copy)]
pub struct Interface {
    /// The link type of its frames; see `crate::frame`.
    pub link_type: u16,
    /// The most bytes of a frame that are captured; 0 for no limit.
    pub snapshot_length: u32,
    /// The unit of its times, as `if_tsresol` says it (section 4.2).
    pub resolution: u8,
    /// The seconds to be added to its times, as `if_tsoffset` says it; 0 if nothing does.
    pub offset: i64,
}

/// Returns whether bytes begin as a section header does.
pub(crate) fn begins_section(bytes: &[u8]) -> bool
    ensures { result ≡ starts_with nat_eq bytes.now section_header }
{
    bytes.starts_with(&[0x0a, 0x0d, 0x0d, 0x0a])
}

/// Reads a block's header, in a section of this order; nothing where no section was begun, where
/// the magic of a section header is another, or where the total length can't be.
pub fn block_header(order: Option<ByteOrder>, bytes: &[u8]) -> Option<BlockHeader>
    requires { LEAST_BLOCK_SIZE ≤ length bytes.now }
    ensures value { result ≡ block_header order bytes.now }
    ensures least { IfSome result (λ h. LEAST_BLOCK_SIZE ≤ h.total_length) }
{
    let order = if begins_section(bytes) {
        magic_order(&bytes[8..])
    } else {
        order
    };
    header_in(order?, bytes)
}

/// Returns the order in which this is the magic of a section header.
fn magic_order(bytes: &[u8]) -> Option<ByteOrder>
    ensures { result ≡ magic_order bytes.now }
{
    if bytes.starts_with(&[0x1a, 0x2b, 0x3c, 0x4d]) {
        Some(ByteOrder::BigEndian)
    } else if bytes.starts_with(&[0x4d, 0x3c, 0x2b, 0x1a]) {
        Some(ByteOrder::LittleEndian)
    } else {
        None
    }
}

/// Reads a block's header in this order.
fn header_in(order: ByteOrder, bytes: &[u8]) -> Option<BlockHeader>
    requires { LEAST_BLOCK_SIZE ≤ length bytes.now }
    ensures value { result ≡ header_in order bytes.now }
    ensures least { IfSome result (λ h. LEAST_BLOCK_SIZE ≤ h.total_length) }
{
    let total_length = read_u32(order, &bytes[4..]);
    if total_length < 12 || total_length % 4 != 0 {
        return None;
    }
    Some(BlockHeader {
        order,
        block_type: read_u32(order, bytes),
        total_length,
    })
}

/// Returns the body of the block at the front.
pub fn body_of<'a>(header: &BlockHeader, bytes: &'a [u8]) -> &'a [u8]
    requires least { LEAST_BLOCK_SIZE ≤ header.now.total_length }
    requires whole { header.now.total_length ≤ length bytes.now }
    ensures { result.now ≡ body_of header.now bytes.now }
{
    &bytes[8..][..header.total_length as usize - LEAST_BLOCK_SIZE]
}

/// Reads an interface description's body; nothing if it is too short, or longer than is kept.
pub fn interface_of(order: ByteOrder, body: &[u8]) -> Option<Interface>
    ensures { result ≡ interface_of order body.now }
{
    if body.len() < 8 || body.len() > MOST_KEPT {
        return None;
    }
    let options = after(body, 8);
    Some(Interface {
        link_type: read_u16(order, body),
        snapshot_length: read_u32(order, after(body, 4)),
        resolution: resolution_of(option_in(body.len(), order, 9, 1, options)),
        offset: offset_of(order, option_in(body.len(), order, 14, 8, options)),
    })
}

/// Returns the value of the first option of this code and size, among the first; no bytes if there
/// is none.
fn option_in(most: usize, order: ByteOrder, code: u16, size: u16, options: &[u8]) -> &[u8]
    ensures { result.now ≡ option_in most order code size options.now }
{
    let mut rest = options;
    for _ in 0..most {
        if rest.len() < 4 || read_u16(order, rest) == 0 {
            return &[];
        }
        if is_option(order, code, size, rest) {
            return front(after(rest, 4), size as usize);
        }
        let length = read_u16(order, after(rest, 2));
        rest = after(rest, option_size(length));
    }
    &[]
}

/// Returns whether a whole option of this code and size is at the front.
fn is_option(order: ByteOrder, code: u16, size: u16, options: &[u8]) -> bool
    requires { 4 ≤ length options.now }
    ensures { result ≡ is_option order code size options.now }
{
    read_u16(order, options) == code
        && read_u16(order, after(options, 2)) == size
        && options.len() >= 4 + size as usize
}

/// Returns the unit of times that the value of an option says.
fn resolution_of(value: &[u8]) -> u8
    ensures { result ≡ resolution_of value.now }
{
    if value.is_empty() { 6 } else { value[0] }
}

/// Returns the seconds that the value of an option says.
fn offset_of(order: ByteOrder, value: &[u8]) -> i64
    ensures { result ≡ offset_of order value.now }
{
    if value.len() < 8 {
        0
    } else {
        read_u64(order, value).cast_signed()
    }
}

/// Returns the size of an option with its padding.
fn option_size(length: u16) -> usize
    ensures { result ≡ option_size length }
{
    4 + (length as usize + 3) / 4 * 4
}
