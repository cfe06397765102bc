//! The chunks of a packet, and the parameters and error causes in a chunk, whatever the bytes are.

ghost use Rattle.std.specs.Prelude.{◌≡◌, Some, option_map, find};
ghost use Rattle.std.specs.List.{list_any};
ghost use Rattle.dcsctp_borrowed.specs.{Grammar.{whole}, Part.{part_of, item_of}};
ghost use Rattle.dcsctp_receive.specs.Chunks.{chunk_part, items_of, is_wanted, is_numbered, is_same, contains, begins_with, after_auth, only, is_only, t_bit};

use crate::chunk_test::{ChunkTest, some};
use crate::chunk_type;
use dcsctp_borrowed::part::{Item, Part};
use dcsctp_chunk::flags::is_set;
use dcsctp_wire::packet::sctp_packet::COMMON_HEADER_SIZE;

/// What is looked for among items.
#[derive(Clone, Copy)]
enum Wanted<'a> {
    /// A chunk of this type.
    Chunk(u8),
    /// A parameter or an error cause of this type.
    Numbered(u8),
    /// An item of this type, with this value.
    Same(Item<'a>),
}

impl Wanted<'_> {
    /// Returns whether the item is looked for.
    fn is_met(self, item: Item<'_>) -> bool
        ensures { result ≡ is_wanted self.entry (item_of item.entry) }
    {
        match self {
            Wanted::Chunk(typ) => item.first == typ,
            Wanted::Numbered(typ) => is_numbered(item, typ),
            Wanted::Same(other) => item.first == other.first
                && item.second == other.second
                && item.value.bytes == other.value.bytes,
        }
    }
}

/// Returns whether a parameter or an error cause has this type.
pub(crate) fn is_numbered(item: Item<'_>, typ: u8) -> bool
    ensures { result ≡ is_numbered typ (item_of item.entry) }
{
    item.first == 0 && item.second == typ
}

/// Returns what follows the common header of a packet.
pub(crate) fn chunk_part(packet: &[u8]) -> Part
    ensures { part_of result ≡ chunk_part (whole packet.now) }
{
    Part::packet(packet, packet.len()).after(COMMON_HEADER_SIZE)
}

/// Returns the first item that is looked for.
fn first<'a>(list: Part<'a>, wanted: Wanted<'_>) -> Option<Item<'a>>
    ensures { option_map item_of result
        ≡ find (is_wanted wanted.entry) (items_of (part_of list.entry)) }
{
    let mut items = list.items();
    while let Some(item) = items.next() {
        if wanted.is_met(item) {
            return Some(item);
        }
    }
    None
}

/// Returns whether a chunk has this type.
pub(crate) fn contains(chunks: Part<'_>, typ: u8) -> bool
    ensures { result ≡ contains typ (items_of (part_of chunks.entry)) }
{
    some(chunks, ChunkTest::Type(typ))
}

/// Returns whether a parameter or an error cause has this type.
pub(crate) fn has_numbered(list: Part<'_>, typ: u8) -> bool
    ensures { result ≡ list_any (is_numbered typ) (items_of (part_of list.entry)) }
{
    match first(list, Wanted::Numbered(typ)) {
        Some(_) => true,
        None => false,
    }
}

/// Returns whether an item of the list has the same type and value.
pub(crate) fn has_same(list: Part<'_>, item: Item<'_>) -> bool
    ensures { result ≡ list_any (is_same (item_of item.entry)) (items_of (part_of list.entry)) }
{
    match first(list, Wanted::Same(item)) {
        Some(_) => true,
        None => false,
    }
}

/// Returns whether the first chunk has this type.
pub(crate) fn begins_with(chunks: Part<'_>, typ: u8) -> bool
    ensures { result ≡ begins_with typ (items_of (part_of chunks.entry)) }
{
    match chunks.item() {
        Some(chunk) => chunk.first == typ,
        None => false,
    }
}

/// Returns the chunks without an AUTH at the front: of these COOKIE ECHO is the first.
pub(crate) fn after_auth(chunks: Part<'_>) -> Part<'_>
    ensures { items_of (part_of result) ≡ after_auth (items_of (part_of chunks.entry)) }
{
    match chunks.item() {
        Some(chunk) => {
            if chunk.first == chunk_type::AUTH {
                chunks.after(chunk.padded)
            } else {
                chunks
            }
        }
        None => chunks,
    }
}

/// Returns the only chunk, if it has this type.
pub(crate) fn only(chunks: Part<'_>, typ: u8) -> Option<Item<'_>>
    ensures { option_map item_of result ≡ only typ (items_of (part_of chunks.entry)) }
{
    match chunks.item() {
        Some(chunk) => match chunks.after(chunk.padded).item() {
            Some(_) => None,
            None => {
                if chunk.first == typ {
                    Some(chunk)
                } else {
                    None
                }
            }
        },
        None => None,
    }
}

/// Returns whether a chunk of this type is the only one.
pub(crate) fn is_only(chunks: Part<'_>, typ: u8) -> bool
    ensures { result ≡ is_only typ (items_of (part_of chunks.entry)) }
{
    match only(chunks, typ) {
        Some(_) => true,
        None => false,
    }
}

/// Returns the T bit of the first chunk of this type.
pub(crate) fn t_bit(chunks: Part<'_>, typ: u8) -> bool
    ensures { result ≡ t_bit typ (items_of (part_of chunks.entry)) }
{
    match first(chunks, Wanted::Chunk(typ)) {
        Some(chunk) => is_set(chunk.second, 0),
        None => false,
    }
}
