//! The items of a list that are reported, one after the other.

ghost use Rattle.std.specs.List.{concat};
ghost use Rattle.std.specs.Prelude.{◌≡◌, ◌↔◌, ◌≤◌, ◌<◌, ◌+◌, [], ◌∷◌, length, nat_le, IsOk, IfSome, IfNone, IfErr, if◌then◌else◌};
ghost use Rattle.dcsctp_tlv.specs.Number.{AreBytes};
ghost use Rattle.dcsctp_borrowed.specs.{Grammar.{whole}, Part.{part_of, item_of, front, after}};
ghost use Rattle.dcsctp_buffer.specs.{Buffer.{IsBegun, Declines}, Item.{IsLastChunk}};
ghost use Rattle.dcsctp_receive.specs.Chunks.{items_of};
ghost use Rattle.dcsctp_receive.specs.Unrecognized.{type_of, parameter_action, is_reported, stops, stop_offset, wholes, added_size, error_size, AreAdded, IsErrorAdded, IsSomeErrorAdded, HasRoomForAll, HasErrorRoom, HasSomeRoom};
ghost use Rattle.dcsctp_receive.specs.{Handling.{action_by, address_action}, Restart.{is_address}};

use crate::action::{Action, unrecognized_chunk, unrecognized_parameter};
use crate::items::{has_same, is_numbered};
use dcsctp_borrowed::part::{Item, Part};
use dcsctp_buffer::error::WriteError;
use dcsctp_buffer::item::{WritableItem, add_written, is_last_chunk};
use dcsctp_buffer::{MAX_SIZE, add, is_begun};
use dcsctp_chunk::raw_chunk::RawChunk;
use dcsctp_tlv::frame::{TLV_HEADER_SIZE, put_bytes};
use dcsctp_tlv::number::round_up_to_4;
use dcsctp_tlv::widths::are_bytes;
use dcsctp_wire::packet::error_chunk;

/// The parameter IPv4 Address (RFC 9260 section 3.3.2.1.1).
const IPV4_ADDRESS: u8 = 5;

/// The parameter IPv6 Address (RFC 9260 section 3.3.2.1.2).
const IPV6_ADDRESS: u8 = 6;

/// What is done with the items of a list.
#[derive(Clone, Copy)]
pub(crate) enum Handling<'a> {
    /// With chunks, of which these types are recognized.
    Chunks(&'a [u8]),
    /// With parameters, of which these types are recognized.
    Parameters(&'a [u16]),
    /// With the parameters of an INIT for an association of these addresses.
    Addresses(Part<'a>),
}

/// An item that is reported.
#[derive(Clone, Copy)]
pub(crate) struct Reported<'a> {
    /// Its bytes without padding.
    pub(crate) whole: Part<'a>,
    /// What is looked at after it.
    pub(crate) left: Part<'a>,
}

impl Handling<'_> {
    /// Returns what is done with the item; `None` where its type is recognized.
    fn action(self, item: Item<'_>) -> Option<Action>
        ensures { result ≡ action_by self.entry (item_of item.entry) }
    {
        match self {
            Handling::Chunks(known) => {
                if known.contains(&item.first) {
                    None
                } else {
                    Some(unrecognized_chunk(item.first))
                }
            }
            Handling::Parameters(known) => parameter_action(known, item),
            Handling::Addresses(known) => address_action(known, item),
        }
    }
}

/// Returns what is done with a parameter, of which these types are recognized.
fn parameter_action(known: &[u16], item: Item<'_>) -> Option<Action>
    ensures { result ≡ parameter_action known.now (item_of item.entry) }
{
    let typ = type_of(item);
    if known.contains(&typ) {
        None
    } else {
        Some(unrecognized_parameter(typ))
    }
}

/// Returns what is done with a parameter of an INIT for an association of these addresses: it is
/// listed where it is a new one.
fn address_action(known: Part<'_>, item: Item<'_>) -> Option<Action>
    ensures { result ≡ address_action (items_of (part_of known.entry)) (item_of item.entry) }
{
    if is_address(item) && !has_same(known, item) {
        Some(Action::SkipAndReport)
    } else {
        None
    }
}

/// Returns whether it is an IPv4 Address or an IPv6 Address.
fn is_address(item: Item<'_>) -> bool
    ensures { result ≡ is_address (item_of item.entry) }
{
    let size = item.value.bytes.len();
    (is_numbered(item, IPV4_ADDRESS) && size == 4)
        || (is_numbered(item, IPV6_ADDRESS) && size == 16)
}

/// Returns a list of parameters.
pub(crate) fn list_part(list: &[u8]) -> Part
    ensures { part_of result ≡ whole list.now }
{
    Part::packet(list, list.len())
}

/// Returns the type of a parameter.
fn type_of(item: Item<'_>) -> u16
    ensures { result ≡ type_of (item_of item.entry) }
{
    u16::from_be_bytes([item.first, item.second])
}

/// Returns whether an item is reported with which this is done.
fn is_reported(action: Option<Action>) -> bool
    ensures { result ≡ is_reported action }
{
    match action {
        Some(action) => action.reports(),
        None => false,
    }
}

/// Returns whether processing stops at an item with which this is done.
fn stops(action: Option<Action>) -> bool
    ensures { result ≡ stops action }
{
    match action {
        Some(action) => !action.skips(),
        None => false,
    }
}

/// Returns the next item of the list that is reported.
pub(crate) fn next_reported<'a>(list: Part<'a>, handling: Handling<'_>) -> Option<Reported<'a>>
    ensures found { IfSome result (λ r.
        wholes (action_by handling.entry) (items_of (part_of list.entry))
        ≡ r.whole.bytes.now ∷ wholes (action_by handling.entry) (items_of (part_of r.left))) }
    ensures less { IfSome result (λ r. length r.left.bytes.now < length list.entry.bytes.now) }
    ensures within { IfSome result (λ r.
        length r.whole.bytes.now + length r.left.bytes.now ≤ length list.entry.bytes.now) }
    ensures none { IfNone result
        (wholes (action_by handling.entry) (items_of (part_of list.entry)) ≡ []) }
{
    let mut rest = list;
    while let Some(item) = rest.item() {
        let action = handling.action(item);
        let left = left_after(rest, item.padded, stops(action));
        if is_reported(action) {
            are_bytes(rest.bytes);
            let whole = rest.front(TLV_HEADER_SIZE + item.value.size);
            return Some(Reported { whole, left });
        }
        rest = left;
    }
    None
}

/// Returns what is looked at after the first bytes.
fn left_after(rest: Part<'_>, count: usize, stops: bool) -> Part<'_>
    ensures { part_of result ≡ if stops then front 0 (after count (part_of rest.entry)) else
        after count (part_of rest.entry) }
{
    let left = rest.after(count);
    if stops { left.front(0) } else { left }
}

/// Returns the offset, from the front of the list, of the first item at which processing stops.
pub(crate) fn stop_offset(list: Part<'_>, handling: Handling<'_>) -> Option<usize>
    ensures offset { result
        ≡ stop_offset (action_by handling.entry) (items_of (part_of list.entry)) }
    ensures within { IfSome result (λ at. at ≤ length list.entry.bytes.now) }
{
    let mut rest = list;
    while let Some(item) = rest.item() {
        if stops(handling.action(item)) {
            return Some(list.bytes.len() - rest.bytes.len());
        }
        rest = rest.after(item.padded);
    }
    None
}

/// Returns whether parameters or causes whose values are the items that are reported fit into so
/// many bytes.
fn fit(list: Part<'_>, handling: Handling<'_>, room: usize) -> bool
    ensures { result ≡ nat_le
        (added_size (wholes (action_by handling.entry) (items_of (part_of list.entry)))) room }
{
    let mut rest = list;
    let mut left = room;
    while let Some(item) = next_reported(rest, handling) {
        let size = round_up_to_4(TLV_HEADER_SIZE + item.whole.bytes.len());
        if size > left {
            return false;
        }
        left -= size;
        rest = item.left;
    }
    true
}

/// Returns whether an ERROR with causes whose values are the items that are reported fits into so
/// many bytes.
fn error_fits(list: Part<'_>, handling: Handling<'_>, room: usize) -> bool
    ensures { result ≡ nat_le
        (error_size (wholes (action_by handling.entry) (items_of (part_of list.entry)))) room }
{
    match next_reported(list, handling) {
        Some(_) => room >= TLV_HEADER_SIZE && fit(list, handling, room - TLV_HEADER_SIZE),
        None => true,
    }
}

/// Bytes as the value of a parameter or of a cause.
#[derive(Clone, Copy)]
struct Copied<'a> {
    bytes: &'a [u8],
}

impl WritableItem for Copied<'_> {
    ghost value = { λ c. c.bytes.now };

    fn value_size(&self) -> usize {
        self.bytes.len()
    }

    fn put_value(&self, output: &mut [u8], place: usize) {
        put_bytes(output, place, self.bytes);
    }
}

/// The items of a list that are reported, one after the other, as the value of a cause.
#[derive(Clone, Copy)]
pub(crate) struct Listed<'a> {
    pub(crate) list: Part<'a>,
    pub(crate) handling: Handling<'a>,
}

impl WritableItem for Listed<'_> {
    ghost value = { λ l. concat (wholes (action_by l.handling) (items_of (part_of l.list))) };

    fn value_size(&self) -> usize {
        let _length = self.list.bytes.len();
        let mut rest = self.list;
        let mut size = 0;
        while let Some(item) = next_reported(rest, self.handling) {
            size += item.whole.bytes.len();
            rest = item.left;
        }
        size
    }

    fn put_value(&self, output: &mut [u8], place: usize) {
        let mut rest = self.list;
        let mut at = place;
        while let Some(item) = next_reported(rest, self.handling) {
            put_bytes(output, at, item.whole.bytes);
            at += item.whole.bytes.len();
            rest = item.left;
        }
    }
}

/// Adds a parameter or a cause of this type for each item that is reported, to the chunk that
/// begins at `start`.
///
/// Returns the first of these errors that is so, and then changes nothing: `BadPlace` where no
/// chunk begins at `start` and ends the packet; `NoRoom` where the packet has no room for all.
pub(crate) fn add_reported(
    buffer: &mut [u8],
    size: &mut usize,
    start: usize,
    typ: u16,
    list: Part<'_>,
    handling: Handling<'_>,
) -> Result<(), WriteError>
    ensures room { IsOk result ↔ HasRoomForAll buffer.old size.old start
        (wholes (action_by handling.entry) (items_of (part_of list.entry))) }
    ensures added { IsOk result → AreAdded typ start
        (wholes (action_by handling.entry) (items_of (part_of list.entry)))
        buffer.old size.old buffer.new size.new }
    ensures declined { IfErr result (Declines (IsLastChunk buffer.old size.old start) (Unit {0})
        (HasRoomForAll buffer.old size.old start
        (wholes (action_by handling.entry) (items_of (part_of list.entry))))) }
    ensures unchanged { IfErr result (λ e. (buffer.new ≡ buffer.old) × (size.new ≡ size.old)) }
{
    if !is_last_chunk(buffer, *size, start) {
        return Err(WriteError::BadPlace);
    }
    if !fit(list, handling, buffer.len().min(MAX_SIZE) - *size) {
        return Err(WriteError::NoRoom);
    }
    add_all(buffer, size, start, typ, list, handling)
}

/// Adds an ERROR with a cause of this code for each item that is reported; no ERROR where there is
/// none.
///
/// Returns the first of these errors that is so, and then changes nothing: `BadPlace` where the
/// size isn't that of a packet that was begun; `NoRoom` where the packet has no room for all.
pub(crate) fn add_error(
    buffer: &mut [u8],
    size: &mut usize,
    code: u16,
    list: Part<'_>,
    handling: Handling<'_>,
) -> Result<(), WriteError>
    ensures room { IsOk result ↔ HasErrorRoom (length buffer.old) size.old
        (wholes (action_by handling.entry) (items_of (part_of list.entry))) }
    ensures added { IsOk result → IsErrorAdded code
        (wholes (action_by handling.entry) (items_of (part_of list.entry)))
        buffer.old size.old buffer.new size.new }
    ensures declined { IfErr result (Declines (IsBegun (length buffer.old) size.old) (Unit {0})
        (HasErrorRoom (length buffer.old) size.old
        (wholes (action_by handling.entry) (items_of (part_of list.entry))))) }
    ensures unchanged { IfErr result (λ e. (buffer.new ≡ buffer.old) × (size.new ≡ size.old)) }
{
    if !is_begun(buffer.len(), *size) {
        return Err(WriteError::BadPlace);
    }
    if !error_fits(list, handling, buffer.len().min(MAX_SIZE) - *size) {
        return Err(WriteError::NoRoom);
    }
    match next_reported(list, handling) {
        Some(_) => add_some(buffer, size, code, list, handling),
        None => Ok(()),
    }
}

/// Adds an ERROR with its causes where there is room.
fn add_some(
    buffer: &mut [u8],
    size: &mut usize,
    code: u16,
    list: Part<'_>,
    handling: Handling<'_>,
) -> Result<(), WriteError>
    requires { HasSomeRoom (length buffer.old) size.old
        (wholes (action_by handling) (items_of (part_of list))) }
    ensures done { IsOk result }
    ensures added { IsSomeErrorAdded code
        (wholes (action_by handling.entry) (items_of (part_of list.entry)))
        buffer.old size.old buffer.new size.new }
{
    let start = *size;
    let error = RawChunk {
        typ: error_chunk::CHUNK_TYPE,
        flags: 0,
        value: &[],
    };
    add(buffer, size, &error)?;
    add_all(buffer, size, start, code, list, handling)
}

/// Adds them where there is room.
fn add_all(
    buffer: &mut [u8],
    size: &mut usize,
    start: usize,
    typ: u16,
    list: Part<'_>,
    handling: Handling<'_>,
) -> Result<(), WriteError>
    requires { HasRoomForAll buffer.old size.old start
        (wholes (action_by handling) (items_of (part_of list))) }
    ensures done { IsOk result }
    ensures added { AreAdded typ start
        (wholes (action_by handling.entry) (items_of (part_of list.entry)))
        buffer.old size.old buffer.new size.new }
{
    let mut rest = list;
    while let Some(item) = next_reported(rest, handling) {
        let value = Copied {
            bytes: item.whole.bytes,
        };
        add_written(buffer, size, start, typ, &value)?;
        rest = item.left;
    }
    Ok(())
}
