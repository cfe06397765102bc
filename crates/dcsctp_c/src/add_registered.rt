//! What IANA's registry has beyond the kinds, as it is added to a packet: a chunk, or a parameter
//! or an error cause of its last chunk, made of a struct's numbers and of bytes.

ghost use Rattle.std.specs.Prelude.{◌≡◌, Some, option_map};
ghost use Rattle.dcsctp_registry.specs.{CauseLayouts.{cause_rows}, ChunkLayouts.{chunk_rows}, Layout.{Registered as Value, read, value_of}, ParameterLayouts.{parameter_rows}, Registered.{read_in}, declared.layout.Layout.{Layout as LaidOut}};
ghost use Rattle.dcsctp_c.specs.{AddRegistered.{value_by, value_with, AddsSomeChunk}, Writing.{AddsSomeItem, any_chunk}};

use crate::codes::unwritable;
use crate::lists::add_item;
use crate::parts::part_at;
use crate::registered::ByLayout;
use crate::registered_by_type::{cause_by_type, chunk_by_type, parameter_by_type};
use crate::structs::DcsctpRegistered;
use crate::writing::add_chunk;
use dcsctp_buffer::is_begun;
use dcsctp_buffer::item::is_last_chunk;
use dcsctp_registry::layout::{AddressForm, Layout, Rest};
use dcsctp_registry::registered::Registered;
use dcsctp_registry::registered_chunk::RegisteredChunk;
use dcsctp_registry::value_bytes::ValueBytes;

/// Adds a chunk of a type that `dcsctp_registered_chunk` reads, with these flags and numbers, and the
/// address and the rest that lie in the bytes. What the type does not carry is ignored; reserved
/// bytes are zero.
///
/// No chunk of another type can be written, nor one whose address or rest does not lie within the
/// bytes or isn't as the type has it: an address has 4 or 16 octets, a list is whole, and the lists
/// of an NR-SACK have as many items as its numbers say.
#[unsafe(no_mangle)]
pub extern "C" fn dcsctp_add_registered_chunk(
    packet: &mut [u8],
    size: &mut usize,
    typ: u8,
    registered: &DcsctpRegistered,
    bytes: &[u8],
) -> u32
    ensures added { AddsSomeChunk (option_map (any_chunk typ registered.now.flags)
        (option_map value_of (value_with chunk_rows typ bytes.now registered.now)))
        (record { bytes = packet.old; size = size.old })
        (record { bytes = packet.new; size = size.new }) result }
    ensures reads { (v : Value) → value_with chunk_rows typ bytes.now registered.now ≡ Some v
        → read_in chunk_rows typ (value_of v) ≡ Some v }
{
    reads_back(registered, bytes);
    match chunk_by_type(typ, &Given { registered, bytes }) {
        Some(value) => {
            let flags = registered.flags;
            add_chunk(packet, size, &RegisteredChunk { typ, flags, value })
        }
        None => unwritable(is_begun(packet.len(), *size)),
    }
}

/// Adds a parameter of a type that `dcsctp_registered_parameter` reads, with these numbers, and the
/// address and the rest that lie in the bytes. What the type does not carry is ignored.
///
/// No parameter of another type can be written, nor one whose address or rest does not lie within
/// the bytes or isn't as the type has it: an address has 4 or 16 octets, those of its type where
/// the type is IPv4 or IPv6 Address, and a list is whole.
#[unsafe(no_mangle)]
pub extern "C" fn dcsctp_add_registered_parameter(
    packet: &mut [u8],
    size: &mut usize,
    start: usize,
    typ: u16,
    registered: &DcsctpRegistered,
    bytes: &[u8],
) -> u32
    ensures added { AddsSomeItem start typ
        (option_map value_of (value_with parameter_rows typ bytes.now registered.now))
        (record { bytes = packet.old; size = size.old })
        (record { bytes = packet.new; size = size.new }) result }
    ensures reads { (v : Value) → value_with parameter_rows typ bytes.now registered.now ≡ Some v
        → read_in parameter_rows typ (value_of v) ≡ Some v }
{
    reads_back(registered, bytes);
    match parameter_by_type(typ, &Given { registered, bytes }) {
        Some(value) => add_item(packet, size, start, typ, &value),
        None => unwritable(is_last_chunk(packet, *size, start)),
    }
}

/// Adds an error cause of a code that `dcsctp_registered_cause` reads, with these numbers, and the
/// rest that lies in the bytes. What the code does not carry is ignored; reserved bytes are zero.
///
/// No cause of another code can be written, nor one whose rest does not lie within the bytes or
/// isn't a list that is whole where the code has one.
#[unsafe(no_mangle)]
pub extern "C" fn dcsctp_add_registered_cause(
    packet: &mut [u8],
    size: &mut usize,
    start: usize,
    code: u16,
    registered: &DcsctpRegistered,
    bytes: &[u8],
) -> u32
    ensures added { AddsSomeItem start code
        (option_map value_of (value_with cause_rows code bytes.now registered.now))
        (record { bytes = packet.old; size = size.old })
        (record { bytes = packet.new; size = size.new }) result }
    ensures reads { (v : Value) → value_with cause_rows code bytes.now registered.now ≡ Some v
        → read_in cause_rows code (value_of v) ≡ Some v }
{
    reads_back(registered, bytes);
    match cause_by_type(code, &Given { registered, bytes }) {
        Some(value) => add_item(packet, size, start, code, &value),
        None => unwritable(is_last_chunk(packet, *size, start)),
    }
}

// ---- helpers

/// A struct and bytes that a program gives: of them a value's bytes are made.
#[derive(Drop)]
struct Given<'a> {
    registered: &'a DcsctpRegistered,
    bytes: &'a [u8],
}

impl<'a> ByLayout for Given<'a> {
    type Made = ValueBytes<'a>;

    ghost made = { λ g l. option_map value_of (value_by g.bytes.now g.registered.now l) };

    #[inline(always)]
    fn by(&self, layout: Layout) -> Option<ValueBytes<'a>> {
        let (it, bytes) = (self.registered, self.bytes);
        let address = match layout.address {
            AddressForm::Nothing => None,
            _ => part_at(bytes, it.address_offset, it.address_size),
        };
        let rest = match layout.rest {
            Rest::Nothing => None,
            _ => part_at(bytes, it.rest_offset, it.rest_size),
        };
        let numbers = [it.number, it.second_number];
        let short_numbers = [
            it.short_number,
            it.second_short_number,
            it.third_short_number,
        ];
        let value = Registered::new(layout, numbers, short_numbers, address, rest)?;
        Some(value.to_bytes())
    }
}

/// Proves that a value which is made of the struct reads as the same, by its layout.
#[inline(always)]
fn reads_back(registered: &DcsctpRegistered, bytes: &[u8])
    ensures { (l : LaidOut) (v : Value) → value_by bytes.now registered.now l ≡ Some v
        → read l (value_of v) ≡ Some v }
{
    let _number = registered.number;
    let _second_number = registered.second_number;
    let _short_number = registered.short_number;
    let _second_short_number = registered.second_short_number;
    let _third_short_number = registered.third_short_number;
}
