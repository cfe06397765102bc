//! What IANA's registry has beyond the kinds: the numbers, the address and the bytes of a chunk, a
//! parameter or an error cause that an owned packet keeps as bytes.

ghost use Rattle.std.specs.{Prelude.{◌≡◌, ◌+◌, ◌<◌, ◌^◌, length, Option, is_some, unwrap_or}};
ghost use Rattle.dcsctp_tlv.specs.Parameter.{ParameterTree};
ghost use Rattle.dcsctp_cause.specs.Cause.{CauseTree};
ghost use Rattle.dcsctp_wire.specs.Chunk.{ChunkTree};
ghost use Rattle.dcsctp_registry.specs.{Registered.{registered_chunk as kept_chunk, registered_parameter as kept_parameter, registered_cause as kept_cause}, declared.layout.Layout.{Layout as LaidOut}};
ghost use Rattle.dcsctp_c.specs.{Part.{ReadsInto, ChunkMeans}, Parameter.{ParameterMeans, CauseMeans}, Registered.{registered_chunk_at, registered_parameter_at, registered_cause_at, HoldsRegistered, struct_by}};

use crate::parameters::parameter_value;
use crate::parts::value_of;
use crate::registered_by_type::{cause_by_type, chunk_by_type, parameter_by_type};
use crate::structs::{DcsctpChunk, DcsctpParameter, DcsctpRegistered};
use dcsctp_registry::layout::Layout;
use dcsctp_registry::registered::Registered;

/// Reads a chunk that IANA's registry or a draft has and no other call reads: ECNE and CWR (RFC
/// 4960 appendix A), AUTH (RFC 4895 section 5.1), ASCONF and ASCONF ACK (RFC 5061 section 4.1), PAD
/// (RFC 4820 section 3), NR-SACK and PKTDROP. Reserved bytes are ignored.
///
/// Returns false, and `registered` stays, if and only if the chunk has another type, a value that
/// its type doesn't allow, of another size or with a broken list, or does not lie within the bytes.
#[unsafe(no_mangle)]
pub extern "C" fn dcsctp_registered_chunk(
    bytes: &[u8],
    chunk: &DcsctpChunk,
    registered: &mut DcsctpRegistered,
) -> bool
    ensures read { ReadsInto (HoldsRegistered bytes.now chunk.now.flags
        chunk.now.value_offset chunk.now.value_size)
        (registered_chunk_at bytes.now chunk.now) registered.old registered.new result }
    ensures means { (tree : ChunkTree) → ChunkMeans bytes.now chunk.now tree → ReadsInto
        (HoldsRegistered bytes.now chunk.now.flags chunk.now.value_offset chunk.now.value_size)
        (kept_chunk tree) registered.old registered.new result }
{
    match value_of(bytes, chunk) {
        Some(value) => {
            let placed = Placed {
                value,
                flags: chunk.flags,
                offset: chunk.value_offset,
            };
            put(chunk_by_type(chunk.typ, &placed), registered)
        }
        None => false,
    }
}

/// Reads a parameter that IANA's registry has and no other call reads: addresses and what else INIT
/// and INIT ACK may have (RFC 9260 sections 3.3.2.1 and 3.3.3.1.2; RFC 4820 section 4; RFC 4960
/// appendix A), what authenticates chunks (RFC 4895 section 3), and what is in ASCONF and ASCONF
/// ACK (RFC 5061 section 4.2).
///
/// Returns false, and `registered` stays, if and only if the parameter has another type, a value
/// that its type doesn't allow, of another size or with a broken list, or does not lie within the
/// bytes.
#[unsafe(no_mangle)]
pub extern "C" fn dcsctp_registered_parameter(
    bytes: &[u8],
    parameter: &DcsctpParameter,
    registered: &mut DcsctpRegistered,
) -> bool
    ensures read { ReadsInto
        (HoldsRegistered bytes.now 0 parameter.now.value_offset parameter.now.value_size)
        (registered_parameter_at bytes.now parameter.now) registered.old registered.new result }
    ensures means { (tree : ParameterTree) → ParameterMeans bytes.now parameter.now tree → ReadsInto
        (HoldsRegistered bytes.now 0 parameter.now.value_offset parameter.now.value_size)
        (kept_parameter tree) registered.old registered.new result }
{
    match parameter_value(bytes, parameter) {
        Some(value) => {
            let placed = Placed {
                value,
                flags: 0,
                offset: parameter.value_offset,
            };
            put(parameter_by_type(parameter.typ, &placed), registered)
        }
        None => false,
    }
}

/// Reads an error cause that IANA's registry has and no other call reads (RFC 9260 section 3.3.10,
/// RFC 4895 section 4.1, RFC 5061 section 4.3). Reserved bytes are ignored.
///
/// Returns false, and `registered` stays, if and only if the cause has another code, a value that
/// its code doesn't allow, of another size or with a broken list, or does not lie within the bytes.
#[unsafe(no_mangle)]
pub extern "C" fn dcsctp_registered_cause(
    bytes: &[u8],
    cause: &DcsctpParameter,
    registered: &mut DcsctpRegistered,
) -> bool
    ensures read { ReadsInto
        (HoldsRegistered bytes.now 0 cause.now.value_offset cause.now.value_size)
        (registered_cause_at bytes.now cause.now) registered.old registered.new result }
    ensures means { (tree : CauseTree) → CauseMeans bytes.now cause.now tree → ReadsInto
        (HoldsRegistered bytes.now 0 cause.now.value_offset cause.now.value_size)
        (kept_cause tree) registered.old registered.new result }
{
    match parameter_value(bytes, cause) {
        Some(value) => {
            let placed = Placed {
                value,
                flags: 0,
                offset: cause.value_offset,
            };
            put(cause_by_type(cause.typ, &placed), registered)
        }
        None => false,
    }
}

// ---- helpers

/// Writes what was read to its output field by field, if something was. Returns whether it was.
#[inline(always)]
fn put(found: Option<DcsctpRegistered>, output: &mut DcsctpRegistered) -> bool
    ensures done { result ≡ is_some found }
    ensures output { output.new ≡ unwrap_or found output.old }
{
    match found {
        Some(it) => {
            output.number = it.number;
            output.second_number = it.second_number;
            output.short_number = it.short_number;
            output.second_short_number = it.second_short_number;
            output.third_short_number = it.third_short_number;
            output.flags = it.flags;
            output.address_offset = it.address_offset;
            output.address_size = it.address_size;
            output.rest_offset = it.rest_offset;
            output.rest_size = it.rest_size;
            true
        }
        None => false,
    }
}

/// What makes something of the layout of a type, if it can.
pub(crate) trait ByLayout {
    type Made;

    ghost made: { Self → LaidOut → Option Self.Made };

    fn by(&self, layout: Layout) -> Option<Self::Made>
        ensures { result ≡ made self.now layout };
}

/// A value that lies at an offset, of a chunk with these flags: the struct is made of what it holds.
#[derive(Drop)]
struct Placed<'a> {
    value: &'a [u8],
    flags: u8,
    offset: usize,
    ghost fits: { offset + length value.now < 2 ^ 64 },
}

impl ByLayout for Placed<'_> {
    type Made = DcsctpRegistered;

    ghost made = { λ p l. struct_by l p.value.now p.flags p.offset };

    #[inline(always)]
    fn by(&self, layout: Layout) -> Option<DcsctpRegistered> {
        let found = Registered::read(layout, self.value)?;
        let (layout, offset, size) = (found.layout(), self.offset, self.value.len());
        let start = layout.front_size() + layout.address.header_size();
        let (address_offset, address_size) = match found.address() {
            Some(octets) => (offset + start.min(size), octets.len()),
            None => (0, 0),
        };
        let (rest_offset, rest_size) = match found.rest() {
            Some(rest) => (offset + size.saturating_sub(rest.len()), rest.len()),
            None => (0, 0),
        };
        Some(DcsctpRegistered {
            number: found.number(0).unwrap_or(0),
            second_number: found.number(1).unwrap_or(0),
            short_number: found.short_number(0).unwrap_or(0),
            second_short_number: found.short_number(1).unwrap_or(0),
            third_short_number: found.short_number(2).unwrap_or(0),
            flags: self.flags,
            address_offset,
            address_size,
            rest_offset,
            rest_size,
        })
    }
}
