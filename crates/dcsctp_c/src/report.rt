//! What a program doesn't recognize, and addresses that it doesn't know, reported all at once: the
//! calls of `dcsctp_receive`.

ghost use Rattle.std.specs.{Prelude.{◌≡◌, ◌≢◌, length}, Option.{unwrap_or}};
ghost use Rattle.dcsctp_wire.specs.{Packet.{Meaning}, Chunk.{ChunkTree}};
ghost use Rattle.dcsctp_buffer.specs.Buffer.{HoldsPacket, with_chunk};
ghost use Rattle.dcsctp_receive.specs.Unrecognized.{unrecognized_parameters, unrecognized_chunks, parameter_stop, chunk_stop, extended_by, with_error};
ghost use Rattle.dcsctp_receive.specs.Restart.{adds_addresses, new_addresses};
ghost use Rattle.dcsctp_c.specs.{Report.{AddsEach, AddsError}, Writing.{AddsItem}};

use crate::codes::{OK, write_code};
use dcsctp_receive::restart::{add_new_addresses, adds_addresses};
use dcsctp_receive::unrecognized::{
    add_unrecognized_chunks, add_unrecognized_parameters, add_unrecognized_parameters_error,
};

/// Adds an Unrecognized Parameter (RFC 9260 section 3.3.3.1.2) to the INIT ACK that begins at
/// `start`, for each parameter of an INIT that is reported (section 3.2.2). `list` are the INIT's
/// parameters, and `known` the types that are recognized. Of the others those are reported of which
/// section 3.2.1 says so, whole and in order, up to the first at which processing stops, and with
/// it.
///
/// Sets `end` to the offset in the list of the parameter at which processing stops, or to the
/// list's size where it stops at none. Returns 0; or changes nothing, and returns `BAD_PLACE` where
/// no chunk begins at `start` and ends the packet, else `NO_ROOM` where the packet has no room for
/// all.
#[unsafe(no_mangle)]
pub extern "C" fn dcsctp_add_unrecognized_parameters(
    packet: &mut [u8],
    size: &mut usize,
    start: usize,
    list: &[u8],
    known: &[u16],
    end: &mut usize,
) -> u32
    ensures added { AddsEach start 8 (unrecognized_parameters known.now list.now)
        (record { bytes = packet.old; size = size.old })
        (record { bytes = packet.new; size = size.new }) result }
    ensures end { result ≡ 0
        → end.new ≡ unwrap_or (parameter_stop known.now list.now) (length list.now) }
    ensures held { result ≡ 0 → (m : Meaning) (t : ChunkTree) → HoldsPacket packet.old start m
        → HoldsPacket packet.old size.old (with_chunk m t)
        → HoldsPacket packet.new size.new (with_chunk m
        (extended_by t 8 (unrecognized_parameters known.now list.now))) }
    ensures stays { result ≢ 0 → end.new ≡ end.old }
{
    match add_unrecognized_parameters(packet, size, start, list, known) {
        Ok(stop) => {
            *end = stop.unwrap_or(list.len());
            OK
        }
        Err(error) => write_code(error),
    }
}

/// Adds an ERROR with a cause Unrecognized Parameters (RFC 9260 section 3.3.10.8) for each
/// parameter of an INIT ACK, or of another chunk but INIT, that is reported (section 3.2.2); no
/// ERROR where there is none. `list` are its parameters, and the same are reported as by
/// `dcsctp_add_unrecognized_parameters`.
///
/// Sets `end` to the offset in the list of the parameter at which processing stops, or to the
/// list's size where it stops at none. Returns 0; or changes nothing, and returns `BAD_PLACE` where
/// the size isn't that of a packet that was begun, else `NO_ROOM` where the packet has no room for
/// all.
#[unsafe(no_mangle)]
pub extern "C" fn dcsctp_add_unrecognized_parameters_error(
    packet: &mut [u8],
    size: &mut usize,
    list: &[u8],
    known: &[u16],
    end: &mut usize,
) -> u32
    ensures added { AddsError 8 (unrecognized_parameters known.now list.now)
        (record { bytes = packet.old; size = size.old })
        (record { bytes = packet.new; size = size.new }) result }
    ensures end { result ≡ 0
        → end.new ≡ unwrap_or (parameter_stop known.now list.now) (length list.now) }
    ensures held { result ≡ 0 → (m : Meaning) → HoldsPacket packet.old size.old m
        → HoldsPacket packet.new size.new
        (with_error m 8 (unrecognized_parameters known.now list.now)) }
    ensures stays { result ≢ 0 → end.new ≡ end.old }
{
    match add_unrecognized_parameters_error(packet, size, list, known) {
        Ok(stop) => {
            *end = stop.unwrap_or(list.len());
            OK
        }
        Err(error) => write_code(error),
    }
}

/// Adds an ERROR with a cause Unrecognized Chunk Type (RFC 9260 section 3.3.10.6) for each chunk of
/// a packet that is reported (section 3.2); no ERROR where there is none. `bytes` are the packet
/// that came, and `known` the types that are recognized. Of the others those are reported of which
/// section 3.2 says so, whole and in order, up to the first at which processing stops, and with it.
///
/// Sets `end` to the offset in the bytes of the chunk at which processing stops, or to their number
/// where it stops at none. Returns 0; or changes nothing, and returns `BAD_PLACE` where the size
/// isn't that of a packet that was begun, else `NO_ROOM` where the packet has no room for all.
#[unsafe(no_mangle)]
pub extern "C" fn dcsctp_add_unrecognized_chunks(
    packet: &mut [u8],
    size: &mut usize,
    bytes: &[u8],
    known: &[u8],
    end: &mut usize,
) -> u32
    ensures added { AddsError 6 (unrecognized_chunks known.now bytes.now)
        (record { bytes = packet.old; size = size.old })
        (record { bytes = packet.new; size = size.new }) result }
    ensures end { result ≡ 0
        → end.new ≡ unwrap_or (chunk_stop known.now bytes.now) (length bytes.now) }
    ensures held { result ≡ 0 → (m : Meaning) → HoldsPacket packet.old size.old m
        → HoldsPacket packet.new size.new
        (with_error m 6 (unrecognized_chunks known.now bytes.now)) }
    ensures stays { result ≢ 0 → end.new ≡ end.old }
{
    match add_unrecognized_chunks(packet, size, bytes, known) {
        Ok(stop) => {
            *end = stop.unwrap_or(bytes.len());
            OK
        }
        Err(error) => write_code(error),
    }
}

/// Returns whether an INIT adds addresses to an association (RFC 9260 section 5.2.2). `list` are
/// its parameters, and `known` the association's addresses, as parameters too.
#[unsafe(no_mangle)]
pub extern "C" fn dcsctp_adds_addresses(list: &[u8], known: &[u8]) -> bool
    ensures { result ≡ adds_addresses known.now list.now }
{
    adds_addresses(list, known)
}

/// Adds to the ABORT that begins at `start` the error cause Restart of an Association with New
/// Addresses (RFC 9260 section 3.3.10.11), with the addresses that an INIT adds, as they are in it.
/// `list` and `known` are as of `dcsctp_adds_addresses`.
#[unsafe(no_mangle)]
pub extern "C" fn dcsctp_add_new_addresses(
    packet: &mut [u8],
    size: &mut usize,
    start: usize,
    list: &[u8],
    known: &[u8],
) -> u32
    ensures { AddsItem start 11 (new_addresses known.now list.now)
        (record { bytes = packet.old; size = size.old })
        (record { bytes = packet.new; size = size.new }) result }
{
    match add_new_addresses(packet, size, start, list, known) {
        Ok(_) => OK,
        Err(error) => write_code(error),
    }
}
