//! What isn't recognized, reported all at once: the parameters of an INIT in the INIT ACK, those of
//! another chunk, and the chunks of a packet, in an ERROR.

ghost use Rattle.std.specs.Prelude.{◌≡◌, ◌↔◌, ℕ, length, IsOk, IfOk, IfErr, IfSome, option_map, ◌<◌, ◌^◌, ◌+◌};
ghost use Rattle.dcsctp_wire.specs.{Packet.{Meaning}, Chunk.{ChunkTree}};
ghost use Rattle.dcsctp_buffer.specs.{Buffer.{HoldsPacket, IsBegun, Declines, with_chunk}, Item.{IsLastChunk}};
ghost use Rattle.dcsctp_receive.specs.Unrecognized.{unrecognized_parameters, unrecognized_chunks, parameter_stop, chunk_stop, AreAdded, IsErrorAdded, HasRoomForAll, HasErrorRoom, extended_by, with_error};

use crate::items::chunk_part;
use crate::reported::{Handling, add_error, add_reported, list_part, stop_offset};
use dcsctp_buffer::error::WriteError;
use dcsctp_wire::packet::sctp_packet::COMMON_HEADER_SIZE;
use dcsctp_wire::packet::unrecognized_chunk_error_cause::CAUSE_CODE as UNRECOGNIZED_CHUNK;

/// The type of the parameter Unrecognized Parameter (RFC 9260 section 3.3.3.1.2), and the code of
/// the cause Unrecognized Parameters (section 3.3.10.8).
const UNRECOGNIZED_PARAMETER: u16 = 8;

/// Adds an Unrecognized Parameter (RFC 9260 section 3.3.3.1.2) for each parameter of an INIT that
/// is reported (section 3.2.2), to the INIT ACK, the packet's last chunk, which begins at `start`.
///
/// `list` holds the INIT's parameters, after its fixed-length ones, and `known` the types that are
/// recognized. Of the others those are reported of which section 3.2.1 says so, whole, in order and
/// without padding, up to the first at which processing stops, and with it. What comes after the
/// first whose length is impossible isn't looked at.
///
/// Returns the offset in the list of the parameter at which processing stops; `None` where it stops
/// at none. Returns the first of these errors that is so, and then changes nothing: `BadPlace` as
/// `add_item` of `dcsctp_buffer` does; `NoRoom` where the packet has no room for all, in the buffer
/// or in the 65,532 bytes that a packet can have.
pub fn add_unrecognized_parameters(
    buffer: &mut [u8],
    size: &mut usize,
    start: usize,
    list: &[u8],
    known: &[u16],
) -> Result<Option<usize>, WriteError>
    ensures room { IsOk result ↔ HasRoomForAll buffer.old size.old start
        (unrecognized_parameters known.now list.now) }
    ensures stop { IfOk result (λ stop. stop ≡ parameter_stop known.now list.now) }
    ensures added { IsOk result → AreAdded 8 start (unrecognized_parameters known.now list.now)
        buffer.old size.old buffer.new size.new }
    ensures held { IsOk result → (m : Meaning) (t : ChunkTree) → HoldsPacket buffer.old start m
        → HoldsPacket buffer.old size.old (with_chunk m t)
        → HoldsPacket buffer.new size.new (with_chunk m
        (extended_by t 8 (unrecognized_parameters known.now list.now))) }
    ensures declined { IfErr result (Declines (IsLastChunk buffer.old size.old start) (Unit {0})
        (HasRoomForAll buffer.old size.old start
        (unrecognized_parameters known.now list.now))) }
    ensures unchanged { IfErr result (λ e. (buffer.new ≡ buffer.old) × (size.new ≡ size.old)) }
{
    let parameters = list_part(list);
    let handling = Handling::Parameters(known);
    add_reported(
        buffer,
        size,
        start,
        UNRECOGNIZED_PARAMETER,
        parameters,
        handling,
    )?;
    Ok(stop_offset(parameters, handling))
}

/// Adds an ERROR with a cause Unrecognized Parameters (RFC 9260 section 3.3.10.8) for each
/// parameter of an INIT ACK, or of another chunk but INIT, that is reported (section 3.2.2); no
/// ERROR where there is none.
///
/// The packet is the one that answers: that of an INIT ACK begins with COOKIE ECHO. `list` and
/// `known` are as of `add_unrecognized_parameters`, and the same are reported.
///
/// Returns the offset in the list of the parameter at which processing stops; `None` where it stops
/// at none. Returns the first of these errors that is so, and then changes nothing: `BadPlace` as
/// `add` of `dcsctp_buffer` does; `NoRoom` where the packet has no room for the whole ERROR, in the
/// buffer or in the 65,532 bytes that a packet can have.
pub fn add_unrecognized_parameters_error(
    buffer: &mut [u8],
    size: &mut usize,
    list: &[u8],
    known: &[u16],
) -> Result<Option<usize>, WriteError>
    ensures room { IsOk result ↔ HasErrorRoom (length buffer.old) size.old
        (unrecognized_parameters known.now list.now) }
    ensures stop { IfOk result (λ stop. stop ≡ parameter_stop known.now list.now) }
    ensures added { IsOk result → IsErrorAdded 8 (unrecognized_parameters known.now list.now)
        buffer.old size.old buffer.new size.new }
    ensures held { IsOk result → (m : Meaning) → HoldsPacket buffer.old size.old m
        → HoldsPacket buffer.new size.new
        (with_error m 8 (unrecognized_parameters known.now list.now)) }
    ensures declined { IfErr result (Declines (IsBegun (length buffer.old) size.old) (Unit {0})
        (HasErrorRoom (length buffer.old) size.old
        (unrecognized_parameters known.now list.now))) }
    ensures unchanged { IfErr result (λ e. (buffer.new ≡ buffer.old) × (size.new ≡ size.old)) }
{
    let parameters = list_part(list);
    let handling = Handling::Parameters(known);
    add_error(buffer, size, UNRECOGNIZED_PARAMETER, parameters, handling)?;
    Ok(stop_offset(parameters, handling))
}

/// Adds an ERROR with a cause Unrecognized Chunk Type (RFC 9260 section 3.3.10.6) for each chunk of
/// a packet that is reported (section 3.2); no ERROR where there is none.
///
/// `packet` is the one that came, and `known` holds the types that are recognized. Of the others
/// those are reported of which section 3.2 says so, whole, in order and without padding, up to the
/// first at which processing stops, and with it. What comes after the first whose length is
/// impossible isn't looked at.
///
/// Returns the offset in the packet of the chunk at which processing stops: what comes before it is
/// processed. `None` where it stops at none. Returns the first of these errors that is so, and then
/// changes nothing: `BadPlace` as `add` of `dcsctp_buffer` does; `NoRoom` where the packet has no
/// room for the whole ERROR, in the buffer or in the 65,532 bytes that a packet can have.
pub fn add_unrecognized_chunks(
    buffer: &mut [u8],
    size: &mut usize,
    packet: &[u8],
    known: &[u8],
) -> Result<Option<usize>, WriteError>
    ensures room { IsOk result ↔ HasErrorRoom (length buffer.old) size.old
        (unrecognized_chunks known.now packet.now) }
    ensures stop { IfOk result (λ stop. stop ≡ chunk_stop known.now packet.now) }
    ensures added { IsOk result → IsErrorAdded 6 (unrecognized_chunks known.now packet.now)
        buffer.old size.old buffer.new size.new }
    ensures held { IsOk result → (m : Meaning) → HoldsPacket buffer.old size.old m
        → HoldsPacket buffer.new size.new
        (with_error m 6 (unrecognized_chunks known.now packet.now)) }
    ensures declined { IfErr result (Declines (IsBegun (length buffer.old) size.old) (Unit {0})
        (HasErrorRoom (length buffer.old) size.old
        (unrecognized_chunks known.now packet.now))) }
    ensures unchanged { IfErr result (λ e. (buffer.new ≡ buffer.old) × (size.new ≡ size.old)) }
{
    let _length = packet.len();
    let chunks = chunk_part(packet);
    let handling = Handling::Chunks(known);
    add_error(buffer, size, UNRECOGNIZED_CHUNK, chunks, handling)?;
    Ok(in_packet(stop_offset(chunks, handling)))
}

/// Returns the offset in a packet of what has this one after the common header.
fn in_packet(offset: Option<usize>) -> Option<usize>
    requires { IfSome offset (λ at. 12 + at < 2 ^ 64) }
    ensures { result ≡ option_map (λ at. 12 + at) offset }
{
    match offset {
        Some(at) => Some(COMMON_HEADER_SIZE + at),
        None => None,
    }
}
