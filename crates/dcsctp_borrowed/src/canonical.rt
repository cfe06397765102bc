//! The canonical packet, written of the bytes that mean it: nothing is built or allocated.

ghost use Rattle.std.specs.{Prelude.{◌≡◌, ◌≢◌, ◌≤◌, ◌<◌, ◌+◌, ◌*◌, ◌^◌, ◌++◌, ℕ, List, [], IfOk, IfErr, IsErrOf, length, take, drop}, Int.{w16, from_be_bytes}};
ghost use Rattle.dcsctp_tlv.specs.{Frame.{frame_length}, Image.{Tlv, Sizes, size_of, image_of, solid_tlv, put, written, list_image}};
ghost use Rattle.dcsctp_chunk.specs.SkippedStreams.{stream_count};
ghost use Rattle.dcsctp_cause.specs.Text.{text_or};
ghost use Rattle.dcsctp_wire.specs.{Canonical.{canonical, Fits, IsCanonicalOf}, Packet.{PacketTree}};
ghost use Rattle.dcsctp_borrowed.specs.{PacketRef.{RefersTo}, Rewritten.{Again, IsSized, item_again, items_of, again_size, listed_again, parameter_again, cause_again, chunk_again, parameter_sized, cause_sized, chunk_sized, without_reserved, cause_value, flags_again, value_again, stream_again, streams_again}};
ghost use Rattle.dcsctp_borrowed.specs.declared.canonical.CanonicalError.TheVariants.{DoesNotFit, NoRoom};

use crate::laws::has_canonical;
use crate::packet_ref::SctpPacketRef;
use dcsctp_tlv::frame::{
    MAX_VALUE_SIZE, TLV_HEADER_SIZE, item_size, put_bytes, put_header, put_solid, split_frame,
};
use dcsctp_tlv::number::{read_u16_be, round_up_to_4};
use dcsctp_wire::packet::init_chunk::InitNumbers;
use dcsctp_wire::packet::sctp_packet::{COMMON_HEADER_SIZE, CommonHeader};
use dcsctp_wire::packet::{
    abort_chunk, add_incoming_streams_request_parameter, add_outgoing_streams_request_parameter,
    cookie_ack_chunk, cookie_echo_chunk, data_chunk, error_chunk, forward_tsn_chunk,
    heartbeat_ack_chunk, heartbeat_request_chunk, idata_chunk, iforward_tsn_chunk, init_ack_chunk,
    init_chunk, protocol_violation_error_cause, re_config_chunk, sack_chunk, shutdown_ack_chunk,
    shutdown_chunk, shutdown_complete_chunk, user_initiated_abort_error_cause,
};
use thiserror::Error;

/// The most bytes of a canonical packet, whose size is a multiple of 4.
const MAX_CANONICAL_SIZE: usize = 65532;

/// Why a canonical packet isn't written. Nothing was changed.
#[derive(Clone, Copy, Debug, PartialEq, Eq, Error)]
pub enum CanonicalError {
    /// It would have more than 65,532 bytes.
    #[error("The canonical packet would be too long")]
    DoesNotFit,
    /// It has more bytes than the output.
    #[error("The output has no room for the canonical packet")]
    NoRoom,
}

/// Returns how many bytes the canonical packet has: what `canonical_size` returns of the packet
/// that `SctpPacket::from_bytes` reads. `None` if and only if it doesn't fit. Does not allocate.
pub fn canonical_size(packet: &SctpPacketRef) -> Option<usize>
    ensures { (p : PacketTree) → RefersTo packet.now p
        → Sizes result (Fits p.meaning) (length (canonical p.meaning)) }
{
    let Some(size) = items_size::<Chunks>(packet.chunks.bytes()) else {
        return None;
    };
    if size > MAX_CANONICAL_SIZE - COMMON_HEADER_SIZE {
        return None;
    }
    Some(COMMON_HEADER_SIZE + round_up_to_4(size))
}

/// Writes the canonical packet to the front of `output`, and returns its size. It is what
/// `canonical_bytes` returns of the packet that `SctpPacket::from_bytes` reads. Does not allocate.
///
/// `DoesNotFit` if and only if it doesn't fit; then `NoRoom` if and only if it has more bytes than
/// `output`. The bytes after it stay, and an error changes nothing. Two packets with a chunk have
/// the same one if and only if they mean the same.
pub fn write_canonical(packet: &SctpPacketRef, output: &mut [u8]) -> Result<usize, CanonicalError>
    ensures written { IfOk result (λ n. (p : PacketTree) → RefersTo packet.now p
        → (Fits p.meaning) × (n ≡ length (canonical p.meaning))
        × (output.new ≡ canonical p.meaning ++ drop n output.old)) }
    ensures one { IfOk result (λ n. (p : PacketTree) → RefersTo packet.now p
        → p.meaning.chunks ≢ [] → IsCanonicalOf p.meaning (take n output.new)) }
    ensures too_long { IsErrOf result DoesNotFit → (p : PacketTree) → RefersTo packet.now p
        → ¬ Fits p.meaning }
    ensures no_room { IsErrOf result NoRoom → (p : PacketTree) → RefersTo packet.now p
        → (Fits p.meaning) × (length output.old < length (canonical p.meaning)) }
    ensures stays { IfErr result (λ _. output.new ≡ output.old) }
{
    has_canonical(packet);
    let chunks = packet.chunks.bytes();
    let Some(size) = canonical_size(packet) else {
        return Err(CanonicalError::DoesNotFit);
    };
    if output.len() < size {
        return Err(CanonicalError::NoRoom);
    }
    let (front, _) = output.split_at_mut(size);
    front.fill(0);
    let (header, body) = front.split_at_mut(COMMON_HEADER_SIZE);
    let written = CommonHeader {
        checksum: 0,
        ..packet.common_header
    };
    header.copy_from_slice(&written.bytes());
    put_items::<Chunks>(chunks, body);
    Ok(size)
}

/// How the items of a level are written again: by their first two bytes and their value.
trait Rewrite {
    ghost again: { Again };

    /// Returns how many bytes the item has; `None` if and only if two bytes can't hold this.
    fn size(first: u8, second: u8, value: &[u8]) -> Option<usize>
        ensures { Sizes result (size_of (again first second value.now) < 2 ^ 16)
            (size_of (again first second value.now)) };

    /// Writes the item at the front of `output`; what it leaves out, and the bytes after it, stay.
    fn put(first: u8, second: u8, value: &[u8], output: &mut [u8])
        requires encodable { size_of (again first second value.now) < 2 ^ 16 }
        requires room { size_of (again first second value.now) ≤ length output.old }
        ensures { output.new ≡ written (image_of (again first second value.now)) output.old };

    ghost sized: { (first second : ℕ) (value : List ℕ) → IsSized (again first second value) };
}

/// Returns how many bytes the items have that lie in the bytes, without padding after the last;
/// `None` if and only if two bytes can't hold this.
fn items_size<R: Rewrite>(list: &[u8]) -> Option<usize>
    ensures { Sizes result (again_size R.again list.now < 2 ^ 16) (again_size R.again list.now) }
{
    let mut end: usize = 0;
    let mut rest = list;
    while let Ok((value, left)) = split_frame(rest) {
        let Some(size) = R::size(rest[0], rest[1], value) else {
            return None;
        };
        end = round_up_to_4(end) + size;
        if end > 65535 {
            return None;
        }
        rest = left;
    }
    Some(end)
}

/// Writes the items that lie in the bytes, each but the last up to a multiple of 4, and returns how
/// many bytes they have. The bytes between them, and those after them, stay.
fn put_items<R: Rewrite>(list: &[u8], output: &mut [u8]) -> usize
    requires encodable { again_size R.again list.now < 2 ^ 16 }
    requires room { again_size R.again list.now ≤ length output.old }
    ensures written { output.new
        ≡ written (list_image (item_again R.again) (items_of list.now)) output.old }
    ensures size { result ≡ again_size R.again list.now }
{
    let mut end: usize = 0;
    let mut rest = list;
    while let Ok((value, left)) = split_frame(rest) {
        let start = round_up_to_4(end);
        let (_, place) = output.split_at_mut(start);
        R::put(rest[0], rest[1], value, place);
        // The length that was written: the item needn't be sized again.
        end = start + length_field(place) as usize;
        rest = left;
    }
    end
}

/// Returns the length field of the item at the front.
fn length_field(bytes: &[u8]) -> u16
    requires { 4 ≤ length bytes.now }
    ensures { result ≡ frame_length bytes.now }
{
    read_u16_be(&bytes[2..])
}

/// Returns the size of an item with a list after `leading`; `None` if and only if two bytes can't
/// hold it.
fn listed_size<R: Rewrite>(typ: u8, flags: u8, leading: &[u8], list: &[u8]) -> Option<usize>
    requires { length leading.now ≤ MAX_VALUE_SIZE }
    ensures { Sizes result
        (size_of (listed_again R.again typ flags leading.now list.now) < 2 ^ 16)
        (size_of (listed_again R.again typ flags leading.now list.now)) }
{
    match items_size::<R>(list) {
        Some(size) => item_size(leading.len() + size),
        None => None,
    }
}

/// Writes a chunk whose value begins with these bytes, and after them is the list.
fn put_listed<R: Rewrite>(typ: u8, flags: u8, leading: &[u8], list: &[u8], output: &mut [u8])
    requires encodable { size_of (listed_again R.again typ flags leading.now list.now) < 2 ^ 16 }
    requires room { size_of (listed_again R.again typ flags leading.now list.now)
        ≤ length output.old }
    ensures { output.new
        ≡ written (image_of (listed_again R.again typ flags leading.now list.now)) output.old }
{
    let (header, value) = output.split_at_mut(TLV_HEADER_SIZE);
    let (front, rest) = value.split_at_mut(leading.len());
    front.copy_from_slice(leading);
    let size = put_items::<R>(list, rest);
    put_header(typ, flags, leading.len() + size, header);
}

/// Returns the size of the value without its reserved bytes.
fn unreserved_size(value: &[u8]) -> usize
    ensures { result ≡ length (without_reserved value.now) }
{
    value.len().min(6) + 2 + value.len().saturating_sub(8)
}

/// Writes an item whose value has zeros for its reserved bytes, 6 and 7.
fn put_unreserved(first: u8, second: u8, value: &[u8], output: &mut [u8])
    requires encodable { 4 + length (without_reserved value.now) < 2 ^ 16 }
    requires room { 4 + length (without_reserved value.now) ≤ length output.old }
    ensures { output.new
        ≡ written (image_of (solid_tlv first second (without_reserved value.now))) output.old }
{
    let front = &value[..value.len().min(6)];
    let back = &value[value.len().min(8)..];
    let place = TLV_HEADER_SIZE + front.len();
    put_header(first, second, front.len() + 2 + back.len(), output);
    put_bytes(output, TLV_HEADER_SIZE, front);
    put_bytes(output, place, &[0, 0]);
    put_bytes(output, place + 2, back);
}

/// Returns the value of a cause, or the fixed text in place of one that isn't UTF-8.
pub(crate) fn cause_text(code: u16, value: &[u8]) -> &[u8]
    ensures { result.now ≡ cause_value code value.now }
{
    match code {
        user_initiated_abort_error_cause::CAUSE_CODE => {
            text_or("Failed to parse abort reason", value)
        }
        protocol_violation_error_cause::CAUSE_CODE => {
            text_or("Failed to parse additional information", value)
        }
        _ => value,
    }
}

/// Returns the bytes if they are UTF-8, else the fixed text.
#[tactic(auto, using(crate::proofs::Texts::text_or_utf8, crate::proofs::Texts::text_or_other))]
fn text_or<'a>(fixed: &'a str, bytes: &'a [u8]) -> &'a [u8]
    ensures { result.now ≡ text_or fixed.now bytes.now }
{
    match str::from_utf8(bytes) {
        Ok(_) => bytes,
        Err(_) => fixed.as_bytes(),
    }
}

/// The error causes of a chunk.
struct Causes;

impl Rewrite for Causes {
    ghost again = { cause_again };

    fn size(first: u8, second: u8, value: &[u8]) -> Option<usize> {
        item_size(cause_text(u16::from_be_bytes([first, second]), value).len())
    }

    fn put(first: u8, second: u8, value: &[u8], output: &mut [u8]) {
        let text = cause_text(u16::from_be_bytes([first, second]), value);
        put_solid(first, second, text, output);
    }

    ghost sized = { cause_sized };
}

/// The parameters of a chunk.
struct Parameters;

impl Rewrite for Parameters {
    ghost again = { parameter_again };

    fn size(first: u8, second: u8, value: &[u8]) -> Option<usize> {
        match u16::from_be_bytes([first, second]) {
            add_outgoing_streams_request_parameter::PARAMETER_TYPE
            | add_incoming_streams_request_parameter::PARAMETER_TYPE => {
                item_size(unreserved_size(value))
            }
            _ => item_size(value.len()),
        }
    }

    fn put(first: u8, second: u8, value: &[u8], output: &mut [u8]) {
        match u16::from_be_bytes([first, second]) {
            add_outgoing_streams_request_parameter::PARAMETER_TYPE
            | add_incoming_streams_request_parameter::PARAMETER_TYPE => {
                put_unreserved(first, second, value, output);
            }
            _ => put_solid(first, second, value, output),
        }
    }

    ghost sized = { parameter_sized };
}

/// The chunks of a packet.
struct Chunks;

impl Rewrite for Chunks {
    ghost again = { chunk_again };

    fn size(typ: u8, flags: u8, value: &[u8]) -> Option<usize> {
        let flags = kept_flags(typ, flags);
        match typ {
            init_chunk::CHUNK_TYPE | init_ack_chunk::CHUNK_TYPE => init_size(typ, flags, value),
            heartbeat_request_chunk::CHUNK_TYPE
            | heartbeat_ack_chunk::CHUNK_TYPE
            | re_config_chunk::CHUNK_TYPE => { listed_size::<Parameters>(typ, flags, &[], value) }
            abort_chunk::CHUNK_TYPE | error_chunk::CHUNK_TYPE => {
                listed_size::<Causes>(typ, flags, &[], value)
            }
            idata_chunk::CHUNK_TYPE => item_size(unreserved_size(value)),
            iforward_tsn_chunk::CHUNK_TYPE => item_size(streams_size(value)),
            _ => item_size(value.len()),
        }
    }

    fn put(typ: u8, flags: u8, value: &[u8], output: &mut [u8]) {
        let flags = kept_flags(typ, flags);
        match typ {
            init_chunk::CHUNK_TYPE | init_ack_chunk::CHUNK_TYPE => {
                put_init(typ, flags, value, output);
            }
            heartbeat_request_chunk::CHUNK_TYPE
            | heartbeat_ack_chunk::CHUNK_TYPE
            | re_config_chunk::CHUNK_TYPE => {
                put_listed::<Parameters>(typ, flags, &[], value, output);
            }
            abort_chunk::CHUNK_TYPE | error_chunk::CHUNK_TYPE => {
                put_listed::<Causes>(typ, flags, &[], value, output);
            }
            idata_chunk::CHUNK_TYPE => put_unreserved(typ, flags, value, output),
            iforward_tsn_chunk::CHUNK_TYPE => put_streams(typ, flags, value, output),
            _ => put_solid(typ, flags, value, output),
        }
    }

    ghost sized = { chunk_sized };
}

/// Returns the flags that the type has.
pub(crate) fn kept_flags(typ: u8, flags: u8) -> u8
    ensures { result ≡ flags_again typ flags }
{
    match typ {
        data_chunk::CHUNK_TYPE | idata_chunk::CHUNK_TYPE => flags % 16,
        abort_chunk::CHUNK_TYPE | shutdown_complete_chunk::CHUNK_TYPE => flags % 2,
        init_chunk::CHUNK_TYPE
        | init_ack_chunk::CHUNK_TYPE
        | sack_chunk::CHUNK_TYPE
        | heartbeat_request_chunk::CHUNK_TYPE
        | heartbeat_ack_chunk::CHUNK_TYPE
        | shutdown_chunk::CHUNK_TYPE
        | shutdown_ack_chunk::CHUNK_TYPE
        | error_chunk::CHUNK_TYPE
        | cookie_echo_chunk::CHUNK_TYPE
        | cookie_ack_chunk::CHUNK_TYPE
        | re_config_chunk::CHUNK_TYPE
        | forward_tsn_chunk::CHUNK_TYPE
        | iforward_tsn_chunk::CHUNK_TYPE => 0,
        _ => flags,
    }
}

/// Returns the size of INIT or INIT ACK; `None` if and only if two bytes can't hold it.
fn init_size(typ: u8, flags: u8, value: &[u8]) -> Option<usize>
    ensures { Sizes result
        (size_of (listed_again parameter_again typ flags (take 16 value.now) (drop 16 value.now))
        < 2 ^ 16)
        (size_of (listed_again parameter_again typ flags (take 16 value.now)
        (drop 16 value.now))) }
{
    let place = value.len().min(InitNumbers::SIZE);
    listed_size::<Parameters>(typ, flags, &value[..place], &value[place..])
}

/// Writes INIT or INIT ACK: sixteen bytes of numbers, and the parameters.
fn put_init(typ: u8, flags: u8, value: &[u8], output: &mut [u8])
    requires encodable { size_of (listed_again parameter_again typ flags (take 16 value.now)
        (drop 16 value.now)) < 2 ^ 16 }
    requires room { size_of (listed_again parameter_again typ flags (take 16 value.now)
        (drop 16 value.now)) ≤ length output.old }
    ensures { output.new ≡ written (image_of (listed_again parameter_again typ flags
        (take 16 value.now) (drop 16 value.now))) output.old }
{
    let place = value.len().min(InitNumbers::SIZE);
    put_listed::<Parameters>(typ, flags, &value[..place], &value[place..], output);
}

/// Returns the size of the value of I-FORWARD-TSN as it is written.
fn streams_size(value: &[u8]) -> usize
    ensures { result ≡ length (value_again 194 value.now) }
{
    value.len().min(4) + 8 * stream_count(value)
}

/// Returns how many skipped streams the value of I-FORWARD-TSN has.
pub(crate) fn stream_count(value: &[u8]) -> usize
    ensures { result ≡ stream_count 8 value.now }
{
    value.len().saturating_sub(4) / 8
}

/// Writes I-FORWARD-TSN: of the two bytes after a stream id only the lowest bit stays.
fn put_streams(typ: u8, flags: u8, value: &[u8], output: &mut [u8])
    requires encodable { 4 + length (value_again 194 value.now) < 2 ^ 16 }
    requires room { 4 + length (value_again 194 value.now) ≤ length output.old }
    ensures { output.new
        ≡ written (image_of (solid_tlv typ flags (value_again 194 value.now))) output.old }
{
    let tsn = &value[..value.len().min(4)];
    let streams = &value[value.len().min(4)..];
    let count = stream_count(value);
    put_header(typ, flags, tsn.len() + 8 * count, output);
    put_bytes(output, TLV_HEADER_SIZE, tsn);
    put_each(TLV_HEADER_SIZE + tsn.len(), count, streams, output);
}

/// Writes the skipped streams from a place on; all other bytes stay.
fn put_each(place: usize, count: usize, streams: &[u8], output: &mut [u8])
    requires there { 8 * count ≤ length streams.now }
    requires room { place + 8 * count ≤ length output.old }
    ensures { output.new ≡ put output.old place (streams_again count streams.now) }
{
    for i in 0..count {
        put_bytes(output, place + 8 * i, &kept_stream(&streams[8 * i..]));
    }
}

/// Returns the skipped stream at the front as it is written.
pub(crate) fn kept_stream(stream: &[u8]) -> [u8; 8]
    requires { 8 ≤ length stream.now }
    ensures { result ≡ stream_again stream.now }
{
    [
        stream[0],
        stream[1],
        0,
        stream[3] % 2,
        stream[4],
        stream[5],
        stream[6],
        stream[7],
    ]
}
