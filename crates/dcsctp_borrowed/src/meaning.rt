//! Whether two packets in their bytes mean the same: nothing is built, written or allocated.

ghost use Rattle.std.specs.{Prelude.{◌≡◌, ◌≤◌, ◌*◌, ◌↔◌, ℕ, IsTrue, length, take, drop}};
ghost use Rattle.dcsctp_tlv.specs.Number.{AreBytes};
ghost use Rattle.dcsctp_wire.specs.{Canonical.{canonical, HasCanonical}, Packet.{PacketTree}};
ghost use Rattle.dcsctp_borrowed.specs.{PacketRef.{RefersTo}, Rewritten.{Again, all_again, listed_again, parameter_again, cause_again, chunk_again, chunk_with, without_reserved, value_again, streams_again}};

use crate::canonical::{cause_text, kept_flags, kept_stream, stream_count};
use crate::packet_ref::SctpPacketRef;
use dcsctp_tlv::frame::split_frame;
use dcsctp_wire::packet::init_chunk::InitNumbers;
use dcsctp_wire::packet::sctp_packet::CommonHeader;
use dcsctp_wire::packet::{
    abort_chunk, add_incoming_streams_request_parameter, add_outgoing_streams_request_parameter,
    error_chunk, heartbeat_ack_chunk, heartbeat_request_chunk, idata_chunk, iforward_tsn_chunk,
    init_ack_chunk, init_chunk, re_config_chunk,
};

/// Returns whether two packets mean the same: their ports, their tags and their chunks are equal as
/// `SctpPacket::from_bytes` reads them. Does not allocate.
///
/// The checksum field, padding, and the bits and bytes that a reader ignores are no part of what a
/// packet means, and a text that isn't UTF-8 means the fixed one that replaces it. So packets that
/// fit and have a chunk (`laws::has_canonical`) mean the same if and only if their canonical
/// packets are the same bytes. All others are compared too.
pub fn means_same(left: &SctpPacketRef, right: &SctpPacketRef) -> bool
    ensures same { (p q : PacketTree) → RefersTo left.now p → RefersTo right.now q
        → IsTrue result ↔ (p.meaning ≡ q.meaning) }
    ensures canonical { (p q : PacketTree) → RefersTo left.now p → RefersTo right.now q
        → HasCanonical p.meaning → HasCanonical q.meaning
        → IsTrue result ↔ (canonical p.meaning ≡ canonical q.meaning) }
{
    same_numbers(&left.common_header, &right.common_header)
        && same_items::<Chunks>(left.chunks.bytes(), right.chunks.bytes())
}

/// Returns whether two headers have the same numbers, whatever their checksum fields.
fn same_numbers(one: &CommonHeader, other: &CommonHeader) -> bool
    ensures { IsTrue result ↔ ((one.now.source_port ≡ other.now.source_port)
        × (one.now.destination_port ≡ other.now.destination_port)
        × (one.now.verification_tag ≡ other.now.verification_tag)) }
{
    one.source_port == other.source_port
        && one.destination_port == other.destination_port
        && one.verification_tag == other.verification_tag
}

/// How the items of a level are compared: by their first two bytes and their values.
trait Compare {
    ghost again: { Again };

    /// Returns whether two items are written the same in a canonical packet.
    fn same(
        first: u8,
        second: u8,
        value: &[u8],
        other_first: u8,
        other_second: u8,
        other: &[u8],
    ) -> bool
        ensures { IsTrue result
            ↔ (again first second value.now ≡ again other_first other_second other.now) };
}

/// Returns whether the items that lie in the bytes are written the same, one by one.
fn same_items<C: Compare>(left: &[u8], right: &[u8]) -> bool
    ensures same { IsTrue result ↔ (all_again C.again left.now ≡ all_again C.again right.now) }
    ensures fits { AreBytes left.now × AreBytes right.now }
{
    let mut one = left;
    let mut other = right;
    while let Ok((value, rest)) = split_frame(one) {
        let Ok((other_value, other_rest)) = split_frame(other) else {
            return false;
        };
        if !C::same(one[0], one[1], value, other[0], other[1], other_value) {
            return false;
        }
        one = rest;
        other = other_rest;
    }
    match split_frame(other) {
        Ok(_) => false,
        Err(_) => true,
    }
}

/// Returns whether two values are the same but for their reserved bytes, 6 and 7.
fn same_unreserved(value: &[u8], other: &[u8]) -> bool
    ensures { IsTrue result ↔ (without_reserved value.now ≡ without_reserved other.now) }
{
    value[..value.len().min(6)] == other[..other.len().min(6)]
        && value[value.len().min(8)..] == other[other.len().min(8)..]
}

/// The error causes of a chunk.
struct Causes;

impl Compare for Causes {
    ghost again = { cause_again };

    fn same(
        first: u8,
        second: u8,
        value: &[u8],
        other_first: u8,
        other_second: u8,
        other: &[u8],
    ) -> bool {
        let code = u16::from_be_bytes([first, second]);
        first == other_first
            && second == other_second
            && cause_text(code, value) == cause_text(code, other)
    }
}

/// The parameters of a chunk.
struct Parameters;

impl Compare for Parameters {
    ghost again = { parameter_again };

    fn same(
        first: u8,
        second: u8,
        value: &[u8],
        other_first: u8,
        other_second: u8,
        other: &[u8],
    ) -> bool {
        first == other_first
            && second == other_second
            && match u16::from_be_bytes([first, second]) {
                add_outgoing_streams_request_parameter::PARAMETER_TYPE
                | add_incoming_streams_request_parameter::PARAMETER_TYPE => {
                    same_unreserved(value, other)
                }
                _ => value == other,
            }
    }
}

/// The chunks of a packet.
struct Chunks;

impl Compare for Chunks {
    ghost again = { chunk_again };

    fn same(
        first: u8,
        second: u8,
        value: &[u8],
        other_first: u8,
        other_second: u8,
        other: &[u8],
    ) -> bool {
        first == other_first
            && kept_flags(first, second) == kept_flags(first, other_second)
            && same_chunk(first, value, other)
    }
}

/// Returns whether two chunks of a type are written the same, if their flags are the same.
fn same_chunk(typ: u8, value: &[u8], other: &[u8]) -> bool
    ensures { (flags : ℕ)
        → IsTrue result ↔ (chunk_with typ flags value.now ≡ chunk_with typ flags other.now) }
{
    match typ {
        init_chunk::CHUNK_TYPE | init_ack_chunk::CHUNK_TYPE => same_init(value, other),
        heartbeat_request_chunk::CHUNK_TYPE
        | heartbeat_ack_chunk::CHUNK_TYPE
        | re_config_chunk::CHUNK_TYPE => same_items::<Parameters>(value, other),
        abort_chunk::CHUNK_TYPE | error_chunk::CHUNK_TYPE => same_items::<Causes>(value, other),
        idata_chunk::CHUNK_TYPE => same_unreserved(value, other),
        iforward_tsn_chunk::CHUNK_TYPE => same_streams(value, other),
        _ => value == other,
    }
}

/// Returns whether two values of INIT or INIT ACK are written the same: sixteen bytes of numbers,
/// and the parameters.
fn same_init(value: &[u8], other: &[u8]) -> bool
    ensures { (typ flags : ℕ) → IsTrue result
        ↔ (listed_again parameter_again typ flags (take 16 value.now) (drop 16 value.now)
        ≡ listed_again parameter_again typ flags (take 16 other.now) (drop 16 other.now)) }
{
    let place = value.len().min(InitNumbers::SIZE);
    let other_place = other.len().min(InitNumbers::SIZE);
    value[..place] == other[..other_place]
        && same_items::<Parameters>(&value[place..], &other[other_place..])
}

/// Returns whether two values of I-FORWARD-TSN are written the same.
fn same_streams(value: &[u8], other: &[u8]) -> bool
    ensures { IsTrue result ↔ (value_again 194 value.now ≡ value_again 194 other.now) }
{
    let place = value.len().min(4);
    let other_place = other.len().min(4);
    let count = stream_count(value);
    if count != stream_count(other) {
        return false;
    }
    value[..place] == other[..other_place]
        && same_each(count, &value[place..], &other[other_place..])
}

/// Returns whether the first `count` skipped streams of both are written the same.
fn same_each(count: usize, left: &[u8], right: &[u8]) -> bool
    requires left { 8 * count ≤ length left.now }
    requires right { 8 * count ≤ length right.now }
    ensures { IsTrue result ↔ (streams_again count left.now ≡ streams_again count right.now) }
{
    for i in 0..count {
        if kept_stream(&left[8 * i..]) != kept_stream(&right[8 * i..]) {
            return false;
        }
    }
    true
}
