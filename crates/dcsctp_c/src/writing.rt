//! Packets that are written into the caller's buffer, chunk by chunk.
//!
//! A packet is begun, each chunk is added to it, parameters and error causes to the chunk that was
//! added last (`lists`), and `dcsctp_seal` of its `size` bytes ends it. Each call here returns 0;
//! or it changes nothing, and returns the first of these that is so: `BAD_PLACE`, the size isn't
//! that of a packet that was begun; `BAD_VALUE`, the chunk can't be written; `NO_ROOM`, the packet
//! has no room for it.

ghost use Rattle.std.specs.{Prelude.{◌≡◌, ◌≢◌, [], false, true, length, drop, nat_le, if◌then◌else◌}, Str.{IsUtf8}};
ghost use Rattle.dcsctp_wire.specs.Chunk.{Init, InitAck, CookieEcho, CookieAck, Shutdown, ShutdownAck, ShutdownComplete};
ghost use Rattle.dcsctp_buffer.specs.{Buffer.{HoldsPacket, IsBegun}, Heartbeat.{heartbeat}, Init.{init as init_of, view as init_view}};
ghost use Rattle.dcsctp_c.specs.{Code.{no_room_code}, Writing.{AddsChunk, AddsNothing, any_chunk, data_chunk, i_data_chunk, sack_chunk, init_tree, abort_chunk, skipped_stream, forward_tsn_chunk, i_forward_tsn_chunk}};

use crate::codes::{OK, unwritable, write_code};
use crate::structs::{DcsctpData, DcsctpInit, DcsctpSkippedStream};
use dcsctp_buffer::abort::BorrowedAbort;
use dcsctp_buffer::cookie_echo::BorrowedCookieEcho;
use dcsctp_buffer::data::BorrowedData;
use dcsctp_buffer::forward_tsn::{AsSkippedStream, BorrowedForwardTsn};
use dcsctp_buffer::heartbeat::BorrowedHeartbeat;
use dcsctp_buffer::idata::BorrowedIData;
use dcsctp_buffer::init::BorrowedInit;
use dcsctp_buffer::sack::BorrowedSack;
use dcsctp_buffer::writable_chunk::WritableChunk;
use dcsctp_buffer::{add, begin, is_begun};
use dcsctp_chunk::cookie_ack_chunk::CookieAckChunk;
use dcsctp_chunk::raw_chunk::RawChunk;
use dcsctp_chunk::sack_chunk::GapAckBlock;
use dcsctp_chunk::shutdown_ack_chunk::ShutdownAckChunk;
use dcsctp_chunk::shutdown_chunk::ShutdownChunk;
use dcsctp_chunk::shutdown_complete_chunk::ShutdownCompleteChunk;
use dcsctp_tlv::skipped_stream::SkippedStream;
use dcsctp_types::api::{PpId, StreamId};
use dcsctp_types::types::{Fsn, Mid, Ssn, StreamKey, Tsn};

/// Begins a packet (RFC 9260 section 3.1) with these ports and this tag, a checksum field of zero
/// and no chunk: writes 12 bytes at the front of the buffer, and sets the size to 12.
///
/// Returns 0; `NO_ROOM`, and changes nothing, if and only if the buffer has fewer than 12 bytes.
/// All bytes after the header stay.
#[unsafe(no_mangle)]
pub extern "C" fn dcsctp_begin(
    packet: &mut [u8],
    size: &mut usize,
    source_port: u16,
    destination_port: u16,
    verification_tag: u32,
) -> u32
    ensures room { result ≡ (if nat_le 12 (length packet.old) then 0 else no_room_code) }
    ensures size { result ≡ 0 → size.new ≡ 12 }
    ensures begun { result ≡ 0 → HoldsPacket packet.new size.new (record {
      source = source_port;
      destination = destination_port;
      tag = verification_tag;
      chunks = [];
    }) }
    ensures after { drop 12 packet.new ≡ drop 12 packet.old }
    ensures declined { result ≢ 0 → (packet.new ≡ packet.old) × (size.new ≡ size.old) }
{
    match begin(
        packet,
        size,
        source_port,
        destination_port,
        verification_tag,
    ) {
        Ok(()) => OK,
        Err(error) => write_code(error),
    }
}

/// Adds a chunk (RFC 9260 section 3.2) of any type with these flags, and this value as it is.
#[unsafe(no_mangle)]
pub extern "C" fn dcsctp_add_chunk(
    packet: &mut [u8],
    size: &mut usize,
    typ: u8,
    flags: u8,
    value: &[u8],
) -> u32
    ensures { AddsChunk (any_chunk typ flags value.now)
        (record { bytes = packet.old; size = size.old })
        (record { bytes = packet.new; size = size.new }) result }
{
    add_chunk(packet, size, &RawChunk { typ, flags, value })
}

/// Adds DATA (RFC 9260 section 3.3.1) with this payload; the MID, the FSN, and the payload's offset
/// and size in the struct are ignored.
#[unsafe(no_mangle)]
pub extern "C" fn dcsctp_add_data(
    packet: &mut [u8],
    size: &mut usize,
    user_data: &DcsctpData,
    payload: &[u8],
) -> u32
    ensures { AddsChunk (data_chunk user_data.now payload.now)
        (record { bytes = packet.old; size = size.old })
        (record { bytes = packet.new; size = size.new }) result }
{
    let chunk = BorrowedData {
        tsn: Tsn(user_data.tsn),
        stream_key: StreamKey::new(user_data.is_unordered, StreamId(user_data.stream)),
        ssn: Ssn(user_data.ssn),
        ppid: PpId(user_data.ppid),
        payload,
        is_beginning: user_data.is_beginning,
        is_end: user_data.is_end,
        immediate_ack: user_data.immediate_ack,
    };
    add_chunk(packet, size, &chunk)
}

/// Adds I-DATA (RFC 8260 section 2.1) with this payload; the SSN, and the payload's offset and size
/// in the struct are ignored. At the beginning of a message the FSN isn't written, elsewhere the
/// payload protocol id.
#[unsafe(no_mangle)]
pub extern "C" fn dcsctp_add_i_data(
    packet: &mut [u8],
    size: &mut usize,
    user_data: &DcsctpData,
    payload: &[u8],
) -> u32
    ensures { AddsChunk (i_data_chunk user_data.now payload.now)
        (record { bytes = packet.old; size = size.old })
        (record { bytes = packet.new; size = size.new }) result }
{
    let chunk = BorrowedIData {
        tsn: Tsn(user_data.tsn),
        stream_key: StreamKey::new(user_data.is_unordered, StreamId(user_data.stream)),
        mid: Mid(user_data.mid),
        fsn: Fsn(user_data.fsn),
        ppid: PpId(user_data.ppid),
        payload,
        is_beginning: user_data.is_beginning,
        is_end: user_data.is_end,
        immediate_ack: user_data.immediate_ack,
    };
    add_chunk(packet, size, &chunk)
}

/// Adds a SACK (RFC 9260 section 3.3.4). Its blocks and duplicates are written as they are, in any
/// order.
#[unsafe(no_mangle)]
pub extern "C" fn dcsctp_add_sack(
    packet: &mut [u8],
    size: &mut usize,
    cumulative_tsn_ack: u32,
    a_rwnd: u32,
    blocks: &[GapAckBlock],
    duplicates: &[u32],
) -> u32
    ensures { AddsChunk (sack_chunk cumulative_tsn_ack a_rwnd blocks.now duplicates.now)
        (record { bytes = packet.old; size = size.old })
        (record { bytes = packet.new; size = size.new }) result }
{
    let chunk = BorrowedSack {
        cumulative_tsn_ack: Tsn(cumulative_tsn_ack),
        a_rwnd,
        gap_ack_blocks: blocks,
        duplicate_tsns: duplicates,
    };
    add_chunk(packet, size, &chunk)
}

/// Adds INIT (RFC 9260 section 3.3.2) with these numbers, and no parameter.
#[unsafe(no_mangle)]
pub extern "C" fn dcsctp_add_init(packet: &mut [u8], size: &mut usize, init: &DcsctpInit) -> u32
    ensures { AddsChunk (Init (init_tree init.now))
        (record { bytes = packet.old; size = size.old })
        (record { bytes = packet.new; size = size.new }) result }
{
    add_chunk(packet, size, &init_chunk(false, init))
}

/// Adds INIT ACK (RFC 9260 section 3.3.3) with these numbers, and no parameter.
#[unsafe(no_mangle)]
pub extern "C" fn dcsctp_add_init_ack(packet: &mut [u8], size: &mut usize, init: &DcsctpInit) -> u32
    ensures { AddsChunk (InitAck (init_tree init.now))
        (record { bytes = packet.old; size = size.old })
        (record { bytes = packet.new; size = size.new }) result }
{
    add_chunk(packet, size, &init_chunk(true, init))
}

/// Adds COOKIE ECHO (RFC 9260 section 3.3.11) with this cookie.
#[unsafe(no_mangle)]
pub extern "C" fn dcsctp_add_cookie_echo(packet: &mut [u8], size: &mut usize, cookie: &[u8]) -> u32
    ensures { AddsChunk (CookieEcho cookie.now)
        (record { bytes = packet.old; size = size.old })
        (record { bytes = packet.new; size = size.new }) result }
{
    add_chunk(packet, size, &BorrowedCookieEcho { cookie })
}

/// Adds COOKIE ACK (RFC 9260 section 3.3.12).
#[unsafe(no_mangle)]
pub extern "C" fn dcsctp_add_cookie_ack(packet: &mut [u8], size: &mut usize) -> u32
    ensures { AddsChunk CookieAck
        (record { bytes = packet.old; size = size.old })
        (record { bytes = packet.new; size = size.new }) result }
{
    add_chunk(packet, size, &CookieAckChunk)
}

/// Adds HEARTBEAT (RFC 9260 section 3.3.5), or HEARTBEAT ACK (section 3.3.6) where `is_ack` is
/// true, with this Heartbeat Info as its one parameter.
#[unsafe(no_mangle)]
pub extern "C" fn dcsctp_add_heartbeat(
    packet: &mut [u8],
    size: &mut usize,
    is_ack: bool,
    info: &[u8],
) -> u32
    ensures { AddsChunk (heartbeat is_ack info.now)
        (record { bytes = packet.old; size = size.old })
        (record { bytes = packet.new; size = size.new }) result }
{
    add_chunk(packet, size, &BorrowedHeartbeat { is_ack, info })
}

/// Adds ABORT (RFC 9260 section 3.3.7) with a User-Initiated Abort (section 3.3.10.12) as its one
/// cause. A reason that isn't UTF-8 can't be written.
#[unsafe(no_mangle)]
pub extern "C" fn dcsctp_add_abort(
    packet: &mut [u8],
    size: &mut usize,
    tag_reflected: bool,
    reason: &[u8],
) -> u32
    ensures added { IsUtf8 reason.now → AddsChunk (abort_chunk tag_reflected reason.now)
        (record { bytes = packet.old; size = size.old })
        (record { bytes = packet.new; size = size.new }) result }
    ensures other { (¬ IsUtf8 reason.now) → AddsNothing (IsBegun (length packet.old) size.old)
        (record { bytes = packet.old; size = size.old })
        (record { bytes = packet.new; size = size.new }) result }
{
    match str::from_utf8(reason) {
        Ok(reason) => add_chunk(
            packet,
            size,
            &BorrowedAbort {
                tag_reflected,
                reason,
            },
        ),
        Err(_) => unwritable(is_begun(packet.len(), *size)),
    }
}

/// Adds SHUTDOWN (RFC 9260 section 3.3.8).
#[unsafe(no_mangle)]
pub extern "C" fn dcsctp_add_shutdown(
    packet: &mut [u8],
    size: &mut usize,
    cumulative_tsn_ack: u32,
) -> u32
    ensures { AddsChunk (Shutdown cumulative_tsn_ack)
        (record { bytes = packet.old; size = size.old })
        (record { bytes = packet.new; size = size.new }) result }
{
    let chunk = ShutdownChunk {
        cumulative_tsn_ack: Tsn(cumulative_tsn_ack),
    };
    add_chunk(packet, size, &chunk)
}

/// Adds SHUTDOWN ACK (RFC 9260 section 3.3.9).
#[unsafe(no_mangle)]
pub extern "C" fn dcsctp_add_shutdown_ack(packet: &mut [u8], size: &mut usize) -> u32
    ensures { AddsChunk ShutdownAck
        (record { bytes = packet.old; size = size.old })
        (record { bytes = packet.new; size = size.new }) result }
{
    add_chunk(packet, size, &ShutdownAckChunk)
}

/// Adds SHUTDOWN COMPLETE (RFC 9260 section 3.3.13).
#[unsafe(no_mangle)]
pub extern "C" fn dcsctp_add_shutdown_complete(
    packet: &mut [u8],
    size: &mut usize,
    tag_reflected: bool,
) -> u32
    ensures { AddsChunk (ShutdownComplete tag_reflected)
        (record { bytes = packet.old; size = size.old })
        (record { bytes = packet.new; size = size.new }) result }
{
    add_chunk(packet, size, &ShutdownCompleteChunk { tag_reflected })
}

/// Adds FORWARD-TSN (RFC 3758 section 3.2); the streams' MIDs and what says unordered are ignored.
#[unsafe(no_mangle)]
pub extern "C" fn dcsctp_add_forward_tsn(
    packet: &mut [u8],
    size: &mut usize,
    new_cumulative_tsn: u32,
    streams: &[DcsctpSkippedStream],
) -> u32
    ensures { AddsChunk (forward_tsn_chunk new_cumulative_tsn streams.now)
        (record { bytes = packet.old; size = size.old })
        (record { bytes = packet.new; size = size.new }) result }
{
    let chunk = BorrowedForwardTsn {
        by_mid: false,
        new_cumulative_tsn: Tsn(new_cumulative_tsn),
        skipped_streams: streams,
    };
    add_chunk(packet, size, &chunk)
}

/// Adds I-FORWARD-TSN (RFC 8260 section 2.3.1); the streams' SSNs are ignored.
#[unsafe(no_mangle)]
pub extern "C" fn dcsctp_add_i_forward_tsn(
    packet: &mut [u8],
    size: &mut usize,
    new_cumulative_tsn: u32,
    streams: &[DcsctpSkippedStream],
) -> u32
    ensures { AddsChunk (i_forward_tsn_chunk new_cumulative_tsn streams.now)
        (record { bytes = packet.old; size = size.old })
        (record { bytes = packet.new; size = size.new }) result }
{
    let chunk = BorrowedForwardTsn {
        by_mid: true,
        new_cumulative_tsn: Tsn(new_cumulative_tsn),
        skipped_streams: streams,
    };
    add_chunk(packet, size, &chunk)
}

// ---- helpers

impl AsSkippedStream for DcsctpSkippedStream {
    ghost stream = { skipped_stream };

    fn as_skipped_stream(&self, by_mid: bool) -> SkippedStream {
        let stream = StreamId(self.stream);
        if by_mid {
            SkippedStream::IForwardTsn(StreamKey::new(self.is_unordered, stream), Mid(self.mid))
        } else {
            SkippedStream::ForwardTsn(stream, Ssn(self.ssn))
        }
    }
}

/// Builds the chunk with the struct's numbers.
fn init_chunk(is_ack: bool, init: &DcsctpInit) -> BorrowedInit
    ensures { init_view result ≡ init_of is_ack (init_tree init.now) }
{
    BorrowedInit {
        is_ack,
        initiate_tag: init.initiate_tag,
        a_rwnd: init.a_rwnd,
        nbr_outbound_streams: init.outbound_streams,
        nbr_inbound_streams: init.inbound_streams,
        initial_tsn: Tsn(init.initial_tsn),
    }
}

/// Adds a chunk.
pub(crate) fn add_chunk<C: WritableChunk>(packet: &mut [u8], size: &mut usize, chunk: &C) -> u32
    ensures { AddsChunk (C.tree chunk.now)
        (record { bytes = packet.old; size = size.old })
        (record { bytes = packet.new; size = size.new }) result }
{
    match add(packet, size, chunk) {
        Ok(()) => OK,
        Err(error) => write_code(error),
    }
}
