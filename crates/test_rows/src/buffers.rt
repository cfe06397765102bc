//! Packets that are written into buffers of bytes `ee`.

use crate::answer::{Answer, Digits, from, front, short_at, word_at};
use crate::captures;
use crate::values::chunk_of;
use dcsctp_buffer::abort::BorrowedAbort;
use dcsctp_buffer::cookie_echo::BorrowedCookieEcho;
use dcsctp_buffer::data::BorrowedData;
use dcsctp_buffer::forward_tsn::BorrowedForwardTsn;
use dcsctp_buffer::heartbeat::BorrowedHeartbeat;
use dcsctp_buffer::idata::BorrowedIData;
use dcsctp_buffer::init::BorrowedInit;
use dcsctp_buffer::item::add_item;
use dcsctp_buffer::sack::BorrowedSack;
use dcsctp_buffer::{add, begin, seal};
use dcsctp_wire::api::{PpId, StreamId};
use dcsctp_wire::packet::abort_chunk::AbortChunk;
use dcsctp_wire::packet::chunk::{Chunk, RawChunk};
use dcsctp_wire::packet::cookie_ack_chunk::CookieAckChunk;
use dcsctp_wire::packet::data_chunk::DataChunk;
use dcsctp_wire::packet::error_causes::ErrorCause;
use dcsctp_wire::packet::idata_chunk::IDataChunk;
use dcsctp_wire::packet::parameter::Parameter;
use dcsctp_wire::packet::sack_chunk::SackChunk;
use dcsctp_wire::packet::{SkippedStream, state_cookie_parameter, supported_extensions_parameter};
use dcsctp_wire::types::{Ssn, StreamKey, Tsn};

/// Returns whether all bytes are as they were.
fn are_untouched(bytes: &[u8]) -> bool {
    bytes.iter().all(|byte| *byte == 0xee)
}

// ---- a chunk that borrows what another holds

fn add_data(buffer: &mut [u8], size: &mut usize, chunk: &DataChunk) -> bool {
    let data = &chunk.user_data;
    let borrowed = BorrowedData {
        tsn: chunk.tsn,
        stream_key: data.stream_key,
        ssn: data.ssn,
        ppid: data.ppid,
        payload: &data.payload,
        is_beginning: data.is_beginning,
        is_end: data.is_end,
        immediate_ack: chunk.immediate_ack,
    };
    add(buffer, size, &borrowed).is_ok()
}

fn add_idata(buffer: &mut [u8], size: &mut usize, chunk: &IDataChunk) -> bool {
    let data = &chunk.user_data;
    let borrowed = BorrowedIData {
        tsn: chunk.tsn,
        stream_key: data.stream_key,
        mid: data.mid,
        fsn: data.fsn,
        ppid: data.ppid,
        payload: &data.payload,
        is_beginning: data.is_beginning,
        is_end: data.is_end,
        immediate_ack: chunk.immediate_ack,
    };
    add(buffer, size, &borrowed).is_ok()
}

fn add_sack(buffer: &mut [u8], size: &mut usize, chunk: &SackChunk, out: &mut Answer) -> bool {
    let mut duplicates = Vec::new(out.alloc);
    for tsn in &chunk.duplicate_tsns {
        out.push(&mut duplicates, tsn.0);
    }
    let borrowed = BorrowedSack {
        cumulative_tsn_ack: chunk.cumulative_tsn_ack,
        a_rwnd: chunk.a_rwnd,
        gap_ack_blocks: &chunk.gap_ack_blocks,
        duplicate_tsns: &duplicates,
    };
    add(buffer, size, &borrowed).is_ok()
}

/// Adds a heartbeat with the first of these parameters.
fn add_heartbeat(
    buffer: &mut [u8],
    size: &mut usize,
    is_ack: bool,
    parameters: &[Parameter],
) -> bool {
    let Some(Parameter::HeartbeatInfo(parameter)) = parameters.first() else {
        return false;
    };
    let info = &parameter.info;
    add(buffer, size, &BorrowedHeartbeat { is_ack, info }).is_ok()
}

/// Adds INIT or INIT ACK without parameters, and after it those that are cookies or chunk types.
fn add_init(
    buffer: &mut [u8],
    size: &mut usize,
    chunk: &BorrowedInit,
    parameters: &[Parameter],
) -> bool {
    let start = *size;
    let mut is_added = add(buffer, size, chunk).is_ok();
    for parameter in parameters {
        let (typ, value): (u16, &[u8]) = match parameter {
            Parameter::StateCookie(p) => (state_cookie_parameter::PARAMETER_TYPE, &p.cookie),
            Parameter::SupportedExtensions(p) => (
                supported_extensions_parameter::PARAMETER_TYPE,
                &p.chunk_types,
            ),
            _ => return false,
        };
        is_added = is_added && add_item(buffer, size, start, typ, value, &[]).is_ok();
    }
    is_added
}

/// Adds FORWARD-TSN, or I-FORWARD-TSN.
fn add_forward_tsn(
    buffer: &mut [u8],
    size: &mut usize,
    by_mid: bool,
    new_cumulative_tsn: Tsn,
    skipped_streams: &[SkippedStream],
) -> bool {
    let borrowed = BorrowedForwardTsn {
        by_mid,
        new_cumulative_tsn,
        skipped_streams,
    };
    add(buffer, size, &borrowed).is_ok()
}

/// Adds the reason that the ABORT begins with.
fn add_abort(buffer: &mut [u8], size: &mut usize, chunk: &AbortChunk) -> bool {
    let Some(ErrorCause::UserInitiatedAbort(cause)) = chunk.error_causes.first() else {
        return false;
    };
    let borrowed = BorrowedAbort {
        tag_reflected: chunk.tag_reflected,
        reason: &cause.reason,
    };
    add(buffer, size, &borrowed).is_ok()
}

/// Adds the chunk as one of its kind that borrows what it holds; as it is, where there is no such
/// kind.
fn add_borrowed(buffer: &mut [u8], size: &mut usize, chunk: &Chunk, out: &mut Answer) -> bool {
    match chunk {
        Chunk::Data(c) => add_data(buffer, size, c),
        Chunk::Sack(c) => add_sack(buffer, size, c, out),
        Chunk::HeartbeatRequest(c) => add_heartbeat(buffer, size, false, &c.parameters),
        Chunk::HeartbeatAck(c) => add_heartbeat(buffer, size, true, &c.parameters),
        Chunk::Init(c) => {
            let borrowed = BorrowedInit {
                is_ack: false,
                initiate_tag: c.initiate_tag,
                a_rwnd: c.a_rwnd,
                nbr_outbound_streams: c.nbr_outbound_streams,
                nbr_inbound_streams: c.nbr_inbound_streams,
                initial_tsn: c.initial_tsn,
            };
            add_init(buffer, size, &borrowed, &c.parameters)
        }
        Chunk::InitAck(c) => {
            let borrowed = BorrowedInit {
                is_ack: true,
                initiate_tag: c.initiate_tag,
                a_rwnd: c.a_rwnd,
                nbr_outbound_streams: c.nbr_outbound_streams,
                nbr_inbound_streams: c.nbr_inbound_streams,
                initial_tsn: c.initial_tsn,
            };
            add_init(buffer, size, &borrowed, &c.parameters)
        }
        Chunk::Abort(c) => add_abort(buffer, size, c),
        Chunk::Shutdown(c) => add(buffer, size, c).is_ok(),
        Chunk::ShutdownAck(c) => add(buffer, size, c).is_ok(),
        Chunk::CookieEcho(c) => {
            let cookie = &c.cookie;
            add(buffer, size, &BorrowedCookieEcho { cookie }).is_ok()
        }
        Chunk::CookieAck(c) => add(buffer, size, c).is_ok(),
        Chunk::ShutdownComplete(c) => add(buffer, size, c).is_ok(),
        Chunk::IData(c) => add_idata(buffer, size, c),
        Chunk::ForwardTsn(c) => {
            let (tsn, streams) = (c.new_cumulative_tsn, &c.skipped_streams);
            add_forward_tsn(buffer, size, false, tsn, streams)
        }
        Chunk::IForwardTsn(c) => {
            let (tsn, streams) = (c.new_cumulative_tsn, &c.skipped_streams);
            add_forward_tsn(buffer, size, true, tsn, streams)
        }
        Chunk::Unknown(c) => {
            let raw = RawChunk {
                typ: c.typ,
                flags: c.flags,
                value: &c.value,
            };
            add(buffer, size, &raw).is_ok()
        }
        _ => add(buffer, size, chunk).is_ok(),
    }
}

// ---- a packet

/// Adds the chunk at the front, and returns whether it was added.
fn add_chunk(
    buffer: &mut [u8],
    size: &mut usize,
    bytes: &[u8],
    is_owned: bool,
    out: &mut Answer,
) -> bool {
    match chunk_of(out.alloc, bytes) {
        Ok(chunk) if is_owned => add(buffer, size, &chunk).is_ok(),
        Ok(chunk) => add_borrowed(buffer, size, &chunk, out),
        Err(_) => false,
    }
}

/// Writes whether a packet begins, whether each chunk is added, and whether it is sealed; and the
/// packet, and whether the bytes after it changed. The numbers are the buffer's size, of four
/// bytes, both ports and the tag.
fn write_packet(numbers: &[u8], chunks: &str, is_owned: bool, out: &mut Answer) {
    let (source, destination) = (short_at(numbers, 4), short_at(numbers, 6));
    let mut buffer = out.filled(word_at(numbers, 0) as usize);
    let mut size = 0;
    let begins = begin(
        &mut buffer,
        &mut size,
        source,
        destination,
        word_at(numbers, 8),
    );
    write!(out, "{}, ", begins.is_ok());
    for words in chunks.split(" / ").skip(1) {
        let bytes = out.bytes_of(words);
        let is_added = add_chunk(&mut buffer, &mut size, &bytes, is_owned, out);
        write!(out, "{is_added}, ");
    }
    let is_sealed = seal(&mut buffer, size).is_ok();
    write!(out, "{is_sealed}; {}", Digits(front(&buffer, size)));
    out.unless(
        are_untouched(from(&buffer, size)),
        "; bytes after it changed",
    )
}

/// Writes the packet of a row: its numbers, and after each slash a chunk. Writes the packet of
/// chunks that own what they hold too, if it is another.
pub fn write_filled(words: &str, out: &mut Answer) {
    let (numbers, _) = words.split_once(" / ").unwrap_or((words, ""));
    let numbers = out.bytes_of(numbers);
    let mut owned = out.another();
    write_packet(&numbers, words, true, &mut owned);
    write_packet(&numbers, words, false, out);
    out.add_other("; and of chunks that own what they hold ", &owned)
}

// ---- at its edges

/// Writes whether a COOKIE ACK is added in a buffer of this size after this number of bytes, and
/// whether these are sealed. The numbers have four and eight bytes.
fn write_at(numbers: &[u8], out: &mut Answer) {
    let mut buffer = out.filled(word_at(numbers, 0) as usize);
    let start = ((word_at(numbers, 4) as usize) << 32) | (word_at(numbers, 8) as usize);
    let mut size = start;
    let is_added = add(&mut buffer, &mut size, &CookieAckChunk).is_ok();
    let is_kept = is_added || size == start && are_untouched(&buffer);
    out.unless(is_kept, "changed, though ");
    let is_sealed = seal(&mut buffer, start).is_ok();
    write!(out, "{is_added} {is_sealed}");
    let is_kept = is_added || is_sealed || are_untouched(&buffer);
    out.unless(is_kept, ", but changed")
}

/// Writes how many bytes a packet of DATA with this payload has, in a buffer that has room for all.
fn write_data(payload: &[u8], out: &mut Answer) {
    let mut buffer = out.filled(65600);
    let mut size = 0;
    let data = BorrowedData {
        tsn: Tsn(1),
        stream_key: StreamKey::Ordered(StreamId(1)),
        ssn: Ssn(1),
        ppid: PpId(1),
        payload,
        is_beginning: true,
        is_end: true,
        immediate_ack: false,
    };
    let is_added = begin(&mut buffer, &mut size, 1, 1, 1).is_ok()
        && add(&mut buffer, &mut size, &data).is_ok();
    write!(out, "{is_added} {size}")
}

/// Writes the answer, if the call is one of this module; else the next one does.
pub fn write_answer(call: &str, bytes: &[u8], other: &[u8], out: &mut Answer) {
    match call {
        "buffer-at" => write_at(bytes, out),
        "buffer-data" => write_data(bytes, out),
        _ => captures::write_answer(call, bytes, other, out),
    }
}
