//! Chunks that are made of their fields.

use crate::answer::{Answer, first, from, short_at, word_at};
use crate::hostile;
use crate::values::{chunk_of, write_value};
use dcsctp_wire::api::{PpId, StreamId};
use dcsctp_wire::packet::SerializableTlv;
use dcsctp_wire::packet::abort_chunk::AbortChunk;
use dcsctp_wire::packet::chunk::Chunk;
use dcsctp_wire::packet::cookie_ack_chunk::CookieAckChunk;
use dcsctp_wire::packet::cookie_echo_chunk::CookieEchoChunk;
use dcsctp_wire::packet::data::Data;
use dcsctp_wire::packet::data_chunk::DataChunk;
use dcsctp_wire::packet::error_causes::ErrorCause;
use dcsctp_wire::packet::error_chunk::ErrorChunk;
use dcsctp_wire::packet::heartbeat_ack_chunk::HeartbeatAckChunk;
use dcsctp_wire::packet::heartbeat_request_chunk::HeartbeatRequestChunk;
use dcsctp_wire::packet::idata_chunk::IDataChunk;
use dcsctp_wire::packet::parameter::Parameter;
use dcsctp_wire::packet::re_config_chunk::ReConfigChunk;
use dcsctp_wire::packet::shutdown_chunk::ShutdownChunk;
use dcsctp_wire::packet::unknown_chunk::UnknownChunk;
use dcsctp_wire::packet::unknown_parameter::UnknownParameter;
use dcsctp_wire::types::{Fsn, Mid, Ssn, StreamKey, Tsn};
use std::alloc::{AllocError, Global};
use std::fmt::Debug;

/// Writes the chunk's type, its fields, what it prints, and how it is written.
fn write_made(chunk: &Chunk, out: &mut Answer) {
    write!(out, "{} ", chunk.chunk_type());
    write_value(&[], chunk, out)
}

/// Returns a chunk without a kind, of this type and these flags.
fn unknown(typ: u8, flags: u8, value: Vec<u8>) -> Chunk {
    Chunk::Unknown(UnknownChunk { typ, flags, value })
}

/// Returns what `new` makes of this type; a SHUTDOWN of a TSN; or a chunk without a kind.
fn new(alloc: Global, typ: u8, tsn: u32) -> Chunk {
    match typ {
        0 | 64 => with(typ, tsn, Data::new(alloc), false),
        4 => Chunk::HeartbeatRequest(HeartbeatRequestChunk::new(alloc)),
        5 => Chunk::HeartbeatAck(HeartbeatAckChunk::new(alloc)),
        6 => Chunk::Abort(AbortChunk::new(alloc)),
        7 => Chunk::Shutdown(ShutdownChunk {
            cumulative_tsn_ack: Tsn(tsn),
        }),
        9 => Chunk::Error(ErrorChunk::new(alloc)),
        10 => Chunk::CookieEcho(CookieEchoChunk::new(alloc)),
        11 => Chunk::CookieAck(CookieAckChunk),
        130 => Chunk::ReConfig(ReConfigChunk::new(alloc)),
        _ => unknown(typ, 0, Vec::new(alloc)),
    }
}

/// Returns user data of a stream, an SSN, a MID, an FSN, a protocol, flags, and a payload.
fn user_data(fields: &[u8], out: &mut Answer) -> Data {
    let (stream, flags) = (StreamId(short_at(fields, 0)), first(from(fields, 16)));
    let stream_key = if flags & 4 == 0 {
        StreamKey::Ordered(stream)
    } else {
        StreamKey::Unordered(stream)
    };
    Data {
        stream_key,
        ssn: Ssn(short_at(fields, 2)),
        mid: Mid(word_at(fields, 4)),
        fsn: Fsn(word_at(fields, 8)),
        ppid: PpId(word_at(fields, 12)),
        payload: out.copy(from(fields, 17)),
        is_beginning: flags & 2 != 0,
        is_end: flags & 1 != 0,
    }
}

/// Returns DATA, or I-DATA of another type than 0.
fn with(typ: u8, tsn: u32, user_data: Data, immediate_ack: bool) -> Chunk {
    let tsn = Tsn(tsn);
    if typ == 0 {
        Chunk::Data(DataChunk {
            tsn,
            user_data,
            immediate_ack,
        })
    } else {
        Chunk::IData(IDataChunk {
            tsn,
            user_data,
            immediate_ack,
        })
    }
}

/// Writes DATA or I-DATA of a type, a TSN, and a copy of user data; the flags ask for a SACK too.
fn write_data(fields: &[u8], out: &mut Answer) {
    let data = user_data(from(fields, 5), out);
    if let Some(copy) = out.or_out_of_memory(data.clone()) {
        let is_immediate = first(from(fields, 21)) & 8 != 0;
        let chunk = with(first(fields), word_at(fields, 1), copy, is_immediate);
        write_made(&chunk, out)
    }
}

/// Returns a chunk of this type with these bytes: a payload, a cookie, or a value.
fn holding(typ: u8, bytes: Vec<u8>, alloc: Global) -> Chunk {
    match typ {
        0 | 64 => {
            let data = Data {
                payload: bytes,
                ..Data::new(alloc)
            };
            with(typ, 0, data, false)
        }
        10 => Chunk::CookieEcho(CookieEchoChunk { cookie: bytes }),
        _ => unknown(typ, 0, bytes),
    }
}

/// Writes how many bytes the chunk has, or none if it can't be written.
fn write_size(chunk: &Chunk, out: &mut Answer) {
    if !chunk.encodable() {
        return out.say("none");
    }
    write!(out, "{}", chunk.serialized_size())
}

/// Writes the value, and its clone or that memory ran out for it.
fn write_clone<T: Debug + Drop>(value: &T, clone: Result<T, AllocError>, out: &mut Answer) {
    match clone {
        Ok(clone) => write!(out, "{value:?}; {clone:?}"),
        Err(AllocError) => write!(out, "{value:?}; OutOfMemory"),
    }
}

/// Writes what the chunk at the front has that can be cloned, and its clone: of an ERROR the types
/// that its first cause names.
fn write_clones(bytes: &[u8], out: &mut Answer) {
    match chunk_of(out.alloc, bytes) {
        Ok(Chunk::Data(c)) => write_clone(&c.user_data, c.user_data.clone(), out),
        Ok(Chunk::CookieEcho(c)) => write_clone(&c, c.clone(), out),
        Ok(Chunk::Error(c)) => match c.error_causes.first() {
            Some(ErrorCause::MissingMandatoryParameter(cause)) => {
                write_clone(cause, cause.clone(), out)
            }
            _ => out.say("none"),
        },
        Ok(_) => out.say("none"),
        Err(fault) => write!(out, "{fault:?}"),
    }
}

/// Writes the answer, if the call is one of this module; else the next one does.
pub fn write_answer(call: &str, bytes: &[u8], other: &[u8], out: &mut Answer) {
    match call {
        "new" => write_made(&new(out.alloc, first(bytes), word_at(bytes, 1)), out),
        "unknown-chunk" => {
            let value = out.copy(from(bytes, 2));
            write_made(&unknown(first(bytes), first(from(bytes, 1)), value), out)
        }
        "unknown-parameter" => {
            let value = out.copy(from(bytes, 2));
            let parameter = UnknownParameter::new(short_at(bytes, 0), value);
            write_value(&[], &Parameter::Unknown(parameter), out)
        }
        "user-data" => write_data(bytes, out),
        "clone" => write_clones(bytes, out),
        "size" => {
            let value = out.copy(from(bytes, 1));
            write_size(&holding(first(bytes), value, out.alloc), out)
        }
        _ => hostile::write_answer(call, bytes, other, out),
    }
}
