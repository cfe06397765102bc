//! Parameters, error causes and chunks: of their own kind, of any kind, and lists of them.

use crate::answer::{Answer, Change, first, from, short_at, word_at};
use crate::packets::{self, write_packed};
use crate::values::{chunk_of, write_read};
use dcsctp_wire::packet::abort_chunk::AbortChunk;
use dcsctp_wire::packet::add_incoming_streams_request_parameter::AddIncomingStreamsRequestParameter as AddIncoming;
use dcsctp_wire::packet::add_outgoing_streams_request_parameter::AddOutgoingStreamsRequestParameter as AddOutgoing;
use dcsctp_wire::packet::chunk::{RawChunk, plain_check};
use dcsctp_wire::packet::cookie_ack_chunk::CookieAckChunk;
use dcsctp_wire::packet::cookie_echo_chunk::CookieEchoChunk;
use dcsctp_wire::packet::cookie_received_while_shutting_down::CookieReceivedWhileShuttingDownErrorCause as LateCookie;
use dcsctp_wire::packet::data_chunk::DataChunk;
use dcsctp_wire::packet::error_causes::{ErrorCause, error_cause_check, error_cause_from_bytes};
use dcsctp_wire::packet::error_chunk::ErrorChunk;
use dcsctp_wire::packet::forward_tsn_chunk::ForwardTsnChunk;
use dcsctp_wire::packet::forward_tsn_supported_parameter::ForwardTsnSupportedParameter as ForwardTsnSupported;
use dcsctp_wire::packet::heartbeat_ack_chunk::HeartbeatAckChunk;
use dcsctp_wire::packet::heartbeat_info_parameter::HeartbeatInfoParameter as HeartbeatInfo;
use dcsctp_wire::packet::heartbeat_request_chunk::HeartbeatRequestChunk;
use dcsctp_wire::packet::idata_chunk::IDataChunk;
use dcsctp_wire::packet::iforward_tsn_chunk::IForwardTsnChunk;
use dcsctp_wire::packet::incoming_ssn_reset_request_parameter::IncomingSsnResetRequestParameter as IncomingReset;
use dcsctp_wire::packet::init_ack_chunk::InitAckChunk;
use dcsctp_wire::packet::init_chunk::InitChunk;
use dcsctp_wire::packet::missing_mandatory_parameter_error_cause::MissingMandatoryParameterErrorCause as Missing;
use dcsctp_wire::packet::no_user_data_error_cause::NoUserDataErrorCause as NoUserData;
use dcsctp_wire::packet::outgoing_ssn_reset_request_parameter::OutgoingSsnResetRequestParameter as OutgoingReset;
use dcsctp_wire::packet::parameter::{
    Parameter, RawParameter, parameters_check, parameters_encodable, parameters_from_bytes,
    parameters_serialize_to, parameters_serialized_size,
};
use dcsctp_wire::packet::protocol_violation_error_cause::ProtocolViolationErrorCause as Violation;
use dcsctp_wire::packet::re_config_chunk::ReConfigChunk;
use dcsctp_wire::packet::reconfiguration_response_parameter::{
    ReconfigurationResponseParameter as Response, ReconfigurationResponseResult,
};
use dcsctp_wire::packet::sack_chunk::SackChunk;
use dcsctp_wire::packet::shutdown_ack_chunk::ShutdownAckChunk;
use dcsctp_wire::packet::shutdown_chunk::ShutdownChunk;
use dcsctp_wire::packet::shutdown_complete_chunk::ShutdownCompleteChunk;
use dcsctp_wire::packet::ssn_tsn_reset_request_parameter::SsnTsnResetRequestParameter as SsnTsnReset;
use dcsctp_wire::packet::state_cookie_parameter::StateCookieParameter as StateCookie;
use dcsctp_wire::packet::supported_extensions_parameter::SupportedExtensionsParameter as Extensions;
use dcsctp_wire::packet::unknown_chunk::UnknownChunk;
use dcsctp_wire::packet::unknown_parameter::UnknownParameter;
use dcsctp_wire::packet::unrecognized_chunk_error_cause::UnrecognizedChunkErrorCause as Unrecognized;
use dcsctp_wire::packet::user_initiated_abort_error_cause::UserInitiatedAbortErrorCause as UserAbort;
use dcsctp_wire::packet::zero_checksum_acceptable_parameter::ZeroChecksumAcceptableParameter as ZeroChecksum;
use dcsctp_wire::packet::{ChunkParseError, SerializableTlv};
use std::fmt::Debug;

// ---- one of the kind that a type names

/// Reads a parameter as of the kind that has this type, and writes what it is.
fn write_parameter_kind(typ: u16, bytes: &[u8], raw: RawParameter, out: &mut Answer) {
    let alloc = out.alloc;
    match typ {
        1 => write_read(bytes, HeartbeatInfo::try_from(alloc, raw), out),
        7 => write_read(bytes, StateCookie::try_from(alloc, raw), out),
        13 => write_read(bytes, OutgoingReset::try_from(alloc, raw), out),
        14 => write_read(bytes, IncomingReset::try_from(alloc, raw), out),
        15 => write_read(bytes, SsnTsnReset::try_from(raw), out),
        16 => write_read(bytes, Response::try_from(raw), out),
        17 => write_read(bytes, AddOutgoing::try_from(raw), out),
        18 => write_read(bytes, AddIncoming::try_from(raw), out),
        0x8001 => write_read(bytes, ZeroChecksum::try_from(raw), out),
        0x8008 => write_read(bytes, Extensions::try_from(alloc, raw), out),
        0xc000 => write_read(bytes, ForwardTsnSupported::try_from(raw), out),
        _ => write_read(bytes, UnknownParameter::try_from(alloc, raw), out),
    }
}

/// Reads an error cause as of the kind that has this code, and writes what it is.
fn write_cause_kind(code: u16, bytes: &[u8], raw: RawParameter, out: &mut Answer) {
    let alloc = out.alloc;
    match code {
        2 => write_read(bytes, Missing::try_from(alloc, raw), out),
        6 => write_read(bytes, Unrecognized::try_from(alloc, raw), out),
        9 => write_read(bytes, NoUserData::try_from(raw), out),
        10 => write_read(bytes, LateCookie::try_from(raw), out),
        12 => write_read(bytes, UserAbort::try_from(alloc, raw), out),
        13 => write_read(bytes, Violation::try_from(alloc, raw), out),
        _ => write_read(bytes, UnknownParameter::try_from(alloc, raw), out),
    }
}

/// Reads a chunk as of the kind that has this type, and writes what it is.
fn write_chunk_kind(typ: u8, bytes: &[u8], raw: RawChunk, out: &mut Answer) {
    let alloc = out.alloc;
    match typ {
        0 => write_read(bytes, DataChunk::try_from(alloc, raw), out),
        1 => write_read(bytes, InitChunk::try_from(alloc, raw), out),
        2 => write_read(bytes, InitAckChunk::try_from(alloc, raw), out),
        3 => write_read(bytes, SackChunk::try_from(alloc, raw), out),
        4 => write_read(bytes, HeartbeatRequestChunk::try_from(alloc, raw), out),
        5 => write_read(bytes, HeartbeatAckChunk::try_from(alloc, raw), out),
        6 => write_read(bytes, AbortChunk::try_from(alloc, raw), out),
        7 => write_read(bytes, ShutdownChunk::try_from(raw), out),
        8 => write_read(bytes, ShutdownAckChunk::try_from(raw), out),
        9 => write_read(bytes, ErrorChunk::try_from(alloc, raw), out),
        10 => write_read(bytes, CookieEchoChunk::try_from(alloc, raw), out),
        11 => write_read(bytes, CookieAckChunk::try_from(raw), out),
        14 => write_read(bytes, ShutdownCompleteChunk::try_from(raw), out),
        64 => write_read(bytes, IDataChunk::try_from(alloc, raw), out),
        130 => write_read(bytes, ReConfigChunk::try_from(alloc, raw), out),
        192 => write_read(bytes, ForwardTsnChunk::try_from(alloc, raw), out),
        194 => write_read(bytes, IForwardTsnChunk::try_from(alloc, raw), out),
        _ => write_read(bytes, UnknownChunk::try_from(alloc, raw), out),
    }
}

/// Writes the parameter or error cause at the front, read as of the kind that has this type, or as
/// one of any kind.
fn write_item(is_cause: bool, typ: Option<u16>, bytes: &[u8], out: &mut Answer) {
    let alloc = out.alloc;
    match (RawParameter::from_bytes(bytes), typ) {
        (Ok((raw, _)), Some(code)) if is_cause => write_cause_kind(code, bytes, raw, out),
        (Ok((raw, _)), Some(typ)) => write_parameter_kind(typ, bytes, raw, out),
        (Ok((raw, _)), None) if is_cause => {
            write_read(bytes, ErrorCause::try_from(alloc, raw), out)
        }
        (Ok((raw, _)), None) => write_read(bytes, Parameter::try_from(alloc, raw), out),
        (Err(fault), _) => write!(out, "{fault:?}"),
    }
}

/// Writes the chunk at the front, read as of the kind that has this type.
fn write_chunk_as(typ: u8, bytes: &[u8], out: &mut Answer) {
    match RawChunk::from_bytes(bytes) {
        Ok((raw, _)) => write_chunk_kind(typ, bytes, raw, out),
        Err(fault) => write!(out, "{fault:?}"),
    }
}

// ---- both

/// Returns whether one of any kind is this one of its own: its fields in brackets after the kind's
/// name, and what it prints; or whether it has the same fault.
fn is_of_kind(text: &str, own: &str) -> bool {
    let (Some((_, any)), Some((fields, printed))) = (text.split_once("("), own.split_once("; "))
    else {
        return text == own;
    };
    let rest = any.strip_prefix(fields).unwrap_or("");
    rest.strip_prefix("); ") == Some(printed)
}

/// Writes what the check of chunks without a list says, where it isn't what the reader says.
fn write_checked(bytes: &[u8], own: &str, out: &mut Answer) {
    let Ok((raw, _)) = RawChunk::from_bytes(bytes) else {
        return;
    };
    match plain_check(raw) {
        Ok(()) => out.unless(own.contains("; "), "; its check passes it"),
        Err(fault) => {
            let mut said = out.another();
            write!(said, "{fault:?}");
            out.add_unless(own == said.text.as_str(), "; its check says ", &said)
        }
    }
}

/// Writes what the chunk at the front is, and where it is another one of its own kind, in the
/// check, or in a packet.
fn write_chunk_row(bytes: &[u8], other: &[u8], out: &mut Answer) {
    let (mut text, mut own) = (out.another(), out.another());
    write_read(bytes, chunk_of(out.alloc, bytes), &mut text);
    write_chunk_as(first(other), other, &mut own);
    out.add(&text);
    let is_own = is_of_kind(&text.text, &own.text);
    out.add_unless(is_own, "; of its own kind ", &own);
    write_checked(bytes, &own.text, out);
    write_packed(other, &text.text, out)
}

/// Writes the result of this number.
fn write_result(number: u32, out: &mut Answer) {
    match ReconfigurationResponseResult::try_from(number) {
        Ok(result) => write!(out, "{result:?} {}", result as u32),
        Err(fault) => write!(out, "{fault:?}"),
    }
}

/// Returns whether a list is this item alone, and is written so; or has its fault.
fn is_listed_so(text: &str, list: &str, out: &mut Answer) -> bool {
    let Some((fields, printed)) = text.split_once("; ") else {
        return list.starts_with(text);
    };
    let mut wanted = out.another();
    match printed.split_once(" -> ") {
        Some((_, written)) => write!(wanted, "[{fields}] -> {written} | Ok(1), strictly Ok(1)"),
        None => write!(wanted, "[{fields}] | Ok(1), strictly Ok(1)"),
    }
    out.end_as(&wanted);
    list == wanted.text.as_str()
}

/// Writes what the parameter or error cause at the front is, and where it is another one of its own
/// kind, or in a list.
fn write_item_row(is_cause: bool, bytes: &[u8], other: &[u8], out: &mut Answer) {
    let (mut text, mut own, mut list) = (out.another(), out.another(), out.another());
    write_item(is_cause, None, bytes, &mut text);
    write_item(is_cause, Some(short_at(other, 0)), other, &mut own);
    write_items(is_cause, other, &mut list);
    out.add(&text);
    let is_own = is_of_kind(&text.text, &own.text);
    out.add_unless(is_own, "; of its own kind ", &own);
    let is_listed = is_listed_so(&text.text, &list.text, out);
    out.add_unless(is_listed, "; as a list ", &list)
}

// ---- lists

/// Returns a list as written over bytes `ee`, as many as its size says, or nothing if it can't be
/// written.
fn list_written<T: SerializableTlv>(list: &[T], out: &mut Answer) -> Vec<u8> {
    if !parameters_encodable(list) {
        return Vec::new(out.alloc);
    }
    let size = parameters_serialized_size(list);
    let mut output = out.filled(size);
    if output.len() == size && parameters_serialize_to(list, &mut output) == size {
        output
    } else {
        Vec::new(out.alloc)
    }
}

/// Writes all fields of a list's items, and what is written of them if that isn't what was read;
/// and what two checks count: one that ignores padding, and a strict one.
fn write_list<T: SerializableTlv + Debug + Drop>(
    bytes: &[u8],
    answer: Result<Vec<T>, ChunkParseError>,
    lenient: Result<usize, ChunkParseError>,
    strict: Result<usize, ChunkParseError>,
    out: &mut Answer,
) {
    match answer {
        Ok(list) => {
            let written = list_written(&list, out);
            write!(out, "{list:?}{}", Change(bytes, &written))
        }
        Err(fault) => write!(out, "{fault:?}"),
    }
    write!(out, " | {lenient:?}, strictly {strict:?}")
}

/// Writes a list of parameters or of error causes, and what its checks count.
fn write_items(is_cause: bool, bytes: &[u8], out: &mut Answer) {
    if is_cause {
        let (lenient, strict) = (
            error_cause_check(bytes, false),
            error_cause_check(bytes, true),
        );
        let list = error_cause_from_bytes(out.alloc, bytes);
        write_list(bytes, list, lenient, strict, out)
    } else {
        let (lenient, strict) = (
            parameters_check(bytes, false),
            parameters_check(bytes, true),
        );
        let list = parameters_from_bytes(out.alloc, bytes);
        write_list(bytes, list, lenient, strict, out)
    }
}

/// Writes the answer, if the call is one of this module; else the next one does.
pub fn write_answer(call: &str, bytes: &[u8], other: &[u8], out: &mut Answer) {
    match call {
        "parameter" => write_item_row(false, bytes, other, out),
        "cause" => write_item_row(true, bytes, other, out),
        "chunk" => write_chunk_row(bytes, other, out),
        "chunk-any" => write_read(bytes, chunk_of(out.alloc, bytes), out),
        "result" => write_result(word_at(bytes, 0), out),
        "parameter-any" => write_item(false, None, bytes, out),
        "cause-any" => write_item(true, None, bytes, out),
        "parameters" => write_items(false, bytes, out),
        "causes" => write_items(true, bytes, out),
        "parameter-as" => write_item(false, Some(short_at(bytes, 0)), from(bytes, 2), out),
        "cause-as" => write_item(true, Some(short_at(bytes, 0)), from(bytes, 2), out),
        "chunk-as" => write_chunk_as(first(bytes), from(bytes, 1), out),
        _ => packets::write_answer(call, bytes, other, out),
    }
}
