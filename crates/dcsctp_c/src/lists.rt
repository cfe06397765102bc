//! Parameters and error causes that are added to the last chunk of a packet (RFC 9260 sections
//! 3.2.1 and 3.3.10).
//!
//! That chunk begins at `start`. The calls return what those of `writing` return, and `BAD_PLACE`
//! also where no chunk begins at `start` and ends the packet.

ghost use Rattle.std.specs.{Prelude.{◌≡◌, ◌≤◌, ◌++◌, ◌∷◌, [], length, option_map, IfSome, take}, Int.{w16, w32, to_be_bytes}};
ghost use Rattle.dcsctp_cause.specs.Cause.{MissingMandatoryParameter};
ghost use Rattle.dcsctp_tlv.specs.Number.{numbers};
ghost use Rattle.dcsctp_c.specs.{Writing.{AddsItem, AddsParameter, has_streams, value_of, cause_value, re_config_tree}};

use crate::codes::{OK, unwritable, write_code};
use crate::structs::DcsctpReConfig;
use dcsctp_buffer::item::{BytesAndNumbers, WritableItem, add_written, is_last_chunk};
use dcsctp_tlv::fields::put_fields;
use dcsctp_tlv::frame::put_bytes;
use dcsctp_tlv::parameter::add_streams_request::AddStreamsNumbers;
use dcsctp_tlv::parameter::outgoing_ssn_reset_request_parameter::OutgoingSsnResetRequestNumbers;
use dcsctp_tlv::parameter::reconfiguration_response_parameter::ReconfigurationResponseNumbers;
use dcsctp_tlv::parameter::request_numbers::RequestNumbers;
use dcsctp_types::types::Tsn;
use dcsctp_wire::packet::{
    add_incoming_streams_request_parameter, add_outgoing_streams_request_parameter,
    incoming_ssn_reset_request_parameter, missing_mandatory_parameter_error_cause,
    outgoing_ssn_reset_request_parameter, reconfiguration_response_parameter,
    ssn_tsn_reset_request_parameter,
};

/// The most bytes of a RE-CONFIG parameter's value before stream ids.
const LEADING_SIZE: usize = 16;

/// The last of the results of a response (RFC 6525 section 4.4).
const LAST_RESULT: u32 = 6;

/// Adds a parameter of this type, or an error cause of this code, with this value as it is.
#[unsafe(no_mangle)]
pub extern "C" fn dcsctp_add_parameter(
    packet: &mut [u8],
    size: &mut usize,
    start: usize,
    typ: u16,
    value: &[u8],
) -> u32
    ensures { AddsItem start typ value.now
        (record { bytes = packet.old; size = size.old })
        (record { bytes = packet.new; size = size.new }) result }
{
    add_to_list(packet, size, start, typ, value, &[])
}

/// Adds one whose value is a number of four bytes, most significant byte first.
#[unsafe(no_mangle)]
pub extern "C" fn dcsctp_add_number(
    packet: &mut [u8],
    size: &mut usize,
    start: usize,
    typ: u16,
    number: u32,
) -> u32
    ensures { AddsItem start typ (to_be_bytes w32 number)
        (record { bytes = packet.old; size = size.old })
        (record { bytes = packet.new; size = size.new }) result }
{
    add_to_list(packet, size, start, typ, &number.to_be_bytes(), &[])
}

/// Adds a request or the response of RE-CONFIG (RFC 6525 section 4); the streams are written for an
/// Outgoing or Incoming SSN Reset alone.
///
/// No value of another type can be written, nor a result above 6.
#[unsafe(no_mangle)]
pub extern "C" fn dcsctp_add_re_config(
    packet: &mut [u8],
    size: &mut usize,
    start: usize,
    re_config: &DcsctpReConfig,
    streams: &[u16],
) -> u32
    ensures { AddsParameter start re_config.now.typ (re_config_tree re_config.now streams.now)
        (record { bytes = packet.old; size = size.old })
        (record { bytes = packet.new; size = size.new }) result }
{
    let mut bytes = [0; LEADING_SIZE];
    let Some(count) = put_leading(re_config, &mut bytes) else {
        return unwritable(is_last_chunk(packet, *size, start));
    };
    let words = if has_streams(re_config.typ) {
        streams
    } else {
        &[]
    };
    add_to_list(packet, size, start, re_config.typ, &bytes[..count], words)
}

/// Adds the cause Missing Mandatory Parameter (RFC 9260 section 3.3.10.2) with these types.
#[unsafe(no_mangle)]
pub extern "C" fn dcsctp_add_missing_parameters(
    packet: &mut [u8],
    size: &mut usize,
    start: usize,
    types: &[u16],
) -> u32
    ensures { AddsItem start 2 (cause_value (MissingMandatoryParameter types.now))
        (record { bytes = packet.old; size = size.old })
        (record { bytes = packet.new; size = size.new }) result }
{
    let code = missing_mandatory_parameter_error_cause::CAUSE_CODE;
    // Where the remainder isn't the number, the value is too long to be written.
    let count = ((types.len() % (1 << 32)) as u32).to_be_bytes();
    add_to_list(packet, size, start, code, &count, types)
}

// ---- helpers

/// Returns whether stream ids end a parameter of this type.
fn has_streams(typ: u16) -> bool
    ensures { result ≡ has_streams typ }
{
    typ == outgoing_ssn_reset_request_parameter::PARAMETER_TYPE
        || typ == incoming_ssn_reset_request_parameter::PARAMETER_TYPE
}

/// Writes the value without stream ids, and returns its size; nothing for another type, or a result
/// that isn't one.
fn put_leading(re_config: &DcsctpReConfig, bytes: &mut [u8]) -> Option<usize>
    requires { length bytes.old ≡ LEADING_SIZE }
    ensures bytes { option_map (λ size. take size bytes.new) result
        ≡ option_map value_of (re_config_tree re_config.now []) }
    ensures within { IfSome result (λ size. size ≤ LEADING_SIZE) }
{
    let size = match re_config.typ {
        outgoing_ssn_reset_request_parameter::PARAMETER_TYPE => {
            let numbers = OutgoingSsnResetRequestNumbers {
                request_seq_nbr: re_config.request_number,
                response_seq_nbr: re_config.response_number,
                sender_last_assigned_tsn: Tsn(re_config.last_tsn),
            };
            put_fields::<u32>(bytes, 0, &numbers.words());
            OutgoingSsnResetRequestNumbers::SIZE
        }
        incoming_ssn_reset_request_parameter::PARAMETER_TYPE
        | ssn_tsn_reset_request_parameter::PARAMETER_TYPE => {
            let numbers = RequestNumbers {
                request_seq_nbr: re_config.request_number,
            };
            put_fields::<u32>(bytes, 0, &numbers.words());
            RequestNumbers::SIZE
        }
        reconfiguration_response_parameter::PARAMETER_TYPE => {
            if re_config.result > LAST_RESULT {
                return None;
            }
            let numbers = ReconfigurationResponseNumbers {
                response_seq_nbr: re_config.response_number,
                result: re_config.result,
            };
            put_fields::<u32>(bytes, 0, &numbers.words());
            if !re_config.has_next_tsns {
                ReconfigurationResponseNumbers::SIZE
            } else {
                let next = [re_config.sender_next_tsn, re_config.receiver_next_tsn];
                put_fields::<u32>(bytes, ReconfigurationResponseNumbers::SIZE, &next);
                ReconfigurationResponseNumbers::SIZE_WITH_NEXT_TSNS
            }
        }
        add_outgoing_streams_request_parameter::PARAMETER_TYPE
        | add_incoming_streams_request_parameter::PARAMETER_TYPE => {
            let numbers = AddStreamsNumbers {
                request_seq_nbr: re_config.request_number,
                nbr_new_streams: re_config.new_streams,
            };
            put_bytes(bytes, 0, &numbers.bytes());
            AddStreamsNumbers::SIZE
        }
        _ => return None,
    };
    Some(size)
}

/// Adds an item whose value is these bytes, and then the words, two bytes each.
fn add_to_list(
    packet: &mut [u8],
    size: &mut usize,
    start: usize,
    typ: u16,
    leading: &[u8],
    words: &[u16],
) -> u32
    ensures { AddsItem start typ (leading.now ++ numbers w16 words.now)
        (record { bytes = packet.old; size = size.old })
        (record { bytes = packet.new; size = size.new }) result }
{
    let item = BytesAndNumbers {
        leading,
        numbers: words,
    };
    add_item(packet, size, start, typ, &item)
}

/// Adds an item of this type.
pub(crate) fn add_item<I: WritableItem>(
    packet: &mut [u8],
    size: &mut usize,
    start: usize,
    typ: u16,
    item: &I,
) -> u32
    ensures { AddsItem start typ (I.value item.now)
        (record { bytes = packet.old; size = size.old })
        (record { bytes = packet.new; size = size.new }) result }
{
    match add_written(packet, size, start, typ, item) {
        Ok(()) => OK,
        Err(error) => write_code(error),
    }
}
