//! The requests and the response of RE-CONFIG, and the cause Missing Mandatory Parameter.

ghost use Rattle.std.specs.{Prelude.{◌≡◌, ℕ, option_map, slice_get}, Option.{option_and_then, unwrap_or}};
ghost use Rattle.dcsctp_tlv.specs.{Parameter.{ParameterTree, ReconfigurationResponse}, ReconfigurationResponse.{tsn_number, view as response_view}};
ghost use Rattle.dcsctp_cause.specs.Cause.{CauseTree};
ghost use Rattle.dcsctp_borrowed.specs.{MissingParameters.{missing_of}, ReConfig.{re_config_view, re_config_of}};
ghost use Rattle.dcsctp_c.specs.{Part.{ReadsInto, Holds}, Parameter.{ParameterMeans, CauseMeans}, ReConfig.{re_config_at, HoldsReConfig, only, reset_streams, missing_at, at_index}};

use crate::parameters::parameter_value;
use crate::parts::put_found;
use crate::structs::{DcsctpParameter, DcsctpReConfig};
use dcsctp_borrowed::missing_parameters::missing_parameters;
use dcsctp_borrowed::numbers::Numbers;
use dcsctp_borrowed::re_config_ref::ReConfigRef;
use dcsctp_tlv::parameter::reconfiguration_response_parameter::ReconfigurationResponseParameter;
use dcsctp_tlv::parameter::{
    RawParameter, add_incoming_streams_request_parameter, add_outgoing_streams_request_parameter,
    incoming_ssn_reset_request_parameter, outgoing_ssn_reset_request_parameter,
    reconfiguration_response_parameter, ssn_tsn_reset_request_parameter,
};
use dcsctp_types::types::Tsn;

/// Reads a request or the response of RE-CONFIG (RFC 6525 section 4).
///
/// Returns false, and `re_config` stays, if and only if the parameter has another type, its value
/// isn't one of its type, as of a response with a result above 6, or it does not lie within the
/// bytes.
#[unsafe(no_mangle)]
pub extern "C" fn dcsctp_re_config(
    bytes: &[u8],
    parameter: &DcsctpParameter,
    re_config: &mut DcsctpReConfig,
) -> bool
    ensures read { ReadsInto HoldsReConfig (re_config_at bytes.now parameter.now)
        re_config.old re_config.new result }
    ensures means { (tree : ParameterTree) → ParameterMeans bytes.now parameter.now tree
        → ReadsInto HoldsReConfig (re_config_of tree) re_config.old re_config.new result }
{
    let Some(found) = re_config_ref(bytes, parameter) else {
        return false;
    };
    *re_config = re_config_struct(&found);
    true
}

/// Reads the stream at an index, from 0 on, of an Outgoing SSN Reset Request (RFC 6525 section 4.1)
/// or an Incoming one (section 4.2). A request without streams is for all of them.
///
/// Returns false, and `stream` stays, if and only if `dcsctp_re_config` returns false, the
/// parameter is none of these two, or has no stream at this index.
#[unsafe(no_mangle)]
pub extern "C" fn dcsctp_reset_stream(
    bytes: &[u8],
    parameter: &DcsctpParameter,
    index: usize,
    stream: &mut u16,
) -> bool
    ensures read { ReadsInto Holds
        (at_index index (option_and_then reset_streams (re_config_at bytes.now parameter.now)))
        stream.old stream.new result }
    ensures means { (tree : ParameterTree) → ParameterMeans bytes.now parameter.now tree
        → ReadsInto Holds (at_index index (reset_streams tree))
        stream.old stream.new result }
{
    let Some(streams) = reset_streams(bytes, parameter) else {
        return false;
    };
    put_found(number_at(&streams, index), stream)
}

/// Reads the type at an index, from 0 on, of the cause Missing Mandatory Parameter (RFC 9260
/// section 3.3.10.2).
///
/// Returns false, and `typ` stays, if and only if the cause has another code, its value isn't as
/// long as its count says, it does not lie within the bytes, or has no type at this index.
#[unsafe(no_mangle)]
pub extern "C" fn dcsctp_missing_parameter(
    bytes: &[u8],
    cause: &DcsctpParameter,
    index: usize,
    typ: &mut u16,
) -> bool
    ensures read { ReadsInto Holds (at_index index (missing_at bytes.now cause.now))
        typ.old typ.new result }
    ensures means { (tree : CauseTree) → CauseMeans bytes.now cause.now tree
        → ReadsInto Holds (at_index index (missing_of tree)) typ.old typ.new result }
{
    let Some(types) = missing(bytes, cause) else {
        return false;
    };
    put_found(number_at(&types, index), typ)
}

// ---- helpers

/// Returns the request or the response where it lies.
#[inline(always)]
fn re_config_ref<'a>(bytes: &'a [u8], parameter: &DcsctpParameter) -> Option<ReConfigRef<'a>>
    ensures read { option_map re_config_view result ≡ re_config_at bytes.now parameter.now }
    ensures means { (tree : ParameterTree) → ParameterMeans bytes.now parameter.now tree
        → re_config_at bytes.now parameter.now ≡ re_config_of tree }
{
    let value = parameter_value(bytes, parameter)?;
    ReConfigRef::from_raw(&RawParameter {
        typ: parameter.typ,
        value,
    })
}

/// Returns what was read of a RE-CONFIG parameter as its C struct.
#[inline(always)]
fn re_config_struct(found: &ReConfigRef<'_>) -> DcsctpReConfig
    ensures { HoldsReConfig (re_config_view found.now) result }
{
    match found {
        ReConfigRef::OutgoingSsnResetRequest {
            request_seq_nbr,
            response_seq_nbr,
            sender_last_assigned_tsn,
            streams,
        } => DcsctpReConfig {
            request_number: *request_seq_nbr,
            response_number: *response_seq_nbr,
            last_tsn: sender_last_assigned_tsn.0,
            stream_count: streams.count(),
            ..empty(outgoing_ssn_reset_request_parameter::PARAMETER_TYPE)
        },
        ReConfigRef::IncomingSsnResetRequest {
            request_seq_nbr,
            streams,
        } => DcsctpReConfig {
            request_number: *request_seq_nbr,
            stream_count: streams.count(),
            ..empty(incoming_ssn_reset_request_parameter::PARAMETER_TYPE)
        },
        ReConfigRef::SsnTsnResetRequest(request) => DcsctpReConfig {
            request_number: request.request_seq_nbr,
            ..empty(ssn_tsn_reset_request_parameter::PARAMETER_TYPE)
        },
        ReConfigRef::ReconfigurationResponse(response) => response_struct(response),
        ReConfigRef::AddOutgoingStreamsRequest(request) => DcsctpReConfig {
            request_number: request.request_seq_nbr,
            new_streams: request.nbr_new_streams,
            ..empty(add_outgoing_streams_request_parameter::PARAMETER_TYPE)
        },
        ReConfigRef::AddIncomingStreamsRequest(request) => DcsctpReConfig {
            request_number: request.request_seq_nbr,
            new_streams: request.nbr_new_streams,
            ..empty(add_incoming_streams_request_parameter::PARAMETER_TYPE)
        },
    }
}

/// Returns the response as its struct.
#[inline(always)]
fn response_struct(response: &ReconfigurationResponseParameter) -> DcsctpReConfig
    ensures { HoldsReConfig (ReconfigurationResponse (response_view response.now)) result }
{
    DcsctpReConfig {
        response_number: response.response_seq_nbr,
        result: response.result as u32,
        has_next_tsns: response.sender_next_tsn.is_some() && response.receiver_next_tsn.is_some(),
        sender_next_tsn: number_or_zero(response.sender_next_tsn),
        receiver_next_tsn: number_or_zero(response.receiver_next_tsn),
        ..empty(reconfiguration_response_parameter::PARAMETER_TYPE)
    }
}

/// Returns the TSN; 0 where there is none.
#[inline(always)]
fn number_or_zero(tsn: Option<Tsn>) -> u32
    ensures { result ≡ unwrap_or (tsn_number tsn) 0 }
{
    match tsn {
        Some(tsn) => tsn.0,
        None => 0,
    }
}

/// Returns a struct of a type that carries nothing.
#[inline(always)]
fn empty(typ: u16) -> DcsctpReConfig
    ensures { result ≡ only typ }
{
    DcsctpReConfig {
        typ,
        request_number: 0,
        response_number: 0,
        last_tsn: 0,
        result: 0,
        has_next_tsns: false,
        sender_next_tsn: 0,
        receiver_next_tsn: 0,
        new_streams: 0,
        stream_count: 0,
    }
}

/// Returns the streams of an Outgoing or Incoming SSN Reset Request where they lie.
#[inline(always)]
pub(crate) fn reset_streams<'a>(bytes: &'a [u8], parameter: &DcsctpParameter) -> Option<Numbers<'a>>
    ensures read { result
        ≡ option_and_then reset_streams (re_config_at bytes.now parameter.now) }
    ensures means { (tree : ParameterTree) → ParameterMeans bytes.now parameter.now tree
        → option_and_then reset_streams (re_config_at bytes.now parameter.now)
        ≡ reset_streams tree }
{
    match re_config_ref(bytes, parameter)? {
        ReConfigRef::OutgoingSsnResetRequest { streams, .. }
        | ReConfigRef::IncomingSsnResetRequest { streams, .. } => Some(streams),
        _ => None,
    }
}

/// Returns the missing types where they lie.
#[inline(always)]
pub(crate) fn missing<'a>(bytes: &'a [u8], cause: &DcsctpParameter) -> Option<Numbers<'a>>
    ensures read { result ≡ missing_at bytes.now cause.now }
    ensures means { (tree : CauseTree) → CauseMeans bytes.now cause.now tree
        → missing_at bytes.now cause.now ≡ missing_of tree }
{
    let value = parameter_value(bytes, cause)?;
    missing_parameters(&RawParameter {
        typ: cause.typ,
        value,
    })
}

/// Returns the number at an index.
#[inline(always)]
fn number_at(numbers: &Numbers<'_>, index: usize) -> Option<u16>
    ensures { result ≡ slice_get numbers.now index }
{
    if index >= numbers.count() {
        return None;
    }
    Some(numbers.number(index))
}
