//! What a parameter holds.

use crate::causes::Causes;
use crate::fields::{Fields, Number, walk_named, walk_numbers};
use crate::held::walk_held;
use crate::lists::{Listed, Unopened};
use crate::names::{Level, NamedBy};
use crate::registered::held_in_parameter;
use crate::registry::result_name;
use dcsctp_borrowed::part::Item;
use dcsctp_borrowed::re_config_ref::ReConfigRef;
use dcsctp_wire::packet::add_streams_request::AddStreamsNumbers;
use dcsctp_wire::packet::outgoing_ssn_reset_request_parameter::{
    self, OutgoingSsnResetRequestNumbers,
};
use dcsctp_wire::packet::parameter::RawParameter;
use dcsctp_wire::packet::reconfiguration_response_parameter::{
    self, ReconfigurationResponseNumbers, ReconfigurationResponseParameter,
};
use dcsctp_wire::packet::request_numbers::RequestNumbers;
use dcsctp_wire::packet::{
    add_incoming_streams_request_parameter, add_outgoing_streams_request_parameter,
    forward_tsn_supported_parameter, incoming_ssn_reset_request_parameter,
    ssn_tsn_reset_request_parameter, supported_extensions_parameter,
    zero_checksum_acceptable_parameter,
};

/// The parameters in a chunk.
pub struct Parameters;

impl Listed for Parameters {
    const KEY: &'static str = "parameters";

    const LEVEL: Level = Level::Parameter;

    const IS_OPENED: bool = true;

    fn walk_meaning<F: Fields>(parameter: &Item<'_>, fields: &mut F) -> bool {
        walk_parameter::<InnerParameters, Causes, F>(parameter, fields)
    }
}

/// The parameters in a parameter or a cause.
pub struct InnerParameters;

impl Listed for InnerParameters {
    const KEY: &'static str = "parameters";

    const LEVEL: Level = Level::Parameter;

    const IS_OPENED: bool = true;

    fn walk_meaning<F: Fields>(parameter: &Item<'_>, fields: &mut F) -> bool {
        walk_parameter::<InnermostParameters, Unopened, F>(parameter, fields)
    }
}

/// The parameters in those, which are opened no further.
struct InnermostParameters;

impl Listed for InnermostParameters {
    const KEY: &'static str = "parameters";

    const LEVEL: Level = Level::Parameter;

    const IS_OPENED: bool = true;

    fn walk_meaning<F: Fields>(parameter: &Item<'_>, fields: &mut F) -> bool {
        walk_parameter::<Unopened, Unopened, F>(parameter, fields)
    }
}

/// Hands over what a parameter means, as `Listed` says.
fn walk_parameter<P: Listed, C: Listed, F: Fields>(parameter: &Item<'_>, fields: &mut F) -> bool {
    match held_in_parameter(parameter.code()) {
        Some(held) => walk_held::<P, C, F>(&held, parameter, fields),
        None => walk_meaning(parameter, fields),
    }
}

/// Hands over what a parameter means that isn't kept as bytes, as `Listed` says.
fn walk_meaning<F: Fields>(parameter: &Item<'_>, fields: &mut F) -> bool {
    let value = parameter.value.bytes;
    match parameter.code() {
        outgoing_ssn_reset_request_parameter::PARAMETER_TYPE
        | incoming_ssn_reset_request_parameter::PARAMETER_TYPE
        | ssn_tsn_reset_request_parameter::PARAMETER_TYPE
        | reconfiguration_response_parameter::PARAMETER_TYPE
        | add_outgoing_streams_request_parameter::PARAMETER_TYPE
        | add_incoming_streams_request_parameter::PARAMETER_TYPE => {
            return walk_re_config(parameter, fields);
        }
        zero_checksum_acceptable_parameter::PARAMETER_TYPE if value.len() == 4 => {
            fields.number(&Number::read(": method ", "method", parameter, 4, 4));
        }
        supported_extensions_parameter::PARAMETER_TYPE => {
            let first = Number::read("", "type", parameter, 4, 1);
            walk_named(
                "chunk_types",
                value.len(),
                first,
                NamedBy::Chunk,
                parameter,
                fields,
            );
        }
        forward_tsn_supported_parameter::PARAMETER_TYPE if value.is_empty() => {}
        _ => return false,
    }
    true
}

/// Hands over what a parameter of RE-CONFIG means, as `walk_meaning` does.
fn walk_re_config<F: Fields>(item: &Item<'_>, fields: &mut F) -> bool {
    let (typ, value) = (item.code(), item.value.bytes);
    let Some(parameter) = ReConfigRef::from_raw(&RawParameter { typ, value }) else {
        return false;
    };
    match &parameter {
        ReConfigRef::OutgoingSsnResetRequest { streams, .. } => {
            let request = OutgoingSsnResetRequestNumbers::REQUEST_SEQ_NBR;
            let response = OutgoingSsnResetRequestNumbers::RESPONSE_SEQ_NBR;
            let last_tsn = OutgoingSsnResetRequestNumbers::SENDER_LAST_ASSIGNED_TSN;
            fields.number(&Number::at(": request ", "request_number", item, request, 4));
            fields.number(&Number::at(", response ", "response_number", item, response, 4));
            fields.number(&Number::at(", last tsn ", "last_tsn", item, last_tsn, 4));
            walk_streams(
                streams.count(),
                OutgoingSsnResetRequestNumbers::SIZE,
                item,
                fields,
            );
        }
        ReConfigRef::IncomingSsnResetRequest { streams, .. } => {
            let request = RequestNumbers::REQUEST_SEQ_NBR;
            fields.number(&Number::at(": request ", "request_number", item, request, 4));
            walk_streams(streams.count(), RequestNumbers::SIZE, item, fields);
        }
        ReConfigRef::SsnTsnResetRequest(_) => {
            let request = RequestNumbers::REQUEST_SEQ_NBR;
            fields.number(&Number::at(": request ", "request_number", item, request, 4));
        }
        ReConfigRef::ReconfigurationResponse(response) => walk_response(response, item, fields),
        ReConfigRef::AddOutgoingStreamsRequest(_) | ReConfigRef::AddIncomingStreamsRequest(_) => {
            let request = AddStreamsNumbers::REQUEST_SEQ_NBR;
            let new_streams = AddStreamsNumbers::NBR_NEW_STREAMS;
            fields.number(&Number::at(": request ", "request_number", item, request, 4));
            fields.number(&Number::at(", new streams ", "new_streams", item, new_streams, 2));
        }
    }
    true
}

/// Hands over the streams of a reset request.
fn walk_streams<F: Fields>(count: usize, place: usize, item: &Item<'_>, fields: &mut F) {
    let first = Number::at("\n    stream ", "stream", item, place, 2);
    walk_numbers("streams", count, first, item, fields)
}

/// Hands over what a Re-configuration Response says.
fn walk_response<F: Fields>(
    response: &ReconfigurationResponseParameter,
    item: &Item<'_>,
    fields: &mut F,
) {
    let number = ReconfigurationResponseNumbers::RESPONSE_SEQ_NBR;
    fields.number(&Number::at(": response ", "response_number", item, number, 4));
    let result = Number::at(
        ", result ",
        "result",
        item,
        ReconfigurationResponseNumbers::RESULT,
        4,
    );
    fields.named(&result, result_name(result.value));
    if response.sender_next_tsn.is_some() {
        let words = "\n    sender's next tsn ";
        let place = ReconfigurationResponseNumbers::SENDER_NEXT_TSN;
        fields.number(&Number::at(words, "sender_next_tsn", item, place, 4));
    }
    if response.receiver_next_tsn.is_some() {
        let words = "\n    receiver's next tsn ";
        let place = ReconfigurationResponseNumbers::RECEIVER_NEXT_TSN;
        fields.number(&Number::at(words, "receiver_next_tsn", item, place, 4));
    }
}
