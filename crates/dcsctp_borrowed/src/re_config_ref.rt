//! The parameters of RE-CONFIG, in a packet's bytes.

ghost use Rattle.std.specs.{Prelude.{◌≡◌, option_map}, Result.{result_ok}};
ghost use Rattle.dcsctp_tlv.specs.Parameter.{ParameterTree, row};
ghost use Rattle.dcsctp_tlv.specs.Parameter as parameter;
ghost use Rattle.dcsctp_tlv.specs.OutgoingSsnResetRequest as outgoing_kind;
ghost use Rattle.dcsctp_tlv.specs.IncomingSsnResetRequest as incoming_kind;
ghost use Rattle.dcsctp_borrowed.specs.ReConfig.{re_config_view, re_config_of, read_re_config};

use crate::numbers::Numbers;
use dcsctp_tlv::parameter::add_incoming_streams_request_parameter::{
    self, AddIncomingStreamsRequestParameter,
};
use dcsctp_tlv::parameter::add_outgoing_streams_request_parameter::{
    self, AddOutgoingStreamsRequestParameter,
};
use dcsctp_tlv::parameter::outgoing_ssn_reset_request_parameter::{
    self, OutgoingSsnResetRequestNumbers,
};
use dcsctp_tlv::parameter::reconfiguration_response_parameter::{
    self, ReconfigurationResponseParameter,
};
use dcsctp_tlv::parameter::request_numbers::RequestNumbers;
use dcsctp_tlv::parameter::ssn_tsn_reset_request_parameter::{self, SsnTsnResetRequestParameter};
use dcsctp_tlv::parameter::{RawParameter, incoming_ssn_reset_request_parameter};
use dcsctp_types::types::Tsn;

/// A request or the response of RE-CONFIG (RFC 6525 section 4), whose stream ids stay where they
/// lie in the packet. The variants are those of `Parameter`.
#[derive(Debug, Drop)]
pub enum ReConfigRef<'a> {
    /// Outgoing SSN Reset Request (RFC 6525 section 4.1), type 13.
    OutgoingSsnResetRequest {
        /// The sequence number of this request.
        request_seq_nbr: u32,
        /// The sequence number of the incoming request that it answers, if it answers one.
        response_seq_nbr: u32,
        /// The last TSN that was assigned before the reset.
        sender_last_assigned_tsn: Tsn,
        /// The ids of the streams to be reset; without any, all are.
        streams: Numbers<'a>,
    },
    /// Incoming SSN Reset Request (RFC 6525 section 4.2), type 14.
    IncomingSsnResetRequest {
        /// The sequence number of this request.
        request_seq_nbr: u32,
        /// The ids of the streams to be reset; without any, all are.
        streams: Numbers<'a>,
    },
    /// SSN/TSN Reset Request (RFC 6525 section 4.3), type 15.
    SsnTsnResetRequest(SsnTsnResetRequestParameter),
    /// Re-configuration Response (RFC 6525 section 4.4), type 16.
    ReconfigurationResponse(ReconfigurationResponseParameter),
    /// Add Outgoing Streams Request (RFC 6525 section 4.5), type 17.
    AddOutgoingStreamsRequest(AddOutgoingStreamsRequestParameter),
    /// Add Incoming Streams Request (RFC 6525 section 4.6), type 18.
    AddIncomingStreamsRequest(AddIncomingStreamsRequestParameter),
}

impl<'a> ReConfigRef<'a> {
    /// Reads a request or the response, without a copy. `None` if and only if the parameter has
    /// another type, or a value that its type doesn't allow: of another size, or a response whose
    /// result is above 6. Reserved bytes are ignored.
    ///
    /// `RawParameters` gives the parameters of RE-CONFIG. Of a parameter of a packet this is the
    /// parameter that `SctpPacket::from_bytes` gives, and `None` if and only if the parameter has
    /// another type.
    #[inline(always)]
    pub fn from_raw(raw: &RawParameter<'a>) -> Option<ReConfigRef<'a>>
        ensures read { option_map re_config_view result
            ≡ read_re_config raw.now.typ raw.now.value.now }
        ensures means { (tree : ParameterTree) → (row raw.now.typ).means raw.now.value.now tree
            → option_map re_config_view result ≡ re_config_of tree }
    {
        ReConfigRef::of_value(raw.typ, raw.value)
    }

    /// Builds what a value of this type means.
    fn of_value(typ: u16, value: &'a [u8]) -> Option<ReConfigRef<'a>>
        ensures { option_map re_config_view result ≡ read_re_config typ value.now }
    {
        let raw = RawParameter { typ, value };
        match typ {
            outgoing_ssn_reset_request_parameter::PARAMETER_TYPE => outgoing_request(value),
            incoming_ssn_reset_request_parameter::PARAMETER_TYPE => incoming_request(value),
            ssn_tsn_reset_request_parameter::PARAMETER_TYPE => {
                let request = SsnTsnResetRequestParameter::try_from(raw).ok()?;
                Some(ReConfigRef::SsnTsnResetRequest(request))
            }
            reconfiguration_response_parameter::PARAMETER_TYPE => {
                let response = ReconfigurationResponseParameter::try_from(raw).ok()?;
                Some(ReConfigRef::ReconfigurationResponse(response))
            }
            add_outgoing_streams_request_parameter::PARAMETER_TYPE => {
                let request = AddOutgoingStreamsRequestParameter::try_from(raw).ok()?;
                Some(ReConfigRef::AddOutgoingStreamsRequest(request))
            }
            add_incoming_streams_request_parameter::PARAMETER_TYPE => {
                let request = AddIncomingStreamsRequestParameter::try_from(raw).ok()?;
                Some(ReConfigRef::AddIncomingStreamsRequest(request))
            }
            _ => None,
        }
    }
}

/// Builds what the value of an Outgoing SSN Reset Request means.
fn outgoing_request(value: &[u8]) -> Option<ReConfigRef>
    ensures { option_map re_config_view result ≡ option_map parameter.OutgoingSsnResetRequest
        (result_ok (outgoing_kind.read value.now)) }
{
    const SIZE: usize = OutgoingSsnResetRequestNumbers::SIZE;
    if value.len() < SIZE {
        return None;
    }
    if !(value.len() - SIZE).is_multiple_of(2) {
        return None;
    }
    let numbers = OutgoingSsnResetRequestNumbers::read(value);
    Some(ReConfigRef::OutgoingSsnResetRequest {
        request_seq_nbr: numbers.request_seq_nbr,
        response_seq_nbr: numbers.response_seq_nbr,
        sender_last_assigned_tsn: numbers.sender_last_assigned_tsn,
        streams: Numbers::new((value.len() - SIZE) / 2, &value[SIZE..]),
    })
}

/// Builds what the value of an Incoming SSN Reset Request means.
fn incoming_request(value: &[u8]) -> Option<ReConfigRef>
    ensures { option_map re_config_view result ≡ option_map parameter.IncomingSsnResetRequest
        (result_ok (incoming_kind.read value.now)) }
{
    if value.len() < RequestNumbers::SIZE {
        return None;
    }
    let ids = &value[RequestNumbers::SIZE..];
    if !ids.len().is_multiple_of(2) {
        return None;
    }
    Some(ReConfigRef::IncomingSsnResetRequest {
        request_seq_nbr: RequestNumbers::read(value).request_seq_nbr,
        streams: Numbers::new(ids.len() / 2, ids),
    })
}
