//! The requests to reconfigure streams that one end sent (RFC 6525 section 4).

use dcsctp_borrowed::part::Part;
use dcsctp_wire::packet::add_incoming_streams_request_parameter::PARAMETER_TYPE as ADD_INCOMING_STREAMS;
use dcsctp_wire::packet::add_outgoing_streams_request_parameter::PARAMETER_TYPE as ADD_OUTGOING_STREAMS;
use dcsctp_wire::packet::incoming_ssn_reset_request_parameter::PARAMETER_TYPE as INCOMING_SSN_RESET;
use dcsctp_wire::packet::outgoing_ssn_reset_request_parameter::PARAMETER_TYPE as OUTGOING_SSN_RESET;
use dcsctp_wire::packet::read_u32_be;
use dcsctp_wire::packet::reconfiguration_response_parameter::PARAMETER_TYPE as RESPONSE;
use dcsctp_wire::packet::ssn_tsn_reset_request_parameter::PARAMETER_TYPE as SSN_TSN_RESET;
use dump_packet::{PacketNumber, Unanswered, increase};

/// The requests that one end sent in RE-CONFIG chunks.
#[derive(Drop)]
pub struct Requests {
    /// How many there were, up to 2^64 - 1. One with the number of one of the 8 before it is that
    /// one, sent again.
    pub count: u64,
    /// Those without a response of the same number.
    pub unanswered: Unanswered,
}

impl Requests {
    /// Returns the requests of an end that sent none.
    pub fn new() -> Requests {
        Requests {
            count: 0,
            unanswered: Unanswered::new(),
        }
    }

    /// Notes the requests in the value of a RE-CONFIG that this end sent.
    pub fn note_sent(&mut self, value: Part<'_>, packet: PacketNumber) {
        for parameter in value.items() {
            if is_request(parameter.code()) && parameter.value.bytes.len() >= 4 {
                let key = u64::from(read_u32_be(parameter.value.bytes));
                if self.unanswered.ask_once(key, packet) {
                    increase(&mut self.count);
                }
            }
        }
    }

    /// Notes the responses in the value of a RE-CONFIG that the other end sent.
    pub fn note_received(&mut self, value: Part<'_>) {
        for parameter in value.items() {
            if parameter.code() == RESPONSE && parameter.value.bytes.len() >= 4 {
                self.unanswered
                    .answer(u64::from(read_u32_be(parameter.value.bytes)));
            }
        }
    }
}

/// Returns whether a parameter is a request: it begins with its Re-configuration Request Sequence
/// Number (RFC 6525 sections 4.1 to 4.3, 4.5 and 4.6).
fn is_request(code: u16) -> bool {
    matches!(
        code,
        OUTGOING_SSN_RESET
            | INCOMING_SSN_RESET
            | SSN_TSN_RESET
            | ADD_OUTGOING_STREAMS
            | ADD_INCOMING_STREAMS
    )
}
