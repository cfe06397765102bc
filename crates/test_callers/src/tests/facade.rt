//! The types and codes of `dcsctp_wire`: each module is that of its name. The values are those of
//! the RFCs.

use dcsctp_wire::packet::{
    abort_chunk, add_incoming_streams_request_parameter, add_outgoing_streams_request_parameter,
    cookie_ack_chunk, cookie_echo_chunk, cookie_received_while_shutting_down, data_chunk,
    error_chunk, forward_tsn_chunk, forward_tsn_supported_parameter, heartbeat_ack_chunk,
    heartbeat_info_parameter, heartbeat_request_chunk, idata_chunk, iforward_tsn_chunk,
    incoming_ssn_reset_request_parameter, init_ack_chunk, init_chunk,
    missing_mandatory_parameter_error_cause, no_user_data_error_cause,
    outgoing_ssn_reset_request_parameter, parameter, protocol_violation_error_cause,
    re_config_chunk, reconfiguration_response_parameter, sack_chunk, shutdown_ack_chunk,
    shutdown_chunk, shutdown_complete_chunk, ssn_tsn_reset_request_parameter,
    state_cookie_parameter, supported_extensions_parameter, unrecognized_chunk_error_cause,
    user_initiated_abort_error_cause, zero_checksum_acceptable_parameter,
};

#[test]
fn types_and_codes(rt: HostRuntime) {
    let types = [
        (data_chunk::CHUNK_TYPE, 0),
        (init_chunk::CHUNK_TYPE, 1),
        (init_ack_chunk::CHUNK_TYPE, 2),
        (sack_chunk::CHUNK_TYPE, 3),
        (heartbeat_request_chunk::CHUNK_TYPE, 4),
        (heartbeat_ack_chunk::CHUNK_TYPE, 5),
        (abort_chunk::CHUNK_TYPE, 6),
        (shutdown_chunk::CHUNK_TYPE, 7),
        (shutdown_ack_chunk::CHUNK_TYPE, 8),
        (error_chunk::CHUNK_TYPE, 9),
        (cookie_echo_chunk::CHUNK_TYPE, 10),
        (cookie_ack_chunk::CHUNK_TYPE, 11),
        (shutdown_complete_chunk::CHUNK_TYPE, 14),
        (idata_chunk::CHUNK_TYPE, 64),
        (re_config_chunk::CHUNK_TYPE, 130),
        (forward_tsn_chunk::CHUNK_TYPE, 192),
        (iforward_tsn_chunk::CHUNK_TYPE, 194),
    ];
    for (typ, wanted) in types {
        assert!(rt; typ == wanted, "{wanted}");
    }
    let types_and_codes = [
        (heartbeat_info_parameter::PARAMETER_TYPE, 1),
        (state_cookie_parameter::PARAMETER_TYPE, 7),
        (outgoing_ssn_reset_request_parameter::PARAMETER_TYPE, 13),
        (incoming_ssn_reset_request_parameter::PARAMETER_TYPE, 14),
        (ssn_tsn_reset_request_parameter::PARAMETER_TYPE, 15),
        (reconfiguration_response_parameter::PARAMETER_TYPE, 16),
        (add_outgoing_streams_request_parameter::PARAMETER_TYPE, 17),
        (add_incoming_streams_request_parameter::PARAMETER_TYPE, 18),
        (zero_checksum_acceptable_parameter::PARAMETER_TYPE, 0x8001),
        (supported_extensions_parameter::PARAMETER_TYPE, 0x8008),
        (forward_tsn_supported_parameter::PARAMETER_TYPE, 0xc000),
        (parameter::PARAMETER_TYPE_SSN_TSN_RESET_REQUEST, 15),
        (parameter::PARAMETER_TYPE_ADD_OUTGOING_STREAMS_REQUEST, 17),
        (parameter::PARAMETER_TYPE_ADD_INCOMING_STREAMS_REQUEST, 18),
        (missing_mandatory_parameter_error_cause::CAUSE_CODE, 2),
        (unrecognized_chunk_error_cause::CAUSE_CODE, 6),
        (no_user_data_error_cause::CAUSE_CODE, 9),
        (cookie_received_while_shutting_down::CAUSE_CODE, 10),
        (user_initiated_abort_error_cause::CAUSE_CODE, 12),
        (protocol_violation_error_cause::CAUSE_CODE, 13),
    ];
    for (typ, wanted) in types_and_codes {
        assert!(rt; typ == wanted, "{wanted}");
    }
}
