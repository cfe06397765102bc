//! The packet, the chunks, and what they are made of: a module a kind, named as its type.

pub mod abort_chunk;
mod builder;
pub mod chunk;
mod common_header;
pub mod error_chunk;
mod first_fault;
pub mod heartbeat_ack_chunk;
pub mod heartbeat_request_chunk;
pub mod init_ack_chunk;
pub mod init_chunk;
mod parameter_list;
pub mod re_config_chunk;
pub mod sctp_packet;

pub use dcsctp_cause::{
    cookie_received_while_shutting_down, error_causes, missing_mandatory_parameter_error_cause,
    no_user_data_error_cause, protocol_violation_error_cause, unrecognized_chunk_error_cause,
    user_initiated_abort_error_cause,
};
pub use dcsctp_chunk::{
    chunk_validators, cookie_ack_chunk, cookie_echo_chunk, data, data_chunk, forward_tsn_chunk,
    idata_chunk, iforward_tsn_chunk, plain_check, raw_chunk, sack_chunk, shutdown_ack_chunk,
    shutdown_chunk, shutdown_complete_chunk, unknown_chunk,
};
pub use dcsctp_tlv::error::ChunkParseError;
pub use dcsctp_tlv::frame::TLV_HEADER_SIZE;
pub use dcsctp_tlv::number::{
    is_divisible_by_4, read_u16_be, read_u32_be, read_u64_be, round_down_to_4, round_up_to_4,
    write_u16_be, write_u32_be, write_u64_be,
};
pub use dcsctp_tlv::parameter::{
    self, PARAMETER_HEADER_SIZE, add_incoming_streams_request_parameter,
    add_outgoing_streams_request_parameter, add_streams_request, forward_tsn_supported_parameter,
    heartbeat_info_parameter, incoming_ssn_reset_request_parameter,
    outgoing_ssn_reset_request_parameter, reconfiguration_response_parameter, request_numbers,
    ssn_tsn_reset_request_parameter, state_cookie_parameter, supported_extensions_parameter,
    unknown_parameter, zero_checksum_acceptable_parameter,
};
pub use dcsctp_tlv::skipped_stream::SkippedStream;
pub use dcsctp_tlv::tlv::SerializableTlv;
