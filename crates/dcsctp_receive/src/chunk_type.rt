//! Chunk types by the names of their chunks (RFC 9260 section 3.2, RFC 8260 section 2.1, RFC 3758
//! section 3.2, RFC 8260 section 2.3.1, RFC 6525 section 3.1).

pub use dcsctp_wire::packet::abort_chunk::CHUNK_TYPE as ABORT;
pub use dcsctp_wire::packet::cookie_ack_chunk::CHUNK_TYPE as COOKIE_ACK;
pub use dcsctp_wire::packet::cookie_echo_chunk::CHUNK_TYPE as COOKIE_ECHO;
pub use dcsctp_wire::packet::data_chunk::CHUNK_TYPE as DATA;
pub use dcsctp_wire::packet::error_chunk::CHUNK_TYPE as ERROR;
pub use dcsctp_wire::packet::forward_tsn_chunk::CHUNK_TYPE as FORWARD_TSN;
pub use dcsctp_wire::packet::heartbeat_ack_chunk::CHUNK_TYPE as HEARTBEAT_ACK;
pub use dcsctp_wire::packet::heartbeat_request_chunk::CHUNK_TYPE as HEARTBEAT;
pub use dcsctp_wire::packet::idata_chunk::CHUNK_TYPE as I_DATA;
pub use dcsctp_wire::packet::iforward_tsn_chunk::CHUNK_TYPE as I_FORWARD_TSN;
pub use dcsctp_wire::packet::init_ack_chunk::CHUNK_TYPE as INIT_ACK;
pub use dcsctp_wire::packet::init_chunk::CHUNK_TYPE as INIT;
pub use dcsctp_wire::packet::re_config_chunk::CHUNK_TYPE as RE_CONFIG;
pub use dcsctp_wire::packet::sack_chunk::CHUNK_TYPE as SACK;
pub use dcsctp_wire::packet::shutdown_chunk::CHUNK_TYPE as SHUTDOWN;
pub use dcsctp_wire::packet::shutdown_complete_chunk::CHUNK_TYPE as SHUTDOWN_COMPLETE;

/// Of RFC 4895.
pub const AUTH: u8 = 15;
/// In IANA's registry, reserved for an Internet-Draft: a SACK that also says which TSNs beyond the
/// cumulative one won't be asked for again.
pub const NR_SACK: u8 = 16;
/// Of RFC 4820.
pub const PAD: u8 = 132;
/// Of RFC 5061.
pub const ASCONF_ACK: u8 = 128;
/// Of RFC 5061.
pub const ASCONF: u8 = 193;
