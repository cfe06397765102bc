//! What holds of the definitions alone, as contracts of functions that do nothing; and of the
//! constants and of equality. `types` has the laws of serial numbers, ids, keys and times.

ghost use Rattle.std.specs.Prelude.{◌≡◌, ◌≤◌, ◌+◌, ◌++◌, ◌%◌, ◌↔◌, ℕ, Bool, true, false, IsTrue, List, Result, length, drop};
ghost use Rattle.dcsctp_types.specs.Equality.{TellsSame, IsItself};
ghost use Rattle.dcsctp_tlv.specs.{Fault.{Fault}, Frame.{PaddingRule, lenient}, Level.{MeansTrees, HasFault}, Decided.{SplitsOneWay, IsDecided, IgnoresPadding}, Image.{size_of, image_of, list_size, written}, Number.{AreBytes}, Parameter.{parameters, tlv as parameter_tlv}};
ghost use Rattle.dcsctp_cause.specs.Cause.{causes};
ghost use Rattle.dcsctp_wire.specs.{Chunk.{ChunkTree, Init, InitAck, chunks, tlv}, InitFields.{Tree as InitTree}, Canonical.{canonical, HasCanonical}, Packet.{Meaning, PacketTree, PacketFault, Chunk, IsOpened, body, packet_with, Answer, Placed}};

use crate::packet::abort_chunk::CHUNK_TYPE as ABORT;
pub use crate::packet::chunk::chunk_has_widths;
use crate::packet::cookie_ack_chunk::CHUNK_TYPE as COOKIE_ACK;
use crate::packet::cookie_echo_chunk::CHUNK_TYPE as COOKIE_ECHO;
use crate::packet::cookie_received_while_shutting_down::CAUSE_CODE as COOKIE_RECEIVED_WHILE_SHUTTING_DOWN;
use crate::packet::data_chunk::{CHUNK_TYPE as DATA, HEADER_SIZE as DATA_SIZE};
use crate::packet::error_chunk::{CHUNK_TYPE as ERROR, HEADER_SIZE as ERROR_SIZE};
use crate::packet::forward_tsn_chunk::CHUNK_TYPE as FORWARD_TSN;
use crate::packet::forward_tsn_supported_parameter::PARAMETER_TYPE as FORWARD_TSN_SUPPORTED;
use crate::packet::heartbeat_ack_chunk::{
    CHUNK_TYPE as HEARTBEAT_ACK, HEADER_SIZE as HEARTBEAT_ACK_SIZE,
};
use crate::packet::heartbeat_info_parameter::PARAMETER_TYPE as HEARTBEAT_INFO;
use crate::packet::heartbeat_request_chunk::CHUNK_TYPE as HEARTBEAT;
use crate::packet::idata_chunk::{CHUNK_TYPE as I_DATA, HEADER_SIZE as I_DATA_SIZE};
use crate::packet::iforward_tsn_chunk::CHUNK_TYPE as I_FORWARD_TSN;
use crate::packet::incoming_ssn_reset_request_parameter::PARAMETER_TYPE as INCOMING_SSN_RESET;
use crate::packet::init_ack_chunk::CHUNK_TYPE as INIT_ACK;
use crate::packet::init_chunk::CHUNK_TYPE as INIT;
use crate::packet::missing_mandatory_parameter_error_cause::{
    CAUSE_CODE as MISSING_MANDATORY_PARAMETER, MissingMandatoryParameterErrorCause,
};
use crate::packet::no_user_data_error_cause::CAUSE_CODE as NO_USER_DATA;
use crate::packet::outgoing_ssn_reset_request_parameter::PARAMETER_TYPE as OUTGOING_SSN_RESET;
use crate::packet::parameter::{
    PARAMETER_TYPE_ADD_INCOMING_STREAMS_REQUEST as ADD_INCOMING_STREAMS,
    PARAMETER_TYPE_ADD_OUTGOING_STREAMS_REQUEST as ADD_OUTGOING_STREAMS,
    PARAMETER_TYPE_SSN_TSN_RESET_REQUEST as SSN_TSN_RESET,
};
use crate::packet::protocol_violation_error_cause::CAUSE_CODE as PROTOCOL_VIOLATION;
use crate::packet::re_config_chunk::CHUNK_TYPE as RE_CONFIG;
use crate::packet::reconfiguration_response_parameter::{
    PARAMETER_TYPE as RECONFIGURATION_RESPONSE, ReconfigurationResponseResult,
};
use crate::packet::sack_chunk::{CHUNK_TYPE as SACK, GapAckBlock};
pub use crate::packet::sctp_packet::has_widths;
use crate::packet::sctp_packet::{
    COMMON_HEADER_SIZE, ChecksumPolicy, FirstFault, PacketParseError,
};
use crate::packet::shutdown_ack_chunk::CHUNK_TYPE as SHUTDOWN_ACK;
use crate::packet::shutdown_chunk::CHUNK_TYPE as SHUTDOWN;
use crate::packet::shutdown_complete_chunk::CHUNK_TYPE as SHUTDOWN_COMPLETE;
use crate::packet::state_cookie_parameter::PARAMETER_TYPE as STATE_COOKIE;
use crate::packet::supported_extensions_parameter::PARAMETER_TYPE as SUPPORTED_EXTENSIONS;
use crate::packet::unrecognized_chunk_error_cause::CAUSE_CODE as UNRECOGNIZED_CHUNK;
use crate::packet::user_initiated_abort_error_cause::CAUSE_CODE as USER_INITIATED_ABORT;
use crate::packet::zero_checksum_acceptable_parameter::PARAMETER_TYPE as ZERO_CHECKSUM_ACCEPTABLE;
use crate::packet::{
    ChunkParseError, PARAMETER_HEADER_SIZE, SerializableTlv, SkippedStream, TLV_HEADER_SIZE,
};
use dcsctp_tlv::frame::MAX_VALUE_SIZE;
pub use dcsctp_types::laws as types;

/// Proves that each input has exactly one answer, under each checksum word and each policy.
///
/// So has each list of chunks, of parameters and of error causes: bytes are split into items in one
/// way or not at all, and they mean one list of trees or have one fault, never two of either, never
/// both, and never neither; for a strict reader and for a lenient one. A lenient reader refuses no
/// list for its padding. A fault, of a packet or of a list, lies at one place.
pub fn one_answer()
    ensures one { (bytes : List ℕ) (word : ℕ) (policy : ChecksumPolicy)
        (a b : Result PacketTree (PacketFault × ℕ))
        → AreBytes bytes → Placed bytes word policy a → Placed bytes word policy b → a ≡ b }
    ensures some { (bytes : List ℕ) (word : ℕ) (policy : ChecksumPolicy)
        → AreBytes bytes
        → ((a : Result PacketTree (PacketFault × ℕ)) × Placed bytes word policy a) }
    ensures splitting { (rule : PaddingRule) → SplitsOneWay rule }
    ensures chunks { (strict : Bool) → IsDecided (chunks strict) }
    ensures parameters { (strict : Bool) → IsDecided (parameters strict) }
    ensures causes { (strict : Bool) → IsDecided (causes strict) }
    ensures no_padding { IgnoresPadding (chunks lenient) × IgnoresPadding (parameters lenient)
        × IgnoresPadding (causes lenient) }
{}

/// Proves that reading is local. After bytes that fill words of four, and whose chunks mean some
/// trees, the next chunks are read as if they began there: the answer is the packet with both
/// lists, one after the other, or the first fault of the second.
pub fn reading_is_local()
    ensures packet { (front end : List ℕ) (word : ℕ) (policy : ChecksumPolicy)
        (ts us : List ChunkTree)
        → 16 ≤ length front → length front % 4 ≡ 0 → IsOpened (front ++ end) word policy
        → MeansTrees (chunks policy.strict_padding) (body front) ts
        → MeansTrees (chunks policy.strict_padding) end us
        → Answer (front ++ end) word policy (Ok (packet_with (front ++ end) (ts ++ us))) }
    ensures fault { (front end : List ℕ) (word : ℕ) (policy : ChecksumPolicy)
        (ts : List ChunkTree) (f : Fault × ℕ)
        → 16 ≤ length front → length front % 4 ≡ 0 → IsOpened (front ++ end) word policy
        → MeansTrees (chunks policy.strict_padding) (body front) ts
        → HasFault (chunks policy.strict_padding) end f
        → Placed (front ++ end) word policy (Err (Chunk f.0, length front + f.1)) }
{}

/// Proves that what a policy with `strict_padding` accepts, the same policy without it accepts, as
/// the same packet.
pub fn strict_is_lenient()
    ensures { (bytes : List ℕ) (word : ℕ) (policy : ChecksumPolicy) (p : PacketTree)
        → Answer bytes word policy (Ok p)
        → Answer bytes word (record policy { strict_padding = false }) (Ok p) }
{}

/// Proves that two meanings are the same if and only if their canonical packets are, of those that
/// have one that reads back: each is well-formed, in width, and fits. What `from_bytes` returns is
/// well-formed, and in width (`has_widths`); `fits` says the rest.
pub fn canonical_one()
    ensures { (m n : Meaning) → HasCanonical m → HasCanonical n
        → (canonical m ≡ canonical n) ↔ (m ≡ n) }
{}

/// Proves that a chunk, a parameter or an error cause is written as just `serialized_size` bytes,
/// if it can be written; so is a caller's own type. `serialize_to` leaves the bytes after them as
/// they were.
pub fn image_size<T: SerializableTlv>()
    ensures size { (item : T)
        → length (image_of (T.format item).tlv) ≡ size_of (T.format item).tlv }
    ensures after { (item : T) (output : List ℕ)
        → drop (size_of (T.format item).tlv) (written (image_of (T.format item).tlv) output)
        ≡ drop (size_of (T.format item).tlv) output }
{}

/// Proves that the value of an INIT or an INIT ACK is sixteen bytes of numbers, and its parameters
/// after them (RFC 9260 sections 3.3.2 and 3.3.3).
pub fn init_size()
    ensures init { (i : InitTree)
        → (tlv (Init i)).value_size ≡ 16 + list_size parameter_tlv i.parameters }
    ensures init_ack { (i : InitTree)
        → (tlv (InitAck i)).value_size ≡ 16 + list_size parameter_tlv i.parameters }
{}

/// Proves that two values are equal if and only if they are the same: errors, first faults,
/// results, gap ack blocks and skipped streams; and causes of missing parameters if and only if
/// they name the same ones. (`types::equality` has the serial numbers, ids, keys, times and
/// methods.)
pub fn equality()
    ensures packet_errors { TellsSame ⟦<PacketParseError as PartialEq>⟧.eq }
    ensures first_faults { TellsSame ⟦<FirstFault as PartialEq>⟧.eq }
    ensures chunk_errors { TellsSame ⟦<ChunkParseError as PartialEq>⟧.eq }
    ensures results { TellsSame ⟦<ReconfigurationResponseResult as PartialEq>⟧.eq }
    ensures blocks { TellsSame ⟦<GapAckBlock as PartialEq>⟧.eq }
    ensures skipped_streams { TellsSame ⟦<SkippedStream as PartialEq>⟧.eq }
    ensures missing_parameters { (a b : MissingMandatoryParameterErrorCause)
        → IsTrue (⟦<MissingMandatoryParameterErrorCause as PartialEq>⟧.eq a b)
        ↔ (a.missing_parameters.items ≡ b.missing_parameters.items) }
{}

/// Proves that a clone is the value itself: of results, gap ack blocks and policies.
/// (`types::clones` has the serial numbers, ids, keys, times and methods.)
pub fn clones()
    ensures results { IsItself ⟦<ReconfigurationResponseResult as Clone>⟧.is_clone }
    ensures blocks { IsItself ⟦<GapAckBlock as Clone>⟧.is_clone }
    ensures policies { IsItself ⟦<ChecksumPolicy as Clone>⟧.is_clone }
{}

/// Proves which numbers the constants are: the types of chunks and parameters, the codes of error
/// causes, the sizes of headers, the most bytes of a value; and what the policy is that accepts
/// every checksum. (`types::methods` has the methods of error detection.)
pub fn constants()
    ensures data { DATA ≡ 0 }
    ensures init { INIT ≡ 1 }
    ensures init_ack { INIT_ACK ≡ 2 }
    ensures sack { SACK ≡ 3 }
    ensures heartbeat { HEARTBEAT ≡ 4 }
    ensures heartbeat_ack { HEARTBEAT_ACK ≡ 5 }
    ensures abort { ABORT ≡ 6 }
    ensures shutdown { SHUTDOWN ≡ 7 }
    ensures shutdown_ack { SHUTDOWN_ACK ≡ 8 }
    ensures error { ERROR ≡ 9 }
    ensures cookie_echo { COOKIE_ECHO ≡ 10 }
    ensures cookie_ack { COOKIE_ACK ≡ 11 }
    ensures shutdown_complete { SHUTDOWN_COMPLETE ≡ 14 }
    ensures i_data { I_DATA ≡ 64 }
    ensures re_config { RE_CONFIG ≡ 130 }
    ensures forward_tsn { FORWARD_TSN ≡ 192 }
    ensures i_forward_tsn { I_FORWARD_TSN ≡ 194 }
    ensures heartbeat_info { HEARTBEAT_INFO ≡ 1 }
    ensures state_cookie { STATE_COOKIE ≡ 7 }
    ensures outgoing_ssn_reset { OUTGOING_SSN_RESET ≡ 13 }
    ensures incoming_ssn_reset { INCOMING_SSN_RESET ≡ 14 }
    ensures ssn_tsn_reset { SSN_TSN_RESET ≡ 15 }
    ensures reconfiguration_response { RECONFIGURATION_RESPONSE ≡ 16 }
    ensures add_outgoing_streams { ADD_OUTGOING_STREAMS ≡ 17 }
    ensures add_incoming_streams { ADD_INCOMING_STREAMS ≡ 18 }
    ensures zero_checksum_acceptable { ZERO_CHECKSUM_ACCEPTABLE ≡ 0x8001 }
    ensures supported_extensions { SUPPORTED_EXTENSIONS ≡ 0x8008 }
    ensures forward_tsn_supported { FORWARD_TSN_SUPPORTED ≡ 0xC000 }
    ensures missing_mandatory_parameter { MISSING_MANDATORY_PARAMETER ≡ 2 }
    ensures unrecognized_chunk { UNRECOGNIZED_CHUNK ≡ 6 }
    ensures no_user_data { NO_USER_DATA ≡ 9 }
    ensures cookie_received_while_shutting_down { COOKIE_RECEIVED_WHILE_SHUTTING_DOWN ≡ 10 }
    ensures user_initiated_abort { USER_INITIATED_ABORT ≡ 12 }
    ensures protocol_violation { PROTOCOL_VIOLATION ≡ 13 }
    ensures data_size { DATA_SIZE ≡ 16 }
    ensures i_data_size { I_DATA_SIZE ≡ 20 }
    ensures error_size { ERROR_SIZE ≡ 4 }
    ensures heartbeat_ack_size { HEARTBEAT_ACK_SIZE ≡ 4 }
    ensures tlv_header_size { TLV_HEADER_SIZE ≡ 4 }
    ensures parameter_header_size { PARAMETER_HEADER_SIZE ≡ 4 }
    ensures common_header_size { COMMON_HEADER_SIZE ≡ 12 }
    ensures max_value_size { MAX_VALUE_SIZE ≡ 65531 }
    ensures any_checksum { ChecksumPolicy.ANY_CHECKSUM.disable_checksum_verification ≡ true }
    ensures no_other_method { ChecksumPolicy.ANY_CHECKSUM.zero_checksum_alternate_error_detection_method.0 ≡ 0 }
    ensures any_padding { ChecksumPolicy.ANY_CHECKSUM.strict_padding ≡ false }
{}
