//! A parameter of any kind, and lists of parameters.
//!
//! ```txt
//!  0                   1                   2                   3
//!  0 1 2 3 4 5 6 7 8 9 0 1 2 3 4 5 6 7 8 9 0 1 2 3 4 5 6 7 8 9 0 1
//! +-+-+-+-+-+-+-+-+-+-+-+-+-+-+-+-+-+-+-+-+-+-+-+-+-+-+-+-+-+-+-+-+
//! |             type              |            length             |
//! +-+-+-+-+-+-+-+-+-+-+-+-+-+-+-+-+-+-+-+-+-+-+-+-+-+-+-+-+-+-+-+-+
//! |                 value, length - 4 bytes, padded               |
//! +-+-+-+-+-+-+-+-+-+-+-+-+-+-+-+-+-+-+-+-+-+-+-+-+-+-+-+-+-+-+-+-+
//! ```

pub mod add_incoming_streams_request_parameter;
pub mod add_outgoing_streams_request_parameter;
pub mod add_streams_request;
pub mod forward_tsn_supported_parameter;
pub mod heartbeat_info_parameter;
pub mod incoming_ssn_reset_request_parameter;
pub mod outgoing_ssn_reset_request_parameter;
pub mod raw_parameter;
pub mod reconfiguration_response_parameter;
pub mod request_numbers;
pub mod ssn_tsn_reset_request_parameter;
pub mod state_cookie_parameter;
pub mod supported_extensions_parameter;
pub mod unknown_parameter;
pub mod zero_checksum_acceptable_parameter;

ghost use Rattle.std.specs.Prelude.{◌≡◌, ◌≢◌, ◌≤◌, ◌*◌, [], length, vec_len, vec_capacity, Some, IsOk, IfOk, IsErrOf, refl, All};
ghost use Rattle.dcsctp_tlv.specs.{Frame.{lenient}, Kinds.{ChecksKind}, Level.{HasMeaning, MeansTrees, MeansSome}, Reading.{Answers, Exactly, reading, checking, RowAnswer, ListAnswer, Counted, Unplaced}, Parameter.{ParameterTree, parameters, TakesNoMemory, IsTight, view, views}};
ghost use Rattle.dcsctp_tlv.specs.Parameter as parameter;

use crate::copy::copied;
use crate::error::{ChunkParseError, LocatedFault};
use crate::frame::are_zeros;
pub use crate::list::{
    list_encodable as parameters_encodable, list_size as parameters_serialized_size,
    put_list as parameters_serialize_to,
};
use crate::parameter::add_incoming_streams_request_parameter::AddIncomingStreamsRequestParameter;
use crate::parameter::add_outgoing_streams_request_parameter::AddOutgoingStreamsRequestParameter;
use crate::parameter::forward_tsn_supported_parameter::ForwardTsnSupportedParameter;
use crate::parameter::heartbeat_info_parameter::HeartbeatInfoParameter;
use crate::parameter::incoming_ssn_reset_request_parameter::IncomingSsnResetRequestParameter;
use crate::parameter::outgoing_ssn_reset_request_parameter::OutgoingSsnResetRequestParameter;
pub use crate::parameter::raw_parameter::{
    PARAMETER_HEADER_SIZE, RawParameter, write_parameter_header,
};
use crate::parameter::reconfiguration_response_parameter::ReconfigurationResponseParameter;
use crate::parameter::ssn_tsn_reset_request_parameter::SsnTsnResetRequestParameter;
use crate::parameter::state_cookie_parameter::StateCookieParameter;
use crate::parameter::supported_extensions_parameter::SupportedExtensionsParameter;
use crate::parameter::unknown_parameter::UnknownParameter;
use crate::parameter::zero_checksum_acceptable_parameter::ZeroChecksumAcceptableParameter;
use crate::reader::{ReadableTlv, list_check, list_fill_counted, list_from_bytes};
use crate::tlv::{ListedTlv, SerializableTlv};
use crate::widths::Widths;
use crate::{build_arms, check_arms, each_arms};
use std::alloc::{AllocError, Global};
use std::fmt;

/// The type of SSN/TSN Reset Request (RFC 6525 section 4.3).
pub const PARAMETER_TYPE_SSN_TSN_RESET_REQUEST: u16 =
    ssn_tsn_reset_request_parameter::PARAMETER_TYPE;

/// The type of Add Outgoing Streams Request (RFC 6525 section 4.5).
pub const PARAMETER_TYPE_ADD_OUTGOING_STREAMS_REQUEST: u16 =
    add_outgoing_streams_request_parameter::PARAMETER_TYPE;

/// The type of Add Incoming Streams Request (RFC 6525 section 4.6).
pub const PARAMETER_TYPE_ADD_INCOMING_STREAMS_REQUEST: u16 =
    add_incoming_streams_request_parameter::PARAMETER_TYPE;

/// A parameter of any kind (RFC 9260 section 3.2.1); a type without a kind of its own is `Unknown`.
#[derive(Debug, Drop)]
pub enum Parameter {
    /// Heartbeat Info (RFC 9260 section 3.3.5), type 1.
    HeartbeatInfo(HeartbeatInfoParameter),
    /// State Cookie (RFC 9260 section 3.3.3.1.1), type 7.
    StateCookie(StateCookieParameter),
    /// Outgoing SSN Reset Request (RFC 6525 section 4.1), type 13.
    OutgoingSsnResetRequest(OutgoingSsnResetRequestParameter),
    /// Incoming SSN Reset Request (RFC 6525 section 4.2), type 14.
    IncomingSsnResetRequest(IncomingSsnResetRequestParameter),
    /// SSN/TSN Reset Request (RFC 6525 section 4.3), type 15.
    SsnTsnResetRequest(SsnTsnResetRequestParameter),
    /// Re-configuration Response (RFC 6525 section 4.4), type 16.
    ReconfigurationResponse(ReconfigurationResponseParameter),
    /// Add Outgoing Streams Request (RFC 6525 section 4.5), type 17.
    AddOutgoingStreamsRequest(AddOutgoingStreamsRequestParameter),
    /// Add Incoming Streams Request (RFC 6525 section 4.6), type 18.
    AddIncomingStreamsRequest(AddIncomingStreamsRequestParameter),
    /// Zero Checksum Acceptable (RFC 9653 section 4), type 0x8001.
    ZeroChecksumAcceptable(ZeroChecksumAcceptableParameter),
    /// Supported Extensions (RFC 5061 section 4.2.7), type 0x8008.
    SupportedExtensions(SupportedExtensionsParameter),
    /// Forward-TSN Supported (RFC 3758 section 3.1), type 0xc000.
    ForwardTsnSupported(ForwardTsnSupportedParameter),
    /// A parameter of any other type.
    Unknown(UnknownParameter),
}

/// The kinds, for a macro that has an arm for each: those that take no memory, those with a list of
/// numbers, and those that keep their value in a field.
macro_rules! kinds {
    ($arms:ident, $($args:tt)*) => {
        $arms! {
            [$($args)*]
            {
                ssn_tsn_reset_request_parameter::PARAMETER_TYPE, SsnTsnResetRequest,
                    SsnTsnResetRequestParameter;
                reconfiguration_response_parameter::PARAMETER_TYPE, ReconfigurationResponse,
                    ReconfigurationResponseParameter;
                add_outgoing_streams_request_parameter::PARAMETER_TYPE, AddOutgoingStreamsRequest,
                    AddOutgoingStreamsRequestParameter;
                add_incoming_streams_request_parameter::PARAMETER_TYPE, AddIncomingStreamsRequest,
                    AddIncomingStreamsRequestParameter;
                zero_checksum_acceptable_parameter::PARAMETER_TYPE, ZeroChecksumAcceptable,
                    ZeroChecksumAcceptableParameter;
                forward_tsn_supported_parameter::PARAMETER_TYPE, ForwardTsnSupported,
                    ForwardTsnSupportedParameter;
            }
            {
                outgoing_ssn_reset_request_parameter::PARAMETER_TYPE, OutgoingSsnResetRequest,
                    OutgoingSsnResetRequestParameter;
                incoming_ssn_reset_request_parameter::PARAMETER_TYPE, IncomingSsnResetRequest,
                    IncomingSsnResetRequestParameter;
            }
            {
                heartbeat_info_parameter::PARAMETER_TYPE, HeartbeatInfo, HeartbeatInfoParameter,
                    info;
                state_cookie_parameter::PARAMETER_TYPE, StateCookie, StateCookieParameter, cookie;
                supported_extensions_parameter::PARAMETER_TYPE, SupportedExtensions,
                    SupportedExtensionsParameter, chunk_types;
            }
        }
    };
}

impl Parameter {
    /// Reads a parameter as its type says.
    ///
    /// `InvalidLength` if and only if the value has a size that its kind doesn't allow;
    /// `OutOfMemory` only where it has a meaning, and what it holds can't be copied; never where it
    /// holds nothing on the heap. `InvalidType` is never returned.
    pub fn try_from(alloc: Global, raw: RawParameter) -> Result<Self, ChunkParseError>
        ensures answer { Exactly reading view
            (Unplaced (RowAnswer (parameter.row raw.entry.typ) raw.entry.value.now)) result }
        ensures memory { IsErrOf result ChunkParseError.OutOfMemory →
            HasMeaning (parameter.row raw.entry.typ) raw.entry.value.now
            × ¬ TakesNoMemory raw.entry.typ }
        ensures tight { IfOk result IsTight }
    {
        Parameter::read(alloc, raw.typ, raw.value)
    }

    /// Checks a parameter's value, and builds what it means.
    fn read(alloc: Global, typ: u16, value: &[u8]) -> Result<Self, ChunkParseError>
        ensures answer { Exactly reading view
            (Unplaced (RowAnswer (parameter.row typ) value.now)) result }
        ensures memory { IsErrOf result ChunkParseError.OutOfMemory
            → HasMeaning (parameter.row typ) value.now × ¬ TakesNoMemory typ }
        ensures tight { IfOk result IsTight }
    {
        Parameter::check_value(typ, value)?;
        Ok(Parameter::build(alloc, typ, value)?)
    }

    /// Passes if and only if the value has a meaning; else its fault. Does not allocate.
    fn check_value(typ: u16, value: &[u8]) -> Result<(), ChunkParseError>
        ensures { Answers checking (λ u. u) (Counted (λ t. tt)
            (Unplaced (RowAnswer (parameter.row typ) value.now))) result }
    {
        Parameter::check_kind(typ, value)
    }

    /// Checks the value as its type's kind does; any value of another type passes.
    fn check_kind(typ: u16, value: &[u8]) -> Result<(), ChunkParseError>
        ensures { ChecksKind parameter.kinds 0 typ value.now result }
    {
        kinds!(check_arms, typ, value)
    }

    /// Builds the parameter that the value means.
    fn build(alloc: Global, typ: u16, value: &[u8]) -> Result<Self, AllocError>
        requires { HasMeaning (parameter.row typ) value.now }
        ensures meant { IfOk result (λ p. (parameter.row typ).means value.now (view p)) }
        ensures heap { TakesNoMemory typ → IsOk result }
        ensures tight { IfOk result IsTight }
    {
        kinds!(build_arms, Parameter, typ, alloc, value, parameter => Ok(parameter))
    }
}

impl ReadableTlv for Parameter {
    ghost Tree = { ParameterTree };

    ghost level = { parameters };

    ghost view = { view };

    ghost is_tight = { IsTight };

    ghost parts = { λ t. 1 };

    fn check(first: u8, second: u8, value: &[u8], _strict: bool) -> Result<usize, LocatedFault> {
        match Parameter::check_value(u16::from_be_bytes([first, second]), value) {
            Ok(()) => Ok(1),
            Err(fault) => Err(LocatedFault::at_front(fault)),
        }
    }

    fn read_onto(
        list: &mut Vec<Self>,
        alloc: Global,
        first: u8,
        second: u8,
        value: &[u8],
    ) -> Result<(), AllocError> {
        let typ = u16::from_be_bytes([first, second]);
        kinds!(build_arms, Parameter, typ, alloc, value, parameter => {
            list.push_reserved(parameter);
            Ok(())
        })
    }

    fn accepts_padding(_size: usize, there: &[u8], strict: bool) -> bool {
        !strict || are_zeros(there)
    }
}

impl SerializableTlv for Parameter {
    ghost format = { λ p. parameter.format (view p) };

    fn serialize_to(&self, output: &mut [u8]) {
        kinds!(each_arms, Parameter, self, p => p.serialize_to(output))
    }

    fn encoded_size(&self) -> Option<usize> {
        kinds!(each_arms, Parameter, self, p => p.encoded_size())
    }

    fn has_widths(&self) {
        kinds!(each_arms, Parameter, self, p => p.has_widths())
    }
}

impl fmt::Display for Parameter {
    ghost output = { λ p. Some (parameter.text (view p)) };

    fn fmt<W: fmt::Write>(&self, f: &mut fmt::Formatter<W>) -> fmt::Result {
        kinds!(each_arms, Parameter, self, p => p.fmt(f))
    }
}

impl Widths for Parameter {
    ghost Tree = { ParameterTree };

    ghost view = { view };

    ghost fits = { parameter.IsInWidth };

    fn is_in_width(&self) {
        self.has_widths();
    }
}

impl ListedTlv for Parameter {
    ghost Tree = { ParameterTree };

    ghost view = { view };

    ghost tree_tlv = { parameter.tlv };

    ghost same_tlv = { λ p. refl };

    ghost all_placed = { λ p. tt };
}

/// Reads all the bytes as a list of parameters; no bytes are the empty list. Padding is ignored.
///
/// The first item that has no frame, or whose value is at fault, decides the error: `InvalidLength`
/// or `InvalidValue`; `OutOfMemory` only where there is none. Bytes mean one list or have one
/// fault, which is a law of the level (`IsDecided`, in `laws::one_answer` of `dcsctp_wire`).
pub fn parameters_from_bytes(alloc: Global, bytes: &[u8]) -> Result<Vec<Parameter>, ChunkParseError>
    ensures answer { Exactly reading (λ list. views list.items)
        (Unplaced (ListAnswer (parameters lenient) bytes.now)) result }
    ensures memory { IsErrOf result ChunkParseError.OutOfMemory →
        MeansSome (parameters lenient) bytes.now × (bytes.now ≢ []) }
    ensures reserved { IfOk result (λ list. vec_capacity list ≡ vec_len list) }
    ensures tight { IfOk result (λ list. All IsTight list.items) }
{
    list_from_bytes(alloc, bytes)
}

/// Counts the parameters, or returns the first fault from the left. Does not allocate.
///
/// If `strict` is true, `InvalidPadding` is the fault of a parameter that has a meaning, and
/// padding that isn't zero; the last may lack some or all of it.
pub fn parameters_check(bytes: &[u8], strict: bool) -> Result<usize, ChunkParseError>
    ensures answer { Exactly checking (λ n. n)
        (Counted length (Unplaced (ListAnswer (parameters strict) bytes.now))) result }
    ensures memory { ¬ IsErrOf result ChunkParseError.OutOfMemory }
    ensures few { IfOk result (λ n. 4 * n ≤ length bytes.now) }
{
    let counts = list_check::<Parameter>(bytes, strict)?;
    Ok(counts.items)
}

/// Builds the parameters that the bytes are known to mean, into a list that has no memory yet.
#[inline(never)]
pub fn parameters_fill(
    list: &mut Vec<Parameter>,
    alloc: Global,
    bytes: &[u8],
) -> Result<(), AllocError>
    requires meant { MeansSome (parameters lenient) bytes.now }
    requires fresh { (list.old.items ≡ []) × (vec_len list.old ≡ 0) × (vec_capacity list.old ≡ 0) }
    ensures meant { IfOk result
        (λ _. MeansTrees (parameters lenient) bytes.now (views list.new.items)) }
    ensures reserved { IfOk result (λ _. vec_capacity list.new ≡ vec_len list.new) }
    ensures tight { IfOk result (λ _. All IsTight list.new.items) }
    ensures empty { bytes.now ≡ [] → IsOk result }
{
    list_fill_counted(list, alloc, bytes)
}
