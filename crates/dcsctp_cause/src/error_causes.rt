//! An error cause of any kind, and lists of causes.
//!
//! ```txt
//!  0                   1                   2                   3
//!  0 1 2 3 4 5 6 7 8 9 0 1 2 3 4 5 6 7 8 9 0 1 2 3 4 5 6 7 8 9 0 1
//! +-+-+-+-+-+-+-+-+-+-+-+-+-+-+-+-+-+-+-+-+-+-+-+-+-+-+-+-+-+-+-+-+
//! |              code             |             length            |
//! +-+-+-+-+-+-+-+-+-+-+-+-+-+-+-+-+-+-+-+-+-+-+-+-+-+-+-+-+-+-+-+-+
//! |                 value, length - 4 bytes, padded               |
//! +-+-+-+-+-+-+-+-+-+-+-+-+-+-+-+-+-+-+-+-+-+-+-+-+-+-+-+-+-+-+-+-+
//! ```

ghost use Rattle.std.specs.Prelude.{◌≡◌, ◌≢◌, ◌≤◌, ◌*◌, [], length, vec_len, vec_capacity, Some, IsOk, IfOk, IsErrOf, refl, All};
ghost use Rattle.dcsctp_tlv.specs.{Frame.{lenient}, Kinds.{ChecksKind}, Level.{HasMeaning, MeansTrees, MeansSome}, Reading.{Answers, Exactly, reading, checking, RowAnswer, ListAnswer, Counted, Unplaced}};
ghost use Rattle.dcsctp_cause.specs.Cause as cause;
ghost use Rattle.dcsctp_cause.specs.Cause.{CauseTree, causes, TakesNoMemory, IsTight, view, views};

use crate::cookie_received_while_shutting_down::{self, CookieReceivedWhileShuttingDownErrorCause};
use crate::missing_mandatory_parameter_error_cause::{self, MissingMandatoryParameterErrorCause};
use crate::no_user_data_error_cause::{self, NoUserDataErrorCause};
use crate::protocol_violation_error_cause::{self, ProtocolViolationErrorCause};
use crate::unrecognized_chunk_error_cause::{self, UnrecognizedChunkErrorCause};
use crate::user_initiated_abort_error_cause::{self, UserInitiatedAbortErrorCause};
use dcsctp_tlv::copy::copied;
use dcsctp_tlv::error::{ChunkParseError, LocatedFault};
use dcsctp_tlv::frame::are_zeros;
use dcsctp_tlv::parameter::raw_parameter::RawParameter;
use dcsctp_tlv::parameter::unknown_parameter::UnknownParameter;
use dcsctp_tlv::reader::{ReadableTlv, list_check, list_fill_counted, list_from_bytes};
use dcsctp_tlv::tlv::{ListedTlv, SerializableTlv};
use dcsctp_tlv::widths::Widths;
use dcsctp_tlv::{build_arms, check_arms, each_arms};
use std::alloc::{AllocError, Global};
use std::fmt;

/// An error cause of any kind (RFC 9260 section 3.3.10); a code without a kind of its own is
/// `Unknown`.
#[derive(Debug, Drop)]
pub enum ErrorCause {
    /// Missing Mandatory Parameter (RFC 9260 section 3.3.10.2), code 2.
    MissingMandatoryParameter(MissingMandatoryParameterErrorCause),
    /// Unrecognized Chunk Type (RFC 9260 section 3.3.10.6), code 6.
    UnrecognizedChunk(UnrecognizedChunkErrorCause),
    /// No User Data (RFC 9260 section 3.3.10.9), code 9.
    NoUserData(NoUserDataErrorCause),
    /// Cookie Received While Shutting Down (RFC 9260 section 3.3.10.10), code 10.
    CookieReceivedWhileShuttingDown(CookieReceivedWhileShuttingDownErrorCause),
    /// User-Initiated Abort (RFC 9260 section 3.3.10.12), code 12.
    UserInitiatedAbort(UserInitiatedAbortErrorCause),
    /// Protocol Violation (RFC 9260 section 3.3.10.13), code 13.
    ProtocolViolation(ProtocolViolationErrorCause),
    /// A cause of any other code.
    Unknown(UnknownParameter),
}

/// The kinds, for a macro that has an arm for each: those that take no memory, those that copy what
/// their value holds, and the one that keeps its value in a field.
macro_rules! kinds {
    ($arms:ident, $($args:tt)*) => {
        $arms! {
            [$($args)*]
            {
                no_user_data_error_cause::CAUSE_CODE, NoUserData, NoUserDataErrorCause;
                cookie_received_while_shutting_down::CAUSE_CODE, CookieReceivedWhileShuttingDown,
                    CookieReceivedWhileShuttingDownErrorCause;
            }
            {
                missing_mandatory_parameter_error_cause::CAUSE_CODE, MissingMandatoryParameter,
                    MissingMandatoryParameterErrorCause;
                user_initiated_abort_error_cause::CAUSE_CODE, UserInitiatedAbort,
                    UserInitiatedAbortErrorCause;
                protocol_violation_error_cause::CAUSE_CODE, ProtocolViolation,
                    ProtocolViolationErrorCause;
            }
            {
                unrecognized_chunk_error_cause::CAUSE_CODE, UnrecognizedChunk,
                    UnrecognizedChunkErrorCause, chunk;
            }
        }
    };
}

impl ErrorCause {
    /// Reads a cause as its code says.
    ///
    /// `InvalidLength` if and only if the value has a size that its kind doesn't allow;
    /// `OutOfMemory` only where it has a meaning, and what it holds can't be copied; never where it
    /// holds nothing on the heap. No other error is returned.
    pub fn try_from(alloc: Global, raw: RawParameter) -> Result<Self, ChunkParseError>
        ensures answer { Exactly reading view
            (Unplaced (RowAnswer (cause.row raw.entry.typ) raw.entry.value.now)) result }
        ensures memory { IsErrOf result ChunkParseError.OutOfMemory →
            HasMeaning (cause.row raw.entry.typ) raw.entry.value.now
            × ¬ TakesNoMemory raw.entry.typ }
        ensures tight { IfOk result IsTight }
    {
        ErrorCause::read(alloc, raw.typ, raw.value)
    }

    /// Checks a cause's value, and builds what it means.
    fn read(alloc: Global, code: u16, value: &[u8]) -> Result<Self, ChunkParseError>
        ensures answer { Exactly reading view
            (Unplaced (RowAnswer (cause.row code) value.now)) result }
        ensures memory { IsErrOf result ChunkParseError.OutOfMemory
            → HasMeaning (cause.row code) value.now × ¬ TakesNoMemory code }
        ensures tight { IfOk result IsTight }
    {
        ErrorCause::check_value(code, value)?;
        Ok(ErrorCause::build(alloc, code, value)?)
    }

    /// Passes if and only if the value has a meaning; else its fault. Does not allocate.
    fn check_value(code: u16, value: &[u8]) -> Result<(), ChunkParseError>
        ensures { Answers checking (λ u. u) (Counted (λ t. tt)
            (Unplaced (RowAnswer (cause.row code) value.now))) result }
    {
        ErrorCause::check_kind(code, value)
    }

    /// Checks the value as its code's kind does; any value of another code passes.
    fn check_kind(code: u16, value: &[u8]) -> Result<(), ChunkParseError>
        ensures { ChecksKind cause.kinds 0 code value.now result }
    {
        kinds!(check_arms, code, value)
    }

    /// Builds the cause that the value means.
    fn build(alloc: Global, code: u16, value: &[u8]) -> Result<Self, AllocError>
        requires { HasMeaning (cause.row code) value.now }
        ensures meant { IfOk result (λ c. (cause.row code).means value.now (view c)) }
        ensures heap { TakesNoMemory code → IsOk result }
        ensures tight { IfOk result IsTight }
    {
        kinds!(build_arms, ErrorCause, code, alloc, value, cause => Ok(cause))
    }
}

impl ReadableTlv for ErrorCause {
    ghost Tree = { CauseTree };

    ghost level = { causes };

    ghost view = { view };

    ghost is_tight = { IsTight };

    ghost parts = { λ t. 1 };

    fn check(first: u8, second: u8, value: &[u8], _strict: bool) -> Result<usize, LocatedFault> {
        match ErrorCause::check_value(u16::from_be_bytes([first, second]), value) {
            Ok(()) => Ok(1),
            Err(fault) => Err(LocatedFault::at_front(fault)),
        }
    }

    fn read_onto(
        list: &mut Vec<Self>,
        alloc: Global,
        first: u8,
        second: u8,
        value: &[u8],
    ) -> Result<(), AllocError> {
        let code = u16::from_be_bytes([first, second]);
        kinds!(build_arms, ErrorCause, code, alloc, value, cause => {
            list.push_reserved(cause);
            Ok(())
        })
    }

    fn accepts_padding(_size: usize, there: &[u8], strict: bool) -> bool {
        !strict || are_zeros(there)
    }
}

impl SerializableTlv for ErrorCause {
    ghost format = { λ c. cause.format (view c) };

    fn serialize_to(&self, output: &mut [u8]) {
        kinds!(each_arms, ErrorCause, self, c => c.serialize_to(output))
    }

    fn encoded_size(&self) -> Option<usize> {
        kinds!(each_arms, ErrorCause, self, c => c.encoded_size())
    }

    fn has_widths(&self) {
        kinds!(each_arms, ErrorCause, self, c => c.has_widths())
    }
}

impl fmt::Display for ErrorCause {
    ghost output = { λ c. Some (cause.text (view c)) };

    fn fmt<W: fmt::Write>(&self, f: &mut fmt::Formatter<W>) -> fmt::Result {
        kinds!(each_arms, ErrorCause, self, c => c.fmt(f))
    }
}

impl Widths for ErrorCause {
    ghost Tree = { CauseTree };

    ghost view = { view };

    ghost fits = { cause.IsInWidth };

    fn is_in_width(&self) {
        self.has_widths();
    }
}

impl ListedTlv for ErrorCause {
    ghost Tree = { CauseTree };

    ghost view = { view };

    ghost tree_tlv = { cause.tlv };

    ghost same_tlv = { λ c. refl };

    ghost all_placed = { λ c. tt };
}

/// Reads all the bytes as a list of error causes; no bytes are the empty list. Padding is ignored.
///
/// The first item that has no frame, or whose value is at fault, decides the error, which is
/// `InvalidLength`; `OutOfMemory` only where there is none. Bytes mean one list or have one fault,
/// which is a law of the level (`IsDecided`, in `laws::one_answer` of `dcsctp_wire`).
pub fn error_cause_from_bytes(
    alloc: Global,
    bytes: &[u8],
) -> Result<Vec<ErrorCause>, ChunkParseError>
    ensures answer { Exactly reading (λ list. views list.items)
        (Unplaced (ListAnswer (causes lenient) bytes.now)) result }
    ensures memory { IsErrOf result ChunkParseError.OutOfMemory →
        MeansSome (causes lenient) bytes.now × (bytes.now ≢ []) }
    ensures reserved { IfOk result (λ list. vec_capacity list ≡ vec_len list) }
    ensures tight { IfOk result (λ list. All IsTight list.items) }
{
    list_from_bytes(alloc, bytes)
}

/// Counts the error causes, or returns the first fault from the left. Does not allocate.
///
/// If `strict` is true, `InvalidPadding` is the fault of a cause that has a meaning, and padding
/// that isn't zero; the last may lack some or all of it.
pub fn error_cause_check(bytes: &[u8], strict: bool) -> Result<usize, ChunkParseError>
    ensures answer { Exactly checking (λ n. n)
        (Counted length (Unplaced (ListAnswer (causes strict) bytes.now))) result }
    ensures memory { ¬ IsErrOf result ChunkParseError.OutOfMemory }
    ensures few { IfOk result (λ n. 4 * n ≤ length bytes.now) }
{
    let counts = list_check::<ErrorCause>(bytes, strict)?;
    Ok(counts.items)
}

/// Builds the error causes that the bytes are known to mean, into a list that has no memory yet.
#[inline(never)]
pub fn error_cause_fill(
    list: &mut Vec<ErrorCause>,
    alloc: Global,
    bytes: &[u8],
) -> Result<(), AllocError>
    requires meant { MeansSome (causes lenient) bytes.now }
    requires fresh { (list.old.items ≡ []) × (vec_len list.old ≡ 0) × (vec_capacity list.old ≡ 0) }
    ensures meant { IfOk result
        (λ _. MeansTrees (causes lenient) bytes.now (views list.new.items)) }
    ensures reserved { IfOk result (λ _. vec_capacity list.new ≡ vec_len list.new) }
    ensures tight { IfOk result (λ _. All IsTight list.new.items) }
    ensures empty { bytes.now ≡ [] → IsOk result }
{
    list_fill_counted(list, alloc, bytes)
}
