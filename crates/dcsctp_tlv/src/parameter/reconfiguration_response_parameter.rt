//! Re-configuration Response: what became of a request to reset or add streams.
//!
//! ```txt
//!  0                   1                   2                   3
//!  0 1 2 3 4 5 6 7 8 9 0 1 2 3 4 5 6 7 8 9 0 1 2 3 4 5 6 7 8 9 0 1
//! +-+-+-+-+-+-+-+-+-+-+-+-+-+-+-+-+-+-+-+-+-+-+-+-+-+-+-+-+-+-+-+-+
//! |           type = 16           |       length = 12 or 20       |
//! +-+-+-+-+-+-+-+-+-+-+-+-+-+-+-+-+-+-+-+-+-+-+-+-+-+-+-+-+-+-+-+-+
//! |                    response sequence number                   |
//! +-+-+-+-+-+-+-+-+-+-+-+-+-+-+-+-+-+-+-+-+-+-+-+-+-+-+-+-+-+-+-+-+
//! |                             result                            |
//! +-+-+-+-+-+-+-+-+-+-+-+-+-+-+-+-+-+-+-+-+-+-+-+-+-+-+-+-+-+-+-+-+
//! |                  sender's next TSN (optional)                 |
//! +-+-+-+-+-+-+-+-+-+-+-+-+-+-+-+-+-+-+-+-+-+-+-+-+-+-+-+-+-+-+-+-+
//! |                 receiver's next TSN (optional)                |
//! +-+-+-+-+-+-+-+-+-+-+-+-+-+-+-+-+-+-+-+-+-+-+-+-+-+-+-+-+-+-+-+-+
//! ```

ghost use Rattle.std.specs.Prelude.{◌≡◌, ◌≢◌, ◌↔◌, ◌≤◌, ◌∷◌, [], length, Some, Ok, IsOk, IsErrOf};
ghost use Rattle.dcsctp_tlv.specs.{Reading.{Exactly, reading, checking, Tested}, ReconfigurationResponse.{result_of, result_number}};
ghost use Rattle.dcsctp_tlv.specs.ReconfigurationResponse as kind;

use crate::error::ChunkParseError;
use crate::fields::put_parameter_fields;
use crate::frame::item_size;
use crate::number::read_u32_be;
use crate::parameter::raw_parameter::RawParameter;
use crate::tlv::SerializableTlv;
use crate::widths::tsn_is_in_width;
use dcsctp_types::types::Tsn;
use std::fmt;

/// The type of Re-configuration Response.
pub const PARAMETER_TYPE: u16 = 16;

/// The greatest number of a result.
const MAX_RESULT: u32 = 6;

/// What became of a request (RFC 6525 section 4.4). `as u32` gives its number on the wire.
#[derive(Clone, Copy, Debug, PartialEq, Eq)]
pub enum ReconfigurationResponseResult {
    SuccessNothingToDo = 0,
    SuccessPerformed = 1,
    Denied = 2,
    ErrorWrongSSN = 3,
    ErrorRequestAlreadyInProgress = 4,
    ErrorBadSequenceNumber = 5,
    InProgress = 6,
}

impl TryFrom<u32> for ReconfigurationResponseResult {
    type Error = ChunkParseError;

    ghost try_from_gives = { λ n r. Exactly checking (λ x. x) (λ a. result_of n ≡ a) r };

    /// Returns the result of a number; `InvalidValue` if and only if the number is above 6.
    fn try_from(value: u32) -> Result<Self, ChunkParseError> {
        if value > MAX_RESULT {
            return Err(ChunkParseError::InvalidValue);
        }
        Ok(ReconfigurationResponseResult::of(value))
    }
}

impl ReconfigurationResponseResult {
    /// Returns the result of a number that has one.
    fn of(value: u32) -> Self
        requires { value ≤ 6 }
        ensures { result_of value ≡ Ok result }
    {
        match value {
            0 => ReconfigurationResponseResult::SuccessNothingToDo,
            1 => ReconfigurationResponseResult::SuccessPerformed,
            2 => ReconfigurationResponseResult::Denied,
            3 => ReconfigurationResponseResult::ErrorWrongSSN,
            4 => ReconfigurationResponseResult::ErrorRequestAlreadyInProgress,
            5 => ReconfigurationResponseResult::ErrorBadSequenceNumber,
            _ => ReconfigurationResponseResult::InProgress,
        }
    }

    fn number(self) -> u32
        ensures { result ≡ result_number self }
    {
        self as u32
    }
}

/// The numbers at the front of a Re-configuration Response's value, before the next TSNs (RFC 6525
/// section 4.4).
#[derive(Clone, Copy, Debug)]
pub struct ReconfigurationResponseNumbers {
    /// The sequence number of the request.
    pub response_seq_nbr: u32,
    /// The number of the result; above 6 it has no meaning.
    pub result: u32,
}

impl ReconfigurationResponseNumbers {
    /// Their bytes, and those of a value without next TSNs.
    pub const SIZE: usize = 8;

    /// The bytes of a value with both next TSNs.
    pub const SIZE_WITH_NEXT_TSNS: usize = 16;

    /// The offset of the response's number in the value.
    pub const RESPONSE_SEQ_NBR: usize = 0;

    /// The offset of the result in the value.
    pub const RESULT: usize = 4;

    /// The offset of the sender's next TSN in the value.
    pub const SENDER_NEXT_TSN: usize = 8;

    /// The offset of the receiver's next TSN in the value.
    pub const RECEIVER_NEXT_TSN: usize = 12;

    /// Reads the numbers of a value, which has at least `SIZE` bytes.
    #[inline(always)]
    pub fn read(value: &[u8]) -> ReconfigurationResponseNumbers
        requires { 8 ≤ length value.now }
        ensures { result ≡ kind.numbers_at value.now }
    {
        ReconfigurationResponseNumbers {
            response_seq_nbr: read_u32_be(value),
            result: read_u32_be(&value[ReconfigurationResponseNumbers::RESULT..]),
        }
    }

    /// Returns the numbers in the order in which they are written, four bytes each.
    #[inline(always)]
    pub fn words(self) -> [u32; 2]
        ensures { result ≡ self.response_seq_nbr ∷ self.result ∷ [] }
    {
        [self.response_seq_nbr, self.result]
    }
}

/// Re-configuration Response (RFC 6525 section 4.4).
///
/// The next TSNs answer an SSN/TSN Reset Request. One without the other can't be written: then
/// neither is.
#[derive(Debug, Drop)]
pub struct ReconfigurationResponseParameter {
    /// The sequence number of the request.
    pub response_seq_nbr: u32,
    /// What became of the request.
    pub result: ReconfigurationResponseResult,
    /// The TSN that the sender of the response uses next.
    pub sender_next_tsn: Option<Tsn>,
    /// The TSN that the receiver of the response has to use next.
    pub receiver_next_tsn: Option<Tsn>,
}

impl ReconfigurationResponseParameter {
    /// Reads the parameter; no memory is taken.
    ///
    /// `InvalidType` if and only if the type is another; `InvalidLength` if and only if the value
    /// hasn't 8 or 16 bytes; `InvalidValue` if and only if it has, and its result is above 6.
    pub fn try_from(raw: RawParameter) -> Result<Self, ChunkParseError>
        ensures other { IsErrOf result ChunkParseError.InvalidType ↔
            (raw.entry.typ ≢ PARAMETER_TYPE) }
        ensures answer { raw.entry.typ ≡ PARAMETER_TYPE →
            Exactly reading kind.view (λ a. kind.read raw.entry.value.now ≡ a) result }
        ensures memory { ¬ IsErrOf result ChunkParseError.OutOfMemory }
    {
        if raw.typ != PARAMETER_TYPE {
            return Err(ChunkParseError::InvalidType);
        }
        ReconfigurationResponseParameter::check(raw.value)?;
        Ok(ReconfigurationResponseParameter::build(raw.value))
    }

    /// Checks the value: `InvalidLength` if and only if it hasn't 8 or 16 bytes; `InvalidValue` if
    /// and only if it has, and its result is above 6.
    pub(crate) fn check(value: &[u8]) -> Result<(), ChunkParseError>
        ensures { Exactly checking (λ u. u) (Tested (kind.read value.now)) result }
    {
        if value.len() != ReconfigurationResponseNumbers::SIZE
            && value.len() != ReconfigurationResponseNumbers::SIZE_WITH_NEXT_TSNS
        {
            return Err(ChunkParseError::InvalidLength);
        }
        if ReconfigurationResponseNumbers::read(value).result > MAX_RESULT {
            return Err(ChunkParseError::InvalidValue);
        }
        Ok(())
    }

    /// Builds the parameter that the value means.
    pub(crate) fn build(value: &[u8]) -> Self
        requires { IsOk (kind.read value.now) }
        ensures { kind.read value.now ≡ Ok (kind.view result) }
    {
        let numbers = ReconfigurationResponseNumbers::read(value);
        let response_seq_nbr = numbers.response_seq_nbr;
        let result = ReconfigurationResponseResult::of(numbers.result);
        if value.len() == ReconfigurationResponseNumbers::SIZE {
            return ReconfigurationResponseParameter {
                response_seq_nbr,
                result,
                sender_next_tsn: None,
                receiver_next_tsn: None,
            };
        }
        ReconfigurationResponseParameter {
            response_seq_nbr,
            result,
            sender_next_tsn: Some(Tsn(read_u32_be(
                &value[ReconfigurationResponseNumbers::SENDER_NEXT_TSN..],
            ))),
            receiver_next_tsn: Some(Tsn(read_u32_be(
                &value[ReconfigurationResponseNumbers::RECEIVER_NEXT_TSN..],
            ))),
        }
    }
}

impl SerializableTlv for ReconfigurationResponseParameter {
    ghost format = { λ p. kind.format (kind.view p) };

    fn serialize_to(&self, output: &mut [u8]) {
        let numbers = ReconfigurationResponseNumbers {
            response_seq_nbr: self.response_seq_nbr,
            result: self.result.number(),
        };
        let leading = numbers.words();
        match (self.sender_next_tsn, self.receiver_next_tsn) {
            (Some(sender), Some(receiver)) => put_parameter_fields::<Tsn>(
                PARAMETER_TYPE,
                &leading,
                &[sender, receiver],
                output,
            ),
            _ => put_parameter_fields::<Tsn>(PARAMETER_TYPE, &leading, &[], output),
        }
    }

    fn encoded_size(&self) -> Option<usize> {
        match (self.sender_next_tsn, self.receiver_next_tsn) {
            (Some(_), Some(_)) => item_size(ReconfigurationResponseNumbers::SIZE_WITH_NEXT_TSNS),
            _ => item_size(ReconfigurationResponseNumbers::SIZE),
        }
    }

    fn has_widths(&self) {
        let _number = self.response_seq_nbr;
        tsn_is_in_width(self.sender_next_tsn);
        tsn_is_in_width(self.receiver_next_tsn);
    }
}

impl fmt::Display for ReconfigurationResponseParameter {
    ghost output = { λ p. Some (kind.format (kind.view p)).text };

    fn fmt<W: fmt::Write>(&self, f: &mut fmt::Formatter<W>) -> fmt::Result {
        let response = self.response_seq_nbr;
        write!(f, "Reconfig Response, seq={response}")
    }
}
