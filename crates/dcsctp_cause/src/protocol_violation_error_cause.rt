//! Protocol Violation: the peer broke the protocol, in a way that no other cause names.
//!
//! ```txt
//!  0                   1                   2                   3
//!  0 1 2 3 4 5 6 7 8 9 0 1 2 3 4 5 6 7 8 9 0 1 2 3 4 5 6 7 8 9 0 1
//! +-+-+-+-+-+-+-+-+-+-+-+-+-+-+-+-+-+-+-+-+-+-+-+-+-+-+-+-+-+-+-+-+
//! |           code = 13           |             length            |
//! +-+-+-+-+-+-+-+-+-+-+-+-+-+-+-+-+-+-+-+-+-+-+-+-+-+-+-+-+-+-+-+-+
//! |                additional information, a text                 |
//! +-+-+-+-+-+-+-+-+-+-+-+-+-+-+-+-+-+-+-+-+-+-+-+-+-+-+-+-+-+-+-+-+
//! ```

ghost use Rattle.std.specs.{Prelude.{◌≡◌, ◌≢◌, ◌↔◌, Some, IsErrOf, IfOk, IsOk, Ok}, String.{string_len, string_capacity}};
ghost use Rattle.dcsctp_tlv.specs.Reading.{Exactly, reading, checking, Tested};
ghost use Rattle.dcsctp_cause.specs.ProtocolViolation as kind;

use crate::text::{is_text, text_or};
use dcsctp_tlv::copy::copied_text;
use dcsctp_tlv::error::ChunkParseError;
use dcsctp_tlv::frame::{item_size, put_parameter};
use dcsctp_tlv::parameter::raw_parameter::RawParameter;
use dcsctp_tlv::tlv::SerializableTlv;
use std::alloc::{AllocError, Global};
use std::fmt;

/// The code of this cause.
pub const CAUSE_CODE: u16 = 13;

/// What is read in place of information that isn't UTF-8.
const UNREADABLE: &str = "Failed to parse additional information";

/// Protocol Violation (RFC 9260 section 3.3.10.13).
#[derive(Debug, Drop)]
pub struct ProtocolViolationErrorCause {
    /// What was broken, in words.
    pub information: String,
}

impl ProtocolViolationErrorCause {
    /// Reads the cause, and copies the text; where the value isn't UTF-8, the text says so.
    ///
    /// `InvalidType` if and only if the code is another; `OutOfMemory` only where the text can't be
    /// copied.
    pub fn try_from(alloc: Global, raw: RawParameter) -> Result<Self, ChunkParseError>
        ensures other { IsErrOf result ChunkParseError.InvalidType ↔ (raw.entry.typ ≢ CAUSE_CODE) }
        ensures answer { raw.entry.typ ≡ CAUSE_CODE →
            Exactly reading kind.view (λ a. kind.read raw.entry.value.now ≡ a) result }
        ensures memory { IsErrOf result ChunkParseError.OutOfMemory →
            IsOk (kind.read raw.entry.value.now) }
        ensures tight { IfOk result
            (λ x. string_capacity x.information ≡ string_len x.information) }
    {
        if raw.typ != CAUSE_CODE {
            return Err(ChunkParseError::InvalidType);
        }
        Ok(ProtocolViolationErrorCause::build(alloc, raw.value)?)
    }

    /// Accepts any value.
    pub(crate) fn check(_value: &[u8]) -> Result<(), ChunkParseError>
        ensures { Exactly checking (λ u. u) (Tested (kind.read _value.now)) result }
    {
        Ok(())
    }

    /// Copies the text, or says that the value isn't UTF-8.
    pub(crate) fn build(alloc: Global, value: &[u8]) -> Result<Self, AllocError>
        ensures meant { IfOk result (λ x. kind.read value.now ≡ Ok (kind.view x)) }
        ensures tight { IfOk result
            (λ x. string_capacity x.information ≡ string_len x.information) }
    {
        Ok(ProtocolViolationErrorCause {
            information: copied_text(alloc, text_or(UNREADABLE, value))?,
        })
    }
}

impl SerializableTlv for ProtocolViolationErrorCause {
    ghost format = { λ c. kind.format (kind.view c) };

    fn serialize_to(&self, output: &mut [u8]) {
        put_parameter(CAUSE_CODE, self.information.as_bytes(), output);
    }

    fn encoded_size(&self) -> Option<usize> {
        item_size(self.information.len())
    }

    fn has_widths(&self) {
        is_text(&self.information);
    }
}

impl fmt::Display for ProtocolViolationErrorCause {
    ghost output = { λ c. Some (kind.format (kind.view c)).text };

    fn fmt<W: fmt::Write>(&self, f: &mut fmt::Formatter<W>) -> fmt::Result {
        let information = &self.information;
        write!(
            f,
            "Protocol Violation, additional_information={information}"
        )
    }
}
