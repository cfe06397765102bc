//! Cookie Received While Shutting Down: a COOKIE ECHO came while its receiver was shutting down.
//!
//! ```txt
//!  0                   1                   2                   3
//!  0 1 2 3 4 5 6 7 8 9 0 1 2 3 4 5 6 7 8 9 0 1 2 3 4 5 6 7 8 9 0 1
//! +-+-+-+-+-+-+-+-+-+-+-+-+-+-+-+-+-+-+-+-+-+-+-+-+-+-+-+-+-+-+-+-+
//! |           code = 10           |           length = 4          |
//! +-+-+-+-+-+-+-+-+-+-+-+-+-+-+-+-+-+-+-+-+-+-+-+-+-+-+-+-+-+-+-+-+
//! ```

ghost use Rattle.std.specs.Prelude.{◌≡◌, ◌≢◌, ◌↔◌, Some, Ok, IsOk, IsErrOf};
ghost use Rattle.dcsctp_tlv.specs.Reading.{Exactly, reading, checking, Tested};
ghost use Rattle.dcsctp_cause.specs.CookieReceivedWhileShuttingDown as kind;

use dcsctp_tlv::error::ChunkParseError;
use dcsctp_tlv::frame::{item_size, put_parameter};
use dcsctp_tlv::parameter::raw_parameter::RawParameter;
use dcsctp_tlv::tlv::SerializableTlv;
use std::fmt;

/// The code of this cause.
pub const CAUSE_CODE: u16 = 10;

/// Cookie Received While Shutting Down (RFC 9260 section 3.3.10.10). It holds nothing.
#[derive(Debug, Drop)]
pub struct CookieReceivedWhileShuttingDownErrorCause {}

impl CookieReceivedWhileShuttingDownErrorCause {
    /// Reads the cause; no memory is taken.
    ///
    /// `InvalidType` if and only if the code is another; `InvalidLength` if and only if the value
    /// isn't empty.
    pub fn try_from(raw: RawParameter) -> Result<Self, ChunkParseError>
        ensures other { IsErrOf result ChunkParseError.InvalidType ↔ (raw.entry.typ ≢ CAUSE_CODE) }
        ensures answer { raw.entry.typ ≡ CAUSE_CODE →
            Exactly reading kind.view (λ a. kind.read raw.entry.value.now ≡ a) result }
        ensures memory { ¬ IsErrOf result ChunkParseError.OutOfMemory }
    {
        if raw.typ != CAUSE_CODE {
            return Err(ChunkParseError::InvalidType);
        }
        CookieReceivedWhileShuttingDownErrorCause::check(raw.value)?;
        Ok(CookieReceivedWhileShuttingDownErrorCause::build(raw.value))
    }

    /// Checks the value: `InvalidLength` if and only if it isn't empty.
    pub(crate) fn check(value: &[u8]) -> Result<(), ChunkParseError>
        ensures { Exactly checking (λ u. u) (Tested (kind.read value.now)) result }
    {
        if !value.is_empty() {
            return Err(ChunkParseError::InvalidLength);
        }
        Ok(())
    }

    /// Builds the cause that the value means.
    pub(crate) fn build(value: &[u8]) -> Self
        requires { IsOk (kind.read value.now) }
        ensures { kind.read value.now ≡ Ok (kind.view result) }
    {
        CookieReceivedWhileShuttingDownErrorCause {}
    }
}

impl SerializableTlv for CookieReceivedWhileShuttingDownErrorCause {
    ghost format = { λ c. kind.format (kind.view c) };

    fn serialize_to(&self, output: &mut [u8]) {
        put_parameter(CAUSE_CODE, &[], output);
    }

    fn encoded_size(&self) -> Option<usize> {
        item_size(0)
    }

    fn has_widths(&self) {}
}

impl fmt::Display for CookieReceivedWhileShuttingDownErrorCause {
    ghost output = { λ c. Some (kind.format (kind.view c)).text };

    fn fmt<W: fmt::Write>(&self, f: &mut fmt::Formatter<W>) -> fmt::Result {
        write!(f, "Cookie Received While Shutting Down")
    }
}
