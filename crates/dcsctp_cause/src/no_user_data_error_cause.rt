//! No User Data: a DATA chunk held no data.
//!
//! ```txt
//!  0                   1                   2                   3
//!  0 1 2 3 4 5 6 7 8 9 0 1 2 3 4 5 6 7 8 9 0 1 2 3 4 5 6 7 8 9 0 1
//! +-+-+-+-+-+-+-+-+-+-+-+-+-+-+-+-+-+-+-+-+-+-+-+-+-+-+-+-+-+-+-+-+
//! |            code = 9           |           length = 8          |
//! +-+-+-+-+-+-+-+-+-+-+-+-+-+-+-+-+-+-+-+-+-+-+-+-+-+-+-+-+-+-+-+-+
//! |                              TSN                              |
//! +-+-+-+-+-+-+-+-+-+-+-+-+-+-+-+-+-+-+-+-+-+-+-+-+-+-+-+-+-+-+-+-+
//! ```

ghost use Rattle.std.specs.Prelude.{◌≡◌, ◌≢◌, ◌↔◌, Some, Ok, IsOk, IsErrOf};
ghost use Rattle.dcsctp_tlv.specs.Reading.{Exactly, reading, checking, Tested};
ghost use Rattle.dcsctp_cause.specs.NoUserData as kind;

use dcsctp_tlv::error::ChunkParseError;
use dcsctp_tlv::frame::{item_size, put_parameter};
use dcsctp_tlv::number::read_u32_be;
use dcsctp_tlv::parameter::raw_parameter::RawParameter;
use dcsctp_tlv::tlv::SerializableTlv;
use dcsctp_tlv::widths::Widths;
use dcsctp_types::types::Tsn;
use std::fmt;

/// The code of this cause.
pub const CAUSE_CODE: u16 = 9;

/// No User Data (RFC 9260 section 3.3.10.9).
#[derive(Debug, Drop)]
pub struct NoUserDataErrorCause {
    /// The TSN of the DATA chunk that held no data.
    pub tsn: Tsn,
}

impl NoUserDataErrorCause {
    /// Reads the cause; no memory is taken.
    ///
    /// `InvalidType` if and only if the code is another; `InvalidLength` if and only if the value
    /// hasn't 4 bytes.
    pub fn try_from(raw: RawParameter) -> Result<Self, ChunkParseError>
        ensures other { IsErrOf result ChunkParseError.InvalidType ↔ (raw.entry.typ ≢ CAUSE_CODE) }
        ensures answer { raw.entry.typ ≡ CAUSE_CODE →
            Exactly reading kind.view (λ a. kind.read raw.entry.value.now ≡ a) result }
        ensures memory { ¬ IsErrOf result ChunkParseError.OutOfMemory }
    {
        if raw.typ != CAUSE_CODE {
            return Err(ChunkParseError::InvalidType);
        }
        NoUserDataErrorCause::check(raw.value)?;
        Ok(NoUserDataErrorCause::build(raw.value))
    }

    /// Checks the value: `InvalidLength` if and only if it hasn't 4 bytes.
    pub(crate) fn check(value: &[u8]) -> Result<(), ChunkParseError>
        ensures { Exactly checking (λ u. u) (Tested (kind.read value.now)) result }
    {
        if value.len() != 4 {
            return Err(ChunkParseError::InvalidLength);
        }
        Ok(())
    }

    /// Builds the cause that the value means.
    pub(crate) fn build(value: &[u8]) -> Self
        requires { IsOk (kind.read value.now) }
        ensures { kind.read value.now ≡ Ok (kind.view result) }
    {
        NoUserDataErrorCause {
            tsn: Tsn(read_u32_be(value)),
        }
    }
}

impl SerializableTlv for NoUserDataErrorCause {
    ghost format = { λ c. kind.format (kind.view c) };

    fn serialize_to(&self, output: &mut [u8]) {
        put_parameter(CAUSE_CODE, &self.tsn.0.to_be_bytes(), output);
    }

    fn encoded_size(&self) -> Option<usize> {
        item_size(4)
    }

    fn has_widths(&self) {
        self.tsn.is_in_width();
    }
}

impl fmt::Display for NoUserDataErrorCause {
    ghost output = { λ c. Some (kind.format (kind.view c)).text };

    fn fmt<W: fmt::Write>(&self, f: &mut fmt::Formatter<W>) -> fmt::Result {
        let tsn = self.tsn.0;
        write!(f, "No User Data, tsn={tsn}")
    }
}
