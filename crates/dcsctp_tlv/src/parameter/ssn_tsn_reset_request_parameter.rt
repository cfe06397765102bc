//! SSN/TSN Reset Request: the sender asks that all stream numbers and the TSN begin anew.
//!
//! ```txt
//!  0                   1                   2                   3
//!  0 1 2 3 4 5 6 7 8 9 0 1 2 3 4 5 6 7 8 9 0 1 2 3 4 5 6 7 8 9 0 1
//! +-+-+-+-+-+-+-+-+-+-+-+-+-+-+-+-+-+-+-+-+-+-+-+-+-+-+-+-+-+-+-+-+
//! |           type = 15           |           length = 8          |
//! +-+-+-+-+-+-+-+-+-+-+-+-+-+-+-+-+-+-+-+-+-+-+-+-+-+-+-+-+-+-+-+-+
//! |                    request sequence number                    |
//! +-+-+-+-+-+-+-+-+-+-+-+-+-+-+-+-+-+-+-+-+-+-+-+-+-+-+-+-+-+-+-+-+
//! ```

ghost use Rattle.std.specs.Prelude.{◌≡◌, ◌≢◌, ◌↔◌, Some, Ok, IsOk, IsErrOf};
ghost use Rattle.dcsctp_tlv.specs.Reading.{Exactly, reading, checking, Tested};
ghost use Rattle.dcsctp_tlv.specs.SsnTsnResetRequest as kind;

use crate::error::ChunkParseError;
use crate::frame::{item_size, put_parameter};
use crate::parameter::raw_parameter::RawParameter;
use crate::parameter::request_numbers::RequestNumbers;
use crate::tlv::SerializableTlv;
use std::fmt;

/// The type of SSN/TSN Reset Request.
pub const PARAMETER_TYPE: u16 = 15;

/// SSN/TSN Reset Request (RFC 6525 section 4.3).
#[derive(Debug, Drop)]
pub struct SsnTsnResetRequestParameter {
    /// The number of this request.
    pub request_seq_nbr: u32,
}

impl SsnTsnResetRequestParameter {
    /// Reads the parameter; no memory is taken.
    ///
    /// `InvalidType` if and only if the type is another; `InvalidLength` if and only if the value
    /// hasn't 4 bytes.
    pub fn try_from(raw: RawParameter) -> Result<Self, ChunkParseError>
        ensures other { IsErrOf result ChunkParseError.InvalidType ↔
            (raw.entry.typ ≢ PARAMETER_TYPE) }
        ensures answer { raw.entry.typ ≡ PARAMETER_TYPE →
            Exactly reading kind.view (λ a. kind.read raw.entry.value.now ≡ a) result }
        ensures memory { ¬ IsErrOf result ChunkParseError.OutOfMemory }
    {
        if raw.typ != PARAMETER_TYPE {
            return Err(ChunkParseError::InvalidType);
        }
        SsnTsnResetRequestParameter::check(raw.value)?;
        Ok(SsnTsnResetRequestParameter::build(raw.value))
    }

    /// Checks the value: `InvalidLength` if and only if it hasn't 4 bytes.
    pub(crate) fn check(value: &[u8]) -> Result<(), ChunkParseError>
        ensures { Exactly checking (λ u. u) (Tested (kind.read value.now)) result }
    {
        if value.len() != RequestNumbers::SIZE {
            return Err(ChunkParseError::InvalidLength);
        }
        Ok(())
    }

    /// Builds the parameter that the value means.
    pub(crate) fn build(value: &[u8]) -> Self
        requires { IsOk (kind.read value.now) }
        ensures { kind.read value.now ≡ Ok (kind.view result) }
    {
        SsnTsnResetRequestParameter {
            request_seq_nbr: RequestNumbers::read(value).request_seq_nbr,
        }
    }
}

impl SerializableTlv for SsnTsnResetRequestParameter {
    ghost format = { λ p. kind.format (kind.view p) };

    fn serialize_to(&self, output: &mut [u8]) {
        put_parameter(PARAMETER_TYPE, &self.request_seq_nbr.to_be_bytes(), output);
    }

    fn encoded_size(&self) -> Option<usize> {
        item_size(RequestNumbers::SIZE)
    }

    fn has_widths(&self) {
        let _number = self.request_seq_nbr;
    }
}

impl fmt::Display for SsnTsnResetRequestParameter {
    ghost output = { λ p. Some (kind.format (kind.view p)).text };

    fn fmt<W: fmt::Write>(&self, f: &mut fmt::Formatter<W>) -> fmt::Result {
        let request = self.request_seq_nbr;
        write!(f, "SSN/TSN Reset Request, req_seq_nbr={request}")
    }
}
