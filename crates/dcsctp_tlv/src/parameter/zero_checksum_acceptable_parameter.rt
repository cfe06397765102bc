//! Zero Checksum Acceptable: the sender takes packets whose checksum is zero.
//!
//! ```txt
//!  0                   1                   2                   3
//!  0 1 2 3 4 5 6 7 8 9 0 1 2 3 4 5 6 7 8 9 0 1 2 3 4 5 6 7 8 9 0 1
//! +-+-+-+-+-+-+-+-+-+-+-+-+-+-+-+-+-+-+-+-+-+-+-+-+-+-+-+-+-+-+-+-+
//! |         type = 0x8001         |           length = 8          |
//! +-+-+-+-+-+-+-+-+-+-+-+-+-+-+-+-+-+-+-+-+-+-+-+-+-+-+-+-+-+-+-+-+
//! |                     error detection method                    |
//! +-+-+-+-+-+-+-+-+-+-+-+-+-+-+-+-+-+-+-+-+-+-+-+-+-+-+-+-+-+-+-+-+
//! ```

ghost use Rattle.std.specs.Prelude.{◌≡◌, ◌≢◌, ◌↔◌, Some, Ok, IsOk, IsErrOf};
ghost use Rattle.dcsctp_tlv.specs.Reading.{Exactly, reading, checking, Tested};
ghost use Rattle.dcsctp_tlv.specs.ZeroChecksumAcceptable as kind;

use crate::error::ChunkParseError;
use crate::frame::{item_size, put_parameter};
use crate::number::read_u32_be;
use crate::parameter::raw_parameter::RawParameter;
use crate::tlv::SerializableTlv;
use dcsctp_types::api::ZeroChecksumAlternateErrorDetectionMethod;
use std::fmt;

/// The type of Zero Checksum Acceptable.
pub const PARAMETER_TYPE: u16 = 0x8001;

/// Zero Checksum Acceptable (RFC 9653 section 4).
#[derive(Debug, Drop)]
pub struct ZeroChecksumAcceptableParameter {
    /// How the packets are protected in place of the checksum.
    pub method: ZeroChecksumAlternateErrorDetectionMethod,
}

impl ZeroChecksumAcceptableParameter {
    /// Reads the parameter; no memory is taken, and every method is accepted.
    ///
    /// `InvalidType` if and only if the type is another; `InvalidLength` if and only if the value
    /// hasn't 4 bytes.
    pub fn try_from(raw: RawParameter) -> Result<Self, ChunkParseError>
        ensures other { IsErrOf result ChunkParseError.InvalidType ↔
            (raw.entry.typ ≢ PARAMETER_TYPE) }
        ensures answer { raw.entry.typ ≡ PARAMETER_TYPE →
            Exactly reading kind.view (λ a. kind.read raw.entry.value.now ≡ a) result }
        ensures memory { ¬ IsErrOf result ChunkParseError.OutOfMemory }
    {
        if raw.typ != PARAMETER_TYPE {
            return Err(ChunkParseError::InvalidType);
        }
        ZeroChecksumAcceptableParameter::check(raw.value)?;
        Ok(ZeroChecksumAcceptableParameter::build(raw.value))
    }

    /// Checks the value: `InvalidLength` if and only if it hasn't 4 bytes.
    pub(crate) fn check(value: &[u8]) -> Result<(), ChunkParseError>
        ensures { Exactly checking (λ u. u) (Tested (kind.read value.now)) result }
    {
        if value.len() != 4 {
            return Err(ChunkParseError::InvalidLength);
        }
        Ok(())
    }

    /// Builds the parameter that the value means.
    pub(crate) fn build(value: &[u8]) -> Self
        requires { IsOk (kind.read value.now) }
        ensures { kind.read value.now ≡ Ok (kind.view result) }
    {
        ZeroChecksumAcceptableParameter {
            method: ZeroChecksumAlternateErrorDetectionMethod(read_u32_be(value)),
        }
    }
}

impl SerializableTlv for ZeroChecksumAcceptableParameter {
    ghost format = { λ p. kind.format (kind.view p) };

    fn serialize_to(&self, output: &mut [u8]) {
        put_parameter(PARAMETER_TYPE, &self.method.0.to_be_bytes(), output);
    }

    fn encoded_size(&self) -> Option<usize> {
        item_size(4)
    }

    fn has_widths(&self) {
        let _number = self.method.0;
    }
}

impl fmt::Display for ZeroChecksumAcceptableParameter {
    ghost output = { λ p. Some (kind.format (kind.view p)).text };

    fn fmt<W: fmt::Write>(&self, f: &mut fmt::Formatter<W>) -> fmt::Result {
        let method = self.method.0;
        write!(f, "Zero Checksum Acceptable, method={method}")
    }
}
