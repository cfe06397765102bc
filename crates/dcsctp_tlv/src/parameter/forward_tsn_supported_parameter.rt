//! Forward-TSN-Supported: the sender knows FORWARD-TSN.
//!
//! ```txt
//!  0                   1                   2                   3
//!  0 1 2 3 4 5 6 7 8 9 0 1 2 3 4 5 6 7 8 9 0 1 2 3 4 5 6 7 8 9 0 1
//! +-+-+-+-+-+-+-+-+-+-+-+-+-+-+-+-+-+-+-+-+-+-+-+-+-+-+-+-+-+-+-+-+
//! |         type = 0xC000         |           length = 4          |
//! +-+-+-+-+-+-+-+-+-+-+-+-+-+-+-+-+-+-+-+-+-+-+-+-+-+-+-+-+-+-+-+-+
//! ```

ghost use Rattle.std.specs.Prelude.{◌≡◌, ◌≢◌, ◌↔◌, Some, Ok, IsOk, IsErrOf};
ghost use Rattle.dcsctp_tlv.specs.Reading.{Exactly, reading, checking, Tested};
ghost use Rattle.dcsctp_tlv.specs.ForwardTsnSupported as kind;

use crate::error::ChunkParseError;
use crate::frame::{item_size, put_parameter};
use crate::parameter::raw_parameter::RawParameter;
use crate::tlv::SerializableTlv;
use std::fmt;

/// The type of Forward-TSN-Supported.
pub const PARAMETER_TYPE: u16 = 0xC000;

/// Forward-TSN-Supported (RFC 3758 section 3.1). It holds nothing.
#[derive(Debug, Drop)]
pub struct ForwardTsnSupportedParameter;

impl ForwardTsnSupportedParameter {
    /// Reads the parameter; no memory is taken.
    ///
    /// `InvalidType` if and only if the type is another; `InvalidLength` if and only if the value
    /// isn't empty.
    pub fn try_from(raw: RawParameter) -> Result<Self, ChunkParseError>
        ensures other { IsErrOf result ChunkParseError.InvalidType ↔
            (raw.entry.typ ≢ PARAMETER_TYPE) }
        ensures answer { raw.entry.typ ≡ PARAMETER_TYPE →
            Exactly reading kind.view (λ a. kind.read raw.entry.value.now ≡ a) result }
        ensures memory { ¬ IsErrOf result ChunkParseError.OutOfMemory }
    {
        if raw.typ != PARAMETER_TYPE {
            return Err(ChunkParseError::InvalidType);
        }
        ForwardTsnSupportedParameter::check(raw.value)?;
        Ok(ForwardTsnSupportedParameter::build(raw.value))
    }

    /// Checks the value: `InvalidLength` if and only if it isn't empty.
    pub(crate) fn check(value: &[u8]) -> Result<(), ChunkParseError>
        ensures { Exactly checking (λ u. u) (Tested (kind.read value.now)) result }
    {
        if !value.is_empty() {
            return Err(ChunkParseError::InvalidLength);
        }
        Ok(())
    }

    /// Builds the parameter that the value means.
    pub(crate) fn build(value: &[u8]) -> Self
        requires { IsOk (kind.read value.now) }
        ensures { kind.read value.now ≡ Ok (kind.view result) }
    {
        ForwardTsnSupportedParameter
    }
}

impl SerializableTlv for ForwardTsnSupportedParameter {
    ghost format = { λ p. kind.format (kind.view p) };

    fn serialize_to(&self, output: &mut [u8]) {
        put_parameter(PARAMETER_TYPE, &[], output);
    }

    fn encoded_size(&self) -> Option<usize> {
        item_size(0)
    }

    fn has_widths(&self) {}
}

impl fmt::Display for ForwardTsnSupportedParameter {
    ghost output = { λ p. Some (kind.format (kind.view p)).text };

    fn fmt<W: fmt::Write>(&self, f: &mut fmt::Formatter<W>) -> fmt::Result {
        write!(f, "Forward-TSN supported")
    }
}
