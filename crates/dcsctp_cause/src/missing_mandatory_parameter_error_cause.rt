//! Missing Mandatory Parameter: an INIT or INIT ACK lacked parameters that it must have.
//!
//! ```txt
//!  0                   1                   2                   3
//!  0 1 2 3 4 5 6 7 8 9 0 1 2 3 4 5 6 7 8 9 0 1 2 3 4 5 6 7 8 9 0 1
//! +-+-+-+-+-+-+-+-+-+-+-+-+-+-+-+-+-+-+-+-+-+-+-+-+-+-+-+-+-+-+-+-+
//! |            code = 2           |             length            |
//! +-+-+-+-+-+-+-+-+-+-+-+-+-+-+-+-+-+-+-+-+-+-+-+-+-+-+-+-+-+-+-+-+
//! |                      number of types, N                       |
//! +-+-+-+-+-+-+-+-+-+-+-+-+-+-+-+-+-+-+-+-+-+-+-+-+-+-+-+-+-+-+-+-+
//! |       parameter type 1        |       ..  N, two bytes each   |
//! +-+-+-+-+-+-+-+-+-+-+-+-+-+-+-+-+-+-+-+-+-+-+-+-+-+-+-+-+-+-+-+-+
//! ```

ghost use Rattle.std.specs.Prelude.{◌≡◌, ◌≢◌, ◌↔◌, Some, IsOk, IfOk, IsErrOf, Ok, vec_len, vec_capacity};
ghost use Rattle.dcsctp_tlv.specs.Reading.{Exactly, reading, checking, Tested};
ghost use Rattle.dcsctp_cause.specs.MissingMandatoryParameter as kind;

use dcsctp_tlv::copy::copied;
use dcsctp_tlv::error::ChunkParseError;
use dcsctp_tlv::fields::{fields_from_bytes, put_parameter_fields};
use dcsctp_tlv::frame::fields_item_size;
use dcsctp_tlv::number::read_u32_be;
use dcsctp_tlv::parameter::raw_parameter::RawParameter;
use dcsctp_tlv::text::write_joined;
use dcsctp_tlv::tlv::SerializableTlv;
use dcsctp_tlv::widths::are_numbers;
use std::alloc::{AllocError, Global};
use std::fmt;

/// The code of this cause.
pub const CAUSE_CODE: u16 = 2;

/// Bytes of the value before the types.
const FIXED_SIZE: usize = 4;

/// Missing Mandatory Parameter (RFC 9260 section 3.3.10.2).
#[derive(Debug, Drop, PartialEq, Eq)]
pub struct MissingMandatoryParameterErrorCause {
    /// The types of the missing parameters, in the order of the list, with repeats.
    pub missing_parameters: Vec<u16>,
}

impl MissingMandatoryParameterErrorCause {
    /// Builds the cause with these types.
    pub fn new(missing_parameters: Vec<u16>) -> MissingMandatoryParameterErrorCause
        ensures { result.missing_parameters ≡ missing_parameters }
    {
        MissingMandatoryParameterErrorCause { missing_parameters }
    }

    /// Copies the cause with its types; refused only if memory runs out.
    pub fn clone(&self) -> Result<MissingMandatoryParameterErrorCause, AllocError>
        ensures same { IfOk result
            (λ c. c.missing_parameters.items ≡ self.now.missing_parameters.items) }
        ensures tight { IfOk result
            (λ c. vec_capacity c.missing_parameters ≡ vec_len c.missing_parameters) }
    {
        Ok(MissingMandatoryParameterErrorCause {
            missing_parameters: copied(
                *self.missing_parameters.allocator(),
                &self.missing_parameters,
            )?,
        })
    }

    /// Reads the cause, and copies its types.
    ///
    /// `InvalidType` if and only if the code is another; `InvalidLength` if and only if the value
    /// has fewer than 4 bytes, or other than 4 and 2 more for each type that it counts;
    /// `OutOfMemory` only where the types can't be copied.
    pub fn try_from(alloc: Global, raw: RawParameter) -> Result<Self, ChunkParseError>
        ensures other { IsErrOf result ChunkParseError.InvalidType ↔ (raw.entry.typ ≢ CAUSE_CODE) }
        ensures answer { raw.entry.typ ≡ CAUSE_CODE →
            Exactly reading kind.view (λ a. kind.read raw.entry.value.now ≡ a) result }
        ensures memory { IsErrOf result ChunkParseError.OutOfMemory →
            IsOk (kind.read raw.entry.value.now) }
        ensures tight { IfOk result
            (λ x. vec_capacity x.missing_parameters ≡ vec_len x.missing_parameters) }
    {
        if raw.typ != CAUSE_CODE {
            return Err(ChunkParseError::InvalidType);
        }
        MissingMandatoryParameterErrorCause::check(raw.value)?;
        Ok(MissingMandatoryParameterErrorCause::build(alloc, raw.value)?)
    }

    /// Checks the value: `InvalidLength` if and only if it has fewer than 4 bytes, or other than 4
    /// and 2 more for each type that it counts.
    pub(crate) fn check(value: &[u8]) -> Result<(), ChunkParseError>
        ensures { Exactly checking (λ u. u) (Tested (kind.read value.now)) result }
    {
        if value.len() < FIXED_SIZE {
            return Err(ChunkParseError::InvalidLength);
        }
        let count = read_u32_be(value) as usize;
        if value.len() != FIXED_SIZE + 2 * count {
            return Err(ChunkParseError::InvalidLength);
        }
        Ok(())
    }

    /// Builds the cause that the value means.
    pub(crate) fn build(alloc: Global, value: &[u8]) -> Result<Self, AllocError>
        requires { IsOk (kind.read value.now) }
        ensures meant { IfOk result (λ x. kind.read value.now ≡ Ok (kind.view x)) }
        ensures tight { IfOk result
            (λ x. vec_capacity x.missing_parameters ≡ vec_len x.missing_parameters) }
    {
        let count = read_u32_be(value) as usize;
        let types = &value[FIXED_SIZE..];
        let missing_parameters = fields_from_bytes::<u16>(alloc, types, count)?;
        Ok(MissingMandatoryParameterErrorCause { missing_parameters })
    }
}

impl SerializableTlv for MissingMandatoryParameterErrorCause {
    ghost format = { λ c. kind.format (kind.view c) };

    fn serialize_to(&self, output: &mut [u8]) {
        let types = &self.missing_parameters;
        let leading = [types.len() as u32];
        put_parameter_fields::<u16>(CAUSE_CODE, &leading, types, output);
    }

    fn encoded_size(&self) -> Option<usize> {
        fields_item_size(FIXED_SIZE, 2, self.missing_parameters.len())
    }

    fn has_widths(&self) {
        are_numbers(&self.missing_parameters);
    }
}

impl fmt::Display for MissingMandatoryParameterErrorCause {
    ghost output = { λ c. Some (kind.format (kind.view c)).text };

    fn fmt<W: fmt::Write>(&self, f: &mut fmt::Formatter<W>) -> fmt::Result {
        write!(f, "Missing Mandatory Parameter, missing_parameters=[")?;
        write_joined(&self.missing_parameters, ", ", f)?;
        write!(f, "]")
    }
}
