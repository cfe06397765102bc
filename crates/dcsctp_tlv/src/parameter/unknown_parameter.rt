//! A parameter or an error cause of a type that has no kind of its own.
//!
//! ```txt
//!  0                   1                   2                   3
//!  0 1 2 3 4 5 6 7 8 9 0 1 2 3 4 5 6 7 8 9 0 1 2 3 4 5 6 7 8 9 0 1
//! +-+-+-+-+-+-+-+-+-+-+-+-+-+-+-+-+-+-+-+-+-+-+-+-+-+-+-+-+-+-+-+-+
//! |              type             |             length            |
//! +-+-+-+-+-+-+-+-+-+-+-+-+-+-+-+-+-+-+-+-+-+-+-+-+-+-+-+-+-+-+-+-+
//! |                        value, any bytes                       |
//! +-+-+-+-+-+-+-+-+-+-+-+-+-+-+-+-+-+-+-+-+-+-+-+-+-+-+-+-+-+-+-+-+
//! ```

ghost use Rattle.std.specs.Prelude.{◌≡◌, Some, IfOk, IsOk, IsErrOf, Ok, vec_len, vec_capacity};
ghost use Rattle.dcsctp_tlv.specs.Reading.{Exactly, reading};
ghost use Rattle.dcsctp_tlv.specs.UnknownParameter as kind;

use crate::copy::copied;
use crate::error::ChunkParseError;
use crate::frame::{item_size, put_parameter};
use crate::parameter::raw_parameter::RawParameter;
use crate::tlv::SerializableTlv;
use crate::widths::are_bytes;
use std::alloc::{AllocError, Global};
use std::fmt;

/// A parameter or an error cause that is kept as it is: its type and its value (RFC 9260 sections
/// 3.2.1 and 3.3.10).
#[derive(Debug, Drop)]
pub struct UnknownParameter {
    /// The type of the parameter, or the code of the cause.
    pub typ: u16,
    /// The bytes after the header, without padding.
    pub value: Vec<u8>,
}

impl UnknownParameter {
    /// Builds the parameter or cause of this type that holds these bytes. Does not allocate.
    pub fn new(typ: u16, value: Vec<u8>) -> UnknownParameter
        ensures typ { result.typ ≡ typ }
        ensures value { result.value ≡ value }
    {
        UnknownParameter { typ, value }
    }

    /// Keeps a parameter of any type, and copies its value; `OutOfMemory` is its only error.
    pub fn try_from(alloc: Global, raw: RawParameter) -> Result<Self, ChunkParseError>
        ensures answer { Exactly reading kind.view
            (λ a. kind.read raw.entry.typ raw.entry.value.now ≡ a) result }
        ensures memory { IsErrOf result ChunkParseError.OutOfMemory →
            IsOk (kind.read raw.entry.typ raw.entry.value.now) }
        ensures tight { IfOk result (λ x. vec_capacity x.value ≡ vec_len x.value) }
    {
        Ok(UnknownParameter::build(alloc, raw.typ, raw.value)?)
    }

    /// Copies the value.
    pub fn build(alloc: Global, typ: u16, value: &[u8]) -> Result<Self, AllocError>
        ensures meant { IfOk result (λ x. kind.read typ value.now ≡ Ok (kind.view x)) }
        ensures tight { IfOk result (λ x. vec_capacity x.value ≡ vec_len x.value) }
    {
        Ok(UnknownParameter {
            typ,
            value: copied(alloc, value)?,
        })
    }
}

impl SerializableTlv for UnknownParameter {
    ghost format = { λ p. kind.format (kind.view p) };

    fn serialize_to(&self, output: &mut [u8]) {
        put_parameter(self.typ, &self.value, output);
    }

    fn encoded_size(&self) -> Option<usize> {
        item_size(self.value.len())
    }

    fn has_widths(&self) {
        let _number = self.typ;
        are_bytes(&self.value);
    }
}

impl fmt::Display for UnknownParameter {
    ghost output = { λ p. Some (kind.format (kind.view p)).text };

    fn fmt<W: fmt::Write>(&self, f: &mut fmt::Formatter<W>) -> fmt::Result {
        let typ = self.typ;
        write!(f, "Unknown parameter, type={typ}")
    }
}
