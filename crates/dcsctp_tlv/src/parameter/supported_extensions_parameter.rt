//! Supported Extensions: the types of chunk that the sender knows beside the standard ones.
//!
//! ```txt
//!  0                   1                   2                   3
//!  0 1 2 3 4 5 6 7 8 9 0 1 2 3 4 5 6 7 8 9 0 1 2 3 4 5 6 7 8 9 0 1
//! +-+-+-+-+-+-+-+-+-+-+-+-+-+-+-+-+-+-+-+-+-+-+-+-+-+-+-+-+-+-+-+-+
//! |         type = 0x8008         |             length            |
//! +-+-+-+-+-+-+-+-+-+-+-+-+-+-+-+-+-+-+-+-+-+-+-+-+-+-+-+-+-+-+-+-+
//! |                   chunk types, one byte each                  |
//! +-+-+-+-+-+-+-+-+-+-+-+-+-+-+-+-+-+-+-+-+-+-+-+-+-+-+-+-+-+-+-+-+
//! ```

ghost use Rattle.std.specs.Prelude.{◌≡◌, ◌≢◌, ◌↔◌, Some, IsErrOf, IfOk, IsOk, Ok, vec_len, vec_capacity};
ghost use Rattle.dcsctp_tlv.specs.Reading.{Exactly, reading};
ghost use Rattle.dcsctp_tlv.specs.SupportedExtensions as kind;

use crate::copy::copied;
use crate::error::ChunkParseError;
use crate::frame::{item_size, put_parameter};
use crate::parameter::raw_parameter::RawParameter;
use crate::text::write_joined;
use crate::tlv::SerializableTlv;
use crate::widths::are_bytes;
use std::alloc::{AllocError, Global};
use std::fmt;

/// The type of Supported Extensions.
pub const PARAMETER_TYPE: u16 = 0x8008;

/// Supported Extensions (RFC 5061 section 4.2.7).
#[derive(Debug, Drop)]
pub struct SupportedExtensionsParameter {
    /// In the order of the list, with repeats.
    pub chunk_types: Vec<u8>,
}

impl SupportedExtensionsParameter {
    /// Reads the parameter, and copies the list.
    ///
    /// `InvalidType` if and only if the type is another; `OutOfMemory` only where the list can't be
    /// copied.
    pub fn try_from(alloc: Global, raw: RawParameter) -> Result<Self, ChunkParseError>
        ensures other { IsErrOf result ChunkParseError.InvalidType ↔
            (raw.entry.typ ≢ PARAMETER_TYPE) }
        ensures answer { raw.entry.typ ≡ PARAMETER_TYPE →
            Exactly reading kind.view (λ a. kind.read raw.entry.value.now ≡ a) result }
        ensures memory { IsErrOf result ChunkParseError.OutOfMemory →
            IsOk (kind.read raw.entry.value.now) }
        ensures tight { IfOk result (λ x. vec_capacity x.chunk_types ≡ vec_len x.chunk_types) }
    {
        if raw.typ != PARAMETER_TYPE {
            return Err(ChunkParseError::InvalidType);
        }
        Ok(SupportedExtensionsParameter::build(alloc, raw.value)?)
    }

    /// Copies the value.
    pub(crate) fn build(alloc: Global, value: &[u8]) -> Result<Self, AllocError>
        ensures meant { IfOk result (λ x. kind.read value.now ≡ Ok (kind.view x)) }
        ensures tight { IfOk result (λ x. vec_capacity x.chunk_types ≡ vec_len x.chunk_types) }
    {
        Ok(SupportedExtensionsParameter {
            chunk_types: copied(alloc, value)?,
        })
    }
}

impl SerializableTlv for SupportedExtensionsParameter {
    ghost format = { λ p. kind.format (kind.view p) };

    fn serialize_to(&self, output: &mut [u8]) {
        put_parameter(PARAMETER_TYPE, &self.chunk_types, output);
    }

    fn encoded_size(&self) -> Option<usize> {
        item_size(self.chunk_types.len())
    }

    fn has_widths(&self) {
        are_bytes(&self.chunk_types);
    }
}

impl fmt::Display for SupportedExtensionsParameter {
    ghost output = { λ p. Some (kind.format (kind.view p)).text };

    fn fmt<W: fmt::Write>(&self, f: &mut fmt::Formatter<W>) -> fmt::Result {
        write!(f, "Supported extensions, chunks=")?;
        write_joined(&self.chunk_types, ",", f)
    }
}
