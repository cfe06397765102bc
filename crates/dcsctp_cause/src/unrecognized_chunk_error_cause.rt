//! Unrecognized Chunk Type: the receiver doesn't know a chunk's type, and its sender asked for a
//! report.
//!
//! ```txt
//!  0                   1                   2                   3
//!  0 1 2 3 4 5 6 7 8 9 0 1 2 3 4 5 6 7 8 9 0 1 2 3 4 5 6 7 8 9 0 1
//! +-+-+-+-+-+-+-+-+-+-+-+-+-+-+-+-+-+-+-+-+-+-+-+-+-+-+-+-+-+-+-+-+
//! |            code = 6           |             length            |
//! +-+-+-+-+-+-+-+-+-+-+-+-+-+-+-+-+-+-+-+-+-+-+-+-+-+-+-+-+-+-+-+-+
//! |                    the unrecognized chunk                     |
//! +-+-+-+-+-+-+-+-+-+-+-+-+-+-+-+-+-+-+-+-+-+-+-+-+-+-+-+-+-+-+-+-+
//! ```

ghost use Rattle.std.specs.Prelude.{◌≡◌, ◌≢◌, ◌↔◌, Some, IsErrOf, IfOk, IsOk, Ok, vec_len, vec_capacity};
ghost use Rattle.dcsctp_tlv.specs.Reading.{Exactly, reading};
ghost use Rattle.dcsctp_cause.specs.UnrecognizedChunk as kind;

use dcsctp_tlv::copy::copied;
use dcsctp_tlv::error::ChunkParseError;
use dcsctp_tlv::frame::{item_size, put_parameter};
use dcsctp_tlv::parameter::raw_parameter::RawParameter;
use dcsctp_tlv::tlv::SerializableTlv;
use dcsctp_tlv::widths::are_bytes;
use std::alloc::{AllocError, Global};
use std::fmt;

/// The code of this cause.
pub const CAUSE_CODE: u16 = 6;

/// Unrecognized Chunk Type (RFC 9260 section 3.3.10.6).
#[derive(Debug, Drop)]
pub struct UnrecognizedChunkErrorCause {
    /// The chunk's bytes, with its header; they aren't looked at.
    pub chunk: Vec<u8>,
}

impl UnrecognizedChunkErrorCause {
    /// Reads the cause, and copies the chunk.
    ///
    /// `InvalidType` if and only if the code is another; `OutOfMemory` only where the chunk can't
    /// be copied.
    pub fn try_from(alloc: Global, raw: RawParameter) -> Result<Self, ChunkParseError>
        ensures other { IsErrOf result ChunkParseError.InvalidType ↔ (raw.entry.typ ≢ CAUSE_CODE) }
        ensures answer { raw.entry.typ ≡ CAUSE_CODE →
            Exactly reading kind.view (λ a. kind.read raw.entry.value.now ≡ a) result }
        ensures memory { IsErrOf result ChunkParseError.OutOfMemory →
            IsOk (kind.read raw.entry.value.now) }
        ensures tight { IfOk result (λ x. vec_capacity x.chunk ≡ vec_len x.chunk) }
    {
        if raw.typ != CAUSE_CODE {
            return Err(ChunkParseError::InvalidType);
        }
        Ok(UnrecognizedChunkErrorCause::build(alloc, raw.value)?)
    }

    /// Copies the value.
    pub(crate) fn build(alloc: Global, value: &[u8]) -> Result<Self, AllocError>
        ensures meant { IfOk result (λ x. kind.read value.now ≡ Ok (kind.view x)) }
        ensures tight { IfOk result (λ x. vec_capacity x.chunk ≡ vec_len x.chunk) }
    {
        Ok(UnrecognizedChunkErrorCause {
            chunk: copied(alloc, value)?,
        })
    }
}

impl SerializableTlv for UnrecognizedChunkErrorCause {
    ghost format = { λ c. kind.format (kind.view c) };

    fn serialize_to(&self, output: &mut [u8]) {
        put_parameter(CAUSE_CODE, &self.chunk, output);
    }

    fn encoded_size(&self) -> Option<usize> {
        item_size(self.chunk.len())
    }

    fn has_widths(&self) {
        are_bytes(&self.chunk);
    }
}

impl fmt::Display for UnrecognizedChunkErrorCause {
    ghost output = { λ c. Some (kind.format (kind.view c)).text };

    fn fmt<W: fmt::Write>(&self, f: &mut fmt::Formatter<W>) -> fmt::Result {
        write!(f, "Unrecognized Chunk Type")
    }
}
