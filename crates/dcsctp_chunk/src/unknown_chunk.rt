//! A chunk of a type that has no kind of its own.
//!
//! ```txt
//!  0                   1                   2                   3
//!  0 1 2 3 4 5 6 7 8 9 0 1 2 3 4 5 6 7 8 9 0 1 2 3 4 5 6 7 8 9 0 1
//! +-+-+-+-+-+-+-+-+-+-+-+-+-+-+-+-+-+-+-+-+-+-+-+-+-+-+-+-+-+-+-+-+
//! |     type      |     flags     |            length             |
//! +-+-+-+-+-+-+-+-+-+-+-+-+-+-+-+-+-+-+-+-+-+-+-+-+-+-+-+-+-+-+-+-+
//! |                       value, any bytes                        |
//! +-+-+-+-+-+-+-+-+-+-+-+-+-+-+-+-+-+-+-+-+-+-+-+-+-+-+-+-+-+-+-+-+
//! ```

ghost use Rattle.std.specs.Prelude.{◌≡◌, Some, IfOk, IsOk, IsErrOf, Ok, vec_len, vec_capacity};
ghost use Rattle.dcsctp_tlv.specs.Reading.{Exactly, reading};
ghost use Rattle.dcsctp_chunk.specs.Unknown as kind;

use crate::raw_chunk::RawChunk;
use dcsctp_tlv::copy::copied;
use dcsctp_tlv::error::ChunkParseError;
use dcsctp_tlv::frame::{item_size, put_solid};
use dcsctp_tlv::tlv::SerializableTlv;
use dcsctp_tlv::widths::are_bytes;
use std::alloc::{AllocError, Global};
use std::fmt;

/// A chunk that is kept as it is: its type, all its flags and its value (RFC 9260 section 3.2).
#[derive(Debug, Drop)]
pub struct UnknownChunk {
    /// What kind of chunk it is.
    pub typ: u8,
    /// What they mean depends on the type.
    pub flags: u8,
    /// The bytes after the header, without padding.
    pub value: Vec<u8>,
}

impl UnknownChunk {
    /// Keeps a chunk of any type, and copies its value; `OutOfMemory` is its only error.
    pub fn try_from(alloc: Global, raw: RawChunk) -> Result<Self, ChunkParseError>
        ensures answer { Exactly reading kind.view
            (λ a. kind.read raw.entry.typ raw.entry.flags raw.entry.value.now ≡ a) result }
        ensures memory { IsErrOf result ChunkParseError.OutOfMemory →
            IsOk (kind.read raw.entry.typ raw.entry.flags raw.entry.value.now) }
        ensures tight { IfOk result (λ x. vec_capacity x.value ≡ vec_len x.value) }
    {
        Ok(UnknownChunk::build(alloc, raw.typ, raw.flags, raw.value)?)
    }

    /// Copies the value.
    pub fn build(alloc: Global, typ: u8, flags: u8, value: &[u8]) -> Result<Self, AllocError>
        ensures meant { IfOk result (λ x. kind.read typ flags value.now ≡ Ok (kind.view x)) }
        ensures tight { IfOk result (λ x. vec_capacity x.value ≡ vec_len x.value) }
    {
        Ok(UnknownChunk {
            typ,
            flags,
            value: copied(alloc, value)?,
        })
    }
}

impl SerializableTlv for UnknownChunk {
    ghost format = { λ c. kind.format (kind.view c) };

    fn serialize_to(&self, output: &mut [u8]) {
        put_solid(self.typ, self.flags, &self.value, output);
    }

    fn encoded_size(&self) -> Option<usize> {
        item_size(self.value.len())
    }

    fn has_widths(&self) {
        let _typ = self.typ;
        let _flags = self.flags;
        are_bytes(&self.value);
    }
}

impl fmt::Display for UnknownChunk {
    ghost output = { λ c. Some (kind.format (kind.view c)).text };

    fn fmt<W: fmt::Write>(&self, f: &mut fmt::Formatter<W>) -> fmt::Result {
        let typ = self.typ;
        write!(f, "Unknown chunk, type={typ}")
    }
}
