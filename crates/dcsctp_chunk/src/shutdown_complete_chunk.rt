//! SHUTDOWN COMPLETE: the answer to a SHUTDOWN ACK, after which the association is over.
//!
//! ```txt
//!  0                   1                   2                   3
//!  0 1 2 3 4 5 6 7 8 9 0 1 2 3 4 5 6 7 8 9 0 1 2 3 4 5 6 7 8 9 0 1
//! +-+-+-+-+-+-+-+-+-+-+-+-+-+-+-+-+-+-+-+-+-+-+-+-+-+-+-+-+-+-+-+-+
//! |   type = 14   |  reserved   |T|          length = 4           |
//! +-+-+-+-+-+-+-+-+-+-+-+-+-+-+-+-+-+-+-+-+-+-+-+-+-+-+-+-+-+-+-+-+
//! ```

ghost use Rattle.std.specs.Prelude.{◌≡◌, ◌≢◌, ◌↔◌, [], Some, Ok, IsOk, IsErrOf, IfErr, length, OnOk, OnErr, ◌<◌};
ghost use Rattle.dcsctp_tlv.specs.Reading.{Exactly, reading};
ghost use Rattle.dcsctp_chunk.specs.ShutdownComplete as kind;

use crate::flags::{is_set, one_flag};
use crate::raw_chunk::RawChunk;
use dcsctp_tlv::error::ChunkParseError;
use dcsctp_tlv::frame::{item_size, put_solid};
use dcsctp_tlv::tlv::SerializableTlv;
use std::fmt;

/// The type of SHUTDOWN COMPLETE.
pub const CHUNK_TYPE: u8 = 14;

/// SHUTDOWN COMPLETE (RFC 9260 section 3.3.13).
#[derive(Debug, Drop)]
pub struct ShutdownCompleteChunk {
    /// Whether the packet's verification tag is reflected, the T bit: it is the one that the
    /// receiver writes into its own packets (RFC 9260 section 8.5.1). A sender without an
    /// association sets it.
    pub tag_reflected: bool,
}

impl ShutdownCompleteChunk {
    /// Reads the chunk; flags but the T bit are ignored, and no memory is taken.
    ///
    /// `InvalidType` if and only if the type is another; `InvalidLength` if and only if the value
    /// isn't empty.
    pub fn try_from(raw: RawChunk) -> Result<Self, ChunkParseError>
        ensures other { IsErrOf result ChunkParseError.InvalidType ↔ (raw.entry.typ ≢ CHUNK_TYPE) }
        ensures answer { raw.entry.typ ≡ CHUNK_TYPE →
            Exactly reading kind.view
            (λ a. kind.read raw.entry.flags raw.entry.value.now ≡ a) result }
        ensures memory { ¬ IsErrOf result ChunkParseError.OutOfMemory }
    {
        if raw.typ != CHUNK_TYPE {
            return Err(ChunkParseError::InvalidType);
        }
        ShutdownCompleteChunk::check(raw.value)?;
        Ok(ShutdownCompleteChunk::build(raw.flags, raw.value))
    }

    /// Checks the value: `InvalidLength` if and only if it isn't empty.
    pub(crate) fn check(value: &[u8]) -> Result<(), ChunkParseError>
        ensures size { OnOk result (length value.now ≡ 0) }
        ensures filled { OnErr result (0 < length value.now) }
        ensures fault { IfErr result (λ e. e ≡ ChunkParseError.InvalidLength) }
    {
        if !value.is_empty() {
            return Err(ChunkParseError::InvalidLength);
        }
        Ok(())
    }

    /// Builds the chunk that a value without bytes means under these flags.
    pub fn build(flags: u8, value: &[u8]) -> Self
        requires { IsOk (kind.read flags value.now) }
        ensures { kind.read flags value.now ≡ Ok (kind.view result) }
    {
        ShutdownCompleteChunk {
            tag_reflected: is_set(flags, 0),
        }
    }
}

impl SerializableTlv for ShutdownCompleteChunk {
    ghost format = { λ c. kind.format (kind.view c) };

    fn serialize_to(&self, output: &mut [u8]) {
        put_solid(CHUNK_TYPE, one_flag(self.tag_reflected), &[], output);
    }

    fn encoded_size(&self) -> Option<usize> {
        item_size(0)
    }

    fn has_widths(&self) {}
}

impl fmt::Display for ShutdownCompleteChunk {
    ghost output = { λ c. Some (kind.format (kind.view c)).text };

    fn fmt<W: fmt::Write>(&self, f: &mut fmt::Formatter<W>) -> fmt::Result {
        let tag_reflected = self.tag_reflected;
        write!(f, "SHUTDOWN-COMPLETE, tag_reflected={tag_reflected}")
    }
}
