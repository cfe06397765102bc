//! COOKIE ACK: the answer to a COOKIE ECHO.
//!
//! ```txt
//!  0                   1                   2                   3
//!  0 1 2 3 4 5 6 7 8 9 0 1 2 3 4 5 6 7 8 9 0 1 2 3 4 5 6 7 8 9 0 1
//! +-+-+-+-+-+-+-+-+-+-+-+-+-+-+-+-+-+-+-+-+-+-+-+-+-+-+-+-+-+-+-+-+
//! |   type = 11   |     flags     |          length = 4           |
//! +-+-+-+-+-+-+-+-+-+-+-+-+-+-+-+-+-+-+-+-+-+-+-+-+-+-+-+-+-+-+-+-+
//! ```

ghost use Rattle.std.specs.Prelude.{◌≡◌, ◌≢◌, ◌↔◌, [], Some, Ok, IsOk, IsErrOf};
ghost use Rattle.dcsctp_tlv.specs.Reading.{Exactly, reading, checking, Tested};
ghost use Rattle.dcsctp_chunk.specs.CookieAck as kind;

use crate::raw_chunk::RawChunk;
use dcsctp_tlv::error::ChunkParseError;
use dcsctp_tlv::frame::{item_size, put_solid};
use dcsctp_tlv::tlv::SerializableTlv;
use std::fmt;

/// The type of COOKIE ACK.
pub const CHUNK_TYPE: u8 = 11;

/// COOKIE ACK (RFC 9260 section 3.3.12). It holds nothing.
#[derive(Debug, Drop)]
pub struct CookieAckChunk;

impl CookieAckChunk {
    /// Reads the chunk; flags are ignored, and no memory is taken.
    ///
    /// `InvalidType` if and only if the type is another; `InvalidLength` if and only if the value
    /// isn't empty.
    pub fn try_from(raw: RawChunk) -> Result<Self, ChunkParseError>
        ensures other { IsErrOf result ChunkParseError.InvalidType ↔ (raw.entry.typ ≢ CHUNK_TYPE) }
        ensures answer { raw.entry.typ ≡ CHUNK_TYPE →
            Exactly reading kind.view (λ a. kind.read raw.entry.value.now ≡ a) result }
        ensures memory { ¬ IsErrOf result ChunkParseError.OutOfMemory }
    {
        if raw.typ != CHUNK_TYPE {
            return Err(ChunkParseError::InvalidType);
        }
        CookieAckChunk::check(raw.value)?;
        Ok(CookieAckChunk::build(raw.flags, raw.value))
    }

    /// Checks the value: `InvalidLength` if and only if it isn't empty.
    pub(crate) fn check(value: &[u8]) -> Result<(), ChunkParseError>
        ensures { Exactly checking (λ u. u) (Tested (kind.read value.now)) result }
    {
        if !value.is_empty() {
            return Err(ChunkParseError::InvalidLength);
        }
        Ok(())
    }

    /// Builds the chunk that the value means.
    pub fn build(_flags: u8, value: &[u8]) -> Self
        requires { IsOk (kind.read value.now) }
        ensures { kind.read value.now ≡ Ok (kind.view result) }
    {
        CookieAckChunk
    }
}

impl SerializableTlv for CookieAckChunk {
    ghost format = { λ c. kind.format (kind.view c) };

    fn serialize_to(&self, output: &mut [u8]) {
        put_solid(CHUNK_TYPE, 0, &[], output);
    }

    fn encoded_size(&self) -> Option<usize> {
        item_size(0)
    }

    fn has_widths(&self) {}
}

impl fmt::Display for CookieAckChunk {
    ghost output = { λ c. Some (kind.format (kind.view c)).text };

    fn fmt<W: fmt::Write>(&self, f: &mut fmt::Formatter<W>) -> fmt::Result {
        write!(f, "COOKIE-ACK")
    }
}
