//! SHUTDOWN: the sender has no more data, and reports what it has received.
//!
//! ```txt
//!  0                   1                   2                   3
//!  0 1 2 3 4 5 6 7 8 9 0 1 2 3 4 5 6 7 8 9 0 1 2 3 4 5 6 7 8 9 0 1
//! +-+-+-+-+-+-+-+-+-+-+-+-+-+-+-+-+-+-+-+-+-+-+-+-+-+-+-+-+-+-+-+-+
//! |   type = 7    |     flags     |          length = 8           |
//! +-+-+-+-+-+-+-+-+-+-+-+-+-+-+-+-+-+-+-+-+-+-+-+-+-+-+-+-+-+-+-+-+
//! |                      cumulative TSN ack                       |
//! +-+-+-+-+-+-+-+-+-+-+-+-+-+-+-+-+-+-+-+-+-+-+-+-+-+-+-+-+-+-+-+-+
//! ```

ghost use Rattle.std.specs.{Prelude.{◌≡◌, ◌≢◌, ◌↔◌, Some, Ok, IsOk, IsErrOf}, Int.{to_be_bytes}};
ghost use Rattle.dcsctp_tlv.specs.Reading.{Exactly, reading, checking, Tested};
ghost use Rattle.dcsctp_chunk.specs.Shutdown as kind;

use crate::raw_chunk::RawChunk;
use dcsctp_tlv::error::ChunkParseError;
use dcsctp_tlv::frame::{item_size, put_solid};
use dcsctp_tlv::number::read_u32_be;
use dcsctp_tlv::tlv::SerializableTlv;
use dcsctp_tlv::widths::Widths;
use dcsctp_types::types::Tsn;
use std::fmt;

/// The type of SHUTDOWN.
pub const CHUNK_TYPE: u8 = 7;

/// SHUTDOWN (RFC 9260 section 3.3.8).
#[derive(Debug, Drop)]
pub struct ShutdownChunk {
    /// The last TSN that was received in sequence.
    pub cumulative_tsn_ack: Tsn,
}

impl ShutdownChunk {
    /// Reads the chunk; flags are ignored, and no memory is taken.
    ///
    /// `InvalidType` if and only if the type is another; `InvalidLength` if and only if the value
    /// hasn't 4 bytes.
    pub fn try_from(raw: RawChunk) -> Result<Self, ChunkParseError>
        ensures other { IsErrOf result ChunkParseError.InvalidType ↔ (raw.entry.typ ≢ CHUNK_TYPE) }
        ensures answer { raw.entry.typ ≡ CHUNK_TYPE →
            Exactly reading kind.view (λ a. kind.read raw.entry.value.now ≡ a) result }
        ensures memory { ¬ IsErrOf result ChunkParseError.OutOfMemory }
    {
        if raw.typ != CHUNK_TYPE {
            return Err(ChunkParseError::InvalidType);
        }
        ShutdownChunk::check(raw.value)?;
        Ok(ShutdownChunk::build(raw.flags, raw.value))
    }

    /// Checks the value: `InvalidLength` if and only if it hasn't 4 bytes.
    pub(crate) fn check(value: &[u8]) -> Result<(), ChunkParseError>
        ensures { Exactly checking (λ u. u) (Tested (kind.read value.now)) result }
    {
        if value.len() != 4 {
            return Err(ChunkParseError::InvalidLength);
        }
        Ok(())
    }

    /// Builds the chunk that the value means.
    pub fn build(_flags: u8, value: &[u8]) -> Self
        requires { IsOk (kind.read value.now) }
        ensures { kind.read value.now ≡ Ok (kind.view result) }
    {
        ShutdownChunk {
            cumulative_tsn_ack: Tsn(read_u32_be(value)),
        }
    }
}

impl SerializableTlv for ShutdownChunk {
    ghost format = { λ c. kind.format (kind.view c) };

    fn serialize_to(&self, output: &mut [u8]) {
        put_solid(
            CHUNK_TYPE,
            0,
            &self.cumulative_tsn_ack.0.to_be_bytes(),
            output,
        );
    }

    fn encoded_size(&self) -> Option<usize> {
        item_size(4)
    }

    fn has_widths(&self) {
        self.cumulative_tsn_ack.is_in_width();
    }
}

impl fmt::Display for ShutdownChunk {
    ghost output = { λ c. Some (kind.format (kind.view c)).text };

    fn fmt<W: fmt::Write>(&self, f: &mut fmt::Formatter<W>) -> fmt::Result {
        let tsn = self.cumulative_tsn_ack;
        write!(f, "SHUTDOWN cumulative_tsn_ack={tsn}")
    }
}
