//! ERROR: reports what was wrong, and ends nothing by itself.
//!
//! ```txt
//!  0                   1                   2                   3
//!  0 1 2 3 4 5 6 7 8 9 0 1 2 3 4 5 6 7 8 9 0 1 2 3 4 5 6 7 8 9 0 1
//! +-+-+-+-+-+-+-+-+-+-+-+-+-+-+-+-+-+-+-+-+-+-+-+-+-+-+-+-+-+-+-+-+
//! |    type = 9   |     flags     |             length            |
//! +-+-+-+-+-+-+-+-+-+-+-+-+-+-+-+-+-+-+-+-+-+-+-+-+-+-+-+-+-+-+-+-+
//! |                 error causes, one at least ..                 |
//! +-+-+-+-+-+-+-+-+-+-+-+-+-+-+-+-+-+-+-+-+-+-+-+-+-+-+-+-+-+-+-+-+
//! ```

ghost use Rattle.std.specs.Prelude.{◌≡◌, ◌≢◌, ◌↔◌, ◌+◌, [], length, Some, IfOk, IsErrOf, vec_capacity, All, vec_len};
ghost use Rattle.dcsctp_tlv.{specs.Frame.{lenient}, specs.Level.{HasMeaning}, specs.Reading.{Exactly, reading, RowAnswer, Unplaced}, proofs.Laws.{listed_lawful}};
ghost use Rattle.dcsctp_cause.{specs.Cause.{IsTight as IsTightCause}, proofs.CauseLaws.{causes_lawful}};
ghost use Rattle.dcsctp_wire.specs.Error as kind;

use dcsctp_cause::error_causes::{ErrorCause, error_cause_fill};
use dcsctp_chunk::raw_chunk::RawChunk;
use dcsctp_tlv::error::{ChunkParseError, LocatedFault};
use dcsctp_tlv::kind::Kind;
use dcsctp_tlv::list::{listed_encoded_size, put_listed};
use dcsctp_tlv::reader::listed_check;
use dcsctp_tlv::tlv::SerializableTlv;
use dcsctp_tlv::widths::are_in_width;
use std::alloc::{AllocError, Global};
use std::fmt;

/// The type of ERROR.
pub const CHUNK_TYPE: u8 = 9;

/// The bytes of the header.
pub const HEADER_SIZE: usize = 4;

/// ERROR (RFC 9260 section 3.3.10).
///
/// An empty list can be written, but isn't read.
#[derive(Debug, Drop)]
pub struct ErrorChunk {
    /// What went wrong; a chunk that was read has at least one.
    pub error_causes: Vec<ErrorCause>,
}

impl ErrorChunk {
    /// Builds the chunk without causes. Does not allocate.
    pub fn new(alloc: Global) -> ErrorChunk
        ensures error_causes { result.error_causes.items ≡ [] }
        ensures memory { vec_capacity result.error_causes ≡ 0 }
    {
        ErrorChunk {
            error_causes: Vec::new(alloc),
        }
    }

    /// Reads the chunk and its causes; flags are ignored.
    ///
    /// `InvalidType` if and only if the type is another; `InvalidLength` where there are no causes;
    /// else the first fault of the causes from the left; `OutOfMemory` only where there is none.
    pub fn try_from(alloc: Global, raw: RawChunk) -> Result<Self, ChunkParseError>
        ensures other { IsErrOf result ChunkParseError.InvalidType ↔ (raw.entry.typ ≢ CHUNK_TYPE) }
        ensures answer { raw.entry.typ ≡ CHUNK_TYPE →
            Exactly reading kind.view (Unplaced (RowAnswer (kind.row lenient) raw.entry.value.now)) result }
        ensures memory { IsErrOf result ChunkParseError.OutOfMemory
            → HasMeaning (kind.row lenient) raw.entry.value.now }
        ensures reserved { IfOk result (λ c. vec_capacity c.error_causes ≡ vec_len c.error_causes) }
        ensures tight { IfOk result (λ c. All IsTightCause c.error_causes.items) }
    {
        if raw.typ != CHUNK_TYPE {
            return Err(ChunkParseError::InvalidType);
        }
        ErrorChunk::read(alloc, raw.flags, raw.value)
    }
}

impl Kind for ErrorChunk {
    ghost kind = { kind.kind };

    ghost lawful = { λ strict flags. listed_lawful _ 0 _ _ (causes_lawful strict) };

    ghost view = { kind.view };

    ghost is_tight = { λ c. (vec_capacity c.error_causes ≡ vec_len c.error_causes)
        × All IsTightCause c.error_causes.items };

    ghost begun = { λ flags value c. (c.error_causes.items ≡ [])
        × (vec_len c.error_causes ≡ 0) × (vec_capacity c.error_causes ≡ 0) };

    fn check(_flags: u8, value: &[u8], strict: bool) -> Result<usize, LocatedFault> {
        let lacks_causes = value.is_empty();
        if lacks_causes {
            return Err(LocatedFault::at_front(ChunkParseError::InvalidLength));
        }
        listed_check::<ErrorCause>(value, 0, strict)
    }

    fn begin(alloc: Global, _flags: u8, _value: &[u8]) -> Self {
        ErrorChunk {
            error_causes: Vec::new(alloc),
        }
    }

    fn fill(&mut self, alloc: Global, _flags: u8, value: &[u8]) -> Result<(), AllocError> {
        error_cause_fill(&mut self.error_causes, alloc, value)
    }
}

impl SerializableTlv for ErrorChunk {
    ghost format = { λ c. kind.format (kind.view c) };

    fn serialize_to(&self, output: &mut [u8]) {
        put_listed(CHUNK_TYPE, 0, &[], &self.error_causes, output);
    }

    fn encoded_size(&self) -> Option<usize> {
        listed_encoded_size(0, &self.error_causes)
    }

    fn has_widths(&self) {
        are_in_width(&self.error_causes);
    }
}

impl fmt::Display for ErrorChunk {
    ghost output = { λ c. Some (kind.format (kind.view c)).text };

    fn fmt<W: fmt::Write>(&self, f: &mut fmt::Formatter<W>) -> fmt::Result {
        write!(f, "ERROR")
    }
}
