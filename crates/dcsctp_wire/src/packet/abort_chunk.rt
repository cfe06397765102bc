//! ABORT: ends an association at once, and may say why.
//!
//! ```txt
//!  0                   1                   2                   3
//!  0 1 2 3 4 5 6 7 8 9 0 1 2 3 4 5 6 7 8 9 0 1 2 3 4 5 6 7 8 9 0 1
//! +-+-+-+-+-+-+-+-+-+-+-+-+-+-+-+-+-+-+-+-+-+-+-+-+-+-+-+-+-+-+-+-+
//! |    type = 6   |  reserved   |T|             length            |
//! +-+-+-+-+-+-+-+-+-+-+-+-+-+-+-+-+-+-+-+-+-+-+-+-+-+-+-+-+-+-+-+-+
//! |                       error causes ..                         |
//! +-+-+-+-+-+-+-+-+-+-+-+-+-+-+-+-+-+-+-+-+-+-+-+-+-+-+-+-+-+-+-+-+
//! ```

ghost use Rattle.std.specs.Prelude.{◌≡◌, ◌≢◌, ◌↔◌, ◌+◌, [], false, length, Some, IfOk, IsErrOf, vec_capacity, All, vec_len};
ghost use Rattle.dcsctp_tlv.{specs.Frame.{lenient}, specs.Level.{HasMeaning}, specs.Reading.{Exactly, reading, RowAnswer, Unplaced}, proofs.Laws.{listed_lawful}};
ghost use Rattle.dcsctp_cause.{specs.Cause.{IsTight as IsTightCause}, proofs.CauseLaws.{causes_lawful}};
ghost use Rattle.dcsctp_chunk.specs.Flags.{is_set as flag_is_set};
ghost use Rattle.dcsctp_wire.specs.Abort as kind;

use dcsctp_cause::error_causes::{ErrorCause, error_cause_fill};
use dcsctp_chunk::flags::{is_set, one_flag};
use dcsctp_chunk::raw_chunk::RawChunk;
use dcsctp_tlv::error::{ChunkParseError, LocatedFault};
use dcsctp_tlv::kind::Kind;
use dcsctp_tlv::list::{listed_encoded_size, put_listed};
use dcsctp_tlv::reader::listed_check;
use dcsctp_tlv::tlv::SerializableTlv;
use dcsctp_tlv::widths::are_in_width;
use std::alloc::{AllocError, Global};
use std::fmt;

/// The type of ABORT.
pub const CHUNK_TYPE: u8 = 6;

/// ABORT (RFC 9260 section 3.3.7).
#[derive(Debug, Drop)]
pub struct AbortChunk {
    /// Whether the packet's verification tag is reflected, the T bit: it is the one that the
    /// receiver writes into its own packets (RFC 9260 section 8.5.1). A sender without an
    /// association sets it.
    pub tag_reflected: bool,
    /// Why; none, where the sender gives no reason.
    pub error_causes: Vec<ErrorCause>,
}

impl AbortChunk {
    /// Builds the chunk without causes, tag not reflected. Does not allocate.
    pub fn new(alloc: Global) -> AbortChunk
        ensures tag_reflected { result.tag_reflected ≡ false }
        ensures error_causes { result.error_causes.items ≡ [] }
        ensures memory { vec_capacity result.error_causes ≡ 0 }
    {
        AbortChunk {
            tag_reflected: false,
            error_causes: Vec::new(alloc),
        }
    }

    /// Reads the chunk and its causes, if it has any; flags but the T bit are ignored.
    ///
    /// `InvalidType` if and only if the type is another; else the first fault of the causes from
    /// the left; `OutOfMemory` only where there is none, and there are causes.
    pub fn try_from(alloc: Global, raw: RawChunk) -> Result<Self, ChunkParseError>
        ensures other { IsErrOf result ChunkParseError.InvalidType ↔ (raw.entry.typ ≢ CHUNK_TYPE) }
        ensures answer { raw.entry.typ ≡ CHUNK_TYPE →
            Exactly reading kind.view
            (Unplaced (RowAnswer (kind.row lenient raw.entry.flags) raw.entry.value.now)) result }
        ensures memory { IsErrOf result ChunkParseError.OutOfMemory
            → HasMeaning (kind.row lenient raw.entry.flags) raw.entry.value.now
            × (raw.entry.value.now ≢ []) }
        ensures reserved { IfOk result (λ c. vec_capacity c.error_causes ≡ vec_len c.error_causes) }
        ensures tight { IfOk result (λ c. All IsTightCause c.error_causes.items) }
    {
        if raw.typ != CHUNK_TYPE {
            return Err(ChunkParseError::InvalidType);
        }
        AbortChunk::read(alloc, raw.flags, raw.value)
    }
}

impl Kind for AbortChunk {
    ghost kind = { kind.kind };

    ghost lawful = { λ strict flags. listed_lawful _ 0 _ _ (causes_lawful strict) };

    ghost view = { kind.view };

    ghost is_tight = { λ c. (vec_capacity c.error_causes ≡ vec_len c.error_causes)
        × All IsTightCause c.error_causes.items };

    ghost begun = { λ flags value c. (c.tag_reflected ≡ flag_is_set flags 0)
        × (c.error_causes.items ≡ []) × (vec_len c.error_causes ≡ 0)
        × (vec_capacity c.error_causes ≡ 0) };

    fn check(flags: u8, value: &[u8], strict: bool) -> Result<usize, LocatedFault> {
        listed_check::<ErrorCause>(value, 0, strict)
    }

    fn begin(alloc: Global, flags: u8, _value: &[u8]) -> Self {
        AbortChunk {
            tag_reflected: is_set(flags, 0),
            error_causes: Vec::new(alloc),
        }
    }

    fn fill(&mut self, alloc: Global, _flags: u8, value: &[u8]) -> Result<(), AllocError> {
        error_cause_fill(&mut self.error_causes, alloc, value)
    }
}

impl SerializableTlv for AbortChunk {
    ghost format = { λ c. kind.format (kind.view c) };

    fn serialize_to(&self, output: &mut [u8]) {
        let flags = one_flag(self.tag_reflected);
        put_listed(CHUNK_TYPE, flags, &[], &self.error_causes, output);
    }

    fn encoded_size(&self) -> Option<usize> {
        listed_encoded_size(0, &self.error_causes)
    }

    fn has_widths(&self) {
        are_in_width(&self.error_causes);
    }
}

impl fmt::Display for AbortChunk {
    ghost output = { λ c. Some (kind.format (kind.view c)).text };

    fn fmt<W: fmt::Write>(&self, f: &mut fmt::Formatter<W>) -> fmt::Result {
        let tag_reflected = self.tag_reflected;
        write!(f, "ABORT, tag_reflected={tag_reflected}")
    }
}
