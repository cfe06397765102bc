//! HEARTBEAT ACK: hands the information of a HEARTBEAT back.
//!
//! ```txt
//!  0                   1                   2                   3
//!  0 1 2 3 4 5 6 7 8 9 0 1 2 3 4 5 6 7 8 9 0 1 2 3 4 5 6 7 8 9 0 1
//! +-+-+-+-+-+-+-+-+-+-+-+-+-+-+-+-+-+-+-+-+-+-+-+-+-+-+-+-+-+-+-+-+
//! |    type = 5   |     flags     |             length            |
//! +-+-+-+-+-+-+-+-+-+-+-+-+-+-+-+-+-+-+-+-+-+-+-+-+-+-+-+-+-+-+-+-+
//! |                         parameters ..                         |
//! +-+-+-+-+-+-+-+-+-+-+-+-+-+-+-+-+-+-+-+-+-+-+-+-+-+-+-+-+-+-+-+-+
//! ```

ghost use Rattle.std.specs.Prelude.{◌≡◌, ◌≢◌, ◌↔◌, ◌+◌, [], length, Some, IfOk, IsErrOf, vec_capacity, All, vec_len};
ghost use Rattle.dcsctp_tlv.{specs.Frame.{lenient}, specs.Level.{HasMeaning}, specs.Reading.{Exactly, reading, RowAnswer, Unplaced}, specs.Parameter.{IsTight as IsTightParameter}, proofs.Laws.{listed_lawful}, proofs.ParameterLaws.{parameters_lawful}};
ghost use Rattle.dcsctp_wire.specs.HeartbeatAck as kind;
ghost use Rattle.dcsctp_wire.specs.ParameterList as parameter_list;

use crate::packet::parameter_list::parameter_list_check;
use dcsctp_chunk::raw_chunk::RawChunk;
use dcsctp_tlv::error::{ChunkParseError, LocatedFault};
use dcsctp_tlv::kind::Kind;
use dcsctp_tlv::list::{listed_encoded_size, put_listed};
use dcsctp_tlv::parameter::{Parameter, parameters_fill};
use dcsctp_tlv::tlv::SerializableTlv;
use dcsctp_tlv::widths::are_in_width;
use std::alloc::{AllocError, Global};
use std::fmt;

/// The type of HEARTBEAT ACK.
pub const CHUNK_TYPE: u8 = 5;

/// The bytes of the header.
pub const HEADER_SIZE: usize = 4;

/// HEARTBEAT ACK (RFC 9260 section 3.3.6).
#[derive(Debug, Drop)]
pub struct HeartbeatAckChunk {
    /// Those of the HEARTBEAT, sent back.
    pub parameters: Vec<Parameter>,
}

impl HeartbeatAckChunk {
    /// Builds the chunk without parameters. Does not allocate.
    pub fn new(alloc: Global) -> HeartbeatAckChunk
        ensures parameters { result.parameters.items ≡ [] }
        ensures memory { vec_capacity result.parameters ≡ 0 }
    {
        HeartbeatAckChunk {
            parameters: Vec::new(alloc),
        }
    }

    /// Reads the chunk and its parameters, if it has any; flags are ignored.
    ///
    /// `InvalidType` if and only if the type is another; else the first fault of the parameters
    /// from the left; `OutOfMemory` only where there is none, and there are parameters.
    pub fn try_from(alloc: Global, raw: RawChunk) -> Result<Self, ChunkParseError>
        ensures other { IsErrOf result ChunkParseError.InvalidType ↔ (raw.entry.typ ≢ CHUNK_TYPE) }
        ensures answer { raw.entry.typ ≡ CHUNK_TYPE →
            Exactly reading kind.view
            (Unplaced (RowAnswer (parameter_list.row lenient) raw.entry.value.now)) result }
        ensures memory { IsErrOf result ChunkParseError.OutOfMemory
            → HasMeaning (parameter_list.row lenient) raw.entry.value.now
            × (raw.entry.value.now ≢ []) }
        ensures reserved { IfOk result (λ c. vec_capacity c.parameters ≡ vec_len c.parameters) }
        ensures tight { IfOk result (λ c. All IsTightParameter c.parameters.items) }
    {
        if raw.typ != CHUNK_TYPE {
            return Err(ChunkParseError::InvalidType);
        }
        HeartbeatAckChunk::read(alloc, raw.flags, raw.value)
    }
}

impl Kind for HeartbeatAckChunk {
    ghost kind = { kind.kind };

    ghost lawful = { λ strict flags. listed_lawful _ 0 _ _ (parameters_lawful strict) };

    ghost view = { kind.view };

    ghost is_tight = { λ c. (vec_capacity c.parameters ≡ vec_len c.parameters)
        × All IsTightParameter c.parameters.items };

    ghost begun = { λ flags value c. (c.parameters.items ≡ [])
        × (vec_len c.parameters ≡ 0) × (vec_capacity c.parameters ≡ 0) };

    fn check(_flags: u8, value: &[u8], strict: bool) -> Result<usize, LocatedFault> {
        parameter_list_check(value, strict)
    }

    fn begin(alloc: Global, _flags: u8, _value: &[u8]) -> Self {
        HeartbeatAckChunk::new(alloc)
    }

    fn fill(&mut self, alloc: Global, _flags: u8, value: &[u8]) -> Result<(), AllocError> {
        parameters_fill(&mut self.parameters, alloc, value)
    }
}

impl SerializableTlv for HeartbeatAckChunk {
    ghost format = { λ c. kind.format (kind.view c) };

    fn serialize_to(&self, output: &mut [u8]) {
        put_listed(CHUNK_TYPE, 0, &[], &self.parameters, output);
    }

    fn encoded_size(&self) -> Option<usize> {
        listed_encoded_size(0, &self.parameters)
    }

    fn has_widths(&self) {
        are_in_width(&self.parameters);
    }
}

impl fmt::Display for HeartbeatAckChunk {
    ghost output = { λ c. Some (kind.format (kind.view c)).text };

    fn fmt<W: fmt::Write>(&self, f: &mut fmt::Formatter<W>) -> fmt::Result {
        write!(f, "HEARTBEAT-ACK")
    }
}
