//! INIT ACK: answers an INIT, and carries a cookie.
//!
//! ```txt
//!  0                   1                   2                   3
//!  0 1 2 3 4 5 6 7 8 9 0 1 2 3 4 5 6 7 8 9 0 1 2 3 4 5 6 7 8 9 0 1
//! +-+-+-+-+-+-+-+-+-+-+-+-+-+-+-+-+-+-+-+-+-+-+-+-+-+-+-+-+-+-+-+-+
//! |    type = 2   |     flags     |             length            |
//! +-+-+-+-+-+-+-+-+-+-+-+-+-+-+-+-+-+-+-+-+-+-+-+-+-+-+-+-+-+-+-+-+
//! |                          initiate tag                         |
//! +-+-+-+-+-+-+-+-+-+-+-+-+-+-+-+-+-+-+-+-+-+-+-+-+-+-+-+-+-+-+-+-+
//! |                   advertised receiver window                  |
//! +-+-+-+-+-+-+-+-+-+-+-+-+-+-+-+-+-+-+-+-+-+-+-+-+-+-+-+-+-+-+-+-+
//! |        outbound streams       |        inbound streams        |
//! +-+-+-+-+-+-+-+-+-+-+-+-+-+-+-+-+-+-+-+-+-+-+-+-+-+-+-+-+-+-+-+-+
//! |                          initial TSN                          |
//! +-+-+-+-+-+-+-+-+-+-+-+-+-+-+-+-+-+-+-+-+-+-+-+-+-+-+-+-+-+-+-+-+
//! |                         parameters ..                         |
//! +-+-+-+-+-+-+-+-+-+-+-+-+-+-+-+-+-+-+-+-+-+-+-+-+-+-+-+-+-+-+-+-+
//! ```

ghost use Rattle.std.specs.Prelude.{◌≡◌, ◌≢◌, ◌↔◌, [], drop, Some, IfOk, IsErrOf, vec_capacity, All, vec_len};
ghost use Rattle.dcsctp_tlv.{specs.Frame.{lenient}, specs.Level.{HasMeaning}, specs.Reading.{Exactly, reading, RowAnswer, Unplaced}, specs.Parameter.{IsTight as IsTightParameter}, proofs.Laws.{listed_lawful}, proofs.ParameterLaws.{parameters_lawful}};
ghost use Rattle.dcsctp_wire.specs.InitAck as kind;
ghost use Rattle.dcsctp_wire.specs.InitFields as init_fields;

use crate::packet::init_chunk::{InitNumbers, init_check};
use dcsctp_chunk::raw_chunk::RawChunk;
use dcsctp_tlv::error::{ChunkParseError, LocatedFault};
use dcsctp_tlv::kind::Kind;
use dcsctp_tlv::list::{listed_encoded_size, put_listed};
use dcsctp_tlv::parameter::{Parameter, parameters_fill};
use dcsctp_tlv::tlv::SerializableTlv;
use dcsctp_tlv::widths::{Widths, are_in_width};
use dcsctp_types::types::Tsn;
use std::alloc::{AllocError, Global};
use std::fmt;

/// The type of INIT ACK.
pub const CHUNK_TYPE: u8 = 2;

/// INIT ACK (RFC 9260 section 3.3.3).
#[derive(Debug, Drop)]
pub struct InitAckChunk {
    /// The verification tag that the other side is to use.
    pub initiate_tag: u32,
    /// The bytes that the sender has room for.
    pub a_rwnd: u32,
    /// How many streams the sender wants to send on.
    pub nbr_outbound_streams: u16,
    /// How many streams the sender can receive on.
    pub nbr_inbound_streams: u16,
    /// The TSN that the sender begins with.
    pub initial_tsn: Tsn,
    /// The State Cookie, and what the sender offers, in their order in the chunk.
    pub parameters: Vec<Parameter>,
}

impl InitAckChunk {
    /// Reads the chunk and its parameters; flags are ignored.
    ///
    /// `InvalidType` if and only if the type is another; `InvalidLength` where the value has fewer
    /// than 16 bytes; else the first fault of the parameters from the left; `OutOfMemory` only
    /// where there is none, and there are parameters.
    pub fn try_from(alloc: Global, raw: RawChunk) -> Result<Self, ChunkParseError>
        ensures other { IsErrOf result ChunkParseError.InvalidType ↔ (raw.entry.typ ≢ CHUNK_TYPE) }
        ensures answer { raw.entry.typ ≡ CHUNK_TYPE →
            Exactly reading kind.view
            (Unplaced (RowAnswer (init_fields.row lenient) raw.entry.value.now)) result }
        ensures memory { IsErrOf result ChunkParseError.OutOfMemory
            → HasMeaning (init_fields.row lenient) raw.entry.value.now
            × (drop 16 raw.entry.value.now ≢ []) }
        ensures reserved { IfOk result (λ c. vec_capacity c.parameters ≡ vec_len c.parameters) }
        ensures tight { IfOk result (λ c. All IsTightParameter c.parameters.items) }
    {
        if raw.typ != CHUNK_TYPE {
            return Err(ChunkParseError::InvalidType);
        }
        InitAckChunk::read(alloc, raw.flags, raw.value)
    }
}

impl Kind for InitAckChunk {
    ghost kind = { kind.kind };

    ghost lawful = { λ strict flags. listed_lawful _ 16 _ _ (parameters_lawful strict) };

    ghost view = { kind.view };

    ghost is_tight = { λ c. (vec_capacity c.parameters ≡ vec_len c.parameters)
        × All IsTightParameter c.parameters.items };

    ghost begun = { λ flags value c. (kind.view c ≡ init_fields.tree_of value [])
        × (c.parameters.items ≡ []) × (vec_len c.parameters ≡ 0)
        × (vec_capacity c.parameters ≡ 0) };

    fn check(_flags: u8, value: &[u8], strict: bool) -> Result<usize, LocatedFault> {
        init_check(value, strict)
    }

    fn begin(alloc: Global, _flags: u8, value: &[u8]) -> Self {
        let numbers = InitNumbers::read(value);
        InitAckChunk {
            initiate_tag: numbers.initiate_tag,
            a_rwnd: numbers.a_rwnd,
            nbr_outbound_streams: numbers.nbr_outbound_streams,
            nbr_inbound_streams: numbers.nbr_inbound_streams,
            initial_tsn: numbers.initial_tsn,
            parameters: Vec::new(alloc),
        }
    }

    fn fill(&mut self, alloc: Global, _flags: u8, value: &[u8]) -> Result<(), AllocError> {
        parameters_fill(&mut self.parameters, alloc, &value[InitNumbers::SIZE..])
    }
}

impl SerializableTlv for InitAckChunk {
    ghost format = { λ c. kind.format (kind.view c) };

    fn serialize_to(&self, output: &mut [u8]) {
        let numbers = InitNumbers {
            initiate_tag: self.initiate_tag,
            a_rwnd: self.a_rwnd,
            nbr_outbound_streams: self.nbr_outbound_streams,
            nbr_inbound_streams: self.nbr_inbound_streams,
            initial_tsn: self.initial_tsn,
        }
        .bytes();
        put_listed(CHUNK_TYPE, 0, &numbers, &self.parameters, output);
    }

    fn encoded_size(&self) -> Option<usize> {
        listed_encoded_size(InitNumbers::SIZE, &self.parameters)
    }

    fn has_widths(&self) {
        let _initiate_tag = self.initiate_tag;
        let _a_rwnd = self.a_rwnd;
        let _nbr_outbound_streams = self.nbr_outbound_streams;
        let _nbr_inbound_streams = self.nbr_inbound_streams;
        self.initial_tsn.is_in_width();
        are_in_width(&self.parameters);
    }
}

impl fmt::Display for InitAckChunk {
    ghost output = { λ c. Some (kind.format (kind.view c)).text };

    fn fmt<W: fmt::Write>(&self, f: &mut fmt::Formatter<W>) -> fmt::Result {
        let tag = self.initiate_tag;
        let tsn = self.initial_tsn;
        write!(f, "INIT-ACK, initiate_tag={tag}, initial_tsn={tsn}")
    }
}
