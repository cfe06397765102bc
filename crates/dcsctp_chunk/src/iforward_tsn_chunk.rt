//! I-FORWARD-TSN: the sender has abandoned messages, and the receiver is to skip them.
//!
//! ```txt
//!  0                   1                   2                   3
//!  0 1 2 3 4 5 6 7 8 9 0 1 2 3 4 5 6 7 8 9 0 1 2 3 4 5 6 7 8 9 0 1
//! +-+-+-+-+-+-+-+-+-+-+-+-+-+-+-+-+-+-+-+-+-+-+-+-+-+-+-+-+-+-+-+-+
//! |  type = 194   |     flags     |    length = 8 + 8 * streams   |
//! +-+-+-+-+-+-+-+-+-+-+-+-+-+-+-+-+-+-+-+-+-+-+-+-+-+-+-+-+-+-+-+-+
//! |                      new cumulative TSN                       |
//! +-+-+-+-+-+-+-+-+-+-+-+-+-+-+-+-+-+-+-+-+-+-+-+-+-+-+-+-+-+-+-+-+
//! |           stream id           |          reserved           |U|
//! +-+-+-+-+-+-+-+-+-+-+-+-+-+-+-+-+-+-+-+-+-+-+-+-+-+-+-+-+-+-+-+-+
//! |             message id, and so on for each stream             |
//! +-+-+-+-+-+-+-+-+-+-+-+-+-+-+-+-+-+-+-+-+-+-+-+-+-+-+-+-+-+-+-+-+
//! ```
//!
//! U says that the stream's unordered messages are skipped.

ghost use Rattle.std.specs.Prelude.{◌≡◌, ◌≢◌, ◌↔◌, true, Some, IsOk, IsErrOf, IfOk, Ok, vec_len, vec_capacity};
ghost use Rattle.dcsctp_tlv.specs.Reading.{Exactly, reading, checking, Tested};
ghost use Rattle.dcsctp_chunk.specs.SkippedStreams.{SkippedStreamTree, is_by_mid, skipped_stream_view};
ghost use Rattle.dcsctp_chunk.specs.IForwardTsn as kind;

use crate::forward_tsn_chunk::ForwardTsnNumbers;
use crate::raw_chunk::RawChunk;
use crate::skipped_streams::{are_by_mid, streams_have_widths};
use dcsctp_tlv::error::ChunkParseError;
use dcsctp_tlv::fields::{Field, fields_from_bytes, put_numbers_and_fields};
use dcsctp_tlv::frame::fields_item_size;
use dcsctp_tlv::number::{put_u16, put_u32, read_u16_be, read_u32_be, write_u16_be};
use dcsctp_tlv::skipped_stream::SkippedStream;
use dcsctp_tlv::tlv::SerializableTlv;
use dcsctp_tlv::widths::Widths;
use dcsctp_types::api::StreamId;
use dcsctp_types::types::{Mid, StreamKey, Tsn};
use std::alloc::{AllocError, Global};
use std::fmt;

/// The type of I-FORWARD-TSN.
pub const CHUNK_TYPE: u8 = 194;

/// How a stream that is skipped by a message id is laid out (RFC 8260 section 2.3.1): two bytes of
/// stream id, two whose lowest bit says unordered, and four of message id.
pub struct MidStreamField;

impl Field for MidStreamField {
    type Value = SkippedStream;

    ghost Tree = { SkippedStreamTree };

    ghost view = { skipped_stream_view };

    ghost field_at = { kind.stream_at };

    ghost field_bytes = { kind.stream_bytes };

    ghost is_writable = { λ s. is_by_mid (skipped_stream_view s) ≡ true };

    ghost SIZE = { 8 };

    const SIZE: usize = 8;

    #[inline(always)]
    fn read(bytes: &[u8]) -> SkippedStream {
        let id = StreamId(read_u16_be(bytes));
        let is_unordered = read_u16_be(&bytes[2..]) % 2 == 1;
        let mid = Mid(read_u32_be(&bytes[4..]));
        SkippedStream::IForwardTsn(StreamKey::new(is_unordered, id), mid)
    }

    fn write(value: &SkippedStream, output: &mut [u8]) {
        match value {
            // it isn't writable
            SkippedStream::ForwardTsn(..) => {}
            SkippedStream::IForwardTsn(key, mid) => {
                write_u16_be(output, key.id().0);
                put_u16(output, 2, key.is_unordered() as u16);
                put_u32(output, 4, mid.0);
            }
        }
    }

    ghost field_length = { λ s own. kind.length-stream (skipped_stream_view s) };
}

/// I-FORWARD-TSN (RFC 8260 section 2.3.1).
#[derive(Debug, Drop)]
pub struct IForwardTsnChunk {
    /// The TSN up to which all is to be taken as received.
    pub new_cumulative_tsn: Tsn,
    /// The streams on which messages are skipped. `SkippedStream::ForwardTsn` can't be written.
    pub skipped_streams: Vec<SkippedStream>,
}

impl IForwardTsnChunk {
    /// Reads the chunk, and copies its skipped streams, each as `SkippedStream::IForwardTsn`;
    /// flags are ignored.
    ///
    /// `InvalidType` if and only if the type is another; `InvalidLength` if and only if the value
    /// has fewer than 4 bytes, or no multiple of 8 after the first 4; `OutOfMemory` only where the
    /// streams can't be copied.
    pub fn try_from(alloc: Global, raw: RawChunk) -> Result<Self, ChunkParseError>
        ensures other { IsErrOf result ChunkParseError.InvalidType ↔ (raw.entry.typ ≢ CHUNK_TYPE) }
        ensures answer { raw.entry.typ ≡ CHUNK_TYPE →
            Exactly reading kind.view (λ a. kind.read raw.entry.value.now ≡ a) result }
        ensures memory { IsErrOf result ChunkParseError.OutOfMemory →
            IsOk (kind.read raw.entry.value.now) }
        ensures tight { IfOk result
            (λ x. vec_capacity x.skipped_streams ≡ vec_len x.skipped_streams) }
    {
        if raw.typ != CHUNK_TYPE {
            return Err(ChunkParseError::InvalidType);
        }
        IForwardTsnChunk::check(raw.value)?;
        Ok(IForwardTsnChunk::build(alloc, raw.flags, raw.value)?)
    }

    /// Checks the value: `InvalidLength` if and only if it has fewer than 4 bytes, or no multiple
    /// of 8 after the first 4.
    pub(crate) fn check(value: &[u8]) -> Result<(), ChunkParseError>
        ensures { Exactly checking (λ u. u) (Tested (kind.read value.now)) result }
    {
        if value.len() < ForwardTsnNumbers::SIZE {
            return Err(ChunkParseError::InvalidLength);
        }
        if !(value.len() - ForwardTsnNumbers::SIZE).is_multiple_of(8) {
            return Err(ChunkParseError::InvalidLength);
        }
        Ok(())
    }

    /// Builds the chunk that the value means.
    pub fn build(alloc: Global, _flags: u8, value: &[u8]) -> Result<Self, AllocError>
        requires { IsOk (kind.read value.now) }
        ensures meant { IfOk result (λ x. kind.read value.now ≡ Ok (kind.view x)) }
        ensures tight { IfOk result
            (λ x. vec_capacity x.skipped_streams ≡ vec_len x.skipped_streams) }
    {
        let count = (value.len() - ForwardTsnNumbers::SIZE) / 8;
        let skipped_streams = fields_from_bytes::<MidStreamField>(
            alloc,
            &value[ForwardTsnNumbers::SIZE..],
            count,
        )?;
        Ok(IForwardTsnChunk {
            new_cumulative_tsn: ForwardTsnNumbers::read(value).new_cumulative_tsn,
            skipped_streams,
        })
    }
}

#[tactic(auto, using(crate::proofs::SkippedStreams::count_of_streams))]
impl SerializableTlv for IForwardTsnChunk {
    ghost format = { λ c. kind.format (kind.view c) };

    /// Each stream is skipped by a message id.
    ghost placed = { λ c. (kind.format (kind.view c)).IsWellFormed };

    fn serialize_to(&self, output: &mut [u8]) {
        let leading = [self.new_cumulative_tsn.0];
        put_numbers_and_fields::<MidStreamField>(
            CHUNK_TYPE,
            0,
            &leading,
            &self.skipped_streams,
            output,
        );
    }

    fn encoded_size(&self) -> Option<usize> {
        if !are_by_mid(true, &self.skipped_streams) {
            return None;
        }
        fields_item_size(ForwardTsnNumbers::SIZE, 8, self.skipped_streams.len())
    }

    fn has_widths(&self) {
        self.new_cumulative_tsn.is_in_width();
        streams_have_widths(&self.skipped_streams);
    }
}

impl fmt::Display for IForwardTsnChunk {
    ghost output = { λ c. Some (kind.format (kind.view c)).text };

    fn fmt<W: fmt::Write>(&self, f: &mut fmt::Formatter<W>) -> fmt::Result {
        let tsn = self.new_cumulative_tsn;
        write!(f, "I-FORWARD-TSN, new_cumulative_tsn={tsn}")
    }
}
