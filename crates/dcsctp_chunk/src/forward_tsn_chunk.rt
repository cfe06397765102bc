//! FORWARD-TSN: the sender has abandoned messages, and the receiver is to skip them.
//!
//! ```txt
//!  0                   1                   2                   3
//!  0 1 2 3 4 5 6 7 8 9 0 1 2 3 4 5 6 7 8 9 0 1 2 3 4 5 6 7 8 9 0 1
//! +-+-+-+-+-+-+-+-+-+-+-+-+-+-+-+-+-+-+-+-+-+-+-+-+-+-+-+-+-+-+-+-+
//! |  type = 192   |     flags     |    length = 8 + 4 * streams   |
//! +-+-+-+-+-+-+-+-+-+-+-+-+-+-+-+-+-+-+-+-+-+-+-+-+-+-+-+-+-+-+-+-+
//! |                      new cumulative TSN                       |
//! +-+-+-+-+-+-+-+-+-+-+-+-+-+-+-+-+-+-+-+-+-+-+-+-+-+-+-+-+-+-+-+-+
//! |           stream id           |   sequence number, and so on  |
//! +-+-+-+-+-+-+-+-+-+-+-+-+-+-+-+-+-+-+-+-+-+-+-+-+-+-+-+-+-+-+-+-+
//! ```

ghost use Rattle.std.specs.Prelude.{◌≡◌, ◌≢◌, ◌↔◌, ◌≤◌, false, length, Some, IsOk, IsErrOf, IfOk, Ok, vec_len, vec_capacity};
ghost use Rattle.dcsctp_tlv.specs.Reading.{Exactly, reading, checking, Tested};
ghost use Rattle.dcsctp_chunk.specs.SkippedStreams.{SkippedStreamTree, is_by_mid, numbers_at, number_bytes, skipped_stream_view};
ghost use Rattle.dcsctp_chunk.specs.ForwardTsn as kind;

use crate::raw_chunk::RawChunk;
use crate::skipped_streams::{are_by_mid, streams_have_widths};
use dcsctp_tlv::error::ChunkParseError;
use dcsctp_tlv::fields::{Field, fields_from_bytes, put_numbers_and_fields};
use dcsctp_tlv::frame::fields_item_size;
use dcsctp_tlv::number::{put_u16, read_u16_be, read_u32_be, write_u16_be};
use dcsctp_tlv::skipped_stream::SkippedStream;
use dcsctp_tlv::tlv::SerializableTlv;
use dcsctp_tlv::widths::Widths;
use dcsctp_types::api::StreamId;
use dcsctp_types::types::{Ssn, Tsn};
use std::alloc::{AllocError, Global};
use std::fmt;

/// The type of FORWARD-TSN.
pub const CHUNK_TYPE: u8 = 192;

/// The number at the front of a FORWARD-TSN's or an I-FORWARD-TSN's value, before its skipped
/// streams (RFC 3758 section 3.2, RFC 8260 section 2.3.1).
#[derive(Clone, Copy, Debug)]
pub struct ForwardTsnNumbers {
    /// The TSN up to which all is to be taken as received.
    pub new_cumulative_tsn: Tsn,
}

impl ForwardTsnNumbers {
    /// Its bytes.
    pub const SIZE: usize = 4;

    /// The offset of the new cumulative TSN in the value.
    pub const NEW_CUMULATIVE_TSN: usize = 0;

    /// Reads the number of a value, which has at least `SIZE` bytes.
    #[inline(always)]
    pub fn read(value: &[u8]) -> ForwardTsnNumbers
        requires { 4 ≤ length value.now }
        ensures { result ≡ numbers_at value.now }
    {
        ForwardTsnNumbers {
            new_cumulative_tsn: Tsn(read_u32_be(value)),
        }
    }

    /// Returns the number as it is written.
    #[inline(always)]
    pub fn bytes(self) -> [u8; ForwardTsnNumbers::SIZE]
        ensures { result ≡ number_bytes self }
    {
        self.new_cumulative_tsn.0.to_be_bytes()
    }
}

/// How a stream that is skipped by a sequence number is laid out (RFC 3758 section 3.2): two bytes
/// of stream id, and two of the number.
pub struct SsnStreamField;

impl Field for SsnStreamField {
    type Value = SkippedStream;

    ghost Tree = { SkippedStreamTree };

    ghost view = { skipped_stream_view };

    ghost field_at = { kind.stream_at };

    ghost field_bytes = { kind.stream_bytes };

    ghost is_writable = { λ s. is_by_mid (skipped_stream_view s) ≡ false };

    ghost SIZE = { 4 };

    const SIZE: usize = 4;

    #[inline(always)]
    fn read(bytes: &[u8]) -> SkippedStream {
        SkippedStream::ForwardTsn(StreamId(read_u16_be(bytes)), Ssn(read_u16_be(&bytes[2..])))
    }

    fn write(value: &SkippedStream, output: &mut [u8]) {
        match value {
            SkippedStream::ForwardTsn(id, ssn) => {
                write_u16_be(output, id.0);
                put_u16(output, 2, ssn.0);
            }
            // it isn't writable
            SkippedStream::IForwardTsn(..) => {}
        }
    }

    ghost field_length = { λ s own. kind.length-stream (skipped_stream_view s) };
}

/// FORWARD-TSN (RFC 3758 section 3.2).
#[derive(Debug, Drop)]
pub struct ForwardTsnChunk {
    /// The TSN up to which all is to be taken as received.
    pub new_cumulative_tsn: Tsn,
    /// The ordered streams on which messages are skipped. `SkippedStream::IForwardTsn` can't be
    /// written.
    pub skipped_streams: Vec<SkippedStream>,
}

impl ForwardTsnChunk {
    /// Reads the chunk, and copies its skipped streams, each as `SkippedStream::ForwardTsn`; flags
    /// are ignored.
    ///
    /// `InvalidType` if and only if the type is another; `InvalidLength` if and only if the value
    /// has fewer than 4 bytes, or no multiple of 4; `OutOfMemory` only where the streams can't be
    /// copied.
    pub fn try_from(alloc: Global, raw: RawChunk) -> Result<Self, ChunkParseError>
        ensures other { IsErrOf result ChunkParseError.InvalidType ↔ (raw.entry.typ ≢ CHUNK_TYPE) }
        ensures answer { raw.entry.typ ≡ CHUNK_TYPE →
            Exactly reading kind.view (λ a. kind.read raw.entry.value.now ≡ a) result }
        ensures memory { IsErrOf result ChunkParseError.OutOfMemory →
            IsOk (kind.read raw.entry.value.now) }
        ensures tight { IfOk result
            (λ x. vec_capacity x.skipped_streams ≡ vec_len x.skipped_streams) }
    {
        if raw.typ != CHUNK_TYPE {
            return Err(ChunkParseError::InvalidType);
        }
        ForwardTsnChunk::check(raw.value)?;
        Ok(ForwardTsnChunk::build(alloc, raw.flags, raw.value)?)
    }

    /// Checks the value: `InvalidLength` if and only if it has fewer than 4 bytes, or no multiple
    /// of 4.
    pub(crate) fn check(value: &[u8]) -> Result<(), ChunkParseError>
        ensures { Exactly checking (λ u. u) (Tested (kind.read value.now)) result }
    {
        if value.len() < ForwardTsnNumbers::SIZE {
            return Err(ChunkParseError::InvalidLength);
        }
        if !value.len().is_multiple_of(4) {
            return Err(ChunkParseError::InvalidLength);
        }
        Ok(())
    }

    /// Builds the chunk that the value means.
    pub fn build(alloc: Global, _flags: u8, value: &[u8]) -> Result<Self, AllocError>
        requires { IsOk (kind.read value.now) }
        ensures meant { IfOk result (λ x. kind.read value.now ≡ Ok (kind.view x)) }
        ensures tight { IfOk result
            (λ x. vec_capacity x.skipped_streams ≡ vec_len x.skipped_streams) }
    {
        let count = (value.len() - ForwardTsnNumbers::SIZE) / 4;
        let skipped_streams = fields_from_bytes::<SsnStreamField>(
            alloc,
            &value[ForwardTsnNumbers::SIZE..],
            count,
        )?;
        Ok(ForwardTsnChunk {
            new_cumulative_tsn: ForwardTsnNumbers::read(value).new_cumulative_tsn,
            skipped_streams,
        })
    }
}

#[tactic(auto, using(crate::proofs::SkippedStreams::count_of_streams))]
impl SerializableTlv for ForwardTsnChunk {
    ghost format = { λ c. kind.format (kind.view c) };

    /// Each stream is skipped by a sequence number.
    ghost placed = { λ c. (kind.format (kind.view c)).IsWellFormed };

    fn serialize_to(&self, output: &mut [u8]) {
        let leading = [self.new_cumulative_tsn.0];
        put_numbers_and_fields::<SsnStreamField>(
            CHUNK_TYPE,
            0,
            &leading,
            &self.skipped_streams,
            output,
        );
    }

    fn encoded_size(&self) -> Option<usize> {
        if !are_by_mid(false, &self.skipped_streams) {
            return None;
        }
        fields_item_size(ForwardTsnNumbers::SIZE, 4, self.skipped_streams.len())
    }

    fn has_widths(&self) {
        self.new_cumulative_tsn.is_in_width();
        streams_have_widths(&self.skipped_streams);
    }
}

impl fmt::Display for ForwardTsnChunk {
    ghost output = { λ c. Some (kind.format (kind.view c)).text };

    fn fmt<W: fmt::Write>(&self, f: &mut fmt::Formatter<W>) -> fmt::Result {
        let tsn = self.new_cumulative_tsn;
        write!(f, "FORWARD-TSN, new_cumulative_tsn={tsn}")
    }
}
