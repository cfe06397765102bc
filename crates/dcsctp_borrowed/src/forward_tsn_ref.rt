//! FORWARD-TSN and I-FORWARD-TSN, in a packet's bytes.

ghost use Rattle.std.specs.{Prelude.{◌≡◌, ◌<◌, ◌≤◌, ◌*◌, ℕ, Bool, List, if◌then◌else◌, IsOk, Some, option_map, length, slice_get}, Iterator.{YieldsFirstBy, item_count}, Result.{result_ok}};
ghost use Rattle.dcsctp_chunk.specs.ForwardTsn as forward_kind;
ghost use Rattle.dcsctp_chunk.specs.IForwardTsn as iforward_kind;
ghost use Rattle.dcsctp_chunk.specs.SkippedStreams.{SkippedStreamTree, Tree, skipped_stream_view};
ghost use Rattle.dcsctp_wire.specs.Chunk.{ChunkTree};
ghost use Rattle.dcsctp_borrowed.specs.{RawChunks.{RawMeans}, SkippedStreams.{streams_at, forward_of, read_forward}};

use dcsctp_chunk::forward_tsn_chunk::{self, ForwardTsnNumbers, SsnStreamField};
use dcsctp_chunk::iforward_tsn_chunk::{self, MidStreamField};
use dcsctp_tlv::fields::Field;
use dcsctp_tlv::skipped_stream::SkippedStream;
use dcsctp_types::types::Tsn;
use dcsctp_wire::packet::chunk::RawChunk;
use std::marker::Model;

/// A FORWARD-TSN (RFC 3758 section 3.2) or an I-FORWARD-TSN (RFC 8260 section 2.3.1) whose skipped
/// streams stay where they lie in the packet.
///
/// A contract sees its TSN and its streams, as of a `ForwardTsnChunk` or an `IForwardTsnChunk`.
#[derive(Clone, Debug, Drop)]
pub struct ForwardTsnRef<'a> {
    new_cumulative_tsn: Tsn,
    /// Whether it is an I-FORWARD-TSN, whose streams are skipped by a message id.
    by_mid: bool,
    count: usize,
    streams: &'a [u8],
}

impl<'a> Model for ForwardTsnRef<'a> {
    ghost Value = { Tree };

    ghost view = { λ f. record {
      tsn = f.new_cumulative_tsn.0;
      streams = streams_at f.by_mid f.count f.streams.now;
    } };

    ghost invariant = { λ f. (if f.by_mid then 8 else 4) * f.count ≤ length f.streams.now };
}

#[tactic(auto, using(crate::proofs::FieldLists::stream_count))]
impl<'a> ForwardTsnRef<'a> {
    /// Reads FORWARD-TSN or I-FORWARD-TSN, without a copy; flags are ignored. `None` if and only if
    /// the chunk has another type, or a value that isn't 4 bytes and whole streams: of 4 bytes each
    /// (RFC 3758 section 3.2), or of 8 (RFC 8260 section 2.3.1).
    ///
    /// Of a chunk of a packet this is the chunk that `SctpPacket::from_bytes` gives, and `None`
    /// if and only if the chunk has another type.
    #[inline(always)]
    pub fn from_raw(raw: &RawChunk<'a>) -> Option<ForwardTsnRef<'a>>
        ensures read { result ≡ read_forward raw.now.typ raw.now.value.now }
        ensures means { (tree : ChunkTree) → RawMeans raw.now tree → result ≡ forward_of tree }
    {
        match raw.typ {
            forward_tsn_chunk::CHUNK_TYPE => ForwardTsnRef::of_forward(raw.value),
            iforward_tsn_chunk::CHUNK_TYPE => ForwardTsnRef::of_iforward(raw.value),
            _ => None,
        }
    }

    /// Builds what the value of a FORWARD-TSN means; `None` if it means nothing.
    #[inline(always)]
    fn of_forward(value: &'a [u8]) -> Option<ForwardTsnRef<'a>>
        ensures { result ≡ result_ok (forward_kind.read value.now) }
    {
        if value.len() < ForwardTsnNumbers::SIZE {
            return None;
        }
        if !(value.len() - ForwardTsnNumbers::SIZE).is_multiple_of(SsnStreamField::SIZE) {
            return None;
        }
        Some(ForwardTsnRef::of_checked_forward(value))
    }

    /// Builds what a value means that is known to mean a FORWARD-TSN.
    #[inline(always)]
    pub(crate) fn of_checked_forward(value: &'a [u8]) -> ForwardTsnRef<'a>
        requires { IsOk (forward_kind.read value.now) }
        ensures { Some result ≡ result_ok (forward_kind.read value.now) }
    {
        ForwardTsnRef {
            new_cumulative_tsn: ForwardTsnNumbers::read(value).new_cumulative_tsn,
            by_mid: false,
            count: (value.len() - ForwardTsnNumbers::SIZE) / SsnStreamField::SIZE,
            streams: &value[ForwardTsnNumbers::SIZE..],
        }
    }

    /// Builds what the value of an I-FORWARD-TSN means; `None` if it means nothing.
    #[inline(always)]
    fn of_iforward(value: &'a [u8]) -> Option<ForwardTsnRef<'a>>
        ensures { result ≡ result_ok (iforward_kind.read value.now) }
    {
        if value.len() < ForwardTsnNumbers::SIZE {
            return None;
        }
        if !(value.len() - ForwardTsnNumbers::SIZE).is_multiple_of(MidStreamField::SIZE) {
            return None;
        }
        Some(ForwardTsnRef::of_checked_iforward(value))
    }

    /// Builds what a value means that is known to mean an I-FORWARD-TSN.
    #[inline(always)]
    pub(crate) fn of_checked_iforward(value: &'a [u8]) -> ForwardTsnRef<'a>
        requires { IsOk (iforward_kind.read value.now) }
        ensures { Some result ≡ result_ok (iforward_kind.read value.now) }
    {
        ForwardTsnRef {
            new_cumulative_tsn: ForwardTsnNumbers::read(value).new_cumulative_tsn,
            by_mid: true,
            count: (value.len() - ForwardTsnNumbers::SIZE) / MidStreamField::SIZE,
            streams: &value[ForwardTsnNumbers::SIZE..],
        }
    }

    /// Returns the TSN up to which all is to be taken as received.
    #[inline(always)]
    pub fn new_cumulative_tsn(&self) -> Tsn
        ensures { result.0 ≡ self.now.tsn }
    {
        self.new_cumulative_tsn
    }

    /// Returns the number of skipped streams.
    #[inline(always)]
    pub fn skipped_stream_count(&self) -> usize
        ensures { result ≡ length self.now.streams }
    {
        self.count
    }

    /// Returns the skipped stream at this index, which has to be less than
    /// `skipped_stream_count()`.
    #[inline(always)]
    pub fn skipped_stream(&self, index: usize) -> SkippedStream
        requires { index < length self.now.streams }
        ensures { slice_get self.now.streams index ≡ Some (skipped_stream_view result) }
    {
        if self.by_mid {
            MidStreamField::read(&self.streams[MidStreamField::SIZE * index..])
        } else {
            SsnStreamField::read(&self.streams[SsnStreamField::SIZE * index..])
        }
    }

    /// Returns an iterator over the skipped streams, in their order.
    #[inline(always)]
    pub fn skipped_streams(&self) -> SkippedStreams<'a>
        ensures { result ≡ self.now.streams }
    {
        SkippedStreams {
            by_mid: self.by_mid,
            count: self.count,
            rest: self.streams,
        }
    }
}

/// An iterator over the skipped streams of a FORWARD-TSN or I-FORWARD-TSN. A contract sees the list
/// of those that are left.
#[derive(Clone, Debug, Drop)]
pub struct SkippedStreams<'a> {
    by_mid: bool,
    count: usize,
    rest: &'a [u8],
}

impl<'a> Model for SkippedStreams<'a> {
    ghost Value = { List SkippedStreamTree };

    ghost view = { λ s. streams_at s.by_mid s.count s.rest.now };

    ghost invariant = { λ s. (if s.by_mid then 8 else 4) * s.count ≤ length s.rest.now };
}

impl<'a> Iterator for SkippedStreams<'a> {
    type Item = SkippedStream;

    ghost next_gives = { YieldsFirstBy skipped_stream_view (λ left. left) };

    ghost remaining = { item_count (λ left. left) };

    /// Returns the next skipped stream; `None` once all were returned.
    #[inline(always)]
    fn next(&mut self) -> Option<SkippedStream> {
        if self.count == 0 {
            return None;
        }
        self.count -= 1;
        if self.by_mid {
            let stream = MidStreamField::read(self.rest);
            self.rest = &self.rest[MidStreamField::SIZE..];
            Some(stream)
        } else {
            let stream = SsnStreamField::read(self.rest);
            self.rest = &self.rest[SsnStreamField::SIZE..];
            Some(stream)
        }
    }
}
