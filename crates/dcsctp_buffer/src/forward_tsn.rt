//! FORWARD-TSN and I-FORWARD-TSN, whose skipped streams lie anywhere.

ghost use Rattle.std.specs.{Prelude.{◌≡◌, ◌↔◌, ◌≤◌, ◌+◌, ◌*◌, ◌++◌, All, Bool, IsTrue, length, drop, map}, List.{AllByRecursion, flat_map}};
ghost use Rattle.dcsctp_tlv.specs.Image.{put};
ghost use Rattle.dcsctp_chunk.specs.SkippedStreams.{SkippedStreamTree, is_by_mid as is_tree_by_mid, AreByMid, IsSkippedStreamInWidth, skipped_stream_view};
ghost use Rattle.dcsctp_buffer.specs.ForwardTsn.{view, chunk_type as type_of, stream_bytes, stream_size as size_of_stream};

use crate::writable_chunk::WritableChunk;
use dcsctp_chunk::skipped_streams::stream_has_widths;
use dcsctp_tlv::fields::Field;
use dcsctp_tlv::frame::{TLV_HEADER_SIZE, fields_item_size, put_bytes, put_header};
use dcsctp_tlv::skipped_stream::SkippedStream;
use dcsctp_types::types::Tsn;
use dcsctp_wire::packet::forward_tsn_chunk::{self, ForwardTsnNumbers, SsnStreamField};
use dcsctp_wire::packet::iforward_tsn_chunk::{self, MidStreamField};

/// What is written as a skipped stream (RFC 3758 section 3.2, RFC 8260 section 2.3.1): for callers
/// with a struct of their own for it.
pub trait AsSkippedStream {
    /// The stream, in an I-FORWARD-TSN or else in a FORWARD-TSN.
    ghost stream: { Bool → Self → SkippedStreamTree };

    /// Returns the stream in an I-FORWARD-TSN, where `by_mid` is true, or else in a FORWARD-TSN.
    fn as_skipped_stream(&self, by_mid: bool) -> SkippedStream
        ensures { skipped_stream_view result ≡ stream by_mid self.now };
}

/// It is the same stream in both, so that one of them can't be written.
impl AsSkippedStream for SkippedStream {
    ghost stream = { λ by_mid s. skipped_stream_view s };

    fn as_skipped_stream(&self, _by_mid: bool) -> SkippedStream {
        match self {
            SkippedStream::ForwardTsn(id, ssn) => SkippedStream::ForwardTsn(*id, *ssn),
            SkippedStream::IForwardTsn(key, mid) => SkippedStream::IForwardTsn(*key, *mid),
        }
    }
}

/// FORWARD-TSN (RFC 3758 section 3.2) or I-FORWARD-TSN (RFC 8260 section 2.3.1) to be written.
#[derive(Drop)]
pub struct BorrowedForwardTsn<'a, S> {
    /// Whether it is an I-FORWARD-TSN, whose streams are skipped by message ids.
    pub by_mid: bool,
    /// The TSN up to which all is to be taken as received.
    pub new_cumulative_tsn: Tsn,
    /// The streams on which messages are skipped. The chunk can't be written where one of them
    /// isn't of its kind.
    pub skipped_streams: &'a [S],
}

impl<S: AsSkippedStream> WritableChunk for BorrowedForwardTsn<'_, S> {
    ghost tree = { view S.stream };

    fn written_size(&self) -> Option<usize> {
        if !are_by_mid(self.by_mid, self.skipped_streams) {
            return None;
        }
        let size = stream_size(self.by_mid);
        fields_item_size(ForwardTsnNumbers::SIZE, size, self.skipped_streams.len())
    }

    fn write_to(&self, output: &mut [u8]) {
        let size = stream_size(self.by_mid) * self.skipped_streams.len();
        put_header(
            chunk_type(self.by_mid),
            0,
            ForwardTsnNumbers::SIZE + size,
            output,
        );
        let _width = self.new_cumulative_tsn.0;
        let numbers = ForwardTsnNumbers {
            new_cumulative_tsn: self.new_cumulative_tsn,
        };
        put_bytes(output, TLV_HEADER_SIZE, &numbers.bytes());
        let place = TLV_HEADER_SIZE + ForwardTsnNumbers::SIZE;
        put_streams(output, place, self.by_mid, self.skipped_streams);
    }
}

/// Returns the type of the chunk of this kind.
fn chunk_type(by_mid: bool) -> u8
    ensures { result ≡ type_of by_mid }
{
    if by_mid {
        iforward_tsn_chunk::CHUNK_TYPE
    } else {
        forward_tsn_chunk::CHUNK_TYPE
    }
}

/// Returns how many bytes a stream has in it.
fn stream_size(by_mid: bool) -> usize
    ensures { result ≡ size_of_stream by_mid }
{
    if by_mid {
        MidStreamField::SIZE
    } else {
        SsnStreamField::SIZE
    }
}

/// Returns whether each stream has a place in it.
fn are_by_mid<S: AsSkippedStream>(by_mid: bool, streams: &[S]) -> bool
    ensures { IsTrue result ↔ AreByMid by_mid (map (S.stream by_mid) streams.now) }
{
    for item in streams {
        if is_by_mid(&item.as_skipped_stream(by_mid)) != by_mid {
            return false;
        }
    }
    true
}

/// Returns whether the stream is skipped by a message id.
fn is_by_mid(stream: &SkippedStream) -> bool
    ensures { result ≡ is_tree_by_mid (skipped_stream_view stream.now) }
{
    matches!(stream, SkippedStream::IForwardTsn(..))
}

/// Writes the streams one after the other from a place on; all other bytes stay.
fn put_streams<S: AsSkippedStream>(output: &mut [u8], place: usize, by_mid: bool, streams: &[S])
    requires kind { All (λ s. is_tree_by_mid (S.stream by_mid s) ≡ by_mid) streams.now }
    requires room { place + size_of_stream by_mid * length streams.now ≤ length output.old }
    ensures bytes { output.new ≡ put output.old place
        (flat_map (stream_bytes by_mid) (map (S.stream by_mid) streams.now)) }
    ensures width { AllByRecursion IsSkippedStreamInWidth (map (S.stream by_mid) streams.now) }
{
    let size = stream_size(by_mid);
    let mut end = place;
    for item in streams {
        let (_, rest) = output.split_at_mut(end);
        write_stream(by_mid, &item.as_skipped_stream(by_mid), rest);
        end += size;
    }
}

/// Writes the stream at the front of the output; the bytes after it stay.
fn write_stream(by_mid: bool, stream: &SkippedStream, output: &mut [u8])
    requires kind { is_tree_by_mid (skipped_stream_view stream.now) ≡ by_mid }
    requires room { size_of_stream by_mid ≤ length output.old }
    ensures bytes { output.new ≡ stream_bytes by_mid (skipped_stream_view stream.now)
        ++ drop (size_of_stream by_mid) output.old }
    ensures width { IsSkippedStreamInWidth (skipped_stream_view stream.now) }
{
    stream_has_widths(stream);
    if by_mid {
        MidStreamField::write(stream, output);
    } else {
        SsnStreamField::write(stream, output);
    }
}
