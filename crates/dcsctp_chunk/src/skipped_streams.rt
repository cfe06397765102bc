//! What FORWARD-TSN and I-FORWARD-TSN have in common: the test of their skipped streams.

ghost use Rattle.std.specs.{Prelude.{◌↔◌, ◌<◌, ◌^◌, IsTrue}, List.{AllByRecursion}};
ghost use Rattle.dcsctp_chunk.specs.SkippedStreams.{AreByMid, IsSkippedStreamInWidth, skipped_stream_view, skipped_stream_views};

use dcsctp_tlv::skipped_stream::SkippedStream;
use dcsctp_types::api::StreamId;
use dcsctp_types::types::{Mid, Ssn};

/// Returns whether each stream is skipped by a message id, or each by a sequence number.
pub(crate) fn are_by_mid(by_mid: bool, streams: &[SkippedStream]) -> bool
    ensures { IsTrue result ↔ AreByMid by_mid (skipped_stream_views streams.now) }
{
    for stream in streams {
        if matches!(stream, SkippedStream::IForwardTsn(..)) != by_mid {
            return false;
        }
    }
    true
}

/// Proves that the numbers of each lie in their fields' widths. Does nothing.
pub(crate) fn streams_have_widths(streams: &[SkippedStream])
    ensures { AllByRecursion IsSkippedStreamInWidth (skipped_stream_views streams.now) }
{
    for stream in streams {
        stream_has_widths(stream);
    }
}

/// Proves that the numbers of a skipped stream lie in their fields' widths, by their types. Does
/// nothing.
#[inline(always)]
pub fn stream_has_widths(stream: &SkippedStream)
    ensures { IsSkippedStreamInWidth (skipped_stream_view stream.now) }
{
    match stream {
        SkippedStream::ForwardTsn(id, ssn) => ssn_has_widths(*id, *ssn),
        SkippedStream::IForwardTsn(key, mid) => mid_has_widths(key.id(), *mid),
    }
}

/// Proves that the two numbers lie in their fields' widths. Does nothing.
#[inline(always)]
fn ssn_has_widths(id: StreamId, ssn: Ssn)
    ensures { (id.0 < 2 ^ 16) × (ssn.0 < 2 ^ 16) }
{
    let _id = id.0;
    let _ssn = ssn.0;
}

/// Proves that the two numbers lie in their fields' widths. Does nothing.
#[inline(always)]
fn mid_has_widths(id: StreamId, mid: Mid)
    ensures { (id.0 < 2 ^ 16) × (mid.0 < 2 ^ 32) }
{
    let _id = id.0;
    let _mid = mid.0;
}
