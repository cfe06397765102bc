//! Streams that a FORWARD-TSN or an I-FORWARD-TSN skips.

use dcsctp_types::api::StreamId;
use dcsctp_types::types::{Mid, Ssn, StreamKey};

/// A stream on which messages are skipped, up to and with the one that is named.
#[derive(Debug, Drop, PartialEq, Eq)]
pub enum SkippedStream {
    /// By FORWARD-TSN (RFC 3758 section 3.2): an ordered stream, by its sequence number.
    ForwardTsn(StreamId, Ssn),
    /// By I-FORWARD-TSN (RFC 8260 section 2.3.1): a stream of either kind, by the message id.
    IForwardTsn(StreamKey, Mid),
}
