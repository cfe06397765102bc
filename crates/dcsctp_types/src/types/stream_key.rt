//! A stream, together with the way its messages are delivered.

ghost use Rattle.std.specs.Prelude.{◌≡◌, not, if◌then◌else◌};
ghost use Rattle.dcsctp_types.specs.StreamKey.{stream_of, is_ordered_key};

use crate::api::StreamId;

/// The ordered or the unordered half of a stream. The two number their messages apart (RFC 8260
/// section 2.1), so they are kept apart wherever messages are.
///
/// Every ordered key is less than every unordered one; keys of one kind are ordered by stream id.
#[derive(Clone, Copy, Debug, PartialEq, Eq, PartialOrd, Ord, Hash)]
pub enum StreamKey {
    /// The messages that are delivered in sequence.
    Ordered(StreamId),
    /// The messages that are delivered as they come.
    Unordered(StreamId),
}

impl StreamKey {
    /// Returns the unordered half of stream `id` if `is_unordered` is true, else the ordered half.
    pub fn new(is_unordered: bool, id: StreamId) -> Self
        ensures { result ≡ (if is_unordered then StreamKey.Unordered id else StreamKey.Ordered id) }
    {
        if is_unordered {
            StreamKey::Unordered(id)
        } else {
            StreamKey::Ordered(id)
        }
    }

    /// Returns the stream.
    pub fn id(&self) -> StreamId
        ensures { result ≡ stream_of self.now }
    {
        match *self {
            StreamKey::Ordered(id) | StreamKey::Unordered(id) => id,
        }
    }

    /// Returns whether this is the half of the ordered messages.
    pub fn is_ordered(&self) -> bool
        ensures { result ≡ is_ordered_key self.now }
    {
        matches!(self, StreamKey::Ordered(_))
    }

    /// Returns whether this is the half of the unordered messages.
    pub fn is_unordered(&self) -> bool
        ensures { result ≡ not (is_ordered_key self.now) }
    {
        matches!(self, StreamKey::Unordered(_))
    }
}
