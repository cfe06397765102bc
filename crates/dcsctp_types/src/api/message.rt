//! Messages.

ghost use Rattle.std.specs.Prelude.{◌≡◌};

use crate::api::{PpId, StreamId};

/// A message that is to be sent, or was received.
#[derive(Debug, Drop)]
pub struct Message {
    /// The stream that the message belongs to.
    pub stream_id: StreamId,
    /// What the payload is, in the application's own numbers.
    pub ppid: PpId,
    /// The message's bytes.
    pub payload: Vec<u8>,
}

impl Message {
    /// Builds the message of these three parts.
    pub fn new(stream_id: StreamId, ppid: PpId, payload: Vec<u8>) -> Self
        ensures stream_id { result.stream_id ≡ stream_id }
        ensures ppid { result.ppid ≡ ppid }
        ensures payload { result.payload ≡ payload }
    {
        Message {
            stream_id,
            ppid,
            payload,
        }
    }
}
