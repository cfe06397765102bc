//! User data, as DATA and I-DATA chunks hold it.

ghost use Rattle.std.specs.Prelude.{◌≡◌, IfOk, vec_capacity, vec_len};
ghost use Rattle.dcsctp_chunk.specs.Data.{user_data_view, no_data, tree_of, IsInWidth, user_data_flags, order_text, part_text};

use crate::flags::four_flags;
use dcsctp_tlv::copy::copied;
use dcsctp_tlv::widths::are_bytes;
use dcsctp_types::api::{PpId, StreamId};
use dcsctp_types::types::{Fsn, Mid, Ssn, StreamKey, Tsn};
use std::alloc::{AllocError, Global};

/// A message, or a fragment of one (RFC 9260 section 3.3.1, RFC 8260 section 2.1).
#[derive(Debug, Drop)]
pub struct Data {
    /// The fragment's bytes.
    pub payload: Vec<u8>,
    /// The message's place in its stream, where an I-DATA chunk carries it; 0 in a DATA chunk that
    /// was read.
    pub mid: Mid,
    /// The fragment's place in its message, 0 for the first; an I-DATA chunk carries it but for the
    /// first.
    pub fsn: Fsn,
    /// What the payload is, in the application's own numbers; an I-DATA chunk carries it for the
    /// first fragment alone.
    pub ppid: PpId,
    /// The stream, and whether the message is delivered in sequence: the U bit is set where not.
    pub stream_key: StreamKey,
    /// The message's place in its stream, where a DATA chunk carries it; 0 in an I-DATA chunk that
    /// was read.
    pub ssn: Ssn,
    /// Whether the message begins with it: the B bit.
    pub is_beginning: bool,
    /// Whether the message ends with it: the E bit.
    pub is_end: bool,
}

impl Data {
    /// Builds user data without payload, ordered on stream 0, with all numbers 0, neither a
    /// beginning nor an end. Does not allocate.
    pub fn new(alloc: Global) -> Data
        ensures fields { user_data_view result ≡ no_data }
        ensures memory { vec_capacity result.payload ≡ 0 }
    {
        Data {
            stream_key: StreamKey::Ordered(StreamId(0)),
            ssn: Ssn(0),
            mid: Mid(0),
            fsn: Fsn(0),
            ppid: PpId(0),
            payload: Vec::new(alloc),
            is_beginning: false,
            is_end: false,
        }
    }

    /// Copies the user data with its payload; refused only if memory runs out.
    pub fn clone(&self) -> Result<Data, AllocError>
        ensures same { IfOk result (λ d. user_data_view d ≡ user_data_view self.now) }
        ensures tight { IfOk result (λ d. vec_capacity d.payload ≡ vec_len d.payload) }
    {
        Ok(Data {
            stream_key: self.stream_key,
            ssn: self.ssn,
            mid: self.mid,
            fsn: self.fsn,
            ppid: self.ppid,
            payload: copied(*self.payload.allocator(), &self.payload)?,
            is_beginning: self.is_beginning,
            is_end: self.is_end,
        })
    }

    /// Returns the flags of a chunk that holds the user data.
    pub(crate) fn flags(&self, immediate_ack: bool) -> u8
        ensures { result ≡ user_data_flags (user_data_view self.now) immediate_ack }
    {
        four_flags(
            self.is_end,
            self.is_beginning,
            self.stream_key.is_unordered(),
            immediate_ack,
        )
    }

    /// Returns how the user data is delivered, in a word.
    pub(crate) fn order(&self) -> &'static str
        ensures { result.now ≡ order_text (user_data_view self.now) }
    {
        if self.stream_key.is_unordered() {
            "unordered"
        } else {
            "ordered"
        }
    }

    /// Returns which part of its message the user data is, in a word.
    pub(crate) fn part(&self) -> &'static str
        ensures { result.now ≡ part_text (user_data_view self.now) }
    {
        match (self.is_beginning, self.is_end) {
            (true, true) => "complete",
            (true, false) => "first",
            (false, true) => "last",
            (false, false) => "middle",
        }
    }
}

/// Proves that the numbers of a chunk of user data lie in their fields' widths. Does nothing.
pub(crate) fn data_has_widths(tsn: Tsn, user_data: &Data, immediate_ack: bool)
    ensures { IsInWidth (tree_of tsn user_data.now immediate_ack) }
{
    let _tsn = tsn.0;
    let _mid = user_data.mid.0;
    let _fsn = user_data.fsn.0;
    let _ppid = user_data.ppid.0;
    let _ssn = user_data.ssn.0;
    let _stream = user_data.stream_key.id().0;
    are_bytes(&user_data.payload);
}
