//! The last message of each stream that is over.

use crate::messages::fragment::MessageKey;
use dcsctp_wire::packet::read_u16_be;
use dump_packet::is_after;
use std::alloc::{AllocError, Global};

/// Of how many streams of an end it is known.
const MOST_STREAMS: usize = 128;

/// Of each stream of an end the last message that is over, apart for those of I-DATA that are
/// unordered. Unordered DATA has no number.
#[derive(Drop)]
pub struct LastMessages {
    list: Vec<MessageKey>,
    // whether no message is over of the streams that aren't in the list
    has_all: bool,
    // the number of the last request to reset streams, the TSN after which it does, and these, in
    // order; all of them if there is none
    request: Option<u32>,
    reset_after: u32,
    reset_streams: Vec<u16>,
}

impl LastMessages {
    /// Returns those of an end of which it isn't known what it sent before.
    pub fn new(alloc: Global) -> LastMessages {
        LastMessages {
            list: Vec::new(alloc),
            has_all: false,
            request: None,
            reset_after: 0,
            reset_streams: Vec::new(alloc),
        }
    }

    /// Notes that the end sent nothing before.
    pub fn begin(&mut self) {
        self.has_all = true;
    }

    /// Notes that it isn't known what the end sent before.
    pub fn doubt(&mut self) {
        self.has_all = false;
    }

    /// Notes that a message is over.
    pub fn note(&mut self, key: MessageKey) -> Result<(), AllocError> {
        if key.is_before_reset || key.is_unordered && !key.is_i_data {
            return Ok(());
        }
        for place in 0..self.list.len() {
            if let Some(known) = self.list.get_mut(place) {
                if known.is_of_stream(&key) {
                    known.number = key.number;
                    return Ok(());
                }
            }
        }
        if self.list.len() < MOST_STREAMS {
            self.list.push(key)?;
        } else {
            self.has_all = false;
        }
        Ok(())
    }

    /// Notes that a message was skipped, and those before it.
    pub fn skip(&mut self, key: MessageKey) -> Result<(), AllocError> {
        if self.has(&key) {
            return Ok(());
        }
        self.note(key)
    }

    /// Returns the number of the message that comes next in the stream of another one, if that is
    /// known.
    pub fn next(&self, key: &MessageKey) -> Option<u32> {
        for known in &self.list {
            if known.is_of_stream(key) {
                return Some(known.next());
            }
        }
        if self.has_all && !key.is_before_reset {
            Some(0)
        } else {
            None
        }
    }

    /// Returns whether a message is known to be over: it is the last one of its stream, or comes
    /// before that.
    pub fn has(&self, key: &MessageKey) -> bool {
        for known in &self.list {
            if known.is_of_stream(key) {
                return !key.comes_after(known);
            }
        }
        false
    }

    /// Forgets all: messages are over that weren't seen.
    pub fn forget(&mut self) {
        self.list.clear();
        self.has_all = false;
    }

    /// Notes a request of this number to reset streams, which are named one after the other, or all
    /// (RFC 6525 section 4.1): after this TSN their messages are numbered from 0 on.
    pub fn reset(&mut self, number: u32, tsn: u32, streams: &[u8]) -> Result<(), AllocError> {
        if self.request.is_some_and(|last| !is_after(number, last)) {
            return Ok(());
        }
        self.request = Some(number);
        self.reset_after = tsn;
        self.reset_streams.clear();
        if streams.is_empty() || streams.len() > 2 * MOST_STREAMS {
            self.list.clear();
            self.has_all &= streams.is_empty();
            return Ok(());
        }
        for place in 0..streams.len() / 2 {
            self.reset_streams.push(read_u16_be(&streams[2 * place..]))?;
        }
        self.reset_streams.sort_unstable();
        let reset = &self.reset_streams;
        self.list
            .retain(|known| reset.binary_search(&known.stream).is_err());
        Ok(())
    }

    /// Returns whether the last request resets a stream after this TSN, or later.
    pub fn is_before_reset(&self, stream: u16, tsn: u32) -> bool {
        self.request.is_some()
            && !is_after(tsn, self.reset_after)
            && (self.reset_streams.is_empty() || self.reset_streams.binary_search(&stream).is_ok())
    }
}
