//! The streams of the channels whose labels are asked for.

use crate::options::Options;
use dcsctp_wire::packet::sctp_packet::COMMON_HEADER_SIZE;
use dump_messages::{label_of, stream_of};
use dump_packet::SeenPacket;
use std::alloc::{AllocError, Global};

/// How many streams are remembered at most.
const MOST_STREAMS: usize = 1_024;

/// A stream of an association, in both directions.
#[derive(Clone, Copy, PartialEq, Eq)]
struct Stream {
    association: u64,
    number: u16,
}

/// The streams of the channels that were opened with a label that is asked for.
#[derive(Drop)]
pub struct LabelledStreams {
    streams: Vec<Stream>,
    // the one that is forgotten next, once there are too many
    next: usize,
}

impl LabelledStreams {
    /// Returns those of no packet.
    pub fn new(alloc: Global) -> LabelledStreams {
        LabelledStreams {
            streams: Vec::new(alloc),
            next: 0,
        }
    }

    /// Notes which channels a packet opens, and returns whether it has user data of one whose label
    /// is asked for. Looks at the chunks that begin before its first fault or at it. A channel is
    /// only remembered if the number of the packet's association is given.
    pub fn see(
        &mut self,
        options: &Options,
        association: Option<u64>,
        packet: &SeenPacket<'_>,
        fault: Option<usize>,
    ) -> Result<bool, AllocError> {
        let mut has_label = false;
        let mut offset = COMMON_HEADER_SIZE;
        for chunk in packet.chunks() {
            if fault.is_some_and(|fault| fault < offset) {
                return Ok(has_label);
            }
            offset = offset.saturating_add(chunk.padded);
            let Some(number) = stream_of(chunk) else {
                continue;
            };
            let is_asked = match label_of(chunk) {
                Some(label) => Some(options.has_label(label)),
                None => None,
            };
            if let Some(association) = association {
                let stream = Stream {
                    association,
                    number,
                };
                if let Some(is_asked) = is_asked {
                    self.note(stream, is_asked)?;
                }
                has_label |= self.streams.contains(&stream);
            }
            has_label |= is_asked == Some(true);
        }
        Ok(has_label)
    }

    /// Notes that a channel is opened, and whether its label is asked for.
    fn note(&mut self, stream: Stream, is_asked: bool) -> Result<(), AllocError> {
        match self.streams.iter().position(|known| *known == stream) {
            Some(_) if is_asked => {}
            Some(place) => {
                let _ = self.streams.swap_remove(place);
            }
            None if !is_asked => {}
            None if self.streams.len() < MOST_STREAMS => self.streams.push(stream)?,
            None => {
                if let Some(place) = self.streams.get_mut(self.next) {
                    *place = stream;
                    self.next = (self.next + 1) % self.streams.len();
                }
            }
        }
        Ok(())
    }
}
