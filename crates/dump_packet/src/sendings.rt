//! Which packet sent each TSN first.

use crate::packet_number::{PacketNumber, file_of};
use crate::seen_packet::SeenPacket;
use dcsctp_borrowed::part::Item;
use dcsctp_receive::chunk_type::{DATA, I_DATA};
use dcsctp_report::printed::OneWord;
use dcsctp_wire::packet::data_chunk::DataNumbers;
use dcsctp_wire::packet::idata_chunk::IDataNumbers;
use dcsctp_wire::packet::read_u32_be;
use dcsctp_wire::packet::sctp_packet::{COMMON_HEADER_SIZE, CommonHeader};
use dump_capture::line::Direction;
use std::alloc::{AllocError, Global};
use std::fmt;

/// How many TSNs are remembered at most, each in a place of its own.
const PLACES: usize = 65_536;

/// A TSN that is sent from one end of an association to the other.
#[derive(Clone, Copy, PartialEq, Eq)]
struct Sending {
    tag: u32,
    source_port: u16,
    destination_port: u16,
    // of a log, which may hold both ends
    direction: Option<Direction>,
    tsn: u32,
}

impl Sending {
    /// Returns its place: one end's TSNs that follow one another have places that do. What came has
    /// another place than what was sent.
    fn place(self) -> usize {
        let start = match self.direction {
            Some(Direction::Incoming) => self.tag.wrapping_add(PLACES as u32 / 2),
            Some(Direction::Outgoing) | None => self.tag,
        };
        start.wrapping_add(self.tsn) as usize % PLACES
    }
}

/// A TSN, and the packet that sent it first.
#[derive(Clone, Copy)]
struct First {
    sending: Sending,
    packet: PacketNumber,
}

/// A TSN that was sent before.
#[derive(Clone, Copy)]
pub struct Resent {
    /// The TSN.
    pub tsn: u32,
    /// The packet that sent it first.
    pub first: PacketNumber,
}

/// The packets that sent TSNs first: of each 65,536 TSNs that follow one another. A TSN takes the
/// place of the one that has the same, so another association's may be forgotten before.
#[derive(Drop)]
pub struct Sendings {
    alloc: Global,
    // none, until one is seen
    places: Vec<Option<First>>,
}

impl Sendings {
    /// Returns those of no packet.
    pub fn new(alloc: Global) -> Sendings {
        Sendings {
            alloc,
            places: Vec::new(alloc),
        }
    }

    /// Notes what a packet sends, by the chunks that begin before its first fault. Returns which
    /// of its TSNs were sent before.
    pub fn see(
        &mut self,
        packet: &SeenPacket<'_>,
        fault: Option<usize>,
    ) -> Result<Vec<Resent>, AllocError> {
        let mut resent = Vec::new(self.alloc);
        let Some(header) = CommonHeader::from_bytes(packet.found.packet) else {
            return Ok(resent);
        };
        let mut offset = COMMON_HEADER_SIZE;
        for chunk in packet.chunks() {
            if fault.is_some_and(|fault| fault <= offset) {
                return Ok(resent);
            }
            offset = offset.saturating_add(chunk.padded);
            if let Some(tsn) = tsn_of(chunk) {
                let sending = Sending {
                    tag: header.verification_tag,
                    source_port: header.source_port,
                    destination_port: header.destination_port,
                    direction: packet.direction,
                    tsn,
                };
                if let Some(first) = self.note(sending, packet.number)? {
                    resent.push(Resent { tsn, first })?;
                }
            }
        }
        Ok(resent)
    }

    /// Notes a TSN; returns the packet that sent it first, if one did before.
    fn note(
        &mut self,
        sending: Sending,
        packet: PacketNumber,
    ) -> Result<Option<PacketNumber>, AllocError> {
        if self.places.is_empty() {
            self.places.resize(PLACES, None)?;
        }
        let Some(place) = self.places.get_mut(sending.place()) else {
            return Ok(None);
        };
        match place {
            Some(first) if first.sending == sending => Ok(Some(first.packet)),
            _ => {
                *place = Some(First { sending, packet });
                Ok(None)
            }
        }
    }
}

/// Returns the TSN of a DATA or an I-DATA whose header was captured.
fn tsn_of(chunk: Item<'_>) -> Option<u32> {
    let value = chunk.value.bytes;
    match chunk.first {
        DATA if value.len() >= DataNumbers::SIZE => Some(read_u32_be(value)),
        I_DATA if value.len() >= IDataNumbers::SIZE => Some(read_u32_be(value)),
        _ => None,
    }
}

/// The TSNs that were sent before at the end of a packet's line, each as ` ~ tsn=5 again=62`; `@`
/// and the file's name follow, if the first packet is in another file.
#[derive(Clone, Copy)]
pub struct ResentBrief<'a> {
    /// The TSNs.
    pub resent: &'a [Resent],
    /// The place of the packet's file in the list of inputs.
    pub file: u32,
    /// The files' names, if there are several.
    pub files: &'a [String],
}

impl<'a> fmt::Display for ResentBrief<'a> {
    fn fmt<W: fmt::Write>(&self, f: &mut fmt::Formatter<W>) -> fmt::Result {
        for again in self.resent {
            let (tsn, number) = (again.tsn, again.first.number);
            write!(f, " ~ tsn={tsn} again={number}")?;
            match file_of(again.first, self.files) {
                Some(name) if again.first.file != self.file => {
                    let name = OneWord(name.as_bytes());
                    write!(f, "@{name}")?;
                }
                _ => {}
            }
        }
        Ok(())
    }
}
