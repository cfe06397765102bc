//! What is counted of the events of captures.

ghost use Rattle.std.specs.Prelude.{◌≡◌, ℕ, List, fold};
ghost use Rattle.dump_capture.specs.Found.{packet_of};
ghost use Rattle.dump_capture.specs.Number.{one_more};
ghost use Rattle.dcsctp_wire.specs.declared.packet.sctp_packet.ChecksumPolicy.{ChecksumPolicy};
ghost use Rattle.dump_packet.specs.ChunkTypes.{ChunkTypes};
ghost use Rattle.dump_command.specs.Counts.{nothing, with_kind, with_checksum, refused_by, no_packet, unread, packets, refused, skipped, is_unread, CountsPacket};
ghost use Rattle.dump_command.specs.Verdict.{IsVerdict};

use crate::options::Options;
use dcsctp_borrowed::packet_ref::SctpPacketRef;
use dcsctp_borrowed::raw_chunks::RawChunks;
use dcsctp_crc32c::packet_word;
use dcsctp_wire::packet::ChunkParseError;
use dcsctp_wire::packet::sctp_packet::{CommonHeader, FirstFault, PacketParseError};
use dump_capture::event::Skipped;
use dump_capture::frame::{FoundPacket, NoPacket};

/// How many packets, chunks, and records and lines without a packet there were, up to 2^64 - 1
/// each.
#[derive(Drop)]
pub struct Counts {
    /// Packets that were accepted.
    pub accepted: u64,
    /// Packets that were refused for their size.
    pub size: u64,
    /// Packets that were refused for a length in them.
    pub length: u64,
    /// Packets that were refused for padding.
    pub padding: u64,
    /// Packets that were refused for a value.
    pub value: u64,
    /// Packets of which the capture has the beginning alone.
    pub partial: u64,
    /// Packets whose checksum field is zero, where another is expected.
    pub zero: u64,
    /// Packets whose checksum field is wrong.
    pub wrong: u64,
    /// Frames that carry something else.
    pub others: u64,
    /// Frames that carry a fragment of an IP packet.
    pub fragments: u64,
    /// Frames that were cut off before the packet, and what a file ends in.
    pub cut: u64,
    /// Frames, records and blocks with a header that contradicts itself.
    pub malformed: u64,
    /// Records and lines of more bytes than are kept.
    pub long: u64,
    /// Lines of no form that is known.
    pub unknown: u64,
    /// Frames of a link type that isn't read.
    pub links: u64,
    /// Captures that end inside a record.
    pub unfinished: u64,
    /// The chunks of accepted packets, by their types.
    pub kinds: [u64; 256],
}

/// What was found of a packet.
#[derive(Drop)]
pub struct Judged {
    /// Whether it was accepted.
    pub verdict: Verdict,
    /// Its checksum word; 0 of one that was cut off.
    pub word: u32,
    /// Why it was refused, and where.
    pub fault: Option<FirstFault>,
}

/// Whether a packet was accepted.
#[derive(Clone, Copy)]
pub enum Verdict {
    /// It was accepted.
    Accepted,
    /// It was refused.
    Refused,
    /// The capture has its beginning alone.
    Partial,
}

impl Counts {
    /// Returns counts of nothing.
    pub fn new() -> Counts
        ensures { result ≡ nothing }
    {
        Counts {
            accepted: 0,
            size: 0,
            length: 0,
            padding: 0,
            value: 0,
            partial: 0,
            zero: 0,
            wrong: 0,
            others: 0,
            fragments: 0,
            cut: 0,
            malformed: 0,
            long: 0,
            unknown: 0,
            links: 0,
            unfinished: 0,
            kinds: [0; 256],
        }
    }

    /// Returns the number of packets.
    pub fn packets(&self) -> u64
        ensures { result ≡ packets self.now }
    {
        self.accepted
            .saturating_add(self.refused())
            .saturating_add(self.partial)
    }

    /// Returns the number of packets that were refused.
    pub fn refused(&self) -> u64
        ensures { result ≡ refused self.now }
    {
        self.size
            .saturating_add(self.length)
            .saturating_add(self.padding)
            .saturating_add(self.value)
    }

    /// Returns the number of records, lines and frames without a packet.
    pub fn skipped(&self) -> u64
        ensures { result ≡ skipped self.now }
    {
        self.others
            .saturating_add(self.fragments)
            .saturating_add(self.cut)
            .saturating_add(self.malformed)
            .saturating_add(self.long)
            .saturating_add(self.unknown)
            .saturating_add(self.links)
    }

    /// Returns whether there was something, and no packet in it.
    pub fn is_unread(&self) -> bool
        ensures { result ≡ is_unread self.now }
    {
        self.packets() == 0 && self.skipped() > 0
    }

    /// Counts a packet, and returns what was found of it.
    pub fn count_packet(&mut self, options: &Options, found: &FoundPacket<'_>) -> Judged
        ensures counts { CountsPacket options.now self.old (packet_of found.now) self.new }
        ensures verdict { IsVerdict options.now (packet_of found.now) result.verdict result.word }
    {
        let bytes = found.packet;
        if bytes.len() < found.length {
            increase(&mut self.partial);
            return Judged {
                verdict: Verdict::Partial,
                word: 0,
                fault: None,
            };
        }
        let word = packet_word(bytes);
        self.count_checksum(bytes, word);
        match SctpPacketRef::located(bytes, word, &options.policy()) {
            Ok(packet) => {
                increase(&mut self.accepted);
                self.count_chunks(packet.chunks);
                Judged {
                    verdict: Verdict::Accepted,
                    word,
                    fault: None,
                }
            }
            Err(first) => {
                self.count_refused(&first.fault);
                Judged {
                    verdict: Verdict::Refused,
                    word,
                    fault: Some(first),
                }
            }
        }
    }

    /// Counts a checksum field that isn't the word.
    fn count_checksum(&mut self, bytes: &[u8], word: u32)
        ensures { self.new ≡ with_checksum self.old bytes.now word }
    {
        if let Some(header) = CommonHeader::from_bytes(bytes) {
            if header.checksum == word {
                return;
            }
            if header.checksum == 0 {
                increase(&mut self.zero);
            } else {
                increase(&mut self.wrong);
            }
        }
    }

    /// Counts chunks by their types.
    fn count_chunks(&mut self, chunks: RawChunks<'_>)
        ensures { (types : List ℕ) × ChunkTypes chunks.entry types
            × (self.new ≡ record self.old { kinds = fold with_kind self.old.kinds types }) }
    {
        for chunk in chunks {
            increase(&mut self.kinds[usize::from(chunk.typ)]);
        }
    }

    /// Counts a packet that was refused.
    fn count_refused(&mut self, error: &PacketParseError)
        ensures { self.new ≡ refused_by self.old error.now }
    {
        match error {
            PacketParseError::FailedParseChunk(ChunkParseError::InvalidPadding) => {
                increase(&mut self.padding);
            }
            PacketParseError::FailedParseChunk(ChunkParseError::InvalidValue) => {
                increase(&mut self.value);
            }
            PacketParseError::FailedParseChunk(
                ChunkParseError::InvalidLength
                | ChunkParseError::InvalidType
                | ChunkParseError::OutOfMemory,
            ) => increase(&mut self.length),
            PacketParseError::InvalidPacketSize
            | PacketParseError::InvalidChecksum
            | PacketParseError::InvalidChunkSize => increase(&mut self.size),
        }
    }

    /// Counts a frame without a packet.
    pub fn count_no_packet(&mut self, why: NoPacket)
        ensures { self.new ≡ no_packet self.old why }
    {
        match why {
            NoPacket::Other => increase(&mut self.others),
            NoPacket::Fragment => increase(&mut self.fragments),
            NoPacket::Cut => increase(&mut self.cut),
            NoPacket::Malformed => increase(&mut self.malformed),
            NoPacket::LinkType => increase(&mut self.links),
        }
    }

    /// Counts a record or a line without a frame.
    pub fn count_unread(&mut self, why: Skipped)
        ensures { self.new ≡ unread self.old why }
    {
        match why {
            Skipped::EndsIn => {
                increase(&mut self.cut);
                increase(&mut self.unfinished);
            }
            Skipped::Malformed | Skipped::NoInterface => increase(&mut self.malformed),
            Skipped::TooLong => increase(&mut self.long),
            Skipped::Unknown | Skipped::Apart | Skipped::UnreadDump => {
                increase(&mut self.unknown)
            }
        }
    }
}

/// Adds one, up to 2^64 - 1.
fn increase(count: &mut u64)
    ensures { count.new ≡ one_more count.old }
{
    *count = count.saturating_add(1);
}
