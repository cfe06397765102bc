//! A packet, its checksum field, and a chunk, as text.

use crate::brief::BriefFields;
use crate::chunks::{walk_chunk, walk_chunks};
use crate::fault::Fault;
use crate::fields::Fields;
use crate::json::JsonFields;
use crate::text::TextFields;
use dcsctp_borrowed::checksum::Checksum;
use dcsctp_borrowed::part::{Item, Part};
use dcsctp_wire::packet::chunk::RawChunk;
use dcsctp_wire::packet::sctp_packet::{COMMON_HEADER_SIZE, CommonHeader, FirstFault};
use std::fmt;

/// All that can be read of a packet, as lines that end with a line break (RFC 9260 section 3).
///
/// Of an accepted packet both ports, the tag, the checksum's verdict and all that its chunks hold.
/// Of a refused one the chunks before its fault, and the fault as `FaultReport` prints it. Of one
/// that was cut off the chunks as far as they go, and a fault only where a chunk's length can't be
/// right; its checksum isn't known. Of a header that was cut off the ports and the tag that are
/// there.
///
/// A text of the peer is between quotation marks. What isn't UTF-8 is escaped byte by byte, as
/// `\xff`, and so are quotation marks, backslashes, control characters, and what isn't seen:
/// blanks other than U+0020, and Unicode's Default_Ignorable_Code_Point, with the controls of the
/// direction of text.
#[derive(Clone, Copy)]
pub struct PacketReport<'a, 'f> {
    /// The packet's bytes, as far as they were captured.
    pub bytes: &'a [u8],
    /// How many bytes the packet has.
    pub length: usize,
    /// The expected checksum field, most significant byte first (`dcsctp_crc32c::packet_word`); of
    /// a packet that was cut off it isn't read.
    pub word: u32,
    /// Its fault, as `SctpPacket::first_fault` returns it; `None` of a packet that was cut off.
    pub fault: Option<&'f FirstFault>,
    /// Whether all bytes of a cookie or another value are shown, and those of a payload in rows;
    /// else the first 16, and of a payload that is text the first 64.
    pub shows_all: bool,
}

impl<'a, 'f> fmt::Display for PacketReport<'a, 'f> {
    fn fmt<W: fmt::Write>(&self, f: &mut fmt::Formatter<W>) -> fmt::Result {
        let packet = Part::packet(self.bytes, self.length.max(self.bytes.len()));
        let mut fields = TextFields::new(f, self.shows_all);
        walk_packet(packet, self.word, self.fault, &mut fields);
        fields.end()
    }
}

/// All that can be read of a packet, as members of a JSON object, without its braces: `length`,
/// `captured` if that is less, then what `PacketReport` prints.
///
/// Each number, text or run of bytes has a name. Bytes are in hexadecimal, and a text that isn't
/// UTF-8 is left out. A text is a string of RFC 8259 section 7 ([`JsonText`](crate::JsonText)).
#[derive(Clone, Copy)]
pub struct PacketJson<'a, 'f> {
    /// The packet's bytes, as far as they were captured.
    pub bytes: &'a [u8],
    /// How many bytes the packet has.
    pub length: usize,
    /// As in `PacketReport`.
    pub word: u32,
    /// As in `PacketReport`.
    pub fault: Option<&'f FirstFault>,
    /// Whether it has the captured bytes, as `bytes`, and after each field its place in them:
    /// `"tag@":[4,4]` is its offset and its size. They are those in the packet, also where it was
    /// cut off: the place of a chunk or a payload can reach beyond the captured bytes.
    pub places: bool,
}

impl<'a, 'f> fmt::Display for PacketJson<'a, 'f> {
    fn fmt<W: fmt::Write>(&self, f: &mut fmt::Formatter<W>) -> fmt::Result {
        let packet = Part::packet(self.bytes, self.length.max(self.bytes.len()));
        let mut fields = JsonFields::new(f, self.places, packet.size);
        fields.put("length", self.length);
        if !packet.is_whole() {
            fields.put("captured", self.bytes.len());
        }
        if self.places {
            fields.put_bytes("bytes", self.bytes);
        }
        walk_packet(packet, self.word, self.fault, &mut fields);
        fields.end()
    }
}

/// What can be read of a packet, in one line that has no line break: its tag, or `-` if it has none,
/// what is known of its checksum field (`right`, `zero`, `wrong`, `unknown`), and its
/// chunks, with ` | ` between each two. A refused packet ends in `! KIND at OFFSET: REASON`, and
/// one that was cut off, if it has no fault, in `! cut off`.
///
/// A chunk is its name and its fields, as `tsn=5`, with a blank between each two; of its parameters
/// and error causes it has the names, or the types and codes of those without one, and texts.
#[derive(Clone, Copy)]
pub struct PacketBrief<'a, 'f> {
    /// The packet's bytes, as far as they were captured.
    pub bytes: &'a [u8],
    /// How many bytes the packet has.
    pub length: usize,
    /// As in `PacketReport`.
    pub word: u32,
    /// As in `PacketReport`.
    pub fault: Option<&'f FirstFault>,
}

impl<'a, 'f> fmt::Display for PacketBrief<'a, 'f> {
    fn fmt<W: fmt::Write>(&self, f: &mut fmt::Formatter<W>) -> fmt::Result {
        let packet = Part::packet(self.bytes, self.length.max(self.bytes.len()));
        let mut fields = BriefFields::new(f);
        walk_packet(packet, self.word, self.fault, &mut fields);
        fields.end()
    }
}

/// Hands over a packet.
fn walk_packet<F: Fields>(packet: Part<'_>, word: u32, found: Option<&FirstFault>, fields: &mut F) {
    match CommonHeader::from_bytes(packet.bytes) {
        Some(header) => {
            let found = Checksum::of_packet(packet.bytes, packet.size, word);
            fields.header(&header, found);
        }
        None if packet.is_whole() => fields.no_header(&[]),
        None => fields.no_header(packet.bytes),
    }
    match found {
        Some(found) => {
            let before = packet.front(found.offset);
            walk_chunks(before.after(COMMON_HEADER_SIZE), fields);
            fields.fault(&Fault::of(packet.bytes, found))
        }
        None => {
            walk_chunks(packet.after(COMMON_HEADER_SIZE), fields);
            if packet.is_whole() {
                return;
            }
            match Fault::of_cut(packet) {
                Some(fault) => fields.fault(&fault),
                None => fields.cut_off(),
            }
        }
    }
}

/// What is said of a checksum field: that it is right, zero, or wrong, and then what was expected.
/// A field of zero says that the sender computed no checksum (RFC 9653), unless zero is expected.
#[derive(Clone, Copy)]
pub struct ChecksumReport {
    /// The field, most significant byte first.
    pub field: u32,
    /// What it was expected to be.
    pub word: u32,
}

impl fmt::Display for ChecksumReport {
    fn fmt<W: fmt::Write>(&self, f: &mut fmt::Formatter<W>) -> fmt::Result {
        let found = Checksum::of(self.field, self.word);
        write!(f, "{found}")
    }
}

/// All that a chunk holds, as lines that end with a line break (RFC 9260 section 3.2).
#[derive(Clone, Copy)]
pub struct ChunkReport<'c, 'a> {
    /// The chunk.
    pub chunk: &'c RawChunk<'a>,
    /// As in `PacketReport`.
    pub shows_all: bool,
}

impl<'c, 'a> fmt::Display for ChunkReport<'c, 'a> {
    fn fmt<W: fmt::Write>(&self, f: &mut fmt::Formatter<W>) -> fmt::Result {
        let bytes = self.chunk.value;
        let chunk = Item {
            first: self.chunk.typ,
            second: self.chunk.flags,
            value: Part::packet(bytes, bytes.len()),
            padded: 0,
        };
        let mut fields = TextFields::new(f, self.shows_all);
        walk_chunk(&chunk, &mut fields);
        fields.end()
    }
}
