//! Why bytes are no packet, and where, as text.

use crate::fields::HEADER_SIZE;
use crate::names::{ItemName, Level};
use crate::registry::{
    cause_section, chunk_section, least_cause, least_chunk, least_parameter, parameter_section,
};
use dcsctp_borrowed::part::{Item, Part};
use dcsctp_wire::packet::init_chunk::{self, InitNumbers};
use dcsctp_wire::packet::reconfiguration_response_parameter::{
    self, ReconfigurationResponseNumbers,
};
use dcsctp_wire::packet::sack_chunk::{self, SackNumbers};
use dcsctp_wire::packet::sctp_packet::{COMMON_HEADER_SIZE, FirstFault, PacketParseError};
use dcsctp_wire::packet::{
    ChunkParseError, abort_chunk, error_chunk, heartbeat_ack_chunk, heartbeat_request_chunk,
    init_ack_chunk, missing_mandatory_parameter_error_cause, re_config_chunk, read_u16_be,
    read_u32_be, round_up_to_4,
};
use std::fmt;

/// The bytes of a row.
const ROW: usize = 16;

/// Bytes of a Re-configuration Response with its two TSNs.
const FULL_RESPONSE_SIZE: usize = HEADER_SIZE + ReconfigurationResponseNumbers::SIZE_WITH_NEXT_TSNS;

/// Why bytes are no packet, as lines that end with a line break: the error, its offset, the row of
/// sixteen bytes that holds that byte, and a mark below the byte. Where the bytes end too soon, the
/// mark is after the last byte.
#[derive(Clone, Copy)]
pub struct FaultReport<'a, 'f> {
    /// The bytes.
    pub bytes: &'a [u8],
    /// Their fault, as `SctpPacket::first_fault` returns it.
    pub found: &'f FirstFault,
}

impl<'a, 'f> fmt::Display for FaultReport<'a, 'f> {
    fn fmt<W: fmt::Write>(&self, f: &mut fmt::Formatter<W>) -> fmt::Result {
        let fault = Fault::of(self.bytes, self.found);
        write!(f, "{fault}")
    }
}

/// What is wrong.
#[derive(Clone, Copy)]
pub enum FaultKind {
    Size,
    Checksum,
    Length,
    Padding,
    Value,
}

impl FaultKind {
    /// Returns its name.
    pub fn name(self) -> &'static str {
        match self {
            FaultKind::Size => "size",
            FaultKind::Checksum => "checksum",
            FaultKind::Length => "length",
            FaultKind::Padding => "padding",
            FaultKind::Value => "value",
        }
    }

    /// Returns the rule that is broken.
    pub fn sentence(self) -> &'static str {
        match self {
            FaultKind::Size => {
                "A packet has 16 to 65,535 bytes: a common header of 12, and at least one chunk."
            }
            FaultKind::Checksum => "The checksum field is the CRC32c of the packet.",
            FaultKind::Length => {
                "A length counts 4 bytes of header and what its kind holds, and ends within the \
                 packet."
            }
            FaultKind::Padding => {
                "An item is followed by padding up to a multiple of 4 bytes, all of them zero."
            }
            FaultKind::Value => "A value is one that its kind allows.",
        }
    }
}

/// A fault of a packet: what is wrong, and where.
#[derive(Clone, Copy)]
pub struct Fault<'a> {
    /// The packet's bytes.
    bytes: &'a [u8],
    pub kind: FaultKind,
    pub offset: usize,
    /// The item that is at fault, if one is.
    place: Place<'a>,
}

impl<'a> Fault<'a> {
    /// Returns the fault that `SctpPacket::first_fault` found in these bytes.
    pub fn of(bytes: &'a [u8], found: &FirstFault) -> Fault<'a> {
        let kind = match &found.fault {
            PacketParseError::InvalidPacketSize => FaultKind::Size,
            PacketParseError::InvalidChecksum => FaultKind::Checksum,
            PacketParseError::FailedParseChunk(ChunkParseError::InvalidPadding) => {
                FaultKind::Padding
            }
            PacketParseError::FailedParseChunk(ChunkParseError::InvalidValue) => FaultKind::Value,
            PacketParseError::InvalidChunkSize | PacketParseError::FailedParseChunk(_) => {
                FaultKind::Length
            }
        };
        Fault {
            bytes,
            kind,
            offset: found.offset,
            place: Place::of(bytes, found.offset),
        }
    }

    /// Returns the section of the rule that is broken.
    pub fn section(&self) -> &'static str {
        match self.kind {
            FaultKind::Size => "RFC 9260 section 3",
            FaultKind::Checksum => "RFC 9260 section 6.8",
            FaultKind::Padding => "RFC 9260 section 3.2",
            FaultKind::Length | FaultKind::Value => self.place.section(),
        }
    }

    /// Returns the fault of a packet that was cut off, if a chunk's length is less than 4 or more
    /// than the packet has left: all that is known to be a fault there.
    pub fn of_cut(packet: Part<'a>) -> Option<Fault<'a>> {
        let place = Place::first(packet, usize::MAX).skip();
        if place.rest.bytes.len() < HEADER_SIZE {
            return None;
        }
        Some(Fault {
            bytes: packet.bytes,
            kind: FaultKind::Length,
            offset: packet.size.saturating_sub(place.rest.size),
            place,
        })
    }
}

impl<'a> fmt::Display for Fault<'a> {
    fn fmt<W: fmt::Write>(&self, f: &mut fmt::Formatter<W>) -> fmt::Result {
        let (reason, offset) = (Reason(*self), self.offset);
        writeln!(f, "error: {reason}\nat byte {offset}")?;
        write_row(self.bytes, offset / ROW * ROW, f)?;
        write_mark(offset, f)
    }
}

/// What is wrong, in a sentence: what is there, and what is needed.
#[derive(Clone, Copy)]
pub struct Reason<'a>(pub Fault<'a>);

impl<'a> fmt::Display for Reason<'a> {
    fn fmt<W: fmt::Write>(&self, f: &mut fmt::Formatter<W>) -> fmt::Result {
        let fault = &self.0;
        match fault.kind {
            FaultKind::Size => write_size(fault.bytes.len(), f),
            FaultKind::Checksum => f.write_str("invalid checksum"),
            _ => write_item(fault.kind, fault.place, f),
        }
    }
}

/// Writes that a packet has too few bytes or too many.
fn write_size<W: fmt::Write>(size: usize, f: &mut fmt::Formatter<W>) -> fmt::Result {
    if size < 16 {
        let unit = if size == 1 { "byte" } else { "bytes" };
        write!(f, "packet: {size} {unit}, but 16 are needed")
    } else {
        write!(f, "packet: {size} bytes, but 65535 are the most")
    }
}

/// Where a fault lies: the rest of a list, which begins with the item that is at fault, and the
/// offset in it.
#[derive(Clone, Copy)]
struct Place<'a> {
    level: Level,
    rest: Part<'a>,
    offset: usize,
}

impl<'a> Place<'a> {
    /// Returns the place of an offset of a packet in the list of its chunks.
    fn first(packet: Part<'a>, offset: usize) -> Place<'a> {
        Place {
            level: Level::Chunk,
            rest: packet.after(COMMON_HEADER_SIZE),
            offset: offset.saturating_sub(COMMON_HEADER_SIZE),
        }
    }

    /// Finds the innermost item at an offset of a packet.
    fn of(bytes: &'a [u8], offset: usize) -> Place<'a> {
        let packet = Part::packet(bytes, bytes.len());
        let place = Place::first(packet, offset).skip();
        match place.rest.item() {
            Some(chunk) => place.within(chunk).skip(),
            None => place,
        }
    }

    /// Passes over the items before the offset.
    fn skip(self) -> Place<'a> {
        let mut place = self;
        for _ in 0..self.rest.bytes.len() / HEADER_SIZE {
            let Some(item) = place.rest.item() else {
                return place;
            };
            if place.offset < item.padded {
                return place;
            }
            place.rest = place.rest.after(item.padded);
            place.offset -= item.padded;
        }
        place
    }

    /// Returns the section that defines the item, or else its level.
    fn section(self) -> &'static str {
        let (level, bytes) = (self.level, self.rest.bytes);
        let code = if bytes.len() < HEADER_SIZE {
            None
        } else {
            Some(read_u16_be(bytes))
        };
        let section = match (level, code) {
            (_, None) => None,
            (Level::Chunk, Some(code)) => chunk_section(code.to_be_bytes()[0]),
            (Level::Parameter, Some(code)) => parameter_section(code),
            (Level::Cause, Some(code)) => cause_section(code),
        };
        section.unwrap_or(match level {
            Level::Chunk => "RFC 9260 section 3.2",
            Level::Parameter => "RFC 9260 section 3.2.1",
            Level::Cause => "RFC 9260 section 3.3.10",
        })
    }

    /// Returns the place in a chunk's list, if the chunk has one, and the offset is in it.
    fn within(self, chunk: Item<'a>) -> Place<'a> {
        let (level, start) = match chunk.first {
            init_chunk::CHUNK_TYPE | init_ack_chunk::CHUNK_TYPE => {
                (Level::Parameter, InitNumbers::SIZE)
            }
            heartbeat_request_chunk::CHUNK_TYPE
            | heartbeat_ack_chunk::CHUNK_TYPE
            | re_config_chunk::CHUNK_TYPE => (Level::Parameter, 0),
            abort_chunk::CHUNK_TYPE | error_chunk::CHUNK_TYPE => (Level::Cause, 0),
            _ => return self,
        };
        let before = HEADER_SIZE + start;
        if self.offset < before || self.offset - HEADER_SIZE >= chunk.value.size {
            return self;
        }
        Place {
            level,
            rest: chunk.value.after(start),
            offset: self.offset - before,
        }
    }
}

/// How many bytes are left.
#[derive(Clone, Copy)]
struct Left(usize);

impl fmt::Display for Left {
    fn fmt<W: fmt::Write>(&self, f: &mut fmt::Formatter<W>) -> fmt::Result {
        let left = self.0;
        if left == 1 {
            f.write_str("1 byte is left")
        } else {
            write!(f, "{left} bytes are left")
        }
    }
}

/// Writes what is wrong with an item.
fn write_item<W: fmt::Write>(
    kind: FaultKind,
    place: Place<'_>,
    f: &mut fmt::Formatter<W>,
) -> fmt::Result {
    let bytes = place.rest.bytes;
    if bytes.len() < HEADER_SIZE {
        let (word, left) = (place.level.word(), Left(bytes.len()));
        return write!(f, "{word}: header of 4 bytes, but {left}");
    }
    let length = read_u16_be(&bytes[2..]);
    let name = ItemName {
        level: place.level,
        code: read_u16_be(bytes),
    };
    write!(f, "{name}: ")?;
    match kind {
        FaultKind::Padding => {
            let there = bytes.len().saturating_sub(length as usize);
            write_padding(length, there, place.offset >= bytes.len(), f)
        }
        FaultKind::Value => write_result(bytes, f),
        _ => write_length(name, length, place.rest, f),
    }
}

/// Writes what is wrong with a length.
fn write_length<W: fmt::Write>(
    name: ItemName,
    length: u16,
    rest: Part<'_>,
    f: &mut fmt::Formatter<W>,
) -> fmt::Result {
    let size = length as usize;
    write!(f, "length {size}, but ")?;
    if size < HEADER_SIZE {
        return f.write_str("4 are needed");
    }
    if size > rest.size {
        let left = Left(rest.size);
        return write!(f, "{left}");
    }
    let (least, step) = sizes(name, rest.front(size).bytes);
    if size < least || step == 0 {
        return write!(f, "{least} are needed");
    }
    let lower = size - (size - least) % step as usize;
    let upper = lower + step as usize;
    write!(f, "{lower} or {upper} are needed")
}

/// Returns the least length of an item, and by how much it can be longer. Counts in three kinds say
/// their lengths: of a SACK (RFC 9260 section 3.3.4), a Missing Mandatory Parameter (section
/// 3.3.10.2), and a Re-configuration Response by its two TSNs or none (RFC 6525 section 4.4).
fn sizes(name: ItemName, bytes: &[u8]) -> (usize, u8) {
    match (name.level, name.code) {
        (Level::Chunk, code) => {
            let typ = code.to_be_bytes()[0];
            if typ == sack_chunk::CHUNK_TYPE && bytes.len() >= HEADER_SIZE + SackNumbers::SIZE {
                let numbers = SackNumbers::read(&bytes[HEADER_SIZE..]);
                return (HEADER_SIZE + numbers.value_size(), 0);
            }
            least_chunk(typ)
        }
        (Level::Parameter, reconfiguration_response_parameter::PARAMETER_TYPE)
            if bytes.len() > FULL_RESPONSE_SIZE => (FULL_RESPONSE_SIZE, 0),
        (Level::Parameter, code) => least_parameter(code),
        (Level::Cause, missing_mandatory_parameter_error_cause::CAUSE_CODE) if bytes.len() >= 8 => {
            (8 + 2 * read_u32_be(&bytes[4..]) as usize, 0)
        }
        (Level::Cause, code) => least_cause(code),
    }
}

/// Writes what is wrong with the padding of an item of this length, of which some bytes may be
/// missing.
fn write_padding<W: fmt::Write>(
    length: u16,
    there: usize,
    is_missing: bool,
    f: &mut fmt::Formatter<W>,
) -> fmt::Result {
    let length = length as usize;
    let padding = round_up_to_4(length) - length;
    let unit = if padding == 1 { "byte" } else { "bytes" };
    if is_missing {
        let left = Left(there);
        write!(f, "padding of {padding} {unit}, but {left}")
    } else {
        write!(f, "padding of {padding} {unit} isn't zero")
    }
}

/// Writes what is wrong with a value: of all values, the result of a Re-configuration Response
/// alone can be wrong.
fn write_result<W: fmt::Write>(bytes: &[u8], f: &mut fmt::Formatter<W>) -> fmt::Result {
    if bytes.len() < HEADER_SIZE + ReconfigurationResponseNumbers::SIZE {
        return f.write_str("invalid value");
    }
    let result = read_u32_be(&bytes[HEADER_SIZE + ReconfigurationResponseNumbers::RESULT..]);
    write!(f, "result {result}, but 6 is the highest")
}

/// Writes the row at an offset.
fn write_row<W: fmt::Write>(bytes: &[u8], row: usize, f: &mut fmt::Formatter<W>) -> fmt::Result {
    let rest = &bytes[row.min(bytes.len())..];
    write!(f, "{row:04x}:")?;
    for byte in &rest[..rest.len().min(ROW)] {
        write!(f, " {byte:02x}")?;
    }
    f.write_str("\n")
}

/// Writes the mark below the byte at an offset.
fn write_mark<W: fmt::Write>(offset: usize, f: &mut fmt::Formatter<W>) -> fmt::Result {
    for _i in 0..6 + 3 * (offset % ROW) {
        f.write_str(" ")?;
    }
    f.write_str("^^\n")
}
