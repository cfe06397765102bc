//! Packets that may be hostile: cut off, and changed.

use crate::answer::{Answer, first, flip, from, front, short_at};
use crate::buffers;
use crate::packets::{ANY, packet_of, written_over};
use dcsctp_wire::packet::ChunkParseError;
use dcsctp_wire::packet::sctp_packet::{PacketParseError, SctpPacket};

/// What a packet is answered with, and how many parts it has.
///
/// - `Kept`: its canonical packet reads back as itself, with as many parts.
/// - `TooLong`: its canonical packet doesn't fit.
/// - `Size`: its size is none that a packet has.
/// - `Length`: a length or the size of a value breaks its rule.
/// - `Value`: a result has no meaning.
/// - `Other`: anything else, and what must not be.
type Outcome = (&'static str, usize);

/// What must not be.
const OTHER: Outcome = ("Other", 0);

/// Returns the outcome of a fault.
fn fault_of(error: &PacketParseError) -> Outcome {
    match error {
        PacketParseError::InvalidPacketSize => ("Size", 0),
        PacketParseError::FailedParseChunk(ChunkParseError::InvalidLength) => ("Length", 0),
        PacketParseError::FailedParseChunk(ChunkParseError::InvalidValue) => ("Value", 0),
        _ => OTHER,
    }
}

/// Returns what a packet of `parts` parts is.
fn read_outcome(packet: &SctpPacket, parts: usize, out: &mut Answer) -> Outcome {
    if !packet.fits() {
        return ("TooLong", parts);
    }
    let canonical = out.list(packet.canonical_bytes(out.alloc));
    let is_same = written_over(&canonical, out).as_slice() == canonical.as_slice();
    if is_same && SctpPacket::check(&canonical, 0, &ANY) == Ok(parts) {
        ("Kept", parts)
    } else {
        OTHER
    }
}

/// Returns what the packet is answered with, if the check of the other one agrees.
fn outcome_of(bytes: &[u8], other: &[u8], out: &mut Answer) -> Outcome {
    let checked = SctpPacket::check(other, 0, &ANY);
    match SctpPacket::from_bytes(out.alloc, bytes, 0, &ANY) {
        Ok(packet) => match checked {
            Ok(parts) => read_outcome(&packet, parts, out),
            Err(_) => OTHER,
        },
        Err(error) => {
            let outcome = fault_of(&error);
            if checked == Err(error) {
                outcome
            } else {
                OTHER
            }
        }
    }
}

/// Writes an outcome, with its parts if it has any.
fn write_outcome((word, parts): Outcome, out: &mut Answer) {
    if parts == 0 {
        return write!(out, "{word}");
    }
    write!(out, "{word}({parts})")
}

/// How a packet is made of some bytes and a number.
#[derive(Clone, Copy)]
enum Making {
    /// The header and the bytes, cut off after this number.
    CutOff,
    /// The header and this number of the bytes, which are a chunk whose length counts them.
    Shortened,
    /// The header, the bytes, which are a chunk's front, and an item in this number of bytes, all
    /// zeros but its header, which has this length. The chunk's own length counts all, where the
    /// item isn't the chunk.
    Around(u16),
}

/// Returns the packet that is made of the bytes and the number.
fn made(making: Making, bytes: &[u8], number: usize, out: &mut Answer) -> Vec<u8> {
    let mut packet = match making {
        Making::Shortened => packet_of(front(bytes, number), out),
        _ => packet_of(bytes, out),
    };
    let mut length = number;
    match making {
        Making::CutOff => packet.truncate(number),
        Making::Shortened => {}
        Making::Around(item) => {
            out.or_out_of_memory(packet.extend_from_slice(&item.to_be_bytes()));
            length = bytes.len().saturating_add(number).saturating_sub(2);
            out.or_out_of_memory(packet.resize(length.saturating_add(12), 0));
        }
    }
    if !matches!(making, Making::CutOff) && bytes.len() > 2 {
        if let Some(byte) = packet.get_mut(15) {
            *byte = u8::try_from(length).unwrap_or(0);
        }
    }
    packet
}

/// Writes the answers to the packets that are made of the bytes and these numbers, each with the
/// number from which on it is given.
fn write_runs(making: Making, bytes: &[u8], start: usize, end: usize, out: &mut Answer) {
    let (mut last, mut mark) = (OTHER, "");
    for number in start..=end {
        let packet = made(making, bytes, number, out);
        let outcome = outcome_of(&packet, &packet, out);
        if mark.is_empty() || outcome.0 != last.0 || outcome.1 != last.1 {
            write!(out, "{mark}{number} ");
            write_outcome(outcome, out);
        }
        (last, mark) = (outcome, ", ");
    }
}

/// Writes the counts of the packet, each byte of which has each other value: packets that are kept,
/// the parts that these have together, packets that are refused for a length, and those that are
/// answered otherwise.
fn write_changed(chunks: &[u8], out: &mut Answer) {
    let mut bytes = packet_of(chunks, out);
    let (mut kept, mut parts, mut refused, mut others) = (0usize, 0usize, 0usize, 0usize);
    for index in 0..bytes.len() {
        for bits in 1..=255 {
            flip(&mut bytes, index, bits);
            let (word, more) = outcome_of(&bytes, &bytes, out);
            match word {
                "Kept" => kept = kept.saturating_add(1),
                "Length" => refused = refused.saturating_add(1),
                _ => others = others.saturating_add(1),
            }
            parts = parts.saturating_add(more);
            flip(&mut bytes, index, bits);
        }
    }
    write!(out, "{:?}", (kept, parts, refused, others))
}

/// Writes of how many types a chunk is refused for its length, which has this length field and a
/// value of this number of zeros.
fn write_types(length: u16, zeros: usize, out: &mut Answer) {
    let mut refused = 0usize;
    for typ in 0..=255 {
        let packet = made(
            Making::Around(length),
            &[typ, 0],
            zeros.saturating_add(4),
            out,
        );
        let (word, _) = outcome_of(&packet, &packet, out);
        if word == "Length" {
            refused = refused.saturating_add(1);
        }
    }
    write!(out, "{refused} of 256")
}

/// Writes the answers to the chunk's front with items of 4 to 20 bytes after it, for each length
/// but 4.
fn write_around(bytes: &[u8], out: &mut Answer) {
    for length in 0..17 {
        if length != 4 {
            out.unless(length == 0, " / ");
            write!(out, "{length}: ");
            write_runs(Making::Around(length), bytes, 4, 20, out);
        }
    }
}

/// Writes the answer, if the call is one of this module; else the next one does.
pub fn write_answer(call: &str, bytes: &[u8], other: &[u8], out: &mut Answer) {
    match call {
        "outcome" => {
            let (bytes, other) = (packet_of(bytes, out), packet_of(other, out));
            write_outcome(outcome_of(&bytes, &other, out), out)
        }
        "cut-off" => write_runs(
            Making::CutOff,
            bytes,
            0,
            bytes.len().saturating_add(12),
            out,
        ),
        "shortened" => write_runs(Making::Shortened, bytes, 0, bytes.len(), out),
        "changed" => write_changed(bytes, out),
        "around" => write_around(bytes, out),
        "types" => write_types(short_at(bytes, 0), first(from(bytes, 2)) as usize, out),
        _ => buffers::write_answer(call, bytes, other, out),
    }
}
