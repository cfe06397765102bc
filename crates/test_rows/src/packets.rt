//! Packets: read, refused, and written in canonical form.

use crate::answer::{Answer, Change, Digits, flip, from, word_at};
use crate::built::built_of;
use crate::in_place::{canonical_in_place, mean_alike, write_otherwise};
use crate::sack;
use crate::values::{chunk_of, image_of, write_value};
use dcsctp_borrowed::canonical::CanonicalError;
use dcsctp_wire::api::ZERO_CHECKSUM_ALTERNATE_ERROR_DETECTION_METHOD_LOWER_LAYER_DTLS as DTLS;
use dcsctp_wire::packet::chunk::{Chunk, RawChunk};
use dcsctp_wire::packet::sctp_packet::{
    ChecksumPolicy, CommonHeader, FirstFault, PacketParseError, SctpPacket,
};
use dcsctp_wire::packet::{ChunkParseError, SerializableTlv};
use std::fmt::{Debug, Display};

/// Both ports 5000, tag 16909060, checksum 0.
pub const HEADER: [u8; 12] = [0x13, 0x88, 0x13, 0x88, 1, 2, 3, 4, 0, 0, 0, 0];

/// Checksums aren't looked at.
pub const ANY: ChecksumPolicy = ChecksumPolicy::ANY_CHECKSUM;

/// Returns the header, and these chunks.
pub fn packet_of(chunks: &[u8], out: &mut Answer) -> Vec<u8> {
    let mut bytes = out.copy(&HEADER);
    out.or_out_of_memory(bytes.extend_from_slice(chunks));
    bytes
}

// ---- what is read

/// Writes an arrow and the canonical packet, if that is another; without this header, if it has it.
fn write_canonical(packet: &SctpPacket, header: &[u8], bytes: &[u8], out: &mut Answer) {
    if !packet.fits() {
        return out.say(" -> none that fits");
    }
    let canonical = out.list(packet.canonical_bytes(out.alloc));
    if canonical.as_slice() != bytes {
        let chunks = canonical.strip_prefix(header).unwrap_or(&canonical);
        write!(out, " -> {}", Digits(chunks))
    }
}

/// Returns whether the check refuses the packet for this fault.
fn is_checked_under(
    bytes: &[u8],
    word: u32,
    policy: &ChecksumPolicy,
    fault: &PacketParseError,
) -> bool {
    match SctpPacket::check(bytes, word, policy) {
        Ok(_) => false,
        Err(error) => error == *fault,
    }
}

/// Writes the packet's fault and its place, if check and reader of the other bytes answer it too.
/// Returns whether there is none.
fn has_no_fault(
    bytes: &[u8],
    other: &[u8],
    word: u32,
    policy: &ChecksumPolicy,
    out: &mut Answer,
) -> bool {
    let Some(FirstFault { fault, offset }) = SctpPacket::first_fault(bytes, word, policy) else {
        return true;
    };
    let is_read_so = match SctpPacket::from_bytes(out.alloc, other, word, policy) {
        Ok(_) => false,
        Err(error) => error == fault,
    };
    if !is_read_so || !is_checked_under(other, word, policy, &fault) {
        out.say("check or reader answers otherwise");
    } else if let PacketParseError::FailedParseChunk(fault) = fault {
        write!(out, "{fault:?} at {offset}");
    } else {
        write!(out, "{fault:?} at {offset}");
    }
    false
}

/// Writes how many parts the check counts, what the packet prints, and its canonical packet; or its
/// fault.
fn write_under(bytes: &[u8], policy: &ChecksumPolicy, out: &mut Answer) {
    if !has_no_fault(bytes, bytes, 0, policy, out) {
        return;
    }
    if let Ok(parts) = SctpPacket::check(bytes, 0, policy) {
        write!(out, "{parts} | ");
    }
    match SctpPacket::from_bytes(out.alloc, bytes, 0, policy) {
        Ok(packet) => {
            for (i, chunk) in packet.chunks.iter().enumerate() {
                out.unless(i == 0, " / ");
                write!(out, "{chunk}");
            }
            write_canonical(&packet, &HEADER, bytes, out)
        }
        Err(error) => write!(out, "{error:?}"),
    }
}

/// Writes what the packet is answered with, and after a bar what a strict reader answers, if that
/// is something else.
fn write_both(bytes: &[u8], out: &mut Answer) {
    let mut strict = out.another();
    write_under(bytes, &ANY, out);
    write_under(bytes, &ANY.strict(), &mut strict);
    out.add_other(" | ", &strict)
}

/// Returns the canonical packet, written over bytes `ee`; nothing if it doesn't fit.
fn canonical_of(packet: &SctpPacket, out: &mut Answer) -> Vec<u8> {
    if !packet.fits() {
        return Vec::new(out.alloc);
    }
    let size = packet.canonical_size();
    let mut output = out.filled(size);
    if output.len() == size {
        packet.write_canonical(&mut output);
    }
    output
}

/// Returns the canonical packet of the packet that the bytes are, written over bytes `ee`.
pub fn written_over(bytes: &[u8], out: &mut Answer) -> Vec<u8> {
    match SctpPacket::from_bytes(out.alloc, bytes, 0, &ANY) {
        Ok(packet) => canonical_of(&packet, out),
        Err(_) => Vec::new(out.alloc),
    }
}

/// Returns whether this is the rest of an answer after what a packet has, its arrow and its fault.
fn is_end(rest: &str) -> bool {
    rest.is_empty() || rest.starts_with(" -> ") || rest.starts_with(" | ")
}

/// Returns whether the canonical packet has as many parts, prints the same, is written as itself,
/// and is answered by a strict reader with the same.
fn is_kept(canonical: &[u8], text: &str, out: &mut Answer) -> bool {
    let mut same = out.another();
    write_both(canonical, &mut same);
    out.end_as(&same);
    text.strip_prefix(same.text.as_str()).is_some_and(is_end)
}

/// Adds what all chunks print to the text, and to the bytes how they are written, with zeros as
/// padding. Each begins after the one before.
fn add_chunks(
    chunks: &[u8],
    written: &mut Vec<u8>,
    text: &mut Answer,
) -> Result<(), ChunkParseError> {
    let mut rest = chunks;
    for _ in 0..chunks.len() {
        if rest.is_empty() {
            break;
        }
        let (raw, after) = RawChunk::from_bytes(rest)?;
        let chunk = Chunk::try_from(text.alloc, raw)?;
        add_chunk(&chunk, written, text);
        rest = after;
    }
    Ok(())
}

fn add_chunk(chunk: &Chunk, written: &mut Vec<u8>, text: &mut Answer) {
    text.unless(written.is_empty(), " / ");
    write!(text, "{chunk}");
    let image = image_of(chunk, text);
    text.or_out_of_memory(written.extend_from_slice(&image));
    let size = written.len().wrapping_add(3) / 4 * 4;
    text.or_out_of_memory(written.resize(size, 0));
}

/// Returns whether a packet's answer has this text after the number of parts. A packet that is too
/// large is refused, whatever its chunks are; and one that doesn't fit isn't written.
fn has_chunks(answer: &str, text: &str) -> bool {
    match answer.split_once(" | ") {
        Some((_, texts)) if !texts.contains(" -> none") => texts
            .strip_prefix(text)
            .is_some_and(|rest| rest.is_empty() || rest.starts_with(" | ")),
        Some(_) => true,
        None => answer.starts_with("InvalidPacketSize"),
    }
}

/// Returns whether the chunks by themselves are answered as their packet is: they print the same
/// and are written so, or the first that has a fault has this one.
fn is_one_by_one(chunks: &[u8], answer: &str, out: &mut Answer) -> bool {
    let (mut text, mut written) = (out.another(), Vec::new(out.alloc));
    let added = add_chunks(chunks, &mut written, &mut text);
    out.end_as(&text);
    match added {
        Ok(()) => {
            write!(text, "{}", Change(chunks, &written));
            has_chunks(answer, &text.text)
        }
        Err(fault) => {
            let mut begin = out.another();
            write!(begin, "{fault:?} at ");
            chunks.len() < 4 || answer.starts_with(begin.text.as_str())
        }
    }
}

/// Returns whether the other packet means the same as the canonical packet, and with a bit changed
/// in one of its first bytes the same as the packet if and only if both have one canonical packet.
fn is_compared(bytes: &[u8], other: &[u8], out: &mut Answer) -> bool {
    let canonical = written_over(bytes, out);
    if canonical.is_empty() || other.len() > 1000 {
        return true;
    }
    let mut changed = out.copy(other);
    let mut alike = mean_alike(other, &canonical);
    for i in 0..other.len().min(40) {
        flip(&mut changed, i, 1);
        let written = written_over(&changed, out);
        let same = written.as_slice() == canonical.as_slice();
        alike = alike && (written.is_empty() || mean_alike(&changed, bytes) == same);
        flip(&mut changed, i, 1);
    }
    alike
}

/// Writes what the packet of these chunks is answered with; and where it is answered otherwise.
fn write_packet_row(chunks: &[u8], other: &[u8], out: &mut Answer) {
    let (bytes, others) = (packet_of(chunks, out), packet_of(other, out));
    let mut answer = out.another();
    write_both(&bytes, &mut answer);
    out.add(&answer);
    let canonical = written_over(&others, out);
    let is_so = canonical.is_empty() || is_kept(&canonical, &answer.text, out);
    out.unless(is_so, "; the canonical packet is answered otherwise");
    let is_so = canonical.as_slice() == canonical_in_place(&others, out).as_slice();
    out.unless(
        is_so,
        "; the canonical packet is written otherwise in place",
    );
    let is_so = is_compared(&bytes, &others, out);
    out.unless(is_so, "; it is compared otherwise in place");
    let is_so = is_one_by_one(other, &answer.text, out);
    out.unless(is_so, "; the chunks by themselves are answered otherwise");
    write_otherwise(&bytes, &others, out)
}

// ---- checksum words

/// Writes the header's numbers.
pub fn write_header(header: &CommonHeader, out: &mut Answer) {
    let (source, destination) = (header.source_port, header.destination_port);
    let (tag, checksum) = (header.verification_tag, header.checksum);
    write!(out, "{:?}", (source, destination, tag, checksum))
}

/// Writes the numbers of the header at the front.
fn write_front(bytes: &[u8], out: &mut Answer) {
    match CommonHeader::from_bytes(bytes) {
        Some(header) => write_header(&header, out),
        None => out.say("none"),
    }
}

/// Writes what a packet is read as: the header's numbers, the chunks, and the canonical packet; and
/// that the check of the other one refuses it, if it does; or its fault. The bytes are the expected
/// word, a byte that accepts the word 0 too if it is 1, and the packet.
fn write_verified(bytes: &[u8], other: &[u8], out: &mut Answer) {
    let mut policy = ChecksumPolicy::default();
    if bytes.get(4) == Some(&1) {
        policy.zero_checksum_alternate_error_detection_method = DTLS;
    }
    let (word, bytes, other) = (word_at(bytes, 0), from(bytes, 5), from(other, 5));
    if !has_no_fault(bytes, other, word, &policy, out) {
        return;
    }
    match SctpPacket::from_bytes(out.alloc, bytes, word, &policy) {
        Ok(packet) => {
            write_header(&packet.common_header, out);
            write!(out, " {:?}", packet.chunks);
            write_canonical(&packet, &[], bytes, out);
            out.unless(
                SctpPacket::check(other, word, &policy).is_ok(),
                "; the check refuses it",
            )
        }
        Err(error) => write!(out, "{error:?}"),
    }
}

// ---- a chunk alone in a packet

/// Writes the packet's first chunk, as the row of these bytes shows it.
fn write_first(bytes: &[u8], policy: &ChecksumPolicy, chunk: &[u8], out: &mut Answer) {
    match SctpPacket::from_bytes(out.alloc, bytes, 0, policy) {
        Ok(packet) => match packet.chunks.first() {
            Some(first) => write_value(chunk, first, out),
            None => out.say("no chunk"),
        },
        Err(error) => write!(out, "{error:?}"),
    }
}

/// Writes where the chunk is another one: in the packet of it alone, in the packet that is built of
/// it, in which one with a fault isn't; and where that packet is answered otherwise.
pub fn write_packed(chunk: &[u8], text: &str, out: &mut Answer) {
    let (bytes, built) = (packet_of(chunk, out), built_of(chunk, out));
    let (mut first, mut second) = (out.another(), out.another());
    write_first(&bytes, &ANY, chunk, &mut first);
    out.end_as(&first);
    out.unless(first.text.contains(text), "; in a packet it is another one");
    write_first(&built, &ANY.strict(), chunk, &mut second);
    out.end_as(&second);
    out.unless(
        second.text.as_str() == text || built.is_empty() && !text.contains("; "),
        "; in a packet that is built it is another one",
    );
    let mut answer = out.another();
    write_packet_row(chunk, chunk, &mut answer);
    let is_so = !answer.text.contains("otherwise");
    out.add_unless(is_so, "; ", &answer)
}

// ---- sizes

/// Writes of the packet of these chunks how many chunks there are, whether each can be written, the
/// size of the canonical packet, and whether that is the packet itself; or its fault.
fn write_sizes(chunks: &[u8], out: &mut Answer) {
    let bytes = packet_of(chunks, out);
    match SctpPacket::from_bytes(out.alloc, &bytes, 0, &ANY) {
        Ok(packet) => {
            let is_encodable = packet.chunks.iter().all(|chunk| chunk.encodable());
            let canonical = canonical_of(&packet, out);
            let (count, size) = (packet.chunks.len(), canonical.len());
            let is_same = canonical.as_slice() == bytes.as_slice();
            write!(out, "{:?}", (count, is_encodable, size, is_same))
        }
        Err(error) => write!(out, "{error:?}"),
    }
}

// ---- errors

/// What a chunk is refused for.
const CHUNK_ERRORS: [ChunkParseError; 5] = [
    ChunkParseError::InvalidLength,
    ChunkParseError::InvalidType,
    ChunkParseError::InvalidPadding,
    ChunkParseError::InvalidValue,
    ChunkParseError::OutOfMemory,
];

/// What a packet is refused for.
const ERRORS: [PacketParseError; 4] = [
    PacketParseError::InvalidPacketSize,
    PacketParseError::InvalidChecksum,
    PacketParseError::InvalidChunkSize,
    PacketParseError::FailedParseChunk(ChunkParseError::InvalidValue),
];

/// Writes each error's text.
fn write_texts<E: Debug + Display>(errors: &[E], out: &mut Answer) {
    for error in errors {
        write!(out, "{error:?}: {error}; ");
    }
}

fn write_errors(out: &mut Answer) {
    write_texts(&CHUNK_ERRORS, out);
    write_texts(&ERRORS, out);
    write_texts(&[CanonicalError::DoesNotFit, CanonicalError::NoRoom], out)
}

// ---- over other bytes

/// Writes the chunk at the front as it is written over bytes `ee`, four more than it has.
fn write_over(bytes: &[u8], out: &mut Answer) {
    if let Ok(chunk) = chunk_of(out.alloc, bytes) {
        if chunk.encodable() {
            let size = chunk.serialized_size();
            let mut output = out.filled(size.saturating_add(4));
            if output.len() >= size {
                chunk.serialize_to(&mut output);
            }
            return write!(out, "{size} {}", Digits(&output));
        }
    }
    out.say("none")
}

/// Writes the answer, if the call is one of this module; else the next one does.
pub fn write_answer(call: &str, bytes: &[u8], other: &[u8], out: &mut Answer) {
    match call {
        "packet" => write_packet_row(bytes, other, out),
        "packet-sizes" => write_sizes(bytes, out),
        "header" => write_front(bytes, out),
        "errors" => write_errors(out),
        "over" => write_over(bytes, out),
        "verified" => write_verified(bytes, other, out),
        _ => sack::write_answer(call, bytes, other, out),
    }
}
