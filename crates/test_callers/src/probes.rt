//! What a benchmark calls from C (`docs/SPEED.md`): each call takes the bytes of a packet, and
//! `probes_refill` those of many, returns a number, and drops all that it made.
//!
//! In C a slice is a pointer and a length, and `alloc` takes no place among the arguments: memory
//! comes from the C program's `malloc` and `realloc`. The checksum field may hold any number.
#![tactic(auto)]

mod crc;
mod kept;
mod walk;

ghost use Rattle.std.specs.Prelude.{◌≡◌, ◌≢◌, ◌⊎◌, ℕ, [], false, Ok, IfOk, drop};
ghost use Rattle.dcsctp_wire.specs.Account.{node_count};
ghost use Rattle.dcsctp_wire.specs.Packet.{PacketTree, Answer, IsPacket, IsAccepted, meaning_view};
ghost use Rattle.test_callers.specs.Probe.{IsZeroOr, IsChunkCount, IsCanonicalSize, BeginsCanonical, IsRunCount};

use dcsctp_borrowed::canonical::write_canonical;
use dcsctp_borrowed::packet_ref::SctpPacketRef;
use dcsctp_wire::api::ZERO_CHECKSUM_ALTERNATE_ERROR_DETECTION_METHOD_NONE;
use dcsctp_wire::packet::chunk::Chunk;
use dcsctp_wire::packet::chunk_validators::clean_sack;
use dcsctp_wire::packet::sctp_packet::{ChecksumPolicy, SctpPacket, SctpPacketBuilder};
use dcsctp_wire::packet::{SerializableTlv, round_up_to_4};
use std::alloc::{AllocError, Global};

/// Every checksum field is accepted, and any padding (`any_checksum`).
pub const ANY_CHECKSUM: ChecksumPolicy = ChecksumPolicy {
    disable_checksum_verification: true,
    zero_checksum_alternate_error_detection_method: ZERO_CHECKSUM_ALTERNATE_ERROR_DETECTION_METHOD_NONE,
    strict_padding: false,
};

/// Proves that the policy accepts every checksum field, and looks at no padding. Does nothing.
pub fn any_checksum()
    ensures accepts { (field word : ℕ) → IsAccepted ANY_CHECKSUM field word }
    ensures padding { ANY_CHECKSUM.strict_padding ≡ false }
{}

/// Checks a packet: the number of its parts, which are chunks, parameters and error causes; 0 where
/// the bytes are none.
#[unsafe(no_mangle)]
pub extern "C" fn probes_check(bytes: &[u8]) -> usize
    ensures packet { (p : PacketTree) → Answer bytes.now 0 ANY_CHECKSUM (Ok p)
        → result ≡ node_count p.meaning }
    ensures none { ¬ IsPacket bytes.now 0 ANY_CHECKSUM → result ≡ 0 }
{
    match SctpPacket::check(bytes, 0, &ANY_CHECKSUM) {
        Ok(parts) => parts,
        Err(_) => 0,
    }
}

/// Reads a packet: the number of its chunks; 0 where the bytes are none, or memory runs out.
#[unsafe(no_mangle)]
pub extern "C" fn probes_read(alloc: Global, bytes: &[u8]) -> usize
    ensures { IsZeroOr IsChunkCount bytes.now result }
{
    match SctpPacket::from_bytes(alloc, bytes, 0, &ANY_CHECKSUM) {
        Ok(packet) => packet.chunks.len(),
        Err(_) => 0,
    }
}

/// Reads a packet and writes the canonical one: the number of its bytes; 0 where there is none, or
/// memory runs out.
#[unsafe(no_mangle)]
pub extern "C" fn probes_read_and_write(alloc: Global, bytes: &[u8]) -> usize
    ensures { IsZeroOr IsCanonicalSize bytes.now result }
{
    match SctpPacket::from_bytes(alloc, bytes, 0, &ANY_CHECKSUM) {
        Ok(packet) => {
            if !packet.fits() {
                return 0;
            }
            match packet.canonical_bytes(alloc) {
                Ok(canonical) => canonical.len(),
                Err(_) => 0,
            }
        }
        Err(_) => 0,
    }
}

/// Reads a packet and writes the canonical one over the front of `output`, with no memory for the
/// writing: the number of its bytes; 0 where there is none, or no room, or memory runs out, and
/// then nothing is written. The bytes after the packet stay.
#[unsafe(no_mangle)]
pub extern "C" fn probes_write_over(alloc: Global, bytes: &[u8], output: &mut [u8]) -> usize
    ensures written { IsZeroOr (BeginsCanonical output.new) bytes.now result }
    ensures rest { drop result output.new ≡ drop result output.old }
{
    match SctpPacket::from_bytes(alloc, bytes, 0, &ANY_CHECKSUM) {
        Ok(packet) => {
            if !packet.fits() {
                return 0;
            }
            let size = packet.canonical_size();
            if size > output.len() {
                return 0;
            }
            let (front, _) = output.split_at_mut(size);
            packet.write_canonical(front);
            size
        }
        Err(_) => 0,
    }
}

/// Writes the canonical packet over the front of `output`, of the bytes that mean it, with no
/// memory: the number of its bytes; 0 where there is none, or no room, and then nothing is written.
/// The bytes after the packet stay.
#[unsafe(no_mangle)]
pub extern "C" fn probes_write_in_place(bytes: &[u8], output: &mut [u8]) -> usize
    ensures written { IsZeroOr (BeginsCanonical output.new) bytes.now result }
    ensures rest { drop result output.new ≡ drop result output.old }
{
    match SctpPacketRef::from_bytes(bytes, 0, &ANY_CHECKSUM) {
        Ok(packet) => match write_canonical(&packet, output) {
            Ok(size) => size,
            Err(_) => 0,
        },
        Err(_) => 0,
    }
}

/// Reads a packet and builds the canonical one with the builder, chunk by chunk: the number of its
/// bytes; 0 where there is none, or memory runs out.
#[unsafe(no_mangle)]
pub extern "C" fn probes_build(alloc: Global, bytes: &[u8]) -> usize
    ensures { IsZeroOr IsCanonicalSize bytes.now result }
{
    match SctpPacket::from_bytes(alloc, bytes, 0, &ANY_CHECKSUM) {
        Ok(packet) => match built_size(alloc, &packet) {
            Ok(size) => size,
            Err(_) => 0,
        },
        Err(_) => 0,
    }
}

/// Builds the canonical packet within its own size, and returns how many bytes it has; 0 if it
/// doesn't fit. Refused only if memory runs out.
fn built_size(alloc: Global, packet: &SctpPacket) -> Result<usize, AllocError>
    requires { (meaning_view packet.now).chunks ≢ [] }
    ensures { IfOk result (λ size. (size ≡ 0)
        ⊎ IsCanonicalSize (meaning_view packet.now) size) }
{
    if !packet.fits() {
        return Ok(0);
    }
    let header = &packet.common_header;
    let mut builder = SctpPacketBuilder::new(
        alloc,
        header.verification_tag,
        header.source_port,
        header.destination_port,
        packet.canonical_size(),
    );
    builder.write_checksum(false);
    for chunk in &packet.chunks {
        // as a caller has to, who doesn't know that they fit
        let Some(size) = chunk.encoded_size() else {
            return Ok(0);
        };
        if round_up_to_4(size) > builder.bytes_remaining() {
            return Ok(0);
        }
        builder.add(chunk)?;
    }
    Ok(builder.build(0).len())
}

/// Reads a packet and cleans the SACK that is its last chunk: the number of its runs; 0 where there
/// is none, or memory runs out.
#[unsafe(no_mangle)]
pub extern "C" fn probes_clean(alloc: Global, bytes: &[u8]) -> usize
    ensures { IsZeroOr IsRunCount bytes.now result }
{
    match SctpPacket::from_bytes(alloc, bytes, 0, &ANY_CHECKSUM) {
        Ok(packet) => {
            let mut chunks = packet.chunks;
            match chunks.pop() {
                Some(Chunk::Sack(sack)) => clean_sack(sack).gap_ack_blocks.len(),
                _ => 0,
            }
        }
        Err(_) => 0,
    }
}
