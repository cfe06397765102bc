//! A packet without chunks, a packet in whose bytes a number was written, and errors of errors.

use crate::tests::help::{HEADER, PACKET};
use dcsctp_borrowed::in_place::{set_checksum_word, set_verification_tag};
use dcsctp_wire::laws;
use dcsctp_wire::packet::ChunkParseError::{InvalidLength, InvalidValue};
use dcsctp_wire::packet::sctp_packet::PacketParseError::{self, FailedParseChunk};
use dcsctp_wire::packet::sctp_packet::{COMMON_HEADER_SIZE, ChecksumPolicy, SctpPacket};
use std::alloc::Global;
use std::test::Fail;

/// Returns whether the packet without its chunks fits, and its canonical packet is the header.
fn is_header_without_chunks(alloc: Global, bytes: &[u8]) -> Result<bool, PacketParseError> {
    let mut packet = SctpPacket::from_bytes(alloc, bytes, 0, &ChecksumPolicy::ANY_CHECKSUM)?;
    laws::has_widths(&packet);
    packet.chunks.clear();
    if !packet.fits() {
        return Ok(false);
    }
    let canonical = packet.canonical_bytes(alloc)?;
    Ok(canonical.as_slice() == HEADER.as_slice())
}

// A packet without chunks isn't read, but it fits, and is its header.
#[test]
fn empty(rt: HostRuntime) -> Result<(), Fail> {
    assert!(rt; is_header_without_chunks(rt.alloc(), &PACKET)? && COMMON_HEADER_SIZE == 12);
    Ok(())
}

#[test]
fn of_a_chunk(rt: HostRuntime) {
    assert!(rt; PacketParseError::from(InvalidLength) == FailedParseChunk(InvalidLength));
    assert!(rt; PacketParseError::from(InvalidValue) == FailedParseChunk(InvalidValue));
}

// The tag and the checksum field, one after the other.
#[test]
fn of_changes(rt: HostRuntime) {
    let mut bytes = PACKET;
    set_verification_tag(&mut bytes, 0x05060708);
    assert!(rt; bytes == *b"\x13\x88\x13\x88\x05\x06\x07\x08\0\0\0\0\x0b\0\0\x04");
    set_checksum_word(&mut bytes, 0x090a0b0c);
    assert!(rt; bytes == *b"\x13\x88\x13\x88\x05\x06\x07\x08\x09\x0a\x0b\x0c\x0b\0\0\x04");
    assert!(rt; SctpPacket::check(&bytes, 0x090a0b0c, &ChecksumPolicy::default()) == Ok(1));
}
