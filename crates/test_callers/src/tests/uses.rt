//! The programs of `test_callers` that take memory, once each. Packets are laid out by hand after
//! RFC 9260, or of the association; checksums are as another program computes them.

ghost use Rattle.std.specs.Prelude.{◌≤◌, length};

use crate::acknowledge::acknowledgment_with_data;
use crate::answer::answer;
use crate::handshake::init_answer;
use crate::in_place::owned_chunks;
use crate::normal::normalized;
use crate::print::packet_to_text;
use crate::replay::fingerprint;
use crate::sealed::{read_verified, seal};
use crate::tests::association::{PACKETS, REFUSED};
use crate::tests::help::{chunk_of, raw_of};
use dcsctp_crc32c::packet_word;
use dcsctp_wire::packet::ChunkParseError;
use dcsctp_wire::packet::data_chunk::DataChunk;
use dcsctp_wire::packet::init_ack_chunk::InitAckChunk;
use dcsctp_wire::packet::init_chunk::InitChunk;
use dcsctp_wire::packet::parameter::Parameter;
use dcsctp_wire::packet::sack_chunk::SackChunk;
use dcsctp_wire::packet::sctp_packet::{
    ChecksumPolicy, CommonHeader, PacketParseError, SctpPacket, SctpPacketBuilder,
};
use dcsctp_wire::packet::state_cookie_parameter::StateCookieParameter;
use dcsctp_wire::types::Tsn;
use std::alloc::{AllocError, Global};
use std::test::Fail;

const HEADER: CommonHeader = CommonHeader {
    source_port: 1,
    destination_port: 2,
    verification_tag: 7,
    checksum: 0,
};

/// Returns whether the bytes that are made are these; none, if they have no room.
fn are(made: Option<Vec<u8>>, wanted: &[u8]) -> bool {
    match made {
        Some(bytes) => bytes.as_slice() == wanted,
        None => wanted.is_empty(),
    }
}

// ---- packets that are made

/// Returns whether the packet of a SACK and DATA has these bytes. The DATA has two bytes, and two
/// of padding.
fn acknowledges(alloc: Global, limit: u16, wanted: &[u8]) -> Result<bool, ChunkParseError> {
    let sack = raw_of(b"\x03\0\0\x10\0\0\0\x09\0\0\x04\0\0\0\0\0")?;
    let message = raw_of(b"\0\x03\0\x12\0\0\0\x05\0\x03\0\x04\0\0\0\x33hi")?;
    let sack = SackChunk::try_from(alloc, sack)?;
    let message = DataChunk::try_from(alloc, message)?;
    let made = acknowledgment_with_data(alloc, &HEADER, sack, message, limit, 6)?;
    Ok(are(made, wanted))
}

/// Returns whether the answer to an INIT, built with a word of 6, has these bytes.
fn answers(alloc: Global, wanted: &[u8]) -> Result<bool, ChunkParseError> {
    let init = raw_of(b"\x01\0\0\x14\0\0\0\x08\0\0\x04\0\0\x01\0\x02\0\0\0\x03")?;
    let answer = raw_of(b"\x02\0\0\x14\0\0\0\x05\0\0\x08\0\0\x02\0\x01\0\0\0\x04")?;
    let init = InitChunk::try_from(alloc, init)?;
    let answer = InitAckChunk::try_from(alloc, answer)?;
    Ok(match init_answer(alloc, &HEADER, &init, answer, 100)? {
        Some(mut builder) => builder.build(6).as_slice() == wanted,
        None => false,
    })
}

fn has_key(alloc: Global, bytes: &[u8], wanted: &[u8]) -> Result<bool, PacketParseError> {
    let key = fingerprint(alloc, bytes, 0, &ChecksumPolicy::default())?;
    Ok(are(key, wanted))
}

fn normalizes(alloc: Global, bytes: &[u8], wanted: &[u8]) -> Result<bool, PacketParseError>
    requires { length bytes.now ≤ 65532 }
{
    let made = normalized(alloc, bytes, 0, &ChecksumPolicy::default())?;
    Ok(are(made, wanted))
}

#[test]
fn of_made_packets(rt: HostRuntime) -> Result<(), Fail> {
    let alloc = rt.alloc();
    // ports the other way round, tag, word; SACK; DATA
    let packet =
        b"\0\x02\0\x01\0\0\0\x07\0\0\0\x06\x03\0\0\x10\0\0\0\x09\0\0\x04\0\0\0\0\0\0\x03\0\x12\0\0\0\x05\0\x03\0\x04\0\0\0\x33hi\0\0";
    // a limit of a byte less has no room for the DATA
    assert!(rt; acknowledges(alloc, 48, packet)? && acknowledges(alloc, 47, &[])?);
    // ports the other way round, the tag that the INIT asks for, the word; INIT ACK
    let packet =
        b"\0\x02\0\x01\0\0\0\x08\0\0\0\x06\x02\0\0\x14\0\0\0\x05\0\0\x08\0\0\x02\0\x01\0\0\0\x04";
    assert!(rt; answers(alloc, packet)?);
    // COOKIE ACK with a flag bit that isn't read, and so isn't in the key
    let packet = b"\0\x01\0\x02\0\0\0\x07\0\0\0\0\x0b\x80\0\x04";
    let key = b"\0\x01\0\x02\0\0\0\x07\0\0\0\0\x0b\0\0\x04";
    assert!(rt; has_key(alloc, packet, key)? && normalizes(alloc, packet, key)?);
    // ABORT, whose causes are left alone
    let packet = b"\0\x01\0\x02\0\0\0\x07\0\0\0\0\x06\0\0\x04";
    assert!(rt; normalizes(alloc, packet, &[])?);
    Ok(())
}

// ---- packets with their checksums

/// A COOKIE ACK, whose CRC32c is a5515aee.
const SEALED: &[u8] = b"\x13\x88\x13\x88\x01\x02\x03\x04\xee\x5a\x51\xa5\x0b\0\0\x04";

fn seals(alloc: Global, wanted: &[u8]) -> Result<bool, ChunkParseError> {
    let mut builder = SctpPacketBuilder::new(alloc, 0x01020304, 5000, 5000, 16);
    let is_added = builder.try_add(&chunk_of(alloc, b"\x0b\0\0\x04")?)?;
    Ok(is_added && seal(&mut builder).as_slice() == wanted)
}

/// Returns how many chunks are read.
fn chunks_of(alloc: Global, bytes: &[u8]) -> Result<usize, PacketParseError> {
    Ok(read_verified(alloc, bytes)?.chunks.len())
}

/// Returns the packet after a change of one bit of its checksum field.
fn with_change(alloc: Global, bytes: &[u8], bit: u32) -> Result<Vec<u8>, AllocError> {
    let mut changed = Vec::from_slice(alloc, bytes)?;
    if let Some(byte) = changed.get_mut(8 + (bit as usize) / 8) {
        *byte ^= 1u8.rotate_left(bit % 8);
    }
    Ok(changed)
}

/// Returns whether the packet is refused after each single change.
fn is_refused_after_changes(alloc: Global, bytes: &[u8]) -> Result<bool, AllocError> {
    let mut is_refused = true;
    for bit in 0..32 {
        let changed = with_change(alloc, bytes, bit)?;
        let answer = chunks_of(alloc, &changed);
        is_refused = is_refused && answer == Err(PacketParseError::InvalidChecksum);
    }
    Ok(is_refused)
}

fn has_text(alloc: Global, bytes: &[u8], wanted: &str) -> Result<bool, PacketParseError> {
    Ok(packet_to_text(alloc, bytes)?.as_str() == wanted)
}

/// Returns whether the chunks that are built from their places are those of the packet.
fn readings_agree(alloc: Global, bytes: &[u8]) -> Result<bool, PacketParseError> {
    let chunks = owned_chunks(alloc, bytes, packet_word(bytes), &ChecksumPolicy::default())?;
    let built = format!(in alloc; "{chunks:?}")?;
    let packet = read_verified(alloc, bytes)?;
    let read = format!(in alloc; "{:?}", packet.chunks)?;
    Ok(read.as_str() == built.as_str())
}

#[test]
fn of_sealed_packets(rt: HostRuntime) -> Result<(), Fail> {
    let alloc = rt.alloc();
    assert!(rt; seals(alloc, SEALED)? && chunks_of(alloc, SEALED) == Ok(1));
    assert!(rt; is_refused_after_changes(alloc, SEALED)?);
    for (bytes, text) in PACKETS {
        assert!(rt;
            has_text(alloc, bytes, text)? && readings_agree(alloc, bytes)?,
            "{text}"
        );
        assert!(rt; is_refused_after_changes(alloc, bytes)?, "{text}");
    }
    Ok(())
}

fn has_fault(bytes: &[u8], fault: &PacketParseError, offset: usize) -> bool {
    match SctpPacket::first_fault(bytes, packet_word(bytes), &ChecksumPolicy::default()) {
        Some(found) => found.fault == *fault && found.offset == offset,
        None => false,
    }
}

#[test]
fn of_refused_packets(rt: HostRuntime) {
    for (bytes, fault, offset) in REFUSED {
        assert!(rt; has_fault(bytes, fault, *offset), "{fault:?}");
    }
}

// ---- answers

/// The tag that the association's INIT asks for.
const PEER_TAG: u32 = 0x4d2df52d;

/// Returns the INIT ACK of the association's other side, with a cookie of four bytes alone.
fn own(alloc: Global) -> Result<InitAckChunk, AllocError> {
    let mut parameters = Vec::new(alloc);
    let cookie = Vec::from_slice(alloc, b"abcd")?;
    parameters.push(Parameter::StateCookie(StateCookieParameter { cookie }))?;
    Ok(InitAckChunk {
        initiate_tag: 0x0da73798,
        a_rwnd: 0x20000,
        nbr_outbound_streams: 4,
        nbr_inbound_streams: 4,
        initial_tsn: Tsn(0x66e387ab),
        parameters,
    })
}

/// The association's INIT, and its answer: ports, the tag that the INIT asks for, CRC32c, and that
/// INIT ACK.
const INIT: &[u8] =
    b"\x13\x88\x13\x88\0\0\0\0\x8d\xa5\x42\x1e\x01\0\0\x56\x4d\x2d\xf5\x2d\0\x02\0\0\0\x04\0\x04\x79\x06\xb4\xb0\xc0\0\0\x04\x80\x08\0\x09\xc0\x0f\xc1\x80\x82\0\0\0\x80\x02\0\x24\x0a\x30\x34\x7d\xfd\x1e\x9b\x4f\xb3\xf9\x7f\x8d\x9b\xaf\xc8\x71\xa3\xc5\x34\x5c\x24\xb8\xd8\xd4\x4b\xc9\x80\xe8\xef\x05\x3b\x4c\x80\x04\0\x06\0\x01\0\0\x80\x03\0\x06\x80\xc1\0\0";

const INIT_ACK: &[u8] =
    b"\x13\x88\x13\x88\x4d\x2d\xf5\x2d\xf8\x8b\x17\xdc\x02\0\0\x1c\x0d\xa7\x37\x98\0\x02\0\0\0\x04\0\x04\x66\xe3\x87\xab\0\x07\0\x08abcd";

/// Packets, and what answers each.
const ANSWERS: &[(&[u8], &[u8])] = &[
    (INIT, INIT_ACK),
    // the association's DATA, and the SACK with which usrsctp answered it
    (
        b"\x13\x88\x13\x88\x0d\xa7\x37\x98\x11\x48\xa1\xf6\0\x03\0\x15\x79\x06\xb4\xb0\0\x01\0\0\0\0\0\x33hello\0\0\0",
        b"\x13\x88\x13\x88\x4d\x2d\xf5\x2d\xc6\x04\xd6\x2e\x03\0\0\x10\x79\x06\xb4\xb0\0\x02\0\0\0\0\0\0",
    ),
    // DATA of the other way, under the tag of the peer
    (
        b"\x13\x88\x13\x88\x4d\x2d\xf5\x2d\xa3\xd0\x56\xd9\0\x07\0\x1c\x66\xe3\x87\xab\0\x01\0\0\0\0\0\x33hello to you",
        b"",
    ),
    // an INIT from port 1 to port 2 that asks for the tag 8
    (
        b"\0\x01\0\x02\0\0\0\0\x53\xee\x20\x12\x01\0\0\x14\0\0\0\x08\0\0\x04\0\0\x01\0\x02\0\0\0\x03",
        b"\0\x02\0\x01\0\0\0\x08\x5d\x4e\x63\x48\x02\0\0\x1c\x0d\xa7\x37\x98\0\x02\0\0\0\x04\0\x04\x66\xe3\x87\xab\0\x07\0\x08abcd",
    ),
    // the same under a tag of one
    (
        b"\0\x01\0\x02\0\0\0\x01\xce\x25\x14\x3c\x01\0\0\x14\0\0\0\x08\0\0\x04\0\0\x01\0\x02\0\0\0\x03",
        b"",
    ),
    // the same with a COOKIE ACK after it
    (
        b"\0\x01\0\x02\0\0\0\0\x22\xc1\x73\xf1\x01\0\0\x14\0\0\0\x08\0\0\x04\0\0\x01\0\x02\0\0\0\x03\x0b\0\0\x04",
        b"",
    ),
    // a COOKIE ACK
    (SEALED, b""),
];

/// Returns whether the packet is answered with these bytes; with nothing, if they are none.
fn is_answered(
    alloc: Global,
    bytes: &[u8],
    limit: u16,
    wanted: &[u8],
) -> Result<bool, PacketParseError> {
    let made = answer(alloc, bytes, own(alloc)?, PEER_TAG, limit)?;
    Ok(are(made, wanted))
}

/// Returns whether the packet is refused after the change of one bit.
fn is_refused_if_changed(alloc: Global, bytes: &[u8]) -> Result<bool, AllocError> {
    let changed = with_change(alloc, bytes, 0)?;
    let answer = is_answered(alloc, &changed, 1200, b"");
    Ok(answer == Err(PacketParseError::InvalidChecksum))
}

#[test]
fn of_answers(rt: HostRuntime) -> Result<(), Fail> {
    let alloc = rt.alloc();
    for (bytes, wanted) in ANSWERS {
        assert!(rt; is_answered(alloc, bytes, 1200, wanted)?, "{bytes:?}");
        assert!(rt; is_refused_if_changed(alloc, bytes)?, "{bytes:?}");
    }
    // within a limit, and one byte less
    assert!(rt; is_answered(alloc, INIT, 40, INIT_ACK)? && is_answered(alloc, INIT, 39, b"")?);
    Ok(())
}
