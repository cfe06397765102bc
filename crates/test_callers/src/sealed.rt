//! Packets with a CRC32c in their checksum field: to be sent, and as they are received.

ghost use Rattle.std.specs.Prelude.{◌≡◌, ◌≢◌, ◌≤◌, ◌↔◌, [], ℕ, List, true, Ok, Err, IfOk, IsErrOf};
ghost use Rattle.std.specs.List.{AllByRecursion};
ghost use Rattle.dcsctp_wire.specs.Caller.{Exactly, ChecksumFault, HasPacketSize, checksum_field, packet_reading, packet_view, ChunkTree, IsChunkWellFormed, all_kept, Holds, built, meaning_with};
ghost use Rattle.dcsctp_crc32c.specs.Checksum.{packet_word};
ghost use Rattle.test_callers.specs.Sealed.{Verified, HasOtherField};

use dcsctp_crc32c::packet_word;
use dcsctp_wire::packet::sctp_packet::{
    ChecksumPolicy, PacketParseError, SctpPacket, SctpPacketBuilder,
};
use std::alloc::Global;

/// Reads a packet and verifies its checksum (RFC 9260 section 6.8). Padding is ignored.
///
/// Returns `InvalidChecksum` if and only if there are 16 to 65,535 bytes and the checksum field
/// isn't the CRC32c; otherwise what `SctpPacket::from_bytes` returns for the word of the bytes.
pub fn read_verified(alloc: Global, bytes: &[u8]) -> Result<SctpPacket, PacketParseError>
    ensures answer { Exactly packet_reading packet_view (Verified bytes.now) result }
    ensures checksum { IsErrOf result PacketParseError.InvalidChecksum ↔ (HasPacketSize bytes.now
        × (checksum_field bytes.now ≢ packet_word bytes.now)) }
    // A packet that was read is refused with any other checksum field.
    ensures changed { IfOk result (λ _. (others : List ℕ)
        → HasOtherField bytes.now others → Verified others (Err ChecksumFault)) }
{
    let policy = ChecksumPolicy::default();
    SctpPacket::from_bytes(alloc, bytes, packet_word(bytes), &policy)
}

/// Returns the packet with its CRC32c in the checksum field, or no bytes if there are no chunks.
/// The builder then holds no chunk, and has the same ports, tag, limit and switch. Does not
/// allocate.
///
/// If the switch is on, the limit is at most 65,535 bytes and what was added can be read,
/// `read_verified` reads the packet as the chunks that were added; only fields that a kind of chunk
/// doesn't carry are zero.
pub fn seal(builder: &mut SctpPacketBuilder) -> Vec<u8>
    ensures bytes { result.items ≡ built builder.old (packet_word builder.old.bytes) }
    ensures empty { builder.new ≡ record builder.old { bytes = []; reserved = 0 } }
    ensures reads { builder.old.writes_checksum ≡ true → builder.old.limit ≤ 65535
        → (chunks : List ChunkTree) → Holds builder.old chunks → chunks ≢ []
        → AllByRecursion IsChunkWellFormed (all_kept chunks)
        → Verified result.items (Ok (record {
          meaning = meaning_with builder.old (all_kept chunks);
          checksum = packet_word result.items;
        })) }
{
    let word = packet_word(builder.as_bytes());
    builder.build(word)
}
