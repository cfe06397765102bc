//! The first fault of a packet, and where it lies.

ghost use Rattle.std.specs.Prelude.{◌≡◌, ◌≤◌, length, IfSome};
ghost use Rattle.dcsctp_tlv.specs.{Reading.{Exactly}, declared.error.ChunkParseError.TheVariants.{OutOfMemory}};
ghost use Rattle.dcsctp_wire.specs.{Place.{PacketLocated, packet_locating, refused}, declared.packet.sctp_packet.PacketParseError.TheVariants.{FailedParseChunk}};

use crate::packet::sctp_packet::{ChecksumPolicy, PacketParseError, SctpPacket, check_packet};

/// The first fault of an invalid packet, and its offset.
#[derive(Debug, Drop, PartialEq, Eq)]
pub struct FirstFault {
    /// What `from_bytes` and `check` return; never that memory ran out.
    pub fault: PacketParseError,
    /// The fault's offset in bytes: at most the number of bytes of the input.
    ///
    /// For `InvalidPacketSize`, the place of the first byte that is missing, which is the input's
    /// length, or of the first too many, 65,535. For `InvalidChecksum`, 8, where the field begins.
    /// For `FailedParseChunk` the first byte of the item whose length or value is at fault: of the
    /// parameter or error cause, where it is one in a chunk, and else of the chunk. For padding,
    /// the first byte of it that isn't zero, or the place of the first that is missing.
    pub offset: usize,
}

impl From<FirstFault> for PacketParseError {
    ghost from_gives = { λ found e. e ≡ found.fault };

    fn from(found: FirstFault) -> PacketParseError {
        found.fault
    }
}

impl SctpPacket {
    /// Returns the first fault of the bytes, and its offset in bytes from the packet's first byte.
    /// Does not allocate.
    ///
    /// `None` if and only if the grammar gives these bytes a packet; else the fault that
    /// `from_bytes` and `check` return under the same word and policy, and its place, of which
    /// there is one (`laws::one_answer`). `OutOfMemory` is never returned.
    pub fn first_fault(bytes: &[u8], checksum: u32, policy: &ChecksumPolicy) -> Option<FirstFault>
        ensures answer { Exactly packet_locating (λ u. u)
            (PacketLocated bytes.now checksum policy.now) (refused result) }
        ensures within { IfSome result (λ found. found.offset ≤ length bytes.now) }
        ensures memory { IfSome result
            (λ found. ¬ (found.fault ≡ FailedParseChunk OutOfMemory)) }
    {
        check_packet(bytes, checksum, policy).err()
    }
}
