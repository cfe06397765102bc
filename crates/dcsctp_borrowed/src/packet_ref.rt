//! A packet in its bytes: checked, and neither copied nor built.

ghost use Rattle.std.specs.Prelude.{◌≡◌, ◌≤◌, Ok, IfOk, IfErr, IsErrOf, length};
ghost use Rattle.dcsctp_tlv.specs.{Frame.{lenient}, Level.{MeansSome}, Reading.{Answers, Exactly}, declared.error.ChunkParseError.TheVariants.{OutOfMemory}};
ghost use Rattle.dcsctp_wire.specs.{Chunk.{chunks}, Packet.{PacketTree, Answer, body, packet_checking}, Place.{packet_locating}, declared.packet.sctp_packet.PacketParseError.TheVariants.{FailedParseChunk}};
ghost use Rattle.dcsctp_borrowed.specs.PacketRef.{reference, Referred, Located, RefersTo};

use crate::raw_chunks::RawChunks;
use dcsctp_wire::packet::sctp_packet::{
    COMMON_HEADER_SIZE, ChecksumPolicy, CommonHeader, FirstFault, PacketParseError, SctpPacket,
};

/// A packet in its bytes (RFC 9260 section 3): its header, and its chunks where they lie.
#[derive(Debug, Drop)]
pub struct SctpPacketRef<'a> {
    /// The ports, the tag and the checksum field.
    pub common_header: CommonHeader,
    /// The chunks, in their order.
    pub chunks: RawChunks<'a>,
}

impl<'a> SctpPacketRef<'a> {
    // A part of its callers, so that it costs them the check's call alone.
    /// Checks a packet as `SctpPacket::check` does, and returns its parts as they lie in `bytes`.
    /// Does not allocate.
    ///
    /// Returns the fault that `SctpPacket::from_bytes` returns: `InvalidPacketSize` unless there
    /// are 16 to 65,535 bytes; then `InvalidChecksum` unless the policy accepts the field; then
    /// `FailedParseChunk` with the first fault of the chunks from the left, and never
    /// `OutOfMemory`. `Chunk::try_from` of each of `chunks` gives the chunks of `from_bytes`.
    #[inline(always)]
    pub fn from_bytes(
        bytes: &'a [u8],
        checksum: u32,
        policy: &ChecksumPolicy,
    ) -> Result<SctpPacketRef<'a>, PacketParseError>
        ensures answer { Exactly packet_checking (λ r. r)
            (Referred bytes.now checksum policy.now) result }
        ensures refers { IfOk result (λ r. (p : PacketTree)
            → Answer bytes.now checksum policy.now (Ok p) → RefersTo r p) }
        ensures memory { ¬ IsErrOf result (FailedParseChunk OutOfMemory) }
    {
        SctpPacket::check(bytes, checksum, policy)?;
        Ok(SctpPacketRef::of_packet(bytes))
    }

    /// Checks a packet as `from_bytes` does, and returns the same; a fault with its offset, as
    /// `SctpPacket::first_fault` returns it. Does not allocate.
    pub fn located(
        bytes: &'a [u8],
        checksum: u32,
        policy: &ChecksumPolicy,
    ) -> Result<SctpPacketRef<'a>, FirstFault>
        ensures answer { Answers packet_locating (λ r. r)
            (Located bytes.now checksum policy.now) result }
        ensures within { IfErr result (λ found. found.offset ≤ length bytes.now) }
        ensures memory { IfErr result
            (λ found. ¬ (found.fault ≡ FailedParseChunk OutOfMemory)) }
    {
        match SctpPacket::first_fault(bytes, checksum, policy) {
            None => Ok(SctpPacketRef::of_packet(bytes)),
            Some(found) => Err(found),
        }
    }

    /// Returns the parts of bytes that are known to be a packet.
    #[inline(always)]
    pub(crate) fn of_packet(bytes: &'a [u8]) -> SctpPacketRef<'a>
        requires size { 12 ≤ length bytes.now }
        requires meant { MeansSome (chunks lenient) (body bytes.now) }
        ensures { result ≡ reference bytes.now }
    {
        SctpPacketRef {
            common_header: CommonHeader::read(bytes),
            chunks: RawChunks::new(&bytes[COMMON_HEADER_SIZE..]),
        }
    }
}
