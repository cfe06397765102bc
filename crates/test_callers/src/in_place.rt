//! Programs over a packet in its bytes.

ghost use Rattle.std.specs.Prelude.{◌≡◌, ◌↔◌, Ok, Err, IsErrOf, MatchResult};
ghost use Rattle.dcsctp_wire.specs.Caller.{PacketTree, PacketFault, Answer, chunk_views, packet_error_of, packet_reading};
ghost use Rattle.test_callers.specs.Payload.{payload_sizes};

use dcsctp_borrowed::packet_ref::SctpPacketRef;
use dcsctp_borrowed::user_data::UserData;
use dcsctp_wire::packet::chunk::Chunk;
use dcsctp_wire::packet::sctp_packet::{ChecksumPolicy, PacketParseError};
use std::alloc::Global;

/// Returns the number of bytes of user data in a packet, or its first fault. Does not allocate.
pub fn payload_size(
    bytes: &[u8],
    word: u32,
    policy: &ChecksumPolicy,
) -> Result<usize, PacketParseError>
    ensures size { (p : PacketTree) → Answer bytes.now word policy.now (Ok p)
        → result ≡ Ok (payload_sizes p.meaning.chunks) }
    ensures faulty { (e : PacketFault) → IsErrOf result (packet_error_of e)
        ↔ Answer bytes.now word policy.now (Err e) }
{
    let packet = SctpPacketRef::from_bytes(bytes, word, policy)?;
    let mut size: usize = 0;
    for raw in packet.chunks {
        if let Some(data) = UserData::from_raw(&raw) {
            size += data.payload.len();
        }
    }
    Ok(size)
}

/// Returns the chunks of a packet, each built from its place in the bytes: those that
/// `SctpPacket::from_bytes` returns, by the same clauses.
pub fn owned_chunks(
    alloc: Global,
    bytes: &[u8],
    word: u32,
    policy: &ChecksumPolicy,
) -> Result<Vec<Chunk>, PacketParseError>
    ensures chunks { (p : PacketTree) → Answer bytes.now word policy.now (Ok p)
        → MatchResult result (λ cs. chunk_views cs.items ≡ p.meaning.chunks)
        packet_reading.out_of_memory }
    ensures faulty { (e : PacketFault) → IsErrOf result (packet_error_of e)
        ↔ Answer bytes.now word policy.now (Err e) }
{
    let packet = SctpPacketRef::from_bytes(bytes, word, policy)?;
    let mut chunks = Vec::new(alloc);
    for raw in packet.chunks {
        chunks.reserve(1)?;
        chunks.push_reserved(Chunk::try_from(alloc, raw)?);
    }
    Ok(chunks)
}
