//! From a packet to the reply.

ghost use Rattle.std.specs.Prelude.{◌≡◌, ◌↔◌, ◌∷◌, [], Ok, Err, IfOk, IfSome, IfNone, IsErrOf};
ghost use Rattle.dcsctp_wire.specs.Caller.{Meaning, PacketTree, PacketFault, packet_error_of, meaning_view, chunk_view, init_ack_view};
ghost use Rattle.test_callers.specs.Sealed.{Verified};
ghost use Rattle.test_callers.specs.Reply.{IsReply, IsSealed, HasRoom, back};

use crate::sealed::{read_verified, seal};
use dcsctp_wire::packet::chunk::Chunk;
use dcsctp_wire::packet::init_ack_chunk::InitAckChunk;
use dcsctp_wire::packet::sack_chunk::SackChunk;
use dcsctp_wire::packet::sctp_packet::{
    CommonHeader, PacketParseError, SctpPacket, SctpPacketBuilder,
};
use std::alloc::{AllocError, Global};

/// Returns the reply to a packet: `own` to an INIT, and to DATA a SACK of its TSN, which serves
/// where the peer waits for each SACK. `None` for another packet, or if the reply has no room
/// within the limit. Returns a fault if and only if the bytes have one.
///
/// The tag of `own` is this side's, and `peer_tag` the other side's (RFC 9260 section 8.5).
pub fn answer(
    alloc: Global,
    bytes: &[u8],
    own: InitAckChunk,
    peer_tag: u32,
    limit: u16,
) -> Result<Option<Vec<u8>>, PacketParseError>
    ensures reply { IfOk result (λ made. IfSome made (λ reply. (p : PacketTree)
        → Verified bytes.now (Ok p) → (m : Meaning)
        × IsReply (init_ack_view own) peer_tag p.meaning m × IsSealed m reply.items)) }
    ensures nothing { IfOk result (λ made. IfNone made ((p : PacketTree) (m : Meaning)
        → Verified bytes.now (Ok p) → IsReply (init_ack_view own) peer_tag p.meaning m
        → ¬ HasRoom limit m)) }
    ensures faulty { (e : PacketFault) → IsErrOf result (packet_error_of e)
        ↔ Verified bytes.now (Err e) }
{
    let packet = read_verified(alloc, bytes)?;
    match reply_to(alloc, &packet, own, peer_tag) {
        Some((tag, chunk)) => Ok(one_chunk(alloc, &packet.common_header, tag, chunk, limit)?),
        None => Ok(None),
    }
}

/// Returns the chunk of the reply, and the tag under which it is sent.
fn reply_to(
    alloc: Global,
    packet: &SctpPacket,
    own: InitAckChunk,
    peer_tag: u32,
) -> Option<(u32, Chunk)>
    ensures reply { IfSome result (λ reply. IsReply (init_ack_view own) peer_tag
        (meaning_view packet.now) (back (meaning_view packet.now) reply.0 (chunk_view reply.1))) }
    ensures nothing { IfNone result ((m : Meaning)
        → ¬ IsReply (init_ack_view own) peer_tag (meaning_view packet.now) m) }
{
    let tag = packet.common_header.verification_tag;
    let (first, others) = packet.chunks.split_first()?;
    match first {
        Chunk::Init(init) if tag == 0 && others.is_empty() => {
            Some((init.initiate_tag, Chunk::InitAck(own)))
        }
        Chunk::Data(data) if tag == own.initiate_tag => {
            let sack = SackChunk {
                cumulative_tsn_ack: data.tsn,
                a_rwnd: own.a_rwnd,
                gap_ack_blocks: Vec::new(alloc),
                duplicate_tsns: Vec::new(alloc),
            };
            Some((peer_tag, Chunk::Sack(sack)))
        }
        _ => None,
    }
}

/// Returns a packet of one chunk, back to where the other came from, with its CRC32c. `None` if it
/// has no room within the limit.
fn one_chunk(
    alloc: Global,
    header: &CommonHeader,
    tag: u32,
    chunk: Chunk,
    limit: u16,
) -> Result<Option<Vec<u8>>, AllocError>
    ensures sealed { IfOk result (λ made. IfSome made (λ reply. IsSealed (record {
      source = header.now.destination_port;
      destination = header.now.source_port;
      tag = tag;
      chunks = chunk_view chunk ∷ [];
    }) reply.items)) }
    ensures nothing { IfOk result (λ made. IfNone made (¬ HasRoom limit (record {
      source = header.now.destination_port;
      destination = header.now.source_port;
      tag = tag;
      chunks = chunk_view chunk ∷ [];
    }))) }
{
    let (source, destination) = (header.destination_port, header.source_port);
    let mut builder = SctpPacketBuilder::new(alloc, tag, source, destination, limit as usize);
    if !builder.try_add(&chunk)? {
        return Ok(None);
    }
    Ok(Some(seal(&mut builder)))
}
