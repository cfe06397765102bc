//! The reply to an INIT.

ghost use Rattle.std.specs.Prelude.{◌≡◌, ◌≤◌, ◌+◌, ◌*◌, ◌/◌, ◌∷◌, [], true, IfOk, IfSome, IfNone};
ghost use Rattle.dcsctp_wire.specs.Caller.{Holds, padded_size, IsChunkEncodable, init_ack_view};
ghost use Rattle.dcsctp_wire.specs.Chunk as tree;

use dcsctp_wire::packet::chunk::Chunk;
use dcsctp_wire::packet::init_ack_chunk::InitAckChunk;
use dcsctp_wire::packet::init_chunk::InitChunk;
use dcsctp_wire::packet::sctp_packet::{CommonHeader, SctpPacketBuilder};
use dcsctp_wire::packet::{SerializableTlv, round_up_to_4};
use std::alloc::{AllocError, Global};

/// Returns the reply to an INIT: to where it came from, with the tag that it asks for. `None`
/// if the reply can't be written within the limit.
///
/// `as_bytes` of the builder is what the CRC32c is computed over; `build(checksum_word(crc32c))`
/// then returns the packet.
pub fn init_answer(
    alloc: Global,
    header: &CommonHeader,
    init: &InitChunk,
    answer: InitAckChunk,
    limit: usize,
) -> Result<Option<SctpPacketBuilder>, AllocError>
    ensures holds { IfOk result (λ made. IfSome made (λ builder.
        Holds builder (tree.InitAck (init_ack_view answer) ∷ []))) }
    ensures settings { IfOk result (λ made. IfSome made (λ builder. builder ≡ record {
      source = header.now.destination_port;
      destination = header.now.source_port;
      tag = init.now.initiate_tag;
      limit = limit / 4 * 4;
      writes_checksum = true;
      bytes = builder.bytes;
      reserved = builder.reserved;
    })) }
    ensures nothing { IfOk result (λ made. IfNone made
        (¬ (IsChunkEncodable (tree.InitAck (init_ack_view answer))
        × (12 + padded_size (tree.InitAck (init_ack_view answer) ∷ []) ≤ limit / 4 * 4)))) }
{
    let mut builder = SctpPacketBuilder::new(
        alloc,
        init.initiate_tag,
        header.destination_port,
        header.source_port,
        limit,
    );
    let chunk = Chunk::InitAck(answer);
    if !chunk.encodable() || round_up_to_4(chunk.serialized_size()) > builder.bytes_remaining() {
        return Ok(None);
    }
    builder.add(&chunk)?;
    Ok(Some(builder))
}
