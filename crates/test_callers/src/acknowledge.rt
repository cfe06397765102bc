//! A packet with an acknowledgment and a message.

ghost use Rattle.std.specs.Prelude.{ℕ, ◌≡◌, ◌↔◌, ◌∷◌, [], true, Ok, IsTrue, IsSome, IfOk, IfSome};
ghost use Rattle.dcsctp_wire.specs.Caller.{Holds, Answer, IsAccepted, checksum_field, meaning_with, chunk_view, sack_view, data_view, kept_data};
ghost use Rattle.dcsctp_wire.specs.Chunk as tree;
ghost use Rattle.test_callers.specs.Reply.{HasRoom};

use dcsctp_wire::packet::chunk::Chunk;
use dcsctp_wire::packet::data_chunk::DataChunk;
use dcsctp_wire::packet::sack_chunk::SackChunk;
use dcsctp_wire::packet::sctp_packet::{ChecksumPolicy, CommonHeader, SctpPacketBuilder};
use std::alloc::{AllocError, Global};

/// Builds a packet of a SACK and DATA, from the receiver of a packet back to its sender. Returns
/// `None` if and only if the two have no room within the limit, or one of them can't be written.
///
/// `word` is written into the checksum field. A sender computes it over `as_bytes` of the builder
/// (`checksum_word`).
pub fn acknowledgment_with_data(
    alloc: Global,
    header: &CommonHeader,
    sack: SackChunk,
    message: DataChunk,
    limit: u16,
    word: u32,
) -> Result<Option<Vec<u8>>, AllocError>
    // What `from_bytes` returns for the bytes, under each word and policy that accept their
    // checksum: the SACK and the DATA, but for fields that DATA doesn't carry.
    ensures reads { IfOk result (λ made. IfSome made (λ bytes.
        (expected : ℕ) (policy : ChecksumPolicy)
        → IsAccepted policy (checksum_field bytes.items) expected
        → Answer bytes.items expected policy (Ok (record {
          meaning = record {
            source = header.now.destination_port;
            destination = header.now.source_port;
            tag = header.now.verification_tag;
            chunks = tree.Sack (sack_view sack) ∷ tree.Data (kept_data (data_view message)) ∷ [];
          };
          checksum = checksum_field bytes.items;
        })))) }
    ensures room { IfOk result (λ made. IsSome made ↔ HasRoom limit (record {
      source = header.now.destination_port;
      destination = header.now.source_port;
      tag = header.now.verification_tag;
      chunks = tree.Sack (sack_view sack) ∷ tree.Data (data_view message) ∷ [];
    })) }
{
    let (source, destination) = (header.destination_port, header.source_port);
    let tag = header.verification_tag;
    let mut builder = SctpPacketBuilder::new(alloc, tag, source, destination, limit as usize);
    if !add_both(&mut builder, &Chunk::Sack(sack), &Chunk::Data(message))? {
        return Ok(None);
    }
    Ok(Some(builder.build(word)))
}

/// Adds two chunks; returns false if they have no room.
fn add_both(
    builder: &mut SctpPacketBuilder,
    first: &Chunk,
    second: &Chunk,
) -> Result<bool, AllocError>
    ensures holds { IfOk result (λ added. added ≡ true → Holds builder.old []
        → Holds builder.new (chunk_view first.now ∷ chunk_view second.now ∷ [])) }
    ensures room { IfOk result (λ added. Holds builder.old [] → (IsTrue added
        ↔ HasRoom builder.old.limit (meaning_with builder.old
        (chunk_view first.now ∷ chunk_view second.now ∷ [])))) }
    ensures settings { builder.new ≡ record builder.old {
      bytes = builder.new.bytes;
      reserved = builder.new.reserved;
    } }
{
    Ok(builder.try_add(first)? && builder.try_add(second)?)
}
