//! Packets that are built chunk by chunk: the common header, and after it each chunk with its
//! padding. A packet's bytes are reserved once, and written in place.

ghost use Rattle.std.specs.{Prelude.{◌≡◌, ◌≢◌, ◌≤◌, ◌+◌, ◌-◌, ◌*◌, ◌/◌, ◌++◌, ◌∷◌, [], ◌↔◌, ℕ, List, true, false, max, length, take, drop, vec_len, vec_capacity, IsTrue, IsOk, IfOk, OnOk, OnErr}, List.{AllByRecursion}};
ghost use Rattle.dcsctp_tlv.specs.{Frame.{round_up_to_4}, Image.{size_of, image_of, written}};
ghost use Rattle.dcsctp_wire.specs.{Chunk.{ChunkTree, tlv as chunk_tlv, IsChunkEncodable, view, all_kept as kept_chunks, IsWellFormed as IsChunkWellFormed}, Canonical.{padded_chunk, padded_size}, Builder.{Holds, IsHeaderInWidth, meaning_with, room, begun, built}, Packet.{IsAccepted, checksum_field, Answer}, declared.packet.sctp_packet.ChecksumPolicy.{ChecksumPolicy}};

use crate::packet::chunk::{Chunk, chunk_has_widths};
use crate::packet::common_header::{COMMON_HEADER_SIZE, CommonHeader};
use dcsctp_tlv::copy::copied_with_room;
use dcsctp_tlv::number::{put_u32, round_up_to_4};
use dcsctp_tlv::tlv::SerializableTlv;
use std::alloc::{AllocError, Global};
use std::marker::Model;

/// Builds packets (RFC 9260 section 3) one after the other, chunk by chunk, with the same ports
/// and verification tag.
#[derive(Drop)]
pub struct SctpPacketBuilder {
    verification_tag: u32,
    source_port: u16,
    dest_port: u16,
    max_packet_size: usize,
    write_checksum: bool,
    bytes: Vec<u8>,
}

impl Model for SctpPacketBuilder {
    ghost use Rattle.std.specs.Prelude.{vec_capacity};
    ghost use Rattle.dcsctp_wire.specs.Builder.{BuilderState, IsReserved};

    ghost Value = { BuilderState };

    ghost view = { λ b. record {
      source = b.source_port;
      destination = b.dest_port;
      tag = b.verification_tag;
      limit = b.max_packet_size;
      writes_checksum = b.write_checksum;
      bytes = b.bytes.items;
      reserved = vec_capacity b.bytes;
    } };

    ghost invariant = { λ b. IsReserved b.max_packet_size (vec_capacity b.bytes) b.bytes.items };
}

impl SctpPacketBuilder {
    /// Returns a builder that holds no chunk and writes checksums. It has reserved nothing.
    ///
    /// `max_packet_size` is the most bytes that a packet may have with its header, and is rounded
    /// down to a multiple of 4.
    pub fn new(
        alloc: Global,
        verification_tag: u32,
        source_port: u16,
        dest_port: u16,
        max_packet_size: usize,
    ) -> Self
        ensures { result ≡ record {
          source = source_port;
          destination = dest_port;
          tag = verification_tag;
          limit = max_packet_size / 4 * 4;
          writes_checksum = true;
          bytes = [];
          reserved = 0;
        } }
    {
        SctpPacketBuilder {
            verification_tag,
            source_port,
            dest_port,
            max_packet_size: max_packet_size / 4 * 4,
            write_checksum: true,
            bytes: Vec::new(alloc),
        }
    }

    /// Sets whether `build` writes the checksum; if not, the field is zero. Nothing else changes.
    /// The builder is lent on, for further calls.
    pub fn write_checksum(&mut self, enable: bool) -> &mut Self
        ensures lent { result.ghost_name ≡ self.entry.ghost_name }
        ensures set { result.now ≡ record self.old { writes_checksum = enable } }
    {
        self.write_checksum = enable;
        self
    }

    /// Adds a chunk after those that are held, with zeros up to a multiple of 4.
    ///
    /// The chunk must be `encodable`, and its `serialized_size`, rounded up to a multiple of 4,
    /// at most `bytes_remaining`. The first chunk of a packet reserves the whole packet: it alone
    /// can be refused, where memory runs out, and nothing is changed then. No other takes memory.
    pub fn add(&mut self, chunk: &Chunk) -> Result<(), AllocError>
        requires encodable { IsChunkEncodable (view chunk.now) }
        requires room { round_up_to_4 (size_of (chunk_tlv (view chunk.now))) ≤ room self.old }

        // Whatever was held is held still, with the chunk after it.
        ensures added { OnOk result ((chunks : List ChunkTree) → Holds self.old chunks →
            Holds self.new (chunks ++ view chunk.now ∷ [])) }
        ensures room_left { OnOk result
            (room self.new + round_up_to_4 (size_of (chunk_tlv (view chunk.now))) ≡ room self.old) }
        ensures not_empty { OnOk result (self.new.bytes ≢ []) }
        ensures settings { OnOk result (self.new ≡ record self.old {
          bytes = self.new.bytes;
          reserved = self.new.reserved;
        }) }
        ensures reserves { OnOk result (self.old.limit ≤ self.new.reserved) }

        // A refusal changes nothing, and never comes where something was added before.
        ensures refused { OnErr result (self.new ≡ self.old) }
        ensures succeeds { self.old.bytes ≢ [] → IsOk result }
    {
        self.begin()?;
        chunk_has_widths(chunk);
        append_chunk(&mut self.bytes, chunk);
        Ok(())
    }

    /// Adds the chunk where `add` may be called: it is `encodable`, and `bytes_remaining` has room
    /// for it. Else false is returned, and nothing is changed.
    ///
    /// For callers that don't prove the conditions of `add`. Memory can run out only where the
    /// chunk has room, and nothing was added before; then nothing is changed.
    pub fn try_add(&mut self, chunk: &Chunk) -> Result<bool, AllocError>
        ensures fits { IfOk result (λ added. IsTrue added ↔ (IsChunkEncodable (view chunk.now)
            × (round_up_to_4 (size_of (chunk_tlv (view chunk.now))) ≤ room self.old))) }
        ensures added { IfOk result (λ added. added ≡ true → (chunks : List ChunkTree)
            → Holds self.old chunks → Holds self.new (chunks ++ view chunk.now ∷ [])) }
        ensures not_empty { IfOk result (λ added. added ≡ true → self.new.bytes ≢ []) }
        ensures settings { self.new ≡ record self.old {
          bytes = self.new.bytes;
          reserved = self.new.reserved;
        } }
        ensures declined { IfOk result (λ added. added ≡ false → self.new ≡ self.old) }
        ensures refused { OnErr result (self.new ≡ self.old) }
        ensures succeeds { self.old.bytes ≢ [] → IsOk result }
    {
        let Some(size) = chunk.encoded_size() else {
            return Ok(false);
        };
        if round_up_to_4(size) > self.bytes_remaining() {
            return Ok(false);
        }
        self.add(chunk)?;
        Ok(true)
    }

    /// Reserves the packet and writes its header, unless they are there.
    fn begin(&mut self) -> Result<(), AllocError>
        requires { self.old.bytes ≡ [] → 12 ≤ self.old.limit }
        ensures size { OnOk result (length self.new.bytes ≡ max 12 (length self.old.bytes)) }
        ensures begun { OnOk result (self.new ≡ record self.old {
          bytes = begun self.old self.old.bytes;
          reserved = self.new.reserved;
        }) }
        ensures reserves { OnOk result
            (self.old.bytes ≡ [] → self.new.reserved ≡ self.old.limit) }
        ensures refused { OnErr result (self.new ≡ self.old) }
        ensures succeeds { self.old.bytes ≢ [] → IsOk result }
    {
        if self.bytes.is_empty() {
            let header = CommonHeader {
                source_port: self.source_port,
                destination_port: self.dest_port,
                verification_tag: self.verification_tag,
                checksum: 0,
            }
            .bytes();
            let alloc = *self.bytes.allocator();
            self.bytes = copied_with_room(alloc, &header, self.max_packet_size)?;
        }
        Ok(())
    }

    /// Returns how many bytes of chunks can still be added, with the padding of each.
    pub fn bytes_remaining(&self) -> usize
        ensures room { result ≡ room self.now }
        ensures held { (chunks : List ChunkTree) → Holds self.now chunks →
            result ≡ self.now.limit - 12 - padded_size chunks }
    {
        self.max_packet_size
            .saturating_sub(self.bytes.len().max(COMMON_HEADER_SIZE))
    }

    /// Returns whether no chunk was added since `new` or the last `build`.
    pub fn is_empty(&self) -> bool
        ensures { IsTrue result ↔ Holds self.now [] }
    {
        self.bytes.is_empty()
    }

    /// Returns the packet so far, with a checksum field of zero: what a checksum is computed over.
    pub fn as_bytes(&self) -> &[u8]
        ensures { result.now ≡ self.now.bytes }
    {
        &self.bytes
    }

    /// Hands out the packet, and begins the next: the builder then holds no chunk, with the same
    /// ports, tag, limit and switch. The packet's memory goes with it.
    ///
    /// If the switch is on, the number `checksum` is big-endian at bytes 8 to 11; else they
    /// are zero. Without chunks there are no bytes. No memory is taken.
    ///
    /// What is built reads back, where the limit is at most 65,535 bytes and what was added can be
    /// read: but for fields that a kind of chunk doesn't carry, which are zero then.
    pub fn build(&mut self, checksum: u32) -> Vec<u8>
        ensures bytes { result.items ≡ built self.old checksum }
        ensures empty { self.new ≡ record self.old { bytes = []; reserved = 0 } }
        ensures reserved { vec_capacity result ≡ self.old.reserved }
        ensures reads_back { self.old.limit ≤ 65535 → (chunks : List ChunkTree)
            → Holds self.old chunks → chunks ≢ []
            → AllByRecursion IsChunkWellFormed (kept_chunks chunks)
            → (word : ℕ) (policy : ChecksumPolicy)
            → IsAccepted policy (checksum_field result.items) word
            → Answer result.items word policy
            (Ok (record {
              meaning = meaning_with self.old (kept_chunks chunks);
              checksum = checksum_field result.items;
            })) }
    {
        self.hand_out(checksum)
    }

    /// Returns what `build` returns, and leaves what it leaves, without the laws that follow.
    fn hand_out(&mut self, checksum: u32) -> Vec<u8>
        ensures width { IsHeaderInWidth self.old }
        ensures bytes { result.items ≡ built self.old checksum }
        ensures empty { self.new ≡ record self.old { bytes = []; reserved = 0 } }
        ensures reserved { vec_capacity result ≡ self.old.reserved }
    {
        let next = Vec::new(*self.bytes.allocator());
        let mut packet = std::mem::replace(&mut self.bytes, next);
        if self.write_checksum && !packet.is_empty() {
            put_u32(&mut packet, 8, checksum);
        }
        packet
    }
}

/// Writes the chunk after the bytes, in room that is there, with zeros up to a multiple of 4.
fn append_chunk(bytes: &mut Vec<u8>, chunk: &Chunk)
    requires encodable { IsChunkEncodable (view chunk.now) }
    requires room { vec_len bytes.old + round_up_to_4 (size_of (chunk_tlv (view chunk.now)))
        ≤ vec_capacity bytes.old }
    ensures items { bytes.new.items ≡ bytes.old.items ++ padded_chunk (view chunk.now) }
    ensures size { vec_len bytes.new
        ≡ vec_len bytes.old + round_up_to_4 (size_of (chunk_tlv (view chunk.now))) }
    ensures capacity { vec_capacity bytes.old ≤ vec_capacity bytes.new }
{
    let end = bytes.len();
    bytes
        .resize(end + round_up_to_4(chunk.serialized_size()), 0)
        .unwrap();
    put_chunk(bytes, end, chunk);
}

/// Writes the chunk at a place; the bytes before it stay.
fn put_chunk(output: &mut [u8], place: usize, chunk: &Chunk)
    requires encodable { IsChunkEncodable (view chunk.now) }
    requires room { place + size_of (chunk_tlv (view chunk.now)) ≤ length output.old }
    ensures { output.new ≡ take place output.old
        ++ written (image_of (chunk_tlv (view chunk.now))) (drop place output.old) }
{
    let (_, rest) = output.split_at_mut(place);
    chunk.serialize_to(rest);
}
