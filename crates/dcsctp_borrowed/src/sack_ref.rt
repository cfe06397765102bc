//! A SACK, in a packet's bytes.

ghost use Rattle.std.specs.{Prelude.{◌≡◌, ◌↔◌, ◌<◌, ◌≤◌, ◌+◌, ◌*◌, ◌^◌, ℕ, List, Some, IsOk, IsTrue, length, drop, slice_get}, Int.{w32}, Iterator.{YieldsFirst, YieldsFirstBy, item_count}, List.{flat_map, AllByRecursion}, Result.{result_ok}};
ghost use Rattle.dcsctp_types.specs.Serial.{wrapped_sum, IsGreater};
ghost use Rattle.dcsctp_tlv.specs.{Fields.{fields}, Number.{number32, numbers}};
ghost use Rattle.dcsctp_chunk.specs.{Cover.{Covers, AreValid}, Sack.{Tree, IsBlockInWidth, block_at, block_bytes, read}, declared.sack_chunk.GapAckBlock.{GapAckBlock}};
ghost use Rattle.dcsctp_wire.specs.Chunk.{ChunkTree};
ghost use Rattle.dcsctp_borrowed.specs.{RawChunks.{RawMeans}, Sack.{sack_of, read_sack}};

use dcsctp_chunk::sack_chunk::{self, GapAckBlock, SackNumbers};
use dcsctp_tlv::fields::Field;
use dcsctp_tlv::number::read_u32_be;
use dcsctp_tlv::widths::are_bytes;
use dcsctp_types::types::Tsn;
use dcsctp_wire::packet::chunk::RawChunk;
use std::marker::Model;

/// A SACK (RFC 9260 section 3.3.4) whose gap ack blocks and duplicate TSNs stay where they lie in
/// the packet.
///
/// A contract sees its numbers and its two lists, as of a `SackChunk`.
#[derive(Clone, Debug, Drop)]
pub struct SackRef<'a> {
    numbers: SackNumbers,
    /// The blocks, and after them the duplicates.
    lists: &'a [u8],
}

impl<'a> Model for SackRef<'a> {
    ghost Value = { Tree };

    ghost view = { λ s. record {
      tsn = s.numbers.cumulative_tsn_ack.0;
      a_rwnd = s.numbers.a_rwnd;
      blocks = fields block_at 4 s.numbers.gap_ack_block_count s.lists.now;
      duplicates = fields number32 4 s.numbers.duplicate_tsn_count
          (drop (4 * s.numbers.gap_ack_block_count) s.lists.now);
    } };

    ghost invariant = { λ s. length s.lists.now
        ≡ 4 * s.numbers.gap_ack_block_count + 4 * s.numbers.duplicate_tsn_count };
}

#[tactic(auto, using(crate::proofs::FieldLists::field_count))]
impl<'a> SackRef<'a> {
    /// Reads a SACK, without a copy; flags are ignored. `None` if and only if the chunk has another
    /// type, or a value of another size than its two counts say.
    ///
    /// Of a chunk of a packet this is the SACK that `SctpPacket::from_bytes` gives, and `None`
    /// if and only if the chunk has another type.
    #[inline(always)]
    pub fn from_raw(raw: &RawChunk<'a>) -> Option<SackRef<'a>>
        ensures read { result ≡ read_sack raw.now.typ raw.now.value.now }
        ensures means { (tree : ChunkTree) → RawMeans raw.now tree → result ≡ sack_of tree }
    {
        if raw.typ != sack_chunk::CHUNK_TYPE {
            return None;
        }
        SackRef::of_value(raw.value)
    }

    /// Builds what the value of a SACK means.
    #[inline(always)]
    fn of_value(value: &'a [u8]) -> Option<SackRef<'a>>
        ensures { result ≡ result_ok (read value.now) }
    {
        if value.len() < SackNumbers::SIZE {
            return None;
        }
        if value.len() != SackNumbers::read(value).value_size() {
            return None;
        }
        Some(SackRef::of_checked(value))
    }

    /// Builds what a value means that is known to mean a SACK.
    #[inline(always)]
    pub(crate) fn of_checked(value: &'a [u8]) -> SackRef<'a>
        requires { IsOk (read value.now) }
        ensures { Some result ≡ result_ok (read value.now) }
    {
        SackRef {
            numbers: SackNumbers::read(value),
            lists: &value[SackNumbers::SIZE..],
        }
    }

    /// Returns the last TSN that was received in sequence.
    #[inline(always)]
    pub fn cumulative_tsn_ack(&self) -> Tsn
        ensures { result.0 ≡ self.now.tsn }
    {
        self.numbers.cumulative_tsn_ack
    }

    /// Returns the bytes that the receiver has room for.
    #[inline(always)]
    pub fn a_rwnd(&self) -> u32
        ensures { result ≡ self.now.a_rwnd }
    {
        self.numbers.a_rwnd
    }

    /// Returns the number of gap ack blocks.
    #[inline(always)]
    pub fn gap_ack_block_count(&self) -> usize
        ensures { result ≡ length self.now.blocks }
    {
        self.numbers.gap_ack_block_count as usize
    }

    /// Returns the gap ack block at this index, which has to be less than `gap_ack_block_count()`.
    /// Its start and its end are offsets from the cumulative TSN.
    #[inline(always)]
    pub fn gap_ack_block(&self, index: usize) -> GapAckBlock
        requires { index < length self.now.blocks }
        ensures { slice_get self.now.blocks index ≡ Some result }
    {
        GapAckBlock::read(&self.lists[4 * index..])
    }

    /// Returns the number of duplicate TSNs.
    #[inline(always)]
    pub fn duplicate_tsn_count(&self) -> usize
        ensures { result ≡ length self.now.duplicates }
    {
        self.numbers.duplicate_tsn_count as usize
    }

    /// Returns the duplicate TSN at this index, which has to be less than `duplicate_tsn_count()`.
    #[inline(always)]
    pub fn duplicate_tsn(&self, index: usize) -> Tsn
        requires { index < length self.now.duplicates }
        ensures { slice_get self.now.duplicates index ≡ Some result.0 }
    {
        Tsn(read_u32_be(&self.lists[4 * self.numbers.gap_ack_block_count as usize + 4 * index..]))
    }

    /// Returns an iterator over the gap ack blocks, in their order: at most 65,535.
    #[inline(always)]
    pub fn gap_ack_blocks(&self) -> GapAckBlocks<'a>
        ensures blocks { result ≡ self.now.blocks }
        ensures few { length result < 2 ^ 16 }
    {
        GapAckBlocks::new(self.numbers.gap_ack_block_count as usize, self.lists)
    }

    /// Returns an iterator over the duplicate TSNs, in their order.
    #[inline(always)]
    pub fn duplicate_tsns(&self) -> DuplicateTsns<'a>
        ensures { result ≡ self.now.duplicates }
    {
        DuplicateTsns::new(
            self.numbers.duplicate_tsn_count as usize,
            &self.lists[4 * self.numbers.gap_ack_block_count as usize..],
        )
    }

    /// Returns whether the gap ack blocks are the runs of the offsets that they cover, by rising
    /// start, and the first, if any, starts at 2 or later: what `validate_sack` says of the
    /// `SackChunk`.
    ///
    /// Each TSN at a covered offset of 1 to 65,535 is greater than the cumulative TSN.
    #[inline(always)]
    pub fn validate(&self) -> bool
        ensures valid { IsTrue result ↔ AreValid self.now.blocks }
        ensures greater { (o : ℕ) → Covers self.now.blocks o → 1 ≤ o → o ≤ 65535
            → IsGreater (2 ^ 32) (wrapped_sum (2 ^ 32) self.now.tsn o) self.now.tsn }
    {
        // what a block may start at
        let mut least: u32 = 2;
        for block in self.gap_ack_blocks() {
            if block.end < block.start || (block.start as u32) < least {
                return false;
            }
            // an end can be 65,535
            least = block.end as u32 + 2;
        }
        true
    }
}

/// An iterator over gap ack blocks. A contract sees the list of those that are left.
#[derive(Clone, Debug, Drop)]
pub struct GapAckBlocks<'a> {
    count: usize,
    rest: &'a [u8],
}

impl<'a> Model for GapAckBlocks<'a> {
    ghost Value = { List GapAckBlock };

    ghost view = { λ b. fields block_at 4 b.count b.rest.now };

    ghost invariant = { λ b. 4 * b.count ≤ length b.rest.now };
}

impl<'a> GapAckBlocks<'a> {
    /// Returns the first `count` gap ack blocks of the bytes, which have to be there.
    #[inline(always)]
    pub fn new(count: usize, rest: &'a [u8]) -> GapAckBlocks<'a>
        requires { 4 * count ≤ length rest.now }
        ensures { result ≡ fields block_at 4 count rest.now }
    {
        GapAckBlocks { count, rest }
    }

    /// Returns the bytes of the blocks that are left, as they lie in the packet. Each start and
    /// each end is below 2^16.
    #[inline(always)]
    pub fn bytes(&self) -> &'a [u8]
        ensures bytes { result.now ≡ flat_map block_bytes self.now }
        ensures width { AllByRecursion IsBlockInWidth self.now }
    {
        are_bytes(self.rest);
        &self.rest[..4 * self.count]
    }
}

impl<'a> Iterator for GapAckBlocks<'a> {
    type Item = GapAckBlock;

    ghost next_gives = { YieldsFirst (λ left. left) };

    ghost remaining = { item_count (λ left. left) };

    /// Returns the next gap ack block; `None` once all were returned.
    #[inline(always)]
    fn next(&mut self) -> Option<GapAckBlock> {
        if self.count == 0 {
            return None;
        }
        let block = GapAckBlock::read(self.rest);
        self.count -= 1;
        self.rest = &self.rest[4..];
        Some(block)
    }
}

/// An iterator over duplicate TSNs. A contract sees the list of the numbers of those that are left.
#[derive(Clone, Debug, Drop)]
pub struct DuplicateTsns<'a> {
    count: usize,
    rest: &'a [u8],
}

impl<'a> Model for DuplicateTsns<'a> {
    ghost Value = { List ℕ };

    ghost view = { λ d. fields number32 4 d.count d.rest.now };

    ghost invariant = { λ d. 4 * d.count ≤ length d.rest.now };
}

impl<'a> DuplicateTsns<'a> {
    /// Returns the first `count` duplicate TSNs of the bytes, which have to be there.
    #[inline(always)]
    pub fn new(count: usize, rest: &'a [u8]) -> DuplicateTsns<'a>
        requires { 4 * count ≤ length rest.now }
        ensures { result ≡ fields number32 4 count rest.now }
    {
        DuplicateTsns { count, rest }
    }

    /// Returns the bytes of the TSNs that are left, as they lie in the packet. Each TSN is below
    /// 2^32.
    #[inline(always)]
    pub fn bytes(&self) -> &'a [u8]
        ensures bytes { result.now ≡ numbers w32 self.now }
        ensures width { AllByRecursion (λ tsn. tsn < 2 ^ 32) self.now }
    {
        are_bytes(self.rest);
        &self.rest[..4 * self.count]
    }
}

impl<'a> Iterator for DuplicateTsns<'a> {
    type Item = Tsn;

    ghost next_gives = { YieldsFirstBy (λ tsn. tsn.0) (λ left. left) };

    ghost remaining = { item_count (λ left. left) };

    /// Returns the next duplicate TSN; `None` once all were returned.
    #[inline(always)]
    fn next(&mut self) -> Option<Tsn> {
        if self.count == 0 {
            return None;
        }
        let tsn = Tsn(read_u32_be(self.rest));
        self.count -= 1;
        self.rest = &self.rest[4..];
        Some(tsn)
    }
}
