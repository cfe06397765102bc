//! SACK: which TSNs have come, and which are missing among them.
//!
//! ```txt
//!  0                   1                   2                   3
//!  0 1 2 3 4 5 6 7 8 9 0 1 2 3 4 5 6 7 8 9 0 1 2 3 4 5 6 7 8 9 0 1
//! +-+-+-+-+-+-+-+-+-+-+-+-+-+-+-+-+-+-+-+-+-+-+-+-+-+-+-+-+-+-+-+-+
//! |   type = 3    |     flags     |  length = 16 + 4 * n + 4 * m  |
//! +-+-+-+-+-+-+-+-+-+-+-+-+-+-+-+-+-+-+-+-+-+-+-+-+-+-+-+-+-+-+-+-+
//! |                      cumulative TSN ack                       |
//! +-+-+-+-+-+-+-+-+-+-+-+-+-+-+-+-+-+-+-+-+-+-+-+-+-+-+-+-+-+-+-+-+
//! |               advertised receiver window credit               |
//! +-+-+-+-+-+-+-+-+-+-+-+-+-+-+-+-+-+-+-+-+-+-+-+-+-+-+-+-+-+-+-+-+
//! |   n, number of gap ack blocks | m, number of duplicate TSNs   |
//! +-+-+-+-+-+-+-+-+-+-+-+-+-+-+-+-+-+-+-+-+-+-+-+-+-+-+-+-+-+-+-+-+
//! |     start of a gap ack block  |    its end, n of such pairs   |
//! +-+-+-+-+-+-+-+-+-+-+-+-+-+-+-+-+-+-+-+-+-+-+-+-+-+-+-+-+-+-+-+-+
//! |                  duplicate TSN, m of such                     |
//! +-+-+-+-+-+-+-+-+-+-+-+-+-+-+-+-+-+-+-+-+-+-+-+-+-+-+-+-+-+-+-+-+
//! ```

ghost use Rattle.std.specs.{Prelude.{◌≡◌, ◌≢◌, ◌↔◌, ◌<◌, ◌≤◌, ◌^◌, Some, IsOk, IsErrOf, length, drop, refl, IfOk, Ok, vec_len, vec_capacity}, List.{AllByRecursion}};
ghost use Rattle.dcsctp_tlv.specs.{Number.{number16}, Reading.{Exactly, reading, checking, Tested}};
ghost use Rattle.dcsctp_chunk.specs.Sack as kind;

use crate::raw_chunk::RawChunk;
use dcsctp_tlv::error::ChunkParseError;
use dcsctp_tlv::fields::{Field, fields_from_bytes, put_fields};
use dcsctp_tlv::frame::{TLV_HEADER_SIZE, fields_item_size, put_bytes, put_header};
use dcsctp_tlv::number::{put_u16, put_u32, read_u32_be, write_u16_be};
use dcsctp_tlv::tlv::SerializableTlv;
use dcsctp_tlv::widths::{Widths, are_in_width};
use dcsctp_types::types::Tsn;
use std::alloc::{AllocError, Global};
use std::fmt;

/// The type of SACK.
pub const CHUNK_TYPE: u8 = 3;

/// The numbers at the front of a SACK's value, before its gap ack blocks and duplicate TSNs (RFC
/// 9260 section 3.3.4).
#[derive(Clone, Copy, Debug)]
pub struct SackNumbers {
    /// The last TSN that was received in sequence.
    pub cumulative_tsn_ack: Tsn,
    /// Bytes that the receiver has room for.
    pub a_rwnd: u32,
    /// How many gap ack blocks follow, of four bytes each.
    pub gap_ack_block_count: u16,
    /// How many duplicate TSNs follow the blocks, of four bytes each.
    pub duplicate_tsn_count: u16,
}

impl SackNumbers {
    /// Their bytes.
    pub const SIZE: usize = 12;

    /// The offset of the cumulative TSN ack in the value.
    pub const CUMULATIVE_TSN_ACK: usize = 0;

    /// The offset of the advertised receiver window credit in the value.
    pub const A_RWND: usize = 4;

    /// The offset of the number of gap ack blocks in the value.
    pub const GAP_ACK_BLOCK_COUNT: usize = 8;

    /// The offset of the number of duplicate TSNs in the value.
    pub const DUPLICATE_TSN_COUNT: usize = 10;

    /// Reads the numbers of a value, which has at least `SIZE` bytes.
    #[inline(always)]
    pub fn read(value: &[u8]) -> SackNumbers
        requires { 12 ≤ length value.now }
        ensures { result ≡ kind.numbers_at value.now }
    {
        let counts = two_numbers(&value[SackNumbers::GAP_ACK_BLOCK_COUNT..]);
        SackNumbers {
            cumulative_tsn_ack: Tsn(read_u32_be(value)),
            a_rwnd: read_u32_be(&value[SackNumbers::A_RWND..]),
            gap_ack_block_count: counts.0,
            duplicate_tsn_count: counts.1,
        }
    }

    /// Returns the size in bytes of a value with as many blocks and duplicates as the numbers say.
    #[inline(always)]
    pub fn value_size(self) -> usize
        ensures { result ≡ kind.size_of_value self }
    {
        SackNumbers::SIZE
            + 4 * self.gap_ack_block_count as usize
            + 4 * self.duplicate_tsn_count as usize
    }

    /// Returns the numbers as they are written.
    #[inline(always)]
    pub fn bytes(self) -> [u8; SackNumbers::SIZE]
        ensures { result ≡ kind.number_bytes self }
    {
        let mut bytes = [0; SackNumbers::SIZE];
        put_u32(
            &mut bytes,
            SackNumbers::CUMULATIVE_TSN_ACK,
            self.cumulative_tsn_ack.0,
        );
        put_u32(&mut bytes, SackNumbers::A_RWND, self.a_rwnd);
        put_u16(
            &mut bytes,
            SackNumbers::GAP_ACK_BLOCK_COUNT,
            self.gap_ack_block_count,
        );
        put_u16(
            &mut bytes,
            SackNumbers::DUPLICATE_TSN_COUNT,
            self.duplicate_tsn_count,
        );
        bytes
    }
}

/// Returns the two numbers at the front, of two bytes each.
// One load serves both.
#[inline(always)]
fn two_numbers(bytes: &[u8]) -> (u16, u16)
    requires { 4 ≤ length bytes.now }
    ensures first { result.0 ≡ number16 bytes.now }
    ensures second { result.1 ≡ number16 (drop 2 bytes.now) }
{
    let both = read_u32_be(bytes);
    ((both / 65536) as u16, (both % 65536) as u16)
}

/// A run of TSNs that came in beyond the first one that is missing (RFC 9260 section 3.3.4). Laid
/// out as a struct of C.
#[repr(C)]
#[derive(Clone, Copy, Debug, PartialEq, Eq)]
pub struct GapAckBlock {
    /// The first TSN, as its offset from the cumulative TSN.
    pub start: u16,
    /// The last TSN, as its offset from the cumulative TSN.
    pub end: u16,
}

impl GapAckBlock {
    /// Builds the block from `start` to `end`, both counted from the cumulative TSN. Any two
    /// numbers make one, also if it ends before its start.
    pub fn new(start: u16, end: u16) -> Self
        ensures start { result.start ≡ start }
        ensures end { result.end ≡ end }
    {
        GapAckBlock { start, end }
    }
}

impl Field for GapAckBlock {
    ghost use Rattle.dcsctp_chunk.specs.declared.sack_chunk.GapAckBlock.{GapAckBlock};

    type Value = GapAckBlock;

    ghost Tree = { GapAckBlock };

    ghost view = { λ b. b };

    ghost field_at = { kind.block_at };

    ghost field_bytes = { kind.block_bytes };

    ghost is_writable = { λ b. Unit {0} };

    ghost SIZE = { 4 };

    const SIZE: usize = 4;

    #[inline(always)]
    fn read(bytes: &[u8]) -> GapAckBlock {
        let (start, end) = two_numbers(bytes);
        GapAckBlock { start, end }
    }

    fn write(value: &GapAckBlock, output: &mut [u8]) {
        write_u16_be(output, value.start);
        put_u16(output, 2, value.end);
    }

    ghost field_length = { λ b fits. refl };
}

/// SACK (RFC 9260 section 3.3.4).
#[derive(Debug, Drop)]
pub struct SackChunk {
    /// The last TSN that was received in sequence.
    pub cumulative_tsn_ack: Tsn,
    /// Bytes that the receiver has room for.
    pub a_rwnd: u32,
    /// What was received beyond the first missing TSN. They are read and written as they are, in
    /// any order.
    pub gap_ack_blocks: Vec<GapAckBlock>,
    /// The TSNs that came more than once, as often as they came again.
    pub duplicate_tsns: Vec<Tsn>,
}

impl SackChunk {
    /// Reads the chunk, and copies its blocks and its duplicate TSNs; flags are ignored.
    ///
    /// `InvalidType` if and only if the type is another; `InvalidLength` if and only if the value
    /// has fewer than 12 bytes, or isn't just as long as its two counts say; `OutOfMemory` only
    /// where the lists can't be copied.
    pub fn try_from(alloc: Global, raw: RawChunk) -> Result<Self, ChunkParseError>
        ensures other { IsErrOf result ChunkParseError.InvalidType ↔ (raw.entry.typ ≢ CHUNK_TYPE) }
        ensures answer { raw.entry.typ ≡ CHUNK_TYPE →
            Exactly reading kind.view (λ a. kind.read raw.entry.value.now ≡ a) result }
        ensures memory { IsErrOf result ChunkParseError.OutOfMemory →
            IsOk (kind.read raw.entry.value.now) }
        ensures tight { IfOk result (λ x. (vec_capacity x.gap_ack_blocks ≡ vec_len x.gap_ack_blocks)
            × (vec_capacity x.duplicate_tsns ≡ vec_len x.duplicate_tsns)) }
    {
        if raw.typ != CHUNK_TYPE {
            return Err(ChunkParseError::InvalidType);
        }
        SackChunk::check(raw.value)?;
        Ok(SackChunk::build(alloc, raw.flags, raw.value)?)
    }

    /// Checks the value: `InvalidLength` if and only if it has fewer than 12 bytes, or isn't just
    /// as long as its two counts say.
    pub(crate) fn check(value: &[u8]) -> Result<(), ChunkParseError>
        ensures { Exactly checking (λ u. u) (Tested (kind.read value.now)) result }
    {
        if value.len() < SackNumbers::SIZE {
            return Err(ChunkParseError::InvalidLength);
        }
        if value.len() != SackNumbers::read(value).value_size() {
            return Err(ChunkParseError::InvalidLength);
        }
        Ok(())
    }

    /// Builds the chunk that the value means.
    pub fn build(alloc: Global, _flags: u8, value: &[u8]) -> Result<Self, AllocError>
        requires { IsOk (kind.read value.now) }
        ensures meant { IfOk result (λ x. kind.read value.now ≡ Ok (kind.view x)) }
        ensures tight { IfOk result (λ x. (vec_capacity x.gap_ack_blocks ≡ vec_len x.gap_ack_blocks)
            × (vec_capacity x.duplicate_tsns ≡ vec_len x.duplicate_tsns)) }
    {
        let numbers = SackNumbers::read(value);
        let blocks = numbers.gap_ack_block_count as usize;
        let duplicates = numbers.duplicate_tsn_count as usize;
        let lists = &value[SackNumbers::SIZE..];
        Ok(SackChunk {
            cumulative_tsn_ack: numbers.cumulative_tsn_ack,
            a_rwnd: numbers.a_rwnd,
            gap_ack_blocks: fields_from_bytes::<GapAckBlock>(alloc, lists, blocks)?,
            duplicate_tsns: fields_from_bytes::<Tsn>(alloc, &lists[4 * blocks..], duplicates)?,
        })
    }

    /// Returns the value before its lists, as it is written.
    fn fixed(&self) -> [u8; SackNumbers::SIZE]
        requires blocks { length self.now.gap_ack_blocks.items < 2 ^ 16 }
        requires duplicates { length self.now.duplicate_tsns.items < 2 ^ 16 }
        ensures { result ≡ kind.fixed (kind.view self.now) }
    {
        SackNumbers {
            cumulative_tsn_ack: self.cumulative_tsn_ack,
            a_rwnd: self.a_rwnd,
            gap_ack_block_count: self.gap_ack_blocks.len() as u16,
            duplicate_tsn_count: self.duplicate_tsns.len() as u16,
        }
        .bytes()
    }
}

#[tactic(auto, using(crate::proofs::Sacks::count_of_duplicates))]
impl SerializableTlv for SackChunk {
    ghost format = { λ c. kind.format (kind.view c) };

    fn serialize_to(&self, output: &mut [u8]) {
        put_header(CHUNK_TYPE, 0, self.value_size(), output);
        put_bytes(output, TLV_HEADER_SIZE, &self.fixed());
        let place = TLV_HEADER_SIZE + SackNumbers::SIZE;
        put_fields::<GapAckBlock>(output, place, &self.gap_ack_blocks);
        let after_blocks = place + 4 * self.gap_ack_blocks.len();
        put_fields::<Tsn>(output, after_blocks, &self.duplicate_tsns);
    }

    fn encoded_size(&self) -> Option<usize> {
        let blocks = self.gap_ack_blocks.len();
        let duplicates = self.duplicate_tsns.len();
        fields_item_size(SackNumbers::SIZE, 4, blocks.saturating_add(duplicates))
    }

    fn has_widths(&self) {
        let _window = self.a_rwnd;
        self.cumulative_tsn_ack.is_in_width();
        blocks_have_widths(&self.gap_ack_blocks);
        are_in_width(&self.duplicate_tsns);
    }
}

impl fmt::Display for SackChunk {
    ghost output = { λ c. Some (kind.format (kind.view c)).text };

    fn fmt<W: fmt::Write>(&self, f: &mut fmt::Formatter<W>) -> fmt::Result {
        let tsn = self.cumulative_tsn_ack;
        let a_rwnd = self.a_rwnd;
        write!(f, "SACK, cum_ack_tsn={tsn}, a_rwnd={a_rwnd}")
    }
}

/// Proves that the numbers of each block lie in their fields' widths. Does nothing.
fn blocks_have_widths(blocks: &[GapAckBlock])
    ensures { AllByRecursion kind.IsBlockInWidth blocks.now }
{
    for block in blocks {
        block_has_widths(block);
    }
}

/// Proves that the numbers of a block lie in their fields' widths.
fn block_has_widths(block: &GapAckBlock)
    ensures { kind.IsBlockInWidth block.now }
{
    let _start = block.start;
    let _end = block.end;
}
