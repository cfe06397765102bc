//! Laws of slices: the numbers in them lie in their widths, by their types. Proof-only functions:
//! calling them costs nothing.

ghost use Rattle.std.specs.{Prelude.{◌<◌, ◌^◌}, List.{AllByRecursion}};
ghost use Rattle.dcsctp_tlv.specs.Number.{AreBytes};
ghost use Rattle.dcsctp_chunk.specs.Sack.{IsBlockInWidth};

use dcsctp_wire::packet::sack_chunk::GapAckBlock;

/// Proves that each is a byte.
#[inline(always)]
pub(crate) fn bytes_in_width(bytes: &[u8])
    ensures { AreBytes bytes.now }
{}

/// Proves that each block has a start and an end of 16 bits.
#[inline(always)]
pub(crate) fn blocks_in_width(blocks: &[GapAckBlock])
    ensures { AllByRecursion IsBlockInWidth blocks.now }
{
    for block in blocks {
        block_in_width(block);
    }
}

/// Proves that the block has a start and an end of 16 bits.
#[inline(always)]
fn block_in_width(block: &GapAckBlock)
    ensures { IsBlockInWidth block.now }
{
    let _start = block.start;
    let _end = block.end;
}

/// Proves that each number has 32 bits.
#[inline(always)]
pub(crate) fn words_in_width(words: &[u32])
    ensures { AllByRecursion (λ n. n < 2 ^ 32) words.now }
{}
