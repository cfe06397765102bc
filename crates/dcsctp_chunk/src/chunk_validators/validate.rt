//! Whether the gap ack blocks of a SACK are in order.

ghost use Rattle.std.specs.{Prelude.{◌↔◌, ℕ, ◌≤◌, ◌^◌, IsTrue}, List.{All}};
ghost use Rattle.dcsctp_types.specs.Serial.{wrapped_sum, IsGreater};
ghost use Rattle.dcsctp_chunk.specs.{Apart.{IsApart}, Cover.{Covers, AreValid}};

use crate::sack_chunk::{GapAckBlock, SackChunk};

/// Returns whether the blocks are the runs of the offsets that they cover, by rising start, and the
/// first, if any, starts at 2 or later.
///
/// Each TSN at a covered offset of 1 to 65,535 is greater than the cumulative TSN.
#[tactic(auto, using(crate::proofs::Runs::valid_iff))]
pub fn validate_sack(sack: &SackChunk) -> bool
    ensures valid { IsTrue result ↔ AreValid sack.now.gap_ack_blocks.items }
    ensures greater { (o : ℕ) → Covers sack.now.gap_ack_blocks.items o → 1 ≤ o → o ≤ 65535
        → IsGreater (2 ^ 32) (wrapped_sum (2 ^ 32) sack.now.cumulative_tsn_ack.0 o)
        sack.now.cumulative_tsn_ack.0 }
{
    are_apart(&sack.gap_ack_blocks)
}

/// Returns whether no block ends before its start, and each starts at least 2 past the end of the
/// one before it, or past 0.
#[inline(never)]
pub(crate) fn are_apart(blocks: &[GapAckBlock]) -> bool
    ensures apart { IsTrue result ↔ IsApart 2 blocks.now }
    // by their type
    ensures ends { All (λ b. b.end ≤ 65535) blocks.now }
{
    let mut apart = true;
    let mut least: u32 = 2;
    // no way out before the end, so that several blocks are tested at once
    for block in blocks {
        apart &= (block.start <= block.end) & (least <= block.start as u32);
        // an end can be 65,535
        least = block.end as u32 + 2;
    }
    apart
}
