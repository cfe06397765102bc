//! The cleaning of the gap ack blocks of a SACK.

ghost use Rattle.std.specs.{Prelude.{◌≡◌, ◌+◌, ◌<◌, ◌≤◌, ◌∷◌, length, take, drop, vec_capacity}, List.{SameFrom}};
ghost use Rattle.dcsctp_chunk.specs.{Apart.{IsApart, AreRunsOf, AreFree, both, covered}, Cover.{IsCleaned, CleanedLaws, AreValid}};

use crate::chunk_validators::runs::{FREE, first_reaching, follows, insert, join_runs, make_free};
use crate::chunk_validators::validate::are_apart;
use crate::sack_chunk::{GapAckBlock, SackChunk};

/// Replaces the blocks of the SACK by the runs of the offsets that they cover, as `clean_blocks`
/// does, and keeps all else.
///
/// A SACK that `validate_sack` accepts stays as it is. Runs that start at 0 or 1 are kept, so
/// `validate_sack` can refuse the result. It does not allocate.
pub fn clean_sack(mut sack: SackChunk) -> SackChunk
    ensures cumulative_tsn_ack { result.cumulative_tsn_ack ≡ sack.cumulative_tsn_ack }
    ensures a_rwnd { result.a_rwnd ≡ sack.a_rwnd }
    ensures duplicate_tsns { result.duplicate_tsns ≡ sack.duplicate_tsns }
    ensures cleaned { IsCleaned sack.gap_ack_blocks.items result.gap_ack_blocks.items }
    ensures laws { CleanedLaws sack.gap_ack_blocks.items result.gap_ack_blocks.items }
    ensures same { AreValid sack.gap_ack_blocks.items → result ≡ sack }
    ensures memory { vec_capacity result.gap_ack_blocks ≡ vec_capacity sack.gap_ack_blocks }
{
    clean_blocks(&mut sack.gap_ack_blocks);
    sack
}

// Not inlined, so that `clean_sack` of a valid SACK moves nothing.
/// Replaces the blocks by the runs of the offsets that they cover, by rising start: as few blocks
/// as there can be.
///
/// It works in the vector itself and does not allocate. Blocks that `validate_sack` accepts stay as
/// they are.
#[inline(never)]
#[tactic(auto, using(crate::proofs::Runs::valid_iff))]
pub fn clean_blocks(blocks: &mut Vec<GapAckBlock>)
    ensures cleaned { IsCleaned blocks.old.items blocks.new.items }
    ensures laws { CleanedLaws blocks.old.items blocks.new.items }
    ensures same { AreValid blocks.old.items → blocks.new ≡ blocks.old }
    ensures memory { vec_capacity blocks.new ≡ vec_capacity blocks.old }
{
    if are_apart(blocks) {
        return;
    }
    let kept = gather(blocks);
    blocks.truncate(kept);
}

/// Replaces the blocks in a slice by the runs of the offsets that they cover, by rising start, and
/// returns how many these are: the first blocks of the slice. Those after them are of no use.
#[tactic(auto, using(crate::proofs::Runs::valid_iff))]
pub fn clean_in_place(blocks: &mut [GapAckBlock]) -> usize
    ensures len { result ≤ length blocks.old }
    ensures cleaned { IsCleaned blocks.old (take result blocks.new) }
    ensures laws { CleanedLaws blocks.old (take result blocks.new) }
    ensures same { AreValid blocks.old
        → (result ≡ length blocks.old) × (blocks.new ≡ blocks.old) }
{
    if are_apart(blocks) {
        return blocks.len();
    }
    gather(blocks)
}

/// Puts block after block in among the runs of those before it. Returns `n`: the first `n` are then
/// the runs of what the blocks covered.
///
/// A packet holds 16,379 blocks, and a run that is put in before others moves them all. So a block
/// that does not follow the runs in front goes among a few recent ones, and these go among those in
/// front all at once, when they are 256 and at the end.
///
/// The array of the recent ones is searched as a whole, since a search of a length that the
/// compiler knows has no jumps. So a free place holds a block that ends last.
fn gather(blocks: &mut [GapAckBlock]) -> usize
    ensures len { result ≤ length blocks.old }
    ensures runs { AreRunsOf (take result blocks.new) blocks.old }
{
    turn_falling(blocks);
    let mut recent = [FREE; 256];
    let mut counts = Counts {
        front: 0,
        recent: 0,
    };
    for i in 0..blocks.len() {
        let block = blocks[i];
        if block.start <= block.end {
            counts = add_block(blocks, &mut recent, counts, block);
        }
    }
    let both = counts.front + counts.recent;
    join_runs(&mut blocks[..both], counts.front, &recent[..counts.recent])
}

/// Turns the blocks round where the first starts after the last: of falling blocks each then
/// starts after the one before it.
#[tactic(auto, using(crate::proofs::Covers::cover_permutation))]
fn turn_falling(blocks: &mut [GapAckBlock])
    ensures { covered blocks.new ≡ covered blocks.old }
{
    let len = blocks.len();
    if len > 0 && blocks[0].start > blocks[len - 1].start {
        blocks.reverse();
    }
}

/// How many runs are in front, and how many recent ones beside them.
#[derive(Clone, Copy)]
struct Counts {
    front: usize,
    recent: usize,
}

/// Puts the block in after the runs in front or among the recent ones, which may overlap those.
#[tactic(auto, using(std::proofs::lemmas::Grind::common_steps, crate::proofs::Covers::covers))]
fn add_block(
    blocks: &mut [GapAckBlock],
    recent: &mut [GapAckBlock],
    counts: Counts,
    block: GapAckBlock,
) -> Counts
    requires room { counts.front + counts.recent < length blocks.old }
    requires recent_room { counts.recent < length recent.old }
    requires nonempty { block.start ≤ block.end }
    requires apart { IsApart 0 (take counts.front blocks.old) }
    requires recent_apart { IsApart 0 (take counts.recent recent.old) }
    requires free { AreFree (drop counts.recent recent.old) }
    ensures bound { result.front + result.recent ≤ counts.front + counts.recent + 1 }
    ensures recent_bound { result.recent < length recent.old }
    ensures apart { IsApart 0 (take result.front blocks.new) }
    ensures recent_apart { IsApart 0 (take result.recent recent.new) }
    ensures free { AreFree (drop result.recent recent.new) }
    ensures cover { covered (both result recent.new blocks.new)
        ≡ covered (block ∷ both counts recent.old blocks.old) }
    ensures rest { SameFrom blocks.old blocks.new (counts.front + counts.recent + 1) }
{
    if follows(&blocks[..counts.front], block) {
        blocks[counts.front] = block;
        return Counts {
            front: counts.front + 1,
            recent: counts.recent,
        };
    }
    let first = first_reaching(recent, counts.recent, block);
    let count = insert(recent, counts.recent, first, block);
    if count < recent.len() {
        return Counts {
            front: counts.front,
            recent: count,
        };
    }
    let both = counts.front + count;
    let front = join_runs(&mut blocks[..both], counts.front, recent);
    make_free(recent);
    Counts { front, recent: 0 }
}
