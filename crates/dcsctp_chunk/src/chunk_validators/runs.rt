//! Runs of offsets in a slice of blocks: a list by rising start, each at least 2 past the end of
//! the one before it. A block is put in among them, and two such lists are joined.

ghost use Rattle.std.specs.{Prelude.{◌≡◌, ◌↔◌, ℕ, ◌+◌, ◌-◌, ◌<◌, ◌≤◌, [], ◌∷◌, ◌++◌, length, IsTrue, take, drop, max, slice_index_or}, List.{copy_within, CopiedTo, SameFrom}};
ghost use Rattle.dcsctp_chunk.specs.Apart.{IsApart, AreRunsOf, AreFree, LastStartsBy, IsReachedAt, after, around, placed};

use crate::sack_chunk::GapAckBlock;

/// What a free place holds: no block ends later.
pub(crate) const FREE: GapAckBlock = GapAckBlock {
    start: 65535,
    end: 65535,
};

/// Returns whether the block starts at least 2 past the end of the last run.
pub(crate) fn follows(runs: &[GapAckBlock], block: GapAckBlock) -> bool
    requires nonempty { block.start ≤ block.end }
    requires apart { IsApart 0 runs.now }
    ensures { IsTrue result → IsApart 0 (runs.now ++ (block ∷ [])) }
{
    match runs.last() {
        Some(run) => run.end < block.start.saturating_sub(1),
        None => true,
    }
}

/// Returns the index of the first of the first `kept` runs that ends next to the block's start or
/// later.
pub(crate) fn first_reaching(runs: &[GapAckBlock], kept: usize, block: GapAckBlock) -> usize
    requires room { kept ≤ length runs.now }
    requires apart { IsApart 0 (take kept runs.now) }
    requires free { AreFree (drop kept runs.now) }
    ensures bound { result ≤ kept }
    ensures point { IsReachedAt block.start result (take kept runs.now) }
{
    let offset = block.start.saturating_sub(1);
    runs.partition_point(|run| run.end < offset)
}

/// Puts the block in among the first `kept` runs, of which the one at `first` is the first that it
/// can touch. Returns `n`: the first `n` are then the runs of both.
#[tactic(auto, using(std::proofs::lemmas::Grind::common_steps, crate::proofs::Placed::put_run))]
pub(crate) fn insert(
    runs: &mut [GapAckBlock],
    kept: usize,
    first: usize,
    block: GapAckBlock,
) -> usize
    requires room { kept < length runs.old }
    requires nonempty { block.start ≤ block.end }
    requires apart { IsApart 0 (take kept runs.old) }
    requires bound { first ≤ kept }
    requires point { IsReachedAt block.start first (take kept runs.old) }
    requires free { AreFree (drop kept runs.old) }
    ensures len { result ≤ kept + 1 }
    ensures runs { AreRunsOf (take result runs.new) (block ∷ take kept runs.old) }
    ensures free { AreFree (drop result runs.new) }
{
    let place = find_place(&runs[..kept], first, block);
    // whole eights where there is room, with free places after the runs: that makes fewer jumps
    let eights = (kept - place.last + 7) / 8 * 8;
    let end = (place.last + eights).min(runs.len() - 1);
    move_within(runs, place.last, end, place.first + 1);
    runs[place.first] = place.run;
    let count = place.first + 1 + (kept - place.last);
    make_free_from(runs, count, kept);
    count
}

/// Makes the places from `count` on free, where those from `kept` on are free.
fn make_free_from(runs: &mut [GapAckBlock], count: usize, kept: usize)
    requires bound { count ≤ length runs.old }
    requires free { kept ≤ count → AreFree (drop count runs.old) }
    ensures front { take count runs.new ≡ take count runs.old }
    ensures free { AreFree (drop count runs.new) }
{
    if count < kept {
        let (_, places) = runs.split_at_mut(count);
        make_free(places);
    }
}

/// Makes every place free.
pub(crate) fn make_free(places: &mut [GapAckBlock])
    ensures { AreFree places.new }
{
    for place in places.iter_mut() {
        *place = FREE;
    }
}

/// The runs from `first` up to `last` overlap or touch a block, and `run` is they and it in one.
#[derive(Clone, Copy)]
struct Place {
    first: usize,
    last: usize,
    run: GapAckBlock,
}

/// Finds the place of the block among the runs, of which the one at `first` is the first that it
/// can touch.
#[tactic(auto, using(crate::proofs::Apart::placed_apart, crate::proofs::Placed::placed_cover))]
fn find_place(runs: &[GapAckBlock], first: usize, block: GapAckBlock) -> Place
    requires nonempty { block.start ≤ block.end }
    requires apart { IsApart 0 runs.now }
    requires bound { first ≤ length runs.now }
    requires point { IsReachedAt block.start first runs.now }
    ensures order { result.first ≤ result.last }
    ensures bound { result.last ≤ length runs.now }
    ensures within { block.end ≤ result.run.end }
    ensures runs { AreRunsOf (placed result runs.now) (block ∷ runs.now) }
{
    let mut last = first;
    let mut run = block;
    // an end can be 65,535, so one is taken from the start
    while last < runs.len() && runs[last].start.saturating_sub(1) <= run.end {
        run.start = run.start.min(runs[last].start);
        run.end = run.end.max(runs[last].end);
        last += 1;
    }
    Place { first, last, run }
}

/// Puts the others in among the first `kept` runs, from the last on. Returns `n`: the first `n` are
/// then the runs of both.
pub(crate) fn join_runs(runs: &mut [GapAckBlock], kept: usize, others: &[GapAckBlock]) -> usize
    requires room { length runs.old ≡ kept + length others.now }
    requires apart { IsApart 0 (take kept runs.old) }
    requires others_apart { IsApart 0 others.now }
    ensures len { result ≤ kept + length others.now }
    ensures runs { AreRunsOf (take result runs.new) (others.now ++ take kept runs.old) }
{
    let mut gap = Gap {
        low: kept,
        high: runs.len(),
    };
    let mut left = others.len();
    while left > 0 {
        left -= 1;
        gap = put_by_walk(runs, gap, others[left]);
    }
    close_gap(runs, gap)
}

/// Room between runs: those below `low`, and those from `high` on.
#[derive(Clone, Copy)]
struct Gap {
    low: usize,
    high: usize,
}

/// Moves the runs past the gap next to those below it, and counts both.
fn close_gap(runs: &mut [GapAckBlock], gap: Gap) -> usize
    requires order { gap.low ≤ gap.high }
    requires bound { gap.high ≤ length runs.old }
    ensures len { result ≤ length runs.old }
    ensures runs { take result runs.new ≡ around gap runs.old }
{
    let end = runs.len();
    move_within(runs, gap.high, end, gap.low);
    gap.low + (end - gap.high)
}

/// Puts the block in among the runs below the gap, and moves those past it to the gap's other side.
/// It walks down from the gap.
fn put_by_walk(runs: &mut [GapAckBlock], gap: Gap, block: GapAckBlock) -> Gap
    requires order { gap.low < gap.high }
    requires bound { gap.high ≤ length runs.old }
    requires apart { IsApart 0 (around gap runs.old) }
    requires nonempty { block.start ≤ block.end }
    requires below { IsApart (block.end + 2) (drop gap.high runs.old) }
    ensures order { result.low + gap.high ≤ gap.low + 1 + result.high }
    ensures bound { result.high ≤ length runs.old }
    ensures runs { AreRunsOf (around result runs.new) (block ∷ around gap runs.old) }
    ensures below { IsApart (block.end + 2) (drop result.high runs.new) }
{
    let past = lift_past(runs, gap, block);
    let place = last_place(&runs[..past.low], block);
    runs[place.first] = place.run;
    Gap {
        low: place.first + 1,
        high: past.high,
    }
}

/// Moves the runs that start at least 2 past the block's end to the gap's other side.
fn lift_past(runs: &mut [GapAckBlock], gap: Gap, block: GapAckBlock) -> Gap
    requires order { gap.low < gap.high }
    requires bound { gap.high ≤ length runs.old }
    requires apart { IsApart 0 (around gap runs.old) }
    requires below { IsApart (block.end + 2) (drop gap.high runs.old) }
    ensures order { result.low + gap.high ≡ gap.low + result.high }
    ensures bound { result.high ≤ gap.high }
    ensures runs { around result runs.new ≡ around gap runs.old }
    ensures below { IsApart (block.end + 2) (drop result.high runs.new) }
    ensures near { LastStartsBy (block.end + 1) result.low runs.new }
{
    let mut left = gap;
    // eight at a time where the first of them is past already
    while left.low > 7 && is_past(runs[left.low - 8], block) {
        left = lift(runs, left, 8);
    }
    while left.low > 0 && is_past(runs[left.low - 1], block) {
        left = lift(runs, left, 1);
    }
    left
}

/// Returns whether the run starts at least 2 past the block's end.
fn is_past(run: GapAckBlock, block: GapAckBlock) -> bool
    ensures { IsTrue result ↔ (block.end + 2 ≤ run.start) }
{
    // an end can be 65,535
    run.start as u32 > block.end as u32 + 1
}

/// Moves `count` runs to the gap's other side.
#[tactic(auto, using(crate::proofs::Placed::lifted))]
fn lift(runs: &mut [GapAckBlock], gap: Gap, count: usize) -> Gap
    requires some { 0 < count }
    requires count { count ≤ gap.low }
    requires order { gap.low ≤ gap.high }
    requires bound { gap.high ≤ length runs.old }
    requires apart { IsApart 0 (around gap runs.old) }
    ensures low { result.low + count ≡ gap.low }
    ensures high { result.high + count ≡ gap.high }
    ensures runs { around result runs.new ≡ around gap runs.old }
    ensures from { (n : ℕ) (d : GapAckBlock)
        → n ≤ (slice_index_or runs.old (gap.low - count) d).start
        → IsApart n (drop result.high runs.new) }
{
    let low = gap.low - count;
    let high = gap.high - count;
    runs.copy_within(low..gap.low, high);
    Gap { low, high }
}

/// Moves the blocks from `start` up to `end` to `dest`.
#[tactic(auto, using(crate::proofs::Placed::copy_nowhere))]
fn move_within(blocks: &mut [GapAckBlock], start: usize, end: usize, dest: usize)
    requires order { start ≤ end }
    requires bound { end ≤ length blocks.old }
    requires room { dest + (end - start) ≤ length blocks.old }
    ensures after { blocks.new ≡ copy_within blocks.old start end dest }
    ensures moved { CopiedTo blocks.old blocks.new start dest (end - start) }
    ensures rest { SameFrom blocks.old blocks.new (dest + (end - start)) }
{
    if start != dest {
        blocks.copy_within(start..end, dest);
    }
}

/// The runs from `first` on overlap or touch a block, and `run` is they and it in one.
#[derive(Clone, Copy)]
struct Last {
    first: usize,
    run: GapAckBlock,
}

/// Finds the place of the block among runs none of which starts at least 2 past its end.
#[tactic(auto, using(crate::proofs::Apart::apart_push, crate::proofs::Covers::covers))]
fn last_place(runs: &[GapAckBlock], block: GapAckBlock) -> Last
    requires nonempty { block.start ≤ block.end }
    requires apart { IsApart 0 runs.now }
    requires near { LastStartsBy (block.end + 1) (length runs.now) runs.now }
    ensures bound { result.first ≤ length runs.now }
    ensures within { block.end ≤ result.run.end }
    ensures last { result.run.end + 2 ≤ max (block.end + 2) (after 0 runs.now) }
    ensures runs { AreRunsOf (take result.first runs.now ++ (result.run ∷ [])) (block ∷ runs.now) }
{
    let mut first = runs.len();
    let mut run = block;
    while first > 0 && run.start.saturating_sub(1) <= runs[first - 1].end {
        first -= 1;
        run.start = run.start.min(runs[first].start);
        run.end = run.end.max(runs[first].end);
    }
    Last { first, run }
}
