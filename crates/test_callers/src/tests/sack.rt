//! The gap ack blocks of a SACK: its sizes, and the cleaning of thousands of them.

use crate::tests::help::size_of;
use dcsctp_wire::packet::chunk_validators::{clean_sack, validate_sack};
use dcsctp_wire::packet::sack_chunk::{GapAckBlock, SackChunk};
use dcsctp_wire::types::{SerialNumber, Tsn};
use std::alloc::{AllocError, Global};
use std::test::Fail;

/// Returns a SACK of TSN 7 with these blocks.
fn sack_of(alloc: Global, gap_ack_blocks: Vec<GapAckBlock>) -> SackChunk {
    SackChunk {
        cumulative_tsn_ack: Tsn(7),
        a_rwnd: 9,
        gap_ack_blocks,
        duplicate_tsns: Vec::new(alloc),
    }
}

/// Returns a SACK with a reversed block after its cleaning, as it is shown.
fn kept_fields(alloc: Global) -> Result<String, AllocError> {
    let mut sack = sack_of(alloc, Vec::from_slice(alloc, &[GapAckBlock::new(6, 4)])?);
    sack.duplicate_tsns = Vec::from_slice(alloc, &[Tsn(9), Tsn(9), Tsn(3)])?;
    let cleaned = clean_sack(sack);
    format!(in alloc; "{cleaned:?}")
}

/// Returns whether offsets 2 to 8 are valid in a SACK of this TSN.
fn is_valid_from(alloc: Global, cumulative_tsn_ack: Tsn) -> Result<bool, AllocError> {
    let mut sack = sack_of(alloc, Vec::from_slice(alloc, &[GapAckBlock::new(2, 8)])?);
    sack.cumulative_tsn_ack = cumulative_tsn_ack;
    Ok(validate_sack(&sack))
}

#[test]
fn other_fields(rt: HostRuntime) -> Result<(), Fail> {
    let wanted =
        "SackChunk { cumulative_tsn_ack: 7, a_rwnd: 9, gap_ack_blocks: [], duplicate_tsns: [9, 9, 3] }";
    assert!(rt; kept_fields(rt.alloc())?.as_str() == wanted);
    // offsets past the last TSN
    let cumulative = Tsn(4294967290);
    let last = cumulative + 8;
    assert!(rt; is_valid_from(rt.alloc(), cumulative)?);
    assert!(rt; last == Tsn(2) && last.greater_than(cumulative));
    Ok(())
}

/// Returns how many bytes a SACK has with these numbers of blocks and TSNs, or nothing if it can't
/// be written.
fn size_with(alloc: Global, blocks: usize, tsns: usize) -> Result<Option<usize>, AllocError> {
    let mut sack = sack_of(alloc, vec![in alloc; GapAckBlock::new(3, 4); blocks]?);
    sack.duplicate_tsns = vec![in alloc; Tsn(5); tsns]?;
    Ok(size_of(sack))
}

#[test]
fn sizes(rt: HostRuntime) -> Result<(), Fail> {
    // the most blocks, one more, and the same with TSNs among them
    let rows = [
        (16379, 0, Some(65532)),
        (16380, 0, None),
        (16378, 1, Some(65532)),
        (0, 16379, Some(65532)),
        (8190, 8190, None),
    ];
    for (blocks, tsns, size) in rows {
        assert!(rt;
            size_with(rt.alloc(), blocks, tsns)? == size,
            "{blocks}, {tsns}"
        );
    }
    Ok(())
}

/// Lists of blocks, each of which is known by its place.
#[derive(Clone, Copy)]
enum List {
    /// The even offsets from 2 on.
    Even,
    /// The first `n` of them by falling start; and after them a block that covers all of 300,
    /// from 1 to 601.
    Falling(u16),
    /// `n` even offsets, half of them from 2 on, and the others up to 65534.
    Apart(u16),
    /// `n` even offsets, half of them from 2 on, the others up to 65534, by turns from the front
    /// and from the end.
    Alternating(u16),
    /// A low block and a high one, and between them `n` by falling start: none of these follows the
    /// last run. And then one that joins the lowest of them to the low block.
    Between(u16),
    /// A low block and a high one, and between them `n` by rising start; if the second number is 1,
    /// as they are joined.
    Rising(u16, u16),
}

fn one(offset: u16) -> GapAckBlock {
    GapAckBlock::new(offset, offset)
}

fn even(i: u16) -> GapAckBlock {
    one(i.wrapping_add(1).wrapping_mul(2))
}

fn apart(count: u16, i: u16) -> GapAckBlock {
    if i < count.wrapping_add(1) / 2 {
        even(i)
    } else {
        even(i.wrapping_add(32767).wrapping_sub(count))
    }
}

/// Returns 5, 8, 11 and so on.
fn third(rest: u16) -> u16 {
    rest.wrapping_mul(3).wrapping_add(2)
}

/// Returns the block at this place.
fn block_of(list: List, i: u16) -> GapAckBlock {
    match list {
        List::Even => even(i),
        List::Falling(count) if i == count => GapAckBlock::new(1, 601),
        List::Falling(count) => even(count.wrapping_sub(i).wrapping_sub(1)),
        List::Apart(count) => apart(count, i),
        List::Alternating(count) if i % 2 == 0 => apart(count, i / 2),
        List::Alternating(count) => apart(count, count.wrapping_sub(1).wrapping_sub(i / 2)),
        List::Between(_) if i == 0 => one(2),
        List::Between(_) if i == 1 => GapAckBlock::new(65534, 65535),
        List::Between(count) if i == count.wrapping_add(2) => GapAckBlock::new(3, 4),
        List::Between(count) => one(third(count.wrapping_add(2).wrapping_sub(i))),
        List::Rising(count, joined) if i.wrapping_add(joined) > count => {
            GapAckBlock::new(65534, 65535)
        }
        List::Rising(_, joined) if i == 0 => GapAckBlock::new(2, third(joined)),
        List::Rising(_, joined) => one(third(i.wrapping_add(joined))),
    }
}

/// Returns the first `count` blocks of the list.
fn blocks_of(alloc: Global, list: List, count: u16) -> Result<Vec<GapAckBlock>, AllocError> {
    let mut blocks = Vec::new(alloc);
    for i in 0..count {
        blocks.push(block_of(list, i))?;
    }
    Ok(blocks)
}

/// Returns whether blocks of a list are cleaned to those of another, which are valid if the first
/// starts at 2 or later.
fn are_cleaned_to(
    alloc: Global,
    list: List,
    count: u16,
    cleaned: List,
    wanted: u16,
) -> Result<bool, AllocError> {
    let blocks = blocks_of(alloc, list, count)?;
    let wanted = blocks_of(alloc, cleaned, wanted)?;
    let sack = clean_sack(sack_of(alloc, blocks));
    let is_valid = validate_sack(&sack) == (block_of(cleaned, 0).start >= 2);
    Ok(is_valid && sack.gap_ack_blocks.as_slice() == wanted.as_slice())
}

#[test]
fn many_blocks(rt: HostRuntime) -> Result<(), Fail> {
    let alloc = rt.alloc();
    // the most that a SACK can have
    let most = 16379;
    let (falling, alternating) = (List::Falling(most), List::Alternating(most));
    assert!(rt; are_cleaned_to(alloc, falling, most, List::Even, most)?);
    assert!(rt; are_cleaned_to(alloc, alternating, most, List::Apart(most), most)?);
    // 600, 598 .. 2, and the same with a block over all
    let falling = List::Falling(300);
    assert!(rt; are_cleaned_to(alloc, falling, 300, List::Even, 300)?);
    assert!(rt; are_cleaned_to(alloc, falling, 301, List::Falling(0), 1)?);
    // as many as the recent runs have room for, once and twice, one more and one less; and as many
    // as there can be
    for count in [1, 2, 255, 256, 257, 511, 512, 513, 16377] {
        for joined in [0, 1] {
            let (between, rising) = (List::Between(count), List::Rising(count, joined));
            let (all, wanted) = (count + 2 + joined, count + 2 - joined);
            assert!(rt;
                are_cleaned_to(alloc, between, all, rising, wanted)?,
                "{count} {joined}"
            );
        }
    }
    Ok(())
}
