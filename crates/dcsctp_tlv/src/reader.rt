//! Reading a list of items in two passes: a check that does not allocate, and a build that tests
//! nothing again. For every level.

ghost use Rattle.std.specs.Prelude.{◌≡◌, ◌≢◌, ◌≤◌, ◌<◌, ◌+◌, ◌*◌, ℕ, Bool, List, [], length, map, IsOk, IfOk, IfErr, IsErrOf, vec_len, vec_capacity, All};
ghost use Rattle.dcsctp_tlv.specs.{Frame.{PaddingRule, lenient, Item, AreItems}, Level.{Level, HasMeaning, Appends, MeansTrees, MeansSome, MeansMany}, Reading.{Answers, reading, locating, ListedAnswer, ListAnswer, RowAnswer, Counted, Unplaced, counts}};

use crate::error::{ChunkParseError, LocatedFault};
use crate::frame::{TLV_HEADER_SIZE, frame_parts, padding_fault, padding_parts, split_frame};
use std::alloc::{AllocError, Global};

/// A chunk, a parameter or an error cause that is checked, and then built from its item.
pub trait ReadableTlv: Sized + Drop {
    /// What its bytes mean.
    ghost Tree: { Type 0 };

    /// The table of its level, for a strict reader or a lenient one.
    ghost level: { Bool → Level Tree };

    /// What it means, without where it lies in memory.
    ghost view: { Self → Tree };

    /// Its memory has room for what it holds, and no more.
    ghost is_tight: { Self → Type 0 };

    /// It and the items within it, counted.
    ghost parts: { Tree → ℕ };

    /// Counts the parts of what an item's value means, each of which has four bytes of its own; or
    /// returns its fault, with the offset from the item's first byte. Does not allocate.
    fn check(first: u8, second: u8, value: &[u8], strict: bool) -> Result<usize, LocatedFault>
        ensures found { Answers locating (λ n. n)
            (Counted parts (RowAnswer ((level strict).row first second) value.now)) result }
        ensures few { IfOk result (λ n. 4 * n ≤ 4 + length value.now) }
        ensures within { IfErr result (λ found. found.offset ≤ 4 + length value.now) };

    /// Builds what an item's value means at the end of a list that has room for it.
    fn read_onto(
        list: &mut Vec<Self>,
        alloc: Global,
        first: u8,
        second: u8,
        value: &[u8],
    ) -> Result<(), AllocError>
        requires meant { HasMeaning ((level lenient).row first second) value.now }
        requires room { vec_len list.old < vec_capacity list.old }
        ensures grows { IfOk result (λ _. Appends view is_tight
            ((level lenient).row first second) value.now list.old.items list.new.items) }
        ensures len { IfOk result (λ _. vec_len list.new ≡ vec_len list.old + 1) }
        ensures capacity { IfOk result (λ _. vec_capacity list.new ≡ vec_capacity list.old) };

    /// Returns whether an item that should have `size` bytes of padding may have these.
    fn accepts_padding(size: usize, there: &[u8], strict: bool) -> bool
        ensures { result ≡ (level strict).padding size there.now };
}

/// How much a list holds.
#[derive(Clone, Copy)]
pub struct Counts {
    /// Its items.
    pub items: usize,
    /// Its items, and the items within them.
    pub parts: usize,
}

/// Counts the items and all their parts; or returns the first fault from the left, with its offset.
/// Does not allocate.
///
/// A strict check also looks at the padding of each item, after its value.
///
/// A fault of a frame or of a value is at the item's first byte: of the innermost item, if that is
/// in a list in a value. A fault of padding is at the first byte that isn't zero, or else where the
/// first missing byte would be.
pub fn list_check<T: ReadableTlv>(bytes: &[u8], strict: bool) -> Result<Counts, LocatedFault>
    ensures found { Answers locating (λ n. n)
        (Counted (counts T.parts) (ListAnswer (T.level strict) bytes.now)) result }
    ensures few { IfOk result (λ n. (4 * n.items ≤ length bytes.now)
        × (4 * n.parts ≤ length bytes.now)) }
    ensures within { IfErr result (λ found. found.offset ≤ length bytes.now) }
{
    let mut items: usize = 0;
    let mut parts: usize = 0;
    let mut rest = bytes;
    while !rest.is_empty() {
        let ahead = bytes.len() - rest.len();
        let Ok((value, after)) = split_frame(rest) else {
            return Err(LocatedFault {
                fault: ChunkParseError::InvalidLength,
                offset: ahead,
            });
        };
        match T::check(rest[0], rest[1], value, strict) {
            Ok(found) => parts += found,
            Err(found) => {
                return Err(LocatedFault {
                    fault: found.fault,
                    offset: ahead + found.offset,
                });
            }
        }
        let (size, there) = padding_parts(rest);
        if !T::accepts_padding(size, there, strict) {
            return Err(LocatedFault {
                fault: ChunkParseError::InvalidPadding,
                offset: ahead + padding_fault(rest),
            });
        }
        items += 1;
        rest = after;
    }
    Ok(Counts { items, parts })
}

// A part of its callers: as a call it would also copy the unused bytes of a fault that isn't there.
/// Counts the parts of an item whose value is a list from byte `place` on: the item and the items
/// of the list; or returns the list's first fault, with the offset from the item's first byte. Does
/// not allocate.
#[inline(always)]
pub fn listed_check<T: ReadableTlv>(
    value: &[u8],
    place: usize,
    strict: bool,
) -> Result<usize, LocatedFault>
    requires { place ≤ length value.now }
    ensures found { Answers locating (λ n. n)
        (ListedAnswer (T.level strict) place value.now) result }
    ensures few { IfOk result (λ n. 4 * n ≤ 4 + length value.now) }
    ensures within { IfErr result (λ found. found.offset ≤ 4 + length value.now) }
{
    match list_check::<T>(&value[place..], strict) {
        Ok(count) => Ok(1 + count.items),
        Err(found) => Err(LocatedFault {
            fault: found.fault,
            offset: TLV_HEADER_SIZE + (place + found.offset),
        }),
    }
}

/// Counts the items; requires that the bytes are a list of items.
fn count_items(bytes: &[u8]) -> usize
    requires { (rule : PaddingRule) × ((items : List Item) × AreItems rule bytes.now items) }
    ensures { (rule : PaddingRule) (items : List Item) → AreItems rule bytes.now items
        → result ≡ length items }
{
    let mut count: usize = 0;
    let mut rest = bytes;
    while !rest.is_empty() {
        let (_, after) = frame_parts(rest);
        count += 1;
        rest = after;
    }
    count
}

/// Builds the list that the bytes mean, where they are known to mean `count` items. The memory for
/// the list is taken at once.
pub fn list_build<T: ReadableTlv>(
    alloc: Global,
    bytes: &[u8],
    count: usize,
) -> Result<Vec<T>, AllocError>
    requires { MeansMany (T.level lenient) bytes.now count }
    ensures meant { IfOk result
        (λ list. MeansTrees (T.level lenient) bytes.now (map T.view list.items)) }
    ensures reserved { IfOk result (λ list. vec_capacity list ≡ vec_len list) }
    ensures tight { IfOk result (λ list. All T.is_tight list.items) }
    ensures empty { bytes.now ≡ [] → IsOk result }
{
    let mut list = Vec::new(alloc);
    list_fill(&mut list, alloc, bytes, count)?;
    Ok(list)
}

/// Builds the items that the bytes mean into a list that has no memory yet, where they are known to
/// mean `count` items. The memory for the list is taken at once.
pub fn list_fill<T: ReadableTlv>(
    list: &mut Vec<T>,
    alloc: Global,
    bytes: &[u8],
    count: usize,
) -> Result<(), AllocError>
    requires meant { MeansMany (T.level lenient) bytes.now count }
    requires fresh { (list.old.items ≡ []) × (vec_len list.old ≡ 0) × (vec_capacity list.old ≡ 0) }
    ensures meant { IfOk result
        (λ _. MeansTrees (T.level lenient) bytes.now (map T.view list.new.items)) }
    ensures reserved { IfOk result (λ _. vec_capacity list.new ≡ vec_len list.new) }
    ensures tight { IfOk result (λ _. All T.is_tight list.new.items) }
    ensures empty { bytes.now ≡ [] → IsOk result }
{
    list.reserve_exact(count)?;
    let mut rest = bytes;
    while !rest.is_empty() {
        let (value, after) = frame_parts(rest);
        T::read_onto(list, alloc, rest[0], rest[1], value)?;
        rest = after;
    }
    Ok(())
}

/// Fills a list where the number of items isn't known: they are counted first.
pub fn list_fill_counted<T: ReadableTlv>(
    list: &mut Vec<T>,
    alloc: Global,
    bytes: &[u8],
) -> Result<(), AllocError>
    requires meant { MeansSome (T.level lenient) bytes.now }
    requires fresh { (list.old.items ≡ []) × (vec_len list.old ≡ 0) × (vec_capacity list.old ≡ 0) }
    ensures meant { IfOk result
        (λ _. MeansTrees (T.level lenient) bytes.now (map T.view list.new.items)) }
    ensures reserved { IfOk result (λ _. vec_capacity list.new ≡ vec_len list.new) }
    ensures tight { IfOk result (λ _. All T.is_tight list.new.items) }
    ensures empty { bytes.now ≡ [] → IsOk result }
{
    list_fill(list, alloc, bytes, count_items(bytes))
}

/// Reads all the bytes as a list of items: a check, and then a build.
///
/// It returns what the items mean, or the first fault from the left wherever there is one;
/// `OutOfMemory` only where there is none, and there are items.
pub fn list_from_bytes<T: ReadableTlv>(
    alloc: Global,
    bytes: &[u8],
) -> Result<Vec<T>, ChunkParseError>
    ensures answer { Answers reading (λ list. map T.view list.items)
        (Unplaced (ListAnswer (T.level lenient) bytes.now)) result }
    ensures memory { IsErrOf result ChunkParseError.OutOfMemory
        → MeansSome (T.level lenient) bytes.now × (bytes.now ≢ []) }
    ensures reserved { IfOk result (λ list. vec_capacity list ≡ vec_len list) }
    ensures tight { IfOk result (λ list. All T.is_tight list.items) }
{
    let count = list_check::<T>(bytes, false)?.items;
    Ok(list_build(alloc, bytes, count)?)
}
