//! Copies that have no room to spare.
//!
//! `Vec::with_capacity` and `push_reserved` say how much memory a list has; std leaves open how
//! much a copy of many items at once reserves. So a copy is made at once, and again item by item if
//! it has room to spare. That takes no time, since std's copies have none.

ghost use Rattle.std.specs.{Prelude.{◌≡◌, IfOk, replicate, vec_len, vec_capacity, length, ◌≤◌}, String.{string_bytes, string_len, string_capacity}};

use std::alloc::{AllocError, Global};

/// Copies the items one by one into memory with room for `room` items, at least as many as there
/// are.
#[cold]
fn copied_one_by_one<T: Copy>(alloc: Global, items: &[T], room: usize) -> Result<Vec<T>, AllocError>
    requires { length items.now ≤ room }
    ensures items { IfOk result (λ copy. copy.items ≡ items.now) }
    ensures room { IfOk result (λ copy. vec_capacity copy ≡ room) }
{
    let mut copy = Vec::with_capacity(alloc, room)?;
    for item in items {
        copy.push_reserved(*item);
    }
    Ok(copy)
}

/// Returns the list if its capacity equals its length, else a copy for which it does.
#[inline(always)]
fn without_spare<T: Copy>(alloc: Global, list: Vec<T>) -> Result<Vec<T>, AllocError>
    ensures items { IfOk result (λ same. same.items ≡ list.items) }
    ensures tight { IfOk result (λ same. vec_capacity same ≡ vec_len same) }
{
    if list.capacity() != list.len() {
        return copied_one_by_one(alloc, &list, list.len());
    }
    Ok(list)
}

/// Copies the items into memory with room for them alone; refused only if memory runs out.
#[inline(always)]
pub fn copied<T: Copy>(alloc: Global, items: &[T]) -> Result<Vec<T>, AllocError>
    ensures items { IfOk result (λ copy. copy.items ≡ items.now) }
    ensures tight { IfOk result (λ copy. vec_capacity copy ≡ vec_len copy) }
{
    without_spare(alloc, Vec::from_slice(alloc, items)?)
}

/// Copies the items into memory with room for `room` items, at least as many as there are; refused
/// only if memory runs out.
#[inline(always)]
pub fn copied_with_room<T: Copy>(
    alloc: Global,
    items: &[T],
    room: usize,
) -> Result<Vec<T>, AllocError>
    requires { length items.now ≤ room }
    ensures items { IfOk result (λ copy. copy.items ≡ items.now) }
    ensures room { IfOk result (λ copy. vec_capacity copy ≡ room) }
{
    let mut copy = Vec::with_capacity(alloc, room)?;
    copy.extend_from_slice(items)?;
    if copy.capacity() != room {
        return copied_one_by_one(alloc, items, room);
    }
    Ok(copy)
}

/// Returns `size` zeros, in memory with room for them alone; refused only if memory runs out.
#[inline(always)]
pub fn zeros(alloc: Global, size: usize) -> Result<Vec<u8>, AllocError>
    ensures items { IfOk result (λ zeros. zeros.items ≡ replicate size 0) }
    ensures tight { IfOk result (λ zeros. vec_capacity zeros ≡ vec_len zeros) }
{
    without_spare(alloc, vec![in alloc; 0; size]?)
}

/// Copies a text into memory with room for it alone; refused only where memory runs out.
#[inline(always)]
pub fn copied_text(alloc: Global, text: &str) -> Result<String, AllocError>
    ensures bytes { IfOk result (λ copy. string_bytes copy ≡ text.now) }
    ensures tight { IfOk result (λ copy. string_capacity copy ≡ string_len copy) }
{
    let copy = String::from_str(alloc, text)?;
    if copy.capacity() != copy.len() {
        return copied_text_as_bytes(alloc, text);
    }
    Ok(copy)
}

/// Copies the bytes of a text, and returns them as a text.
#[cold]
fn copied_text_as_bytes(alloc: Global, text: &str) -> Result<String, AllocError>
    ensures bytes { IfOk result (λ copy. string_bytes copy ≡ text.now) }
    ensures tight { IfOk result (λ copy. string_capacity copy ≡ string_len copy) }
{
    let bytes = copied(alloc, text.as_bytes())?;
    Ok(String::from_utf8(bytes).unwrap())
}
