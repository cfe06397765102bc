//! Lists of parameters and error causes, in a chunk and in one another.

use crate::fields::{Fields, HEADER_SIZE};
use crate::names::Level;
use dcsctp_borrowed::part::{Item, Part};

/// A list of items, as deep as they are opened: no function calls itself, so each depth has a type.
pub trait Listed {
    /// The list's name.
    const KEY: &'static str;

    /// What an item is.
    const LEVEL: Level;

    /// Whether its items are handed over.
    const IS_OPENED: bool;

    /// Hands over what an item means; returns false, and hands over nothing, where its value isn't
    /// known to mean anything but its bytes.
    fn walk_meaning<F: Fields>(item: &Item<'_>, fields: &mut F) -> bool;
}

/// A list that isn't opened.
pub struct Unopened;

impl Listed for Unopened {
    const KEY: &'static str = "";

    const LEVEL: Level = Level::Parameter;

    const IS_OPENED: bool = false;

    fn walk_meaning<F: Fields>(_item: &Item<'_>, _fields: &mut F) -> bool {
        false
    }
}

/// Hands over each item of a list, as far as there are items.
pub fn walk_list<L: Listed, F: Fields>(list: Part<'_>, fields: &mut F) {
    fields.begin_list(L::KEY, list.item().is_none());
    for item in list.items() {
        fields.begin(L::LEVEL, &item);
        if !item.value.is_whole() || !L::walk_meaning(&item, fields) {
            fields.value(L::LEVEL, &item);
        }
        fields.end(L::LEVEL);
    }
    fields.end_list()
}

/// Returns whether nothing but items lies here, as far as it was captured.
pub fn is_list(list: Part<'_>) -> bool {
    let mut rest = list;
    for item in list.items() {
        rest = rest.after(item.padded);
    }
    // (an item whose header wasn't captured may be one)
    rest.size == 0 || rest.size >= HEADER_SIZE && rest.bytes.len() < HEADER_SIZE
}
