//! Values that the library keeps as bytes, by what registry/sctp.txt says of their types.

use crate::chunks::set_flag;
use crate::fields::{Bytes, Fields, Form, Number, walk_named};
use crate::lists::{Listed, is_list, walk_list};
use crate::names::{Named, NamedBy};
use dcsctp_borrowed::part::{Item, Part};
use dcsctp_registry::address::ip_address;

/// What a value holds.
#[derive(Clone, Copy)]
pub struct Held {
    /// Bytes of the numbers.
    pub size: usize,
    pub numbers: &'static [HeldNumber],
    /// Those of its chunk.
    pub flags: &'static [HeldFlag],
    pub rest: Rest,
}

/// A number in a value.
#[derive(Clone, Copy)]
pub struct HeldNumber {
    /// What a line of text has before it.
    pub words: &'static str,
    pub key: &'static str,
    pub place: usize,
    pub size: usize,
    pub form: Form,
    /// What it means, if it has a meaning.
    pub by: Option<NamedBy>,
}

/// A bit of a chunk's flags.
#[derive(Clone, Copy)]
pub struct HeldFlag {
    /// What a line of text has where it is set.
    pub words: &'static str,
    pub key: &'static str,
    pub bit: u8,
}

/// What comes after the numbers.
#[derive(Clone, Copy)]
pub enum Rest {
    Nothing,
    /// An address of as many octets.
    Address(usize),
    Parameters,
    Causes,
    Text,
    Bytes {
        words: &'static str,
        key: &'static str,
    },
    /// Numbers of 1 or 2 bytes that have a meaning, each under the key `entry`.
    Names {
        key: &'static str,
        entry: &'static str,
        size: usize,
        by: NamedBy,
    },
}

/// Hands over what an item's value holds, with the parameters and the causes in it; returns false,
/// and hands over nothing, where its bytes don't hold that, or hold a list that isn't opened.
pub fn walk_held<P: Listed, C: Listed, F: Fields>(
    held: &Held,
    item: &Item<'_>,
    fields: &mut F,
) -> bool {
    let rest = item.value.after(held.size);
    if item.value.bytes.len() < held.size || !is_rest::<P, C>(held.rest, rest) {
        return false;
    }
    for field in held.numbers {
        walk_number(field, item, fields);
    }
    for flag in held.flags {
        let is_set = item.second & flag.bit != 0;
        fields.flag(&set_flag(flag.words, flag.key, is_set));
    }
    match held.rest {
        Rest::Nothing => {}
        Rest::Address(octets) => {
            if let Some(address) = ip_address(rest.bytes) {
                fields.address(address, octets);
            }
        }
        Rest::Parameters => walk_list::<P, F>(rest, fields),
        Rest::Causes => walk_list::<C, F>(rest, fields),
        Rest::Text => fields.text_value(rest.bytes),
        Rest::Bytes { words, key } => {
            fields.bytes(&Bytes::after(words, key, item, held.size));
        }
        Rest::Names {
            key,
            entry,
            size,
            by,
        } => {
            let captured = rest.bytes.len();
            let count = if size == 1 { captured } else { captured / 2 };
            let first = Number::at("", entry, item, held.size, size);
            walk_named(key, count, first, by, item, fields);
        }
    }
    true
}

/// Returns whether this can come after the numbers, as far as it was captured.
fn is_rest<P: Listed, C: Listed>(rest: Rest, part: Part<'_>) -> bool {
    match rest {
        Rest::Nothing => part.size == 0,
        Rest::Address(octets) => part.bytes.len() == octets,
        Rest::Parameters => P::IS_OPENED && is_list(part),
        Rest::Causes => C::IS_OPENED && is_list(part),
        Rest::Text | Rest::Bytes { .. } => true,
        Rest::Names { size, .. } => size == 1 || part.bytes.len().is_multiple_of(2),
    }
}

/// Hands over a number, with its name if it has a meaning.
fn walk_number<F: Fields>(field: &HeldNumber, item: &Item<'_>, fields: &mut F) {
    let number = Number::at(field.words, field.key, item, field.place, field.size);
    let number = number.in_form(field.form);
    let Some(by) = field.by else {
        return fields.number(&number);
    };
    let named = Named {
        number: number.value,
        by,
    };
    fields.named(&number, named.name())
}
