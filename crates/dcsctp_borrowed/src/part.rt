//! Bytes of a packet, as far as they were captured, and the items in them: chunks, parameters and
//! error causes.

ghost use Rattle.std.specs.Prelude.{◌≡◌, ◌≤◌, ◌↔◌, ◌∷◌, [], length, IsTrue};
ghost use Rattle.dcsctp_tlv.specs.Number.{number16};
ghost use Rattle.dcsctp_borrowed.specs.Part.{part_of, front, after, IsFirst};

use dcsctp_wire::packet::{read_u16_be, round_up_to_4};
use std::marker::Model;

/// Bytes of a packet, of which the last ones may not have been captured.
#[derive(Clone, Copy, Debug)]
pub struct Part<'a> {
    /// Those that were captured, the first ones.
    pub bytes: &'a [u8],
    /// How many bytes there are in the packet.
    pub size: usize,
    /// The offset of the first one in the packet.
    pub offset: usize,
}

/// A chunk, a parameter or an error cause.
#[derive(Clone, Copy, Debug)]
pub struct Item<'a> {
    /// The first byte: a chunk's type.
    pub first: u8,
    /// The second byte: a chunk's flags.
    pub second: u8,
    /// What follows the header, without padding.
    pub value: Part<'a>,
    /// The size of the whole, with padding.
    pub padded: usize,
}

impl<'a> Part<'a> {
    /// Returns a packet of `size` bytes, of which these were captured.
    pub fn packet(bytes: &'a [u8], size: usize) -> Part<'a>
        ensures bytes { result.bytes.now ≡ bytes.now }
        ensures size { result.size ≡ size }
    {
        Part {
            bytes,
            size,
            offset: 0,
        }
    }

    /// Returns whether all of it was captured.
    pub fn is_whole(self) -> bool
        ensures { IsTrue result ↔ self.entry.size ≤ length self.entry.bytes.now }
    {
        self.bytes.len() >= self.size
    }

    /// Returns the first bytes.
    pub fn front(self, count: usize) -> Part<'a>
        ensures { part_of result ≡ front count (part_of self.entry) }
    {
        Part {
            bytes: &self.bytes[..count.min(self.bytes.len())],
            size: count.min(self.size),
            offset: self.offset,
        }
    }

    /// Returns what follows the first bytes.
    pub fn after(self, count: usize) -> Part<'a>
        ensures { part_of result ≡ after count (part_of self.entry) }
    {
        Part {
            bytes: &self.bytes[count.min(self.bytes.len())..],
            size: self.size.saturating_sub(count),
            offset: self.offset.saturating_add(count),
        }
    }

    /// Returns the item at the front; `None` where its header was not captured, or its length is
    /// less than 4 or more than is left.
    pub fn item(self) -> Option<Item<'a>>
        ensures { IsFirst (part_of self.entry) result }
    {
        let bytes = self.bytes;
        if bytes.len() < 4 {
            return None;
        }
        let length = read_u16_be(&bytes[2..]) as usize;
        if length < 4 || length > self.size {
            return None;
        }
        Some(Item {
            first: bytes[0],
            second: bytes[1],
            value: self.front(length).after(4),
            padded: round_up_to_4(length),
        })
    }

    /// Returns the items that lie here one after the other, as far as their headers were captured,
    /// and their lengths are 4 at least and no more than is left.
    pub fn items(self) -> Items<'a>
        ensures { result ≡ part_of self.entry }
    {
        Items { rest: self }
    }
}

impl<'a> Item<'a> {
    /// Returns a parameter's type, or a cause's code.
    pub fn code(self) -> u16
        ensures { result ≡ number16 (self.entry.first ∷ self.entry.second ∷ []) }
    {
        u16::from_be_bytes([self.first, self.second])
    }
}

/// The items that lie in bytes of a packet one after the other (RFC 9260 sections 3.2, 3.2.1 and
/// 3.3.10), as far as their headers were captured, and their lengths are 4 at least and no more
/// than is left.
///
/// A contract sees the bytes that are left.
#[derive(Clone, Debug, Drop)]
pub struct Items<'a> {
    rest: Part<'a>,
}

impl<'a> Model for Items<'a> {
    ghost use Rattle.dcsctp_borrowed.specs.Part.{Part, part_of};

    ghost Value = { Part };

    ghost view = { λ i. part_of i.rest };
}

impl<'a> Items<'a> {
    /// Returns what is left: nothing, or what begins with no item.
    pub fn rest(&self) -> Part<'a>
        ensures { part_of result ≡ self.now }
    {
        self.rest
    }
}

impl<'a> Iterator for Items<'a> {
    ghost use Rattle.std.specs.Prelude.{length};
    ghost use Rattle.std.specs.Iterator.{at_most};
    ghost use Rattle.dcsctp_borrowed.specs.Part.{GivesItem};

    type Item = Item<'a>;

    ghost next_gives = { GivesItem };

    ghost remaining = { λ p. at_most (length p.bytes) };

    /// Returns the next item.
    fn next(&mut self) -> Option<Item<'a>> {
        let item = self.rest.item()?;
        self.rest = self.rest.after(item.padded);
        Some(item)
    }
}
