//! What a packet holds, as it is handed over, in its order, to what writes it in some form.
//!
//! The walk over a packet (`packet.rt`, `chunks.rt`, `lists.rt`, `parameters.rt`, `causes.rt`,
//! `channel.rt`) says what there is, and `text.rt`, `json.rt` and `brief.rt` how it is written. An
//! offset is counted from the first byte of the chunk, parameter or error cause that holds the
//! field, as in the figures of the RFCs.

use crate::fault::Fault;
use crate::names::{Level, NamedBy};
use dcsctp_borrowed::checksum::Checksum;
use dcsctp_borrowed::part::{Item, Part};
use dcsctp_wire::packet::sctp_packet::CommonHeader;
use dcsctp_wire::packet::{read_u16_be, read_u32_be};
use std::net::IpAddr;

/// The bytes of an item's header.
pub const HEADER_SIZE: usize = 4;

/// How a line of text has a number.
#[derive(Clone, Copy)]
pub enum Form {
    Decimal,
    /// With as many digits as its bytes have.
    Hexadecimal,
    Milliseconds,
    Microseconds,
}

/// A number.
#[derive(Clone, Copy)]
pub struct Number {
    /// What a line of text has before it.
    pub words: &'static str,
    /// Its name.
    pub key: &'static str,
    pub offset: usize,
    pub size: usize,
    pub value: u32,
    pub form: Form,
}

impl Number {
    /// Reads a number of 1, 2 or 4 bytes, which is 0 where it isn't there.
    #[inline(always)]
    pub fn read(
        words: &'static str,
        key: &'static str,
        item: &Item<'_>,
        offset: usize,
        size: usize,
    ) -> Number {
        let bytes = item.value.after(offset.saturating_sub(HEADER_SIZE)).bytes;
        let value = match size {
            1 if !bytes.is_empty() => bytes[0] as u32,
            2 if bytes.len() >= 2 => read_u16_be(bytes) as u32,
            4 if bytes.len() >= 4 => read_u32_be(bytes),
            _ => 0,
        };
        Number {
            words,
            key,
            offset,
            size,
            value,
            form: Form::Decimal,
        }
    }

    /// Reads a number at a place in an item's value, as `read` does.
    #[inline(always)]
    pub fn at(
        words: &'static str,
        key: &'static str,
        item: &Item<'_>,
        place: usize,
        size: usize,
    ) -> Number {
        Number::read(words, key, item, place.saturating_add(HEADER_SIZE), size)
    }

    /// Returns it in another form.
    #[inline(always)]
    pub fn in_form(self, form: Form) -> Number {
        Number { form, ..self }
    }

    /// Returns the number after it in a list.
    #[inline(always)]
    pub fn next(self, item: &Item<'_>) -> Number {
        let offset = self.offset.saturating_add(self.size);
        Number::read(self.words, self.key, item, offset, self.size).in_form(self.form)
    }
}

/// A bit.
#[derive(Clone, Copy)]
pub struct Flag {
    /// What a line of text has where it is set, and where it isn't.
    pub words: (&'static str, &'static str),
    /// Its name.
    pub key: &'static str,
    /// What is said where it isn't set; nothing of most.
    pub otherwise: &'static str,
    /// The byte that holds it.
    pub offset: usize,
    pub is_set: bool,
}

/// A gap ack block of a SACK (RFC 9260 section 3.3.4) or an NR-SACK.
#[derive(Clone, Copy)]
pub struct Block {
    /// What a line of text has before it.
    pub words: &'static str,
    pub offset: usize,
    pub start: u32,
    pub end: u32,
    /// The cumulative TSN that both are counted from.
    pub cumulative_tsn: u32,
}

impl Block {
    /// Returns the first TSN and the last.
    pub fn tsns(self) -> (u32, u32) {
        let tsn = self.cumulative_tsn;
        (tsn.wrapping_add(self.start), tsn.wrapping_add(self.end))
    }
}

/// A text.
#[derive(Clone, Copy)]
pub struct Text<'a> {
    /// What a line of text has before it.
    pub words: &'static str,
    /// Its name.
    pub key: &'static str,
    pub offset: usize,
    pub bytes: &'a [u8],
}

/// Bytes at the end of a chunk.
#[derive(Clone, Copy)]
pub struct Bytes<'a> {
    /// What a line of text has before them.
    pub words: &'static str,
    /// Their name.
    pub key: &'static str,
    pub offset: usize,
    pub part: Part<'a>,
}

impl<'a> Bytes<'a> {
    /// Returns all from a place in a chunk's value on.
    pub fn after(
        words: &'static str,
        key: &'static str,
        chunk: &Item<'a>,
        place: usize,
    ) -> Bytes<'a> {
        Bytes {
            words,
            key,
            offset: place.saturating_add(HEADER_SIZE),
            part: chunk.value.after(place),
        }
    }
}

/// What takes all that a packet holds, and writes it in some form. A method with a body is of what
/// not every form has.
pub trait Fields {
    /// Takes the packet's header.
    fn header(&mut self, header: &CommonHeader, found: Checksum);

    /// Takes that the packet has no header, as far as it was captured; and of one that was cut off
    /// in its header the bytes that were captured.
    fn no_header(&mut self, _captured: &[u8]) {}

    /// Takes the packet's fault.
    fn fault(&mut self, fault: &Fault<'_>);

    /// Takes that the packet was cut off, and has no fault as far as it goes.
    fn cut_off(&mut self) {}

    /// Begins an item: what comes up to its `end` is in it.
    fn begin(&mut self, level: Level, item: &Item<'_>);

    /// Ends an item.
    fn end(&mut self, level: Level);

    /// Begins a list, of items or of entries.
    fn begin_list(&mut self, _key: &'static str, _is_empty: bool) {}

    /// Ends a list.
    fn end_list(&mut self) {}

    /// Begins a list's entry.
    fn begin_entry(&mut self, _offset: usize, _size: usize) {}

    /// Ends a list's entry.
    fn end_entry(&mut self) {}

    /// Takes a number.
    fn number(&mut self, number: &Number);

    /// Takes a number that has a meaning, and its name, if it has one.
    fn named(&mut self, number: &Number, name: Option<&'static str>);

    /// Takes a number that a line of text has by its name alone.
    fn word(&mut self, number: &Number, name: &'static str) {
        self.named(number, Some(name))
    }

    /// Takes an entry of a list of numbers that have a meaning, and its index.
    fn named_entry(&mut self, _index: usize, _number: &Number, _by: NamedBy) {}

    /// Takes a bit.
    fn flag(&mut self, flag: &Flag);

    /// Takes an entry of a list of gap ack blocks.
    fn block(&mut self, block: &Block);

    /// Takes an address, which is an item's value.
    fn address(&mut self, _address: IpAddr, _size: usize) {}

    /// Takes a text in a payload.
    fn text(&mut self, text: &Text<'_>);

    /// Takes a text that is an item's value.
    fn text_value(&mut self, _bytes: &[u8]) {}

    /// Takes that the payload before is no message of the protocol that its identifier names.
    fn no_message(&mut self) {}

    /// Takes bytes.
    fn bytes(&mut self, _bytes: &Bytes<'_>) {}

    /// Takes the payload of a chunk; `is_text` if it is a whole message that is text.
    fn payload(&mut self, payload: Part<'_>, offset: usize, is_text: bool);

    /// Takes a value of which nothing but its bytes is known.
    fn value(&mut self, level: Level, item: &Item<'_>);
}

/// Hands over a list of `count` numbers, of which the first is given.
pub fn walk_numbers<F: Fields>(
    key: &'static str,
    count: usize,
    first: Number,
    item: &Item<'_>,
    fields: &mut F,
) {
    fields.begin_list(key, count == 0);
    let mut number = first;
    for _ in 0..count {
        fields.begin_entry(number.offset, number.size);
        fields.number(&number);
        fields.end_entry();
        number = number.next(item);
    }
    fields.end_list()
}

/// Hands over a list of `count` numbers that have a meaning, of which the first is given.
pub fn walk_named<F: Fields>(
    key: &'static str,
    count: usize,
    first: Number,
    by: NamedBy,
    item: &Item<'_>,
    fields: &mut F,
) {
    fields.begin_list(key, count == 0);
    let mut number = first;
    for i in 0..count {
        fields.named_entry(i, &number, by);
        number = number.next(item);
    }
    fields.end_list()
}
