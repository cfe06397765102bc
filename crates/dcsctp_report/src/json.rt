//! A packet as JSON (RFC 8259): numbers, bytes in lower-case hexadecimal, and texts.

use crate::fault::{Fault, Reason};
use crate::fields::{Block, Bytes, Fields, Flag, HEADER_SIZE, Number, Text};
use crate::hexadecimal::Digits;
use crate::json_text::JsonText;
use crate::names::{Level, Named, NamedBy};
use crate::out::Out;
use crate::registry::{cause_name, chunk_name, parameter_name};
use dcsctp_borrowed::checksum::Checksum;
use dcsctp_borrowed::part::{Item, Part};
use dcsctp_wire::packet::sctp_packet::CommonHeader;
use dcsctp_wire::packet::{read_u16_be, read_u32_be};
use std::fmt;
use std::net::IpAddr;

/// Writes keys and values.
#[derive(Drop)]
pub struct JsonFields<'f, W> {
    out: Out<'f, W>,
    /// Whether the offset and the size of each field are written.
    has_places: bool,
    /// The size of the packet.
    length: usize,
    /// Whether a comma comes before what is next.
    is_after_value: bool,
    /// The offset of the item.
    base: usize,
    /// The place of an item or an entry whose first key isn't written yet: its offset in the item,
    /// and its size.
    entry: Option<(usize, usize)>,
}

impl<'f, W: fmt::Write> JsonFields<'f, W> {
    /// Returns what writes nothing before the first key.
    pub fn new(f: &'f mut fmt::Formatter<W>, has_places: bool, length: usize) -> JsonFields<'f, W> {
        JsonFields {
            out: Out::new(f),
            has_places,
            length,
            is_after_value: false,
            base: 0,
            entry: None,
        }
    }

    /// Ends. Returns an error if the formatter failed.
    pub fn end(&self) -> fmt::Result {
        self.out.end()
    }

    /// Writes a comma, if one is needed.
    fn comma(&mut self) {
        if self.is_after_value {
            self.out.say(",");
        }
        self.is_after_value = true;
    }

    /// Opens an object that is in an array.
    fn open(&mut self) {
        self.comma();
        self.is_after_value = false;
        self.out.say("{")
    }

    /// Opens an object or an array that is a key's value.
    fn open_value(&mut self, key: &'static str, bracket: &'static str) {
        self.key(key);
        self.is_after_value = false;
        self.out.say(bracket)
    }

    /// Closes an object or an array.
    fn close(&mut self, bracket: &'static str) {
        self.is_after_value = true;
        self.out.say(bracket)
    }

    /// Writes a key.
    fn key(&mut self, key: &'static str) {
        self.comma();
        self.out.say("\"");
        self.out.say(key);
        self.out.say("\":")
    }

    /// Writes a key and a number.
    pub fn put(&mut self, key: &'static str, value: usize) {
        self.key(key);
        write!(self.out, "{value}")
    }

    /// Writes a key and a name, which needs no escapes.
    fn put_name(&mut self, key: &'static str, name: &'static str) {
        self.key(key);
        write!(self.out, "\"{name}\"")
    }

    /// Writes a key and bytes.
    pub fn put_bytes(&mut self, key: &'static str, bytes: &[u8]) {
        self.key(key);
        let digits = Digits(bytes);
        write!(self.out, "\"{digits}\"")
    }

    /// Writes a key and a text, if it is UTF-8.
    fn put_text(&mut self, key: &'static str, offset: usize, bytes: &[u8]) {
        let Ok(text) = str::from_utf8(bytes) else {
            return;
        };
        let text = JsonText(text);
        self.key(key);
        write!(self.out, "{text}");
        self.place(key, offset, bytes.len())
    }

    /// Writes the place of an entry whose first value was just written, and that of the field.
    fn place(&mut self, key: &'static str, offset: usize, size: usize) {
        if !self.has_places {
            return;
        }
        if let Some((offset, size)) = self.entry {
            self.entry = None;
            self.put_place("", offset, size);
        }
        self.put_place(key, offset, size)
    }

    /// Writes the place of a field.
    fn put_place(&mut self, key: &'static str, offset: usize, size: usize) {
        let start = self.base.saturating_add(offset);
        write!(self.out, ",\"{key}@\":[{start},{size}]")
    }
}

impl<'f, W: fmt::Write> Fields for JsonFields<'f, W> {
    fn header(&mut self, header: &CommonHeader, found: Checksum) {
        self.put("source", header.source_port as usize);
        self.place("source", CommonHeader::SOURCE_PORT, 2);
        self.put("destination", header.destination_port as usize);
        self.place("destination", CommonHeader::DESTINATION_PORT, 2);
        self.put("tag", header.verification_tag as usize);
        self.place("tag", CommonHeader::VERIFICATION_TAG, 4);
        self.put("checksum", header.checksum as usize);
        self.place("checksum", CommonHeader::CHECKSUM, 4);
        self.put_name("verdict", found.name());
        match found {
            Checksum::Wrong(word) => self.put("expected", word as usize),
            _ => {}
        }
    }

    fn no_header(&mut self, captured: &[u8]) {
        if captured.len() < CommonHeader::VERIFICATION_TAG {
            return;
        }
        self.put("source", read_u16_be(captured) as usize);
        self.place("source", CommonHeader::SOURCE_PORT, 2);
        self.put(
            "destination",
            read_u16_be(&captured[CommonHeader::DESTINATION_PORT..]) as usize,
        );
        self.place("destination", CommonHeader::DESTINATION_PORT, 2);
        if captured.len() < CommonHeader::CHECKSUM {
            return;
        }
        self.put(
            "tag",
            read_u32_be(&captured[CommonHeader::VERIFICATION_TAG..]) as usize,
        );
        self.place("tag", CommonHeader::VERIFICATION_TAG, 4)
    }

    fn fault(&mut self, fault: &Fault<'_>) {
        let reason = Reason(*fault);
        self.open_value("fault", "{");
        self.put_name("kind", fault.kind.name());
        self.put("offset", fault.offset);
        self.key("reason");
        write!(self.out, "\"{reason}\"");
        self.put_name("section", fault.section());
        self.put_name("sentence", fault.kind.sentence());
        self.close("}")
    }

    fn begin(&mut self, level: Level, item: &Item<'_>) {
        let code = item.code();
        let (key, number, size, name) = match level {
            Level::Chunk => (
                "chunk",
                item.first as usize,
                1,
                chunk_name(item.first as u32),
            ),
            Level::Parameter => ("parameter", code as usize, 2, parameter_name(code)),
            Level::Cause => ("cause", code as usize, 2, cause_name(code)),
        };
        self.base = item.value.offset.saturating_sub(HEADER_SIZE);
        self.entry = Some((0, item.padded.min(self.length.saturating_sub(self.base))));
        self.open();
        self.put(key, number);
        self.place(key, 0, size);
        if let Some(name) = name {
            self.put_name("name", name);
        }
        if level == Level::Chunk {
            self.put("flags", item.second as usize);
            self.place("flags", 1, 1);
        }
        self.put("length", item.value.size.saturating_add(HEADER_SIZE));
        self.place("length", 2, 2)
    }

    fn end(&mut self, _level: Level) {
        self.close("}")
    }

    fn begin_list(&mut self, key: &'static str, _is_empty: bool) {
        self.open_value(key, "[")
    }

    fn end_list(&mut self) {
        self.close("]")
    }

    fn begin_entry(&mut self, offset: usize, size: usize) {
        self.entry = Some((offset, size));
        self.open()
    }

    fn end_entry(&mut self) {
        self.close("}")
    }

    fn number(&mut self, number: &Number) {
        self.put(number.key, number.value as usize);
        self.place(number.key, number.offset, number.size)
    }

    fn named(&mut self, number: &Number, name: Option<&'static str>) {
        self.number(number);
        match name {
            Some(name) => {
                let key = number.key;
                self.comma();
                write!(self.out, "\"{key}_name\":\"{name}\"")
            }
            None => {}
        }
    }

    fn named_entry(&mut self, _index: usize, number: &Number, by: NamedBy) {
        let named = Named {
            number: number.value,
            by,
        };
        self.begin_entry(number.offset, number.size);
        self.number(number);
        if let Some(name) = named.name() {
            self.put_name("name", name);
        }
        self.end_entry()
    }

    fn flag(&mut self, flag: &Flag) {
        self.key(flag.key);
        self.out.say(if flag.is_set { "true" } else { "false" });
        self.place(flag.key, flag.offset, 1)
    }

    fn block(&mut self, block: &Block) {
        let (first, last) = block.tsns();
        self.begin_entry(block.offset, 4);
        self.put("start", block.start as usize);
        self.place("start", block.offset, 2);
        self.put("end", block.end as usize);
        self.place("end", block.offset.saturating_add(2), 2);
        self.put("first_tsn", first as usize);
        self.put("last_tsn", last as usize);
        self.end_entry()
    }

    fn address(&mut self, address: IpAddr, size: usize) {
        self.key("address");
        write!(self.out, "\"{address}\"");
        self.place("address", HEADER_SIZE, size)
    }

    fn text(&mut self, text: &Text<'_>) {
        self.put_text(text.key, text.offset, text.bytes)
    }

    fn text_value(&mut self, bytes: &[u8]) {
        self.put_text("text", HEADER_SIZE, bytes);
        self.put_bytes("value", bytes);
        self.place("value", HEADER_SIZE, bytes.len())
    }

    fn bytes(&mut self, bytes: &Bytes<'_>) {
        self.put_bytes(bytes.key, bytes.part.bytes);
        self.place(bytes.key, bytes.offset, bytes.part.size)
    }

    fn payload(&mut self, payload: Part<'_>, offset: usize, is_text: bool) {
        self.put("payload_size", payload.size);
        if !self.has_places {
            self.put_bytes("payload", payload.bytes);
        }
        // (with places its bytes are among those of the packet)
        self.place("payload", offset, payload.size);
        if is_text {
            self.put_text("text", offset, payload.bytes);
        }
    }

    fn value(&mut self, level: Level, item: &Item<'_>) {
        let value = item.value;
        self.put("value_size", value.size);
        self.put_bytes("value", value.bytes);
        self.place("value", HEADER_SIZE, value.size)
    }
}
