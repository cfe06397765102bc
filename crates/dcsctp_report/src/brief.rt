//! A packet in a part of one line: words with a blank between each two.

use crate::fault::{Fault, Reason};
use crate::fields::{Block, Fields, Flag, Form, Number, Text};
use crate::names::Level;
use crate::out::Out;
use crate::printed::OneWord;
use crate::registry::{cause_name, chunk_name, parameter_name};
use dcsctp_borrowed::checksum::Checksum;
use dcsctp_borrowed::part::{Item, Part};
use dcsctp_wire::packet::read_u32_be;
use dcsctp_wire::packet::sctp_packet::CommonHeader;
use std::fmt;

/// Writes words. Of parameters and error causes it writes the names, or types and codes without
/// one, and texts.
#[derive(Drop)]
pub struct BriefFields<'f, W> {
    out: Out<'f, W>,
    /// What is written before the next word.
    before: &'static str,
    /// What is written before the next item or entry of a list.
    before_item: &'static str,
    /// What is written before the next number of an entry.
    before_number: &'static str,
    /// Whether a chunk began.
    has_chunk: bool,
    /// How many parameters and error causes began that haven't ended.
    depth: usize,
    /// Whether an entry began that hasn't ended.
    is_entry: bool,
}

impl<'f, W: fmt::Write> BriefFields<'f, W> {
    /// Returns what writes no blank before the first word.
    pub fn new(f: &'f mut fmt::Formatter<W>) -> BriefFields<'f, W> {
        BriefFields {
            out: Out::new(f),
            before: "",
            before_item: "",
            before_number: "",
            has_chunk: false,
            depth: 0,
            is_entry: false,
        }
    }

    /// Ends. Returns an error if the formatter failed.
    pub fn end(&self) -> fmt::Result {
        self.out.end()
    }

    /// Begins a word.
    fn begin_word(&mut self) {
        self.out.say(self.before);
        self.before = " ";
    }

    /// Begins an item or an entry of a list.
    fn begin_item(&mut self) {
        self.out.say(self.before_item);
        self.before_item = ",";
    }

    /// Writes a chunk's name, or its type.
    fn begin_chunk(&mut self, typ: u8) {
        if self.has_chunk {
            self.out.say(" |");
        }
        self.has_chunk = true;
        self.begin_word();
        match chunk_name(typ as u32) {
            Some(name) => self.put_name(name),
            None => write!(self.out, "{typ:#04x}"),
        }
    }

    /// Writes a name as one word.
    fn put_name(&mut self, name: &'static str) {
        for character in name.chars() {
            let written = if character == ' ' { '_' } else { character };
            write!(self.out, "{written}");
        }
    }

    /// Begins a field.
    fn begin_field(&mut self, key: &'static str) {
        self.begin_word();
        self.out.say(key);
        self.out.say("=")
    }

    /// Writes a size.
    fn put_size(&mut self, size: usize) {
        self.begin_field("size");
        write!(self.out, "{size}")
    }
}

impl<'f, W: fmt::Write> Fields for BriefFields<'f, W> {
    fn header(&mut self, header: &CommonHeader, found: Checksum) {
        let (tag, found) = (header.verification_tag, found.name());
        self.begin_word();
        write!(self.out, "{tag:#010x} {found}")
    }

    fn no_header(&mut self, captured: &[u8]) {
        self.begin_word();
        if captured.len() < CommonHeader::CHECKSUM {
            return self.out.say("- unknown");
        }
        let tag = read_u32_be(&captured[CommonHeader::VERIFICATION_TAG..]);
        write!(self.out, "{tag:#010x} unknown")
    }

    fn fault(&mut self, fault: &Fault<'_>) {
        let (kind, offset, reason) = (fault.kind.name(), fault.offset, Reason(*fault));
        self.begin_word();
        write!(self.out, "! {kind} at {offset}: {reason}")
    }

    fn cut_off(&mut self) {
        self.begin_word();
        self.out.say("! cut off")
    }

    fn begin(&mut self, level: Level, item: &Item<'_>) {
        if level == Level::Chunk {
            return self.begin_chunk(item.first);
        }
        let code = item.code();
        let name = match level {
            Level::Cause => cause_name(code),
            _ => parameter_name(code),
        };
        self.depth = self.depth.saturating_add(1);
        if self.depth > 1 {
            return;
        }
        self.begin_item();
        match name {
            Some(name) => self.put_name(name),
            None => write!(self.out, "{code:#06x}"),
        }
    }

    fn end(&mut self, _level: Level) {
        self.depth = self.depth.saturating_sub(1);
    }

    fn begin_list(&mut self, key: &'static str, is_empty: bool) {
        if is_empty || self.depth > 0 || !self.has_chunk {
            return;
        }
        self.before_item = "";
        self.begin_field(key)
    }

    fn begin_entry(&mut self, _offset: usize, _size: usize) {
        if self.depth > 0 {
            return;
        }
        self.is_entry = true;
        self.before_number = "";
        self.begin_item()
    }

    fn end_entry(&mut self) {
        self.is_entry = false;
    }

    /// Writes nothing of a number without words.
    fn number(&mut self, number: &Number) {
        if self.depth > 0 || number.words.is_empty() {
            return;
        }
        if self.is_entry {
            self.out.say(self.before_number);
            self.before_number = "/";
        } else {
            self.begin_field(number.key);
        }
        let value = number.value;
        match number.form {
            Form::Hexadecimal => write!(self.out, "{value:#010x}"),
            _ => write!(self.out, "{value}"),
        }
    }

    fn named(&mut self, number: &Number, name: Option<&'static str>) {
        self.number(number);
        match name {
            Some(name) if self.depth == 0 => {
                self.out.say("/");
                self.put_name(name)
            }
            _ => {}
        }
    }

    fn flag(&mut self, flag: &Flag) {
        let word = if flag.is_set {
            flag.key
        } else {
            flag.otherwise
        };
        if self.depth > 0 || word.is_empty() {
            return;
        }
        if self.is_entry {
            self.out.say("/");
        } else {
            self.begin_word();
        }
        self.out.say(word)
    }

    fn block(&mut self, block: &Block) {
        let (start, end) = (block.start, block.end);
        self.begin_item();
        if start == end {
            return write!(self.out, "{start}");
        }
        write!(self.out, "{start}-{end}")
    }

    fn text(&mut self, text: &Text<'_>) {
        let word = OneWord(text.bytes);
        self.begin_field(text.key);
        write!(self.out, "{word}")
    }

    fn text_value(&mut self, bytes: &[u8]) {
        if self.depth > 1 {
            return;
        }
        let word = OneWord(bytes);
        write!(self.out, ":{word}")
    }

    fn payload(&mut self, payload: Part<'_>, _offset: usize, _is_text: bool) {
        self.put_size(payload.size)
    }

    fn value(&mut self, level: Level, item: &Item<'_>) {
        if level != Level::Chunk {
            return;
        }
        self.put_size(item.value.size)
    }
}
