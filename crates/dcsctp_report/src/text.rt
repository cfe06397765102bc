//! A packet as plain lines, one fact a line, and two blanks deeper what is inside.

use crate::fault::Fault;
use crate::fields::{Block, Bytes, Fields, Flag, Form, Number, Text};
use crate::names::{ChunkName, ItemName, Level, Named, NamedBy};
use crate::out::Out;
use crate::payload::{Rows, TextLine};
use crate::printed::{Quoted, text_front};
use crate::shown::{ShownBytes, Size};
use dcsctp_borrowed::checksum::Checksum;
use dcsctp_borrowed::part::{Item, Part};
use dcsctp_wire::packet::sctp_packet::CommonHeader;
use dcsctp_wire::packet::{cookie_echo_chunk, read_u16_be, read_u32_be};
use std::fmt;
use std::net::IpAddr;

/// The names on a line.
const NAMES_A_LINE: usize = 10;

/// The most bytes of a payload's text that are shown, unless all are.
const MOST_OF_TEXT: usize = 64;

/// Writes lines of text. Each line but a chunk's first one begins with a line break.
#[derive(Drop)]
pub struct TextFields<'f, W> {
    out: Out<'f, W>,
    /// Whether all bytes of values are shown, those of payloads in rows.
    shows_all: bool,
    /// How many items began that haven't ended.
    depth: usize,
}

impl<'f, W: fmt::Write> TextFields<'f, W> {
    /// Returns what begins with a packet or a chunk.
    pub fn new(f: &'f mut fmt::Formatter<W>, shows_all: bool) -> TextFields<'f, W> {
        TextFields {
            out: Out::new(f),
            shows_all,
            depth: 0,
        }
    }

    /// Ends. Returns an error if the formatter failed.
    pub fn end(&self) -> fmt::Result {
        self.out.end()
    }

    /// Writes words, and after a line break before them two blanks more for each item in an item of
    /// the chunk.
    fn put_words(&mut self, words: &'static str) {
        let Some(line) = words.strip_prefix("\n") else {
            return self.out.say(words);
        };
        self.out.say("\n");
        for _ in 2..self.depth {
            self.out.say("  ");
        }
        self.out.say(line)
    }
}

impl<'f, W: fmt::Write> Fields for TextFields<'f, W> {
    fn header(&mut self, header: &CommonHeader, found: Checksum) {
        let (source, destination) = (header.source_port, header.destination_port);
        let (tag, checksum) = (header.verification_tag, header.checksum);
        write!(
            self.out,
            "source {source}, destination {destination}, tag {tag:#010x}"
        );
        writeln!(self.out, "\nchecksum {checksum:#010x}: {found}")
    }

    fn no_header(&mut self, captured: &[u8]) {
        if captured.len() < CommonHeader::VERIFICATION_TAG {
            return;
        }
        let (source, destination) = (
            read_u16_be(captured),
            read_u16_be(&captured[CommonHeader::DESTINATION_PORT..]),
        );
        write!(self.out, "source {source}, destination {destination}");
        if captured.len() >= CommonHeader::CHECKSUM {
            let tag = read_u32_be(&captured[CommonHeader::VERIFICATION_TAG..]);
            write!(self.out, ", tag {tag:#010x}");
        }
        self.out.say("\n")
    }

    fn fault(&mut self, fault: &Fault<'_>) {
        write!(self.out, "{fault}")
    }

    fn begin(&mut self, level: Level, item: &Item<'_>) {
        self.depth = self.depth.saturating_add(1);
        if level != Level::Chunk {
            let code = item.code();
            let name = ItemName { level, code };
            self.put_words("\n  ");
            return write!(self.out, "{name}");
        }
        let (name, flags) = (ChunkName(item.first), item.second);
        if name.is_known() {
            return write!(self.out, "{name}");
        }
        write!(self.out, "{name}, flags {flags:#04x}")
    }

    fn end(&mut self, level: Level) {
        self.depth = self.depth.saturating_sub(1);
        if level == Level::Chunk {
            return self.out.say("\n");
        }
    }

    /// Writes nothing of a number without words.
    #[inline(always)]
    fn number(&mut self, number: &Number) {
        if number.words.is_empty() {
            return;
        }
        self.put_words(number.words);
        let value = number.value;
        match number.form {
            Form::Decimal => write!(self.out, "{value}"),
            Form::Milliseconds => write!(self.out, "{value} ms"),
            Form::Microseconds => write!(self.out, "{value} us"),
            Form::Hexadecimal if number.size == 2 => write!(self.out, "{value:#06x}"),
            Form::Hexadecimal => write!(self.out, "{value:#010x}"),
        }
    }

    fn named(&mut self, number: &Number, name: Option<&'static str>) {
        self.number(number);
        match name {
            Some(name) => write!(self.out, " ({name})"),
            None => {}
        }
    }

    fn word(&mut self, number: &Number, name: &'static str) {
        self.out.say(number.words);
        self.out.say(name)
    }

    fn named_entry(&mut self, index: usize, number: &Number, by: NamedBy) {
        let before = if index == 0 {
            ": "
        } else if index.is_multiple_of(NAMES_A_LINE) {
            self.out.say(",");
            "\n    "
        } else {
            ", "
        };
        let named = Named {
            number: number.value,
            by,
        };
        self.put_words(before);
        write!(self.out, "{named}")
    }

    #[inline(always)]
    fn flag(&mut self, flag: &Flag) {
        let (set, clear) = flag.words;
        self.out.say(if flag.is_set { set } else { clear })
    }

    fn block(&mut self, block: &Block) {
        let (words, start, end) = (block.words, block.start, block.end);
        let (first, last) = block.tsns();
        write!(self.out, "{words}{start} to {end}: tsn {first} to {last}")
    }

    fn address(&mut self, address: IpAddr, _size: usize) {
        write!(self.out, ": {address}")
    }

    fn text(&mut self, text: &Text<'_>) {
        let (words, quoted) = (text.words, Quoted(text.bytes));
        write!(self.out, "{words}{quoted}")
    }

    fn text_value(&mut self, bytes: &[u8]) {
        let quoted = Quoted(bytes);
        write!(self.out, ": {quoted}")
    }

    fn bytes(&mut self, bytes: &Bytes<'_>) {
        let (words, part, shows_all) = (bytes.words, bytes.part, self.shows_all);
        let shown = ShownBytes { part, shows_all };
        self.put_words(words);
        write!(self.out, "{shown}")
    }

    fn payload(&mut self, payload: Part<'_>, _offset: usize, is_text: bool) {
        self.out.say("\n  payload: ");
        if self.shows_all {
            let (size, rows) = (Size(payload), Rows(payload.bytes));
            write!(self.out, "{size}{rows}");
        } else {
            let shown = ShownBytes {
                part: payload,
                shows_all: false,
            };
            write!(self.out, "{shown}");
        }
        if !is_text {
            return;
        }
        if self.shows_all {
            let text = TextLine(payload.bytes);
            return write!(self.out, "{text}");
        }
        let text = text_front(payload.bytes, MOST_OF_TEXT);
        let (quoted, is_cut) = (Quoted(text), text.len() < payload.size);
        let more = if is_cut { " .." } else { "" };
        write!(self.out, "\n  text: {quoted}{more}")
    }

    fn no_message(&mut self) {
        self.out.say("\n  not a DCEP message")
    }

    fn value(&mut self, level: Level, item: &Item<'_>) {
        let (flags, shows_all) = (item.second, self.shows_all);
        let shown = ShownBytes {
            part: item.value,
            shows_all,
        };
        if level != Level::Chunk {
            return write!(self.out, ": {shown}");
        }
        if !ChunkName(item.first).is_known() {
            return write!(self.out, ", {shown}");
        }
        // Those of COOKIE ECHO have no meaning.
        if flags != 0 && item.first != cookie_echo_chunk::CHUNK_TYPE {
            return write!(self.out, ": flags {flags:#04x}, {shown}");
        }
        write!(self.out, ": {shown}")
    }
}
