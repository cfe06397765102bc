//! A report in two forms, written by one walk: lines for a reader, or JSON (RFC 8259) for a program.

pub mod text;
pub mod time;

use crate::moment::Moment;
use crate::packet_number::{PacketNumber, PacketText, file_of};
use crate::report::text::Text;
use crate::report::time::{TimeJson, TimeStyle};
use dcsctp_report::json_text::JsonText;
use std::fmt::Display;

/// Writes each value of a report in the form that is asked for: in lines after the words before it,
/// in JSON under its key, with a comma where one is due.
#[derive(Drop)]
pub struct ReportWriter<'t, 'a> {
    out: &'t mut Text<'a>,
    /// Whether the form is JSON.
    pub is_json: bool,
    /// How times are written.
    pub style: TimeStyle,
    /// The names of the files that were read: if there are several, a packet's number has its
    /// file's name beside it.
    pub files: &'t [String],
    // what each key of JSON begins with
    prefix: &'t str,
    // whether a comma is due before the next value of JSON
    is_after_value: bool,
}

impl<'t, 'a> ReportWriter<'t, 'a> {
    /// Begins a report at the end of a text.
    pub fn new(
        out: &'t mut Text<'a>,
        is_json: bool,
        style: TimeStyle,
        files: &'t [String],
    ) -> ReportWriter<'t, 'a> {
        ReportWriter {
            out,
            is_json,
            style,
            files,
            prefix: "",
            is_after_value: false,
        }
    }

    /// Begins each key of JSON with these words from now on.
    pub fn begin_keys_with(&mut self, prefix: &'t str) {
        self.prefix = prefix;
    }

    /// Writes what `write!` is given, in lines alone.
    pub fn write_fmt<D: Display + Drop>(&mut self, value: D) {
        if !self.is_json {
            self.out.write_fmt(value);
        }
    }

    /// Writes these words, in lines alone.
    pub fn say(&mut self, words: &str) {
        if !self.is_json {
            self.out.say(words);
        }
    }

    /// Writes a value of JSON alone, under its key.
    pub fn json<D: Display + Drop>(&mut self, key: &str, value: D) {
        if self.is_json {
            self.key(key);
            write!(self.out, "{value}");
        }
    }

    /// Writes a value of JSON alone, under its key: a text without escapes.
    pub fn json_word<D: Display + Drop>(&mut self, key: &str, value: D) {
        if self.is_json {
            self.key(key);
            write!(self.out, "\"{value}\"");
        }
    }

    /// Writes a number.
    pub fn value<D: Display + Drop>(&mut self, words: &str, key: &str, value: D) {
        if self.is_json {
            self.json(key, value);
        } else {
            write!(self.out, "{words}{value}");
        }
    }

    /// Writes a text without escapes.
    pub fn word<D: Display + Drop>(&mut self, words: &str, key: &str, value: D) {
        if self.is_json {
            self.json_word(key, value);
        } else {
            write!(self.out, "{words}{value}");
        }
    }

    /// Writes what is so: in JSON `true`.
    pub fn flag(&mut self, words: &str, key: &str, is_so: bool) {
        if is_so {
            self.say(words);
            self.json(key, true);
        }
    }

    /// Writes a packet's number, and its file's name, if there are several files.
    pub fn packet(&mut self, words: &str, key: &str, packet: PacketNumber) {
        if self.is_json {
            self.json_packet(key, packet);
        } else {
            let text = PacketText {
                packet,
                files: self.files,
            };
            write!(self.out, "{words}{text}");
        }
    }

    /// Writes a packet's number, in JSON alone. If there are several files, the name of its file is
    /// under the same key with `file` in place of `packet` at its end, or after it.
    pub fn json_packet(&mut self, key: &str, packet: PacketNumber) {
        if !self.is_json {
            return;
        }
        self.json(key, packet.number);
        if let Some(name) = file_of(packet, self.files) {
            let (prefix, name) = (self.prefix, JsonText(name));
            match key.strip_suffix("packet") {
                Some(stem) => write!(self.out, ",\"{prefix}{stem}file\":{name}"),
                None => write!(self.out, ",\"{prefix}{key}_file\":{name}"),
            }
        }
    }

    /// Writes a time, if it is known.
    pub fn time(&mut self, words: &str, key: &str, nanoseconds: Option<u64>) {
        if self.is_json {
            self.json_time(key, nanoseconds);
        } else if let Some(nanoseconds) = nanoseconds {
            let time = self.style.time(nanoseconds);
            write!(self.out, "{words}{time}");
        }
    }

    /// Writes when a packet was captured, if that is known, and its number.
    pub fn moment(&mut self, words: &str, key: &str, packet_key: &str, moment: Moment) {
        self.say(words);
        self.time(" ", key, moment.nanoseconds);
        self.packet(" (", packet_key, moment.packet);
        self.say(")");
    }

    /// Writes a time, if it is known, in JSON alone.
    pub fn json_time(&mut self, key: &str, nanoseconds: Option<u64>) {
        if let Some(nanoseconds) = nanoseconds {
            self.json(key, TimeJson(self.style.time(nanoseconds)));
        }
    }

    /// Writes a span of time, in seconds.
    pub fn seconds(&mut self, words: &str, key: &str, nanoseconds: u64) {
        let seconds = self.style.seconds(nanoseconds);
        if self.is_json {
            self.json(key, seconds);
        } else {
            write!(self.out, "{words}{seconds} s");
        }
    }

    /// Begins an object of JSON or a list, `{` or `[`, under a key, or in a list without one.
    pub fn open(&mut self, key: &str, bracket: &str) {
        if self.is_json {
            self.key(key);
            self.out.say(bracket);
            self.is_after_value = false;
        }
    }

    /// Ends an object of JSON or a list, by `}` or `]`.
    pub fn close(&mut self, bracket: &str) {
        if self.is_json {
            self.out.say(bracket);
            self.is_after_value = true;
        }
    }

    /// Writes a key of JSON, if it isn't empty, and what comes before it.
    fn key(&mut self, key: &str) {
        if self.is_after_value {
            self.out.say(",");
        }
        if !key.is_empty() {
            let prefix = self.prefix;
            write!(self.out, "\"{prefix}{key}\":");
        }
        self.is_after_value = true;
    }
}
