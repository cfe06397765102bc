//! A user message, as a line and as JSON.

use crate::messages::message::{Fate, Message};
use dcsctp_report::hexadecimal::Digits;
use dcsctp_report::json_text::JsonText;
use dcsctp_report::names::ChunkName;
use dcsctp_report::payload::{ByteCount, Rows, TextLine};
use dcsctp_report::registry::payload_protocol;
use dump_packet::{ReportWriter, Side};

/// The payload protocol identifier of a WebRTC string, which is UTF-8 (RFC 8831 section 6.6).
const STRING: u32 = 51;

/// A user message as a line, without its line break, or as one JSON object.
#[derive(Clone, Copy)]
pub struct MessageReport<'a> {
    /// The message.
    pub message: &'a Message,
    /// Whether its user data is asked for.
    pub shows_payload: bool,
    /// Its user data, if that is asked for and known.
    pub payload: Option<&'a [u8]>,
}

impl<'a> MessageReport<'a> {
    /// Writes it.
    pub fn write(&self, writer: &mut ReportWriter<'_, '_>) {
        writer.open("", "{");
        self.write_message(writer);
        writer.moment(": sent", "sent", "sent_packet", self.message.sent);
        self.write_fate(writer);
        self.write_repeats(writer);
        self.write_holes(writer);
        self.write_wait(writer);
        self.write_closed(writer);
        self.write_payload(writer);
        writer.close("}")
    }

    /// Writes which message it is.
    fn write_message(&self, writer: &mut ReportWriter<'_, '_>) {
        let (message, key) = (self.message, self.message.key);
        writer.value("message of ", "message_of", message.association);
        writer.say(match message.sender {
            Side::First => " > ",
            Side::Second => " < ",
        });
        writer.json("end", message.sender.index());
        writer.value("stream ", "stream", key.stream);
        write_numbered(", ", number_name(message), key.number, writer);
        writer.json("unordered", key.is_unordered);
        if key.is_unordered {
            writer.say(", unordered");
        }
        write_protocol(message.ppid, writer);
        writer.value(", size ", "size", message.size);
        writer.json("fragments", message.fragments);
        let (first, last) = (message.first_tsn, message.last_tsn);
        writer.value(", tsn ", "first_tsn", first);
        writer.json("last_tsn", last);
        if first != last {
            write!(writer, " to {last}");
        }
    }

    /// Writes what became of it.
    fn write_fate(&self, writer: &mut ReportWriter<'_, '_>) {
        match self.message.fate {
            Fate::Acknowledged(moment) => {
                writer.moment(
                    ", acknowledged",
                    "acknowledged",
                    "acknowledged_packet",
                    moment,
                );
                if let Some(nanoseconds) = self.message.delay() {
                    writer.seconds(" after ", "delay", nanoseconds);
                }
            }
            Fate::Abandoned { chunk, moment } => {
                writer.word(", abandoned by ", "abandoned_by", ChunkName(chunk));
                writer.packet(" in ", "abandoned_packet", moment.packet)
            }
            Fate::Unacknowledged => writer.say(", not acknowledged"),
        }
    }

    /// Writes which of its fragments were sent again or late.
    fn write_repeats(&self, writer: &mut ReportWriter<'_, '_>) {
        let message = self.message;
        if let Some(again) = message.first_repeated {
            let repeated = message.repeated;
            writer.json("repeated", repeated);
            writer.value("; tsn ", "first_repeated_tsn", again.tsn);
            writer.say(" sent again");
            if let Some(nanoseconds) = again.after {
                writer.seconds(" after ", "repeated_after", nanoseconds);
            }
            if repeated > 1 {
                write!(writer, ", {repeated} repeats in all");
            }
        }
        if let Some(tsn) = message.changed {
            writer.value("; tsn ", "changed_tsn", tsn);
            writer.say(" sent again with other bytes");
        }
        if let Some(late) = message.late {
            let behind = late.behind;
            writer.value("; tsn ", "late_tsn", late.tsn);
            writer.say(" first seen");
            writer.json("late_after_tsn", behind);
            if let Some(nanoseconds) = late.after {
                writer.seconds(" ", "late_after", nanoseconds);
            }
            write!(writer, " after tsn {behind}");
        }
    }

    /// Writes what of it wasn't seen, or contradicts the rest.
    fn write_holes(&self, writer: &mut ReportWriter<'_, '_>) {
        let message = self.message;
        if let Some(first) = message.first_missing {
            let missing = message.missing;
            writer.json("missing", missing);
            let name = if message.key.is_i_data { "fsn" } else { "tsn" };
            writer.begin_keys_with("first_missing_");
            write_numbered("; ", name, first, writer);
            writer.begin_keys_with("");
            if missing > 1 {
                let more = missing - 1;
                write!(writer, " and {more} more");
            }
            writer.say(" never seen in this capture");
        }
        writer.flag(
            "; fragments contradict one another",
            "contradictory",
            message.is_odd,
        );
        writer.flag(
            "; beginning not seen",
            "no_beginning",
            !message.has_beginning,
        );
        writer.flag("; end not seen", "no_end", !message.has_end)
    }

    /// Writes for what it waited in its stream.
    fn write_wait(&self, writer: &mut ReportWriter<'_, '_>) {
        let Some(wait) = self.message.waited_for else {
            return;
        };
        let tsn = wait.tsn;
        writer.json("waited_for_tsn", tsn);
        match wait.unseen {
            Some(number) => {
                let name = number_name(self.message);
                writer.begin_keys_with("waited_for_");
                write_numbered("; waited for ", name, number, writer);
                writer.begin_keys_with("");
                write!(writer, ", tsn {tsn} not seen yet")
            }
            None => write!(writer, "; waited for tsn {tsn} of its stream"),
        }
    }

    /// Writes when its receiver had no room.
    fn write_closed(&self, writer: &mut ReportWriter<'_, '_>) {
        let Some(closed) = self.message.closed else {
            return;
        };
        let (first, last) = (closed.first, closed.last);
        writer.say("; peer's window was 0 ");
        writer.say(if first == last { "in " } else { "from " });
        writer.packet("", "closed_first", first);
        if writer.is_json || first.file != last.file {
            writer.packet(" to ", "closed_last", last)
        } else if first != last {
            let number = last.number;
            write!(writer, " to {number}")
        }
    }

    /// Writes its user data, if it is asked for: not as JSON, on lines of its own.
    fn write_payload(&self, writer: &mut ReportWriter<'_, '_>) {
        let Some(bytes) = self.payload else {
            if self.shows_payload {
                writer.say("\n  payload: not known");
            }
            return;
        };
        let (size, rows) = (ByteCount(bytes.len()), Rows(bytes));
        write!(writer, "\n  payload: {size}{rows}");
        writer.json_word("payload", Digits(bytes));
        if self.message.ppid != Some(STRING) {
            return;
        }
        let text = TextLine(bytes);
        write!(writer, "{text}");
        if let Ok(text) = str::from_utf8(bytes) {
            writer.json("text", JsonText(text));
        }
    }
}

/// Writes a payload protocol identifier, if it is known, and the protocol's name, if it has one.
pub fn write_protocol(ppid: Option<u32>, writer: &mut ReportWriter<'_, '_>) {
    let Some(ppid) = ppid else {
        return;
    };
    writer.value(", ppid ", "ppid", ppid);
    if let Some(name) = payload_protocol(ppid) {
        writer.word(" (", "ppid_name", name);
        writer.say(")");
    }
}

/// Writes a number behind its name, which in JSON is its key, or the end of it.
fn write_numbered(words: &str, name: &str, number: u32, writer: &mut ReportWriter<'_, '_>) {
    write!(writer, "{words}{name} ");
    writer.value("", name, number);
}

/// Returns the name of a message's number.
fn number_name(message: &Message) -> &'static str {
    if message.key.is_i_data { "mid" } else { "ssn" }
}
