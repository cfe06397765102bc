//! A channel, as a line and as JSON.

use crate::channels::channel::{Channel, Reset, Tally, Traffic};
use crate::channels::data_channel::{Opened, PeerText};
use crate::messages::report::write_protocol;
use dcsctp_report::hexadecimal::Digits;
use dcsctp_report::json_text::JsonText;
use dcsctp_report::printed::Quoted;
use dcsctp_report::registry::{channel_type_name, result_name};
use dump_packet::{Delays, ReportWriter, Side};
use std::str;

/// A channel as a line, without its line break, or as one JSON object.
#[derive(Clone, Copy)]
pub struct ChannelReport<'a> {
    /// The association's number.
    pub association: u64,
    /// The channel; `None` of those that found no room.
    pub channel: Option<&'a Channel>,
    /// Its messages.
    pub tally: &'a Tally,
}

impl<'a> ChannelReport<'a> {
    /// Writes it.
    pub fn write(&self, writer: &mut ReportWriter<'_, '_>) {
        writer.open("", "{");
        match self.channel {
            Some(channel) => {
                writer.value("channel of ", "channel_of", self.association);
                write_channel(channel, writer)
            }
            None => {
                writer.value("other channels of ", "channel_of", self.association);
                writer.json("others", true)
            }
        }
        writer.open("ends", "[");
        write_traffic("; >", &self.tally.first, writer);
        write_traffic("; <", &self.tally.second, writer);
        writer.close("]");
        writer.close("}")
    }
}

/// Writes which channel it is, how it was opened, or its payload protocol, and how it was closed.
fn write_channel(channel: &Channel, writer: &mut ReportWriter<'_, '_>) {
    writer.value(": stream ", "stream", channel.stream);
    match &channel.opened {
        Some(opened) => write_opened(opened, writer),
        None => write_protocol(channel.ppid, writer),
    }
    if channel.first_reset.is_none() && channel.second_reset.is_none() {
        return;
    }
    writer.open("resets", "[");
    write_reset(Side::First, &channel.first_reset, writer);
    write_reset(Side::Second, &channel.second_reset, writer);
    writer.close("]")
}

/// Writes how it was opened.
fn write_opened(opened: &Opened, writer: &mut ReportWriter<'_, '_>) {
    let label_keys = ("label", "label_bytes", "label_cut");
    write_text(", label ", label_keys, &opened.label, writer);
    let protocol_keys = ("protocol", "protocol_bytes", "protocol_cut");
    write_text(", protocol ", protocol_keys, &opened.protocol, writer);
    let (typ, reliability) = (opened.typ, opened.reliability);
    writer.json("channel_type", typ);
    match channel_type_name(u32::from(typ)) {
        Some(name) => writer.word(", ", "channel_type_name", name),
        None => write!(writer, ", channel type {typ}"),
    }
    writer.json("reliability", reliability);
    match typ {
        // Of a reliable channel it means nothing.
        0x00 | 0x80 => {}
        0x02 | 0x82 => write!(writer, ", reliability {reliability} ms"),
        _ => write!(writer, ", reliability {reliability}"),
    }
    writer.value(", priority ", "priority", opened.priority);
    let by = end_name(opened.by);
    write!(writer, ", opened by the {by}");
    writer.json("opened_by", opened.by.index());
    writer.moment("", "opened", "opened_packet", opened.sent);
    writer.flag(
        ", and by the other one",
        "opened_by_both",
        opened.crossed.is_some(),
    );
    match opened.acknowledged {
        Some(moment) => writer.moment(
            ", acknowledged",
            "acknowledged",
            "acknowledged_packet",
            moment,
        ),
        None => writer.say(", not acknowledged"),
    }
}

/// Writes a text of the peer, in JSON its bytes if it isn't UTF-8, and whether it is longer.
fn write_text(
    words: &'static str,
    (key, bytes_key, cut_key): (&'static str, &'static str, &'static str),
    text: &PeerText,
    writer: &mut ReportWriter<'_, '_>,
) {
    let quoted = Quoted(text.as_bytes());
    write!(writer, "{words}{quoted}");
    match str::from_utf8(text.as_bytes()) {
        Ok(text) => writer.json(key, JsonText(text)),
        Err(_) => writer.json_word(bytes_key, Digits(text.as_bytes())),
    }
    writer.flag(" ..", cut_key, text.is_cut)
}

/// Writes the last request of an end to reset the stream, if there is one, and its result.
fn write_reset(side: Side, reset: &Option<Reset>, writer: &mut ReportWriter<'_, '_>) {
    let Some(reset) = reset else {
        return;
    };
    writer.open("", "{");
    let end = end_name(side);
    write!(writer, ", reset by the {end}");
    writer.json("end", side.index());
    writer.packet(" in ", "packet", reset.packet);
    match reset.result {
        Some((code, packet)) => {
            writer.json("result", code);
            match result_name(code) {
                Some(name) => writer.word(" (", "result_name", name),
                None => write!(writer, " (result {code}"),
            }
            writer.packet(" in ", "response_packet", packet);
            writer.say(")")
        }
        None => writer.say(" (no response)"),
    }
    writer.close("}")
}

/// Writes what is counted of the messages of an end.
fn write_traffic(words: &'static str, traffic: &Traffic, writer: &mut ReportWriter<'_, '_>) {
    writer.open("", "{");
    writer.say(words);
    writer.value(" messages ", "messages", traffic.messages);
    writer.value(", bytes ", "bytes", traffic.bytes);
    writer.value(", repeated ", "repeated", traffic.repeated);
    writer.value(", abandoned ", "abandoned", traffic.abandoned);
    writer.value(
        ", not acknowledged ",
        "unacknowledged",
        traffic.unacknowledged,
    );
    if let Some(span) = traffic.span {
        writer.moment(", first", "first", "first_packet", span.first);
        writer.moment(", last", "last", "last_packet", span.last);
    }
    if let Some(rate) = traffic.bytes_per_second() {
        writer.value(", ", "bytes_per_second", rate);
        writer.say(" bytes/s");
    }
    if traffic.messages > 0 {
        writer.value(", in flight ", "most_in_flight", traffic.most_in_flight);
        writer.say(" at most");
    }
    if traffic.delays.count > 0 {
        write_delays(&traffic.delays, writer);
    }
    writer.close("}")
}

/// Writes the delays of an end's messages.
fn write_delays(delays: &Delays, writer: &mut ReportWriter<'_, '_>) {
    writer.open("delay", "{");
    writer.json("count", delays.count);
    delays.write(", delay least ", writer);
    writer.say(")");
    match delays.greatest_packet {
        Some(packet) if writer.is_json => writer.packet("", "greatest_packet", packet),
        _ => {}
    }
    writer.close("}")
}

/// Returns the name of an end.
fn end_name(side: Side) -> &'static str {
    match side {
        Side::First => "first end",
        Side::Second => "second end",
    }
}
