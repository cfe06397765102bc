//! An association, as lines or as JSON.

use crate::associations::announced::{Announced, Answer, Statement};
use crate::associations::association::{Association, Began, Ended};
use crate::associations::counts::Counts;
use crate::associations::end::End;
use crate::associations::icmp_errors::IcmpErrors;
use crate::associations::transport::Transport;
use crate::paths::Paths;
use crate::paths::path::Path;
use dcsctp_report::json_text::JsonText;
use dcsctp_report::names::{CauseName, ChunkName};
use dcsctp_report::registry::cause_name;
use dump_packet::{Delays, Moment, PacketNumber, ReportWriter, Unanswered};

/// An association: its ends, how it began and ended, and what each end sent.
#[derive(Clone, Copy)]
pub struct AssociationReport<'a> {
    /// The association.
    pub association: &'a Association,
    /// Its paths, if they are asked for.
    pub paths: Option<&'a Paths>,
}

impl<'a> AssociationReport<'a> {
    /// Writes it: as lines that end with a line break, or as one JSON object (RFC 8259) without
    /// blanks. In lines what each end sent comes last; in JSON all of an end is one object.
    pub fn write(&self, writer: &mut ReportWriter<'_, '_>) {
        let association = self.association;
        let ends = [
            ("first end", &association.first),
            ("second end", &association.second),
        ];
        writer.open("", "{");
        write_head(association, writer);
        writer.open("ends", "[");
        for (name, end) in ends {
            writer.open("", "{");
            write!(writer, "{name}: ");
            write_addresses(end, writer);
            write_chunk_list(end, writer);
            write_announced(end, writer);
            if writer.is_json {
                write_sent(end, writer);
            }
            writer.close("}");
        }
        writer.close("]");
        write_course(association, writer);
        if !writer.is_json {
            for (name, end) in ends {
                writer.say(name);
                write_sent(end, writer);
            }
        }
        if let Some(paths) = self.paths {
            write_paths(paths, writer);
        }
        writer.close("}")
    }
}

/// Writes the number, and what is special.
fn write_head(association: &Association, writer: &mut ReportWriter<'_, '_>) {
    writer.value("association ", "association", association.number);
    writer.say("\n");
    if let Some(other) = association.restart_of {
        writer.value("restart of association ", "restart_of", other);
        writer.say("\n");
    }
    writer.flag("left the table\n", "left_table", association.has_left);
    match &association.transport {
        Transport::Unnamed => {}
        Transport::Named(name) => {
            let name = name.as_str();
            writeln!(writer, "transport: {name}");
            writer.json("transport", JsonText(name))
        }
        Transport::Other => {
            writer.say("transport: of another name\n");
            writer.json("transport", "null")
        }
    }
}

/// Writes the addresses, the port and the tag of an end.
fn write_addresses(end: &End, writer: &mut ReportWriter<'_, '_>) {
    writer.open("addresses", "[");
    for address in &end.addresses {
        if let Some(address) = address {
            writer.word("", "", *address);
            writer.say(", ");
        }
    }
    writer.close("]");
    writer.flag("others, ", "more_addresses", end.has_more_addresses);
    writer.value("port ", "port", end.port);
    match end.tag {
        Some(tag) => {
            writeln!(writer, ", tag {tag:#010x}");
            writer.json("tag", tag)
        }
        None => writer.say(", tag not seen\n"),
    }
}

/// Writes the chunk types that an end listed (RFC 4895 section 3.2), if it listed some.
fn write_chunk_list(end: &End, writer: &mut ReportWriter<'_, '_>) {
    let list = match &end.vectors.last {
        Some(vector) => vector.chunk_list(),
        None => &[],
    };
    if list.is_empty() {
        return;
    }
    writer.open("chunk_list", "[");
    let mut separator = "  Chunk List: ";
    for typ in list {
        let name = ChunkName(*typ);
        write!(writer, "{separator}{name}");
        separator = ", ";
        writer.open("", "{");
        writer.json("type", *typ);
        if name.is_known() {
            writer.json_word("name", name);
        }
        writer.close("}");
    }
    writer.close("]");
    writer.say("\n")
}

/// Writes the addresses of which an end said something, if there are some, and how many statements
/// found no room.
fn write_announced(end: &End, writer: &mut ReportWriter<'_, '_>) {
    let Some(said) = end.announced.said() else {
        return;
    };
    // The list is filled from its front.
    if said.list[0].is_some() {
        writer.open("announced", "[");
        for announced in &said.list {
            if let Some(announced) = announced {
                write_address(announced, end.is_unused(announced), writer);
            }
        }
        writer.close("]");
    }
    let more = said.more;
    if more > 0 {
        writeln!(writer, "  announced {more} more");
        writer.json("more_announced", more);
    }
}

/// Writes an address, and what its end said of it.
fn write_address(announced: &Announced, is_unused: bool, writer: &mut ReportWriter<'_, '_>) {
    writer.open("", "{");
    writer.say(match announced.added {
        Some(_) => "  announced ",
        None => "  not announced ",
    });
    writer.word("", "address", announced.address);
    if let Some(added) = announced.added {
        writer.word(" (", "chunk", ChunkName(added.chunk));
        write_statement(", ", added, writer);
    }
    if let Some(primary) = announced.primary {
        writer.begin_keys_with("primary_");
        write_statement(", primary (", primary, writer);
    }
    if let Some(deleted) = announced.deleted {
        writer.begin_keys_with("deleted_");
        write_statement(", deleted (", deleted, writer);
    }
    writer.begin_keys_with("");
    writer.flag(", never used", "never_used", is_unused);
    writer.say("\n");
    writer.close("}")
}

/// Writes the packet of a statement, in lines only of a request, how that was answered, and the end
/// of the brackets.
fn write_statement(words: &str, statement: Statement, writer: &mut ReportWriter<'_, '_>) {
    match statement.request {
        Some(_) => writer.packet(words, "packet", statement.packet),
        None => writer.json_packet("packet", statement.packet),
    }
    match statement.answer {
        Some(Answer::Accepted(packet)) => {
            writer.packet(", accepted in ", "accepted_packet", packet)
        }
        Some(Answer::Refused) => writer.flag(", refused", "refused", true),
        Some(Answer::Unclear) => {}
        None => writer.flag(", never answered", "unanswered", statement.is_unanswered()),
    }
    writer.say(")")
}

/// Writes how it began, was established and ended, and for how long it was seen.
fn write_course(association: &Association, writer: &mut ReportWriter<'_, '_>) {
    write_began(association.began, writer);
    writer.flag(", midway", "midway", association.is_midway());
    writer.say("\n");
    write_established(association, writer);
    match association.ended {
        Some(ended) => write_ended(ended, writer),
        None => writer.say("ends: not seen\n"),
    }
    if let Some(nanoseconds) = association.duration() {
        writer.seconds("duration: ", "duration", nanoseconds);
        writer.say("\n");
    }
    let strays = association.out_of_the_blue;
    if strays > 0 {
        writer.value("out of the blue: packets ", "out_of_the_blue", strays);
        writer.say("\n");
    }
}

/// Writes the first packet.
fn write_began(began: Began, writer: &mut ReportWriter<'_, '_>) {
    writer.open("began", "{");
    write_place("begins: ", began.packet, began.nanoseconds, writer);
    if let Some(typ) = began.chunk {
        writer.word(", ", "chunk", ChunkName(typ));
    }
    writer.close("}")
}

/// Writes when it was established, if that was seen, and in lines how many INITs there were.
fn write_established(association: &Association, writer: &mut ReportWriter<'_, '_>) {
    match association.established {
        Some(established) => {
            writer.open("established", "{");
            writer.packet("established: ", "packet", established.packet);
            writer.json_time("time", established.nanoseconds);
            writer.json_word("chunk", ChunkName(established.chunk));
            if let Some(nanoseconds) = association.setup() {
                writer.seconds(" after ", "after", nanoseconds);
            }
            writer.close("}");
        }
        None => writer.say("never established"),
    }
    let inits = association.inits();
    writeln!(writer, ", INIT {inits}")
}

/// Writes what ended it.
fn write_ended(ended: Ended, writer: &mut ReportWriter<'_, '_>) {
    writer.open("ended", "{");
    write_place("ends: ", ended.packet, ended.nanoseconds, writer);
    writer.word(", ", "chunk", ChunkName(ended.chunk));
    let by = ended.by.name();
    write!(writer, " by the {by} end");
    writer.json("by", ended.by.index());
    if let Some(code) = ended.cause {
        let name = CauseName(code);
        write!(writer, ", {name}");
        writer.json("cause", code);
        if let Some(name) = cause_name(code) {
            writer.json_word("cause_name", name);
        }
    }
    writer.say("\n");
    writer.close("}")
}

/// Writes what an end sent.
fn write_sent(end: &End, writer: &mut ReportWriter<'_, '_>) {
    write_packets(&end.counts, writer);
    write_data(&end.counts, writer);
    write_tsns(end, writer);
    write_skipped(end, writer);
    write_sacks(end, writer);
    write_heartbeats(end.counts.heartbeats, None, &end.heartbeats, writer);
    write_icmp_errors(&end.icmp_errors, writer);
    write_requests(end, writer);
    write_stale_cookies(&end.counts, writer);
    if end.authentication.are_some() {
        writer.say("  ");
        end.authentication.write(writer);
        writer.say("\n");
    }
    write_round_trips(&end.round_trips.delays, writer)
}

/// Writes what is counted of packets.
fn write_packets(counts: &Counts, writer: &mut ReportWriter<'_, '_>) {
    writer.value(" sent packets ", "packets", counts.packets);
    writer.value(": refused ", "refused", counts.refused);
    writer.value(", checksums: zero ", "zero_checksums", counts.zero);
    writer.value(", wrong ", "wrong_checksums", counts.wrong);
    writer.json("inits", counts.inits);
    writer.say("\n")
}

/// Writes what is counted of DATA.
fn write_data(counts: &Counts, writer: &mut ReportWriter<'_, '_>) {
    writer.value("  DATA ", "data", counts.data_chunks);
    writer.json("i_data", counts.i_data_chunks);
    writer.value(", bytes ", "bytes", counts.data_bytes)
}

/// Writes the TSNs of an end's DATA.
fn write_tsns(end: &End, writer: &mut ReportWriter<'_, '_>) {
    let (tsns, span) = (&end.tsns, end.tsns.span());
    if let Some((first, last)) = span {
        writer.value(", tsn ", "first_tsn", first);
        writer.value(" to ", "last_tsn", last);
    }
    if let Some(acknowledged) = end.acknowledged {
        writer.value(", acknowledged to ", "acknowledged", acknowledged.tsn);
        writer.packet(" (", "acknowledged_packet", acknowledged.packet);
        writer.say(")");
    }
    if span.is_some() {
        writer.value(", repeated ", "repeated", tsns.repeated);
        if let Some(packet) = tsns.first_repeated {
            let tsn = tsns.first_repeated_tsn;
            write!(writer, " (first tsn {tsn}");
            writer.packet(", ", "first_repeated", packet);
            writer.json("first_repeated_tsn", tsn);
            writer.say(")");
        }
        writer.value(", never seen ", "missing", tsns.missing);
    }
    writer.say("\n")
}

/// Writes what an end skipped; in JSON also that it skipped nothing.
fn write_skipped(end: &End, writer: &mut ReportWriter<'_, '_>) {
    let sent = end.counts.forward_tsns;
    let Some(skipped) = end.skipped else {
        return writer.json("forward_tsns", sent);
    };
    writer.value("  FORWARD-TSN ", "forward_tsns", sent);
    writer.value(": skipped TSNs ", "skipped", skipped.count);
    writer.value(", to ", "skipped_to", skipped.tsn);
    writer.packet(" (", "skipped_packet", skipped.packet);
    writer.value("), abandoned messages ", "abandoned", end.counts.abandoned);
    writer.say("\n")
}

/// Writes the SACKs of an end: in lines the least window only where none was closed.
fn write_sacks(end: &End, writer: &mut ReportWriter<'_, '_>) {
    let counts = &end.counts;
    writer.value("  SACK ", "sacks", counts.sacks);
    writer.value(", with gaps ", "sacks_with_gaps", counts.sacks_with_gaps);
    if let Some(window) = counts.least_window
        && (writer.is_json || end.closed.is_none())
    {
        writer.value(", least a_rwnd ", "least_a_rwnd", window.a_rwnd);
        writer.packet(" (", "least_a_rwnd_packet", window.packet);
        writer.say(")");
    }
    if let Some(closed) = end.closed {
        writer.packet(", a_rwnd 0 from ", "closed_first", closed.first);
        if closed.first.file == closed.last.file {
            let number = closed.last.number;
            write!(writer, " to {number}");
            writer.json_packet("closed_last", closed.last);
        } else {
            writer.packet(" to ", "closed_last", closed.last);
        }
        if let Some(opened) = end.opened {
            writer.packet(", open in ", "opened_packet", opened);
        }
    }
    writer.say("\n")
}

/// Writes how many HEARTBEATs were sent, and those that weren't answered: the first one, if it is
/// asked for, and the last one.
fn write_heartbeats(
    sent: u64,
    first: Option<PacketNumber>,
    unanswered: &Unanswered,
    writer: &mut ReportWriter<'_, '_>,
) {
    let (count, mut words) = (unanswered.count, " (last ");
    writer.value("  HEARTBEAT ", "heartbeats", sent);
    writer.value(", without answer ", "heartbeats_unanswered", count);
    if let Some(first) = first {
        writer.packet(" (first ", "first_unanswered", first);
        words = ", last ";
    }
    write_last(words, "last_unanswered", unanswered, writer)
}

/// Writes the last one that wasn't answered, if there is one, and the end of the line.
fn write_last(words: &str, key: &str, unanswered: &Unanswered, writer: &mut ReportWriter<'_, '_>) {
    if let Some(last) = unanswered.last() {
        writer.packet(words, key, last);
        writer.say(")");
    }
    writer.say("\n")
}

/// Writes the ICMP errors that quote what an end sent, if there are some.
fn write_icmp_errors(errors: &IcmpErrors, writer: &mut ReportWriter<'_, '_>) {
    let Some(last) = errors.last else {
        return;
    };
    writer.value("  ICMP errors ", "icmp_errors", errors.count);
    writer.value(": last type ", "last_icmp_type", last.kind);
    writer.value(", code ", "last_icmp_code", last.code);
    writer.packet(" in ", "last_icmp_packet", last.packet);
    if let Some(least) = errors.least_mtu {
        writer.value("; least mtu ", "least_mtu", least.mtu);
        writer.packet(" (", "least_mtu_packet", least.packet);
        writer.say(")");
    }
    writer.say("\n")
}

/// Writes the requests of an end to reconfigure streams; in JSON also that there are none.
fn write_requests(end: &End, writer: &mut ReportWriter<'_, '_>) {
    let (sent, unanswered) = (end.requests.count, &end.requests.unanswered);
    if sent > 0 || writer.is_json {
        let count = unanswered.count;
        writer.value("  RE-CONFIG requests ", "requests", sent);
        writer.value(", without response ", "requests_unanswered", count);
        write_last(" (last ", "last_request_unanswered", unanswered, writer);
    }
}

/// Writes what is counted of Stale Cookie causes, if there are some.
fn write_stale_cookies(counts: &Counts, writer: &mut ReportWriter<'_, '_>) {
    let (count, greatest) = (counts.stale_cookies.count, counts.stale_cookies.greatest);
    if count > 0 {
        writer.value("  Stale Cookie ", "stale_cookies", count);
        writer.value(", greatest staleness ", "greatest_staleness", greatest);
        writer.say(" us\n");
    }
}

/// Writes the round trips of DATA, if there are some.
fn write_round_trips(trips: &Delays, writer: &mut ReportWriter<'_, '_>) {
    if trips.count == 0 {
        return;
    }
    writer.open("round_trip", "{");
    writer.value("  round trips ", "count", trips.count);
    trips.write(": least ", writer);
    if let Some(packet) = trips.greatest_packet {
        writer.packet(", ", "greatest_packet", packet);
    }
    writer.say(")\n");
    writer.close("}")
}

/// Writes the paths, and how many packets went on those that found no room.
fn write_paths(paths: &Paths, writer: &mut ReportWriter<'_, '_>) {
    writer.open("paths", "[");
    for path in &paths.list {
        write_path(path, writer);
    }
    writer.close("]");
    let others = paths.others;
    if others > 0 {
        writer.value("on other paths packets ", "packets_on_other_paths", others);
        writer.say("\n");
    }
}

/// Writes what an end sent on a path: its packets in lines before the first and the last of them,
/// in JSON after these.
fn write_path(path: &Path, writer: &mut ReportWriter<'_, '_>) {
    writer.open("", "{");
    writer.json("end", path.way.sender.index());
    writer.say("path");
    if let (Some(from), Some(to)) = (path.way.from, path.way.to) {
        writer.word(" from ", "from", from);
        writer.word(" to ", "to", to);
    }
    let sender = path.way.sender.name();
    write!(writer, ": {sender} end");
    if !writer.is_json {
        write_packets(&path.counts, writer);
    }
    write_moment("  first ", "first", path.first, writer);
    write_moment("; last ", "last", path.last, writer);
    writer.say("\n");
    if writer.is_json {
        write_packets(&path.counts, writer);
    }
    write_data(&path.counts, writer);
    writer.value(", repeated ", "repeated", path.repeated);
    writer.say("\n");
    let first = path.heartbeats.first();
    write_heartbeats(path.counts.heartbeats, first, &path.heartbeats, writer);
    write_round_trips(&path.round_trips.delays, writer);
    writer.close("}")
}

/// Writes a moment, in JSON as an object.
fn write_moment(words: &str, key: &str, moment: Moment, writer: &mut ReportWriter<'_, '_>) {
    writer.open(key, "{");
    write_place(words, moment.packet, moment.nanoseconds, writer);
    writer.close("}")
}

/// Writes the number and the time of a packet.
fn write_place(
    words: &str,
    packet: PacketNumber,
    nanoseconds: Option<u64>,
    writer: &mut ReportWriter<'_, '_>,
) {
    writer.packet(words, "packet", packet);
    writer.time(", time ", "time", nanoseconds)
}
