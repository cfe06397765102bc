//! Where and when packets were seen, as text.

use crate::text::clock::When;
use crate::text::summary::report_in;
use crate::text::tunnel_text::write_tunnels;
use dcsctp_report::json_text::JsonText;
use dcsctp_report::printed::OneWord;
use dcsctp_wire::packet::read_u16_be;
use dcsctp_wire::packet::sctp_packet::COMMON_HEADER_SIZE;
use dump_capture::event::Part;
use dump_capture::frame::{Addresses, FoundPacket};
use dump_capture::line::Direction;
use dump_packet::{ReportWriter, Text};
use std::net::{IpAddr, Ipv4Addr, Ipv6Addr};

/// A frame in which a packet was found.
#[derive(Clone, Copy)]
pub struct SeenFrame<'a> {
    /// The port of SCTP in UDP.
    pub udp_port: u16,
    /// The type of its link.
    pub link_type: u16,
    /// How many bytes it had on the link.
    pub original_length: u32,
    /// Those that were captured.
    pub bytes: &'a [u8],
}

/// A packet's number and time, how much of it was captured, the IP addresses, the UDP ports and the
/// tunnels.
#[derive(Clone, Copy)]
pub struct SeenLines<'t, 'f, 'a> {
    /// The packet's number.
    pub number: u64,
    /// What it was in: a record, a line, or fragments.
    pub part: Part,
    /// The name of its file, if there are several.
    pub file: Option<&'t str>,
    /// When it was seen.
    pub when: When<'t>,
    /// The packet in its frame.
    pub found: &'f FoundPacket<'a>,
    /// The frame.
    pub frame: SeenFrame<'a>,
}

impl<'t, 'f, 'a> SeenLines<'t, 'f, 'a> {
    /// Writes it: the first lines of its block, or keys of a JSON object, of which the packet's
    /// number is the first.
    pub fn write(&self, is_json: bool, out: &mut Text<'_>) {
        let mut report = report_in(out, is_json);
        self.write_arrival(&mut report);
        self.write_way(&mut report)
    }

    /// Writes the line of its number and time.
    fn write_arrival(&self, out: &mut ReportWriter<'_, '_>) {
        out.value("packet ", "packet", self.number);
        if let Some(file) = self.file {
            out.json("file", JsonText(file));
        }
        self.when.write(out);
        if let Some(direction) = self.when.direction() {
            out.word(", ", "direction", direction_word(direction));
        }
        let transport = self.when.transport();
        if !transport.is_empty() {
            let word = OneWord(transport);
            write!(out, ", {word}");
            if let Ok(text) = str::from_utf8(transport) {
                out.json("transport", JsonText(text));
            }
        }
        let (captured, length) = (self.found.packet.len(), self.found.length);
        if captured < length {
            write!(out, ", {captured} of {length} bytes");
        }
        if let Part::Fragments(count) = self.part {
            write!(out, ", of {count} IP fragments");
        }
        out.say("\n")
    }

    /// Writes on which way it went.
    fn write_way(&self, out: &mut ReportWriter<'_, '_>) {
        if let Some(addresses) = self.found.addresses {
            let (source, destination) = hosts_of(addresses);
            out.word("from ", "from", source);
            out.word(" to ", "to", destination);
            out.say("\n");
        }
        if let Some(ports) = self.found.udp_ports {
            out.value("udp source ", "udp_source", ports.source);
            out.value(", destination ", "udp_destination", ports.destination);
            out.say("\n");
        }
        if let Part::Fragments(count) = self.part {
            out.json("fragments", count);
        }
        write_tunnels(self.frame, out)
    }

    /// Writes what is at the front of a line, in a fixed order: number, time, and both ends with
    /// their SCTP ports; `-` for what isn't known.
    pub fn write_brief(&self, out: &mut Text<'_>) {
        let (number, when) = (self.number, self.when);
        write!(out, "{number} ");
        if when.is_known() {
            write!(out, "{when}");
        } else {
            out.say("-");
        }
        let (source, destination) = ends_of(self.found.addresses, when.direction());
        let (from, to) = ports_of(self.found);
        let transport = OneWord(when.transport());
        out.say(" ");
        write_end(source, transport, from, out);
        out.say(" > ");
        write_end(destination, transport, to, out)
    }
}

/// Returns both ports of a packet, unless it is too short for a header, or was cut off before them.
fn ports_of(found: &FoundPacket<'_>) -> (Option<u16>, Option<u16>) {
    let bytes = found.packet;
    let is_short = bytes.len() < COMMON_HEADER_SIZE && bytes.len() == found.length;
    if bytes.len() < 4 || is_short {
        return (None, None);
    }
    (Some(read_u16_be(bytes)), Some(read_u16_be(&bytes[2..])))
}

/// Writes an end with its port (RFC 3986 section 3.2.2: an IPv6 address in brackets), and of the
/// end that wrote a log the name of its transport.
fn write_end(end: End, transport: OneWord<'_>, port: Option<u16>, out: &mut Text<'_>) {
    match end {
        End::Address(IpAddr::V6(address)) => write!(out, "[{address}]"),
        End::Address(address) => write!(out, "{address}"),
        End::Local if !transport.0.is_empty() => write!(out, "local({transport})"),
        End::Local => out.say("local"),
        End::Remote => out.say("remote"),
        End::Unknown => out.say("-"),
    }
    match port {
        Some(port) => write!(out, ":{port}"),
        None => out.say(":-"),
    }
}

/// Returns which way a packet went, in a word.
fn direction_word(direction: Direction) -> &'static str {
    match direction {
        Direction::Incoming => "incoming",
        Direction::Outgoing => "outgoing",
    }
}

/// One end of a packet's way.
#[derive(Clone, Copy)]
enum End {
    Address(IpAddr),
    // Of a log: the end that wrote it, or the other one.
    Local,
    Remote,
    Unknown,
}

/// Returns both addresses.
pub fn hosts_of(addresses: Addresses) -> (IpAddr, IpAddr) {
    match addresses {
        Addresses::V4 {
            source,
            destination,
        } => (
            IpAddr::V4(Ipv4Addr::from(source)),
            IpAddr::V4(Ipv4Addr::from(destination)),
        ),
        Addresses::V6 {
            source,
            destination,
        } => (
            IpAddr::V6(Ipv6Addr::from(source)),
            IpAddr::V6(Ipv6Addr::from(destination)),
        ),
    }
}

/// Returns both ends.
fn ends_of(addresses: Option<Addresses>, direction: Option<Direction>) -> (End, End) {
    match (addresses, direction) {
        (Some(addresses), _) => {
            let (source, destination) = hosts_of(addresses);
            (End::Address(source), End::Address(destination))
        }
        (None, Some(Direction::Incoming)) => (End::Remote, End::Local),
        (None, Some(Direction::Outgoing)) => (End::Local, End::Remote),
        (None, None) => (End::Unknown, End::Unknown),
    }
}
