//! Captured traffic: the headers of files, frames of a link, and lines of text.

use crate::answer::{Answer, Digits, from, short_at, word_at};
use crate::checksums;
use dump_capture::frame::{UDP_PORT, is_known_link, packet_in};
use dump_capture::hex_bytes::HexBytes;
use dump_capture::icmp::icmp_error_in;
use dump_capture::ip_fragment::fragment_in;
use dump_capture::line::{Line, place_of, read_line};
use dump_capture::pcap::{ByteOrder, input_kind, read_file_header, read_record_header};
use dump_capture::stamp::read_stamp;
use dump_capture::tunnels::tunnels_in;

/// Writes the header of a file: 24 bytes.
fn write_file_header(bytes: &[u8], out: &mut Answer) {
    if bytes.len() < 24 {
        return out.say("no header");
    }
    write!(out, "{:?}", read_file_header(bytes))
}

/// Writes the header of a record, 16 bytes, in both orders.
fn write_record_header(bytes: &[u8], out: &mut Answer) {
    if bytes.len() < 16 {
        return out.say("no header");
    }
    let big = read_record_header(ByteOrder::BigEndian, bytes);
    let little = read_record_header(ByteOrder::LittleEndian, bytes);
    write!(out, "{big:?}; {little:?}")
}

/// Writes what is found in a frame, in UDP if it is on this port. The bytes are a link's type, of
/// two bytes, how long the frame was, and the frame.
fn write_found(udp_port: u16, bytes: &[u8], out: &mut Answer) {
    let (link, length) = (short_at(bytes, 0), word_at(bytes, 2));
    match packet_in(udp_port, link, length, from(bytes, 6)) {
        Ok(packet) => write!(out, "{packet:?}"),
        Err(none) => write!(out, "{none:?}"),
    }
}

/// Writes the tunnels of a frame, of the same bytes.
fn write_tunnels(bytes: &[u8], out: &mut Answer) {
    let (link, length) = (short_at(bytes, 0), word_at(bytes, 2));
    let mut is_first = true;
    for tunnel in tunnels_in(UDP_PORT, link, length, from(bytes, 6)) {
        out.unless(is_first, "; ");
        is_first = false;
        write!(out, "{tunnel:?}");
    }
    out.unless(!is_first, "none")
}

/// Writes the fragment of an IP packet in a frame, of the same bytes.
fn write_fragment(bytes: &[u8], out: &mut Answer) {
    let (link, length) = (short_at(bytes, 0), word_at(bytes, 2));
    match fragment_in(UDP_PORT, link, length, from(bytes, 6)) {
        Some(fragment) => write!(out, "{fragment:?}"),
        None => out.say("none"),
    }
}

/// Writes the error message of ICMP in a frame, of the same bytes.
fn write_icmp(bytes: &[u8], out: &mut Answer) {
    let (link, length) = (short_at(bytes, 0), word_at(bytes, 2));
    match icmp_error_in(UDP_PORT, link, length, from(bytes, 6)) {
        Some(error) => write!(out, "{error:?}"),
        None => out.say("none"),
    }
}

/// Writes the answer, if the call is one of this module, and else the next one does; the offset of
/// a line and how many bytes are held have four bytes each.
pub fn write_answer(call: &str, bytes: &[u8], other: &[u8], out: &mut Answer) {
    match call {
        "input-kind" => write!(out, "{:?}", input_kind(bytes)),
        "file-header" => write_file_header(bytes, out),
        "record-header" => write_record_header(bytes, out),
        "known-link" => write!(out, "{}", is_known_link(short_at(bytes, 0))),
        "link-frame" => write_found(UDP_PORT, bytes, out),
        "tunnels" => write_tunnels(bytes, out),
        "fragment" => write_fragment(bytes, out),
        "icmp" => write_icmp(bytes, out),
        "link-frame-port" => write_found(short_at(bytes, 0), from(bytes, 2), out),
        "place" => {
            let (offset, held) = (word_at(bytes, 0), word_at(bytes, 4) as usize);
            write!(out, "{:?}", place_of(offset, held))
        }
        "line-of" => write_size(bytes, out),
        _ => checksums::write_answer(call, bytes, other, out),
    }
}

// ---- lines

/// Returns the bytes of a text, in which `\t`, `\r` and `\1` are a tab, a carriage return and a
/// byte of 1.
fn unescaped(text: &str, out: &mut Answer) -> Vec<u8> {
    let mut bytes = Vec::new(out.alloc);
    let mut is_escaped = false;
    for byte in text.bytes() {
        let meant = match byte {
            b't' if is_escaped => b'\t',
            b'r' if is_escaped => b'\r',
            b'1' if is_escaped => 1,
            _ => byte,
        };
        is_escaped = byte == b'\\';
        if !is_escaped {
            out.push(&mut bytes, meant);
        }
    }
    bytes
}

/// Returns the bytes of digits.
fn collected(bytes: HexBytes, out: &mut Answer) -> Vec<u8> {
    out.list(bytes.collect(out.alloc))
}

/// Writes the date and time before a line of a log.
pub fn write_stamp(text: &str, out: &mut Answer) {
    write!(out, "{:?}", read_stamp(text.as_bytes()))
}

/// Writes what a line says: of a log the direction, the time, the name of its transport, and the
/// packet.
pub fn write_line(text: &str, out: &mut Answer) {
    let line = unescaped(text, out);
    match read_line(&line) {
        Line::Packet(bytes) => {
            let bytes = collected(bytes, out);
            write!(out, "Packet {}", Digits(&bytes))
        }
        Line::Logged(logged) => {
            let bytes = collected(logged.packet, out);
            let time = str::from_utf8(logged.time.as_bytes()).unwrap_or("?");
            let transport = str::from_utf8(logged.transport.as_bytes()).unwrap_or("?");
            let said = (logged.direction, time, transport);
            write!(out, "{said:?} {}", Digits(&bytes))
        }
        Line::Dumped(part) => {
            let bytes = collected(part.bytes, out);
            write!(out, "{:?} {} {}", part.form, part.offset, Digits(&bytes))
        }
        other => write!(out, "{other:?}"),
    }
}

/// Writes how many bytes a line of the digits of these bytes says, and whether they are others.
fn write_size(bytes: &[u8], out: &mut Answer) {
    let mut digits = out.another();
    for byte in bytes {
        let byte = *byte;
        write!(digits, "{byte:02x}");
    }
    out.end_as(&digits);
    let Line::Packet(packet) = read_line(digits.text.as_bytes()) else {
        return out.say("none");
    };
    let said = collected(packet, out);
    write!(out, "{} bytes", said.len());
    out.unless(said.as_slice() == bytes, ", others")
}
