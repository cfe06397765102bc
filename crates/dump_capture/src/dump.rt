//! What the bytes of a dump or of a line of digits are.

use crate::frame::{link_type, number16};
use crate::line::DumpForm;
use crate::parts::after;

/// Returns the link type of a dump's bytes, by its form and what they begin with.
pub(crate) fn link_of(form: DumpForm, bytes: &[u8]) -> u16 {
    match form {
        DumpForm::Tcpdump => link_or(link_type::RAW_IP, bytes),
        _ => link_of_any(bytes),
    }
}

/// Returns the link type of bytes of which nothing else is known.
pub(crate) fn link_of_any(bytes: &[u8]) -> u16 {
    let other = if is_ip(bytes) {
        link_type::RAW_IP
    } else {
        link_type::SCTP
    };
    link_or(other, bytes)
}

/// Returns the link type of a frame, or another one of bytes that don't begin as a frame does.
fn link_or(other: u16, bytes: &[u8]) -> u16 {
    if is_ethernet(bytes) {
        link_type::ETHERNET
    } else if is_cooked(bytes) {
        link_type::LINUX_COOKED
    } else if is_cooked_2(bytes) {
        link_type::LINUX_COOKED_2
    } else {
        other
    }
}

/// Returns whether the bytes are an IP packet, as long as its header says.
fn is_ip(bytes: &[u8]) -> bool {
    if bytes.len() < 20 {
        return false;
    }
    match bytes[0] / 16 {
        4 => number16(&bytes[2..]) as usize == bytes.len(),
        6 => 40 + number16(&bytes[4..]) as usize == bytes.len(),
        _ => false,
    }
}

/// Returns whether the bytes begin with an Ethernet header.
fn is_ethernet(bytes: &[u8]) -> bool {
    has_ip(bytes, 12)
        || has_tag(bytes, 12) && (has_ip(bytes, 16) || has_tag(bytes, 16) && has_ip(bytes, 20))
}

/// Returns whether the type of a tag is at this offset.
fn has_tag(bytes: &[u8], offset: usize) -> bool {
    let rest = after(bytes, offset);
    rest.len() >= 2 && is_tag(number16(rest))
}

/// Returns whether the bytes begin with a header of a cooked frame.
fn is_cooked(bytes: &[u8]) -> bool {
    bytes.len() >= 2 && number16(bytes) <= 4 && has_ip(bytes, 14)
}

/// Returns whether the bytes begin with a header of a cooked frame of the second version.
fn is_cooked_2(bytes: &[u8]) -> bool {
    bytes.len() >= 21 && number16(&bytes[2..]) == 0 && is_ip_type(number16(bytes), bytes[20] / 16)
}

/// Returns whether a type of IP is at this offset, and an IP packet after it.
fn has_ip(bytes: &[u8], offset: usize) -> bool {
    let rest = after(bytes, offset);
    rest.len() >= 3 && is_ip_type(number16(rest), rest[2] / 16)
}

/// Returns whether a type is that of an IP packet of this version.
fn is_ip_type(kind: u16, version: u8) -> bool {
    match kind {
        0x0800 => version == 4,
        0x86dd => version == 6,
        _ => false,
    }
}

/// Returns whether a type is that of a tag.
fn is_tag(kind: u16) -> bool {
    matches!(kind, 0x8100 | 0x88a8)
}
