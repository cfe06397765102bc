//! Why records and lines have no packet, in words.

use dump_capture::event::{Part, Skipped};
use dump_capture::frame::NoPacket;
use dump_packet::Text;

/// A record or a line of text that has no packet.
#[derive(Clone, Copy)]
pub struct SkippedLine {
    /// What it is.
    pub part: Part,
    /// Its number, from 1.
    pub number: u64,
    /// Why it has none.
    pub reason: &'static str,
}

impl SkippedLine {
    /// Writes it: a line, or a JSON object in a line.
    pub fn write(&self, is_json: bool, out: &mut Text<'_>) {
        let (name, number, reason) = (name_of(self.part), self.number, self.reason);
        if is_json {
            writeln!(out, "{{\"{name}\":{number},\"skipped\":\"{reason}\"}}")
        } else {
            writeln!(out, "{name} {number} skipped: {reason}")
        }
    }
}

/// Returns what a part of a capture is called.
fn name_of(part: Part) -> &'static str {
    match part {
        Part::Record => "record",
        Part::Line => "line",
        Part::Fragments(_) => "fragments",
    }
}

/// Which reasons were said that come in great numbers: each is said once.
#[derive(Clone, Copy)]
pub struct Said {
    /// That a line isn't a packet.
    unknown: bool,
    /// That a line's offset doesn't continue one.
    apart: bool,
}

impl Said {
    /// None was said.
    pub const NOTHING: Said = Said {
        unknown: false,
        apart: false,
    };

    /// Returns why a record or a line has no frame, in words, unless that was said, and is said
    /// once.
    pub fn first_report_of(&mut self, why: Skipped) -> Option<&'static str> {
        match why {
            Skipped::Unknown if self.unknown => return None,
            Skipped::Apart if self.apart => return None,
            Skipped::Unknown => self.unknown = true,
            Skipped::Apart => self.apart = true,
            _ => {}
        }
        Some(reason_of(why))
    }
}

/// Returns why a record or a line has no frame, in words.
fn reason_of(why: Skipped) -> &'static str {
    match why {
        Skipped::Malformed => "a header's length is wrong",
        Skipped::TooLong => "more than 262144 bytes",
        Skipped::EndsIn => "the file ends in it",
        Skipped::NoInterface => "its interface isn't known",
        Skipped::Unknown => "not a packet; further lines like it are counted alone",
        Skipped::Apart =>
            "its offset doesn't continue a packet; further lines like it are counted alone",
        Skipped::UnreadDump => "by xxd -e, or od -An without -v: xxd and od -A x are read",
    }
}

/// Returns why a frame has no packet, in words; nothing if it isn't SCTP, which is counted alone.
pub fn frame_reason_of(why: NoPacket) -> Option<&'static str> {
    match why {
        NoPacket::Other => None,
        NoPacket::Fragment => Some("a fragment"),
        NoPacket::Cut => Some("cut off"),
        NoPacket::Malformed => Some("a header's length is wrong"),
        NoPacket::LinkType => Some("its link type isn't read"),
    }
}
