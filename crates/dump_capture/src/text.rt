//! The events of a text: packets in hexadecimal, of logs and of dumps.

ghost use Rattle.std.specs.Prelude.{◌≡◌, ◌==◌, position};
ghost use Rattle.dump_capture.specs.Text.{State, Item, End, HandsSome, HandsOne, Carries, IsSkip, IsSaidBy};

use crate::decoder::{Decoder, Extent, MOST_KEPT, Next};
use crate::dump::{link_of, link_of_any};
use crate::event::{Part, Seen, Sink, Skipped, Time};
use crate::frame::{link_type, number16};
use crate::hex_bytes::{HexBytes, push_reserved};
use crate::line::{DumpForm, DumpedBytes, Line, LoggedPacket, Place, place_of, read_line};
use crate::parts::{after, front};
use crate::row::{Row, row_of};
use crate::stamp::{Stamp, read_stamp};
use std::alloc::{AllocError, Global};

/// The most bytes that a line says: two digits say one.
const MOST_SAID: usize = MOST_KEPT / 2;

/// How many bytes the common header of a packet has.
const HEADER_SIZE: usize = 12;

/// Finds the packets of a text.
#[derive(Drop)]
pub struct TextDecoder {
    /// What the lines of a dump said.
    bytes: Vec<u8>,
    /// How they were written, if a dump is open.
    form: Option<DumpForm>,
    /// Whether its bytes go on as the last 16 do.
    repeats: bool,
    /// The base of its offsets; 0 if none is known before a line continues it.
    base: u32,
    /// Whether it doesn't say its packet.
    is_unread: bool,
    /// The number of its first line.
    first_line: u64,
    /// How many packets there were.
    packets: u64,
    /// How many lines there were.
    lines: u64,
    /// The date and time that were written for the next line.
    stamp: Option<Stamp>,
    /// How many bytes in memory were searched for a line feed when they were seen last.
    searched: usize,
}

impl TextDecoder {
    /// Returns a decoder of a text, with the memory of the longest dump.
    pub fn new(alloc: Global) -> Result<TextDecoder, AllocError> {
        Ok(TextDecoder {
            bytes: Vec::with_capacity(alloc, MOST_KEPT + MOST_SAID)?,
            form: None,
            repeats: false,
            base: 16,
            is_unread: false,
            first_line: 0,
            packets: 0,
            lines: 0,
            stamp: None,
            searched: 0,
        })
    }

    /// Returns whether a line feed may have come since the bytes in memory were searched last.
    fn may_have_line(&mut self, held: &[u8]) -> bool {
        let searched = self.searched;
        self.searched = held.len();
        searched == 0 || first_line_feed(after(held, searched)).is_some()
    }

    /// Counts a line, and keeps what was written for it.
    fn count_line(&mut self, stamp: Option<Stamp>) {
        self.lines = self.lines.saturating_add(1);
        self.stamp = stamp;
        self.searched = 0;
    }

    /// Passes on the events of a line.
    fn take_line<S: Sink>(&mut self, line: &[u8], sink: &mut S)
        ensures { HandsSome S.handed sink.old sink.new }
    {
        if line.len() > MOST_KEPT {
            self.take_long(sink);
        } else {
            let own = read_stamp(line);
            let said = read_line(line);
            let below = stamp_below(&said, own, self.stamp);
            self.count_line(own.or(self.stamp));
            self.take_said(said, row_of(line), sink);
            self.stamp = below;
        }
    }

    /// Passes on the events of a line that is too long.
    #[tactic(auto, using(crate::proofs::Handed::some_then_some))]
    fn take_long<S: Sink>(&mut self, sink: &mut S)
        ensures { HandsSome S.handed sink.old sink.new }
    {
        self.count_line(None);
        self.end_dump(sink);
        self.skip(Skipped::TooLong, sink);
    }

    /// Passes on the events of what follows the last line feed, and of the open dump.
    #[tactic(auto, using(crate::proofs::Handed::some_then_some))]
    fn take_last<S: Sink>(&mut self, line: &[u8], sink: &mut S)
        ensures { HandsSome S.handed sink.old sink.new }
    {
        if line.is_empty() {
            self.end_dump(sink);
            return;
        }
        self.take_line(line, sink);
        self.end_dump(sink);
    }

    /// Passes on the events of a line that says this.
    #[tactic(auto, using(crate::proofs::Handed::some_then_some))]
    fn take_said<S: Sink>(&mut self, line: Line<'_>, row: Option<Row>, sink: &mut S)
        ensures { HandsSome S.handed sink.old sink.new }
    {
        match line {
            Line::Dumped(part) => self.take_part(part, sink),
            Line::Repeats => self.take_repeats(sink),
            Line::Blank | Line::Comment => self.end_dump(sink),
            Line::Packet(bytes) => self.take_digits(bytes, row, sink),
            Line::Logged(logged) => {
                self.end_dump(sink);
                self.take_logged(logged, sink);
            }
            Line::Unknown => {
                self.end_dump(sink);
                self.skip(Skipped::Unknown, sink);
            }
        }
    }

    /// Passes on the events of a line of digits: a full row of a dump without offsets, or one that
    /// continues such a dump, is a part of it; any other line is a packet.
    #[tactic(auto, using(crate::proofs::Handed::some_then_some))]
    fn take_digits<S: Sink>(&mut self, bytes: HexBytes<'_>, row: Option<Row>, sink: &mut S)
        ensures { HandsSome S.handed sink.old sink.new }
    {
        if let Some(row) = row
            && (row.is_full || self.is_open(row.form))
        {
            self.take_row(bytes, row, sink);
            return;
        }
        self.end_dump(sink);
        self.take_packet(bytes, sink);
    }

    /// Passes on the events of a row, which begins a dump or continues one. A row that isn't full is
    /// the last one, and so is a first one that is a whole packet.
    #[tactic(auto, using(crate::proofs::Handed::some_then_some))]
    fn take_row<S: Sink>(&mut self, bytes: HexBytes<'_>, row: Row, sink: &mut S)
        ensures { HandsSome S.handed sink.old sink.new }
    {
        let begins = !self.is_open(row.form);
        let held = if begins { 0 } else { self.bytes.len() };
        let part = DumpedBytes {
            form: row.form,
            offset: u32::try_from(held).unwrap_or(u32::MAX),
            bytes,
            is_swapped: false,
        };
        self.take_part(part, sink);
        if !row.is_full || begins && is_whole(&self.bytes) {
            self.end_dump(sink);
        }
    }

    /// Passes on the events of a line of digits, where no dump is open.
    fn take_packet<S: Sink>(&mut self, bytes: HexBytes<'_>, sink: &mut S)
        ensures some { HandsSome S.handed sink.old sink.new }
        ensures said { HandsOne S.handed sink.old sink.new (IsSaidBy bytes.entry.text.now) }
    {
        self.bytes.clear();
        if !bytes.append_reserved(&mut self.bytes) {
            skip_at(self.lines, Skipped::TooLong, sink);
            return;
        }
        if self.bytes.len() < HEADER_SIZE {
            skip_at(self.lines, Skipped::Unknown, sink);
            return;
        }
        self.packets = self.packets.saturating_add(1);
        let bytes = self.bytes.as_slice();
        let link = link_of_any(bytes);
        hand_on(self.packets, self.lines, Time::Unknown, link, bytes, sink);
    }

    /// Passes on a packet of a log, where no dump is open.
    fn take_logged<S: Sink>(&mut self, logged: LoggedPacket<'_>, sink: &mut S)
        ensures some { HandsSome S.handed sink.old sink.new }
        ensures said { HandsOne S.handed sink.old sink.new (IsSaidBy logged.entry.packet.text.now) }
    {
        self.bytes.clear();
        if !logged.packet.append_reserved(&mut self.bytes) {
            skip_at(self.lines, Skipped::TooLong, sink);
            return;
        }
        self.packets = self.packets.saturating_add(1);
        let time = Time::OfDay {
            time: logged.time,
            direction: logged.direction,
            transport: logged.transport,
            stamp: self.stamp,
        };
        let bytes = self.bytes.as_slice();
        hand_on(self.packets, self.lines, time, link_type::SCTP, bytes, sink);
    }

    /// Passes on the events of a line of a dump.
    #[tactic(auto, using(crate::proofs::Handed::some_then_some))]
    fn take_part<S: Sink>(&mut self, part: DumpedBytes<'_>, sink: &mut S)
        ensures { HandsSome S.handed sink.old sink.new }
    {
        match self.continued_at(&part) {
            None => {
                self.end_dump(sink);
                self.begin_dump(part, sink);
            }
            Some(offset) if self.bytes.len() > MOST_KEPT || offset > MOST_KEPT => {
                self.form = None;
                self.skip(Skipped::TooLong, sink);
            }
            Some(offset) => {
                repeat_to(offset, self.repeats, &mut self.bytes);
                self.repeats = false;
                self.is_unread = self.is_unread || part.is_swapped;
                self.append(part.bytes, sink);
            }
        }
    }

    /// Passes on the events of an asterisk.
    #[tactic(auto, using(crate::proofs::Handed::some_then_some))]
    fn take_repeats<S: Sink>(&mut self, sink: &mut S)
        ensures { HandsSome S.handed sink.old sink.new }
    {
        if self.may_repeat() {
            self.repeats = true;
        } else if self.is_open(DumpForm::PlainOd) {
            self.is_unread = true;
        } else {
            self.end_dump(sink);
            self.skip(Skipped::Unknown, sink);
        }
    }

    /// Returns whether a dump of this form is open.
    fn is_open(&self, form: DumpForm) -> bool {
        match self.form {
            Some(open) => open == form,
            None => false,
        }
    }

    /// Returns whether an asterisk says that the open dump repeats its last line.
    fn may_repeat(&self) -> bool {
        match self.form {
            Some(DumpForm::Hexdump | DumpForm::Od) => self.bytes.len() >= 16,
            _ => false,
        }
    }

    /// Returns the offset at which a line continues the open dump; nothing if it doesn't.
    fn continued_at(&mut self, part: &DumpedBytes<'_>) -> Option<usize> {
        if !self.is_open(part.form) {
            return None;
        }
        let held = self.bytes.len();
        if self.base == 0 {
            self.base = base_of(part.offset, held);
        }
        let offset = offset_in(self.base, part.offset);
        if reaches(offset, held, self.repeats) {
            Some(offset as usize)
        } else {
            None
        }
    }

    /// Takes a line of a dump that continues none, where none is open: it begins one at offset 0.
    fn begin_dump<S: Sink>(&mut self, part: DumpedBytes<'_>, sink: &mut S)
        ensures { HandsSome S.handed sink.old sink.new }
    {
        if part.offset != 0 {
            self.skip(Skipped::Apart, sink);
            return;
        }
        self.form = Some(part.form);
        self.repeats = false;
        self.base = if part.form == DumpForm::Od { 0 } else { 16 };
        self.is_unread = part.is_swapped;
        self.first_line = self.lines;
        self.bytes.clear();
        self.append(part.bytes, sink);
    }

    /// Appends the bytes of a line to the open dump, which ends where it has no room for them.
    fn append<S: Sink>(&mut self, bytes: HexBytes<'_>, sink: &mut S)
        ensures { HandsSome S.handed sink.old sink.new }
    {
        if !bytes.append_reserved(&mut self.bytes) {
            self.form = None;
            self.skip(Skipped::TooLong, sink);
        }
    }

    /// Passes on that the line holds no packet.
    fn skip<S: Sink>(&self, why: Skipped, sink: &mut S)
        ensures { HandsSome S.handed sink.old sink.new }
    {
        skip_at(self.lines, why, sink);
    }

    /// Passes on the packet of the open dump, or that the dump doesn't say it, if one is open.
    fn end_dump<S: Sink>(&mut self, sink: &mut S)
        ensures { HandsSome S.handed sink.old sink.new }
    {
        let Some(form) = self.form else {
            return;
        };
        self.form = None;
        if self.is_unread {
            skip_at(self.first_line, Skipped::UnreadDump, sink);
            return;
        }
        self.packets = self.packets.saturating_add(1);
        let bytes = self.bytes.as_slice();
        let link = link_of(form, bytes);
        hand_on(
            self.packets,
            self.first_line,
            Time::Unknown,
            link,
            bytes,
            sink,
        );
    }
}

impl Decoder for TextDecoder {
    ghost State = { State };

    ghost state = { λ d. tt };

    ghost Item = { Item };

    ghost End = { End };

    fn next<S: Sink>(&mut self, held: &[u8], at_end: bool, sink: &mut S) -> Next {
        let may_have_line = self.may_have_line(held);
        if !may_have_line && !at_end && held.len() <= MOST_KEPT {
            return Next::More;
        }
        match first_line_feed(held) {
            Some(size) => {
                let line = front(held, size);
                self.take_line(line, sink);
                Next::Item(size + 1)
            }
            None if at_end => {
                self.take_last(held, sink);
                Next::End
            }
            None if held.len() > MOST_KEPT => {
                self.take_long(sink);
                Next::Long(Extent::Line)
            }
            None => Next::More,
        }
    }
}

/// Passes on that a line holds no packet.
fn skip_at<S: Sink>(line: u64, why: Skipped, sink: &mut S)
    ensures { HandsOne S.handed sink.old sink.new IsSkip }
{
    sink.skipped(Part::Line, line, why);
}

/// Passes on a frame of a text.
fn hand_on<S: Sink>(
    number: u64,
    first_line: u64,
    time: Time<'_>,
    link_type: u16,
    bytes: &[u8],
    sink: &mut S,
)
    ensures { HandsOne S.handed sink.old sink.new (Carries bytes.now) }
{
    let seen = Seen {
        number,
        time,
        part: Part::Line,
        place: first_line,
    };
    let size = u32::try_from(bytes.len()).unwrap_or(u32::MAX);
    sink.frame(&seen, link_type, size, bytes);
}

/// Returns the date and time that are written for the next line.
fn stamp_below(said: &Line<'_>, own: Option<Stamp>, above: Option<Stamp>) -> Option<Stamp> {
    match said {
        Line::Unknown => own,
        Line::Blank => above,
        _ => None,
    }
}

/// Returns whether a part of a dump at this offset continues `held` bytes.
fn reaches(offset: u32, held: usize, repeats: bool) -> bool {
    if repeats {
        held <= offset as usize
    } else {
        place_of(offset, held) == Place::Continues
    }
}

/// Returns the base, 16, 10 or 8, in which the hexadecimal digits of a number say `held`; 16 if they
/// do so in none.
fn base_of(number: u32, held: usize) -> u32 {
    if offset_in(16, number) as usize == held {
        16
    } else if offset_in(10, number) as usize == held {
        10
    } else if offset_in(8, number) as usize == held {
        8
    } else {
        16
    }
}

/// Returns the number that the hexadecimal digits of a number say in a base; the greatest there is
/// if one of them is no digit of it.
fn offset_in(base: u32, number: u32) -> u32 {
    let mut value = 0u32;
    let mut rest = number;
    let mut power = 1u32;
    for _ in 0..8 {
        let digit = rest % 16;
        if digit >= base {
            return u32::MAX;
        }
        value = value.wrapping_add(digit.wrapping_mul(power));
        power = power.wrapping_mul(base);
        rest /= 16;
    }
    value
}

/// Returns whether 16 bytes are a packet with one chunk of 4 bytes (RFC 9260 section 3.2), and don't
/// begin as an IPv4 packet does.
fn is_whole(bytes: &[u8]) -> bool {
    bytes.len() == 16 && number16(&bytes[14..]) == 4 && bytes[0] != 0x45
}

/// Appends bytes up to this size, each as the one that is 16 bytes before it, if they are repeated;
/// `bytes` has room for them.
fn repeat_to(size: usize, repeats: bool, bytes: &mut Vec<u8>) {
    if !repeats {
        return;
    }
    let missing = size.saturating_sub(bytes.len());
    for _ in 0..missing {
        let byte = byte_before(bytes.as_slice());
        push_reserved(bytes, byte);
    }
}

/// Returns the byte that is 16 bytes before the end; 0 if there is none.
fn byte_before(bytes: &[u8]) -> u8 {
    let offset = bytes.len().saturating_sub(16);
    if offset < bytes.len() {
        bytes[offset]
    } else {
        0
    }
}

/// Returns the offset of the first line feed.
pub fn first_line_feed(bytes: &[u8]) -> Option<usize>
    ensures { result ≡ position (λ byte. byte == 10) bytes.now }
{
    bytes.iter().position(|byte| *byte == b'\n')
}
