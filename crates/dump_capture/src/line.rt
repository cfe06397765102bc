//! Lines of text that hold packets: in hexadecimal, of a log, or of a dump with offsets.

ghost use Rattle.std.specs.Prelude.{◌<◌, ◌≤◌, length};
ghost use Rattle.dump_capture.specs.Text.{IsRead};

use crate::hex_bytes::{
    HexBytes, begins_with_byte, digit, front_byte, is_blank, without_blanks_before,
};
use crate::log_text::LogText;
use crate::parts::{after, front};

/// How many bytes the mark of a log has, `# SCTP_PACKET`.
const MARK_SIZE: usize = 13;

/// How many bytes four words of eight digits and the blanks between them have.
const WORDS_SIZE: usize = 35;

/// Where a logged packet went.
#[derive(Clone, Copy, Debug, PartialEq, Eq)]
pub enum Direction {
    /// Received, `I`.
    Incoming,
    /// Sent, `O`.
    Outgoing,
}

/// A packet of a log.
#[derive(Debug, Drop)]
pub struct LoggedPacket<'a> {
    /// Whether it was received or sent.
    pub direction: Direction,
    /// When: a time of day, of digits, colons and points.
    pub time: LogText<'a>,
    /// The name of the transport that logged it; empty if it has none.
    pub transport: LogText<'a>,
    /// Its bytes.
    pub packet: HexBytes<'a>,
}

/// A form of dump.
#[derive(Clone, Copy, Debug)]
pub enum DumpForm {
    /// Of `xxd`: `00000010: 1388 1388 ..`. Nothing says what the bytes are.
    Xxd,
    /// Of `tcpdump -x` and `-xx`: `0x0010:  1388 1388 ..`. The bytes are those of an IP packet, or
    /// of a frame.
    Tcpdump,
    /// Of `hexdump -C` and `od -A x -t x1`: `00000010  13 88 13 88 ..`. Nothing says what the bytes
    /// are.
    Hexdump,
    /// Of `od -A d -t x1` and `od -t x1`: `0000016 13 88 13 88 ..`. Only the lines together say in
    /// which base the offsets are, and nothing what the bytes are.
    Od,
    /// Of Wireshark and `tshark -x`: `0010  13 88 13 88 ..`. Nothing says what the bytes are.
    Wireshark,
    /// Of `xxd -p`: `138813880a0b ..`, 30 bytes a line, without offsets. Nothing says what they are.
    PlainXxd,
    /// Of `od -An -t x1`: ` 13 88 13 88 ..`, 16 bytes a line, without offsets. Nothing says what
    /// they are.
    PlainOd,
}

/// A line of a dump.
#[derive(Debug, Drop)]
pub struct DumpedBytes<'a> {
    /// What wrote it.
    pub form: DumpForm,
    /// The offset of its first byte in the packet, as hexadecimal digits say it.
    pub offset: u32,
    /// Its bytes.
    pub bytes: HexBytes<'a>,
    /// Whether the characters behind them say that each four are in the opposite order, as `xxd -e`
    /// writes them.
    pub is_swapped: bool,
}

/// What a line says.
#[derive(Debug, Drop)]
pub enum Line<'a> {
    /// Nothing, or blanks.
    Blank,
    /// A line that begins with `#`.
    Comment,
    /// A packet in hexadecimal.
    Packet(HexBytes<'a>),
    /// A packet of a log.
    Logged(LoggedPacket<'a>),
    /// A part of a dump.
    Dumped(DumpedBytes<'a>),
    /// `*` of a dump: lines that are as the one before.
    Repeats,
    /// Anything else.
    Unknown,
}

/// Where the bytes of a line of a dump belong.
#[derive(Clone, Copy, Debug)]
pub enum Place {
    /// They begin a packet.
    Begins,
    /// They continue the packet.
    Continues,
    /// They do neither.
    Apart,
}

/// Returns where bytes at this offset belong, after `held` bytes of a packet: at offset 0 they
/// begin the next packet, and at offset `held` they continue this one.
pub fn place_of(offset: u32, held: usize) -> Place {
    if offset == 0 {
        Place::Begins
    } else if offset as usize == held {
        Place::Continues
    } else {
        Place::Apart
    }
}

/// Reads a line of text, without its line feed. Blanks (spaces, tabs and carriage returns) at its
/// beginning and its end are ignored. The forms, in the order in which they are tried, a dump by
/// the line's beginning:
///
/// - nothing: `Blank`; `#`: `Comment`; `*` alone: `Repeats`, as `hexdump` and `od` write it;
/// - `0x`: `Dumped`, as `tcpdump -x` and `-X` write it: an offset of one to eight digits, a colon,
///   a blank, and groups of digits;
/// - one to eight digits, a colon and a blank: `Dumped`, as `xxd` writes it; in both forms of dump,
///   two blanks in a row end the bytes, and only printable ASCII may follow;
/// - six to eight digits, blanks and a byte: `Dumped`, as `hexdump -C` writes it, where the first
///   `|` ends the bytes, and as `od -t x1` does, of seven digits with any base of offsets; the digits
///   alone, of which the first two are 0, are the last line, which says the length;
/// - four digits, two blanks and a byte: `Dumped`, as Wireshark writes it; two blanks in a row end
///   the bytes;
/// - `I ` or `O `, a time and `0000 `, anywhere: `Logged`, as WebRTC logs packets for `text2pcap`:
///   `I 12:34:56.789 0000 13 88 .. # SCTP_PACKET DcSctpTransport0`; the word after the mark, if one
///   is there, is the transport's name, and anything may come before the direction and after it;
/// - anything else: `Packet`, if it is digits, two a byte, of either case, with blanks between
///   bytes.
///
/// A line that begins as one form and isn't of that form is `Unknown`.
pub fn read_line(line: &[u8]) -> Line<'_> {
    read_text(without_blanks_before(line))
}

/// Reads a line that doesn't begin with a blank.
fn read_text(text: &[u8]) -> Line<'_> {
    if text.is_empty() {
        Line::Blank
    } else if text[0] == b'#' {
        Line::Comment
    } else if is_asterisk(text) {
        Line::Repeats
    } else if text.starts_with(b"0x") {
        dump_line(DumpForm::Tcpdump, after(text, 2))
    } else if has_offset(text) {
        dump_line(DumpForm::Xxd, text)
    } else if has_hexdump_offset(text) {
        hexdump_line(text)
    } else if has_wireshark_offset(text) {
        wireshark_line(text)
    } else {
        let log = log_from(text);
        if log.is_empty() {
            packet_line(text)
        } else {
            log_line(log)
        }
    }
}

/// Returns whether an asterisk is at the front, and only blanks after it.
fn is_asterisk(text: &[u8]) -> bool {
    text.starts_with(b"*") && without_blanks_before(after(text, 1)).is_empty()
}

/// Reads a line of digits.
fn packet_line(text: &[u8]) -> Line<'_>
    ensures { IsRead text.now result }
{
    match HexBytes::from_text(text) {
        Some(bytes) => Line::Packet(bytes),
        None => Line::Unknown,
    }
}

/// Reads a line of a log from its direction on.
fn log_line(text: &[u8]) -> Line<'_> {
    let direction = if text.starts_with(b"I") {
        Direction::Incoming
    } else {
        Direction::Outgoing
    };
    let (time, rest) = first_word(past_direction(text));
    let bytes = after(rest, 5);
    match marked_bytes(bytes) {
        Some(packet) => Line::Logged(LoggedPacket {
            direction,
            time: LogText::new(time),
            transport: LogText::new(transport_of(bytes)),
            packet,
        }),
        None => Line::Unknown,
    }
}

/// Returns the text from the first place on where a line of a log begins; nothing if there is none.
fn log_from(text: &[u8]) -> &[u8] {
    for offset in 0..text.len() {
        if begins_log(&text[offset..]) {
            return &text[offset..];
        }
    }
    &[]
}

/// Returns whether a direction, a time and the offset 0000 are at the front.
fn begins_log(text: &[u8]) -> bool {
    if !has_direction(text) {
        return false;
    }
    let (time, rest) = first_word(past_direction(text));
    is_time(time) && rest.starts_with(b"0000 ")
}

/// Returns whether a direction is at the front.
fn has_direction(text: &[u8]) -> bool {
    text.len() > 1 && matches!(text[0], b'I' | b'O') && text[1] == b' '
}

/// Returns what follows the direction and the blanks after it.
fn past_direction(text: &[u8]) -> &[u8] {
    without_blanks_before(after(text, 2))
}

/// Returns the first word, and what follows the blanks after it.
fn first_word(text: &[u8]) -> (&[u8], &[u8]) {
    let blank = text.iter().position(|byte| is_blank(*byte));
    let length = blank.unwrap_or(text.len());
    (
        front(text, length),
        without_blanks_before(after(text, length)),
    )
}

/// Returns whether a word can be a time of day: digits, colons and points.
fn is_time(text: &[u8]) -> bool {
    !text.is_empty()
        && text
            .iter()
            .all(|byte| matches!(*byte, b'0'..=b'9' | b':' | b'.'))
}

/// Returns the bytes before the mark of a log.
fn marked_bytes(text: &[u8]) -> Option<HexBytes<'_>> {
    let offset = offset_of(b'#', text);
    if after(text, offset).starts_with(b"# SCTP_PACKET") {
        HexBytes::from_text(front(text, offset))
    } else {
        None
    }
}

/// Returns the word after the mark of a log.
fn transport_of(text: &[u8]) -> &[u8] {
    let marked = after(after(text, offset_of(b'#', text)), MARK_SIZE);
    first_word(without_blanks_before(marked)).0
}

/// Returns the offset of the first such byte; the length if there is none.
fn offset_of(byte: u8, text: &[u8]) -> usize {
    text.iter().position(|b| *b == byte).unwrap_or(text.len())
}

/// Reads a line of a dump that begins with its offset.
fn dump_line(form: DumpForm, text: &[u8]) -> Line<'_> {
    if !has_offset(text) {
        return Line::Unknown;
    }
    let offset = number_before(text);
    let rest = without_blanks_before(after(text, offset_length(text) + 1));
    let swapped = form == DumpForm::Xxd && is_swapped(rest);
    dumped(form, offset, dumped_bytes(rest), swapped)
}

/// Returns what a line of a dump says: nothing that is known, without bytes.
fn dumped(form: DumpForm, offset: u32, bytes: Option<HexBytes<'_>>, is_swapped: bool) -> Line<'_> {
    match bytes {
        Some(bytes) => Line::Dumped(DumpedBytes {
            form,
            offset,
            bytes,
            is_swapped,
        }),
        None => Line::Unknown,
    }
}

/// Returns whether the text is 16 bytes in words of four, and a character behind them is that of
/// the byte that is in its place if the bytes of each word are in the opposite order.
fn is_swapped(text: &[u8]) -> bool {
    if groups_length(text) != WORDS_SIZE {
        return false;
    }
    let characters = after(text, WORDS_SIZE + 2);
    for place in 0..characters.len() {
        let character = characters[place];
        if place < 16
            && character != b'.'
            && character != word_byte(text, place)
            && character == word_byte(text, place / 4 * 4 + 3 - place % 4)
        {
            return true;
        }
    }
    false
}

/// Returns the byte at this place of words of eight digits; 0 where none is.
fn word_byte(words: &[u8], place: usize) -> u8
    requires { place < 16 }
{
    match front_byte(after(words, place / 4 * 9 + place % 4 * 2)) {
        Some((byte, _)) => byte,
        None => 0,
    }
}

/// Returns the number that the digits at the beginning say.
fn number_before(text: &[u8]) -> u32 {
    hex_number(front(text, offset_length(text)))
}

/// Returns what follows the digits at the beginning and the blanks after them.
fn past_offset(text: &[u8]) -> &[u8] {
    without_blanks_before(after(text, offset_length(text)))
}

/// Reads a line of a dump by `hexdump` or `od`.
fn hexdump_line(text: &[u8]) -> Line<'_> {
    let form = if offset_length(text) == 7 {
        DumpForm::Od
    } else {
        DumpForm::Hexdump
    };
    dumped(
        form,
        number_before(text),
        barred_bytes(past_offset(text)),
        false,
    )
}

/// Reads a line of a dump by Wireshark.
fn wireshark_line(text: &[u8]) -> Line<'_> {
    let bytes = dumped_bytes(past_offset(text));
    dumped(DumpForm::Wireshark, number_before(text), bytes, false)
}

/// Returns whether the text begins with six to eight digits and a byte, or is a length.
fn has_hexdump_offset(text: &[u8]) -> bool {
    let length = offset_length(text);
    let rest = past_offset(text);
    length >= 6
        && length <= 8
        && (is_byte_alone(rest) || rest.is_empty() && text.starts_with(b"00"))
}

/// Returns whether the text begins with four digits, two blanks and a byte.
fn has_wireshark_offset(text: &[u8]) -> bool {
    offset_length(text) == 4 && is_gap(after(text, 4)) && is_byte_alone(past_offset(text))
}

/// Returns whether the text begins with a byte, and a blank or nothing after it.
fn is_byte_alone(text: &[u8]) -> bool {
    let rest = after(text, 2);
    begins_with_byte(text) && (rest.is_empty() || is_blank(rest[0]))
}

/// Returns the bytes before a `|`.
fn barred_bytes(text: &[u8]) -> Option<HexBytes<'_>> {
    said_before(offset_of(b'|', text), text)
}

/// Returns whether the text begins with one to eight digits, a colon and a blank.
fn has_offset(text: &[u8]) -> bool {
    let length = offset_length(text);
    length > 0
        && length <= 8
        && length + 1 < text.len()
        && text[length] == b':'
        && is_blank(text[length + 1])
}

/// Returns how many digits the text begins with.
pub(crate) fn offset_length(text: &[u8]) -> usize
    ensures { result ≤ length text.now }
{
    let digits = text.iter().position(|byte| !byte.is_ascii_hexdigit());
    digits.unwrap_or(text.len())
}

/// Returns the number that digits say, of which the last eight count.
fn hex_number(digits: &[u8]) -> u32 {
    let mut number = 0u32;
    for byte in digits {
        number = number.wrapping_mul(16).wrapping_add(digit(*byte) as u32);
    }
    number
}

/// Returns the bytes of a line of a dump after its offset.
fn dumped_bytes(text: &[u8]) -> Option<HexBytes<'_>> {
    said_before(groups_length(text), text)
}

/// Returns the bytes before an offset, from which on the text can be printed.
fn said_before(offset: usize, text: &[u8]) -> Option<HexBytes<'_>> {
    if are_printable(after(text, offset)) {
        HexBytes::from_text(front(text, offset))
    } else {
        None
    }
}

/// Returns how many bytes come before the first two blanks in a row.
fn groups_length(text: &[u8]) -> usize {
    for length in 0..text.len() {
        if is_gap(&text[length..]) {
            return length;
        }
    }
    text.len()
}

/// Returns whether two blanks are at the front.
fn is_gap(text: &[u8]) -> bool {
    text.len() > 1 && is_blank(text[0]) && is_blank(text[1])
}

/// Returns whether each byte is blank or can be printed.
fn are_printable(text: &[u8]) -> bool {
    text.iter()
        .all(|byte| is_blank(*byte) || matches!(*byte, b' '..=b'~'))
}
