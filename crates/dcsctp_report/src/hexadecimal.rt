//! Bytes in hexadecimal.

ghost use Rattle.std.specs.Prelude.{◌≡◌, Some, ◌<◌, ◌≤◌, ◌+◌, ◌/◌, ◌%◌, ◌∷◌, false, ℕ, List, All, IsUtf8, length, set};
ghost use Rattle.std.specs.Fmt.{WritesOnOk, digit_glyph};
ghost use Rattle.dcsctp_report.specs.Hexadecimal.{IsPrintable, digits_of};

use std::fmt;

/// The bytes whose digits are written at once.
const BLOCK: usize = 32;

/// The bytes of a row.
pub const ROW: usize = 16;

/// The column of a row's first byte, after a line break, four blanks, the offset and a colon.
const FIRST: usize = 11;

/// The column of a row's first bar.
const BAR: usize = FIRST + 3 * ROW + 1;

/// Returns the digit of a value.
#[inline(always)]
pub fn digit(value: u8) -> u8
    requires { value < 16 }
    ensures glyph { result ≡ digit_glyph false value }
    ensures printable { IsPrintable result }
{
    // (unlike a table's, many are computed at once)
    value + if value < 10 { b'0' } else { b'a' - 10 }
}

/// Two digits for each byte.
#[derive(Clone, Copy)]
pub struct Digits<'a>(pub &'a [u8]);

impl<'a> fmt::Display for Digits<'a> {
    ghost output = { λ d. Some (digits_of d.0.now) };

    fn fmt<W: fmt::Write>(&self, f: &mut fmt::Formatter<W>) -> fmt::Result {
        write_digits(self.0, f)
    }
}

/// Writes two digits for each byte, in blocks.
pub(crate) fn write_digits<W: fmt::Write>(bytes: &[u8], f: &mut fmt::Formatter<W>) -> fmt::Result
    ensures { WritesOnOk W.write_str_gives f.old result (digits_of bytes.now) f.new }
{
    let mut rest = bytes;
    while !rest.is_empty() {
        let (block, after) = rest.split_at(rest.len().min(BLOCK));
        write_block(block, f)?;
        rest = after;
    }
    Ok(())
}

/// Writes the digits of a block.
fn write_block<W: fmt::Write>(block: &[u8], f: &mut fmt::Formatter<W>) -> fmt::Result
    requires { length block.now ≤ BLOCK }
    ensures { WritesOnOk W.write_str_gives f.old result (digits_of block.now) f.new }
{
    let mut digits = [b'0'; 2 * BLOCK];
    for i in 0..block.len() {
        put_digits(&mut digits, 2 * i, block[i]);
    }
    write_ascii(&digits[..2 * block.len()], f)
}

/// Writes the two digits of a byte at a place.
#[inline(always)]
fn put_digits(text: &mut [u8], place: usize, byte: u8)
    requires { place + 1 < length text.old }
    ensures digits { text.new ≡ set (set text.old place (digit_glyph false (byte / 16)))
        (place + 1) (digit_glyph false (byte % 16)) }
    ensures size { length text.new ≡ length text.old }
    ensures printable { All IsPrintable text.old → All IsPrintable text.new }
{
    text[place] = digit(byte / 16);
    text[place + 1] = digit(byte % 16);
}

/// Writes bytes of ASCII.
fn write_ascii<W: fmt::Write>(bytes: &[u8], f: &mut fmt::Formatter<W>) -> fmt::Result
    requires { All (λ byte. byte < 128) bytes.now }
    ensures { WritesOnOk W.write_str_gives f.old result bytes.now f.new }
{
    write_text(bytes, f)
}

/// Writes bytes that are proved to be UTF-8: a test costs as much as all that makes the text.
#[inline(always)]
pub(crate) fn write_text<W: fmt::Write>(bytes: &[u8], f: &mut fmt::Formatter<W>) -> fmt::Result
    requires { IsUtf8 bytes.now }
    ensures { WritesOnOk W.write_str_gives f.old result bytes.now f.new }
{
    f.write_str(unsafe { str::from_utf8_unchecked(bytes) })
}

/// Writes bytes of UTF-8.
pub fn write_utf8<W: fmt::Write>(bytes: &[u8], f: &mut fmt::Formatter<W>) -> fmt::Result
    ensures { WritesOnOk W.write_str_gives f.old result bytes.now f.new }
{
    match str::from_utf8(bytes) {
        Ok(text) => f.write_str(text),
        Err(_) => Err(fmt::Error),
    }
}

/// Writes a row of bytes after a line break: the last four digits of its offset, each byte in
/// hexadecimal, and then all as ASCII between bars, where a dot is what isn't printable.
pub fn write_row<W: fmt::Write>(offset: usize, row: &[u8], f: &mut fmt::Formatter<W>) -> fmt::Result
    requires { length row.now ≤ ROW }
    ensures { (text : List ℕ) × WritesOnOk W.write_str_gives f.old result (10 ∷ text) f.new
        × All IsPrintable text }
{
    let mut text = [b' '; BAR + ROW + 2];
    put_digits(&mut text, 5, (offset / 256 % 256) as u8);
    put_digits(&mut text, 7, (offset % 256) as u8);
    text[9] = b':';
    // A loop that writes its columns without a gap, and no others, is compiled to one that takes
    // many bytes at once.
    for i in 0..row.len() {
        put_digits(&mut text, FIRST + 3 * i, row[i]);
        text[FIRST + 3 * i + 2] = b' ';
    }
    for j in 0..row.len() {
        text[BAR + 1 + j] = printable(row[j]);
    }
    text[BAR] = b'|';
    text[BAR + 1 + row.len()] = b'|';
    text[0] = b'\n';
    if row.len() == ROW {
        // Most rows are whole, and copied as a text of a known size is.
        return write_ascii(&text, f);
    }
    write_ascii(&text[..BAR + 2 + row.len()], f)
}

/// Returns a byte of printable ASCII, and a dot of any other.
fn printable(byte: u8) -> u8
    ensures printable { IsPrintable result }
    ensures same { IsPrintable byte → result ≡ byte }
{
    if (b' '..=b'~').contains(&byte) {
        byte
    } else {
        b'.'
    }
}
