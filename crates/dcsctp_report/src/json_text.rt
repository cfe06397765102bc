//! Strings of JSON.

ghost use Rattle.std.specs.Prelude.{◌≡◌, Some, ◌<◌};
ghost use Rattle.std.specs.Fmt.{WritesOnOk};
ghost use Rattle.std.specs.List.{flat_map};
ghost use Rattle.dcsctp_report.specs.JsonString.{escape, is_escaped, string_of, written};

use crate::hexadecimal::{digit, write_utf8};
use std::fmt;

/// A text as a string of JSON: between quotation marks, where quotation marks, backslashes and
/// control characters are escaped (RFC 8259 section 7), and so is U+007F.
#[derive(Clone, Copy)]
pub struct JsonText<'a>(pub &'a str);

impl<'a> fmt::Display for JsonText<'a> {
    ghost output = { λ t. Some (string_of t.0.now) };

    fn fmt<W: fmt::Write>(&self, f: &mut fmt::Formatter<W>) -> fmt::Result {
        f.write_str("\"")?;
        write_escaped(self.0.as_bytes(), f)?;
        f.write_str("\"")
    }
}

/// Writes bytes of a text, and the escapes of those that are escaped.
fn write_escaped<W: fmt::Write>(bytes: &[u8], f: &mut fmt::Formatter<W>) -> fmt::Result
    ensures { WritesOnOk W.write_str_gives f.old result (flat_map written bytes.now) f.new }
{
    let mut start = 0;
    for i in 0..bytes.len() {
        if is_escaped(bytes[i]) {
            // A byte of ASCII is a character, so both ends are between characters.
            write_utf8(&bytes[start..i], f)?;
            write_escape(bytes[i], f)?;
            start = i + 1;
        }
    }
    write_utf8(&bytes[start..], f)
}

/// Returns whether a byte of a string is escaped.
fn is_escaped(byte: u8) -> bool
    ensures { result ≡ is_escaped byte }
{
    byte < b' ' || byte == b'"' || byte == b'\\' || byte == 0x7f
}

/// Writes a byte's escape.
fn write_escape<W: fmt::Write>(byte: u8, f: &mut fmt::Formatter<W>) -> fmt::Result
    ensures { WritesOnOk W.write_str_gives f.old result (escape byte) f.new }
{
    if byte == b'"' || byte == b'\\' {
        return write_utf8(&[b'\\', byte], f);
    }
    let (high, low) = (digit(byte / 16), digit(byte % 16));
    write_utf8(&[b'\\', b'u', b'0', b'0', high, low], f)
}
