//! Bytes that a text says in hexadecimal digits.

ghost use Rattle.std.specs.Prelude.{◌≡◌, ◌<◌, ◌≤◌, [], length, slice_index, IfSome, IsTrue};
ghost use Rattle.std.specs.Iterator.{at_most};
ghost use Rattle.std.specs.Char.{is_ascii_hexdigit, digit_value};
ghost use Rattle.dump_capture.specs.HexBytes.{AreAppended, Continues, is_blank};

use crate::parts::after;

/// The bytes that a text says: two digits a byte, of either case, with blanks anywhere but in a
/// byte.
///
/// The text was checked, so `next` has no error.
#[derive(Debug, Drop)]
pub struct HexBytes<'a> {
    pub(crate) text: &'a [u8],
}

impl<'a> HexBytes<'a> {
    /// Returns the bytes that a text says; nothing if it has another byte than a digit, a space, a
    /// tab or a carriage return, or half a byte.
    pub fn from_text(text: &'a [u8]) -> Option<HexBytes<'a>>
        ensures { IfSome result (λ h. h.text.now ≡ text.now) }
    {
        if says_bytes(text) {
            Some(HexBytes { text })
        } else {
            None
        }
    }

    /// Appends the bytes that are left to a vector that has room for them, and returns true; false
    /// if it has none for some, which are left out.
    pub(crate) fn append_reserved(self, output: &mut Vec<u8>) -> bool
        ensures { IsTrue result → AreAppended self.entry.text.now output.old.items output.new.items }
    {
        append_said(self.text, output)
    }
}

impl<'a> Iterator for HexBytes<'a> {
    type Item = u8;

    ghost remaining = { λ h. at_most (length h.text.now) };

    /// Returns the next byte; nothing once all were returned.
    fn next(&mut self) -> Option<u8> {
        match front_byte(self.text) {
            Some((byte, rest)) => {
                self.text = rest;
                Some(byte)
            }
            None => None,
        }
    }
}

/// Appends the bytes that a text says to a vector, and returns true; false if it says no bytes, or
/// the vector has no room for some.
fn append_said(text: &[u8], output: &mut Vec<u8>) -> bool
    ensures { IsTrue result → AreAppended text.now output.old.items output.new.items }
{
    let mut rest = without_blanks_before(text);
    while !rest.is_empty() {
        if output.len() >= output.capacity() || !begins_with_byte(rest) {
            return false;
        }
        output.push_reserved(16 * digit(rest[0]) + digit(rest[1]));
        rest = without_blanks_before(after(rest, 2));
    }
    true
}

/// Appends a byte to a vector that has room for it.
pub(crate) fn push_reserved(output: &mut Vec<u8>, byte: u8) {
    if output.len() < output.capacity() {
        output.push_reserved(byte);
    }
}

/// Returns the first byte that a text says, and the text after it; nothing if it says none.
pub(crate) fn front_byte(text: &[u8]) -> Option<(u8, &[u8])>
    ensures { IfSome result (λ p. length p.1.now < length text.now) }
{
    let text = without_blanks_before(text);
    if text.len() < 2 {
        return None;
    }
    Some((16 * digit(text[0]) + digit(text[1]), &text[2..]))
}

/// Returns the value of a digit of either case; 0 of another byte.
pub(crate) fn digit(byte: u8) -> u8
    ensures bound { result < 16 }
    ensures value { IsTrue (is_ascii_hexdigit byte) → result ≡ digit_value byte }
{
    match byte {
        b'0'..=b'9' => byte - b'0',
        b'A'..=b'F' => byte - b'A' + 10,
        b'a'..=b'f' => byte - b'a' + 10,
        _ => 0,
    }
}

/// Returns the text from its first byte on that isn't blank.
pub(crate) fn without_blanks_before(text: &[u8]) -> &[u8]
    ensures size { length result.now ≤ length text.now }
    ensures same { Continues text.now [] result.now }
{
    for place in 0..text.len() {
        if !is_blank(text[place]) {
            return after(text, place);
        }
    }
    &[]
}

/// Returns whether the text says bytes.
fn says_bytes(text: &[u8]) -> bool {
    let mut rest = without_blanks_before(text);
    while !rest.is_empty() {
        if !begins_with_byte(rest) {
            return false;
        }
        rest = without_blanks_before(&rest[2..]);
    }
    true
}

/// Returns whether two digits are at the front.
pub(crate) fn begins_with_byte(text: &[u8]) -> bool
    ensures size { IsTrue result → 1 < length text.now }
    ensures digits { IsTrue result → IsTrue (is_ascii_hexdigit (slice_index text.now 0))
        × IsTrue (is_ascii_hexdigit (slice_index text.now 1)) }
{
    text.len() > 1 && text[0].is_ascii_hexdigit() && text[1].is_ascii_hexdigit()
}

/// Returns whether the byte is a space, a tab or a carriage return.
pub(crate) fn is_blank(byte: u8) -> bool
    ensures { result ≡ is_blank byte }
{
    matches!(byte, b' ' | b'\t' | b'\r')
}
