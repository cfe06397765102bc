//! A text of the peer, printed.

ghost use Rattle.std.specs.Prelude.{◌≡◌, Some, ◌<◌, ◌≤◌, ◌+◌, ◌++◌, ◌∷◌, [], length, min, take, drop, true, false, IsUtf8};
ghost use Rattle.std.specs.Fmt.{WritesOnOk};
ghost use Rattle.dcsctp_report.specs.Printed.{escape, is_blank, is_hidden, is_ignored, is_character, is_shown, printed, shown_size, size_from};

use crate::hexadecimal::{digit, write_text};
use std::fmt;

/// The most bytes of a character after its first.
const MOST_CONTINUATIONS: usize = 3;

/// The bytes that are written at once.
const BLOCK: usize = 128;

/// The most bytes that are printed of a character that is shown, and those of an escape.
const MOST_PRINTED: usize = 4;

/// A text between quotation marks. What isn't UTF-8 is escaped, and so are quotation marks,
/// backslashes, control characters, and characters that `is_hidden` names.
#[derive(Clone, Copy)]
pub struct Quoted<'a>(pub &'a [u8]);

impl<'a> fmt::Display for Quoted<'a> {
    ghost output = { λ t. Some (34 ∷ (printed false t.0.now ++ 34 ∷ [])) };

    fn fmt<W: fmt::Write>(&self, f: &mut fmt::Formatter<W>) -> fmt::Result {
        f.write_str("\"")?;
        write_printed(self.0, false, f)?;
        f.write_str("\"")
    }
}

/// A text as it stands between quotation marks, without these: the name of a file.
#[derive(Clone, Copy)]
pub struct Unquoted<'a>(pub &'a [u8]);

impl<'a> fmt::Display for Unquoted<'a> {
    ghost output = { λ t. Some (printed false t.0.now) };

    fn fmt<W: fmt::Write>(&self, f: &mut fmt::Formatter<W>) -> fmt::Result {
        write_printed(self.0, false, f)
    }
}

/// A text as one word: what isn't printable ASCII is escaped, and so are quotation marks,
/// backslashes and blanks.
#[derive(Clone, Copy)]
pub struct OneWord<'a>(pub &'a [u8]);

impl<'a> fmt::Display for OneWord<'a> {
    ghost output = { λ t. Some (printed true t.0.now) };

    fn fmt<W: fmt::Write>(&self, f: &mut fmt::Formatter<W>) -> fmt::Result {
        write_printed(self.0, true, f)
    }
}

/// Writes the characters that are shown, and the escapes of all other bytes, in blocks.
fn write_printed<W: fmt::Write>(
    bytes: &[u8],
    is_word: bool,
    f: &mut fmt::Formatter<W>,
) -> fmt::Result
    ensures { WritesOnOk W.write_str_gives f.old result (printed is_word bytes.now) f.new }
{
    let mut block = [b' '; BLOCK];
    let mut rest = bytes;
    while !rest.is_empty() {
        let (taken, filled) = fill_block(rest, is_word, &mut block);
        write_text(&block[..filled], f)?;
        rest = &rest[taken..];
    }
    Ok(())
}

/// Puts into a block what is printed of the bytes at the front, of as many as there is room for.
/// Returns how many these are, and the size of what is printed of them.
fn fill_block(bytes: &[u8], is_word: bool, block: &mut [u8]) -> (usize, usize)
    requires some { 0 < length bytes.now }
    requires room { length block.old ≡ BLOCK }
    ensures text { take result.1 block.new ++ printed is_word (drop result.0 bytes.now)
        ≡ printed is_word bytes.now }
    ensures utf8 { IsUtf8 (take result.1 block.new) }
    ensures taken { 0 < result.0 × (result.0 ≤ length bytes.now) }
    ensures filled { result.1 ≤ BLOCK }
    ensures size { length block.new ≡ BLOCK }
{
    let mut at = 0;
    let mut filled = 0;
    while at < bytes.len() && filled + MOST_PRINTED <= block.len() {
        let size = shown_size(&bytes[at..], is_word);
        if size > 0 {
            put_character(&bytes[at..at + size], filled, block);
            at += size;
            filled += size;
        } else {
            put_escape(bytes[at], filled, block);
            at += 1;
            filled += MOST_PRINTED;
        }
    }
    (at, filled)
}

/// Puts a character's bytes at a place.
#[inline(always)]
fn put_character(character: &[u8], place: usize, text: &mut [u8])
    requires { place + length character.now ≤ length text.old }
    ensures front { take (place + length character.now) text.new
        ≡ take place text.old ++ character.now }
    ensures size { length text.new ≡ length text.old }
{
    // Most characters are one byte.
    if character.len() == 1 {
        text[place] = character[0];
    } else {
        text[place..place + character.len()].copy_from_slice(character);
    }
}

/// Puts a byte's escape at a place.
#[inline(always)]
fn put_escape(byte: u8, place: usize, text: &mut [u8])
    requires { place + MOST_PRINTED ≤ length text.old }
    ensures front { take (place + MOST_PRINTED) text.new ≡ take place text.old ++ escape byte }
    ensures utf8 { IsUtf8 (escape byte) }
    ensures size { length text.new ≡ length text.old }
{
    text[place] = b'\\';
    text[place + 1] = b'x';
    text[place + 2] = digit(byte / 16);
    text[place + 3] = digit(byte % 16);
}

/// Returns the size of the character at the front, if it is shown, or else 0.
fn shown_size(bytes: &[u8], is_word: bool) -> usize
    requires { 0 < length bytes.now }
    ensures value { result ≡ shown_size is_word bytes.now }
    ensures within { result ≤ length bytes.now }
    ensures most { result ≤ MOST_PRINTED }
{
    let size = size_from(bytes[0]);
    if size <= bytes.len() && is_character(&bytes[..size], is_word) {
        size
    } else {
        0
    }
}

/// Returns the size of a character that begins with this byte.
fn size_from(byte: u8) -> usize
    ensures value { result ≡ size_from byte }
    ensures most { result ≤ MOST_PRINTED }
{
    match byte {
        0..0x80 => 1,
        0x80..0xe0 => 2,
        0xe0..0xf0 => 3,
        _ => 4,
    }
}

/// Returns whether bytes are a character that is shown.
fn is_character(bytes: &[u8], is_word: bool) -> bool
    ensures { result ≡ is_character is_word bytes.now }
{
    // Most characters are one byte of ASCII, whose UTF-8 needn't be tested.
    if bytes.len() == 1 && bytes[0] < 0x80 {
        return is_shown(char::from(bytes[0]), is_word);
    }
    if begins_none(bytes) {
        return false;
    }
    match str::from_utf8(bytes) {
        Ok(text) => match text.chars().next() {
            Some(character) => is_shown(character, is_word),
            None => is_shown('\0', is_word),
        },
        Err(_) => false,
    }
}

/// Returns whether the first two of several bytes show that these are no UTF-8: the first isn't
/// ASCII, and begins no character, or the second doesn't go on with it.
#[inline(always)]
#[tactic(auto, using(crate::proofs::Leads::goes_on))]
fn begins_none(bytes: &[u8]) -> bool
    ensures { result ≡ true → IsUtf8 bytes.now → ⊥ }
{
    if bytes.len() < 2 || bytes[0] < 0x80 {
        return false;
    }
    bytes[0] < 0xc0 || bytes[1] < 0x80 || bytes[1] >= 0xc0
}

/// Returns whether a character is printed as itself.
fn is_shown(character: char, is_word: bool) -> bool
    ensures { result ≡ is_shown is_word character }
{
    match character {
        '!'..='~' => character != '"' && character != '\\',
        _ if is_word => false,
        ' ' => true,
        _ => character >= '\u{a0}' && !is_hidden(character),
    }
}

/// Returns whether a character isn't seen, as a control of the direction of text.
fn is_hidden(character: char) -> bool
    ensures { result ≡ is_hidden character }
{
    is_blank(character) || is_ignored(character)
}

/// Returns whether a character is a blank other than U+0020, or ends a line or a paragraph.
#[tactic(auto, unfolding(crate::specs::Printed::is_blank))]
fn is_blank(character: char) -> bool
    ensures { result ≡ is_blank character }
{
    matches!(
        character,
        '\u{a0}'
            | '\u{1680}'
            | '\u{2000}'..='\u{200a}'
            | '\u{2028}'..='\u{2029}'
            | '\u{202f}'
            | '\u{205f}'
            | '\u{2800}'
            | '\u{3000}'
    )
}

/// Returns whether a character is one that isn't shown by itself.
#[tactic(auto, unfolding(crate::specs::Printed::is_ignored))]
fn is_ignored(character: char) -> bool
    ensures { result ≡ is_ignored character }
{
    matches!(
        character,
        '\u{ad}'
            | '\u{34f}'
            | '\u{61c}'
            | '\u{115f}'..='\u{1160}'
            | '\u{17b4}'..='\u{17b5}'
            | '\u{180b}'..='\u{180f}'
            | '\u{200b}'..='\u{200f}'
            | '\u{202a}'..='\u{202e}'
            | '\u{2060}'..='\u{206f}'
            | '\u{3164}'
            | '\u{fe00}'..='\u{fe0f}'
            | '\u{feff}'
            | '\u{ffa0}'
            | '\u{fff0}'..='\u{fffb}'
            | '\u{1bca0}'..='\u{1bca3}'
            | '\u{1d173}'..='\u{1d17a}'
            | '\u{e0000}'..
    )
}

/// Returns the front of a text, of at most `most` bytes, without a character that goes on after
/// it.
pub fn text_front(text: &[u8], most: usize) -> &[u8]
    ensures front { result.now ≡ take (length result.now) text.now }
    ensures size { length result.now ≤ most }
    ensures whole { length text.now ≤ most → length result.now ≡ length text.now }
    ensures dropped { min most (length text.now) ≤ length result.now + MOST_CONTINUATIONS }
{
    let mut end = most.min(text.len());
    for _dropped in 0..MOST_CONTINUATIONS {
        if end < text.len() && (0x80..0xc0).contains(&text[end]) {
            end = end.saturating_sub(1);
        }
    }
    &text[..end]
}
