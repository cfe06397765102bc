//! The date and time that Chromium writes before a line of its log.

ghost use Rattle.std.specs.Prelude.{◌≤◌, ◌<◌, IfSome, IsTrue, length};
ghost use Rattle.dump_capture.specs.Stamp.{IsInRange};

use crate::parts::after;

/// A date without its year, and a time of day.
#[derive(Clone, Copy, Debug)]
pub struct Stamp {
    /// From 1 to 12.
    pub month: u8,
    /// From 1 to 31.
    pub day: u8,
    /// From 0 to 23.
    pub hour: u8,
    /// From 0 to 59.
    pub minute: u8,
    /// From 0 to 60.
    pub second: u8,
    /// From 0 to 999,999.
    pub microseconds: u32,
}

/// Returns the date and time that a line begins with, as Chromium writes them in its log:
/// `[14413:14448:1127/055920.146599:`, whatever follows; nothing if it begins otherwise, or if a
/// number is out of its range.
pub fn read_stamp(line: &[u8]) -> Option<Stamp>
    ensures { IfSome result IsInRange }
{
    if !line.starts_with(b"[") {
        return None;
    }
    let process = after(line, 1);
    if !has_number(process) {
        return None;
    }
    let thread = past_number(process);
    if !has_number(thread) {
        return None;
    }
    stamp_in(past_number(thread))
}

/// Returns whether digits and a colon are at the front.
fn has_number(text: &[u8]) -> bool {
    let length = number_length(text);
    length > 0 && length < text.len() && text[length] == b':'
}

/// Returns what follows the digits at the front and the byte after them.
fn past_number(text: &[u8]) -> &[u8] {
    after(text, number_length(text) + 1)
}

/// Returns how many digits are at the front.
fn number_length(text: &[u8]) -> usize
    ensures { result ≤ length text.now }
{
    let digits = text.iter().position(|byte| !byte.is_ascii_digit());
    digits.unwrap_or(text.len())
}

/// Returns the date and time at the front, in the form `MMDD/HHMMSS.uuuuuu:`.
fn stamp_in(text: &[u8]) -> Option<Stamp>
    ensures { IfSome result IsInRange }
{
    if text.len() < 19 || text[4] != b'/' || text[11] != b'.' || text[18] != b':' {
        return None;
    }
    let month = two_digits(text, 0)?;
    let day = two_digits(text, 2)?;
    let hour = two_digits(text, 5)?;
    let minute = two_digits(text, 7)?;
    let second = two_digits(text, 9)?;
    let microseconds = 10_000 * two_digits(text, 12)? as u32
        + 100 * two_digits(text, 14)? as u32
        + two_digits(text, 16)? as u32;
    if !is_date(month, day) || !is_time(hour, minute, second) {
        return None;
    }
    Some(Stamp {
        month,
        day,
        hour,
        minute,
        second,
        microseconds,
    })
}

/// Returns the number that two digits at this offset say.
fn two_digits(text: &[u8], offset: usize) -> Option<u8>
    ensures { IfSome result (λ n. n < 100) }
{
    let text = after(text, offset);
    if text.len() < 2 || !text[0].is_ascii_digit() || !text[1].is_ascii_digit() {
        return None;
    }
    Some(10 * (text[0] - b'0') + (text[1] - b'0'))
}

/// Returns whether a month and a day can be.
fn is_date(month: u8, day: u8) -> bool
    ensures { IsTrue result → (1 ≤ month) × (month ≤ 12) × (1 ≤ day) × (day ≤ 31) }
{
    month >= 1 && month <= 12 && day >= 1 && day <= 31
}

/// Returns whether a time of day can be; a second of 60 is a leap second.
fn is_time(hour: u8, minute: u8, second: u8) -> bool
    ensures { IsTrue result → (hour ≤ 23) × (minute ≤ 59) × (second ≤ 60) }
{
    hour <= 23 && minute <= 59 && second <= 60
}
