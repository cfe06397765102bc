//! The times of a log, whose lines have no date, on one clock.

ghost use Rattle.std.specs.Prelude.{◌<◌, IfSome};

use crate::text::clock::SECOND;
use dump_capture::stamp::Stamp;

/// Nanoseconds of a minute.
const MINUTE: u64 = 60 * SECOND;

/// Nanoseconds of a day.
pub const DAY: u64 = 86_400 * SECOND;

/// The days before each month of a leap year.
const DAYS_BEFORE: [u64; 12] = [0, 31, 60, 91, 121, 152, 182, 213, 244, 274, 305, 335];

/// Which times the packets of a log have.
#[derive(Clone, Copy, PartialEq, Eq)]
enum LogTimes {
    /// Dates and times.
    Stamps,
    /// Times of day.
    Days,
}

/// Puts the times of a log in one order. A time that goes back is known only where it is known by
/// how much: past midnight, and past the end of a year. By default it has read no time.
#[derive(Clone, Copy, Default)]
pub struct LogClock {
    times: Option<LogTimes>,
    last: u64,
    /// What is added to the times of days that passed.
    before: u64,
    /// Some time had hours or minutes.
    has_minutes: bool,
    /// Minutes passed that no time says.
    is_lost: bool,
}

impl LogClock {
    /// Reads the next time of a log, as its line says it, and the date and time of the logger, if
    /// it has them. Returns nanoseconds since a midnight before the first one; `None` where it
    /// isn't known how long after the first one it is.
    pub fn read(&mut self, time: &[u8], stamp: Option<Stamp>) -> Option<u64> {
        let (times, nanoseconds, period) = match stamp {
            Some(stamp) => (LogTimes::Stamps, of_stamp(stamp), 366 * DAY),
            None => (LogTimes::Days, of_day(time)?, DAY),
        };
        let first = self.times.is_none();
        if first {
            self.times = Some(times);
        }
        if self.times != Some(times) {
            return None;
        }
        self.has_minutes |= times == LogTimes::Stamps || nanoseconds >= MINUTE;
        let is_back = !first && nanoseconds < self.last;
        if is_back && !self.has_minutes {
            self.is_lost = true;
        } else if is_back && self.last - nanoseconds > period / 2 {
            self.before = self.before.saturating_add(period);
        }
        self.last = nanoseconds;
        if self.is_lost {
            None
        } else {
            self.before.checked_add(nanoseconds)
        }
    }
}

/// Returns the nanoseconds since the first of January. Each February has a leap day.
fn of_stamp(stamp: Stamp) -> u64 {
    let days = match DAYS_BEFORE.get((stamp.month as usize).saturating_sub(1)) {
        Some(days) => *days + stamp.day as u64,
        None => 0,
    };
    let minutes = (days * 24 + stamp.hour as u64) * 60 + stamp.minute as u64;
    let seconds = minutes * 60 + stamp.second as u64;
    seconds * SECOND + stamp.microseconds as u64 * 1_000
}

/// Returns the nanoseconds since midnight of a time of day: hours, minutes and seconds with a
/// fraction, as `12:34:56.789`.
fn of_day(text: &[u8]) -> Option<u64> {
    let Ok(text) = str::from_utf8(text) else {
        return None;
    };
    let (hours, rest) = text.split_once(":")?;
    let (minutes, rest) = rest.split_once(":")?;
    let (seconds, fraction) = match rest.split_once(".") {
        Some(parts) => parts,
        None => (rest, ""),
    };
    let whole = (below_100(hours)? * 60 + below_100(minutes)?) * 60 + below_100(seconds)?;
    Some((whole * SECOND).saturating_add(fraction_of(fraction.as_bytes())?))
}

/// Returns a number below 100.
fn below_100(text: &str) -> Option<u64>
    ensures { IfSome result (λ n. n < 100) }
{
    match text.parse::<u64>() {
        Ok(number) if number < 100 => Some(number),
        _ => None,
    }
}

/// Returns the nanoseconds of a fraction's digits.
pub fn fraction_of(digits: &[u8]) -> Option<u64> {
    let mut unit = SECOND;
    let mut nanoseconds: u64 = 0;
    for digit in digits {
        match digit {
            b'0'..=b'9' => {
                unit /= 10;
                let value = ((*digit - b'0') as u64).saturating_mul(unit);
                nanoseconds = nanoseconds.saturating_add(value);
            }
            _ => return None,
        }
    }
    Some(nanoseconds)
}
