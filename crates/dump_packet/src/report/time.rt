//! Times, as text.

ghost use Rattle.std.specs.Prelude.{◌≡◌, ◌+◌, ◌-◌, ◌/◌, ◌^◌, ◌<◌, ◌≤◌};
ghost use Rattle.dump_packet.specs.Calendar.{is_leap_year, days_of_year, days_of_month, days_of_years, days_of_months, IsDate};

use std::fmt;

/// How many nanoseconds a second has.
const SECOND: u64 = 1_000_000_000;

/// How many seconds a day has.
const DAY: u64 = 86_400;

/// How many days there are from 1970-01-01 to 2000-01-01.
const BEFORE_2000: u64 = 10_957;

/// How a time is written.
#[derive(Clone, Copy)]
pub enum TimeForm {
    /// Seconds since 1970-01-01 00:00:00 UTC, as `1718195696.000120`.
    Seconds,
    /// Date and time of day in UTC (RFC 3339), as `2024-06-12T12:34:56.000120Z`.
    Iso,
    /// Time of day in UTC, as `12:34:56.000120`.
    Utc,
    /// Seconds since this time, given in nanoseconds since 1970-01-01 00:00:00 UTC, as `1.000120`;
    /// of an earlier one as `-1.000120`.
    Relative(u64),
}

/// How the times of a capture are written.
#[derive(Clone, Copy)]
pub struct TimeStyle {
    /// The form of a time.
    pub form: TimeForm,
    /// How many digits of a second's fraction are written, as of `TimeReport`.
    pub digits: u8,
}

impl TimeStyle {
    /// Returns a time, given in nanoseconds since 1970-01-01 00:00:00 UTC.
    pub fn time(self, nanoseconds: u64) -> TimeReport {
        TimeReport {
            nanoseconds,
            digits: self.digits,
            form: self.form,
        }
    }

    /// Returns a span of time, given in nanoseconds.
    pub fn seconds(self, nanoseconds: u64) -> SecondsReport {
        SecondsReport {
            nanoseconds,
            digits: self.digits,
        }
    }
}

/// A time, as text.
#[derive(Clone, Copy)]
pub struct TimeReport {
    /// Nanoseconds since 1970-01-01 00:00:00 UTC.
    pub nanoseconds: u64,
    /// How many digits of the fraction are written: 0, 3, 6 or 9; another number means the next
    /// of these.
    pub digits: u8,
    /// How it is written.
    pub form: TimeForm,
}

impl fmt::Display for TimeReport {
    fn fmt<W: fmt::Write>(&self, f: &mut fmt::Formatter<W>) -> fmt::Result {
        let seconds = self.nanoseconds / SECOND;
        let fraction = self.nanoseconds % SECOND;
        match self.form {
            TimeForm::Seconds => {
                write!(f, "{seconds}")?;
                write_fraction(fraction, self.digits, f)
            }
            TimeForm::Iso => {
                write_date(seconds, f)?;
                f.write_str("T")?;
                write_clock(seconds % DAY, f)?;
                write_fraction(fraction, self.digits, f)?;
                f.write_str("Z")
            }
            TimeForm::Utc => {
                write_clock(seconds % DAY, f)?;
                write_fraction(fraction, self.digits, f)
            }
            TimeForm::Relative(since) => {
                if self.nanoseconds < since {
                    f.write_str("-")?;
                }
                let nanoseconds = self.nanoseconds.abs_diff(since);
                let seconds = SecondsReport {
                    nanoseconds,
                    digits: self.digits,
                };
                write!(f, "{seconds}")
            }
        }
    }
}

/// A time as a value of JSON: a number of seconds; a string where it is a date or a time of day.
#[derive(Clone, Copy)]
pub struct TimeJson(pub TimeReport);

impl fmt::Display for TimeJson {
    fn fmt<W: fmt::Write>(&self, f: &mut fmt::Formatter<W>) -> fmt::Result {
        let time = self.0;
        match time.form {
            TimeForm::Seconds | TimeForm::Relative(_) => write!(f, "{time}"),
            TimeForm::Iso | TimeForm::Utc => write!(f, "\"{time}\""),
        }
    }
}

/// A span of time in seconds, as `0.000210`.
#[derive(Clone, Copy)]
pub struct SecondsReport {
    /// Nanoseconds.
    pub nanoseconds: u64,
    /// How many digits of the fraction are written, as of `TimeReport`.
    pub digits: u8,
}

impl fmt::Display for SecondsReport {
    fn fmt<W: fmt::Write>(&self, f: &mut fmt::Formatter<W>) -> fmt::Result {
        let seconds = self.nanoseconds / SECOND;
        write!(f, "{seconds}")?;
        write_fraction(self.nanoseconds % SECOND, self.digits, f)
    }
}

/// Writes a part of a second, given in nanoseconds.
fn write_fraction<W: fmt::Write>(
    nanoseconds: u64,
    digits: u8,
    f: &mut fmt::Formatter<W>,
) -> fmt::Result {
    match digits {
        0 => Ok(()),
        1..=3 => {
            let fraction = nanoseconds / 1_000_000;
            write!(f, ".{fraction:03}")
        }
        4..=6 => {
            let fraction = nanoseconds / 1_000;
            write!(f, ".{fraction:06}")
        }
        _ => write!(f, ".{nanoseconds:09}"),
    }
}

/// Writes a time of day, given in seconds.
fn write_clock<W: fmt::Write>(seconds: u64, f: &mut fmt::Formatter<W>) -> fmt::Result {
    let (hour, minute, second) = (seconds / 3_600, seconds / 60 % 60, seconds % 60);
    write!(f, "{hour:02}:{minute:02}:{second:02}")
}

/// Writes the date of a time, given in seconds since 1970-01-01.
fn write_date<W: fmt::Write>(seconds: u64, f: &mut fmt::Formatter<W>) -> fmt::Result {
    let (year, month, day) = date(seconds);
    write!(f, "{year:04}-{month:02}-{day:02}")
}

/// Returns year, month and day of a time of the Gregorian calendar, given in seconds since
/// 1970-01-01.
fn date(seconds: u64) -> (u64, u64, u64)
    ensures { IsDate (seconds / 86400) result.0 result.1 result.2 }
{
    let (year, rest) = year_of(seconds / DAY);
    let (month, rest) = month_of(year, rest);
    (year, month, rest + 1)
}

/// Returns the year of a day, given in days since 1970-01-01, and how many days of it passed.
fn year_of(days: u64) -> (u64, u64)
    requires { days < 2 ^ 63 }
    ensures from { 1970 ≤ result.0 }
    ensures rest { result.1 < days_of_year result.0 }
    ensures is { days ≡ days_of_years (result.0 - 1970) + result.1 }
{
    let (mut year, mut rest) = (1970, days);
    if days >= BEFORE_2000 {
        (year, rest) = (2000, days - BEFORE_2000);
    }
    let mut length = length_of_year(year);
    while rest >= length {
        rest -= length;
        year += 1;
        length = length_of_year(year);
    }
    (year, rest)
}

/// Returns the month of a day, given in days that passed of the year, and how many days of it
/// passed.
fn month_of(year: u64, days: u64) -> (u64, u64)
    requires { days < days_of_year year }
    ensures month { (1 ≤ result.0) × (result.0 ≤ 12) }
    ensures rest { result.1 < days_of_month year result.0 }
    ensures is { days ≡ days_of_months year (result.0 - 1) + result.1 }
{
    let (mut month, mut rest) = (1, days);
    let mut length = length_of_month(year, month);
    while rest >= length {
        rest -= length;
        month += 1;
        length = length_of_month(year, month);
    }
    (month, rest)
}

/// Returns how many days there are from 1970-01-01 to a date of the Gregorian calendar; `None` if
/// there is no such date from then on up to 9999-12-31.
pub fn days_before(year: u64, month: u64, day: u64) -> Option<u64> {
    if !(1970..=9999).contains(&year) || !(1..=12).contains(&month) {
        return None;
    }
    if day < 1 || length_of_month(year, month) < day {
        return None;
    }
    let mut days = day - 1;
    for earlier in 1970..year {
        days = days.saturating_add(length_of_year(earlier));
    }
    for earlier in 1..month {
        days = days.saturating_add(length_of_month(year, earlier));
    }
    Some(days)
}

/// Returns whether a year has a 29 February.
fn has_leap_day(year: u64) -> bool
    ensures { result ≡ is_leap_year year }
{
    year % 4 == 0 && (year % 100 != 0 || year % 400 == 0)
}

fn length_of_year(year: u64) -> u64
    ensures { result ≡ days_of_year year }
{
    if has_leap_day(year) { 366 } else { 365 }
}

fn length_of_month(year: u64, month: u64) -> u64
    ensures { result ≡ days_of_month year month }
{
    match month {
        2 => if has_leap_day(year) { 29 } else { 28 },
        4 | 6 | 9 | 11 => 30,
        _ => 31,
    }
}
