//! When packets were seen: on one clock, and as text.

ghost use Rattle.std.specs.Prelude.{◌≡◌, ◌<◌, ◌≤◌, ◌*◌, ◌/◌, ◌^◌};
ghost use Rattle.dump_command.specs.Times.{units, fitting, later, IsRead, direction_in};

use crate::options::TimeOption;
use crate::text::log_clock::LogClock;
use dump_capture::event::{Seen, Time};
use dump_capture::line::Direction;
use dump_capture::pcap::Resolution;
use dump_packet::{Arrival, ReportWriter, TimeForm, TimeReport, TimeStyle};
use std::fmt;

/// Nanoseconds of a second.
pub const SECOND: u64 = 1_000_000_000;

/// The most digits of a second's fraction that are written.
const MOST_DIGITS: u8 = 19;

/// What times are printed from.
#[derive(Clone, Copy)]
pub struct Clock {
    form: TimeOption,
    // Of the first packet, or of the one that was printed before.
    since: Option<u64>,
    // Of the first packet whose time is known.
    first: Option<u64>,
    log: LogClock,
    // A log's times of day were seen: those of associations are printed so.
    is_log: bool,
}

impl Clock {
    /// Returns a clock that has seen no packet.
    pub fn new(form: TimeOption) -> Clock {
        Clock {
            form,
            since: None,
            first: None,
            log: LogClock::default(),
            is_log: false,
        }
    }

    /// Reads the time of the next packet: nanoseconds since 1970-01-01 00:00:00 UTC, or of a log
    /// since a midnight before its first packet; `None` where that isn't known, or isn't below
    /// 2^64.
    pub fn read(&mut self, time: &Time<'_>) -> Option<u64>
        ensures { IsRead time.now result }
    {
        match time {
            Time::Unknown => None,
            Time::Stamp {
                seconds,
                fraction,
                resolution,
            } => {
                let unit = match resolution {
                    Resolution::Microseconds => 1_000,
                    Resolution::Nanoseconds => 1,
                };
                Some(*seconds as u64 * SECOND + *fraction as u64 * unit)
            }
            Time::Ticks {
                ticks,
                resolution,
                offset,
            } => later(of_ticks(*ticks, *resolution)?, *offset),
            Time::OfDay { time, stamp, .. } => {
                self.is_log = true;
                self.log.read(time.as_bytes(), *stamp)
            }
        }
    }

    /// Returns when a packet was seen, whose time was read as these nanoseconds.
    pub fn arrival_of(&mut self, seen: &Seen<'_>, nanoseconds: Option<u64>) -> Arrival {
        self.first = self.first.or(nanoseconds);
        Arrival {
            number: seen.number,
            time: nanoseconds,
            first: self.first,
            has_date: !matches!(seen.time, Time::OfDay { .. }),
            direction: direction_of(&seen.time),
        }
    }

    /// Notes a packet at this time, in nanoseconds, and returns from when on its time is printed.
    pub fn see(&mut self, nanoseconds: Option<u64>, is_printed: bool) -> Option<u64> {
        let since = self.since.or(nanoseconds);
        match self.form {
            TimeOption::Delta if !is_printed => {}
            TimeOption::Delta => self.since = nanoseconds.or(self.since),
            _ => self.since = since,
        }
        since
    }

    /// Returns how the times of associations, messages and channels are printed: those from the
    /// packet before on are as the capture has them.
    pub fn style(&self) -> TimeStyle {
        let form = match (self.form, self.first) {
            (TimeOption::Relative, Some(first)) => TimeForm::Relative(first),
            _ if self.is_log => TimeForm::Utc,
            (TimeOption::Iso, _) => TimeForm::Iso,
            (TimeOption::Utc, _) => TimeForm::Utc,
            _ => TimeForm::Seconds,
        };
        TimeStyle { form, digits: 6 }
    }

    /// Returns a time as it is printed, from this one on.
    pub fn when<'a>(
        &self,
        time: &'a Time<'a>,
        nanoseconds: Option<u64>,
        since: Option<u64>,
    ) -> When<'a> {
        When {
            time,
            nanoseconds,
            form: self.form,
            since,
        }
    }
}

/// A time, as it is asked for.
#[derive(Clone, Copy)]
pub struct When<'a> {
    time: &'a Time<'a>,
    nanoseconds: Option<u64>,
    form: TimeOption,
    since: Option<u64>,
}

impl<'a> When<'a> {
    /// Returns whether it is known as it is asked for.
    pub fn is_known(&self) -> bool {
        match self.form {
            TimeOption::Relative | TimeOption::Delta => self.difference().is_some(),
            _ => !matches!(self.time, Time::Unknown),
        }
    }

    /// Writes it, if it is known: in JSON a number of seconds, or a string where a date or a time of
    /// day is asked for.
    pub fn write(&self, out: &mut ReportWriter<'_, '_>) {
        let when = *self;
        match (self.form, self.time) {
            _ if !self.is_known() => {}
            (TimeOption::Iso | TimeOption::Utc, _) => out.word(", time ", "time", when),
            (TimeOption::Captured, Time::OfDay { .. }) => {
                write!(out, ", time {when}");
                if let Some(seconds) = self.in_form(TimeForm::Seconds) {
                    out.json("time", seconds);
                }
            }
            _ => out.value(", time ", "time", when),
        }
    }

    /// Returns which way the packet went, if a log says it.
    pub fn direction(&self) -> Option<Direction> {
        direction_of(self.time)
    }

    /// Returns the name of the transport whose packet it is, if a log says it; else nothing.
    pub fn transport(&self) -> &'a [u8] {
        transport_of(self.time)
    }

    /// Returns it in this form, with as many digits of the fraction as the capture has.
    fn in_form(&self, form: TimeForm) -> Option<TimeReport> {
        Some(TimeReport {
            nanoseconds: self.nanoseconds?,
            digits: digits_of(self.time),
            form,
        })
    }

    /// Returns it as the time from another one on, with more digits where another part of it has
    /// more.
    fn difference(&self) -> Option<TimeReport> {
        let since = self.since?;
        let report = self.in_form(TimeForm::Relative(since))?;
        let nanoseconds = report.nanoseconds.abs_diff(since);
        let digits = if nanoseconds.is_multiple_of(1_000_000) {
            digits_of(self.time)
        } else if nanoseconds.is_multiple_of(1_000) {
            digits_of(self.time).max(6)
        } else {
            9
        };
        Some(TimeReport { digits, ..report })
    }

    /// Returns it as it is asked for; `None` if its text is made of what the capture has: the time of
    /// day of a log, whose date isn't known, or units of pcapng.
    fn report(&self) -> Option<TimeReport> {
        match (self.form, self.time) {
            (TimeOption::Relative | TimeOption::Delta, _) => self.difference(),
            (TimeOption::Captured, Time::Stamp { .. }) => self.in_form(TimeForm::Seconds),
            (TimeOption::Captured, _) | (_, Time::OfDay { .. }) => None,
            (TimeOption::Iso, _) => self.in_form(TimeForm::Iso),
            (TimeOption::Utc, _) => self.in_form(TimeForm::Utc),
        }
    }
}

impl<'a> fmt::Display for When<'a> {
    fn fmt<W: fmt::Write>(&self, f: &mut fmt::Formatter<W>) -> fmt::Result {
        match self.report() {
            Some(report) => write!(f, "{report}"),
            None => write_captured(self.time, f),
        }
    }
}

/// Returns the name of the transport of a packet of a log; empty of other packets.
pub fn transport_of<'a>(time: &Time<'a>) -> &'a [u8] {
    match time {
        Time::OfDay { transport, .. } => transport.as_bytes(),
        _ => b"",
    }
}

/// Returns which way a packet went, if a log says it.
pub fn direction_of(time: &Time<'_>) -> Option<Direction>
    ensures { result ≡ direction_in time.now }
{
    match time {
        Time::OfDay { direction, .. } => Some(*direction),
        _ => None,
    }
}

/// Returns the nanoseconds of units of pcapng.
fn of_ticks(ticks: u64, resolution: u8) -> Option<u64>
    ensures { result ≡ fitting (ticks * 1000000000 / units resolution) }
{
    match resolution {
        0..=9 => ticks.checked_mul(power_of_ten(9 - resolution)),
        10..=28 => Some(ticks / power_of_ten(resolution - 9)),
        // 2^64 units are less than a nanosecond
        29..=127 => Some(0),
        _ => {
            let nanoseconds = (ticks as u128 * SECOND as u128) >> (resolution - 128);
            u64::try_from(nanoseconds).ok()
        }
    }
}

/// Returns a time that is later by a number of seconds, or earlier.
fn later(nanoseconds: u64, seconds: i64) -> Option<u64>
    ensures { result ≡ later nanoseconds seconds }
{
    let offset = seconds.unsigned_abs().checked_mul(SECOND)?;
    if seconds < 0 {
        nanoseconds.checked_sub(offset)
    } else {
        nanoseconds.checked_add(offset)
    }
}

/// Returns 10^n.
fn power_of_ten(n: u8) -> u64
    requires { n ≤ 19 }
    ensures value { result ≡ 10 ^ n }
    ensures positive { 1 ≤ result }
{
    10_u64.pow(u32::from(n))
}

/// Returns how many digits of a second's fraction are written in UTC and in differences: 3, 6 or 9.
fn digits_of(time: &Time<'_>) -> u8 {
    match time {
        Time::Stamp { resolution, .. } => match resolution {
            Resolution::Microseconds => 6,
            Resolution::Nanoseconds => 9,
        },
        Time::Ticks { resolution, .. } => match resolution {
            0..=3 => 3,
            4..=6 => 6,
            _ => 9,
        },
        Time::OfDay { stamp, .. } => if stamp.is_some() { 6 } else { 3 },
        Time::Unknown => 3,
    }
}

/// Writes a time of pcapng in seconds since 1970-01-01 00:00:00 UTC, with as many digits of the
/// fraction as its unit needs; of a log its time of day.
fn write_captured<W: fmt::Write>(time: &Time<'_>, f: &mut fmt::Formatter<W>) -> fmt::Result {
    match time {
        Time::Unknown | Time::Stamp { .. } => Ok(()),
        Time::Ticks {
            ticks,
            resolution,
            offset,
        } => match resolution {
            0..=127 => {
                let excess = resolution.saturating_sub(MOST_DIGITS);
                let units = if excess > MOST_DIGITS {
                    0
                } else {
                    *ticks / power_of_ten(excess)
                };
                write_units(units, (*resolution).min(MOST_DIGITS), *offset, f)
            }
            _ => write_binary(*ticks, *resolution, *offset, f),
        },
        Time::OfDay { time, stamp, .. } => match stamp {
            Some(stamp) => {
                let (hour, minute, second) = (stamp.hour, stamp.minute, stamp.second);
                let microseconds = stamp.microseconds;
                write!(f, "{hour:02}:{minute:02}:{second:02}.{microseconds:06}")
            }
            None => {
                for byte in time.as_bytes() {
                    f.write_char(char::from(*byte))?;
                }
                Ok(())
            }
        },
    }
}

/// Writes units of 2^-(resolution - 128) of a second, later by a number of seconds, in nanoseconds.
fn write_binary<W: fmt::Write>(
    ticks: u64,
    resolution: u8,
    offset: i64,
    f: &mut fmt::Formatter<W>,
) -> fmt::Result
    requires { 128 ≤ resolution }
{
    let shift = (resolution - 128).min(127);
    let seconds = (ticks as u128 >> shift) as u64;
    let rest = ticks as u128 - ((seconds as u128) << shift);
    let nanoseconds = ((rest * SECOND as u128) >> shift) as u64;
    write_seconds(seconds, nanoseconds, 9, offset, f)
}

/// Writes units of 10^-digits of a second, later by a number of seconds.
fn write_units<W: fmt::Write>(
    units: u64,
    digits: u8,
    offset: i64,
    f: &mut fmt::Formatter<W>,
) -> fmt::Result
    requires { digits ≤ 19 }
{
    let unit = power_of_ten(digits);
    write_seconds(units / unit, units % unit, digits, offset, f)
}

/// Writes seconds and a fraction of a number of digits, later by a number of seconds; a time before
/// 1970 with a minus sign.
fn write_seconds<W: fmt::Write>(
    seconds: u64,
    fraction: u64,
    digits: u8,
    offset: i64,
    f: &mut fmt::Formatter<W>,
) -> fmt::Result
    requires { digits ≤ 19 }
{
    let by = offset.unsigned_abs();
    if offset >= 0 {
        return write_number(seconds.saturating_add(by), fraction, digits, f);
    }
    if by <= seconds {
        return write_number(seconds - by, fraction, digits, f);
    }
    f.write_str("-")?;
    if fraction == 0 {
        write_number(by - seconds, 0, digits, f)
    } else {
        let rest = power_of_ten(digits).saturating_sub(fraction);
        write_number(by - seconds - 1, rest, digits, f)
    }
}

/// Writes a number with a number of digits after the point, and one at least.
fn write_number<W: fmt::Write>(
    whole: u64,
    fraction: u64,
    digits: u8,
    f: &mut fmt::Formatter<W>,
) -> fmt::Result
    requires { digits ≤ 19 }
{
    match digits {
        0 => write!(f, "{whole}.0"),
        6 => write!(f, "{whole}.{fraction:06}"),
        9 => write!(f, "{whole}.{fraction:09}"),
        _ => {
            write!(f, "{whole}.")?;
            for place in (0..digits).rev() {
                let digit = fraction / power_of_ten(place) % 10;
                write!(f, "{digit}")?;
            }
            Ok(())
        }
    }
}
