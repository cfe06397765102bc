//! From or up to which packets are asked for, as `--from` and `--to` say it.

use crate::text::clock::SECOND;
use crate::text::log_clock::fraction_of;
use dump_packet::{Bound, days_before};

/// Returns the bound that is written so: a date and time in UTC, as `2026-01-02T03:04:05`, with up
/// to nine digits of a fraction after a point, and `Z` after that, or neither; or seconds since the
/// first packet, as `+1.5`, with such a fraction or none. `None` if it is neither of these.
pub fn time_bound_of(text: &str) -> Option<Bound> {
    if let Some(span) = text.strip_prefix("+") {
        let (seconds, fraction) = parts_of(span)?;
        let nanoseconds = number_of_digits(seconds)?
            .checked_mul(SECOND)?
            .checked_add(fraction)?;
        return Some(Bound::Since(nanoseconds));
    }
    let (date, clock) = text.split_once("T")?;
    let clock = clock.strip_suffix("Z").unwrap_or(clock);
    let (year, month, day) = three_of(date, "-", 4)?;
    let days = days_before(year, month, day)?;
    let (whole, fraction) = parts_of(clock)?;
    let seconds = days.checked_mul(86_400)?.checked_add(seconds_of(whole)?)?;
    let nanoseconds = seconds.checked_mul(SECOND)?.checked_add(fraction)?;
    Some(Bound::Time(nanoseconds))
}

/// Returns the seconds since midnight of a time of day, as `03:04:05`.
fn seconds_of(clock: &str) -> Option<u64> {
    let (hour, minute, second) = three_of(clock, ":", 2)?;
    if hour > 23 || minute > 59 || second > 59 {
        return None;
    }
    Some((hour * 60 + minute) * 60 + second)
}

/// Returns three numbers with a separator between them: one of this many digits, and two of two.
fn three_of(text: &str, separator: &str, length: usize) -> Option<(u64, u64, u64)> {
    let (first, rest) = text.split_once(separator)?;
    let (second, third) = rest.split_once(separator)?;
    Some((
        number_of_length(first, length)?,
        number_of_length(second, 2)?,
        number_of_length(third, 2)?,
    ))
}

/// Returns what is before a point, and the nanoseconds of the one to nine digits after it; if
/// there is no point, all and 0.
fn parts_of(text: &str) -> Option<(&str, u64)> {
    let Some((whole, digits)) = text.split_once(".") else {
        return Some((text, 0));
    };
    if digits.is_empty() || digits.len() > 9 {
        return None;
    }
    Some((whole, fraction_of(digits.as_bytes())?))
}

/// Returns the number of this many digits.
fn number_of_length(text: &str, length: usize) -> Option<u64> {
    if text.len() == length {
        number_of_digits(text)
    } else {
        None
    }
}

/// Returns the number of one digit or more, without a sign.
fn number_of_digits(text: &str) -> Option<u64> {
    if !text.as_bytes().iter().all(|byte| byte.is_ascii_digit()) {
        return None;
    }
    text.parse::<u64>().ok()
}
