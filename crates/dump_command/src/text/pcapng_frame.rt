//! Packets as frames of a pcapng file that is written.

ghost use Rattle.std.specs.Prelude.{◌≡◌, None, unwrap_or};
ghost use Rattle.dump_command.specs.Times.{direction_in};

use crate::text::clock::direction_of;
use crate::text::frame_text::SeenFrame;
use crate::text::log_clock::DAY;
use dump_capture::event::Time;
use dump_capture::pcapng_writer::PcapngFrame;

/// Returns a frame to be written, whose time was read as these nanoseconds. A time that isn't known
/// is 0. Of a log, which has no year, a time of day is on 1970-01-01, and a date in 1972, which has
/// a leap day.
pub fn pcapng_frame<'a>(
    frame: SeenFrame<'a>,
    time: &Time<'_>,
    nanoseconds: Option<u64>,
) -> PcapngFrame<'a>
    ensures link_type { result.link_type ≡ frame.entry.link_type }
    ensures original_length { result.original_length ≡ frame.entry.original_length }
    ensures time { direction_in time.now ≡ None → result.time ≡ unwrap_or nanoseconds 0 }
    ensures direction { result.direction ≡ direction_in time.now }
    ensures bytes { result.bytes.now ≡ frame.entry.bytes.now }
{
    PcapngFrame {
        link_type: frame.link_type,
        original_length: frame.original_length,
        time: since_1970(time, nanoseconds),
        direction: direction_of(time),
        bytes: frame.bytes,
    }
}

/// Returns nanoseconds since 1970-01-01 00:00:00 UTC of a time that was read as these.
fn since_1970(time: &Time<'_>, nanoseconds: Option<u64>) -> u64
    ensures { direction_in time.now ≡ None → result ≡ unwrap_or nanoseconds 0 }
{
    match nanoseconds {
        Some(nanoseconds) => nanoseconds.saturating_add(before_dates(time)),
        None => 0,
    }
}

/// Returns the nanoseconds from 1970 to the year of a log's dates, whose days are counted from 1.
fn before_dates(time: &Time<'_>) -> u64
    ensures { direction_in time.now ≡ None → result ≡ 0 }
{
    match time {
        Time::OfDay { stamp: Some(_), .. } => (2 * 365 - 1) * DAY,
        _ => 0,
    }
}
