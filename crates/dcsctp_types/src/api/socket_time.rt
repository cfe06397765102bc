//! Points in time.

ghost use Rattle.std.specs.{Prelude.{◌≡◌, ◌+◌, ◌-◌, min}, Duration.{as_nanos, max_nanos}, declared.time.Duration.{Duration}};

use std::marker::Model;
use std::ops::{Add, Sub};
use std::time::Duration;

/// A point in time, as the time that has passed since a start that the application picks.
///
/// Times are ordered by their durations. They have a resolution of one nanosecond.
#[derive(Clone, Copy, Debug, PartialEq, Eq, PartialOrd, Ord, Hash)]
pub struct SocketTime(Duration);

impl Model for SocketTime {
    ghost Value = { Duration };

    ghost view = { λ time. time.0 };

    ghost inverse = { λ passed. record { 0 = passed } };
}

impl SocketTime {
    /// Returns the start.
    pub fn zero() -> SocketTime
        ensures { result ≡ Duration.ZERO }
    {
        SocketTime(Duration::ZERO)
    }

    /// Returns the last point in time, which never comes.
    pub fn infinite_future() -> SocketTime
        ensures { result ≡ Duration.MAX }
    {
        SocketTime(Duration::MAX)
    }
}

/// The time `passed` later; `infinite_future` at the latest.
impl Add<Duration> for SocketTime {
    type Output = SocketTime;

    ghost add_gives = { λ time passed sum.
        as_nanos sum ≡ min (as_nanos time + as_nanos passed) max_nanos };

    fn add(self, passed: Duration) -> SocketTime {
        SocketTime(self.0.saturating_add(passed))
    }
}

/// The time `passed` before; `zero` at the earliest.
impl Sub<Duration> for SocketTime {
    type Output = SocketTime;

    ghost sub_gives = { λ time passed left.
        as_nanos left ≡ as_nanos time - as_nanos passed };

    fn sub(self, passed: Duration) -> SocketTime {
        SocketTime(self.0.saturating_sub(passed))
    }
}

/// The time that has passed since `earlier`; none where that is later.
impl Sub<SocketTime> for SocketTime {
    type Output = Duration;

    ghost sub_gives = { λ time earlier passed.
        as_nanos passed ≡ as_nanos time - as_nanos earlier };

    fn sub(self, earlier: SocketTime) -> Duration {
        self.0.saturating_sub(earlier.0)
    }
}
