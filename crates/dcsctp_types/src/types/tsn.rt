//! The transmission sequence number.

ghost use Rattle.std.{proofs.Common.{◌≡◌, ◌^◌, Some, rules}, specs.Fmt.{decimal}};
ghost use Rattle.dcsctp_types.specs.Serial.{wrapped_sum, wrapped_difference};

use crate::types::SerialNumber;
use std::fmt;
use std::ops::{Add, AddAssign, Sub, SubAssign};

/// A transmission sequence number (TSN, RFC 9260 section 2.6): the place of a DATA or I-DATA chunk
/// in its association. It prints as its decimal number.
#[derive(Clone, Copy, PartialEq, Eq, Hash)]
pub struct Tsn(pub u32);

impl Tsn {
    /// Returns the number `n` places after this one, the same as `self + n`.
    pub fn add_to(self, n: u32) -> Self
        ensures { result.0 ≡ wrapped_sum (2 ^ 32) self.0 n }
    {
        Tsn(self.0.wrapping_add(n))
    }
}

impl SerialNumber for Tsn {
    type DistanceType = u32;

    ghost space = { 2 ^ 32 };

    ghost position = { λ tsn. tsn.0 };

    ghost places = { λ n. n };

    fn distance_to(self, other: Self) -> u32 {
        let ahead = self.0.wrapping_sub(other.0);
        ahead.min(ahead.wrapping_neg())
    }

    fn greater_than(&self, base: Self) -> bool {
        (1..1 << 31).contains(&self.0.wrapping_sub(base.0))
    }

    ghost equal_at_position = { λ a b. Prim.search rules };
}

impl Add<u32> for Tsn {
    type Output = Tsn;

    ghost add_gives = { λ tsn n sum. sum.0 ≡ wrapped_sum (2 ^ 32) tsn.0 n };

    fn add(self, n: u32) -> Tsn {
        self.add_to(n)
    }
}

impl Sub<u32> for Tsn {
    type Output = Tsn;

    ghost sub_gives = { λ tsn n left. left.0 ≡ wrapped_difference (2 ^ 32) tsn.0 n };

    fn sub(self, n: u32) -> Tsn {
        Tsn(self.0.wrapping_sub(n))
    }
}

impl AddAssign<u32> for Tsn {
    ghost add_assign_gives = { λ tsn n sum. sum.0 ≡ wrapped_sum (2 ^ 32) tsn.0 n };

    fn add_assign(&mut self, n: u32) {
        *self = *self + n;
    }
}

impl SubAssign<u32> for Tsn {
    ghost sub_assign_gives = { λ tsn n left. left.0 ≡ wrapped_difference (2 ^ 32) tsn.0 n };

    fn sub_assign(&mut self, n: u32) {
        *self = *self - n;
    }
}

/// The TSN of number `n`.
impl From<u32> for Tsn {
    ghost from_gives = { λ n tsn. tsn.0 ≡ n };

    fn from(n: u32) -> Tsn {
        Tsn(n)
    }
}

impl fmt::Display for Tsn {
    ghost output = { λ tsn. Some (decimal tsn.0) };

    fn fmt<W: fmt::Write>(&self, f: &mut fmt::Formatter<W>) -> fmt::Result {
        let number = self.0;
        write!(f, "{number}")
    }
}

impl fmt::Debug for Tsn {
    ghost debug_output = { λ tsn. Some (decimal tsn.0) };

    fn fmt<W: fmt::Write>(&self, f: &mut fmt::Formatter<W>) -> fmt::Result {
        fmt::Display::fmt(self, f)
    }
}
