//! The stream sequence number.

ghost use Rattle.std.{proofs.Common.{◌≡◌, ◌^◌, Some, rules}, specs.Fmt.{decimal}};
ghost use Rattle.dcsctp_types.specs.Serial.{wrapped_sum, wrapped_difference};

use crate::types::SerialNumber;
use std::fmt;
use std::ops::{Add, AddAssign, Sub, SubAssign};

/// A stream sequence number (SSN, RFC 9260 section 2.6): the place of an ordered message in its
/// stream. It prints as its decimal number.
#[derive(Clone, Copy, PartialEq, Eq, Hash)]
pub struct Ssn(pub u16);

impl Ssn {
    /// Returns the number `n` places after this one, the same as `self + n`.
    pub fn add_to(self, n: u16) -> Self
        ensures { result.0 ≡ wrapped_sum (2 ^ 16) self.0 n }
    {
        Ssn(self.0.wrapping_add(n))
    }
}

impl SerialNumber for Ssn {
    type DistanceType = u16;

    ghost space = { 2 ^ 16 };

    ghost position = { λ ssn. ssn.0 };

    ghost places = { λ n. n };

    fn distance_to(self, other: Self) -> u16 {
        let ahead = self.0.wrapping_sub(other.0);
        ahead.min(ahead.wrapping_neg())
    }

    fn greater_than(&self, base: Self) -> bool {
        (1..1 << 15).contains(&self.0.wrapping_sub(base.0))
    }

    ghost equal_at_position = { λ a b. Prim.search rules };
}

impl Add<u16> for Ssn {
    type Output = Ssn;

    ghost add_gives = { λ ssn n sum. sum.0 ≡ wrapped_sum (2 ^ 16) ssn.0 n };

    fn add(self, n: u16) -> Ssn {
        self.add_to(n)
    }
}

impl Sub<u16> for Ssn {
    type Output = Ssn;

    ghost sub_gives = { λ ssn n left. left.0 ≡ wrapped_difference (2 ^ 16) ssn.0 n };

    fn sub(self, n: u16) -> Ssn {
        Ssn(self.0.wrapping_sub(n))
    }
}

impl AddAssign<u16> for Ssn {
    ghost add_assign_gives = { λ ssn n sum. sum.0 ≡ wrapped_sum (2 ^ 16) ssn.0 n };

    fn add_assign(&mut self, n: u16) {
        *self = *self + n;
    }
}

impl SubAssign<u16> for Ssn {
    ghost sub_assign_gives = { λ ssn n left. left.0 ≡ wrapped_difference (2 ^ 16) ssn.0 n };

    fn sub_assign(&mut self, n: u16) {
        *self = *self - n;
    }
}

/// The SSN of number `n`.
impl From<u16> for Ssn {
    ghost from_gives = { λ n ssn. ssn.0 ≡ n };

    fn from(n: u16) -> Ssn {
        Ssn(n)
    }
}

impl fmt::Display for Ssn {
    ghost output = { λ ssn. Some (decimal ssn.0) };

    fn fmt<W: fmt::Write>(&self, f: &mut fmt::Formatter<W>) -> fmt::Result {
        let number = self.0;
        write!(f, "{number}")
    }
}

impl fmt::Debug for Ssn {
    ghost debug_output = { λ ssn. Some (decimal ssn.0) };

    fn fmt<W: fmt::Write>(&self, f: &mut fmt::Formatter<W>) -> fmt::Result {
        fmt::Display::fmt(self, f)
    }
}
