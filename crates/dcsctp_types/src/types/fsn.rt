//! The fragment sequence number.

ghost use Rattle.std.{proofs.Common.{◌≡◌, ◌^◌, Some, rules}, specs.Fmt.{decimal}};
ghost use Rattle.dcsctp_types.specs.Serial.{wrapped_sum, wrapped_difference};

use crate::types::SerialNumber;
use std::fmt;
use std::ops::{Add, AddAssign, Sub, SubAssign};

/// A fragment sequence number (FSN, RFC 8260 section 2.1): the place of a fragment in its message.
/// It prints as its decimal number.
#[derive(Clone, Copy, PartialEq, Eq, Hash)]
pub struct Fsn(pub u32);

impl Fsn {
    /// Returns the number `n` places after this one, the same as `self + n`.
    pub fn add_to(self, n: u32) -> Self
        ensures { result.0 ≡ wrapped_sum (2 ^ 32) self.0 n }
    {
        Fsn(self.0.wrapping_add(n))
    }
}

impl SerialNumber for Fsn {
    type DistanceType = u32;

    ghost space = { 2 ^ 32 };

    ghost position = { λ fsn. fsn.0 };

    ghost places = { λ n. n };

    fn distance_to(self, other: Self) -> u32 {
        let ahead = self.0.wrapping_sub(other.0);
        ahead.min(ahead.wrapping_neg())
    }

    fn greater_than(&self, base: Self) -> bool {
        (1..1 << 31).contains(&self.0.wrapping_sub(base.0))
    }

    ghost equal_at_position = { λ a b. Prim.search rules };
}

impl Add<u32> for Fsn {
    type Output = Fsn;

    ghost add_gives = { λ fsn n sum. sum.0 ≡ wrapped_sum (2 ^ 32) fsn.0 n };

    fn add(self, n: u32) -> Fsn {
        self.add_to(n)
    }
}

impl Sub<u32> for Fsn {
    type Output = Fsn;

    ghost sub_gives = { λ fsn n left. left.0 ≡ wrapped_difference (2 ^ 32) fsn.0 n };

    fn sub(self, n: u32) -> Fsn {
        Fsn(self.0.wrapping_sub(n))
    }
}

impl AddAssign<u32> for Fsn {
    ghost add_assign_gives = { λ fsn n sum. sum.0 ≡ wrapped_sum (2 ^ 32) fsn.0 n };

    fn add_assign(&mut self, n: u32) {
        *self = *self + n;
    }
}

impl SubAssign<u32> for Fsn {
    ghost sub_assign_gives = { λ fsn n left. left.0 ≡ wrapped_difference (2 ^ 32) fsn.0 n };

    fn sub_assign(&mut self, n: u32) {
        *self = *self - n;
    }
}

/// The FSN of number `n`.
impl From<u32> for Fsn {
    ghost from_gives = { λ n fsn. fsn.0 ≡ n };

    fn from(n: u32) -> Fsn {
        Fsn(n)
    }
}

impl fmt::Display for Fsn {
    ghost output = { λ fsn. Some (decimal fsn.0) };

    fn fmt<W: fmt::Write>(&self, f: &mut fmt::Formatter<W>) -> fmt::Result {
        let number = self.0;
        write!(f, "{number}")
    }
}

impl fmt::Debug for Fsn {
    ghost debug_output = { λ fsn. Some (decimal fsn.0) };

    fn fmt<W: fmt::Write>(&self, f: &mut fmt::Formatter<W>) -> fmt::Result {
        fmt::Display::fmt(self, f)
    }
}
