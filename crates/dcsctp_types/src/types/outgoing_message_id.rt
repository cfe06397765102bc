//! The id of a message that is sent.

ghost use Rattle.std.specs.{Prelude.{◌≡◌, ◌^◌, Some}, Fmt.{decimal}};
ghost use Rattle.dcsctp_types.specs.Serial.{wrapped_sum};

use std::fmt;
use std::ops::AddAssign;

/// Tells outgoing messages apart, so that a chunk can be traced to the message that it was cut
/// from. Ids are equal or not; they have no order. An id prints as its decimal number.
#[derive(Clone, Copy, PartialEq, Eq, Hash)]
pub struct OutgoingMessageId(pub u32);

impl AddAssign<u32> for OutgoingMessageId {
    ghost add_assign_gives = { λ id n sum. sum.0 ≡ wrapped_sum (2 ^ 32) id.0 n };

    fn add_assign(&mut self, n: u32) {
        self.0 = self.0.wrapping_add(n);
    }
}

/// The id of number `n`.
impl From<u32> for OutgoingMessageId {
    ghost from_gives = { λ n id. id.0 ≡ n };

    fn from(n: u32) -> OutgoingMessageId {
        OutgoingMessageId(n)
    }
}

impl fmt::Display for OutgoingMessageId {
    ghost output = { λ id. Some (decimal id.0) };

    fn fmt<W: fmt::Write>(&self, f: &mut fmt::Formatter<W>) -> fmt::Result {
        let number = self.0;
        write!(f, "{number}")
    }
}

impl fmt::Debug for OutgoingMessageId {
    ghost debug_output = { λ id. Some (decimal id.0) };

    fn fmt<W: fmt::Write>(&self, f: &mut fmt::Formatter<W>) -> fmt::Result {
        fmt::Display::fmt(self, f)
    }
}
