//! Serial numbers and stream keys.

ghost use Rattle.std.specs.Prelude.{◌≡◌, ◌<◌, ◌↔◌, ℕ, IsTrue};
ghost use Rattle.dcsctp_types.specs.Serial.{IsGreater, IsGreaterOrEqual, distance};

mod fsn;
mod mid;
mod outgoing_message_id;
mod ssn;
mod stream_key;
mod tsn;

pub use fsn::Fsn;
pub use mid::Mid;
pub use outgoing_message_id::OutgoingMessageId;
pub use ssn::Ssn;
pub use stream_key::StreamKey;
pub use tsn::Tsn;

/// A number of a space that wraps round (RFC 1982): after the last number comes the first.
///
/// One number is greater than another if it is after it by less than half of the space. At exactly
/// half neither is greater. So this is no order of all numbers: it is one of those that are after
/// one base by less than half of the space (`laws::window`).
pub trait SerialNumber: Sized + Copy + Eq {
    /// A count of places.
    type DistanceType;

    // how many numbers there are
    ghost space: { ℕ };

    // where a number is among them
    ghost position: { Self → ℕ };

    // the count that a distance is
    ghost places: { Self.DistanceType → ℕ };

    /// Returns how many places both are apart, the shorter way round.
    fn distance_to(self, other: Self) -> Self::DistanceType
        // every number is at a position of the space
        ensures in_space { (position self < space) × (position other < space) }
        ensures value { places result ≡ distance space (position self) (position other) }
        ensures symmetric { places result ≡ distance space (position other) (position self) }
        ensures zero { (places result ≡ 0) ↔ (position self ≡ position other) };

    /// Returns whether this number is greater than `base`.
    fn greater_than(&self, base: Self) -> bool
        ensures { IsTrue result ↔ IsGreater space (position self.now) (position base) };

    /// Returns whether `other` is greater than this number.
    fn less_than(&self, other: Self) -> bool
        ensures { IsTrue result ↔ IsGreater space (position other) (position self.now) }
    {
        other.greater_than(*self)
    }

    /// Returns whether both are equal, or `other` is greater.
    fn less_than_or_equal(&self, other: Self) -> bool
        ensures { IsTrue result ↔ IsGreaterOrEqual space (position other) (position self.now) }
    {
        *self == other || other.greater_than(*self)
    }

    /// Returns whether both are equal, or this number is greater.
    fn greater_than_or_equal(&self, other: Self) -> bool
        ensures { IsTrue result ↔ IsGreaterOrEqual space (position self.now) (position other) }
    {
        *self == other || self.greater_than(other)
    }

    // equal numbers are those at one place
    ghost equal_at_position: { (a b : Self) → IsTrue (Self.eq a b) ↔ (position a ≡ position b) };
}
