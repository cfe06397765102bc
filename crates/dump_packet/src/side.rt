//! The ends of associations.

ghost use Rattle.std.specs.Prelude.{◌≡◌};
ghost use Rattle.dump_packet.specs.Sides.{other};

/// Which end of an association.
#[derive(Clone, Copy, PartialEq, Eq, Hash)]
pub enum Side {
    /// The one that sent its first packet.
    First,
    /// The other one.
    Second,
}

impl Side {
    /// Returns the other end.
    pub fn other(self) -> Side
        ensures { result ≡ other self }
    {
        match self {
            Side::First => Side::Second,
            Side::Second => Side::First,
        }
    }

    /// Returns its name in lines.
    pub fn name(self) -> &'static str {
        match self {
            Side::First => "first",
            Side::Second => "second",
        }
    }

    /// Returns its place in the list of both.
    pub fn index(self) -> u8 {
        match self {
            Side::First => 0,
            Side::Second => 1,
        }
    }
}

/// Which end of which association.
#[derive(Clone, Copy, PartialEq, Eq, Hash)]
pub struct EndKey {
    /// The association's number.
    pub association: u64,
    /// The end.
    pub side: Side,
}
