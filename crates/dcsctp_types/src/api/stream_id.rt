//! The number of a stream.

ghost use Rattle.std.specs.{Prelude.{◌≡◌, Some}, Fmt.{decimal}};

use std::fmt;

/// A stream (RFC 9260 section 3.3.1). Ids are ordered by their numbers, and print as decimal ones.
#[derive(Clone, Copy, PartialEq, Eq, PartialOrd, Ord, Hash)]
pub struct StreamId(pub u16);

/// The stream of number `n`.
impl From<u16> for StreamId {
    ghost from_gives = { λ n id. id.0 ≡ n };

    fn from(n: u16) -> StreamId {
        StreamId(n)
    }
}

impl fmt::Display for StreamId {
    ghost output = { λ id. Some (decimal id.0) };

    fn fmt<W: fmt::Write>(&self, f: &mut fmt::Formatter<W>) -> fmt::Result {
        let number = self.0;
        write!(f, "{number}")
    }
}

impl fmt::Debug for StreamId {
    ghost debug_output = { λ id. Some (decimal id.0) };

    fn fmt<W: fmt::Write>(&self, f: &mut fmt::Formatter<W>) -> fmt::Result {
        fmt::Display::fmt(self, f)
    }
}
