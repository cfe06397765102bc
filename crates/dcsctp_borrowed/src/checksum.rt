//! What is known of a packet's checksum field (RFC 9260 section 6.8).

ghost use Rattle.std.specs.Prelude.{◌≡◌};
ghost use Rattle.dcsctp_borrowed.specs.ChecksumField.{known, known_of_packet};

use dcsctp_wire::packet::read_u32_be;
use dcsctp_wire::packet::sctp_packet::{COMMON_HEADER_SIZE, CommonHeader};
use std::fmt;

/// What is known of a packet's checksum field.
#[derive(Clone, Copy, Debug, PartialEq, Eq)]
pub enum Checksum {
    /// It is what was expected.
    Right,
    /// It is zero, and that wasn't expected: the sender computed none (RFC 9653).
    Zero,
    /// It is another number; this was expected.
    Wrong(u32),
    /// Not all of the packet was captured.
    Unknown,
}

impl Checksum {
    /// Returns what is known of the field of a packet of `size` bytes, of which these were
    /// captured, where a word is expected.
    pub fn of_packet(bytes: &[u8], size: usize, word: u32) -> Checksum
        ensures { result ≡ known_of_packet bytes.now size word }
    {
        if bytes.len() < size || bytes.len() < COMMON_HEADER_SIZE {
            return Checksum::Unknown;
        }
        Checksum::of(read_u32_be(&bytes[CommonHeader::CHECKSUM..]), word)
    }

    /// Returns what is known of a field where a word is expected.
    pub fn of(field: u32, word: u32) -> Checksum
        ensures { result ≡ known field word }
    {
        if field == word {
            Checksum::Right
        } else if field == 0 {
            Checksum::Zero
        } else {
            Checksum::Wrong(word)
        }
    }

    /// Returns its name.
    pub fn name(self) -> &'static str {
        match self {
            Checksum::Right => "right",
            Checksum::Zero => "zero",
            Checksum::Wrong(_) => "wrong",
            Checksum::Unknown => "unknown",
        }
    }
}

impl fmt::Display for Checksum {
    fn fmt<W: fmt::Write>(&self, f: &mut fmt::Formatter<W>) -> fmt::Result {
        match self {
            Checksum::Unknown => f.write_str("not known"),
            Checksum::Wrong(word) => write!(f, "wrong, expected {word:#010x}"),
            Checksum::Right | Checksum::Zero => f.write_str(self.name()),
        }
    }
}
