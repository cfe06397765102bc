//! A packet, and when it was captured.

use crate::packet_number::PacketNumber;
use crate::seen_packet::SeenPacket;

/// A packet, and when it was captured.
#[derive(Clone, Copy)]
pub struct Moment {
    /// The packet's number.
    pub packet: PacketNumber,
    /// When it was captured, in nanoseconds since 1970-01-01 00:00:00 UTC.
    pub nanoseconds: Option<u64>,
}

impl Moment {
    /// Returns that of a packet.
    pub fn of(packet: &SeenPacket<'_>) -> Moment {
        Moment {
            packet: packet.number,
            nanoseconds: packet.nanoseconds,
        }
    }

    /// Returns how long after another moment it is, in nanoseconds; `None` where a time isn't
    /// known, or times go back.
    pub fn since(self, other: Moment) -> Option<u64> {
        self.nanoseconds?.checked_sub(other.nanoseconds?)
    }
}
