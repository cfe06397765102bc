//! Where an end had no room.

use crate::packet_number::PacketNumber;

/// The packets in which an end had no room.
#[derive(Clone, Copy)]
pub struct Closed {
    /// The number of the packet of the first SACK with an a_rwnd of 0.
    pub first: PacketNumber,
    /// The number of the packet of the last SACK with an a_rwnd of 0.
    pub last: PacketNumber,
}
