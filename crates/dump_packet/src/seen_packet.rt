//! A packet of a capture, with what is known of it.

ghost use Rattle.std.specs.Prelude.{◌≡◌};
ghost use Rattle.dump_packet.specs.SeenPackets.{AreAddresses, packet_of};

use crate::packet_number::PacketNumber;
use crate::pair_key::PairKey;
use dcsctp_borrowed::checksum::Checksum;
use dcsctp_borrowed::part::{Items, Part};
use dcsctp_wire::packet::sctp_packet::COMMON_HEADER_SIZE;
use dump_capture::frame::{Addresses, FoundPacket};
use dump_capture::line::Direction;
use std::net::{IpAddr, Ipv4Addr, Ipv6Addr};

/// A packet of a capture.
#[derive(Clone, Copy)]
pub struct SeenPacket<'a> {
    /// Its number.
    pub number: PacketNumber,
    /// When it was captured, in nanoseconds since 1970-01-01 00:00:00 UTC.
    pub nanoseconds: Option<u64>,
    /// The packet.
    pub found: FoundPacket<'a>,
    /// Where it went, if that is known: in a log.
    pub direction: Option<Direction>,
    /// The name of its transport in a log; empty if it has none.
    pub transport: &'a [u8],
    /// What is known of its checksum field.
    pub checksum: Checksum,
    /// Whether it was refused.
    pub is_refused: bool,
    /// Whether a filter passes it.
    pub passes: bool,
    /// The endpoint pair shared key under which its AUTH is judged (RFC 4895), if one was given.
    pub key: Option<PairKey>,
}

impl<'a> SeenPacket<'a> {
    /// Returns the addresses of the sender and of the receiver.
    pub fn addresses(&self) -> (Option<IpAddr>, Option<IpAddr>)
        ensures { AreAddresses self.now.found.addresses result.0 result.1 }
    {
        match self.found.addresses {
            None => (None, None),
            Some(
                Addresses::V4 {
                    source,
                    destination,
                },
            ) => {
                let (source, destination) = (Ipv4Addr::from(source), Ipv4Addr::from(destination));
                (Some(IpAddr::V4(source)), Some(IpAddr::V4(destination)))
            }
            Some(
                Addresses::V6 {
                    source,
                    destination,
                },
            ) => {
                let (source, destination) = (Ipv6Addr::from(source), Ipv6Addr::from(destination));
                (Some(IpAddr::V6(source)), Some(IpAddr::V6(destination)))
            }
        }
    }

    /// Returns the chunks, as far as they can be read.
    pub fn chunks(&self) -> Items<'a>
        ensures { result ≡ (packet_of self.now).chunks }
    {
        Part::packet(self.found.packet, self.found.length)
            .after(COMMON_HEADER_SIZE)
            .items()
    }
}
