//! A path of an association: what one end sent from one address to another.

ghost use Rattle.std.specs.Prelude.{◌≡◌, ◌↔◌, IsTrue};
ghost use Rattle.dump_associations.specs.Counts.{CountsPacket};
ghost use Rattle.dump_packet.specs.SeenPackets.{packet_of};
ghost use Rattle.dump_associations.specs.Paths.{Takes, Goes, Awaits, IsNew};
ghost use Rattle.dump_capture.specs.Number.{one_more};

use crate::associations::counts::Counts;
use crate::associations::round_trips::RoundTrips;
use dump_packet::{Moment, SeenPacket, Side, Unanswered};
use std::net::IpAddr;

/// Which path a packet takes.
#[derive(Clone, Copy, PartialEq, Eq)]
pub struct Way {
    /// The end that sends on it.
    pub sender: Side,
    /// The source address, if packets have one.
    pub from: Option<IpAddr>,
    /// The destination address, if packets have one.
    pub to: Option<IpAddr>,
}

impl Way {
    /// Returns which path a packet takes.
    pub fn of(sender: Side, packet: &SeenPacket<'_>) -> Way
        ensures { Takes sender packet.now result }
    {
        let (from, to) = packet.addresses();
        Way { sender, from, to }
    }
}

/// A path: what one end sent from one of its addresses to one of the other end's. (In RFC 9260
/// section 1.3 a path is a destination address alone, whichever the source is.)
#[derive(Drop)]
pub struct Path {
    /// Whose path it is, and between which addresses.
    pub way: Way,
    /// When its first packet was seen.
    pub first: Moment,
    /// When its last packet was seen.
    pub last: Moment,
    /// What is counted of its packets.
    pub counts: Counts,
    /// How many of its DATA chunks have a TSN that the end sent before, on whichever path, up to
    /// 2^64 - 1.
    pub repeated: u64,
    /// Its HEARTBEATs that weren't answered.
    pub heartbeats: Unanswered,
    /// The round trips of the DATA that was sent on it.
    pub round_trips: RoundTrips,
}

impl Path {
    /// Returns a path of which a packet is the first, without it.
    pub fn new(way: Way, packet: &SeenPacket<'_>) -> Path
        ensures { IsNew way result }
    {
        let first = Moment::of(packet);
        Path {
            way,
            first,
            last: first,
            counts: Counts::new(),
            repeated: 0,
            heartbeats: Unanswered::new(),
            round_trips: RoundTrips::new(),
        }
    }

    /// Returns whether it is the one that goes this way.
    pub fn is_way(&self, way: Way) -> bool
        ensures { IsTrue result ↔ Goes way self.now }
    {
        self.way == way
    }

    /// Returns whether it is a path of this end on which a HEARTBEAT with this key has no answer.
    pub fn awaits(&self, asker: Side, key: u64) -> bool
        ensures { IsTrue result ↔ Awaits asker key self.now }
    {
        self.way.sender == asker && self.heartbeats.awaits(key)
    }

    /// Counts a packet and its chunks.
    pub fn count(&mut self, packet: &SeenPacket<'_>)
        ensures counts { CountsPacket self.old.counts (packet_of packet.now) self.new.counts }
        ensures packets { self.new.counts.packets ≡ one_more self.old.counts.packets }
        ensures way { self.new.way ≡ self.old.way }
    {
        self.last = Moment::of(packet);
        self.counts.count_packet(packet);
    }
}
