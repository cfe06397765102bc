//! By what it is known which association a packet belongs to.

ghost use Rattle.std.specs.Prelude.{◌≡◌, ◌↔◌, IsTrue};
ghost use Rattle.dump_associations.specs.Attribution.{begins_with, is_reflected, IsRead, IsChosen};
ghost use Rattle.dump_associations.specs.Routes.{origins_of, back_of, IsExclusive, flow_of};

use crate::associations::initiation::initiate_tag;
use crate::associations::transport::{Transport, TransportKey, TransportNames};
use dcsctp_borrowed::part::Item;
use dcsctp_receive::chunk_type::{ABORT, INIT, INIT_ACK, SHUTDOWN_COMPLETE};
use dcsctp_wire::packet::sctp_packet::CommonHeader;
use dump_capture::line::Direction;
use dump_packet::{SeenPacket, Side};
use std::net::IpAddr;

/// Which end of a log an end is.
#[derive(Clone, Copy, PartialEq, Eq, Hash)]
pub enum Origin {
    /// That isn't known: the packet isn't of a log.
    Unknown,
    /// The one that wrote the log.
    Local,
    /// The one that it speaks to.
    Remote,
}

impl Origin {
    /// Returns which end of a log sent a packet, and which one it went to.
    fn of(direction: Option<Direction>) -> (Origin, Origin)
        ensures { result ≡ origins_of direction }
    {
        match direction {
            Some(Direction::Outgoing) => (Origin::Local, Origin::Remote),
            Some(Direction::Incoming) => (Origin::Remote, Origin::Local),
            None => (Origin::Unknown, Origin::Unknown),
        }
    }
}

/// An end, as far as it is known without its tag.
#[derive(Clone, Copy, PartialEq, Eq, Hash)]
pub struct Place {
    /// The address, if it is known.
    pub address: Option<IpAddr>,
    /// Which end of a log it is.
    pub origin: Origin,
    /// The port.
    pub port: u16,
}

/// From where to where the first packet of an association went.
#[derive(Clone, Copy, PartialEq, Eq, Hash)]
pub struct Route {
    /// The transport of a log.
    pub transport: TransportKey,
    /// From where the packet went.
    pub from: Place,
    /// To where the packet went.
    pub to: Place,
}

impl Route {
    /// Returns the way back.
    pub fn back(self) -> Route
        ensures { result ≡ back_of self }
    {
        Route {
            transport: self.transport,
            from: self.to,
            to: self.from,
        }
    }

    /// Returns whether nothing but tags distinguishes the two ends.
    pub fn has_equal_ends(self) -> bool
        ensures { IsTrue result ↔ (self.from ≡ self.to) }
    {
        self.from == self.to
    }

    /// Returns whether at most one association lives on it at a time: its addresses are known (RFC
    /// 9260 section 1.3), or its transport.
    pub fn is_exclusive(self) -> bool
        ensures { IsTrue result ↔ IsExclusive self }
    {
        let has_addresses = self.from.address.is_some() && self.to.address.is_some();
        let is_named = matches!(self.transport, TransportKey::Named(_));
        !self.has_equal_ends() && (has_addresses || is_named)
    }

    /// Returns by what the packets are known that an end of an association on this route sends with
    /// this tag.
    pub fn flow(self, sender: Side, tag: u32) -> FlowKey
        ensures { result ≡ flow_of self sender tag }
    {
        let route = match sender {
            Side::First => self,
            Side::Second => self.back(),
        };
        FlowKey {
            transport: route.transport,
            origin: route.from.origin,
            source: route.from.port,
            destination: route.to.port,
            tag,
        }
    }
}

/// The packets that one end sends to the other: they have these ports and this tag.
#[derive(Clone, Copy, PartialEq, Eq, Hash)]
pub struct FlowKey {
    transport: TransportKey,
    origin: Origin,
    source: u16,
    destination: u16,
    tag: u32,
}

/// A packet, and by what it is known which association it belongs to.
#[derive(Clone, Copy)]
pub struct Arrival<'a, 'p> {
    /// The packet.
    pub packet: &'p SeenPacket<'a>,
    /// Its transport.
    pub transport: Transport,
    /// From where to where it went.
    pub route: Route,
    /// Its verification tag.
    pub tag: u32,
    first: Option<Item<'a>>,
}

impl<'a, 'p> Arrival<'a, 'p> {
    /// Returns by what it is known which association a packet belongs to; `None` if its common
    /// header wasn't captured.
    pub fn of(packet: &'p SeenPacket<'a>, names: &TransportNames) -> Option<Arrival<'a, 'p>>
        ensures { IsRead packet.now result }
    {
        let header = CommonHeader::from_bytes(packet.found.packet)?;
        let (source, destination) = packet.addresses();
        let (sender, receiver) = Origin::of(packet.direction);
        let (transport, key) = names.find(packet.transport);
        Some(Arrival {
            packet,
            transport,
            route: Route {
                transport: key,
                from: Place {
                    address: source,
                    origin: sender,
                    port: header.source_port,
                },
                to: Place {
                    address: destination,
                    origin: receiver,
                    port: header.destination_port,
                },
            },
            tag: header.verification_tag,
            first: packet.chunks().next(),
        })
    }

    /// Returns the first chunk.
    pub fn first(&self) -> Option<Item<'a>> {
        self.first
    }

    /// Returns the type of the first chunk.
    pub fn chunk(&self) -> Option<u8> {
        let first = self.first?;
        Some(first.first)
    }

    /// Returns whether its first chunk is of a type.
    pub fn begins_with(&self, typ: u8) -> bool
        ensures { result ≡ begins_with typ self.now.first }
    {
        match self.first {
            Some(chunk) => chunk.first == typ,
            None => false,
        }
    }

    /// Returns whether it begins with an INIT.
    pub fn is_init(&self) -> bool
        ensures { result ≡ begins_with 1 self.now.first }
    {
        self.begins_with(INIT)
    }

    /// Returns whether the tag is the sender's own: the lowest bit of the flags is set, T (RFC 9260
    /// section 8.5.1).
    pub fn is_reflected(&self) -> bool
        ensures { result ≡ is_reflected self.now.first }
    {
        match self.first {
            Some(chunk) => {
                (chunk.first == ABORT || chunk.first == SHUTDOWN_COMPLETE) && chunk.second % 2 == 1
            }
            None => false,
        }
    }

    /// Returns the tag that an INIT or an INIT ACK gives its sender.
    pub fn initiate_tag(&self) -> Option<u32> {
        let chunk = self.first?;
        if chunk.first == INIT || chunk.first == INIT_ACK {
            initiate_tag(chunk.value)
        } else {
            None
        }
    }

    /// Returns the tag by which the packet is known, and which end of its route chose it: the
    /// receiver, or of an INIT and of a packet whose tag is the sender's own, the sender. `None` of
    /// an INIT whose Initiate Tag isn't known.
    pub fn chosen(&self) -> Option<(Side, u32)>
        ensures { IsChosen self.now result }
    {
        if self.is_init() {
            return Some((Side::First, self.initiate_tag()?));
        }
        if self.is_reflected() {
            return Some((Side::First, self.tag));
        }
        Some((Side::Second, self.tag))
    }

    /// Returns the receiver's tag, if the packet has it.
    pub fn answering_tag(&self) -> Option<u32> {
        match self.chosen() {
            Some((Side::Second, tag)) if tag != 0 => Some(tag),
            _ => None,
        }
    }
}
