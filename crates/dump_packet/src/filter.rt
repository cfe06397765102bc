//! Filters: which packets are asked for.

ghost use Rattle.std.specs.Prelude.{◌≡◌, ◌&&◌, ◌||◌, not, nat_le, length, List, is_some, if◌then◌else◌};
ghost use Rattle.std.specs.List.{list_any};
ghost use Rattle.dump_capture.specs.Found.{packet_of};
ghost use Rattle.dcsctp_borrowed.specs.Part.{Item as AnItem, part_of};
ghost use Rattle.dump_packet.specs.Seen.{AreSeen, chunks_seen};
ghost use Rattle.dump_packet.specs.Filter.{part_in, meets, passes, has_all, is_before, is_after, is_way, goes, passes_addresses, passes_headers, passes_chunks, has_host, is_source, is_destination, has_wrong_checksum};
ghost use Rattle.dcsctp_receive.specs.Chunks.{is_of_type};
ghost use Rattle.dcsctp_receive.specs.Fields.{has_port, has_tag, is_on_stream, has_tsn, has_ppid};

pub mod seen;

use crate::filter::seen::some_seen;
use dcsctp_borrowed::part::Part;
use dcsctp_receive::chunk_test::ChunkTest;
use dcsctp_receive::fields::{has_port, is_u32};
use dump_capture::frame::{Addresses, FoundPacket};
use dump_capture::line::Direction;

/// An address of an IP packet, as its octets.
#[derive(Clone, Copy, PartialEq, Eq)]
pub enum Host {
    /// Of IPv4 (RFC 791).
    V4([u8; 4]),
    /// Of IPv6 (RFC 8200).
    V6([u8; 16]),
}

/// From or up to which packets are asked for.
#[derive(Clone, Copy)]
pub enum Bound {
    /// The number of a packet.
    Number(u64),
    /// A time: nanoseconds since 1970-01-01 00:00:00 UTC.
    Time(u64),
    /// Nanoseconds since the first packet whose time is known.
    Since(u64),
}

/// When a packet was seen, and which way it went.
#[derive(Clone, Copy)]
pub struct Arrival {
    /// Its number.
    pub number: u64,
    /// Its time: nanoseconds since 1970-01-01 00:00:00 UTC, if its date is known, or else since
    /// some midnight.
    pub time: Option<u64>,
    /// The time of the first packet whose time is known, on the same clock.
    pub first: Option<u64>,
    /// Whether its date is known, with the year.
    pub has_date: bool,
    /// Which way it went, if a log says it.
    pub direction: Option<Direction>,
}

/// How many values may be asked for of each kind.
pub const VALUES: usize = 16;

/// What a packet has to have: one of the values of each kind of which some are asked for.
#[derive(Clone, Copy)]
pub struct Filter {
    /// The source port or the destination port (RFC 9260 section 3.1).
    pub ports: [Option<u16>; VALUES],
    /// The verification tag (RFC 9260 section 3.1).
    pub tags: [Option<u32>; VALUES],
    /// The source address or the destination address of the IP packet that carries it.
    pub hosts: [Option<Host>; VALUES],
    /// The source address of the IP packet that carries it.
    pub sources: [Option<Host>; VALUES],
    /// The destination address of the IP packet that carries it.
    pub destinations: [Option<Host>; VALUES],
    /// Which way it went, as a log says it.
    pub directions: [Option<Direction>; VALUES],
    /// The type of a chunk that is looked at (RFC 9260 section 3.2).
    pub chunks: [Option<u8>; VALUES],
    /// The stream of a DATA (RFC 9260 section 3.3.1) or an I-DATA (RFC 8260 section 2.1).
    pub streams: [Option<u16>; VALUES],
    /// The TSN of a DATA or an I-DATA, in the same sections.
    pub tsns: [Option<u32>; VALUES],
    /// The payload protocol identifier of a DATA or of the first fragment of an I-DATA message.
    pub ppids: [Option<u32>; VALUES],
    /// Whether its checksum field is neither what is expected nor 0, and all of it was captured.
    pub wrong: bool,
    /// Whether the packets are wanted that don't have all this.
    pub inverts: bool,
    /// The bound from which on packets pass.
    pub from: Bound,
    /// The bound up to which packets pass.
    pub to: Bound,
}

impl Filter {
    /// Passes all packets.
    pub const ALL: Filter = Filter {
        ports: [None; VALUES],
        tags: [None; VALUES],
        hosts: [None; VALUES],
        sources: [None; VALUES],
        destinations: [None; VALUES],
        directions: [None; VALUES],
        chunks: [None; VALUES],
        streams: [None; VALUES],
        tsns: [None; VALUES],
        ppids: [None; VALUES],
        wrong: false,
        inverts: false,
        from: Bound::Number(0),
        to: Bound::Number(u64::MAX),
    };

    /// Returns whether the packet that was seen then has all that is asked for, or doesn't if that
    /// is wanted. It has to be within the bounds in both cases. `others` says whether it has what
    /// is asked for elsewhere, `word` is what its checksum field has to be, and `fault` the offset
    /// of the first fault of a refused packet: of this the chunks are looked at that begin there or
    /// before. The last may be the one at fault, of which all is looked at that can be read, even
    /// if its length is impossible. Of other packets, also of those that were cut off, all chunks
    /// are looked at whose headers can be read.
    pub fn passes(
        &self,
        arrival: Arrival,
        others: bool,
        found: &FoundPacket<'_>,
        word: u32,
        fault: Option<usize>,
    ) -> bool
        ensures { let p = packet_of found.now in
            (chunks : List AnItem) × AreSeen fault (part_in p) chunks
            × (result ≡ passes self.now arrival others p word chunks) }
    {
        self.is_passed(arrival, others, found, word, fault)
    }

    /// Returns whether it asks for nothing within its bounds.
    pub fn is_free(&self) -> bool {
        asks_nothing(&self.ports)
            && asks_nothing(&self.tags)
            && asks_nothing(&self.hosts)
            && asks_nothing(&self.sources)
            && asks_nothing(&self.destinations)
            && asks_nothing(&self.directions)
            && asks_nothing(&self.chunks)
            && asks_nothing(&self.streams)
            && asks_nothing(&self.tsns)
            && asks_nothing(&self.ppids)
            && !self.wrong
    }

    /// Returns whether its bounds leave no packet, since the first one is after the last one.
    pub fn is_empty(&self) -> bool {
        match (self.from, self.to) {
            (Bound::Number(from), Bound::Number(to)) => from > to,
            (Bound::Time(from), Bound::Time(to)) => from > to,
            (Bound::Since(from), Bound::Since(to)) => from > to,
            _ => false,
        }
    }

    /// Returns whether the packet passes, by its chunks up to the fault.
    fn is_passed(
        &self,
        arrival: Arrival,
        others: bool,
        found: &FoundPacket<'_>,
        word: u32,
        fault: Option<usize>,
    ) -> bool
        ensures { let p = packet_of found.now in
            result ≡ passes self.now arrival others p word (chunks_seen fault (part_in p)) }
    {
        if !(self.from.is_before(arrival) && self.to.is_after(arrival)) {
            return false;
        }
        let is_met = others && self.matches_direction(arrival) && self.is_met(found, word, fault);
        if self.inverts { !is_met } else { is_met }
    }

    /// Returns whether the packet went one of the ways, if any are asked for.
    fn matches_direction(&self, arrival: Arrival) -> bool
        ensures { result ≡ goes self.now arrival }
    {
        asks_nothing(&self.directions)
            || self.directions.iter().any(|asked| match asked {
                Some(direction) => is_way(*direction, arrival.direction),
                None => false,
            })
    }

    /// Returns whether the packet has all else that is asked for, whenever it was seen.
    fn is_met(&self, found: &FoundPacket<'_>, word: u32, fault: Option<usize>) -> bool
        ensures { let p = packet_of found.now in
            result ≡ has_all self.now p word (chunks_seen fault (part_in p)) }
    {
        let packet = Part::packet(found.packet, found.length);
        self.is_met_by(packet, found.addresses, word, fault)
    }

    /// Returns whether what was captured of the packet has all that is asked for.
    fn is_met_by(
        &self,
        packet: Part<'_>,
        addresses: Option<Addresses>,
        word: u32,
        fault: Option<usize>,
    ) -> bool
        ensures { let p = part_of packet.entry in
            result ≡ (passes_headers self.now p addresses
            && passes_chunks self.now (chunks_seen fault p)
            && (not self.now.wrong || has_wrong_checksum word p)) }
    {
        if !self.is_met_by_headers(packet, addresses) {
            return false;
        }
        if !self.is_met_by_chunks(packet, fault) {
            return false;
        }
        !self.wrong || has_wrong_checksum(packet, word)
    }

    /// Returns whether the headers have what is asked for.
    fn is_met_by_headers(&self, packet: Part<'_>, addresses: Option<Addresses>) -> bool
        ensures { result ≡ passes_headers self.now (part_of packet.entry) addresses }
    {
        self.matches_ports(packet) && self.matches_tags(packet) && self.matches_addresses(addresses)
    }

    /// Returns whether the addresses are among those that are asked for.
    fn matches_addresses(&self, addresses: Option<Addresses>) -> bool
        ensures { result ≡ passes_addresses self.now addresses }
    {
        self.matches_hosts(addresses)
            && self.matches_sources(addresses)
            && self.matches_destinations(addresses)
    }

    /// Returns whether one of the ports is the source or the destination, if any are asked for.
    fn matches_ports(&self, packet: Part<'_>) -> bool
        ensures { result ≡ meets self.now.ports (λ port. has_port port (part_of packet.entry)) }
    {
        asks_nothing(&self.ports)
            || self.ports.iter().any(|asked| match asked {
                Some(port) => has_port(packet, *port),
                None => false,
            })
    }

    /// Returns whether one of the tags is the packet's, if any are asked for.
    fn matches_tags(&self, packet: Part<'_>) -> bool
        ensures { result ≡ meets self.now.tags (λ tag. has_tag tag (part_of packet.entry)) }
    {
        asks_nothing(&self.tags)
            || self.tags.iter().any(|asked| match asked {
                Some(tag) => is_u32(packet.after(4), *tag),
                None => false,
            })
    }

    /// Returns whether one of the hosts has one of the addresses, if any are asked for.
    fn matches_hosts(&self, addresses: Option<Addresses>) -> bool
        ensures { result ≡ meets self.now.hosts (λ host. has_host host addresses) }
    {
        asks_nothing(&self.hosts)
            || self.hosts.iter().any(|asked| match asked {
                Some(host) => host.is_of(addresses),
                None => false,
            })
    }

    /// Returns whether one of the sources is the source address, if any are asked for.
    fn matches_sources(&self, addresses: Option<Addresses>) -> bool
        ensures { result ≡ meets self.now.sources (λ host. is_source host addresses) }
    {
        asks_nothing(&self.sources)
            || self.sources.iter().any(|asked| match asked {
                Some(host) => host.is_source_of(addresses),
                None => false,
            })
    }

    /// Returns whether one of the destinations is the destination address, if any are asked for.
    fn matches_destinations(&self, addresses: Option<Addresses>) -> bool
        ensures { result ≡ meets self.now.destinations (λ host. is_destination host addresses) }
    {
        asks_nothing(&self.destinations)
            || self.destinations.iter().any(|asked| match asked {
                Some(host) => host.is_destination_of(addresses),
                None => false,
            })
    }

    /// Returns whether there are chunks that are asked for.
    fn is_met_by_chunks(&self, packet: Part<'_>, fault: Option<usize>) -> bool
        ensures { result ≡ passes_chunks self.now (chunks_seen fault (part_of packet.entry)) }
    {
        self.matches_types(packet, fault)
            && self.matches_streams(packet, fault)
            && self.matches_tsns(packet, fault)
            && self.matches_ppids(packet, fault)
    }

    /// Returns whether a chunk is of one of the types, if any are asked for.
    fn matches_types(&self, packet: Part<'_>, fault: Option<usize>) -> bool
        ensures { result ≡ meets self.now.chunks (λ typ. list_any (is_of_type typ)
            (chunks_seen fault (part_of packet.entry))) }
    {
        asks_nothing(&self.chunks)
            || self.chunks.iter().any(|asked| match asked {
                Some(typ) => some_seen(packet, fault, ChunkTest::Type(*typ)),
                None => false,
            })
    }

    /// Returns whether user data is of one of the streams, if any are asked for.
    fn matches_streams(&self, packet: Part<'_>, fault: Option<usize>) -> bool
        ensures { result ≡ meets self.now.streams (λ stream. list_any (is_on_stream stream)
            (chunks_seen fault (part_of packet.entry))) }
    {
        asks_nothing(&self.streams)
            || self.streams.iter().any(|asked| match asked {
                Some(stream) => some_seen(packet, fault, ChunkTest::Stream(*stream)),
                None => false,
            })
    }

    /// Returns whether user data has one of the TSNs, if any are asked for.
    fn matches_tsns(&self, packet: Part<'_>, fault: Option<usize>) -> bool
        ensures { result ≡ meets self.now.tsns (λ tsn. list_any (has_tsn tsn)
            (chunks_seen fault (part_of packet.entry))) }
    {
        asks_nothing(&self.tsns)
            || self.tsns.iter().any(|asked| match asked {
                Some(tsn) => some_seen(packet, fault, ChunkTest::Tsn(*tsn)),
                None => false,
            })
    }

    /// Returns whether user data is of one of the payload protocols, if any are asked for.
    fn matches_ppids(&self, packet: Part<'_>, fault: Option<usize>) -> bool
        ensures { result ≡ meets self.now.ppids (λ ppid. list_any (has_ppid ppid)
            (chunks_seen fault (part_of packet.entry))) }
    {
        asks_nothing(&self.ppids)
            || self.ppids.iter().any(|asked| match asked {
                Some(ppid) => some_seen(packet, fault, ChunkTest::Ppid(*ppid)),
                None => false,
            })
    }
}

/// Returns whether no value is asked for.
pub fn asks_nothing<T>(asked: &[Option<T>; VALUES]) -> bool
    ensures { result ≡ not (list_any is_some asked.now) }
{
    !asked.iter().any(|value| value.is_some())
}

impl Bound {
    /// Returns whether a packet is the one of the bound, or after it.
    fn is_before(self, arrival: Arrival) -> bool
        ensures { result ≡ is_before self arrival }
    {
        match (self, arrival.time, arrival.first) {
            (Bound::Number(number), _, _) => number <= arrival.number,
            (Bound::Time(bound), Some(time), _) => arrival.has_date && bound <= time,
            (Bound::Since(span), Some(time), Some(first)) => {
                first as u128 + span as u128 <= time as u128
            }
            _ => false,
        }
    }

    /// Returns whether a packet is the one of the bound, or before it.
    fn is_after(self, arrival: Arrival) -> bool
        ensures { result ≡ is_after self arrival }
    {
        match (self, arrival.time, arrival.first) {
            (Bound::Number(number), _, _) => arrival.number <= number,
            (Bound::Time(bound), Some(time), _) => arrival.has_date && time <= bound,
            (Bound::Since(span), Some(time), Some(first)) => {
                time as u128 <= first as u128 + span as u128
            }
            _ => false,
        }
    }
}

impl Host {
    /// Returns whether an IP packet with these addresses comes from it or goes to it.
    fn is_of(self, addresses: Option<Addresses>) -> bool
        ensures { result ≡ has_host self addresses }
    {
        self.is_source_of(addresses) || self.is_destination_of(addresses)
    }

    /// Returns whether an IP packet with these addresses comes from it.
    fn is_source_of(self, addresses: Option<Addresses>) -> bool
        ensures { result ≡ is_source self addresses }
    {
        match addresses {
            Some(Addresses::V4 { source, .. }) => self == Host::V4(source),
            Some(Addresses::V6 { source, .. }) => self == Host::V6(source),
            None => false,
        }
    }

    /// Returns whether an IP packet with these addresses goes to it.
    fn is_destination_of(self, addresses: Option<Addresses>) -> bool
        ensures { result ≡ is_destination self addresses }
    {
        match addresses {
            Some(Addresses::V4 { destination, .. }) => self == Host::V4(destination),
            Some(Addresses::V6 { destination, .. }) => self == Host::V6(destination),
            None => false,
        }
    }
}

/// Returns whether a packet went this way.
fn is_way(wanted: Direction, direction: Option<Direction>) -> bool
    ensures { result ≡ is_way wanted direction }
{
    match (wanted, direction) {
        (Direction::Incoming, Some(Direction::Incoming)) => true,
        (Direction::Outgoing, Some(Direction::Outgoing)) => true,
        _ => false,
    }
}

/// Returns whether all of the packet was captured, and its checksum field is neither the word nor
/// 0.
fn has_wrong_checksum(packet: Part<'_>, word: u32) -> bool
    ensures { result ≡ has_wrong_checksum word (part_of packet.entry) }
{
    let field = packet.after(8);
    packet.bytes.len() >= packet.size
        && packet.bytes.len() >= 12
        && !(is_u32(field, word) || is_u32(field, 0))
}
