//! One end of an association.

ghost use Rattle.std.specs.Prelude.{◌≡◌, ◌↔◌, IsTrue};
ghost use Rattle.dump_associations.specs.Attribution.{HasTag};
ghost use Rattle.dump_associations.specs.Counts.{nothing};
ghost use Rattle.dump_associations.specs.Tsns.{Follows};

use crate::associations::announced::{Announced, AnnouncedAddresses};
use crate::associations::counts::Counts;
use crate::associations::icmp_errors::IcmpErrors;
use crate::associations::initiation::accepts_zero;
use crate::associations::requests::Requests;
use crate::associations::round_trips::RoundTrips;
use crate::associations::tsns::{Step, Tsns, WINDOW};
use crate::authentication::AuthenticationCounts;
use crate::authentication::key_vectors::KeyVectors;
use dcsctp_borrowed::part::Item;
use dcsctp_receive::chunk_type::{
    DATA, FORWARD_TSN, HEARTBEAT, HEARTBEAT_ACK, I_DATA, I_FORWARD_TSN, INIT, INIT_ACK, NR_SACK,
    RE_CONFIG, SACK,
};
use dcsctp_wire::packet::read_u32_be;
use dcsctp_wire::packet::sack_chunk::SackNumbers;
use dump_packet::{
    Acknowledgement, Closed, PacketNumber, SeenPacket, Unanswered, digest, is_after,
};
use std::net::IpAddr;

/// How many addresses of an end are kept.
const MOST_ADDRESSES: usize = 4;

/// The last TSN that the other end acknowledged, and the first packet that did.
#[derive(Clone, Copy)]
pub struct Acknowledged {
    /// The greatest Cumulative TSN Ack (RFC 9260 sections 3.3.4 and 3.3.8).
    pub tsn: u32,
    /// The packet's number.
    pub packet: PacketNumber,
}

/// What an end gave up, and asked the other end not to wait for (RFC 3758 section 3.2, RFC 8260
/// section 2.3.1).
#[derive(Clone, Copy)]
pub struct Skipped {
    /// The greatest new cumulative TSN of its FORWARD-TSNs and I-FORWARD-TSNs.
    pub tsn: u32,
    /// The number of the first packet with the greatest new cumulative TSN.
    pub packet: PacketNumber,
    /// How many TSNs they skipped, up to 2^64 - 1: for each, how far its new cumulative TSN lies
    /// beyond all that was acknowledged or skipped before; where nothing was, beyond the TSN before
    /// the first one that was seen.
    pub count: u64,
}

/// One end of an association, and what it sent.
#[derive(Drop)]
pub struct End {
    /// The addresses from which or to which packets went, the first ones of them.
    pub addresses: [Option<IpAddr>; MOST_ADDRESSES],
    /// Whether there were more.
    pub has_more_addresses: bool,
    /// The addresses that it announced.
    pub announced: AnnouncedAddresses,
    /// The port.
    pub port: u16,
    /// The tag that it chose: packets to it carry it (RFC 9260 section 3.1).
    pub tag: Option<u32>,
    /// The one before: an INIT that is sent again may be answered by an INIT ACK with another tag,
    /// and either may then be used.
    pub other_tag: Option<u32>,
    /// Whether its INIT or INIT ACK announced Zero Checksum Acceptable (RFC 9653 section 4), if one
    /// was seen.
    pub accepts_zero: Option<bool>,
    /// The key vectors that it announced (RFC 4895 section 6.1).
    pub vectors: KeyVectors,
    /// What is counted of AUTH in the packets that it sent.
    pub authentication: AuthenticationCounts,
    /// What is counted of the packets that it sent.
    pub counts: Counts,
    /// The TSNs that it sent.
    pub tsns: Tsns,
    /// What of them the other end acknowledged.
    pub acknowledged: Option<Acknowledged>,
    /// What of them it skipped.
    pub skipped: Option<Skipped>,
    /// When it had no room, if it ever said so.
    pub closed: Option<Closed>,
    /// The number of the packet of its first SACK with an a_rwnd that isn't 0 after the last one
    /// with 0, if there was one.
    pub opened: Option<PacketNumber>,
    /// Its HEARTBEATs that weren't answered.
    pub heartbeats: Unanswered,
    /// The ICMP errors that quote what it sent.
    pub icmp_errors: IcmpErrors,
    /// Its requests to reconfigure streams.
    pub requests: Requests,
    /// The round trips of its DATA.
    pub round_trips: RoundTrips,
}

/// What a tag of an end is.
#[derive(Clone, Copy)]
pub enum Learned {
    /// It was known.
    Known,
    /// It is new.
    New {
        /// The tag that is forgotten for it, if two were known.
        forgotten: Option<u32>,
    },
}

impl End {
    /// Returns an end of which the port and maybe an address is known.
    pub fn new(address: Option<IpAddr>, port: u16) -> End
        ensures { result.counts ≡ nothing }
    {
        End {
            addresses: [address, None, None, None],
            has_more_addresses: false,
            announced: AnnouncedAddresses::new(),
            port,
            tag: None,
            other_tag: None,
            accepts_zero: None,
            vectors: KeyVectors::new(),
            authentication: AuthenticationCounts::new(),
            counts: Counts::new(),
            tsns: Tsns::new(),
            acknowledged: None,
            skipped: None,
            closed: None,
            opened: None,
            heartbeats: Unanswered::new(),
            icmp_errors: IcmpErrors::new(),
            requests: Requests::new(),
            round_trips: RoundTrips::new(),
        }
    }

    /// Notes that packets to it carry a tag. The two last ones are known.
    pub fn learn(&mut self, tag: u32) -> Learned
        ensures { self.new.counts ≡ self.old.counts }
    {
        if self.tag == Some(tag) {
            return Learned::Known;
        }
        let forgotten = self.other_tag;
        self.other_tag = self.tag;
        self.tag = Some(tag);
        if forgotten == Some(tag) {
            return Learned::Known;
        }
        Learned::New { forgotten }
    }

    /// Returns whether packets to it carry a tag.
    pub fn has_tag(&self, tag: u32) -> bool
        ensures { IsTrue result ↔ HasTag tag self.now }
    {
        self.tag == Some(tag) || self.other_tag == Some(tag)
    }

    /// Returns whether an address may be one of it: one that it used or announced; any if it isn't
    /// known, or the end has more than are kept.
    pub fn may_have_address(&self, address: Option<IpAddr>) -> bool {
        let Some(address) = address else {
            return true;
        };
        self.has_more_addresses
            || self.addresses.contains(&Some(address))
            || self.announced.may_have_address(address)
    }

    /// Returns whether a chunk of the other end answers what it sent: it acknowledges one of the
    /// last 2,048 TSNs, or has what a HEARTBEAT had that wasn't answered.
    pub fn is_answered_by(&self, chunk: Item<'_>) -> bool {
        if chunk.first == HEARTBEAT_ACK {
            return self.heartbeats.awaits(digest(chunk.value.bytes));
        }
        match (Acknowledgement::of(chunk), self.tsns.span()) {
            (Some(acknowledged), Some((_, last))) => {
                last.wrapping_sub(acknowledged.cumulative) < WINDOW
            }
            _ => false,
        }
    }

    /// Returns whether a chunk is DATA that follows what the other end acknowledged of it: one of
    /// the next 2,048 TSNs.
    pub fn goes_on_with(&self, chunk: Item<'_>) -> bool {
        let value = chunk.value.bytes;
        match (chunk.first, self.acknowledged) {
            (DATA | I_DATA, Some(acknowledged)) if value.len() >= 4 => {
                let ahead = read_u32_be(value).wrapping_sub(acknowledged.tsn);
                ahead != 0 && ahead <= WINDOW
            }
            _ => false,
        }
    }

    /// Notes an address.
    pub fn note_address(&mut self, address: Option<IpAddr>)
        ensures { self.new.counts ≡ self.old.counts }
    {
        if address.is_none() {
            return;
        }
        for known in self.addresses.iter_mut() {
            if *known == address {
                return;
            }
            if known.is_none() {
                *known = address;
                return;
            }
        }
        self.has_more_addresses = true;
    }

    /// Returns whether an address was announced, and no packet of this end was seen that came from
    /// it then or later; false where packets have no addresses.
    pub fn is_unused(&self, announced: &Announced) -> bool {
        announced.added.is_some() && !announced.is_used && self.addresses[0].is_some()
    }

    /// Notes a chunk that this end sent. Returns how the TSN of DATA follows those before.
    pub fn note_sent(&mut self, packet: &SeenPacket<'_>, chunk: Item<'_>) -> Option<Step>
        ensures { self.new.counts ≡ self.old.counts }
    {
        let value = chunk.value.bytes;
        match chunk.first {
            DATA | I_DATA if value.len() >= 4 => {
                return Some(self.note_tsn(packet, read_u32_be(value)));
            }
            SACK | NR_SACK if value.len() >= 8 => {
                self.note_window(read_u32_be(&value[SackNumbers::A_RWND..]), packet.number);
            }
            FORWARD_TSN | I_FORWARD_TSN if value.len() >= 4 => {
                self.note_skipped(read_u32_be(value), packet.number);
            }
            HEARTBEAT => self.heartbeats.ask(digest(value), packet.number),
            RE_CONFIG => self.requests.note_sent(chunk.value, packet.number),
            INIT | INIT_ACK => {
                self.accepts_zero = accepts_zero(chunk.value).or(self.accepts_zero);
                self.vectors.note_sent(chunk.value);
            }
            _ => {}
        }
        None
    }

    /// Notes a chunk that the other end sent.
    pub fn note_received(&mut self, packet: &SeenPacket<'_>, chunk: Item<'_>)
        ensures { self.new.counts ≡ self.old.counts }
    {
        if let Some(acknowledged) = Acknowledgement::of(chunk) {
            self.note_acknowledged(acknowledged.cumulative, packet.number);
            if let Some(nanoseconds) = packet.nanoseconds {
                self.round_trips
                    .acknowledge(acknowledged, nanoseconds, packet.number);
            }
        }
        match chunk.first {
            HEARTBEAT_ACK => self.heartbeats.answer(digest(chunk.value.bytes)),
            RE_CONFIG => self.requests.note_received(chunk.value),
            _ => {}
        }
    }

    /// Notes the window of a SACK that this end sent (RFC 9260 section 3.3.4).
    fn note_window(&mut self, a_rwnd: u32, packet: PacketNumber)
        ensures { self.new.counts ≡ self.old.counts }
    {
        if a_rwnd > 0 {
            if self.closed.is_some() {
                self.opened = self.opened.or(Some(packet));
            }
            return;
        }
        self.opened = None;
        let first = match self.closed {
            Some(closed) => closed.first,
            None => packet,
        };
        self.closed = Some(Closed {
            first,
            last: packet,
        });
    }

    /// Notes a Cumulative TSN Ack, if it is beyond the one before.
    fn note_acknowledged(&mut self, tsn: u32, packet: PacketNumber)
        ensures { self.new.counts ≡ self.old.counts }
    {
        if let Some(known) = self.acknowledged {
            if !is_after(tsn, known.tsn) {
                return;
            }
        }
        self.acknowledged = Some(Acknowledged { tsn, packet });
    }

    /// Notes a new cumulative TSN: those up to it are skipped.
    fn note_skipped(&mut self, tsn: u32, packet: PacketNumber)
        ensures { self.new.counts ≡ self.old.counts }
    {
        let advance = match self.reached() {
            Some(reached) if is_after(tsn, reached) => u64::from(tsn.wrapping_sub(reached)),
            _ => 0,
        };
        self.round_trips.leave_to(tsn);
        self.skipped = match self.skipped {
            Some(skipped) if !is_after(tsn, skipped.tsn) => Some(skipped),
            Some(skipped) => {
                Some(Skipped {
                    tsn,
                    packet,
                    count: skipped.count.saturating_add(advance),
                })
            }
            None => {
                Some(Skipped {
                    tsn,
                    packet,
                    count: advance,
                })
            }
        };
    }

    /// Returns the last TSN that was acknowledged or skipped; where none was, the one before the
    /// first that was seen.
    fn reached(&self) -> Option<u32> {
        match (self.acknowledged, self.skipped) {
            (Some(acknowledged), Some(skipped)) => {
                if is_after(skipped.tsn, acknowledged.tsn) {
                    Some(skipped.tsn)
                } else {
                    Some(acknowledged.tsn)
                }
            }
            (Some(acknowledged), None) => Some(acknowledged.tsn),
            (None, Some(skipped)) => Some(skipped.tsn),
            (None, None) => {
                let (first, _) = self.tsns.span()?;
                Some(first.wrapping_sub(1))
            }
        }
    }

    /// Notes a TSN that this end sent. Returns how it follows those before.
    fn note_tsn(&mut self, packet: &SeenPacket<'_>, tsn: u32) -> Step
        ensures step { Follows self.old.tsns.span self.old.tsns.seen tsn result }
        ensures counts { self.new.counts ≡ self.old.counts }
    {
        let step = self.tsns.note(tsn, packet.number);
        if step == Step::Repeated {
            self.round_trips.leave(tsn);
        } else if let Some(nanoseconds) = packet.nanoseconds {
            self.round_trips.wait(tsn, nanoseconds);
        }
        step
    }
}
