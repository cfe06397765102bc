//! One association.

ghost use Rattle.std.specs.Prelude.{◌≡◌};
ghost use Rattle.dump_capture.specs.Number.{one_more};
ghost use Rattle.dump_associations.specs.Counts.{CountsPacket};
ghost use Rattle.dump_packet.specs.SeenPackets.{packet_of};
ghost use Rattle.dump_associations.specs.Ends.{counts_of, end_of};
ghost use Rattle.dump_packet.specs.Sides.{other};

use crate::associations::end::{End, Learned};
use crate::associations::key::Route;
use crate::associations::membership::Sequence;
use crate::associations::transport::Transport;
use crate::authentication::{AuthVerdict, Authentication};
use dcsctp_borrowed::part::Item;
use dcsctp_receive::chunk_type::{
    ABORT, ASCONF, ASCONF_ACK, COOKIE_ACK, INIT, NR_SACK, SACK, SHUTDOWN_COMPLETE,
};
use dump_capture::icmp::IcmpError;
use dump_packet::{PacketNumber, SeenPacket, Side, increase};
use std::alloc::{AllocError, Global};

/// The first packet of an association.
#[derive(Clone, Copy)]
pub struct Began {
    /// The packet's number.
    pub packet: PacketNumber,
    /// When it was captured, in nanoseconds since 1970-01-01 00:00:00 UTC.
    pub nanoseconds: Option<u64>,
    /// The type of its first chunk.
    pub chunk: Option<u8>,
}

/// The first packet that shows that an association was established.
#[derive(Clone, Copy)]
pub struct Established {
    /// The packet's number.
    pub packet: PacketNumber,
    /// When it was captured, in nanoseconds since 1970-01-01 00:00:00 UTC.
    pub nanoseconds: Option<u64>,
    /// The chunk's type: a COOKIE ACK (RFC 9260 section 5.1), or else a SACK or an NR-SACK of an
    /// end to which DATA was sent.
    pub chunk: u8,
}

/// What ended an association.
#[derive(Clone, Copy)]
pub struct Ended {
    /// The packet's number.
    pub packet: PacketNumber,
    /// When it was captured, in nanoseconds since 1970-01-01 00:00:00 UTC.
    pub nanoseconds: Option<u64>,
    /// The chunk's type: ABORT or SHUTDOWN COMPLETE.
    pub chunk: u8,
    /// Which end sent it.
    pub by: Side,
    /// The code of the first error cause of an ABORT (RFC 9260 section 3.3.10).
    pub cause: Option<u16>,
}

/// An association, as a capture shows it.
#[derive(Drop)]
pub struct Association {
    /// The association's number: from 1 on, in order of the first packet.
    pub number: u64,
    /// The number of the association that lived between the same ends when it began (RFC 9260
    /// section 5.2).
    pub restart_of: Option<u64>,
    /// Whether it left the table, which was full, before the capture ended.
    pub has_left: bool,
    /// Whether a filter passes one of its packets.
    pub passes: bool,
    /// The transport that a log names.
    pub transport: Transport,
    /// From where to where its first packet went.
    pub route: Route,
    /// The end that sent its first packet.
    pub first: End,
    /// The end that didn't send its first packet.
    pub second: End,
    /// How it began.
    pub began: Began,
    /// When it was established, if that was seen.
    pub established: Option<Established>,
    /// How it ended, if it did.
    pub ended: Option<Ended>,
    /// When its last packet was captured, in nanoseconds since 1970-01-01 00:00:00 UTC, if that is
    /// known.
    pub last: Option<u64>,
    /// How many packets went between its ends while it lived and were of no association, up to
    /// 2^64 - 1: their tag was neither end's (RFC 9260 section 8.4).
    pub out_of_the_blue: u64,
    /// The last tag of those packets.
    pub stray: Option<Stray>,
}

/// A tag of a packet beside an association.
#[derive(Clone, Copy)]
pub struct Stray {
    /// The end that sent the packet.
    sender: Side,
    /// The tag.
    tag: u32,
    /// The last one of the other end before it.
    before: Option<u32>,
}

impl Association {
    /// Returns whether its beginning wasn't captured: its first chunk is no INIT.
    pub fn is_midway(&self) -> bool {
        self.began.chunk != Some(INIT)
    }

    /// Returns for how long it was seen, in nanoseconds: until it ended, or until its last packet;
    /// `None` if that isn't known, or is before its first packet.
    pub fn duration(&self) -> Option<u64> {
        let last = match self.ended {
            Some(ended) => ended.nanoseconds?,
            None => self.last?,
        };
        last.checked_sub(self.began.nanoseconds?)
    }

    /// Returns how long it took to set up, in nanoseconds: from the first INIT to the COOKIE ACK;
    /// `None` if one of them wasn't seen, or a time isn't known, or goes back.
    pub fn setup(&self) -> Option<u64> {
        let established = self.established?;
        if self.is_midway() || established.chunk != COOKIE_ACK {
            return None;
        }
        established
            .nanoseconds?
            .checked_sub(self.began.nanoseconds?)
    }

    /// Returns how many INITs both ends sent, up to 2^64 - 1.
    pub fn inits(&self) -> u64 {
        self.first
            .counts
            .inits
            .saturating_add(self.second.counts.inits)
    }

    /// Returns an end.
    pub fn end(&self, side: Side) -> &End
        ensures { result.now ≡ end_of side self.now }
    {
        match side {
            Side::First => &self.first,
            Side::Second => &self.second,
        }
    }

    /// Counts a packet of an end beside it, and its tag, if it is that of the other end.
    pub fn note_beside(&mut self, sender: Side, tag: Option<u32>)
        ensures first { self.new.first.counts ≡ self.old.first.counts }
        ensures second { self.new.second.counts ≡ self.old.second.counts }
    {
        increase(&mut self.out_of_the_blue);
        let Some(tag) = tag else {
            return;
        };
        let last = self.stray;
        let before = match last {
            Some(stray) if stray.sender == sender => stray.before,
            Some(stray) => Some(stray.tag),
            None => None,
        };
        self.stray = Some(Stray {
            sender,
            tag,
            before,
        });
    }

    /// Counts an ICMP error that quotes a packet of an end, in the packet of this number.
    pub fn note_error(&mut self, sender: Side, number: PacketNumber, error: &IcmpError<'_>)
        ensures first { self.new.first.counts ≡ self.old.first.counts }
        ensures second { self.new.second.counts ≡ self.old.second.counts }
    {
        match sender {
            Side::First => self.first.icmp_errors.note(number, error),
            Side::Second => self.second.icmp_errors.note(number, error),
        }
    }

    /// Returns the tag that answered this tag of an end, beside it: that of the last packet, of the
    /// other end, if it came after one with this tag.
    pub fn answer_to(&self, sender: Side, tag: u32) -> Option<u32> {
        match self.stray {
            Some(stray) if stray.sender != sender && stray.before == Some(tag) => Some(stray.tag),
            _ => None,
        }
    }

    /// Returns whether a chunk of an end goes on with what was seen of the association.
    pub fn is_continued_by(&self, sender: Side, chunk: Item<'_>) -> bool {
        self.end(sender.other()).is_answered_by(chunk) || self.end(sender).goes_on_with(chunk)
    }

    /// Notes that packets to an end carry a tag.
    pub fn learn(&mut self, side: Side, tag: u32) -> Learned
        ensures first { self.new.first.counts ≡ self.old.first.counts }
        ensures second { self.new.second.counts ≡ self.old.second.counts }
    {
        match side {
            Side::First => self.first.learn(tag),
            Side::Second => self.second.learn(tag),
        }
    }

    /// Takes memory for what an end announces, if a packet of it says something of an address.
    pub fn make_room(
        &mut self,
        alloc: Global,
        side: Side,
        packet: &SeenPacket<'_>,
    ) -> Result<(), AllocError>
        ensures first { self.new.first.counts ≡ self.old.first.counts }
        ensures second { self.new.second.counts ≡ self.old.second.counts }
    {
        match side {
            Side::First => self.first.announced.make_room(alloc, packet),
            Side::Second => self.second.announced.make_room(alloc, packet),
        }
    }

    /// Counts a packet that an end sent, and in which this is found of AUTH. Returns how its TSNs
    /// follow those before.
    pub fn note(&mut self, sender: Side, packet: &SeenPacket<'_>, found: Authentication) -> Sequence
        ensures sender { CountsPacket (counts_of sender self.old) (packet_of packet.now)
            (counts_of sender self.new) }
        ensures receiver { counts_of (other sender) self.new ≡ counts_of (other sender) self.old }
        ensures packets { (counts_of sender self.new).packets
            ≡ one_more (counts_of sender self.old).packets }
    {
        let sequence = match sender {
            Side::First => note_between(&mut self.first, &mut self.second, packet, found),
            Side::Second => note_between(&mut self.second, &mut self.first, packet, found),
        };
        self.passes |= packet.passes;
        if self.established.is_none() {
            let has_data = self.end(sender.other()).counts.data_chunks > 0;
            self.established = establishing(has_data, packet);
        }
        if self.ended.is_none() {
            self.ended = ending(sender, packet);
        }
        self.last = packet.nanoseconds;
        sequence
    }

    /// Counts what is found of AUTH in a packet that an end sent, and returns it.
    pub fn authenticate(&mut self, sender: Side, packet: &SeenPacket<'_>) -> Authentication
        ensures first { self.new.first.counts ≡ self.old.first.counts }
        ensures second { self.new.second.counts ≡ self.old.second.counts }
    {
        match sender {
            Side::First => authenticate_between(&mut self.first, &self.second, packet),
            Side::Second => authenticate_between(&mut self.second, &self.first, packet),
        }
    }
}

/// Counts what is found of AUTH in a packet that one end sent to another, and returns it.
fn authenticate_between(sender: &mut End, receiver: &End, packet: &SeenPacket<'_>) -> Authentication
    ensures { sender.new.counts ≡ sender.old.counts }
{
    let found = Authentication::of(packet, &sender.vectors, &receiver.vectors);
    sender.authentication.count(found);
    found
}

/// Counts a packet that one end sent to another, and in which this is found of AUTH. Returns how
/// its TSNs follow those before.
fn note_between(
    sender: &mut End,
    receiver: &mut End,
    packet: &SeenPacket<'_>,
    found: Authentication,
) -> Sequence
    ensures sender { CountsPacket sender.old.counts (packet_of packet.now) sender.new.counts }
    ensures receiver { receiver.new.counts ≡ receiver.old.counts }
    ensures packets { sender.new.counts.packets ≡ one_more sender.old.counts.packets }
{
    let (source, destination) = packet.addresses();
    sender.note_address(source);
    receiver.note_address(destination);
    sender.counts.count_packet(packet);
    let mut sequence = Sequence::NOTHING;
    for chunk in packet.chunks() {
        if let Some(step) = sender.note_sent(packet, chunk) {
            sequence.count(step);
        }
        receiver.note_received(packet, chunk);
        if !is_discarded(chunk, found) {
            sender.announced.note_sent(packet, chunk);
            receiver.announced.note_received(packet, chunk);
        }
    }
    sender.announced.note_source(source);
    sequence
}

/// Returns whether a chunk is an ASCONF or an ASCONF ACK in a packet whose AUTH is wrong: its
/// receiver discards it (RFC 4895 section 6.3, RFC 5061 section 5.2).
fn is_discarded(chunk: Item<'_>, found: Authentication) -> bool {
    matches!(found.verdict, Some(AuthVerdict::Wrong)) && matches!(chunk.first, ASCONF | ASCONF_ACK)
}

/// Returns how a packet shows that the association is established, if it does: by a COOKIE ACK, or
/// by a SACK if its receiver has sent DATA.
fn establishing(has_data: bool, packet: &SeenPacket<'_>) -> Option<Established> {
    for chunk in packet.chunks() {
        let is_sack = chunk.first == SACK || chunk.first == NR_SACK;
        if chunk.first == COOKIE_ACK || is_sack && has_data {
            return Some(Established {
                packet: packet.number,
                nanoseconds: packet.nanoseconds,
                chunk: chunk.first,
            });
        }
    }
    None
}

/// Returns how a packet ends the association, if it does.
fn ending(by: Side, packet: &SeenPacket<'_>) -> Option<Ended> {
    for chunk in packet.chunks() {
        if chunk.first == ABORT || chunk.first == SHUTDOWN_COMPLETE {
            return Some(Ended {
                packet: packet.number,
                nanoseconds: packet.nanoseconds,
                chunk: chunk.first,
                by,
                cause: first_cause(chunk),
            });
        }
    }
    None
}

/// Returns the code of the first error cause in an ABORT.
fn first_cause(chunk: Item<'_>) -> Option<u16> {
    if chunk.first != ABORT {
        return None;
    }
    let cause = chunk.value.item()?;
    Some(cause.code())
}
