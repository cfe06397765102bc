//! The table of associations.

ghost use Rattle.std.specs.Prelude.{◌≤◌, ◌<◌, ◌≡◌, ◌↔◌, ◌+◌, ◌-◌, ◌^◌, max, if◌then◌else◌, is_some, vec_len, IfOk, IsTrue, Option, Some};
ghost use Rattle.std.specs.Bool.{OnTrue};
ghost use Rattle.std.specs.List.Sorted.{IsNonDecreasingBy};
ghost use Rattle.std.specs.Option.{IfSome, IsSomeAnd, unwrap_or};
ghost use Rattle.dump_associations.specs.Attribution.{IsKnownBySender, MayBeOf, Holds, HasTagOf, IsKnown, IsOwner, IsOwnerOf, IsKnownOf, known_of, owner_of};
ghost use Rattle.dump_associations.specs.Ends.{HasLeft};
ghost use Rattle.dump_associations.specs.declared.associations.keys.Flow.{Flow};
ghost use Rattle.dump_capture.specs.Number.{one_more};
ghost use Rattle.dump_associations.specs.Order.{first_of};
ghost use Rattle.dump_associations.specs.Table.{TakesEnd, TakesSlot, CountsUnknown, counted, packets_of, packets_in, packets_left};

pub mod announced;
pub mod association;
pub mod counts;
pub mod end;
pub mod evicted;
pub mod icmp_errors;
pub mod initiation;
pub mod key;
pub mod keys;
pub mod membership;
pub mod order;
pub mod report;
pub mod requests;
pub mod round_trips;
pub mod stale_cookies;
pub mod transport;
pub mod tsns;

use crate::associations::association::{Association, Began};
use crate::associations::end::{End, Learned};
use crate::associations::key::{Arrival, Route};
use crate::associations::keys::{Flow, Keys};
use crate::associations::membership::Membership;
use crate::associations::order::Order;
use crate::associations::transport::TransportNames;
use dcsctp_borrowed::checksum::Checksum;
use dcsctp_receive::chunk_type::COOKIE_ECHO;
use dcsctp_receive::rule::Known;
use dcsctp_wire::packet::sctp_packet::COMMON_HEADER_SIZE;
use dump_capture::frame::FoundPacket;
use dump_capture::icmp::IcmpError;
use dump_packet::{PacketNumber, SeenPacket, Side, increase};
use std::alloc::{AllocError, Global};
use std::mem;

/// Whose packet a packet is.
#[derive(Clone, Copy)]
enum Owner {
    /// It is of an association, and from this end.
    Known(Flow),
    /// It is of an association that left.
    Gone,
    /// It is of none, but goes between the ends of a living association, from this one.
    Beside(Flow),
    /// It begins an association.
    New,
}

/// What was noted of a packet.
#[derive(Drop)]
pub struct Noted {
    /// The association that it is of.
    pub of: Option<Membership>,
    /// The association that left the table, if it was full and the packet began another.
    pub left: Option<Box<Association>>,
}

/// The associations of a capture, in bounded memory.
///
/// A packet belongs to the association whose end chose its tag, between the same ports, and of a
/// log in the same direction and of the same transport; an INIT only if the association may have
/// one of its addresses. One with an unknown tag belongs to the association between the same ends
/// of which no tag of that end is known, or to one that began midway and that it goes on with. A
/// packet of an association that left is of none, and begins none; so is one between the ends of a
/// living association of which it has neither tag, unless it begins with an INIT, or its tag and
/// another answered one another there. Packets that are refused, or have a wrong checksum, belong
/// to one as others do.
#[derive(Drop)]
pub struct Associations {
    alloc: Global,
    most: usize,
    begun: u64,
    left: u64,
    unknown: u64,
    table: Vec<Box<Association>>,
    order: Order,
    keys: Keys,
    names: TransportNames,
    ghost bounded: { vec_len table ≤ most },
}

impl Associations {
    /// Returns a table without associations, which keeps at most `most`, or one if that is 0.
    pub fn new(alloc: Global, most: usize) -> Result<Associations, AllocError>
        ensures { IfOk result (λ r. (r.most ≡ max most 1) × (counted r.table.items r.unknown ≡ 0)) }
    {
        let most = most.max(1);
        Ok(Associations {
            alloc,
            most,
            begun: 0,
            left: 0,
            unknown: 0,
            table: Vec::new(alloc),
            order: Order::new(alloc)?,
            keys: Keys::new(alloc, most.saturating_mul(4)),
            names: TransportNames::new(alloc),
        })
    }

    /// Counts a packet, once: of one end of one association, or as unknown.
    pub fn see(&mut self, packet: &SeenPacket<'_>) -> Result<Noted, AllocError>
        ensures unknown { IfOk result
            (λ noted. CountsUnknown noted.of self.old.unknown self.new.unknown) }
        ensures left { IfOk result (λ noted. HasLeft noted.left) }
        ensures counted { counted self.old.table.items self.old.unknown < 2 ^ 64 - 1
            → IfOk result (λ noted. counted self.new.table.items self.new.unknown
            + packets_left noted.left ≡ counted self.old.table.items self.old.unknown + 1) }
    {
        let mut of = None;
        match Arrival::of(packet, &self.names) {
            Some(arrival) => {
                self.names.keep(arrival.transport, arrival.route.transport)?;
                match self.find(&arrival) {
                    Owner::Known(flow) => of = self.note(flow, &arrival)?,
                    Owner::Gone => increase(&mut self.unknown),
                    Owner::Beside(flow) => self.note_beside(flow, &arrival),
                    Owner::New => return self.begin(&arrival),
                }
            }
            None => increase(&mut self.unknown),
        }
        Ok(Noted { of, left: None })
    }

    /// Counts an ICMP error, in the packet of this number, of the end that sent the packet which it
    /// quotes (RFC 9260 section 10), if that is of an association. Counts no packet.
    pub fn note_error(&mut self, number: PacketNumber, error: &IcmpError<'_>)
        ensures unknown { self.new.unknown ≡ self.old.unknown }
        ensures order { self.new.order ≡ self.old.order }
        ensures keys { self.new.keys ≡ self.old.keys }
        ensures counted { counted self.new.table.items self.new.unknown
            ≡ counted self.old.table.items self.old.unknown }
    {
        // At least the ports and the tag are quoted, maybe no whole header.
        let mut header = [0; COMMON_HEADER_SIZE];
        let bytes = error.quoted.packet;
        let packet = if bytes.len() < COMMON_HEADER_SIZE {
            header[..bytes.len()].copy_from_slice(bytes);
            &header[..]
        } else {
            bytes
        };
        let quoted = SeenPacket {
            number,
            nanoseconds: None,
            found: FoundPacket {
                addresses: error.quoted.addresses,
                udp_ports: error.quoted.udp_ports,
                length: error.quoted.length,
                packet,
            },
            direction: None,
            transport: b"",
            checksum: Checksum::Unknown,
            is_refused: false,
            passes: false,
            key: None,
        };
        if let Some(flow) = self.owner(&quoted) {
            count_error(&mut self.table, flow, number, error);
        }
    }

    /// Returns what is known of the association of a packet that wasn't counted yet, by the packets
    /// before it: whether the end to which it goes announced Zero Checksum Acceptable (RFC 9653
    /// section 4), and which user data was sent.
    pub fn known_of(&self, packet: &SeenPacket<'_>) -> Known
        ensures { IsKnownOf self.now.keys.flows self.now.table.items packet.now result }
    {
        known_in(&self.table, self.owner(packet))
    }

    /// Returns the number of the association of a packet that wasn't counted yet; `None` if it is
    /// of none, or begins one.
    pub fn number_of(&self, packet: &SeenPacket<'_>) -> Option<u64> {
        let flow = self.owner(packet)?;
        Some(self.table.get(flow.slot)?.number)
    }

    /// Returns the association of a packet that wasn't counted yet, and which end sent it; `None`
    /// if it is of none, or begins one.
    fn owner(&self, packet: &SeenPacket<'_>) -> Option<Flow>
        ensures { IsOwnerOf self.now.keys.flows self.now.table.items packet.now result }
    {
        let arrival = Arrival::of(packet, &self.names)?;
        match self.find(&arrival) {
            Owner::Known(flow) => Some(flow),
            Owner::Gone | Owner::Beside(_) | Owner::New => None,
        }
    }

    /// Returns how many associations left the table, up to 2^64 - 1.
    pub fn left(&self) -> u64
        ensures { result ≡ self.now.left }
    {
        self.left
    }

    /// Returns how many packets are of no association, up to 2^64 - 1: those of associations that
    /// left, those out of the blue, and those whose common header wasn't captured.
    pub fn unknown(&self) -> u64
        ensures { result ≡ self.now.unknown }
    {
        self.unknown
    }

    /// Returns the associations that didn't leave the table, in the order in which they began.
    pub fn into_vec(self) -> Vec<Box<Association>>
        ensures bounded { vec_len result ≤ self.most }
        ensures ordered { IsNonDecreasingBy (λ a. a.value.number) result.items }
    {
        let mut associations = self.table;
        associations.sort_unstable_by_key(|association| association.number);
        associations
    }

    /// Returns whose packet it is.
    fn find(&self, arrival: &Arrival<'_, '_>) -> Owner
        ensures { IsOwner self.now.keys.flows self.now.table.items (Some arrival.now)
            (owner_of result) }
    {
        if let Some(flow) = self.by_tag(arrival) {
            return Owner::Known(flow);
        }
        if self.keys.is_gone(arrival) {
            return Owner::Gone;
        }
        if let Some(flow) = self.without_tag(arrival) {
            return Owner::Known(flow);
        }
        if arrival.is_init() || !arrival.route.is_exclusive() {
            return Owner::New;
        }
        match self.keys.latest(arrival.route) {
            Some(flow) if self.is_beside(flow, arrival.tag) => Owner::Beside(flow),
            _ => Owner::New,
        }
    }

    /// Returns whose packet it is by its tag.
    fn by_tag(&self, arrival: &Arrival<'_, '_>) -> Option<Flow>
        ensures known { IsKnown self.now.keys.flows self.now.table.items arrival.now
            → IsSomeAnd result (HasTagOf self.now.table.items arrival.now) }
        ensures sound { IfSome result (λ flow. Holds self.now.table.items flow.slot
            (MayBeOf arrival.now flow.sender)) }
    {
        let latest = self.keys.find(arrival)?;
        if !self.has_tag(latest, arrival) {
            return None;
        }
        if self.is_between(latest, arrival) {
            return Some(latest);
        }
        // Other hosts may have chosen the same tag.
        for sender in [Side::First, Side::Second] {
            if let Some(flow) = self.keys.on_route(arrival.route, sender) {
                if self.has_tag(flow, arrival) {
                    return Some(flow);
                }
            }
        }
        if arrival.is_init() {
            return None;
        }
        Some(latest)
    }

    /// Returns whether an end of an association chose the tag by which a packet is known that this
    /// one sent.
    fn has_tag(&self, flow: Flow, arrival: &Arrival<'_, '_>) -> bool
        ensures slot { OnTrue result (Holds self.now.table.items flow.slot
            (MayBeOf arrival.now flow.sender)) }
        ensures tag { ¬ (IsKnownBySender arrival.now)
            → IsTrue result ↔ HasTagOf self.now.table.items arrival.now flow }
    {
        match (self.table.get(flow.slot), arrival.chosen()) {
            (Some(association), Some((Side::First, tag))) => {
                association.end(flow.sender).has_tag(tag)
            }
            (Some(association), Some((Side::Second, tag))) => {
                association.end(flow.sender.other()).has_tag(tag)
            }
            _ => false,
        }
    }

    /// Returns whether a packet comes from an address of its sender, or goes to one of its
    /// receiver.
    fn is_between(&self, flow: Flow, arrival: &Arrival<'_, '_>) -> bool {
        let Some(association) = self.table.get(flow.slot) else {
            return false;
        };
        let (from, to) = (arrival.route.from.address, arrival.route.to.address);
        association.end(flow.sender).may_have_address(from)
            || association.end(flow.sender.other()).may_have_address(to)
    }

    /// Returns whose packet with an unknown tag it is.
    fn without_tag(&self, arrival: &Arrival<'_, '_>) -> Option<Flow>
        ensures { IfSome result (λ flow. Holds self.now.table.items flow.slot
            (MayBeOf arrival.now flow.sender)) }
    {
        for sender in [Side::First, Side::Second] {
            if let Some(flow) = self.keys.on_route(arrival.route, sender) {
                if self.joins(arrival, flow) {
                    return Some(flow);
                }
            }
        }
        let flow = self.keys.midway(arrival.route)?;
        let association = self.table.get(flow.slot)?;
        let is_known = association.end(flow.sender.other()).tag.is_some();
        if is_known || !association.is_continued_by(flow.sender, arrival.first()?) {
            return None;
        }
        Some(flow)
    }

    /// Returns whether a packet with an unknown tag is of the latest association on its route, in
    /// which this end sends on it.
    fn joins(&self, arrival: &Arrival<'_, '_>, flow: Flow) -> bool
        ensures { OnTrue result (Holds self.now.table.items flow.slot
            (MayBeOf arrival.now flow.sender)) }
    {
        let Some(association) = self.table.get(flow.slot) else {
            return false;
        };
        let sender = flow.sender;
        let (from, to) = (association.end(sender), association.end(sender.other()));
        let is_initiated = !association.is_midway() && association.ended.is_none();
        if arrival.route.has_equal_ends() && !association.is_midway() {
            // Its INIT ACK has its tag.
            return false;
        }
        if arrival.is_init() {
            // Both ends may send an INIT (RFC 9260 section 5.2.1), each with a tag of its own.
            return is_initiated && from.tag.is_none() && to.tag != arrival.initiate_tag();
        }
        if arrival.is_reflected() {
            return false;
        }
        // An INIT that is sent again may be answered by several tags.
        let is_answer = arrival.begins_with(COOKIE_ECHO)
            && is_initiated
            && association.established.is_none();
        to.tag.is_none() || is_answer
    }

    /// Returns whether a packet of this end, with a tag of neither end, begins no association: this
    /// one lives, and its tag and one of the other end haven't answered one another.
    fn is_beside(&self, flow: Flow, tag: u32) -> bool {
        match self.table.get(flow.slot) {
            Some(association) => {
                association.ended.is_none() && association.answer_to(flow.sender, tag).is_none()
            }
            None => false,
        }
    }

    /// Returns whether an association didn't end.
    fn lives(&self, slot: usize) -> bool {
        match self.table.get(slot) {
            Some(association) => association.ended.is_none(),
            None => false,
        }
    }

    /// Counts a packet beside an association.
    fn note_beside(&mut self, flow: Flow, arrival: &Arrival<'_, '_>)
        ensures unknown { self.new.unknown ≡ one_more self.old.unknown }
        ensures counted { counted self.old.table.items self.old.unknown < 2 ^ 64 - 1
            → counted self.new.table.items self.new.unknown
            ≡ counted self.old.table.items self.old.unknown + 1 }
    {
        increase(&mut self.unknown);
        count_beside(&mut self.table, flow, arrival.answering_tag());
    }

    /// Counts a packet of an association.
    fn note(
        &mut self,
        flow: Flow,
        arrival: &Arrival<'_, '_>,
    ) -> Result<Option<Membership>, AllocError>
        ensures unknown { IfOk result (λ of. CountsUnknown of self.old.unknown self.new.unknown) }
        ensures counted { counted self.old.table.items self.old.unknown < 2 ^ 64 - 1
            → IfOk result (λ _. counted self.new.table.items self.new.unknown
            ≡ counted self.old.table.items self.old.unknown + 1) }
    {
        let (sender, receiver) = (flow.sender, flow.sender.other());
        if let Some(tag) = arrival.initiate_tag() {
            self.learn(flow.slot, sender, tag)?;
        }
        if arrival.is_reflected() {
            self.learn(flow.slot, sender, arrival.tag)?;
        } else if arrival.tag != 0 {
            self.learn(flow.slot, receiver, arrival.tag)?;
        }
        let had_ended = !self.lives(flow.slot);
        make_room(&mut self.table, self.alloc, flow, arrival.packet)?;
        let of = count_of(&mut self.table, flow, arrival.packet);
        if of.is_none() {
            increase(&mut self.unknown);
        } else if !had_ended {
            self.note_order(flow.slot)?;
        }
        Ok(of)
    }

    /// Notes that a packet came of an association that lived before it.
    fn note_order(&mut self, slot: usize) -> Result<(), AllocError>
        ensures unknown { self.new.unknown ≡ self.old.unknown }
        ensures counted { counted self.new.table.items self.new.unknown
            ≡ counted self.old.table.items self.old.unknown }
    {
        if self.lives(slot) {
            self.order.touch(slot)
        } else {
            self.order.end(slot)
        }
    }

    /// Notes the tag of an end.
    fn learn(&mut self, slot: usize, side: Side, tag: u32) -> Result<(), AllocError>
        ensures unknown { self.new.unknown ≡ self.old.unknown }
        ensures counted { counted self.new.table.items self.new.unknown
            ≡ counted self.old.table.items self.old.unknown }
    {
        let Some(learned) = learn_tag(&mut self.table, slot, side, tag) else {
            return Ok(());
        };
        let Learned::New { forgotten } = learned.what else {
            return Ok(());
        };
        let flow = Flow {
            slot,
            sender: side.other(),
        };
        if let Some(forgotten) = forgotten {
            let _ = self.keys.forget_flow(learned.route, flow, forgotten);
        }
        self.keys.add_flow(learned.route, flow, tag)
    }

    /// Begins an association by a packet.
    fn begin(&mut self, arrival: &Arrival<'_, '_>) -> Result<Noted, AllocError>
        ensures unknown { IfOk result
            (λ noted. CountsUnknown noted.of self.old.unknown self.new.unknown) }
        ensures left { IfOk result (λ noted. HasLeft noted.left) }
        ensures counted { counted self.old.table.items self.old.unknown < 2 ^ 64 - 1
            → IfOk result (λ noted. counted self.new.table.items self.new.unknown
            + packets_left noted.left ≡ counted self.old.table.items self.old.unknown + 1) }
    {
        let (restart_of, answer) = (self.restarted(arrival), self.answer_to(arrival));
        self.begun = self.begun.saturating_add(1);
        let association = Box::new(self.alloc, begun_by(arrival, self.begun, restart_of))?;
        let (slot, left) = self.place(association)?;
        self.keys
            .add_route(arrival.route, slot, !arrival.is_init())?;
        let sender = Side::First;
        if let Some(tag) = answer {
            self.learn(slot, sender, tag)?;
        }
        let of = self.note(Flow { slot, sender }, arrival)?;
        Ok(Noted { of, left })
    }

    /// Returns the number of the association that an INIT restarts: one that was established
    /// between the same ends, and lives.
    fn restarted(&self, arrival: &Arrival<'_, '_>) -> Option<u64> {
        if !arrival.is_init() || !arrival.route.is_exclusive() {
            return None;
        }
        let latest = self.keys.latest(arrival.route)?;
        let association = self.table.get(latest.slot)?;
        let was_established = association.is_midway() || association.established.is_some();
        if association.ended.is_some() || !was_established {
            return None;
        }
        Some(association.number)
    }

    /// Returns the tag by which the tag of a packet was answered, beside another association.
    fn answer_to(&self, arrival: &Arrival<'_, '_>) -> Option<u32> {
        let latest = self.keys.latest(arrival.route)?;
        let association = self.table.get(latest.slot)?;
        association.answer_to(latest.sender, arrival.tag)
    }

    /// Puts an association without packets into the table. Returns its slot, and the one that left
    /// the table, if it was full.
    fn place(
        &mut self,
        association: Box<Association>,
    ) -> Result<(usize, Option<Box<Association>>), AllocError>
        requires { packets_of association.value ≡ 0 }
        ensures unknown { self.new.unknown ≡ self.old.unknown }
        ensures left { IfOk result (λ placed. HasLeft placed.1) }
        ensures room { vec_len self.old.table < self.old.most
            → IfOk result (λ placed. TakesEnd self.old.table.items association placed.0 placed.1
            self.new.table.items) }
        ensures full { self.old.most ≤ vec_len self.old.table
            → IfOk result (λ placed. (placed.0 ≡ unwrap_or (first_of
            self.old.order.living.entries self.old.order.ended.entries) 0)
            × (placed.0 < vec_len self.old.table → TakesSlot placed.0 self.old.table.items
            association placed.1 self.new.table.items)) }
        ensures counted { IfOk result (λ placed. counted self.new.table.items self.new.unknown
            + packets_left placed.1 ≡ counted self.old.table.items self.old.unknown) }
    {
        if self.table.len() < self.most {
            let slot = self.table.len();
            self.table.push(association)?;
            self.order.touch(slot)?;
            return Ok((slot, None));
        }
        // A full table has a slot at least.
        let slot = self.order.first().unwrap_or(0);
        self.forget(slot)?;
        self.order.touch(slot)?;
        let left = replace(&mut self.table, slot, association);
        self.left = self.left.saturating_add(u64::from(left.is_some()));
        Ok((slot, left))
    }

    /// Forgets by what the association in a slot is known, if there is one.
    fn forget(&mut self, slot: usize) -> Result<(), AllocError>
        ensures table { self.new.table ≡ self.old.table }
        ensures order { self.new.order ≡ self.old.order }
        ensures unknown { self.new.unknown ≡ self.old.unknown }
    {
        match self.table.get(slot) {
            Some(leaving) => self.keys.forget(slot, leaving),
            None => Ok(()),
        }
    }
}

/// Returns what is known of an association in the table, if there is one.
fn known_in(table: &Vec<Box<Association>>, owner: Option<Flow>) -> Known
    ensures { result ≡ known_of table.now.items owner }
{
    let Some(flow) = owner else {
        return Known::NOTHING;
    };
    match table.get(flow.slot) {
        Some(association) => {
            let (first, second) = (&association.first.counts, &association.second.counts);
            Known {
                accepts_zero: association.end(flow.sender.other()).accepts_zero,
                has_data: first.has_data() || second.has_data(),
                has_idata: first.i_data_chunks > 0 || second.i_data_chunks > 0,
            }
        }
        None => Known::NOTHING,
    }
}

/// Returns an association that a packet begins, without packets.
fn begun_by(arrival: &Arrival<'_, '_>, number: u64, restart_of: Option<u64>) -> Association
    ensures { packets_of result ≡ 0 }
{
    let (route, packet) = (arrival.route, arrival.packet);
    Association {
        number,
        restart_of,
        has_left: false,
        passes: false,
        transport: arrival.transport,
        route,
        first: End::new(route.from.address, route.from.port),
        second: End::new(route.to.address, route.to.port),
        began: Began {
            packet: packet.number,
            nanoseconds: packet.nanoseconds,
            chunk: arrival.chunk(),
        },
        established: None,
        ended: None,
        last: packet.nanoseconds,
        out_of_the_blue: 0,
        stray: None,
    }
}

/// Takes memory for what a packet announces.
fn make_room(
    table: &mut Vec<Box<Association>>,
    alloc: Global,
    flow: Flow,
    packet: &SeenPacket<'_>,
) -> Result<(), AllocError>
    ensures size { vec_len table.new ≡ vec_len table.old }
    ensures packets { packets_in table.new.items ≡ packets_in table.old.items }
{
    match table.get_mut(flow.slot) {
        Some(association) => association.make_room(alloc, flow.sender, packet),
        None => Ok(()),
    }
}

/// What an association learned of a tag, and its route.
#[derive(Clone, Copy)]
struct LearnedTag {
    what: Learned,
    route: Route,
}

/// Notes the tag of an end of the association in a slot, if there is one.
fn learn_tag(
    table: &mut Vec<Box<Association>>,
    slot: usize,
    side: Side,
    tag: u32,
) -> Option<LearnedTag>
    ensures size { vec_len table.new ≡ vec_len table.old }
    ensures packets { packets_in table.new.items ≡ packets_in table.old.items }
{
    let association = table.get_mut(slot)?;
    let what = association.learn(side, tag);
    Some(LearnedTag {
        what,
        route: association.route,
    })
}

/// Counts a packet of the association in a slot. Returns `None` if there is none.
fn count_of(
    table: &mut Vec<Box<Association>>,
    flow: Flow,
    packet: &SeenPacket<'_>,
) -> Option<Membership>
    ensures sender { IfSome result (λ member. member.sender ≡ flow.sender) }
    ensures size { vec_len table.new ≡ vec_len table.old }
    ensures packets { packets_in table.old.items < 2 ^ 64 - 1 → packets_in table.new.items
        ≡ packets_in table.old.items + (if is_some result then 1 else 0) }
{
    let association = table.get_mut(flow.slot)?;
    let authentication = association.authenticate(flow.sender, packet);
    let sequence = association.note(flow.sender, packet, authentication);
    Some(Membership {
        association: association.number,
        sender: flow.sender,
        sequence,
        authentication,
    })
}

/// Counts a packet of an end beside the association in a slot, if there is one, and its tag, if
/// it is the receiver's.
fn count_beside(table: &mut Vec<Box<Association>>, flow: Flow, tag: Option<u32>)
    ensures size { vec_len table.new ≡ vec_len table.old }
    ensures packets { packets_in table.new.items ≡ packets_in table.old.items }
{
    if let Some(association) = table.get_mut(flow.slot) {
        association.note_beside(flow.sender, tag);
    }
}

/// Counts an ICMP error that quotes a packet of an end of the association in a slot, if there is
/// one.
fn count_error(
    table: &mut Vec<Box<Association>>,
    flow: Flow,
    number: PacketNumber,
    error: &IcmpError<'_>,
)
    ensures size { vec_len table.new ≡ vec_len table.old }
    ensures packets { packets_in table.new.items ≡ packets_in table.old.items }
{
    if let Some(association) = table.get_mut(flow.slot) {
        association.note_error(flow.sender, number, error);
    }
}

/// Puts an association without packets into a slot. Returns the one that leaves it, if there is
/// one.
fn replace(
    table: &mut Vec<Box<Association>>,
    slot: usize,
    association: Box<Association>,
) -> Option<Box<Association>>
    requires { packets_of association.value ≡ 0 }
    ensures size { vec_len table.new ≡ vec_len table.old }
    ensures slot { slot < vec_len table.old
        → TakesSlot slot table.old.items association result table.new.items }
    ensures left { HasLeft result }
    ensures packets { packets_in table.new.items + packets_left result
        ≡ packets_in table.old.items }
{
    let place = table.get_mut(slot)?;
    let mut left = mem::replace(place, association);
    left.has_left = true;
    Some(left)
}
