//! The paths of an association.

ghost use Rattle.std.specs.Prelude.{◌≡◌, ◌≤◌, ◌<◌, ◌+◌, ◌-◌, ◌^◌, if◌then◌else◌, vec_len, Any, IfOk, OnOk, IfSome, IfNone, IsTrue};
ghost use Rattle.dump_capture.specs.Number.{one_more};
ghost use Rattle.dump_packet.specs.SeenPackets.{packet_of};
ghost use Rattle.dump_packet.specs.Firsts.{IsFirst};
ghost use Rattle.dump_associations.specs.Paths.{packets_on, seen_on, Takes, Goes, CountAlike, CountsAt, CountsOnce, FindsPlace, Awaits, AnswersAt, AnswersFirst};
ghost use Rattle.dump_associations.specs.declared.paths.path.Way.{Way};

pub mod path;
pub mod path_table;

use crate::associations::tsns::{Step, Tsns};
use crate::paths::path::{Path, Way};
use dcsctp_borrowed::part::Item;
use dcsctp_receive::chunk_type::{
    DATA, FORWARD_TSN, HEARTBEAT, HEARTBEAT_ACK, I_DATA, I_FORWARD_TSN, NR_SACK, SACK, SHUTDOWN,
};
use dcsctp_wire::packet::read_u32_be;
use dump_packet::{Acknowledgement, PacketNumber, SeenPacket, Side, digest, increase};
use std::alloc::{AllocError, Global};

/// How many paths of an association are kept: eight pairs of addresses, in both directions.
const MOST_PATHS: usize = 16;

/// The paths of an association, in the order of their first packets.
#[derive(Drop)]
pub struct Paths {
    /// The first 16 of them.
    pub list: Vec<Path>,
    /// How many packets went on other paths, up to 2^64 - 1.
    pub others: u64,
    // the TSNs of both ends
    first: Tsns,
    second: Tsns,
    ghost bounded: { vec_len list ≤ 16 },
}

/// What a chunk says of the DATA of one end.
#[derive(Clone, Copy)]
enum PathEvent<'a> {
    /// It sends this TSN again.
    Again(u32),
    /// It gave up all up to this TSN.
    Skipped(u32),
    /// The other end has this.
    Acknowledged(Acknowledgement<'a>),
}

impl Paths {
    /// Returns the paths of an association without packets.
    pub fn new(alloc: Global) -> Paths
        ensures { seen_on result.list.items result.others ≡ 0 }
    {
        Paths {
            list: Vec::new(alloc),
            others: 0,
            first: Tsns::new(),
            second: Tsns::new(),
        }
    }

    /// Counts a packet that an end sent, once: on its path, or on another one.
    pub fn see(&mut self, sender: Side, packet: &SeenPacket<'_>) -> Result<(), AllocError>
        ensures counted { seen_on self.old.list.items self.old.others < 2 ^ 64 - 1
            → IfOk result (λ _. seen_on self.new.list.items self.new.others
            ≡ seen_on self.old.list.items self.old.others + 1) }
        ensures path { OnOk result ((way : Way) × Takes sender packet.now way
            × CountsOnce (packet_of packet.now) way self.old.list.items self.old.others
            self.new.list.items self.new.others) }
    {
        let way = Way::of(sender, packet);
        let place = self.place_of(way, packet)?;
        self.count(place, packet);
        self.note_chunks(place, sender, packet);
        Ok(())
    }

    /// Notes the chunks of a packet on the path in a place of the list.
    fn note_chunks(&mut self, place: usize, sender: Side, packet: &SeenPacket<'_>)
        ensures others { self.new.others ≡ self.old.others }
        ensures packets { packets_on self.new.list.items ≡ packets_on self.old.list.items }
        ensures alike { CountAlike self.old.list.items self.new.list.items }
    {
        for chunk in packet.chunks() {
            self.note(place, sender, packet, chunk);
        }
    }

    /// Returns the place of a path in the list, where it is put if it is new and there is room;
    /// beyond the list if there is none.
    fn place_of(&mut self, way: Way, packet: &SeenPacket<'_>) -> Result<usize, AllocError>
        ensures place { IfOk result
            (λ place. FindsPlace way self.old.list.items place self.new.list.items) }
        ensures others { self.new.others ≡ self.old.others }
        ensures packets { packets_on self.new.list.items ≡ packets_on self.old.list.items }
    {
        if let Some(place) = self.find(way) {
            return Ok(place);
        }
        let place = self.list.len();
        if place < MOST_PATHS {
            self.list.push(Path::new(way, packet))?;
        }
        Ok(place)
    }

    /// Returns the place of a path in the list, if it is there.
    fn find(&self, way: Way) -> Option<usize>
        ensures some { IfSome result (IsFirst (Goes way) self.now.list.items) }
        ensures none { IfNone result (¬ (Any (Goes way) self.now.list.items)) }
    {
        for (place, path) in self.list.iter().enumerate() {
            if path.is_way(way) {
                return Some(place);
            }
        }
        None
    }

    /// Counts a packet on the path in a place of the list, or among those on others.
    fn count(&mut self, place: usize, packet: &SeenPacket<'_>)
        ensures on_path { place < vec_len self.old.list → CountsAt (packet_of packet.now) place
            self.old.list.items self.new.list.items × (self.new.others ≡ self.old.others) }
        ensures on_others { vec_len self.old.list ≤ place
            → (self.new.list.items ≡ self.old.list.items)
            × (self.new.others ≡ one_more self.old.others) }
        ensures counted { seen_on self.old.list.items self.old.others < 2 ^ 64 - 1
            → seen_on self.new.list.items self.new.others
            ≡ seen_on self.old.list.items self.old.others + 1 }
    {
        if !count_on(&mut self.list, place, packet) {
            increase(&mut self.others);
        }
    }

    /// Notes a chunk of a packet on the path in a place of the list.
    fn note(&mut self, place: usize, sender: Side, packet: &SeenPacket<'_>, chunk: Item<'_>)
        ensures others { self.new.others ≡ self.old.others }
        ensures packets { packets_on self.new.list.items ≡ packets_on self.old.list.items }
        ensures alike { CountAlike self.old.list.items self.new.list.items }
    {
        let value = chunk.value.bytes;
        match chunk.first {
            DATA | I_DATA if value.len() >= 4 => {
                self.note_data(place, sender, packet, read_u32_be(value));
            }
            FORWARD_TSN | I_FORWARD_TSN if value.len() >= 4 => {
                let event = PathEvent::Skipped(read_u32_be(value));
                notify(&mut self.list, sender, packet, event);
            }
            SACK | NR_SACK | SHUTDOWN => {
                if let Some(acknowledged) = Acknowledgement::of(chunk) {
                    let event = PathEvent::Acknowledged(acknowledged);
                    notify(&mut self.list, sender.other(), packet, event);
                }
            }
            HEARTBEAT => ask(&mut self.list, place, digest(value), packet),
            HEARTBEAT_ACK => answer(&mut self.list, sender.other(), digest(value)),
            _ => {}
        }
    }

    /// Notes a TSN of a packet on the path in a place of the list.
    fn note_data(&mut self, place: usize, sender: Side, packet: &SeenPacket<'_>, tsn: u32)
        ensures others { self.new.others ≡ self.old.others }
        ensures packets { packets_on self.new.list.items ≡ packets_on self.old.list.items }
        ensures alike { CountAlike self.old.list.items self.new.list.items }
    {
        if self.step_of(sender, packet.number, tsn) == Step::Repeated {
            repeat(&mut self.list, place);
            notify(&mut self.list, sender, packet, PathEvent::Again(tsn));
        } else {
            wait(&mut self.list, place, packet, tsn);
        }
    }

    /// Notes a TSN that an end sent. Returns how it follows those before.
    fn step_of(&mut self, sender: Side, packet: PacketNumber, tsn: u32) -> Step
        ensures list { self.new.list ≡ self.old.list }
        ensures others { self.new.others ≡ self.old.others }
    {
        match sender {
            Side::First => self.first.note(tsn, packet),
            Side::Second => self.second.note(tsn, packet),
        }
    }
}

/// Counts a packet on the path in a place. Returns false if there is none.
fn count_on(list: &mut Vec<Path>, place: usize, packet: &SeenPacket<'_>) -> bool
    ensures size { vec_len list.new ≡ vec_len list.old }
    ensures counted { IsTrue result
        → CountsAt (packet_of packet.now) place list.old.items list.new.items }
    ensures beyond { ¬ (IsTrue result)
        → (vec_len list.old ≤ place) × (list.new.items ≡ list.old.items) }
    ensures packets { packets_on list.old.items < 2 ^ 64 - 1 → packets_on list.new.items
        ≡ packets_on list.old.items + (if result then 1 else 0) }
{
    match list.get_mut(place) {
        Some(path) => {
            path.count(packet);
            true
        }
        None => false,
    }
}

/// Counts a TSN that was sent again on the path in a place, if there is one.
fn repeat(list: &mut Vec<Path>, place: usize)
    ensures size { vec_len list.new ≡ vec_len list.old }
    ensures packets { packets_on list.new.items ≡ packets_on list.old.items }
    ensures alike { CountAlike list.old.items list.new.items }
{
    if let Some(path) = list.get_mut(place) {
        increase(&mut path.repeated);
    }
}

/// Waits for a TSN that was sent on the path in a place, if there is one.
fn wait(list: &mut Vec<Path>, place: usize, packet: &SeenPacket<'_>, tsn: u32)
    ensures size { vec_len list.new ≡ vec_len list.old }
    ensures packets { packets_on list.new.items ≡ packets_on list.old.items }
    ensures alike { CountAlike list.old.items list.new.items }
{
    if let Some(nanoseconds) = packet.nanoseconds
        && let Some(path) = list.get_mut(place)
    {
        path.round_trips.wait(tsn, nanoseconds);
    }
}

/// Notes a HEARTBEAT on the path in a place, if there is one.
fn ask(list: &mut Vec<Path>, place: usize, key: u64, packet: &SeenPacket<'_>)
    ensures size { vec_len list.new ≡ vec_len list.old }
    ensures packets { packets_on list.new.items ≡ packets_on list.old.items }
    ensures alike { CountAlike list.old.items list.new.items }
{
    if let Some(path) = list.get_mut(place) {
        path.heartbeats.ask(key, packet.number);
    }
}

/// Notes an answer to a HEARTBEAT of an end: on the first of its paths that awaits it.
fn answer(list: &mut Vec<Path>, asker: Side, key: u64)
    ensures size { vec_len list.new ≡ vec_len list.old }
    ensures packets { packets_on list.new.items ≡ packets_on list.old.items }
    ensures alike { CountAlike list.old.items list.new.items }
    ensures first { Any (Awaits asker key) list.old.items
        → AnswersFirst asker key list.old.items list.new.items }
    ensures none { ¬ (Any (Awaits asker key) list.old.items) → list.new.items ≡ list.old.items }
{
    if let Some(place) = awaiting(list, asker, key) {
        answer_at(list, place, key);
    }
}

/// Returns the place of the first path of an end that awaits an answer, if one does.
fn awaiting(list: &[Path], asker: Side, key: u64) -> Option<usize>
    ensures some { IfSome result (IsFirst (Awaits asker key) list.now) }
    ensures none { IfNone result (¬ (Any (Awaits asker key) list.now)) }
{
    for (place, path) in list.iter().enumerate() {
        if path.awaits(asker, key) {
            return Some(place);
        }
    }
    None
}

/// Notes an answer on the path in a place, which awaits it.
fn answer_at(list: &mut Vec<Path>, place: usize, key: u64)
    requires { place < vec_len list.old }
    ensures size { vec_len list.new ≡ vec_len list.old }
    ensures packets { packets_on list.new.items ≡ packets_on list.old.items }
    ensures alike { CountAlike list.old.items list.new.items }
    ensures answered { AnswersAt key place list.old.items list.new.items }
{
    list[place].heartbeats.answer(key);
}

/// Notifies all paths of an end of what a chunk says of its DATA.
fn notify(list: &mut Vec<Path>, sender: Side, packet: &SeenPacket<'_>, event: PathEvent<'_>)
    ensures size { vec_len list.new ≡ vec_len list.old }
    ensures packets { packets_on list.new.items ≡ packets_on list.old.items }
    ensures alike { CountAlike list.old.items list.new.items }
{
    for place in 0..list.len() {
        notify_at(list, place, sender, packet, event);
    }
}

/// Notifies the path in a place, if it is one of this end.
fn notify_at(
    list: &mut Vec<Path>,
    place: usize,
    sender: Side,
    packet: &SeenPacket<'_>,
    event: PathEvent<'_>,
)
    ensures size { vec_len list.new ≡ vec_len list.old }
    ensures packets { packets_on list.new.items ≡ packets_on list.old.items }
    ensures alike { CountAlike list.old.items list.new.items }
{
    let Some(path) = list.get_mut(place) else {
        return;
    };
    if path.way.sender != sender {
        return;
    }
    let trips = &mut path.round_trips;
    match (event, packet.nanoseconds) {
        (PathEvent::Again(tsn), _) => trips.leave(tsn),
        (PathEvent::Skipped(tsn), _) => trips.leave_to(tsn),
        (PathEvent::Acknowledged(acknowledged), Some(nanoseconds)) => {
            trips.acknowledge(acknowledged, nanoseconds, packet.number);
        }
        (PathEvent::Acknowledged(_), None) => {}
    }
}
