//! The channels of an association.

ghost use Rattle.std.specs.Prelude.{◌≡◌, ◌≤◌, ◌<◌, ◌+◌, ◌-◌, ◌^◌, ◌||◌, ◌↔◌, vec_len, Any, IfOk, OnOk, IfSome, IfNone, IsTrue};
ghost use Rattle.dump_packet.specs.Firsts.{IsFirst};
ghost use Rattle.dump_packet.specs.Questions.{HasKey, asked_by};
ghost use Rattle.dump_messages.specs.Channels.{messages_on, messages_seen, bytes_on, bytes_seen, AreAlike, IsOf, Adds, CountsAt, AddsToFirst, AddsToNew};

pub mod channel;
pub mod channel_table;
pub mod data_channel;
pub mod report;

use crate::channels::channel::{Channel, ChannelEvent, Tally};
use crate::channels::data_channel::{Establishment, Opened};
use crate::messages::message::Message;
use dcsctp_borrowed::part::{Item, Part};
use dcsctp_receive::chunk_type::RE_CONFIG;
use dcsctp_wire::packet::outgoing_ssn_reset_request_parameter::{
    OutgoingSsnResetRequestNumbers, PARAMETER_TYPE as OUTGOING_SSN_RESET,
};
use dcsctp_wire::packet::read_u32_be;
use dcsctp_wire::packet::reconfiguration_response_parameter::{
    PARAMETER_TYPE as RESPONSE, ReconfigurationResponseNumbers,
};
use dump_packet::{Moment, PacketNumber, SeenPacket, Side, Unanswered};
use std::alloc::{AllocError, Global};

/// How many channels of an association are kept.
const MOST_CHANNELS: usize = 1_024;

/// The channels of an association, in the order in which they were opened, or, where that wasn't
/// seen, a message of them was over.
#[derive(Drop)]
pub struct Channels {
    /// The association's number.
    pub association: u64,
    /// The first 1,024 of them.
    pub list: Vec<Channel>,
    /// The messages of those that found no room.
    pub others: Tally,
    /// Whether a filter passes a packet with a fragment of one of these messages.
    pub others_pass: bool,
    // the last 8 requests of each end to reset what it sends
    first_asked: Unanswered,
    second_asked: Unanswered,
    ghost bounded: { vec_len list ≤ 1024 },
}

impl Channels {
    /// Returns the channels of an association without packets.
    pub fn new(alloc: Global, association: u64) -> Channels
        ensures messages { messages_seen result.list.items result.others ≡ 0 }
        ensures bytes { bytes_seen result.list.items result.others ≡ 0 }
    {
        Channels {
            association,
            list: Vec::new(alloc),
            others: Tally::new(),
            others_pass: false,
            first_asked: Unanswered::new(),
            second_asked: Unanswered::new(),
        }
    }

    /// Notes a packet that an end sent: which channels are opened, acknowledged and reset. There
    /// is room for this many more of all associations.
    pub(crate) fn see(
        &mut self,
        sender: Side,
        packet: &SeenPacket<'_>,
        room: usize,
    ) -> Result<(), AllocError>
        ensures others { self.new.others ≡ self.old.others }
        ensures counts { AreAlike self.old.list.items self.new.list.items }
    {
        let most = self.list.len().saturating_add(room);
        for chunk in packet.chunks() {
            self.note(sender, Moment::of(packet), chunk, most)?;
        }
        Ok(())
    }

    /// Notes a chunk of a packet.
    fn note(
        &mut self,
        sender: Side,
        moment: Moment,
        chunk: Item<'_>,
        most: usize,
    ) -> Result<(), AllocError>
        ensures others { self.new.others ≡ self.old.others }
        ensures counts { AreAlike self.old.list.items self.new.list.items }
    {
        if chunk.first == RE_CONFIG {
            for parameter in chunk.value.items() {
                self.note_parameter(sender, moment.packet, parameter);
            }
            return Ok(());
        }
        match Establishment::of(sender, moment, chunk) {
            Some((stream, Establishment::Open(opened))) => self.open(stream, opened, most),
            Some((stream, Establishment::Ack)) => {
                let by = sender;
                notify(
                    &mut self.list,
                    ChannelEvent::Accepted { stream, by, moment },
                );
                Ok(())
            }
            None => Ok(()),
        }
    }

    /// Notes a parameter of a RE-CONFIG that an end sent, unless it is a request that was sent again.
    fn note_parameter(&mut self, sender: Side, packet: PacketNumber, parameter: Item<'_>)
        ensures others { self.new.others ≡ self.old.others }
        ensures counts { AreAlike self.old.list.items self.new.list.items }
    {
        if let Some(event) = event_of(parameter, sender, packet) {
            if self.is_new(event) {
                notify(&mut self.list, event);
            }
        }
    }

    /// Returns whether this isn't a request that was sent again.
    fn is_new(&mut self, event: ChannelEvent<'_>) -> bool
        ensures list { self.new.list ≡ self.old.list }
        ensures others { self.new.others ≡ self.old.others }
    {
        match event {
            ChannelEvent::Asked {
                by,
                number,
                packet,
                ..
            } => self.asks(by, number, packet),
            _ => true,
        }
    }

    /// Notes the number of a request to reset streams, which identifies it (RFC 6525 section 4.1).
    /// Returns whether none of the 8 that the end sent before has it.
    fn asks(&mut self, by: Side, number: u32, packet: PacketNumber) -> bool
        ensures list { self.new.list ≡ self.old.list }
        ensures others { self.new.others ≡ self.old.others }
        ensures new { IsTrue result
            ↔ ¬ (Any (HasKey number) (asked_by by self.old.first_asked self.old.second_asked)) }
    {
        match by {
            Side::First => self.first_asked.ask_once(u64::from(number), packet),
            Side::Second => self.second_asked.ask_once(u64::from(number), packet),
        }
    }

    /// Counts a message that is over, once: of its channel, which is put into the list if it is new
    /// and there is room, or of others.
    pub(crate) fn add(&mut self, message: &Message, has_room: bool) -> Result<(), AllocError>
        ensures messages { messages_seen self.old.list.items self.old.others < 2 ^ 64 - 1
            → IfOk result (λ _. messages_seen self.new.list.items self.new.others
            ≡ messages_seen self.old.list.items self.old.others + 1) }
        ensures bytes { bytes_seen self.old.list.items self.old.others + message.now.size < 2 ^ 64
            → IfOk result (λ _. bytes_seen self.new.list.items self.new.others
            ≡ bytes_seen self.old.list.items self.old.others + message.now.size) }
        ensures known { Any (IsOf message.now) self.old.list.items
            → AddsToFirst message.now self.old.list.items self.new.list.items
            × (self.new.others ≡ self.old.others)
            × (self.new.others_pass ≡ self.old.others_pass) }
        ensures new { ¬ (Any (IsOf message.now) self.old.list.items)
            → IsTrue has_room → vec_len self.old.list < 1024
            → OnOk result (AddsToNew message.now self.old.list.items self.new.list.items
            × (self.new.others ≡ self.old.others)
            × (self.new.others_pass ≡ self.old.others_pass)) }
        ensures full { ¬ (Any (IsOf message.now) self.old.list.items)
            → ¬ (IsTrue has_room × (vec_len self.old.list < 1024))
            → (self.new.list.items ≡ self.old.list.items)
            × Adds self.old.others message.now self.new.others
            × (self.new.others_pass ≡ (self.old.others_pass || message.now.passes)) }
    {
        if let Some(place) = self.find(message) {
            add_at(&mut self.list, place, message);
        } else if has_room && self.list.len() < MOST_CHANNELS {
            let mut channel = Channel::new(message.key.stream, message.ppid, None);
            channel.count(message);
            self.list.push(channel)?;
        } else {
            self.others.add(message);
            self.others_pass |= message.passes;
        }
        Ok(())
    }

    /// Returns the place of a message's channel in the list, if it is there.
    fn find(&self, message: &Message) -> Option<usize>
        ensures some { IfSome result (IsFirst (IsOf message.now) self.now.list.items) }
        ensures none { IfNone result (¬ (Any (IsOf message.now) self.now.list.items)) }
    {
        for (place, channel) in self.list.iter().enumerate() {
            if channel.has(message) {
                return Some(place);
            }
        }
        None
    }

    /// Notes a DATA_CHANNEL_OPEN: it is of a channel in the list, or begins one.
    fn open(&mut self, stream: u16, opened: Opened, most: usize) -> Result<(), AllocError>
        ensures others { self.new.others ≡ self.old.others }
        ensures counts { AreAlike self.old.list.items self.new.list.items }
    {
        if is_known(&mut self.list, stream, &opened) {
            return Ok(());
        }
        let packet = opened.sent.packet;
        notify(&mut self.list, ChannelEvent::Opened { stream, packet });
        if self.list.len() < MOST_CHANNELS.min(most) {
            self.list.push(Channel::new(stream, None, Some(opened)))?;
        }
        Ok(())
    }
}

/// Counts a message of the channel in a place.
fn add_at(list: &mut Vec<Channel>, place: usize, message: &Message)
    requires { place < vec_len list.old }
    ensures size { vec_len list.new ≡ vec_len list.old }
    ensures channel { CountsAt message.now place list.old.items list.new.items }
    ensures messages { messages_on list.old.items < 2 ^ 64 - 1 → messages_on list.new.items
        ≡ messages_on list.old.items + 1 }
    ensures bytes { bytes_on list.old.items + message.now.size < 2 ^ 64 → bytes_on list.new.items
        ≡ bytes_on list.old.items + message.now.size }
{
    list[place].count(message);
}

/// Returns whether a DATA_CHANNEL_OPEN is of a channel in the list.
fn is_known(list: &mut Vec<Channel>, stream: u16, opened: &Opened) -> bool
    ensures size { vec_len list.new ≡ vec_len list.old }
    ensures counts { AreAlike list.old.items list.new.items }
{
    for place in 0..list.len() {
        if is_known_at(list, place, stream, opened) {
            return true;
        }
    }
    false
}

/// Returns whether a DATA_CHANNEL_OPEN is of the channel in a place.
fn is_known_at(list: &mut Vec<Channel>, place: usize, stream: u16, opened: &Opened) -> bool
    ensures size { vec_len list.new ≡ vec_len list.old }
    ensures counts { AreAlike list.old.items list.new.items }
{
    match list.get_mut(place) {
        Some(channel) => channel.stream == stream && channel.knows(opened),
        None => false,
    }
}

/// Returns what a parameter of a RE-CONFIG says of channels, if it does.
fn event_of(parameter: Item<'_>, sender: Side, packet: PacketNumber) -> Option<ChannelEvent<'_>> {
    let bytes = parameter.value.bytes;
    match parameter.code() {
        OUTGOING_SSN_RESET if bytes.len() >= OutgoingSsnResetRequestNumbers::SIZE => {
            Some(ChannelEvent::Asked {
                by: sender,
                number: read_u32_be(bytes),
                streams: parameter.value.after(OutgoingSsnResetRequestNumbers::SIZE),
                packet,
            })
        }
        RESPONSE if bytes.len() >= ReconfigurationResponseNumbers::SIZE => {
            Some(ChannelEvent::Answered {
                to: sender.other(),
                number: read_u32_be(bytes),
                code: read_u32_be(&bytes[ReconfigurationResponseNumbers::RESULT..]),
                packet,
            })
        }
        _ => None,
    }
}

/// Notifies all channels of what is said of some.
fn notify(list: &mut Vec<Channel>, event: ChannelEvent<'_>)
    ensures size { vec_len list.new ≡ vec_len list.old }
    ensures counts { AreAlike list.old.items list.new.items }
{
    for place in 0..list.len() {
        notify_at(list, place, event);
    }
}

/// Notifies the channel in a place.
fn notify_at(list: &mut Vec<Channel>, place: usize, event: ChannelEvent<'_>)
    ensures size { vec_len list.new ≡ vec_len list.old }
    ensures counts { AreAlike list.old.items list.new.items }
{
    if let Some(channel) = list.get_mut(place) {
        channel.note(event);
    }
}
