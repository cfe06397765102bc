//! The user messages of all associations that are outstanding.

pub mod fragment;
pub mod last_messages;
pub mod message;
pub mod outgoing;
pub mod payloads;
pub mod report;
pub mod wait;

use crate::messages::fragment::Fragment;
use crate::messages::message::{EndedMessage, EndedMessages};
use crate::messages::outgoing::Outgoing;
use dcsctp_borrowed::part::Item;
use dcsctp_receive::chunk_type::{
    ABORT, DATA, FORWARD_TSN, I_DATA, I_FORWARD_TSN, INIT, INIT_ACK, NR_SACK, RE_CONFIG, SACK,
    SHUTDOWN_COMPLETE,
};
use dcsctp_wire::packet::forward_tsn_chunk::ForwardTsnNumbers;
use dcsctp_wire::packet::init_chunk::InitNumbers;
use dcsctp_wire::packet::outgoing_ssn_reset_request_parameter::{
    OutgoingSsnResetRequestNumbers, PARAMETER_TYPE as OUTGOING_SSN_RESET,
};
use dcsctp_wire::packet::read_u32_be;
use dcsctp_wire::packet::sack_chunk::SackNumbers;
use dump_packet::{Acknowledgement, EndKey, Moment, SeenPacket, Side};
use std::alloc::{AllocError, Global};
use std::collections::HashMap;

/// How many fragments of all ends are followed at a time.
const MOST_FRAGMENTS: usize = 65_536;

/// The user messages that are outstanding, in bounded memory: at most 1,024 fragments of an end,
/// and 65,536 of all. What finds no room isn't followed, nor is a message of that end that isn't
/// whole then.
#[derive(Drop)]
pub struct Messages {
    alloc: Global,
    associations: HashMap<u64, Box<Ends>>,
    // how many fragments are followed
    count: usize,
    ended: EndedMessages,
}

impl Messages {
    /// Returns those of a capture without packets. `keeps_payloads` says whether their user data is
    /// asked for: of all ends at most 16 MiB are kept at a time.
    pub fn new(alloc: Global, keeps_payloads: bool) -> Messages {
        Messages {
            alloc,
            associations: HashMap::new(alloc),
            count: 0,
            ended: EndedMessages::new(alloc, keeps_payloads),
        }
    }

    /// Notes a packet that an end of an association sent.
    pub fn see(&mut self, sender: EndKey, packet: &SeenPacket<'_>) -> Result<(), AllocError> {
        if !self.associations.contains_key(&sender.association) {
            let ends = Ends::new(self.alloc, sender.association);
            self.associations
                .insert(sender.association, Box::new(self.alloc, ends)?)?;
        }
        let Some(ends) = self.associations.get_mut(&sender.association) else {
            return Ok(());
        };
        for chunk in packet.chunks() {
            let (before, has_room) = (ends.count(), self.count < MOST_FRAGMENTS);
            ends.note(sender.side, packet, chunk, has_room, &mut self.ended)?;
            self.count = self
                .count
                .saturating_sub(before)
                .saturating_add(ends.count());
        }
        Ok(())
    }

    /// Notes that an association left the table: what is outstanding isn't followed on.
    pub fn leave(&mut self, association: u64) -> Result<(), AllocError> {
        if let Some(mut ends) = self.associations.remove(&association) {
            self.count = self.count.saturating_sub(ends.count());
            ends.finish(&mut self.ended)?;
        }
        Ok(())
    }

    /// Notes that the capture ended.
    pub fn finish(&mut self) -> Result<(), AllocError> {
        let associations = std::mem::replace(&mut self.associations, HashMap::new(self.alloc));
        let mut all = Vec::new(self.alloc);
        for ends in associations.into_values() {
            all.push(ends)?;
        }
        all.sort_unstable_by_key(|ends| ends.association);
        for mut ends in all {
            ends.finish(&mut self.ended)?;
        }
        self.count = 0;
        Ok(())
    }

    /// Returns how many DATA and I-DATA chunks weren't followed, up to 2^64 - 1.
    pub fn left_out(&self) -> u64 {
        self.ended.left_out()
    }

    /// Returns the messages that are over since this was asked last, in the order in which they
    /// were.
    pub fn take(&mut self) -> Vec<EndedMessage> {
        self.ended.take()
    }
}

/// What both ends of an association sent; `None` of one that sent no INIT, INIT ACK or user data.
#[derive(Drop)]
struct Ends {
    alloc: Global,
    association: u64,
    first: Option<Outgoing>,
    second: Option<Outgoing>,
}

impl Ends {
    /// Returns those of an association without packets.
    fn new(alloc: Global, association: u64) -> Ends {
        Ends {
            alloc,
            association,
            first: None,
            second: None,
        }
    }

    /// Returns how many fragments are followed.
    fn count(&self) -> usize {
        let mut count: usize = 0;
        for end in [&self.first, &self.second] {
            if let Some(outgoing) = end {
                count = count.saturating_add(outgoing.count());
            }
        }
        count
    }

    /// Returns what an end sent, if it sent something.
    fn end(&mut self, side: Side) -> Option<&mut Outgoing> {
        match side {
            Side::First => self.first.as_mut(),
            Side::Second => self.second.as_mut(),
        }
    }

    /// Begins an end, if it is new.
    fn begin(&mut self, side: Side) {
        if self.end(side).is_some() {
            return;
        }
        let outgoing = Some(Outgoing::new(self.alloc, self.association, side));
        match side {
            Side::First => self.first = outgoing,
            Side::Second => self.second = outgoing,
        }
    }

    /// Notes a chunk that an end sent. `has_room` says whether one more fragment may be followed.
    fn note(
        &mut self,
        sender: Side,
        packet: &SeenPacket<'_>,
        chunk: Item<'_>,
        has_room: bool,
        ended: &mut EndedMessages,
    ) -> Result<(), AllocError> {
        let (value, moment) = (chunk.value.bytes, Moment::of(packet));
        if let DATA | I_DATA | INIT | INIT_ACK = chunk.first {
            self.begin(sender);
        }
        if let Some(outgoing) = self.end(sender) {
            match chunk.first {
                DATA | I_DATA => send(outgoing, packet, chunk, has_room, ended)?,
                INIT | INIT_ACK if value.len() >= InitNumbers::SIZE => {
                    outgoing.begin(read_u32_be(&value[InitNumbers::INITIAL_TSN..]));
                }
                RE_CONFIG => note_resets(outgoing, chunk)?,
                FORWARD_TSN | I_FORWARD_TSN if value.len() >= ForwardTsnNumbers::SIZE => {
                    outgoing.skip(value, chunk.first, moment, ended)?;
                }
                _ => {}
            }
        }
        if let ABORT | SHUTDOWN_COMPLETE = chunk.first {
            self.finish(ended)?;
        }
        if let Some(acknowledged) = Acknowledgement::of(chunk)
            && let Some(outgoing) = self.end(sender.other())
        {
            outgoing.acknowledge(acknowledged, is_closed(chunk), moment, ended)?;
        }
        Ok(())
    }

    /// Adds the messages that aren't over. What is sent later isn't followed.
    fn finish(&mut self, ended: &mut EndedMessages) -> Result<(), AllocError> {
        for side in [Side::First, Side::Second] {
            if let Some(outgoing) = self.end(side) {
                outgoing.finish(ended)?;
            }
        }
        Ok(())
    }
}

/// Notes a DATA or an I-DATA that an end sent.
fn send(
    outgoing: &mut Outgoing,
    packet: &SeenPacket<'_>,
    chunk: Item<'_>,
    has_room: bool,
    ended: &mut EndedMessages,
) -> Result<(), AllocError> {
    match Fragment::of(packet, chunk) {
        Some(fragment) => {
            if outgoing.send(&fragment, has_room, ended)? {
                ended.keep_payload(outgoing.association, outgoing.sender, chunk)?;
            }
        }
        None => outgoing.note_lost(ended),
    }
    Ok(())
}

/// Notes which streams a RE-CONFIG of an end asks to reset.
fn note_resets(outgoing: &mut Outgoing, chunk: Item<'_>) -> Result<(), AllocError> {
    for parameter in chunk.value.items() {
        let bytes = parameter.value.bytes;
        if parameter.code() == OUTGOING_SSN_RESET
            && bytes.len() >= OutgoingSsnResetRequestNumbers::SIZE
        {
            let streams = &bytes[OutgoingSsnResetRequestNumbers::SIZE..];
            let tsn = read_u32_be(
                &bytes[OutgoingSsnResetRequestNumbers::SENDER_LAST_ASSIGNED_TSN..],
            );
            outgoing.reset(read_u32_be(bytes), tsn, streams)?;
        }
    }
    Ok(())
}

/// Returns whether a SACK or an NR-SACK says that its sender has no room.
fn is_closed(chunk: Item<'_>) -> bool {
    let value = chunk.value.bytes;
    (chunk.first == SACK || chunk.first == NR_SACK)
        && value.len() >= 8
        && read_u32_be(&value[SackNumbers::A_RWND..]) == 0
}
