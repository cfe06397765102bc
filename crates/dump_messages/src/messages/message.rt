//! A user message, and what became of it.

ghost use Rattle.std.specs.Prelude.{◌≡◌, ◌↔◌, ◌++◌, ◌∷◌, [], IsTrue, OnOk};
ghost use Rattle.dump_messages.specs.Channels.{ComesBefore};

use crate::messages::fragment::{Fragment, Late, MessageKey};
use crate::messages::payloads::Payloads;
use crate::messages::wait::Wait;
use dcsctp_borrowed::part::Item;
use dump_packet::{Closed, Moment, PacketNumber, Side, increase, is_after};
use std::alloc::{AllocError, Global};
use std::mem;

/// What became of a message.
#[derive(Clone, Copy)]
pub enum Fate {
    /// All of it was acknowledged, by this packet at last.
    Acknowledged(Moment),
    /// Its sender gave it up, and by this packet asked the receiver not to wait for it.
    Abandoned {
        /// The chunk's type: FORWARD-TSN (RFC 3758 section 3.2) or I-FORWARD-TSN (RFC 8260 section
        /// 2.3.1).
        chunk: u8,
        /// The packet.
        moment: Moment,
    },
    /// Neither was seen.
    Unacknowledged,
}

/// A fragment that was sent again.
#[derive(Clone, Copy)]
pub struct Again {
    /// Its TSN.
    pub tsn: u32,
    /// How long after it was sent first, in nanoseconds, if that is known.
    pub after: Option<u64>,
}

/// A user message that one end sent, as far as its fragments were seen, and what became of it.
#[derive(Clone, Copy)]
pub struct Message {
    /// The association's number.
    pub association: u64,
    /// Which of its ends sent it.
    pub sender: Side,
    /// Its stream, and its number in that.
    pub key: MessageKey,
    /// The payload protocol identifier; `None` if its beginning, an I-DATA, wasn't seen.
    pub ppid: Option<u32>,
    /// How many bytes of user data it has.
    pub size: u64,
    /// How many fragments.
    pub fragments: u64,
    /// How many bytes of its stream were in flight at most, each time that a fragment of it was
    /// sent first.
    pub in_flight: u64,
    /// Its first TSN.
    pub first_tsn: u32,
    /// Its last TSN.
    pub last_tsn: u32,
    /// When the first of its fragments was sent.
    pub sent: Moment,
    /// What became of it.
    pub fate: Fate,
    /// How often fragments were sent again.
    pub repeated: u64,
    /// The first one of them that was.
    pub first_repeated: Option<Again>,
    /// How many fragments were never seen, though one after them was acknowledged.
    pub missing: u64,
    /// The first one of them: its TSN, of I-DATA its FSN.
    pub first_missing: Option<u32>,
    /// Whether the fragment that begins it was seen.
    pub has_beginning: bool,
    /// Whether the fragment that ends it was seen.
    pub has_end: bool,
    /// Whether its fragments contradict one another: two begin it, two end it, or two have one
    /// number.
    pub is_odd: bool,
    /// The TSN of the first fragment that was sent again with other bytes.
    pub changed: Option<u32>,
    /// The first of its fragments that was seen first after a later TSN.
    pub late: Option<Late>,
    /// For what it waited in its stream: it was acknowledged, but an earlier message was not; or
    /// all of it was seen, but some of an earlier message wasn't.
    pub waited_for: Option<Wait>,
    /// When its receiver had no room while it was outstanding.
    pub closed: Option<Closed>,
    /// Whether a filter passes a packet with one of its fragments.
    pub passes: bool,
}

impl Message {
    /// Returns a message without fragments, of which this will be one.
    pub fn new(association: u64, sender: Side, lead: &Fragment, fate: Fate) -> Message
        ensures { result.fate ≡ fate }
    {
        Message {
            association,
            sender,
            key: lead.key,
            ppid: None,
            size: 0,
            fragments: 0,
            in_flight: 0,
            first_tsn: lead.tsn,
            last_tsn: lead.tsn,
            sent: lead.sent,
            fate,
            repeated: 0,
            first_repeated: None,
            missing: 0,
            first_missing: None,
            has_beginning: false,
            has_end: false,
            is_odd: false,
            changed: None,
            late: None,
            waited_for: None,
            closed: None,
            passes: false,
        }
    }

    /// Adds its fragments, in order of their TSNs; up to `passed` all TSNs were acknowledged or
    /// skipped.
    pub fn assemble(&mut self, pieces: &[Fragment], passed: Option<u32>)
        ensures { self.new.fate ≡ self.old.fate }
    {
        let mut acknowledged = 0;
        for i in 0..pieces.len() {
            if pieces[i].is_acknowledged {
                acknowledged = i;
            }
        }
        for i in 0..pieces.len() {
            let piece = &pieces[i];
            if i == 0 {
                self.first_tsn = piece.tsn;
                self.key = piece.key;
            } else {
                let place = pieces[i - 1].place.wrapping_add(1);
                let is_passed = !self.key.is_i_data
                    && passed.is_some_and(|passed| !is_after(place, passed));
                self.add_hole(place, piece.place, i <= acknowledged || is_passed);
                self.is_odd |= piece.is_beginning || pieces[i - 1].is_end;
            }
            self.add(piece);
        }
    }

    /// Adds the fragments between two that were seen.
    fn add_hole(&mut self, first: u32, end: u32, is_acknowledged: bool)
        ensures { self.new.fate ≡ self.old.fate }
    {
        if is_after(first, end) {
            self.is_odd = true;
        } else if first != end && is_acknowledged {
            self.missing = self
                .missing
                .saturating_add(u64::from(end.wrapping_sub(first)));
            if self.first_missing.is_none() {
                self.first_missing = Some(first);
            }
        }
    }

    /// Adds a fragment.
    fn add(&mut self, piece: &Fragment)
        ensures { self.new.fate ≡ self.old.fate }
    {
        self.last_tsn = piece.tsn;
        self.ppid = self.ppid.or(piece.ppid);
        self.size = self.size.saturating_add(piece.size as u64);
        increase(&mut self.fragments);
        self.in_flight = self.in_flight.max(piece.in_flight);
        if comes_before(piece.sent.packet, self.sent.packet) {
            self.sent = piece.sent;
        }
        self.repeated = self.repeated.saturating_add(u64::from(piece.repeated));
        if piece.repeated > 0 && self.first_repeated.is_none() {
            self.first_repeated = Some(Again {
                tsn: piece.tsn,
                after: piece.repeated_after,
            });
        }
        self.has_beginning |= piece.is_beginning;
        self.has_end |= piece.is_end;
        if piece.is_changed && self.changed.is_none() {
            self.changed = Some(piece.tsn);
        }
        self.late = self.late.or(piece.late);
        self.closed = joined(self.closed, piece.closed);
        self.passes |= piece.passes;
    }

    /// Returns how long it took until all of it was acknowledged, in nanoseconds; `None` if it
    /// wasn't, a time isn't known, or times go back.
    pub fn delay(&self) -> Option<u64> {
        match self.fate {
            Fate::Acknowledged(moment) => moment.since(self.sent),
            _ => None,
        }
    }
}

/// Returns whether a packet comes before another.
pub fn comes_before(packet: PacketNumber, other: PacketNumber) -> bool
    ensures { IsTrue result ↔ ComesBefore packet other }
{
    packet.file < other.file || packet.file == other.file && packet.number < other.number
}

/// Returns a span of packets that has two others in it.
fn joined(one: Option<Closed>, other: Option<Closed>) -> Option<Closed> {
    let (Some(one), Some(other)) = (one, other) else {
        return one.or(other);
    };
    let first = if comes_before(other.first, one.first) {
        other.first
    } else {
        one.first
    };
    let last = if comes_before(one.last, other.last) {
        other.last
    } else {
        one.last
    };
    Some(Closed { first, last })
}

/// A message that is over.
#[derive(Drop)]
pub struct EndedMessage {
    /// The message.
    pub message: Message,
    /// Its user data, if that was asked for, all of it was captured, and there was room.
    pub payload: Option<Vec<u8>>,
}

/// Messages that are over.
#[derive(Drop)]
pub struct EndedMessages {
    alloc: Global,
    list: Vec<EndedMessage>,
    // that of fragments that are outstanding, if it is asked for
    payloads: Option<Payloads>,
    // how many DATA weren't followed, up to 2^64 - 1
    left_out: u64,
}

impl EndedMessages {
    /// Returns none. `keeps_payloads` says whether their user data is asked for.
    pub fn new(alloc: Global, keeps_payloads: bool) -> EndedMessages {
        EndedMessages {
            alloc,
            list: Vec::new(alloc),
            payloads: if keeps_payloads {
                Some(Payloads::new(alloc))
            } else {
                None
            },
            left_out: 0,
        }
    }

    /// Adds a message.
    pub fn add(&mut self, message: Message, payload: Option<Vec<u8>>) -> Result<(), AllocError>
        ensures { OnOk result (self.new.list.items
            ≡ self.old.list.items ++ record { message = message; payload = payload } ∷ []) }
    {
        self.list.push(EndedMessage { message, payload })?;
        Ok(())
    }

    /// Keeps the user data of a DATA or an I-DATA that is followed, if it is asked for.
    pub fn keep_payload(
        &mut self,
        association: u64,
        sender: Side,
        chunk: Item<'_>,
    ) -> Result<(), AllocError> {
        match &mut self.payloads {
            Some(payloads) => payloads.keep(association, sender, chunk),
            None => Ok(()),
        }
    }

    /// Takes the user data of a message's fragments; `None` where not all of it is kept.
    pub fn take_payload(
        &mut self,
        association: u64,
        sender: Side,
        pieces: &[Fragment],
    ) -> Result<Option<Vec<u8>>, AllocError>
        ensures { self.new.list ≡ self.old.list }
    {
        match &mut self.payloads {
            Some(payloads) => payloads.take(association, sender, pieces),
            None => Ok(None),
        }
    }

    /// Counts DATA that isn't followed.
    pub fn leave_out(&mut self, count: usize)
        ensures { self.new.list ≡ self.old.list }
    {
        self.left_out = self.left_out.saturating_add(count as u64);
    }

    /// Returns how many DATA and I-DATA chunks weren't followed, up to 2^64 - 1.
    pub fn left_out(&self) -> u64 {
        self.left_out
    }

    /// Returns the messages, in the order in which they were over, and keeps none.
    pub fn take(&mut self) -> Vec<EndedMessage> {
        mem::replace(&mut self.list, Vec::new(self.alloc))
    }
}
