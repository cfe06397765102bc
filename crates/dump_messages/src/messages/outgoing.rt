//! The user messages of one end that are outstanding.

ghost use Rattle.std.specs.Prelude.{◌≡◌, ◌≤◌, length, vec_len, OnOk, IfSome};
ghost use Rattle.dump_messages.specs.Fates.{AddsBy};

use crate::messages::fragment::{Fragment, Late, MessageKey, is_whole};
use crate::messages::last_messages::LastMessages;
use crate::messages::message::{EndedMessages, Fate, Message, comes_before};
use crate::messages::wait::{Wait, WaitSearch};
use dcsctp_wire::packet::read_u32_be;
use dump_packet::{Acknowledgement, Moment, Side, is_after};
use std::alloc::{AllocError, Global};
use std::mem;

/// How many fragments of an end are followed at a time.
const MOST_FRAGMENTS: usize = 1_024;

/// The fragments that one end sent and that are followed, in order of their TSNs.
///
/// A fragment is followed from its first DATA on, until its message is over and its TSN is passed:
/// by a Cumulative TSN Ack, or by the new cumulative TSN of a FORWARD-TSN. What comes after its TSN
/// was passed isn't followed, nor what comes while 1,024 of them are. A fragment of I-DATA whose
/// message is over already is followed as one that is over.
#[derive(Drop)]
pub struct Outgoing {
    alloc: Global,
    /// The association's number.
    pub association: u64,
    /// Which of its ends sent them.
    pub sender: Side,
    fragments: Vec<Fragment>,
    // the greatest TSN that is passed
    passed: Option<u32>,
    // whether the end's INIT alone says so
    is_told: bool,
    // of the messages whose fragments are forgotten, or that were skipped
    last: LastMessages,
    // whether a fragment found no room, or its header wasn't captured
    has_lost: bool,
    // whether the association ended
    is_over: bool,
}

impl Outgoing {
    /// Returns those of an end that sent nothing.
    pub fn new(alloc: Global, association: u64, sender: Side) -> Outgoing
        ensures { vec_len result.fragments ≡ 0 }
    {
        Outgoing {
            alloc,
            association,
            sender,
            fragments: Vec::new(alloc),
            passed: None,
            is_told: false,
            last: LastMessages::new(alloc),
            has_lost: false,
            is_over: false,
        }
    }

    /// Returns how many fragments are followed.
    pub fn count(&self) -> usize
        ensures { result ≡ vec_len self.now.fragments }
    {
        self.fragments.len()
    }

    /// Notes that this will be its first TSN, if it sent none yet.
    pub fn begin(&mut self, tsn: u32)
        ensures { self.new.fragments ≡ self.old.fragments }
    {
        if self.passed.is_none() && self.fragments.is_empty() {
            self.passed = Some(tsn.wrapping_sub(1));
            self.is_told = true;
            self.last.begin();
        }
    }

    /// Notes a request of this number to reset streams after this TSN.
    pub fn reset(&mut self, number: u32, tsn: u32, streams: &[u8]) -> Result<(), AllocError>
        ensures { vec_len self.new.fragments ≡ vec_len self.old.fragments }
    {
        self.last.reset(number, tsn, streams)?;
        for place in 0..self.fragments.len() {
            if let Some(fragment) = self.fragments.get_mut(place) {
                fragment.key.is_before_reset |= self
                    .last
                    .is_before_reset(fragment.key.stream, fragment.tsn);
            }
        }
        Ok(())
    }

    /// Notes that a fragment was sent that isn't followed.
    pub fn note_lost(&mut self, ended: &mut EndedMessages)
        ensures { self.new.fragments ≡ self.old.fragments }
    {
        self.has_lost = true;
        ended.leave_out(1);
    }

    /// Notes a fragment that was sent, for the first time or again. Returns whether it is followed
    /// from now on, and its message isn't over.
    pub fn send(
        &mut self,
        fragment: &Fragment,
        has_room: bool,
        ended: &mut EndedMessages,
    ) -> Result<bool, AllocError>
        ensures { vec_len self.old.fragments ≤ MOST_FRAGMENTS → vec_len self.new.fragments ≤ MOST_FRAGMENTS }
    {
        if self.is_told && self.has_passed(fragment.tsn) {
            // It begins elsewhere than its INIT says.
            self.passed = None;
            self.last.doubt();
        }
        self.is_told = false;
        if self.is_over || self.has_passed(fragment.tsn) {
            return Ok(false);
        }
        let mut fragment = *fragment;
        let place = self.place_of(fragment.tsn);
        if let Some(known) = self.fragments.get_mut(place) {
            if known.tsn == fragment.tsn {
                fragment.key.is_before_reset = known.key.is_before_reset;
                known.note_repeated(&fragment);
                return Ok(false);
            }
        }
        let count = self.fragments.len();
        if !has_room || count >= MOST_FRAGMENTS {
            self.note_lost(ended);
            return Ok(false);
        }
        fragment.key.is_before_reset = self.last.is_before_reset(fragment.key.stream, fragment.tsn);
        fragment.is_over = self.is_over_before(&fragment);
        fragment.late = self.lateness(place, &fragment);
        fragment.wait = self.unseen_before(place, &fragment);
        fragment.in_flight = self.in_flight_with(&fragment);
        self.fragments.insert(place.min(count), fragment)?;
        self.end_before(place, ended)?;
        Ok(!fragment.is_over)
    }

    /// Returns whether a fragment that is new is of a message of I-DATA that is over.
    fn is_over_before(&self, fragment: &Fragment) -> bool {
        if !fragment.key.is_i_data || fragment.is_beginning {
            return false;
        }
        let mut is_over = self.last.has(&fragment.key);
        for other in &self.fragments {
            if other.key == fragment.key {
                is_over = other.is_over;
            }
        }
        is_over
    }

    /// Returns how many bytes of user data of its stream are in flight with a fragment that is new:
    /// neither acknowledged nor forgotten.
    fn in_flight_with(&self, fragment: &Fragment) -> u64 {
        let mut bytes = fragment.size as u64;
        for other in &self.fragments {
            if other.key.stream == fragment.key.stream && !other.is_acknowledged {
                bytes = bytes.saturating_add(other.size as u64);
            }
        }
        bytes
    }

    /// Returns how late a fragment is that comes before that in a place.
    fn lateness(&self, place: usize, fragment: &Fragment) -> Option<Late> {
        let mut first: Option<&Fragment> = None;
        for other in self.fragments.iter().skip(place) {
            let limit = match first {
                Some(first) => first.sent.packet,
                None => fragment.sent.packet,
            };
            if comes_before(other.sent.packet, limit) {
                first = Some(other);
            }
        }
        let first = first?;
        Some(Late {
            tsn: fragment.tsn,
            behind: first.tsn,
            after: fragment.sent.since(first.sent),
        })
    }

    /// Returns for what the message of a fragment, which will be in this place, waits that wasn't
    /// seen yet.
    fn unseen_before(&self, place: usize, fragment: &Fragment) -> Option<Wait> {
        if fragment.key.is_unordered || self.has_lost {
            return None;
        }
        let front = self.fragments.first();
        let next = match (self.passed, front) {
            (Some(passed), _) => passed.wrapping_add(1),
            (None, Some(front)) => front.tsn,
            (None, None) => return None,
        };
        let is_passed = front.is_some_and(|front| self.has_passed(front.tsn));
        if !is_passed && fragment.tsn.wrapping_sub(next) as usize == place {
            return None;
        }
        let mut search = WaitSearch::new(fragment.key, next, self.last.next(&fragment.key));
        for other in &self.fragments {
            if !is_after(fragment.tsn, other.tsn) {
                break;
            }
            if let Some(wait) = search.step(other) {
                return Some(wait);
            }
        }
        search.step(fragment)
    }

    /// Adds the message before the fragment in a place, which was seen just now, if it was passed,
    /// and that shows that nothing of it comes any more.
    fn end_before(&mut self, place: usize, ended: &mut EndedMessages) -> Result<(), AllocError>
        ensures { vec_len self.new.fragments ≡ vec_len self.old.fragments }
    {
        match self.passed_before(place) {
            Some((before, fate)) => self.end_at(before, fate, ended),
            None => Ok(()),
        }
    }

    /// Returns the place of the fragment before that in a place, of I-DATA of the same stream, and
    /// what became of its message, if it was passed.
    fn passed_before(&self, place: usize) -> Option<(usize, Fate)> {
        let fragment = self.fragments.get(place)?;
        if !self.has_passed(self.fragments.first()?.tsn) {
            return None;
        }
        for step in 0..place {
            let before = place - 1 - step;
            let other = self.fragments.get(before)?;
            if !fragment.key.is_i_data || other.key.is_of_stream(&fragment.key) {
                return Some((before, other.passed?));
            }
        }
        None
    }

    /// Notes what the other end acknowledges, and whether it says that it has no room. Adds the
    /// messages that are over by that.
    pub fn acknowledge(
        &mut self,
        acknowledged: Acknowledgement<'_>,
        is_closed: bool,
        moment: Moment,
        ended: &mut EndedMessages,
    ) -> Result<(), AllocError>
        ensures count { vec_len self.new.fragments ≤ vec_len self.old.fragments }
        ensures fate { OnOk result (AddsBy (Fate.Acknowledged moment) ended.old.list.items
            ended.new.list.items) }
    {
        self.mark(&acknowledged);
        let before = self.passed;
        let has_unseen = self.pass(acknowledged.cumulative);
        self.end_some(before, Fate::Acknowledged(moment), ended)?;
        self.unmark(is_closed, moment);
        self.forget(has_unseen)
    }

    /// Notes which fragments are acknowledged, in one pass over the gap blocks and one over them.
    fn mark(&mut self, acknowledged: &Acknowledgement<'_>)
        ensures { vec_len self.new.fragments ≡ vec_len self.old.fragments }
    {
        let reaches = self.reaches(acknowledged);
        let mut reach = 0;
        for place in 0..self.fragments.len() {
            if let Some(fragment) = self.fragments.get_mut(place) {
                reach = reach.max(reaches[place % MOST_FRAGMENTS]);
                let offset = fragment.tsn.wrapping_sub(acknowledged.cumulative);
                let is_acknowledged = !is_after(fragment.tsn, acknowledged.cumulative)
                    || offset <= u32::from(reach);
                if !fragment.is_acknowledged && is_acknowledged {
                    fragment.is_acknowledged = true;
                    fragment.is_fresh = true;
                }
            }
        }
    }

    /// Returns for each fragment how far after the Cumulative TSN Ack the blocks reach which begin
    /// after the fragment before it, and not after it.
    fn reaches(&self, acknowledged: &Acknowledgement<'_>) -> [u16; MOST_FRAGMENTS] {
        let mut reaches = [0; MOST_FRAGMENTS];
        let Some(last) = self.fragments.last() else {
            return reaches;
        };
        for index in 0..acknowledged.block_count() {
            if let Some((start, end)) = acknowledged.block(index) {
                let tsn = acknowledged.cumulative.wrapping_add(u32::from(start));
                if !is_after(tsn, last.tsn) {
                    let place = self.place_of(tsn) % MOST_FRAGMENTS;
                    reaches[place] = end.max(reaches[place]);
                }
            }
        }
        reaches
    }

    /// Forgets which fragments were acknowledged just now, and notes whether their receiver has no
    /// room.
    fn unmark(&mut self, is_closed: bool, moment: Moment)
        ensures { vec_len self.new.fragments ≡ vec_len self.old.fragments }
    {
        for place in 0..self.fragments.len() {
            if let Some(fragment) = self.fragments.get_mut(place) {
                fragment.is_fresh = false;
                if is_closed && !fragment.is_over {
                    fragment.note_closed(moment.packet);
                }
            }
        }
    }

    /// Notes a FORWARD-TSN or an I-FORWARD-TSN with this value that this end sent: its new
    /// cumulative TSN, and the messages that it names. Adds the messages that are over by that.
    pub fn skip(
        &mut self,
        value: &[u8],
        chunk: u8,
        moment: Moment,
        ended: &mut EndedMessages,
    ) -> Result<(), AllocError>
        requires { 4 ≤ length value.now }
        ensures count { vec_len self.new.fragments ≤ vec_len self.old.fragments }
        ensures fate { OnOk result (AddsBy (Fate.Abandoned chunk moment) ended.old.list.items
            ended.new.list.items) }
    {
        let fate = Fate::Abandoned { chunk, moment };
        let before = self.passed;
        let cumulative = read_u32_be(value);
        let has_unseen = self.pass(cumulative);
        self.end_some(before, fate, ended)?;
        self.forget(has_unseen)?;
        if self.passed != Some(cumulative) {
            return Ok(());
        }
        for index in 0..value.len() / 4 {
            let Some(mut key) = MessageKey::skipped(chunk, value, index) else {
                break;
            };
            key.is_before_reset = self.last.is_before_reset(key.stream, cumulative);
            self.end_named(key, fate, ended)?;
            self.last.skip(key)?;
        }
        Ok(())
    }

    /// Adds the message of I-DATA that is named as skipped, if it wasn't over.
    fn end_named(
        &mut self,
        key: MessageKey,
        fate: Fate,
        ended: &mut EndedMessages,
    ) -> Result<(), AllocError>
        ensures count { vec_len self.new.fragments ≡ vec_len self.old.fragments }
        ensures fate { OnOk result (AddsBy fate ended.old.list.items ended.new.list.items) }
    {
        if !key.is_i_data {
            return Ok(());
        }
        let mut found = None;
        for (place, fragment) in self.fragments.iter().enumerate() {
            if fragment.key == key && !fragment.is_over {
                found = Some(place);
            }
        }
        match found {
            Some(place) => self.end_now(place, Some(fate), ended),
            None => Ok(()),
        }
    }

    /// Adds the messages that aren't over: the association ended, or the capture did. What is sent
    /// later isn't followed.
    pub fn finish(&mut self, ended: &mut EndedMessages) -> Result<(), AllocError>
        ensures { vec_len self.new.fragments ≤ vec_len self.old.fragments }
    {
        for place in 0..self.fragments.len() {
            self.end_now(place, None, ended)?;
        }
        self.fragments = Vec::new(self.alloc);
        self.is_over = true;
        Ok(())
    }

    /// Returns whether a TSN is passed.
    fn has_passed(&self, tsn: u32) -> bool {
        match self.passed {
            Some(passed) => !is_after(tsn, passed),
            None => false,
        }
    }

    /// Passes the TSNs up to this one. Returns whether some of them weren't seen.
    fn pass(&mut self, tsn: u32) -> bool
        ensures { self.new.fragments ≡ self.old.fragments }
    {
        self.is_told = false;
        if self.has_passed(tsn) {
            return false;
        }
        let before = self.passed;
        self.passed = Some(tsn);
        match before {
            Some(before) => {
                let first = self.place_of(before.wrapping_add(1));
                let end = self.place_of(tsn.wrapping_add(1));
                end.saturating_sub(first) < tsn.wrapping_sub(before) as usize
            }
            None => false,
        }
    }

    /// Returns where the fragment with this TSN is, or has to be.
    fn place_of(&self, tsn: u32) -> usize {
        self.fragments
            .partition_point(|fragment| is_after(tsn, fragment.tsn))
    }

    /// Adds the messages that are over by this fate: of fragments that were acknowledged just now,
    /// or have been passed since `before` was the last one that is passed. (That one counts too: if
    /// the fragment after it wasn't seen, its message ends there.)
    fn end_some(
        &mut self,
        before: Option<u32>,
        fate: Fate,
        ended: &mut EndedMessages,
    ) -> Result<(), AllocError>
        ensures count { vec_len self.new.fragments ≡ vec_len self.old.fragments }
        ensures fate { OnOk result (AddsBy fate ended.old.list.items ended.new.list.items) }
    {
        for place in 0..self.fragments.len() {
            self.note_passed(place, fate);
            self.end_new(place, before, fate, ended)?;
        }
        Ok(())
    }

    /// Adds the message of the fragment in a place, if that is news, and it is over by this fate.
    fn end_new(
        &mut self,
        place: usize,
        before: Option<u32>,
        fate: Fate,
        ended: &mut EndedMessages,
    ) -> Result<(), AllocError>
        ensures count { vec_len self.new.fragments ≡ vec_len self.old.fragments }
        ensures fate { OnOk result (AddsBy fate ended.old.list.items ended.new.list.items) }
    {
        if self.is_news(place, before) {
            return self.end_at(place, fate, ended);
        }
        Ok(())
    }

    /// Returns whether the fragment in a place was acknowledged just now, or passed since `before`
    /// was the last one that is passed.
    fn is_news(&self, place: usize, before: Option<u32>) -> bool {
        let Some(fragment) = self.fragments.get(place) else {
            return false;
        };
        let is_new = match before {
            Some(before) => !is_after(before, fragment.tsn),
            None => true,
        };
        fragment.is_fresh || is_new && self.has_passed(fragment.tsn)
    }

    /// Notes what becomes of the message of the fragment in a place, if that is passed and nothing
    /// of its message is seen after it.
    fn note_passed(&mut self, place: usize, fate: Fate)
        ensures { vec_len self.new.fragments ≡ vec_len self.old.fragments }
    {
        let passed = self.passed;
        if let Some(fragment) = self.fragments.get_mut(place) {
            let tsn = fragment.last_tsn();
            if fragment.passed.is_none() && passed.is_some_and(|passed| !is_after(tsn, passed)) {
                fragment.passed = Some(fate);
            }
        }
    }

    /// Adds the message of the fragment in a place, if it is over by this fate and wasn't before.
    fn end_at(
        &mut self,
        place: usize,
        fate: Fate,
        ended: &mut EndedMessages,
    ) -> Result<(), AllocError>
        ensures count { vec_len self.new.fragments ≡ vec_len self.old.fragments }
        ensures fate { OnOk result (AddsBy fate ended.old.list.items ended.new.list.items) }
    {
        let (first, end) = self.span(place);
        let pieces = self.pieces(place, first, end)?;
        if self.is_over_by(fate, pieces.as_slice()) {
            return self.end(first, end, pieces.as_slice(), fate, ended);
        }
        Ok(())
    }

    /// Adds the message of the fragment in a place, if it wasn't over before: by this fate, or by
    /// that of its last fragment.
    fn end_now(
        &mut self,
        place: usize,
        fate: Option<Fate>,
        ended: &mut EndedMessages,
    ) -> Result<(), AllocError>
        ensures count { vec_len self.new.fragments ≡ vec_len self.old.fragments }
        ensures fate { IfSome fate (λ fate. OnOk result (AddsBy fate ended.old.list.items
            ended.new.list.items)) }
    {
        let (first, end) = self.span(place);
        let pieces = self.pieces(place, first, end)?;
        let Some(last) = pieces.last() else {
            return Ok(());
        };
        let fate = fate.or(last.passed).unwrap_or(Fate::Unacknowledged);
        self.end(first, end, pieces.as_slice(), fate, ended)
    }

    /// Adds a message that is over by this fate, of these fragments between these places.
    fn end(
        &mut self,
        first: usize,
        end: usize,
        pieces: &[Fragment],
        fate: Fate,
        ended: &mut EndedMessages,
    ) -> Result<(), AllocError>
        ensures count { vec_len self.new.fragments ≡ vec_len self.old.fragments }
        ensures fate { OnOk result (AddsBy fate ended.old.list.items ended.new.list.items) }
    {
        let Some(lead) = pieces.first() else {
            return Ok(());
        };
        let waited_for = self.waited_for(fate, pieces);
        self.note_over(first, end, lead);
        let payload = ended.take_payload(self.association, self.sender, pieces)?;
        let is_whole = is_whole(pieces);
        if self.has_lost && !is_whole {
            ended.leave_out(pieces.len());
            return Ok(());
        }
        let mut message = Message::new(self.association, self.sender, lead, fate);
        message.assemble(pieces, self.passed);
        message.waited_for = waited_for;
        if is_whole {
            message.waited_for = unseen_wait(pieces).or(waited_for);
        }
        ended.add(message, if is_whole { payload } else { None })
    }

    /// Notes that the message of a fragment, which is in these places, is over.
    fn note_over(&mut self, first: usize, end: usize, lead: &Fragment)
        ensures { vec_len self.new.fragments ≡ vec_len self.old.fragments }
    {
        for place in first..end {
            if let Some(fragment) = self.fragments.get_mut(place) {
                fragment.is_over |= fragment.is_beside(lead);
            }
        }
    }

    /// Returns the places in which the fragments of a message are: from the first one on, and up to
    /// the second one.
    fn span(&self, place: usize) -> (usize, usize) {
        let count = self.fragments.len();
        if self
            .fragments
            .get(place)
            .is_some_and(|fragment| fragment.key.is_i_data)
        {
            return (0, count);
        }
        let mut first = place;
        for step in 0..place {
            if !self.is_joined(place - step) {
                break;
            }
            first = place - step - 1;
        }
        let mut end = place.saturating_add(1);
        for next in end..count {
            if !self.is_joined(next) {
                break;
            }
            end = next + 1;
        }
        (first, end)
    }

    /// Returns whether the fragment in a place is of the message of the one before it.
    fn is_joined(&self, place: usize) -> bool {
        match (
            self.fragments.get(place.saturating_sub(1)),
            self.fragments.get(place),
        ) {
            (Some(before), Some(fragment)) => before.leads_to(fragment),
            _ => false,
        }
    }

    /// Returns the fragments between two places that are of the message of that in a place, if it
    /// isn't over.
    fn pieces(&self, place: usize, first: usize, end: usize) -> Result<Vec<Fragment>, AllocError> {
        let mut pieces = Vec::new(self.alloc);
        let Some(lead) = self.fragments.get(place) else {
            return Ok(pieces);
        };
        for place in first..end {
            if let Some(fragment) = self.fragments.get(place) {
                if !lead.is_over && !fragment.is_over && fragment.is_beside(lead) {
                    pieces.push(*fragment)?;
                }
            }
        }
        Ok(pieces)
    }

    /// Returns whether a message is over by this fate: it is acknowledged if all of it is, or,
    /// where some of it wasn't seen, if its last fragment is passed; it is abandoned if a fragment
    /// of it is passed without an acknowledgement.
    fn is_over_by(&self, fate: Fate, pieces: &[Fragment]) -> bool {
        match fate {
            Fate::Unacknowledged => true,
            Fate::Acknowledged(_) => {
                let is_acknowledged = pieces.iter().all(|piece| piece.is_acknowledged);
                is_acknowledged && is_whole(pieces) || self.is_passed(pieces, false)
            }
            Fate::Abandoned { .. } => {
                let passed = self.passed;
                let is_skipped = pieces.iter().any(|piece| {
                    !piece.is_acknowledged
                        && passed.is_some_and(|passed| !is_after(piece.tsn, passed))
                });
                let is_data = pieces.first().is_some_and(|first| !first.key.is_i_data);
                is_skipped || self.is_passed(pieces, is_data)
            }
        }
    }

    /// Returns whether the last fragment of a message is passed. Where that isn't the one that ends
    /// it, it has to be the last one: unless that is known, a later fragment has to show it.
    fn is_passed(&self, pieces: &[Fragment], is_last: bool) -> bool {
        let Some(last) = pieces.last() else {
            return false;
        };
        if pieces.iter().any(|piece| piece.is_end) {
            return self.has_passed(last.tsn);
        }
        self.has_passed(last.last_tsn()) && (is_last || self.is_last(last))
    }

    /// Returns whether a fragment was seen after the last one of a message, of I-DATA in its
    /// stream: that is of another message then, and the sender of one after the other.
    fn is_last(&self, last: &Fragment) -> bool {
        for other in &self.fragments {
            let is_other = !last.key.is_i_data
                || other.key.is_of_stream(&last.key) && other.key.number != last.key.number;
            if is_other && is_after(other.tsn, last.tsn) {
                return true;
            }
        }
        false
    }

    /// Returns the first TSN of an earlier ordered message of the same stream that isn't
    /// acknowledged, if this one is.
    fn waited_for(&self, fate: Fate, pieces: &[Fragment]) -> Option<Wait> {
        let first = pieces.first()?;
        if first.key.is_unordered || !matches!(fate, Fate::Acknowledged(_)) {
            return None;
        }
        for other in &self.fragments {
            if other.tsn == first.tsn {
                return None;
            }
            let is_outstanding = !other.is_acknowledged && !other.is_over;
            if is_outstanding && other.key.is_of_stream(&first.key) {
                return Some(Wait {
                    tsn: other.tsn,
                    unseen: None,
                });
            }
        }
        None
    }

    /// Forgets the fragments that are passed and whose messages are over, and gives back their
    /// room. If TSNs were passed that weren't seen, so may have been messages of any stream.
    fn forget(&mut self, has_unseen: bool) -> Result<(), AllocError>
        ensures { vec_len self.new.fragments ≤ vec_len self.old.fragments }
    {
        if has_unseen {
            self.last.forget();
        }
        if !self
            .fragments
            .iter()
            .any(|fragment| self.is_forgotten(fragment))
        {
            return Ok(());
        }
        let mut kept = Vec::new(self.alloc);
        for place in 0..self.fragments.len() {
            if let Some(fragment) = self.fragments.get(place).copied() {
                if !self.is_forgotten(&fragment) {
                    kept.push(fragment)?;
                    continue;
                }
                if !has_unseen {
                    self.last.note(fragment.key)?;
                }
            }
        }
        let _ = mem::replace(&mut self.fragments, kept);
        Ok(())
    }

    /// Returns whether a fragment is passed, and its message over.
    fn is_forgotten(&self, fragment: &Fragment) -> bool {
        fragment.is_over && self.has_passed(fragment.tsn)
    }
}

/// Returns for what a message waited that wasn't seen yet, when the last of its fragments was.
fn unseen_wait(pieces: &[Fragment]) -> Option<Wait> {
    let mut last = pieces.first()?;
    for piece in pieces {
        if !comes_before(piece.sent.packet, last.sent.packet) {
            last = piece;
        }
    }
    last.wait
}
