//! Round trips: from a DATA chunk to the chunk that first acknowledges it.

ghost use Rattle.std.specs.Prelude.{◌≡◌, ◌≢◌, ◌<◌, ◌∷◌, ◌↔◌, ℕ, List, All, Any, IsTrue, IfSome, IfNone, false, length};
ghost use Rattle.std.specs.List.{slice_index_or};
ghost use Rattle.dump_packet.specs.Acknowledged.{IsAcknowledgedBy};
ghost use Rattle.dump_packet.specs.Firsts.{IsFirst};
ghost use Rattle.dump_associations.specs.RoundTrips.{AddsEach, IsFree, IsPassed, PassesTo, Waits};
ghost use Rattle.dump_packet.specs.Serial.{IsAfter};
ghost use Rattle.dump_packet.specs.declared.delays.Delays.{Delays};
ghost use Rattle.dump_associations.specs.declared.associations.round_trips.Sent.{Sent};

use dump_packet::{Acknowledgement, Delays, PacketNumber, is_after};

/// How many TSNs are waited for at a time.
const MOST_TSNS: usize = 16;

/// The round trips of one end's DATA.
///
/// A TSN that was sent again is no sample (Karn's rule, RFC 9260 section 6.3.1), nor is one that a
/// FORWARD-TSN skips, or that is first seen when a Cumulative TSN Ack has passed it. At most 16 TSNs
/// are waited for at a time; those that are sent meanwhile are no samples either.
#[derive(Drop)]
pub struct RoundTrips {
    /// Those that were measured.
    pub delays: Delays,
    waiting: [Sent; MOST_TSNS],
    // the greatest Cumulative TSN Ack
    passed: Option<u32>,
}

/// A TSN that was sent, and when.
#[derive(Clone, Copy)]
struct Sent {
    tsn: u32,
    is_waiting: bool,
    nanoseconds: u64,
}

impl RoundTrips {
    /// Returns the round trips of an end that sent no TSN.
    pub fn new() -> RoundTrips {
        let none = Sent {
            tsn: 0,
            is_waiting: false,
            nanoseconds: 0,
        };
        RoundTrips {
            delays: Delays::new(),
            waiting: [none; MOST_TSNS],
            passed: None,
        }
    }

    /// Waits for a TSN that was seen for the first time, if there is room, and no Cumulative TSN Ack
    /// passed it.
    pub fn wait(&mut self, tsn: u32, nanoseconds: u64)
        ensures free { Any IsFree self.old.waiting → ¬ (IsPassed self.old.passed tsn)
            → Waits tsn nanoseconds self.old.waiting self.new.waiting }
        ensures full { ¬ (Any IsFree self.old.waiting) → self.new.waiting ≡ self.old.waiting }
        ensures passed { IsPassed self.old.passed tsn → self.new.waiting ≡ self.old.waiting }
        ensures others { (self.new.delays ≡ self.old.delays) × (self.new.passed ≡ self.old.passed) }
    {
        if self.has_passed(tsn) {
            return;
        }
        if let Some(place) = self.free() {
            self.waiting[place] = Sent {
                tsn,
                is_waiting: true,
                nanoseconds,
            };
        }
    }

    /// Returns whether a Cumulative TSN Ack passed this TSN.
    fn has_passed(&self, tsn: u32) -> bool
        ensures { IsTrue result ↔ IsPassed self.now.passed tsn }
    {
        match self.passed {
            Some(passed) => !is_after(tsn, passed),
            None => false,
        }
    }

    /// Returns the first place that is free.
    fn free(&self) -> Option<usize>
        ensures some { IfSome result (IsFirst IsFree self.now.waiting) }
        ensures none { IfNone result (¬ (Any IsFree self.now.waiting)) }
    {
        for place in 0..MOST_TSNS {
            let sent = self.waiting[place];
            if !sent.is_waiting {
                return Some(place);
            }
        }
        None
    }

    /// Ends the wait for a TSN that was sent again.
    pub fn leave(&mut self, tsn: u32)
        ensures { All (λ sent. sent.tsn ≡ tsn → sent.is_waiting ≡ false) self.new.waiting }
    {
        for sent in self.waiting.iter_mut() {
            if sent.tsn == tsn {
                sent.is_waiting = false;
            }
        }
    }

    /// Ends the wait for the TSNs up to the new cumulative one of a FORWARD-TSN.
    pub fn leave_to(&mut self, cumulative: u32)
        ensures { All (λ sent. ¬ (IsAfter cumulative sent.tsn) → sent.is_waiting ≡ false)
            self.new.waiting }
    {
        for sent in self.waiting.iter_mut() {
            if !is_after(sent.tsn, cumulative) {
                sent.is_waiting = false;
            }
        }
    }

    /// Ends the round trips of the TSNs that are acknowledged in the packet of this number. One
    /// that would end before it began is no sample.
    pub fn acknowledge(
        &mut self,
        acknowledged: Acknowledgement<'_>,
        nanoseconds: u64,
        packet: PacketNumber,
    )
        ensures added { AddsEach acknowledged.entry nanoseconds packet self.old.waiting
            self.old.delays self.new.delays }
        ensures ended { All (λ sent. IsAcknowledgedBy acknowledged.entry sent.tsn
            → sent.is_waiting ≡ false) self.new.waiting }
        ensures passed { PassesTo self.old.passed acknowledged.entry.cumulative self.new.passed }
    {
        if !self.has_passed(acknowledged.cumulative) {
            self.passed = Some(acknowledged.cumulative);
        }
        self.end(acknowledged, nanoseconds, packet);
    }

    /// Ends the wait for the TSNs that are acknowledged.
    fn end(&mut self, acknowledged: Acknowledgement<'_>, nanoseconds: u64, packet: PacketNumber)
        ensures added { AddsEach acknowledged.entry nanoseconds packet self.old.waiting
            self.old.delays self.new.delays }
        ensures ended { All (λ sent. IsAcknowledgedBy acknowledged.entry sent.tsn
            → sent.is_waiting ≡ false) self.new.waiting }
        ensures passed { self.new.passed ≡ self.old.passed }
    {
        for place in 0..MOST_TSNS {
            self.end_at(place, acknowledged, nanoseconds, packet);
        }
    }

    /// Ends the wait in a place, if its TSN is acknowledged.
    fn end_at(
        &mut self,
        place: usize,
        acknowledged: Acknowledgement<'_>,
        nanoseconds: u64,
        packet: PacketNumber,
    )
        requires { place < MOST_TSNS }
        ensures added { (d : Sent) (rest : List Sent) (after : Delays)
            → AddsEach acknowledged.entry nanoseconds packet rest self.new.delays after
            → AddsEach acknowledged.entry nanoseconds packet
            (slice_index_or self.old.waiting place d ∷ rest) self.old.delays after }
        ensures ended { (d : Sent)
            → IsAcknowledgedBy acknowledged.entry (slice_index_or self.new.waiting place d).tsn
            → (slice_index_or self.new.waiting place d).is_waiting ≡ false }
        ensures others { (k : ℕ) (d : Sent) → k ≢ place
            → slice_index_or self.new.waiting k d ≡ slice_index_or self.old.waiting k d }
        ensures size { length self.new.waiting ≡ length self.old.waiting }
        ensures passed { self.new.passed ≡ self.old.passed }
    {
        let sent = self.waiting[place];
        if !sent.is_waiting {
            return;
        }
        if !acknowledged.has(sent.tsn) {
            return;
        }
        self.waiting[place].is_waiting = false;
        if sent.nanoseconds > nanoseconds {
            return;
        }
        self.delays
            .add(nanoseconds - sent.nanoseconds, sent.tsn, packet);
    }
}
