//! The TSNs of the DATA that one end sent: which were repeated, and which were never seen.

ghost use Rattle.std.specs.Prelude.{◌≡◌, ◌+◌, ◌/◌, ◌%◌, ◌^◌, ◌<◌, ◌≤◌, ◌⊎◌, ◌↔◌, ℕ, Some, None, IsTrue, option_map};
ghost use Rattle.dump_packet.specs.Serial.{IsAfter};
ghost use Rattle.dump_associations.specs.Tsns.{Follows, IsMarked, HaveOneBit, MarksOne, span_with, missing_with, RepeatsOne};

use dump_packet::{PacketNumber, increase, is_after};

/// How many TSNs up to the greatest one are remembered one by one.
pub const WINDOW: u32 = 2_048;

/// How many words hold a bit for each of them.
const WORDS: usize = 32;

/// The TSNs that one end sent (RFC 9260 sections 2.6 and 3.3.1), with counts up to 2^64 - 1.
#[derive(Drop)]
pub struct Tsns {
    span: Option<Span>,
    /// How many were seen again. One that comes 2,048 TSNs late, or later, counts as such.
    pub repeated: u64,
    /// The first TSN that was seen again.
    pub first_repeated_tsn: u32,
    /// The packet of the first TSN that was seen again, if there is one.
    pub first_repeated: Option<PacketNumber>,
    /// How many between the first and the last one were not seen.
    pub missing: u64,
    // which of the last `WINDOW` TSNs were seen, by their remainders
    seen: [u64; WORDS],
}

/// The first TSN of the sequence and the last one.
#[derive(Clone, Copy)]
struct Span {
    first: u32,
    last: u32,
}

/// How a TSN follows those that an end sent before.
#[derive(Clone, Copy, PartialEq, Eq)]
pub enum Step {
    /// It is the first one, or is beyond the greatest one.
    Ahead {
        /// How many are between them, and weren't seen.
        missing: u32,
    },
    /// A greater one was seen, and it wasn't.
    Late,
    /// It was seen, or is 2,048 or more before the greatest one.
    Repeated,
}

impl Tsns {
    /// Returns the TSNs of an end that sent none.
    pub fn new() -> Tsns
        ensures span { result.span ≡ None }
        ensures marks { (tsn : ℕ) → ¬ (IsMarked result.seen tsn) }
        ensures repeated { result.repeated ≡ 0 }
        ensures first { result.first_repeated ≡ None }
        ensures missing { result.missing ≡ 0 }
    {
        Tsns {
            span: None,
            repeated: 0,
            first_repeated_tsn: 0,
            first_repeated: None,
            missing: 0,
            seen: [0; WORDS],
        }
    }

    /// Returns the first TSN of the sequence, and the last one.
    pub fn span(&self) -> Option<(u32, u32)>
        ensures { result ≡ option_map (λ s. (s.first, s.last)) self.now.span }
    {
        let span = self.span?;
        Some((span.first, span.last))
    }

    /// Notes a TSN of the packet of this number, and returns how it follows those before.
    pub fn note(&mut self, tsn: u32, number: PacketNumber) -> Step
        ensures step { Follows self.old.span self.old.seen tsn result }
        ensures span { self.new.span ≡ Some (span_with self.old.span tsn result) }
        ensures marks { MarksOne self.old.span self.old.seen tsn
            (span_with self.old.span tsn result).last self.new.seen }
        ensures missing { self.new.missing ≡ missing_with self.old.span tsn result
            self.old.missing }
        ensures repeated { RepeatsOne self.old tsn number result self.new }
    {
        let Some(span) = self.span else {
            self.span = Some(Span {
                first: tsn,
                last: tsn,
            });
            mark(&mut self.seen, tsn);
            return Step::Ahead { missing: 0 };
        };
        if is_after(tsn, span.last) {
            let missing = tsn.wrapping_sub(span.last) - 1;
            unmark_after(&mut self.seen, span.last, missing);
            mark(&mut self.seen, tsn);
            self.missing = self.missing.saturating_add(u64::from(missing));
            self.span = Some(Span {
                first: span.first,
                last: tsn,
            });
            return Step::Ahead { missing };
        }
        self.note_earlier(span, tsn, number)
    }

    /// Notes a TSN that isn't beyond the last one.
    fn note_earlier(&mut self, span: Span, tsn: u32, number: PacketNumber) -> Step
        requires span { self.old.span ≡ Some span }
        requires earlier { ¬ (IsAfter span.last tsn) }
        ensures step { Follows (Some span) self.old.seen tsn result }
        ensures span { self.new.span ≡ Some (span_with (Some span) tsn result) }
        ensures marks { MarksOne (Some span) self.old.seen tsn span.last self.new.seen }
        ensures missing { self.new.missing ≡ missing_with (Some span) tsn result
            self.old.missing }
        ensures repeated { RepeatsOne self.old tsn number result self.new }
    {
        let back = span.last.wrapping_sub(tsn);
        let size = span.last.wrapping_sub(span.first);
        if back >= WINDOW || is_marked(&self.seen, tsn) {
            increase(&mut self.repeated);
            if self.first_repeated.is_none() {
                self.first_repeated = Some(number);
                self.first_repeated_tsn = tsn;
            }
            return Step::Repeated;
        }
        if back <= size {
            self.missing = self.missing.saturating_sub(1);
        } else {
            let between = u64::from(back).saturating_sub(u64::from(size) + 1);
            self.missing = self.missing.saturating_add(between);
            self.span = Some(Span {
                first: tsn,
                last: span.last,
            });
        }
        mark(&mut self.seen, tsn);
        Step::Late
    }
}

/// Returns whether the bit of a TSN is set.
fn is_marked(seen: &[u64; WORDS], tsn: u32) -> bool
    ensures { IsTrue result ↔ IsMarked seen.now tsn }
{
    seen[word_of(tsn)] & bit_of(tsn) != 0
}

/// Sets the bit of a TSN.
fn mark(seen: &mut [u64; WORDS], tsn: u32)
    ensures { (t : ℕ) → IsMarked seen.new t ↔ (HaveOneBit t tsn ⊎ IsMarked seen.old t) }
{
    seen[word_of(tsn)] |= bit_of(tsn);
}

/// Clears the bit of a TSN.
fn unmark(seen: &mut [u64; WORDS], tsn: u32)
    ensures { (t : ℕ) → IsMarked seen.new t ↔ (¬ (HaveOneBit t tsn) × IsMarked seen.old t) }
{
    seen[word_of(tsn)] &= !bit_of(tsn);
}

/// Clears the bits of as many TSNs after the last one.
fn unmark_after(seen: &mut [u64; WORDS], last: u32, count: u32)
    ensures { (t : ℕ) → IsMarked seen.new t ↔ (((k : ℕ) → 1 ≤ k → k ≤ count
        → ¬ (HaveOneBit t (last + k))) × IsMarked seen.old t) }
{
    for step in 1..count.min(WINDOW) + 1 {
        unmark(seen, last.wrapping_add(step));
    }
}

/// Returns the index of the word that holds the bit of a TSN.
fn word_of(tsn: u32) -> usize
    ensures { result ≡ tsn / 64 % 32 }
{
    (tsn / 64 % 32) as usize
}

/// Returns the bit of a TSN in its word.
fn bit_of(tsn: u32) -> u64
    ensures { result ≡ 2 ^ (tsn % 64) }
{
    1 << (tsn % 64)
}
