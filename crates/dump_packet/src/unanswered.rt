//! What one end asked, and which of it was answered.

ghost use Rattle.std.specs.Prelude.{◌≡◌, ◌-◌, ◌↔◌, All, Any, IsTrue, IfSome, IfNone, None, true};
ghost use Rattle.dump_packet.specs.Firsts.{IsFirst};
ghost use Rattle.dump_packet.specs.Questions.{HasKey, IsOpen, Asks, forgets, AnswersOldest, first_open, last_open};

use crate::count::increase;
use crate::packet_number::PacketNumber;

/// How many questions are remembered.
const MOST_QUESTIONS: usize = 8;

/// The questions of one end that weren't answered, up to 2^64 - 1 of them: its HEARTBEATs (RFC 9260
/// section 8.3), or its requests to reconfigure streams (RFC 6525 section 3.1). A question and its
/// answer have the same key; an answer that comes after 8 further questions isn't recognized.
#[derive(Drop)]
pub struct Unanswered {
    /// How many weren't answered.
    pub count: u64,
    // the last ones, answered or not, the oldest first
    asked: [Question; MOST_QUESTIONS],
    // the first one and the last one that weren't answered and are no longer remembered
    first_forgotten: Option<PacketNumber>,
    forgotten: Option<PacketNumber>,
}

/// A question.
#[derive(Clone, Copy)]
struct Question {
    key: u64,
    packet: Option<PacketNumber>,
    is_answered: bool,
}

impl Unanswered {
    /// Returns the questions of an end that asked none.
    pub fn new() -> Unanswered
        ensures count { result.count ≡ 0 }
        ensures asked { All (λ q. (q.packet ≡ None) × (q.is_answered ≡ true)) result.asked }
        ensures forgotten { (result.first_forgotten ≡ None) × (result.forgotten ≡ None) }
    {
        let none = Question {
            key: 0,
            packet: None,
            is_answered: true,
        };
        Unanswered {
            count: 0,
            asked: [none; MOST_QUESTIONS],
            first_forgotten: None,
            forgotten: None,
        }
    }

    /// Notes a question with this key in the packet of this number.
    pub fn ask(&mut self, key: u64, packet: PacketNumber)
        ensures { Asks self.old key packet self.new }
    {
        let oldest = self.asked[0];
        self.forget(oldest);
        increase(&mut self.count);
        self.asked.rotate_left(1);
        self.asked[MOST_QUESTIONS - 1] = Question {
            key,
            packet: Some(packet),
            is_answered: false,
        };
    }

    /// Notes that a question is no longer remembered.
    fn forget(&mut self, oldest: Question)
        ensures { self.new ≡ forgets oldest self.old }
    {
        if !oldest.is_answered {
            self.first_forgotten = self.first_forgotten.or(oldest.packet);
            self.forgotten = oldest.packet;
        }
    }

    /// Notes a question as `ask` does, unless one of the last 8 has its key: that one is asked again.
    /// Returns whether it is noted.
    pub fn ask_once(&mut self, key: u64, packet: PacketNumber) -> bool
        ensures new { IsTrue result ↔ ¬ (Any (HasKey key) self.old.asked) }
        ensures asks { IsTrue result → Asks self.old key packet self.new }
        ensures again { ¬ (IsTrue result) → self.new ≡ self.old }
    {
        let is_new = !self.has_asked(key);
        if is_new {
            self.ask(key, packet);
        }
        is_new
    }

    /// Returns whether one of the last 8 questions has this key, answered or not.
    fn has_asked(&self, key: u64) -> bool
        ensures { IsTrue result ↔ Any (HasKey key) self.now.asked }
    {
        for question in &self.asked {
            if question.packet.is_some() && question.key == key {
                return true;
            }
        }
        false
    }

    /// Returns whether one of the last 8 questions has this key, and no answer.
    pub fn awaits(&self, key: u64) -> bool
        ensures { IsTrue result ↔ Any (IsOpen key) self.now.asked }
    {
        matches!(self.oldest(key), Some(_))
    }

    /// Notes an answer with this key: to the oldest question with the same one.
    pub fn answer(&mut self, key: u64)
        ensures answered { Any (IsOpen key) self.old.asked → self.new.count ≡ self.old.count - 1 }
        ensures oldest { Any (IsOpen key) self.old.asked → AnswersOldest key self.old self.new }
        ensures other { ¬ (Any (IsOpen key) self.old.asked) → self.new ≡ self.old }
    {
        if let Some(place) = self.oldest(key) {
            self.asked[place].is_answered = true;
            self.count = self.count.saturating_sub(1);
        }
    }

    /// Returns the place of the oldest question that has this key, and no answer.
    fn oldest(&self, key: u64) -> Option<usize>
        ensures some { IfSome result (IsFirst (IsOpen key) self.now.asked) }
        ensures none { IfNone result (¬ (Any (IsOpen key) self.now.asked)) }
    {
        for place in 0..MOST_QUESTIONS {
            let question = self.asked[place];
            if !question.is_answered && question.key == key {
                return Some(place);
            }
        }
        None
    }

    /// Returns the packet of the first question that wasn't answered; `None` if all were.
    pub fn first(&self) -> Option<PacketNumber>
        ensures { result ≡ first_open self.now }
    {
        if self.first_forgotten.is_some() {
            return self.first_forgotten;
        }
        for question in &self.asked {
            if !question.is_answered {
                return question.packet;
            }
        }
        None
    }

    /// Returns the packet of the last question that wasn't answered; `None` if all were.
    pub fn last(&self) -> Option<PacketNumber>
        ensures { result ≡ last_open self.now }
    {
        let mut last = self.forgotten;
        for question in &self.asked {
            if !question.is_answered {
                last = question.packet;
            }
        }
        last
    }
}

/// Returns a digest of bytes: as FNV-1a, but of their number and then eight at a time, whose high
/// bits are turned to the low ones.
pub fn digest(bytes: &[u8]) -> u64 {
    let (words, rest) = bytes.as_chunks::<8>();
    let mut digest = mixed(0xcbf2_9ce4_8422_2325, bytes.len() as u64);
    for word in words {
        digest = mixed(digest, u64::from_le_bytes(*word));
    }
    for byte in rest {
        digest = mixed(digest, u64::from(*byte));
    }
    digest
}

/// Returns the digest of what has this one and a further word.
fn mixed(digest: u64, word: u64) -> u64 {
    (digest ^ word)
        .wrapping_mul(0x9e37_79b9_7f4a_7c15)
        .rotate_left(32)
}
