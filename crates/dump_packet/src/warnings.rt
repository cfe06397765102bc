//! The rules that packets break, counted, and as text.

ghost use Rattle.std.specs.Prelude.{◌≡◌, true, false, replicate};
ghost use Rattle.dcsctp_borrowed.specs.Part.{Part as ThePart};
ghost use Rattle.dcsctp_chunk.specs.Flags.{is_set};
ghost use Rattle.dcsctp_receive.specs.Rule.{AreBroken};
ghost use Rattle.dump_packet.specs.Warnings.{CountsBroken, CountsRules, is_warned};

use dcsctp_receive::rule::{BrokenRules, Known, RULES, Rule};
use std::fmt;

/// How many packets broke each of `Rule::ALL`, up to 2^64 - 1.
#[derive(Clone, Copy)]
pub struct Warnings {
    /// In the order of `Rule::ALL`.
    pub counts: [u64; RULES],
}

impl Warnings {
    /// Returns counts of nothing.
    pub fn new() -> Warnings
        ensures { result.counts ≡ replicate RULES 0 }
    {
        Warnings { counts: [0; RULES] }
    }

    /// Returns which rules are broken by a packet of `size` bytes, of which these were captured,
    /// and counts them. Of a packet that isn't judged none is asked.
    pub fn judge(
        &mut self,
        is_judged: bool,
        bytes: &[u8],
        size: usize,
        word: u32,
        known: Known,
    ) -> BrokenRules
        ensures judged { let packet : ThePart = record { bytes = bytes.now; size = size } in
            is_judged ≡ true → CountsRules packet word known self.old.counts self.new.counts }
        ensures found { let packet : ThePart = record { bytes = bytes.now; size = size } in
            is_judged ≡ true → AreBroken packet word known result.bits }
        ensures left { is_judged ≡ false → self.new.counts ≡ self.old.counts }
        ensures none { is_judged ≡ false → result.bits ≡ 0 }
    {
        if !is_judged {
            return BrokenRules::NONE;
        }
        let broken = BrokenRules::of(bytes, size, word, known);
        self.count(broken);
        broken
    }

    /// Adds one to the counts of the rules that are broken, up to 2^64 - 1.
    fn count(&mut self, broken: BrokenRules)
        ensures { CountsBroken (is_set broken.bits) self.old.counts self.new.counts }
    {
        for i in 0..RULES {
            if broken.has(i) {
                self.counts[i] = self.counts[i].saturating_add(1);
            }
        }
    }

    /// Returns whether a packet broke a rule.
    pub fn are_some(&self) -> bool
        ensures { result ≡ is_warned self.now.counts }
    {
        self.counts.iter().any(|count| *count > 0)
    }

    /// Returns how many there are in all.
    pub fn total(&self) -> u64 {
        let mut all: u64 = 0;
        for count in &self.counts {
            all = all.saturating_add(*count);
        }
        all
    }
}

/// A line for each rule that was broken, and how often.
#[derive(Clone, Copy)]
pub struct WarningCounts(pub Warnings);

impl fmt::Display for WarningCounts {
    fn fmt<W: fmt::Write>(&self, f: &mut fmt::Formatter<W>) -> fmt::Result {
        for (i, rule) in Rule::ALL.iter().enumerate() {
            let (name, count) = (rule.name(), self.0.counts[i]);
            if count > 0 {
                writeln!(f, "warning {name}: {count}")?;
            }
        }
        Ok(())
    }
}

/// A line for each rule that is broken.
#[derive(Clone, Copy)]
pub struct WarningLines(pub BrokenRules);

impl fmt::Display for WarningLines {
    fn fmt<W: fmt::Write>(&self, f: &mut fmt::Formatter<W>) -> fmt::Result {
        for (i, rule) in Rule::ALL.iter().enumerate() {
            if self.0.has(i) {
                let (name, sentence, section) = (rule.name(), rule.sentence(), rule.section());
                writeln!(f, "warning {name}: {sentence} ({section})")?;
            }
        }
        Ok(())
    }
}

/// The names of the rules that are broken, each after a blank, at the end of a line.
#[derive(Clone, Copy)]
pub struct WarningsBrief(pub BrokenRules);

impl fmt::Display for WarningsBrief {
    fn fmt<W: fmt::Write>(&self, f: &mut fmt::Formatter<W>) -> fmt::Result {
        for (i, rule) in Rule::ALL.iter().enumerate() {
            if self.0.has(i) {
                let name = rule.name();
                write!(f, " ? {name}")?;
            }
        }
        Ok(())
    }
}

/// The last key of a packet's JSON object, if a rule is broken.
#[derive(Clone, Copy)]
pub struct WarningsJson(pub BrokenRules);

impl fmt::Display for WarningsJson {
    fn fmt<W: fmt::Write>(&self, f: &mut fmt::Formatter<W>) -> fmt::Result {
        let mut before = ",\"warnings\":[";
        for (i, rule) in Rule::ALL.iter().enumerate() {
            if self.0.has(i) {
                let (name, sentence, section) = (rule.name(), rule.sentence(), rule.section());
                write!(f, "{before}{{\"rule\":\"{name}\",\"section\":\"{section}\"")?;
                write!(f, ",\"sentence\":\"{sentence}\"}}")?;
                before = ",";
            }
        }
        if before == "," {
            f.write_str("]")
        } else {
            Ok(())
        }
    }
}
