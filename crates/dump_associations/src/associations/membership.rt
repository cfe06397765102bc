//! Of which association a packet is, and how its TSNs follow those before.

ghost use Rattle.std.specs.Prelude.{◌≡◌};
ghost use Rattle.dump_associations.specs.Tsns.{with_step};

use crate::associations::tsns::Step;
use crate::authentication::Authentication;
use dump_packet::{EndKey, Side, Text};

/// How the TSNs of a packet's DATA chunks follow those that its sender sent before, up to 2^64 - 1
/// each (RFC 9260 sections 2.6 and 3.3.1).
#[derive(Clone, Copy)]
pub struct Sequence {
    /// How many were seen before.
    pub repeated: u64,
    /// How many came after a greater one, for the first time.
    pub late: u64,
    /// How many weren't seen when a greater one came.
    pub missing: u64,
}

impl Sequence {
    /// The packet has no DATA.
    pub const NOTHING: Sequence = Sequence {
        repeated: 0,
        late: 0,
        missing: 0,
    };

    /// Counts a TSN.
    pub fn count(&mut self, step: Step)
        ensures { self.new ≡ with_step self.old step }
    {
        match step {
            Step::Ahead { missing } => {
                self.missing = self.missing.saturating_add(u64::from(missing));
            }
            Step::Late => self.late = self.late.saturating_add(1),
            Step::Repeated => self.repeated = self.repeated.saturating_add(1),
        }
    }
}

/// The association of a packet.
#[derive(Clone, Copy)]
pub struct Membership {
    /// Its number.
    pub association: u64,
    /// Which of its ends sent the packet.
    pub sender: Side,
    /// How the packet's TSNs follow those before.
    pub sequence: Sequence,
    /// What is found of AUTH in it.
    pub authentication: Authentication,
}

impl Membership {
    /// Returns which end sent the packet.
    pub fn end(&self) -> EndKey {
        EndKey {
            association: self.association,
            side: self.sender,
        }
    }

    /// Writes it as keys of a JSON object, with a comma before each: `association`, and as `end` the
    /// sender's place in the association's `ends`; `repeated`, `late` and `missing` where they
    /// aren't 0.
    pub fn write_json(&self, out: &mut Text<'_>) {
        out.pair("association", self.association);
        out.pair("end", self.sender.index());
        let Sequence {
            repeated,
            late,
            missing,
        } = self.sequence;
        for (key, count) in [("repeated", repeated), ("late", late), ("missing", missing)] {
            if count > 0 {
                out.pair(key, count);
            }
        }
    }
}
