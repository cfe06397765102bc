//! The cookies that one end found stale.

ghost use Rattle.std.specs.Prelude.{◌≡◌, fold};
ghost use Rattle.dcsctp_borrowed.specs.Part.{part_of, item_of};
ghost use Rattle.dcsctp_receive.specs.Chunks.{items_of};
ghost use Rattle.dump_associations.specs.StaleCookies.{none_stale, with_cause};

use dcsctp_borrowed::part::{Item, Part};
use dcsctp_wire::packet::read_u32_be;
use dump_packet::increase;

/// The code of the error cause Stale Cookie.
const STALE_COOKIE: u8 = 3;

/// The Stale Cookie causes of ERRORs (RFC 9260 section 3.3.10.3).
#[derive(Clone, Copy)]
pub struct StaleCookies {
    /// How many there were, up to 2^64 - 1.
    pub count: u64,
    /// The greatest Measure of Staleness, in microseconds: 0 where none says it.
    pub greatest: u32,
}

impl StaleCookies {
    /// Returns those of an end that sent none.
    pub fn new() -> StaleCookies
        ensures { result ≡ none_stale }
    {
        StaleCookies {
            count: 0,
            greatest: 0,
        }
    }

    /// Counts those among the causes of an ERROR, as far as they can be read.
    pub fn count_causes(&mut self, causes: Part<'_>)
        ensures { self.new ≡ fold with_cause self.old (items_of (part_of causes.entry)) }
    {
        for cause in causes.items() {
            self.count_cause(cause);
        }
    }

    /// Counts a cause, if it is one.
    fn count_cause(&mut self, cause: Item<'_>)
        ensures { self.new ≡ with_cause self.old (item_of cause.entry) }
    {
        if cause.first != 0 || cause.second != STALE_COOKIE {
            return;
        }
        increase(&mut self.count);
        if cause.value.bytes.len() >= 4 {
            self.greatest = self.greatest.max(read_u32_be(cause.value.bytes));
        }
    }
}
