//! What a capture has, one event after the other: frames, and records and lines that hold none.

ghost use Rattle.std.specs.Prelude.{⊤, List, [], ◌∷◌, ◌++◌};
ghost use Rattle.dump_capture.specs.Event.{Event, Saw, Skip};

use crate::line::Direction;
use crate::log_text::LogText;
use crate::pcap::Resolution;
use crate::stamp::Stamp;

/// When a frame was seen, as its capture says it.
#[derive(Drop)]
pub enum Time<'a> {
    /// No time is known.
    Unknown,
    /// Of pcap: seconds since 1970-01-01 00:00:00 UTC, and a fraction of a second, which nothing
    /// keeps below a second.
    Stamp {
        /// Whole seconds.
        seconds: u32,
        /// The fraction, in the unit.
        fraction: u32,
        /// The unit.
        resolution: Resolution,
    },
    /// Of pcapng: units since 1970-01-01 00:00:00 UTC, and seconds to be added to them.
    Ticks {
        /// The number of units.
        ticks: u64,
        /// The unit, as `if_tsresol` says it: 10^-n of a second for n below 128, and else
        /// 2^-(n - 128).
        resolution: u8,
        /// The seconds, as `if_tsoffset` says it.
        offset: i64,
    },
    /// Of a log: a time of day as it is written, and which way the packet went.
    OfDay {
        /// The time: digits, colons and points.
        time: LogText<'a>,
        /// Incoming or outgoing.
        direction: Direction,
        /// The name of the transport that logged the packet; empty if it has none.
        transport: LogText<'a>,
        /// The date and time that Chromium wrote before it, if it did.
        stamp: Option<Stamp>,
    },
}

/// A part of a capture.
#[derive(Clone, Copy)]
pub enum Part {
    /// A record of a file.
    Record,
    /// A line of text.
    Line,
    /// So many fragments of an IP packet, in as many frames, put together.
    Fragments(usize),
}

/// Where and when a frame was seen.
#[derive(Drop)]
pub struct Seen<'a> {
    /// Its number among the frames of a text, or the number of its record in a file, from 1.
    pub number: u64,
    /// When.
    pub time: Time<'a>,
    /// What it is, or begins with.
    pub part: Part,
    /// The number of that record or line, from 1.
    pub place: u64,
}

/// Why a record or a line holds no frame.
#[derive(Clone, Copy)]
pub enum Skipped {
    /// A header says a length that can't be.
    Malformed,
    /// It has more bytes than are kept.
    TooLong,
    /// The file ends in it.
    EndsIn,
    /// A packet block of an interface that no block describes, or that isn't kept.
    NoInterface,
    /// A line of no form that is known, or of fewer bytes than a packet's header has.
    Unknown,
    /// A line of a dump whose offset doesn't continue the line before it.
    Apart,
    /// The first line of a dump that doesn't say the packet: of one by `xxd -e`, where the bytes of
    /// each word are in the opposite order, or by `od -An` with lines that are as the one before.
    UnreadDump,
}

/// Takes events, one a call: a printer, a filter, counts.
pub trait Sink {
    // Holds of a list where the sink may have been handed these events so far, in this order.
    ghost handed: { Self → List Event → Type 0 } = { λ _ _. ⊤ };

    /// Takes a frame of this link type, which had `original_length` bytes on the link.
    fn frame(&mut self, seen: &Seen<'_>, link_type: u16, original_length: u32, bytes: &[u8])
        ensures { (xs : List Event) → handed self.old xs
            → handed self.new (xs ++ Saw seen.now link_type original_length bytes.now ∷ []) };

    /// Takes a record or a line that holds no frame.
    fn skipped(&mut self, part: Part, number: u64, why: Skipped)
        ensures { (xs : List Event) → handed self.old xs
            → handed self.new (xs ++ Skip part number why ∷ []) };
}
