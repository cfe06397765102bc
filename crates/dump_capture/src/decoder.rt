//! Finds the events of a capture that comes in pieces. A decoder sees the bytes that are in memory,
//! and reads nothing itself.

ghost use Rattle.std.specs.Prelude.{ℕ, List, Option};
ghost use Rattle.dump_capture.specs.Event.{Event, Hands};
ghost use Rattle.dump_capture.specs.Decoding.{Finds};
ghost use Rattle.dump_capture.specs.declared.decoder.Fault.{Fault};

use crate::event::Sink;

/// The most bytes of a record's frame, of a block's body, or of a line that are kept.
pub const MOST_KEPT: usize = 262_144;

/// How far an item reaches that is too long to be kept.
#[derive(Clone, Copy)]
pub enum Extent {
    /// As many bytes, more than are in memory.
    Bytes(usize),
    /// Up to the next line feed, of which none is in memory.
    Line,
}

/// What the bytes in memory begin with.
#[derive(Clone, Copy)]
pub enum Next {
    /// Less than an item: more bytes are needed, or to know that there are none.
    More,
    /// An item of this many bytes. Its events were handed on.
    Item(usize),
    /// An item that is too long. Its events were handed on, whether or not it is whole.
    Long(Extent),
    /// The end. The events of what was left were handed on.
    End,
    /// What can't be read, from here on to the end.
    Fault(Fault),
}

/// Why a capture can't be read further.
#[derive(Clone, Copy, PartialEq, Eq)]
pub enum Fault {
    /// It doesn't begin as a file of its format.
    NotCapture,
    /// It ends in the header of the file.
    ShortHeader,
    /// Frames of this link type aren't read.
    LinkType(u16),
    /// A block says a length that can't be, or a section header no byte order, so nothing says
    /// where the next one is.
    Block,
}

/// Finds the events of a capture.
pub trait Decoder {
    // What is known of the bytes before.
    ghost State: { Type 0 };

    ghost state: { Self → State };

    // These bytes are an item, which has these events; and what is known after it.
    ghost Item: { State → List ℕ → List Event → State → Type 0 };

    // These bytes, up to the end of the capture, are less than an item, and have these events; or
    // they can't be read.
    ghost End: { State → List ℕ → List Event → Option Fault → Type 0 };

    /// Returns what the bytes begin with, and hands its events to the sink. `at_end` is true if no
    /// more bytes follow.
    fn next<S: Sink>(&mut self, held: &[u8], at_end: bool, sink: &mut S) -> Next
        ensures { (events : List Event) × Hands S.handed sink.old sink.new events
            × Finds Item End (state self.old) held.now at_end events (state self.new) result };
}
