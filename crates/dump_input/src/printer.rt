//! What is done with the events of a capture.

ghost use Rattle.std.specs.Prelude.{◌≡◌, Bool, ◌||◌, []};
ghost use Rattle.dump_capture.specs.Event.{Hands};

use dump_capture::event::Sink;
use dump_capture::reassembler::{PacketSink, Reassembler};

/// A sink that may fail, and may keep what it was handed for a while.
pub trait Printer: Sink {
    ghost failed: { Self → Bool };

    /// Returns whether it failed.
    fn failed(&self) -> bool
        ensures { result ≡ failed self.now };

    /// Shows all that it was handed, since the input may be waited for.
    fn show(&mut self)
        ensures { Hands Self.handed self.old self.new [] };
}

// Want of memory for fragments is a failure of the printer.
impl<P: Printer + PacketSink> Printer for Reassembler<P> {
    ghost failed = { λ r. P.failed r.inner || r.is_out_of_memory };

    fn failed(&self) -> bool {
        self.inner.failed() || self.is_out_of_memory
    }

    fn show(&mut self) {
        self.inner.show();
    }
}
