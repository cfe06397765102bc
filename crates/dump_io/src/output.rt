//! A writer with the text that is written to it later, many lines at once.

ghost use Rattle.std.specs.Prelude.{◌≡◌, ◌≤◌, ◌<◌, ◌||◌, [], true, length, is_err, IsOk, OnOk, OnErr};
ghost use Rattle.std.specs.Io.KnownBytes.{Appends, Keeps};
ghost use Rattle.dump_io.specs.Transfer.{AppendsBeginning};
ghost use Rattle.dump_io.specs.Watched.{device_of, has_failed, is_flushed};
ghost use Rattle.dump_io.specs.Output.{writer_of, pending, total};

use crate::transfer::write_bytes;
use crate::watched::Watched;
use std::alloc::Global;
use std::io;
use std::io::Write;

/// A writer, and the text that it hasn't got yet.
#[derive(Drop)]
pub struct Output<W> {
    writer: Watched<W>,
    /// The text that the writer hasn't got yet.
    pub text: String,
}

impl<W: Write> Output<W> {
    /// Returns an output without text.
    pub fn new(alloc: Global, writer: Watched<W>) -> Output<W>
        ensures writer { writer_of result ≡ writer }
        ensures empty { pending result ≡ [] }
    {
        Output {
            writer,
            text: String::new(alloc),
        }
    }

    /// Writes the text, and doesn't flush. Where the writer fails, it took a beginning of the text.
    pub fn write(&mut self) -> io::Result<()>
        ensures whole { OnOk result (Appends (W.contents (device_of (writer_of self.old)))
            (W.contents (device_of (writer_of self.new))) (pending self.old)) }
        ensures empty { OnOk result (pending self.new ≡ []) }
        ensures none { pending self.old ≡ [] → IsOk result }
        ensures kept { OnOk result (Keeps (total W.contents self.old) (total W.contents self.new)) }
        ensures cut { OnErr result (AppendsBeginning (W.contents (device_of (writer_of self.old)))
            (W.contents (device_of (writer_of self.new))) (pending self.old)) }
        ensures failed { has_failed (writer_of self.new)
            ≡ (has_failed (writer_of self.old) || is_err result) }
    {
        match write_bytes(&mut self.writer, self.text.as_bytes()) {
            Ok(()) => {
                self.text.clear();
                Ok(())
            }
            Err(error) => Err(error),
        }
    }

    /// Writes the text if it has at least `least` bytes. Nothing changes if it is shorter.
    pub fn write_from(&mut self, least: usize) -> io::Result<()>
        ensures short { length (pending self.old) < least → IsOk result × (self.new ≡ self.old) }
        ensures long { OnOk result (least ≤ length (pending self.old) → pending self.new ≡ []) }
        ensures kept { OnOk result (Keeps (total W.contents self.old) (total W.contents self.new)) }
        ensures cut { OnErr result (AppendsBeginning (W.contents (device_of (writer_of self.old)))
            (W.contents (device_of (writer_of self.new))) (pending self.old)) }
        ensures failed { has_failed (writer_of self.new)
            ≡ (has_failed (writer_of self.old) || is_err result) }
    {
        if self.text.len() < least {
            return Ok(());
        }
        self.write()
    }

    /// Writes bytes, not the text, and doesn't flush. Where the writer fails, it took a beginning of
    /// them.
    pub fn write_bytes(&mut self, bytes: &[u8]) -> io::Result<()>
        ensures whole { OnOk result (Appends (W.contents (device_of (writer_of self.old)))
            (W.contents (device_of (writer_of self.new))) bytes.now) }
        ensures cut { OnErr result (AppendsBeginning (W.contents (device_of (writer_of self.old)))
            (W.contents (device_of (writer_of self.new))) bytes.now) }
        ensures none { bytes.now ≡ [] → IsOk result }
        ensures kept { pending self.new ≡ pending self.old }
        ensures failed { has_failed (writer_of self.new)
            ≡ (has_failed (writer_of self.old) || is_err result) }
    {
        write_bytes(&mut self.writer, bytes)
    }

    /// Writes the text, and flushes.
    pub fn finish(&mut self) -> io::Result<()>
        ensures whole { OnOk result (Appends (W.contents (device_of (writer_of self.old)))
            (W.contents (device_of (writer_of self.new))) (pending self.old)) }
        ensures empty { OnOk result (pending self.new ≡ []) }
        ensures cut { OnErr result (AppendsBeginning (W.contents (device_of (writer_of self.old)))
            (W.contents (device_of (writer_of self.new))) (pending self.old)) }
        ensures failed { has_failed (writer_of self.new)
            ≡ (has_failed (writer_of self.old) || is_err result) }
        ensures flushed { OnOk result (is_flushed (writer_of self.new) ≡ true) }
    {
        match self.write() {
            Ok(()) => self.writer.flush(),
            Err(error) => Err(error),
        }
    }
}
