//! A device that remembers whether one of its calls failed, and whether it was flushed.
ghost use Rattle.std.specs.Prelude.{◌≡◌, ◌||◌, ◌&&◌, nat_lt, is_err, is_ok, length, true, false};
ghost use Rattle.std.specs.Io.{ReadsAtMost, WritesAtMost};
ghost use Rattle.std.specs.Io.KnownBytes.{ReadConsumes, WriteAppends, Keeps};

use std::io;
use std::io::{Read, Write};

/// Hands each call on to its device. It has failed from the first call on that returned an error,
/// or that was to write bytes and took none. It is flushed unless bytes were written after the
/// last flush that didn't fail.
#[derive(Drop)]
pub struct Watched<D> {
    device: D,
    failed: bool,
    flushed: bool,
}

impl<D> Watched<D> {
    ghost use Rattle.dump_io.specs.Watched.{device_of, has_failed, is_flushed};

    /// Watches a device, of whose calls none has failed, and to which nothing was written.
    pub fn new(device: D) -> Watched<D>
        ensures device { device_of result ≡ device }
        ensures failed { has_failed result ≡ false }
        ensures flushed { is_flushed result ≡ true }
    {
        Watched {
            device,
            failed: false,
            flushed: true,
        }
    }

    /// Returns whether a call failed.
    pub fn failed(&self) -> bool
        ensures { result ≡ has_failed self.now }
    {
        self.failed
    }

    /// Returns whether no bytes were written after the last call of `flush` that didn't fail. That
    /// such a call flushes the device no clause can say, since std's `Write` doesn't; the tests
    /// count the flushes.
    pub fn is_flushed(&self) -> bool
        ensures { result ≡ is_flushed self.now }
    {
        self.flushed
    }

    /// Returns the device.
    pub fn into_device(self) -> D
        ensures { result ≡ device_of self }
    {
        self.device
    }
}

impl<R: Read> Read for Watched<R> {
    ghost use Rattle.dump_io.specs.Watched.{device_of, has_failed};

    ghost remaining = { λ w. R.remaining (device_of w) };

    fn read(&mut self, buf: &mut [u8]) -> io::Result<usize>
        ensures bound { ReadsAtMost result buf.new }
        ensures bytes { ReadConsumes (R.remaining (device_of self.old))
            (R.remaining (device_of self.new)) result buf.new }
        ensures failed { has_failed self.new ≡ (has_failed self.old || is_err result) }
    {
        let outcome = self.device.read(buf);
        if outcome.is_err() {
            self.failed = true;
        }
        outcome
    }
}

impl<W: Write> Write for Watched<W> {
    ghost use Rattle.dump_io.specs.Watched.{device_of, has_failed, is_flushed};
    ghost use Rattle.dump_io.specs.Watched.{took_none, wrote_none};

    ghost contents = { λ w. W.contents (device_of w) };

    fn write(&mut self, buf: &[u8]) -> io::Result<usize>
        ensures bound { WritesAtMost result buf.now }
        ensures bytes { WriteAppends (W.contents (device_of self.old))
            (W.contents (device_of self.new)) result buf.now }
        ensures failed { has_failed self.new
            ≡ (has_failed self.old || is_err result || took_none result buf.now) }
        ensures flushed { is_flushed self.new ≡ (is_flushed self.old && wrote_none result) }
    {
        let outcome = self.device.write(buf);
        match &outcome {
            Ok(0) if !buf.is_empty() => self.failed = true,
            Ok(0) => {}
            Ok(_) => self.flushed = false,
            Err(_) => self.failed = true,
        }
        outcome
    }

    fn flush(&mut self) -> io::Result<()>
        ensures bytes { Keeps (W.contents (device_of self.old)) (W.contents (device_of self.new)) }
        ensures failed { has_failed self.new ≡ (has_failed self.old || is_err result) }
        ensures flushed { is_flushed self.new ≡ (is_flushed self.old || is_ok result) }
    {
        let outcome = self.device.flush();
        if outcome.is_err() {
            self.failed = true;
        } else {
            self.flushed = true;
        }
        outcome
    }
}
