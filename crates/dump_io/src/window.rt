//! The part of the input that is in memory.
ghost use Rattle.std.specs.Prelude.{◌≡◌, ◌+◌, ◌-◌, ◌||◌, ◌≤◌, ◌<◌, [], is_err, take, drop, length, vec_len, IfOk, OnErr};
ghost use Rattle.std.specs.Io.KnownBytes.{Keeps, IsAtEnd};
ghost use Rattle.dump_io.specs.Watched.{device_of, has_failed};
ghost use Rattle.dump_io.specs.Transfer.{AddsAfter};

use crate::watched::Watched;
use std::alloc::{AllocError, Global};
use std::io;
use std::io::Read;

/// The most bytes of a record or of a line that are kept.
pub const MOST_KEPT: usize = 262_144;

/// The fewest bytes that there is room for when the input is read.
const LEAST_ROOM: usize = 65_536;

/// A record with its header, or a line with its end, and room for a read after it.
const CAPACITY: usize = 327_696;

/// The bytes that were read, and aren't used yet.
#[derive(Drop)]
pub struct Window {
    bytes: Vec<u8>,
    start: usize,
    end: usize,
    ghost ordered: { start ≤ end },
    ghost within: { end ≤ 327696 },
    ghost capacity: { vec_len bytes ≡ 327696 },
}

impl Window {
    ghost use Rattle.dump_io.specs.Window.{held, AddsRead};

    /// Returns a window without bytes.
    pub fn new(alloc: Global) -> Result<Window, AllocError>
        ensures { IfOk result (λ w. held w ≡ []) }
    {
        Ok(Window {
            bytes: vec![in alloc; 0; CAPACITY]?,
            start: 0,
            end: 0,
        })
    }

    /// Returns the bytes.
    pub fn held(&self) -> &[u8]
        ensures { result.now ≡ held self.now }
    {
        &self.bytes[self.start..self.end]
    }

    /// Returns the number of bytes.
    pub fn len(&self) -> usize
        ensures { result ≡ length (held self.now) }
    {
        self.end - self.start
    }

    /// Drops bytes from the front.
    pub fn consume(&mut self, count: usize)
        requires { count ≤ length (held self.old) }
        ensures { held self.new ≡ drop count (held self.old) }
    {
        self.start += count;
    }

    /// Drops all bytes.
    pub fn clear(&mut self)
        ensures { held self.new ≡ [] }
    {
        self.start = 0;
        self.end = 0;
    }

    /// Reads once, and returns the number of bytes read; 0 at the end of the input. A failed read
    /// changes nothing.
    pub fn refill<R: Read>(&mut self, input: &mut Watched<R>) -> io::Result<usize>
        requires { length (held self.old) ≤ MOST_KEPT + 16 }
        ensures read { IfOk result (λ n. AddsRead n self.old (R.remaining (device_of input.old))
            self.new (R.remaining (device_of input.new))) }
        ensures end { IfOk result (λ n. n ≡ 0 → IsAtEnd (R.remaining (device_of input.new))) }
        ensures err { OnErr result (held self.new ≡ held self.old) }
        ensures kept { OnErr result (Keeps (R.remaining (device_of input.old))
            (R.remaining (device_of input.new))) }
        ensures failed { has_failed input.new ≡ (has_failed input.old || is_err result) }
    {
        self.make_room();
        match read_after(input, self.bytes.as_mut_slice(), self.end) {
            Ok(count) => {
                self.end += count;
                Ok(count)
            }
            Err(error) => Err(error),
        }
    }

    /// Moves the bytes to the front of the memory, where there is little room after them.
    fn make_room(&mut self)
        requires { length (held self.old) ≤ MOST_KEPT + 16 }
        ensures bytes { held self.new ≡ held self.old }
        ensures room { self.new.end + LEAST_ROOM ≤ CAPACITY }
    {
        if CAPACITY - self.end < LEAST_ROOM {
            move_to_front(self.bytes.as_mut_slice(), self.start, self.end);
            self.end -= self.start;
            self.start = 0;
        }
    }
}

/// Moves the bytes from `start` up to `end` to the front.
fn move_to_front(bytes: &mut [u8], start: usize, end: usize)
    requires ordered { start ≤ end }
    requires within { end ≤ length bytes.old }
    ensures { take (end - start) bytes.new ≡ drop start (take end bytes.old) }
{
    bytes[..end].rotate_left(start);
}

/// Reads once, after the first `end` bytes.
fn read_after<R: Read>(input: &mut Watched<R>, bytes: &mut [u8], end: usize) -> io::Result<usize>
    requires { end < length bytes.old }
    ensures bound { IfOk result (λ n. end + n ≤ length bytes.new) }
    ensures read { IfOk result (λ n. AddsAfter end n bytes.old (R.remaining (device_of input.old))
        bytes.new (R.remaining (device_of input.new))) }
    ensures end { IfOk result (λ n. n ≡ 0 → IsAtEnd (R.remaining (device_of input.new))) }
    ensures err { OnErr result (take end bytes.new ≡ take end bytes.old) }
    ensures kept { OnErr result (Keeps (R.remaining (device_of input.old))
        (R.remaining (device_of input.new))) }
    ensures failed { has_failed input.new ≡ (has_failed input.old || is_err result) }
{
    match input.read(&mut bytes[end..]) {
        Ok(count) => Ok(count),
        Err(error) => Err(error),
    }
}
