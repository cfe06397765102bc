//! Devices in memory that fail at a chosen call, for tests of what a program does then.
ghost use Rattle.std.specs.Prelude.{◌≡◌, true, IfOk};

use std::io;
use std::io::{ErrorKind, Read, Write};

/// What a device does at the call at which it fails.
#[derive(Clone, Copy)]
pub enum Fault {
    /// Returns this error.
    Error(ErrorKind),
    /// Moves no byte.
    Nothing,
}

/// An error after which std's own loops would call again.
pub const INTERRUPTED: Fault = Fault::Error(ErrorKind::Interrupted);

/// A device that moves at most `step` bytes a call, and fails at one call alone.
#[derive(Clone, Copy)]
pub struct Plan {
    /// The most bytes that one call moves.
    pub step: usize,
    /// The call that fails, counted from 1; 0 for none. A flush counts as a call.
    pub fails_at: usize,
    /// What that call does.
    pub fault: Fault,
}

/// Returns the plan of a device that fails at one call.
pub fn fails(step: usize, fails_at: usize, fault: Fault) -> Plan
    ensures { result ≡ record { step = step; fails_at = fails_at; fault = fault } }
{
    Plan {
        step,
        fails_at,
        fault,
    }
}

/// Returns the plan of a device that never fails.
pub fn steps(step: usize) -> Plan
    ensures { result ≡ record { step = step; fails_at = 0; fault = Fault.Nothing } }
{
    fails(step, 0, Fault::Nothing)
}

/// Returns the outcome of a read or a write that fails.
fn failed_call(fault: Fault) -> io::Result<usize>
    ensures { IfOk result (λ n. n ≡ 0) }
{
    match fault {
        Fault::Error(kind) => Err(io::Error::from(kind)),
        Fault::Nothing => Ok(0),
    }
}

/// A reader of bytes in memory.
#[derive(Drop)]
pub struct Source<'a> {
    /// The bytes that are left.
    pub bytes: &'a [u8],
    /// When it fails.
    pub plan: Plan,
    /// The number of calls of `read`.
    pub reads: usize,
}

impl<'a> Source<'a> {
    /// Returns a reader of these bytes.
    pub fn new(bytes: &'a [u8], plan: Plan) -> Source<'a>
        ensures { result ≡ record { bytes = bytes.entry; plan = plan; reads = 0 } }
    {
        Source {
            bytes,
            plan,
            reads: 0,
        }
    }
}

impl<'a> Read for Source<'a> {
    fn read(&mut self, buf: &mut [u8]) -> io::Result<usize> {
        self.reads = self.reads.saturating_add(1);
        if self.reads == self.plan.fails_at {
            return failed_call(self.plan.fault);
        }
        let len = self.plan.step.min(buf.len());
        self.bytes.read(&mut buf[..len])
    }
}

/// A writer that keeps no bytes, but compares them with those that are wanted.
#[derive(Drop)]
pub struct Sink<'a> {
    /// The wanted bytes that are still to come.
    pub wanted: &'a [u8],
    /// When it fails.
    pub plan: Plan,
    /// The number of calls of `write`.
    pub writes: usize,
    /// The number of calls of `flush`.
    pub flushes: usize,
    /// The number of bytes written to it.
    pub taken: usize,
    /// Whether they are a beginning of the wanted bytes.
    pub as_wanted: bool,
}

impl<'a> Sink<'a> {
    /// Returns a writer of which these bytes are wanted.
    pub fn new(wanted: &'a [u8], plan: Plan) -> Sink<'a>
        ensures { result ≡ record {
          wanted = wanted.entry;
          plan = plan;
          writes = 0;
          flushes = 0;
          taken = 0;
          as_wanted = true;
        } }
    {
        Sink {
            wanted,
            plan,
            writes: 0,
            flushes: 0,
            taken: 0,
            as_wanted: true,
        }
    }

    /// Returns whether this call is the one that fails.
    fn fails_now(&self) -> bool {
        self.writes.saturating_add(self.flushes) == self.plan.fails_at
    }
}

impl<'a> Write for Sink<'a> {
    fn write(&mut self, buf: &[u8]) -> io::Result<usize> {
        self.writes = self.writes.saturating_add(1);
        if self.fails_now() {
            return failed_call(self.plan.fault);
        }
        let len = self.plan.step.min(buf.len());
        match self.wanted.strip_prefix(&buf[..len]) {
            Some(rest) => self.wanted = rest,
            None => self.as_wanted = false,
        }
        self.taken = self.taken.saturating_add(len);
        Ok(len)
    }

    fn flush(&mut self) -> io::Result<()> {
        self.flushes = self.flushes.saturating_add(1);
        if self.fails_now() {
            failed_call(self.plan.fault)?;
        }
        Ok(())
    }
}
