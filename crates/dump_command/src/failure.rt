//! What keeps the program from its work.

use dump_capture::decoder::Fault;
use dump_input::Stop;
use std::alloc::{AllocError, AllocFailed};
use std::{fmt, io};

/// What keeps the program from its work.
#[derive(Clone, Copy, PartialEq, Eq)]
pub enum Failure {
    /// Memory ran out.
    OutOfMemory,
    /// A read failed.
    Read,
    /// A write failed, or took no byte.
    Write,
    /// Whoever read the output reads no more of it.
    ClosedPipe,
    /// A message's file can't be written, which was reported.
    MessageFile,
    /// The file can't be opened, for which the system has this error.
    Open(Option<i32>),
    /// The arguments can't be read.
    Arguments,
    /// An option isn't known, or its value isn't one; this says which.
    Usage(&'static str),
    /// The input is compressed.
    Compressed,
    /// The input has more parts than can be counted.
    Endless,
    /// The input ends inside a record.
    Unfinished,
    /// The input can't be read from some place on.
    Fault(Fault),
}

impl fmt::Display for Failure {
    fn fmt<W: fmt::Write>(&self, f: &mut fmt::Formatter<W>) -> fmt::Result {
        let text = match self {
            Failure::OutOfMemory => "out of memory",
            Failure::Read => "a read failed",
            Failure::Write | Failure::ClosedPipe => "a write failed",
            Failure::MessageFile => "a message's file can't be written",
            Failure::Open(Some(code)) => {
                let error = io::Error::from_raw_os_error(*code);
                return write!(f, "can't be opened: {error}");
            }
            Failure::Open(None) => "can't be opened",
            Failure::Arguments => "the arguments can't be read",
            Failure::Usage(usage) => usage,
            Failure::Compressed =>
                "is compressed: zcat, xzcat, zstdcat or bzcat FILE | sctp_dump reads it",
            Failure::Endless => "has too many parts",
            Failure::Unfinished => "ends inside a record",
            Failure::Fault(Fault::NotCapture) => "doesn't begin as a file of its format",
            Failure::Fault(Fault::ShortHeader) => "ends in the file header",
            Failure::Fault(Fault::Block) =>
                "a block's length is wrong, and nothing after it is read",
            Failure::Fault(Fault::LinkType(link_type)) => {
                return write!(
                    f,
                    "link type {link_type} isn't read (--help names those that are)"
                );
            }
        };
        f.write_str(text)
    }
}

impl From<Stop> for Failure {
    fn from(stop: Stop) -> Failure {
        match stop {
            Stop::Read => Failure::Read,
            Stop::Printer => Failure::Write,
            Stop::OutOfMemory => Failure::OutOfMemory,
            Stop::Compressed => Failure::Compressed,
            Stop::Endless => Failure::Endless,
            Stop::Fault(fault) => Failure::Fault(fault),
        }
    }
}

impl From<AllocError> for Failure {
    fn from(_: AllocError) -> Failure {
        Failure::OutOfMemory
    }
}

impl<T: Drop> From<AllocFailed<T>> for Failure {
    fn from(_: AllocFailed<T>) -> Failure {
        Failure::OutOfMemory
    }
}
