//! Why a capture isn't read further.

use dump_capture::decoder::Fault;
use std::alloc::AllocError;

/// Why a capture isn't read further.
#[derive(Clone, Copy, PartialEq, Eq)]
pub enum Stop {
    /// A read failed.
    Read,
    /// The printer failed; it says why.
    Printer,
    /// Memory ran out.
    OutOfMemory,
    /// It is compressed.
    Compressed,
    /// It has more items than can be counted.
    Endless,
    /// It can't be read from some place on.
    Fault(Fault),
}

impl From<AllocError> for Stop {
    ghost use Rattle.std.specs.Prelude.{◌≡◌};
    ghost use Rattle.dump_input.specs.declared.stop.Stop.{Stop};

    ghost from_gives = { λ _ e. e ≡ Stop.OutOfMemory };

    fn from(_: AllocError) -> Stop {
        Stop::OutOfMemory
    }
}
