//! Why the bytes of a chunk, a parameter or an error cause were refused.

ghost use Rattle.std.specs.Prelude.{◌≡◌};
ghost use Rattle.dcsctp_tlv.specs.declared.error.ChunkParseError.TheVariants.{OutOfMemory};

use std::alloc::{AllocError, AllocFailed};
use thiserror::Error;

/// Why the bytes of a chunk, a parameter or an error cause were refused.
///
/// A reader that returns one changed nothing: it borrowed its input.
#[derive(Debug, Drop, PartialEq, Eq, Error)]
pub enum ChunkParseError {
    /// A length field breaks its rule (RFC 9260 section 3.2), or a value has a size that its kind
    /// doesn't allow.
    #[error("The TLV data has an invalid length field, or payload size")]
    InvalidLength,
    /// The reader of one kind was handed another type.
    #[error("Unexpected TLV type")]
    InvalidType,
    /// Padding that isn't accepted; never returned where padding is ignored.
    #[error("Incorrect number of padding bytes")]
    InvalidPadding,
    /// A number that has no meaning in its field.
    #[error("Invalid value")]
    InvalidValue,
    /// Memory ran out.
    #[error("Out of memory")]
    OutOfMemory,
}

/// The first fault of the bytes, and where it lies.
#[derive(Drop)]
pub struct LocatedFault {
    // A number first: in a `Result` it then shares its place with the number of a good result.
    /// The fault's offset in bytes, from the first byte that was checked.
    pub offset: usize,
    /// What is wrong; never that memory ran out.
    pub fault: ChunkParseError,
}

impl LocatedFault {
    /// Locates a fault of an item as a whole, which is at the item's first byte.
    pub fn at_front(fault: ChunkParseError) -> LocatedFault
        ensures { result ≡ record { fault = fault; offset = 0 } }
    {
        LocatedFault { fault, offset: 0 }
    }
}

impl From<LocatedFault> for ChunkParseError {
    ghost from_gives = { λ found e. e ≡ found.fault };

    fn from(found: LocatedFault) -> ChunkParseError {
        found.fault
    }
}

impl From<AllocError> for ChunkParseError {
    ghost from_gives = { λ _ e. e ≡ OutOfMemory };

    fn from(_e: AllocError) -> ChunkParseError {
        ChunkParseError::OutOfMemory
    }
}

impl<T: Drop> From<AllocFailed<T>> for ChunkParseError {
    ghost from_gives = { λ _ e. e ≡ OutOfMemory };

    fn from(_e: AllocFailed<T>) -> ChunkParseError {
        ChunkParseError::OutOfMemory
    }
}
