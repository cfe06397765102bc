//! COOKIE ECHO: hands the cookie of an INIT ACK back.
//!
//! ```txt
//!  0                   1                   2                   3
//!  0 1 2 3 4 5 6 7 8 9 0 1 2 3 4 5 6 7 8 9 0 1 2 3 4 5 6 7 8 9 0 1
//! +-+-+-+-+-+-+-+-+-+-+-+-+-+-+-+-+-+-+-+-+-+-+-+-+-+-+-+-+-+-+-+-+
//! |   type = 10   |     flags     |            length             |
//! +-+-+-+-+-+-+-+-+-+-+-+-+-+-+-+-+-+-+-+-+-+-+-+-+-+-+-+-+-+-+-+-+
//! |                  cookie, one byte at least                    |
//! +-+-+-+-+-+-+-+-+-+-+-+-+-+-+-+-+-+-+-+-+-+-+-+-+-+-+-+-+-+-+-+-+
//! ```

ghost use Rattle.std.specs.Prelude.{◌≡◌, ◌≢◌, ◌↔◌, [], Some, IsOk, IfOk, IsErrOf, vec_capacity, Ok, vec_len};
ghost use Rattle.dcsctp_tlv.specs.Reading.{Exactly, reading, checking, Tested};
ghost use Rattle.dcsctp_chunk.specs.CookieEcho as kind;

use crate::raw_chunk::RawChunk;
use dcsctp_tlv::copy::copied;
use dcsctp_tlv::error::ChunkParseError;
use dcsctp_tlv::frame::{item_size, put_solid};
use dcsctp_tlv::tlv::SerializableTlv;
use dcsctp_tlv::widths::are_bytes;
use std::alloc::{AllocError, Global};
use std::fmt;

/// The type of COOKIE ECHO.
pub const CHUNK_TYPE: u8 = 10;

/// COOKIE ECHO (RFC 9260 section 3.3.11).
///
/// An empty cookie can be written, but isn't read.
#[derive(Debug, Drop)]
pub struct CookieEchoChunk {
    /// The State Cookie of the INIT ACK, byte for byte.
    pub cookie: Vec<u8>,
}

impl CookieEchoChunk {
    /// Builds the chunk with an empty cookie. Does not allocate.
    pub fn new(alloc: Global) -> CookieEchoChunk
        ensures cookie { result.cookie.items ≡ [] }
        ensures memory { vec_capacity result.cookie ≡ 0 }
    {
        CookieEchoChunk {
            cookie: Vec::new(alloc),
        }
    }

    /// Copies the chunk with its cookie; refused only if memory runs out.
    pub fn clone(&self) -> Result<CookieEchoChunk, AllocError>
        ensures same { IfOk result (λ c. c.cookie.items ≡ self.now.cookie.items) }
        ensures tight { IfOk result (λ c. vec_capacity c.cookie ≡ vec_len c.cookie) }
    {
        Ok(CookieEchoChunk {
            cookie: copied(*self.cookie.allocator(), &self.cookie)?,
        })
    }

    /// Reads the chunk, and copies its cookie; flags are ignored.
    ///
    /// `InvalidType` if and only if the type is another; `InvalidLength` if and only if the value
    /// is empty; `OutOfMemory` only where the cookie can't be copied.
    pub fn try_from(alloc: Global, raw: RawChunk) -> Result<Self, ChunkParseError>
        ensures other { IsErrOf result ChunkParseError.InvalidType ↔ (raw.entry.typ ≢ CHUNK_TYPE) }
        ensures answer { raw.entry.typ ≡ CHUNK_TYPE →
            Exactly reading kind.view (λ a. kind.read raw.entry.value.now ≡ a) result }
        ensures memory { IsErrOf result ChunkParseError.OutOfMemory →
            IsOk (kind.read raw.entry.value.now) }
        ensures tight { IfOk result (λ x. vec_capacity x.cookie ≡ vec_len x.cookie) }
    {
        if raw.typ != CHUNK_TYPE {
            return Err(ChunkParseError::InvalidType);
        }
        CookieEchoChunk::check(raw.value)?;
        Ok(CookieEchoChunk::build(alloc, raw.flags, raw.value)?)
    }

    /// Checks the value: `InvalidLength` if and only if it is empty.
    pub(crate) fn check(value: &[u8]) -> Result<(), ChunkParseError>
        ensures { Exactly checking (λ u. u) (Tested (kind.read value.now)) result }
    {
        if value.is_empty() {
            return Err(ChunkParseError::InvalidLength);
        }
        Ok(())
    }

    /// Copies the value.
    pub fn build(alloc: Global, _flags: u8, value: &[u8]) -> Result<Self, AllocError>
        requires { IsOk (kind.read value.now) }
        ensures meant { IfOk result (λ x. kind.read value.now ≡ Ok (kind.view x)) }
        ensures tight { IfOk result (λ x. vec_capacity x.cookie ≡ vec_len x.cookie) }
    {
        Ok(CookieEchoChunk {
            cookie: copied(alloc, value)?,
        })
    }
}

impl SerializableTlv for CookieEchoChunk {
    ghost format = { λ c. kind.format (kind.view c) };

    fn serialize_to(&self, output: &mut [u8]) {
        put_solid(CHUNK_TYPE, 0, &self.cookie, output);
    }

    fn encoded_size(&self) -> Option<usize> {
        item_size(self.cookie.len())
    }

    fn has_widths(&self) {
        are_bytes(&self.cookie);
    }
}

impl fmt::Display for CookieEchoChunk {
    ghost output = { λ c. Some (kind.format (kind.view c)).text };

    fn fmt<W: fmt::Write>(&self, f: &mut fmt::Formatter<W>) -> fmt::Result {
        let size = self.cookie.len();
        write!(f, "COOKIE-ECHO, cookie={size} bytes")
    }
}
