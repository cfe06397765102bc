//! The chunks of a packet in its bytes, one after the other.

ghost use Rattle.std.specs.Prelude.{◌≡◌, ℕ, List, length};
ghost use Rattle.dcsctp_tlv.specs.{Frame.{lenient}, Level.{MeansSome}, Number.{AreBytes}};
ghost use Rattle.dcsctp_wire.specs.Chunk.{chunks};

use crate::checked_chunks::CheckedChunks;
use dcsctp_tlv::frame::frame_parts;
use dcsctp_wire::packet::chunk::RawChunk;
use std::marker::Model;

/// The chunks that are left of a packet that was checked, each as its type, its flags and its value
/// (RFC 9260 section 3.2).
///
/// A contract sees the bytes of these chunks. They are known to mean chunks, so `next` tests
/// nothing and has no error, and `Chunk::try_from` of what it returns fails only where an
/// allocation fails.
#[derive(Clone, Debug, Drop)]
pub struct RawChunks<'a> {
    rest: &'a [u8],
}

impl<'a> Model for RawChunks<'a> {
    ghost Value = { List ℕ };

    ghost view = { λ c. c.rest.now };

    ghost invariant = { λ c. MeansSome (chunks lenient) c.rest.now × AreBytes c.rest.now };
}

impl<'a> RawChunks<'a> {
    /// Returns the chunks that these bytes mean.
    pub(crate) fn new(rest: &'a [u8]) -> RawChunks<'a>
        requires { MeansSome (chunks lenient) rest.now }
        ensures { result ≡ rest.now }
    {
        RawChunks { rest }
    }

    /// Returns the bytes of these chunks.
    #[inline(always)]
    pub(crate) fn bytes(&self) -> &'a [u8]
        ensures value { result.now ≡ self.now }
        ensures fits { AreBytes result.now }
        ensures known { MeansSome (chunks lenient) result.now }
    {
        self.rest
    }

    /// Returns these chunks, each of a type that keeps what is known of it.
    #[inline(always)]
    pub fn checked(self) -> CheckedChunks<'a>
        ensures { result ≡ self.entry }
    {
        CheckedChunks::new(self)
    }
}

impl<'a> Iterator for RawChunks<'a> {
    ghost use Rattle.std.specs.Iterator.{at_most};
    ghost use Rattle.dcsctp_borrowed.specs.RawChunks.{GivesNext};

    type Item = RawChunk<'a>;

    ghost next_gives = { GivesNext };

    ghost remaining = { λ bytes. at_most (length bytes) };

    /// Returns the next chunk, whose value is a part of the bytes; `None` once all were returned.
    #[inline(always)]
    fn next(&mut self) -> Option<RawChunk<'a>> {
        let bytes = self.rest;
        if bytes.is_empty() {
            return None;
        }
        let (value, rest) = frame_parts(bytes);
        self.rest = rest;
        Some(RawChunk {
            typ: bytes[0],
            flags: bytes[1],
            value,
        })
    }
}
