//! The error causes of a chunk in its bytes, one after the other.

ghost use Rattle.std.specs.Prelude.{◌≡◌, ℕ, List, option_map};
ghost use Rattle.dcsctp_tlv.specs.{Frame.{lenient}, Level.{MeansSome}, Number.{AreBytes}};
ghost use Rattle.dcsctp_cause.specs.Cause.{causes};
ghost use Rattle.dcsctp_wire.specs.Chunk.{ChunkTree};
ghost use Rattle.dcsctp_borrowed.specs.{Front.{GivesList, MeansList}, RawChunks.{RawMeans}, RawCauses.{cause_bytes, causes_of}};

use crate::raw_parameters::front_parts;
use dcsctp_cause::error_causes::error_cause_check;
use dcsctp_tlv::parameter::RawParameter;
use dcsctp_wire::packet::chunk::RawChunk;
use dcsctp_wire::packet::{abort_chunk, error_chunk};
use std::marker::Model;

/// The error causes that are left of a chunk, each as its code and its value (RFC 9260 section
/// 3.3.10).
///
/// A contract sees the bytes of these causes. They are known to mean causes, so `next` tests
/// nothing and has no error, and `ErrorCause::try_from` of what it returns fails only where an
/// allocation fails.
#[derive(Clone, Debug, Drop)]
pub struct RawCauses<'a> {
    rest: &'a [u8],
}

impl<'a> Model for RawCauses<'a> {
    ghost Value = { List ℕ };

    ghost view = { λ c. c.rest.now };

    ghost invariant = { λ c. MeansSome (causes lenient) c.rest.now × AreBytes c.rest.now };
}

impl<'a> RawCauses<'a> {
    // It checks the value, as `RawParameters::from_raw` does.
    /// Returns the error causes of ABORT and ERROR (RFC 9260 sections 3.3.7 and 3.3.10); `None`
    /// if and only if the chunk has another type, or a value that its type doesn't allow. Does not
    /// allocate.
    ///
    /// Of a chunk of a packet these are the causes that `SctpPacket::from_bytes` gives, and `None`
    /// if and only if the chunk has another type.
    pub fn from_raw(raw: &RawChunk<'a>) -> Option<RawCauses<'a>>
        ensures read { GivesList (causes lenient) (cause_bytes raw.now.typ raw.now.value.now)
            result }
        ensures means { (tree : ChunkTree) → RawMeans raw.now tree
            → MeansList (causes lenient) result (causes_of tree) }
    {
        let rest = cause_bytes(raw.typ, raw.value)?;
        match error_cause_check(rest, false) {
            Ok(_) => Some(RawCauses::new(rest)),
            Err(_) => None,
        }
    }

    /// Returns the causes that these bytes mean.
    pub(crate) fn new(rest: &'a [u8]) -> RawCauses<'a>
        requires { MeansSome (causes lenient) rest.now }
        ensures { result ≡ rest.now }
    {
        RawCauses { rest }
    }
}

/// Returns the bytes in which a chunk of this type has its error causes.
#[inline(always)]
pub(crate) fn cause_bytes(typ: u8, value: &[u8]) -> Option<&[u8]>
    ensures { option_map (λ bytes. bytes.now) result ≡ cause_bytes typ value.now }
{
    match typ {
        abort_chunk::CHUNK_TYPE => Some(value),
        error_chunk::CHUNK_TYPE => {
            if value.is_empty() {
                return None;
            }
            Some(value)
        }
        _ => None,
    }
}

impl<'a> Iterator for RawCauses<'a> {
    ghost use Rattle.std.specs.Iterator.{at_most};
    ghost use Rattle.std.specs.Prelude.{length};
    ghost use Rattle.dcsctp_cause.specs.Cause.{row};
    ghost use Rattle.dcsctp_borrowed.specs.Front.{GivesNextTyped};

    type Item = RawParameter<'a>;

    ghost next_gives = { GivesNextTyped (causes lenient) row };

    ghost remaining = { λ bytes. at_most (length bytes) };

    /// Returns the next cause, whose value is a part of the bytes; `None` once all were returned.
    #[inline(always)]
    fn next(&mut self) -> Option<RawParameter<'a>> {
        let bytes = self.rest;
        if bytes.is_empty() {
            return None;
        }
        let (raw, rest) = front_parts(bytes);
        self.rest = rest;
        Some(raw)
    }
}
