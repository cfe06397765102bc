//! The chunks of a packet in its bytes, each known to mean a chunk.

ghost use Rattle.std.specs.Prelude.{◌≡◌, ◌≤◌, ℕ, List, Some, IfSome, length, option_map};
ghost use Rattle.dcsctp_tlv.specs.{Frame.{lenient}, Level.{HasMeaning, MeansSome}, Number.{AreBytes}, Parameter.{parameters}};
ghost use Rattle.dcsctp_cause.specs.Cause.{causes};
ghost use Rattle.dcsctp_chunk.specs.declared.raw_chunk.RawChunk.{RawChunk};
ghost use Rattle.dcsctp_wire.specs.Chunk.{ChunkTree, chunk_row, chunks};
ghost use Rattle.dcsctp_borrowed.specs.{CookieEcho.{cookie_of, read_cookie}, Front.{GivesList, MeansList}, RawCauses.{cause_bytes, causes_of}, RawChunks.{RawMeans}, RawParameters.{parameter_bytes, parameters_of}, Sack.{sack_of, read_sack}, SkippedStreams.{forward_of, read_forward}, UserData.{user_data_view, data_of, read_user_data}};

use crate::forward_tsn_ref::ForwardTsnRef;
use crate::raw_causes::{RawCauses, cause_bytes};
use crate::raw_chunks::RawChunks;
use crate::raw_parameters::{RawParameters, parameter_bytes};
use crate::sack_ref::SackRef;
use crate::user_data::UserData;
use dcsctp_wire::packet::chunk::RawChunk;
use dcsctp_wire::packet::{
    cookie_echo_chunk, data_chunk, forward_tsn_chunk, idata_chunk, iforward_tsn_chunk, sack_chunk,
};
use std::marker::Model;

/// A chunk of a packet that was checked (RFC 9260 section 3.2), where it lies in the bytes.
///
/// A contract sees its type, its flags and its value. They are known to mean a chunk, so that its
/// functions look at the type alone, where `from_raw` of what they return looks at the value's size
/// too.
#[derive(Debug, Drop)]
pub struct CheckedChunk<'a> {
    raw: RawChunk<'a>,
}

impl<'a> Model for CheckedChunk<'a> {
    ghost Value = { RawChunk };

    ghost view = { λ c. c.raw };

    ghost invariant = { λ c. HasMeaning (chunk_row lenient c.raw.typ c.raw.flags) c.raw.value.now };
}

impl<'a> CheckedChunk<'a> {
    /// Returns the chunk that this type, these flags and this value mean.
    #[inline(always)]
    fn new(raw: RawChunk<'a>) -> CheckedChunk<'a>
        requires { HasMeaning (chunk_row lenient raw.typ raw.flags) raw.value.now }
        ensures { result ≡ raw.entry }
    {
        CheckedChunk { raw }
    }

    /// Returns what kind of chunk it is.
    #[inline(always)]
    pub fn chunk_type(&self) -> u8
        ensures { result ≡ self.now.typ }
    {
        self.raw.typ
    }

    /// Returns its type, its flags and its value, of which `Chunk::try_from` makes a chunk where
    /// there is memory.
    #[inline(always)]
    pub fn into_raw(self) -> RawChunk<'a>
        ensures raw { result ≡ self.entry }
        ensures meant { HasMeaning (chunk_row lenient result.typ result.flags) result.value.now }
    {
        self.raw
    }

    /// Returns the user data of DATA or I-DATA, without a copy: what `UserData::from_raw` returns.
    /// `None` if and only if the chunk has another type.
    #[inline(always)]
    pub fn as_user_data(&self) -> Option<UserData<'a>>
        ensures read { option_map user_data_view result
            ≡ read_user_data self.now.typ self.now.flags self.now.value.now }
        ensures means { (tree : ChunkTree) → RawMeans self.now tree
            → option_map user_data_view result ≡ data_of tree }
        ensures size { IfSome result (λ d. length d.payload.now ≤ length self.now.value.now) }
    {
        let raw = &self.raw;
        match raw.typ {
            data_chunk::CHUNK_TYPE => Some(UserData::of_checked_data(raw.flags, raw.value)),
            idata_chunk::CHUNK_TYPE => Some(UserData::of_checked_idata(raw.flags, raw.value)),
            _ => None,
        }
    }

    /// Returns the SACK, without a copy: what `SackRef::from_raw` returns. `None` if and only if
    /// the chunk has another type.
    #[inline(always)]
    pub fn as_sack(&self) -> Option<SackRef<'a>>
        ensures read { result ≡ read_sack self.now.typ self.now.value.now }
        ensures means { (tree : ChunkTree) → RawMeans self.now tree → result ≡ sack_of tree }
    {
        match self.raw.typ {
            sack_chunk::CHUNK_TYPE => Some(SackRef::of_checked(self.raw.value)),
            _ => None,
        }
    }

    /// Returns the FORWARD-TSN or I-FORWARD-TSN, without a copy: what `ForwardTsnRef::from_raw`
    /// returns. `None` if and only if the chunk has another type.
    #[inline(always)]
    pub fn as_forward_tsn(&self) -> Option<ForwardTsnRef<'a>>
        ensures read { result ≡ read_forward self.now.typ self.now.value.now }
        ensures means { (tree : ChunkTree) → RawMeans self.now tree → result ≡ forward_of tree }
    {
        let value = self.raw.value;
        match self.raw.typ {
            forward_tsn_chunk::CHUNK_TYPE => Some(ForwardTsnRef::of_checked_forward(value)),
            iforward_tsn_chunk::CHUNK_TYPE => Some(ForwardTsnRef::of_checked_iforward(value)),
            _ => None,
        }
    }

    /// Returns the parameters of INIT, INIT ACK, HEARTBEAT, HEARTBEAT ACK and RE-CONFIG: what
    /// `RawParameters::from_raw` returns, which goes over all of them once more. `None` if and only
    /// if the chunk has another type.
    #[inline(always)]
    pub fn as_parameters(&self) -> Option<RawParameters<'a>>
        ensures read { GivesList (parameters lenient)
            (parameter_bytes self.now.typ self.now.value.now) result }
        ensures means { (tree : ChunkTree) → RawMeans self.now tree
            → MeansList (parameters lenient) result (parameters_of tree) }
    {
        let rest = parameter_bytes(self.raw.typ, self.raw.value)?;
        Some(RawParameters::new(rest))
    }

    /// Returns the error causes of ABORT and ERROR: what `RawCauses::from_raw` returns, which goes
    /// over all of them once more. `None` if and only if the chunk has another type.
    #[inline(always)]
    pub fn as_causes(&self) -> Option<RawCauses<'a>>
        ensures read { GivesList (causes lenient) (cause_bytes self.now.typ self.now.value.now)
            result }
        ensures means { (tree : ChunkTree) → RawMeans self.now tree
            → MeansList (causes lenient) result (causes_of tree) }
    {
        let rest = cause_bytes(self.raw.typ, self.raw.value)?;
        Some(RawCauses::new(rest))
    }

    /// Returns the cookie of COOKIE ECHO, without a copy: what `cookie_echo::cookie` returns.
    /// `None` if and only if the chunk has another type.
    #[inline(always)]
    pub fn as_cookie(&self) -> Option<&'a [u8]>
        ensures read { option_map (λ bytes. bytes.now) result
            ≡ read_cookie self.now.typ self.now.value.now }
        ensures means { (tree : ChunkTree) → RawMeans self.now tree
            → option_map (λ bytes. bytes.now) result ≡ cookie_of tree }
    {
        match self.raw.typ {
            cookie_echo_chunk::CHUNK_TYPE => Some(self.raw.value),
            _ => None,
        }
    }
}

/// The chunks that are left of a packet that was checked, each known to mean a chunk.
///
/// A contract sees the bytes of these chunks, as of `RawChunks`.
#[derive(Clone, Debug, Drop)]
pub struct CheckedChunks<'a> {
    raws: RawChunks<'a>,
}

impl<'a> Model for CheckedChunks<'a> {
    ghost Value = { List ℕ };

    ghost view = { λ c. c.raws };

    ghost invariant = { λ c. MeansSome (chunks lenient) c.raws × AreBytes c.raws };
}

impl<'a> CheckedChunks<'a> {
    /// Returns the chunks of these bytes, each of which means a chunk.
    #[inline(always)]
    pub(crate) fn new(raws: RawChunks<'a>) -> CheckedChunks<'a>
        requires { MeansSome (chunks lenient) raws × AreBytes raws }
        ensures { result ≡ raws.entry }
    {
        CheckedChunks { raws }
    }
}

impl<'a> Iterator for CheckedChunks<'a> {
    ghost use Rattle.std.specs.Iterator.{at_most};
    ghost use Rattle.dcsctp_borrowed.specs.RawChunks.{GivesNext};

    type Item = CheckedChunk<'a>;

    ghost next_gives = { GivesNext };

    ghost remaining = { λ bytes. at_most (length bytes) };

    /// Returns the next chunk, whose value is a part of the bytes; `None` once all were returned.
    #[inline(always)]
    fn next(&mut self) -> Option<CheckedChunk<'a>> {
        match self.raws.next() {
            Some(raw) => Some(CheckedChunk::new(raw)),
            None => None,
        }
    }
}
