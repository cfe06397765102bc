//! A chunk of any kind.

ghost use Rattle.std.specs.Prelude.{◌≡◌, ◌<◌, ◌+◌, Some, IsOk, IfOk, IsErrOf, vec_len, vec_capacity};
ghost use Rattle.dcsctp_tlv.specs.{Frame.{lenient}, Level.{HasMeaning, Appends}, Reading.{Exactly, reading, RowAnswer, Unplaced}, Table.{IsUnnamed}};
ghost use Rattle.dcsctp_wire.specs.Chunk as chunk;
ghost use Rattle.dcsctp_wire.specs.Chunk.{parts as chunk_parts, ChunkTree, chunk_row, chunks, plain_rows, TakesNoMemory, IsPlaced, text as chunk_text, view, IsInWidth, IsTight};

use crate::packet::abort_chunk::{self, AbortChunk};
use crate::packet::cookie_ack_chunk::CookieAckChunk;
use crate::packet::cookie_echo_chunk::CookieEchoChunk;
use crate::packet::data_chunk::DataChunk;
use crate::packet::error_chunk::{self, ErrorChunk};
use crate::packet::forward_tsn_chunk::ForwardTsnChunk;
use crate::packet::heartbeat_ack_chunk::{self, HeartbeatAckChunk};
use crate::packet::heartbeat_request_chunk::{self, HeartbeatRequestChunk};
use crate::packet::idata_chunk::IDataChunk;
use crate::packet::iforward_tsn_chunk::IForwardTsnChunk;
use crate::packet::init_ack_chunk::{self, InitAckChunk};
use crate::packet::init_chunk::{self, InitChunk};
use crate::packet::re_config_chunk::{self, ReConfigChunk};
use crate::packet::sack_chunk::SackChunk;
use crate::packet::shutdown_ack_chunk::ShutdownAckChunk;
use crate::packet::shutdown_chunk::ShutdownChunk;
use crate::packet::shutdown_complete_chunk::ShutdownCompleteChunk;
use crate::packet::unknown_chunk::UnknownChunk;
pub use dcsctp_chunk::plain_check::plain_check;
use dcsctp_chunk::plain_kinds;
pub use dcsctp_chunk::raw_chunk::{RawChunk, write_chunk_header};
use dcsctp_tlv::each_arms;
use dcsctp_tlv::error::{ChunkParseError, LocatedFault};
use dcsctp_tlv::frame::are_zeros;
use dcsctp_tlv::kind::Kind;
use dcsctp_tlv::reader::ReadableTlv;
use dcsctp_tlv::tlv::SerializableTlv;
use dcsctp_tlv::widths::Widths;
use std::alloc::{AllocError, Global};
use std::fmt;

/// A chunk of any kind (RFC 9260 section 3.2); a type without a kind of its own is `Unknown`.
#[derive(Debug, Drop)]
pub enum Chunk {
    /// DATA (RFC 9260 section 3.3.1), type 0.
    Data(DataChunk),
    /// INIT (RFC 9260 section 3.3.2), type 1.
    Init(InitChunk),
    /// INIT ACK (RFC 9260 section 3.3.3), type 2.
    InitAck(InitAckChunk),
    /// SACK (RFC 9260 section 3.3.4), type 3.
    Sack(SackChunk),
    /// HEARTBEAT (RFC 9260 section 3.3.5), type 4.
    HeartbeatRequest(HeartbeatRequestChunk),
    /// HEARTBEAT ACK (RFC 9260 section 3.3.6), type 5.
    HeartbeatAck(HeartbeatAckChunk),
    /// ABORT (RFC 9260 section 3.3.7), type 6.
    Abort(AbortChunk),
    /// SHUTDOWN (RFC 9260 section 3.3.8), type 7.
    Shutdown(ShutdownChunk),
    /// SHUTDOWN ACK (RFC 9260 section 3.3.9), type 8.
    ShutdownAck(ShutdownAckChunk),
    /// ERROR (RFC 9260 section 3.3.10), type 9.
    Error(ErrorChunk),
    /// COOKIE ECHO (RFC 9260 section 3.3.11), type 10.
    CookieEcho(CookieEchoChunk),
    /// COOKIE ACK (RFC 9260 section 3.3.12), type 11.
    CookieAck(CookieAckChunk),
    /// SHUTDOWN COMPLETE (RFC 9260 section 3.3.13), type 14.
    ShutdownComplete(ShutdownCompleteChunk),
    /// I-DATA (RFC 8260 section 2.1), type 64.
    IData(IDataChunk),
    /// RE-CONFIG (RFC 6525 section 3.1), type 130.
    ReConfig(ReConfigChunk),
    /// FORWARD-TSN (RFC 3758 section 3.2), type 192.
    ForwardTsn(ForwardTsnChunk),
    /// I-FORWARD-TSN (RFC 8260 section 2.3.1), type 194.
    IForwardTsn(IForwardTsnChunk),
    /// A chunk of any other type.
    Unknown(UnknownChunk),
}

/// The kinds, for a macro that has an arm for each: those without a list, and those with one.
macro_rules! kinds {
    ($arms:ident, $($args:tt)*) => {
        plain_kinds! { with_lists, $arms, $($args)* }
    };
}

/// The kinds with a list, after those without.
macro_rules! with_lists {
    ([$arms:ident, $($args:tt)*] $($plain:tt)*) => {
        $arms! {
            [$($args)*]
            $($plain)*
            {
                init_chunk::CHUNK_TYPE, Init, InitChunk;
                init_ack_chunk::CHUNK_TYPE, InitAck, InitAckChunk;
                heartbeat_request_chunk::CHUNK_TYPE, HeartbeatRequest, HeartbeatRequestChunk;
                heartbeat_ack_chunk::CHUNK_TYPE, HeartbeatAck, HeartbeatAckChunk;
                abort_chunk::CHUNK_TYPE, Abort, AbortChunk;
                error_chunk::CHUNK_TYPE, Error, ErrorChunk;
                re_config_chunk::CHUNK_TYPE, ReConfig, ReConfigChunk;
            }
        }
    };
}

/// Returns the type of a chunk of any kind; an `Unknown` chunk has its own.
macro_rules! type_arms {
    ([$chunk:expr] $({ $($typ:path, $variant:ident, $kind:path;)* })*) => {
        match $chunk {
            $($(Chunk::$variant(_) => $typ,)*)*
            Chunk::Unknown(unknown) => unknown.typ,
        }
    };
}

/// Checks a value as its kind does, for each kind with a list; the other types have the arms that
/// follow.
macro_rules! listed_check_arms {
    (
        [$typ:expr, $flags:expr, $value:expr, $strict:expr, $($other:tt)*]
        { $($fixed:tt)* } { $($copied:tt)* }
        { $($listed_type:path, $variant:ident, $listed:path;)* }
    ) => {
        match $typ {
            $($listed_type => <$listed>::check($flags, $value, $strict),)*
            $($other)*
        }
    };
}

/// Builds what the value of each kind means, and does something with it; the other types have the
/// arms that follow.
macro_rules! chunk_build_arms {
    (
        [$typ:expr, $alloc:expr, $flags:expr, $value:expr, $chunk:ident => $does:expr,
            { $($other:tt)* }]
        { $($fixed_type:path, $fixed_variant:ident, $fixed:path;)* }
        $({ $($copied_type:path, $copied_variant:ident, $copied:path;)* })*
    ) => {
        match $typ {
            $($fixed_type => {
                let $chunk = Chunk::$fixed_variant(<$fixed>::build($flags, $value));
                $does
            })*
            $($($copied_type => {
                let $chunk = Chunk::$copied_variant(<$copied>::build($alloc, $flags, $value)?);
                $does
            })*)*
            $($other)*
        }
    };
}

/// Pushes a chunk of a kind with a list, and fills the list where it lies, so that neither it nor
/// the chunk is moved; the other types have the arms that follow.
macro_rules! fill_arms {
    (
        [$list:expr, $typ:expr, $alloc:expr, $flags:expr, $value:expr, $($other:tt)*]
        { $($fixed:tt)* } { $($copied:tt)* }
        { $($listed_type:path, $variant:ident, $listed:path;)* }
    ) => {
        match $typ {
            $($listed_type => {
                let last = $list.len();
                $list.push_reserved(Chunk::$variant(<$listed>::begin($alloc, $flags, $value)));
                if let Chunk::$variant(chunk) = &mut $list[last] {
                    chunk.fill($alloc, $flags, $value)?;
                }
                Ok(())
            })*
            $($other)*
        }
    };
}

impl Chunk {
    /// Reads a chunk as its type says.
    ///
    /// `InvalidLength` where the value has a size that its kind doesn't allow; else the first
    /// fault of the list that it holds, if it holds one. `OutOfMemory` only where the value has a
    /// meaning, and what it holds can't be copied; never where it holds nothing on the heap.
    /// `InvalidType` is never returned. Its bytes mean one chunk or have one fault
    /// (`laws::one_answer`), so this is the chunk if and only if they mean one.
    pub fn try_from(alloc: Global, raw: RawChunk) -> Result<Self, ChunkParseError>
        ensures answer { Exactly reading view
            (Unplaced (RowAnswer (chunk_row lenient raw.entry.typ raw.entry.flags)
            raw.entry.value.now)) result }
        ensures memory { IsErrOf result ChunkParseError.OutOfMemory →
            HasMeaning (chunk_row lenient raw.entry.typ raw.entry.flags) raw.entry.value.now
            × ¬ TakesNoMemory raw.entry.typ raw.entry.value.now }
        ensures tight { IfOk result IsTight }
    {
        Chunk::read(alloc, raw.typ, raw.flags, raw.value)
    }

    /// Returns the type field of the chunk: the number of its kind, and of an `Unknown` chunk its
    /// own.
    pub fn chunk_type(&self) -> u8
        ensures { result ≡ (chunk.tlv (view self.now)).first }
    {
        kinds!(type_arms, self)
    }

    /// Checks a chunk's value, and builds what it means.
    fn read(alloc: Global, typ: u8, flags: u8, value: &[u8]) -> Result<Self, ChunkParseError>
        ensures answer { Exactly reading view
            (Unplaced (RowAnswer (chunk_row lenient typ flags) value.now)) result }
        ensures memory { IsErrOf result ChunkParseError.OutOfMemory
            → HasMeaning (chunk_row lenient typ flags) value.now
            × ¬ TakesNoMemory typ value.now }
        ensures tight { IfOk result IsTight }
    {
        Chunk::check(typ, flags, value, false)?;
        Ok(Chunk::build(alloc, typ, flags, value)?)
    }

    /// Builds the chunk that the value means.
    fn build(alloc: Global, typ: u8, flags: u8, value: &[u8]) -> Result<Self, AllocError>
        requires { HasMeaning (chunk_row lenient typ flags) value.now }
        ensures meant { IfOk result (λ c. (chunk_row lenient typ flags).means value.now (view c)) }
        ensures heap { TakesNoMemory typ value.now → IsOk result }
        ensures tight { IfOk result IsTight }
    {
        kinds!(chunk_build_arms, typ, alloc, flags, value, chunk => Ok(chunk), {
            _ => Ok(Chunk::Unknown(UnknownChunk::build(alloc, typ, flags, value)?)),
        })
    }

    /// Appends a chunk with a list, or an unknown one.
    fn push_listed_or_unknown(
        list: &mut Vec<Self>,
        alloc: Global,
        first: u8,
        second: u8,
        value: &[u8],
    ) -> Result<(), AllocError>
        requires other { IsUnnamed (plain_rows second) first }
        requires meant { HasMeaning (chunk_row lenient first second) value.now }
        requires room { vec_len list.old < vec_capacity list.old }
        ensures grows { IfOk result (λ _. Appends view IsTight
            (chunk_row lenient first second) value.now list.old.items list.new.items) }
        ensures len { IfOk result (λ _. vec_len list.new ≡ vec_len list.old + 1) }
        ensures capacity { IfOk result (λ _. vec_capacity list.new ≡ vec_capacity list.old) }
    {
        kinds!(fill_arms, list, first, alloc, second, value,
            _ => {
                list.push_reserved(Chunk::Unknown(UnknownChunk::build(
                    alloc, first, second, value,
                )?));
                Ok(())
            }
        )
    }
}

/// Proves that every number of a chunk lies in its field's width, and every text is UTF-8, by their
/// types. Calling it costs nothing.
pub fn chunk_has_widths(chunk: &Chunk)
    ensures { IsInWidth (view chunk.now) }
{
    chunk.has_widths();
}

impl Widths for Chunk {
    ghost Tree = { ChunkTree };

    ghost view = { view };

    ghost fits = { IsInWidth };

    fn is_in_width(&self) {
        self.has_widths();
    }
}

impl ReadableTlv for Chunk {
    ghost Tree = { ChunkTree };

    ghost level = { chunks };

    ghost view = { view };

    ghost is_tight = { IsTight };

    ghost parts = { chunk_parts };

    fn check(first: u8, second: u8, value: &[u8], strict: bool) -> Result<usize, LocatedFault> {
        kinds!(listed_check_arms, first, second, value, strict,
            _ => match plain_check(RawChunk {
                typ: first,
                flags: second,
                value,
            }) {
                Ok(()) => Ok(1),
                Err(fault) => Err(LocatedFault::at_front(fault)),
            },
        )
    }

    fn read_onto(
        list: &mut Vec<Self>,
        alloc: Global,
        first: u8,
        second: u8,
        value: &[u8],
    ) -> Result<(), AllocError> {
        plain_kinds!(chunk_build_arms, first, alloc, second, value, chunk => {
            list.push_reserved(chunk);
            Ok(())
        }, {
            _ => Chunk::push_listed_or_unknown(list, alloc, first, second, value),
        })
    }

    fn accepts_padding(size: usize, there: &[u8], strict: bool) -> bool {
        !strict || (there.len() == size && are_zeros(there))
    }
}

impl SerializableTlv for Chunk {
    ghost format = { λ c. chunk.format (view c) };

    /// Its skipped streams have a place.
    ghost placed = { λ c. IsPlaced (view c) };

    // Not inlined into the loop over a list, which would compute the places of every kind ahead.
    #[inline(never)]
    fn serialize_to(&self, output: &mut [u8]) {
        kinds!(each_arms, Chunk, self, c => c.serialize_to(output))
    }

    // Inlined into the loops over a list, which else take 3 to 9 in 100 instructions more.
    #[inline(always)]
    fn encoded_size(&self) -> Option<usize> {
        kinds!(each_arms, Chunk, self, c => c.encoded_size())
    }

    fn has_widths(&self) {
        kinds!(each_arms, Chunk, self, c => c.has_widths())
    }
}

impl fmt::Display for Chunk {
    ghost output = { λ c. Some (chunk_text (view c)) };

    fn fmt<W: fmt::Write>(&self, f: &mut fmt::Formatter<W>) -> fmt::Result {
        kinds!(each_arms, Chunk, self, c => c.fmt(f))
    }
}
