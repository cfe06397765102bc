//! The kinds of chunk without a list, and the check of their values before they are built.

ghost use Rattle.std.specs.Prelude.{IsErrOf};
ghost use Rattle.dcsctp_tlv.specs.Kinds.{ChecksKind};
ghost use Rattle.dcsctp_chunk.specs.PlainKinds.{plain_kinds};

use crate::raw_chunk::RawChunk;
use dcsctp_tlv::check_arms;
use dcsctp_tlv::error::ChunkParseError;

/// The kinds without a list, for a macro that has an arm for each: those that take no memory, and
/// those that copy what their value holds.
#[macro_export]
macro_rules! plain_kinds {
    ($arms:ident, $($args:tt)*) => {
        $arms! {
            [$($args)*]
            {
                $crate::shutdown_chunk::CHUNK_TYPE, Shutdown, $crate::shutdown_chunk::ShutdownChunk;
                $crate::shutdown_ack_chunk::CHUNK_TYPE, ShutdownAck,
                    $crate::shutdown_ack_chunk::ShutdownAckChunk;
                $crate::cookie_ack_chunk::CHUNK_TYPE, CookieAck,
                    $crate::cookie_ack_chunk::CookieAckChunk;
                $crate::shutdown_complete_chunk::CHUNK_TYPE, ShutdownComplete,
                    $crate::shutdown_complete_chunk::ShutdownCompleteChunk;
            }
            {
                $crate::data_chunk::CHUNK_TYPE, Data, $crate::data_chunk::DataChunk;
                $crate::sack_chunk::CHUNK_TYPE, Sack, $crate::sack_chunk::SackChunk;
                $crate::cookie_echo_chunk::CHUNK_TYPE, CookieEcho,
                    $crate::cookie_echo_chunk::CookieEchoChunk;
                $crate::idata_chunk::CHUNK_TYPE, IData, $crate::idata_chunk::IDataChunk;
                $crate::forward_tsn_chunk::CHUNK_TYPE, ForwardTsn,
                    $crate::forward_tsn_chunk::ForwardTsnChunk;
                $crate::iforward_tsn_chunk::CHUNK_TYPE, IForwardTsn,
                    $crate::iforward_tsn_chunk::IForwardTsnChunk;
            }
        }
    };
}

/// Checks whether the chunk's kind reads the value. Does not allocate.
///
/// `InvalidLength` if and only if the value has a size that its kind doesn't allow. Returns `Ok`
/// for types without a kind, and for kinds with a list of parameters or error causes.
pub fn plain_check(raw: RawChunk) -> Result<(), ChunkParseError>
    ensures answer { ChecksKind plain_kinds raw.entry.flags raw.entry.typ raw.entry.value.now
        result }
    ensures memory { ¬ IsErrOf result ChunkParseError.OutOfMemory }
{
    plain_kinds!(check_arms, raw.typ, raw.value)
}
