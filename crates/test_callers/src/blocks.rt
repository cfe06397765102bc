//! The blocks of a SACK, as few as there can be.

ghost use Rattle.std.specs.Prelude.{◌≡◌, vec_capacity};
ghost use Rattle.dcsctp_wire.specs.Caller.{Covers, IsRuns};

use dcsctp_wire::packet::chunk_validators::clean_sack;
use dcsctp_wire::packet::sack_chunk::{GapAckBlock, SackChunk};

/// Returns the offsets that a SACK acknowledges beyond its cumulative TSN, in as few blocks as
/// there can be. Does not allocate.
pub fn acknowledged(sack: SackChunk) -> Vec<GapAckBlock>
    ensures runs { IsRuns result.items (Covers sack.gap_ack_blocks.items) }
    ensures memory { vec_capacity result ≡ vec_capacity sack.gap_ack_blocks }
{
    clean_sack(sack).gap_ack_blocks
}
