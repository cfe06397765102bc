//! A normalizer: what goes on is the canonical packet.

ghost use Rattle.std.specs.{Prelude.{◌≡◌, ◌≤◌, ◌↔◌, true, Ok, Err, length, IfOk, IsErrOf, IfSome, IfNone}, List.{list_any}};
ghost use Rattle.dcsctp_wire.specs.Caller.{PacketTree, PacketFault, Answer, canonical, chunk_view, chunk_views, packet_error_of, round_up_to_4};
ghost use Rattle.test_callers.specs.Normal.{has_causes};

use dcsctp_wire::packet::chunk::Chunk;
use dcsctp_wire::packet::sctp_packet::{ChecksumPolicy, PacketParseError, SctpPacket};
use std::alloc::Global;

/// Returns the canonical packet, which is as long as the packet, up to a multiple of 4: so nothing
/// asks whether it fits. Returns `None` for a packet with an ABORT or an ERROR, in which a longer
/// text may replace one that isn't UTF-8; the fault if and only if the bytes have one.
pub fn normalized(
    alloc: Global,
    bytes: &[u8],
    word: u32,
    policy: &ChecksumPolicy,
) -> Result<Option<Vec<u8>>, PacketParseError>
    requires { length bytes.now ≤ 65532 }
    ensures bytes { IfOk result (λ made. IfSome made (λ made. (p : PacketTree)
        → Answer bytes.now word policy.now (Ok p) → made.items ≡ canonical p.meaning)) }
    ensures size { IfOk result (λ made. IfSome made (λ made.
        length made.items ≡ round_up_to_4 (length bytes.now))) }
    ensures nothing { IfOk result (λ made. IfNone made ((p : PacketTree)
        → Answer bytes.now word policy.now (Ok p)
        → list_any has_causes p.meaning.chunks ≡ true)) }
    ensures faulty { (e : PacketFault) → IsErrOf result (packet_error_of e)
        ↔ Answer bytes.now word policy.now (Err e) }
{
    let packet = SctpPacket::from_bytes(alloc, bytes, word, policy)?;
    if have_causes(&packet.chunks) {
        return Ok(None);
    }
    Ok(Some(packet.canonical_bytes(alloc)?))
}

/// Returns whether one of the chunks holds error causes.
fn have_causes(chunks: &[Chunk]) -> bool
    ensures { result ≡ list_any has_causes (chunk_views chunks.now) }
{
    chunks.iter().any(|chunk| has_causes(chunk))
}

/// Returns whether the chunk holds error causes.
fn has_causes(chunk: &Chunk) -> bool
    ensures { result ≡ has_causes (chunk_view chunk.now) }
{
    matches!(chunk, Chunk::Abort(_) | Chunk::Error(_))
}
