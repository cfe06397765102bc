//! The key of a replay cache.

ghost use Rattle.std.specs.Prelude.{◌↔◌, Ok, Err, IfOk, IsErrOf, IfSome, IfNone};
ghost use Rattle.dcsctp_wire.specs.Caller.{PacketTree, PacketFault, Answer, IsCanonicalOf, Fits, packet_error_of};

use dcsctp_wire::packet::sctp_packet::{ChecksumPolicy, PacketParseError, SctpPacket};
use std::alloc::Global;

/// Returns the canonical packet, which two packets share if and only if they mean the same: the key
/// of a replay cache. Returns `None` if it has more bytes than a packet may have; the fault if and
/// only if the bytes have one.
pub fn fingerprint(
    alloc: Global,
    bytes: &[u8],
    word: u32,
    policy: &ChecksumPolicy,
) -> Result<Option<Vec<u8>>, PacketParseError>
    ensures one { IfOk result (λ key. IfSome key (λ key. (p : PacketTree)
        → Answer bytes.now word policy.now (Ok p) → IsCanonicalOf p.meaning key.items)) }
    ensures nothing { IfOk result (λ key. IfNone key ((p : PacketTree)
        → Answer bytes.now word policy.now (Ok p) → ¬ Fits p.meaning)) }
    ensures faulty { (e : PacketFault) → IsErrOf result (packet_error_of e)
        ↔ Answer bytes.now word policy.now (Err e) }
{
    let packet = SctpPacket::from_bytes(alloc, bytes, word, policy)?;
    if !packet.fits() {
        return Ok(None);
    }
    Ok(Some(packet.canonical_bytes(alloc)?))
}
