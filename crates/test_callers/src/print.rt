//! From bytes to printed chunks.

ghost use Rattle.std.specs.Prelude.{◌≡◌, ◌↔◌, Ok, Err, IfOk, IsErrOf, string_bytes};
ghost use Rattle.dcsctp_wire.specs.Caller.{PacketTree, PacketFault, packet_error_of, packet_text};
ghost use Rattle.test_callers.specs.Sealed.{Verified};

use dcsctp_crc32c::packet_word;
use dcsctp_wire::packet::sctp_packet::{ChecksumPolicy, PacketParseError, SctpPacket};
use std::alloc::Global;

/// Verifies a packet's checksum, and returns its text: a line for its header, and a line for each
/// chunk. Returns a fault if and only if the bytes have one.
pub fn packet_to_text(alloc: Global, bytes: &[u8]) -> Result<String, PacketParseError>
    ensures text { IfOk result (λ text. (p : PacketTree) → Verified bytes.now (Ok p)
        → string_bytes text ≡ packet_text p) }
    ensures faulty { (e : PacketFault) → IsErrOf result (packet_error_of e)
        ↔ Verified bytes.now (Err e) }
{
    let policy = ChecksumPolicy::default();
    let packet = SctpPacket::from_bytes(alloc, bytes, packet_word(bytes), &policy)?;
    Ok(format!(in alloc; "{packet}")?)
}
