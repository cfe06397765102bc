//! A filter that passes packets alone.

ghost use Rattle.std.specs.Prelude.{◌↔◌, IsTrue};
ghost use Rattle.dcsctp_wire.specs.Caller.{IsPacket};

use dcsctp_wire::packet::sctp_packet::{ChecksumPolicy, SctpPacket};

/// Returns whether the bytes are a packet. Does not allocate, so a flood of bad packets costs no
/// memory.
pub fn is_packet(bytes: &[u8], word: u32, policy: &ChecksumPolicy) -> bool
    ensures { IsTrue result ↔ IsPacket bytes.now word policy.now }
{
    SctpPacket::check(bytes, word, policy).is_ok()
}
