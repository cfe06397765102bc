//! Geneve: a payload of a type of Ethernet, in UDP.

ghost use Rattle.std.specs.Prelude.{◌≡◌, ◌≤◌, length};
ghost use Rattle.dump_capture.specs.Geneve.{geneve, geneve_size};
ghost use Rattle.dump_capture.specs.Found.{payload_of, payload_result};

use crate::frame::{NoPacket, number16};
use crate::payload::{Payload, Protocol, past};

/// Returns what follows a header of Geneve.
#[tactic(auto, unfolding(crate::specs::Geneve::geneve))]
pub(crate) fn geneve(payload: Payload<'_>) -> Result<Payload<'_>, NoPacket>
    ensures { payload_result result ≡ geneve (payload_of payload.entry) }
{
    let bytes = payload.bytes;
    if payload.size < 8 {
        return Err(NoPacket::Malformed);
    }
    if bytes.len() < 8 {
        return Err(NoPacket::Cut);
    }
    if bytes[0] / 64 != 0 {
        return Err(NoPacket::Other);
    }
    let size = geneve_size(bytes);
    if payload.size < size {
        return Err(NoPacket::Malformed);
    }
    if bytes.len() < size {
        return Err(NoPacket::Cut);
    }
    let protocol = Protocol::EtherType(number16(&bytes[2..]));
    Ok(past(size, protocol, payload))
}

/// Returns the size of the header, with its options.
fn geneve_size(bytes: &[u8]) -> usize
    requires { 8 ≤ length bytes.now }
    ensures { result ≡ geneve_size bytes.now }
{
    8 + 4 * (bytes[0] % 64) as usize
}
