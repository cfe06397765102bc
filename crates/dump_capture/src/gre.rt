//! GRE: a payload of a type of Ethernet, in IP.

ghost use Rattle.std.specs.Prelude.{◌≡◌, ◌≤◌, length};
ghost use Rattle.dump_capture.specs.Gre.{gre, gre_size, is_gre, in_gre};
ghost use Rattle.dump_capture.specs.Found.{payload_of, payload_result};

use crate::erspan::erspan;
use crate::frame::{NoPacket, link_type, number16};
use crate::payload::{Payload, Protocol, past};

/// Returns what follows a header of GRE, and one of ERSPAN.
#[tactic(auto, unfolding(crate::specs::Gre::gre))]
pub(crate) fn gre(payload: Payload<'_>) -> Result<Payload<'_>, NoPacket>
    ensures { payload_result result ≡ gre (payload_of payload.entry) }
{
    let bytes = payload.bytes;
    if payload.size < 4 {
        return Err(NoPacket::Malformed);
    }
    if bytes.len() < 4 {
        return Err(NoPacket::Cut);
    }
    if !is_gre(bytes) {
        return Err(NoPacket::Other);
    }
    let size = gre_size(bytes);
    if payload.size < size {
        return Err(NoPacket::Malformed);
    }
    if bytes.len() < size {
        return Err(NoPacket::Cut);
    }
    in_gre(number16(&bytes[2..]), payload)
}

/// Returns whether the header is one of version 0, without a bit for which a receiver discards it.
fn is_gre(bytes: &[u8]) -> bool
    requires { 4 ≤ length bytes.now }
    ensures { result ≡ is_gre bytes.now }
{
    bytes[0] / 64 % 2 == 0 && bytes[0] / 4 % 4 == 0 && bytes[1] % 8 == 0
}

/// Returns the size of the header, with its optional fields.
pub(crate) fn gre_size(bytes: &[u8]) -> usize
    requires { 4 ≤ length bytes.now }
    ensures { result ≡ gre_size bytes.now }
{
    let checksum = bytes[0] / 128 % 2;
    let key = bytes[0] / 32 % 2;
    let sequence_number = bytes[0] / 16 % 2;
    4 + 4 * (checksum + key + sequence_number) as usize
}

/// Returns what this type says that the header is followed by.
fn in_gre(ether_type: u16, payload: Payload<'_>) -> Result<Payload<'_>, NoPacket>
    requires { 4 ≤ length payload.bytes.now }
    ensures { payload_result result ≡ in_gre ether_type (payload_of payload.entry) }
{
    let size = gre_size(payload.bytes);
    let is_numbered = payload.bytes[0] / 16 % 2 == 1;
    if ether_type == 0x22eb || ether_type == 0x88be && is_numbered {
        return erspan(past(size, payload.protocol, payload));
    }
    let protocol = match ether_type {
        0x88be => Protocol::Link(link_type::ETHERNET),
        _ => Protocol::EtherType(ether_type),
    };
    Ok(past(size, protocol, payload))
}
