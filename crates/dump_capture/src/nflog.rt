//! NFLOG: what Linux's packet filter logged of a packet.

ghost use Rattle.std.specs.Prelude.{◌≡◌, ◌≤◌, length};
ghost use Rattle.dump_capture.specs.Nflog.{nflog, attribute, attribute_order};
ghost use Rattle.dump_capture.specs.Found.{payload_of, payload_result};

use crate::frame::NoPacket;
use crate::payload::{Payload, Protocol, cut_to, past};
use crate::pcap::{ByteOrder, read_u16};

/// The type of the attribute that is the packet.
const PACKET: u16 = 9;

/// Returns what follows the first header.
#[tactic(auto, unfolding(crate::specs::Nflog::nflog))]
pub(crate) fn nflog(frame: Payload<'_>) -> Result<Payload<'_>, NoPacket>
    ensures { payload_result result ≡ nflog (payload_of frame.entry) }
{
    if frame.bytes.len() < 4 {
        return Err(NoPacket::Cut);
    }
    if frame.bytes[1] != 0 {
        return Err(NoPacket::Other);
    }
    match frame.bytes[0] {
        2 | 10 => Ok(past(4, Protocol::NflogAttribute, frame)),
        _ => Err(NoPacket::Other),
    }
}

/// Returns the packet, if an attribute is that, or what follows the attribute.
#[tactic(auto, unfolding(crate::specs::Nflog::attribute))]
pub(crate) fn attribute(payload: Payload<'_>) -> Result<Payload<'_>, NoPacket>
    ensures { payload_result result ≡ attribute (payload_of payload.entry) }
{
    let bytes = payload.bytes;
    if payload.size < 4 {
        return Err(NoPacket::Other);
    }
    if bytes.len() < 4 {
        return Err(NoPacket::Cut);
    }
    let order = attribute_order(bytes);
    let length = read_u16(order, bytes) as usize;
    if length < 4 {
        return Err(NoPacket::Malformed);
    }
    if payload.size < length {
        return Err(NoPacket::Malformed);
    }
    if read_u16(order, &bytes[2..]) == PACKET {
        return Ok(past(4, Protocol::Ip, cut_to(length, payload)));
    }
    let padded = 4 * ((length + 3) / 4);
    Ok(past(padded, Protocol::NflogAttribute, payload))
}

/// Returns the byte order of an attribute's header: in a type's high byte only two flags are set.
fn attribute_order(bytes: &[u8]) -> ByteOrder
    requires { 4 ≤ length bytes.now }
    ensures { result ≡ attribute_order bytes.now }
{
    if bytes[2] % 64 == 0 {
        ByteOrder::BigEndian
    } else {
        ByteOrder::LittleEndian
    }
}
