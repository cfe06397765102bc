//! ERSPAN: a frame of Ethernet that was copied.

ghost use Rattle.std.specs.Prelude.{◌≡◌, ◌≤◌, length};
ghost use Rattle.dump_capture.specs.Erspan.{erspan, type_3, type_3_size, of_frame_type};
ghost use Rattle.dump_capture.specs.Found.{payload_of, payload_result};

use crate::frame::{NoPacket, link_type};
use crate::payload::{Payload, Protocol, past};

/// Returns what follows a header of type II or III.
#[tactic(auto, unfolding(crate::specs::Erspan::erspan))]
pub(crate) fn erspan(payload: Payload<'_>) -> Result<Payload<'_>, NoPacket>
    ensures { payload_result result ≡ erspan (payload_of payload.entry) }
{
    if payload.size < 8 {
        return Err(NoPacket::Malformed);
    }
    if payload.bytes.len() < 8 {
        return Err(NoPacket::Cut);
    }
    match payload.bytes[0] / 16 {
        1 => Ok(past(8, Protocol::Link(link_type::ETHERNET), payload)),
        2 => type_3(payload),
        _ => Err(NoPacket::Other),
    }
}

/// Returns what follows a header of type III.
#[tactic(auto, unfolding(crate::specs::Erspan::type_3))]
fn type_3(payload: Payload<'_>) -> Result<Payload<'_>, NoPacket>
    ensures { payload_result result ≡ type_3 (payload_of payload.entry) }
{
    let bytes = payload.bytes;
    if payload.size < 12 {
        return Err(NoPacket::Malformed);
    }
    if bytes.len() < 12 {
        return Err(NoPacket::Cut);
    }
    let size = type_3_size(bytes);
    if payload.size < size {
        return Err(NoPacket::Malformed);
    }
    if bytes.len() < size {
        return Err(NoPacket::Cut);
    }
    of_frame_type(bytes[10] / 4 % 32, size, payload)
}

/// Returns the size of a header of type III, with its subheader.
fn type_3_size(bytes: &[u8]) -> usize
    requires { 12 ≤ length bytes.now }
    ensures { result ≡ type_3_size bytes.now }
{
    12 + 8 * (bytes[11] % 2) as usize
}

/// Returns what follows a header of this size, by the type of the frame.
fn of_frame_type(kind: u8, size: usize, payload: Payload<'_>) -> Result<Payload<'_>, NoPacket>
    ensures { payload_result result ≡ of_frame_type kind size (payload_of payload.entry) }
{
    match kind {
        0 => Ok(past(size, Protocol::Link(link_type::ETHERNET), payload)),
        2 => Ok(past(size, Protocol::Ip, payload)),
        _ => Err(NoPacket::Other),
    }
}
