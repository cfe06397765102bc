//! GTP-U: a packet of a user, in UDP.

ghost use Rattle.std.specs.Prelude.{◌≡◌, ◌≤◌, length};
ghost use Rattle.dump_capture.specs.Gtp.{gtp, gtp_size, in_gtp, gtp_extension, next_in_gtp, first_in_gtp};
ghost use Rattle.dump_capture.specs.Found.{payload_of, payload_result};

use crate::frame::{NoPacket, number16};
use crate::payload::{Payload, Protocol, cut_to, past};

/// Returns what follows the header of a G-PDU.
#[tactic(auto, unfolding(crate::specs::Gtp::gtp))]
pub(crate) fn gtp(payload: Payload<'_>) -> Result<Payload<'_>, NoPacket>
    ensures { payload_result result ≡ gtp (payload_of payload.entry) }
{
    let bytes = payload.bytes;
    if payload.size < 8 {
        return Err(NoPacket::Malformed);
    }
    if bytes.len() < 8 {
        return Err(NoPacket::Cut);
    }
    if bytes[0] / 16 != 3 || bytes[1] != 255 {
        return Err(NoPacket::Other);
    }
    let size = gtp_size(bytes);
    if payload.size < size {
        return Err(NoPacket::Malformed);
    }
    in_gtp(cut_to(size, payload))
}

/// Returns the size that the header says, with that of its first 8 bytes.
fn gtp_size(bytes: &[u8]) -> usize
    requires { 8 ≤ length bytes.now }
    ensures { result ≡ gtp_size bytes.now }
{
    8 + number16(&bytes[2..]) as usize
}

/// Returns what follows the first 8 bytes, and the optional fields.
#[tactic(auto, unfolding(crate::specs::Gtp::in_gtp))]
fn in_gtp(payload: Payload<'_>) -> Result<Payload<'_>, NoPacket>
    requires { 8 ≤ length payload.bytes.now }
    ensures { payload_result result ≡ in_gtp (payload_of payload.entry) }
{
    let bytes = payload.bytes;
    if bytes[0] % 8 == 0 {
        return Ok(past(8, Protocol::Ip, payload));
    }
    if payload.size < 12 {
        return Err(NoPacket::Malformed);
    }
    if bytes.len() < 12 {
        return Err(NoPacket::Cut);
    }
    Ok(past(12, first_in_gtp(bytes), payload))
}

/// Returns what follows the optional fields.
fn first_in_gtp(bytes: &[u8]) -> Protocol
    requires { 12 ≤ length bytes.now }
    ensures { result ≡ first_in_gtp bytes.now }
{
    if bytes[0] / 4 % 2 == 1 {
        next_in_gtp(bytes[11])
    } else {
        Protocol::Ip
    }
}

/// Returns what this type of the next extension header says.
fn next_in_gtp(kind: u8) -> Protocol
    ensures { result ≡ next_in_gtp kind }
{
    match kind {
        0 => Protocol::Ip,
        _ => Protocol::GtpExtension,
    }
}

/// Returns what follows an extension header.
#[tactic(auto, unfolding(crate::specs::Gtp::gtp_extension))]
pub(crate) fn gtp_extension(payload: Payload<'_>) -> Result<Payload<'_>, NoPacket>
    ensures { payload_result result ≡ gtp_extension (payload_of payload.entry) }
{
    let bytes = payload.bytes;
    if payload.size == 0 {
        return Err(NoPacket::Malformed);
    }
    if bytes.is_empty() {
        return Err(NoPacket::Cut);
    }
    if bytes[0] == 0 {
        return Err(NoPacket::Malformed);
    }
    let size = 4 * bytes[0] as usize;
    if payload.size < size {
        return Err(NoPacket::Malformed);
    }
    if bytes.len() < size {
        return Err(NoPacket::Cut);
    }
    Ok(past(size, next_in_gtp(bytes[size - 1]), payload))
}
