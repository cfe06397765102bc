//! PPP, alone, in HDLC-like framing, and in a session of PPPoE.

ghost use Rattle.std.specs.Prelude.{◌≡◌};
ghost use Rattle.dump_capture.specs.Ppp.{of_ppp, ppp, framed_ppp, in_session};
ghost use Rattle.dump_capture.specs.Found.{payload_of, payload_result};

use crate::frame::{NoPacket, number16};
use crate::payload::{Payload, Protocol, past};

/// Returns what follows the address and control bytes, if they are there, and the protocol.
#[tactic(auto, unfolding(crate::specs::Ppp::framed_ppp))]
pub(crate) fn framed_ppp(payload: Payload<'_>) -> Result<Payload<'_>, NoPacket>
    ensures { payload_result result ≡ framed_ppp (payload_of payload.entry) }
{
    if payload.bytes.len() < 2 {
        return Err(NoPacket::Cut);
    }
    if number16(payload.bytes) == 0xff03 {
        ppp(past(2, payload.protocol, payload))
    } else {
        ppp(payload)
    }
}

/// Returns what follows the headers of PPPoE in a session and of PPP.
#[tactic(auto, unfolding(crate::specs::Ppp::in_session))]
pub(crate) fn in_session(payload: Payload<'_>) -> Result<Payload<'_>, NoPacket>
    ensures { payload_result result ≡ in_session (payload_of payload.entry) }
{
    if payload.bytes.len() < 6 {
        return Err(NoPacket::Cut);
    }
    ppp(past(6, payload.protocol, payload))
}

/// Returns what follows the protocol, which has one byte or two.
#[tactic(auto, unfolding(crate::specs::Ppp::ppp))]
fn ppp(payload: Payload<'_>) -> Result<Payload<'_>, NoPacket>
    ensures { payload_result result ≡ ppp (payload_of payload.entry) }
{
    let bytes = payload.bytes;
    if bytes.is_empty() {
        return Err(NoPacket::Cut);
    }
    if bytes[0] % 2 == 1 {
        return of_ppp(bytes[0] as u16, 1, payload);
    }
    if bytes.len() < 2 {
        return Err(NoPacket::Cut);
    }
    of_ppp(number16(bytes), 2, payload)
}

/// Returns what follows a protocol of this many bytes.
fn of_ppp(protocol: u16, count: usize, payload: Payload<'_>) -> Result<Payload<'_>, NoPacket>
    ensures { payload_result result ≡ of_ppp protocol count (payload_of payload.entry) }
{
    match protocol {
        0x0021 | 0x0057 => Ok(past(count, Protocol::Ip, payload)),
        _ => Err(NoPacket::Other),
    }
}
