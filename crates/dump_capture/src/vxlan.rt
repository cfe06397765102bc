//! VXLAN: a frame of Ethernet, in UDP.

ghost use Rattle.std.specs.Prelude.{◌≡◌};
ghost use Rattle.dump_capture.specs.Vxlan.{vxlan};
ghost use Rattle.dump_capture.specs.Found.{payload_of, payload_result};

use crate::frame::{NoPacket, link_type};
use crate::payload::{Payload, Protocol, past};

/// Returns what follows a header of VXLAN.
#[tactic(auto, unfolding(crate::specs::Vxlan::vxlan))]
pub(crate) fn vxlan(payload: Payload<'_>) -> Result<Payload<'_>, NoPacket>
    ensures { payload_result result ≡ vxlan (payload_of payload.entry) }
{
    if payload.size < 8 {
        return Err(NoPacket::Malformed);
    }
    if payload.bytes.len() < 8 {
        return Err(NoPacket::Cut);
    }
    if payload.bytes[0] / 8 % 2 != 1 {
        return Err(NoPacket::Other);
    }
    Ok(past(8, Protocol::Link(link_type::ETHERNET), payload))
}
