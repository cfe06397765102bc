//! The info of HEARTBEAT and HEARTBEAT ACK, in a packet's bytes.

ghost use Rattle.std.specs.Prelude.{◌≡◌, option_map};
ghost use Rattle.dcsctp_tlv.specs.Parameter.{ParameterTree, row};
ghost use Rattle.dcsctp_borrowed.specs.HeartbeatInfo.{info_of, read_info};

use dcsctp_tlv::parameter::{RawParameter, heartbeat_info_parameter};

/// Returns the info of a Heartbeat Info parameter (RFC 9260 sections 3.3.5 and 3.3.6), without a
/// copy; `None` if and only if the parameter has another type. It may be empty.
///
/// `RawParameters` gives the parameters of HEARTBEAT and HEARTBEAT ACK. Of a parameter of a packet
/// this is the info that `SctpPacket::from_bytes` gives, and `None` if and only if the parameter
/// has another type.
#[inline(always)]
pub fn heartbeat_info<'a>(raw: &RawParameter<'a>) -> Option<&'a [u8]>
    ensures read { option_map (λ bytes. bytes.now) result
        ≡ read_info raw.now.typ raw.now.value.now }
    ensures means { (tree : ParameterTree) → (row raw.now.typ).means raw.now.value.now tree
        → option_map (λ bytes. bytes.now) result ≡ info_of tree }
{
    info_in(raw.typ, raw.value)
}

/// Returns what a value of this type means as an info. Proves only the kind's reading.
#[inline(always)]
fn info_in(typ: u16, value: &[u8]) -> Option<&[u8]>
    ensures { option_map (λ bytes. bytes.now) result ≡ read_info typ value.now }
{
    if typ != heartbeat_info_parameter::PARAMETER_TYPE {
        return None;
    }
    Some(value)
}
