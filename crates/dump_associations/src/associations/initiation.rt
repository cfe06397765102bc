//! What an INIT or an INIT ACK announces (RFC 9260 sections 3.3.2 and 3.3.3).

use dcsctp_borrowed::part::Part;
use dcsctp_wire::packet::init_chunk::InitNumbers;
use dcsctp_wire::packet::read_u32_be;
use dcsctp_wire::packet::zero_checksum_acceptable_parameter::PARAMETER_TYPE as ZERO_CHECKSUM_ACCEPTABLE;

/// Returns the initiate tag of a value; `None` where it wasn't captured, or is 0.
pub fn initiate_tag(value: Part<'_>) -> Option<u32> {
    if value.bytes.len() < 4 {
        return None;
    }
    let tag = read_u32_be(value.bytes);
    if tag == 0 { None } else { Some(tag) }
}

/// Returns whether a value announces Zero Checksum Acceptable; `None` where that isn't known.
pub fn accepts_zero(value: Part<'_>) -> Option<bool> {
    for parameter in value.after(InitNumbers::SIZE).items() {
        if parameter.code() == ZERO_CHECKSUM_ACCEPTABLE {
            return Some(true);
        }
    }
    if value.is_whole() { Some(false) } else { None }
}
