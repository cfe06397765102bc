//! Fields at the front of bytes that may have been cut off.

ghost use Rattle.std.specs.Prelude.{◌≡◌, ◌==◌, nat_le, length};
ghost use Rattle.dcsctp_borrowed.specs.Part.{part_of};
ghost use Rattle.dcsctp_receive.specs.Fields.{begins_with16, begins_with32, has_port};

use dcsctp_borrowed::part::Part;
use dcsctp_wire::packet::{read_u16_be, read_u32_be};

/// Returns whether the first two bytes were captured, and are this number.
pub fn is_u16(part: Part<'_>, number: u16) -> bool
    ensures { result ≡ begins_with16 number (part_of part.entry) }
{
    part.bytes.len() >= 2 && read_u16_be(part.bytes) == number
}

/// Returns whether the first four bytes were captured, and are this number.
pub fn is_u32(part: Part<'_>, number: u32) -> bool
    ensures { result ≡ begins_with32 number (part_of part.entry) }
{
    part.bytes.len() >= 4 && read_u32_be(part.bytes) == number
}

/// Returns whether it is the source port or the destination port.
pub fn has_port(packet: Part<'_>, port: u16) -> bool
    ensures { result ≡ has_port port (part_of packet.entry) }
{
    is_u16(packet, port) || is_u16(packet.after(2), port)
}
