//! Serial numbers: TSNs, of which each has 2^31 - 1 after it (RFC 9260 section 2.6).

ghost use Rattle.std.specs.Prelude.{◌↔◌, IsTrue};
ghost use Rattle.dump_packet.specs.Serial.{IsAfter};

/// Returns whether a TSN comes after another.
pub fn is_after(tsn: u32, other: u32) -> bool
    ensures { IsTrue result ↔ IsAfter other tsn }
{
    let offset = tsn.wrapping_sub(other);
    offset != 0 && offset < 0x8000_0000
}
