//! The ICMP errors that quote packets of one end.

ghost use Rattle.std.specs.Prelude.{◌≡◌};
ghost use Rattle.dump_associations.specs.IcmpErrors.{no_errors, with_mtu, with_error};

use dump_capture::icmp::IcmpError;
use dump_packet::{PacketNumber, increase};

/// The last ICMP error that quotes a packet of an end.
#[derive(Clone, Copy)]
pub struct LastIcmpError {
    /// Its type, of ICMP or ICMPv6.
    pub kind: u8,
    /// Its code.
    pub code: u8,
    /// The number of the packet that it is.
    pub packet: PacketNumber,
}

/// The least MTU that an ICMP error says which quotes a packet of an end.
#[derive(Clone, Copy)]
pub struct LeastMtu {
    /// The next hop's MTU, in bytes (RFC 1191 section 4, RFC 4443 section 3.2).
    pub mtu: u32,
    /// The number of the first packet that says it.
    pub packet: PacketNumber,
}

/// The errors of ICMP and ICMPv6 that quote packets which one end sent (RFC 9260 section 10).
#[derive(Clone, Copy)]
pub struct IcmpErrors {
    /// How many there were, up to 2^64 - 1.
    pub count: u64,
    /// The last one.
    pub last: Option<LastIcmpError>,
    /// The least MTU, if one of them says one.
    pub least_mtu: Option<LeastMtu>,
}

impl IcmpErrors {
    /// Returns those of an end of which no packet was quoted.
    pub fn new() -> IcmpErrors
        ensures { result ≡ no_errors }
    {
        IcmpErrors {
            count: 0,
            last: None,
            least_mtu: None,
        }
    }

    /// Counts one, in the packet of this number.
    pub fn note(&mut self, packet: PacketNumber, error: &IcmpError<'_>)
        ensures { self.new ≡ with_error self.old packet error.now }
    {
        increase(&mut self.count);
        self.last = Some(LastIcmpError {
            kind: error.kind,
            code: error.code,
            packet,
        });
        self.least_mtu = lesser(self.least_mtu, error.mtu, packet);
    }
}

/// Returns the lesser of two MTUs, and of equal ones the first; 0 says none.
fn lesser(least: Option<LeastMtu>, mtu: u32, packet: PacketNumber) -> Option<LeastMtu>
    ensures { result ≡ with_mtu least mtu packet }
{
    if mtu == 0 {
        return least;
    }
    match least {
        Some(least) if least.mtu <= mtu => Some(least),
        _ => Some(LeastMtu { mtu, packet }),
    }
}
