//! Addresses by their octets.

ghost use Rattle.dcsctp_registry.specs.Address.{IsAddress};

use std::net::{IpAddr, Ipv4Addr, Ipv6Addr};

/// Returns the address of the standard library that has these octets, in their order on the wire
/// (RFC 9260 sections 3.3.2.1.1 and 3.3.2.1.2). `None` if and only if there are neither 4 nor 16.
pub fn ip_address(octets: &[u8]) -> Option<IpAddr>
    ensures { IsAddress octets.now result }
{
    match <[u8; 4]>::try_from(octets) {
        Ok(octets) => Some(IpAddr::V4(Ipv4Addr::from_octets(octets))),
        Err(_) => match <[u8; 16]>::try_from(octets) {
            Ok(octets) => Some(IpAddr::V6(Ipv6Addr::from_octets(octets))),
            Err(_) => None,
        },
    }
}
