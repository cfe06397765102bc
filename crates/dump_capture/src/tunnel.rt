//! Tunnels: IP in IP, GRE, and those in UDP.

ghost use Rattle.std.specs.Prelude.{◌≡◌};
ghost use Rattle.dump_capture.specs.Tunnel.{is_tunnel, is_udp_tunnel, is_tunnel_port, past_tunnel, of_tunnel, udp_tunnel, to_port};
ghost use Rattle.dump_capture.specs.Found.{payload_of, payload_result};

use crate::frame::{NoPacket, UDP_PROTOCOL, number16};
use crate::geneve::geneve;
use crate::gre::gre;
use crate::gtp::gtp;
use crate::payload::{Payload, Protocol, cut_to, past};
use crate::vxlan::vxlan;

/// The protocol number of IPv4 in IP.
pub(crate) const IPV4_PROTOCOL: u8 = 4;

/// The protocol number of IPv6 in IP.
pub(crate) const IPV6_PROTOCOL: u8 = 41;

/// The protocol number of GRE in IP.
pub(crate) const GRE_PROTOCOL: u8 = 47;

/// The UDP port of GTP-U (3GPP TS 29.281 section 4.4.2).
pub(crate) const GTP_PORT: u16 = 2152;

/// The UDP port of VXLAN (RFC 7348 section 5).
pub(crate) const VXLAN_PORT: u16 = 4789;

/// The UDP port of Geneve (RFC 8926 section 3.3).
const GENEVE_PORT: u16 = 6081;

/// Returns whether the payload is a tunnel's, where SCTP in UDP is on this port.
pub(crate) fn is_tunnel(udp_port: u16, payload: Payload<'_>) -> bool
    ensures { result ≡ is_tunnel udp_port (payload_of payload.entry) }
{
    match payload.protocol {
        Protocol::Number(IPV4_PROTOCOL | IPV6_PROTOCOL | GRE_PROTOCOL) => true,
        Protocol::Number(UDP_PROTOCOL) => is_udp_tunnel(udp_port, payload.bytes),
        _ => false,
    }
}

/// Returns whether a UDP datagram is a tunnel's.
#[tactic(auto, unfolding(crate::specs::Tunnel::is_udp_tunnel))]
fn is_udp_tunnel(udp_port: u16, bytes: &[u8]) -> bool
    ensures { result ≡ is_udp_tunnel udp_port bytes.now }
{
    if bytes.len() < 8 {
        return false;
    }
    let destination = number16(&bytes[2..]);
    if number16(bytes) == udp_port || destination == udp_port {
        return false;
    }
    is_tunnel_port(destination)
}

/// Returns whether a tunnel's datagrams are sent to this port.
fn is_tunnel_port(port: u16) -> bool
    ensures { result ≡ is_tunnel_port port }
{
    matches!(port, GTP_PORT | VXLAN_PORT | GENEVE_PORT)
}

/// Returns what a tunnel carries.
pub(crate) fn past_tunnel(payload: Payload<'_>) -> Result<Payload<'_>, NoPacket>
    ensures { payload_result result ≡ past_tunnel (payload_of payload.entry) }
{
    match payload.protocol {
        Protocol::Number(number) => of_tunnel(number, cut_to(payload.size, payload)),
        _ => Err(NoPacket::Other),
    }
}

/// Returns what a tunnel of this protocol number carries.
fn of_tunnel(number: u8, payload: Payload<'_>) -> Result<Payload<'_>, NoPacket>
    ensures { payload_result result ≡ of_tunnel number (payload_of payload.entry) }
{
    match number {
        IPV4_PROTOCOL => Ok(past(0, Protocol::EtherType(0x0800), payload)),
        IPV6_PROTOCOL => Ok(past(0, Protocol::EtherType(0x86dd), payload)),
        GRE_PROTOCOL => gre(payload),
        UDP_PROTOCOL => udp_tunnel(payload),
        _ => Err(NoPacket::Other),
    }
}

/// Returns what a tunnel in UDP carries.
#[tactic(auto, unfolding(crate::specs::Tunnel::udp_tunnel))]
fn udp_tunnel(payload: Payload<'_>) -> Result<Payload<'_>, NoPacket>
    ensures { payload_result result ≡ udp_tunnel (payload_of payload.entry) }
{
    let bytes = payload.bytes;
    if payload.size < 8 {
        return Err(NoPacket::Malformed);
    }
    if bytes.len() < 8 {
        return Err(NoPacket::Cut);
    }
    let size = number16(&bytes[4..]) as usize;
    if size < 8 || payload.size < size {
        return Err(NoPacket::Malformed);
    }
    let datagram = cut_to(size, payload);
    to_port(number16(&bytes[2..]), past(8, payload.protocol, datagram))
}

/// Returns what a tunnel carries whose datagrams are sent to this port.
#[tactic(auto, unfolding(crate::specs::Tunnel::to_port))]
fn to_port(port: u16, payload: Payload<'_>) -> Result<Payload<'_>, NoPacket>
    ensures { payload_result result ≡ to_port port (payload_of payload.entry) }
{
    match port {
        GTP_PORT => gtp(payload),
        VXLAN_PORT => vxlan(payload),
        GENEVE_PORT => geneve(payload),
        _ => Err(NoPacket::Other),
    }
}
