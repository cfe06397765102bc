//! Error messages of ICMP that quote an SCTP packet.

ghost use Rattle.std.specs.Prelude.{◌≡◌, ◌≤◌, Ok, length};
ghost use Rattle.dump_capture.specs.Icmp.{icmp_error_in, error, error_of, error_result, quoted, is_error, quoted_type, mtu};
ghost use Rattle.dump_capture.specs.Found.{found, packet_of, payload_of};

use crate::frame::{Addresses, FoundPacket, NoPacket, carried, innermost, number16, past_headers};
use crate::parts::{after, front};
use crate::payload::{Payload, Protocol};

/// The protocol number of ICMP.
pub(crate) const ICMP_PROTOCOL: u8 = 1;

/// The protocol number of ICMPv6.
const ICMPV6_PROTOCOL: u8 = 58;

/// How many bytes the header of a message has.
const HEADER_SIZE: usize = 8;

/// An error message of ICMP (RFC 792) or ICMPv6 (RFC 4443) that quotes an SCTP packet.
#[derive(Clone, Copy, Debug)]
pub struct IcmpError<'a> {
    /// The addresses of the IP packet that carries it: of who reports the error, and of who is told.
    pub addresses: Addresses,
    /// Its type: in IPv4 3 (destination unreachable), 11 (time exceeded) or 12 (parameter problem),
    /// in IPv6 1 (destination unreachable), 2 (packet too big), 3 (time exceeded) or 4 (parameter
    /// problem).
    pub kind: u8,
    /// Its code.
    pub code: u8,
    /// The next hop's MTU in bytes, of type 3 with code 4 in IPv4 (RFC 1191 section 4) and of type 2
    /// in IPv6; 0 of others, and where a router doesn't say it.
    pub mtu: u32,
    /// The packet that it quotes, with the addresses of its own IP header: at least both ports and
    /// the verification tag.
    pub quoted: FoundPacket<'a>,
}

/// Returns the error message of ICMP in a frame of this link type, which had `original_length` bytes
/// on the link, if it quotes an SCTP packet: where `packet_in` would find a packet, and returns
/// `Other`.
///
/// Returns `None` of any other frame; of another message; of a quoted packet that isn't SCTP, in
/// UDP or not, that is a fragment, or of which fewer than 8 bytes are there; and of a fragment.
#[tactic(auto, unfolding(crate::specs::Icmp::icmp_error_in))]
pub fn icmp_error_in(
    udp_port: u16,
    link_type: u16,
    original_length: u32,
    frame: &[u8],
) -> Option<IcmpError<'_>>
    ensures { error_result result ≡ icmp_error_in udp_port link_type original_length frame.now }
{
    match innermost(udp_port, link_type, original_length, frame) {
        Ok(payload) => error(udp_port, payload),
        Err(_) => None,
    }
}

/// Returns the error message that a payload is.
#[tactic(auto, unfolding(crate::specs::Icmp::error))]
fn error(udp_port: u16, payload: Payload<'_>) -> Option<IcmpError<'_>>
    ensures { error_result result ≡ error udp_port (payload_of payload.entry) }
{
    let Some(addresses) = payload.addresses else {
        return None;
    };
    let bytes = front(payload.bytes, payload.size);
    if bytes.len() < HEADER_SIZE || !is_error(payload.protocol, payload.bytes[0]) {
        return None;
    }
    match quoted(udp_port, payload) {
        Ok(packet) => error_of(addresses, payload, packet),
        Err(_) => None,
    }
}

/// Returns the packet that a message quotes.
#[tactic(auto, unfolding(crate::specs::Icmp::quoted))]
fn quoted(udp_port: u16, payload: Payload<'_>) -> Result<FoundPacket<'_>, NoPacket>
    ensures { found result ≡ quoted udp_port (payload_of payload.entry) }
{
    let quote = Payload {
        addresses: None,
        protocol: Protocol::EtherType(quoted_type(payload.protocol)),
        size: payload.size.saturating_sub(HEADER_SIZE),
        bytes: after(front(payload.bytes, payload.size), HEADER_SIZE),
    };
    let inner = past_headers(quote)?;
    carried(udp_port, inner)
}

/// Returns a message that quotes a packet, if enough of it is there.
fn error_of<'a>(
    addresses: Addresses,
    payload: Payload<'a>,
    quoted: FoundPacket<'a>,
) -> Option<IcmpError<'a>>
    requires { 8 ≤ length payload.bytes.now }
    ensures { error_result result ≡
        error_of addresses (payload_of payload.entry) (Ok (packet_of quoted.entry)) }
{
    if quoted.packet.len() < 8 {
        return None;
    }
    Some(IcmpError {
        addresses,
        kind: payload.bytes[0],
        code: payload.bytes[1],
        mtu: mtu(payload.protocol, payload.bytes),
        quoted,
    })
}

/// Returns whether a message of this type is an error.
fn is_error(protocol: Protocol, kind: u8) -> bool
    ensures { result ≡ is_error protocol kind }
{
    match protocol {
        Protocol::Number(ICMP_PROTOCOL) => matches!(kind, 3 | 11 | 12),
        Protocol::Number(ICMPV6_PROTOCOL) => matches!(kind, 1..=4),
        _ => false,
    }
}

/// Returns the type of the packets that a protocol quotes.
fn quoted_type(protocol: Protocol) -> u16
    ensures { result ≡ quoted_type protocol }
{
    match protocol {
        Protocol::Number(ICMP_PROTOCOL) => 0x0800,
        _ => 0x86dd,
    }
}

/// Returns the MTU that a message says.
fn mtu(protocol: Protocol, bytes: &[u8]) -> u32
    requires { 8 ≤ length bytes.now }
    ensures { result ≡ mtu protocol bytes.now }
{
    match protocol {
        Protocol::Number(ICMP_PROTOCOL) if bytes[0] == 3 && bytes[1] == 4 => {
            number16(&bytes[6..]) as u32
        }
        Protocol::Number(ICMPV6_PROTOCOL) if bytes[0] == 2 => {
            u32::from_be_bytes([bytes[4], bytes[5], bytes[6], bytes[7]])
        }
        _ => 0,
    }
}
