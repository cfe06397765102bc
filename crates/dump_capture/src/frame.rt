//! The SCTP packet in a frame, by its link type.

ghost use Rattle.std.specs.Prelude.{◌≡◌, ◌≤◌, ◌+◌, length};
ghost use Rattle.dump_capture.specs.Number.{number16};
ghost use Rattle.dump_capture.specs.Frame.{packet_in, in_frame, is_known_link, innermost, is_header, is_ip_family, is_read, is_extension, is_ipv4_fragment, is_ipv6_fragment, extension_size, may_carry_sctp, packet, carried, in_udp, past_header, past_headers, past_tunnels, through_tunnel, on_link, hdlc, loopback, typed, of_type, label, ip, ipv4, ipv6, ipv4_header_size, ipv4_length, ipv4_addresses, ipv6_addresses, extension};
ghost use Rattle.dump_capture.specs.Found.{found, packet_of, payload_of, payload_result};

use crate::gtp::gtp_extension;
use crate::icmp::ICMP_PROTOCOL;
use crate::nflog::{attribute, nflog};
use crate::payload::{Payload, Protocol, past};
use crate::ppp::{framed_ppp, in_session};
use crate::tunnel::{GRE_PROTOCOL, IPV4_PROTOCOL, IPV6_PROTOCOL, is_tunnel, past_tunnel};

/// Link types (the registry of draft-ietf-opsawg-pcaplinktype).
pub mod link_type {
    /// BSD's loopback: the family in the capturing machine's byte order.
    pub const LOOPBACK: u16 = 0;
    /// Ethernet II.
    pub const ETHERNET: u16 = 1;
    /// PPP (RFC 1661), or in HDLC-like framing (RFC 1662).
    pub const PPP: u16 = 9;
    /// IPv4 or IPv6, in files of some BSDs.
    pub const BSD_RAW_IP: u16 = 12;
    /// IPv4 or IPv6, in files of OpenBSD.
    pub const OPENBSD_RAW_IP: u16 = 14;
    /// PPP in HDLC-like framing (RFC 1662), or in Cisco's (RFC 1547).
    pub const PPP_HDLC: u16 = 50;
    /// IPv4 or IPv6, without a header of the link.
    pub const RAW_IP: u16 = 101;
    /// OpenBSD's loopback: the family most significant byte first.
    pub const OPENBSD_LOOPBACK: u16 = 108;
    /// Linux's cooked header, version 1.
    pub const LINUX_COOKED: u16 = 113;
    /// IPv4, without a header of the link.
    pub const IPV4: u16 = 228;
    /// IPv6, without a header of the link.
    pub const IPV6: u16 = 229;
    /// What Linux's packet filter logged of packets.
    pub const NFLOG: u16 = 239;
    /// SCTP, without IP.
    pub const SCTP: u16 = 248;
    /// Linux's cooked header, version 2.
    pub const LINUX_COOKED_2: u16 = 276;
}

/// The protocol number of SCTP in IP.
const SCTP_PROTOCOL: u8 = 132;

/// The protocol number of UDP in IP.
pub(crate) const UDP_PROTOCOL: u8 = 17;

/// The protocol number of IPv6's fragment header.
const FRAGMENT_HEADER: u8 = 44;

/// The protocol number of the authentication header.
const AUTHENTICATION_HEADER: u8 = 51;

/// The UDP port of SCTP (RFC 6951 section 5.1).
pub const UDP_PORT: u16 = 9899;

/// The most headers that are read of a frame, those of the link and of IP, and of what a tunnel
/// carries: a frame of 262,144 bytes has no more.
pub(crate) const MOST_HEADERS: u32 = 65_536;

/// The most tunnels that are read in one another.
pub(crate) const MOST_TUNNELS: u32 = 4;

/// The addresses of an IP packet.
#[derive(Clone, Copy, Debug, PartialEq, Eq)]
pub enum Addresses {
    /// Of IPv4 (RFC 791).
    V4 {
        source: [u8; 4],
        destination: [u8; 4],
    },
    /// Of IPv6 (RFC 8200).
    V6 {
        source: [u8; 16],
        destination: [u8; 16],
    },
}

/// The ports of a UDP datagram.
#[derive(Clone, Copy, Debug)]
pub struct UdpPorts {
    pub source: u16,
    pub destination: u16,
}

/// An SCTP packet where it lies in a frame.
#[derive(Clone, Copy, Debug)]
pub struct FoundPacket<'a> {
    /// The addresses of the innermost IP packet that carries it; none of link type 248.
    pub addresses: Option<Addresses>,
    /// The ports of the UDP datagram that carries it, if one does; not those of a tunnel.
    pub udp_ports: Option<UdpPorts>,
    /// How many bytes the packet had, as the headers before it say.
    pub length: usize,
    /// The packet from its common header on, without what follows it in the frame: its first bytes,
    /// if fewer than `length` were captured.
    pub packet: &'a [u8],
}

/// Why a frame has no packet that can be read.
#[derive(Clone, Copy, Debug)]
pub enum NoPacket {
    /// Frames of its link type aren't read.
    LinkType,
    /// It is a fragment of an IP packet that may carry SCTP: in IPv4 of one that carries SCTP, UDP,
    /// the authentication header, IP or GRE, in IPv6 of any.
    Fragment,
    /// Fewer bytes were captured than the headers have.
    Cut,
    /// A header contradicts itself, or a length in it is more than the header around it allows.
    Malformed,
    /// It carries something else.
    Other,
}

/// Returns whether frames of this link type are read.
pub fn is_known_link(link_type: u16) -> bool
    ensures { result ≡ is_known_link link_type }
{
    matches!(
        link_type,
        link_type::LOOPBACK
            | link_type::ETHERNET
            | link_type::PPP
            | link_type::BSD_RAW_IP
            | link_type::OPENBSD_RAW_IP
            | link_type::PPP_HDLC
            | link_type::RAW_IP
            | link_type::OPENBSD_LOOPBACK
            | link_type::LINUX_COOKED
            | link_type::IPV4
            | link_type::IPV6
            | link_type::NFLOG
            | link_type::SCTP
            | link_type::LINUX_COOKED_2
    )
}

/// Returns the SCTP packet in a frame of this link type, which had `original_length` bytes on the
/// link.
///
/// The packet is protocol 132 of IPv4 or of IPv6, or it is in UDP with `udp_port` on either side.
/// It may be after any 802.1Q and 802.1ad tags, MPLS labels, PPP and PPPoE in a session, and after
/// the authentication header and IPv6's extension headers. It may be in tunnels, up to four in one
/// another: IP in IP, GRE, ERSPAN, and in UDP to its own port VXLAN, Geneve or GTP-U; `tunnels_in`
/// gives these. It is as long as the innermost header says, and what follows in the frame, or a
/// tunnel's payload, is left out; if the frame was cut off, or a tunnel's payload is shorter, it
/// has fewer bytes than `length`, maybe none. An IPv4 packet whose length is 0 reaches to the end
/// of the frame or of that payload.
///
/// Otherwise returns the first of these from the link's header inward: `LinkType`; `Cut` if fewer
/// bytes were captured than a header has; `Malformed` if a header has another version than its type
/// says, or a length that is less than a header or more than the header around it allows;
/// `Fragment`, but not of a packet in one fragment; `Other`, also of a fifth tunnel, and of a
/// version or a message of a tunnel that carries no packet here.
#[tactic(auto, unfolding(crate::specs::Frame::packet_in))]
pub fn packet_in(
    udp_port: u16,
    link_type: u16,
    original_length: u32,
    frame: &[u8],
) -> Result<FoundPacket<'_>, NoPacket>
    ensures { found result ≡ packet_in udp_port link_type original_length frame.now }
{
    let payload = innermost(udp_port, link_type, original_length, frame)?;
    carried(udp_port, payload)
}

/// Returns the payload after all headers and tunnels of a frame.
pub(crate) fn innermost(
    udp_port: u16,
    link_type: u16,
    original_length: u32,
    frame: &[u8],
) -> Result<Payload<'_>, NoPacket>
    ensures { payload_result result ≡ innermost udp_port link_type original_length frame.now }
{
    let outer = past_headers(in_frame(link_type, original_length, frame))?;
    past_tunnels(udp_port, outer)
}

/// Returns the payload that a link's header begins: the whole frame.
pub(crate) fn in_frame(link_type: u16, original_length: u32, frame: &[u8]) -> Payload<'_>
    ensures { payload_of result ≡ in_frame link_type original_length frame.now }
{
    Payload {
        addresses: None,
        protocol: Protocol::Link(link_type),
        size: original_length as usize,
        bytes: frame,
    }
}

/// Returns a packet of this size, as far as it was captured.
fn packet(
    addresses: Option<Addresses>,
    udp_ports: Option<UdpPorts>,
    size: usize,
    bytes: &[u8],
) -> FoundPacket<'_>
    ensures { packet_of result ≡ packet addresses udp_ports size bytes.now }
{
    FoundPacket {
        addresses,
        udp_ports,
        length: size,
        packet: &bytes[..size.min(bytes.len())],
    }
}

/// Returns the packet after the headers of the link and of IP.
pub(crate) fn carried(udp_port: u16, payload: Payload<'_>) -> Result<FoundPacket<'_>, NoPacket>
    ensures { found result ≡ carried udp_port (payload_of payload.entry) }
{
    match payload.protocol {
        Protocol::Number(SCTP_PROTOCOL) => {
            Ok(packet(payload.addresses, None, payload.size, payload.bytes))
        }
        Protocol::Number(UDP_PROTOCOL) => in_udp(udp_port, payload),
        _ => Err(NoPacket::Other),
    }
}

/// Returns the packet in a UDP datagram.
#[tactic(auto, unfolding(crate::specs::Frame::in_udp))]
fn in_udp(udp_port: u16, payload: Payload<'_>) -> Result<FoundPacket<'_>, NoPacket>
    ensures { found result ≡ in_udp udp_port (payload_of payload.entry) }
{
    let bytes = payload.bytes;
    if payload.size < 8 {
        return Err(NoPacket::Malformed);
    }
    if bytes.len() < 8 {
        return Err(NoPacket::Cut);
    }
    let source = number16(bytes);
    let destination = number16(&bytes[2..]);
    if source != udp_port && destination != udp_port {
        return Err(NoPacket::Other);
    }
    let size = number16(&bytes[4..]) as usize;
    if size < 8 || payload.size < size {
        return Err(NoPacket::Malformed);
    }
    let ports = UdpPorts {
        source,
        destination,
    };
    Ok(packet(payload.addresses, Some(ports), size - 8, &bytes[8..]))
}

/// Returns the payload after tunnels, where SCTP in UDP is on this port.
fn past_tunnels(udp_port: u16, payload: Payload<'_>) -> Result<Payload<'_>, NoPacket>
    ensures { payload_result result ≡
        past_tunnels MOST_TUNNELS udp_port (payload_of payload.entry) }
{
    let mut rest = payload;
    for _k in 0..MOST_TUNNELS {
        if !is_tunnel(udp_port, rest) {
            return Ok(rest);
        }
        rest = through_tunnel(rest)?;
    }
    Ok(rest)
}

/// Returns the payload after a tunnel and the headers in it.
pub(crate) fn through_tunnel(payload: Payload<'_>) -> Result<Payload<'_>, NoPacket>
    ensures { payload_result result ≡ through_tunnel (payload_of payload.entry) }
{
    past_headers(past_tunnel(payload)?)
}

/// Returns the payload after the headers of the link and of IP.
pub(crate) fn past_headers(payload: Payload<'_>) -> Result<Payload<'_>, NoPacket>
    ensures { payload_result result ≡ past_headers MOST_HEADERS (payload_of payload.entry) }
{
    let mut rest = payload;
    for _k in 0..MOST_HEADERS {
        if !is_header(rest.protocol) {
            return Ok(rest);
        }
        rest = past_header(rest)?;
    }
    Ok(rest)
}

/// Returns whether this is a header of the link, of IP or in a tunnel, and what follows it.
pub(crate) fn is_header(protocol: Protocol) -> bool
    ensures { result ≡ is_header protocol }
{
    match protocol {
        Protocol::Number(number) => is_extension(number),
        _ => true,
    }
}

/// Returns the payload after the header at its front.
pub(crate) fn past_header(payload: Payload<'_>) -> Result<Payload<'_>, NoPacket>
    ensures { payload_result result ≡ past_header (payload_of payload.entry) }
{
    match payload.protocol {
        Protocol::Link(link_type) => on_link(link_type, payload),
        Protocol::EtherType(ether_type) => of_type(ether_type, payload),
        Protocol::Ip => ip(payload),
        Protocol::Number(number) => extension(number, payload),
        Protocol::GtpExtension => gtp_extension(payload),
        Protocol::NflogAttribute => attribute(payload),
    }
}

/// Returns what follows the header of a link.
#[tactic(auto, unfolding(crate::specs::Frame::on_link))]
fn on_link(link_type: u16, frame: Payload<'_>) -> Result<Payload<'_>, NoPacket>
    ensures { payload_result result ≡ on_link link_type (payload_of frame.entry) }
{
    match link_type {
        link_type::ETHERNET => typed(12, 14, frame),
        link_type::BSD_RAW_IP | link_type::OPENBSD_RAW_IP | link_type::RAW_IP => ip(frame),
        link_type::LINUX_COOKED => typed(14, 16, frame),
        link_type::LINUX_COOKED_2 => typed(0, 20, frame),
        link_type::LOOPBACK | link_type::OPENBSD_LOOPBACK => loopback(frame),
        link_type::PPP => framed_ppp(frame),
        link_type::PPP_HDLC => hdlc(frame),
        link_type::NFLOG => nflog(frame),
        link_type::IPV4 => ipv4(frame),
        link_type::IPV6 => ipv6(frame),
        link_type::SCTP => Ok(past(0, Protocol::Number(SCTP_PROTOCOL), frame)),
        _ => Err(NoPacket::LinkType),
    }
}

/// Returns what follows the header of PPP, or of Cisco's framing.
#[tactic(auto, unfolding(crate::specs::Frame::hdlc))]
fn hdlc(frame: Payload<'_>) -> Result<Payload<'_>, NoPacket>
    ensures { payload_result result ≡ hdlc (payload_of frame.entry) }
{
    if frame.bytes.is_empty() {
        return Err(NoPacket::Cut);
    }
    match frame.bytes[0] {
        0x0f | 0x8f => typed(2, 4, frame),
        _ => framed_ppp(frame),
    }
}

/// Returns what follows the family.
#[tactic(auto, unfolding(crate::specs::Frame::loopback))]
fn loopback(frame: Payload<'_>) -> Result<Payload<'_>, NoPacket>
    ensures { payload_result result ≡ loopback (payload_of frame.entry) }
{
    let bytes = frame.bytes;
    if bytes.len() < 4 {
        return Err(NoPacket::Cut);
    }
    let family = [bytes[0], bytes[1], bytes[2], bytes[3]];
    if is_ip_family(u32::from_be_bytes(family)) || is_ip_family(u32::from_le_bytes(family)) {
        Ok(past(4, Protocol::Ip, frame))
    } else {
        Err(NoPacket::Other)
    }
}

/// Returns whether this is the family of IPv4 or IPv6 on some machine.
fn is_ip_family(family: u32) -> bool
    ensures { result ≡ is_ip_family family }
{
    matches!(family, 2 | 24 | 28 | 30)
}

/// Returns what follows a header of this size, whose type is at this offset.
#[tactic(auto, unfolding(crate::specs::Frame::typed))]
fn typed(offset: usize, size: usize, payload: Payload<'_>) -> Result<Payload<'_>, NoPacket>
    requires { offset + 2 ≤ size }
    ensures { payload_result result ≡ typed offset size (payload_of payload.entry) }
{
    if payload.bytes.len() < size {
        return Err(NoPacket::Cut);
    }
    let ether_type = number16(&payload.bytes[offset..]);
    Ok(past(size, Protocol::EtherType(ether_type), payload))
}

/// Returns what follows a header of this type, or the payload of an IP packet.
#[tactic(auto, unfolding(crate::specs::Frame::of_type))]
fn of_type(ether_type: u16, payload: Payload<'_>) -> Result<Payload<'_>, NoPacket>
    ensures { payload_result result ≡ of_type ether_type (payload_of payload.entry) }
{
    match ether_type {
        0x0800 => ipv4(payload),
        0x86dd => ipv6(payload),
        0x8100 | 0x88a8 | 0x9100 => typed(2, 4, payload),
        0x8847 | 0x8848 => label(ether_type, payload),
        0x8864 => in_session(payload),
        0x6558 => typed(12, 14, payload),
        _ => Err(NoPacket::Other),
    }
}

/// Returns what follows an MPLS label.
#[tactic(auto, unfolding(crate::specs::Frame::label))]
fn label(ether_type: u16, payload: Payload<'_>) -> Result<Payload<'_>, NoPacket>
    ensures { payload_result result ≡ label ether_type (payload_of payload.entry) }
{
    if payload.bytes.len() < 4 {
        return Err(NoPacket::Cut);
    }
    let protocol = if payload.bytes[2] % 2 == 1 {
        Protocol::Ip
    } else {
        Protocol::EtherType(ether_type)
    };
    Ok(past(4, protocol, payload))
}

/// Returns what an IP packet of either version carries.
#[tactic(auto, unfolding(crate::specs::Frame::ip))]
fn ip(packet: Payload<'_>) -> Result<Payload<'_>, NoPacket>
    ensures { payload_result result ≡ ip (payload_of packet.entry) }
{
    if packet.bytes.is_empty() {
        return Err(NoPacket::Cut);
    }
    match packet.bytes[0] / 16 {
        4 => ipv4(packet),
        6 => ipv6(packet),
        _ => Err(NoPacket::Other),
    }
}

/// Returns what an IPv4 packet carries.
#[tactic(auto, unfolding(crate::specs::Frame::ipv4))]
fn ipv4(packet: Payload<'_>) -> Result<Payload<'_>, NoPacket>
    ensures { payload_result result ≡ ipv4 (payload_of packet.entry) }
{
    let bytes = packet.bytes;
    if bytes.len() < 20 {
        return Err(NoPacket::Cut);
    }
    if bytes[0] / 16 != 4 {
        return Err(NoPacket::Malformed);
    }
    let number = bytes[9];
    if !is_read(bytes) {
        return Err(NoPacket::Other);
    }
    let header = ipv4_header_size(bytes);
    let total = ipv4_length(packet);
    if header < 20 {
        return Err(NoPacket::Malformed);
    }
    if total < header {
        return Err(NoPacket::Malformed);
    }
    if is_ipv4_fragment(bytes) {
        return Err(NoPacket::Fragment);
    }
    if bytes.len() < header {
        return Err(NoPacket::Cut);
    }
    Ok(Payload {
        addresses: Some(ipv4_addresses(bytes)),
        protocol: Protocol::Number(number),
        size: total - header,
        bytes: &bytes[header..],
    })
}

/// Returns the size of an IPv4 header, as it says it (RFC 791 section 3.1).
pub(crate) fn ipv4_header_size(bytes: &[u8]) -> usize
    requires { 20 ≤ length bytes.now }
    ensures { result ≡ ipv4_header_size bytes.now }
{
    4 * (bytes[0] % 16) as usize
}

/// Returns the length of an IPv4 packet.
pub(crate) fn ipv4_length(packet: Payload<'_>) -> usize
    requires { 20 ≤ length packet.bytes.now }
    ensures { result ≡ ipv4_length (payload_of packet.entry) }
{
    match number16(&packet.bytes[2..]) {
        0 => packet.size,
        length => length as usize,
    }
}

/// Returns the addresses of an IPv4 header.
pub(crate) fn ipv4_addresses(bytes: &[u8]) -> Addresses
    requires { 20 ≤ length bytes.now }
    ensures { result ≡ ipv4_addresses bytes.now }
{
    let mut source = [0; 4];
    let mut destination = [0; 4];
    source.copy_from_slice(&bytes[12..16]);
    destination.copy_from_slice(&bytes[16..20]);
    Addresses::V4 {
        source,
        destination,
    }
}

/// Returns what an IPv6 packet carries, with its extension headers.
#[tactic(auto, unfolding(crate::specs::Frame::ipv6))]
fn ipv6(packet: Payload<'_>) -> Result<Payload<'_>, NoPacket>
    ensures { payload_result result ≡ ipv6 (payload_of packet.entry) }
{
    let bytes = packet.bytes;
    if bytes.len() < 40 {
        return Err(NoPacket::Cut);
    }
    if bytes[0] / 16 != 6 {
        return Err(NoPacket::Malformed);
    }
    Ok(Payload {
        addresses: Some(ipv6_addresses(bytes)),
        protocol: Protocol::Number(bytes[6]),
        size: number16(&bytes[4..]) as usize,
        bytes: &bytes[40..],
    })
}

/// Returns the addresses of an IPv6 header.
fn ipv6_addresses(bytes: &[u8]) -> Addresses
    requires { 40 ≤ length bytes.now }
    ensures { result ≡ ipv6_addresses bytes.now }
{
    let mut source = [0; 16];
    let mut destination = [0; 16];
    source.copy_from_slice(&bytes[8..24]);
    destination.copy_from_slice(&bytes[24..40]);
    Addresses::V6 {
        source,
        destination,
    }
}

/// Returns what follows an extension header.
#[tactic(auto, unfolding(crate::specs::Frame::extension))]
fn extension(number: u8, payload: Payload<'_>) -> Result<Payload<'_>, NoPacket>
    ensures { payload_result result ≡ extension number (payload_of payload.entry) }
{
    let bytes = payload.bytes;
    if payload.size < 8 {
        return Err(NoPacket::Malformed);
    }
    if bytes.len() < 8 {
        return Err(NoPacket::Cut);
    }
    let size = extension_size(number, bytes);
    if payload.size < size {
        return Err(NoPacket::Malformed);
    }
    if number == AUTHENTICATION_HEADER && bytes[1] == 0 {
        return Err(NoPacket::Malformed);
    }
    if number == FRAGMENT_HEADER && is_ipv6_fragment(bytes) {
        return Err(NoPacket::Fragment);
    }
    if bytes.len() < size {
        return Err(NoPacket::Cut);
    }
    Ok(past(size, Protocol::Number(bytes[0]), payload))
}

/// Returns the size of an extension header.
fn extension_size(number: u8, bytes: &[u8]) -> usize
    requires { 8 ≤ length bytes.now }
    ensures { result ≡ extension_size number bytes.now }
{
    let said = bytes[1] as usize;
    match number {
        FRAGMENT_HEADER => 8,
        AUTHENTICATION_HEADER => 4 * (said + 2),
        _ => 8 * (said + 1),
    }
}

/// Returns whether a fragment header is that of one of several fragments.
fn is_ipv6_fragment(bytes: &[u8]) -> bool
    requires { 8 ≤ length bytes.now }
    ensures { result ≡ is_ipv6_fragment bytes.now }
{
    let field = number16(&bytes[2..]);
    field / 8 != 0 || field % 2 != 0
}

/// Returns whether this protocol is an extension header.
fn is_extension(number: u8) -> bool
    ensures { result ≡ is_extension number }
{
    matches!(
        number,
        0 | 43 | FRAGMENT_HEADER | AUTHENTICATION_HEADER | 60 | 140
    )
}

/// Returns whether what an IPv4 packet carries is read: what may carry SCTP, or ICMP that is no
/// fragment.
fn is_read(bytes: &[u8]) -> bool
    requires { 20 ≤ length bytes.now }
    ensures { result ≡ is_read bytes.now }
{
    may_carry_sctp(bytes[9]) || bytes[9] == ICMP_PROTOCOL && !is_ipv4_fragment(bytes)
}

/// Returns whether an IPv4 header is that of one of several fragments.
fn is_ipv4_fragment(bytes: &[u8]) -> bool
    requires { 20 ≤ length bytes.now }
    ensures { result ≡ is_ipv4_fragment bytes.now }
{
    number16(&bytes[6..]) % 0x4000 != 0
}

/// Returns whether this protocol in IPv4 may carry SCTP.
#[tactic(auto, unfolding(crate::specs::Frame::may_carry_sctp))]
fn may_carry_sctp(number: u8) -> bool
    ensures { result ≡ may_carry_sctp number }
{
    matches!(
        number,
        SCTP_PROTOCOL
            | UDP_PROTOCOL
            | AUTHENTICATION_HEADER
            | IPV4_PROTOCOL
            | IPV6_PROTOCOL
            | GRE_PROTOCOL
    )
}

/// Returns the number of the first two bytes, most significant byte first.
pub(crate) fn number16(bytes: &[u8]) -> u16
    requires { 2 ≤ length bytes.now }
    ensures { result ≡ number16 bytes.now }
{
    u16::from_be_bytes([bytes[0], bytes[1]])
}
