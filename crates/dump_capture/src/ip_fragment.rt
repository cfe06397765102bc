//! The fragment of an IP packet in a frame.

ghost use Rattle.std.specs.Prelude.{◌≡◌, ◌≤◌, length};
ghost use Rattle.dump_capture.specs.IpFragment.{fragment_in, in_headers, in_tunnel, in_tunnels, fragment_at, ipv4_fragment, ipv6_fragment, well_formed, fragment_of, fragment_result};
ghost use Rattle.dump_capture.specs.Found.{payload_of};

use crate::frame::{
    Addresses, MOST_HEADERS, MOST_TUNNELS, NoPacket, in_frame, ipv4_addresses, ipv4_header_size,
    ipv4_length, is_header, number16, past_header, past_headers, through_tunnel,
};
use crate::parts::{after, front};
use crate::payload::{Payload, Protocol};
use crate::tunnel::{is_tunnel, past_tunnel};

/// The most bytes of an IP packet after a header of IPv6: its payload length has 16 bits (RFC 8200
/// section 3).
const MOST_IN_IPV6: usize = 65_535;

/// The most bytes of an IP packet after a header of IPv4: its total length has 16 bits, and counts
/// at least 20 of the header (RFC 791 section 3.1).
const MOST_IN_IPV4: usize = 65_515;

/// Which IP packet a fragment is of.
#[derive(Clone, Copy, Debug, PartialEq, Eq)]
pub struct FragmentKey {
    /// The packet's addresses.
    pub addresses: Addresses,
    /// The identification: 16 bits in IPv4, 32 in IPv6.
    pub identification: u32,
    /// What the packet carries in IPv4 (RFC 791 section 3.2). `None` in IPv6, where it
    /// identifies no packet (RFC 8200 section 4.5).
    pub protocol: Option<u8>,
}

/// A fragment of an IP packet, where it lies in a frame.
#[derive(Clone, Copy, Debug)]
pub struct IpFragment<'a> {
    /// Which packet it is of.
    pub key: FragmentKey,
    /// The protocol number of what the packet carries, as this fragment's header says it; in IPv6
    /// that of the first fragment counts (RFC 8200 section 4.5).
    pub protocol: u8,
    /// Where in the packet its data begins, in bytes.
    pub offset: usize,
    /// Whether more of the packet follows its data.
    pub more: bool,
    /// Its data: at least one byte, and no more than the packet can have.
    pub bytes: &'a [u8],
}

/// Returns the fragment of an IP packet in a frame of this link type, which had `original_length`
/// bytes on the link: that for which `packet_in` returns `Fragment`.
///
/// Returns `None` of any other frame, and of a fragment that can't be used: one of whose data fewer
/// bytes were captured than its header says, or of which there is none; one that isn't the last and
/// whose size isn't a multiple of 8; one that reaches beyond the longest packet; and one with the
/// header of IPv6 in IPv4.
#[tactic(auto, unfolding(crate::specs::IpFragment::fragment_in))]
pub fn fragment_in(
    udp_port: u16,
    link_type: u16,
    original_length: u32,
    frame: &[u8],
) -> Option<IpFragment<'_>>
    ensures { fragment_result result ≡ fragment_in udp_port link_type original_length frame.now }
{
    let payload = in_frame(link_type, original_length, frame);
    match past_headers(payload) {
        Ok(outer) => in_tunnels(udp_port, outer),
        Err(_) => in_headers(payload),
    }
}

/// Returns the fragment in a tunnel of this payload.
fn in_tunnels(udp_port: u16, payload: Payload<'_>) -> Option<IpFragment<'_>>
    ensures { fragment_result result ≡ in_tunnels MOST_TUNNELS udp_port (payload_of payload.entry) }
{
    let mut rest = payload;
    for _k in 0..MOST_TUNNELS {
        if !is_tunnel(udp_port, rest) {
            return None;
        }
        match through_tunnel(rest) {
            Ok(inner) => rest = inner,
            Err(why) => return in_tunnel(rest, why),
        }
    }
    None
}

/// Returns the fragment that a tunnel carries.
fn in_tunnel(payload: Payload<'_>, _why: NoPacket) -> Option<IpFragment<'_>>
    ensures { fragment_result result ≡ in_tunnel (payload_of payload.entry) _why }
{
    match past_tunnel(payload) {
        Ok(inner) => in_headers(inner),
        Err(_) => None,
    }
}

/// Returns the fragment after the headers at the front.
fn in_headers(payload: Payload<'_>) -> Option<IpFragment<'_>>
    ensures { fragment_result result ≡ in_headers MOST_HEADERS (payload_of payload.entry) }
{
    let mut rest = payload;
    for _k in 0..MOST_HEADERS {
        if !is_header(rest.protocol) {
            return None;
        }
        match past_header(rest) {
            Ok(inner) => rest = inner,
            Err(why) => return fragment_at(rest, why),
        }
    }
    None
}

/// Returns the fragment whose header is at the front, where reading ended for this reason.
fn fragment_at(payload: Payload<'_>, why: NoPacket) -> Option<IpFragment<'_>>
    ensures { fragment_result result ≡ fragment_at (payload_of payload.entry) why }
{
    match why {
        NoPacket::Fragment => match payload.protocol {
            Protocol::Number(_) => ipv6_fragment(payload),
            _ => ipv4_fragment(payload),
        },
        _ => None,
    }
}

/// Returns the fragment of an IPv4 packet.
#[tactic(auto, unfolding(crate::specs::IpFragment::ipv4_fragment))]
fn ipv4_fragment(packet: Payload<'_>) -> Option<IpFragment<'_>>
    ensures { fragment_result result ≡ ipv4_fragment (payload_of packet.entry) }
{
    let bytes = packet.bytes;
    if bytes.len() < 20 {
        return None;
    }
    let total = ipv4_length(packet);
    if bytes.len() < total {
        return None;
    }
    let header = ipv4_header_size(bytes);
    let field = number16(&bytes[6..]);
    let fragment = IpFragment {
        key: FragmentKey {
            addresses: ipv4_addresses(bytes),
            identification: number16(&bytes[4..]) as u32,
            protocol: Some(bytes[9]),
        },
        protocol: bytes[9],
        offset: 8 * (field % 8_192) as usize,
        more: field / 8_192 % 2 == 1,
        bytes: after(front(bytes, total), header),
    };
    well_formed(MOST_IN_IPV4, fragment)
}

/// Returns the fragment of an IPv6 packet, of which the fragment header is at the front.
#[tactic(auto, unfolding(crate::specs::IpFragment::ipv6_fragment))]
fn ipv6_fragment(payload: Payload<'_>) -> Option<IpFragment<'_>>
    ensures { fragment_result result ≡ ipv6_fragment (payload_of payload.entry) }
{
    let bytes = payload.bytes;
    if bytes.len() < 8 {
        return None;
    }
    if bytes.len() < payload.size {
        return None;
    }
    let Some(addresses) = payload.addresses else {
        return None;
    };
    if let Addresses::V4 { .. } = addresses {
        return None;
    }
    let field = number16(&bytes[2..]);
    let fragment = IpFragment {
        key: FragmentKey {
            addresses,
            identification: u32::from_be_bytes([bytes[4], bytes[5], bytes[6], bytes[7]]),
            protocol: None,
        },
        protocol: bytes[0],
        offset: 8 * (field / 8) as usize,
        more: field % 2 == 1,
        bytes: after(front(bytes, payload.size), 8),
    };
    well_formed(MOST_IN_IPV6, fragment)
}

/// Returns a fragment of a packet of at most `most` bytes of data, if it can be one.
fn well_formed(most: usize, fragment: IpFragment<'_>) -> Option<IpFragment<'_>>
    requires { most ≤ MOST_IN_IPV6 }
    ensures { fragment_result result ≡ well_formed most (fragment_of fragment.entry) }
{
    let size = fragment.bytes.len();
    if size == 0 || most < size || most - size < fragment.offset {
        return None;
    }
    if fragment.more && size % 8 != 0 {
        return None;
    }
    Some(fragment)
}
