//! The tunnels that a frame's packet is in.

ghost use Rattle.std.specs.Prelude.{◌≡◌, ◌≤◌, ◌/◌, ◌^◌, List, length, option_map};
ghost use Rattle.dump_capture.specs.Tunnels.{kind_in_gre, kind_to_port, kind_as, number32, gre_key, session_id, second_word, identifier, tunnel_of, first_tunnel, tunnels, tunnels_in};
ghost use Rattle.dump_capture.specs.Found.{payload_of};
ghost use Rattle.dump_capture.specs.declared.tunnels.Tunnel as declared;

use crate::frame::{
    Addresses, MOST_TUNNELS, UDP_PROTOCOL, in_frame, number16, past_headers, through_tunnel,
};
use crate::gre::gre_size;
use crate::parts::after;
use crate::payload::{Payload, Protocol};
use crate::tunnel::{GRE_PROTOCOL, GTP_PORT, VXLAN_PORT, is_tunnel};
use std::marker::Model;

/// What a tunnel is.
#[derive(Clone, Copy, Debug)]
pub enum TunnelKind {
    /// IP in IP (RFC 2003, RFC 2473, RFC 4213).
    Ip,
    /// GRE (RFC 2784, RFC 2890), but for ERSPAN.
    Gre,
    /// ERSPAN of type I, II or III, in GRE (draft-foschiano-erspan-03).
    Erspan,
    /// VXLAN (RFC 7348).
    Vxlan,
    /// Geneve (RFC 8926).
    Geneve,
    /// GTP-U (3GPP TS 29.281).
    GtpU,
}

/// A tunnel that a packet is in.
#[derive(Clone, Copy, Debug)]
pub struct Tunnel {
    /// What it is.
    pub kind: TunnelKind,
    /// The addresses of the IP header that carries it: of the tunnel's ends.
    pub addresses: Option<Addresses>,
    /// The TEID of GTP-U (TS 29.281 section 5.1), the VNI of VXLAN (RFC 7348 section 5) and Geneve
    /// (RFC 8926 section 3.4), the key of GRE if it has one (RFC 2890 section 2.1), the session ID
    /// of ERSPAN of type II and III.
    pub identifier: Option<u32>,
}

/// The tunnels that a frame's packet is in, outermost first. A contract sees the list of those that
/// are left.
#[derive(Drop)]
pub struct Tunnels<'a> {
    udp_port: u16,
    left: u32,
    rest: Payload<'a>,
}

impl<'a> Model for Tunnels<'a> {
    ghost Value = { List declared.Tunnel };

    ghost view = { λ t. tunnels t.left t.udp_port (payload_of t.rest) };
}

/// Returns the tunnels through which `packet_in` reads a frame, four at most, outermost first; of a
/// frame in which it finds no packet those before the first fault.
///
/// This is apart from `packet_in`, so that who asks for no tunnel pays for none.
#[tactic(auto, unfolding(crate::specs::Tunnels::tunnels_in, crate::specs::Tunnels::tunnels))]
pub fn tunnels_in(udp_port: u16, link_type: u16, original_length: u32, frame: &[u8]) -> Tunnels<'_>
    ensures { result ≡ tunnels_in udp_port link_type original_length frame.now }
{
    let payload = in_frame(link_type, original_length, frame);
    match past_headers(payload) {
        Ok(rest) => Tunnels {
            udp_port,
            left: MOST_TUNNELS,
            rest,
        },
        Err(_) => Tunnels {
            udp_port,
            left: 0,
            rest: payload,
        },
    }
}

impl<'a> Iterator for Tunnels<'a> {
    ghost use Rattle.std.specs.Iterator.{YieldsFirst, item_count};

    type Item = Tunnel;

    ghost next_gives = { YieldsFirst (λ left. left) };

    ghost remaining = { item_count (λ left. left) };

    /// Returns the next tunnel; `None` once all were returned.
    fn next(&mut self) -> Option<Tunnel> {
        if self.left == 0 {
            return None;
        }
        match first_tunnel(self.udp_port, self.rest) {
            Some((tunnel, rest)) => {
                self.left -= 1;
                self.rest = rest;
                Some(tunnel)
            }
            None => None,
        }
    }
}

/// Returns the first tunnel, and the payload after it and the headers in it.
#[tactic(auto, unfolding(crate::specs::Tunnels::first_tunnel))]
fn first_tunnel(udp_port: u16, payload: Payload<'_>) -> Option<(Tunnel, Payload<'_>)>
    ensures { option_map (λ found. (found.0, payload_of found.1)) result
        ≡ first_tunnel udp_port (payload_of payload.entry) }
{
    if payload.bytes.len() < 8 {
        return None;
    }
    if !is_tunnel(udp_port, payload) {
        return None;
    }
    match through_tunnel(payload) {
        Ok(inner) => Some((tunnel_of(payload), inner)),
        Err(_) => None,
    }
}

/// Returns the tunnel whose payload of IP this is.
fn tunnel_of(payload: Payload<'_>) -> Tunnel
    requires { 8 ≤ length payload.bytes.now }
    ensures { result ≡ tunnel_of (payload_of payload.entry) }
{
    let kind = kind_of(payload.protocol, payload.bytes);
    Tunnel {
        kind,
        addresses: payload.addresses,
        identifier: identifier(kind, payload.bytes),
    }
}

/// Returns what the tunnel is that this protocol of IP carries.
fn kind_of(protocol: Protocol, bytes: &[u8]) -> TunnelKind
    requires { 8 ≤ length bytes.now }
    ensures { result ≡ kind_as protocol bytes.now }
{
    match protocol {
        Protocol::Number(GRE_PROTOCOL) => kind_in_gre(number16(&bytes[2..])),
        Protocol::Number(UDP_PROTOCOL) => kind_to_port(number16(&bytes[2..])),
        _ => TunnelKind::Ip,
    }
}

/// Returns what the tunnel is that GRE has with this type.
fn kind_in_gre(ether_type: u16) -> TunnelKind
    ensures { result ≡ kind_in_gre ether_type }
{
    match ether_type {
        0x88be | 0x22eb => TunnelKind::Erspan,
        _ => TunnelKind::Gre,
    }
}

/// Returns what the tunnel is whose datagrams are sent to this port.
fn kind_to_port(port: u16) -> TunnelKind
    ensures { result ≡ kind_to_port port }
{
    match port {
        GTP_PORT => TunnelKind::GtpU,
        VXLAN_PORT => TunnelKind::Vxlan,
        _ => TunnelKind::Geneve,
    }
}

/// Returns the identifier in the headers of a tunnel.
fn identifier(kind: TunnelKind, bytes: &[u8]) -> Option<u32>
    requires { 8 ≤ length bytes.now }
    ensures { result ≡ identifier kind bytes.now }
{
    match kind {
        TunnelKind::Ip => None,
        TunnelKind::Gre => gre_key(bytes),
        TunnelKind::Erspan => session_id(bytes),
        TunnelKind::Vxlan | TunnelKind::Geneve => network_identifier(bytes),
        TunnelKind::GtpU => number32(after(bytes, 12)),
    }
}

/// Returns the key of GRE, if it has one.
fn gre_key(bytes: &[u8]) -> Option<u32>
    requires { 8 ≤ length bytes.now }
    ensures { result ≡ gre_key bytes.now }
{
    if bytes[0] / 32 % 2 != 1 {
        return None;
    }
    let checksum = bytes[0] / 128 % 2;
    number32(after(bytes, 4 + 4 * checksum as usize))
}

/// Returns the session ID of ERSPAN, if it has a header.
fn session_id(bytes: &[u8]) -> Option<u32>
    requires { 8 ≤ length bytes.now }
    ensures { result ≡ session_id bytes.now }
{
    let is_numbered = bytes[0] / 16 % 2 == 1;
    if number16(&bytes[2..]) != 0x22eb && !is_numbered {
        return None;
    }
    let word = number32(after(bytes, gre_size(bytes)))?;
    Some(word % 1024)
}

/// Returns the VNI of VXLAN and of Geneve, after the header of UDP.
fn network_identifier(bytes: &[u8]) -> Option<u32>
    ensures { result ≡ option_map (λ n. n / 2 ^ 8) (second_word bytes.now) }
{
    let word = number32(after(bytes, 12))?;
    Some(word / 256)
}

/// Returns the number of the first four bytes, most significant byte first.
fn number32(bytes: &[u8]) -> Option<u32>
    ensures { result ≡ number32 bytes.now }
{
    if bytes.len() < 4 {
        return None;
    }
    Some(u32::from_be_bytes([bytes[0], bytes[1], bytes[2], bytes[3]]))
}
