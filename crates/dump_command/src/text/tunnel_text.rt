//! The tunnels that a packet is in, as text.

use crate::text::frame_text::{SeenFrame, hosts_of};
use dump_capture::tunnels::{TunnelKind, Tunnels, tunnels_in};
use dump_packet::ReportWriter;

/// Writes the tunnels of a frame, outermost first: each a line of its packet's block, or all as a
/// key of its JSON object, if there are any.
pub fn write_tunnels(frame: SeenFrame<'_>, out: &mut ReportWriter<'_, '_>) {
    let mut is_first = true;
    for tunnel in tunnels_of(frame) {
        if is_first {
            out.open("tunnels", "[");
            is_first = false;
        }
        out.open("", "{");
        out.word("in ", "kind", name_of(tunnel.kind));
        if let Some(addresses) = tunnel.addresses {
            let (source, destination) = hosts_of(addresses);
            out.word(" from ", "from", source);
            out.word(" to ", "to", destination);
        }
        if let Some(identifier) = tunnel.identifier {
            write_identifier(tunnel.kind, identifier, out);
            out.json("identifier", identifier);
        }
        out.say("\n");
        out.close("}");
    }
    if !is_first {
        out.close("]");
    }
}

/// Returns the tunnels of a frame.
fn tunnels_of(frame: SeenFrame<'_>) -> Tunnels<'_> {
    tunnels_in(
        frame.udp_port,
        frame.link_type,
        frame.original_length,
        frame.bytes,
    )
}

/// Returns what a tunnel is called.
fn name_of(kind: TunnelKind) -> &'static str {
    match kind {
        TunnelKind::Ip => "IP",
        TunnelKind::Gre => "GRE",
        TunnelKind::Erspan => "ERSPAN",
        TunnelKind::Vxlan => "VXLAN",
        TunnelKind::Geneve => "Geneve",
        TunnelKind::GtpU => "GTP-U",
    }
}

/// Writes a tunnel's identifier in lines, with its name as its standard calls it.
fn write_identifier(kind: TunnelKind, identifier: u32, out: &mut ReportWriter<'_, '_>) {
    match kind {
        TunnelKind::Ip => {}
        TunnelKind::Gre => write!(out, ", key 0x{identifier:08x}"),
        TunnelKind::Erspan => write!(out, ", session ID {identifier}"),
        TunnelKind::Vxlan | TunnelKind::Geneve => write!(out, ", VNI {identifier}"),
        TunnelKind::GtpU => write!(out, ", TEID 0x{identifier:08x}"),
    }
}
