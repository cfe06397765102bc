//! The text of a packet, and its canonical line.
ghost use Rattle.std.specs.Prelude.{◌≡◌, ◌++◌, List, ℕ, IfOk, OnOk, string_bytes};
ghost use Rattle.dcsctp_wire.specs.Packet.{packet_view, meaning_view};
ghost use Rattle.sctp_show.specs.Show.{PacketText, CanonicalLine};

use dcsctp_wire::packet::sctp_packet::SctpPacket;
use std::alloc::{AllocError, Global};

/// Returns a packet's text: its header line, a line for each chunk, and its canonical line.
pub fn text_of(alloc: Global, packet: &SctpPacket) -> Result<String, AllocError>
    ensures { IfOk result (λ text. PacketText (packet_view packet.now) (string_bytes text)) }
{
    let mut text = String::new(alloc);
    writeln!(&mut text, "{packet}")?;
    write_canonical(alloc, &mut text, packet)?;
    Ok(text)
}

/// Writes the canonical packet in hexadecimal, or that it does not fit.
fn write_canonical(alloc: Global, text: &mut String, packet: &SctpPacket) -> Result<(), AllocError>
    ensures { OnOk result ((line : List ℕ) × CanonicalLine (meaning_view packet.now) line
        × (string_bytes text.new ≡ string_bytes text.old ++ line)) }
{
    if !packet.fits() {
        return text.push_str("canonical too long\n");
    }
    let bytes = packet.canonical_bytes(alloc)?;
    let digits = hex::encode(alloc, &bytes)?;
    writeln!(text, "canonical={digits}")
}
