//! What holds of the definitions alone, and of packets in place, as contracts of functions that do
//! nothing.

ghost use Rattle.std.specs.Prelude.{◌≡◌, ◌≢◌, ℕ, List, [], Ok};
ghost use Rattle.dcsctp_tlv.specs.Frame as frame;
ghost use Rattle.dcsctp_tlv.specs.Level.{ItemsMean};
ghost use Rattle.dcsctp_tlv.specs.Number.{AreBytes};
ghost use Rattle.dcsctp_wire.specs.Canonical.{Fits, HasCanonical};
ghost use Rattle.dcsctp_wire.specs.Chunk.{chunks};
ghost use Rattle.dcsctp_wire.specs.Packet.{Answer, PacketTree};
ghost use Rattle.dcsctp_wire.specs.declared.packet.sctp_packet.ChecksumPolicy.{ChecksumPolicy};
ghost use Rattle.dcsctp_borrowed.specs.Grammar.{whole, items_of_frames};
ghost use Rattle.dcsctp_borrowed.specs.PacketRef.{RefersTo};
ghost use Rattle.dcsctp_borrowed.specs.Part.{AreItems, Item, Part, after};

use crate::packet_ref::SctpPacketRef;

/// Proves that the items that lie in bytes one after the other are one list.
pub fn one_list()
    ensures { (p : Part) (items others : List Item) → AreItems p items → AreItems p others
        → items ≡ others }
{}

/// Proves that bytes that are items of the grammar, chunks, parameters or error causes, have these
/// items, with their types, flags and values.
pub fn grammar_items()
    ensures { (rule : frame.PaddingRule) (items : List frame.Item) (bytes : List ℕ)
        → AreBytes bytes → frame.AreItems rule bytes items
        → AreItems (whole bytes) (items_of_frames items) }
{}

/// Proves that the items after the common header of an accepted packet are its chunks: one for one,
/// their types, flags and values mean the packet's trees.
pub fn packet_items()
    ensures { (bytes : List ℕ) (word : ℕ) (policy : ChecksumPolicy) (p : PacketTree)
        → AreBytes bytes → Answer bytes word policy (Ok p)
        → (items : List frame.Item) × AreItems (after 12 (whole bytes)) (items_of_frames items)
        × ItemsMean (chunks policy.strict_padding) items p.meaning.chunks }
{}

/// Proves that a packet in place has a canonical packet, if it has a chunk and this fits: what its
/// bytes mean lies in its widths and is well-formed. Does nothing.
pub fn has_canonical(packet: &SctpPacketRef)
    ensures { (p : PacketTree) → RefersTo packet.now p → p.meaning.chunks ≢ []
        → Fits p.meaning → HasCanonical p.meaning }
{
    let header = &packet.common_header;
    let _source_port = header.source_port;
    let _destination_port = header.destination_port;
    let _verification_tag = header.verification_tag;
    let _chunks = packet.chunks.bytes();
}
