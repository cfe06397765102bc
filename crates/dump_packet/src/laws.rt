//! What holds of the definitions alone, as contracts of functions that do nothing.

ghost use Rattle.std.specs.Prelude.{◌≡◌, ℕ, List, Option, Ok, map};
ghost use Rattle.dcsctp_tlv.specs.Frame as frame;
ghost use Rattle.dcsctp_tlv.specs.Level.{ItemsMean};
ghost use Rattle.dcsctp_tlv.specs.Number.{AreBytes};
ghost use Rattle.dcsctp_wire.specs.Chunk.{chunks};
ghost use Rattle.dcsctp_wire.specs.Packet.{Answer, PacketTree, body};
ghost use Rattle.dcsctp_wire.specs.declared.packet.sctp_packet.ChecksumPolicy.{ChecksumPolicy};
ghost use Rattle.dcsctp_borrowed.specs.Part.{Part, Item};
ghost use Rattle.dump_packet.specs.ChunkTypes.{ChunkTypes};
ghost use Rattle.dump_packet.specs.Seen.{AreSeen, chunks_seen};

/// Proves that the chunks of a packet that are looked at are one list.
pub fn one_list()
    ensures some_seen { (fault : Option ℕ) (packet : Part)
        → AreSeen fault packet (chunks_seen fault packet) }
    ensures one_seen { (fault : Option ℕ) (packet : Part) (chunks : List Item)
        → AreSeen fault packet chunks → chunks ≡ chunks_seen fault packet }
{}

/// Proves that the types of an accepted packet's chunks are those of the items that mean its trees,
/// one for one.
pub fn chunk_types()
    ensures { (bytes : List ℕ) (word : ℕ) (policy : ChecksumPolicy) (p : PacketTree)
        (types : List ℕ) → AreBytes bytes → Answer bytes word policy (Ok p)
        → ChunkTypes (body bytes) types
        → (items : List frame.Item) × ItemsMean (chunks policy.strict_padding) items p.meaning.chunks
        × (types ≡ map (λ i. i.first) items) }
{}
