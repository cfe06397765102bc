//! What holds of the definitions alone, as contracts of functions that do nothing.

ghost use Rattle.std.specs.Prelude.{◌≡◌, ◌↔◌, ℕ, Bool, true, false, List, Ok, drop};
ghost use Rattle.std.specs.List.{Contains};
ghost use Rattle.dcsctp_chunk.specs.{Cover.{AreValid}, Sack.{Tree, read}};
ghost use Rattle.dcsctp_tlv.specs.Frame as frame;
ghost use Rattle.dcsctp_tlv.specs.{Level.{ItemsMean}, Number.{AreBytes}};
ghost use Rattle.dcsctp_wire.specs.{Canonical.{canonical}, Chunk.{chunks}, Packet.{Answer, PacketTree}};
ghost use Rattle.dcsctp_wire.specs.declared.{packet.sctp_packet.ChecksumPolicy.{ChecksumPolicy}, packet.common_header.CommonHeader.{CommonHeader}};
ghost use Rattle.dcsctp_borrowed.specs.{Grammar.{items_of_frames}, Part.{AreItems, Item, Part}};
ghost use Rattle.dcsctp_receive.specs.{Chunks.{chunks_of, items_of}, Fields.{has_wrong_blocks}, OutOfTheBlue.{answer_to, reply_to}};
ghost use Rattle.dcsctp_receive.specs.declared.out_of_the_blue.OutOfTheBlue.TheVariants.{Discard};
ghost use Rattle.dcsctp_receive.specs.declared.out_of_the_blue.Reply.{Reply};
ghost use Rattle.dcsctp_receive.specs.declared.rule.{Rule.{Rule}, TheConstants.Rule.{ALL}};

/// Proves that the items that lie somewhere are those that `Items` of `dcsctp_borrowed` returns,
/// and no other list; and that the chunks of an accepted packet are its chunks: one for one, their
/// types, flags and values mean the packet's trees.
pub fn chunks_are()
    ensures items { (p : Part) → AreItems p (items_of p) }
    ensures one { (p : Part) (items : List Item) → AreItems p items → items ≡ items_of p }
    ensures packet { (bytes : List ℕ) (word : ℕ) (policy : ChecksumPolicy) (p : PacketTree)
        → AreBytes bytes → Answer bytes word policy (Ok p)
        → (items : List frame.Item) × (chunks_of bytes ≡ items_of_frames items)
        × ItemsMean (chunks policy.strict_padding) items p.meaning.chunks }
{}

/// Proves that a reply out of the blue is never replied to, whatever its checksum field is: two
/// ends without an association never answer each other's answers.
pub fn reply_is_discarded()
    ensures { (h : CommonHeader) (reply : Reply) (is_unicast : Bool) (packet : List ℕ)
        → drop 12 packet ≡ drop 12 (canonical (reply_to h reply))
        → answer_to is_unicast packet ≡ Discard }
{}

/// Proves that the gap ack blocks of a SACK are valid if and only if none is wrong: the rule
/// `gap-blocks` finds what `validate_sack` of `dcsctp_chunk` refuses.
pub fn wrong_blocks()
    ensures right { (c : Item) (s : Tree) → c.first ≡ 3 → read c.value.bytes ≡ Ok s
        → (has_wrong_blocks c ≡ false) ↔ AreValid s.blocks }
    ensures wrong { (c : Item) (s : Tree) → c.first ≡ 3 → read c.value.bytes ≡ Ok s
        → (has_wrong_blocks c ≡ true) ↔ (¬ (AreValid s.blocks)) }
{}

/// Proves that `Rule::ALL` has each rule.
pub fn every_rule()
    ensures { (rule : Rule) → Contains ALL rule }
{}
