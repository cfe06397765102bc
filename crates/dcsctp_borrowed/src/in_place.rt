//! Changes to a packet in its bytes: for a middle box, and to seal a packet that was written.

ghost use Rattle.std.specs.{Prelude.{◌≡◌, ◌≤◌, ℕ, Ok, Err, length, take, drop}, Int.{w32, to_be_bytes}};
ghost use Rattle.dcsctp_tlv.specs.Image.{put};
ghost use Rattle.dcsctp_wire.specs.{Packet.{PacketTree, PacketFault, Answer, IsAccepted, checksum_field}, declared.packet.sctp_packet.ChecksumPolicy.{ChecksumPolicy}};

use dcsctp_tlv::number::put_u32;
use dcsctp_wire::packet::sctp_packet::CommonHeader;

/// Writes the verification tag (RFC 9260 section 3.1) into bytes 4 to 7 of a packet; all other
/// bytes stay.
///
/// What the bytes are stays too, under each word and policy: a packet, which now has this tag, or
/// their fault. A CRC32c is computed over the tag as well, so the checksum field has to follow
/// (`set_checksum_word`).
pub fn set_verification_tag(packet: &mut [u8], verification_tag: u32)
    requires { 12 ≤ length packet.old }
    ensures bytes { packet.new ≡ put packet.old 4 (to_be_bytes w32 verification_tag) }
    ensures means { (word : ℕ) (policy : ChecksumPolicy) (p : PacketTree)
        → Answer packet.old word policy (Ok p) → Answer packet.new word policy
        (Ok (record p { meaning = record p.meaning { tag = verification_tag } })) }
    ensures faulty { (word : ℕ) (policy : ChecksumPolicy) (e : PacketFault)
        → Answer packet.old word policy (Err e) → Answer packet.new word policy (Err e) }
{
    put_u32(packet, CommonHeader::VERIFICATION_TAG, verification_tag);
}

/// Writes the checksum field (RFC 9260 section 3.1), bytes 8 to 11 of a packet, most significant
/// byte first: of a CRC32c, `swap_bytes()`. All other bytes stay.
///
/// A packet then has this field, and all else as it had, under each word and policy that accept the
/// field and are as strict.
pub fn set_checksum_word(packet: &mut [u8], checksum: u32)
    requires { 12 ≤ length packet.old }
    ensures bytes { packet.new ≡ put packet.old 8 (to_be_bytes w32 checksum) }
    ensures apart { (take 8 packet.new ≡ take 8 packet.old)
        × (drop 12 packet.new ≡ drop 12 packet.old) }
    ensures field { checksum_field packet.new ≡ checksum }
    ensures means { (p : PacketTree) (before after : ℕ) (first later : ChecksumPolicy)
        → Answer packet.old before first (Ok p) → IsAccepted later checksum after
        → later.strict_padding ≡ first.strict_padding
        → Answer packet.new after later (Ok (record p { checksum = checksum })) }
{
    put_u32(packet, CommonHeader::CHECKSUM, checksum);
}
