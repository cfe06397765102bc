//! Changes to a packet in its bytes.

ghost use Rattle.std.specs.{Prelude.{◌≡◌, ◌≢◌, ◌≤◌, ◌<◌, ℕ, List, [], Ok, Err, length, nat_le, if◌then◌else◌}, Int.{w32, to_be_bytes}};
ghost use Rattle.dcsctp_crc32c.specs.Checksum.{packet_word};
ghost use Rattle.dcsctp_tlv.specs.Image.{put};
ghost use Rattle.dcsctp_wire.specs.{Chunk.{ChunkTree}, Packet.{Meaning, PacketTree, PacketFault, Answer, checksum_field}, WellFormed.{IsWellFormed}, declared.packet.sctp_packet.ChecksumPolicy.{ChecksumPolicy}};
ghost use Rattle.dcsctp_buffer.specs.Buffer.{HoldsPacket, ReadAs, kept};
ghost use Rattle.dcsctp_c.specs.Code.{bad_place_code};

use crate::codes::{BAD_PLACE, OK};
use dcsctp_borrowed::in_place::{set_checksum_word, set_verification_tag};
use dcsctp_crc32c::packet_word;
use dcsctp_wire::packet::sctp_packet::COMMON_HEADER_SIZE;

/// Writes the CRC32c of a packet (RFC 9260 section 6.8) into its checksum field, bytes 8 to 11; all
/// other bytes stay. Returns 0; `BAD_PLACE`, and changes nothing, for fewer than 12 bytes.
///
/// What was a packet under any word and policy then is one under its own word and each policy that
/// is as strict, with this checksum field and all else as it had.
#[unsafe(no_mangle)]
pub extern "C" fn dcsctp_seal(packet: &mut [u8]) -> u32
    ensures there { result ≡ (if nat_le 12 (length packet.old) then 0 else bad_place_code) }
    ensures bytes { 12 ≤ length packet.old
        → packet.new ≡ put packet.old 8 (to_be_bytes w32 (packet_word packet.old)) }
    ensures sealed { 12 ≤ length packet.old → checksum_field packet.new ≡ packet_word packet.new }
    ensures stays { length packet.old < 12 → packet.new ≡ packet.old }
    ensures means { (word : ℕ) (first later : ChecksumPolicy) (p : PacketTree)
        → Answer packet.old word first (Ok p) → later.strict_padding ≡ first.strict_padding
        → Answer packet.new (packet_word packet.new) later
        (Ok (record p { checksum = packet_word packet.new })) }
    // What was begun by `dcsctp_begin`, and got its chunks by `dcsctp_add_..`, reads back.
    ensures reads { 12 ≤ length packet.old → (m : Meaning) (policy : ChecksumPolicy)
        → HoldsPacket packet.old (length packet.old) m → IsWellFormed (kept m)
        → Answer packet.new (packet_word packet.new) policy
        (Ok (record { meaning = kept m; checksum = packet_word packet.new })) }
    // The same where chunks were added by their bytes, or got a list: as what these read as.
    ensures reads_as { 12 ≤ length packet.old → (m : Meaning) (us : List ChunkTree)
        → (policy : ChecksumPolicy) → HoldsPacket packet.old (length packet.old) m
        → m.chunks ≢ [] → ReadAs policy.strict_padding m.chunks us
        → Answer packet.new (packet_word packet.new) policy
        (Ok (record { meaning = record m { chunks = us }; checksum = packet_word packet.new })) }
{
    if packet.len() < COMMON_HEADER_SIZE {
        return BAD_PLACE;
    }
    let word = packet_word(packet);
    set_checksum_word(packet, word);
    OK
}

/// Writes the verification tag (RFC 9260 section 3.1) into bytes 4 to 7 of a packet; all other
/// bytes stay. Returns 0; `BAD_PLACE`, and changes nothing, for fewer than 12 bytes.
///
/// What the bytes are stays too, under each word and policy: a packet, which now has this tag, or
/// their fault. A CRC32c is computed over the tag as well: `dcsctp_seal` writes it anew.
#[unsafe(no_mangle)]
pub extern "C" fn dcsctp_set_tag(packet: &mut [u8], verification_tag: u32) -> u32
    ensures there { result ≡ (if nat_le 12 (length packet.old) then 0 else bad_place_code) }
    ensures bytes { 12 ≤ length packet.old
        → packet.new ≡ put packet.old 4 (to_be_bytes w32 verification_tag) }
    ensures stays { length packet.old < 12 → packet.new ≡ packet.old }
    ensures means { (word : ℕ) (policy : ChecksumPolicy) (p : PacketTree)
        → Answer packet.old word policy (Ok p) → Answer packet.new word policy
        (Ok (record p { meaning = record p.meaning { tag = verification_tag } })) }
    ensures faulty { (word : ℕ) (policy : ChecksumPolicy) (e : PacketFault)
        → Answer packet.old word policy (Err e) → Answer packet.new word policy (Err e) }
{
    if packet.len() < COMMON_HEADER_SIZE {
        return BAD_PLACE;
    }
    set_verification_tag(packet, verification_tag);
    OK
}
