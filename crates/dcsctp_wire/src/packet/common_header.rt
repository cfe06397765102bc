//! The common header of a packet (RFC 9260 section 3.1).
//!
//! ```txt
//!  0                   1                   2                   3
//!  0 1 2 3 4 5 6 7 8 9 0 1 2 3 4 5 6 7 8 9 0 1 2 3 4 5 6 7 8 9 0 1
//! +-+-+-+-+-+-+-+-+-+-+-+-+-+-+-+-+-+-+-+-+-+-+-+-+-+-+-+-+-+-+-+-+
//! |          source port          |       destination port        |
//! +-+-+-+-+-+-+-+-+-+-+-+-+-+-+-+-+-+-+-+-+-+-+-+-+-+-+-+-+-+-+-+-+
//! |                       verification tag                        |
//! +-+-+-+-+-+-+-+-+-+-+-+-+-+-+-+-+-+-+-+-+-+-+-+-+-+-+-+-+-+-+-+-+
//! |                           checksum                            |
//! +-+-+-+-+-+-+-+-+-+-+-+-+-+-+-+-+-+-+-+-+-+-+-+-+-+-+-+-+-+-+-+-+
//! ```

ghost use Rattle.std.specs.Prelude.{◌≡◌, ◌↔◌, ◌≤◌, [], Some, IsSome, IfSome, length};
ghost use Rattle.dcsctp_wire.specs.{Packet.{header_bytes, header_of}, Canonical.{canonical}, PacketText.{header_text}};

use dcsctp_tlv::number::{put_u32, read_u16_be, read_u32_be};
use std::fmt;

/// The size of the common header in bytes.
pub const COMMON_HEADER_SIZE: usize = 12;

/// What comes before the chunks of a packet (RFC 9260 section 3.1).
#[derive(Clone, Copy, Debug)]
pub struct CommonHeader {
    /// The sender's port, as the sender sees it.
    pub source_port: u16,
    /// The port that the packet is for.
    pub destination_port: u16,
    /// The initiate tag that the receiver chose; 0 where the packet holds an INIT.
    pub verification_tag: u32,
    /// The number at bytes 8 to 11, most significant byte first.
    pub checksum: u32,
}

impl CommonHeader {
    /// The offset of the source port in the packet.
    pub const SOURCE_PORT: usize = 0;

    /// The offset of the destination port in the packet.
    pub const DESTINATION_PORT: usize = 2;

    /// The offset of the verification tag in the packet.
    pub const VERIFICATION_TAG: usize = 4;

    /// The offset of the checksum field in the packet.
    pub const CHECKSUM: usize = 8;

    /// Reads the first 12 bytes of a packet; returns `None` of fewer bytes. It looks at nothing
    /// else: neither the packet's size, nor its checksum, nor its chunks. For programs that only
    /// sort packets by port and tag.
    pub fn from_bytes(bytes: &[u8]) -> Option<CommonHeader>
        ensures some { IsSome result ↔ (12 ≤ length bytes.now) }
        ensures header { IfSome result (λ header. header ≡ header_of bytes.now) }
    {
        if bytes.len() < COMMON_HEADER_SIZE {
            return None;
        }
        Some(CommonHeader::read(bytes))
    }

    /// Reads the header of a packet, which has at least 12 bytes.
    #[inline(always)]
    pub fn read(bytes: &[u8]) -> CommonHeader
        requires { 12 ≤ length bytes.now }
        ensures { result ≡ header_of bytes.now }
    {
        CommonHeader {
            source_port: read_u16_be(bytes),
            destination_port: read_u16_be(&bytes[CommonHeader::DESTINATION_PORT..]),
            verification_tag: read_u32_be(&bytes[CommonHeader::VERIFICATION_TAG..]),
            checksum: read_u32_be(&bytes[CommonHeader::CHECKSUM..]),
        }
    }

    /// Returns the header as it is written; with a checksum of 0 it is the canonical packet of no
    /// chunks.
    #[inline(always)]
    #[tactic(auto, unfolding(crate::specs::Canonical::canonical))]
    pub fn bytes(self) -> [u8; COMMON_HEADER_SIZE]
        ensures bytes { result ≡ header_bytes self }
        ensures canonical { self.checksum ≡ 0 → result ≡ canonical (record {
          source = self.source_port;
          destination = self.destination_port;
          tag = self.verification_tag;
          chunks = [];
        }) }
    {
        let mut header = [0; COMMON_HEADER_SIZE];
        // As one number: two side by side are fetched by one wide load, which waits where the
        // packet has only just been stored.
        let ports = self.source_port as u32 * 65536 + self.destination_port as u32;
        put_u32(&mut header, CommonHeader::SOURCE_PORT, ports);
        put_u32(
            &mut header,
            CommonHeader::VERIFICATION_TAG,
            self.verification_tag,
        );
        put_u32(&mut header, CommonHeader::CHECKSUM, self.checksum);
        header
    }
}

impl fmt::Display for CommonHeader {
    ghost output = { λ h. Some (header_text
        h.source_port h.destination_port h.verification_tag h.checksum) };

    fn fmt<W: fmt::Write>(&self, f: &mut fmt::Formatter<W>) -> fmt::Result {
        write!(
            f,
            "source={} destination={} tag={} checksum={}",
            self.source_port, self.destination_port, self.verification_tag, self.checksum
        )
    }
}
