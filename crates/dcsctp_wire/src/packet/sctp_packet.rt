//! The packet: a common header, and chunks.
//!
//! ```txt
//!  0                   1                   2                   3
//!  0 1 2 3 4 5 6 7 8 9 0 1 2 3 4 5 6 7 8 9 0 1 2 3 4 5 6 7 8 9 0 1
//! +-+-+-+-+-+-+-+-+-+-+-+-+-+-+-+-+-+-+-+-+-+-+-+-+-+-+-+-+-+-+-+-+
//! |          source port          |       destination port        |
//! +-+-+-+-+-+-+-+-+-+-+-+-+-+-+-+-+-+-+-+-+-+-+-+-+-+-+-+-+-+-+-+-+
//! |                       verification tag                        |
//! +-+-+-+-+-+-+-+-+-+-+-+-+-+-+-+-+-+-+-+-+-+-+-+-+-+-+-+-+-+-+-+-+
//! |                           checksum                            |
//! +-+-+-+-+-+-+-+-+-+-+-+-+-+-+-+-+-+-+-+-+-+-+-+-+-+-+-+-+-+-+-+-+
//! |                           chunks ..                           |
//! +-+-+-+-+-+-+-+-+-+-+-+-+-+-+-+-+-+-+-+-+-+-+-+-+-+-+-+-+-+-+-+-+
//! ```

ghost use Rattle.std.specs.{Prelude.{◌≡◌, ◌↔◌, ◌≤◌, ◌+◌, ◌-◌, ◌*◌, ◌/◌, ℕ, [], false, true, Some, length, replicate, vec_len, vec_capacity, IsTrue, IfOk, IfErr, IsErrOf, All}, List.{AllByRecursion}, Fmt.{WritesOnOk}};
ghost use Rattle.dcsctp_wire.specs.{Chunk.{views, IsTight}, Packet.{Answer, Placed, IsPacket, IsAccepted, meaning_view, packet_view, packet_reading, packet_checking}, Account.{KeepsTexts, KeepsSize, HasOwnTexts, node_count}, Place.{packet_counts, packet_locating}, Canonical.{canonical, padded_size, Fits, IsCanonicalOf}, PacketText.{packet_text, next_lines}, WellFormed.{IsInWidth, IsWellFormed}, declared.packet.sctp_packet.ChecksumPolicy.{ChecksumPolicy}, declared.packet.sctp_packet.PacketParseError.TheVariants.{FailedParseChunk}};
ghost use Rattle.dcsctp_tlv.specs.{Reading.{Answers, Exactly, Counted}, declared.error.ChunkParseError.TheVariants.{OutOfMemory}};

pub use crate::packet::builder::SctpPacketBuilder;
use crate::packet::chunk::Chunk;
pub use crate::packet::common_header::{COMMON_HEADER_SIZE, CommonHeader};
pub use crate::packet::first_fault::FirstFault;
use dcsctp_tlv::copy::zeros;
use dcsctp_tlv::error::ChunkParseError;
use dcsctp_tlv::list::{encoded_list_size, list_size, put_list};
use dcsctp_tlv::number::{read_u32_be, round_up_to_4};
use dcsctp_tlv::reader::{Counts, list_build, list_check};
use dcsctp_tlv::widths::are_in_width;
use dcsctp_types::api::{
    ZERO_CHECKSUM_ALTERNATE_ERROR_DETECTION_METHOD_NONE, ZeroChecksumAlternateErrorDetectionMethod,
};
use std::alloc::{AllocError, Global};
use std::fmt;
use thiserror::Error;

/// The offset of the checksum field.
const CHECKSUM_OFFSET: usize = CommonHeader::CHECKSUM;

/// The fewest bytes of a packet: the common header and one chunk without value.
const MIN_PACKET_SIZE: usize = 16;

/// The most bytes of a packet.
pub(crate) const MAX_PACKET_SIZE: usize = 65535;

/// The most bytes of a canonical packet, whose size is a multiple of 4.
const MAX_CANONICAL_SIZE: usize = 65532;

/// Why a packet was refused.
#[derive(Debug, Drop, PartialEq, Eq, Error)]
pub enum PacketParseError {
    /// It has fewer than 16 bytes, or more than 65,535.
    #[error("Invalid packet size")]
    InvalidPacketSize,
    /// The policy doesn't accept its checksum field.
    #[error("Invalid packet checksum")]
    InvalidChecksum,
    /// Never returned; kept so that a `match` that was written for dcsctp compiles.
    #[error("Invalid chunk size")]
    InvalidChunkSize,
    /// The first fault of the chunks; or memory ran out.
    #[error("Failed to parse chunk")]
    FailedParseChunk(ChunkParseError),
}

impl From<ChunkParseError> for PacketParseError {
    ghost from_gives = { λ e f. f ≡ FailedParseChunk e };

    fn from(e: ChunkParseError) -> PacketParseError {
        PacketParseError::FailedParseChunk(e)
    }
}

impl From<AllocError> for PacketParseError {
    ghost from_gives = { λ e f. f ≡ FailedParseChunk OutOfMemory };

    fn from(_: AllocError) -> PacketParseError {
        PacketParseError::FailedParseChunk(ChunkParseError::OutOfMemory)
    }
}

/// A packet (RFC 9260 section 3).
#[derive(Debug, Drop)]
pub struct SctpPacket {
    /// In their order in the packet; a packet that was read has at least one.
    pub chunks: Vec<Chunk>,
    /// The ports, the tag and the checksum field before them.
    pub common_header: CommonHeader,
}

/// Which checksum fields are accepted, and whether padding is looked at.
#[derive(Clone, Copy, Debug)]
pub struct ChecksumPolicy {
    /// Every field is.
    pub disable_checksum_verification: bool,
    /// Where this isn't NONE, a field of zero is (RFC 9653).
    pub zero_checksum_alternate_error_detection_method: ZeroChecksumAlternateErrorDetectionMethod,
    /// Padding is looked at, which a receiver ignores (RFC 9260 section 3.2): every byte of it is
    /// zero, that of chunks, parameters and error causes; and the last chunk lacks none. The last
    /// parameter or cause of a list may lack some or all of its own.
    pub strict_padding: bool,
}

impl ChecksumPolicy {
    /// Every checksum field is accepted, and any padding: for packets whose checksum was verified
    /// already, or doesn't matter. (`default()` accepts the expected checksum alone.)
    pub const ANY_CHECKSUM: ChecksumPolicy = ChecksumPolicy {
        disable_checksum_verification: true,
        zero_checksum_alternate_error_detection_method: ZERO_CHECKSUM_ALTERNATE_ERROR_DETECTION_METHOD_NONE,
        strict_padding: false,
    };

    /// Returns the policy with the same checksums that also looks at padding.
    pub fn strict(self) -> ChecksumPolicy
        ensures disable { result.disable_checksum_verification
            ≡ self.disable_checksum_verification }
        ensures method { result.zero_checksum_alternate_error_detection_method
            ≡ self.zero_checksum_alternate_error_detection_method }
        ensures strict { result.strict_padding ≡ true }
    {
        ChecksumPolicy {
            strict_padding: true,
            ..self
        }
    }
}

impl Default for ChecksumPolicy {
    ghost is_default = { λ p. (p.disable_checksum_verification ≡ false)
        × (p.zero_checksum_alternate_error_detection_method.0 ≡ 0)
        × (p.strict_padding ≡ false) };

    /// Returns the policy that accepts only the expected checksum, and any padding.
    fn default() -> ChecksumPolicy {
        ChecksumPolicy {
            disable_checksum_verification: false,
            zero_checksum_alternate_error_detection_method: ZERO_CHECKSUM_ALTERNATE_ERROR_DETECTION_METHOD_NONE,
            strict_padding: false,
        }
    }
}

/// Returns whether the policy accepts the checksum field if `word` is expected.
fn accepts(policy: &ChecksumPolicy, field: u32, word: u32) -> bool
    ensures { IsTrue result ↔ IsAccepted policy.now field word }
{
    policy.disable_checksum_verification
        || (policy.zero_checksum_alternate_error_detection_method.0 != 0 && field == 0)
        || field == word
}

impl SctpPacket {
    /// Reads a packet. `checksum` is the number whose big-endian bytes are expected at bytes 8
    /// to 11: of a CRC32c, which is there least significant byte first, `swap_bytes()`.
    ///
    /// Want of memory aside, for every byte list, checksum word and policy, `from_bytes` answers
    /// the one packet that the grammar gives these bytes, or the fault of the first offending
    /// place; where canonical packets fit, accepted inputs mean the same exactly if these are equal
    /// bytes, and a canonical packet reads back under a policy that accepts its checksum.
    /// (`canonical_bytes` has the second half. Nothing is said of whether the word is a checksum.)
    ///
    /// `InvalidPacketSize` unless there are 16 to 65,535 bytes; then `InvalidChecksum` unless the
    /// policy accepts the field; then `FailedParseChunk` with the first fault of the chunks from
    /// the left. Where there is no fault, memory is taken, each list at once, and
    /// `FailedParseChunk` with `OutOfMemory` is returned where it runs out.
    ///
    /// Padding isn't looked at, unless the policy is strict. Then `InvalidPadding` is the fault of
    /// a chunk, a parameter or an error cause that has a meaning, and padding that isn't accepted;
    /// what a strict policy accepts, the lenient one accepts with the same packet.
    ///
    /// A packet of n bytes has at most (n - 12) / 4 chunks, parameters and error causes together,
    /// each of at most 64 bytes in memory. The lists have room for their items alone; and bytes,
    /// numbers and texts take at most the 6 (n - 12) bytes that all chunks are written in again.
    /// (The factor is 6, and not 1, since a text that isn't UTF-8 is replaced by a fixed one of up
    /// to 38 bytes; only ABORT and ERROR have texts. A skipped stream of four or eight bytes takes
    /// 12 in memory.)
    pub fn from_bytes(
        alloc: Global,
        bytes: &[u8],
        checksum: u32,
        policy: &ChecksumPolicy,
    ) -> Result<SctpPacket, PacketParseError>
        ensures answer { Exactly packet_reading packet_view
            (Answer bytes.now checksum policy.now) result }
        ensures formed { IfOk result (λ p. IsWellFormed (meaning_view p)) }

        // Where no text of an error cause is replaced, the packet is as large as the input. None is
        // if each text that was read is its own: if there is none, for example.
        ensures size { KeepsTexts bytes.now
            → IfOk result (λ p. KeepsSize bytes.now (meaning_view p)) }
        ensures texts { IfOk result (λ p. AllByRecursion HasOwnTexts (meaning_view p).chunks
            → KeepsTexts bytes.now) }

        // Chunks, parameters and causes together.
        ensures nodes { IfOk result (λ p. node_count
            (meaning_view p) ≤ (length bytes.now - 12) / 4) }

        // A fault is reported wherever there is one, and `OutOfMemory` only where there is none.
        ensures memory { IsErrOf result (FailedParseChunk OutOfMemory)
            → IsPacket bytes.now checksum policy.now }

        // The memory for each list is taken at once, and none of it is to spare.
        ensures reserved { IfOk result (λ p. vec_capacity p.chunks ≡ vec_len p.chunks) }
        ensures tight { IfOk result (λ p. All IsTight p.chunks.items) }

        // Written again, the chunks take at most six times their bytes, whatever these are.
        ensures bound { IfOk result (λ p. padded_size (meaning_view p).chunks
            ≤ 6 * (length bytes.now - 12)) }
    {
        read_packet(alloc, bytes, checksum, policy)
    }

    /// Counts the parts of a packet: its chunks, and the parameters and error causes in them; or
    /// returns its fault. Does not allocate.
    ///
    /// Returns the number if and only if the grammar gives these bytes a packet, and the same
    /// faults as `from_bytes` if and only if this reports them. `OutOfMemory` is never returned.
    pub fn check(
        bytes: &[u8],
        checksum: u32,
        policy: &ChecksumPolicy,
    ) -> Result<usize, PacketParseError>
        ensures answer { Exactly packet_checking (λ n. n)
            (Counted (λ p. node_count p.meaning) (Answer bytes.now checksum policy.now)) result }
        ensures few { IfOk result (λ n. n ≤ (length bytes.now - 12) / 4) }
        ensures memory { ¬ IsErrOf result (FailedParseChunk OutOfMemory) }
    {
        let counts = check_packet(bytes, checksum, policy)?;
        Ok(counts.parts)
    }

    /// Returns whether the canonical packet can be written: each chunk can be, and it has at most
    /// 65,532 bytes.
    pub fn fits(&self) -> bool
        ensures { IsTrue result ↔ Fits (meaning_view self.now) }
    {
        match encoded_list_size(&self.chunks) {
            Some(size) => round_up_to_4(size) <= MAX_CANONICAL_SIZE - COMMON_HEADER_SIZE,
            None => false,
        }
    }

    /// Returns the canonical packet: the ports and the tag, a checksum of 0, and each chunk with
    /// zeros up to a multiple of 4. `self.common_header.checksum` has no part in it.
    ///
    /// If the packet is well-formed and has a chunk, these bytes read back under each word and
    /// policy that accept a field of 0, and two such packets have equal bytes if and only if they
    /// mean the same (`laws::canonical_one`). Refused only if memory runs out.
    pub fn canonical_bytes(&self, alloc: Global) -> Result<Vec<u8>, AllocError>
        requires { Fits (meaning_view self.now) }
        ensures bytes { IfOk result (λ bytes. bytes.items ≡ canonical (meaning_view self.now)) }
        ensures tight { IfOk result (λ bytes. vec_capacity bytes ≡ vec_len bytes) }
        ensures reads_back { IsWellFormed (meaning_view self.now)
            → (word : ℕ) (policy : ChecksumPolicy) → IsAccepted policy 0 word
            → IfOk result (λ bytes. Answer bytes.items word policy
            (Ok (record { meaning = meaning_view self.now; checksum = 0 }))) }

        ensures one { IsWellFormed (meaning_view self.now)
            → IfOk result (λ bytes. IsCanonicalOf (meaning_view self.now) bytes.items) }
    {
        has_widths(self);
        canonical_of(self, alloc)
    }

    /// Returns how many bytes the canonical packet has: 12 of its header, and the chunks with their
    /// padding.
    pub fn canonical_size(&self) -> usize
        requires { Fits (meaning_view self.now) }
        ensures { result ≡ length (canonical (meaning_view self.now)) }
    {
        let body_size = round_up_to_4(list_size(&self.chunks));
        COMMON_HEADER_SIZE + body_size
    }

    /// Writes the canonical packet, which `canonical_bytes` returns, over as many bytes as it has
    /// (`canonical_size`). Does not allocate.
    pub fn write_canonical(&self, output: &mut [u8])
        requires fits { Fits (meaning_view self.now) }
        requires size { length output.old ≡ length (canonical (meaning_view self.now)) }
        ensures { output.new ≡ canonical (meaning_view self.now) }
    {
        output.fill(0);
        write_over_zeros(self, output);
    }
}

/// The header's line, and a line for each chunk; no line break comes last.
impl fmt::Display for SctpPacket {
    ghost output = { λ p. Some (packet_text (packet_view p)) };

    fn fmt<W: fmt::Write>(&self, f: &mut fmt::Formatter<W>) -> fmt::Result {
        self.common_header.fmt(f)?;
        write_lines(&self.chunks, f)
    }
}

/// Prints each chunk on a line of its own, after a line break.
fn write_lines<W: fmt::Write>(chunks: &[Chunk], f: &mut fmt::Formatter<W>) -> fmt::Result
    ensures { WritesOnOk W.write_str_gives f.old result (next_lines (views chunks.now)) f.new }
{
    for chunk in chunks {
        write!(f, "\n{chunk}")?;
    }
    Ok(())
}

/// Proves that every number of a packet lies in its field's width, and every text is UTF-8, by
/// their types. Does nothing.
pub fn has_widths(packet: &SctpPacket)
    ensures { IsInWidth (meaning_view packet.now) }
{
    let header = &packet.common_header;
    let _source_port = header.source_port;
    let _destination_port = header.destination_port;
    let _verification_tag = header.verification_tag;
    are_in_width(&packet.chunks);
}

/// Counts the chunks, and all parts; or returns the first fault with its offset. Shared by `check`,
/// `first_fault` and `from_bytes`; proves only that this is the grammar's answer.
// A part of its callers, also where a program has more than one.
#[inline(always)]
pub(crate) fn check_packet(
    bytes: &[u8],
    checksum: u32,
    policy: &ChecksumPolicy,
) -> Result<Counts, FirstFault>
    ensures found { Answers packet_locating (λ n. n)
        (Counted packet_counts (Placed bytes.now checksum policy.now)) result }
    ensures within { IfErr result (λ found. found.offset ≤ length bytes.now) }
{
    if bytes.len() < MIN_PACKET_SIZE || bytes.len() > MAX_PACKET_SIZE {
        return Err(FirstFault {
            fault: PacketParseError::InvalidPacketSize,
            offset: bytes.len().min(MAX_PACKET_SIZE),
        });
    }
    if !accepts(policy, read_u32_be(&bytes[CHECKSUM_OFFSET..]), checksum) {
        return Err(FirstFault {
            fault: PacketParseError::InvalidChecksum,
            offset: CHECKSUM_OFFSET,
        });
    }
    match list_check::<Chunk>(&bytes[COMMON_HEADER_SIZE..], policy.strict_padding) {
        Ok(counts) => Ok(counts),
        Err(found) => Err(FirstFault {
            fault: PacketParseError::FailedParseChunk(found.fault),
            offset: COMMON_HEADER_SIZE + found.offset,
        }),
    }
}

/// Reads a packet: what it returns, and no law of it.
fn read_packet(
    alloc: Global,
    bytes: &[u8],
    checksum: u32,
    policy: &ChecksumPolicy,
) -> Result<SctpPacket, PacketParseError>
    ensures answer { Answers packet_reading packet_view
        (Answer bytes.now checksum policy.now) result }
    ensures memory { IsErrOf result (FailedParseChunk OutOfMemory)
        → IsPacket bytes.now checksum policy.now }
    ensures reserved { IfOk result (λ p. vec_capacity p.chunks ≡ vec_len p.chunks) }
    ensures tight { IfOk result (λ p. All IsTight p.chunks.items) }
{
    let counts = check_packet(bytes, checksum, policy)?;
    let chunks = list_build(alloc, &bytes[COMMON_HEADER_SIZE..], counts.items)?;
    Ok(SctpPacket {
        common_header: CommonHeader::read(bytes),
        chunks,
    })
}

/// Returns the canonical packet. The contract says what it is, and no law of it.
fn canonical_of(packet: &SctpPacket, alloc: Global) -> Result<Vec<u8>, AllocError>
    requires { Fits (meaning_view packet.now) }
    ensures bytes { IfOk result (λ bytes. bytes.items ≡ canonical (meaning_view packet.now)) }
    ensures tight { IfOk result (λ bytes. vec_capacity bytes ≡ vec_len bytes) }
{
    let mut bytes = zeros(alloc, packet.canonical_size())?;
    write_over_zeros(packet, &mut bytes);
    Ok(bytes)
}

/// Writes the canonical packet over zeros.
fn write_over_zeros(packet: &SctpPacket, output: &mut [u8])
    requires fits { Fits (meaning_view packet.now) }
    requires zeros { output.old ≡ replicate (12 + padded_size (views packet.now.chunks.items)) 0 }
    ensures { output.new ≡ canonical (meaning_view packet.now) }
{
    let (header, body) = output.split_at_mut(COMMON_HEADER_SIZE);
    let written = CommonHeader {
        checksum: 0,
        ..packet.common_header
    };
    header.copy_from_slice(&written.bytes());
    put_list(&packet.chunks, body);
}
