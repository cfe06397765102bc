//! Whole packets: checked, located, canonical, printed, reported.

ghost use Rattle.std.specs.Prelude.{◌≡◌, ◌≢◌, ◌≤◌, ◌<◌, ◌∷◌, ◌↔◌, ⊤, ℕ, List, [], Ok, Err, length, take, drop};
ghost use Rattle.dcsctp_crc32c.specs.Checksum.{packet_word};
ghost use Rattle.dcsctp_wire.specs.{Canonical.{canonical, Fits, IsCanonicalOf}, Packet.{PacketTree, PacketFault, Placed, Answer, IsPacket, packet_view}};
ghost use Rattle.dcsctp_borrowed.specs.PacketRef.{RefersTo};
ghost use Rattle.dcsctp_c.specs.{Code.{policy_of, no_memory_code, no_room_code, IsAnswerCode}, Output.{IsCanonical, IsText, IsAnyText, Writes, WritesPacket}};

use crate::codes::{NO_MEMORY, NO_ROOM, OK, TOO_LONG, code_of};
use crate::structs::DcsctpPolicy;
use dcsctp_borrowed::canonical::{CanonicalError, canonical_size, write_canonical};
use dcsctp_borrowed::packet_ref::SctpPacketRef;
use dcsctp_crc32c::packet_word;
use dcsctp_report::PacketReport;
use dcsctp_wire::api::ZeroChecksumAlternateErrorDetectionMethod;
use dcsctp_wire::packet::sctp_packet::{ChecksumPolicy, SctpPacket};
use std::alloc::Global;
use std::fmt;
use std::fmt::Write as _;

/// Returns the library's policy.
pub(crate) fn checksum_policy(policy: &DcsctpPolicy) -> ChecksumPolicy
    ensures { result ≡ policy_of policy.now }
{
    ChecksumPolicy {
        disable_checksum_verification: policy.any_checksum,
        zero_checksum_alternate_error_detection_method: ZeroChecksumAlternateErrorDetectionMethod(
            if policy.zero_checksum { 1 } else { 0 },
        ),
        strict_padding: policy.strict_padding,
    }
}

/// Returns 0 for a packet, or the code of its first fault. Does not allocate.
#[unsafe(no_mangle)]
pub extern "C" fn dcsctp_check(bytes: &[u8], word: u32, policy: &DcsctpPolicy) -> u32
    ensures { IsAnswerCode bytes.now word (policy_of policy.now) result }
{
    match SctpPacket::check(bytes, word, &checksum_policy(policy)) {
        Ok(_) => OK,
        Err(error) => code_of(error),
    }
}

/// Returns what `dcsctp_check` returns, and writes the offset of the first fault in bytes; the
/// length of the bytes where there is none. Does not allocate.
#[unsafe(no_mangle)]
pub extern "C" fn dcsctp_first_fault(
    bytes: &[u8],
    word: u32,
    policy: &DcsctpPolicy,
    offset: &mut usize,
) -> u32
    ensures code { IsAnswerCode bytes.now word (policy_of policy.now) result }
    ensures none { IsPacket bytes.now word (policy_of policy.now) → offset.new ≡ length bytes.now }
    ensures place { (e : PacketFault) (n : ℕ)
        → Placed bytes.now word (policy_of policy.now) (Err (e, n)) → offset.new ≡ n }
    ensures within { offset.new ≤ length bytes.now }
{
    match SctpPacket::first_fault(bytes, word, &checksum_policy(policy)) {
        None => {
            *offset = bytes.len();
            OK
        }
        Some(found) => {
            *offset = found.offset;
            code_of(found.fault)
        }
    }
}

/// Writes the canonical packet to the front of `output`, and its size in bytes to `size`. Two
/// packets have the same one if and only if they mean the same. Does not allocate.
///
/// Returns 0, or the code of the first fault; `NO_ROOM` where `output` is too small; `TOO_LONG`
/// where the canonical packet would have more than 65,532 bytes. Only 0 changes `output`, and its
/// bytes after the canonical packet stay; `NO_ROOM` writes the size that is needed.
#[unsafe(no_mangle)]
pub extern "C" fn dcsctp_canonical(
    bytes: &[u8],
    word: u32,
    policy: &DcsctpPolicy,
    output: &mut [u8],
    size: &mut usize,
) -> u32
    ensures memory { result ≢ no_memory_code }
    ensures written { WritesPacket IsCanonical bytes.now word (policy_of policy.now)
        (record { bytes = output.old; size = size.old })
        (record { bytes = output.new; size = size.new }) result }
    ensures one { result ≡ 0 → (p : PacketTree)
        → Answer bytes.now word (policy_of policy.now) (Ok p)
        → IsCanonicalOf p.meaning (take size.new output.new) }
{
    match SctpPacketRef::from_bytes(bytes, word, &checksum_policy(policy)) {
        Ok(packet) => put_canonical(&packet, output, size),
        Err(error) => code_of(error),
    }
}

/// Writes the canonical packet, where it fits and has room. Does not allocate.
fn put_canonical(packet: &SctpPacketRef, output: &mut [u8], size: &mut usize) -> u32
    ensures memory { result ≢ no_memory_code }
    ensures writes { (p : PacketTree) → RefersTo packet.now p → Writes (IsCanonical p)
        (record { bytes = output.old; size = size.old })
        (record { bytes = output.new; size = size.new }) result }
    ensures one { result ≡ 0 → (p : PacketTree) → RefersTo packet.now p
        → p.meaning.chunks ≢ [] → IsCanonicalOf p.meaning (take size.new output.new) }
{
    match write_canonical(packet, output) {
        Ok(written) => {
            *size = written;
            OK
        }
        Err(CanonicalError::DoesNotFit) => TOO_LONG,
        Err(CanonicalError::NoRoom) => needs_room(packet, size),
    }
}

/// Writes the size of a canonical packet that has no room.
fn needs_room(packet: &SctpPacketRef, size: &mut usize) -> u32
    ensures code { result ≡ no_room_code }
    ensures size { (p : PacketTree) → RefersTo packet.now p → Fits p.meaning
        → size.new ≡ length (canonical p.meaning) }
{
    match canonical_size(packet) {
        Some(needed) => {
            *size = needed;
            NO_ROOM
        }
        None => NO_ROOM,
    }
}

/// Writes the packet's text to the front of `output`, and its size in bytes to `size`: a line for
/// the header, and one for each chunk, in UTF-8.
///
/// Returns what `dcsctp_canonical` returns, but never `TOO_LONG`, and `NO_MEMORY` where an
/// allocation failed. Changes what that changes.
#[unsafe(no_mangle)]
pub extern "C" fn dcsctp_print(
    alloc: Global,
    bytes: &[u8],
    word: u32,
    policy: &DcsctpPolicy,
    output: &mut [u8],
    size: &mut usize,
) -> u32
    ensures { WritesPacket IsText bytes.now word (policy_of policy.now)
        (record { bytes = output.old; size = size.old })
        (record { bytes = output.new; size = size.new }) result }
{
    match SctpPacket::from_bytes(alloc, bytes, word, &checksum_policy(policy)) {
        Ok(packet) => print(alloc, &packet, output, size),
        Err(error) => code_of(error),
    }
}

/// Writes the packet's text, where it has room.
fn print(alloc: Global, packet: &SctpPacket, output: &mut [u8], size: &mut usize) -> u32
    ensures { Writes (IsText (packet_view packet.now))
        (record { bytes = output.old; size = size.old })
        (record { bytes = output.new; size = size.new }) result }
{
    match format!(in alloc; "{packet}") {
        Ok(text) => write_text(text.as_bytes(), output, size),
        Err(_) => NO_MEMORY,
    }
}

/// Writes all that the packet holds to the front of `output`, in UTF-8, and its size in bytes to
/// `size`: a line for each fact, each ended by a line feed, and each value whole. The checksum
/// field is compared with `word`. Does not allocate.
///
/// Returns what `dcsctp_print` returns, but never `NO_MEMORY`, and changes what that changes. The
/// size is counted before the output is looked at, so it is the same for each room.
#[unsafe(no_mangle)]
pub extern "C" fn dcsctp_report(
    bytes: &[u8],
    word: u32,
    policy: &DcsctpPolicy,
    output: &mut [u8],
    size: &mut usize,
) -> u32
    ensures memory { result ≢ no_memory_code }
    ensures writes { WritesPacket IsAnyText bytes.now word (policy_of policy.now)
        (record { bytes = output.old; size = size.old })
        (record { bytes = output.new; size = size.new }) result }
{
    match SctpPacket::check(bytes, word, &checksum_policy(policy)) {
        Ok(_) => write_report(
            &PacketReport {
                bytes,
                length: bytes.len(),
                word,
                fault: None,
                shows_all: true,
            },
            output,
            size,
        ),
        Err(error) => code_of(error),
    }
}

/// Writes a report, where it has room.
fn write_report(report: &PacketReport, output: &mut [u8], size: &mut usize) -> u32
    ensures memory { result ≢ no_memory_code }
    ensures writes { Writes (λ _. ⊤)
        (record { bytes = output.old; size = size.old })
        (record { bytes = output.new; size = size.new }) result }
{
    let needed = text_size(report);
    *size = needed;
    if output.len() < needed {
        return NO_ROOM;
    }
    let (front, _) = output.split_at_mut(needed);
    fill(front, report);
    OK
}

/// Returns the size of a report in bytes.
fn text_size(report: &PacketReport) -> usize {
    let mut size = TextSize(0);
    let _ = write!(size, "{report}");
    size.0
}

/// Writes a report over an output, from its first byte on; what has no room is left out.
fn fill(output: &mut [u8], report: &PacketReport) {
    let mut text = Text { output, at: 0 };
    let _ = write!(text, "{report}");
}

/// Counts the bytes of a text.
#[derive(Drop)]
struct TextSize(usize);

impl fmt::Write for TextSize {
    fn write_str(&mut self, text: &str) -> fmt::Result {
        self.0 = self.0.saturating_add(text.len());
        Ok(())
    }
}

/// Fills an output from a place on; what has no room is left out.
#[derive(Drop)]
struct Text<'a> {
    output: &'a mut [u8],
    at: usize,
}

impl fmt::Write for Text<'_> {
    fn write_str(&mut self, text: &str) -> fmt::Result {
        let at = self.at.min(self.output.len());
        let rest = &mut self.output[at..];
        let count = text.len().min(rest.len());
        rest[..count].copy_from_slice(&text.as_bytes()[..count]);
        self.at = at + count;
        Ok(())
    }
}

/// Writes a text, where it has room. Does not allocate.
fn write_text(text: &[u8], output: &mut [u8], size: &mut usize) -> u32
    ensures memory { result ≢ no_memory_code }
    ensures writes { Writes (λ form. form ≡ text.now)
        (record { bytes = output.old; size = size.old })
        (record { bytes = output.new; size = size.new }) result }
{
    *size = text.len();
    if text.len() > output.len() {
        return NO_ROOM;
    }
    let (front, _) = output.split_at_mut(text.len());
    front.copy_from_slice(text);
    OK
}

/// Returns the word of a packet: its CRC32c (RFC 9260 section 6.8) as the number that its checksum
/// field has to be, most significant byte first. The field itself doesn't matter. Does not
/// allocate.
#[unsafe(no_mangle)]
pub extern "C" fn dcsctp_word(bytes: &[u8]) -> u32
    ensures value { result ≡ packet_word bytes.now }
    ensures field_apart { (others : List ℕ) → take 8 others ≡ take 8 bytes.now
        → drop 12 others ≡ drop 12 bytes.now → result ≡ packet_word others }
{
    packet_word(bytes)
}
