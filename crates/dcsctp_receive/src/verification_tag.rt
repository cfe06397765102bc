//! Whether a packet's Verification Tag is right for an association.

ghost use Rattle.std.specs.Prelude.{◌≡◌};
ghost use Rattle.dcsctp_borrowed.specs.Part.{part_of};
ghost use Rattle.dcsctp_receive.specs.Chunks.{items_of};
ghost use Rattle.dcsctp_receive.specs.VerificationTag.{is_known_as, by_t_bit, verdict_of, verdict};

use crate::items::{after_auth, begins_with, chunk_part, contains, is_only, t_bit};
use dcsctp_borrowed::part::Part;
use dcsctp_wire::packet::sctp_packet::CommonHeader;
use dcsctp_wire::packet::{
    abort_chunk, cookie_echo_chunk, init_chunk, shutdown_ack_chunk, shutdown_complete_chunk,
};

/// What a receiver knows of an association before it looks at a packet's tag.
#[derive(Clone, Copy, Debug)]
pub struct Association {
    /// The receiver's own tag: the Initiate Tag of the INIT or INIT ACK that it sent.
    pub own: u32,
    /// The peer's tag: the Initiate Tag of the INIT or INIT ACK that it received, if it has
    /// received one.
    pub peer: Option<u32>,
    /// Whether the receiver is in the state COOKIE-WAIT or COOKIE-ECHOED.
    pub awaits_cookie: bool,
}

/// What a receiver does with a packet, by its Verification Tag.
#[derive(Clone, Copy, Debug)]
pub enum TagVerdict {
    /// The tag is right: processes the packet.
    Accept,
    /// Follows the procedures of RFC 9260 section 5: the packet is an INIT alone under the tag 0,
    /// or begins with COOKIE ECHO, perhaps after one AUTH, whose tag these procedures look at.
    Establish,
    /// Treats the packet as out of the blue (RFC 9260 section 8.4).
    OutOfTheBlue,
    /// Silently discards the packet.
    Discard,
}

/// Returns what is done with a packet, by its Verification Tag, for this association (RFC 9260
/// sections 8.5 and 8.5.1). Bytes without a common header are discarded.
///
/// The first of these rules that applies decides, wherever the chunks lie: under the tag 0 all but an
/// INIT alone is discarded; under another, a packet with INIT, also under the right tag; ABORT, then
/// SHUTDOWN COMPLETE, go by the T bit; then come COOKIE ECHO, SHUTDOWN ACK and the tag.
///
/// The packet's chunks are looked at by their types and the T bit alone, up to the first whose
/// length is impossible.
pub fn verify_tag(packet: &[u8], association: &Association) -> TagVerdict
    ensures { result ≡ verdict association.now packet.now }
{
    match CommonHeader::from_bytes(packet) {
        Some(header) => verdict_of(association, header.verification_tag, chunk_part(packet)),
        None => TagVerdict::Discard,
    }
}

/// Returns what is done with a packet of this tag and these chunks.
fn verdict_of(association: &Association, tag: u32, chunks: Part<'_>) -> TagVerdict
    ensures { result ≡ verdict_of association.now tag (items_of (part_of chunks.entry)) }
{
    if tag == 0 {
        return if is_only(chunks, init_chunk::CHUNK_TYPE) {
            TagVerdict::Establish
        } else {
            TagVerdict::Discard
        };
    }
    if contains(chunks, init_chunk::CHUNK_TYPE) {
        return TagVerdict::Discard;
    }
    if contains(chunks, abort_chunk::CHUNK_TYPE) {
        return by_t_bit(association, tag, t_bit(chunks, abort_chunk::CHUNK_TYPE));
    }
    if contains(chunks, shutdown_complete_chunk::CHUNK_TYPE) {
        return by_t_bit(
            association,
            tag,
            t_bit(chunks, shutdown_complete_chunk::CHUNK_TYPE),
        );
    }
    if begins_with(after_auth(chunks), cookie_echo_chunk::CHUNK_TYPE) {
        return TagVerdict::Establish;
    }
    if association.awaits_cookie && contains(chunks, shutdown_ack_chunk::CHUNK_TYPE) {
        return TagVerdict::OutOfTheBlue;
    }
    if tag == association.own {
        TagVerdict::Accept
    } else {
        TagVerdict::Discard
    }
}

/// Returns whether the tag is the one that the T bit asks for.
fn by_t_bit(association: &Association, tag: u32, is_set: bool) -> TagVerdict
    ensures { result ≡ by_t_bit association.now tag is_set }
{
    let is_right = if is_set {
        is_known_as(association.peer, tag)
    } else {
        tag == association.own
    };
    if is_right {
        TagVerdict::Accept
    } else {
        TagVerdict::Discard
    }
}

/// Returns whether the peer's tag is known, and is this one.
fn is_known_as(peer: Option<u32>, tag: u32) -> bool
    ensures { result ≡ is_known_as peer tag }
{
    match peer {
        Some(peer) => tag == peer,
        None => false,
    }
}
