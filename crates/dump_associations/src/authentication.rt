//! AUTH in the packets of an association (RFC 4895).

ghost use Rattle.std.specs.Prelude.{◌≤◌, ◌↔◌, ◌++◌, IsTrue, length, option_map};
ghost use Rattle.dcsctp_borrowed.specs.Part.{part_of};
ghost use Rattle.dcsctp_receive.specs.Auth.{IsAuthenticated};
ghost use Rattle.dcsctp_receive.specs.SharedKey.{ComesFirst};
ghost use Rattle.dump_associations.specs.Authentication.{FirstAuth, IsFound, IsJudged, IsRightBy, IsVerdict, IsVerdictIn, key_for, tag_of, with_tag};

pub mod key_vector;
pub mod key_vectors;
pub mod report;

use crate::authentication::key_vector::{KeyVector, MOST_VECTOR};
use crate::authentication::key_vectors::KeyVectors;
use dcsctp_borrowed::part::{Items, Part};
use dcsctp_receive::auth::{AUTH_CHUNK_SIZE, is_listed, verify};
use dcsctp_receive::chunk_type::AUTH;
use dcsctp_receive::hmac::HashFunction;
use dcsctp_receive::shared_key::write_shared_key;
use dcsctp_wire::packet::{read_u16_be, read_u32_be};
use dump_packet::{MOST_KEY, PairKey, SeenPacket, increase};

/// What is found of an AUTH chunk.
#[derive(Clone, Copy)]
pub enum AuthVerdict {
    /// Its HMAC is that of the association shared key.
    Right,
    /// Its HMAC is another.
    Wrong,
    /// That isn't known: the handshake or the packet wasn't captured whole, the key that it names
    /// wasn't given, or its HMAC Identifier is neither that of SHA-1 nor that of SHA-256.
    Unknown,
}

impl AuthVerdict {
    /// Returns its name.
    pub fn name(self) -> &'static str {
        match self {
            AuthVerdict::Right => "right",
            AuthVerdict::Wrong => "wrong",
            AuthVerdict::Unknown => "unknown",
        }
    }
}

/// What is found of AUTH in a packet.
#[derive(Clone, Copy)]
pub struct Authentication {
    /// What is found of its first AUTH chunk, if it has one; a packet has no other (RFC 4895
    /// section 5.1).
    pub verdict: Option<AuthVerdict>,
    /// The type of its first chunk that the receiver's Chunk List has, and that comes after no AUTH
    /// chunk: the receiver discards it (RFC 4895 section 6.3).
    pub unauthenticated: Option<u8>,
}

impl Authentication {
    /// It has no AUTH chunk, and needs none.
    pub const NOTHING: Authentication = Authentication {
        verdict: None,
        unauthenticated: None,
    };

    /// Returns what is found in a packet of which no association is known.
    pub fn of_none(packet: &SeenPacket<'_>) -> Authentication {
        for chunk in packet.chunks() {
            if chunk.first == AUTH {
                return Authentication {
                    verdict: Some(AuthVerdict::Unknown),
                    unauthenticated: None,
                };
            }
        }
        Authentication::NOTHING
    }

    /// Returns what is found in a packet that an end with these key vectors sent to one with those.
    pub fn of(packet: &SeenPacket<'_>, sender: &KeyVectors, receiver: &KeyVectors) -> Authentication
        ensures { 8 ≤ length packet.now.found.packet.now
            → IsVerdictIn packet.now sender.now (with_tag (tag_of packet.now) receiver.now)
            result.verdict }
    {
        if packet.found.packet.len() < 8 {
            return Authentication::NOTHING;
        }
        let theirs = receiver.with_tag(read_u32_be(&packet.found.packet[4..]));
        Authentication {
            verdict: verdict_in(packet, sender, theirs),
            unauthenticated: first_listed(packet.chunks(), list_for(sender, theirs)),
        }
    }
}

/// Returns the Chunk List that the sender has to keep to: that of the receiver, if both use AUTH.
fn list_for<'a>(sender: &KeyVectors, theirs: Option<&'a KeyVector>) -> &'a [u8] {
    match theirs {
        Some(theirs) if sender.last.is_some() => theirs.chunk_list(),
        _ => &[],
    }
}

/// Returns the type of the first chunk that is in the list, of those before any AUTH chunk.
fn first_listed(chunks: Items<'_>, list: &[u8]) -> Option<u8> {
    for chunk in chunks {
        if chunk.first == AUTH {
            return None;
        }
        if is_listed(list, chunk.first) {
            return Some(chunk.first);
        }
    }
    None
}

/// Returns what begins with the first AUTH chunk.
fn first_auth<'a>(chunks: Part<'a>) -> Option<Part<'a>>
    ensures { FirstAuth (part_of chunks.entry) (option_map part_of result) }
{
    let mut rest = chunks;
    while let Some(chunk) = rest.item() {
        if chunk.first == AUTH {
            return Some(rest);
        }
        rest = rest.after(chunk.padded);
    }
    None
}

/// Returns what is found of the first AUTH chunk, if there is one.
fn verdict_in(
    packet: &SeenPacket<'_>,
    sender: &KeyVectors,
    theirs: Option<&KeyVector>,
) -> Option<AuthVerdict>
    ensures { IsVerdictIn packet.now sender.now (option_map (λ v. v.now) theirs.entry) result }
{
    match first_auth(packet.chunks().rest()) {
        Some(auth) => Some(verdict(packet, auth.bytes, sender, theirs)),
        None => None,
    }
}

/// Returns what is found of the AUTH chunk with which these bytes begin, those up to the end of the
/// packet.
fn verdict(
    packet: &SeenPacket<'_>,
    bytes: &[u8],
    sender: &KeyVectors,
    theirs: Option<&KeyVector>,
) -> AuthVerdict
    ensures { IsVerdict (key_for packet.now) sender.now (option_map (λ v. v.now) theirs.entry)
        bytes.now result }
{
    match (&packet.key, theirs) {
        (Some(key), Some(theirs)) if packet.found.packet.len() >= packet.found.length => {
            judge(key, sender, theirs, bytes)
        }
        _ => AuthVerdict::Unknown,
    }
}

/// Returns what is found of the AUTH chunk at the front under this key. It is right if it is under
/// one of the sender's key vectors, and else wrong if they are all known.
fn judge(key: &PairKey, sender: &KeyVectors, theirs: &KeyVector, bytes: &[u8]) -> AuthVerdict
    ensures { IsFound key.now sender.now theirs.now bytes.now result }
{
    if !is_judged(key.identifier, bytes) {
        return AuthVerdict::Unknown;
    }
    if is_right_by(key, &sender.last, theirs, bytes)
        || is_right_by(key, &sender.before, theirs, bytes)
    {
        return AuthVerdict::Right;
    }
    if sender.has_others || sender.last.is_none() {
        return AuthVerdict::Unknown;
    }
    AuthVerdict::Wrong
}

/// Returns whether the AUTH chunk at the front names this key, and the HMAC of SHA-1 or SHA-256.
fn is_judged(key_identifier: u16, bytes: &[u8]) -> bool
    ensures { IsTrue result ↔ IsJudged key_identifier bytes.now }
{
    if bytes.len() < AUTH_CHUNK_SIZE {
        return false;
    }
    let hmac_identifier = read_u16_be(&bytes[6..]);
    read_u16_be(&bytes[4..]) == key_identifier
        && (hmac_identifier == HashFunction::Sha1.hmac_identifier()
            || hmac_identifier == HashFunction::Sha256.hmac_identifier())
}

/// Returns whether the AUTH chunk at the front is right under this key vector of its sender, if it
/// is one.
fn is_right_by(key: &PairKey, own: &Option<KeyVector>, theirs: &KeyVector, bytes: &[u8]) -> bool
    ensures { IsTrue result ↔ IsRightBy key.now own.now theirs.now bytes.now }
{
    match own {
        Some(own) => is_right(key.as_bytes(), own.as_bytes(), theirs.as_bytes(), bytes),
        None => false,
    }
}

/// Returns whether the HMAC of the AUTH chunk at the front is right under the association shared
/// key of this endpoint pair shared key and these key vectors (RFC 4895 sections 6.1 and 6.3). The
/// bytes are those up to the end of the packet.
fn is_right(pair_key: &[u8], one: &[u8], other: &[u8], bytes: &[u8]) -> bool
    requires pair_key { length pair_key.now ≤ MOST_KEY }
    requires one { length one.now ≤ MOST_VECTOR }
    requires other { length other.now ≤ MOST_VECTOR }
    ensures one_first { ComesFirst one.now other.now → (IsTrue result
        ↔ IsAuthenticated (pair_key.now ++ (one.now ++ other.now)) bytes.now) }
    ensures other_first { ComesFirst other.now one.now → (IsTrue result
        ↔ IsAuthenticated (pair_key.now ++ (other.now ++ one.now)) bytes.now) }
{
    let mut buffer = [0; MOST_KEY + 2 * MOST_VECTOR];
    match write_shared_key(&mut buffer, pair_key, one, other) {
        Some(size) => verify(&buffer[..size], bytes).is_right(),
        None => false,
    }
}

/// How often something was found of AUTH, up to 2^64 - 1 each.
#[derive(Clone, Copy)]
pub struct AuthenticationCounts {
    /// Packets whose AUTH is right.
    pub right: u64,
    /// Packets whose AUTH is wrong.
    pub wrong: u64,
    /// Packets of whose AUTH that isn't known.
    pub unknown: u64,
    /// Packets with a chunk that comes after no AUTH, and is discarded for that.
    pub unauthenticated: u64,
}

impl AuthenticationCounts {
    /// Returns counts of nothing.
    pub fn new() -> AuthenticationCounts {
        AuthenticationCounts {
            right: 0,
            wrong: 0,
            unknown: 0,
            unauthenticated: 0,
        }
    }

    /// Counts what is found in a packet.
    pub fn count(&mut self, found: Authentication) {
        match found.verdict {
            Some(AuthVerdict::Right) => increase(&mut self.right),
            Some(AuthVerdict::Wrong) => increase(&mut self.wrong),
            Some(AuthVerdict::Unknown) => increase(&mut self.unknown),
            None => {}
        }
        if found.unauthenticated.is_some() {
            increase(&mut self.unauthenticated);
        }
    }

    /// Returns whether something was found.
    pub fn are_some(&self) -> bool {
        self.right > 0 || self.wrong > 0 || self.unknown > 0 || self.unauthenticated > 0
    }
}
