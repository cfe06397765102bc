//! Authenticated chunks (RFC 4895): the Chunk List, and the HMAC of an AUTH chunk.

ghost use Rattle.std.specs.{Prelude.{◌≡◌, ◌↔◌, ◌+◌, ◌≤◌, ◌++◌, List, ℕ, Some, None, MatchOption, IsTrue, length, drop, take}};
ghost use Rattle.dcsctp_tlv.specs.Image.{put};
ghost use Rattle.dcsctp_receive.specs.declared.hmac.HashFunction.{HashFunction};
ghost use Rattle.dcsctp_receive.specs.Hmac.{hmac, digest_size, mac_bytes};
ghost use Rattle.dcsctp_receive.specs.Auth.{IsListed, BeginsWithAuth, auth_data, IsSigned, IsAuthenticated, HasUnknownHmac};
ghost use Rattle.dcsctp_receive.specs.declared.auth.AuthVerdict.TheVariants.{Right, UnknownHmac};

use crate::equality::are_equal;
use crate::hmac::{HashFunction, Hmac, Mac};
use dcsctp_tlv::frame::put_bytes;
use dcsctp_tlv::number::read_u16_be;

/// The type of INIT (RFC 9260 section 3.2).
const INIT: u8 = 1;

/// The type of INIT ACK.
const INIT_ACK: u8 = 2;

/// The type of SHUTDOWN COMPLETE.
const SHUTDOWN_COMPLETE: u8 = 14;

/// The type of AUTH (RFC 4895 section 5).
const AUTH: u8 = 15;

/// The bytes of an AUTH chunk before its HMAC (RFC 4895 section 5.1).
pub const AUTH_CHUNK_SIZE: usize = 8;

/// The bytes of the longest HMAC, as they are while it is computed.
const ZEROS: [u8; 32] = [0; 32];

/// Returns whether a chunk of this type has to come after an AUTH chunk, by the types of a Chunk
/// List (RFC 4895 section 3.2): the list has it, and it isn't INIT, INIT ACK, SHUTDOWN COMPLETE or
/// AUTH, which are ignored in a list.
pub fn is_listed(list: &[u8], typ: u8) -> bool
    ensures { IsTrue result ↔ IsListed list.now typ }
{
    typ != INIT && typ != INIT_ACK && typ != SHUTDOWN_COMPLETE && typ != AUTH && list.contains(&typ)
}

/// What an AUTH chunk is found to be (RFC 4895 section 6.3).
#[derive(Clone, Copy, Debug)]
pub enum AuthVerdict {
    /// The HMAC is right. The chunks after it are processed.
    Right,
    /// The HMAC is wrong, or no AUTH chunk is there, or its HMAC hasn't the size that goes with its
    /// HMAC Identifier. AUTH and all chunks after it are silently discarded.
    Wrong,
    /// The HMAC Identifier isn't that of SHA-1 or SHA-256. AUTH and all chunks after it are
    /// discarded, and an ERROR with the cause Unsupported HMAC Identifier (RFC 4895 section 4.1) is
    /// sent.
    UnknownHmac,
}

impl AuthVerdict {
    /// Returns whether the HMAC is right.
    pub fn is_right(self) -> bool
        ensures { IsTrue result ↔ (self ≡ Right) }
    {
        match self {
            AuthVerdict::Right => true,
            AuthVerdict::Wrong | AuthVerdict::UnknownHmac => false,
        }
    }
}

/// Returns whether the HMAC of an AUTH chunk is right under an association shared key (RFC 4895
/// section 6.3). The bytes are those of the packet from the AUTH chunk on, up to its end.
///
/// An identifier that the receiver didn't announce, and that is known here, is the caller's to
/// refuse: it is to be answered as an unknown one.
pub fn verify(key: &[u8], bytes: &[u8]) -> AuthVerdict
    ensures right { (result ≡ Right) ↔ IsAuthenticated key.now bytes.now }
    ensures unknown { (result ≡ UnknownHmac) ↔ HasUnknownHmac bytes.now }
{
    if is_authenticated(key, bytes) {
        AuthVerdict::Right
    } else if has_unknown_hmac(bytes) {
        AuthVerdict::UnknownHmac
    } else {
        AuthVerdict::Wrong
    }
}

/// Returns whether the bytes begin with an AUTH chunk whose HMAC is right.
fn is_authenticated(key: &[u8], bytes: &[u8]) -> bool
    ensures { IsTrue result ↔ IsAuthenticated key.now bytes.now }
{
    let Some(function) = auth_function(bytes) else {
        return false;
    };
    let mac = auth_mac(function, key, bytes);
    are_equal(
        &bytes[AUTH_CHUNK_SIZE..AUTH_CHUNK_SIZE + function.digest_size()],
        mac.as_bytes(),
    )
}

/// Writes the HMAC of an AUTH chunk under an association shared key (RFC 4895 section 6.2) into its
/// HMAC field, whatever that holds. The bytes are those of the packet from the AUTH chunk on, up to
/// its end; all others stay. The packet's checksum is to be written after this.
///
/// Returns whether an AUTH chunk is there, of SHA-1 or SHA-256 by its HMAC Identifier, with a field
/// of the size that goes with it; otherwise nothing is changed.
pub fn sign(key: &[u8], bytes: &mut [u8]) -> bool
    ensures there { IsTrue result
        ↔ ((function : HashFunction) × BeginsWithAuth function bytes.old) }
    ensures field { (function : HashFunction) → BeginsWithAuth function bytes.old
        → bytes.new ≡ put bytes.old 8 (hmac function key.now (auth_data function bytes.old)) }
    ensures verifies { IsTrue result → IsAuthenticated key.now bytes.new }
    ensures unchanged { (IsTrue result → ⊥) → bytes.new ≡ bytes.old }
{
    let Some(function) = auth_function(bytes) else {
        return false;
    };
    let mac = auth_mac(function, key, bytes);
    put_bytes(bytes, AUTH_CHUNK_SIZE, mac.as_bytes());
    true
}

/// Returns whether the bytes begin with an AUTH chunk of this hash function.
fn begins_with_auth(function: HashFunction, bytes: &[u8]) -> bool
    ensures { IsTrue result ↔ BeginsWithAuth function bytes.now }
{
    let size = AUTH_CHUNK_SIZE + function.digest_size();
    if bytes.len() < size {
        return false;
    }
    bytes[0] == AUTH
        && read_u16_be(&bytes[2..]) as usize == size
        && read_u16_be(&bytes[6..]) == function.hmac_identifier()
}

/// Returns whether the bytes begin with an AUTH chunk of no hash function here.
fn has_unknown_hmac(bytes: &[u8]) -> bool
    ensures { IsTrue result ↔ HasUnknownHmac bytes.now }
{
    if bytes.len() < AUTH_CHUNK_SIZE {
        return false;
    }
    let size = read_u16_be(&bytes[2..]) as usize;
    let identifier = read_u16_be(&bytes[6..]);
    let sha1 = HashFunction::Sha1.hmac_identifier();
    let sha256 = HashFunction::Sha256.hmac_identifier();
    bytes[0] == AUTH
        && AUTH_CHUNK_SIZE <= size
        && size <= bytes.len()
        && identifier != sha1
        && identifier != sha256
}

/// Returns the hash function of the AUTH chunk that the bytes begin with; `None` if they don't.
fn auth_function(bytes: &[u8]) -> Option<HashFunction>
    ensures { (function : HashFunction)
        → (result ≡ Some function) ↔ BeginsWithAuth function bytes.now }
{
    if begins_with_auth(HashFunction::Sha1, bytes) {
        return Some(HashFunction::Sha1);
    }
    if begins_with_auth(HashFunction::Sha256, bytes) {
        return Some(HashFunction::Sha256);
    }
    None
}

/// Returns the HMAC of the AUTH chunk, and of all chunks after it.
fn auth_mac(function: HashFunction, key: &[u8], bytes: &[u8]) -> Mac
    requires { BeginsWithAuth function bytes.now }
    ensures { mac_bytes result ≡ hmac function key.now (auth_data function bytes.now) }
{
    let size = function.digest_size();
    let mut hmac = Hmac::new(function, key);
    hmac.update(&bytes[..AUTH_CHUNK_SIZE]);
    hmac.update(&ZEROS[..size]);
    hmac.update(&bytes[AUTH_CHUNK_SIZE + size..]);
    hmac.finalize()
}
