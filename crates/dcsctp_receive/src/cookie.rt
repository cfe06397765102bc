//! State Cookies (RFC 9260 section 5.1.3), sealed by an HMAC with SHA-256.

ghost use Rattle.std.specs.{Prelude.{◌≡◌, ◌≢◌, ◌↔◌, ◌+◌, ◌≤◌, ◌++◌, ℕ, List, Some, IsSome, IfSome, IfNone, length, IsTrue, drop, take}};
ghost use Rattle.dcsctp_tlv.specs.Image.{put};
ghost use Rattle.dcsctp_receive.specs.Cookie.{CookieTree, view, IsInWidth, cookie_bytes, fixed_bytes, body_read, Answers, IsAuthentic, IfOpened};
ghost use Rattle.dcsctp_receive.specs.Hmac.{hmac, mac_bytes};
ghost use Rattle.dcsctp_receive.specs.declared.hmac.HashFunction.TheVariants.{Sha256};
ghost use Rattle.dcsctp_receive.specs.declared.cookie.OpenedCookie.TheVariants.{Invalid};

use crate::equality::are_equal;
use crate::hmac::{HashFunction, Hmac, Mac};
use crate::pieces::put_three;
use dcsctp_tlv::frame::put_bytes;
use dcsctp_tlv::number::{put_u16, put_u32, read_u16_be, read_u32_be, read_u64_be};

/// The bytes of the MAC at the front of a cookie.
const MAC_SIZE: usize = 32;

/// The bytes of the numbers after the MAC.
const NUMBERS_SIZE: usize = 48;

/// The bytes of a cookie without further bytes.
pub const MIN_COOKIE_SIZE: usize = MAC_SIZE + NUMBERS_SIZE;

/// What a State Cookie says: what its sender needs to set up the association, when it was created,
/// and for how long it is good (RFC 9260 section 5.1.3).
///
/// *Local* is the end that seals and opens the cookie.
#[derive(Clone, Copy, Debug)]
pub struct StateCookie<'a> {
    /// When the cookie was created, in microseconds on the clock of the local end.
    pub created: u64,
    /// For how long it is good, in microseconds.
    pub lifespan: u64,
    /// The Initiate Tag of the INIT ACK.
    pub local_tag: u32,
    /// The Initiate Tag of the INIT.
    pub peer_tag: u32,
    /// The Local Tie-Tag (RFC 9260 section 5.2.2): 0 where the INIT came without an association.
    pub local_tie_tag: u32,
    /// The Peer's Tie-Tag (RFC 9260 section 5.2.2): 0 where the INIT came without an association.
    pub peer_tie_tag: u32,
    /// The Initial TSN of the INIT ACK.
    pub local_initial_tsn: u32,
    /// The Initial TSN of the INIT.
    pub peer_initial_tsn: u32,
    /// The port that the INIT was for.
    pub local_port: u16,
    /// The port that the INIT came from.
    pub peer_port: u16,
    /// How many streams the local end sends on.
    pub outbound_streams: u16,
    /// How many streams the peer sends on.
    pub inbound_streams: u16,
    /// Further bytes of the caller's, of any length: the peer's addresses, the parameters of its
    /// INIT, AUTH's key vectors.
    pub extra: &'a [u8],
}

/// What a cookie is, at the time at which it is opened (RFC 9260 section 5.1.5).
#[derive(Clone, Copy, Debug)]
pub enum OpenedCookie<'a> {
    /// It was sealed under the key, and is good.
    Valid(StateCookie<'a>),
    /// It was sealed under the key, and is older than its lifespan. The number says by how many
    /// microseconds, at least 1: the Measure of Staleness (RFC 9260 section 3.3.10.3), whose field
    /// has 32 bits.
    Stale(StateCookie<'a>, u64),
    /// It wasn't sealed under the key.
    Invalid,
}

/// Writes the cookie to the front of the buffer, sealed under a key of any length: 80 bytes, and
/// the further ones. Returns its size.
///
/// Returns `None`, and changes nothing, if and only if the buffer has no room for it. All bytes
/// after it stay.
pub fn seal_cookie(buffer: &mut [u8], key: &[u8], cookie: &StateCookie) -> Option<usize>
    ensures room { IsSome result ↔ (80 + length cookie.now.extra.now ≤ length buffer.old) }
    ensures size { IfSome result (λ size. size ≡ 80 + length cookie.now.extra.now) }
    ensures bytes { IfSome result (λ size. buffer.new
        ≡ put buffer.old 0 (cookie_bytes key.now (view cookie.now))) }
    ensures width { IsSome result → IsInWidth (view cookie.now) }
    ensures unchanged { IfNone result (buffer.new ≡ buffer.old) }
{
    let extra = cookie.extra;
    if buffer.len() < MIN_COOKIE_SIZE || buffer.len() - MIN_COOKIE_SIZE < extra.len() {
        return None;
    }
    let fixed = fixed_bytes(cookie);
    let mac = body_mac(key, &fixed, extra);
    put_three(buffer, mac.as_bytes(), &fixed, extra);
    Some(MIN_COOKIE_SIZE + extra.len())
}

/// Reads a cookie that was sealed under the key, at a time in microseconds on the same clock.
///
/// Returns `Valid` up to the end of its lifespan, then `Stale`; and `Invalid` if and only if the
/// bytes aren't those of any cookie that was sealed under the key. No byte after the MAC is looked
/// at until the MAC over all of them was found right.
///
/// A cookie that is created after `now` is `Valid` too: the clock was set back. Where that may be,
/// the caller refuses a cookie whose `created` is too far ahead of `now`.
pub fn open_cookie<'a>(key: &[u8], bytes: &'a [u8], now: u64) -> OpenedCookie<'a>
    ensures sealed { (cookie : CookieTree) → IsInWidth cookie
        → bytes.now ≡ cookie_bytes key.now cookie → Answers cookie now result }
    ensures opened { IfOpened result (λ cookie. bytes.now ≡ cookie_bytes key.now (view cookie)) }
    ensures authentic { result ≢ Invalid → IsAuthentic key.now bytes.now }
    ensures invalid { (result ≡ Invalid) ↔ ((cookie : CookieTree) → IsInWidth cookie
        → bytes.now ≢ cookie_bytes key.now cookie) }
{
    if !is_authentic(key, bytes) {
        return OpenedCookie::Invalid;
    }
    let cookie = read_body(&bytes[MAC_SIZE..]);
    let elapsed = now.saturating_sub(cookie.created);
    if elapsed > cookie.lifespan {
        return OpenedCookie::Stale(cookie, elapsed - cookie.lifespan);
    }
    OpenedCookie::Valid(cookie)
}

/// Returns whether the bytes are as long as a cookie is, and begin with the MAC over the rest.
fn is_authentic(key: &[u8], bytes: &[u8]) -> bool
    ensures { IsTrue result ↔ ((80 ≤ length bytes.now) × IsAuthentic key.now bytes.now) }
{
    if bytes.len() < MIN_COOKIE_SIZE {
        return false;
    }
    let (front, rest) = bytes.split_at(MAC_SIZE);
    let mac = Hmac::of(HashFunction::Sha256, key, rest);
    are_equal(front, mac.as_bytes())
}

/// Returns the MAC over these numbers and further bytes.
fn body_mac(key: &[u8], fixed: &[u8], extra: &[u8]) -> Mac
    ensures { mac_bytes result ≡ hmac Sha256 key.now (fixed.now ++ extra.now) }
{
    let mut hmac = Hmac::new(HashFunction::Sha256, key);
    hmac.update(fixed);
    hmac.update(extra);
    hmac.finalize()
}

/// Returns the numbers of a cookie as they are written.
fn fixed_bytes(cookie: &StateCookie) -> [u8; NUMBERS_SIZE]
    ensures bytes { result ≡ fixed_bytes (view cookie.now) }
    ensures width { IsInWidth (view cookie.now) }
{
    let mut bytes = [0; NUMBERS_SIZE];
    put_bytes(&mut bytes, 0, &cookie.created.to_be_bytes());
    put_bytes(&mut bytes, 8, &cookie.lifespan.to_be_bytes());
    put_u32(&mut bytes, 16, cookie.local_tag);
    put_u32(&mut bytes, 20, cookie.peer_tag);
    put_u32(&mut bytes, 24, cookie.local_tie_tag);
    put_u32(&mut bytes, 28, cookie.peer_tie_tag);
    put_u32(&mut bytes, 32, cookie.local_initial_tsn);
    put_u32(&mut bytes, 36, cookie.peer_initial_tsn);
    put_u16(&mut bytes, 40, cookie.local_port);
    put_u16(&mut bytes, 42, cookie.peer_port);
    put_u16(&mut bytes, 44, cookie.outbound_streams);
    put_u16(&mut bytes, 46, cookie.inbound_streams);
    bytes
}

/// Reads what the MAC authenticates.
fn read_body(body: &[u8]) -> StateCookie
    requires { 48 ≤ length body.now }
    ensures value { view result ≡ body_read body.now }
    ensures width { IsInWidth (view result) }
{
    StateCookie {
        created: read_u64_be(body),
        lifespan: read_u64_be(&body[8..]),
        local_tag: read_u32_be(&body[16..]),
        peer_tag: read_u32_be(&body[20..]),
        local_tie_tag: read_u32_be(&body[24..]),
        peer_tie_tag: read_u32_be(&body[28..]),
        local_initial_tsn: read_u32_be(&body[32..]),
        peer_initial_tsn: read_u32_be(&body[36..]),
        local_port: read_u16_be(&body[40..]),
        peer_port: read_u16_be(&body[42..]),
        outbound_streams: read_u16_be(&body[44..]),
        inbound_streams: read_u16_be(&body[46..]),
        extra: &body[NUMBERS_SIZE..],
    }
}
