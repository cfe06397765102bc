//! What is authenticated under keys of the caller's: chunks after AUTH (RFC 4895), and State
//! Cookies (RFC 9260 section 5.1.3).

ghost use Rattle.std.specs.Prelude.{◌≡◌, ◌≢◌, ◌↔◌, ◌+◌, ◌++◌, IsTrue, length};
ghost use Rattle.dcsctp_tlv.specs.Image.{put};
ghost use Rattle.dcsctp_receive.specs.{Auth.{IsListed, BeginsWithAuth, auth_data, IsAuthenticated}, Cookie.{CookieTree, IsInWidth, cookie_bytes, view as cookie_view}, Hmac.{hmac}, SharedKey.{ComesFirst}};
ghost use Rattle.dcsctp_receive.specs.declared.hmac.HashFunction.{HashFunction};
ghost use Rattle.dcsctp_c.specs.Auth.{room_code, cookie_tree, Opens};

use crate::codes::{NO_ROOM, OK};
use crate::structs::DcsctpCookie;
use dcsctp_receive::auth::{is_listed, sign, verify};
use dcsctp_receive::cookie::{
    MIN_COOKIE_SIZE, OpenedCookie, StateCookie, open_cookie, seal_cookie,
};
use dcsctp_receive::shared_key::write_shared_key;

/// The cookie was sealed under the key, and is good.
pub const COOKIE_GOOD: u32 = 0;

/// The cookie was sealed under the key, and its lifespan is over.
pub const COOKIE_STALE: u32 = 1;

/// The cookie wasn't sealed under the key.
pub const COOKIE_INVALID: u32 = 2;

/// Returns whether a chunk of this type has to come after an AUTH chunk, by the types of a Chunk
/// List (RFC 4895 section 3.2), which ignores INIT, INIT ACK, SHUTDOWN COMPLETE and AUTH.
#[unsafe(no_mangle)]
pub extern "C" fn dcsctp_is_listed(list: &[u8], typ: u8) -> bool
    ensures { IsTrue result ↔ IsListed list.now typ }
{
    is_listed(list, typ)
}

/// Writes the association shared key (RFC 4895 section 6.1) to the front of the output, and its
/// size: the endpoint pair shared key and the key vectors of both ends, the numerically smaller
/// first. Which end's is passed first doesn't matter.
///
/// Returns 0; or changes nothing, and returns `NO_ROOM`.
#[unsafe(no_mangle)]
pub extern "C" fn dcsctp_shared_key(
    output: &mut [u8],
    size: &mut usize,
    pair_key: &[u8],
    one: &[u8],
    other: &[u8],
) -> u32
    ensures code { result ≡ room_code (length pair_key.now + length one.now + length other.now)
        (length output.old) }
    ensures size { result ≡ 0
        → size.new ≡ length pair_key.now + length one.now + length other.now }
    ensures one_first { result ≡ 0 → ComesFirst one.now other.now
        → output.new ≡ put output.old 0 (pair_key.now ++ (one.now ++ other.now)) }
    ensures other_first { result ≡ 0 → ComesFirst other.now one.now
        → output.new ≡ put output.old 0 (pair_key.now ++ (other.now ++ one.now)) }
    ensures declined { result ≢ 0 → (output.new ≡ output.old) × (size.new ≡ size.old) }
{
    match write_shared_key(output, pair_key, one, other) {
        Some(written) => {
            *size = written;
            OK
        }
        None => NO_ROOM,
    }
}

/// Returns whether the HMAC of an AUTH chunk is right under an association shared key (RFC 4895
/// section 6.3): that of SHA-1 or SHA-256, by its HMAC identifier. The bytes are those of the
/// packet from the AUTH chunk on, up to its end.
#[unsafe(no_mangle)]
pub extern "C" fn dcsctp_verify_auth(key: &[u8], bytes: &[u8]) -> bool
    ensures { IsTrue result ↔ IsAuthenticated key.now bytes.now }
{
    verify(key, bytes).is_right()
}

/// Writes the HMAC of an AUTH chunk under an association shared key (RFC 4895 section 6.2) into its
/// field, which has to be as long as that of SHA-1 or SHA-256 by its HMAC identifier. The bytes are
/// those of the packet from the AUTH chunk on, up to its end.
///
/// Returns false, and changes nothing, if and only if no such AUTH chunk is there.
#[unsafe(no_mangle)]
pub extern "C" fn dcsctp_sign_auth(key: &[u8], bytes: &mut [u8]) -> bool
    ensures there { IsTrue result
        ↔ ((function : HashFunction) × BeginsWithAuth function bytes.old) }
    ensures field { (function : HashFunction) → BeginsWithAuth function bytes.old
        → bytes.new ≡ put bytes.old 8 (hmac function key.now (auth_data function bytes.old)) }
    ensures verifies { IsTrue result → IsAuthenticated key.now bytes.new }
    ensures unchanged { (IsTrue result → ⊥) → bytes.new ≡ bytes.old }
{
    sign(key, bytes)
}

/// Writes a State Cookie (RFC 9260 section 5.1.3) to the front of the output, and its size: 80
/// bytes with a MAC under the key, and the further ones. Where the struct says that they are is
/// ignored.
///
/// Returns 0; or changes nothing, and returns `NO_ROOM`.
#[unsafe(no_mangle)]
pub extern "C" fn dcsctp_seal_cookie(
    output: &mut [u8],
    size: &mut usize,
    key: &[u8],
    cookie: &DcsctpCookie,
    extra: &[u8],
) -> u32
    ensures code { result ≡ room_code (80 + length extra.now) (length output.old) }
    ensures size { result ≡ 0 → size.new ≡ 80 + length extra.now }
    ensures bytes { result ≡ 0 → output.new
        ≡ put output.old 0 (cookie_bytes key.now (cookie_tree cookie.now extra.now)) }
    ensures width { result ≡ 0 → IsInWidth (cookie_tree cookie.now extra.now) }
    ensures declined { result ≢ 0 → (output.new ≡ output.old) × (size.new ≡ size.old) }
{
    match seal_cookie(output, key, &state_cookie(cookie, extra)) {
        Some(written) => {
            *size = written;
            OK
        }
        None => NO_ROOM,
    }
}

/// Opens a State Cookie (RFC 9260 section 5.1.5) at a time in microseconds, on the clock of whoever
/// sealed it: writes what it says, where its further bytes are, and for how many microseconds its
/// lifespan has been over, the Measure of Staleness (section 3.3.10.3).
///
/// Returns `COOKIE_GOOD` up to the end of its lifespan, with a staleness of 0, and then
/// `COOKIE_STALE`. Changes nothing, and returns `COOKIE_INVALID`, if and only if the bytes are no
/// cookie that was sealed under the key.
#[unsafe(no_mangle)]
pub extern "C" fn dcsctp_open_cookie(
    key: &[u8],
    bytes: &[u8],
    now: u64,
    cookie: &mut DcsctpCookie,
    staleness: &mut u64,
) -> u32
    ensures sealed { (tree : CookieTree) → IsInWidth tree → bytes.now ≡ cookie_bytes key.now tree
        → Opens bytes.now tree now cookie.new staleness.new result }
    ensures invalid { (result ≡ 2) ↔ ((tree : CookieTree) → IsInWidth tree
        → bytes.now ≢ cookie_bytes key.now tree) }
    ensures stays { result ≡ 2 → (cookie.new ≡ cookie.old) × (staleness.new ≡ staleness.old) }
{
    match open_cookie(key, bytes, now) {
        OpenedCookie::Valid(opened) => {
            *cookie = opened_cookie(&opened);
            *staleness = 0;
            COOKIE_GOOD
        }
        OpenedCookie::Stale(opened, over) => {
            *cookie = opened_cookie(&opened);
            *staleness = over;
            COOKIE_STALE
        }
        OpenedCookie::Invalid => COOKIE_INVALID,
    }
}

// ---- helpers

/// Returns what the struct says, with these further bytes.
fn state_cookie<'a>(cookie: &DcsctpCookie, extra: &'a [u8]) -> StateCookie<'a>
    ensures { cookie_view result ≡ cookie_tree cookie.now extra.now }
{
    StateCookie {
        created: cookie.created,
        lifespan: cookie.lifespan,
        local_tag: cookie.local_tag,
        peer_tag: cookie.peer_tag,
        local_tie_tag: cookie.local_tie_tag,
        peer_tie_tag: cookie.peer_tie_tag,
        local_initial_tsn: cookie.local_initial_tsn,
        peer_initial_tsn: cookie.peer_initial_tsn,
        local_port: cookie.local_port,
        peer_port: cookie.peer_port,
        outbound_streams: cookie.outbound_streams,
        inbound_streams: cookie.inbound_streams,
        extra,
    }
}

/// Returns the struct of a cookie, whose further bytes end it.
fn opened_cookie(cookie: &StateCookie<'_>) -> DcsctpCookie
    ensures numbers { cookie_tree result cookie.now.extra.now ≡ cookie_view cookie.now }
    ensures offset { result.extra_offset ≡ 80 }
    ensures size { result.extra_size ≡ length cookie.now.extra.now }
{
    DcsctpCookie {
        created: cookie.created,
        lifespan: cookie.lifespan,
        local_tag: cookie.local_tag,
        peer_tag: cookie.peer_tag,
        local_tie_tag: cookie.local_tie_tag,
        peer_tie_tag: cookie.peer_tie_tag,
        local_initial_tsn: cookie.local_initial_tsn,
        peer_initial_tsn: cookie.peer_initial_tsn,
        local_port: cookie.local_port,
        peer_port: cookie.peer_port,
        outbound_streams: cookie.outbound_streams,
        inbound_streams: cookie.inbound_streams,
        extra_offset: MIN_COOKIE_SIZE,
        extra_size: cookie.extra.len(),
    }
}
