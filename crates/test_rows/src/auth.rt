//! HMACs, AUTH chunks, association shared keys and State Cookies.

use crate::answer::{Answer, Digits, End, flip, front};
use dcsctp_receive::auth::{is_listed, sign, verify};
use dcsctp_receive::cookie::{OpenedCookie, StateCookie, open_cookie, seal_cookie};
use dcsctp_receive::hmac::{HashFunction, Hmac};
use dcsctp_receive::shared_key::write_shared_key;

/// When the cookies of the rows are created, in microseconds.
const CREATED: u64 = 1_700_000_000_000_000;

/// For how long they are good: the Valid.Cookie.Life of RFC 9260 section 16.
const LIFESPAN: u64 = 60_000_000;

/// Writes the HMAC of the text under the key, and that of it in any two pieces, if it is another.
fn write_hmac(function: HashFunction, key: &[u8], text: &[u8], out: &mut Answer) {
    let whole = Hmac::of(function, key, text);
    write!(out, "{}", Digits(whole.as_bytes()));
    for place in 0..text.len() {
        let (front, back) = text.split_at(place);
        let mut hmac = Hmac::new(function, key);
        hmac.update(front);
        hmac.update(back);
        if hmac.finalize().as_bytes() != whole.as_bytes() {
            write!(out, "; another in pieces, the first of {place} bytes");
        }
    }
}

/// Writes whether the chunk's HMAC is right, whether it can be signed, whether it is right then; the
/// chunk and those after it signed; and with which changed byte it is still right.
fn write_auth(key: &[u8], chunks: &[u8], out: &mut Answer) {
    let before = verify(key, chunks);
    let mut signed = out.copy(chunks);
    let is_signed = sign(key, &mut signed);
    let answers = (before, is_signed, verify(key, &signed));
    write!(out, "{answers:?}; {}", Digits(&signed));
    for place in 0..signed.len() {
        flip(&mut signed, place, 1);
        if verify(key, &signed).is_right() {
            write!(out, "; right with another byte {place}");
        }
        flip(&mut signed, place, 1);
    }
}

/// Writes which types of chunks have to be authenticated by the list.
fn write_listed(list: &[u8], out: &mut Answer) {
    out.say("types");
    for typ in 0..=255u8 {
        if is_listed(list, typ) {
            write!(out, " {typ}");
        }
    }
}

/// Writes the key of an endpoint pair shared key of four bytes and two key vectors, whichever is
/// first.
fn write_key(one: &[u8], other: &[u8], out: &mut Answer) {
    let (mut buffer, mut again) = ([0xEE; 64], [0xEE; 64]);
    let pair_key = [0x70, 0x61, 0x69, 0x72];
    let size = write_shared_key(&mut buffer, &pair_key, one, other);
    let size_again = write_shared_key(&mut again, &pair_key, other, one);
    out.unless(
        size == size_again && buffer.as_slice() == again.as_slice(),
        "another key the other way round; ",
    );
    match size {
        Some(size) => write!(out, "{}", Digits(front(&buffer, size))),
        None => out.say("no room"),
    }
}

/// Returns the cookie of the rows, with these further bytes.
fn cookie_of(extra: &[u8]) -> StateCookie {
    StateCookie {
        created: CREATED,
        lifespan: LIFESPAN,
        local_tag: 0x01020304,
        peer_tag: 0x05060708,
        local_tie_tag: 0x21222324,
        peer_tie_tag: 0x25262728,
        local_initial_tsn: 0x11121314,
        peer_initial_tsn: 0x15161718,
        local_port: 5000,
        peer_port: 5001,
        outbound_streams: 10,
        inbound_streams: 2048,
        extra,
    }
}

/// Writes what the cookie is at a time under the key.
fn write_opened(key: &[u8], cookie: &[u8], now: u64, out: &mut Answer) {
    match open_cookie(key, cookie, now) {
        OpenedCookie::Valid(cookie) => write!(out, "{cookie:?}"),
        OpenedCookie::Stale(_, over) => write!(out, "stale by {over}"),
        OpenedCookie::Invalid => out.say("invalid"),
    }
}

/// Writes the sealed cookie with these further bytes, and what it is at some times, under another
/// key, and cut off; and which changed byte doesn't make it invalid.
fn write_cookie(key: &[u8], extra: &[u8], out: &mut Answer) {
    let mut buffer = [0xEE; 256];
    let Some(size) = seal_cookie(&mut buffer, key, &cookie_of(extra)) else {
        return out.say("no room");
    };
    let mut sealed = out.copy(front(&buffer, size));
    write!(out, "{}", Digits(&sealed));
    for now in [
        0,
        CREATED,
        CREATED + LIFESPAN,
        CREATED + LIFESPAN + 1,
        u64::MAX,
    ] {
        write!(out, "; at {now} ");
        write_opened(key, &sealed, now, out);
    }
    out.say("; under no key ");
    write_opened(&[], &sealed, CREATED, out);
    for place in 0..sealed.len() {
        if !is_invalid(key, front(&sealed, place)) {
            write!(out, "; good with {place} bytes");
        }
        flip(&mut sealed, place, 1);
        if !is_invalid(key, &sealed) {
            write!(out, "; good with another byte {place}");
        }
        flip(&mut sealed, place, 1);
    }
}

fn is_invalid(key: &[u8], bytes: &[u8]) -> bool {
    matches!(open_cookie(key, bytes, CREATED), OpenedCookie::Invalid)
}

/// Writes the answer, if the call is one of this module; else no module has it.
pub fn write_answer(call: &str, bytes: &[u8], other: &[u8], out: &mut Answer) {
    match call {
        "hmac-sha1" => write_hmac(HashFunction::Sha1, bytes, other, out),
        "hmac-sha256" => write_hmac(HashFunction::Sha256, bytes, other, out),
        "auth" => write_auth(bytes, other, out),
        "listed" => write_listed(bytes, out),
        "shared-key" => write_key(bytes, other, out),
        "cookie" => write_cookie(bytes, other, out),
        "open-cookie" => write_opened(bytes, other, CREATED, out),
        _ => out.end = End::Row,
    }
}
