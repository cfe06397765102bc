//! The cookie of COOKIE ECHO, in a packet's bytes.

ghost use Rattle.std.specs.Prelude.{◌≡◌, option_map};
ghost use Rattle.dcsctp_wire.specs.Chunk.{ChunkTree};
ghost use Rattle.dcsctp_borrowed.specs.{CookieEcho.{cookie_of, read_cookie}, RawChunks.{RawMeans}};

use dcsctp_wire::packet::chunk::RawChunk;
use dcsctp_wire::packet::cookie_echo_chunk;

/// Returns the cookie of COOKIE ECHO (RFC 9260 section 3.3.11), without a copy; `None` if and only
/// if the chunk has another type, or no value.
///
/// Of a chunk of a packet this is the cookie that `SctpPacket::from_bytes` gives, and `None`
/// if and only if the chunk has another type.
#[inline(always)]
pub fn cookie<'a>(raw: &RawChunk<'a>) -> Option<&'a [u8]>
    ensures read { option_map (λ bytes. bytes.now) result
        ≡ read_cookie raw.now.typ raw.now.value.now }
    ensures means { (tree : ChunkTree) → RawMeans raw.now tree
        → option_map (λ bytes. bytes.now) result ≡ cookie_of tree }
{
    cookie_in(raw.typ, raw.value)
}

/// Returns what a value of this type means as a cookie. Proves only the kind's reading.
#[inline(always)]
fn cookie_in(typ: u8, value: &[u8]) -> Option<&[u8]>
    ensures { option_map (λ bytes. bytes.now) result ≡ read_cookie typ value.now }
{
    if typ != cookie_echo_chunk::CHUNK_TYPE {
        return None;
    }
    if value.is_empty() {
        return None;
    }
    Some(value)
}
