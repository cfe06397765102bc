//! COOKIE ECHO, whose cookie lies anywhere.

ghost use Rattle.dcsctp_wire.specs.Chunk.{CookieEcho};

use crate::widths::bytes_in_width;
use crate::writable_chunk::WritableChunk;
use dcsctp_tlv::frame::{item_size, put_solid};
use dcsctp_wire::packet::cookie_echo_chunk::CHUNK_TYPE;

/// COOKIE ECHO (RFC 9260 section 3.3.11) to be written. A reader refuses one without a cookie.
#[derive(Clone, Copy, Debug)]
pub struct BorrowedCookieEcho<'a> {
    /// The State Cookie of the INIT ACK.
    pub cookie: &'a [u8],
}

impl WritableChunk for BorrowedCookieEcho<'_> {
    ghost tree = { λ c. CookieEcho c.cookie.now };

    fn written_size(&self) -> Option<usize> {
        item_size(self.cookie.len())
    }

    fn write_to(&self, output: &mut [u8]) {
        bytes_in_width(self.cookie);
        put_solid(CHUNK_TYPE, 0, self.cookie, output);
    }
}
