//! Checksums.

use crate::answer::Answer;
use crate::auth;
use dcsctp_crc32c::{crc32c, packet_word, update};

/// Writes the CRC32c of the bytes; and that of the others in two pieces, if it is another.
fn write_crc(bytes: &[u8], other: &[u8], out: &mut Answer) {
    let whole = crc32c(bytes);
    write!(out, "{whole:08x}");
    for place in 0..other.len() {
        let (front, back) = other.split_at(place);
        let crc = update(crc32c(front), back);
        if crc != whole {
            write!(out, "; in pieces, the first of {place} bytes, {crc:08x}");
        }
    }
}

/// Writes the answer, if the call is one of this module; else the next one does.
pub fn write_answer(call: &str, bytes: &[u8], other: &[u8], out: &mut Answer) {
    match call {
        "crc32c" => write_crc(bytes, other, out),
        "packet-word" => write!(out, "{:08x}", packet_word(bytes)),
        _ => auth::write_answer(call, bytes, other, out),
    }
}
