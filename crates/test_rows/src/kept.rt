//! Packets that own their bytes.

use crate::answer::{Answer, Digits};
use crate::packets::{ANY, packet_of, write_header};
use crate::registry;
use dcsctp_borrowed::packet_buf::PacketBuf;
use dcsctp_wire::packet::sctp_packet::SctpPacket;

/// Writes the bytes that are held; and the header and the types of the chunks that lie in them.
fn write_held(held: &PacketBuf, out: &mut Answer) {
    let packet = held.as_ref();
    write!(out, "{} | ", Digits(held.as_bytes()));
    write_header(&packet.common_header, out);
    for raw in packet.chunks {
        write!(out, " {}", raw.typ);
    }
}

/// Writes the packet that is held in a copy, and then in the same memory the other one; after the
/// fault, if that is refused.
fn write_copied(bytes: &[u8], other: &[u8], out: &mut Answer) {
    match PacketBuf::from_slice(out.alloc, bytes, 0, &ANY) {
        Ok(mut held) => {
            write_held(&held, out);
            match held.refill(other, 0, &ANY) {
                Ok(()) => out.say("; "),
                Err(error) => write!(out, "; {error:?}, "),
            }
            write_held(&held, out)
        }
        Err(error) => write!(out, "{error:?}"),
    }
}

/// Returns whether the bytes that are taken over are given back; or refused as the check does.
fn is_given_back(bytes: &[u8], out: &mut Answer) -> bool {
    match PacketBuf::of_vec(out.copy(bytes), 0, &ANY) {
        Ok(held) => held.into_vec().as_slice() == bytes,
        Err(error) => SctpPacket::check(bytes, 0, &ANY) == Err(error),
    }
}

/// Writes the answer, if the call is one of this module; else the next one does.
pub fn write_answer(call: &str, bytes: &[u8], other: &[u8], out: &mut Answer) {
    if call != "keep" {
        return registry::write_answer(call, bytes, other, out);
    }
    let (bytes, other) = (packet_of(bytes, out), packet_of(other, out));
    write_copied(&bytes, &other, out);
    let is_so = is_given_back(&bytes, out);
    out.unless(is_so, "; taken over, it is another one")
}
