//! Frames, the numbers in headers, and serial numbers.

use crate::answer::{Answer, Digits, short_at, word_at};
use crate::kinds;
use dcsctp_wire::packet::chunk::RawChunk;
use dcsctp_wire::packet::parameter::RawParameter;
use dcsctp_wire::packet::{is_divisible_by_4, round_down_to_4, round_up_to_4};
use dcsctp_wire::types::{Fsn, Mid, SerialNumber, Ssn, Tsn};

/// Writes the two bytes before the length, the value, the padding, and what follows.
fn write_parts(head: u16, value: &[u8], padding: &[u8], rest: &[u8], out: &mut Answer) {
    let (value, padding, rest) = (Digits(value), Digits(padding), Digits(rest));
    write!(out, "{head:04x}: {value} | {padding} | {rest}")
}

/// Writes the parts of the chunk at the front, or its fault.
fn write_chunk_frame(bytes: &[u8], out: &mut Answer) {
    match RawChunk::from_bytes_padded(bytes) {
        Ok((raw, padding, rest)) => {
            let head = u16::from_be_bytes([raw.typ, raw.flags]);
            write_parts(head, raw.value, padding, rest, out)
        }
        Err(fault) => write!(out, "{fault:?}"),
    }
}

/// Writes the parts of the parameter at the front, or its fault.
fn write_parameter_frame(bytes: &[u8], out: &mut Answer) {
    match RawParameter::from_bytes_padded(bytes) {
        Ok((raw, padding, rest)) => write_parts(raw.typ, raw.value, padding, rest, out),
        Err(fault) => write!(out, "{fault:?}"),
    }
}

/// Returns whether the reader of chunks that leaves the padding out finds the same.
fn is_same_unpadded(bytes: &[u8], other: &[u8]) -> bool {
    match (
        RawChunk::from_bytes(other),
        RawChunk::from_bytes_padded(bytes),
    ) {
        (Ok((raw, rest)), Ok((same, _, after))) => {
            let is_alike = raw.typ == same.typ && raw.flags == same.flags;
            is_alike && raw.value == same.value && rest == after
        }
        (Err(fault), Err(same)) => fault == same,
        _ => false,
    }
}

/// Writes the frame at the front, and where chunks and parameters, or a reader that leaves the
/// padding out, have another.
fn write_frame(bytes: &[u8], other: &[u8], out: &mut Answer) {
    let mut parameter = out.another();
    write_parameter_frame(other, &mut parameter);
    write_chunk_frame(bytes, out);
    out.add_other("; as a parameter ", &parameter);
    out.unless(
        is_same_unpadded(bytes, other),
        "; another one without padding",
    )
}

/// Writes whether `a` is less than `b`, greater, at most that, and at least that; and how far they
/// are apart.
fn write_order<S: SerialNumber>(a: S, b: S, distance: u32, out: &mut Answer) {
    let (less, greater) = (a.less_than(b), a.greater_than(b));
    let (at_most, at_least) = (a.less_than_or_equal(b), a.greater_than_or_equal(b));
    write!(out, "{:?}", (less, greater, at_most, at_least, distance))
}

/// Writes the order of two serial numbers of four bytes, or of two.
fn write_serials(call: &str, bytes: &[u8], out: &mut Answer) {
    let (a, b) = (word_at(bytes, 0), word_at(bytes, 4));
    match call {
        "tsn" => write_order(Tsn(a), Tsn(b), Tsn(a).distance_to(Tsn(b)), out),
        "mid" => write_order(Mid(a), Mid(b), Mid(a).distance_to(Mid(b)), out),
        "fsn" => write_order(Fsn(a), Fsn(b), Fsn(a).distance_to(Fsn(b)), out),
        _ => {
            let (a, b) = (Ssn(short_at(bytes, 0)), Ssn(short_at(bytes, 2)));
            write_order(a, b, a.distance_to(b) as u32, out)
        }
    }
}

/// Writes the multiples of 4 next to a number, upwards and downwards, and whether it is one.
fn write_multiples(n: u16, out: &mut Answer) {
    let n = usize::from(n);
    let multiples = (round_up_to_4(n), round_down_to_4(n), is_divisible_by_4(n));
    write!(out, "{multiples:?}")
}

/// Writes the answer, if the call is one of this module; else the next one does.
pub fn write_answer(call: &str, bytes: &[u8], other: &[u8], out: &mut Answer) {
    match call {
        "frame" => write_frame(bytes, other, out),
        "tsn" | "mid" | "fsn" | "ssn" => write_serials(call, bytes, out),
        "round" => write_multiples(short_at(bytes, 0), out),
        _ => kinds::write_answer(call, bytes, other, out),
    }
}
