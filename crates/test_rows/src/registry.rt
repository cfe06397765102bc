//! Chunks, parameters and error causes that have a name in IANA's registry alone, where they lie.

use crate::answer::{Answer, Change, Digits, from, front, short_at};
use crate::receive;
use dcsctp_buffer::item::add_written;
use dcsctp_buffer::{add, begin};
use dcsctp_registry::address::ip_address;
use dcsctp_registry::items::are_items;
use dcsctp_registry::layout::Rest;
use dcsctp_registry::parameter_layouts::ERROR_CAUSE_INDICATION;
use dcsctp_registry::read::{read_cause, read_chunk, read_parameter};
use dcsctp_registry::registered::Registered;
use dcsctp_registry::registered_chunk::RegisteredChunk;
use dcsctp_wire::packet::chunk::RawChunk;
use dcsctp_wire::packet::parameter::RawParameter;

/// Of items in one another, how many are opened.
const MOST_OPENED: usize = 4;

/// Items in one, and whether these are error causes.
type Inner<'a> = Option<(bool, &'a [u8])>;

// ---- one item: each writes it, and returns the items in it

/// Writes what a value holds: numbers of four bytes, of two, an address, and the rest.
fn write_parts(held: &Registered, out: &mut Answer) {
    let mut mark = "";
    for i in 0..2 {
        if let Some(number) = held.number(i) {
            write!(out, "{mark}{number}");
            mark = ", ";
        }
    }
    for i in 0..3 {
        if let Some(number) = held.short_number(i) {
            write!(out, "{mark}short {number}");
            mark = ", ";
        }
    }
    if let Some(octets) = held.address() {
        if let Some(address) = ip_address(octets) {
            write!(out, "{mark}address {address}");
            mark = ", ";
        }
    }
    if let Some(rest) = held.rest() {
        if matches!(held.layout().rest, Rest::Items) {
            write!(out, "{mark}items")
        } else {
            write!(out, "{mark}rest {}", Digits(rest))
        }
    } else if mark.is_empty() {
        out.say("empty")
    }
}

/// Writes what a value holds, or the bytes of one that isn't read.
fn write_held<'a>(
    held: &Option<Registered<'a>>,
    of_causes: bool,
    typ: u16,
    value: &[u8],
    out: &mut Answer,
) -> Inner<'a> {
    let Some(held) = held else {
        write!(out, "{typ:04x}: {}", Digits(value));
        return None;
    };
    write_parts(held, out);
    match held.layout().rest {
        Rest::Items => Some((of_causes, held.rest()?)),
        _ => None,
    }
}

/// Reads a parameter or an error cause.
fn read_item<'a>(is_cause: bool, raw: &RawParameter<'a>) -> Option<Registered<'a>> {
    if is_cause {
        read_cause(raw)
    } else {
        read_parameter(raw)
    }
}

fn write_item<'a>(is_cause: bool, raw: &RawParameter<'a>, out: &mut Answer) -> Inner<'a> {
    let of_causes = !is_cause && raw.typ == ERROR_CAUSE_INDICATION;
    write_held(
        &read_item(is_cause, raw),
        of_causes,
        raw.typ,
        raw.value,
        out,
    )
}

// ---- how it is written

/// Where the chunk begins after the packet's header, and the item in it.
const CHUNK_PLACE: usize = 12;

const ITEM_PLACE: usize = 16;

/// Adds the item to an ERROR in a buffer. `None` if it isn't read, or not added.
fn put_item(is_cause: bool, raw: &RawParameter, buffer: &mut [u8]) -> Option<()> {
    let mut size = 0;
    begin(buffer, &mut size, 1, 1, 1).ok()?;
    let error = RawChunk {
        typ: 9,
        flags: 0,
        value: &[],
    };
    add(buffer, &mut size, &error).ok()?;
    let value = read_item(is_cause, raw)?.to_bytes();
    add_written(buffer, &mut size, CHUNK_PLACE, raw.typ, &value).ok()
}

/// Adds the chunk to a packet in a buffer. `None` if it isn't read, or not added.
fn put_chunk(raw: &RawChunk, buffer: &mut [u8]) -> Option<()> {
    let mut size = 0;
    begin(buffer, &mut size, 1, 1, 1).ok()?;
    let chunk = RegisteredChunk {
        typ: raw.typ,
        flags: raw.flags,
        value: read_chunk(raw)?.to_bytes(),
    };
    add(buffer, &mut size, &chunk).ok()
}

/// Writes what the buffer has from a place up to the end of the chunk, without its padding, after
/// an arrow; nothing, where it is what was read, or nothing was put there.
fn write_again(put: Option<()>, place: usize, bytes: &[u8], buffer: &[u8], out: &mut Answer) {
    let read = front(bytes, short_at(bytes, 2) as usize);
    let end = CHUNK_PLACE.saturating_add(short_at(buffer, CHUNK_PLACE + 2) as usize);
    if put.is_some() {
        write!(out, "{}", Change(read, from(front(buffer, end), place)))
    }
}

// ---- the items in it, the items in these, and so on

/// Writes the items of a list in these bytes, the items in these, and so on, each after how deep it
/// is. A step writes an item or ends a list, so there are fewer steps than bytes.
fn write_inner(bytes: &[u8], list: Inner, out: &mut Answer) {
    let mut lists = Vec::new(out.alloc);
    if let Some(list) = list {
        out.push(&mut lists, list);
    }
    for _ in 0..bytes.len() {
        if let Some((is_cause, items)) = lists.pop() {
            if let Ok((raw, rest)) = RawParameter::from_bytes(items) {
                out.push(&mut lists, (is_cause, rest));
                let depth = lists.len();
                write!(out, "; {depth} ");
                if depth == MOST_OPENED {
                    write!(out, "{:04x}: {}", raw.typ, Digits(raw.value));
                } else if let Some(inner) = write_item(is_cause, &raw, out) {
                    out.push(&mut lists, inner);
                }
            }
        }
    }
}

/// Writes the parameter or the error cause at the front, how it is written, and what is in it.
fn write_item_row(is_cause: bool, bytes: &[u8], out: &mut Answer) {
    let Ok((raw, _)) = RawParameter::from_bytes(bytes) else {
        return out.say("no item");
    };
    let inner = write_item(is_cause, &raw, out);
    let mut buffer = out.filled(65532);
    let put = put_item(is_cause, &raw, &mut buffer);
    write_again(put, ITEM_PLACE, bytes, &buffer, out);
    write_inner(bytes, inner, out)
}

/// Writes the chunk at the front, how it is written, and what is in it.
fn write_chunk_row(bytes: &[u8], out: &mut Answer) {
    let Ok((raw, _)) = RawChunk::from_bytes(bytes) else {
        return out.say("no chunk");
    };
    let inner = write_held(&read_chunk(&raw), false, raw.typ as u16, raw.value, out);
    let mut buffer = out.filled(65532);
    let put = put_chunk(&raw, &mut buffer);
    write_again(put, CHUNK_PLACE, bytes, &buffer, out);
    write_inner(bytes, inner, out)
}

// ---- hostile nesting

/// Writes how many of Unrecognized Parameters in one another were opened, and how many bytes are
/// left in the last one.
fn write_opened(nested: &[u8], out: &mut Answer) {
    let mut items = nested;
    let (mut opened, mut left) = (0, 0);
    for i in 0..MOST_OPENED {
        if let Ok((raw, _)) = RawParameter::from_bytes(items) {
            left = raw.value.len();
            if let Some(held) = read_parameter(&raw) {
                opened = i.saturating_add(1);
                items = held.rest().unwrap_or(&[]);
            }
        }
    }
    write!(out, "{:?}", (opened, left))
}

/// Writes what `write_opened` says of this number of Unrecognized Parameters, each in the one
/// before.
fn write_nested(count: u16, out: &mut Answer) {
    let mut bytes = Vec::new(out.alloc);
    for i in 0..count {
        let [high, low] = (count - i).saturating_mul(4).to_be_bytes();
        out.or_out_of_memory(bytes.extend_from_slice(&[0, 8, high, low]));
    }
    if are_items(&bytes) {
        write_opened(&bytes, out)
    } else {
        out.say("no items")
    }
}

/// Writes the answer, if the call is one of this module; else the next one does.
pub fn write_answer(call: &str, bytes: &[u8], other: &[u8], out: &mut Answer) {
    match call {
        "registered-parameter" => write_item_row(false, bytes, out),
        "registered-cause" => write_item_row(true, bytes, out),
        "registered-chunk" => write_chunk_row(bytes, out),
        "nested" => write_nested(short_at(bytes, 0), out),
        _ => receive::write_answer(call, bytes, other, out),
    }
}
