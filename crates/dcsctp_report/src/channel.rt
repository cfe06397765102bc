//! What a message of the Data Channel Establishment Protocol holds (RFC 8832 section 5).

use crate::fields::{Fields, Form, Number, Text};
use crate::registry::channel_type_name;
use dcsctp_borrowed::part::Item;
use dcsctp_wire::packet::read_u16_be;

/// Bytes of DATA_CHANNEL_OPEN before the label.
pub const OPEN_SIZE: usize = 12;

/// The message type of DATA_CHANNEL_OPEN.
const OPEN: u8 = 3;

/// The message type of DATA_CHANNEL_ACK.
const ACK: u8 = 2;

/// Hands over a message, which is the payload at an offset of a chunk, or that it isn't one of the
/// protocol.
pub fn walk_channel<F: Fields>(offset: usize, message: &[u8], chunk: &Item<'_>, fields: &mut F) {
    let typ = Number::read("\n  ", "message", chunk, offset, 1);
    match message {
        [ACK] => fields.word(&typ, "DATA_CHANNEL_ACK"),
        [OPEN, ..] if message.len() >= OPEN_SIZE => {
            let label_size = read_u16_be(&message[8..]) as usize;
            let protocol_size = read_u16_be(&message[10..]) as usize;
            if message.len() != OPEN_SIZE + label_size + protocol_size {
                return fields.no_message();
            }
            fields.word(&typ, "DATA_CHANNEL_OPEN");
            walk_open(offset, chunk, fields);
            let texts = &message[OPEN_SIZE..];
            let (label, protocol) = texts.split_at(label_size);
            let label_offset = offset.saturating_add(OPEN_SIZE);
            fields.text(&Text {
                words: ", label ",
                key: "label",
                offset: label_offset,
                bytes: label,
            });
            fields.text(&Text {
                words: ", protocol ",
                key: "protocol",
                offset: label_offset.saturating_add(label_size),
                bytes: protocol,
            })
        }
        _ => fields.no_message(),
    }
}

/// Hands over the numbers of a DATA_CHANNEL_OPEN at an offset of a chunk.
fn walk_open<F: Fields>(offset: usize, chunk: &Item<'_>, fields: &mut F) {
    let typ_offset = offset.saturating_add(1);
    let typ = Number::read(": ", "channel_type", chunk, typ_offset, 1);
    match channel_type_name(typ.value) {
        Some(name) => fields.word(&typ, name),
        None => {
            let words = ": channel type ";
            fields.number(&Number::read(words, "channel_type", chunk, typ_offset, 1));
        }
    }
    let priority_offset = offset.saturating_add(2);
    fields.number(&Number::read(", priority ", "priority", chunk, priority_offset, 2));
    // Of a reliable channel it means nothing.
    let (words, form) = match typ.value {
        0x00 | 0x80 => ("", Form::Decimal),
        0x02 | 0x82 => (", reliability ", Form::Milliseconds),
        _ => (", reliability ", Form::Decimal),
    };
    let reliability = Number::read(words, "reliability", chunk, offset.saturating_add(4), 4);
    fields.number(&reliability.in_form(form))
}
