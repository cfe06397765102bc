//! Lines of bytes without offsets, of which several may be a packet.

use crate::hex_bytes::{begins_with_byte, without_blanks_before};
use crate::line::{DumpForm, offset_length};
use crate::parts::after;

/// How a line of bytes is written.
#[derive(Clone, Copy)]
pub(crate) struct Row {
    /// The form: of `xxd -p`, or of `od -An -t x1`.
    pub form: DumpForm,
    /// Whether it has as many bytes as each line but the last.
    pub is_full: bool,
}

/// Returns how a line is written; nothing if it isn't as `xxd -p` or `od -An -t x1` writes it.
pub(crate) fn row_of(line: &[u8]) -> Option<Row> {
    let digits = offset_length(line);
    if digits > 0 {
        row_in(DumpForm::PlainXxd, 60, digits, line)
    } else {
        row_in(DumpForm::PlainOd, 48, spaced_length(line), line)
    }
}

/// Returns a row whose bytes take so much of a line, where a full one has `most`.
fn row_in(form: DumpForm, most: usize, size: usize, line: &[u8]) -> Option<Row> {
    if size <= most && without_blanks_before(after(line, size)).is_empty() {
        Some(Row {
            form,
            is_full: size == most,
        })
    } else {
        None
    }
}

/// Returns how much of a line is bytes of two digits with a space before each.
fn spaced_length(line: &[u8]) -> usize {
    for place in 0..line.len() {
        if place % 3 == 0 && !is_spaced(&line[place..]) {
            return place;
        }
    }
    line.len()
}

/// Returns whether a space is at the front, and a byte after it.
fn is_spaced(text: &[u8]) -> bool {
    text.starts_with(b" ") && begins_with_byte(after(text, 1))
}
