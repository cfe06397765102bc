//! User data as it is printed: in rows, and as text.

use crate::hexadecimal::{ROW, write_row};
use crate::printed::Quoted;
use std::fmt;

/// Rows of sixteen bytes, each after a line break: the last four digits of its offset, its bytes in
/// hexadecimal, and as ASCII, where a dot is what isn't printable.
#[derive(Clone, Copy)]
pub struct Rows<'a>(pub &'a [u8]);

impl<'a> fmt::Display for Rows<'a> {
    fn fmt<W: fmt::Write>(&self, f: &mut fmt::Formatter<W>) -> fmt::Result {
        let mut rest = self.0;
        for i in 0..rest.len().div_ceil(ROW) {
            let (row, after) = rest.split_at(rest.len().min(ROW));
            write_row(ROW * i, row, f)?;
            rest = after;
        }
        Ok(())
    }
}

/// A string of WebRTC on a line of its own, whose bytes are in rows above: all of it, if it is
/// UTF-8 (RFC 8831 section 6.6).
#[derive(Clone, Copy)]
pub struct TextLine<'a>(pub &'a [u8]);

impl<'a> fmt::Display for TextLine<'a> {
    fn fmt<W: fmt::Write>(&self, f: &mut fmt::Formatter<W>) -> fmt::Result {
        if str::from_utf8(self.0).is_err() {
            return f.write_str("\n  text: not UTF-8");
        }
        let quoted = Quoted(self.0);
        write!(f, "\n  text: {quoted}")
    }
}

/// A number of bytes, as `1 byte` or `2 bytes`.
#[derive(Clone, Copy)]
pub struct ByteCount(pub usize);

impl fmt::Display for ByteCount {
    fn fmt<W: fmt::Write>(&self, f: &mut fmt::Formatter<W>) -> fmt::Result {
        let (count, unit) = (self.0, if self.0 == 1 { "byte" } else { "bytes" });
        write!(f, "{count} {unit}")
    }
}
