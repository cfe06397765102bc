//! How bytes of a packet are printed.

use crate::hexadecimal::write_digits;
use crate::payload::ByteCount;
use dcsctp_borrowed::part::Part;
use std::fmt;

/// The most bytes of a value that are shown, unless all are.
const MOST_SHOWN: usize = 16;

/// How many bytes a part has, and how many were captured, if that isn't all.
#[derive(Clone, Copy)]
pub struct Size<'a>(pub Part<'a>);

impl<'a> fmt::Display for Size<'a> {
    fn fmt<W: fmt::Write>(&self, f: &mut fmt::Formatter<W>) -> fmt::Result {
        let (captured, size) = (self.0.bytes.len(), ByteCount(self.0.size));
        write!(f, "{size}")?;
        if self.0.is_whole() {
            return Ok(());
        }
        write!(f, ", {captured} captured")
    }
}

/// The size of a part, and its bytes: the first ones, unless all are shown.
#[derive(Clone, Copy)]
pub struct ShownBytes<'a> {
    pub part: Part<'a>,
    pub shows_all: bool,
}

impl<'a> fmt::Display for ShownBytes<'a> {
    fn fmt<W: fmt::Write>(&self, f: &mut fmt::Formatter<W>) -> fmt::Result {
        let (size, bytes) = (Size(self.part), self.part.bytes);
        write!(f, "{size}")?;
        if bytes.is_empty() {
            return Ok(());
        }
        f.write_str(": ")?;
        let shown = if self.shows_all {
            bytes.len()
        } else {
            bytes.len().min(MOST_SHOWN)
        };
        write_digits(&bytes[..shown], f)?;
        if shown < self.part.size {
            f.write_str(" ..")?;
        }
        Ok(())
    }
}
