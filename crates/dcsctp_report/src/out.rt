//! A formatter that is written to without results.

use std::fmt::{self, Display};

/// Writes into a formatter. Once that failed, nothing more is written: so what writes needs no
/// result.
#[derive(Drop)]
pub struct Out<'f, W> {
    f: &'f mut fmt::Formatter<W>,
    written: fmt::Result,
}

impl<'f, W: fmt::Write> Out<'f, W> {
    /// Begins to write.
    pub fn new(f: &'f mut fmt::Formatter<W>) -> Out<'f, W> {
        Out { f, written: Ok(()) }
    }

    /// Writes what `write!` is given.
    pub fn write_fmt<D: Display + Drop>(&mut self, value: D) {
        if self.written.is_ok() {
            self.written = self.f.write_fmt(value);
        }
    }

    /// Writes these words.
    pub fn say(&mut self, words: &str) {
        if self.written.is_ok() {
            self.written = self.f.write_str(words);
        }
    }

    /// Ends. Returns an error if the formatter failed.
    pub fn end(&self) -> fmt::Result {
        self.written
    }
}
