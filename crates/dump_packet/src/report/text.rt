//! A text that is written without results.

use std::alloc::AllocError;
use std::fmt::Display;

/// Writes at the end of a string. Once memory ran out, nothing more is written: so what writes
/// needs no result.
#[derive(Drop)]
pub struct Text<'a> {
    text: &'a mut String,
    written: Result<(), AllocError>,
}

impl<'a> Text<'a> {
    /// Begins at the end of the string.
    pub fn new(text: &'a mut String) -> Text<'a> {
        Text {
            text,
            written: Ok(()),
        }
    }

    /// Writes what `write!` is given.
    pub fn write_fmt<D: Display + Drop>(&mut self, value: D) {
        if self.written.is_ok() {
            self.written = self.text.write_fmt(value);
        }
    }

    /// Writes these words.
    pub fn say(&mut self, words: &str) {
        if self.written.is_ok() {
            self.written = self.text.push_str(words);
        }
    }

    /// Writes a key of a JSON object and its value, with a comma before them.
    pub fn pair<D: Display + Drop>(&mut self, key: &str, value: D) {
        write!(self, ",\"{key}\":{value}");
    }

    /// Writes a key of a JSON object and a text without escapes, with a comma before them.
    pub fn word<D: Display + Drop>(&mut self, key: &str, value: D) {
        write!(self, ",\"{key}\":\"{value}\"");
    }

    /// Ends the text. Returns `AllocError` if memory ran out.
    pub fn end(&self) -> Result<(), AllocError> {
        self.written
    }
}
