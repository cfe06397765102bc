//! The parts of a log's line that are kept as they are written.

ghost use Rattle.std.specs.Prelude.{◌≡◌, ℕ, List};

use std::marker::Model;

/// A word of a log's line, as it is written.
#[derive(Debug, Drop)]
pub struct LogText<'a> {
    text: &'a [u8],
}

impl<'a> Model for LogText<'a> {
    ghost Value = { List ℕ };

    ghost view = { λ t. t.text.now };
}

impl<'a> LogText<'a> {
    /// Returns the word that is written as these bytes.
    pub(crate) fn new(text: &'a [u8]) -> LogText<'a>
        ensures { result ≡ text.now }
    {
        LogText { text }
    }

    /// Returns the word as it is written.
    pub fn as_bytes(&self) -> &'a [u8]
        ensures { result.now ≡ self.now }
    {
        self.text
    }
}
