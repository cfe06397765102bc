//! Short names that options hold.

/// The most bytes of a name.
const MOST_BYTES: usize = 64;

/// A name of up to 64 bytes.
#[derive(Clone, Copy)]
pub struct Name {
    bytes: [u8; MOST_BYTES],
    length: usize,
}

impl Name {
    /// Returns a name; `None` if it is longer.
    pub fn new(text: &[u8]) -> Option<Name> {
        let mut name = Name {
            bytes: [0; MOST_BYTES],
            length: text.len(),
        };
        if text.len() > MOST_BYTES {
            return None;
        }
        name.bytes[..text.len()].copy_from_slice(text);
        Some(name)
    }

    /// Returns whether it is this text.
    pub fn is(&self, text: &[u8]) -> bool {
        match self.bytes.get(..self.length) {
            Some(bytes) => bytes == text,
            None => false,
        }
    }
}
