//! The answer of a row, and the bytes that it is made of.

use hex::FromHexError;
use std::alloc::{AllocError, Global};
use std::fmt::{self, Display};

/// Why an answer ended, if it did.
#[derive(Clone, Copy, PartialEq, Eq)]
pub enum End {
    /// It goes on.
    No,
    /// Memory ran out.
    Memory,
    /// The row can't be read.
    Row,
}

impl End {
    /// Returns what is said then.
    pub fn words(self) -> &'static str {
        match self {
            End::No => "",
            End::Memory => "no memory",
            End::Row => "no row",
        }
    }
}

/// What a row is answered with. Nothing more is written once it ends: when memory ran out, or the
/// row can't be read. So what writes it needs no result.
#[derive(Drop)]
pub struct Answer {
    pub alloc: Global,
    pub text: String,
    /// Whether it ended, and why.
    pub end: End,
}

impl Answer {
    /// Returns an empty answer.
    pub fn new(alloc: Global) -> Answer {
        let (text, end) = (String::new(alloc), End::No);
        Answer { alloc, text, end }
    }

    /// Returns another empty answer, to be compared.
    pub fn another(&self) -> Answer {
        Answer::new(self.alloc)
    }

    /// Writes what `write!` is given.
    pub fn write_fmt<D: Display + Drop>(&mut self, value: D) {
        if self.end == End::No && self.text.write_fmt(value).is_err() {
            self.end = End::Memory;
        }
    }

    /// Writes these words.
    pub fn say(&mut self, words: &str) {
        if self.end == End::No && self.text.push_str(words).is_err() {
            self.end = End::Memory;
        }
    }

    /// Writes these words, unless it is so.
    pub fn unless(&mut self, is_so: bool, words: &str) {
        if !is_so {
            self.say(words)
        }
    }

    /// Ends if the other one ended.
    pub fn end_as(&mut self, other: &Answer) {
        if self.end == End::No {
            self.end = other.end;
        }
    }

    /// Writes the other answer.
    pub fn add(&mut self, other: &Answer) {
        self.end_as(other);
        self.say(&other.text)
    }

    /// Writes the other answer after these words, unless it is so.
    pub fn add_unless(&mut self, is_so: bool, words: &str, other: &Answer) {
        self.end_as(other);
        if !is_so {
            self.say(words);
            self.say(&other.text)
        }
    }

    /// Writes the other answer after these words, if it is another text.
    pub fn add_other(&mut self, words: &str, other: &Answer) {
        let is_same = self.text.as_str() == other.text.as_str();
        self.add_unless(is_same, words, other)
    }

    /// Returns what was made; none if memory ran out, and then the answer ends.
    pub fn or_out_of_memory<T>(&mut self, made: Result<T, AllocError>) -> Option<T> {
        match made {
            Ok(made) => Some(made),
            Err(AllocError) => {
                self.end = End::Memory;
                None
            }
        }
    }

    /// Adds the item to the list.
    pub fn push<T: Drop>(&mut self, list: &mut Vec<T>, item: T) {
        if list.push(item).is_err() {
            self.end = End::Memory;
        }
    }

    /// Returns the list that was made; an empty one if memory ran out.
    pub fn list<T: Drop>(&mut self, made: Result<Vec<T>, AllocError>) -> Vec<T> {
        self.or_out_of_memory(made).unwrap_or(Vec::new(self.alloc))
    }

    /// Returns a copy of the bytes.
    pub fn copy(&mut self, bytes: &[u8]) -> Vec<u8> {
        self.list(Vec::from_slice(self.alloc, bytes))
    }

    /// Returns this number of bytes `ee`.
    pub fn filled(&mut self, size: usize) -> Vec<u8> {
        self.list(vec![in self.alloc; 0xee; size])
    }

    /// Returns the bytes of words with blanks between them: digits, two a byte; or such digits, an
    /// asterisk, and how often they come.
    pub fn bytes_of(&mut self, words: &str) -> Vec<u8> {
        let mut bytes = Vec::new(self.alloc);
        for word in words.split_whitespace() {
            let (digits, often) = word.split_once("*").unwrap_or((word, "1"));
            let (part, often) = (self.decoded(digits), often.parse::<u16>().unwrap_or(0));
            if often == 0 {
                self.end = End::Row;
            }
            for _ in 0..often {
                self.or_out_of_memory(bytes.extend_from_slice(&part));
            }
        }
        bytes
    }

    /// Returns the bytes of these digits.
    fn decoded(&mut self, digits: &str) -> Vec<u8> {
        match hex::decode(self.alloc, digits) {
            Ok(bytes) => return bytes,
            Err(FromHexError::OutOfMemory) => self.end = End::Memory,
            Err(_) => self.end = End::Row,
        }
        Vec::new(self.alloc)
    }
}

/// Bytes as digits, with a space after each four of them; a dash where there are none.
#[derive(Clone, Copy)]
pub struct Digits<'a>(pub &'a [u8]);

impl Display for Digits<'_> {
    fn fmt<W: fmt::Write>(&self, f: &mut fmt::Formatter<W>) -> fmt::Result {
        if self.0.is_empty() {
            return write!(f, "-");
        }
        for (i, byte) in self.0.iter().enumerate() {
            let (mark, byte) = (if i % 4 == 0 && i > 0 { " " } else { "" }, *byte);
            write!(f, "{mark}{byte:02x}")?;
        }
        Ok(())
    }
}

/// An arrow and the second bytes, which were written, where these aren't the first, which were
/// read.
#[derive(Clone, Copy)]
pub struct Change<'a>(pub &'a [u8], pub &'a [u8]);

impl Display for Change<'_> {
    fn fmt<W: fmt::Write>(&self, f: &mut fmt::Formatter<W>) -> fmt::Result {
        if self.0 == self.1 {
            return Ok(());
        }
        write!(f, " -> {}", Digits(self.1))
    }
}

/// Returns the bytes from this place on.
pub fn from(bytes: &[u8], place: usize) -> &[u8] {
    bytes.get(place..).unwrap_or(&[])
}

/// Returns the first bytes; nothing if there are fewer.
pub fn front(bytes: &[u8], size: usize) -> &[u8] {
    bytes.get(..size).unwrap_or(&[])
}

/// Returns the first byte; 0 if there is none.
pub fn first(bytes: &[u8]) -> u8 {
    *bytes.first().unwrap_or(&0)
}

/// Returns the number of two bytes at this place; 0 if they aren't there.
pub fn short_at(bytes: &[u8], place: usize) -> u16 {
    match from(bytes, place) {
        [a, b, ..] => u16::from_be_bytes([*a, *b]),
        _ => 0,
    }
}

/// Returns the number of four bytes at this place; 0 if they aren't there.
pub fn word_at(bytes: &[u8], place: usize) -> u32 {
    match from(bytes, place) {
        [a, b, c, d, ..] => u32::from_be_bytes([*a, *b, *c, *d]),
        _ => 0,
    }
}

/// Replaces the byte at a place by one with these bits changed.
pub fn flip(bytes: &mut [u8], place: usize, bits: u8) {
    if let Some(byte) = bytes.get_mut(place) {
        *byte ^= bits;
    }
}
