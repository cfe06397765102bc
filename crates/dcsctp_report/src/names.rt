//! The names of types and codes, as they are printed.

use crate::registry::{address_name, cause_name, chunk_name, hmac_name, parameter_name};
use std::fmt;

/// What an item is.
#[derive(Clone, Copy)]
pub enum Level {
    Chunk,
    Parameter,
    Cause,
}

impl Level {
    /// Returns the word for such an item.
    pub fn word(self) -> &'static str {
        match self {
            Level::Chunk => "chunk",
            Level::Parameter => "parameter",
            Level::Cause => "cause",
        }
    }
}

/// The name of a chunk type; its number, as `chunk type 99 (0x63)`, where it has none.
#[derive(Clone, Copy)]
pub struct ChunkName(pub u8);

impl ChunkName {
    /// Returns whether the type has a name.
    pub fn is_known(self) -> bool {
        chunk_name(self.0 as u32).is_some()
    }
}

impl fmt::Display for ChunkName {
    fn fmt<W: fmt::Write>(&self, f: &mut fmt::Formatter<W>) -> fmt::Result {
        let typ = self.0;
        match chunk_name(typ as u32) {
            Some(name) => f.write_str(name),
            None => write!(f, "chunk type {typ} ({typ:#04x})"),
        }
    }
}

/// The name of an error cause after its code, as `cause 0x000c User-Initiated Abort`; where it has
/// none its number, as `cause code 99 (0x0063)`.
#[derive(Clone, Copy)]
pub struct CauseName(pub u16);

impl fmt::Display for CauseName {
    fn fmt<W: fmt::Write>(&self, f: &mut fmt::Formatter<W>) -> fmt::Result {
        let code = self.0;
        match cause_name(code) {
            Some(name) => write!(f, "cause {code:#06x} {name}"),
            None => write!(f, "cause code {code} ({code:#06x})"),
        }
    }
}

/// The name of an item: of a chunk and an error cause as above, and of a parameter as of a cause.
#[derive(Clone, Copy)]
pub struct ItemName {
    pub level: Level,
    /// A parameter's type, or a cause's code; the first byte alone is a chunk's type.
    pub code: u16,
}

impl fmt::Display for ItemName {
    fn fmt<W: fmt::Write>(&self, f: &mut fmt::Formatter<W>) -> fmt::Result {
        let code = self.code;
        match self.level {
            Level::Chunk => {
                let name = ChunkName(code.to_be_bytes()[0]);
                write!(f, "{name}")
            }
            Level::Parameter => match parameter_name(code) {
                Some(name) => write!(f, "parameter {code:#06x} {name}"),
                None => write!(f, "parameter type {code} ({code:#06x})"),
            },
            Level::Cause => {
                let name = CauseName(code);
                write!(f, "{name}")
            }
        }
    }
}

/// What the numbers of a list mean.
#[derive(Clone, Copy)]
pub enum NamedBy {
    /// A chunk type.
    Chunk,
    /// The type of an address.
    Address,
    /// The identifier of an HMAC.
    Hmac,
}

/// A number that has a meaning; its name, or itself where it has none.
#[derive(Clone, Copy)]
pub struct Named {
    pub number: u32,
    pub by: NamedBy,
}

impl Named {
    /// Returns its name.
    pub fn name(self) -> Option<&'static str> {
        match (self.by, self.number) {
            (NamedBy::Chunk, typ) => chunk_name(typ),
            (NamedBy::Address, typ) => address_name(typ),
            (NamedBy::Hmac, identifier) => hmac_name(identifier),
        }
    }
}

impl fmt::Display for Named {
    fn fmt<W: fmt::Write>(&self, f: &mut fmt::Formatter<W>) -> fmt::Result {
        let number = self.number;
        match (self.name(), self.by) {
            (Some(name), _) => f.write_str(name),
            (None, NamedBy::Chunk) => write!(f, "{number:#04x}"),
            (None, _) => write!(f, "{number}"),
        }
    }
}
