//! The inputs that were begun.

use dump_packet::PacketNumber;
use std::alloc::{AllocError, Global};

/// The names of the inputs that were begun.
#[derive(Drop)]
pub struct Files {
    alloc: Global,
    names: Vec<String>,
    /// There are several, so that each is named.
    are_named: bool,
}

impl Files {
    /// Returns the names of none.
    pub fn new(alloc: Global) -> Files {
        Files {
            alloc,
            names: Vec::new(alloc),
            are_named: false,
        }
    }

    /// Begins an input.
    pub fn begin(&mut self, name: &str, is_named: bool) -> Result<(), AllocError> {
        self.are_named = is_named;
        self.names.push(String::from_str(self.alloc, name)?)?;
        Ok(())
    }

    /// Returns the names, if inputs are named; else none.
    pub fn named(&self) -> &[String] {
        if self.are_named {
            self.names.as_slice()
        } else {
            &[]
        }
    }

    /// Returns the name of the input that was begun last, if inputs are named.
    pub fn last(&self) -> Option<&str> {
        match self.named().last() {
            Some(name) => Some(name.as_str()),
            None => None,
        }
    }

    /// Returns a packet's number, with the place of its input.
    pub fn number_of(&self, number: u64) -> PacketNumber {
        let file = u32::try_from(self.names.len())
            .unwrap_or(u32::MAX)
            .saturating_sub(1);
        PacketNumber { file, number }
    }
}
