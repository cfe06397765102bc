//! The numbers of packets, where several files are read.

use dcsctp_report::printed::Unquoted;
use std::fmt;

/// A packet's number.
#[derive(Clone, Copy, PartialEq, Eq)]
pub struct PacketNumber {
    /// The place of its file in the list of inputs, from 0 on.
    pub file: u32,
    /// Its number in that file.
    pub number: u64,
}

/// A packet's number as text, as `packet 2`, or `packet 2 of NAME` if there are several files.
#[derive(Clone, Copy)]
pub struct PacketText<'a> {
    /// The packet's number.
    pub packet: PacketNumber,
    /// The files' names.
    pub files: &'a [String],
}

impl<'a> fmt::Display for PacketText<'a> {
    fn fmt<W: fmt::Write>(&self, f: &mut fmt::Formatter<W>) -> fmt::Result {
        let number = self.packet.number;
        write!(f, "packet {number}")?;
        match file_of(self.packet, self.files) {
            Some(name) => {
                let name = Unquoted(name.as_bytes());
                write!(f, " of {name}")
            }
            None => Ok(()),
        }
    }
}

/// Returns the name of a packet's file, if files have names.
pub fn file_of<'a>(packet: PacketNumber, files: &'a [String]) -> Option<&'a str> {
    match files.get(packet.file as usize) {
        Some(name) => Some(name.as_str()),
        None => None,
    }
}
