//! Answers rows of calls on the library: reads a table on standard input, and prints it with what
//! the library answers. The README says how a row reads, and how one is added.
//!
//! ```text
//! # the type of a COOKIE ACK, with flags
//! packet 0bff0004 = 1 | COOKIE-ACK -> 0b000004
//! ```
//!
//! The table that is printed has to be the table that was read: `stdin` and `stdout` are one text.
#![tactic(auto)]

mod answer;
mod auth;
mod buffers;
mod built;
mod captures;
mod checksums;
mod frames;
mod hostile;
mod in_place;
mod kept;
mod kinds;
mod made;
mod packets;
mod receive;
mod registry;
mod rows;
mod sack;
mod values;

use std::io;

fn main(rt: HostRuntime) -> io::Result<()> {
    let rows = io::read_to_string(rt.alloc(), rt.reader())?;
    let answered = rows::answered(rt.alloc(), &rows)?;
    rt.print(answered.as_str())
}
