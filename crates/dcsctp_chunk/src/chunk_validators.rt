//! The gap ack blocks of a SACK (RFC 9260 section 3.3.4): whether they are in order, and their
//! cleaning.
//!
//! A block covers the offsets from its start to its end, counted from the cumulative TSN; one that
//! ends before its start covers none.

mod clean;
mod runs;
mod validate;

pub use crate::chunk_validators::clean::{clean_blocks, clean_in_place, clean_sack};
pub use crate::chunk_validators::validate::validate_sack;
