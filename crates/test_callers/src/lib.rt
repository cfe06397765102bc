//! Small programs over the wire layer, as its callers write them: each is a file of its own, whole,
//! and has a contract that follows from the library's clauses alone. docs/CALLING.md shows them.
//!
//! `probes` has what a benchmark calls from C, and `tests` the tests of what no bytes say.
#![tactic(auto)]

pub mod acknowledge;
pub mod answer;
pub mod blocks;
pub mod checksum;
pub mod filter;
pub mod handshake;
pub mod in_place;
pub mod normal;
pub mod payload;
pub mod print;
pub mod probes;
pub mod replay;
pub mod sealed;
#[cfg(test)]
mod tests;
