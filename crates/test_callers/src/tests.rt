//! Tests of what no bytes say: traits, laws, constants and sizes; values with fields that aren't
//! carried; lists of thousands of blocks; devices that fail; and the programs of this crate. What
//! bytes say is a row of `test_rows`.

mod association;
mod builder;
mod devices;
mod facade;
mod frames;
mod help;
mod ids;
mod items;
mod laws;
mod packets;
mod sack;
mod sizes;
mod uses;
