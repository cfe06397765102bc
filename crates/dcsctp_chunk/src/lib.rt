//! Raw chunks, and the kinds of chunk that hold no list of parameters or error causes.
#![tactic(auto)]

pub mod chunk_validators;
pub mod cookie_ack_chunk;
pub mod cookie_echo_chunk;
pub mod data;
pub mod data_chunk;
pub mod flags;
pub mod forward_tsn_chunk;
pub mod idata_chunk;
pub mod iforward_tsn_chunk;
pub mod plain_check;
pub mod raw_chunk;
pub mod sack_chunk;
pub mod shutdown_ack_chunk;
pub mod shutdown_chunk;
pub mod shutdown_complete_chunk;
pub mod skipped_streams;
pub mod unknown_chunk;
