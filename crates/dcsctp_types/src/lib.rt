//! Serial numbers, ids, times, messages and settings, which every layer of SCTP speaks of.
//!
//! Nothing here takes memory.
#![tactic(auto)]

pub mod api;
pub mod laws;
pub mod types;
