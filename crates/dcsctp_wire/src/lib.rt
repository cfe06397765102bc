//! SCTP packets: read, written, sized and printed.
//!
//! `types` and `api` are those of `dcsctp_types`; `packet` has the packet, the chunks and what
//! they are made of.
#![tactic(auto)]

pub mod laws;
pub mod packet;

pub use dcsctp_types::{api, types};
