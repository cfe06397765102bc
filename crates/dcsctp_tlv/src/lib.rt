//! Frames, and lists of them: what chunks, parameters and error causes of SCTP have in common; and
//! parameters.
#![tactic(auto)]

pub mod copy;
pub mod error;
pub mod fields;
pub mod frame;
pub mod kind;
pub mod list;
pub mod number;
pub mod parameter;
pub mod reader;
pub mod skipped_stream;
pub mod text;
pub mod tlv;
pub mod widths;
