//! All that a packet holds, as text: plain lines, one fact a line, and two blanks deeper what is
//! inside; as JSON; and in a part of one line. Of a refused packet, and of one that was cut off,
//! what can be read of it.
//!
//! It reads the packet where it lies, and does not allocate. One walk hands over what there is, to
//! what writes one form of it. It is proved safe and total. Clauses say what is written of a peer's
//! text, as a string of JSON, between quotation marks and as one word, and of bytes as digits; what
//! else is written rows say, and names are those of the registry, whose table is compared.
#![tactic(auto)]

mod brief;
mod causes;
pub mod channel;
mod chunks;
mod fault;
mod fields;
mod held;
pub mod hexadecimal;
mod json;
pub mod json_text;
pub mod laws;
mod lists;
pub mod names;
mod out;
mod packet;
mod parameters;
pub mod payload;
pub mod printed;
mod registered;
pub mod registry;
mod shown;
mod text;

pub use crate::fault::FaultReport;
pub use crate::packet::{ChecksumReport, ChunkReport, PacketBrief, PacketJson, PacketReport};
