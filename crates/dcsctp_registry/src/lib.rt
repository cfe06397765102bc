//! What IANA's registry of SCTP has beyond the kinds of `dcsctp_wire`, read in a packet's bytes and
//! written.
//!
//! An owned packet keeps these chunks, parameters and error causes as bytes, of a type that isn't
//! named. How the value of each type is laid out is data: a row of a table, which registry/make.py
//! writes of registry/sctp.txt, in the code and in the definition. By it one reader and one writer
//! serve all: addresses (RFC 9260 section 3.3.2.1), what a peer didn't recognize (sections 3.3.3.1.2
//! and 3.3.10), congestion (RFC 4960 appendix A, whose numbers RFC 9260 reserves), what
//! authenticates chunks (RFC 4895), changes addresses (RFC 5061) or makes packets longer (RFC
//! 4820), NR-SACK and PKTDROP. Nothing is copied and no memory taken. A list of items is checked one
//! level deep: what is in an item, its own reader reads.
//!
//! What is written reads as the same. A chunk is added by `dcsctp_buffer::add`; a parameter or an
//! error cause by `add_written` of `dcsctp_buffer::item`, at the end of the last chunk, as the
//! requests of an ASCONF that was added with an empty list.
#![tactic(auto)]

pub mod address;
pub mod cause_layouts;
pub mod chunk_layouts;
pub mod items;
pub mod layout;
pub mod parameter_layouts;
pub mod read;
pub mod registered;
pub mod registered_chunk;
pub mod short_numbers;
pub mod value_bytes;
