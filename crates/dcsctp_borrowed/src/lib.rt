//! SCTP packets in their own bytes: read without memory, and changed in place.
//!
//! A packet that was checked is a header and an iterator over its chunks, which can't fail; user
//! data, a SACK, skipped streams, parameters and those of RE-CONFIG, error causes, the types of
//! missing parameters, a cookie and a heartbeat's info are read where they lie. What is read here
//! is what `dcsctp_wire` builds, by the same clauses. `canonical` writes the canonical packet of a
//! packet in place, which is that of what `dcsctp_wire` builds of it, and the same for two packets
//! if and only if they mean the same, which `meaning` returns without writing any. Of a packet that
//! may have been cut off, `part` reads the items that are there. `packet_buf` has a packet that
//! owns its bytes, which alone takes memory.
#![tactic(auto)]

pub mod canonical;
pub mod checked_chunks;
pub mod checksum;
pub mod cookie_echo;
pub mod forward_tsn_ref;
pub mod heartbeat_info;
pub mod in_place;
pub mod laws;
pub mod meaning;
pub mod missing_parameters;
pub mod numbers;
pub mod packet_buf;
pub mod packet_ref;
pub mod part;
pub mod raw_causes;
pub mod raw_chunks;
pub mod raw_parameters;
pub mod re_config_ref;
pub mod sack_ref;
pub mod user_data;
