//! Reads, checks, prints and writes SCTP packets (RFC 9260) for programs in C, and in whatever
//! calls C; `include/dcsctp.h` declares each exported function, and says what its caller has to
//! keep to.
//!
//! No exported function has a `requires`, since nothing checks a caller in C: each takes any bytes,
//! offsets and sizes. An output changes only where the contract says so.
#![tactic(auto)]

mod add_registered;
mod auth;
mod codes;
mod fill;
mod in_place;
mod lists;
mod packet;
mod parameters;
mod parts;
mod re_config;
mod read;
mod read_many;
mod receive;
mod registered;
mod registered_by_type;
mod report;
mod rules;
mod structs;
mod version;
mod writing;
