//! What RFC 9260 asks of whoever receives a packet, before the state of an association matters;
//! which rules of the RFCs a packet breaks (`rule`); and message authentication: HMAC, AUTH chunks
//! and State Cookies (`hmac`, `auth`, `shared_key`, `cookie`).
//!
//! Functions of bytes and of a little state, for any bytes: what is done with a type that isn't
//! recognized, with a packet by its Verification Tag, with one that belongs to no association, and
//! with an INIT or an INIT ACK that can't be processed. What is sent back then is written by
//! `dcsctp_buffer`. Nothing is kept, nothing allocates, and nothing looks at a clock: keys and
//! times are the caller's.
#![tactic(auto)]

pub mod action;
pub mod auth;
pub mod chunk_test;
pub mod chunk_type;
pub mod cookie;
mod equality;
pub mod fields;
pub mod hmac;
pub mod initiation;
mod items;
pub mod laws;
pub mod out_of_the_blue;
mod parameters;
mod pieces;
mod reply;
mod reported;
pub mod restart;
pub mod rule;
pub mod shared_key;
pub mod unrecognized;
pub mod verification_tag;
