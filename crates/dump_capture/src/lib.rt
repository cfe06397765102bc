//! Finds SCTP packets in captures: in pcap and pcapng files, in frames of a link, and in lines of
//! text.
//!
//! Every function takes bytes in memory. What is returned of files and frames, and written of them,
//! a definition of `specs/` says, and so it does what digits say; the forms of lines of text are
//! tested. Only `TextDecoder::new`, `PcapngDecoder::new`, `PcapngWriter` and what puts fragments
//! together allocate.
#![tactic(auto)]

pub mod decoder;
mod dump;
mod erspan;
pub mod event;
pub mod frame;
mod geneve;
mod gre;
mod gtp;
pub mod hex_bytes;
pub mod icmp;
pub mod ip_fragment;
pub mod laws;
pub mod line;
pub mod log_text;
mod nflog;
mod parts;
mod payload;
pub mod pcap;
pub mod pcap_decoder;
pub mod pcapng;
pub mod pcapng_decoder;
pub mod pcapng_writer;
mod ppp;
pub mod reassembler;
pub mod reassembly;
mod row;
pub mod stamp;
pub mod text;
mod tunnel;
pub mod tunnels;
mod vxlan;
