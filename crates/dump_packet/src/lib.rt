//! A packet of a capture, and what every report of the tool is made of: how a packet is numbered
//! and when it was captured, whether it passes a filter (`filter`), which rules of the RFCs it
//! breaks (`warnings`), what TSNs it acknowledges, and how a report is written (`report`).
//!
//! Every function reads a packet where it lies, as far as it can be read: refused and cut packets
//! too. What a filter asks and what a rule says is defined by what is in a packet's header and
//! chunks: in `specs/` and in those of `dcsctp_receive`. What is written is proved safe and total: no
//! clause says what a text is.
#![tactic(auto)]

mod acknowledgement;
mod closed;
mod count;
mod delays;
mod filter;
pub mod laws;
mod moment;
mod packet_number;
mod pair_key;
mod report;
mod seen_packet;
mod sendings;
mod serial;
mod side;
mod unanswered;
mod warnings;

pub use crate::acknowledgement::Acknowledgement;
pub use crate::closed::Closed;
pub use crate::count::increase;
pub use crate::delays::Delays;
pub use crate::filter::{Arrival, Bound, Filter, Host, VALUES, asks_nothing};
pub use crate::moment::Moment;
pub use crate::packet_number::PacketNumber;
pub use crate::pair_key::{MOST_KEY, PairKey};
pub use crate::report::ReportWriter;
pub use crate::report::text::Text;
pub use crate::report::time::{TimeForm, TimeReport, TimeStyle, days_before};
pub use crate::seen_packet::SeenPacket;
pub use crate::sendings::{Resent, ResentBrief, Sendings};
pub use crate::serial::is_after;
pub use crate::side::{EndKey, Side};
pub use crate::unanswered::{Unanswered, digest};
pub use crate::warnings::{WarningCounts, WarningLines, Warnings, WarningsBrief, WarningsJson};
