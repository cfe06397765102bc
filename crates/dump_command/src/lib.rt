//! What the arguments ask for (`options`), what was counted, and what is printed (`text`): all of the
//! program `sctp_dump` that needs no system.
#![tactic(auto)]

mod counts;
mod failure;
mod files;
mod labels;
mod options;
mod text;
mod tracker;

pub use crate::counts::{Counts, Judged, Verdict};
pub use crate::failure::Failure;
pub use crate::files::Files;
pub use crate::options::arguments::{Action, HELP, Request, STANDARD_INPUT, VERSION, request_of};
pub use crate::options::{Options, OutputForm};
pub use crate::text::clock::{Clock, direction_of, transport_of};
pub use crate::text::frame_text::{SeenFrame, SeenLines};
pub use crate::text::pcapng_frame::pcapng_frame;
pub use crate::text::render::{
    Shown, push_association, push_associations, push_channels, push_counts, push_file,
    push_left_out, push_messages, push_packet, push_skipped,
};
pub use crate::text::skipped::{Said, SkippedLine, frame_reason_of};
pub use crate::tracker::Tracker;
