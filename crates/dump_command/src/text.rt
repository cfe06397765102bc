//! What is printed, beside the reports.

pub mod clock;
pub mod frame_text;
pub mod log_clock;
pub mod pcapng_frame;
pub mod render;
pub mod skipped;
pub mod summary;
pub mod tunnel_text;
