//! What became of each user message (`messages`), and of all messages of a channel or of a stream
//! (`channels`), in bounded memory.
//!
//! Of a message `specs/` says when it is whole and acknowledged, of a channel what is counted of it.
//! What is written is proved safe and total: no clause says what a text is.
#![tactic(auto)]

mod channels;
mod messages;

pub use crate::channels::Channels;
pub use crate::channels::channel_table::ChannelTable;
pub use crate::channels::data_channel::label_of;
pub use crate::channels::report::ChannelReport;
pub use crate::messages::Messages;
pub use crate::messages::fragment::stream_of;
pub use crate::messages::message::{EndedMessage, Message};
pub use crate::messages::report::MessageReport;
