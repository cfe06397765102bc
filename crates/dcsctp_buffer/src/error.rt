//! Why nothing was written.

use thiserror::Error;

/// Why a packet isn't begun, added to or sealed. Nothing was changed.
#[derive(Clone, Copy, Debug, PartialEq, Eq, Error)]
pub enum WriteError {
    /// No packet has this size; or no chunk begins at the place and ends the packet.
    #[error("No packet has this size, or no chunk begins there and ends it")]
    BadPlace,
    /// It can't be written: two bytes can't hold a length, or a field has no place for a number.
    #[error("The value can't be written")]
    BadValue,
    /// The buffer, or the 65,532 bytes that a packet can have, have no room for it.
    #[error("The packet has no room for it")]
    NoRoom,
}
