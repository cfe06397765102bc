//! The user data of a chunk.

ghost use Rattle.std.specs.Prelude.{◌≡◌, option_map};
ghost use Rattle.dcsctp_wire.specs.Caller.{chunk_view, user_data_view, user_data_of};

use dcsctp_wire::packet::chunk::Chunk;
use dcsctp_wire::packet::data::Data;

/// Returns the user data of DATA or I-DATA, without a copy; `None` for any other chunk.
pub fn user_data(chunk: Chunk) -> Option<Data>
    ensures { option_map user_data_view result ≡ user_data_of (chunk_view chunk) }
{
    match chunk {
        Chunk::Data(data) => Some(data.user_data),
        Chunk::IData(data) => Some(data.user_data),
        _ => None,
    }
}
