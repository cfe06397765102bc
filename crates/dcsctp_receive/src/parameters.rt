//! Parameters that a chunk has to have, and an error cause.

ghost use Rattle.std.specs.Prelude.{◌≡◌};
ghost use Rattle.dcsctp_borrowed.specs.Part.{part_of, item_of};
ghost use Rattle.dcsctp_receive.specs.Fields.{lacks_parameter, has_no_cookie, has_no_heartbeat_info, is_stale_cookie_error};

use crate::chunk_type;
use crate::items::has_numbered;
use dcsctp_borrowed::part::{Item, Part};
use dcsctp_wire::packet::init_chunk::InitNumbers;
use dcsctp_wire::packet::{heartbeat_info_parameter, state_cookie_parameter};

/// Heartbeat Info (RFC 9260 section 3.3.5).
const HEARTBEAT_INFO: u8 = heartbeat_info_parameter::PARAMETER_TYPE as u8;

/// State Cookie (RFC 9260 section 3.3.3).
pub(crate) const STATE_COOKIE: u8 = state_cookie_parameter::PARAMETER_TYPE as u8;

/// Host Name Address (RFC 9260 section 3.3.2.1.4).
pub(crate) const HOST_NAME_ADDRESS: u8 = 11;

/// The error cause Stale Cookie (RFC 9260 section 3.3.10.3).
const STALE_COOKIE: u8 = 3;

/// Returns whether it is an INIT ACK, all of which was captured, without a State Cookie.
pub(crate) fn has_no_cookie(chunk: Item<'_>) -> bool
    ensures { result ≡ has_no_cookie (item_of chunk.entry) }
{
    chunk.first == chunk_type::INIT_ACK
        && lacks_parameter(chunk.value.after(InitNumbers::SIZE), STATE_COOKIE)
}

/// Returns whether it is a HEARTBEAT, all of which was captured, without a Heartbeat Info.
pub(crate) fn has_no_heartbeat_info(chunk: Item<'_>) -> bool
    ensures { result ≡ has_no_heartbeat_info (item_of chunk.entry) }
{
    chunk.first == chunk_type::HEARTBEAT && lacks_parameter(chunk.value, HEARTBEAT_INFO)
}

/// Returns whether all of the list was captured, and no parameter in it is of the type.
fn lacks_parameter(list: Part<'_>, typ: u8) -> bool
    ensures { result ≡ lacks_parameter typ (part_of list.entry) }
{
    list.bytes.len() >= list.size && !has_numbered(list, typ)
}

/// Returns whether it is an ERROR with the cause Stale Cookie.
pub(crate) fn is_stale_cookie_error(chunk: Item<'_>) -> bool
    ensures { result ≡ is_stale_cookie_error (item_of chunk.entry) }
{
    chunk.first == chunk_type::ERROR && has_numbered(chunk.value, STALE_COOKIE)
}
