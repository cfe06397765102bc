//! How the values of error causes are laid out that have no kind. registry/make.py writes this file:
//! registry/sctp.txt is edited in its place.

ghost use Rattle.std.specs.Prelude.{◌≡◌};
ghost use Rattle.dcsctp_registry.specs.{CauseLayouts.{cause_rows}, Registered.{layout_in}};

use crate::layout::{AddressForm, Layout, Rest};

/// The code of Invalid Stream Identifier (RFC 9260 section 3.3.10.1).
pub const INVALID_STREAM_IDENTIFIER: u16 = 1;

/// The index of the stream of Invalid Stream Identifier among its numbers of two bytes.
pub const INVALID_STREAM_IDENTIFIER_STREAM: usize = 0;

/// The code of Stale Cookie (RFC 9260 section 3.3.10.3).
pub const STALE_COOKIE: u16 = 3;

/// The index of the microseconds of Stale Cookie among its numbers of four bytes.
pub const STALE_COOKIE_MICROSECONDS: usize = 0;

/// The code of Out of Resource (RFC 9260 section 3.3.10.4).
pub const OUT_OF_RESOURCE: u16 = 4;

/// The code of Unresolvable Address (RFC 9260 section 3.3.10.5).
pub const UNRESOLVABLE_ADDRESS: u16 = 5;

/// The code of Invalid Mandatory Parameter (RFC 9260 section 3.3.10.7).
pub const INVALID_MANDATORY_PARAMETER: u16 = 7;

/// The code of Unrecognized Parameters (RFC 9260 section 3.3.10.8).
pub const UNRECOGNIZED_PARAMETERS: u16 = 8;

/// The code of Restart of an Association with New Addresses (RFC 9260 section 3.3.10.11).
pub const RESTART_WITH_NEW_ADDRESSES: u16 = 11;

/// The code of Request to Delete Last Remaining IP Address (RFC 5061 section 4.3.1).
pub const DELETE_LAST_REMAINING_IP_ADDRESS: u16 = 0x00a0;

/// The code of Operation Refused Due to Resource Shortage (RFC 5061 section 4.3.2).
pub const OPERATION_REFUSED: u16 = 0x00a1;

/// The code of Request to Delete Source IP Address (RFC 5061 section 4.3.3).
pub const DELETE_SOURCE_IP_ADDRESS: u16 = 0x00a2;

/// The code of Association Aborted due to illegal ASCONF-ACK (RFC 5061 section 4.3.4).
pub const ILLEGAL_ASCONF_ACK: u16 = 0x00a3;

/// The code of Request refused - no authorization (RFC 5061 section 4.3.5).
pub const REQUEST_REFUSED: u16 = 0x00a4;

/// The code of Unsupported HMAC Identifier (RFC 4895 section 4.1).
pub const UNSUPPORTED_HMAC_IDENTIFIER: u16 = 0x0105;

/// The index of the HMAC of Unsupported HMAC Identifier among its numbers of two bytes.
pub const UNSUPPORTED_HMAC_IDENTIFIER_HMAC: usize = 0;

/// Returns how the value of an error cause of this code
/// is laid out; `None` if and only if it isn't one of these.
#[tactic(auto, unfolding(crate::specs::CauseLayouts::cause_rows))]
pub fn cause_layout(code: u16) -> Option<Layout>
    ensures { result ≡ layout_in cause_rows code }
{
    let (numbers, short_numbers, reserved, address, rest) = match code {
        INVALID_STREAM_IDENTIFIER => (0, 1, 2, AddressForm::Nothing, Rest::Nothing),
        STALE_COOKIE => (1, 0, 0, AddressForm::Nothing, Rest::Nothing),
        OUT_OF_RESOURCE => (0, 0, 0, AddressForm::Nothing, Rest::Nothing),
        UNRESOLVABLE_ADDRESS => (0, 0, 0, AddressForm::Nothing, Rest::Items),
        INVALID_MANDATORY_PARAMETER => (0, 0, 0, AddressForm::Nothing, Rest::Nothing),
        UNRECOGNIZED_PARAMETERS => (0, 0, 0, AddressForm::Nothing, Rest::Items),
        RESTART_WITH_NEW_ADDRESSES => (0, 0, 0, AddressForm::Nothing, Rest::Items),
        DELETE_LAST_REMAINING_IP_ADDRESS => (0, 0, 0, AddressForm::Nothing, Rest::Items),
        OPERATION_REFUSED => (0, 0, 0, AddressForm::Nothing, Rest::Items),
        DELETE_SOURCE_IP_ADDRESS => (0, 0, 0, AddressForm::Nothing, Rest::Items),
        ILLEGAL_ASCONF_ACK => (0, 0, 0, AddressForm::Nothing, Rest::Nothing),
        REQUEST_REFUSED => (0, 0, 0, AddressForm::Nothing, Rest::Items),
        UNSUPPORTED_HMAC_IDENTIFIER => (0, 1, 0, AddressForm::Nothing, Rest::Nothing),
        _ => return None,
    };
    Some(Layout {
        numbers,
        short_numbers,
        reserved,
        address,
        rest,
    })
}
