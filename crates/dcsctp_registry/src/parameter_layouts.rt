//! How the values of parameters are laid out that have no kind. registry/make.py writes this file:
//! registry/sctp.txt is edited in its place.

ghost use Rattle.std.specs.Prelude.{◌≡◌};
ghost use Rattle.dcsctp_registry.specs.{ParameterLayouts.{parameter_rows}, Registered.{layout_in}};

use crate::layout::{AddressForm, Layout, Rest};

/// The type of IPv4 Address (RFC 9260 section 3.3.2.1.1).
pub const IPV4_ADDRESS: u16 = 5;

/// The type of IPv6 Address (RFC 9260 section 3.3.2.1.2).
pub const IPV6_ADDRESS: u16 = 6;

/// The type of Unrecognized Parameter (RFC 9260 section 3.3.3.1.2).
pub const UNRECOGNIZED_PARAMETER: u16 = 8;

/// The type of Cookie Preservative (RFC 9260 section 3.3.2.1.3).
pub const COOKIE_PRESERVATIVE: u16 = 9;

/// The index of the milliseconds of Cookie Preservative among its numbers of four bytes.
pub const COOKIE_PRESERVATIVE_MILLISECONDS: usize = 0;

/// The type of Host Name Address (RFC 9260 section 3.3.2.1.4).
pub const HOST_NAME_ADDRESS: u16 = 11;

/// The type of Supported Address Types (RFC 9260 section 3.3.2.1.5).
pub const SUPPORTED_ADDRESS_TYPES: u16 = 12;

/// The type of ECN Capable (RFC 4960 appendix A).
pub const ECN_CAPABLE: u16 = 0x8000;

/// The type of Random (RFC 4895 section 3.1).
pub const RANDOM: u16 = 0x8002;

/// The type of Chunk List (RFC 4895 section 3.2).
pub const CHUNK_LIST: u16 = 0x8003;

/// The type of Requested HMAC Algorithm (RFC 4895 section 3.3).
pub const REQUESTED_HMAC_ALGORITHM: u16 = 0x8004;

/// The type of Padding (RFC 4820 section 4).
pub const PADDING: u16 = 0x8005;

/// The type of Add IP Address (RFC 5061 section 4.2.1).
pub const ADD_IP_ADDRESS: u16 = 0xc001;

/// The index of the correlation ID of Add IP Address among its numbers of four bytes.
pub const ADD_IP_ADDRESS_CORRELATION_ID: usize = 0;

/// The type of Delete IP Address (RFC 5061 section 4.2.2).
pub const DELETE_IP_ADDRESS: u16 = 0xc002;

/// The index of the correlation ID of Delete IP Address among its numbers of four bytes.
pub const DELETE_IP_ADDRESS_CORRELATION_ID: usize = 0;

/// The type of Error Cause Indication (RFC 5061 section 4.2.3).
pub const ERROR_CAUSE_INDICATION: u16 = 0xc003;

/// The index of the correlation ID of Error Cause Indication among its numbers of four bytes.
pub const ERROR_CAUSE_INDICATION_CORRELATION_ID: usize = 0;

/// The type of Set Primary Address (RFC 5061 section 4.2.4).
pub const SET_PRIMARY_ADDRESS: u16 = 0xc004;

/// The index of the correlation ID of Set Primary Address among its numbers of four bytes.
pub const SET_PRIMARY_ADDRESS_CORRELATION_ID: usize = 0;

/// The type of Success Indication (RFC 5061 section 4.2.5).
pub const SUCCESS_INDICATION: u16 = 0xc005;

/// The index of the correlation ID of Success Indication among its numbers of four bytes.
pub const SUCCESS_INDICATION_CORRELATION_ID: usize = 0;

/// The type of Adaptation Layer Indication (RFC 5061 section 4.2.6).
pub const ADAPTATION_LAYER_INDICATION: u16 = 0xc006;

/// The index of the code of Adaptation Layer Indication among its numbers of four bytes.
pub const ADAPTATION_LAYER_INDICATION_CODE: usize = 0;

/// Returns how the value of a parameter of this type
/// is laid out; `None` if and only if it isn't one of these.
#[tactic(auto, unfolding(crate::specs::ParameterLayouts::parameter_rows))]
pub fn parameter_layout(typ: u16) -> Option<Layout>
    ensures { result ≡ layout_in parameter_rows typ }
{
    let (numbers, short_numbers, reserved, address, rest) = match typ {
        IPV4_ADDRESS => (0, 0, 0, AddressForm::Ipv4, Rest::Nothing),
        IPV6_ADDRESS => (0, 0, 0, AddressForm::Ipv6, Rest::Nothing),
        UNRECOGNIZED_PARAMETER => (0, 0, 0, AddressForm::Nothing, Rest::Items),
        COOKIE_PRESERVATIVE => (1, 0, 0, AddressForm::Nothing, Rest::Nothing),
        HOST_NAME_ADDRESS => (0, 0, 0, AddressForm::Nothing, Rest::Bytes),
        SUPPORTED_ADDRESS_TYPES => (0, 0, 0, AddressForm::Nothing, Rest::ShortNumbers),
        ECN_CAPABLE => (0, 0, 0, AddressForm::Nothing, Rest::Nothing),
        RANDOM => (0, 0, 0, AddressForm::Nothing, Rest::Bytes),
        CHUNK_LIST => (0, 0, 0, AddressForm::Nothing, Rest::Bytes),
        REQUESTED_HMAC_ALGORITHM => (0, 0, 0, AddressForm::Nothing, Rest::ShortNumbers),
        PADDING => (0, 0, 0, AddressForm::Nothing, Rest::Bytes),
        ADD_IP_ADDRESS => (1, 0, 0, AddressForm::Parameter, Rest::Nothing),
        DELETE_IP_ADDRESS => (1, 0, 0, AddressForm::Parameter, Rest::Nothing),
        ERROR_CAUSE_INDICATION => (1, 0, 0, AddressForm::Nothing, Rest::Items),
        SET_PRIMARY_ADDRESS => (1, 0, 0, AddressForm::Parameter, Rest::Nothing),
        SUCCESS_INDICATION => (1, 0, 0, AddressForm::Nothing, Rest::Nothing),
        ADAPTATION_LAYER_INDICATION => (1, 0, 0, AddressForm::Nothing, Rest::Nothing),
        _ => return None,
    };
    Some(Layout {
        numbers,
        short_numbers,
        reserved,
        address,
        rest,
    })
}
