//! What follows a header in a frame.

ghost use Rattle.std.specs.Prelude.{◌≡◌};
ghost use Rattle.dump_capture.specs.Payload.{past, cut_to};
ghost use Rattle.dump_capture.specs.Found.{payload_of};

use crate::frame::Addresses;
use crate::parts::{after, front};

/// What a payload is.
#[derive(Clone, Copy)]
pub(crate) enum Protocol {
    /// A frame of this link type.
    Link(u16),
    /// What has this type in Ethernet.
    EtherType(u16),
    /// An IP packet, whose version says which.
    Ip,
    /// What has this protocol number in IP.
    Number(u8),
    /// An extension header of GTP-U.
    GtpExtension,
    /// An attribute of NFLOG, or nothing after the last one.
    NflogAttribute,
}

/// What follows a header: `size` bytes as the headers say. `bytes` begin with them, but may be
/// fewer, or more by what follows them in the frame. The addresses are those of the last IP header.
#[derive(Clone, Copy)]
pub(crate) struct Payload<'a> {
    pub addresses: Option<Addresses>,
    pub protocol: Protocol,
    pub size: usize,
    pub bytes: &'a [u8],
}

/// Returns what follows the first `count` bytes.
pub(crate) fn past(count: usize, protocol: Protocol, payload: Payload<'_>) -> Payload<'_>
    ensures { payload_of result ≡ past count protocol (payload_of payload.entry) }
{
    Payload {
        addresses: payload.addresses,
        protocol,
        size: payload.size.saturating_sub(count),
        bytes: after(payload.bytes, count),
    }
}

/// Returns the first `count` bytes, without what follows them in the frame.
pub(crate) fn cut_to(count: usize, payload: Payload<'_>) -> Payload<'_>
    ensures { payload_of result ≡ cut_to count (payload_of payload.entry) }
{
    Payload {
        addresses: payload.addresses,
        protocol: payload.protocol,
        size: count,
        bytes: front(payload.bytes, count),
    }
}
