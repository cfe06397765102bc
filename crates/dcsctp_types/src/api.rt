//! Ids, times, messages and settings, which an application hands over or is handed.

ghost use Rattle.std.specs.Prelude.{◌≡◌};

mod lifecycle_id;
mod message;
mod pp_id;
mod socket_time;
mod stream_id;

pub use lifecycle_id::LifecycleId;
pub use message::Message;
pub use pp_id::PpId;
pub use socket_time::SocketTime;
pub use stream_id::StreamId;

/// How packets are protected where they carry no checksum (RFC 9653 section 4).
#[derive(Clone, Copy, Debug, PartialEq, Eq)]
pub struct ZeroChecksumAlternateErrorDetectionMethod(pub u32);

/// The method of number `n`.
impl From<u32> for ZeroChecksumAlternateErrorDetectionMethod {
    ghost from_gives = { λ n method. method.0 ≡ n };

    fn from(n: u32) -> ZeroChecksumAlternateErrorDetectionMethod {
        ZeroChecksumAlternateErrorDetectionMethod(n)
    }
}

/// No other method: a checksum of zero isn't special.
pub const ZERO_CHECKSUM_ALTERNATE_ERROR_DETECTION_METHOD_NONE: ZeroChecksumAlternateErrorDetectionMethod =
    ZeroChecksumAlternateErrorDetectionMethod(0);

/// SCTP over DTLS, which protects the packets (RFC 9653 section 4).
pub const ZERO_CHECKSUM_ALTERNATE_ERROR_DETECTION_METHOD_LOWER_LAYER_DTLS: ZeroChecksumAlternateErrorDetectionMethod =
    ZeroChecksumAlternateErrorDetectionMethod(1);
