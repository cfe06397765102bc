//! The payload protocol identifier.

ghost use Rattle.std.specs.{Prelude.{◌≡◌, Some}, Fmt.{decimal}};

use std::fmt;

/// A payload protocol identifier (RFC 9260 section 3.3.1), which SCTP passes on as it is.
/// Identifiers are ordered by their numbers, and print as decimal ones.
#[derive(Clone, Copy, PartialEq, Eq, PartialOrd, Ord, Hash)]
pub struct PpId(pub u32);

/// The identifiers of WebRTC data channels (RFC 8831 section 8).
impl PpId {
    /// Messages of the data channel establishment protocol (RFC 8832): 50.
    pub const WEBRTC_DCEP: PpId = PpId(50);

    /// A string in UTF-8: 51.
    pub const WEBRTC_STRING: PpId = PpId(51);

    /// A part of a binary message; deprecated: 52.
    pub const WEBRTC_BINARY_PARTIAL: PpId = PpId(52);

    /// A binary message: 53.
    pub const WEBRTC_BINARY: PpId = PpId(53);

    /// A part of a string; deprecated: 54.
    pub const WEBRTC_STRING_PARTIAL: PpId = PpId(54);

    /// An empty string, sent as one byte that is ignored: 56.
    pub const WEBRTC_STRING_EMPTY: PpId = PpId(56);

    /// An empty binary message, sent as one byte that is ignored: 57.
    pub const WEBRTC_BINARY_EMPTY: PpId = PpId(57);
}

/// The payload protocol identifier of number `n`.
impl From<u32> for PpId {
    ghost from_gives = { λ n ppid. ppid.0 ≡ n };

    fn from(n: u32) -> PpId {
        PpId(n)
    }
}

impl fmt::Display for PpId {
    ghost output = { λ ppid. Some (decimal ppid.0) };

    fn fmt<W: fmt::Write>(&self, f: &mut fmt::Formatter<W>) -> fmt::Result {
        let number = self.0;
        write!(f, "{number}")
    }
}

impl fmt::Debug for PpId {
    ghost debug_output = { λ ppid. Some (decimal ppid.0) };

    fn fmt<W: fmt::Write>(&self, f: &mut fmt::Formatter<W>) -> fmt::Result {
        fmt::Display::fmt(self, f)
    }
}
