//! The number at the front of an Incoming SSN Reset Request and of an SSN/TSN Reset Request.

ghost use Rattle.std.specs.Prelude.{◌≡◌, ◌≤◌, ◌∷◌, [], length};
ghost use Rattle.dcsctp_tlv.specs.Number.{number32};

use crate::number::read_u32_be;

/// The number at the front of the value of an Incoming SSN Reset Request, before its stream ids,
/// and of an SSN/TSN Reset Request (RFC 6525 sections 4.2 and 4.3).
#[derive(Clone, Copy, Debug)]
pub struct RequestNumbers {
    /// The sequence number of this request.
    pub request_seq_nbr: u32,
}

impl RequestNumbers {
    /// Its bytes.
    pub const SIZE: usize = 4;

    /// The offset of the request's number in the value.
    pub const REQUEST_SEQ_NBR: usize = 0;

    /// Reads the number of a value, which has at least `SIZE` bytes.
    #[inline(always)]
    pub fn read(value: &[u8]) -> RequestNumbers
        requires { 4 ≤ length value.now }
        ensures { result.request_seq_nbr ≡ number32 value.now }
    {
        RequestNumbers {
            request_seq_nbr: read_u32_be(value),
        }
    }

    /// Returns the number as it is written, in four bytes.
    #[inline(always)]
    pub fn words(self) -> [u32; 1]
        ensures { result ≡ self.request_seq_nbr ∷ [] }
    {
        [self.request_seq_nbr]
    }
}
