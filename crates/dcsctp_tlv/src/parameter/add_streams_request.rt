//! The value of both requests for more streams.

ghost use Rattle.std.specs.Prelude.{◌≡◌, ◌≤◌, length};
ghost use Rattle.dcsctp_tlv.specs.AddStreamsRequest as kind;

use crate::number::{put_u16, put_u32, read_u16_be, read_u32_be};

/// The numbers of an Add Outgoing or an Add Incoming Streams Request, which are its value but for
/// the two reserved bytes after them (RFC 6525 sections 4.5 and 4.6).
#[derive(Clone, Copy, Debug)]
pub struct AddStreamsNumbers {
    /// The sequence number of this request.
    pub request_seq_nbr: u32,
    /// How many streams are to be added.
    pub nbr_new_streams: u16,
}

impl AddStreamsNumbers {
    /// The bytes of the value.
    pub const SIZE: usize = 8;

    /// The offset of the request's number in the value.
    pub const REQUEST_SEQ_NBR: usize = 0;

    /// The offset of the number of new streams in the value.
    pub const NBR_NEW_STREAMS: usize = 4;

    /// Reads the numbers of a value, which has `SIZE` bytes.
    #[inline(always)]
    pub fn read(value: &[u8]) -> AddStreamsNumbers
        requires { 8 ≤ length value.now }
        ensures { result ≡ kind.numbers_at value.now }
    {
        AddStreamsNumbers {
            request_seq_nbr: read_u32_be(value),
            nbr_new_streams: read_u16_be(&value[AddStreamsNumbers::NBR_NEW_STREAMS..]),
        }
    }

    /// Returns the value as it is written; its reserved bytes are zeros.
    #[inline(always)]
    pub fn bytes(self) -> [u8; AddStreamsNumbers::SIZE]
        ensures { result ≡ kind.number_bytes self }
    {
        let mut value = [0; AddStreamsNumbers::SIZE];
        put_u32(
            &mut value,
            AddStreamsNumbers::REQUEST_SEQ_NBR,
            self.request_seq_nbr,
        );
        put_u16(
            &mut value,
            AddStreamsNumbers::NBR_NEW_STREAMS,
            self.nbr_new_streams,
        );
        value
    }
}
