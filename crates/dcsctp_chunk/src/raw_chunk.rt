//! A chunk before its value is looked at.
//!
//! ```txt
//!  0                   1                   2                   3
//!  0 1 2 3 4 5 6 7 8 9 0 1 2 3 4 5 6 7 8 9 0 1 2 3 4 5 6 7 8 9 0 1
//! +-+-+-+-+-+-+-+-+-+-+-+-+-+-+-+-+-+-+-+-+-+-+-+-+-+-+-+-+-+-+-+-+
//! |     type      |     flags     |            length             |
//! +-+-+-+-+-+-+-+-+-+-+-+-+-+-+-+-+-+-+-+-+-+-+-+-+-+-+-+-+-+-+-+-+
//! |                 value, length - 4 bytes, padded               |
//! +-+-+-+-+-+-+-+-+-+-+-+-+-+-+-+-+-+-+-+-+-+-+-+-+-+-+-+-+-+-+-+-+
//! ```

ghost use Rattle.std.specs.{Borrow.{sem}, Prelude.{◌≡◌, ◌↔◌, ◌≤◌, ◌<◌, ◌+◌, ◌^◌, length, take, drop, slice_index, IsOk, IfOk, IfErr}};
ghost use Rattle.dcsctp_tlv.specs.{Frame.{header, BeginsWithFrame, frame_value, frame_padding, frame_rest}, Lending.{LendsValue}, declared.error.ChunkParseError.TheVariants.{InvalidLength}};

use dcsctp_tlv::error::ChunkParseError;
use dcsctp_tlv::frame::{padding_parts, split_frame};

/// A chunk's type, its flags and its value as bytes (RFC 9260 section 3.2).
#[derive(Debug, Drop)]
pub struct RawChunk<'a> {
    /// What kind of chunk it is.
    pub typ: u8,
    /// What they mean depends on the type.
    pub flags: u8,
    /// The bytes after the header, without padding.
    pub value: &'a [u8],
}

impl<'a> RawChunk<'a> {
    /// Splits `bytes` into the chunk at their front, and the bytes after it and its padding:
    /// `(chunk, rest)`.
    ///
    /// Value and rest are parts of the input, and no memory is taken. Padding isn't looked at; the
    /// last chunk of a packet may lack some or all of it, and then nothing is left. `InvalidLength`
    /// if and only if there are fewer than 4 bytes, or the length field is below 4 or above the
    /// number of bytes.
    pub fn from_bytes(bytes: &'a [u8]) -> Result<(Self, &'a [u8]), ChunkParseError>
        ensures frame { IsOk result ↔ BeginsWithFrame bytes.now }
        ensures typ { IfOk result (λ x. x.0.typ ≡ slice_index bytes.now 0) }
        ensures flags { IfOk result (λ x. x.0.flags ≡ slice_index bytes.now 1) }
        ensures value { IfOk result (λ x. x.0.value.now ≡ frame_value bytes.now) }
        ensures rest { IfOk result (λ x. x.1.now ≡ frame_rest bytes.now) }
        ensures fault { IfErr result (λ e. e ≡ InvalidLength) }
    {
        let (value, rest) = split_frame(bytes)?;
        Ok((
            RawChunk {
                typ: bytes[0],
                flags: bytes[1],
                value,
            },
            rest,
        ))
    }

    /// Splits `bytes` into the chunk at their front, its padding as far as it is there, and the
    /// bytes after that: `(chunk, padding, rest)`. `InvalidLength` as in `from_bytes`.
    ///
    /// Value, padding and rest are parts of the input, one after the other. A reader that wants
    /// zeros in the padding can look at it.
    pub fn from_bytes_padded(bytes: &'a [u8]) -> Result<(Self, &'a [u8], &'a [u8]), ChunkParseError>
        ensures frame { IsOk result ↔ BeginsWithFrame bytes.now }
        ensures typ { IfOk result (λ x. x.0.typ ≡ slice_index bytes.now 0) }
        ensures flags { IfOk result (λ x. x.0.flags ≡ slice_index bytes.now 1) }
        ensures value { IfOk result (λ x. x.0.value.now ≡ frame_value bytes.now) }
        ensures padding { IfOk result (λ x. x.1.now ≡ frame_padding bytes.now) }
        ensures rest { IfOk result (λ x. x.2.now ≡ frame_rest bytes.now) }
        ensures fault { IfErr result (λ e. e ≡ InvalidLength) }
    {
        let (raw, rest) = RawChunk::from_bytes(bytes)?;
        let (_, padding) = padding_parts(bytes);
        Ok((raw, padding, rest))
    }
}

/// Writes a chunk's header for a value of `value_size` bytes, and lends the part for the value.
///
/// The lent part is as it stood, and so is all after it. `output` ends as the header, what the
/// caller leaves in the lent part, and the bytes after it.
pub fn write_chunk_header(typ: u8, flags: u8, value_size: usize, output: &mut [u8]) -> &mut [u8]
    requires encodable { 4 + value_size < 2 ^ 16 }
    requires room { 4 + value_size ≤ length output.old }
    ensures* writes_back { sem 𝓛 (LendsValue
        (header typ flags value_size) output.entry value_size result) }
    ensures value { result.now ≡ take value_size (drop 4 output.old) }
{
    // Four plain writes, and no call: so the proof by hand stays a short walk.
    let size = 4 + value_size;
    output[0] = typ;
    output[1] = flags;
    output[2] = (size / 256) as u8;
    output[3] = (size % 256) as u8;
    &mut output[4..size]
}
