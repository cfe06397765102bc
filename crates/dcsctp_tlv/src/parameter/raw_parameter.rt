//! A parameter or an error cause before its value is looked at, and its header.

ghost use Rattle.std.specs.{Borrow.{sem}, Prelude.{◌≡◌, ◌↔◌, ◌≤◌, ◌<◌, ◌+◌, ◌^◌, length, take, drop, IsOk, IfOk, IfErr}};
ghost use Rattle.dcsctp_tlv.specs.{Frame.{typed_header, BeginsWithFrame, frame_value, frame_padding, frame_rest}, Lending.{LendsValue}, Number.{number16}, declared.error.ChunkParseError.TheVariants.{InvalidLength}};

use crate::error::ChunkParseError;
use crate::frame::{padding_parts, split_frame};
use crate::number::read_u16_be;

/// Bytes of a parameter's header: two of type, and two of length.
pub const PARAMETER_HEADER_SIZE: usize = 4;

/// The type of a parameter or an error cause, and its value as bytes (RFC 9260 sections 3.2.1 and
/// 3.3.10).
#[derive(Debug, Drop)]
pub struct RawParameter<'a> {
    /// The type of the parameter, or the code of the cause.
    pub typ: u16,
    /// The bytes after the header, without padding.
    pub value: &'a [u8],
}

impl<'a> RawParameter<'a> {
    /// Splits `bytes` into the parameter at their front, and the bytes after it and its padding:
    /// `(parameter, rest)`.
    ///
    /// Value and rest are parts of the input, and no memory is taken. Padding isn't looked at; the
    /// last parameter of a list may lack some or all of it, and then nothing is left.
    /// `InvalidLength` if and only if there are fewer than 4 bytes, or the length field is below 4
    /// or above the number of bytes.
    pub fn from_bytes(bytes: &'a [u8]) -> Result<(Self, &'a [u8]), ChunkParseError>
        ensures frame { IsOk result ↔ BeginsWithFrame bytes.now }
        ensures typ { IfOk result (λ x. x.0.typ ≡ number16 bytes.now) }
        ensures value { IfOk result (λ x. x.0.value.now ≡ frame_value bytes.now) }
        ensures rest { IfOk result (λ x. x.1.now ≡ frame_rest bytes.now) }
        ensures fault { IfErr result (λ e. e ≡ InvalidLength) }
    {
        let (value, rest) = split_frame(bytes)?;
        Ok((
            RawParameter {
                typ: read_u16_be(bytes),
                value,
            },
            rest,
        ))
    }

    /// Splits `bytes` into the parameter at their front, its padding as far as it is there, and the
    /// bytes after that: `(parameter, padding, rest)`. `InvalidLength` as in `from_bytes`.
    ///
    /// Value, padding and rest are parts of the input, one after the other. A reader that wants
    /// zeros in the padding can look at it.
    pub fn from_bytes_padded(bytes: &'a [u8]) -> Result<(Self, &'a [u8], &'a [u8]), ChunkParseError>
        ensures frame { IsOk result ↔ BeginsWithFrame bytes.now }
        ensures typ { IfOk result (λ x. x.0.typ ≡ number16 bytes.now) }
        ensures value { IfOk result (λ x. x.0.value.now ≡ frame_value bytes.now) }
        ensures padding { IfOk result (λ x. x.1.now ≡ frame_padding bytes.now) }
        ensures rest { IfOk result (λ x. x.2.now ≡ frame_rest bytes.now) }
        ensures fault { IfErr result (λ e. e ≡ InvalidLength) }
    {
        let (raw, rest) = RawParameter::from_bytes(bytes)?;
        let (_, padding) = padding_parts(bytes);
        Ok((raw, padding, rest))
    }
}

/// Writes a parameter's header for a value of `value_size` bytes, and lends the part for the value.
///
/// The lent part is as it stood, and so is all after it. `output` ends as the header, what the
/// caller leaves in the lent part, and the bytes after it.
pub fn write_parameter_header(typ: u16, value_size: usize, output: &mut [u8]) -> &mut [u8]
    requires encodable { 4 + value_size < 2 ^ 16 }
    requires room { 4 + value_size ≤ length output.old }
    ensures* writes_back { sem 𝓛 (LendsValue
        (typed_header typ value_size) output.entry value_size result) }
    ensures value { result.now ≡ take value_size (drop 4 output.old) }
{
    // Four plain writes, and no call: so the proof by hand stays a short walk.
    let size = 4 + value_size;
    output[0] = (typ / 256) as u8;
    output[1] = (typ % 256) as u8;
    output[2] = (size / 256) as u8;
    output[3] = (size % 256) as u8;
    &mut output[4..size]
}
