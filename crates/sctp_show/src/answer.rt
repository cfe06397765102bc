//! The answer to an input.
ghost use Rattle.std.specs.Prelude.{◌≡◌, ◌⊎◌, MatchResult, IsErr, Ok};
ghost use Rattle.hex.specs.Hex.{decode_of};
ghost use Rattle.sctp_show.specs.Show.{MayShow, is_blank, without_blanks};
ghost use Rattle.sctp_show.specs.Reply.{reply_of};

use crate::failure::Failure;
use crate::text::text_of;
use dcsctp_wire::packet::sctp_packet::{ChecksumPolicy, SctpPacket};
use hex::FromHexError;
use std::alloc::Global;

/// An input of more bytes is too long.
pub const MOST_BYTES: usize = 200_000;

/// Returns the text of the packet that the input says in hexadecimal, or why it says none. Looks at
/// padding if `strict` is true.
pub fn answer_to(alloc: Global, strict: bool, input: Vec<u8>) -> Result<String, Failure>
    ensures { MayShow strict input.items (reply_of result) }
{
    if input.len() > MOST_BYTES {
        return Err(Failure::TooLong);
    }
    let bytes = bytes_of(alloc, input)?;
    let policy = ChecksumPolicy {
        strict_padding: strict,
        ..ChecksumPolicy::ANY_CHECKSUM
    };
    let packet = SctpPacket::from_bytes(alloc, &bytes, 0, &policy)?;
    Ok(text_of(alloc, &packet)?)
}

/// Reads the bytes that a text says in digits of either case, with blanks anywhere.
fn bytes_of(alloc: Global, mut text: Vec<u8>) -> Result<Vec<u8>, Failure>
    ensures { MatchResult result (λ bytes. decode_of (without_blanks text.items) ≡ Ok bytes.items)
        (λ e. (e ≡ Failure.OutOfMemory)
        ⊎ ((e ≡ Failure.NotHexadecimal) × IsErr (decode_of (without_blanks text.items)))) }
{
    text.retain(|byte| !is_blank(*byte));
    match hex::decode(alloc, &text) {
        Ok(bytes) => Ok(bytes),
        Err(FromHexError::OutOfMemory) => Err(Failure::OutOfMemory),
        Err(_) => Err(Failure::NotHexadecimal),
    }
}

/// Returns whether a byte is a space, a tab, a carriage return or a line feed.
fn is_blank(byte: u8) -> bool
    ensures { result ≡ is_blank byte }
{
    matches!(byte, b' ' | b'\t' | b'\r' | b'\n')
}
