//! The codes of `dcsctp.h`, which say what became of a whole packet.

ghost use Rattle.std.specs.Prelude.{◌≡◌, if◌then◌else◌};
ghost use Rattle.dcsctp_c.specs.Code.{fault_code, no_memory_code, bad_value_code, bad_place_code, write_code};
ghost use Rattle.dcsctp_tlv.specs.declared.error.ChunkParseError.TheVariants.{OutOfMemory};
ghost use Rattle.dcsctp_wire.specs.{Packet.{PacketFault, packet_error_of}, declared.packet.sctp_packet.PacketParseError.TheVariants.{FailedParseChunk}};

use dcsctp_buffer::error::WriteError;
use dcsctp_wire::packet::ChunkParseError;
use dcsctp_wire::packet::sctp_packet::PacketParseError;

/// The bytes are a packet.
pub const OK: u32 = 0;

/// Fewer than 16 bytes, or more than 65,535.
pub const FAULT_SIZE: u32 = 1;

/// The policy does not accept the checksum field.
pub const FAULT_CHECKSUM: u32 = 2;

/// A chunk, a parameter or an error cause has a wrong length.
pub const FAULT_LENGTH: u32 = 3;

/// A RE-CONFIG response has an unknown result.
pub const FAULT_VALUE: u32 = 4;

/// Padding is missing or not zero.
pub const FAULT_PADDING: u32 = 5;

/// An allocation failed.
pub const NO_MEMORY: u32 = 6;

/// The output is too small.
pub const NO_ROOM: u32 = 7;

/// The canonical packet would be too long.
pub const TOO_LONG: u32 = 8;

/// It can't be written.
pub const BAD_VALUE: u32 = 9;

/// No packet has this size, or no chunk begins at the place and ends the packet. Or a packet does
/// not lie within the block that it is read from.
pub const BAD_PLACE: u32 = 10;

/// Returns the code of an error: of each fault its own, and `NO_MEMORY` where an allocation failed.
pub fn code_of(error: PacketParseError) -> u32
    ensures fault { (e : PacketFault) → error ≡ packet_error_of e → result ≡ fault_code e }
    ensures memory { error ≡ FailedParseChunk OutOfMemory → result ≡ no_memory_code }
{
    match error {
        PacketParseError::InvalidPacketSize => FAULT_SIZE,
        PacketParseError::InvalidChecksum => FAULT_CHECKSUM,
        PacketParseError::FailedParseChunk(ChunkParseError::InvalidLength) => FAULT_LENGTH,
        PacketParseError::FailedParseChunk(ChunkParseError::InvalidValue) => FAULT_VALUE,
        PacketParseError::FailedParseChunk(ChunkParseError::InvalidPadding) => FAULT_PADDING,
        _ => NO_MEMORY,
    }
}

/// Returns the code of why nothing was written.
pub fn write_code(error: WriteError) -> u32
    ensures { result ≡ write_code error }
{
    match error {
        WriteError::BadPlace => BAD_PLACE,
        WriteError::BadValue => BAD_VALUE,
        WriteError::NoRoom => NO_ROOM,
    }
}

/// Returns the code of what can't be written, at a place that is right or isn't.
pub fn unwritable(is_place: bool) -> u32
    ensures { result ≡ (if is_place then bad_value_code else bad_place_code) }
{
    if is_place { BAD_VALUE } else { BAD_PLACE }
}
