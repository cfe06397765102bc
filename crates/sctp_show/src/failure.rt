//! Why an input has no text.
ghost use Rattle.std.specs.Prelude.{◌≡◌};
ghost use Rattle.sctp_show.specs.Reply.{packet_error_line, chunk_error_line};

use dcsctp_wire::packet::ChunkParseError;
use dcsctp_wire::packet::sctp_packet::PacketParseError;
use std::alloc::AllocError;

/// Why an input has no text: each failure is reported in a line.
#[derive(Debug, Drop)]
pub enum Failure {
    /// Memory ran out.
    OutOfMemory,
    /// A read failed.
    Read,
    /// The input has more bytes than are read.
    TooLong,
    /// A byte of the input is no digit, or the digits are odd in number.
    NotHexadecimal,
    /// The bytes are no packet.
    Packet(PacketParseError),
}

impl Failure {
    ghost use Rattle.sctp_show.specs.Reply.{line_of};

    /// Returns the line that reports the failure, with its line feed.
    pub fn line(&self) -> &'static str
        ensures { result.now ≡ line_of self.now }
    {
        match self {
            Failure::OutOfMemory => "error: out of memory\n",
            Failure::Read => "error: read failed\n",
            Failure::TooLong => "error: input too long\n",
            Failure::NotHexadecimal => "error: not hexadecimal\n",
            Failure::Packet(error) => packet_line(error),
        }
    }
}

impl From<AllocError> for Failure {
    ghost use Rattle.sctp_show.specs.declared.failure.Failure.{Failure};

    ghost from_gives = { λ _ e. e ≡ Failure.OutOfMemory };

    fn from(_: AllocError) -> Failure {
        Failure::OutOfMemory
    }
}

impl From<PacketParseError> for Failure {
    ghost use Rattle.sctp_show.specs.declared.failure.Failure.{Failure};

    ghost from_gives = { λ error e. e ≡ Failure.Packet error };

    fn from(error: PacketParseError) -> Failure {
        Failure::Packet(error)
    }
}

/// Returns the line of a packet that is not read.
fn packet_line(error: &PacketParseError) -> &'static str
    ensures { result.now ≡ packet_error_line error.now }
{
    match error {
        PacketParseError::InvalidPacketSize => "error: invalid packet size\n",
        PacketParseError::InvalidChecksum => "error: invalid checksum\n",
        PacketParseError::InvalidChunkSize => "error: invalid chunk size\n",
        PacketParseError::FailedParseChunk(error) => chunk_line(error),
    }
}

/// Returns the line of a chunk that is not read.
fn chunk_line(error: &ChunkParseError) -> &'static str
    ensures { result.now ≡ chunk_error_line error.now }
{
    match error {
        ChunkParseError::InvalidLength => "error: invalid chunk: length\n",
        ChunkParseError::InvalidType => "error: invalid chunk: type\n",
        ChunkParseError::InvalidPadding => "error: invalid chunk: padding\n",
        ChunkParseError::InvalidValue => "error: invalid chunk: value\n",
        ChunkParseError::OutOfMemory => "error: out of memory\n",
    }
}
