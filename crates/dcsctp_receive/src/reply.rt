//! Packets of one chunk, back to the sender of another.

ghost use Rattle.std.specs.Prelude.{◌≡◌, ◌↔◌, length, IsOk, IfErr};
ghost use Rattle.dcsctp_wire.specs.Chunk.{IsChunkEncodable};
ghost use Rattle.dcsctp_buffer.specs.{Buffer.{HasRoom, HoldsPacket}, declared.error.WriteError.TheVariants.{NoRoom}};
ghost use Rattle.dcsctp_receive.specs.OutOfTheBlue.{back};

use dcsctp_buffer::error::WriteError;
use dcsctp_buffer::writable_chunk::WritableChunk;
use dcsctp_buffer::{MAX_SIZE, add, begin};
use dcsctp_tlv::number::round_up_to_4;
use dcsctp_wire::packet::sctp_packet::{COMMON_HEADER_SIZE, CommonHeader};

/// Writes a packet of this chunk under this tag, to the sender of a packet with this header. The
/// whole packet, or, where it has no room, nothing.
pub(crate) fn write_back<C: WritableChunk>(
    buffer: &mut [u8],
    size: &mut usize,
    header: &CommonHeader,
    tag: u32,
    chunk: &C,
) -> Result<(), WriteError>
    requires { IsChunkEncodable (C.tree chunk.now) }
    ensures room { IsOk result ↔ HasRoom (length buffer.old) 12 (C.tree chunk.now) }
    ensures held { IsOk result
        → HoldsPacket buffer.new size.new (back header.now tag (C.tree chunk.now)) }
    ensures declined { IfErr result (λ e. e ≡ NoRoom) }
    ensures unchanged { IfErr result (λ e. (buffer.new ≡ buffer.old) × (size.new ≡ size.old)) }
{
    let Some(chunk_size) = chunk.written_size() else {
        return Err(WriteError::NoRoom);
    };
    if COMMON_HEADER_SIZE + round_up_to_4(chunk_size) > buffer.len().min(MAX_SIZE) {
        return Err(WriteError::NoRoom);
    }
    begin(
        buffer,
        size,
        header.destination_port,
        header.source_port,
        tag,
    )?;
    add(buffer, size, chunk)
}
