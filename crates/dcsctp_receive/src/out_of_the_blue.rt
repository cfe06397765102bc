//! What is done with a packet that belongs to no association.

ghost use Rattle.std.specs.Prelude.{◌≡◌, ◌↔◌, ◌≤◌, length, IsOk, IfErr};
ghost use Rattle.dcsctp_borrowed.specs.Part.{part_of};
ghost use Rattle.dcsctp_wire.specs.Chunk.{tlv as chunk_tlv};
ghost use Rattle.dcsctp_buffer.specs.{Buffer.{HoldsPacket}, declared.error.WriteError.TheVariants.{NoRoom}};
ghost use Rattle.dcsctp_receive.specs.Chunks.{items_of};
ghost use Rattle.dcsctp_receive.specs.OutOfTheBlue.{answer_of, answer_to, reply_chunk, reply_to};

use crate::chunk_test::{ChunkTest, some};
use crate::items::{after_auth, begins_with, chunk_part, contains, is_only};
use crate::reply::write_back;
use dcsctp_borrowed::part::Part;
use dcsctp_buffer::error::WriteError;
use dcsctp_buffer::writable_chunk::WritableChunk;
use dcsctp_chunk::flags::one_flag;
use dcsctp_tlv::frame::{TLV_HEADER_SIZE, put_solid};
use dcsctp_wire::packet::sctp_packet::CommonHeader;
use dcsctp_wire::packet::{
    abort_chunk, cookie_ack_chunk, cookie_echo_chunk, init_chunk, shutdown_ack_chunk,
    shutdown_complete_chunk,
};

/// What the receiver of a packet does that belongs to no association (RFC 9260 section 8.4).
#[derive(Clone, Copy, Debug)]
pub enum OutOfTheBlue {
    /// Silently discards the packet.
    Discard,
    /// Processes the INIT as RFC 9260 section 5.1 says.
    Init,
    /// Processes the COOKIE ECHO as RFC 9260 section 5.1 says.
    CookieEcho,
    /// Responds to the sender, and discards the packet.
    Respond(Reply),
}

/// The chunk that is sent back to the sender of a packet that belongs to no association (RFC 9260
/// section 8.4), with the packet's Verification Tag and the T bit.
#[derive(Clone, Copy, Debug)]
pub enum Reply {
    /// SHUTDOWN COMPLETE, to a SHUTDOWN ACK.
    ShutdownComplete,
    /// ABORT, without a cause.
    Abort,
}

/// Returns what is done with a packet that belongs to no association, by the steps of RFC 9260
/// section 8.4 in their order; under the tag 0, what isn't an INIT alone is discarded (section
/// 8.5.1), and a COOKIE ECHO is the first chunk behind one AUTH too (RFC 4895 section 6.3).
///
/// The packet has to be correctly formed, as section 8.4 begins: check it first. Otherwise it may be
/// answered with an ABORT; bytes without a common header are discarded.
///
/// `is_unicast` says whether the packet is to and from unicast addresses. Its chunks are looked at
/// by their types alone, and an ERROR by the codes of its causes, up to the first whose length is
/// impossible.
pub fn out_of_the_blue(packet: &[u8], is_unicast: bool) -> OutOfTheBlue
    ensures { result ≡ answer_to is_unicast packet.now }
{
    match CommonHeader::from_bytes(packet) {
        Some(header) => answer_of(is_unicast, header.verification_tag, chunk_part(packet)),
        None => OutOfTheBlue::Discard,
    }
}

/// Returns what is done with a packet of this tag and these chunks.
fn answer_of(is_unicast: bool, tag: u32, chunks: Part<'_>) -> OutOfTheBlue
    ensures { result ≡ answer_of is_unicast tag (items_of (part_of chunks.entry)) }
{
    if !is_unicast {
        return OutOfTheBlue::Discard;
    }
    if contains(chunks, abort_chunk::CHUNK_TYPE) {
        return OutOfTheBlue::Discard;
    }
    if tag == 0 {
        return if is_only(chunks, init_chunk::CHUNK_TYPE) {
            OutOfTheBlue::Init
        } else {
            OutOfTheBlue::Discard
        };
    }
    if begins_with(after_auth(chunks), cookie_echo_chunk::CHUNK_TYPE) {
        return OutOfTheBlue::CookieEcho;
    }
    if contains(chunks, shutdown_ack_chunk::CHUNK_TYPE) {
        return OutOfTheBlue::Respond(Reply::ShutdownComplete);
    }
    if contains(chunks, shutdown_complete_chunk::CHUNK_TYPE) {
        return OutOfTheBlue::Discard;
    }
    if some(chunks, ChunkTest::StaleCookieError) || contains(chunks, cookie_ack_chunk::CHUNK_TYPE) {
        return OutOfTheBlue::Discard;
    }
    OutOfTheBlue::Respond(Reply::Abort)
}

impl Reply {
    /// Writes the packet with this chunk, to the sender of a packet with this header: at the front
    /// of the buffer, with a checksum field of zero, as `begin` and `add` of `dcsctp_buffer` write
    /// it. Sets the size to 16.
    ///
    /// Returns `NoRoom`, and changes nothing, if and only if the buffer has fewer than 16 bytes.
    pub fn write(
        self,
        buffer: &mut [u8],
        size: &mut usize,
        header: &CommonHeader,
    ) -> Result<(), WriteError>
        ensures room { IsOk result ↔ (16 ≤ length buffer.old) }
        ensures held { IsOk result → HoldsPacket buffer.new size.new (reply_to header.now self) }
        ensures declined { IfErr result (λ e. e ≡ NoRoom) }
        ensures unchanged { IfErr result
            (λ e. (buffer.new ≡ buffer.old) × (size.new ≡ size.old)) }
    {
        write_back(buffer, size, header, header.verification_tag, &self)
    }

    /// Returns the chunk's type.
    fn chunk_type(self) -> u8
        ensures { result ≡ (chunk_tlv (reply_chunk self)).first }
    {
        match self {
            Reply::ShutdownComplete => shutdown_complete_chunk::CHUNK_TYPE,
            Reply::Abort => abort_chunk::CHUNK_TYPE,
        }
    }
}

impl WritableChunk for Reply {
    ghost tree = { reply_chunk };

    fn written_size(&self) -> Option<usize> {
        Some(TLV_HEADER_SIZE)
    }

    fn write_to(&self, output: &mut [u8]) {
        put_solid(self.chunk_type(), one_flag(true), &[], output);
    }
}
