//! A SACK, whose lists lie anywhere.

ghost use Rattle.std.specs.Prelude.{◌≡◌, ◌<◌, ◌^◌, length};
ghost use Rattle.dcsctp_chunk.specs.Sack.{fixed as fixed_bytes, IsInWidth};
ghost use Rattle.dcsctp_wire.specs.Chunk.{Sack as SackTree};
ghost use Rattle.dcsctp_buffer.specs.Sack.{view};

use crate::widths::{blocks_in_width, words_in_width};
use crate::writable_chunk::WritableChunk;
use dcsctp_tlv::fields::put_fields;
use dcsctp_tlv::frame::{TLV_HEADER_SIZE, fields_item_size, put_bytes, put_header};
use dcsctp_types::types::Tsn;
use dcsctp_wire::packet::sack_chunk::{CHUNK_TYPE, GapAckBlock, SackNumbers};

/// A SACK (RFC 9260 section 3.3.4) to be written. Its blocks and duplicates are written as they
/// are, in any order.
#[derive(Clone, Copy, Debug)]
pub struct BorrowedSack<'a> {
    /// The last TSN that was received in sequence.
    pub cumulative_tsn_ack: Tsn,
    /// Bytes that the sender has room for.
    pub a_rwnd: u32,
    /// What was received beyond the first missing TSN.
    pub gap_ack_blocks: &'a [GapAckBlock],
    /// The TSNs that came more than once, as often as they came again.
    pub duplicate_tsns: &'a [u32],
}

impl BorrowedSack<'_> {
    /// Returns the value before its lists, as it is written.
    fn fixed(&self) -> [u8; SackNumbers::SIZE]
        requires blocks { length self.now.gap_ack_blocks.now < 2 ^ 16 }
        requires duplicates { length self.now.duplicate_tsns.now < 2 ^ 16 }
        ensures bytes { result ≡ fixed_bytes (view self.now) }
        ensures width { IsInWidth (view self.now) }
    {
        blocks_in_width(self.gap_ack_blocks);
        words_in_width(self.duplicate_tsns);
        SackNumbers {
            cumulative_tsn_ack: self.cumulative_tsn_ack,
            a_rwnd: self.a_rwnd,
            gap_ack_block_count: self.gap_ack_blocks.len() as u16,
            duplicate_tsn_count: self.duplicate_tsns.len() as u16,
        }
        .bytes()
    }
}

impl WritableChunk for BorrowedSack<'_> {
    ghost tree = { λ s. SackTree (view s) };

    fn written_size(&self) -> Option<usize> {
        let blocks = self.gap_ack_blocks.len();
        let duplicates = self.duplicate_tsns.len();
        fields_item_size(SackNumbers::SIZE, 4, blocks.saturating_add(duplicates))
    }

    fn write_to(&self, output: &mut [u8]) {
        let blocks = self.gap_ack_blocks.len();
        let value_size = SackNumbers::SIZE + 4 * blocks + 4 * self.duplicate_tsns.len();
        put_header(CHUNK_TYPE, 0, value_size, output);
        put_bytes(output, TLV_HEADER_SIZE, &self.fixed());
        let place = TLV_HEADER_SIZE + SackNumbers::SIZE;
        put_fields::<GapAckBlock>(output, place, self.gap_ack_blocks);
        put_fields::<u32>(output, place + 4 * blocks, self.duplicate_tsns);
    }
}
