//! What a chunk acknowledges.

ghost use Rattle.std.specs.Prelude.{◌≡◌, ◌↔◌, IsTrue, IfSome, IfNone, false};
ghost use Rattle.dcsctp_borrowed.specs.Part.{item_of};
ghost use Rattle.dump_packet.specs.Acknowledged.{acknowledges, is_acknowledging, block_count, IsAcknowledgedBy, Says};

use crate::serial::is_after;
use dcsctp_borrowed::part::Item;
use dcsctp_receive::chunk_type::{NR_SACK, SACK, SHUTDOWN};
use dcsctp_registry::chunk_layouts::{
    NR_SACK_BLOCKS_OFFSET, NR_SACK_LISTS_OFFSET, NR_SACK_NR_BLOCKS_OFFSET,
};
use dcsctp_wire::packet::sack_chunk::SackNumbers;
use dcsctp_wire::packet::{read_u16_be, read_u32_be};

/// The TSNs that a chunk acknowledges, as far as it was captured.
#[derive(Clone, Copy)]
pub struct Acknowledgement<'a> {
    /// The Cumulative TSN Ack: it, and all before it.
    pub cumulative: u32,
    // the gap blocks, and how many there are
    blocks: &'a [u8],
    count: usize,
}

impl<'a> Acknowledgement<'a> {
    /// Returns what a SACK (RFC 9260 section 3.3.4), an NR-SACK or a SHUTDOWN (section 3.3.8)
    /// acknowledges; `None` for other chunks.
    pub fn of(chunk: Item<'a>) -> Option<Acknowledgement<'a>>
        ensures some { IfSome result (Says (item_of chunk.entry)) }
        ensures none { IfNone result (acknowledges (item_of chunk.entry) ≡ false) }
    {
        if !acknowledges(chunk) {
            return None;
        }
        let size = if chunk.first == SACK {
            SackNumbers::SIZE
        } else {
            NR_SACK_LISTS_OFFSET
        };
        Some(Acknowledgement {
            cumulative: read_u32_be(chunk.value.bytes),
            blocks: chunk.value.after(size).bytes,
            count: block_count(chunk),
        })
    }

    /// Returns how many gap blocks there are.
    pub fn block_count(self) -> usize {
        self.count.min(self.blocks.len() / 4)
    }

    /// Returns the first and the last TSN of a gap block, as far after the Cumulative TSN Ack;
    /// `None` where there is none.
    pub fn block(self, index: usize) -> Option<(u16, u16)> {
        let block = self.blocks.get(index.saturating_mul(4)..)?;
        if block.len() < 4 {
            return None;
        }
        Some((read_u16_be(block), read_u16_be(&block[2..])))
    }

    /// Returns whether a TSN is acknowledged.
    pub fn has(self, tsn: u32) -> bool
        ensures { IsTrue result ↔ IsAcknowledgedBy self.entry tsn }
    {
        if !is_after(tsn, self.cumulative) {
            return true;
        }
        let offset = tsn.wrapping_sub(self.cumulative);
        for block in 0..self.count.min(self.blocks.len() / 4) {
            let place = 4 * block;
            let start = u32::from(read_u16_be(&self.blocks[place..]));
            let end = u32::from(read_u16_be(&self.blocks[place + 2..]));
            if start <= offset && offset <= end {
                return true;
            }
        }
        false
    }
}

/// Returns whether a chunk acknowledges TSNs.
fn acknowledges(chunk: Item<'_>) -> bool
    ensures { result ≡ acknowledges (item_of chunk.entry) }
{
    is_acknowledging(chunk.first) && chunk.value.bytes.len() >= 4
}

/// Returns whether chunks of this type acknowledge TSNs.
fn is_acknowledging(typ: u8) -> bool
    ensures { result ≡ is_acknowledging typ }
{
    typ == SACK || typ == NR_SACK || typ == SHUTDOWN
}

/// Returns how many gap blocks a chunk says that it has.
fn block_count(chunk: Item<'_>) -> usize
    ensures { result ≡ block_count (item_of chunk.entry) }
{
    let value = chunk.value.bytes;
    if chunk.first == SACK && value.len() >= SackNumbers::SIZE {
        read_u16_be(&value[SackNumbers::GAP_ACK_BLOCK_COUNT..]) as usize
    } else if chunk.first == NR_SACK && value.len() >= NR_SACK_LISTS_OFFSET {
        let blocks = read_u16_be(&value[NR_SACK_BLOCKS_OFFSET..]) as usize;
        blocks + read_u16_be(&value[NR_SACK_NR_BLOCKS_OFFSET..]) as usize
    } else {
        0
    }
}
