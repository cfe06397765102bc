//! Packets that are kept, one after the other, in the same memory.

ghost use Rattle.std.specs.Prelude.{◌≡◌, ◌⊎◌, length, IsTrue};
ghost use Rattle.test_callers.specs.Probe.{ArePackets};

use crate::probes::ANY_CHECKSUM;
use dcsctp_borrowed::packet_buf::PacketBuf;
use std::alloc::Global;

/// Copies each packet of a block into the same `PacketBuf`, where they lie one after the other with
/// these sizes: the number of packets; 0 where one of them is none, or memory runs out.
#[unsafe(no_mangle)]
pub extern "C" fn probes_refill(alloc: Global, block: &[u8], sizes: &[usize]) -> usize
    ensures { (result ≡ 0) ⊎ ((result ≡ length sizes.now) × ArePackets block.now sizes.now) }
{
    let Some(&size) = sizes.first() else {
        return 0;
    };
    let first = &block[..size.min(block.len())];
    match PacketBuf::from_slice(alloc, first, 0, &ANY_CHECKSUM) {
        Ok(mut kept) => {
            if refill(&mut kept, block, sizes) {
                sizes.len()
            } else {
                0
            }
        }
        Err(_) => 0,
    }
}

/// Copies each packet into the `PacketBuf`, and returns whether all were copied.
fn refill(kept: &mut PacketBuf, block: &[u8], sizes: &[usize]) -> bool
    ensures { IsTrue result → ArePackets block.now sizes.now }
{
    let mut rest = block;
    let mut left = sizes;
    while let Some((&size, others)) = left.split_first() {
        if size > rest.len() {
            return false;
        }
        let (packet, after) = rest.split_at(size);
        if kept.refill(packet, 0, &ANY_CHECKSUM).is_err() {
            return false;
        }
        rest = after;
        left = others;
    }
    true
}
