//! Packets that lie in one block of bytes, read in one call.

ghost use Rattle.std.specs.Prelude.{◌≡◌, ◌≢◌, ◌≤◌, min, length, take, drop};
ghost use Rattle.dcsctp_c.specs.{Code.{policy_of}, PlacedPacket.{IsPlacedReading, IsPacketAt, rows_end, IsAsked}, Walk.{AreFrom, end_of, MeanEach}};

use crate::codes::BAD_PLACE;
use crate::parts::part_at;
use crate::read::dcsctp_read;
use crate::structs::{DcsctpPlacedPacket, DcsctpPolicy, DcsctpRow};

/// Reads each packet as `dcsctp_read` does, and writes the rows of all, one packet after the other,
/// to the front of `rows`: as many as have room. Does not allocate.
///
/// Returns how many rows it wrote. Of each packet it writes the answer, and the index of its first
/// row; of one that does not lie within the bytes the code `BAD_PLACE`, and no chunks. What says
/// where a packet is stays, as do the rows after those that were written.
#[unsafe(no_mangle)]
pub extern "C" fn dcsctp_read_many(
    bytes: &[u8],
    policy: &DcsctpPolicy,
    packets: &mut [DcsctpPlacedPacket],
    rows: &mut [DcsctpRow],
) -> usize
    ensures read { AreFrom (IsPacketAt bytes.now (policy_of policy.now) rows.new)
        (rows_end rows.new) 0 packets.new }
    ensures count { result ≡ end_of (rows_end rows.new) 0 packets.new }
    ensures asked { MeanEach IsAsked packets.new packets.old }
    ensures after { drop result rows.new ≡ drop result rows.old }
{
    let mut used = 0;
    for index in 0..packets.len() {
        let mut packet = packets[index];
        used = read_next(bytes, policy, used, &mut packet, rows);
        packets[index] = packet;
    }
    used
}

// ---- helpers

/// Reads a packet, and writes its rows from an index on, as many as have room. Returns the index
/// after them.
#[inline(always)]
fn read_next(
    bytes: &[u8],
    policy: &DcsctpPolicy,
    used: usize,
    packet: &mut DcsctpPlacedPacket,
    rows: &mut [DcsctpRow],
) -> usize
    requires { used ≤ length rows.old }
    ensures at { IsPacketAt bytes.now (policy_of policy.now) rows.new used packet.new }
    ensures asked { IsAsked packet.new packet.old }
    ensures before { take used rows.new ≡ take used rows.old }
    ensures count { result ≡ rows_end rows.new packet.new }
    ensures after { drop result rows.new ≡ drop result rows.old }
{
    packet.first_row = used;
    let (_, room) = rows.split_at_mut(used);
    used + read_placed(bytes, policy, packet, room)
}

/// Reads a packet, and writes its rows to the front of an array, as many as have room. Returns how
/// many it wrote.
#[inline(always)]
fn read_placed(
    bytes: &[u8],
    policy: &DcsctpPolicy,
    placed: &mut DcsctpPlacedPacket,
    rows: &mut [DcsctpRow],
) -> usize
    ensures reading { IsPlacedReading bytes.now (policy_of policy.now) placed.new rows.new }
    ensures asked { IsAsked placed.new placed.old }
    ensures first { placed.new.first_row ≡ placed.old.first_row }
    ensures count { result ≡ min placed.new.packet.chunk_count (length rows.new) }
    ensures after { drop result rows.new ≡ drop result rows.old }
{
    match part_at(bytes, placed.offset, placed.size) {
        Some(part) => {
            dcsctp_read(part, placed.word, policy, rows, &mut placed.packet);
        }
        None => {
            placed.packet.code = BAD_PLACE;
            placed.packet.chunk_count = 0;
            placed.packet.fault_offset = 0;
        }
    }
    placed.packet.chunk_count.min(rows.len())
}
