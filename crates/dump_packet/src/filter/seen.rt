//! The chunks of a packet that are looked at: of a refused one those up to its fault.

ghost use Rattle.std.specs.Prelude.{◌≡◌, ◌≤◌, length};
ghost use Rattle.std.specs.List.{list_any};
ghost use Rattle.dcsctp_borrowed.specs.Part.{part_of, item_of};
ghost use Rattle.dcsctp_receive.specs.ChunkTest.{meets_test};
ghost use Rattle.dump_packet.specs.Seen.{has_header, front_chunk, chunks_ahead, chunks_seen};

use dcsctp_borrowed::part::{Item, Part};
use dcsctp_receive::chunk_test::{ChunkTest, some};

/// Returns whether a chunk meets the test that is looked at in a packet whose first fault lies at
/// this offset.
pub(crate) fn some_seen(packet: Part<'_>, fault: Option<usize>, test: ChunkTest) -> bool
    ensures { result ≡ list_any (meets_test test) (chunks_seen fault (part_of packet.entry)) }
{
    let chunks = packet.after(12);
    match fault {
        None => some(chunks, test),
        Some(offset) => offset >= 12 && some_ahead(chunks, offset - 12, test),
    }
}

/// Returns whether a chunk that begins at most `ahead` bytes from the front meets the test.
fn some_ahead(chunks: Part<'_>, ahead: usize, test: ChunkTest) -> bool
    ensures { result ≡ list_any (meets_test test) (chunks_ahead ahead (part_of chunks.entry)) }
{
    let mut rest = chunks;
    let mut left = ahead;
    while rest.bytes.len() >= 4 {
        if test.is_met(front_chunk(rest)) {
            return true;
        }
        let Some(chunk) = rest.item() else {
            return false;
        };
        if chunk.padded > left {
            return false;
        }
        rest = rest.after(chunk.padded);
        left -= chunk.padded;
    }
    false
}

/// Returns the chunk whose header lies here; where its length is impossible, with all that is left.
fn front_chunk(rest: Part<'_>) -> Item<'_>
    requires { 4 ≤ length rest.bytes.now }
    ensures { item_of result ≡ front_chunk (part_of rest.entry) }
{
    match rest.item() {
        Some(chunk) => chunk,
        None => {
            Item {
                first: rest.bytes[0],
                second: rest.bytes[1],
                value: rest.after(4),
                padded: rest.size,
            }
        }
    }
}
