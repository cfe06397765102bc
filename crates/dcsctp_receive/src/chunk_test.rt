//! Tests of a chunk, and the loop that looks for one that meets a test.

ghost use Rattle.std.specs.Prelude.{◌≡◌, ◌≤◌, ◌+◌, ◌==◌, ◌&&◌, ◌||◌, nat_le, nat_lt, length};
ghost use Rattle.std.specs.List.{list_any};
ghost use Rattle.dcsctp_tlv.specs.Number.{number16, number32};
ghost use Rattle.dcsctp_borrowed.specs.Part.{part_of, item_of, after};
ghost use Rattle.dcsctp_receive.specs.Chunks.{items_of};
ghost use Rattle.dcsctp_receive.specs.Fields.{flags_below, are_isolated, has_ppid, has_after, needs_checksum, has_wrong_list, has_wrong_blocks};
ghost use Rattle.dcsctp_receive.specs.ChunkTest.{meets_test, IsFound};

use crate::chunk_type;
use crate::fields::{is_u16, is_u32};
use crate::parameters::{has_no_cookie, has_no_heartbeat_info, is_stale_cookie_error};
use dcsctp_borrowed::part::{Item, Part};
use dcsctp_wire::packet::data_chunk::DataNumbers;
use dcsctp_wire::packet::idata_chunk::IDataNumbers;
use dcsctp_wire::packet::init_chunk::InitNumbers;
use dcsctp_wire::packet::sack_chunk::SackNumbers;
use dcsctp_wire::packet::{read_u16_be, read_u32_be};

/// What is asked of a chunk.
#[derive(Clone, Copy)]
pub enum ChunkTest {
    /// Nothing.
    Any,
    /// This type.
    Type(u8),
    /// Another type.
    OtherThan(u8),
    /// User data of this stream.
    Stream(u16),
    /// User data with this TSN.
    Tsn(u32),
    /// User data with this payload protocol identifier.
    Ppid(u32),
    /// DATA or I-DATA.
    UserData,
    /// A chunk other than DATA, I-DATA and PAD.
    Control,
    /// User data of no byte.
    NoUserData,
    /// INIT, INIT ACK or SHUTDOWN COMPLETE.
    StandsAlone,
    /// An Initiate Tag of 0.
    NoInitiateTag,
    /// No outbound or no inbound stream.
    NoStreams,
    /// A first window of fewer than 1,500 bytes.
    SmallWindow,
    /// INIT, COOKIE ECHO, ASCONF, or an answer to a packet out of the blue.
    NeedsChecksum,
    /// Gap ack blocks that aren't isolated.
    WrongBlocks,
    /// A flag that is reserved.
    ReservedFlag,
    /// INIT ACK without State Cookie.
    NoCookie,
    /// HEARTBEAT without Heartbeat Info.
    NoHeartbeatInfo,
    /// ERROR with the cause Stale Cookie.
    StaleCookieError,
}

impl ChunkTest {
    /// Returns whether the chunk meets it.
    pub fn is_met(self, chunk: Item<'_>) -> bool
        ensures { result ≡ meets_test self (item_of chunk.entry) }
    {
        let typ = chunk.first;
        let value = chunk.value;
        match self {
            ChunkTest::Any => true,
            ChunkTest::Type(wanted) => typ == wanted,
            ChunkTest::OtherThan(wanted) => typ != wanted,
            // DATA and I-DATA have it at one place.
            ChunkTest::Stream(stream) => {
                is_user_data(typ) && is_u16(value.after(DataNumbers::STREAM_ID), stream)
            }
            ChunkTest::Tsn(tsn) => is_user_data(typ) && is_u32(value.after(DataNumbers::TSN), tsn),
            ChunkTest::Ppid(ppid) => has_ppid(chunk, ppid),
            ChunkTest::UserData => is_user_data(typ),
            ChunkTest::Control => !(is_user_data(typ) || typ == chunk_type::PAD),
            ChunkTest::NoUserData => {
                typ == chunk_type::DATA && value.size == DataNumbers::SIZE
                    || typ == chunk_type::I_DATA && value.size == IDataNumbers::SIZE
            }
            ChunkTest::StandsAlone => is_init(typ) || typ == chunk_type::SHUTDOWN_COMPLETE,
            ChunkTest::NoInitiateTag => is_init(typ) && is_u32(value, 0),
            ChunkTest::NoStreams => {
                is_init(typ)
                    && (is_u16(value.after(InitNumbers::NBR_OUTBOUND_STREAMS), 0)
                        || is_u16(value.after(InitNumbers::NBR_INBOUND_STREAMS), 0))
            }
            ChunkTest::SmallWindow => is_init(typ) && has_small_window(value),
            ChunkTest::NeedsChecksum => needs_checksum(chunk),
            ChunkTest::WrongBlocks => has_wrong_blocks(chunk),
            ChunkTest::ReservedFlag => u16::from(chunk.second) >= flags_below(typ),
            ChunkTest::NoCookie => has_no_cookie(chunk),
            ChunkTest::NoHeartbeatInfo => has_no_heartbeat_info(chunk),
            ChunkTest::StaleCookieError => is_stale_cookie_error(chunk),
        }
    }
}

/// Returns whether chunks of this type hold user data.
fn is_user_data(typ: u8) -> bool
    ensures { result ≡ (typ == 0 || typ == 64) }
{
    typ == chunk_type::DATA || typ == chunk_type::I_DATA
}

/// Returns whether it is the type of INIT or of INIT ACK, whose fields are the same.
fn is_init(typ: u8) -> bool
    ensures { result ≡ (typ == 1 || typ == 2) }
{
    typ == chunk_type::INIT || typ == chunk_type::INIT_ACK
}

/// Returns whether an INIT or an INIT ACK with this value advertises a window of fewer than 1,500
/// bytes.
fn has_small_window(value: Part<'_>) -> bool
    ensures { let v = part_of value.entry in
        result ≡ (nat_le 8 (length v.bytes) && nat_lt (number32 (after 4 v).bytes) 1500) }
{
    value.bytes.len() >= 8 && read_u32_be(&value.bytes[InitNumbers::A_RWND..]) < 1500
}

/// Returns whether it is user data with this payload protocol identifier, which every DATA has, and
/// the first fragment of an I-DATA message.
fn has_ppid(chunk: Item<'_>, ppid: u32) -> bool
    ensures { result ≡ has_ppid ppid (item_of chunk.entry) }
{
    match chunk.first {
        chunk_type::DATA => is_u32(chunk.value.after(DataNumbers::PPID), ppid),
        chunk_type::I_DATA => {
            let place = IDataNumbers::PPID_OR_FSN;
            chunk.second / 2 % 2 == 1 && is_u32(chunk.value.after(place), ppid)
        }
        _ => false,
    }
}

/// Returns the number that flags of this type are below; the bits from there on are reserved.
fn flags_below(typ: u8) -> u16
    ensures { result ≡ flags_below typ }
{
    match typ {
        chunk_type::DATA | chunk_type::I_DATA => 16,
        chunk_type::ABORT | chunk_type::SHUTDOWN_COMPLETE => 2,
        1..=5 | 7..=11 | 15 | 128 | 130 | 132 | 192..=194 => 1,
        _ => 256,
    }
}

/// Returns whether a packet with this chunk is sent with its CRC32c.
fn needs_checksum(chunk: Item<'_>) -> bool
    ensures { result ≡ needs_checksum (item_of chunk.entry) }
{
    match chunk.first {
        chunk_type::INIT | chunk_type::COOKIE_ECHO | chunk_type::ASCONF => true,
        chunk_type::ABORT | chunk_type::SHUTDOWN_COMPLETE => chunk.second % 2 == 1,
        _ => false,
    }
}

/// Returns whether some gap ack block or NR gap ack block of the chunk isn't isolated.
fn has_wrong_blocks(chunk: Item<'_>) -> bool
    ensures { result ≡ has_wrong_blocks (item_of chunk.entry) }
{
    let value = chunk.value;
    match chunk.first {
        chunk_type::SACK => {
            has_wrong_list(value, SackNumbers::GAP_ACK_BLOCK_COUNT, SackNumbers::SIZE)
        }
        chunk_type::NR_SACK => {
            let numbers = value.after(8).bytes;
            if numbers.len() < 2 {
                return false;
            }
            let end = 16 + 4 * usize::from(read_u16_be(numbers));
            has_wrong_list(value, 8, 16) || has_wrong_list(value, 10, end)
        }
        _ => false,
    }
}

/// Returns whether some block of a list isn't isolated, whose number is at the offset `count`, and
/// its first block at the offset `start`.
fn has_wrong_list(value: Part<'_>, count: usize, start: usize) -> bool
    requires { count + 2 ≤ start }
    ensures { result ≡ has_wrong_list count start (part_of value.entry) }
{
    let numbers = value.after(count).bytes;
    numbers.len() >= 2 && !are_isolated(read_u16_be(numbers), value.after(start))
}

/// Returns whether each of the first `count` gap ack blocks, as far as they were captured, ends
/// where it starts or later, and a TSN is missing before it.
fn are_isolated(count: u16, blocks: Part<'_>) -> bool
    ensures { result ≡ are_isolated count 0 (part_of blocks.entry) }
{
    let mut rest = blocks;
    let mut before: u16 = 0;
    let mut left = count;
    while left > 0 && rest.bytes.len() >= 4 {
        let start = read_u16_be(rest.bytes);
        let end = read_u16_be(&rest.bytes[2..]);
        if start <= before.saturating_add(1) || start > end {
            return false;
        }
        before = end;
        rest = rest.after(4);
        left -= 1;
    }
    true
}

/// Returns what follows the first chunk that meets the test; `None` where none does.
fn after_first(chunks: Part<'_>, test: ChunkTest) -> Option<Part<'_>>
    ensures { IsFound (meets_test test) (items_of (part_of chunks.entry)) result }
{
    let mut items = chunks.items();
    while let Some(chunk) = items.next() {
        if test.is_met(chunk) {
            return Some(items.rest());
        }
    }
    None
}

/// Returns whether some chunk meets the test.
pub fn some(chunks: Part<'_>, test: ChunkTest) -> bool
    ensures { result ≡ list_any (meets_test test) (items_of (part_of chunks.entry)) }
{
    after_first(chunks, test).is_some()
}

/// Returns whether some chunk that meets the second test comes after one that meets the first.
pub(crate) fn some_after(chunks: Part<'_>, first: ChunkTest, second: ChunkTest) -> bool
    ensures { result ≡
        has_after (meets_test first) (meets_test second) (items_of (part_of chunks.entry)) }
{
    match after_first(chunks, first) {
        Some(rest) => some(rest, second),
        None => false,
    }
}
