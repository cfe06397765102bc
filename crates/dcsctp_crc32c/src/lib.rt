//! Computes the CRC32c of a packet (RFC 9260 appendix A), for callers that have no faster one.
//!
//! Nothing here allocates. The tables take 16 KiB.
#![tactic(auto)]

ghost use Rattle.std.specs.Prelude.{ℕ, ◌≡◌, ◌*◌, ◌+◌, ◌<◌, ◌≤◌, ◌++◌, List, length, take, drop};
ghost use Rattle.std.specs.Int.{w32, to_le_bytes};
ghost use Rattle.dcsctp_crc32c.specs.Checksum.{after_bits, after_byte, after_bytes, extended, crc32c, with_zero_field, packet_word};

mod tables;

use crate::tables::TABLES;

/// The number of bytes that go through the tables at once.
const BLOCK: usize = 16;

/// The number of bytes of two blocks.
const PAIR: usize = 2 * BLOCK;

/// The number of bytes of a word.
const WORD: usize = 4;

/// Returns the CRC32c of the bytes; 0 for no bytes.
pub fn crc32c(bytes: &[u8]) -> u32
    ensures { result ≡ crc32c bytes.now }
{
    update(0, bytes)
}

/// Returns the CRC32c of bytes that come in pieces, up to and with this piece: `crc` is the CRC32c
/// of all pieces before it, and 0 before the first.
pub fn update(crc: u32, bytes: &[u8]) -> u32
    ensures pieces { (before : List ℕ) → crc ≡ crc32c before
        → result ≡ crc32c (before ++ bytes.now) }
    ensures value { result ≡ extended crc bytes.now }
{
    after_bytes(crc ^ u32::MAX, bytes) ^ u32::MAX
}

/// Returns the word of a packet, which `from_bytes` and `check` of a packet and `build` of a
/// builder take: the number that its checksum field, bytes 8 to 11, has to be, most significant
/// byte first.
///
/// It is the CRC32c of the packet with zeros in the field, with its bytes in reverse order, since
/// the field holds the CRC32c least significant byte first. The field itself doesn't matter: the
/// word of a packet that is to be sent is that of its bytes without a checksum. Fewer than 12 bytes
/// are not a packet; their word is that of the first eight, or fewer if there are fewer, and four
/// zeros.
pub fn packet_word(bytes: &[u8]) -> u32
    ensures value { result ≡ packet_word bytes.now }
    ensures field_apart { (others : List ℕ) → take 8 others ≡ take 8 bytes.now
        → drop 12 others ≡ drop 12 bytes.now → result ≡ packet_word others }
{
    packet_crc32c(bytes).swap_bytes()
}

/// Returns the CRC32c of a packet with zeros in the checksum field.
fn packet_crc32c(bytes: &[u8]) -> u32
    ensures { result ≡ crc32c (with_zero_field bytes.now) }
{
    if bytes.len() < BLOCK {
        let before = &bytes[..bytes.len().min(8)];
        let after = &bytes[bytes.len().min(12)..];
        return update(update(crc32c(before), &[0; 4]), after);
    }
    // the field is the third word of the first block
    let first = after_words(u32::MAX, word(bytes, 0), word(bytes, 4), 0, word(bytes, 12));
    after_bytes(first, &bytes[BLOCK..]) ^ u32::MAX
}

/// Returns the register after the bytes. Two blocks in each turn of the loop are faster than one.
fn after_bytes(register: u32, bytes: &[u8]) -> u32
    ensures { result ≡ after_bytes register bytes.now }
{
    let pairs = bytes.len() / PAIR;
    let mut after = register;
    for k in 0..pairs {
        after = after_pair(after, &bytes[PAIR * k..PAIR * k + PAIR]);
    }
    after_rest(after, &bytes[PAIR * pairs..])
}

/// Returns the register after what is left of the bytes: a block if there is one, then words, then
/// bytes.
fn after_rest(register: u32, bytes: &[u8]) -> u32
    ensures { result ≡ after_bytes register bytes.now }
{
    if bytes.len() < BLOCK {
        return after_short(register, bytes);
    }
    after_short(after_block(register, &bytes[..BLOCK]), &bytes[BLOCK..])
}

/// Returns the register after the bytes, taken word by word, and then byte by byte.
fn after_short(register: u32, bytes: &[u8]) -> u32
    ensures { result ≡ after_bytes register bytes.now }
{
    let words = bytes.len() / WORD;
    let mut after = register;
    for k in 0..words {
        after = after_word(after, &bytes[WORD * k..WORD * k + WORD]);
    }
    after_each(after, &bytes[WORD * words..])
}

/// Returns the register after the bytes, taken one by one.
fn after_each(register: u32, bytes: &[u8]) -> u32
    ensures { result ≡ after_bytes register bytes.now }
{
    bytes
        .iter()
        .fold(register, |register, byte| after_byte(register, *byte))
}

/// Returns the register after a byte.
fn after_byte(register: u32, byte: u8) -> u32
    ensures { result ≡ after_byte register byte }
{
    entry(0, (register & 0xFF) as u8 ^ byte) ^ (register >> 8)
}

/// Returns the register after the four bytes of a word.
fn after_word(register: u32, bytes: &[u8]) -> u32
    requires { length bytes.now ≡ 4 }
    ensures { result ≡ after_bytes register bytes.now }
{
    moved(0, register ^ word(bytes, 0))
}

/// Returns the register after two blocks.
fn after_pair(register: u32, bytes: &[u8]) -> u32
    requires { length bytes.now ≡ 32 }
    ensures { result ≡ after_bytes register bytes.now }
{
    after_block(after_block(register, &bytes[..BLOCK]), &bytes[BLOCK..])
}

/// Returns the register after a block.
fn after_block(register: u32, block: &[u8]) -> u32
    requires { length block.now ≡ 16 }
    ensures { result ≡ after_bytes register block.now }
{
    after_words(
        register,
        word(block, 0),
        word(block, 4),
        word(block, 8),
        word(block, 12),
    )
}

/// Returns the word at a place, least significant byte first. Compiled, it is one load, which the
/// rate rests on: a load for each byte would take a third longer.
fn word(bytes: &[u8], place: usize) -> u32
    requires { place + 4 ≤ length bytes.now }
    ensures { to_le_bytes w32 result ≡ take 4 (drop place bytes.now) }
{
    u32::from_le_bytes([
        bytes[place],
        bytes[place + 1],
        bytes[place + 2],
        bytes[place + 3],
    ])
}

/// Returns the register after four words: each goes past those after it by itself, and all are
/// joined.
fn after_words(register: u32, a: u32, b: u32, c: u32, d: u32) -> u32
    ensures { result ≡ after_bytes (after_bytes (after_bytes (after_bytes register
        (to_le_bytes w32 a)) (to_le_bytes w32 b)) (to_le_bytes w32 c)) (to_le_bytes w32 d) }
{
    // these don't wait for the register
    let last = moved(8, b) ^ moved(4, c) ^ moved(0, d);
    moved(12, register ^ a) ^ last
}

/// Returns the register that held the word, after four bytes of zero and `k` more: each byte of it
/// goes by itself.
fn moved(k: usize, word: u32) -> u32
    requires { k < 13 }
    ensures { result ≡ after_bits (8 * (k + 4)) word }
{
    let [a, b, c, d] = word.to_le_bytes();
    entry(k + 3, a) ^ entry(k + 2, b) ^ entry(k + 1, c) ^ entry(k, d)
}

/// Returns the register that held the byte alone, after that byte and `k` bytes of zero.
fn entry(k: usize, byte: u8) -> u32
    requires { k < 16 }
    ensures { result ≡ after_bits (8 * (k + 1)) byte }
{
    TABLES[k][byte as usize]
}
