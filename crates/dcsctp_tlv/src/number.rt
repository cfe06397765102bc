//! Big-endian numbers (RFC 9260 section 3), and multiples of 4.

ghost use Rattle.std.specs.{Prelude.{◌≡◌, ◌≤◌, ◌<◌, ◌+◌, ◌%◌, ◌^◌, ◌++◌, ◌↔◌, length, drop, IsTrue}, Int.{w16, w32, w64, to_be_bytes}};
ghost use Rattle.dcsctp_tlv.specs.{Frame.{round_up_to_4, round_down_to_4}, Image.{put}, Number.{number16, number32, number64}};

/// Returns the number in the first two bytes, big-endian.
pub fn read_u16_be(bytes: &[u8]) -> u16
    requires { 2 ≤ length bytes.now }
    ensures { result ≡ number16 bytes.now }
{
    u16::from_be_bytes([bytes[0], bytes[1]])
}

/// Returns the number in the first four bytes, big-endian.
pub fn read_u32_be(bytes: &[u8]) -> u32
    requires { 4 ≤ length bytes.now }
    ensures { result ≡ number32 bytes.now }
{
    u32::from_be_bytes([bytes[0], bytes[1], bytes[2], bytes[3]])
}

/// Returns the number in the first eight bytes, big-endian.
pub fn read_u64_be(bytes: &[u8]) -> u64
    requires { 8 ≤ length bytes.now }
    ensures { result ≡ number64 bytes.now }
{
    u64::from_be_bytes([
        bytes[0], bytes[1], bytes[2], bytes[3], bytes[4], bytes[5], bytes[6], bytes[7],
    ])
}

/// Writes the number into the first two bytes; the bytes after them stay.
pub fn write_u16_be(output: &mut [u8], value: u16)
    requires { 2 ≤ length output.old }
    ensures { output.new ≡ to_be_bytes w16 value ++ drop 2 output.old }
{
    output[..2].copy_from_slice(&value.to_be_bytes());
}

/// Writes the number into the first four bytes; the bytes after them stay.
pub fn write_u32_be(output: &mut [u8], value: u32)
    requires { 4 ≤ length output.old }
    ensures { output.new ≡ to_be_bytes w32 value ++ drop 4 output.old }
{
    output[..4].copy_from_slice(&value.to_be_bytes());
}

/// Writes the number into the first eight bytes; the bytes after them stay.
pub fn write_u64_be(output: &mut [u8], value: u64)
    requires { 8 ≤ length output.old }
    ensures { output.new ≡ to_be_bytes w64 value ++ drop 8 output.old }
{
    output[..8].copy_from_slice(&value.to_be_bytes());
}

/// Writes the number into two bytes at a place; all others stay.
pub fn put_u16(output: &mut [u8], place: usize, value: u16)
    requires { place + 2 ≤ length output.old }
    ensures { output.new ≡ put output.old place (to_be_bytes w16 value) }
{
    let (_, rest) = output.split_at_mut(place);
    write_u16_be(rest, value);
}

/// Writes the number into four bytes at a place; all others stay.
pub fn put_u32(output: &mut [u8], place: usize, value: u32)
    requires { place + 4 ≤ length output.old }
    ensures { output.new ≡ put output.old place (to_be_bytes w32 value) }
{
    let (_, rest) = output.split_at_mut(place);
    write_u32_be(rest, value);
}

/// Returns the least multiple of 4 that isn't below `n`.
pub fn round_up_to_4(n: usize) -> usize
    requires { round_up_to_4 n < 2 ^ 64 }
    ensures { result ≡ round_up_to_4 n }
{
    round_down_to_4(n + 3)
}

/// Returns the greatest multiple of 4 that isn't above `n`.
pub fn round_down_to_4(n: usize) -> usize
    ensures { result ≡ round_down_to_4 n }
{
    n / 4 * 4
}

/// Returns whether `n` is a multiple of 4.
pub fn is_divisible_by_4(n: usize) -> bool
    ensures { IsTrue result ↔ (n % 4 ≡ 0) }
{
    n.is_multiple_of(4)
}
