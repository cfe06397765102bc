//! The checksum word of a packet.

ghost use Rattle.std.specs.Prelude.{◌≡◌};
ghost use Rattle.std.specs.Int.{w32, to_be_bytes, to_le_bytes};

/// Returns the word that `from_bytes`, `check` and `build` take, of a CRC32c: a packet holds the
/// CRC least significant byte first (RFC 9260 appendix A), and the word is what bytes 8 to 11 are
/// most significant byte first.
pub fn checksum_word(crc32c: u32) -> u32
    ensures { to_be_bytes w32 result ≡ to_le_bytes w32 crc32c }
{
    crc32c.swap_bytes()
}
