//! The CRC32c, which `bench/crc.sh` times.

ghost use Rattle.std.specs.Prelude.{◌≡◌};
ghost use Rattle.dcsctp_crc32c.specs.Checksum.{crc32c, packet_word};

/// Returns the CRC32c of the bytes.
#[unsafe(no_mangle)]
pub extern "C" fn probes_crc32c(bytes: &[u8]) -> u32
    ensures { result ≡ crc32c bytes.now }
{
    dcsctp_crc32c::crc32c(bytes)
}

/// Returns the word of a packet.
#[unsafe(no_mangle)]
pub extern "C" fn probes_packet_word(bytes: &[u8]) -> u32
    ensures { result ≡ packet_word bytes.now }
{
    dcsctp_crc32c::packet_word(bytes)
}
