//! Which version of the library it is.

ghost use Rattle.std.specs.Prelude.{◌≡◌};

/// Returns the version, 0.1.0, as one number: the major version times 65,536, the minor times 256,
/// and the patch level.
#[unsafe(no_mangle)]
pub extern "C" fn dcsctp_version_number() -> u32
    ensures { result ≡ 0x00_01_00 }
{
    0x00_01_00
}
