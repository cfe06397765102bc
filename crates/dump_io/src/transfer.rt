//! Moves bytes between memory and a device, up to the device's first failure.
ghost use Rattle.std.specs.Prelude.{◌≡◌, ◌||◌, ◌<◌, ◌≤◌, [], is_err, take, length, IsOk, IfOk, OnOk, OnErr};
ghost use Rattle.std.specs.Io.KnownBytes.{Appends, Consumes, IsAtEnd};
ghost use Rattle.dump_io.specs.Watched.{device_of, has_failed};
ghost use Rattle.dump_io.specs.Transfer.{TakesAtMost, AppendsBeginning};

use crate::watched::Watched;
use std::io;
use std::io::{ErrorKind, Read, Write};

/// Reads into `room` from its front on, until it is full or the input at its end, and returns the
/// number of bytes read. A failed read, also an interrupted one, is not tried again.
pub fn fill<R: Read>(input: &mut Watched<R>, room: &mut [u8]) -> io::Result<usize>
    ensures within { IfOk result (λ n. n ≤ length room.new) }
    ensures read { IfOk result (λ n. Consumes (R.remaining (device_of input.old))
        (R.remaining (device_of input.new)) (take n room.new)) }
    ensures end { IfOk result (λ n. n < length room.new
        → IsAtEnd (R.remaining (device_of input.new))) }
    ensures none_lost { OnErr result (TakesAtMost (length room.old)
        (R.remaining (device_of input.old)) (R.remaining (device_of input.new))) }
    ensures failed { has_failed input.new ≡ (has_failed input.old || is_err result) }
{
    let mut filled = 0;
    while filled < room.len() {
        match input.read(&mut room[filled..]) {
            Ok(0) => break,
            Ok(count) => filled += count,
            Err(failure) => return Err(failure),
        }
    }
    Ok(filled)
}

/// Writes all bytes, and doesn't flush. Where the output fails, it took a beginning of them; a
/// write that takes none is `WriteZero`. A failed write, also an interrupted one, is not tried
/// again. Of no bytes nothing is written.
pub fn write_bytes<W: Write>(output: &mut Watched<W>, bytes: &[u8]) -> io::Result<()>
    ensures whole { OnOk result (Appends (W.contents (device_of output.old))
        (W.contents (device_of output.new)) bytes.now) }
    ensures cut { OnErr result (AppendsBeginning (W.contents (device_of output.old))
        (W.contents (device_of output.new)) bytes.now) }
    ensures none { bytes.now ≡ [] → IsOk result }
    ensures failed { has_failed output.new ≡ (has_failed output.old || is_err result) }
{
    let mut written = 0;
    while written < bytes.len() {
        match output.write(&bytes[written..]) {
            Ok(0) => return Err(io::Error::from(ErrorKind::WriteZero)),
            Ok(count) => written += count,
            Err(error) => return Err(error),
        }
    }
    Ok(())
}
