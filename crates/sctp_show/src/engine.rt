//! The program over a reader and a writer, either of which may fail.
ghost use Rattle.std.specs.Prelude.{◌≡◌, ◌⊎◌, ◌↔◌, ◌<◌, ◌≤◌, true, false, take, length, IfOk, IfErr, IfSome, OnErr};
ghost use Rattle.std.specs.Io.KnownBytes.{Consumes};
ghost use Rattle.dcsctp_wire.specs.Frame.{lenient};
ghost use Rattle.dump_io.specs.Watched.{device_of, has_failed, is_flushed, change};
ghost use Rattle.dump_io.specs.Transfer.{TakesAtMost};
ghost use Rattle.sctp_show.specs.Show.{MayAnswer, Writes, WritesBeginning, Runs};
ghost use Rattle.sctp_show.specs.Reply.{reply_of};

use crate::answer::{MOST_BYTES, answer_to};
use crate::failure::Failure;
use dump_io::transfer::{fill, write_bytes};
use dump_io::watched::Watched;
use std::alloc::Global;
use std::io::{Read, Write};

// A longer input is known by one byte too many.
const MOST_READ: usize = MOST_BYTES + 1;

/// Reads the input, writes its answer, and returns the status: 0 for a packet, 1 for a fault, and 2
/// if the output failed. Of a device that had failed before, the contract says no more than that at
/// most 200,001 bytes were read. Padding isn't looked at.
pub fn show<R: Read, W: Write>(alloc: Global, input: &mut Watched<R>, output: &mut Watched<W>) -> u8
    ensures { Runs lenient (change R.remaining input.old input.new)
        (change W.contents output.old output.new) result }
{
    run(alloc, false, input, output)
}

/// Reads the input, writes its answer, and returns the status, as `show` does, but under a strict
/// policy: padding that isn't zero, or that the last chunk lacks, is a fault.
pub fn show_strict<R: Read, W: Write>(
    alloc: Global,
    input: &mut Watched<R>,
    output: &mut Watched<W>,
) -> u8
    ensures { Runs true (change R.remaining input.old input.new)
        (change W.contents output.old output.new) result }
{
    run(alloc, true, input, output)
}

/// Reads the input, writes its answer, and returns the status, under a strict policy if `strict` is
/// true.
fn run<R: Read, W: Write>(
    alloc: Global,
    strict: bool,
    input: &mut Watched<R>,
    output: &mut Watched<W>,
) -> u8
    ensures { Runs strict (change R.remaining input.old input.new)
        (change W.contents output.old output.new) result }
{
    let reply = reply_to(alloc, strict, input);
    write_reply(output, &reply)
}

/// Returns the answer to the input, or why there is none.
fn reply_to<R: Read>(alloc: Global, strict: bool, input: &mut Watched<R>) -> Result<String, Failure>
    ensures at_most { TakesAtMost 200001 (R.remaining (device_of input.old))
        (R.remaining (device_of input.new)) }
    ensures reply { has_failed input.old ≡ false
        → MayAnswer strict (has_failed input.new) (R.remaining (device_of input.old))
        (R.remaining (device_of input.new)) (reply_of result) }
{
    let bytes = read_input(alloc, input)?;
    answer_to(alloc, strict, bytes)
}

/// Reads the input up to its end, or its first bytes.
fn read_input<R: Read>(alloc: Global, input: &mut Watched<R>) -> Result<Vec<u8>, Failure>
    ensures read { IfOk result (λ bytes. Consumes (R.remaining (device_of input.old))
        (R.remaining (device_of input.new)) bytes.items) }
    ensures at_most { IfOk result (λ bytes. length bytes.items ≤ 200001) }
    ensures first { IfOk result (λ bytes. IfSome (R.remaining (device_of input.old))
        (λ all. bytes.items ≡ take 200001 all)) }
    ensures none_lost { OnErr result (TakesAtMost 200001 (R.remaining (device_of input.old))
        (R.remaining (device_of input.new))) }
    ensures failed { has_failed input.old ≡ false
        → (result ≡ Err Failure.Read) ↔ (has_failed input.new ≡ true) }
    ensures memory { IfErr result (λ e. (e ≡ Failure.Read) ⊎ (e ≡ Failure.OutOfMemory)) }
{
    let mut bytes = vec![in alloc; 0; MOST_READ]?;
    match fill(input, bytes.as_mut_slice()) {
        Ok(filled) => {
            bytes.truncate(filled);
            Ok(bytes)
        }
        Err(_) => Err(Failure::Read),
    }
}

/// Writes the reply and returns its status, or 2 where the output failed.
fn write_reply<W: Write>(output: &mut Watched<W>, reply: &Result<String, Failure>) -> u8
    ensures status { has_failed output.old ≡ false
        → (result ≡ 2) ↔ (has_failed output.new ≡ true) }
    ensures whole { has_failed output.new ≡ false → Writes (reply_of reply.now) result
        (W.contents (device_of output.old)) (W.contents (device_of output.new)) }
    ensures cut { has_failed output.old ≡ false → has_failed output.new ≡ true
        → WritesBeginning (reply_of reply.now) result
        (W.contents (device_of output.old)) (W.contents (device_of output.new)) }
    ensures flushed { has_failed output.new ≡ false → is_flushed output.new ≡ true }
{
    match reply {
        Ok(text) => print(output, text.as_bytes(), 0),
        Err(failure) => print(output, failure.line().as_bytes(), 1),
    }
}

/// Writes the text, flushes, and returns `status`, or 2 where the output failed.
fn print<W: Write>(output: &mut Watched<W>, text: &[u8], status: u8) -> u8
    requires { status < 2 }
    ensures status { has_failed output.old ≡ false
        → (result ≡ 2) ↔ (has_failed output.new ≡ true) }
    ensures whole { has_failed output.new ≡ false → Writes (text.now, status) result
        (W.contents (device_of output.old)) (W.contents (device_of output.new)) }
    ensures cut { has_failed output.old ≡ false → has_failed output.new ≡ true
        → WritesBeginning (text.now, status) result
        (W.contents (device_of output.old)) (W.contents (device_of output.new)) }
    ensures flushed { has_failed output.new ≡ false → is_flushed output.new ≡ true }
{
    if write_bytes(output, text).is_err() {
        return 2;
    }
    match output.flush() {
        Ok(()) => status,
        Err(_) => 2,
    }
}
