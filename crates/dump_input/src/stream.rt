//! Reads an input piece by piece, where what a printer shows of it must not wait for it.

ghost use Rattle.std.specs.Prelude.{◌≡◌, ◌+◌, ◌≤◌, ◌<◌, ◌==◌, ℕ, List, [], true, false, drop, length, IfOk, IfErr, IfSome, OnOk, IsErrOf, MatchOption, position};
ghost use Rattle.std.specs.Io.KnownBytes.{Keeps, IsAtEnd, Consumes};
ghost use Rattle.dump_io.specs.Watched.{device_of, has_failed};
ghost use Rattle.dump_io.specs.Window.{held, left, AddsRead};
ghost use Rattle.dump_capture.specs.Event.{Hands};
ghost use Rattle.dump_capture.specs.Decoding.{IsLine, fed};
ghost use Rattle.dump_input.specs.Handed.{IsNoFault, FailsWith};
ghost use Rattle.dump_input.specs.declared.stop.Stop.{Stop};

use crate::printer::Printer;
use crate::stop::Stop;
use dump_capture::text::first_line_feed;
use dump_io::watched::Watched;
use dump_io::window::{MOST_KEPT, Window};
use std::io::Read;

/// Reads once, after the printer has shown all. Returns the number of bytes read, 0 at the end of
/// the input.
pub fn read_more<R: Read, P: Printer>(
    window: &mut Window,
    input: &mut Watched<R>,
    printer: &mut P,
) -> Result<usize, Stop>
    requires { length (held window.old) ≤ MOST_KEPT + 16 }
    ensures size { IfOk result (λ n. length (held window.new) ≡ length (held window.old) + n) }
    ensures end { IfOk result (λ n. n ≡ 0 → IsAtEnd (R.remaining (device_of input.new))) }

    // Nothing of the input is lost, also where a device fails.
    ensures stream { Keeps (left window.old (R.remaining (device_of input.old)))
        (left window.new (R.remaining (device_of input.new))) }
    ensures handed { Hands P.handed printer.old printer.new [] }
    ensures failed_read { FailsWith Stop.Read result input.old input.new }
    ensures failed_printer { IsErrOf result Stop.Printer → P.failed printer.new ≡ true }
    ensures no_fault { IfErr result IsNoFault }
{
    printer.show();
    if printer.failed() {
        return Err(Stop::Printer);
    }
    match window.refill(input) {
        Ok(count) => Ok(count),
        Err(_) => Err(Stop::Read),
    }
}

/// Drops the next `count` bytes of the input, and returns whether it had as many.
pub fn drop_bytes<R: Read, P: Printer>(
    count: usize,
    window: &mut Window,
    input: &mut Watched<R>,
    printer: &mut P,
) -> Result<bool, Stop>
    ensures dropped { IfOk result (λ b. b ≡ true → (dropped : List ℕ)
        × (length dropped ≡ count)
        × Consumes (left window.old (R.remaining (device_of input.old)))
        (left window.new (R.remaining (device_of input.new))) dropped) }
    ensures short { IfOk result (λ b. b ≡ false
        → IfSome (left window.old (R.remaining (device_of input.old)))
        (λ all. length all < count)) }
    ensures handed { Hands P.handed printer.old printer.new [] }
    ensures failed_read { FailsWith Stop.Read result input.old input.new }
    ensures failed_printer { IsErrOf result Stop.Printer → P.failed printer.new ≡ true }
    ensures no_fault { IfErr result IsNoFault }
{
    let mut ahead = count;
    while ahead > window.len() {
        ahead -= window.len();
        window.clear();
        if read_more(window, input, printer)? == 0 {
            return Ok(false);
        }
    }
    window.consume(ahead);
    Ok(true)
}

/// Drops the input up to its next line feed, and with it, and returns whether it had one.
pub fn drop_line<R: Read, P: Printer>(
    window: &mut Window,
    input: &mut Watched<R>,
    printer: &mut P,
) -> Result<bool, Stop>
    ensures dropped { IfOk result (λ b. b ≡ true → (line : List ℕ) × IsLine line
        × Consumes (left window.old (R.remaining (device_of input.old)))
        (left window.new (R.remaining (device_of input.new))) (fed line)) }
    ensures short { IfOk result (λ b. b ≡ false
        → IfSome (left window.old (R.remaining (device_of input.old))) IsLine) }
    ensures handed { Hands P.handed printer.old printer.new [] }
    ensures failed_read { FailsWith Stop.Read result input.old input.new }
    ensures failed_printer { IsErrOf result Stop.Printer → P.failed printer.new ≡ true }
    ensures no_fault { IfErr result IsNoFault }
{
    for _ in 0..u64::MAX {
        match first_line_feed(window.held()) {
            Some(size) => {
                window.consume(size + 1);
                return Ok(true);
            }
            None => window.clear(),
        }
        if read_more(window, input, printer)? == 0 {
            return Ok(false);
        }
    }
    Err(Stop::Endless)
}
