//! Reads a capture piece by piece, and hands its events to a printer.

ghost use Rattle.std.specs.Prelude.{◌≡◌, ℕ, List, [], true, false, None, IfOk, IfErr, IfSome, OnOk, IsErrOf};
ghost use Rattle.std.specs.Io.KnownBytes.{Consumes, IsAtEnd};
ghost use Rattle.dump_io.specs.Watched.{device_of};
ghost use Rattle.dump_io.specs.Window.{left};
ghost use Rattle.dump_capture.specs.Event.{Hands};
ghost use Rattle.dump_input.specs.Handed.{HandsAll, Stops, Takes, Reaches, FallsShort, IsNoFault, FailsWith};
ghost use Rattle.dump_input.specs.declared.stop.Stop.{Stop};

use crate::printer::Printer;
use crate::stop::Stop;
use crate::stream::{drop_bytes, drop_line, read_more};
use dump_capture::decoder::{Decoder, Extent, Next};
use dump_io::watched::Watched;
use dump_io::window::Window;
use std::io::Read;

/// Hands the events of an input to the printer, which shows all before each read. What the window
/// holds is the beginning of the input.
///
/// Returns the first of these: the decoder's fault, a failed read, or a failure of the printer. A
/// printer that fails in its last call isn't asked.
pub fn read_capture<D: Decoder, R: Read, P: Printer>(
    decoder: &mut D,
    window: &mut Window,
    input: &mut Watched<R>,
    printer: &mut P,
) -> Result<(), Stop>
    ensures whole { OnOk result (HandsAll D.Item D.End P.handed (D.state decoder.old)
        (left window.old (R.remaining (device_of input.old))) printer.old printer.new None) }
    ensures stopped { IfErr result (Stops D.Item D.End P.handed (D.state decoder.old)
        (left window.old (R.remaining (device_of input.old))) printer.old printer.new) }
    ensures failed_read { FailsWith Stop.Read result input.old input.new }
    ensures failed_printer { IsErrOf result Stop.Printer → P.failed printer.new ≡ true }
{
    let mut at_end = false;
    for _ in 0..u64::MAX {
        if printer.failed() {
            return Err(Stop::Printer);
        }
        match take_item(decoder, at_end, window, input, printer)? {
            Some(ended) => at_end = ended,
            None => return Ok(()),
        }
    }
    Err(Stop::Endless)
}

/// Takes what the input begins with, if all of it is in memory; or reads once. Returns whether the
/// input is at its end, or nothing where all its events were handed on.
fn take_item<D: Decoder, R: Read, P: Printer>(
    decoder: &mut D,
    at_end: bool,
    window: &mut Window,
    input: &mut Watched<R>,
    printer: &mut P,
) -> Result<Option<bool>, Stop>
    requires { at_end ≡ true → IsAtEnd (R.remaining (device_of input.old)) }
    ensures taken { IfOk result (λ more. IfSome more (λ ended. Takes D.Item P.handed
        (D.state decoder.old) (D.state decoder.new)
        (left window.old (R.remaining (device_of input.old)))
        (left window.new (R.remaining (device_of input.new))) printer.old printer.new)) }
    ensures at_end { IfOk result (λ more. IfSome more (λ ended.
        ended ≡ true → IsAtEnd (R.remaining (device_of input.new)))) }
    ensures whole { IfOk result (λ more. more ≡ None
        → HandsAll D.Item D.End P.handed (D.state decoder.old)
        (left window.old (R.remaining (device_of input.old))) printer.old printer.new None) }
    ensures stopped { IfErr result (Stops D.Item D.End P.handed (D.state decoder.old)
        (left window.old (R.remaining (device_of input.old))) printer.old printer.new) }
    ensures failed_read { FailsWith Stop.Read result input.old input.new }
    ensures failed_printer { IsErrOf result Stop.Printer → P.failed printer.new ≡ true }
{
    match decoder.next(window.held(), at_end, printer) {
        Next::More => Ok(Some(read_more(window, input, printer)? == 0)),
        Next::Item(size) => {
            window.consume(size);
            Ok(Some(at_end))
        }
        Next::Long(reach) => {
            let whole = drop_item(reach, window, input, printer)?;
            Ok(if whole { Some(false) } else { None })
        }
        Next::End => Ok(None),
        Next::Fault(fault) => Err(Stop::Fault(fault)),
    }
}

/// Drops an item of the input, and returns whether it was whole.
fn drop_item<R: Read, P: Printer>(
    reach: Extent,
    window: &mut Window,
    input: &mut Watched<R>,
    printer: &mut P,
) -> Result<bool, Stop>
    ensures dropped { IfOk result (λ b. b ≡ true → (dropped : List ℕ) × Reaches reach dropped
        × Consumes (left window.old (R.remaining (device_of input.old)))
        (left window.new (R.remaining (device_of input.new))) dropped) }
    ensures short { IfOk result (λ b. b ≡ false
        → IfSome (left window.old (R.remaining (device_of input.old))) (FallsShort reach)) }
    ensures handed { Hands P.handed printer.old printer.new [] }
    ensures failed_read { FailsWith Stop.Read result input.old input.new }
    ensures failed_printer { IsErrOf result Stop.Printer → P.failed printer.new ≡ true }
    ensures no_fault { IfErr result IsNoFault }
{
    match reach {
        Extent::Bytes(count) => drop_bytes(count, window, input, printer),
        Extent::Line => drop_line(window, input, printer),
    }
}
