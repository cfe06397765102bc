//! The program on its host: its arguments, files, standard streams and status.

ghost use Rattle.std.specs.Prelude.{◌≡◌, ◌≤◌, IfOk, Ok, Err, MatchResult};
ghost use Rattle.dump_command.specs.Counts.{is_unread, status};
ghost use Rattle.sctp_dump.specs.Totals.{after_input};
ghost use Rattle.dump_packet.specs.Warnings.{is_warned};
ghost use Rattle.dump_command.specs.declared.failure.Failure.{Failure};

use crate::event_printer::EventPrinter;
use dcsctp_report::printed::Unquoted;
use dump_capture::reassembler::Reassembler;
use dump_command::{Action, Counts, Failure, HELP, Request, STANDARD_INPUT, VERSION, request_of};
use dump_input::{Stop, read_input};
use dump_io::watched::Watched;
use dump_io::window::Window;
use std::io::Write;
use std::{env, fs, io};

/// The statuses: no packet was refused; some were; the program couldn't do its work; none was
/// refused, but some break rules.
const ACCEPTED: u8 = 0;

const REFUSED: u8 = 1;

const FAILED: u8 = 2;

const WARNED: u8 = 3;

/// Runs the program with the host's arguments, and returns the status: 0 if no packet was refused,
/// 1 if some were, 2 if an input couldn't be read, ends inside a record or has no packet in what it
/// holds, the output or a file couldn't be written, or memory ran out, 3 if none was refused, but
/// some break rules that were looked at.
///
/// Reports each failure on standard error, but not that whoever read the output reads no more of
/// it. No clause says what a host is asked for, since none of std does.
pub fn run(rt: &HostRuntime) -> u8
    ensures { result ≤ 3 }
{
    match run_request(rt) {
        Ok(status) => status,
        Err(failure) => {
            if failure != Failure::ClosedPipe && failure != Failure::MessageFile {
                report(rt, None, &failure);
            }
            FAILED
        }
    }
}

/// Writes a failure to standard error, with the file that it is about.
fn report(rt: &HostRuntime, name: Option<&str>, failure: &Failure) {
    // There is no other place to say that standard error doesn't take it.
    let _ = match name {
        Some(name) => {
            let name = Unquoted(name.as_bytes());
            eprintln!(rt; "sctp_dump: {name}: {failure}")
        }
        None => eprintln!(rt; "sctp_dump: {failure}"),
    };
}

/// Runs the program with its arguments, and returns the status.
fn run_request(rt: &HostRuntime) -> Result<u8, Failure>
    ensures { IfOk result (λ status. status ≤ 3) }
{
    let words = words_of(rt)?;
    let request = request_of(rt.alloc(), words.as_slice())?;
    match request.action {
        Action::Dump => dump_all(rt, &request),
        Action::Help => print(rt, HELP),
        Action::Version => print(rt, VERSION),
    }
}

/// Returns the arguments, without the program's name.
fn words_of(rt: &HostRuntime) -> Result<Vec<String>, Failure> {
    let arguments = env::args(rt).map_err(|_| Failure::Arguments)?;
    let mut words = Vec::new(rt.alloc());
    for word in arguments.skip(1) {
        words.push(word)?;
    }
    Ok(words)
}

/// Prints a text.
fn print(rt: &HostRuntime, text: &str) -> Result<u8, Failure>
    ensures { IfOk result (λ status. status ≡ ACCEPTED) }
{
    match print!(rt; "{text}") {
        Ok(()) => Ok(ACCEPTED),
        Err(_) => Err(Failure::Write),
    }
}

/// Prints the packets of all inputs, and then the counts of them all. An input that can't be read
/// is reported, and the next one begun.
fn dump_all<'h>(rt: &'h HostRuntime, request: &Request<'h>) -> Result<u8, Failure>
    ensures { IfOk result (λ status. status ≤ 3) }
{
    let mut window = Window::new(rt.alloc())?;
    let writer = Watched::new(io::writer(rt));
    let events = EventPrinter::new(rt, request.options, request.folder, writer);
    let mut printer = Reassembler::new(rt.alloc(), request.options.udp_port, events);
    let failed = dump_inputs(rt, request, &mut window, &mut printer);
    let made = printer.made;
    let mut events = printer.into_inner();
    finish(rt, failed?, made, &mut events)
}

/// Prints the packets of all inputs, and returns whether some couldn't be read.
fn dump_inputs<W: Write>(
    rt: &HostRuntime,
    request: &Request<'_>,
    window: &mut Window,
    printer: &mut Reassembler<EventPrinter<'_, W>>,
) -> Result<bool, Failure> {
    let mut failed = false;
    let is_named = request.files.len() > 1;
    for name in &request.files {
        let outcome = dump_input(rt, name, request, is_named, window, printer);
        printer.inner.progress.clear();
        failed |= is_over(rt, name, outcome)?;
    }
    Ok(failed)
}

/// Prints what comes after the packets of all inputs, of which `reassembled` were put
/// together of fragments, and returns the status.
fn finish<W: Write>(
    rt: &HostRuntime,
    failed: bool,
    reassembled: u64,
    printer: &mut EventPrinter<'_, W>,
) -> Result<u8, Failure>
    ensures { IfOk result (λ status. status ≤ 3) }
{
    let written = printer.finish(reassembled);
    if !failed && printer.counts.is_unread() {
        // There is no other place to say that standard error doesn't take it.
        let _ = eprintln!(rt;
            "sctp_dump: no SCTP packet was found (in UDP, --udp-port says the port)"
        );
    }
    let lacks_log = printer.options.needs_log() && !printer.screen.has_log;
    if lacks_log {
        let _ = eprintln!(rt; "sctp_dump: --direction and --transport need a log: none was read");
    }
    end_of(written, failed || lacks_log, printer)
}

/// Returns what a run returns that ended with this last write.
fn end_of<W: Write>(
    written: Result<(), Failure>,
    failed: bool,
    printer: &EventPrinter<'_, W>,
) -> Result<u8, Failure>
    ensures end { MatchResult written
        (λ _. result
        ≡ Ok (status failed (is_warned printer.now.warnings.counts) printer.now.counts))
        (λ failure. result ≡ Err failure) }
    ensures known { IfOk result (λ status. status ≤ 3) }
{
    match written {
        Ok(()) => Ok(status_of(failed, printer.is_warned(), &printer.counts)),
        Err(failure) => Err(failure),
    }
}

/// Returns the status of a run: what failed comes before what was refused, and that before what was
/// warned of.
fn status_of(failed: bool, warned: bool, counts: &Counts) -> u8
    ensures status { result ≡ status failed warned counts.now }
    ensures known { result ≤ 3 }
{
    if failed || counts.is_unread() || counts.unfinished > 0 {
        FAILED
    } else if counts.refused() > 0 {
        REFUSED
    } else if warned {
        WARNED
    } else {
        ACCEPTED
    }
}

/// Reports a failure of an input, and returns whether it failed. A failure of the output, of a
/// message's file or of memory ends the run.
fn is_over(rt: &HostRuntime, name: &str, outcome: Result<(), Failure>) -> Result<bool, Failure>
    ensures { result ≡ after_input outcome }
{
    match outcome {
        Ok(()) => Ok(false),
        Err(Failure::Write) => Err(Failure::Write),
        Err(Failure::ClosedPipe) => Err(Failure::ClosedPipe),
        Err(Failure::MessageFile) => Err(Failure::MessageFile),
        Err(Failure::OutOfMemory) => Err(Failure::OutOfMemory),
        Err(failure) => {
            report(rt, Some(name), &failure);
            Ok(true)
        }
    }
}

/// Prints the packets of a file, or of standard input, after its name if it is to be printed.
fn dump_input<W: Write>(
    rt: &HostRuntime,
    name: &str,
    request: &Request<'_>,
    is_named: bool,
    window: &mut Window,
    printer: &mut Reassembler<EventPrinter<'_, W>>,
) -> Result<(), Failure> {
    printer.inner.begin_file(name, is_named)?;
    let (alloc, form) = (rt.alloc(), request.options.form);
    let unfinished = printer.inner.counts.unfinished;
    let outcome = if name == STANDARD_INPUT {
        let mut input = Watched::new(rt.reader());
        read_input(alloc, form, window, &mut input, printer)
    } else {
        match fs::open(rt, name) {
            Ok(file) => {
                let mut input = Watched::new(file);
                read_input(alloc, form, window, &mut input, printer)
            }
            Err(error) => return Err(Failure::Open(error.raw_os_error())),
        }
    };
    match outcome {
        Ok(()) if printer.inner.counts.unfinished > unfinished => Err(Failure::Unfinished),
        Ok(()) => Ok(()),
        Err(stop) => Err(failure_after(stop, failure_of(printer))),
    }
}

/// Returns why a printer failed, if it did.
fn failure_of<W: Write>(printer: &Reassembler<EventPrinter<'_, W>>) -> Option<Failure> {
    if printer.is_out_of_memory {
        Some(Failure::OutOfMemory)
    } else {
        printer.inner.failure
    }
}

/// Returns why reading stopped, of a printer that may have failed.
fn failure_after(stop: Stop, failure: Option<Failure>) -> Failure {
    match failure {
        Some(failure) if stop == Stop::Printer => failure,
        _ => Failure::from(stop),
    }
}
