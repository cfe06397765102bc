//! Prints the SCTP packets of a capture: of standard input, or of the files that are named.
//!
//! `run` reads the arguments, and opens the inputs. `read_input` hands the events of an input to a
//! printer, over a reader that may fail; `EventPrinter` counts and judges them, and its `Screen`
//! prints them to a writer that may.
#![tactic(auto)]

mod event_printer;
mod host;
mod message_files;
mod progress;
mod screen;

use crate::host::run;
use std::process::ExitCode;

fn main(rt: HostRuntime) -> ExitCode {
    ExitCode::from(run(&rt))
}
