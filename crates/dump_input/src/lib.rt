//! Reads an input: finds out what it is, and hands the events of its decoder to what prints them.
//! Each function says which bytes it has read, and which events were handed over, of an input that
//! may fail and a printer that may.
#![tactic(auto)]

mod engine;
mod format;
mod input;
mod printer;
mod stop;
mod stream;

pub use crate::format::FormatOption;
pub use crate::input::read_input;
pub use crate::printer::Printer;
pub use crate::stop::Stop;
