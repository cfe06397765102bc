//! Prints what standard input says in hexadecimal.
#![tactic(auto)]

mod answer;
mod engine;
mod failure;
mod text;

use crate::engine::show;
use dump_io::watched::Watched;
use std::io;
use std::process::ExitCode;

fn main(rt: HostRuntime) -> ExitCode {
    let mut input = Watched::new(rt.reader());
    let mut output = Watched::new(io::writer(&rt));
    ExitCode::from(show(rt.alloc(), &mut input, &mut output))
}
