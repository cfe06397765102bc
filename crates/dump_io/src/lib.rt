//! Readers and writers that remember whether they failed, and the loops over them whose contracts
//! name every byte, also where a device fails midway.
#![tactic(auto)]

pub mod faulty;
pub mod output;
pub mod transfer;
pub mod watched;
pub mod window;
