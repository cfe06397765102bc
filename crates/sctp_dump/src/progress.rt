//! How much was read, on a terminal.

use std::io::IsTerminal;

/// How many bytes of frames are read between two texts: 16 MiB.
const STEP: u64 = 16 * 1024 * 1024;

/// Says on standard error how much was read, if it is a terminal and standard output isn't.
#[derive(Drop)]
pub struct Progress<'h> {
    rt: &'h HostRuntime,
    is_wanted: bool,
    // whether a text is on the line
    is_shown: bool,
    // how many bytes were read since the last text, and how many texts there were
    bytes: u64,
    steps: u64,
}

impl<'h> Progress<'h> {
    /// Returns the progress of a run that read nothing.
    pub fn new(rt: &'h HostRuntime) -> Progress<'h> {
        Progress {
            rt,
            is_wanted: rt.stderr().is_terminal() && !rt.stdout().is_terminal(),
            is_shown: false,
            bytes: 0,
            steps: 0,
        }
    }

    /// Counts a frame, and says how much was read each time that it is 16 MiB more. What is written
    /// next takes the text's place.
    pub fn see(&mut self, frame: &[u8]) {
        if !self.is_wanted {
            return;
        }
        self.bytes = self.bytes.saturating_add(frame.len() as u64);
        if self.bytes >= STEP {
            self.steps = self.steps.saturating_add(self.bytes / STEP);
            self.bytes %= STEP;
            self.is_shown = true;
            let mebibytes = self.steps.saturating_mul(16);
            // There is no other place to say that standard error doesn't take it.
            let _ = eprint!(self.rt; "sctp_dump: {mebibytes} MiB of frames read\r");
        }
    }

    /// Takes the text from the line, if there is one.
    pub fn clear(&mut self) {
        if self.is_shown {
            self.is_shown = false;
            let _ = eprint!(self.rt; "{:50}\r", "");
        }
    }
}
