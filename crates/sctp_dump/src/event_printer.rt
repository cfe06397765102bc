//! Counts the events of captures, and judges their packets.

ghost use Rattle.std.specs.Prelude.{◌≡◌, None, replicate};
ghost use Rattle.dump_packet.specs.Warnings.{is_warned};
ghost use Rattle.dump_command.specs.Counts.{nothing};
ghost use Rattle.dump_command.specs.Warnings.{is_judged};

use crate::message_files::MessageFiles;
use crate::progress::Progress;
use crate::screen::Screen;
use dcsctp_receive::rule::RULES;
use dump_capture::event::{Part, Seen, Sink, Skipped};
use dump_capture::frame::{NoPacket, packet_in};
use dump_capture::pcapng_writer::PcapngWriter;
use dump_capture::reassembler::PacketSink;
use dump_command::{Counts, Failure, Options, SeenFrame, Verdict, frame_reason_of};
use dump_input::Printer;
use dump_io::output::Output;
use dump_io::watched::Watched;
use dump_messages::EndedMessage;
use dump_packet::Warnings;
use std::alloc::AllocError;
use std::io;
use std::io::{ErrorKind, Write};

/// Text of at least this many bytes is written before more is added.
const LONG: usize = 65_536;

/// Counts events, judges their packets, and shows them on a screen as the options ask for.
#[derive(Drop)]
pub struct EventPrinter<'h, W> {
    /// What is printed, and which packets are found.
    pub options: Options,
    /// What was counted.
    pub counts: Counts,
    /// How many accepted packets break each rule.
    pub warnings: Warnings,
    /// Why nothing more is printed.
    pub failure: Option<Failure>,
    /// What is printed.
    pub screen: Screen,
    output: Output<W>,
    /// How much was read.
    pub progress: Progress<'h>,
    message_files: Option<MessageFiles<'h>>,
    is_fragment: bool,
}

impl<'h, W: Write> EventPrinter<'h, W> {
    /// Returns a printer that printed nothing. Messages are written to files of `folder`, if there
    /// is one.
    pub fn new(
        rt: &'h HostRuntime,
        options: Options,
        folder: Option<&'h str>,
        writer: Watched<W>,
    ) -> EventPrinter<'h, W>
        ensures options { result.options ≡ options }
        ensures counts { result.counts ≡ nothing }
        ensures failure { result.failure ≡ None }
        ensures warnings { result.warnings.counts ≡ replicate RULES 0 }
    {
        EventPrinter {
            options,
            counts: Counts::new(),
            warnings: Warnings::new(),
            failure: None,
            screen: Screen::new(rt.alloc(), options),
            output: Output::new(rt.alloc(), writer),
            progress: Progress::new(rt),
            message_files: match folder {
                Some(folder) => Some(MessageFiles::new(rt, folder)),
                None => None,
            },
            is_fragment: false,
        }
    }

    /// Begins an input. Prints its name, if there are several.
    pub fn begin_file(&mut self, name: &str, is_named: bool) -> Result<(), AllocError> {
        self.screen
            .begin_file(name, is_named, &mut self.output.text)
    }

    /// Returns whether a packet that wasn't refused breaks a rule that was looked at.
    pub fn is_warned(&self) -> bool
        ensures { result ≡ is_warned self.now.warnings.counts }
    {
        self.warnings.are_some()
    }

    /// Prints the reports that are asked for and the counts, and writes all; the messages that were
    /// outstanding to files too, if there is a folder for them. Of the packets, `reassembled` were
    /// put together of fragments.
    pub fn finish(&mut self, reassembled: u64) -> Result<(), Failure> {
        let text = &mut self.output.text;
        let (messages, left_out) = self.screen.print_outstanding(text)?;
        let files = &mut self.message_files;
        write_messages(messages.as_slice(), files, &mut self.output)?;
        let text = &mut self.output.text;
        self.screen
            .print_reports(left_out, &self.counts, &self.warnings, reassembled, text)?;
        let written = match write_blocks(0, &mut self.screen.blocks, &mut self.output) {
            Ok(()) => self.output.finish(),
            Err(error) => Err(error),
        };
        if let Some(files) = &self.message_files {
            files.finish();
        }
        match failure_of(written) {
            Some(failure) => Err(failure),
            None => Ok(()),
        }
    }
}

impl<'h, W: Write> Sink for EventPrinter<'h, W> {
    ghost use Rattle.std.specs.Prelude.{◌≡◌, None};
    ghost use Rattle.dump_command.specs.Counts.{AreCounts};
    ghost use Rattle.dump_command.specs.Warnings.{AreWarnings};

    ghost handed = { λ p events. p.failure ≡ None
        → AreCounts p.options events p.counts × AreWarnings p.options events p.warnings.counts };

    fn frame(&mut self, seen: &Seen<'_>, link_type: u16, original_length: u32, bytes: &[u8]) {
        if self.failure.is_some() {
            return;
        }
        self.progress.see(bytes);
        self.is_fragment = false;
        let frame = SeenFrame {
            udp_port: self.options.udp_port,
            link_type,
            original_length,
            bytes,
        };
        match packet_in(self.options.udp_port, link_type, original_length, bytes) {
            Ok(found) => {
                let judged = self.counts.count_packet(&self.options, &found);
                match self
                    .screen
                    .note_packet(seen, frame, &found, &judged, &mut self.output.text)
                {
                    Ok(noted) => {
                        let broken = self.warnings.judge(
                            is_judged(&self.options, judged.verdict),
                            found.packet,
                            found.length,
                            judged.word,
                            noted.known,
                        );
                        let text = &mut self.output.text;
                        let printed = self
                            .screen
                            .print_packet(frame, &judged, &noted, broken, text);
                        let messages = noted.ended.as_slice();
                        self.failure = failure_after(
                            printed,
                            messages,
                            &mut self.message_files,
                            &mut self.screen.blocks,
                            &mut self.output,
                        );
                    }
                    Err(failure) => self.failure = Some(failure),
                }
            }
            Err(why) => {
                self.is_fragment = why == NoPacket::Fragment;
                self.counts.count_no_packet(why);
                self.screen.note_error(seen, frame);
                let reason = frame_reason_of(why);
                let text = &mut self.output.text;
                let printed = self
                    .screen
                    .print_skipped(seen.part, seen.place, reason, text);
                self.failure = failure_after(
                    printed,
                    &[],
                    &mut self.message_files,
                    &mut self.screen.blocks,
                    &mut self.output,
                );
            }
        }
    }

    fn skipped(&mut self, part: Part, number: u64, why: Skipped) {
        if self.failure.is_some() {
            return;
        }
        self.counts.count_unread(why);
        let reason = self.screen.said.first_report_of(why);
        let text = &mut self.output.text;
        let printed = self.screen.print_skipped(part, number, reason, text);
        self.failure = failure_after(
            printed,
            &[],
            &mut self.message_files,
            &mut self.screen.blocks,
            &mut self.output,
        );
    }
}

impl<'h, W: Write> PacketSink for EventPrinter<'h, W> {
    fn is_fragment(&self) -> bool {
        self.is_fragment
    }
}

impl<'h, W: Write> Printer for EventPrinter<'h, W> {
    ghost use Rattle.std.specs.Prelude.{is_some};

    ghost failed = { λ p. is_some p.failure };

    fn failed(&self) -> bool {
        self.failure.is_some()
    }

    fn show(&mut self) {
        if self.failure.is_some() {
            return;
        }
        let written = match write_blocks(0, &mut self.screen.blocks, &mut self.output) {
            Ok(()) => self.output.write(),
            Err(error) => Err(error),
        };
        self.failure = failure_of(written);
    }
}

/// Returns whether the rules of a packet are looked at.
fn is_judged(options: &Options, verdict: Verdict) -> bool
    ensures { result ≡ is_judged options.now verdict }
{
    match verdict {
        Verdict::Accepted | Verdict::Partial => options.check,
        Verdict::Refused => false,
    }
}

/// Writes the messages that were printed to files, and what was printed if it is long. Returns why
/// nothing more can be printed, if so.
fn failure_after<W: Write>(
    printed: Result<(), Failure>,
    messages: &[EndedMessage],
    files: &mut Option<MessageFiles<'_>>,
    blocks: &mut PcapngWriter,
    output: &mut Output<W>,
) -> Option<Failure> {
    if let Err(failure) = printed {
        return Some(failure);
    }
    if let Err(failure) = write_messages(messages, files, output) {
        return Some(failure);
    }
    let written = match write_blocks(LONG, blocks, output) {
        Ok(()) => output.write_from(LONG),
        Err(error) => Err(error),
    };
    failure_of(written)
}

/// Writes messages to files, if there is a folder for them. Where one can't be written, what was
/// printed before is.
fn write_messages<W: Write>(
    messages: &[EndedMessage],
    files: &mut Option<MessageFiles<'_>>,
    output: &mut Output<W>,
) -> Result<(), Failure> {
    let Some(files) = files else {
        return Ok(());
    };
    let written = files.write(messages);
    if written.is_err() {
        // The run ends by the file's failure, whatever becomes of this.
        let _ = output.write();
    }
    written
}

/// Writes the blocks of pcapng, if they have at least `least` bytes.
fn write_blocks<W: Write>(
    least: usize,
    blocks: &mut PcapngWriter,
    output: &mut Output<W>,
) -> io::Result<()> {
    if blocks.bytes.len() < least {
        return Ok(());
    }
    output.write_bytes(&blocks.bytes)?;
    blocks.bytes.clear();
    Ok(())
}

/// Returns what a failed write means.
fn failure_of(written: io::Result<()>) -> Option<Failure> {
    match written {
        Ok(()) => None,
        Err(error) if error.kind() == ErrorKind::BrokenPipe => Some(Failure::ClosedPipe),
        Err(_) => Some(Failure::Write),
    }
}
