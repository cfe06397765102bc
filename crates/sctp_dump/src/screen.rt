//! What is printed of the events of captures: the text, the files of messages, and how much was
//! read.

use dcsctp_borrowed::checksum::Checksum;
use dcsctp_receive::rule::{BrokenRules, Known};
use dcsctp_wire::packet::sctp_packet::FirstFault;
use dump_associations::{Association, Authentication, AuthenticationCounts, Membership, Noted};
use dump_capture::event::{Part, Seen};
use dump_capture::frame::FoundPacket;
use dump_capture::icmp::icmp_error_in;
use dump_capture::pcapng_writer::PcapngWriter;
use dump_command::{
    Clock, Counts, Failure, Files, Judged, Options, OutputForm, Said, SeenFrame, SeenLines, Shown,
    SkippedLine, Tracker, Verdict, direction_of, pcapng_frame, push_association, push_associations,
    push_channels, push_counts, push_file, push_left_out, push_messages, push_packet, push_skipped,
    transport_of,
};
use dump_messages::EndedMessage;
use dump_packet::{Resent, ResentBrief, SeenPacket, Text, Warnings};
use std::alloc::{AllocError, Global};

/// What is printed, and what has to be kept of packets for it.
#[derive(Drop)]
pub struct Screen {
    options: Options,
    /// Whether a packet of a log came, of which it is known which way it went.
    pub has_log: bool,
    /// Which reasons for what has no packet were said.
    pub said: Said,
    authentication: AuthenticationCounts,
    files: Files,
    tracker: Tracker,
    clock: Clock,
    /// The blocks of pcapng that weren't written yet.
    pub blocks: PcapngWriter,
}

/// A packet that was noted.
#[derive(Drop)]
pub struct NotedPacket<'s, 'a> {
    /// What is known of its association.
    pub known: Known,
    seen: &'s Seen<'a>,
    packet: SeenPacket<'a>,
    member: Option<Membership>,
    authentication: Authentication,
    resent: Vec<Resent>,
    /// The messages that are over by it.
    pub ended: Vec<EndedMessage>,
}

impl Screen {
    /// Returns a screen on which nothing was printed.
    pub fn new(alloc: Global, options: Options) -> Screen {
        Screen {
            options,
            has_log: false,
            said: Said::NOTHING,
            authentication: AuthenticationCounts::new(),
            files: Files::new(alloc),
            tracker: Tracker::new(alloc),
            clock: Clock::new(options.time),
            blocks: PcapngWriter::new(alloc),
        }
    }

    /// Begins an input. Prints its name, if there are several.
    pub fn begin_file(
        &mut self,
        name: &str,
        is_named: bool,
        text: &mut String,
    ) -> Result<(), AllocError> {
        self.files.begin(name, is_named)?;
        let mut out = Text::new(text);
        if is_named {
            push_file(&self.options, name, &mut out);
        }
        out.end()
    }

    /// Notes a packet for all that is asked for, and prints an association that left the table for
    /// it.
    pub fn note_packet<'s, 'a>(
        &mut self,
        seen: &'s Seen<'a>,
        frame: SeenFrame<'a>,
        found: &FoundPacket<'a>,
        judged: &Judged,
        text: &mut String,
    ) -> Result<NotedPacket<'s, 'a>, Failure> {
        let offset = offset_of(judged);
        let packet = self.packet_of(seen, found, judged)?;
        let resent = self.tracker.resent(&self.options, &packet, offset)?;
        let Noted { of: member, left } = self.tracker.see(&self.options, &packet)?;
        self.tracker
            .note_labels(&self.options, member, &packet, offset)?;
        let ended = self.tracker.take_messages()?;
        self.print_left(left, text)?;
        let authentication = match (&self.options.auth_key, member) {
            (None, _) => Authentication::NOTHING,
            (Some(_), Some(member)) => member.authentication,
            (Some(_), None) => Authentication::of_none(&packet),
        };
        self.authentication.count(authentication);
        Ok(NotedPacket {
            known: self.tracker.known_of(&packet),
            seen,
            packet,
            member,
            authentication,
            resent,
            ended,
        })
    }

    /// Prints a packet that passes, and the messages that are over by it.
    pub fn print_packet(
        &mut self,
        frame: SeenFrame<'_>,
        judged: &Judged,
        noted: &NotedPacket<'_, '_>,
        broken: BrokenRules,
        text: &mut String,
    ) -> Result<(), Failure> {
        let (seen, nanoseconds) = (noted.seen, noted.packet.nanoseconds);
        let is_faulty = judged.fault.is_some() || broken.is_some();
        let is_printed = noted.packet.passes
            && self.options.prints_packets()
            && (is_faulty || !self.options.faults);
        let since = self.clock.see(nanoseconds, is_printed);
        if is_printed && self.options.output == OutputForm::Pcapng {
            self.blocks
                .push(pcapng_frame(frame, &seen.time, nanoseconds))?;
        } else if is_printed {
            let shown = Shown {
                seen: SeenLines {
                    number: seen.number,
                    part: seen.part,
                    file: self.files.last(),
                    when: self.clock.when(&seen.time, nanoseconds, since),
                    found: &noted.packet.found,
                    frame,
                },
                word: judged.word,
                fault: judged.fault.as_ref(),
                broken,
                member: noted.member,
                authentication: noted.authentication,
                resent: ResentBrief {
                    resent: noted.resent.as_slice(),
                    file: noted.packet.number.file,
                    files: self.files.named(),
                },
            };
            let mut out = Text::new(text);
            push_packet(&self.options, shown, &mut out);
            out.end()?;
        }
        self.print_messages(noted.ended.as_slice(), text)?;
        Ok(())
    }

    /// Counts the ICMP error in a frame, if there is one, of the association whose packet it quotes,
    /// if associations are printed.
    pub fn note_error(&mut self, seen: &Seen<'_>, frame: SeenFrame<'_>) {
        if !self.options.associations {
            return;
        }
        let number = self.files.number_of(seen.number);
        if let Some(error) = icmp_error_in(
            frame.udp_port,
            frame.link_type,
            frame.original_length,
            frame.bytes,
        ) {
            self.tracker.note_error(number, &error);
        }
    }

    /// Prints a record or a line without a packet, if a reason is to be said.
    pub fn print_skipped(
        &mut self,
        part: Part,
        number: u64,
        reason: Option<&'static str>,
        text: &mut String,
    ) -> Result<(), Failure> {
        if let Some(reason) = reason
            && self.options.prints_skipped()
        {
            let line = SkippedLine {
                part,
                number,
                reason,
            };
            let mut out = Text::new(text);
            push_skipped(&self.options, line, &mut out);
            out.end()?;
        }
        Ok(())
    }

    /// Prints the messages that are outstanding, and returns them, and how many DATA weren't followed.
    pub fn print_outstanding(
        &mut self,
        text: &mut String,
    ) -> Result<(Vec<EndedMessage>, u64), AllocError> {
        let (messages, left_out) = self.tracker.finish_messages()?;
        self.print_messages(messages.as_slice(), text)?;
        Ok((messages, left_out))
    }

    /// Prints the reports that are asked for, how many DATA weren't followed, and the counts. Of the
    /// packets, `reassembled` were put together of fragments.
    pub fn print_reports(
        &mut self,
        left_out: u64,
        counts: &Counts,
        warnings: &Warnings,
        reassembled: u64,
        text: &mut String,
    ) -> Result<(), AllocError> {
        let style = self.clock.style();
        let channels = self.tracker.finish_channels()?;
        let mut out = Text::new(text);
        for channels in &channels {
            push_channels(&self.options, style, &self.files, channels, &mut out);
        }
        push_left_out(&self.options, left_out, &mut out);
        if let Some(associations) = self.tracker.take() {
            push_associations(
                &self.options,
                style,
                &self.files,
                associations,
                &mut self.tracker,
                &mut out,
            );
        }
        push_counts(
            &self.options,
            counts,
            reassembled,
            warnings,
            &self.authentication,
            &mut out,
        );
        out.end()?;
        if self.options.output == OutputForm::Pcapng {
            self.blocks.begin()?;
        }
        Ok(())
    }

    /// Prints an association that left the table, and its channels.
    fn print_left(
        &mut self,
        left: Option<Box<Association>>,
        text: &mut String,
    ) -> Result<(), AllocError> {
        let Some(association) = left else {
            return Ok(());
        };
        let style = self.clock.style();
        let mut out = Text::new(text);
        if let Some(channels) = self.tracker.take_channels(association.number) {
            push_channels(&self.options, style, &self.files, &channels, &mut out);
        }
        let paths = self.tracker.take_paths(association.number);
        push_association(
            &self.options,
            style,
            &self.files,
            &association,
            paths.as_ref(),
            &mut out,
        );
        out.end()
    }

    /// Returns a packet with what is known of it, and whether it is asked for.
    fn packet_of<'a>(
        &mut self,
        seen: &Seen<'a>,
        found: &FoundPacket<'a>,
        judged: &Judged,
    ) -> Result<SeenPacket<'a>, AllocError> {
        let nanoseconds = self.clock.read(&seen.time);
        let transport = transport_of(&seen.time);
        let (word, fault) = (judged.word, offset_of(judged));
        let mut packet = SeenPacket {
            number: self.files.number_of(seen.number),
            nanoseconds,
            found: *found,
            direction: direction_of(&seen.time),
            transport,
            checksum: Checksum::of_packet(found.packet, found.length, word),
            is_refused: judged.verdict == Verdict::Refused,
            passes: true,
            key: self.options.auth_key,
        };
        self.has_log |= packet.direction.is_some();
        let arrival = self.clock.arrival_of(seen, nanoseconds);
        if self.options.is_filtered {
            let others = self.tracker.has_label(&self.options, &packet, fault)?
                && self.options.has_transport(transport);
            packet.passes = self
                .options
                .filter
                .passes(arrival, others, found, word, fault);
        }
        Ok(packet)
    }

    /// Prints messages that are over.
    fn print_messages(
        &mut self,
        messages: &[EndedMessage],
        text: &mut String,
    ) -> Result<(), AllocError> {
        let style = self.clock.style();
        let mut out = Text::new(text);
        push_messages(&self.options, style, &self.files, messages, &mut out);
        out.end()
    }
}

/// Returns where the first fault of a refused packet lies.
fn offset_of(judged: &Judged) -> Option<usize> {
    match &judged.fault {
        Some(FirstFault { offset, .. }) => Some(*offset),
        None => None,
    }
}
