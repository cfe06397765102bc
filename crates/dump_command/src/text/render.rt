//! What is printed, in the form that is asked for.

use crate::counts::Counts;
use crate::files::Files;
use crate::options::{Options, OutputForm};
use crate::text::frame_text::SeenLines;
use crate::text::skipped::SkippedLine;
use crate::text::summary::{OverLimit, Summary};
use crate::tracker::Tracker;
use dcsctp_receive::rule::BrokenRules;
use dcsctp_report::json_text::JsonText;
use dcsctp_report::printed::Unquoted;
use dcsctp_report::{PacketBrief, PacketJson, PacketReport};
use dcsctp_wire::packet::sctp_packet::FirstFault;
use dump_associations::{
    Association, AssociationReport, Associations, Authentication, AuthenticationCounts, Membership,
    Paths,
};
use dump_capture::event::Part;
use dump_messages::{ChannelReport, Channels, EndedMessage, MessageReport};
use dump_packet::{
    ReportWriter, ResentBrief, Text, TimeStyle, WarningCounts, WarningLines, Warnings,
    WarningsBrief, WarningsJson,
};

/// A packet, and what was found of it.
#[derive(Clone, Copy)]
pub struct Shown<'t, 'f, 'a> {
    /// Where and when it was seen.
    pub seen: SeenLines<'t, 'f, 'a>,
    /// Its expected checksum field.
    pub word: u32,
    /// Why it was refused.
    pub fault: Option<&'t FirstFault>,
    /// Which rules it breaks.
    pub broken: BrokenRules,
    /// Of which association it is.
    pub member: Option<Membership>,
    /// What is found of AUTH in it, if a key was given.
    pub authentication: Authentication,
    /// Which of its TSNs were sent before, if lines are printed.
    pub resent: ResentBrief<'t>,
}

/// Adds the name of an input.
pub fn push_file(options: &Options, name: &str, out: &mut Text<'_>) {
    if options.summary {
        return;
    }
    let printed = Unquoted(name.as_bytes());
    match options.output {
        OutputForm::Blocks => writeln!(out, "file {printed}\n"),
        OutputForm::Brief => writeln!(out, "file {printed}"),
        OutputForm::Json => {
            let name = JsonText(name);
            writeln!(out, "{{\"file\":{name}}}")
        }
        OutputForm::Pcapng => {}
    }
}

/// Adds a packet.
pub fn push_packet(options: &Options, shown: Shown<'_, '_, '_>, out: &mut Text<'_>) {
    let (bytes, length) = (shown.seen.found.packet, shown.seen.found.length);
    let (seen, word, fault, broken) = (shown.seen, shown.word, shown.fault, shown.broken);
    let found = shown.authentication;
    match options.output {
        OutputForm::Blocks => {
            let report = PacketReport {
                bytes,
                length,
                word,
                fault,
                shows_all: options.payload,
            };
            let warnings = WarningLines(broken);
            seen.write(false, out);
            write!(out, "{report}");
            found.write_lines(out);
            writeln!(out, "{warnings}")
        }
        OutputForm::Brief => {
            let report = PacketBrief {
                bytes,
                length,
                word,
                fault,
            };
            seen.write_brief(out);
            write!(out, " {report}");
            if let Part::Fragments(count) = seen.part {
                write!(out, " # fragments={count}");
            }
            let (resent, warnings) = (shown.resent, WarningsBrief(broken));
            write!(out, "{resent}");
            found.write_brief(out);
            writeln!(out, "{warnings}")
        }
        OutputForm::Json => {
            let report = PacketJson {
                bytes,
                length,
                word,
                fault,
                places: options.places,
            };
            out.say("{");
            seen.write(true, out);
            if let Some(member) = shown.member
                && options.associations
            {
                member.write_json(out);
            }
            write!(out, ",{report}");
            found.write_json(out);
            let warnings = WarningsJson(broken);
            writeln!(out, "{warnings}}}")
        }
        OutputForm::Pcapng => {}
    }
}

/// Adds a record or a line without a packet.
pub fn push_skipped(options: &Options, line: SkippedLine, out: &mut Text<'_>) {
    match options.output {
        OutputForm::Blocks => {
            line.write(false, out);
            out.say("\n")
        }
        OutputForm::Brief => line.write(false, out),
        OutputForm::Json => line.write(true, out),
        OutputForm::Pcapng => {}
    }
}

/// Adds the associations, in the order in which they began, each with its paths, which are taken
/// from the tracker.
pub fn push_associations(
    options: &Options,
    style: TimeStyle,
    files: &Files,
    associations: Associations,
    tracker: &mut Tracker,
    out: &mut Text<'_>,
) {
    let over_limit = OverLimit {
        left: associations.left(),
        unknown: associations.unknown(),
    };
    for association in associations.into_vec() {
        let paths = tracker.take_paths(association.number);
        push_association(options, style, files, &association, paths.as_ref(), out);
    }
    if options.associations {
        over_limit.write(options.output == OutputForm::Json, out);
    }
}

/// Adds an association, if they are asked for, and a packet of it passed.
pub fn push_association(
    options: &Options,
    style: TimeStyle,
    files: &Files,
    association: &Association,
    paths: Option<&Paths>,
    out: &mut Text<'_>,
) {
    if !options.associations || !association.passes {
        return;
    }
    let is_json = options.output == OutputForm::Json;
    let report = AssociationReport { association, paths };
    report.write(&mut ReportWriter::new(out, is_json, style, files.named()));
    out.say("\n")
}

/// Adds the channels of an association of which a packet passed, and those that found no room as
/// one.
pub fn push_channels(
    options: &Options,
    style: TimeStyle,
    files: &Files,
    channels: &Channels,
    out: &mut Text<'_>,
) {
    let association = channels.association;
    for channel in &channels.list {
        if channel.passes {
            let report = ChannelReport {
                association,
                channel: Some(channel),
                tally: &channel.tally,
            };
            push_channel(options, style, files, report, out);
        }
    }
    if channels.others_pass {
        let report = ChannelReport {
            association,
            channel: None,
            tally: &channels.others,
        };
        push_channel(options, style, files, report, out);
    }
}

/// Adds a channel.
fn push_channel(
    options: &Options,
    style: TimeStyle,
    files: &Files,
    report: ChannelReport<'_>,
    out: &mut Text<'_>,
) {
    let is_json = options.output == OutputForm::Json;
    report.write(&mut ReportWriter::new(out, is_json, style, files.named()));
    out.say("\n")
}

/// Adds the messages of which a packet passed, if they are asked for.
pub fn push_messages(
    options: &Options,
    style: TimeStyle,
    files: &Files,
    messages: &[EndedMessage],
    out: &mut Text<'_>,
) {
    let is_json = options.output == OutputForm::Json;
    for ended in messages {
        if options.messages && ended.message.passes {
            let shows_payload = options.shows_messages_payload();
            let payload = match &ended.payload {
                Some(payload) if shows_payload => Some(payload.as_slice()),
                _ => None,
            };
            let report = MessageReport {
                message: &ended.message,
                shows_payload,
                payload,
            };
            report.write(&mut ReportWriter::new(out, is_json, style, files.named()));
            out.say("\n");
        }
    }
}

/// Adds how many DATA weren't followed, if some weren't.
pub fn push_left_out(options: &Options, count: u64, out: &mut Text<'_>) {
    if count == 0 {
        return;
    }
    if options.output == OutputForm::Json {
        return writeln!(out, "{{\"data_not_followed\":{count}}}");
    }
    write!(
        out,
        "messages: DATA not followed {count}, for which there was no room"
    );
    writeln!(out, ", or whose header isn't whole")
}

/// Adds the counts.
pub fn push_counts(
    options: &Options,
    counts: &Counts,
    reassembled: u64,
    warnings: &Warnings,
    authentication: &AuthenticationCounts,
    out: &mut Text<'_>,
) {
    if options.output == OutputForm::Pcapng {
        return;
    }
    let authentication = match options.auth_key {
        Some(_) => Some(*authentication),
        None => None,
    };
    let is_json = options.output == OutputForm::Json;
    if options.check && !is_json {
        let lines = WarningCounts(*warnings);
        write!(out, "{lines}");
    }
    let summary = Summary {
        counts,
        reassembled,
        is_long: options.summary,
        warnings: if options.check {
            Some(warnings.total())
        } else {
            None
        },
        authentication,
    };
    summary.write(is_json, out)
}
