//! What was counted, in lines or as JSON: the last line, and what is before it where counts alone are
//! printed.

use crate::counts::Counts;
use dcsctp_report::names::ChunkName;
use dump_associations::AuthenticationCounts;
use dump_packet::{ReportWriter, Text, TimeForm, TimeStyle};

/// Begins a report without times and without numbers of packets.
pub fn report_in<'t, 'a>(out: &'t mut Text<'a>, is_json: bool) -> ReportWriter<'t, 'a> {
    let style = TimeStyle {
        form: TimeForm::Seconds,
        digits: 6,
    };
    ReportWriter::new(out, is_json, style, &[])
}

/// Counts.
#[derive(Clone, Copy)]
pub struct Summary<'a> {
    /// What was counted.
    pub counts: &'a Counts,
    /// How many packets were put together of fragments.
    pub reassembled: u64,
    /// Whether lines of the types of chunks, of the checksums and of AUTH come before the last one.
    pub is_long: bool,
    /// How many rules accepted packets break, where they are looked at, as JSON says it.
    pub warnings: Option<u64>,
    /// What was counted of AUTH, if a key was given.
    pub authentication: Option<AuthenticationCounts>,
}

impl<'a> Summary<'a> {
    /// Writes it: lines, or a JSON object in a line.
    pub fn write(&self, is_json: bool, out: &mut Text<'_>) {
        self.write_to(&mut report_in(out, is_json));
        out.say("\n")
    }

    /// Writes it without the end of the line.
    fn write_to(&self, out: &mut ReportWriter<'_, '_>) {
        let counts = self.counts;
        out.open("", "{");
        if self.is_long && !out.is_json {
            self.write_details(out);
        }
        out.value("packets ", "packets", counts.packets());
        out.value(": accepted ", "accepted", counts.accepted);
        out.value(", refused ", "refused", counts.refused());
        out.value(" (size ", "size", counts.size);
        out.value(", length ", "length", counts.length);
        out.value(", padding ", "padding", counts.padding);
        out.value(", value ", "value", counts.value);
        out.value("), cut off ", "cut_off", counts.partial);
        if self.reassembled > 0 {
            out.value(", of fragments ", "reassembled", self.reassembled);
        }
        if out.is_json {
            self.write_details(out);
        }
        out.value("; skipped ", "skipped", counts.skipped());
        out.value(" (not SCTP ", "not_sctp", counts.others);
        out.value(", fragment ", "fragment", counts.fragments);
        out.value(", cut ", "cut", counts.cut);
        out.value(", malformed ", "malformed", counts.malformed);
        out.value(", too long ", "too_long", counts.long);
        out.value(", unknown ", "unknown", counts.unknown);
        out.value(", link type ", "link_type", counts.links);
        out.say(")");
        if let Some(warnings) = self.warnings {
            out.json("warnings", warnings);
        }
        out.close("}")
    }

    /// Writes the checksums, what was found of AUTH, and the types of chunks, which come first in
    /// lines.
    fn write_details(&self, out: &mut ReportWriter<'_, '_>) {
        if !out.is_json {
            self.write_kinds(out);
        }
        out.value("checksums: zero ", "zero_checksums", self.counts.zero);
        out.value(", wrong ", "wrong_checksums", self.counts.wrong);
        out.say("\n");
        if let Some(found) = self.authentication {
            found.write(out);
            out.say("\n");
        }
        if out.is_json {
            self.write_kinds(out);
        }
    }

    /// Writes the types of accepted packets' chunks.
    fn write_kinds(&self, out: &mut ReportWriter<'_, '_>) {
        out.open("chunks", "[");
        for (typ, count) in self.counts.kinds.iter().enumerate() {
            if *count > 0 {
                let name = ChunkName(typ as u8);
                out.open("", "{");
                out.json("type", typ);
                if name.is_known() {
                    out.json_word("name", name);
                }
                write!(out, "{name}");
                out.value(": ", "count", *count);
                out.say("\n");
                out.close("}");
            }
        }
        out.close("]")
    }
}

/// What the table of associations didn't keep, since it holds no more of them.
#[derive(Clone, Copy)]
pub struct OverLimit {
    /// How many associations left it.
    pub left: u64,
    /// How many packets belong to none.
    pub unknown: u64,
}

impl OverLimit {
    /// Writes it, if there is something to say: a line, or a JSON object in a line.
    pub fn write(self, is_json: bool, out: &mut Text<'_>) {
        let (left, unknown) = (self.left, self.unknown);
        if left == 0 && unknown == 0 {
            return;
        }
        if is_json {
            return writeln!(
                out,
                "{{\"left_table\":{left},\"packets_of_none\":{unknown}}}"
            );
        }
        out.say("associations:");
        if left > 0 {
            write!(
                out,
                " {left} left the table, and what is said of them is a part (--keep keeps more);"
            );
        }
        writeln!(out, " packets of none {unknown}")
    }
}
