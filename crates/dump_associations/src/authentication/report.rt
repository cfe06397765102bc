//! What is found of AUTH, in words and under keys of JSON.

use crate::authentication::{AuthVerdict, Authentication, AuthenticationCounts};
use dcsctp_report::names::ChunkName;
use dcsctp_report::registry::chunk_name;
use dump_packet::{ReportWriter, Text};

impl Authentication {
    /// Writes it as lines that end with a line break.
    pub fn write_lines(&self, out: &mut Text<'_>) {
        if let Some(verdict) = self.verdict {
            let verdict = match verdict {
                AuthVerdict::Unknown => "not known",
                AuthVerdict::Right | AuthVerdict::Wrong => verdict.name(),
            };
            writeln!(out, "authentication: {verdict}");
        }
        if let Some(typ) = self.unauthenticated {
            let name = ChunkName(typ);
            writeln!(out, "unauthenticated: {name}");
        }
    }

    /// Writes it at the end of a line: each after a blank and `*`, a name as one word.
    pub fn write_brief(&self, out: &mut Text<'_>) {
        if let Some(verdict) = self.verdict {
            let name = verdict.name();
            write!(out, " * AUTH {name}");
        }
        let Some(typ) = self.unauthenticated else {
            return;
        };
        out.say(" * unauthenticated ");
        match chunk_name(typ as u32) {
            Some(name) => {
                for character in name.chars() {
                    let character = if character == ' ' { '_' } else { character };
                    write!(out, "{character}");
                }
            }
            None => write!(out, "{typ:#04x}"),
        }
    }

    /// Writes it as keys of a JSON object with a comma before each: `auth` and `unauthenticated`.
    pub fn write_json(&self, out: &mut Text<'_>) {
        if let Some(verdict) = self.verdict {
            out.word("auth", verdict.name());
        }
        if let Some(typ) = self.unauthenticated {
            out.word("unauthenticated", ChunkName(typ));
        }
    }
}

impl AuthenticationCounts {
    /// Writes each count.
    pub fn write(&self, writer: &mut ReportWriter<'_, '_>) {
        writer.value("AUTH: right ", "auth_right", self.right);
        writer.value(", wrong ", "auth_wrong", self.wrong);
        writer.value(", not known ", "auth_unknown", self.unknown);
        let unauthenticated = self.unauthenticated;
        writer.value(", unauthenticated ", "unauthenticated", unauthenticated);
    }
}
