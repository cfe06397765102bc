//! The files that user messages are written to.

use dcsctp_report::printed::Unquoted;
use dump_command::Failure;
use dump_messages::{EndedMessage, Message};
use dump_packet::Side;
use std::fs;
use std::fs::Files;
use std::io::Write;

/// The files of a folder that user messages are written to.
#[derive(Drop)]
pub struct MessageFiles<'h> {
    rt: &'h HostRuntime,
    folder: &'h str,
    // how many messages came, and how many of them have no file, up to 2^64 - 1
    messages: u64,
    unknown: u64,
}

impl<'h> MessageFiles<'h> {
    /// Returns those of a folder before the first message.
    pub fn new(rt: &'h HostRuntime, folder: &'h str) -> MessageFiles<'h> {
        MessageFiles {
            rt,
            folder,
            messages: 0,
            unknown: 0,
        }
    }

    /// Writes each message that passes the filter to a new file. One whose user data isn't known
    /// has none.
    ///
    /// Returns `MessageFile` for the first file that exists already or can't be written, which it
    /// reports.
    pub fn write(&mut self, messages: &[EndedMessage]) -> Result<(), Failure> {
        for ended in messages {
            if ended.message.passes {
                self.messages = self.messages.saturating_add(1);
                match &ended.payload {
                    Some(payload) => self.write_one(&ended.message, payload.as_slice())?,
                    None => self.unknown = self.unknown.saturating_add(1),
                }
            }
        }
        Ok(())
    }

    /// Writes a message to a new file, whose name says its number among those that came, its
    /// association, its end as in JSON, its stream and its first TSN.
    fn write_one(&self, message: &Message, payload: &[u8]) -> Result<(), Failure> {
        let (rt, folder, number) = (self.rt, self.folder, self.messages);
        let (association, stream) = (message.association, message.key.stream);
        let end = match message.sender {
            Side::First => 0,
            Side::Second => 1,
        };
        let tsn = message.first_tsn;
        let mut name = String::new(rt.alloc());
        write!(name, "{folder}/message{number}-association{association}")?;
        write!(name, "-end{end}-stream{stream}-tsn{tsn}")?;
        let written = match fs::File::create_new(rt, name.as_str()) {
            Ok(mut file) => {
                let written = file.write_all(payload);
                if written.is_err() {
                    // A file that lacks bytes would look like a shorter message.
                    let _ = rt.remove_file(name.as_str());
                }
                written
            }
            Err(error) => Err(error),
        };
        match written {
            Ok(()) => Ok(()),
            Err(error) => {
                let name = Unquoted(name.as_bytes());
                // There is no other place to say that standard error doesn't take it.
                let _ = eprintln!(rt; "sctp_dump: {name}: {error}");
                Err(Failure::MessageFile)
            }
        }
    }

    /// Writes to standard error how many messages have no file, if some haven't.
    pub fn finish(&self) {
        let unknown = self.unknown;
        if unknown > 0 {
            // There is no other place to say that standard error doesn't take it.
            let _ = eprintln!(self.rt;
                "sctp_dump: messages without a file {unknown}, whose user data isn't known"
            );
        }
    }
}
