//! The associations of the packets so far, if associations, messages or rules are asked for, and
//! what is kept beside them: their paths, their messages and their channels.

ghost use Rattle.std.specs.Prelude.{◌≡◌, IfOk, IfSome, IfNone};
ghost use Rattle.dump_associations.specs.Attribution.{IsKnownOf, nothing_known};
ghost use Rattle.dump_command.specs.Tracked.{CountsEnded};

use crate::labels::LabelledStreams;
use crate::options::{Options, OutputForm};
use dcsctp_receive::rule::Known;
use dump_associations::{Associations, Membership, Noted, PathTable, Paths};
use dump_capture::icmp::IcmpError;
use dump_messages::{ChannelTable, Channels, EndedMessage, Messages};
use dump_packet::{PacketNumber, Resent, SeenPacket, Sendings, asks_nothing};
use std::alloc::{AllocError, Global};

/// The associations of the packets so far, if they are asked for.
#[derive(Drop)]
pub struct Tracker {
    alloc: Global,
    associations: Option<Associations>,
    paths: Option<PathTable>,
    messages: Option<Messages>,
    channels: Option<ChannelTable>,
    sendings: Sendings,
    labelled: LabelledStreams,
}

impl Tracker {
    /// Returns a tracker that has seen no packet.
    pub fn new(alloc: Global) -> Tracker {
        Tracker {
            alloc,
            associations: None,
            paths: None,
            messages: None,
            channels: None,
            sendings: Sendings::new(alloc),
            labelled: LabelledStreams::new(alloc),
        }
    }

    /// Counts a packet among those of its association, if these are asked for. Returns of which it
    /// is, and which one left the table for it.
    pub fn see(&mut self, options: &Options, packet: &SeenPacket<'_>) -> Result<Noted, AllocError> {
        let noted = self.note(options, packet)?;
        if self.paths.is_none() && options.paths {
            self.paths = Some(PathTable::new(self.alloc));
        }
        match (&mut self.paths, noted.of) {
            (Some(paths), Some(member)) => paths.see(member, packet)?,
            _ => {}
        }
        if self.channels.is_none() && options.channels {
            self.channels = Some(ChannelTable::new(self.alloc));
        }
        match (&mut self.channels, noted.of) {
            (Some(channels), Some(member)) => channels.see(member.end(), packet)?,
            _ => {}
        }
        if self.messages.is_none() && options.follows_messages() {
            self.messages = Some(Messages::new(self.alloc, options.keeps_messages_payload()));
        }
        if let Some(messages) = &mut self.messages {
            if let Some(association) = &noted.left {
                messages.leave(association.number)?;
            }
            if let Some(member) = noted.of {
                messages.see(member.end(), packet)?;
            }
        }
        Ok(noted)
    }

    /// Counts an ICMP error, in the packet of this number, of the end that sent what it quotes.
    pub fn note_error(&mut self, number: PacketNumber, error: &IcmpError<'_>) {
        if let Some(associations) = &mut self.associations {
            associations.note_error(number, error);
        }
    }

    /// Returns whether a packet that wasn't counted yet has user data of a channel whose label is
    /// asked for, or none is.
    pub fn has_label(
        &mut self,
        options: &Options,
        packet: &SeenPacket<'_>,
        fault: Option<usize>,
    ) -> Result<bool, AllocError> {
        if asks_nothing(&options.labels) {
            return Ok(true);
        }
        let number = match &self.associations {
            Some(associations) => associations.number_of(packet),
            None => None,
        };
        self.labelled.see(options, number, packet, fault)
    }

    /// Notes the channels that a packet opens which was counted: the association of one that began
    /// it had no number before.
    pub fn note_labels(
        &mut self,
        options: &Options,
        member: Option<Membership>,
        packet: &SeenPacket<'_>,
        fault: Option<usize>,
    ) -> Result<(), AllocError> {
        let Some(member) = member else {
            return Ok(());
        };
        if !asks_nothing(&options.labels) {
            let _ = self
                .labelled
                .see(options, Some(member.association), packet, fault)?;
        }
        Ok(())
    }

    /// Returns which TSNs of a packet were sent before, if lines are asked for, which say it.
    pub fn resent(
        &mut self,
        options: &Options,
        packet: &SeenPacket<'_>,
        fault: Option<usize>,
    ) -> Result<Vec<Resent>, AllocError> {
        match options.output {
            OutputForm::Brief => self.sendings.see(packet, fault),
            OutputForm::Blocks | OutputForm::Json | OutputForm::Pcapng => Ok(Vec::new(self.alloc)),
        }
    }

    /// Counts a packet among those of its association, if these are asked for.
    fn note(&mut self, options: &Options, packet: &SeenPacket<'_>) -> Result<Noted, AllocError> {
        if self.associations.is_none() && options.tracks_associations() {
            self.associations = Some(Associations::new(self.alloc, options.keep)?);
        }
        match &mut self.associations {
            Some(associations) => associations.see(packet),
            None => Ok(Noted {
                of: None,
                left: None,
            }),
        }
    }

    /// Returns the messages that are over since this was asked last, each counted of its channel.
    pub fn take_messages(&mut self) -> Result<Vec<EndedMessage>, AllocError>
        ensures { IfOk result (λ ended.
            CountsEnded self.old.channels ended.items self.new.channels) }
    {
        let ended = match &mut self.messages {
            Some(messages) => messages.take(),
            None => Vec::new(self.alloc),
        };
        if let Some(channels) = &mut self.channels {
            channels.add_all(&ended)?;
        }
        Ok(ended)
    }

    /// Returns the messages that are outstanding at the end of the capture, and how many DATA
    /// weren't followed.
    pub fn finish_messages(&mut self) -> Result<(Vec<EndedMessage>, u64), AllocError> {
        let left_out = match &mut self.messages {
            Some(messages) => {
                messages.finish()?;
                messages.left_out()
            }
            None => 0,
        };
        Ok((self.take_messages()?, left_out))
    }

    /// Takes the channels of an association that left the table, if they are asked for.
    pub fn take_channels(&mut self, association: u64) -> Option<Box<Channels>> {
        match &mut self.channels {
            Some(channels) => channels.take(association),
            None => None,
        }
    }

    /// Returns the channels that are left, in the order of their associations, and keeps none.
    pub fn finish_channels(&mut self) -> Result<Vec<Box<Channels>>, AllocError> {
        match self.channels.take() {
            Some(channels) => channels.into_vec(),
            None => Ok(Vec::new(self.alloc)),
        }
    }

    /// Returns what is known of a packet's association.
    pub fn known_of(&self, packet: &SeenPacket<'_>) -> Known
        ensures known { IfSome self.now.associations (λ a. IsKnownOf a.keys.flows a.table.items packet.now
            result) }
        ensures none { IfNone self.now.associations (result ≡ nothing_known) }
    {
        match &self.associations {
            Some(associations) => associations.known_of(packet),
            None => Known::NOTHING,
        }
    }

    /// Takes the paths of an association that left the table, or is printed last, if they are asked
    /// for.
    pub fn take_paths(&mut self, association: u64) -> Option<Paths> {
        match &mut self.paths {
            Some(paths) => paths.take(association),
            None => None,
        }
    }

    /// Returns the associations that are left, and keeps none.
    pub fn take(&mut self) -> Option<Associations> {
        self.associations.take()
    }
}
