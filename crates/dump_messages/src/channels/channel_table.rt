//! The channels of associations, where they are asked for.

ghost use Rattle.std.specs.Prelude.{◌≡◌, ◌≢◌, ◌+◌, ◌-◌, ◌<◌, ◌^◌, ℕ, IfOk, OnOk, IsSome};
ghost use Rattle.dump_messages.specs.ChannelTables.{channels_of, messages_in, bytes_in, messages_for};

use crate::channels::Channels;
use crate::messages::message::{EndedMessage, Message};
use dump_packet::{EndKey, SeenPacket};
use std::alloc::{AllocError, Global};
use std::collections::HashMap;

/// How many channels of all associations are kept.
const MOST_OF_ALL: usize = 16_384;

/// The channels of associations, in bounded memory: of each the first 1,024, and 16,384 of all.
///
/// An association that leaves its table is to be taken from here too.
#[derive(Drop)]
pub struct ChannelTable {
    alloc: Global,
    by_number: HashMap<u64, Box<Channels>>,
    // how many channels are kept
    count: usize,
}

impl ChannelTable {
    /// Returns a table without associations.
    pub fn new(alloc: Global) -> ChannelTable {
        ChannelTable {
            alloc,
            by_number: HashMap::new(alloc),
            count: 0,
        }
    }

    /// Notes a packet of an association.
    pub fn see(&mut self, of: EndKey, packet: &SeenPacket<'_>) -> Result<(), AllocError> {
        let room = self.begin(of.association)?;
        let Some(channels) = self.by_number.get_mut(&of.association) else {
            return Ok(());
        };
        let before = channels.list.len();
        channels.see(of.side, packet, room)?;
        let more = channels.list.len().saturating_sub(before);
        self.count = self.count.saturating_add(more);
        Ok(())
    }

    /// Counts messages that are over, each once.
    pub fn add_all(&mut self, ended: &[EndedMessage]) -> Result<(), AllocError>
        ensures { (k : ℕ) → messages_in (channels_of self.old k) + messages_for k ended.now < 2 ^ 64
            → IfOk result (λ _. messages_in (channels_of self.new k)
            ≡ messages_in (channels_of self.old k) + messages_for k ended.now) }
    {
        for one in ended {
            self.add(&one.message)?;
        }
        Ok(())
    }

    /// Counts a message that is over.
    fn add(&mut self, message: &Message) -> Result<(), AllocError>
        ensures messages { messages_in (channels_of self.old message.now.association) < 2 ^ 64 - 1
            → IfOk result (λ _. messages_in (channels_of self.new message.now.association)
            ≡ messages_in (channels_of self.old message.now.association) + 1) }
        ensures bytes { bytes_in (channels_of self.old message.now.association) + message.now.size
            < 2 ^ 64
            → IfOk result (λ _. bytes_in (channels_of self.new message.now.association)
            ≡ bytes_in (channels_of self.old message.now.association) + message.now.size) }
        ensures others { (k : ℕ) → k ≢ message.now.association
            → channels_of self.new k ≡ channels_of self.old k }
    {
        let room = self.begin(message.association)?;
        let Some(channels) = self.by_number.get_mut(&message.association) else {
            return Ok(());
        };
        let before = channels.list.len();
        channels.add(message, room > 0)?;
        let more = channels.list.len().saturating_sub(before);
        self.count = self.count.saturating_add(more);
        Ok(())
    }

    /// Begins an association, if it is new. Returns for how many channels there is room.
    fn begin(&mut self, association: u64) -> Result<usize, AllocError>
        ensures begun { OnOk result (IsSome (channels_of self.new association)) }
        ensures messages { messages_in (channels_of self.new association)
            ≡ messages_in (channels_of self.old association) }
        ensures bytes { bytes_in (channels_of self.new association)
            ≡ bytes_in (channels_of self.old association) }
        ensures others { (k : ℕ) → k ≢ association
            → channels_of self.new k ≡ channels_of self.old k }
    {
        if self.by_number.get(&association).is_none() {
            let channels = Channels::new(self.alloc, association);
            self.by_number
                .insert(association, Box::new(self.alloc, channels)?)?;
        }
        Ok(MOST_OF_ALL.saturating_sub(self.count))
    }

    /// Takes the channels of the association with this number, if one of its packets was seen.
    pub fn take(&mut self, association: u64) -> Option<Box<Channels>>
        ensures { result ≡ channels_of self.old association }
    {
        let channels = self.by_number.remove(&association)?;
        self.count = self.count.saturating_sub(channels.list.len());
        Some(channels)
    }

    /// Returns those of all associations, in the order of their numbers.
    pub fn into_vec(self) -> Result<Vec<Box<Channels>>, AllocError> {
        let mut all = Vec::new(self.alloc);
        for channels in self.by_number.into_values() {
            all.push(channels)?;
        }
        all.sort_unstable_by_key(|channels| channels.association);
        Ok(all)
    }
}
