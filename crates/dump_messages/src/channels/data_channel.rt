//! The messages that open a data channel (RFC 8832 section 5).

ghost use Rattle.std.specs.Prelude.{◌≡◌, ◌≤◌, ◌+◌, ◌%◌, length, IfSome, OnSome};
ghost use Rattle.dump_messages.specs.declared.channels.data_channel.TheConstants.{MOST_TEXT};

use crate::messages::fragment::Numbers;
use dcsctp_borrowed::part::Item;
use dcsctp_report::channel::OPEN_SIZE;
use dcsctp_report::printed::text_front;
use dcsctp_wire::packet::{read_u16_be, read_u32_be};
use dump_packet::{Moment, Side};

/// The payload protocol identifier of WebRTC DCEP (RFC 8832 section 8.1).
const DCEP: u32 = 50;

/// The message type of DATA_CHANNEL_OPEN.
const OPEN: u8 = 3;

/// The message type of DATA_CHANNEL_ACK.
const ACK: u8 = 2;

/// The most bytes that are kept of a label or a protocol.
pub const MOST_TEXT: usize = 64;

/// The front of a text of the peer: at most 64 bytes.
#[derive(Clone, Copy)]
pub struct PeerText {
    bytes: [u8; MOST_TEXT],
    size: usize,
    /// Whether it is longer.
    pub is_cut: bool,
    ghost bounded: { size ≤ MOST_TEXT },
}

impl PeerText {
    /// Returns the front of a text.
    pub fn of(text: &[u8]) -> PeerText {
        let front = text_front(text, MOST_TEXT);
        let mut bytes = [0; MOST_TEXT];
        bytes[..front.len()].copy_from_slice(front);
        PeerText {
            bytes,
            size: front.len(),
            is_cut: front.len() < text.len(),
        }
    }

    /// Returns the bytes.
    pub fn as_bytes(&self) -> &[u8]
        ensures { length result.now ≤ MOST_TEXT }
    {
        &self.bytes[..self.size]
    }
}

/// A DATA_CHANNEL_OPEN, and its answer.
#[derive(Clone, Copy)]
pub struct Opened {
    /// Which end sent it.
    pub by: Side,
    /// Its TSN.
    pub tsn: u32,
    /// When it was sent first.
    pub sent: Moment,
    /// The channel type.
    pub typ: u8,
    /// The priority.
    pub priority: u16,
    /// The reliability parameter.
    pub reliability: u32,
    /// The label.
    pub label: PeerText,
    /// The protocol.
    pub protocol: PeerText,
    /// When the other end sent a DATA_CHANNEL_ACK first.
    pub acknowledged: Option<Moment>,
    /// The TSN of a DATA_CHANNEL_OPEN of the other end for the same channel.
    pub crossed: Option<u32>,
}

/// What a message of DCEP says.
#[derive(Clone, Copy)]
pub enum Establishment {
    /// It is a DATA_CHANNEL_OPEN.
    Open(Opened),
    /// It is a DATA_CHANNEL_ACK.
    Ack,
}

impl Establishment {
    /// Returns what the message says that an end sent in a chunk, and its stream; `None` if it
    /// isn't one of DCEP, or not all of it is there.
    pub fn of(by: Side, sent: Moment, chunk: Item<'_>) -> Option<(u16, Establishment)> {
        let (numbers, message) = message_in(chunk)?;
        if let [ACK] = message {
            return Some((numbers.stream, Establishment::Ack));
        }
        let open = Open::of(message)?;
        let opened = Opened {
            by,
            tsn: numbers.tsn,
            sent,
            typ: open.typ,
            priority: open.priority,
            reliability: open.reliability,
            label: PeerText::of(open.label),
            protocol: PeerText::of(open.protocol),
            acknowledged: None,
            crossed: None,
        };
        Some((numbers.stream, Establishment::Open(opened)))
    }
}

/// A DATA_CHANNEL_OPEN (RFC 8832 section 5.1).
#[derive(Clone, Copy)]
struct Open<'a> {
    typ: u8,
    priority: u16,
    reliability: u32,
    label: &'a [u8],
    protocol: &'a [u8],
}

impl<'a> Open<'a> {
    /// Returns the one that a message is, if it is one: nothing follows what it says.
    fn of(message: &'a [u8]) -> Option<Open<'a>>
        ensures { IfSome result (λ o. length message.now
            ≡ OPEN_SIZE + length o.label.now + length o.protocol.now) }
    {
        if message.len() < OPEN_SIZE || message[0] != OPEN {
            return None;
        }
        let label_size = read_u16_be(&message[8..]) as usize;
        let protocol_size = read_u16_be(&message[10..]) as usize;
        if message.len() != OPEN_SIZE + label_size + protocol_size {
            return None;
        }
        let (label, protocol) = message[OPEN_SIZE..].split_at(label_size);
        Some(Open {
            typ: message[1],
            priority: read_u16_be(&message[2..]),
            reliability: read_u32_be(&message[4..]),
            label,
            protocol,
        })
    }
}

/// Returns the message of DCEP that a chunk holds all of, and the chunk's numbers; `None` for other
/// chunks.
fn message_in<'a>(chunk: Item<'a>) -> Option<(Numbers, &'a [u8])>
    ensures { OnSome result (chunk.entry.second % 4 ≡ 3) }
{
    let numbers = Numbers::of(chunk)?;
    // with the bits B and E
    if chunk.second % 4 != 3 || numbers.ppid != Some(DCEP) {
        return None;
    }
    Some((numbers, chunk.value.after(numbers.header).bytes))
}

/// Returns the label of a DATA_CHANNEL_OPEN; `None` for chunks that don't hold all of one.
pub fn label_of<'a>(chunk: Item<'a>) -> Option<&'a [u8]> {
    let (_, message) = message_in(chunk)?;
    let open = Open::of(message)?;
    Some(open.label)
}
