//! A channel: the messages of a stream from when it was opened until it was reset.

ghost use Rattle.std.specs.Prelude.{◌≡◌, ◌<◌, ◌+◌, ◌-◌, ◌^◌, ◌↔◌, IsTrue};
ghost use Rattle.dump_messages.specs.Channels.{nothing_sent, CountsMessage, Adds, CountsOn, messages_of, bytes_of, succeeded_at, last_answer, reset_of, IsFrom, IsOver, IsOf, IsNew};

use crate::channels::data_channel::Opened;
use crate::messages::message::{Fate, Message, comes_before};
use dcsctp_borrowed::part::Part;
use dcsctp_wire::packet::read_u16_be;
use dump_packet::{Delays, Moment, PacketNumber, Side, increase};

/// When messages were sent.
#[derive(Clone, Copy)]
pub struct Span {
    /// When the first of them was.
    pub first: Moment,
    /// When the last of them was.
    pub last: Moment,
}

impl Span {
    /// Returns that of these messages and a further one.
    fn with(self, sent: Moment) -> Span {
        let first = if comes_before(sent.packet, self.first.packet) {
            sent
        } else {
            self.first
        };
        let last = if comes_before(sent.packet, self.last.packet) {
            self.last
        } else {
            sent
        };
        Span { first, last }
    }
}

/// What is counted of the messages that one end sent, up to 2^64 - 1 each.
#[derive(Drop)]
pub struct Traffic {
    /// Messages.
    pub messages: u64,
    /// Bytes of user data in them, those of repeats not counted.
    pub bytes: u64,
    /// How often fragments of them were sent again.
    pub repeated: u64,
    /// Messages that were abandoned.
    pub abandoned: u64,
    /// Messages that were neither acknowledged nor abandoned.
    pub unacknowledged: u64,
    /// When they were sent; `None` if there is none.
    pub span: Option<Span>,
    /// How many bytes of their stream were in flight at most.
    pub most_in_flight: u64,
    /// The delays of those that were acknowledged.
    pub delays: Delays,
}

impl Traffic {
    /// Returns that of an end that sent no message.
    pub fn new() -> Traffic
        ensures { nothing_sent result }
    {
        Traffic {
            messages: 0,
            bytes: 0,
            repeated: 0,
            abandoned: 0,
            unacknowledged: 0,
            span: None,
            most_in_flight: 0,
            delays: Delays::new(),
        }
    }

    /// Counts a message.
    fn add(&mut self, message: &Message)
        ensures { CountsMessage self.old message.now self.new }
    {
        increase(&mut self.messages);
        self.bytes = self.bytes.saturating_add(message.size);
        self.repeated = self.repeated.saturating_add(message.repeated);
        self.span = match self.span {
            Some(span) => Some(span.with(message.sent)),
            None => Some(Span {
                first: message.sent,
                last: message.sent,
            }),
        };
        self.most_in_flight = self.most_in_flight.max(message.in_flight);
        match message.fate {
            Fate::Acknowledged(moment) => {
                if let Some(delay) = message.delay() {
                    self.delays.add(delay, message.first_tsn, moment.packet);
                }
            }
            Fate::Abandoned { .. } => increase(&mut self.abandoned),
            Fate::Unacknowledged => increase(&mut self.unacknowledged),
        }
    }

    /// Returns how many bytes there are for each second from when the first message was sent to when
    /// the last one was, rounded down; `None` if a time isn't known, or the one isn't after the
    /// other.
    pub fn bytes_per_second(&self) -> Option<u64> {
        let span = self.span?;
        let nanoseconds = span.last.since(span.first)?;
        if nanoseconds == 0 {
            return None;
        }
        // Digit by digit, since their product with 10^9 may not have room in 64 bits. (Of a rest ten
        // times has, unless they are 58 years.)
        let mut rate = self.bytes / nanoseconds;
        let mut rest = self.bytes % nanoseconds;
        for _ in 0..9 {
            rest = rest.saturating_mul(10);
            rate = rate.saturating_mul(10).saturating_add(rest / nanoseconds);
            rest %= nanoseconds;
        }
        Some(rate)
    }
}

/// What is counted of the messages of both ends.
#[derive(Drop)]
pub struct Tally {
    /// Those that the first end sent.
    pub first: Traffic,
    /// Those that the second end sent.
    pub second: Traffic,
}

impl Tally {
    /// Returns that of no message.
    pub fn new() -> Tally
        ensures first { nothing_sent result.first }
        ensures second { nothing_sent result.second }
    {
        Tally {
            first: Traffic::new(),
            second: Traffic::new(),
        }
    }

    /// Counts a message of the end that sent it.
    pub fn add(&mut self, message: &Message)
        ensures side { Adds self.old message.now self.new }
        ensures messages { messages_of self.old < 2 ^ 64 - 1
            → messages_of self.new ≡ messages_of self.old + 1 }
        ensures bytes { bytes_of self.old + message.now.size < 2 ^ 64
            → bytes_of self.new ≡ bytes_of self.old + message.now.size }
    {
        match message.sender {
            Side::First => self.first.add(message),
            Side::Second => self.second.add(message),
        }
    }
}

/// The result "In progress" (RFC 6525 section 4.4): a further response follows.
const IN_PROGRESS: u32 = 6;

/// The last request of one end to reset a stream (RFC 6525 section 4.1), and its response.
#[derive(Clone, Copy)]
pub struct Reset {
    /// The Re-configuration Request Sequence Number.
    pub number: u32,
    /// The first packet that had it.
    pub packet: PacketNumber,
    /// The result in the response to it (section 4.4), and the response's packet: of several ones
    /// the first that isn't "In progress", or else the first.
    pub result: Option<(u32, PacketNumber)>,
}

impl Reset {
    /// Returns the packet from which on the stream is reset: that of a response of success.
    pub fn performed(&self) -> Option<PacketNumber>
        ensures { result ≡ succeeded_at self.now.result }
    {
        match self.result {
            Some((0 | 1, packet)) => Some(packet),
            _ => None,
        }
    }

    /// Returns it with a further response. One that isn't "In progress" ends the request: those
    /// after it are discarded (RFC 6525 section 5.2.7).
    fn answered(self, code: u32, packet: PacketNumber) -> Reset
        ensures { result ≡ record self { result = last_answer self.result code packet } }
    {
        let result = match self.result {
            None => Some((code, packet)),
            Some((IN_PROGRESS, _)) if code != IN_PROGRESS => Some((code, packet)),
            first => first,
        };
        Reset { result, ..self }
    }
}

/// What a packet says of channels.
#[derive(Clone, Copy)]
pub enum ChannelEvent<'a> {
    /// The stream is opened anew.
    Opened {
        /// The stream.
        stream: u16,
        /// The packet.
        packet: PacketNumber,
    },
    /// A DATA_CHANNEL_ACK accepts what the other end opened.
    Accepted {
        /// The stream.
        stream: u16,
        /// Which end sent it.
        by: Side,
        /// Its packet.
        moment: Moment,
    },
    /// An Outgoing SSN Reset Request asks for a reset, for the first time.
    Asked {
        /// Which end sent it.
        by: Side,
        /// Its Re-configuration Request Sequence Number.
        number: u32,
        /// The streams, of two bytes each.
        streams: Part<'a>,
        /// The packet.
        packet: PacketNumber,
    },
    /// A Re-configuration Response answers a request.
    Answered {
        /// The end that sent the request.
        to: Side,
        /// The request's number.
        number: u32,
        /// The result.
        code: u32,
        /// The packet.
        packet: PacketNumber,
    },
}

/// A channel: a stream, both ways, from its DATA_CHANNEL_OPEN (RFC 8832) on; or where none was
/// seen, what a stream has of one payload protocol. It ends by a reset of the stream, each way by
/// itself, or by the next DATA_CHANNEL_OPEN.
#[derive(Drop)]
pub struct Channel {
    /// The stream.
    pub stream: u16,
    /// The payload protocol identifier, of a channel without a DATA_CHANNEL_OPEN, if it is known.
    pub ppid: Option<u32>,
    /// How it was opened, if that was seen.
    pub opened: Option<Opened>,
    /// The reset of what the first end sends.
    pub first_reset: Option<Reset>,
    /// The reset of what the second end sends.
    pub second_reset: Option<Reset>,
    /// The packet that opened the stream anew without a reset before.
    pub replaced: Option<PacketNumber>,
    /// Whether a filter passes a packet with a fragment of one of its messages.
    pub passes: bool,
    /// Its messages.
    pub tally: Tally,
}

impl Channel {
    /// Returns a channel without messages.
    pub fn new(stream: u16, ppid: Option<u32>, opened: Option<Opened>) -> Channel
        ensures new { IsNew stream ppid opened result }
        ensures first { nothing_sent result.tally.first }
        ensures second { nothing_sent result.tally.second }
    {
        Channel {
            stream,
            ppid,
            opened,
            first_reset: None,
            second_reset: None,
            replaced: None,
            passes: false,
            tally: Tally::new(),
        }
    }

    /// Counts a message.
    pub fn count(&mut self, message: &Message)
        ensures { CountsOn message.now self.old self.new }
    {
        self.passes |= message.passes;
        self.tally.add(message);
    }

    /// Returns the reset of what an end sends.
    fn reset(&self, side: Side) -> Option<Reset>
        ensures { result ≡ reset_of side self.now }
    {
        match side {
            Side::First => self.first_reset,
            Side::Second => self.second_reset,
        }
    }

    /// Returns whether a message is of this channel, if it is of none before it.
    pub fn has(&self, message: &Message) -> bool
        ensures { IsTrue result ↔ IsOf message.now self.now }
    {
        self.stream == message.key.stream
            && (self.opened.is_some() || self.ppid == message.ppid)
            && !self.is_over(message.sender, message.sent.packet)
    }

    /// Returns whether what an end sends in a packet comes after the end of this channel.
    pub fn is_over(&self, side: Side, packet: PacketNumber) -> bool
        ensures { IsTrue result ↔ IsOver self.now side packet }
    {
        let reset = match self.reset(side) {
            Some(reset) => reset.performed(),
            None => None,
        };
        is_from(packet, reset) || is_from(packet, self.replaced)
    }

    /// Returns whether a DATA_CHANNEL_OPEN on the stream is one of this channel: that which opened
    /// it, or one of the other end while it lives, which is noted.
    pub fn knows(&mut self, other: &Opened) -> bool
        ensures { self.new.tally ≡ self.old.tally }
    {
        let is_over = self.is_over(other.by, other.sent.packet);
        let Some(opened) = &mut self.opened else {
            return false;
        };
        if opened.by == other.by {
            return opened.tsn == other.tsn;
        }
        if opened.crossed.is_none() && !is_over {
            opened.crossed = Some(other.tsn);
        }
        opened.crossed == Some(other.tsn)
    }

    /// Notes what is said of this channel, if it is.
    pub fn note(&mut self, event: ChannelEvent<'_>)
        ensures { self.new.tally ≡ self.old.tally }
    {
        match event {
            ChannelEvent::Opened { stream, packet } => {
                if self.stream == stream && self.replaced.is_none() {
                    self.replaced = Some(packet);
                }
            }
            ChannelEvent::Accepted { stream, by, moment } => self.accept(stream, by, moment),
            ChannelEvent::Asked {
                by,
                number,
                streams,
                packet,
            } => {
                if has(streams, self.stream) && !self.is_over(by, packet) {
                    let result = None;
                    let reset = Reset {
                        number,
                        packet,
                        result,
                    };
                    self.set_reset(by, reset);
                }
            }
            ChannelEvent::Answered {
                to,
                number,
                code,
                packet,
            } => {
                if let Some(reset) = self.reset(to) {
                    if reset.number == number {
                        self.set_reset(to, reset.answered(code, packet));
                    }
                }
            }
        }
    }

    /// Notes a DATA_CHANNEL_ACK of an end.
    fn accept(&mut self, stream: u16, by: Side, moment: Moment)
        ensures { self.new.tally ≡ self.old.tally }
    {
        if self.stream != stream || self.replaced.is_some() {
            return;
        }
        if let Some(opened) = &mut self.opened {
            if opened.by != by && opened.acknowledged.is_none() {
                opened.acknowledged = Some(moment);
            }
        }
    }

    /// Notes the reset of what an end sends.
    fn set_reset(&mut self, side: Side, reset: Reset)
        ensures { self.new.tally ≡ self.old.tally }
    {
        match side {
            Side::First => self.first_reset = Some(reset),
            Side::Second => self.second_reset = Some(reset),
        }
    }
}

/// Returns whether an Outgoing SSN Reset Request with these streams is for one: it names that, or
/// none, which means all (RFC 6525 section 4.1).
fn has(streams: Part<'_>, stream: u16) -> bool {
    if streams.size == 0 {
        return true;
    }
    for place in 0..streams.bytes.len() / 2 {
        if read_u16_be(&streams.bytes[2 * place..]) == stream {
            return true;
        }
    }
    false
}

/// Returns whether a packet is another one, if there is one, or comes after it.
fn is_from(packet: PacketNumber, other: Option<PacketNumber>) -> bool
    ensures { IsTrue result ↔ IsFrom other packet }
{
    match other {
        Some(other) => !comes_before(packet, other),
        None => false,
    }
}
