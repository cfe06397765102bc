//! The fragments of user messages: the DATA and I-DATA that one end sent.

ghost use Rattle.std.specs.Prelude.{◌≡◌, ◌≤◌, ◌↔◌, true, length, IfSome, IsSome};
ghost use Rattle.dcsctp_tlv.specs.Number.{number32};
ghost use Rattle.dump_messages.specs.Payloads.{has_user_data, header_size};
ghost use Rattle.dump_messages.specs.Messages.{is_whole};

use crate::messages::message::Fate;
use crate::messages::wait::Wait;
use dcsctp_borrowed::part::Item;
use dcsctp_chunk::flags::is_set;
use dcsctp_receive::chunk_type::{DATA, I_DATA, I_FORWARD_TSN};
use dcsctp_wire::packet::data_chunk::DataNumbers;
use dcsctp_wire::packet::idata_chunk::IDataNumbers;
use dcsctp_wire::packet::{read_u16_be, read_u32_be};
use dump_packet::{Closed, Moment, PacketNumber, SeenPacket, digest, is_after};

/// The bit of the flags of DATA (RFC 9260 section 3.3.1) and of I-DATA (RFC 8260 section 2.1) that
/// says that a message ends with it: E.
const END: u32 = 0;

/// The bit that says that a message begins with it: B.
const BEGINNING: u32 = 1;

/// The bit that says that its message is unordered: U.
const UNORDERED: u32 = 2;

/// Which message of its stream it is.
#[derive(Clone, Copy, PartialEq, Eq)]
pub struct MessageKey {
    /// Whether it is of I-DATA.
    pub is_i_data: bool,
    /// The stream.
    pub stream: u16,
    /// Whether the message is unordered: the U bit.
    pub is_unordered: bool,
    /// Whether the stream was reset after it (RFC 6525 section 4.1).
    pub is_before_reset: bool,
    /// The Stream Sequence Number of DATA (RFC 9260 section 3.3.1), or the Message Identifier of
    /// I-DATA (RFC 8260 section 2.1).
    pub number: u32,
}

impl MessageKey {
    /// Returns the last message of a stream that a FORWARD-TSN (RFC 3758 section 3.2) or an
    /// I-FORWARD-TSN (RFC 8260 section 2.3.1) skips, from its value and the stream's index in that;
    /// `None` where there is none.
    pub fn skipped(chunk: u8, value: &[u8], index: usize) -> Option<MessageKey> {
        let is_i_data = chunk == I_FORWARD_TSN;
        let size = if is_i_data { 8 } else { 4 };
        let bytes = value.get(index.saturating_mul(size).saturating_add(4)..)?;
        if bytes.len() < 4 || is_i_data && bytes.len() < 8 {
            return None;
        }
        Some(MessageKey {
            is_i_data,
            stream: read_u16_be(bytes),
            is_unordered: is_i_data && bytes[3] % 2 == 1,
            is_before_reset: false,
            number: if is_i_data {
                read_u32_be(&bytes[4..])
            } else {
                u32::from(read_u16_be(&bytes[2..]))
            },
        })
    }

    /// Returns whether a message is of the same stream, and as ordered.
    pub fn is_of_stream(&self, other: &MessageKey) -> bool {
        self.is_i_data == other.is_i_data
            && self.stream == other.stream
            && self.is_unordered == other.is_unordered
            && self.is_before_reset == other.is_before_reset
    }

    /// Returns whether it comes after another message of its stream.
    pub fn comes_after(&self, other: &MessageKey) -> bool {
        let scale = if self.is_i_data { 1 } else { 65_536 };
        is_after(
            self.number.wrapping_mul(scale),
            other.number.wrapping_mul(scale),
        )
    }

    /// Returns the number of the message after it: an SSN has 16 bits.
    pub fn next(&self) -> u32 {
        let next = self.number.wrapping_add(1);
        if self.is_i_data { next } else { next % 65_536 }
    }
}

/// The numbers of a DATA or an I-DATA.
#[derive(Clone, Copy)]
pub struct Numbers {
    /// The TSN.
    pub tsn: u32,
    /// The stream.
    pub stream: u16,
    number: u32,
    place: u32,
    /// The payload protocol identifier; `None` in I-DATA that is no beginning.
    pub ppid: Option<u32>,
    /// How many bytes they are.
    pub header: usize,
}

impl Numbers {
    /// Returns those of a chunk; `None` where it has none, or they weren't captured.
    pub fn of(chunk: Item<'_>) -> Option<Numbers>
        ensures some { IsSome result ↔ ((has_user_data chunk.entry.first ≡ true)
            × (header_size chunk.entry.first ≤ length chunk.entry.value.bytes.now)) }
        ensures tsn { IfSome result (λ n. n.tsn ≡ number32 chunk.entry.value.bytes.now) }
        ensures header { IfSome result (λ n. n.header ≡ header_size chunk.entry.first) }
    {
        let value = chunk.value.bytes;
        match chunk.first {
            DATA if value.len() >= DataNumbers::SIZE => {
                let numbers = DataNumbers::read(value);
                Some(Numbers {
                    tsn: numbers.tsn.0,
                    stream: numbers.stream_id.0,
                    number: u32::from(numbers.ssn.0),
                    place: numbers.tsn.0,
                    ppid: Some(numbers.ppid.0),
                    header: DataNumbers::SIZE,
                })
            }
            I_DATA if value.len() >= IDataNumbers::SIZE => {
                let numbers = IDataNumbers::read(value);
                let last = numbers.ppid_or_fsn;
                let is_beginning = is_set(chunk.second, BEGINNING);
                Some(Numbers {
                    tsn: numbers.tsn.0,
                    stream: numbers.stream_id.0,
                    number: numbers.mid.0,
                    place: if is_beginning { 0 } else { last },
                    ppid: if is_beginning { Some(last) } else { None },
                    header: IDataNumbers::SIZE,
                })
            }
            _ => None,
        }
    }
}

/// A fragment that was sent.
#[derive(Clone, Copy)]
pub struct Fragment {
    /// Its TSN.
    pub tsn: u32,
    /// By which the fragments of a message follow one another: the TSN of DATA, the Fragment
    /// Sequence Number of I-DATA.
    pub place: u32,
    /// Whether a message begins with it: the B bit.
    pub is_beginning: bool,
    /// Whether a message ends with it: the E bit.
    pub is_end: bool,
    /// Of which message it is.
    pub key: MessageKey,
    /// The payload protocol identifier; `None` in I-DATA that is no beginning.
    pub ppid: Option<u32>,
    /// How many bytes of user data it has.
    pub size: usize,
    // of its bytes, as far as they were captured
    digest: u64,
    /// How many bytes of its stream were in flight once it was sent, up to 2^64 - 1.
    pub in_flight: u64,
    /// When it was sent first.
    pub sent: Moment,
    /// How often it was sent again, up to 2^32 - 1.
    pub repeated: u32,
    /// How long after it was sent first it was sent again first, in nanoseconds, if that is known.
    pub repeated_after: Option<u64>,
    /// Whether it was sent again with other bytes, or as another fragment.
    pub is_changed: bool,
    /// That it was seen first after a later TSN.
    pub late: Option<Late>,
    /// For what its message waited, had that all been seen but this.
    pub wait: Option<Wait>,
    /// When its receiver had no room while it was outstanding.
    pub closed: Option<Closed>,
    /// Whether a filter passes a packet that has it.
    pub passes: bool,
    /// Whether it was acknowledged.
    pub is_acknowledged: bool,
    /// Whether it was acknowledged by the chunk that is looked at.
    pub is_fresh: bool,
    /// What became of its message, if nothing of that is seen after it.
    pub passed: Option<Fate>,
    /// Whether its message ended.
    pub is_over: bool,
}

/// A TSN that was seen first after a later one.
#[derive(Clone, Copy)]
pub struct Late {
    /// The TSN.
    pub tsn: u32,
    /// The later one, of several that which was seen first.
    pub behind: u32,
    /// How long after that, in nanoseconds, if that is known.
    pub after: Option<u64>,
}

impl Fragment {
    /// Returns the fragment that a DATA or an I-DATA has; `None` for other chunks, and where its
    /// header wasn't captured.
    pub fn of(packet: &SeenPacket<'_>, chunk: Item<'_>) -> Option<Fragment> {
        let numbers = Numbers::of(chunk)?;
        let value = chunk.value.after(numbers.header);
        Some(Fragment {
            tsn: numbers.tsn,
            place: numbers.place,
            is_beginning: is_set(chunk.second, BEGINNING),
            is_end: is_set(chunk.second, END),
            key: MessageKey {
                is_i_data: chunk.first == I_DATA,
                stream: numbers.stream,
                is_unordered: is_set(chunk.second, UNORDERED),
                is_before_reset: false,
                number: numbers.number,
            },
            ppid: numbers.ppid,
            size: value.size,
            digest: digest(value.bytes),
            in_flight: 0,
            sent: Moment::of(packet),
            repeated: 0,
            repeated_after: None,
            is_changed: false,
            late: None,
            wait: None,
            closed: None,
            passes: packet.passes,
            is_acknowledged: false,
            is_fresh: false,
            passed: None,
            is_over: false,
        })
    }

    /// Notes that the TSN was sent again.
    pub fn note_repeated(&mut self, again: &Fragment) {
        if self.repeated == 0 {
            self.repeated_after = again.sent.since(self.sent);
        }
        self.repeated = self.repeated.saturating_add(1);
        self.is_changed |= self.key != again.key
            || self.place != again.place
            || self.is_beginning != again.is_beginning
            || self.is_end != again.is_end
            || self.ppid != again.ppid
            || self.size != again.size
            || self.digest != again.digest;
        self.passes |= again.passes;
    }

    /// Notes that its receiver has no room.
    pub fn note_closed(&mut self, packet: PacketNumber) {
        let first = match self.closed {
            Some(closed) => closed.first,
            None => packet,
        };
        self.closed = Some(Closed {
            first,
            last: packet,
        });
    }

    /// Returns the TSN that has to be passed until its message is, if nothing of that is seen after
    /// it: of DATA that doesn't end its message the next one is another fragment.
    pub fn last_tsn(&self) -> u32 {
        if self.is_end || self.key.is_i_data {
            self.tsn
        } else {
            self.tsn.wrapping_add(1)
        }
    }

    /// Returns whether this fragment of those that `leads_to` joins is of the same message as
    /// another one of them: fragments of I-DATA have others between them.
    pub fn is_beside(&self, other: &Fragment) -> bool {
        !other.key.is_i_data || self.key == other.key
    }

    /// Returns whether another fragment is the next one that was seen of the same message of
    /// DATA: with the same stream, and SSN if it is ordered. If it isn't, at most one TSN that
    /// wasn't seen is between them: more of them may have an end and a beginning.
    pub fn leads_to(&self, next: &Fragment) -> bool {
        if self.is_end || next.is_beginning || self.key.is_i_data || next.key.is_i_data {
            return false;
        }
        if self.key.is_unordered {
            return next.key.is_unordered
                && self.key.stream == next.key.stream
                && next.tsn.wrapping_sub(self.tsn) <= 2;
        }
        self.key == next.key
    }
}

/// Returns the stream of a DATA or an I-DATA; `None` for other chunks, and where its header wasn't
/// captured.
pub fn stream_of(chunk: Item<'_>) -> Option<u16> {
    Some(Numbers::of(chunk)?.stream)
}

/// Returns whether these are all fragments of a message, in order: the one that begins it, those
/// after it, and the one that ends it.
pub fn is_whole(fragments: &[Fragment]) -> bool
    ensures { result ≡ is_whole fragments.now }
{
    let Some((first, rest)) = fragments.split_first() else {
        return false;
    };
    if !first.is_beginning {
        return false;
    }
    let mut last = *first;
    for next in rest {
        if last.is_end {
            return false;
        }
        if next.is_beginning {
            return false;
        }
        if next.place != last.place.wrapping_add(1) {
            return false;
        }
        last = *next;
    }
    last.is_end
}
