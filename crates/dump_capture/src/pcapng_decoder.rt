//! Finds the events of pcapng files.

ghost use Rattle.std.specs.Prelude.{◌≡◌, ◌≤◌, ◌*◌, ◌+◌, ◌^◌, ℕ, List, [], ◌∷◌, IfOk, length, take, drop, vec_capacity};
ghost use Rattle.std.specs.Int.{w32};
ghost use Rattle.dump_capture.specs.Number.{number_in};
ghost use Rattle.dump_capture.specs.Event.{Event, Hands};
ghost use Rattle.dump_capture.specs.Decoding.{Finds};
ghost use Rattle.dump_capture.specs.Pcapng.{is_packet, block_header};
ghost use Rattle.dump_capture.specs.PcapngEvents.{before_blocks, State, frame_event, interface_at, packet_event, simple_size, simple_event, long_events, block_events, after_block, begins_otherwise, Item, End};

use crate::decoder::{Decoder, Extent, Fault, MOST_KEPT, Next};
use crate::event::{Part, Seen, Sink, Skipped, Time};
use crate::parts::after;
use crate::pcap::{ByteOrder, read_u16, read_u32};
use crate::pcapng::{
    BlockHeader, ENHANCED_PACKET, INTERFACE, Interface, LEAST_BLOCK_SIZE, OBSOLETE_PACKET,
    SECTION_HEADER, SIMPLE_PACKET, begins_section, block_header, body_of, interface_of,
};
use std::alloc::{AllocError, Global};

/// The most interfaces of a section that are kept.
pub const MOST_INTERFACES: usize = 1024;

/// Finds the events of a pcapng file. It keeps what the blocks before said.
#[derive(Drop)]
pub struct PcapngDecoder {
    order: Option<ByteOrder>,
    interfaces: Vec<Option<Interface>>,
    number: u64,
    ghost room: { 1024 ≤ vec_capacity interfaces },
}

impl PcapngDecoder {
    ghost use Rattle.dump_capture.specs.PcapngState.{state_of};

    /// Returns a decoder that is before the first block. It takes no more memory.
    pub fn new(alloc: Global) -> Result<PcapngDecoder, AllocError>
        ensures { IfOk result (λ d. state_of d ≡ before_blocks) }
    {
        Ok(PcapngDecoder {
            order: None,
            interfaces: Vec::with_capacity(alloc, MOST_INTERFACES)?,
            number: 1,
        })
    }
}

impl Decoder for PcapngDecoder {
    ghost use Rattle.dump_capture.specs.PcapngState.{state_of};

    ghost State = { State };

    ghost state = { state_of };

    ghost Item = { Item };

    ghost End = { End };

    fn next<S: Sink>(&mut self, held: &[u8], at_end: bool, sink: &mut S) -> Next {
        if held.len() < LEAST_BLOCK_SIZE && !at_end {
            return Next::More;
        }
        if begins_otherwise(self.order, held) {
            return Next::Fault(Fault::NotCapture);
        }
        if held.len() < LEAST_BLOCK_SIZE {
            if !held.is_empty() {
                sink.skipped(Part::Record, self.number, Skipped::EndsIn);
            }
            return Next::End;
        }
        let Some(header) = block_header(self.order, held) else {
            return Next::Fault(Fault::Block);
        };
        self.take_block(&header, held, at_end, sink)
    }
}

impl PcapngDecoder {
    ghost use Rattle.dump_capture.specs.PcapngState.{state_of};

    /// Takes the block of this header.
    fn take_block<S: Sink>(
        &mut self,
        header: &BlockHeader,
        held: &[u8],
        at_end: bool,
        sink: &mut S,
    ) -> Next
        requires size { LEAST_BLOCK_SIZE ≤ length held.now }
        requires least { LEAST_BLOCK_SIZE ≤ header.now.total_length }
        requires header { block_header self.old.order held.now ≡ Some header.now }
        ensures { (events : List Event) × Hands S.handed sink.old sink.new events
            × Finds Item End (state_of self.old) held.now at_end events (state_of self.new)
            result }
    {
        let size = header.total_length as usize;
        if size <= held.len() {
            let body = body_of(header, held);
            hand_block(self.interfaces.as_slice(), self.number, header, body, sink);
            self.note_block(header, body);
            return Next::Item(size);
        }
        if size - LEAST_BLOCK_SIZE > MOST_KEPT {
            hand_long(self.number, sink);
            self.note_block(header, &[]);
            return Next::Long(Extent::Bytes(size));
        }
        if !at_end {
            return Next::More;
        }
        sink.skipped(Part::Record, self.number, Skipped::EndsIn);
        Next::End
    }

    /// Notes what a block says of those after it.
    fn note_block(&mut self, header: &BlockHeader, body: &[u8])
        ensures { state_of self.new ≡ after_block (state_of self.old) header.now body.now }
    {
        if header.block_type == SECTION_HEADER {
            self.order = Some(header.order);
            self.interfaces.clear();
        } else if header.block_type == INTERFACE {
            if self.interfaces.len() < MOST_INTERFACES {
                self.interfaces
                    .push_reserved(interface_of(header.order, body));
            }
        } else if is_packet(header.block_type) {
            self.number = self.number.saturating_add(1);
        }
    }
}

/// Returns whether the bytes, before which no section was begun, are no section header.
fn begins_otherwise(order: Option<ByteOrder>, bytes: &[u8]) -> bool
    ensures { result ≡ begins_otherwise order bytes.now }
{
    order.is_none() && !begins_section(bytes)
}

/// Returns whether a block of this type is a packet.
fn is_packet(block_type: u32) -> bool
    ensures { result ≡ is_packet block_type }
{
    block_type == ENHANCED_PACKET || block_type == SIMPLE_PACKET || block_type == OBSOLETE_PACKET
}

/// Passes on the event of a block, if it is a packet.
fn hand_block<S: Sink>(
    interfaces: &[Option<Interface>],
    number: u64,
    header: &BlockHeader,
    body: &[u8],
    sink: &mut S,
)
    ensures { Hands S.handed sink.old sink.new
        (block_events interfaces.now number header.now body.now) }
{
    if body.len() > MOST_KEPT {
        return hand_long(number, sink);
    }
    let order = header.order;
    if header.block_type == ENHANCED_PACKET {
        if body.len() < 20 {
            return sink.skipped(Part::Record, number, Skipped::Malformed);
        }
        let interface = interface_at(interfaces, read_u32(order, body) as usize);
        hand_packet(number, order, body, interface, sink);
    } else if header.block_type == SIMPLE_PACKET {
        hand_simple(number, order, body, interface_at(interfaces, 0), sink);
    } else if header.block_type == OBSOLETE_PACKET {
        if body.len() < 20 {
            return sink.skipped(Part::Record, number, Skipped::Malformed);
        }
        let interface = interface_at(interfaces, read_u16(order, body) as usize);
        hand_packet(number, order, body, interface, sink);
    }
}

/// Passes on the event of a block that is longer than is kept.
fn hand_long<S: Sink>(number: u64, sink: &mut S)
    ensures { Hands S.handed sink.old sink.new (long_events number) }
{
    sink.skipped(Part::Record, number, Skipped::TooLong);
}

/// Returns the interface of this number.
fn interface_at(interfaces: &[Option<Interface>], number: usize) -> Option<Interface>
    ensures { result ≡ interface_at interfaces.now number }
{
    match interfaces.get(number) {
        Some(interface) => *interface,
        None => None,
    }
}

/// Passes on an enhanced packet, or an obsolete one.
fn hand_packet<S: Sink>(
    number: u64,
    order: ByteOrder,
    body: &[u8],
    interface: Option<Interface>,
    sink: &mut S,
)
    requires { 20 ≤ length body.now }
    ensures { Hands S.handed sink.old sink.new
        (packet_event number order body.now interface ∷ []) }
{
    let captured = field(order, body, 12) as usize;
    let bytes = after(body, 20);
    if bytes.len() < captured {
        return sink.skipped(Part::Record, number, Skipped::Malformed);
    }
    let Some(interface) = interface else {
        return sink.skipped(Part::Record, number, Skipped::NoInterface);
    };
    let time = Time::Ticks {
        ticks: ticks_of(field(order, body, 4), field(order, body, 8)),
        resolution: interface.resolution,
        offset: interface.offset,
    };
    let original = field(order, body, 16);
    hand_frame(
        number,
        time,
        &interface,
        original,
        front(bytes, captured),
        sink,
    );
}

/// Passes on a simple packet.
fn hand_simple<S: Sink>(
    number: u64,
    order: ByteOrder,
    body: &[u8],
    interface: Option<Interface>,
    sink: &mut S,
)
    ensures { Hands S.handed sink.old sink.new
        (simple_event number order body.now interface ∷ []) }
{
    if body.len() < 4 {
        return sink.skipped(Part::Record, number, Skipped::Malformed);
    }
    let Some(interface) = interface else {
        return sink.skipped(Part::Record, number, Skipped::NoInterface);
    };
    let original = read_u32(order, body);
    let bytes = after(body, 4);
    let size = simple_size(&interface, original) as usize;
    if bytes.len() < size {
        return sink.skipped(Part::Record, number, Skipped::Malformed);
    }
    hand_frame(
        number,
        Time::Unknown,
        &interface,
        original,
        front(bytes, size),
        sink,
    );
}

/// Returns how many bytes of a simple packet are captured.
fn simple_size(interface: &Interface, original: u32) -> u32
    ensures { result ≡ simple_size interface.now original }
{
    if interface.snapshot_length == 0 {
        original
    } else {
        original.min(interface.snapshot_length)
    }
}

/// Passes on a frame of an interface.
fn hand_frame<S: Sink>(
    number: u64,
    time: Time<'_>,
    interface: &Interface,
    original: u32,
    bytes: &[u8],
    sink: &mut S,
)
    ensures { Hands S.handed sink.old sink.new
        (frame_event number time.entry interface.now original bytes.now ∷ []) }
{
    let seen = Seen {
        number,
        time,
        part: Part::Record,
        place: number,
    };
    sink.frame(&seen, interface.link_type, original, bytes);
}

/// Returns the number of these halves.
fn ticks_of(high: u32, low: u32) -> u64
    ensures { result ≡ high * 2 ^ 32 + low }
{
    high as u64 * 0x1_0000_0000 + low as u64
}

/// Returns the first bytes.
fn front(bytes: &[u8], count: usize) -> &[u8]
    requires { count ≤ length bytes.now }
    ensures { result.now ≡ take count bytes.now }
{
    &bytes[..count]
}

/// Reads the number of the four bytes at an offset.
fn field(order: ByteOrder, bytes: &[u8], offset: usize) -> u32
    requires { offset + 4 ≤ length bytes.now }
    ensures { result ≡ number_in order w32 (drop offset bytes.now) }
{
    read_u32(order, after(bytes, offset))
}
