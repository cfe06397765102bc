//! A sink that puts IP fragments together before another one.

ghost use Rattle.std.specs.Prelude.{◌≡◌, ℕ, false, List, [], ◌∷◌, ◌++◌};
ghost use Rattle.std.specs.List.{Contains};
ghost use Rattle.dump_capture.specs.Event.{Event, Saw};
ghost use Rattle.dump_capture.specs.IpFragment.{fragment_of};
ghost use Rattle.dump_capture.specs.Reassembly.{IsJoined, fragments_in};
ghost use Rattle.dump_capture.specs.Expanded.{IsExpanded, as_joined};

use crate::event::{Part, Seen, Sink, Skipped, Time};
use crate::frame::{link_type, packet_in};
use crate::ip_fragment::{IpFragment, fragment_in};
use crate::log_text::LogText;
use crate::reassembly::{JoinedPacket, Reassembly};
use std::alloc::{AllocError, Global};

/// A sink that looks for a packet in each frame.
pub trait PacketSink: Sink {
    /// Returns whether the last frame was a fragment to it: `packet_in` returned `Fragment`.
    fn is_fragment(&self) -> bool;
}

/// Hands events on to another sink, and after the last fragment of an IP packet that packet, if an
/// SCTP packet is in it.
///
/// It is a frame of link type 101 without the headers before IP's, with the number, the place and
/// the time of the last fragment's frame. What it carries isn't put together a second time.
#[derive(Drop)]
pub struct Reassembler<S> {
    /// The other sink.
    pub inner: S,
    /// How many packets were put together and handed on, up to 2^64 - 1.
    pub made: u64,
    /// Whether memory ran out, since when no fragment is looked at.
    pub is_out_of_memory: bool,
    udp_port: u16,
    frames: u64,
    table: Reassembly,
}

impl<S: PacketSink> Reassembler<S> {
    /// Returns a sink that was handed nothing, where SCTP in UDP is on this port.
    pub fn new(alloc: Global, udp_port: u16, inner: S) -> Reassembler<S>
        ensures inner { result.inner ≡ inner }
        ensures memory { result.is_out_of_memory ≡ false }
    {
        Reassembler {
            inner,
            made: 0,
            is_out_of_memory: false,
            udp_port,
            frames: 0,
            table: Reassembly::new(alloc),
        }
    }

    /// Returns the other sink.
    pub fn into_inner(self) -> S
        ensures { result ≡ self.inner }
    {
        self.inner
    }

    /// Looks at the last frame, which is a fragment. It is apart from `frame`, which so pays
    /// nothing at its entry for what is only needed here.
    #[cold]
    #[inline(never)]
    fn look(&mut self, seen: &Seen<'_>, link_type: u16, original_length: u32, bytes: &[u8])
        ensures { (xs : List Event)
            → IsExpanded S.handed self.old.udp_port self.old.inner self.old.table.packets.items
            (xs ++ Saw seen.now link_type original_length bytes.now ∷ [])
            → IsExpanded S.handed self.new.udp_port self.new.inner self.new.table.packets.items
            (xs ++ Saw seen.now link_type original_length bytes.now ∷ []) }
    {
        if self.is_out_of_memory {
            return;
        }
        if let Some(fragment) = fragment_in(self.udp_port, link_type, original_length, bytes) {
            let taken = self.take(seen, fragment);
            self.is_out_of_memory = taken.is_err();
        }
    }

    /// Adds a fragment of the last frame, and hands on the packet that it completes.
    fn take(&mut self, seen: &Seen<'_>, fragment: IpFragment<'_>) -> Result<(), AllocError>
        ensures port { self.new.udp_port ≡ self.old.udp_port }
        ensures handed { (events first : List Event) (link size : ℕ) (frame : List ℕ)
            → IsExpanded S.handed self.old.udp_port self.old.inner self.old.table.packets.items
            events → events ≡ first ++ Saw seen.now link size frame ∷ []
            → Contains (fragments_in self.old.udp_port events) (fragment_of fragment.entry)
            → IsExpanded S.handed self.new.udp_port self.new.inner self.new.table.packets.items
            events }
    {
        if let Some(packet) = self.table.add(fragment, self.frames)? {
            self.hand_on(seen, &packet);
        }
        Ok(())
    }

    /// Hands on a packet that the last frame completes, if an SCTP packet is in it.
    fn hand_on(&mut self, seen: &Seen<'_>, packet: &JoinedPacket)
        ensures port { self.new.udp_port ≡ self.old.udp_port }
        ensures handed { (events first : List Event) (link size : ℕ) (frame : List ℕ)
            → IsExpanded S.handed self.old.udp_port self.old.inner self.old.table.packets.items
            events → events ≡ first ++ Saw seen.now link size frame ∷ []
            → IsJoined (fragments_in self.old.udp_port events) packet.now.bytes.items
            packet.now.fragments
            → IsExpanded S.handed self.new.udp_port self.new.inner self.new.table.packets.items
            events }
    {
        let bytes = packet.bytes.as_slice();
        let Ok(length) = u32::try_from(bytes.len()) else {
            return;
        };
        if packet_in(self.udp_port, link_type::RAW_IP, length, bytes).is_err() {
            return;
        }
        let seen = as_joined(seen, packet.fragments);
        self.made = self.made.saturating_add(1);
        self.inner.frame(&seen, link_type::RAW_IP, length, bytes);
    }
}

impl<S: PacketSink> Sink for Reassembler<S> {
    ghost use Rattle.dump_capture.specs.Expanded.{IsExpanded};

    ghost handed = { λ r xs. IsExpanded S.handed r.udp_port r.inner r.table.packets.items xs };

    fn frame(&mut self, seen: &Seen<'_>, link_type: u16, original_length: u32, bytes: &[u8]) {
        self.frames = self.frames.saturating_add(1);
        self.inner.frame(seen, link_type, original_length, bytes);
        if self.inner.is_fragment() {
            self.look(seen, link_type, original_length, bytes);
        }
    }

    fn skipped(&mut self, part: Part, number: u64, why: Skipped) {
        self.inner.skipped(part, number, why);
    }
}

/// Returns where and when a packet of `count` fragments was seen, of which this frame was the last.
fn as_joined<'a>(seen: &Seen<'a>, count: usize) -> Seen<'a>
    ensures { result ≡ as_joined seen.now count }
{
    Seen {
        number: seen.number,
        time: same_time(&seen.time),
        part: Part::Fragments(count),
        place: seen.place,
    }
}

/// Returns a time again, as it is.
fn same_time<'a>(time: &Time<'a>) -> Time<'a>
    ensures { result ≡ time.now }
{
    match time {
        Time::Unknown => Time::Unknown,
        Time::Stamp {
            seconds,
            fraction,
            resolution,
        } => Time::Stamp {
            seconds: *seconds,
            fraction: *fraction,
            resolution: *resolution,
        },
        Time::Ticks {
            ticks,
            resolution,
            offset,
        } => Time::Ticks {
            ticks: *ticks,
            resolution: *resolution,
            offset: *offset,
        },
        Time::OfDay {
            time,
            direction,
            transport,
            stamp,
        } => Time::OfDay {
            time: LogText::new(time.as_bytes()),
            direction: *direction,
            transport: LogText::new(transport.as_bytes()),
            stamp: *stamp,
        },
    }
}
