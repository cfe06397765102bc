//! Writes frames as the blocks of a pcapng file (draft-ietf-opsawg-pcapng), in little-endian byte
//! order.

ghost use Rattle.std.specs.Prelude.{◌≡◌, ◌≤◌, ◌<◌, ◌-◌, ◌%◌, ◌++◌, ℕ, List, [], ◌∷◌, Some, None, IfOk, IfSome, OnOk, length, replicate, slice_get};
ghost use Rattle.dump_capture.specs.Decoding.{Reads};
ghost use Rattle.dump_capture.specs.PcapngEvents.{before_blocks, Item, End};
ghost use Rattle.dump_capture.specs.declared.pcap.ByteOrder.TheVariants.{LittleEndian};
ghost use Rattle.dump_capture.specs.PcapngFile.{Frame, frame_of, words, packet_body, packet_block, direction_options, Fits, IsFile, frames_seen, flags_in, flags_of, links, IsBegun, kept, Adds};

use crate::line::Direction;
use crate::pcapng_decoder::MOST_INTERFACES;
use std::alloc::{AllocError, Global};

/// The most bytes of a frame that are written: with its lengths, its options and its padding it is
/// as long as a block that is read.
const MOST_WRITTEN: usize = 262_112;

/// A Section Header Block (section 4.1) of version 1.0, whose section has no known length.
const SECTION_HEADER: [u32; 7] = [
    0x0a0d_0d0a,
    28,
    0x1a2b_3c4d,
    1,
    0xffff_ffff,
    0xffff_ffff,
    28,
];

/// A frame to be written.
#[derive(Clone, Copy)]
pub struct PcapngFrame<'a> {
    /// The link type.
    pub link_type: u16,
    /// How many bytes it had on the link.
    pub original_length: u32,
    /// When it was seen: nanoseconds since 1970-01-01 00:00:00 UTC.
    pub time: u64,
    /// Which way it went, if that is known.
    pub direction: Option<Direction>,
    /// Those of its bytes that were captured.
    pub bytes: &'a [u8],
}

/// Blocks that wait to be written, and what was written before them.
#[derive(Drop)]
pub struct PcapngWriter {
    /// The bytes of the blocks.
    pub bytes: Vec<u8>,
    is_begun: bool,
    // Of the section's interfaces, in the order of their blocks.
    link_types: Vec<u16>,
}

impl PcapngWriter {
    /// Returns a writer of no blocks.
    pub fn new(alloc: Global) -> PcapngWriter
        ensures { IsFile result.bytes.items [] (links result) }
    {
        PcapngWriter {
            bytes: Vec::new(alloc),
            is_begun: false,
            link_types: Vec::new(alloc),
        }
    }

    /// Adds a Section Header Block (section 4.1), if none was added before.
    pub fn begin(&mut self) -> Result<(), AllocError>
        ensures adds { OnOk result (Adds self.old self.new []) }
        ensures begun { OnOk result (IsBegun self.new) }
    {
        if self.is_begun {
            return Ok(());
        }
        self.start_section()
    }

    /// Adds a frame as an Enhanced Packet Block (section 4.3), after the blocks that it needs. Of its
    /// bytes the first 262,112 are written, and none past its original length; the option
    /// `epb_flags` says its direction. After an error the blocks end anywhere.
    ///
    /// What is written is read as these frames (`reads_back`).
    pub fn push(&mut self, frame: PcapngFrame<'_>) -> Result<(), AllocError>
        ensures adds { OnOk result (Adds self.old self.new (kept (frame_of frame.entry) ∷ [])) }
        ensures begun { OnOk result (IsBegun self.new) }
    {
        self.begin()?;
        let interface = self.interface_of(frame.link_type)?;
        push_packet(interface, kept(frame), &mut self.bytes)?;
        Ok(())
    }

    /// Adds a Section Header Block.
    fn start_section(&mut self) -> Result<(), AllocError>
        ensures adds { OnOk result (Adds self.old self.new []) }
        ensures begun { IsBegun self.new }
        ensures links { self.new.link_types.items ≡ [] }
    {
        self.is_begun = true;
        self.link_types.clear();
        push_words(&SECTION_HEADER, &mut self.bytes)?;
        Ok(())
    }

    /// Returns the number of the interface of a link type, whose block is added if there is none.
    fn interface_of(&mut self, link_type: u16) -> Result<u32, AllocError>
        requires { IsBegun self.old }
        ensures adds { OnOk result (Adds self.old self.new []) }
        ensures begun { OnOk result (IsBegun self.new) }
        ensures place { IfOk result (λ i. slice_get self.new.link_types.items i ≡ Some link_type) }
    {
        if let Some(interface) = place_of(link_type, &self.link_types) {
            return Ok(interface);
        }
        self.add_interface(link_type)
    }

    /// Adds an Interface Description Block (section 4.2): without a snapshot length, and with
    /// `if_tsresol` 9, which says that times are in nanoseconds. Returns its number.
    fn add_interface(&mut self, link_type: u16) -> Result<u32, AllocError>
        requires { IsBegun self.old }
        ensures adds { OnOk result (Adds self.old self.new []) }
        ensures begun { OnOk result (IsBegun self.new) }
        ensures place { IfOk result (λ i. slice_get self.new.link_types.items i ≡ Some link_type) }
    {
        self.make_room()?;
        let interface = self.link_types.len() as u32;
        self.link_types.push(link_type)?;
        let numbers = [1, 32, u32::from(link_type), 0, 0x0001_0009, 9, 0, 32];
        push_words(&numbers, &mut self.bytes)?;
        Ok(interface)
    }

    /// Begins another section where this one has as many interfaces as are read.
    fn make_room(&mut self) -> Result<(), AllocError>
        requires { IsBegun self.old }
        ensures adds { OnOk result (Adds self.old self.new []) }
        ensures begun { OnOk result (IsBegun self.new) }
        ensures room { OnOk result (length self.new.link_types.items < 1024) }
    {
        if self.link_types.len() < MOST_INTERFACES {
            return Ok(());
        }
        self.start_section()
    }
}

/// Proves that a file is read as the frames that were written, in order, with their bytes, link
/// types, original lengths and times in nanoseconds; and that the options of a frame's block say its
/// direction.
pub fn reads_back()
    ensures frames { (bytes links : List ℕ) (frames : List Frame)
        → IsFile bytes frames (Some links)
        → Reads Item End before_blocks bytes (frames_seen 1 frames) None }
    ensures direction { (interface : ℕ) (f : Frame) → Fits f
        → flags_in LittleEndian (packet_body interface f) ≡ flags_of f.direction }
{}

/// Returns the number of the interface of a link type, if there is one.
fn place_of(link_type: u16, link_types: &[u16]) -> Option<u32>
    ensures { IfSome result (λ i. slice_get link_types.now i ≡ Some link_type) }
{
    let mut interface: u32 = 0;
    for known in link_types {
        if *known == link_type {
            return Some(interface);
        }
        interface = interface.checked_add(1)?;
    }
    None
}

/// Returns a frame with those of its bytes that are written.
fn kept(frame: PcapngFrame<'_>) -> PcapngFrame<'_>
    ensures { frame_of result ≡ kept (frame_of frame.entry) }
{
    let size = (frame.original_length as usize)
        .min(MOST_WRITTEN)
        .min(frame.bytes.len());
    PcapngFrame {
        bytes: &frame.bytes[..size],
        ..frame
    }
}

/// Adds an Enhanced Packet Block.
fn push_packet(
    interface: u32,
    frame: PcapngFrame<'_>,
    bytes: &mut Vec<u8>,
) -> Result<(), AllocError>
    requires { length frame.bytes.now ≤ 262112 }
    ensures { OnOk result (bytes.new.items ≡ bytes.old.items ++ packet_block interface (frame_of frame.entry)) }
{
    let options = direction_options(frame.direction);
    let padding = padding_of(frame.bytes.len());
    let size = frame.bytes.len() + padding.len() + options.len() * 4 + 32;
    let fields = [
        6,
        size as u32,
        interface,
        (frame.time / 0x1_0000_0000) as u32,
        (frame.time % 0x1_0000_0000) as u32,
        frame.bytes.len() as u32,
        frame.original_length,
    ];
    push_words(&fields, bytes)?;
    bytes.extend_from_slice(frame.bytes)?;
    bytes.extend_from_slice(padding)?;
    push_words(options, bytes)?;
    push_words(&[size as u32], bytes)?;
    Ok(())
}

/// Returns the zeros after this many bytes up to a multiple of 4.
fn padding_of(size: usize) -> &'static [u8]
    ensures { result.now ≡ replicate ((4 - size % 4) % 4) 0 }
{
    &[0; 3][..(4 - size % 4) % 4]
}

/// Returns the options that say a direction.
fn direction_options(direction: Option<Direction>) -> &'static [u32]
    ensures { result.now ≡ direction_options direction }
{
    match direction {
        None => &[],
        Some(Direction::Incoming) => &[0x0004_0002, 1, 0],
        Some(Direction::Outgoing) => &[0x0004_0002, 2, 0],
    }
}

/// Adds numbers of four bytes.
fn push_words(numbers: &[u32], bytes: &mut Vec<u8>) -> Result<(), AllocError>
    ensures { OnOk result (bytes.new.items ≡ bytes.old.items ++ words numbers.now) }
{
    for number in numbers {
        bytes.extend_from_slice(&number.to_le_bytes())?;
    }
    Ok(())
}
