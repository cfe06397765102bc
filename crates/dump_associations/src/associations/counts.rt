//! What is counted of the packets that one end of an association sent.

ghost use Rattle.std.specs.Prelude.{◌≡◌, nat_lt};
ghost use Rattle.dcsctp_borrowed.specs.Part.{item_of, part_of};
ghost use Rattle.dump_capture.specs.Number.{one_more};
ghost use Rattle.dump_packet.specs.SeenPackets.{packet_of};
ghost use Rattle.dump_associations.specs.Counts.{nothing, with_chunk, with_data, with_i_data, with_forward_tsn, with_sack, with_nr_sack, with_report, with_error, with_header, with_window, CountsChunks, CountsPacket};

use crate::associations::stale_cookies::StaleCookies;
use dcsctp_borrowed::checksum::Checksum;
use dcsctp_borrowed::part::{Item, Items, Part};
use dcsctp_receive::chunk_type::{
    DATA, ERROR, FORWARD_TSN, HEARTBEAT, I_DATA, I_FORWARD_TSN, INIT, NR_SACK, SACK,
};
use dcsctp_registry::chunk_layouts::{
    NR_SACK_BLOCKS_OFFSET, NR_SACK_LISTS_OFFSET, NR_SACK_NR_BLOCKS_OFFSET,
};
use dcsctp_tlv::fields::Field;
use dcsctp_wire::packet::data_chunk::DataNumbers;
use dcsctp_wire::packet::forward_tsn_chunk::{ForwardTsnNumbers, SsnStreamField};
use dcsctp_wire::packet::idata_chunk::IDataNumbers;
use dcsctp_wire::packet::iforward_tsn_chunk::MidStreamField;
use dcsctp_wire::packet::sack_chunk::SackNumbers;
use dcsctp_wire::packet::{read_u16_be, read_u32_be};
use dump_packet::{PacketNumber, SeenPacket, increase};

/// The least window that an end advertised, in bytes, and the first packet that did.
#[derive(Clone, Copy)]
pub struct LeastWindow {
    /// The window (RFC 9260 section 3.3.4).
    pub a_rwnd: u32,
    /// The packet's number.
    pub packet: PacketNumber,
}

/// What is counted of the packets that one end sent, up to 2^64 - 1 each.
#[derive(Clone, Copy)]
pub struct Counts {
    /// Packets.
    pub packets: u64,
    /// Packets that were refused.
    pub refused: u64,
    /// Packets whose checksum field is zero, if another is expected.
    pub zero: u64,
    /// Packets whose checksum field is wrong.
    pub wrong: u64,
    /// INIT chunks.
    pub inits: u64,
    /// DATA and I-DATA chunks.
    pub data_chunks: u64,
    /// I-DATA chunks.
    pub i_data_chunks: u64,
    /// Bytes of user data in DATA and I-DATA chunks.
    pub data_bytes: u64,
    /// FORWARD-TSN and I-FORWARD-TSN chunks.
    pub forward_tsns: u64,
    /// Streams that FORWARD-TSNs and I-FORWARD-TSNs list: a message was abandoned in each.
    pub abandoned: u64,
    /// SACK and NR-SACK chunks.
    pub sacks: u64,
    /// SACK and NR-SACK chunks that report a gap.
    pub sacks_with_gaps: u64,
    /// The least window in a SACK or an NR-SACK.
    pub least_window: Option<LeastWindow>,
    /// HEARTBEAT chunks.
    pub heartbeats: u64,
    /// Stale Cookie causes in ERROR chunks.
    pub stale_cookies: StaleCookies,
}

impl Counts {
    /// Returns counts of nothing.
    pub fn new() -> Counts
        ensures { result ≡ nothing }
    {
        Counts {
            packets: 0,
            refused: 0,
            zero: 0,
            wrong: 0,
            inits: 0,
            data_chunks: 0,
            i_data_chunks: 0,
            data_bytes: 0,
            forward_tsns: 0,
            abandoned: 0,
            sacks: 0,
            sacks_with_gaps: 0,
            least_window: None,
            heartbeats: 0,
            stale_cookies: StaleCookies::new(),
        }
    }

    /// Returns whether there was DATA, beside I-DATA.
    pub fn has_data(&self) -> bool
        ensures { result ≡ nat_lt self.now.i_data_chunks self.now.data_chunks }
    {
        self.data_chunks > self.i_data_chunks
    }

    /// Counts a packet and its chunks, as far as they can be read.
    pub fn count_packet(&mut self, packet: &SeenPacket<'_>)
        ensures chunks { CountsPacket self.old (packet_of packet.now) self.new }
        ensures packets { self.new.packets ≡ one_more self.old.packets }
    {
        self.count_header(packet.checksum, packet.is_refused);
        self.count_chunks(packet.number, packet.chunks());
    }

    /// Counts a packet without its chunks.
    fn count_header(&mut self, checksum: Checksum, is_refused: bool)
        ensures { self.new ≡ with_header self.old checksum is_refused }
    {
        increase(&mut self.packets);
        if is_refused {
            increase(&mut self.refused);
        }
        match checksum {
            Checksum::Zero => increase(&mut self.zero),
            Checksum::Wrong(_) => increase(&mut self.wrong),
            Checksum::Right | Checksum::Unknown => {}
        }
    }

    /// Counts chunks of the packet of this number.
    fn count_chunks(&mut self, number: PacketNumber, chunks: Items<'_>)
        ensures chunks { CountsChunks number self.old chunks.entry self.new }
        ensures packets { self.new.packets ≡ self.old.packets }
    {
        for chunk in chunks {
            self.count_chunk(number, chunk);
        }
    }

    /// Counts a chunk of the packet of this number.
    fn count_chunk(&mut self, number: PacketNumber, chunk: Item<'_>)
        ensures chunk { self.new ≡ with_chunk number self.old (item_of chunk.entry) }
        ensures packets { self.new.packets ≡ self.old.packets }
    {
        let size = chunk.value.size;
        match chunk.first {
            DATA => self.count_data(size.saturating_sub(DataNumbers::SIZE)),
            I_DATA => self.count_i_data(size.saturating_sub(IDataNumbers::SIZE)),
            INIT => increase(&mut self.inits),
            SACK => self.count_sack(number, chunk.value.bytes),
            NR_SACK => self.count_nr_sack(number, chunk.value.bytes),
            HEARTBEAT => increase(&mut self.heartbeats),
            ERROR => self.count_error(chunk.value),
            FORWARD_TSN => {
                let streams = size.saturating_sub(ForwardTsnNumbers::SIZE);
                self.count_forward_tsn(streams / SsnStreamField::SIZE);
            }
            I_FORWARD_TSN => {
                let streams = size.saturating_sub(ForwardTsnNumbers::SIZE);
                self.count_forward_tsn(streams / MidStreamField::SIZE);
            }
            _ => {}
        }
    }

    /// Counts a chunk with this many bytes of user data.
    fn count_data(&mut self, size: usize)
        ensures { self.new ≡ with_data self.old size }
    {
        increase(&mut self.data_chunks);
        self.data_bytes = self.data_bytes.saturating_add(size as u64);
    }

    /// Counts an I-DATA with this many bytes of user data.
    fn count_i_data(&mut self, size: usize)
        ensures { self.new ≡ with_i_data self.old size }
    {
        increase(&mut self.i_data_chunks);
        self.count_data(size);
    }

    /// Counts a FORWARD-TSN or an I-FORWARD-TSN that lists this many streams.
    fn count_forward_tsn(&mut self, streams: usize)
        ensures { self.new ≡ with_forward_tsn self.old streams }
    {
        increase(&mut self.forward_tsns);
        self.abandoned = self.abandoned.saturating_add(streams as u64);
    }

    /// Counts a SACK with this value, as far as it was captured.
    fn count_sack(&mut self, number: PacketNumber, value: &[u8])
        ensures { self.new ≡ with_sack number self.old value.now }
    {
        increase(&mut self.sacks);
        if value.len() < SackNumbers::SIZE {
            return;
        }
        let numbers = SackNumbers::read(value);
        self.count_report(number, numbers.a_rwnd, numbers.gap_ack_block_count > 0);
    }

    /// Counts an NR-SACK with this value, as far as it was captured.
    fn count_nr_sack(&mut self, number: PacketNumber, value: &[u8])
        ensures { self.new ≡ with_nr_sack number self.old value.now }
    {
        increase(&mut self.sacks);
        if value.len() < NR_SACK_LISTS_OFFSET {
            return;
        }
        let has_gaps = read_u16_be(&value[NR_SACK_BLOCKS_OFFSET..]) > 0
            || read_u16_be(&value[NR_SACK_NR_BLOCKS_OFFSET..]) > 0;
        // (the window is where a SACK has it)
        self.count_report(number, read_u32_be(&value[SackNumbers::A_RWND..]), has_gaps);
    }

    /// Counts an ERROR with these causes, as far as they can be read.
    fn count_error(&mut self, causes: Part<'_>)
        ensures { self.new ≡ with_error self.old (part_of causes.entry) }
    {
        self.stale_cookies.count_causes(causes);
    }

    /// Counts what a SACK says of gaps and of the window.
    fn count_report(&mut self, number: PacketNumber, a_rwnd: u32, has_gaps: bool)
        ensures { self.new ≡ with_report number self.old a_rwnd has_gaps }
    {
        if has_gaps {
            increase(&mut self.sacks_with_gaps);
        }
        self.least_window = least_of(self.least_window, a_rwnd, number);
    }
}

/// Returns the lesser of two windows, and of equal ones the first.
fn least_of(least: Option<LeastWindow>, a_rwnd: u32, packet: PacketNumber) -> Option<LeastWindow>
    ensures { result ≡ with_window least a_rwnd packet }
{
    match least {
        Some(window) if window.a_rwnd <= a_rwnd => Some(window),
        _ => Some(LeastWindow { a_rwnd, packet }),
    }
}
