//! The fragments of IP packets, put together in bounded memory.

ghost use Rattle.std.specs.Prelude.{◌≡◌, ◌≤◌, ◌<◌, ◌+◌, ◌++◌, ℕ, true, [], List, IfOk, length, slice_index_or};
ghost use Rattle.std.specs.List.{Contains};
ghost use Rattle.std.specs.Option.{IfSome};
ghost use Rattle.dump_capture.specs.IpFragment.{Fragment, fragment_of};
ghost use Rattle.dump_capture.specs.declared.reassembly.PartialPacket.{PartialPacket};
ghost use Rattle.dump_capture.specs.declared.frame.Addresses.TheVariants.{V4, V6};
ghost use Rattle.dump_capture.specs.Reassembly.{joined, AreWhole, all_kept, AreKept, AreAllKept, ip_header, IsJoined, IsPlace};

use crate::frame::Addresses;
use crate::ip_fragment::{FragmentKey, IpFragment};
use std::alloc::{AllocError, Global};

/// The most packets of which fragments are kept at a time: of several senders, whose fragments lie
/// among one another's. So at most 64 * 65,535 bytes of data are kept, about 4 MB.
pub const MOST_PACKETS: usize = 64;

/// The most fragments of a packet that are kept, so that they take little more than their data. A
/// packet of 65,535 bytes has 54 where links carry 1,280 bytes, which IPv6 wants of each (RFC 8200
/// section 5), and 119 where they carry 576.
pub const MOST_FRAGMENTS: usize = 256;

/// The most bytes of data of a packet (RFC 8200 section 3).
pub const MOST_BYTES: usize = 65_535;

/// The most frames from the first to the last that was captured of a packet's fragments. IPv4 has
/// 65,536 identifications, so by twice as many frames another packet may have the same.
pub const MOST_APART: u64 = 32_768;

/// The first hop limit of a packet that was put together (RFC 1700, "IP time to live parameter").
const HOP_LIMIT: u8 = 64;

/// A fragment that is kept.
#[derive(Drop)]
pub(crate) struct KeptFragment {
    pub protocol: u8,
    pub offset: usize,
    pub more: bool,
    pub bytes: Vec<u8>,
}

/// A packet of which not all fragments were seen.
#[derive(Drop)]
pub(crate) struct PartialPacket {
    pub key: FragmentKey,
    /// The number of the frame of the first.
    pub begun: u64,
    /// Whether fragments overlap, or are too many, so that none is kept any more (RFC 8200 section
    /// 4.5).
    pub is_dropped: bool,
    /// Its fragments, in the order of their offsets.
    pub fragments: Vec<KeptFragment>,
    /// How many bytes of data they have.
    pub size: usize,
}

/// An IP packet that was put together.
#[derive(Drop)]
pub struct JoinedPacket {
    /// The packet, with a header of IP.
    pub bytes: Vec<u8>,
    /// How many fragments it came in.
    pub fragments: usize,
}

/// Where a fragment goes among those that are kept.
#[derive(Clone, Copy)]
enum Place {
    /// Before the one at this index, or after the last.
    Before(usize),
    /// It is there.
    Repeated,
    /// It has bytes of the place of another one.
    Overlaps,
}

/// The packets of which fragments were seen, but not all.
///
/// There are at most `MOST_PACKETS`, of at most `MOST_FRAGMENTS` fragments and `MOST_BYTES` bytes
/// of data each; where one more begins, that is given up to which nothing was added for longest.
#[derive(Drop)]
pub struct Reassembly {
    alloc: Global,
    packets: Vec<PartialPacket>,
}

impl Reassembly {
    /// Returns a table without packets.
    pub fn new(alloc: Global) -> Reassembly
        ensures { result.packets.items ≡ [] }
    {
        Reassembly {
            alloc,
            packets: Vec::new(alloc),
        }
    }

    /// Adds a fragment that was in the frame of this number, and returns the packet if all its
    /// fragments are there then, from the first to the last.
    ///
    /// One that is there, with the same bytes, changes nothing. Of a packet with a fragment that
    /// overlaps another one otherwise, none is used (RFC 8200 section 4.5, RFC 5722 section 4), nor
    /// of one with more than `MOST_FRAGMENTS`. Fragments more than `MOST_APART` frames apart are of
    /// different packets.
    pub fn add(
        &mut self,
        fragment: IpFragment<'_>,
        frame: u64,
    ) -> Result<Option<JoinedPacket>, AllocError>
        ensures kept { (fs : List Fragment) → AreAllKept fs self.old.packets.items
            → Contains fs (fragment_of fragment.entry) → AreAllKept fs self.new.packets.items }
        ensures joined { (fs : List Fragment) → AreAllKept fs self.old.packets.items
            → Contains fs (fragment_of fragment.entry)
            → IfOk result (λ made. IfSome made (λ p. IsJoined fs p.bytes.items p.fragments)) }
    {
        let mut packet = self.take(fragment.key, frame);
        packet.add(self.alloc, fragment)?;
        if let Some(size) = packet.whole_size() {
            return packet.join(self.alloc, size);
        }
        self.keep(packet)?;
        Ok(None)
    }

    /// Takes what is kept of a packet out of the table; of a packet of which nothing is kept, or
    /// which began too long ago, nothing but its key.
    fn take(&mut self, key: FragmentKey, frame: u64) -> PartialPacket
        ensures key { result.key ≡ key }
        ensures kept { (fs : List Fragment) → AreAllKept fs self.old.packets.items
            → AreAllKept fs self.new.packets.items × AreKept fs result }
    {
        let new = PartialPacket {
            key,
            begun: frame,
            is_dropped: false,
            fragments: Vec::new(self.alloc),
            size: 0,
        };
        match self.find(key) {
            Some(index) => {
                let packet = self.packets.remove(index);
                if frame.saturating_sub(packet.begun) <= MOST_APART {
                    packet
                } else {
                    new
                }
            }
            None => new,
        }
    }

    /// Returns where a packet is in the table.
    fn find(&self, key: FragmentKey) -> Option<usize>
        ensures found { IfSome result (λ i. (i < length self.now.packets.items)
            × ((p : PartialPacket) → (slice_index_or self.now.packets.items i p).key ≡ key)) }
    {
        for index in 0..self.packets.len() {
            if self.packets[index].key == key {
                return Some(index);
            }
        }
        None
    }

    /// Keeps a packet, after the others. If there is no room, the first is given up.
    fn keep(&mut self, packet: PartialPacket) -> Result<(), AllocError>
        ensures { (fs : List Fragment) → AreAllKept fs self.old.packets.items → AreKept fs packet
            → AreAllKept fs self.new.packets.items }
    {
        self.make_room();
        self.packets.push(packet)?;
        Ok(())
    }

    /// Gives the first packet up, if there is no room for another one.
    fn make_room(&mut self)
        ensures { (fs : List Fragment) → AreAllKept fs self.old.packets.items
            → AreAllKept fs self.new.packets.items
            × (length self.new.packets.items < MOST_PACKETS) }
    {
        if self.packets.len() < MOST_PACKETS {
            return;
        }
        let _ = self.packets.remove(0);
    }
}

impl PartialPacket {
    /// Adds a fragment with this packet's key.
    fn add(&mut self, alloc: Global, fragment: IpFragment<'_>) -> Result<(), AllocError>
        requires { self.old.key ≡ fragment.key }
        ensures key { self.new.key ≡ self.old.key }
        ensures kept { (fs : List Fragment) → AreKept fs self.old
            → Contains fs (fragment_of fragment.entry) → AreKept fs self.new }
    {
        if self.is_dropped {
            return Ok(());
        }
        match self.place_of(fragment) {
            Place::Before(index) if self.has_room(fragment.bytes.len()) => {
                let bytes = Vec::from_slice(alloc, fragment.bytes)?;
                let kept = KeptFragment {
                    protocol: fragment.protocol,
                    offset: fragment.offset,
                    more: fragment.more,
                    bytes,
                };
                self.fragments.insert(index, kept)?;
                self.size += fragment.bytes.len();
            }
            Place::Repeated => {}
            Place::Before(_) | Place::Overlaps => {
                self.is_dropped = true;
                self.fragments = Vec::new(alloc);
                self.size = 0;
            }
        }
        Ok(())
    }

    /// Returns whether one fragment more, of `size` bytes, may be kept.
    fn has_room(&self, size: usize) -> bool
        ensures { result ≡ true → (length self.now.fragments.items < MOST_FRAGMENTS)
            × (self.now.size + size ≤ MOST_BYTES) }
    {
        self.fragments.len() < MOST_FRAGMENTS
            && size <= MOST_BYTES
            && self.size <= MOST_BYTES - size
    }

    /// Returns where a fragment goes.
    fn place_of(&self, fragment: IpFragment<'_>) -> Place
        ensures { IsPlace (length self.now.fragments.items) result }
    {
        let end = fragment.offset.saturating_add(fragment.bytes.len());
        for index in 0..self.fragments.len() {
            let kept = &self.fragments[index];
            if fragment.offset < kept.offset.saturating_add(kept.bytes.len()) {
                return if end <= kept.offset {
                    Place::Before(index)
                } else if is_same(kept, fragment) {
                    Place::Repeated
                } else {
                    Place::Overlaps
                };
            }
        }
        Place::Before(self.fragments.len())
    }

    /// Returns the size of the packet's data, if the fragments are all of it.
    fn whole_size(&self) -> Option<usize>
        ensures { IfSome result (λ size. AreWhole (all_kept self.now)
            × (size ≡ length (joined (all_kept self.now)))) }
    {
        let mut end = 0;
        let mut more = true;
        for kept in &self.fragments {
            if !more || kept.offset != end || end > MOST_BYTES {
                return None;
            }
            end += kept.bytes.len();
            more = kept.more;
        }
        if more { None } else { Some(end) }
    }

    /// Returns the packet, whose data has this size; `None` if a header can't say it.
    fn join(&self, alloc: Global, size: usize) -> Result<Option<JoinedPacket>, AllocError>
        requires whole { AreWhole (all_kept self.now) }
        requires size { size ≡ length (joined (all_kept self.now)) }
        ensures { (fs : List Fragment) → AreKept fs self.now
            → IfOk result (λ made. IfSome made (λ p. IsJoined fs p.bytes.items p.fragments)) }
    {
        if self.fragments.is_empty() || size > 65_515 {
            return Ok(None);
        }
        let protocol = self.fragments[0].protocol;
        let mut bytes = header_of(alloc, self.key.addresses, protocol, size as u16)?;
        self.push_data(&mut bytes)?;
        Ok(Some(JoinedPacket {
            bytes,
            fragments: self.fragments.len(),
        }))
    }

    /// Adds the data of all fragments, in order.
    fn push_data(&self, bytes: &mut Vec<u8>) -> Result<(), AllocError>
        ensures { IfOk result (λ _. bytes.new.items
            ≡ bytes.old.items ++ joined (all_kept self.now)) }
    {
        for kept in &self.fragments {
            bytes.extend_from_slice(kept.bytes.as_slice())?;
        }
        Ok(())
    }
}

/// Returns the header of an IP packet with `size` bytes of data.
fn header_of(
    alloc: Global,
    addresses: Addresses,
    protocol: u8,
    size: u16,
) -> Result<Vec<u8>, AllocError>
    requires { size ≤ 65515 }
    ensures { IfOk result (λ v. (checksum : ℕ)
        × (v.items ≡ ip_header addresses protocol size checksum)) }
{
    match addresses {
        Addresses::V4 {
            source,
            destination,
        } => ipv4_header(alloc, source, destination, protocol, size),
        Addresses::V6 {
            source,
            destination,
        } => ipv6_header(alloc, source, destination, protocol, size),
    }
}

/// Returns the header of an IPv4 packet with `size` bytes of data, and no options.
fn ipv4_header(
    alloc: Global,
    source: [u8; 4],
    destination: [u8; 4],
    protocol: u8,
    size: u16,
) -> Result<Vec<u8>, AllocError>
    requires { size ≤ 65515 }
    ensures { IfOk result (λ v. (checksum : ℕ)
        × (v.items ≡ ip_header (V4 source destination) protocol size checksum)) }
{
    let checksum = header_checksum(source, destination, protocol, size);
    let mut bytes = Vec::with_capacity(alloc, 20 + size as usize)?;
    bytes.extend_from_slice(&[0x45, 0])?;
    bytes.extend_from_slice(&(20 + size).to_be_bytes())?;
    bytes.extend_from_slice(&[0, 0, 0, 0, HOP_LIMIT, protocol])?;
    bytes.extend_from_slice(&checksum.to_be_bytes())?;
    bytes.extend_from_slice(&source)?;
    bytes.extend_from_slice(&destination)?;
    Ok(bytes)
}

/// Returns the checksum of that header: the complement of the sum of its words of 16 bits in
/// ones' complement (RFC 791 section 3.1).
fn header_checksum(source: [u8; 4], destination: [u8; 4], protocol: u8, size: u16) -> u16
    requires { size ≤ 65515 }
{
    let fixed = 0x4500 + 256 * HOP_LIMIT as u32;
    let sum = fixed + 20 + size as u32 + protocol as u32 + words_of(source) + words_of(destination);
    let folded = sum % 65_536 + sum / 65_536;
    let folded = folded % 65_536 + folded / 65_536;
    !((folded % 65_536) as u16)
}

/// Returns the sum of the two words of 16 bits of an address.
fn words_of(address: [u8; 4]) -> u32
    ensures { result ≤ 131070 }
{
    let high = u16::from_be_bytes([address[0], address[1]]) as u32;
    let low = u16::from_be_bytes([address[2], address[3]]) as u32;
    high + low
}

/// Returns the header of an IPv6 packet with `size` bytes of data, and no extension headers.
fn ipv6_header(
    alloc: Global,
    source: [u8; 16],
    destination: [u8; 16],
    protocol: u8,
    size: u16,
) -> Result<Vec<u8>, AllocError>
    ensures { IfOk result (λ v. (checksum : ℕ)
        × (v.items ≡ ip_header (V6 source destination) protocol size checksum)) }
{
    let mut bytes = Vec::with_capacity(alloc, 40 + size as usize)?;
    bytes.extend_from_slice(&[0x60, 0, 0, 0])?;
    bytes.extend_from_slice(&size.to_be_bytes())?;
    bytes.extend_from_slice(&[protocol, HOP_LIMIT])?;
    bytes.extend_from_slice(&source)?;
    bytes.extend_from_slice(&destination)?;
    Ok(bytes)
}

/// Returns whether a kept fragment is this one.
fn is_same(kept: &KeptFragment, fragment: IpFragment<'_>) -> bool {
    kept.offset == fragment.offset
        && kept.more == fragment.more
        && kept.bytes.as_slice() == fragment.bytes
}
