//! What is wrong with a packet that carries an INIT or an INIT ACK, and the ABORT that says it.

ghost use Rattle.std.specs.Prelude.{◌≡◌, ◌↔◌, length, IsOk, IfErr, if◌then◌else◌};
ghost use Rattle.dcsctp_borrowed.specs.Part.{item_of};
ghost use Rattle.dcsctp_tlv.specs.Image.{zeroed};
ghost use Rattle.dcsctp_wire.specs.Chunk.{tlv as chunk_tlv, IsChunkEncodable};
ghost use Rattle.dcsctp_buffer.specs.{Buffer.{HasRoom, HoldsPacket}, declared.error.WriteError.TheVariants.{NoRoom}};
ghost use Rattle.dcsctp_receive.specs.Initiation.{numbers_fault, cookie_fault, name_fault, first_fault, chunk_fault, packet_fault, refusal_of_init, refusal_when_waiting, refusal_of_init_ack, reflects, abort_of, abort_to};

use crate::items::{chunk_part, has_numbered, only};
use crate::parameters::{HOST_NAME_ADDRESS, STATE_COOKIE};
use crate::reply::write_back;
use dcsctp_borrowed::part::Item;
use dcsctp_buffer::error::WriteError;
use dcsctp_buffer::writable_chunk::WritableChunk;
use dcsctp_chunk::flags::one_flag;
use dcsctp_tlv::frame::{TLV_HEADER_SIZE, put_solid};
use dcsctp_wire::packet::init_chunk::InitNumbers;
use dcsctp_wire::packet::sctp_packet::CommonHeader;
use dcsctp_wire::packet::{abort_chunk, init_ack_chunk, init_chunk};

/// The least window that an INIT or an INIT ACK may advertise, in bytes (RFC 9260 sections 3.3.2
/// and 6).
const LEAST_WINDOW: u32 = 1500;

/// The cause Missing Mandatory Parameter (RFC 9260 section 3.3.10.2) of one parameter, State
/// Cookie.
const MISSING_STATE_COOKIE: [u8; 10] = [0, 2, 0, 10, 0, 0, 0, 1, 0, STATE_COOKIE];

/// The cause Invalid Mandatory Parameter (RFC 9260 section 3.3.10.7).
const INVALID_MANDATORY_PARAMETER: [u8; 4] = [0, 7, 0, 4];

/// What is wrong with a packet that carries an INIT or an INIT ACK: the first of these that is so.
#[derive(Clone, Copy, Debug)]
pub enum InitFault {
    /// The packet doesn't hold this chunk alone (RFC 9260 section 5.1).
    NotAlone,
    /// The chunk has no room for its fixed-length parameters, 16 bytes.
    TooShort,
    /// The Initiate Tag is 0.
    InitiateTagZero,
    /// The Advertised Receiver Window Credit is smaller than 1,500 bytes.
    SmallWindow,
    /// The Number of Outbound Streams is 0.
    NoOutboundStreams,
    /// The Number of Inbound Streams is 0.
    NoInboundStreams,
    /// An INIT ACK has no State Cookie.
    NoStateCookie,
    /// The chunk has a Host Name Address (RFC 9260 section 3.3.2.1.4).
    HostNameAddress,
}

/// What is done with a packet whose INIT or INIT ACK isn't processed.
#[derive(Clone, Copy, Debug)]
pub enum Refusal {
    /// Silently discards the packet.
    Discard,
    /// Discards the packet, and sends an ABORT; no association changes its state.
    Abort,
    /// Destroys the TCB, and sends an ABORT.
    DestroyAndAbort,
}

/// Returns what is wrong with a packet that carries an INIT (RFC 9260 sections 3.3.2 and 5.1).
/// `None` if and only if it has none of these faults.
///
/// Of its parameters Host Name Address alone is looked for, up to the first whose length is
/// impossible. That length is no fault here, nor are bytes after the chunk that are no whole chunk:
/// a check of the packet finds both.
pub fn init_fault(packet: &[u8]) -> Option<InitFault>
    ensures { result ≡ packet_fault 1 packet.now }
{
    match only(chunk_part(packet), init_chunk::CHUNK_TYPE) {
        Some(chunk) => chunk_fault(chunk),
        None => Some(InitFault::NotAlone),
    }
}

/// Returns what is wrong with a packet that carries an INIT ACK (RFC 9260 sections 3.3.3 and 5.1).
/// `None` if and only if it has none of these faults.
///
/// Of its parameters State Cookie and Host Name Address alone are looked for, up to the first whose
/// length is impossible, which is no more a fault than in `init_fault`.
pub fn init_ack_fault(packet: &[u8]) -> Option<InitFault>
    ensures { result ≡ packet_fault 2 packet.now }
{
    match only(chunk_part(packet), init_ack_chunk::CHUNK_TYPE) {
        Some(chunk) => chunk_fault(chunk),
        None => Some(InitFault::NotAlone),
    }
}

/// Returns what is wrong with the chunk.
fn chunk_fault(chunk: Item<'_>) -> Option<InitFault>
    ensures { result ≡ chunk_fault (item_of chunk.entry) }
{
    if chunk.value.bytes.len() < InitNumbers::SIZE {
        return Some(InitFault::TooShort);
    }
    match numbers_fault(InitNumbers::read(chunk.value.bytes)) {
        Some(fault) => Some(fault),
        None => parameters_fault(chunk),
    }
}

/// Returns what is wrong with the parameters.
fn parameters_fault(chunk: Item<'_>) -> Option<InitFault>
    ensures { let c = item_of chunk.entry in
        result ≡ first_fault (cookie_fault c) (name_fault c) }
{
    match cookie_fault(chunk) {
        Some(fault) => Some(fault),
        None => name_fault(chunk),
    }
}

/// Returns what is wrong with the fixed-length parameters.
fn numbers_fault(numbers: InitNumbers) -> Option<InitFault>
    ensures { result ≡ numbers_fault numbers }
{
    if numbers.initiate_tag == 0 {
        Some(InitFault::InitiateTagZero)
    } else if numbers.a_rwnd < LEAST_WINDOW {
        Some(InitFault::SmallWindow)
    } else if numbers.nbr_outbound_streams == 0 {
        Some(InitFault::NoOutboundStreams)
    } else if numbers.nbr_inbound_streams == 0 {
        Some(InitFault::NoInboundStreams)
    } else {
        None
    }
}

/// Returns whether an INIT ACK lacks its State Cookie.
fn cookie_fault(chunk: Item<'_>) -> Option<InitFault>
    ensures { result ≡ cookie_fault (item_of chunk.entry) }
{
    if chunk.first != init_ack_chunk::CHUNK_TYPE {
        return None;
    }
    if has_numbered(chunk.value.after(InitNumbers::SIZE), STATE_COOKIE) {
        None
    } else {
        Some(InitFault::NoStateCookie)
    }
}

/// Returns whether there is a Host Name Address.
fn name_fault(chunk: Item<'_>) -> Option<InitFault>
    ensures { result ≡ name_fault (item_of chunk.entry) }
{
    if has_numbered(chunk.value.after(InitNumbers::SIZE), HOST_NAME_ADDRESS) {
        Some(InitFault::HostNameAddress)
    } else {
        None
    }
}

impl InitFault {
    /// Returns what is done with a packet whose INIT has this fault (RFC 9260 sections 3.3.2 and
    /// 8.5.1).
    pub fn refusal_of_init(self) -> Refusal
        ensures { result ≡ refusal_of_init self }
    {
        match self {
            InitFault::SmallWindow
            | InitFault::NoOutboundStreams
            | InitFault::NoInboundStreams
            | InitFault::HostNameAddress => Refusal::Abort,
            _ => Refusal::Discard,
        }
    }

    /// Returns what is done with a packet whose INIT ACK has this fault (RFC 9260 sections 3.3.3
    /// and 5.1), in the state COOKIE-WAIT or in another one but CLOSED.
    pub fn refusal_of_init_ack(self, in_cookie_wait: bool) -> Refusal
        ensures { result ≡ refusal_of_init_ack in_cookie_wait self }
    {
        if in_cookie_wait {
            self.refusal_when_waiting()
        } else {
            Refusal::Discard
        }
    }

    /// Returns what is done in the state COOKIE-WAIT.
    fn refusal_when_waiting(self) -> Refusal
        ensures { result ≡ refusal_when_waiting self }
    {
        match self {
            InitFault::InitiateTagZero
            | InitFault::NoOutboundStreams
            | InitFault::NoInboundStreams
            | InitFault::NoStateCookie
            | InitFault::HostNameAddress => Refusal::DestroyAndAbort,
            InitFault::SmallWindow => Refusal::Abort,
            _ => Refusal::Discard,
        }
    }

    /// Writes the packet with the ABORT that says this fault, to the sender of the packet with this
    /// header and this Initiate Tag: at the front of the buffer, with a checksum field of zero, as
    /// `begin` and `add` of `dcsctp_buffer` write it. Sets the size to that of the packet.
    ///
    /// Its Verification Tag is the Initiate Tag; where this is 0, the packet's own, with the T bit.
    /// Its cause is Missing Mandatory Parameter or Invalid Mandatory Parameter; none of `NotAlone`
    /// and `TooShort`, which RFC 9260 doesn't answer, nor of `HostNameAddress`: the cause Unresolvable
    /// Address, which may be added to the ABORT, holds the parameter.
    ///
    /// Returns `NoRoom`, and changes nothing, if and only if the buffer has no room for the packet:
    /// 28 bytes at most.
    pub fn write_abort(
        self,
        buffer: &mut [u8],
        size: &mut usize,
        header: &CommonHeader,
        initiate_tag: u32,
    ) -> Result<(), WriteError>
        ensures room { IsOk result ↔ HasRoom (length buffer.old) 12 (abort_of self) }
        ensures held { IsOk result
            → HoldsPacket buffer.new size.new (abort_to header.now initiate_tag self) }
        ensures declined { IfErr result (λ e. e ≡ NoRoom) }
        ensures unchanged { IfErr result
            (λ e. (buffer.new ≡ buffer.old) × (size.new ≡ size.old)) }
    {
        self.is_encodable();
        let tag = self.abort_tag(header.verification_tag, initiate_tag);
        write_back(buffer, size, header, tag, &self)
    }

    /// Proves that the ABORT can be written.
    fn is_encodable(self)
        ensures { IsChunkEncodable (abort_of self) }
    {}

    /// Returns the ABORT's Verification Tag.
    fn abort_tag(self, verification_tag: u32, initiate_tag: u32) -> u32
        ensures { result ≡ if reflects self then verification_tag else initiate_tag }
    {
        if self.reflects() {
            verification_tag
        } else {
            initiate_tag
        }
    }

    /// Returns whether the ABORT reflects the packet's tag.
    fn reflects(self) -> bool
        ensures { result ≡ reflects self }
    {
        match self {
            InitFault::InitiateTagZero => true,
            _ => false,
        }
    }

    /// Returns the value of the ABORT.
    #[tactic(auto, unfolding(dcsctp_tlv::specs::Image::image_of))]
    fn causes(self) -> &'static [u8]
        ensures { result.now ≡ zeroed (chunk_tlv (abort_of self)).value }
    {
        match self {
            InitFault::NotAlone | InitFault::TooShort | InitFault::HostNameAddress => &[],
            InitFault::InitiateTagZero
            | InitFault::SmallWindow
            | InitFault::NoOutboundStreams
            | InitFault::NoInboundStreams => &INVALID_MANDATORY_PARAMETER,
            InitFault::NoStateCookie => &MISSING_STATE_COOKIE,
        }
    }
}

/// A fault is written as the ABORT that says it.
impl WritableChunk for InitFault {
    ghost tree = { abort_of };

    fn written_size(&self) -> Option<usize> {
        Some(TLV_HEADER_SIZE + self.causes().len())
    }

    fn write_to(&self, output: &mut [u8]) {
        put_solid(
            abort_chunk::CHUNK_TYPE,
            one_flag(self.reflects()),
            self.causes(),
            output,
        );
    }
}
