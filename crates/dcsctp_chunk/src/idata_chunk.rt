//! I-DATA: user data, a message or a fragment of one, where messages can be interleaved.
//!
//! ```txt
//!  0                   1                   2                   3
//!  0 1 2 3 4 5 6 7 8 9 0 1 2 3 4 5 6 7 8 9 0 1 2 3 4 5 6 7 8 9 0 1
//! +-+-+-+-+-+-+-+-+-+-+-+-+-+-+-+-+-+-+-+-+-+-+-+-+-+-+-+-+-+-+-+-+
//! |   type = 64   |  res  |I|U|B|E|    length = 20 + payload      |
//! +-+-+-+-+-+-+-+-+-+-+-+-+-+-+-+-+-+-+-+-+-+-+-+-+-+-+-+-+-+-+-+-+
//! |                              TSN                              |
//! +-+-+-+-+-+-+-+-+-+-+-+-+-+-+-+-+-+-+-+-+-+-+-+-+-+-+-+-+-+-+-+-+
//! |           stream id           |           reserved            |
//! +-+-+-+-+-+-+-+-+-+-+-+-+-+-+-+-+-+-+-+-+-+-+-+-+-+-+-+-+-+-+-+-+
//! |                      message identifier                       |
//! +-+-+-+-+-+-+-+-+-+-+-+-+-+-+-+-+-+-+-+-+-+-+-+-+-+-+-+-+-+-+-+-+
//! |    payload protocol identifier, or fragment sequence number   |
//! +-+-+-+-+-+-+-+-+-+-+-+-+-+-+-+-+-+-+-+-+-+-+-+-+-+-+-+-+-+-+-+-+
//! |                      payload, any bytes                       |
//! +-+-+-+-+-+-+-+-+-+-+-+-+-+-+-+-+-+-+-+-+-+-+-+-+-+-+-+-+-+-+-+-+
//! ```

ghost use Rattle.std.specs.Prelude.{◌≡◌, ◌≢◌, ◌↔◌, Some, IsOk, IsErrOf, if◌then◌else◌, IfOk, Ok, vec_len, vec_capacity, IfErr, length, ◌≤◌, OnOk, OnErr, ◌<◌};
ghost use Rattle.dcsctp_tlv.specs.Reading.{Exactly, reading};
ghost use Rattle.dcsctp_chunk.specs.Data.{user_data_view};
ghost use Rattle.dcsctp_chunk.specs.IDataChunk as kind;

use crate::data::{Data, data_has_widths};
use crate::flags::is_set;
use crate::raw_chunk::RawChunk;
use dcsctp_tlv::copy::copied;
use dcsctp_tlv::error::ChunkParseError;
use dcsctp_tlv::frame::{TLV_HEADER_SIZE, item_size, put_fixed_and_rest};
use dcsctp_tlv::number::{put_u16, put_u32, read_u16_be, read_u32_be};
use dcsctp_tlv::tlv::SerializableTlv;
use dcsctp_types::api::{PpId, StreamId};
use dcsctp_types::types::{Fsn, Mid, Ssn, StreamKey, Tsn};
use std::alloc::{AllocError, Global};
use std::fmt;

/// The type of I-DATA.
pub const CHUNK_TYPE: u8 = 64;

/// Bytes of an I-DATA chunk before its payload.
pub const HEADER_SIZE: usize = TLV_HEADER_SIZE + IDataNumbers::SIZE;

/// The numbers at the front of an I-DATA chunk's value, before its payload (RFC 8260 section 2.1).
/// Two bytes that are ignored, and written as 0, lie after the stream id.
#[derive(Clone, Copy, Debug)]
pub struct IDataNumbers {
    /// The chunk's place in its association.
    pub tsn: Tsn,
    /// The stream of the message.
    pub stream_id: StreamId,
    /// The message's place in its stream.
    pub mid: Mid,
    /// What the payload is for, where the message begins; elsewhere the fragment's place in it.
    pub ppid_or_fsn: u32,
}

impl IDataNumbers {
    /// Their bytes.
    pub const SIZE: usize = 16;

    /// The offset of the TSN in the value.
    pub const TSN: usize = 0;

    /// The offset of the stream id in the value.
    pub const STREAM_ID: usize = 4;

    /// The offset of the MID in the value.
    pub const MID: usize = 8;

    /// The offset of the payload protocol identifier, or else the FSN, in the value.
    pub const PPID_OR_FSN: usize = 12;

    /// Reads the numbers of a value, which has at least `SIZE` bytes.
    #[inline(always)]
    pub fn read(value: &[u8]) -> IDataNumbers
        requires { 16 ≤ length value.now }
        ensures { result ≡ kind.numbers_at value.now }
    {
        IDataNumbers {
            tsn: Tsn(read_u32_be(value)),
            stream_id: StreamId(read_u16_be(&value[IDataNumbers::STREAM_ID..])),
            mid: Mid(read_u32_be(&value[IDataNumbers::MID..])),
            ppid_or_fsn: read_u32_be(&value[IDataNumbers::PPID_OR_FSN..]),
        }
    }

    /// Returns the numbers as they are written.
    #[inline(always)]
    pub fn bytes(self) -> [u8; IDataNumbers::SIZE]
        ensures { result ≡ kind.number_bytes self }
    {
        let mut bytes = [0; IDataNumbers::SIZE];
        put_u32(&mut bytes, IDataNumbers::TSN, self.tsn.0);
        put_u16(&mut bytes, IDataNumbers::STREAM_ID, self.stream_id.0);
        put_u32(&mut bytes, IDataNumbers::MID, self.mid.0);
        put_u32(&mut bytes, IDataNumbers::PPID_OR_FSN, self.ppid_or_fsn);
        bytes
    }
}

/// I-DATA (RFC 8260 section 2.1).
///
/// It carries no SSN. At the beginning of a message it carries the payload protocol identifier, and
/// no FSN, which is 0 there; elsewhere the FSN, and no payload protocol identifier. What isn't
/// carried isn't written, and is read as 0.
#[derive(Debug, Drop)]
pub struct IDataChunk {
    /// The message, or the fragment of one.
    pub user_data: Data,
    /// The chunk's place in its association.
    pub tsn: Tsn,
    /// Whether the sender asks for a SACK without delay: the I bit.
    pub immediate_ack: bool,
}

/// Returns the payload protocol identifier and the FSN that the number before the payload says; the
/// one that it doesn't say is 0.
#[inline(always)]
pub fn ppid_and_fsn(is_beginning: bool, number: u32) -> (PpId, Fsn)
    ensures ppid { result.0.0 ≡ (if is_beginning then number else 0) }
    ensures fsn { result.1.0 ≡ (if is_beginning then 0 else number) }
{
    if is_beginning {
        (PpId(number), Fsn(0))
    } else {
        (PpId(0), Fsn(number))
    }
}

/// Returns the number before the payload.
fn ppid_or_fsn(content: &Data) -> u32
    ensures { result ≡ kind.ppid_or_fsn (user_data_view content.now) }
{
    if content.is_beginning {
        content.ppid.0
    } else {
        content.fsn.0
    }
}

impl IDataChunk {
    /// Reads the chunk, and copies its payload; flags but the four lowest and the reserved bytes
    /// are ignored.
    ///
    /// `InvalidType` if and only if the type is another; `InvalidLength` if and only if the value
    /// has fewer than 16 bytes; `OutOfMemory` only where the payload can't be copied.
    pub fn try_from(alloc: Global, raw: RawChunk) -> Result<Self, ChunkParseError>
        ensures other { IsErrOf result ChunkParseError.InvalidType ↔ (raw.entry.typ ≢ CHUNK_TYPE) }
        ensures answer { raw.entry.typ ≡ CHUNK_TYPE →
            Exactly reading kind.view
            (λ a. kind.read raw.entry.flags raw.entry.value.now ≡ a) result }
        ensures memory { IsErrOf result ChunkParseError.OutOfMemory →
            IsOk (kind.read raw.entry.flags raw.entry.value.now) }
        ensures tight { IfOk result
            (λ x. vec_capacity x.user_data.payload ≡ vec_len x.user_data.payload) }
    {
        if raw.typ != CHUNK_TYPE {
            return Err(ChunkParseError::InvalidType);
        }
        IDataChunk::check(raw.value)?;
        Ok(IDataChunk::build(alloc, raw.flags, raw.value)?)
    }

    /// Checks the value: `InvalidLength` if and only if it has fewer than 16 bytes.
    pub(crate) fn check(value: &[u8]) -> Result<(), ChunkParseError>
        ensures size { OnOk result (16 ≤ length value.now) }
        ensures short { OnErr result (length value.now < 16) }
        ensures fault { IfErr result (λ e. e ≡ ChunkParseError.InvalidLength) }
    {
        if value.len() < IDataNumbers::SIZE {
            return Err(ChunkParseError::InvalidLength);
        }
        Ok(())
    }

    /// Builds the chunk that the value means under these flags.
    pub fn build(alloc: Global, flags: u8, value: &[u8]) -> Result<Self, AllocError>
        requires { IsOk (kind.read flags value.now) }
        ensures meant { IfOk result (λ x. kind.read flags value.now ≡ Ok (kind.view x)) }
        ensures tight { IfOk result
            (λ x. vec_capacity x.user_data.payload ≡ vec_len x.user_data.payload) }
    {
        let is_beginning = is_set(flags, 1);
        let numbers = IDataNumbers::read(value);
        let (ppid, fsn) = ppid_and_fsn(is_beginning, numbers.ppid_or_fsn);
        Ok(IDataChunk {
            tsn: numbers.tsn,
            user_data: Data {
                stream_key: StreamKey::new(is_set(flags, 2), numbers.stream_id),
                ssn: Ssn(0),
                mid: numbers.mid,
                fsn,
                ppid,
                payload: copied(alloc, &value[IDataNumbers::SIZE..])?,
                is_beginning,
                is_end: is_set(flags, 0),
            },
            immediate_ack: is_set(flags, 3),
        })
    }

    /// Returns the value before its payload, as it is written.
    fn fixed(&self) -> [u8; IDataNumbers::SIZE]
        ensures { result ≡ kind.fixed (kind.view self.now) }
    {
        IDataNumbers {
            tsn: self.tsn,
            stream_id: self.user_data.stream_key.id(),
            mid: self.user_data.mid,
            ppid_or_fsn: ppid_or_fsn(&self.user_data),
        }
        .bytes()
    }
}

impl SerializableTlv for IDataChunk {
    ghost format = { λ c. kind.format (kind.view c) };

    fn serialize_to(&self, output: &mut [u8]) {
        let flags = self.user_data.flags(self.immediate_ack);
        put_fixed_and_rest(
            CHUNK_TYPE,
            flags,
            &self.fixed(),
            &self.user_data.payload,
            output,
        );
    }

    fn encoded_size(&self) -> Option<usize> {
        item_size(IDataNumbers::SIZE + self.user_data.payload.len())
    }

    fn has_widths(&self) {
        data_has_widths(self.tsn, &self.user_data, self.immediate_ack);
    }
}

impl fmt::Display for IDataChunk {
    ghost output = { λ c. Some (kind.format (kind.view c)).text };

    fn fmt<W: fmt::Write>(&self, f: &mut fmt::Formatter<W>) -> fmt::Result {
        let content = &self.user_data;
        let (order, part) = (content.order(), content.part());
        let tsn = self.tsn;
        let stream = content.stream_key.id();
        let (mid, ppid) = (content.mid, content.ppid);
        let length = content.payload.len();
        write!(
            f,
            "I-DATA, type={order}::{part}, tsn={tsn}, mid={stream}, ssn={mid}, ppid={ppid}, \
             length={length}"
        )
    }
}
