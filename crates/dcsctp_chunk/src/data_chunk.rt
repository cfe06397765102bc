//! DATA: user data, a message or a fragment of one.
//!
//! ```txt
//!  0                   1                   2                   3
//!  0 1 2 3 4 5 6 7 8 9 0 1 2 3 4 5 6 7 8 9 0 1 2 3 4 5 6 7 8 9 0 1
//! +-+-+-+-+-+-+-+-+-+-+-+-+-+-+-+-+-+-+-+-+-+-+-+-+-+-+-+-+-+-+-+-+
//! |   type = 0    |  res  |I|U|B|E|    length = 16 + payload      |
//! +-+-+-+-+-+-+-+-+-+-+-+-+-+-+-+-+-+-+-+-+-+-+-+-+-+-+-+-+-+-+-+-+
//! |                              TSN                              |
//! +-+-+-+-+-+-+-+-+-+-+-+-+-+-+-+-+-+-+-+-+-+-+-+-+-+-+-+-+-+-+-+-+
//! |           stream id           |    stream sequence number     |
//! +-+-+-+-+-+-+-+-+-+-+-+-+-+-+-+-+-+-+-+-+-+-+-+-+-+-+-+-+-+-+-+-+
//! |                  payload protocol identifier                  |
//! +-+-+-+-+-+-+-+-+-+-+-+-+-+-+-+-+-+-+-+-+-+-+-+-+-+-+-+-+-+-+-+-+
//! |                      payload, any bytes                       |
//! +-+-+-+-+-+-+-+-+-+-+-+-+-+-+-+-+-+-+-+-+-+-+-+-+-+-+-+-+-+-+-+-+
//! ```

ghost use Rattle.std.specs.Prelude.{◌≡◌, ◌≢◌, ◌↔◌, Some, IsOk, IsErrOf, IfOk, Ok, vec_len, vec_capacity, IfErr, length, ◌≤◌, OnOk, OnErr, ◌<◌};
ghost use Rattle.dcsctp_tlv.specs.Reading.{Exactly, reading};
ghost use Rattle.dcsctp_chunk.specs.DataChunk as kind;

use crate::data::{Data, data_has_widths};
use crate::flags::is_set;
use crate::raw_chunk::RawChunk;
use dcsctp_tlv::copy::copied;
use dcsctp_tlv::error::ChunkParseError;
use dcsctp_tlv::frame::{TLV_HEADER_SIZE, item_size, put_fixed_and_rest};
use dcsctp_tlv::number::{put_u16, put_u32, read_u16_be, read_u32_be};
use dcsctp_tlv::tlv::SerializableTlv;
use dcsctp_types::api::{PpId, StreamId};
use dcsctp_types::types::{Fsn, Mid, Ssn, StreamKey, Tsn};
use std::alloc::{AllocError, Global};
use std::fmt;

/// The type of DATA.
pub const CHUNK_TYPE: u8 = 0;

/// Bytes of a DATA chunk before its payload.
pub const HEADER_SIZE: usize = TLV_HEADER_SIZE + DataNumbers::SIZE;

/// The numbers at the front of a DATA chunk's value, before its payload (RFC 9260 section 3.3.1).
#[derive(Clone, Copy, Debug)]
pub struct DataNumbers {
    /// The chunk's place in its association.
    pub tsn: Tsn,
    /// The stream of the message.
    pub stream_id: StreamId,
    /// The message's place in its stream.
    pub ssn: Ssn,
    /// What the payload is for.
    pub ppid: PpId,
}

impl DataNumbers {
    /// Their bytes.
    pub const SIZE: usize = 12;

    /// The offset of the TSN in the value.
    pub const TSN: usize = 0;

    /// The offset of the stream id in the value.
    pub const STREAM_ID: usize = 4;

    /// The offset of the SSN in the value.
    pub const SSN: usize = 6;

    /// The offset of the payload protocol identifier in the value.
    pub const PPID: usize = 8;

    /// Reads the numbers of a value, which has at least `SIZE` bytes.
    #[inline(always)]
    pub fn read(value: &[u8]) -> DataNumbers
        requires { 12 ≤ length value.now }
        ensures { result ≡ kind.numbers_at value.now }
    {
        DataNumbers {
            tsn: Tsn(read_u32_be(value)),
            stream_id: StreamId(read_u16_be(&value[DataNumbers::STREAM_ID..])),
            ssn: Ssn(read_u16_be(&value[DataNumbers::SSN..])),
            ppid: PpId(read_u32_be(&value[DataNumbers::PPID..])),
        }
    }

    /// Returns the numbers as they are written.
    #[inline(always)]
    pub fn bytes(self) -> [u8; DataNumbers::SIZE]
        ensures { result ≡ kind.number_bytes self }
    {
        let mut bytes = [0; DataNumbers::SIZE];
        put_u32(&mut bytes, DataNumbers::TSN, self.tsn.0);
        put_u16(&mut bytes, DataNumbers::STREAM_ID, self.stream_id.0);
        put_u16(&mut bytes, DataNumbers::SSN, self.ssn.0);
        put_u32(&mut bytes, DataNumbers::PPID, self.ppid.0);
        bytes
    }
}

/// DATA (RFC 9260 section 3.3.1).
///
/// It carries neither MID nor FSN: these aren't written, and are read as 0.
#[derive(Debug, Drop)]
pub struct DataChunk {
    /// The message, or the fragment of one.
    pub user_data: Data,
    /// The chunk's place in its association.
    pub tsn: Tsn,
    /// Whether the sender asks for a SACK without delay (RFC 7053): the I bit.
    pub immediate_ack: bool,
}

impl DataChunk {
    /// Reads the chunk, and copies its payload; flags but the four lowest are ignored.
    ///
    /// `InvalidType` if and only if the type is another; `InvalidLength` if and only if the value
    /// has fewer than 12 bytes; `OutOfMemory` only where the payload can't be copied.
    pub fn try_from(alloc: Global, raw: RawChunk) -> Result<Self, ChunkParseError>
        ensures other { IsErrOf result ChunkParseError.InvalidType ↔ (raw.entry.typ ≢ CHUNK_TYPE) }
        ensures answer { raw.entry.typ ≡ CHUNK_TYPE →
            Exactly reading kind.view
            (λ a. kind.read raw.entry.flags raw.entry.value.now ≡ a) result }
        ensures memory { IsErrOf result ChunkParseError.OutOfMemory →
            IsOk (kind.read raw.entry.flags raw.entry.value.now) }
        ensures tight { IfOk result
            (λ x. vec_capacity x.user_data.payload ≡ vec_len x.user_data.payload) }
    {
        if raw.typ != CHUNK_TYPE {
            return Err(ChunkParseError::InvalidType);
        }
        DataChunk::check(raw.value)?;
        Ok(DataChunk::build(alloc, raw.flags, raw.value)?)
    }

    /// Checks the value: `InvalidLength` if and only if it has fewer than 12 bytes.
    pub(crate) fn check(value: &[u8]) -> Result<(), ChunkParseError>
        ensures size { OnOk result (12 ≤ length value.now) }
        ensures short { OnErr result (length value.now < 12) }
        ensures fault { IfErr result (λ e. e ≡ ChunkParseError.InvalidLength) }
    {
        if value.len() < DataNumbers::SIZE {
            return Err(ChunkParseError::InvalidLength);
        }
        Ok(())
    }

    /// Builds the chunk that the value means under these flags.
    pub fn build(alloc: Global, flags: u8, value: &[u8]) -> Result<Self, AllocError>
        requires { IsOk (kind.read flags value.now) }
        ensures meant { IfOk result (λ x. kind.read flags value.now ≡ Ok (kind.view x)) }
        ensures tight { IfOk result
            (λ x. vec_capacity x.user_data.payload ≡ vec_len x.user_data.payload) }
    {
        let numbers = DataNumbers::read(value);
        Ok(DataChunk {
            tsn: numbers.tsn,
            user_data: Data {
                stream_key: StreamKey::new(is_set(flags, 2), numbers.stream_id),
                ssn: numbers.ssn,
                mid: Mid(0),
                fsn: Fsn(0),
                ppid: numbers.ppid,
                payload: copied(alloc, &value[DataNumbers::SIZE..])?,
                is_beginning: is_set(flags, 1),
                is_end: is_set(flags, 0),
            },
            immediate_ack: is_set(flags, 3),
        })
    }

    /// Returns the value before its payload, as it is written.
    fn fixed(&self) -> [u8; DataNumbers::SIZE]
        ensures { result ≡ kind.fixed (kind.view self.now) }
    {
        DataNumbers {
            tsn: self.tsn,
            stream_id: self.user_data.stream_key.id(),
            ssn: self.user_data.ssn,
            ppid: self.user_data.ppid,
        }
        .bytes()
    }
}

impl SerializableTlv for DataChunk {
    ghost format = { λ c. kind.format (kind.view c) };

    fn serialize_to(&self, output: &mut [u8]) {
        let flags = self.user_data.flags(self.immediate_ack);
        put_fixed_and_rest(
            CHUNK_TYPE,
            flags,
            &self.fixed(),
            &self.user_data.payload,
            output,
        );
    }

    fn encoded_size(&self) -> Option<usize> {
        item_size(DataNumbers::SIZE + self.user_data.payload.len())
    }

    fn has_widths(&self) {
        data_has_widths(self.tsn, &self.user_data, self.immediate_ack);
    }
}

impl fmt::Display for DataChunk {
    ghost output = { λ c. Some (kind.format (kind.view c)).text };

    fn fmt<W: fmt::Write>(&self, f: &mut fmt::Formatter<W>) -> fmt::Result {
        let content = &self.user_data;
        let (order, part) = (content.order(), content.part());
        let tsn = self.tsn;
        let stream = content.stream_key.id();
        let (ssn, ppid) = (content.ssn, content.ppid);
        let length = content.payload.len();
        write!(
            f,
            "DATA, type={order}::{part}, tsn={tsn}, sid={stream}, ssn={ssn}, ppid={ppid}, \
             length={length}"
        )
    }
}
