//! The user data of DATA and I-DATA, in a packet's bytes.

ghost use Rattle.std.specs.{Prelude.{◌≡◌, ◌≤◌, IfSome, IsOk, Some, option_map, length}, Result.{result_ok}};
ghost use Rattle.dcsctp_chunk.specs.DataChunk as data_kind;
ghost use Rattle.dcsctp_chunk.specs.IDataChunk as idata_kind;
ghost use Rattle.dcsctp_wire.specs.Chunk.{ChunkTree};
ghost use Rattle.dcsctp_borrowed.specs.{RawChunks.{RawMeans}, UserData.{user_data_view, data_of, read_user_data}};

use dcsctp_chunk::data_chunk::DataNumbers;
use dcsctp_chunk::flags::is_set;
use dcsctp_chunk::idata_chunk::{IDataNumbers, ppid_and_fsn};
use dcsctp_types::api::PpId;
use dcsctp_types::types::{Fsn, Mid, Ssn, StreamKey, Tsn};
use dcsctp_wire::packet::chunk::RawChunk;
use dcsctp_wire::packet::{data_chunk, idata_chunk};

/// What a DATA (RFC 9260 section 3.3.1) or an I-DATA chunk (RFC 8260 section 2.1) holds. The
/// payload stays where it lies in the packet.
///
/// What the chunk doesn't carry is 0, as in `DataChunk` and `IDataChunk`.
#[derive(Clone, Copy, Debug)]
pub struct UserData<'a> {
    /// The chunk's place in its association.
    pub tsn: Tsn,
    /// The stream, and whether the message is delivered in sequence.
    pub stream_key: StreamKey,
    /// The message's place in its stream; 0 in I-DATA.
    pub ssn: Ssn,
    /// The message's id in its stream; 0 in DATA.
    pub mid: Mid,
    /// The fragment's place in its message; 0 in DATA, and at the beginning of a message.
    pub fsn: Fsn,
    /// What the payload is for; 0 in I-DATA, but at the beginning of a message.
    pub ppid: PpId,
    /// The fragment's bytes.
    pub payload: &'a [u8],
    /// Whether the message begins with it: the B bit.
    pub is_beginning: bool,
    /// Whether the message ends with it: the E bit.
    pub is_end: bool,
    /// Whether the sender asks for a SACK without delay (RFC 7053): the I bit.
    pub immediate_ack: bool,
}

impl<'a> UserData<'a> {
    /// Reads DATA or I-DATA, without a copy; `None` if and only if the chunk has another type, or a
    /// value that is too short for its kind: of less than 12 bytes, or of less than 16.
    ///
    /// Of a chunk of a packet this is the user data that `SctpPacket::from_bytes` gives, and `None`
    /// if and only if the chunk has another type.
    #[inline(always)]
    pub fn from_raw(raw: &RawChunk<'a>) -> Option<UserData<'a>>
        ensures read { option_map user_data_view result
            ≡ read_user_data raw.now.typ raw.now.flags raw.now.value.now }
        ensures means { (tree : ChunkTree) → RawMeans raw.now tree
            → option_map user_data_view result ≡ data_of tree }
        ensures size { IfSome result (λ d. length d.payload.now ≤ length raw.now.value.now) }
    {
        UserData::read(raw.typ, raw.flags, raw.value)
    }

    /// Builds what a value of this type means. Proves only the kinds' readings.
    #[inline(always)]
    fn read(typ: u8, flags: u8, value: &'a [u8]) -> Option<UserData<'a>>
        ensures read { option_map user_data_view result ≡ read_user_data typ flags value.now }
        ensures size { IfSome result (λ d. length d.payload.now ≤ length value.now) }
    {
        match typ {
            data_chunk::CHUNK_TYPE => UserData::of_data(flags, value),
            idata_chunk::CHUNK_TYPE => UserData::of_idata(flags, value),
            _ => None,
        }
    }

    /// Builds what the value of a DATA chunk means under these flags.
    #[inline(always)]
    fn of_data(flags: u8, value: &'a [u8]) -> Option<UserData<'a>>
        ensures read { option_map user_data_view result
            ≡ result_ok (data_kind.read flags value.now) }
        ensures size { IfSome result (λ d. length d.payload.now ≤ length value.now) }
    {
        if value.len() < DataNumbers::SIZE {
            return None;
        }
        Some(UserData::of_checked_data(flags, value))
    }

    /// Builds what a value means that is known to mean a DATA chunk.
    #[inline(always)]
    pub(crate) fn of_checked_data(flags: u8, value: &'a [u8]) -> UserData<'a>
        requires { IsOk (data_kind.read flags value.now) }
        ensures read { Some (user_data_view result) ≡ result_ok (data_kind.read flags value.now) }
        ensures size { length result.payload.now ≤ length value.now }
    {
        let data = DataNumbers::read(value);
        UserData {
            tsn: data.tsn,
            stream_key: StreamKey::new(is_set(flags, 2), data.stream_id),
            ssn: data.ssn,
            mid: Mid(0),
            fsn: Fsn(0),
            ppid: data.ppid,
            payload: &value[DataNumbers::SIZE..],
            is_beginning: is_set(flags, 1),
            is_end: is_set(flags, 0),
            immediate_ack: is_set(flags, 3),
        }
    }

    /// Builds what the value of an I-DATA chunk means under these flags.
    #[inline(always)]
    fn of_idata(flags: u8, value: &'a [u8]) -> Option<UserData<'a>>
        ensures read { option_map user_data_view result
            ≡ result_ok (idata_kind.read flags value.now) }
        ensures size { IfSome result (λ d. length d.payload.now ≤ length value.now) }
    {
        if value.len() < IDataNumbers::SIZE {
            return None;
        }
        Some(UserData::of_checked_idata(flags, value))
    }

    /// Builds what a value means that is known to mean an I-DATA chunk.
    #[inline(always)]
    pub(crate) fn of_checked_idata(flags: u8, value: &'a [u8]) -> UserData<'a>
        requires { IsOk (idata_kind.read flags value.now) }
        ensures read { Some (user_data_view result) ≡ result_ok (idata_kind.read flags value.now) }
        ensures size { length result.payload.now ≤ length value.now }
    {
        let is_beginning = is_set(flags, 1);
        let idata = IDataNumbers::read(value);
        let (ppid, fsn) = ppid_and_fsn(is_beginning, idata.ppid_or_fsn);
        UserData {
            tsn: idata.tsn,
            stream_key: StreamKey::new(is_set(flags, 2), idata.stream_id),
            ssn: Ssn(0),
            mid: idata.mid,
            fsn,
            ppid,
            payload: &value[IDataNumbers::SIZE..],
            is_beginning,
            is_end: is_set(flags, 0),
            immediate_ack: is_set(flags, 3),
        }
    }
}
