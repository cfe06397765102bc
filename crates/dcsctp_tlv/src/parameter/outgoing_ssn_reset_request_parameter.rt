//! Outgoing SSN Reset Request: the sender resets streams that it sends on.
//!
//! ```txt
//!  0                   1                   2                   3
//!  0 1 2 3 4 5 6 7 8 9 0 1 2 3 4 5 6 7 8 9 0 1 2 3 4 5 6 7 8 9 0 1
//! +-+-+-+-+-+-+-+-+-+-+-+-+-+-+-+-+-+-+-+-+-+-+-+-+-+-+-+-+-+-+-+-+
//! |           type = 13           |   length = 16 + 2 * streams   |
//! +-+-+-+-+-+-+-+-+-+-+-+-+-+-+-+-+-+-+-+-+-+-+-+-+-+-+-+-+-+-+-+-+
//! |                    request sequence number                    |
//! +-+-+-+-+-+-+-+-+-+-+-+-+-+-+-+-+-+-+-+-+-+-+-+-+-+-+-+-+-+-+-+-+
//! |                    response sequence number                   |
//! +-+-+-+-+-+-+-+-+-+-+-+-+-+-+-+-+-+-+-+-+-+-+-+-+-+-+-+-+-+-+-+-+
//! |                   sender's last assigned TSN                  |
//! +-+-+-+-+-+-+-+-+-+-+-+-+-+-+-+-+-+-+-+-+-+-+-+-+-+-+-+-+-+-+-+-+
//! |                   stream id, two bytes each                   |
//! +-+-+-+-+-+-+-+-+-+-+-+-+-+-+-+-+-+-+-+-+-+-+-+-+-+-+-+-+-+-+-+-+
//! ```

ghost use Rattle.std.specs.Prelude.{◌≡◌, ◌≢◌, ◌↔◌, ◌≤◌, ◌∷◌, [], length, Some, IsOk, IsErrOf, IfOk, Ok, vec_len, vec_capacity};
ghost use Rattle.dcsctp_tlv.specs.Reading.{Exactly, reading, checking, Tested};
ghost use Rattle.dcsctp_tlv.specs.OutgoingSsnResetRequest as kind;

use crate::error::ChunkParseError;
use crate::fields::{fields_from_bytes, put_parameter_fields};
use crate::frame::fields_item_size;
use crate::number::read_u32_be;
use crate::parameter::raw_parameter::RawParameter;
use crate::tlv::SerializableTlv;
use crate::widths::{Widths, are_in_width};
use dcsctp_types::api::StreamId;
use dcsctp_types::types::Tsn;
use std::alloc::{AllocError, Global};
use std::fmt;

/// The type of Outgoing SSN Reset Request.
pub const PARAMETER_TYPE: u16 = 13;

/// The numbers at the front of an Outgoing SSN Reset Request's value, before its stream ids
/// (RFC 6525 section 4.1).
#[derive(Clone, Copy, Debug)]
pub struct OutgoingSsnResetRequestNumbers {
    /// The sequence number of this request.
    pub request_seq_nbr: u32,
    /// The sequence number of the incoming request that it answers, if it answers one.
    pub response_seq_nbr: u32,
    /// The last TSN that was assigned before the reset.
    pub sender_last_assigned_tsn: Tsn,
}

impl OutgoingSsnResetRequestNumbers {
    /// Their bytes.
    pub const SIZE: usize = 12;

    /// The offset of the request's number in the value.
    pub const REQUEST_SEQ_NBR: usize = 0;

    /// The offset of the response's number in the value.
    pub const RESPONSE_SEQ_NBR: usize = 4;

    /// The offset of the last assigned TSN in the value.
    pub const SENDER_LAST_ASSIGNED_TSN: usize = 8;

    /// Reads the numbers of a value, which has at least `SIZE` bytes.
    #[inline(always)]
    pub fn read(value: &[u8]) -> OutgoingSsnResetRequestNumbers
        requires { 12 ≤ length value.now }
        ensures { result ≡ kind.numbers_at value.now }
    {
        OutgoingSsnResetRequestNumbers {
            request_seq_nbr: read_u32_be(value),
            response_seq_nbr: read_u32_be(
                &value[OutgoingSsnResetRequestNumbers::RESPONSE_SEQ_NBR..],
            ),
            sender_last_assigned_tsn: Tsn(read_u32_be(
                &value[OutgoingSsnResetRequestNumbers::SENDER_LAST_ASSIGNED_TSN..],
            )),
        }
    }

    /// Returns the numbers in the order in which they are written, four bytes each.
    #[inline(always)]
    pub fn words(self) -> [u32; 3]
        ensures { result ≡ self.request_seq_nbr ∷ self.response_seq_nbr
            ∷ self.sender_last_assigned_tsn.0 ∷ [] }
    {
        [
            self.request_seq_nbr,
            self.response_seq_nbr,
            self.sender_last_assigned_tsn.0,
        ]
    }
}

/// Outgoing SSN Reset Request (RFC 6525 section 4.1).
#[derive(Debug, Drop)]
pub struct OutgoingSsnResetRequestParameter {
    /// The sequence number of this request.
    pub request_seq_nbr: u32,
    /// The sequence number of the incoming request that it answers, if it answers one.
    pub response_seq_nbr: u32,
    /// The last TSN that was assigned before the reset.
    pub sender_last_assigned_tsn: Tsn,
    /// The streams to be reset; an empty list means all.
    pub streams: Vec<StreamId>,
}

impl OutgoingSsnResetRequestParameter {
    /// Reads the parameter, and copies its stream ids.
    ///
    /// `InvalidType` if and only if the type is another; `InvalidLength` if and only if the value
    /// has fewer than 12 bytes or an odd number of them; `OutOfMemory` only where the ids can't be
    /// copied.
    pub fn try_from(alloc: Global, raw: RawParameter) -> Result<Self, ChunkParseError>
        ensures other { IsErrOf result ChunkParseError.InvalidType ↔
            (raw.entry.typ ≢ PARAMETER_TYPE) }
        ensures answer { raw.entry.typ ≡ PARAMETER_TYPE →
            Exactly reading kind.view (λ a. kind.read raw.entry.value.now ≡ a) result }
        ensures memory { IsErrOf result ChunkParseError.OutOfMemory →
            IsOk (kind.read raw.entry.value.now) }
        ensures tight { IfOk result (λ x. vec_capacity x.streams ≡ vec_len x.streams) }
    {
        if raw.typ != PARAMETER_TYPE {
            return Err(ChunkParseError::InvalidType);
        }
        OutgoingSsnResetRequestParameter::check(raw.value)?;
        Ok(OutgoingSsnResetRequestParameter::build(alloc, raw.value)?)
    }

    /// Checks the value: `InvalidLength` if and only if it has fewer than 12 bytes or an odd number
    /// of them.
    pub(crate) fn check(value: &[u8]) -> Result<(), ChunkParseError>
        ensures { Exactly checking (λ u. u) (Tested (kind.read value.now)) result }
    {
        if value.len() < OutgoingSsnResetRequestNumbers::SIZE {
            return Err(ChunkParseError::InvalidLength);
        }
        if !value.len().is_multiple_of(2) {
            return Err(ChunkParseError::InvalidLength);
        }
        Ok(())
    }

    /// Builds the parameter that the value means.
    pub(crate) fn build(alloc: Global, value: &[u8]) -> Result<Self, AllocError>
        requires { IsOk (kind.read value.now) }
        ensures meant { IfOk result (λ x. kind.read value.now ≡ Ok (kind.view x)) }
        ensures tight { IfOk result (λ x. vec_capacity x.streams ≡ vec_len x.streams) }
    {
        let numbers = OutgoingSsnResetRequestNumbers::read(value);
        let rest = &value[OutgoingSsnResetRequestNumbers::SIZE..];
        let count = (value.len() - OutgoingSsnResetRequestNumbers::SIZE) / 2;
        let streams = fields_from_bytes::<StreamId>(alloc, rest, count)?;
        Ok(OutgoingSsnResetRequestParameter {
            request_seq_nbr: numbers.request_seq_nbr,
            response_seq_nbr: numbers.response_seq_nbr,
            sender_last_assigned_tsn: numbers.sender_last_assigned_tsn,
            streams,
        })
    }
}

impl SerializableTlv for OutgoingSsnResetRequestParameter {
    ghost format = { λ p. kind.format (kind.view p) };

    fn serialize_to(&self, output: &mut [u8]) {
        let numbers = OutgoingSsnResetRequestNumbers {
            request_seq_nbr: self.request_seq_nbr,
            response_seq_nbr: self.response_seq_nbr,
            sender_last_assigned_tsn: self.sender_last_assigned_tsn,
        };
        let leading = numbers.words();
        put_parameter_fields::<StreamId>(PARAMETER_TYPE, &leading, &self.streams, output);
    }

    fn encoded_size(&self) -> Option<usize> {
        fields_item_size(OutgoingSsnResetRequestNumbers::SIZE, 2, self.streams.len())
    }

    fn has_widths(&self) {
        let _request_seq_nbr = self.request_seq_nbr;
        let _response_seq_nbr = self.response_seq_nbr;
        self.sender_last_assigned_tsn.is_in_width();
        are_in_width(&self.streams);
    }
}

impl fmt::Display for OutgoingSsnResetRequestParameter {
    ghost output = { λ p. Some (kind.format (kind.view p)).text };

    fn fmt<W: fmt::Write>(&self, f: &mut fmt::Formatter<W>) -> fmt::Result {
        let request = self.request_seq_nbr;
        let response = self.response_seq_nbr;
        let tsn = self.sender_last_assigned_tsn;
        write!(
            f,
            "Incoming SSN Reset Request, req_seq_nbr={request}, resp_seq_nbr={response}, \
             slatsn={tsn}"
        )
    }
}
