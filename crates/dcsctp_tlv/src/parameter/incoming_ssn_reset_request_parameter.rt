//! Incoming SSN Reset Request: the sender asks its peer to reset streams.
//!
//! ```txt
//!  0                   1                   2                   3
//!  0 1 2 3 4 5 6 7 8 9 0 1 2 3 4 5 6 7 8 9 0 1 2 3 4 5 6 7 8 9 0 1
//! +-+-+-+-+-+-+-+-+-+-+-+-+-+-+-+-+-+-+-+-+-+-+-+-+-+-+-+-+-+-+-+-+
//! |           type = 14           |    length = 8 + 2 * streams   |
//! +-+-+-+-+-+-+-+-+-+-+-+-+-+-+-+-+-+-+-+-+-+-+-+-+-+-+-+-+-+-+-+-+
//! |                    request sequence number                    |
//! +-+-+-+-+-+-+-+-+-+-+-+-+-+-+-+-+-+-+-+-+-+-+-+-+-+-+-+-+-+-+-+-+
//! |                   stream id, two bytes each                   |
//! +-+-+-+-+-+-+-+-+-+-+-+-+-+-+-+-+-+-+-+-+-+-+-+-+-+-+-+-+-+-+-+-+
//! ```

ghost use Rattle.std.specs.Prelude.{◌≡◌, ◌≢◌, ◌↔◌, Some, IsOk, IsErrOf, IfOk, Ok, vec_len, vec_capacity};
ghost use Rattle.dcsctp_tlv.specs.Reading.{Exactly, reading, checking, Tested};
ghost use Rattle.dcsctp_tlv.specs.IncomingSsnResetRequest as kind;

use crate::error::ChunkParseError;
use crate::fields::{fields_from_bytes, put_parameter_fields};
use crate::frame::fields_item_size;
use crate::parameter::raw_parameter::RawParameter;
use crate::parameter::request_numbers::RequestNumbers;
use crate::tlv::SerializableTlv;
use crate::widths::are_in_width;
use dcsctp_types::api::StreamId;
use std::alloc::{AllocError, Global};
use std::fmt;

/// The type of Incoming SSN Reset Request.
pub const PARAMETER_TYPE: u16 = 14;

/// Incoming SSN Reset Request (RFC 6525 section 4.2).
#[derive(Debug, Drop)]
pub struct IncomingSsnResetRequestParameter {
    /// The sequence number of this request.
    pub request_seq_nbr: u32,
    /// The streams to be reset; an empty list means all.
    pub streams: Vec<StreamId>,
}

impl IncomingSsnResetRequestParameter {
    /// Reads the parameter, and copies its stream ids.
    ///
    /// `InvalidType` if and only if the type is another; `InvalidLength` if and only if the value
    /// has fewer than 4 bytes or an odd number of them; `OutOfMemory` only where the ids can't be
    /// copied.
    pub fn try_from(alloc: Global, raw: RawParameter) -> Result<Self, ChunkParseError>
        ensures other { IsErrOf result ChunkParseError.InvalidType ↔
            (raw.entry.typ ≢ PARAMETER_TYPE) }
        ensures answer { raw.entry.typ ≡ PARAMETER_TYPE →
            Exactly reading kind.view (λ a. kind.read raw.entry.value.now ≡ a) result }
        ensures memory { IsErrOf result ChunkParseError.OutOfMemory →
            IsOk (kind.read raw.entry.value.now) }
        ensures tight { IfOk result (λ x. vec_capacity x.streams ≡ vec_len x.streams) }
    {
        if raw.typ != PARAMETER_TYPE {
            return Err(ChunkParseError::InvalidType);
        }
        IncomingSsnResetRequestParameter::check(raw.value)?;
        Ok(IncomingSsnResetRequestParameter::build(alloc, raw.value)?)
    }

    /// Checks the value: `InvalidLength` if and only if it has fewer than 4 bytes or an odd number
    /// of them.
    pub(crate) fn check(value: &[u8]) -> Result<(), ChunkParseError>
        ensures { Exactly checking (λ u. u) (Tested (kind.read value.now)) result }
    {
        if value.len() < RequestNumbers::SIZE {
            return Err(ChunkParseError::InvalidLength);
        }
        if !value.len().is_multiple_of(2) {
            return Err(ChunkParseError::InvalidLength);
        }
        Ok(())
    }

    /// Builds the parameter that the value means.
    pub(crate) fn build(alloc: Global, value: &[u8]) -> Result<Self, AllocError>
        requires { IsOk (kind.read value.now) }
        ensures meant { IfOk result (λ x. kind.read value.now ≡ Ok (kind.view x)) }
        ensures tight { IfOk result (λ x. vec_capacity x.streams ≡ vec_len x.streams) }
    {
        let count = (value.len() - RequestNumbers::SIZE) / 2;
        let streams = fields_from_bytes::<StreamId>(alloc, &value[RequestNumbers::SIZE..], count)?;
        Ok(IncomingSsnResetRequestParameter {
            request_seq_nbr: RequestNumbers::read(value).request_seq_nbr,
            streams,
        })
    }
}

impl SerializableTlv for IncomingSsnResetRequestParameter {
    ghost format = { λ p. kind.format (kind.view p) };

    fn serialize_to(&self, output: &mut [u8]) {
        let request_seq_nbr = self.request_seq_nbr;
        let words = RequestNumbers { request_seq_nbr }.words();
        put_parameter_fields::<StreamId>(PARAMETER_TYPE, &words, &self.streams, output);
    }

    fn encoded_size(&self) -> Option<usize> {
        fields_item_size(RequestNumbers::SIZE, 2, self.streams.len())
    }

    fn has_widths(&self) {
        let _number = self.request_seq_nbr;
        are_in_width(&self.streams);
    }
}

impl fmt::Display for IncomingSsnResetRequestParameter {
    ghost output = { λ p. Some (kind.format (kind.view p)).text };

    fn fmt<W: fmt::Write>(&self, f: &mut fmt::Formatter<W>) -> fmt::Result {
        let request = self.request_seq_nbr;
        write!(f, "Incoming SSN Reset Request, req_seq_nbr={request}")
    }
}
