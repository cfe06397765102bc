//! Add Outgoing Streams Request: the sender asks to add streams on which it sends.
//!
//! ```txt
//!  0                   1                   2                   3
//!  0 1 2 3 4 5 6 7 8 9 0 1 2 3 4 5 6 7 8 9 0 1 2 3 4 5 6 7 8 9 0 1
//! +-+-+-+-+-+-+-+-+-+-+-+-+-+-+-+-+-+-+-+-+-+-+-+-+-+-+-+-+-+-+-+-+
//! |           type = 17           |          length = 12          |
//! +-+-+-+-+-+-+-+-+-+-+-+-+-+-+-+-+-+-+-+-+-+-+-+-+-+-+-+-+-+-+-+-+
//! |                    request sequence number                    |
//! +-+-+-+-+-+-+-+-+-+-+-+-+-+-+-+-+-+-+-+-+-+-+-+-+-+-+-+-+-+-+-+-+
//! |     number of new streams     |           reserved            |
//! +-+-+-+-+-+-+-+-+-+-+-+-+-+-+-+-+-+-+-+-+-+-+-+-+-+-+-+-+-+-+-+-+
//! ```

ghost use Rattle.std.specs.Prelude.{◌≡◌, ◌≢◌, ◌↔◌, Some, Ok, IsOk, IsErrOf};
ghost use Rattle.dcsctp_tlv.specs.Reading.{Exactly, reading, checking, Tested};
ghost use Rattle.dcsctp_tlv.specs.AddStreamsRequest as request;
ghost use Rattle.dcsctp_tlv.specs.AddOutgoingStreamsRequest as kind;

use crate::error::ChunkParseError;
use crate::frame::{item_size, put_parameter};
use crate::parameter::add_streams_request::AddStreamsNumbers;
use crate::parameter::raw_parameter::RawParameter;
use crate::tlv::SerializableTlv;
use std::fmt;

/// The type of Add Outgoing Streams Request.
pub const PARAMETER_TYPE: u16 = 17;

/// Add Outgoing Streams Request (RFC 6525 section 4.5).
#[derive(Debug, Drop)]
pub struct AddOutgoingStreamsRequestParameter {
    /// The number of this request.
    pub request_seq_nbr: u32,
    /// How many streams the sender asks to add on which it sends.
    pub nbr_new_streams: u16,
}

impl AddOutgoingStreamsRequestParameter {
    /// Reads the parameter; no memory is taken, and the reserved bytes are ignored.
    ///
    /// `InvalidType` if and only if the type is another; `InvalidLength` if and only if the value
    /// hasn't 8 bytes.
    pub fn try_from(raw: RawParameter) -> Result<Self, ChunkParseError>
        ensures other { IsErrOf result ChunkParseError.InvalidType ↔
            (raw.entry.typ ≢ PARAMETER_TYPE) }
        ensures answer { raw.entry.typ ≡ PARAMETER_TYPE →
            Exactly reading kind.view (λ a. request.read raw.entry.value.now ≡ a) result }
        ensures memory { ¬ IsErrOf result ChunkParseError.OutOfMemory }
    {
        if raw.typ != PARAMETER_TYPE {
            return Err(ChunkParseError::InvalidType);
        }
        AddOutgoingStreamsRequestParameter::check(raw.value)?;
        Ok(AddOutgoingStreamsRequestParameter::build(raw.value))
    }

    /// Checks the value: `InvalidLength` if and only if it hasn't 8 bytes.
    pub(crate) fn check(value: &[u8]) -> Result<(), ChunkParseError>
        ensures { Exactly checking (λ u. u) (Tested (request.read value.now)) result }
    {
        if value.len() != AddStreamsNumbers::SIZE {
            return Err(ChunkParseError::InvalidLength);
        }
        Ok(())
    }

    /// Builds the parameter that the value means.
    pub(crate) fn build(value: &[u8]) -> Self
        requires { IsOk (request.read value.now) }
        ensures { request.read value.now ≡ Ok (kind.view result) }
    {
        let numbers = AddStreamsNumbers::read(value);
        AddOutgoingStreamsRequestParameter {
            request_seq_nbr: numbers.request_seq_nbr,
            nbr_new_streams: numbers.nbr_new_streams,
        }
    }
}

impl SerializableTlv for AddOutgoingStreamsRequestParameter {
    ghost format = { λ p. kind.format (kind.view p) };

    fn serialize_to(&self, output: &mut [u8]) {
        let numbers = AddStreamsNumbers {
            request_seq_nbr: self.request_seq_nbr,
            nbr_new_streams: self.nbr_new_streams,
        };
        put_parameter(PARAMETER_TYPE, &numbers.bytes(), output);
    }

    fn encoded_size(&self) -> Option<usize> {
        item_size(AddStreamsNumbers::SIZE)
    }

    fn has_widths(&self) {
        let _request_seq_nbr = self.request_seq_nbr;
        let _nbr_new_streams = self.nbr_new_streams;
    }
}

impl fmt::Display for AddOutgoingStreamsRequestParameter {
    ghost output = { λ p. Some (kind.format (kind.view p)).text };

    fn fmt<W: fmt::Write>(&self, f: &mut fmt::Formatter<W>) -> fmt::Result {
        let request = self.request_seq_nbr;
        let streams = self.nbr_new_streams;
        write!(
            f,
            "Add Outgoing Streams Request, req_seq_nbr={request}, new_streams={streams}"
        )
    }
}
