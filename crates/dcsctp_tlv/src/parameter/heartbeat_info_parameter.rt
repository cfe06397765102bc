//! Heartbeat Info: what the sender of a HEARTBEAT wants to have back.
//!
//! ```txt
//!  0                   1                   2                   3
//!  0 1 2 3 4 5 6 7 8 9 0 1 2 3 4 5 6 7 8 9 0 1 2 3 4 5 6 7 8 9 0 1
//! +-+-+-+-+-+-+-+-+-+-+-+-+-+-+-+-+-+-+-+-+-+-+-+-+-+-+-+-+-+-+-+-+
//! |            type = 1           |             length            |
//! +-+-+-+-+-+-+-+-+-+-+-+-+-+-+-+-+-+-+-+-+-+-+-+-+-+-+-+-+-+-+-+-+
//! |                        info, any bytes                        |
//! +-+-+-+-+-+-+-+-+-+-+-+-+-+-+-+-+-+-+-+-+-+-+-+-+-+-+-+-+-+-+-+-+
//! ```

ghost use Rattle.std.specs.Prelude.{◌≡◌, ◌≢◌, ◌↔◌, Some, IsErrOf, IfOk, IsOk, Ok, vec_len, vec_capacity};
ghost use Rattle.dcsctp_tlv.specs.Reading.{Exactly, reading};
ghost use Rattle.dcsctp_tlv.specs.HeartbeatInfo as kind;

use crate::copy::copied;
use crate::error::ChunkParseError;
use crate::frame::{item_size, put_parameter};
use crate::parameter::raw_parameter::RawParameter;
use crate::tlv::SerializableTlv;
use crate::widths::are_bytes;
use std::alloc::{AllocError, Global};
use std::fmt;

/// The type of Heartbeat Info.
pub const PARAMETER_TYPE: u16 = 1;

/// Heartbeat Info (RFC 9260 section 3.3.5). Only the sender of the HEARTBEAT knows what it means.
#[derive(Debug, Drop)]
pub struct HeartbeatInfoParameter {
    /// Any bytes; HEARTBEAT ACK sends them back.
    pub info: Vec<u8>,
}

impl HeartbeatInfoParameter {
    /// Reads the parameter, and copies the info.
    ///
    /// `InvalidType` if and only if the type is another; `OutOfMemory` only where the info can't be
    /// copied.
    pub fn try_from(alloc: Global, raw: RawParameter) -> Result<Self, ChunkParseError>
        ensures other { IsErrOf result ChunkParseError.InvalidType ↔
            (raw.entry.typ ≢ PARAMETER_TYPE) }
        ensures answer { raw.entry.typ ≡ PARAMETER_TYPE →
            Exactly reading kind.view (λ a. kind.read raw.entry.value.now ≡ a) result }
        ensures memory { IsErrOf result ChunkParseError.OutOfMemory →
            IsOk (kind.read raw.entry.value.now) }
        ensures tight { IfOk result (λ x. vec_capacity x.info ≡ vec_len x.info) }
    {
        if raw.typ != PARAMETER_TYPE {
            return Err(ChunkParseError::InvalidType);
        }
        Ok(HeartbeatInfoParameter::build(alloc, raw.value)?)
    }

    /// Copies the value.
    pub(crate) fn build(alloc: Global, value: &[u8]) -> Result<Self, AllocError>
        ensures meant { IfOk result (λ x. kind.read value.now ≡ Ok (kind.view x)) }
        ensures tight { IfOk result (λ x. vec_capacity x.info ≡ vec_len x.info) }
    {
        Ok(HeartbeatInfoParameter {
            info: copied(alloc, value)?,
        })
    }
}

impl SerializableTlv for HeartbeatInfoParameter {
    ghost format = { λ p. kind.format (kind.view p) };

    fn serialize_to(&self, output: &mut [u8]) {
        put_parameter(PARAMETER_TYPE, &self.info, output);
    }

    fn encoded_size(&self) -> Option<usize> {
        item_size(self.info.len())
    }

    fn has_widths(&self) {
        are_bytes(&self.info);
    }
}

impl fmt::Display for HeartbeatInfoParameter {
    ghost output = { λ p. Some (kind.format (kind.view p)).text };

    fn fmt<W: fmt::Write>(&self, f: &mut fmt::Formatter<W>) -> fmt::Result {
        let size = self.info.len();
        write!(f, "Heartbeat Info parameter, info_length={size}")
    }
}
