//! State Cookie: an INIT ACK carries it, and a COOKIE ECHO brings it back.
//!
//! ```txt
//!  0                   1                   2                   3
//!  0 1 2 3 4 5 6 7 8 9 0 1 2 3 4 5 6 7 8 9 0 1 2 3 4 5 6 7 8 9 0 1
//! +-+-+-+-+-+-+-+-+-+-+-+-+-+-+-+-+-+-+-+-+-+-+-+-+-+-+-+-+-+-+-+-+
//! |            type = 7           |             length            |
//! +-+-+-+-+-+-+-+-+-+-+-+-+-+-+-+-+-+-+-+-+-+-+-+-+-+-+-+-+-+-+-+-+
//! |                       cookie, any bytes                       |
//! +-+-+-+-+-+-+-+-+-+-+-+-+-+-+-+-+-+-+-+-+-+-+-+-+-+-+-+-+-+-+-+-+
//! ```

ghost use Rattle.std.specs.Prelude.{◌≡◌, ◌≢◌, ◌↔◌, Some, IsErrOf, IfOk, IsOk, Ok, vec_len, vec_capacity};
ghost use Rattle.dcsctp_tlv.specs.Reading.{Exactly, reading};
ghost use Rattle.dcsctp_tlv.specs.StateCookie as kind;

use crate::copy::copied;
use crate::error::ChunkParseError;
use crate::frame::{item_size, put_parameter};
use crate::parameter::raw_parameter::RawParameter;
use crate::tlv::SerializableTlv;
use crate::widths::are_bytes;
use std::alloc::{AllocError, Global};
use std::fmt;

/// The type of State Cookie.
pub const PARAMETER_TYPE: u16 = 7;

/// State Cookie (RFC 9260 section 3.3.3.1.1). Only the sender of the INIT ACK knows what it means.
#[derive(Debug, Drop)]
pub struct StateCookieParameter {
    /// Any bytes; COOKIE ECHO sends them back.
    pub cookie: Vec<u8>,
}

impl StateCookieParameter {
    /// Reads the parameter, and copies the cookie.
    ///
    /// `InvalidType` if and only if the type is another; `OutOfMemory` only where the cookie can't
    /// be copied.
    pub fn try_from(alloc: Global, raw: RawParameter) -> Result<Self, ChunkParseError>
        ensures other { IsErrOf result ChunkParseError.InvalidType ↔
            (raw.entry.typ ≢ PARAMETER_TYPE) }
        ensures answer { raw.entry.typ ≡ PARAMETER_TYPE →
            Exactly reading kind.view (λ a. kind.read raw.entry.value.now ≡ a) result }
        ensures memory { IsErrOf result ChunkParseError.OutOfMemory →
            IsOk (kind.read raw.entry.value.now) }
        ensures tight { IfOk result (λ x. vec_capacity x.cookie ≡ vec_len x.cookie) }
    {
        if raw.typ != PARAMETER_TYPE {
            return Err(ChunkParseError::InvalidType);
        }
        Ok(StateCookieParameter::build(alloc, raw.value)?)
    }

    /// Copies the value.
    pub(crate) fn build(alloc: Global, value: &[u8]) -> Result<Self, AllocError>
        ensures meant { IfOk result (λ x. kind.read value.now ≡ Ok (kind.view x)) }
        ensures tight { IfOk result (λ x. vec_capacity x.cookie ≡ vec_len x.cookie) }
    {
        Ok(StateCookieParameter {
            cookie: copied(alloc, value)?,
        })
    }
}

impl SerializableTlv for StateCookieParameter {
    ghost format = { λ p. kind.format (kind.view p) };

    fn serialize_to(&self, output: &mut [u8]) {
        put_parameter(PARAMETER_TYPE, &self.cookie, output);
    }

    fn encoded_size(&self) -> Option<usize> {
        item_size(self.cookie.len())
    }

    fn has_widths(&self) {
        are_bytes(&self.cookie);
    }
}

impl fmt::Display for StateCookieParameter {
    ghost output = { λ p. Some (kind.format (kind.view p)).text };

    fn fmt<W: fmt::Write>(&self, f: &mut fmt::Formatter<W>) -> fmt::Result {
        let size = self.cookie.len();
        write!(f, "State cookie, cookie_length={size}")
    }
}
