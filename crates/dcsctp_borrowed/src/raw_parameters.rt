//! The parameters of a chunk in its bytes, one after the other.

ghost use Rattle.std.specs.Prelude.{◌≡◌, ℕ, List, option_map};
ghost use Rattle.dcsctp_tlv.specs.{Frame.{lenient, BeginsWithFrame, frame_value, frame_rest}, Level.{MeansSome}, Number.{AreBytes, number16}, Parameter.{parameters}};
ghost use Rattle.dcsctp_wire.specs.Chunk.{ChunkTree};
ghost use Rattle.dcsctp_borrowed.specs.{Front.{GivesList, MeansList}, RawChunks.{RawMeans}, RawParameters.{parameter_bytes, parameters_of}};

use dcsctp_tlv::frame::frame_parts;
use dcsctp_tlv::number::read_u16_be;
use dcsctp_tlv::parameter::{RawParameter, parameters_check};
use dcsctp_wire::packet::chunk::RawChunk;
use dcsctp_wire::packet::init_chunk::InitNumbers;
use dcsctp_wire::packet::{
    heartbeat_ack_chunk, heartbeat_request_chunk, init_ack_chunk, init_chunk, re_config_chunk,
};
use std::marker::Model;

/// The parameters that are left of a chunk, each as its type and its value (RFC 9260 section
/// 3.2.1).
///
/// A contract sees the bytes of these parameters. They are known to mean parameters, so `next`
/// tests nothing and has no error, and `Parameter::try_from` of what it returns fails only where
/// an allocation fails.
#[derive(Clone, Debug, Drop)]
pub struct RawParameters<'a> {
    rest: &'a [u8],
}

impl<'a> Model for RawParameters<'a> {
    ghost Value = { List ℕ };

    ghost view = { λ p. p.rest.now };

    ghost invariant = { λ p. MeansSome (parameters lenient) p.rest.now × AreBytes p.rest.now };
}

impl<'a> RawParameters<'a> {
    // It checks the value, so that any chunk will do, and no caller has to prove that it was
    // checked.
    /// Returns the parameters of INIT, INIT ACK, HEARTBEAT, HEARTBEAT ACK (RFC 9260 sections 3.3.2,
    /// 3.3.3, 3.3.5 and 3.3.6) and RE-CONFIG (RFC 6525 section 3.1); `None` if and only if the
    /// chunk has another type, or a value that its type doesn't allow. Does not allocate.
    ///
    /// Of a chunk of a packet these are the parameters that `SctpPacket::from_bytes` gives, and
    /// `None` if and only if the chunk has another type.
    pub fn from_raw(raw: &RawChunk<'a>) -> Option<RawParameters<'a>>
        ensures read { GivesList (parameters lenient)
            (parameter_bytes raw.now.typ raw.now.value.now) result }
        ensures means { (tree : ChunkTree) → RawMeans raw.now tree
            → MeansList (parameters lenient) result (parameters_of tree) }
    {
        let rest = parameter_bytes(raw.typ, raw.value)?;
        match parameters_check(rest, false) {
            Ok(_) => Some(RawParameters::new(rest)),
            Err(_) => None,
        }
    }

    /// Returns the parameters that these bytes mean.
    pub(crate) fn new(rest: &'a [u8]) -> RawParameters<'a>
        requires { MeansSome (parameters lenient) rest.now }
        ensures { result ≡ rest.now }
    {
        RawParameters { rest }
    }
}

/// Returns the bytes in which a chunk of this type has its parameters.
#[inline(always)]
pub(crate) fn parameter_bytes(typ: u8, value: &[u8]) -> Option<&[u8]>
    ensures { option_map (λ bytes. bytes.now) result ≡ parameter_bytes typ value.now }
{
    match typ {
        init_chunk::CHUNK_TYPE | init_ack_chunk::CHUNK_TYPE => {
            if value.len() < InitNumbers::SIZE {
                return None;
            }
            Some(&value[InitNumbers::SIZE..])
        }
        heartbeat_request_chunk::CHUNK_TYPE
        | heartbeat_ack_chunk::CHUNK_TYPE
        | re_config_chunk::CHUNK_TYPE => Some(value),
        _ => None,
    }
}

/// Returns the parameter or error cause at the front of bytes that are known to begin with one, and
/// the bytes after it and its padding.
#[inline(always)]
pub(crate) fn front_parts(bytes: &[u8]) -> (RawParameter, &[u8])
    requires { BeginsWithFrame bytes.now }
    ensures typ { result.0.typ ≡ number16 bytes.now }
    ensures value { result.0.value.now ≡ frame_value bytes.now }
    ensures rest { result.1.now ≡ frame_rest bytes.now }
{
    let (value, rest) = frame_parts(bytes);
    let typ = read_u16_be(bytes);
    (RawParameter { typ, value }, rest)
}

impl<'a> Iterator for RawParameters<'a> {
    ghost use Rattle.std.specs.Iterator.{at_most};
    ghost use Rattle.std.specs.Prelude.{length};
    ghost use Rattle.dcsctp_tlv.specs.Parameter.{row};
    ghost use Rattle.dcsctp_borrowed.specs.Front.{GivesNextTyped};

    type Item = RawParameter<'a>;

    ghost next_gives = { GivesNextTyped (parameters lenient) row };

    ghost remaining = { λ bytes. at_most (length bytes) };

    /// Returns the next parameter, whose value is a part of the bytes; `None` once all were
    /// returned.
    #[inline(always)]
    fn next(&mut self) -> Option<RawParameter<'a>> {
        let bytes = self.rest;
        if bytes.is_empty() {
            return None;
        }
        let (raw, rest) = front_parts(bytes);
        self.rest = rest;
        Some(raw)
    }
}
