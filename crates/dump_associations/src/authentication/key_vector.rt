//! A key vector (RFC 4895 section 6.1).

ghost use Rattle.std.specs.Prelude.{◌≡◌, ◌≤◌, length, take};
ghost use Rattle.dump_associations.specs.declared.authentication.key_vector.TheConstants.{MOST_VECTOR};

use crate::associations::initiation::initiate_tag;
use dcsctp_borrowed::part::Part;
use dcsctp_registry::parameter_layouts::{CHUNK_LIST, RANDOM, REQUESTED_HMAC_ALGORITHM};
use dcsctp_tlv::frame::{TLV_HEADER_SIZE, put_parameter};
use dcsctp_wire::packet::init_chunk::InitNumbers;

/// The most bytes of a key vector: those of RANDOM are 36 (RFC 4895 section 6.1) and of the longest
/// Chunk List 260 (section 3.2), so ten HMAC Identifiers have room.
pub const MOST_VECTOR: usize = 320;

/// A key vector: the RANDOM, the Chunk List and the Requested HMAC Algorithm parameter of an INIT
/// or an INIT ACK, without padding.
#[derive(Clone, Copy)]
pub struct KeyVector {
    /// The Initiate Tag beside them.
    pub tag: u32,
    bytes: [u8; MOST_VECTOR],
    size: usize,
    // where in it the types of the Chunk List begin and end
    list: (usize, usize),
    ghost bounded: { size ≤ MOST_VECTOR },
}

impl KeyVector {
    /// Returns the key vector of the value of an INIT or an INIT ACK; `None` where not all of it
    /// was captured, the parameters aren't there that an end sends which uses AUTH, or it is longer
    /// than 320 bytes.
    pub fn of(value: Part<'_>) -> Option<KeyVector> {
        let tag = initiate_tag(value)?;
        if !value.is_whole() {
            return None;
        }
        let parameters = value.after(InitNumbers::SIZE);
        let random = parameter(parameters, RANDOM)?;
        let algorithms = parameter(parameters, REQUESTED_HMAC_ALGORITHM)?;
        let mut vector = KeyVector {
            tag,
            bytes: [0; MOST_VECTOR],
            size: 0,
            list: (0, 0),
        };
        vector.add(RANDOM, random)?;
        if let Some(types) = parameter(parameters, CHUNK_LIST) {
            let header = vector.size.saturating_add(TLV_HEADER_SIZE);
            vector.add(CHUNK_LIST, types)?;
            vector.list = (header, vector.size);
        }
        vector.add(REQUESTED_HMAC_ALGORITHM, algorithms)?;
        Some(vector)
    }

    /// Adds a parameter; returns `None`, and changes nothing, if it has no room.
    fn add(&mut self, code: u16, value: &[u8]) -> Option<()> {
        let room = MOST_VECTOR - self.size;
        if room < TLV_HEADER_SIZE || room - TLV_HEADER_SIZE < value.len() {
            return None;
        }
        put_parameter(code, value, &mut self.bytes[self.size..]);
        self.size += TLV_HEADER_SIZE + value.len();
        Some(())
    }

    /// Returns its bytes.
    pub fn as_bytes(&self) -> &[u8]
        ensures bounded { length result.now ≤ MOST_VECTOR }
        ensures bytes { result.now ≡ take self.now.size self.now.bytes }
    {
        &self.bytes[..self.size]
    }

    /// Returns the chunk types of the Chunk List: none where none was sent.
    pub fn chunk_list(&self) -> &[u8] {
        self.bytes.get(self.list.0..self.list.1).unwrap_or(&[])
    }
}

/// Returns the value of the first parameter of this type.
fn parameter<'a>(parameters: Part<'a>, code: u16) -> Option<&'a [u8]> {
    for parameter in parameters.items() {
        if parameter.code() == code {
            return Some(parameter.value.bytes);
        }
    }
    None
}
