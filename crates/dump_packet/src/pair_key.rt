//! An endpoint pair shared key (RFC 4895 section 6.1).

ghost use Rattle.std.specs.Prelude.{◌≡◌, ◌≤◌, ◌<◌, length, take, IfSome, IfNone};
ghost use Rattle.dump_packet.specs.declared.pair_key.TheConstants.{MOST_KEY};

/// The most bytes of an endpoint pair shared key.
pub const MOST_KEY: usize = 128;

/// An endpoint pair shared key of up to 128 bytes, and the Shared Key Identifier that AUTH names it
/// by.
#[derive(Clone, Copy)]
pub struct PairKey {
    /// The Shared Key Identifier (RFC 4895 section 5.1): 0 of ends that have no key of their own,
    /// where the key is empty.
    pub identifier: u16,
    bytes: [u8; MOST_KEY],
    size: usize,
    ghost bounded: { size ≤ MOST_KEY },
}

impl PairKey {
    /// Returns a key; `None` if it is longer than 128 bytes.
    pub fn new(identifier: u16, key: &[u8]) -> Option<PairKey>
        ensures some { IfSome result (λ k. (k.identifier ≡ identifier)
            × (take k.size k.bytes ≡ key.now)) }
        ensures none { IfNone result (MOST_KEY < length key.now) }
    {
        if key.len() > MOST_KEY {
            return None;
        }
        let mut bytes = [0; MOST_KEY];
        bytes[..key.len()].copy_from_slice(key);
        Some(PairKey {
            identifier,
            bytes,
            size: key.len(),
        })
    }

    /// Returns the bytes of the key.
    pub fn as_bytes(&self) -> &[u8]
        ensures bounded { length result.now ≤ MOST_KEY }
        ensures bytes { result.now ≡ take self.now.size self.now.bytes }
    {
        &self.bytes[..self.size]
    }
}
