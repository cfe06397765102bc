//! The user data of fragments, until their messages are over.

ghost use Rattle.std.specs.Prelude.{◌≡◌, ℕ, All, Any, IfOk, OnOk, Some, None, option_map};
ghost use Rattle.dcsctp_tlv.specs.Number.{number32};
ghost use Rattle.dcsctp_borrowed.specs.Part.{item_of};
ghost use Rattle.dump_messages.specs.Payloads.{key_of, kept_of, joined, captured, Fits, KeepsOthers};

use crate::messages::fragment::{Fragment, Numbers};
use dcsctp_borrowed::part::Item;
use dump_packet::Side;
use std::alloc::{AllocError, Global};
use std::collections::HashMap;

/// How many bytes of user data of all ends are kept at a time.
const MOST_BYTES: usize = 16_777_216;

/// Returns a fragment's number.
fn key_of(association: u64, sender: Side, tsn: u32) -> u128
    ensures { result ≡ key_of association sender tsn }
{
    let first = u128::from(association) * 8_589_934_592 + u128::from(tsn);
    match sender {
        Side::First => first,
        Side::Second => first + 4_294_967_296,
    }
}

/// The user data of fragments that are followed, in bounded memory: what finds no room isn't kept.
#[derive(Drop)]
pub struct Payloads {
    alloc: Global,
    kept: HashMap<u128, Vec<u8>>,
    // how many bytes are kept
    size: usize,
}

impl Payloads {
    /// Returns those of no fragment.
    pub fn new(alloc: Global) -> Payloads {
        Payloads {
            alloc,
            kept: HashMap::new(alloc),
            size: 0,
        }
    }

    /// Keeps the user data of a DATA or an I-DATA, if all of it was captured and there is room.
    pub fn keep(
        &mut self,
        association: u64,
        sender: Side,
        chunk: Item<'_>,
    ) -> Result<(), AllocError>
        ensures kept { Fits self.old (item_of chunk.entry) → OnOk result (kept_of self.new association
            sender (number32 chunk.entry.value.bytes.now) ≡ Some (captured (item_of chunk.entry))) }
        ensures left { (Fits self.old (item_of chunk.entry) → ⊥) → self.new ≡ self.old }
        ensures others { KeepsOthers self.old self.new (λ k s t. (k ≡ association) × (s ≡ sender)
            × (t ≡ number32 chunk.entry.value.bytes.now)) }
    {
        let Some(numbers) = Numbers::of(chunk) else {
            return Ok(());
        };
        let payload = chunk.value.after(numbers.header);
        let size = self.size.saturating_add(payload.size);
        if !payload.is_whole() || size > MOST_BYTES {
            return Ok(());
        }
        self.put(association, sender, numbers.tsn, payload.bytes)?;
        self.size = size;
        Ok(())
    }

    /// Keeps the user data of the fragment with this TSN.
    fn put(
        &mut self,
        association: u64,
        sender: Side,
        tsn: u32,
        payload: &[u8],
    ) -> Result<(), AllocError>
        ensures kept { OnOk result (kept_of self.new association sender tsn ≡ Some payload.now) }
        ensures others { KeepsOthers self.old self.new (λ k s t. (k ≡ association) × (s ≡ sender)
            × (t ≡ tsn)) }
    {
        let mut bytes = Vec::new(self.alloc);
        bytes.extend_from_slice(payload)?;
        self.kept.insert(key_of(association, sender, tsn), bytes)?;
        Ok(())
    }

    /// Takes the user data of a message's fragments, which is joined in their order; `None` where
    /// that of one isn't kept.
    pub fn take(
        &mut self,
        association: u64,
        sender: Side,
        pieces: &[Fragment],
    ) -> Result<Option<Vec<u8>>, AllocError>
        ensures joined { IfOk result (λ bytes. option_map (λ v. v.items) bytes
            ≡ joined (kept_of self.old association sender) pieces.now) }
        ensures taken { All (λ f. kept_of self.new association sender f.tsn ≡ None) pieces.now }
        ensures others { KeepsOthers self.old self.new (λ k s t. (k ≡ association) × (s ≡ sender)
            × Any (λ f. f.tsn ≡ t) pieces.now) }
    {
        let joined = self.join(association, sender, pieces);
        for piece in pieces {
            self.leave(association, sender, piece.tsn);
        }
        joined
    }

    /// Returns the user data of fragments, which is joined in their order; `None` where that of one
    /// isn't kept.
    fn join(
        &self,
        association: u64,
        sender: Side,
        pieces: &[Fragment],
    ) -> Result<Option<Vec<u8>>, AllocError>
        ensures { IfOk result (λ bytes. option_map (λ v. v.items) bytes
            ≡ joined (kept_of self.now association sender) pieces.now) }
    {
        let mut joined = Vec::new(self.alloc);
        for piece in pieces {
            match self.kept.get(&key_of(association, sender, piece.tsn)) {
                Some(bytes) => joined.extend_from_slice(bytes.as_slice())?,
                None => return Ok(None),
            }
        }
        Ok(Some(joined))
    }

    /// Leaves the user data of the fragment with this TSN, if it is kept.
    fn leave(&mut self, association: u64, sender: Side, tsn: u32)
        ensures taken { kept_of self.new association sender tsn ≡ None }
        ensures gone { (t : ℕ) → kept_of self.old association sender t ≡ None
            → kept_of self.new association sender t ≡ None }
        ensures others { KeepsOthers self.old self.new (λ k s t. (k ≡ association) × (s ≡ sender)
            × (t ≡ tsn)) }
    {
        if let Some(bytes) = self.kept.remove(&key_of(association, sender, tsn)) {
            self.size = self.size.saturating_sub(bytes.len());
        }
    }
}
