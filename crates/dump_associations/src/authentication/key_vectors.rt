//! The key vectors of an end (RFC 4895 section 6.1).

ghost use Rattle.std.specs.Prelude.{◌≡◌, option_map};
ghost use Rattle.dump_associations.specs.Authentication.{with_tag};

use crate::authentication::key_vector::KeyVector;
use dcsctp_borrowed::part::Part;

/// The key vectors of an end: those of the INITs and INIT ACKs that it sent, the last two of them
/// that differ, since an INIT that is sent again may be answered by another INIT ACK.
#[derive(Clone, Copy)]
pub struct KeyVectors {
    /// The last one.
    pub last: Option<KeyVector>,
    /// The one before it.
    pub before: Option<KeyVector>,
    /// Whether an INIT or an INIT ACK was seen whose key vector isn't kept: others followed, or it
    /// has none.
    pub has_others: bool,
}

impl KeyVectors {
    /// Returns those of an end that sent none.
    pub fn new() -> KeyVectors {
        KeyVectors {
            last: None,
            before: None,
            has_others: false,
        }
    }

    /// Notes the value of an INIT or an INIT ACK that the end sent.
    pub fn note_sent(&mut self, value: Part<'_>) {
        let Some(vector) = KeyVector::of(value) else {
            self.has_others = true;
            return;
        };
        if is_same(&self.last, &vector) || is_same(&self.before, &vector) {
            return;
        }
        self.has_others |= self.before.is_some();
        self.before = self.last;
        self.last = Some(vector);
    }

    /// Returns the last one with this Initiate Tag beside it.
    pub fn with_tag(&self, tag: u32) -> Option<&KeyVector>
        ensures { option_map (λ v. v.now) result ≡ with_tag tag self.now }
    {
        match (&self.last, &self.before) {
            (Some(last), _) if last.tag == tag => Some(last),
            (_, Some(before)) if before.tag == tag => Some(before),
            _ => None,
        }
    }
}

/// Returns whether this is a key vector with the same bytes, and the same tag beside it.
fn is_same(known: &Option<KeyVector>, vector: &KeyVector) -> bool {
    match known {
        Some(known) => known.tag == vector.tag && known.as_bytes() == vector.as_bytes(),
        None => false,
    }
}
