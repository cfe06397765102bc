//! What can be written: chunks, parameters and error causes.

ghost use Rattle.std.specs.Prelude.{◌≡◌, ◌≤◌, ◌+◌, ◌↔◌, length, IsTrue};
ghost use Rattle.dcsctp_tlv.specs.{Format.{Format}, Image.{Tlv, size_of, image_of, IsEncodable, Sizes, written}};

use crate::frame::TLV_HEADER_SIZE;

/// A chunk, a parameter or an error cause that can be sized and written.
///
/// No call takes memory or is refused.
pub trait SerializableTlv {
    /// All that is said of it: how it is written, and how it is printed.
    ghost format: { Self → Format };

    /// Every field has a place in the wire format; false only of a skipped stream of the other
    /// variant.
    ghost placed: { Self → Type 0 } = { λ _. Unit {0} };

    /// Writes it at the front of `output`: header and value. The bytes between the items of a
    /// list in it, and those past it, stay as they were.
    fn serialize_to(&self, output: &mut [u8])
        requires placed { placed self.now }
        requires encodable { IsEncodable (format self.now).tlv }
        requires room { size_of (format self.now).tlv ≤ length output.old }
        ensures { output.new ≡ written (image_of (format self.now).tlv) output.old };

    /// Returns how many bytes its header and its value have, without padding after it; `None` if it
    /// can't be written: one of its fields has no place, or two bytes can't hold its size.
    fn encoded_size(&self) -> Option<usize>
        ensures { Sizes result (placed self.now × IsEncodable (format self.now).tlv)
            (size_of (format self.now).tlv) };

    /// Returns whether it can be written: each of its fields has a place, and two bytes can hold
    /// its size.
    fn encodable(&self) -> bool
        ensures { IsTrue result ↔ (placed self.now × IsEncodable (format self.now).tlv) }
    {
        self.encoded_size().is_some()
    }

    /// Returns how many bytes its header and its value have, without padding after it.
    fn serialized_size(&self) -> usize
        requires placed { placed self.now }
        requires encodable { IsEncodable (format self.now).tlv }
        ensures { result ≡ size_of (format self.now).tlv }
    {
        self.encoded_size().unwrap()
    }

    /// Returns how many bytes its value has.
    fn value_size(&self) -> usize
        requires placed { placed self.now }
        requires encodable { IsEncodable (format self.now).tlv }
        ensures { 4 + result ≡ size_of (format self.now).tlv }
    {
        self.serialized_size() - TLV_HEADER_SIZE
    }

    /// Proves that every number lies in its field's width, and every text is UTF-8, by their types.
    /// Does nothing.
    fn has_widths(&self)
        ensures { (format self.now).IsInWidth };
}

/// What a list in a chunk's value holds: parameters or error causes.
pub trait ListedTlv: SerializableTlv {
    /// What it means.
    ghost Tree: { Type 0 };

    ghost view: { Self → Tree };

    /// What it means, as it is written.
    ghost tree_tlv: { Tree → Tlv };

    ghost same_tlv: { (x : Self) → (Self.format x).tlv ≡ tree_tlv (view x) };

    /// Nothing but its size is asked of it.
    ghost all_placed: { (x : Self) → Self.placed x };
}
