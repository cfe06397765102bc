//! Laws of widths: each number lies in its field's width, by its type. They do nothing.

ghost use Rattle.std.specs.{Prelude.{◌<◌, ◌^◌, ℕ, map, IfSome}, List.{AllByRecursion}};
ghost use Rattle.dcsctp_tlv.specs.{Number.{AreBytes}, ReconfigurationResponse.{tsn_number}};

use dcsctp_types::api::StreamId;
use dcsctp_types::types::Tsn;

/// An item of a list.
pub trait Widths {
    /// What it means.
    ghost Tree: { Type 0 };

    ghost view: { Self → Tree };

    /// Its numbers lie in their fields' widths.
    ghost fits: { Tree → Type 0 };

    /// Proves that its numbers lie in their fields' widths.
    fn is_in_width(&self)
        ensures { fits (view self.now) };
}

/// Proves that the numbers of each item of a list lie in their fields' widths.
pub fn are_in_width<T: Widths>(items: &[T])
    ensures { AllByRecursion T.fits (map T.view items.now) }
{
    for item in items {
        item.is_in_width();
    }
}

/// Proves that each byte is below 256.
pub fn are_bytes(bytes: &[u8])
    ensures { AreBytes bytes.now }
{}

/// Proves that numbers of two bytes are below 2^16.
pub fn are_numbers(numbers: &[u16])
    ensures { AllByRecursion (λ n. n < 2 ^ 16) numbers.now }
{
    for number in numbers {
        let _number = *number;
    }
}

/// Proves that a TSN, if there is one, is below 2^32.
pub(crate) fn tsn_is_in_width(tsn: Option<Tsn>)
    ensures { IfSome (tsn_number tsn) (λ n. n < 2 ^ 32) }
{
    if let Some(tsn) = tsn {
        let _number = tsn.0;
    }
}

impl Widths for Tsn {
    ghost Tree = { ℕ };

    ghost view = { λ tsn. tsn.0 };

    ghost fits = { λ n. n < 2 ^ 32 };

    fn is_in_width(&self) {
        let _number = self.0;
    }
}

impl Widths for StreamId {
    ghost Tree = { ℕ };

    ghost view = { λ id. id.0 };

    ghost fits = { λ n. n < 2 ^ 16 };

    fn is_in_width(&self) {
        let _number = self.0;
    }
}
