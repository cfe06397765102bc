//! Numbers of two bytes each.

ghost use Rattle.std.specs.Prelude.{◌≡◌};
ghost use Rattle.dcsctp_registry.specs.ShortNumbers.{short_numbers_of};

use dcsctp_borrowed::numbers::Numbers;

/// Reads a value of numbers of two bytes each: types of addresses (RFC 9260 section 3.3.2.1.5),
/// identifiers of HMACs (RFC 4895 section 3.3). `None` if and only if its size is odd.
pub fn short_numbers(value: &[u8]) -> Option<Numbers>
    ensures { result ≡ short_numbers_of value.now }
{
    if !value.len().is_multiple_of(2) {
        return None;
    }
    Some(Numbers::new(value.len() / 2, value))
}
