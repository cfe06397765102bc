//! Equality of MACs.

ghost use Rattle.std.specs.Prelude.{◌≡◌, ◌↔◌, IsTrue};

/// Returns whether both are the same bytes. It goes over all of them, whichever differ, so that
/// its time doesn't tell where; nothing about time is proved.
pub(crate) fn are_equal(one: &[u8], other: &[u8]) -> bool
    ensures { IsTrue result ↔ (one.now ≡ other.now) }
{
    if one.len() != other.len() {
        return false;
    }
    let mut difference = 0;
    for i in 0..one.len() {
        difference |= one[i] ^ other[i];
    }
    difference == 0
}
