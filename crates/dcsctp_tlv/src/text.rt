//! Printing lists.

ghost use Rattle.std.specs.{Prelude.{◌≡◌, ℕ, List, Some, map}, Fmt.{WritesOnOk}};
ghost use Rattle.dcsctp_tlv.specs.Text.{joined};

use std::fmt;

/// Prints the items one after the other, with a separator between each two.
pub fn write_joined<T: fmt::Display, W: fmt::Write>(
    list: &[T],
    separator: &str,
    f: &mut fmt::Formatter<W>,
) -> fmt::Result
    ensures { (text : T → List ℕ) → ((x : T) → T.output x ≡ Some (text x)) →
        WritesOnOk W.write_str_gives f.old result (joined separator.now (map text list.now)) f.new }
{
    for (i, item) in list.iter().enumerate() {
        if i > 0 {
            f.write_str(separator)?;
        }
        item.fmt(f)?;
    }
    Ok(())
}
