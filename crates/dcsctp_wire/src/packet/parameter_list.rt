//! What the chunks have in common whose value is a list of parameters, and nothing else.

ghost use Rattle.std.specs.Prelude.{◌≤◌, ◌+◌, ◌*◌, length, IfOk, IfErr};
ghost use Rattle.dcsctp_tlv.specs.Reading.{Answers, locating, RowAnswer, Counted};
ghost use Rattle.dcsctp_wire.specs.ParameterList.{row as parameter_list_row};

use dcsctp_tlv::error::LocatedFault;
use dcsctp_tlv::parameter::Parameter;
use dcsctp_tlv::reader::listed_check;

/// Counts the parts: the chunk and its parameters; or returns the first fault of these from the
/// left, with the offset from the chunk's first byte. Does not allocate.
pub(crate) fn parameter_list_check(value: &[u8], strict: bool) -> Result<usize, LocatedFault>
    ensures found { Answers locating (λ n. n)
        (Counted (λ ps. 1 + length ps) (RowAnswer (parameter_list_row strict) value.now)) result }
    ensures few { IfOk result (λ n. 4 * n ≤ 4 + length value.now) }
    ensures within { IfErr result (λ found. found.offset ≤ 4 + length value.now) }
{
    listed_check::<Parameter>(value, 0, strict)
}
