//! The types of the cause Missing Mandatory Parameter, in a packet's bytes.

ghost use Rattle.std.specs.Prelude.{◌≡◌};
ghost use Rattle.dcsctp_cause.specs.Cause.{CauseTree, row};
ghost use Rattle.dcsctp_borrowed.specs.MissingParameters.{missing_of, read_missing};

use crate::numbers::Numbers;
use dcsctp_cause::missing_mandatory_parameter_error_cause::CAUSE_CODE;
use dcsctp_tlv::number::read_u32_be;
use dcsctp_tlv::parameter::RawParameter;

/// Bytes of the value before the types: how many there are.
const FIXED_SIZE: usize = 4;

/// Returns the types that a Missing Mandatory Parameter (RFC 9260 section 3.3.10.2) lists, without
/// a copy, in their order and with repeats; `None` if and only if the cause has another code, or a
/// value that isn't as long as its count says.
///
/// `RawCauses` gives the causes of ABORT and ERROR. Of a cause of a packet these are the types that
/// `SctpPacket::from_bytes` gives, and `None` if and only if the cause has another code.
#[inline(always)]
pub fn missing_parameters<'a>(raw: &RawParameter<'a>) -> Option<Numbers<'a>>
    ensures read { result ≡ read_missing raw.now.typ raw.now.value.now }
    ensures means { (tree : CauseTree) → (row raw.now.typ).means raw.now.value.now tree
        → result ≡ missing_of tree }
{
    missing_in(raw.typ, raw.value)
}

/// Returns what a value of this code means as missing parameters. Proves only the kind's reading.
#[inline(always)]
fn missing_in(code: u16, value: &[u8]) -> Option<Numbers>
    ensures { result ≡ read_missing code value.now }
{
    if code != CAUSE_CODE {
        return None;
    }
    if value.len() < FIXED_SIZE {
        return None;
    }
    let count = read_u32_be(value) as usize;
    if value.len() != FIXED_SIZE + 2 * count {
        return None;
    }
    Some(Numbers::new(count, &value[FIXED_SIZE..]))
}
