//! The rules that a packet breaks: those of `dcsctp_receive`, as a set of bits.

ghost use Rattle.std.specs.Prelude.{◌≡◌};
ghost use Rattle.dcsctp_borrowed.specs.Grammar.{whole};
ghost use Rattle.dcsctp_crc32c.specs.Checksum.{packet_word};
ghost use Rattle.dcsctp_receive.specs.Rule.{AreBroken};
ghost use Rattle.dcsctp_c.specs.Rules.{known_of};

use crate::structs::DcsctpKnown;
use dcsctp_crc32c::packet_word;
use dcsctp_receive::rule::{BrokenRules, Known};

/// Returns the rules that a packet breaks: the bit i, counted from the lowest, is set if and only
/// if it breaks the i-th rule of `Rule::ALL`. Its common header and its chunks are looked at, up to
/// the first whose length is impossible: what can't be read breaks no rule. Does not allocate.
#[unsafe(no_mangle)]
pub extern "C" fn dcsctp_broken_rules(packet: &[u8], known: &DcsctpKnown) -> u32
    ensures { AreBroken (whole packet.now) (packet_word packet.now) (known_of known.now) result }
{
    BrokenRules::of(packet, packet.len(), packet_word(packet), known_of(known)).bits
}

/// Returns what the struct says of an association.
fn known_of(known: &DcsctpKnown) -> Known
    ensures { result ≡ known_of known.now }
{
    Known {
        accepts_zero: if known.refuses_zero {
            Some(false)
        } else {
            None
        },
        has_data: known.has_data,
        has_idata: known.has_i_data,
    }
}
