//! The bits of a chunk's flags, of which a chunk has eight (RFC 9260 section 3.2).

ghost use Rattle.std.specs.Prelude.{◌≡◌, ◌<◌, [], ◌∷◌};
ghost use Rattle.dcsctp_chunk.specs.Flags as bits;

/// Returns whether a bit is set: the lowest is bit 0, and the highest bit 7.
#[tactic(auto, using(std::proofs::lemmas::Nat::Bits::shr_and_one))]
pub fn is_set(flags: u8, bit: u32) -> bool
    requires { bit < 8 }
    ensures { result ≡ bits.is_set flags bit }
{
    (flags >> bit) & 1 == 1
}

/// Returns the flags of which bit 0 alone has a meaning, as those of ABORT and SHUTDOWN COMPLETE.
pub fn one_flag(lowest: bool) -> u8
    ensures { result ≡ bits.flag_byte (lowest ∷ []) }
{
    lowest as u8
}

/// Returns the flags of which bits 0 to 3 have a meaning, as those of DATA and I-DATA; the lowest
/// first.
pub fn four_flags(bit_0: bool, bit_1: bool, bit_2: bool, bit_3: bool) -> u8
    ensures { result ≡ bits.flag_byte (bit_0 ∷ bit_1 ∷ bit_2 ∷ bit_3 ∷ []) }
{
    bit_0 as u8 | (bit_1 as u8) << 1 | (bit_2 as u8) << 2 | (bit_3 as u8) << 3
}
