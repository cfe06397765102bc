//! Numbers of two bytes in a row, in a packet's bytes.

ghost use Rattle.std.specs.{Prelude.{◌≡◌, ◌<◌, ◌≤◌, ◌*◌, ◌^◌, ℕ, List, Some, length, slice_get}, Int.{w16}, List.{AllByRecursion}};
ghost use Rattle.dcsctp_tlv.specs.{Fields.{fields}, Number.{number16, numbers}};

use dcsctp_tlv::number::read_u16_be;
use dcsctp_tlv::widths::are_bytes;
use std::marker::Model;

/// Bytes of a number.
const NUMBER_SIZE: usize = 2;

/// Numbers of two bytes each that stay where they lie in the packet: the stream ids of a request
/// (RFC 6525 sections 4.1 and 4.2), or types of parameters (RFC 9260 section 3.3.10.2).
///
/// A contract sees the list of the numbers.
#[derive(Clone, Debug, Drop)]
pub struct Numbers<'a> {
    count: usize,
    bytes: &'a [u8],
}

impl<'a> Model for Numbers<'a> {
    ghost Value = { List ℕ };

    ghost view = { λ n. fields number16 2 n.count n.bytes.now };

    ghost invariant = { λ n. 2 * n.count ≤ length n.bytes.now };
}

#[tactic(auto, using(crate::proofs::FieldLists::field_count))]
impl<'a> Numbers<'a> {
    /// Returns the first `count` numbers of the bytes, which have to be there.
    #[inline(always)]
    pub fn new(count: usize, bytes: &'a [u8]) -> Numbers<'a>
        requires { 2 * count ≤ length bytes.now }
        ensures { result ≡ fields number16 2 count bytes.now }
    {
        Numbers { count, bytes }
    }

    /// Returns how many numbers there are.
    #[inline(always)]
    pub fn count(&self) -> usize
        ensures { result ≡ length self.now }
    {
        self.count
    }

    /// Returns the number at this index, which has to be less than `count()`.
    #[inline(always)]
    pub fn number(&self, index: usize) -> u16
        requires { index < length self.now }
        ensures { slice_get self.now index ≡ Some result }
    {
        read_u16_be(&self.bytes[NUMBER_SIZE * index..])
    }

    /// Returns the bytes of the numbers, as they lie in the packet. Each number is below 2^16.
    #[inline(always)]
    pub fn bytes(&self) -> &'a [u8]
        ensures bytes { result.now ≡ numbers w16 self.now }
        ensures width { AllByRecursion (λ n. n < 2 ^ 16) self.now }
    {
        are_bytes(self.bytes);
        &self.bytes[..NUMBER_SIZE * self.count]
    }
}
