//! What a value holds whose type has no kind of its own.

ghost use Rattle.std.specs.{List.{AllByRecursion}, Prelude.{◌≡◌, ◌≤◌, ◌<◌, ◌^◌, ◌+◌, ◌*◌, Some, IsTrue, [], length, take, drop, replicate, slice_get}, Option.{option_copied, unwrap_or}};
ghost use Rattle.dcsctp_tlv.specs.{Fields.{fields}, Image.{put}, Number.{number16, number32}};
ghost use Rattle.dcsctp_registry.specs.Layout.{Registered as Tree, with_numbers, laid_out, has_room, front_size, read, address_bytes, front_bytes, value_of};

use crate::layout::Layout;
use crate::value_bytes::{FRONT_SIZE, ValueBytes};
use dcsctp_tlv::fields::put_fields;
use dcsctp_tlv::frame::put_bytes;
use dcsctp_tlv::number::{read_u16_be, read_u32_be};
use dcsctp_tlv::widths::are_numbers;
use std::marker::Model;

/// What a value holds, as its type's layout says: numbers, an address by its octets, and the rest.
/// It was read, or can be written.
#[derive(Clone, Debug, Drop)]
pub struct Registered<'a> {
    layout: Layout,
    numbers: [u32; 2],
    short_numbers: [u16; 3],
    address: Option<&'a [u8]>,
    rest: Option<&'a [u8]>,
}

impl<'a> Model for Registered<'a> {
    ghost use Rattle.std.specs.{Prelude.{IsTrue}, Option.{option_copied}};
    ghost use Rattle.dcsctp_registry.specs.Layout.{Registered as Tree, is_laid_out, with_numbers};

    ghost Value = { Tree };

    ghost view = { λ r. with_numbers r.layout r.numbers r.short_numbers
        (option_copied r.address) (option_copied r.rest) };

    ghost invariant = { λ r. IsTrue (is_laid_out (with_numbers r.layout r.numbers r.short_numbers
        (option_copied r.address) (option_copied r.rest))) };
}

impl<'a> Registered<'a> {
    /// Returns a value that holds this: the first of these numbers, as many as the layout has, an
    /// address by its octets, and the rest. `None` if and only if it isn't as the layout says.
    #[inline(always)]
    pub fn new(
        layout: Layout,
        numbers: [u32; 2],
        short_numbers: [u16; 3],
        address: Option<&'a [u8]>,
        rest: Option<&'a [u8]>,
    ) -> Option<Registered<'a>>
        ensures { result ≡ laid_out (with_numbers layout numbers short_numbers
            (option_copied address.entry) (option_copied rest.entry)) }
    {
        if !layout.has_room() || !layout.address.allows(address) {
            return None;
        }
        if !layout
            .rest
            .allows(&short_numbers[..usize::from(layout.short_numbers)], rest)
        {
            return None;
        }
        Some(Registered {
            layout,
            numbers,
            short_numbers,
            address,
            rest,
        })
    }

    /// Reads what a value holds, without a copy; reserved bytes are ignored. `None` if and only if
    /// it isn't laid out so.
    #[inline(always)]
    pub fn read(layout: Layout, value: &'a [u8]) -> Option<Registered<'a>>
        ensures { result ≡ read layout value.now }
    {
        let size = layout.front_size();
        if !layout.has_room() || value.len() < size {
            return None;
        }
        let (address, bytes) = layout.address.split(&value[size..])?;
        Registered::new(
            layout,
            numbers_at(layout, value),
            short_numbers_at(layout, value),
            address,
            layout.rest.of(bytes),
        )
    }

    /// Returns how the value is laid out.
    #[inline(always)]
    pub fn layout(&self) -> Layout
        ensures { result ≡ self.now.layout }
    {
        self.layout
    }

    /// Returns the number of four bytes at this index; `None` if and only if the type has fewer.
    #[inline(always)]
    pub fn number(&self, index: usize) -> Option<u32>
        ensures { result ≡ slice_get self.now.numbers index }
    {
        self.numbers().get(index).copied()
    }

    /// Returns the number of two bytes at this index; `None` if and only if the type has fewer.
    #[inline(always)]
    pub fn short_number(&self, index: usize) -> Option<u16>
        ensures { result ≡ slice_get self.now.short_numbers index }
    {
        self.short_numbers().get(index).copied()
    }

    /// Returns the octets of the address, 4 or 16; `None` if and only if the type has none.
    #[inline(always)]
    pub fn address(&self) -> Option<&'a [u8]>
        ensures { option_copied result ≡ self.now.address }
    {
        self.address
    }

    /// Returns the bytes that end the value; `None` if and only if the type has none there.
    #[inline(always)]
    pub fn rest(&self) -> Option<&'a [u8]>
        ensures { option_copied result ≡ self.now.rest }
    {
        self.rest
    }

    /// Returns the numbers of four bytes.
    #[inline(always)]
    fn numbers(&self) -> &[u32]
        ensures { result.now ≡ self.now.numbers }
    {
        &self.numbers[..usize::from(self.layout.numbers)]
    }

    /// Returns the numbers of two bytes.
    #[inline(always)]
    fn short_numbers(&self) -> &[u16]
        ensures { result.now ≡ self.now.short_numbers }
    {
        &self.short_numbers[..usize::from(self.layout.short_numbers)]
    }

    /// Writes the numbers and the reserved bytes at the front; all other bytes stay.
    #[inline(always)]
    #[tactic(auto, using(crate::proofs::ReadBack::front_length))]
    fn put_front(&self, output: &mut [u8])
        requires { length (front_bytes self.now) ≤ length output.old }
        ensures { output.new ≡ put output.old 0 (front_bytes self.now) }
    {
        let (numbers, short_numbers) = (self.numbers(), self.short_numbers());
        put_fields::<u32>(output, 0, numbers);
        let place = 4 * numbers.len();
        put_fields::<u16>(output, place, short_numbers);
        let place = place + 2 * short_numbers.len();
        put_bytes(output, place, &[0; 2][..usize::from(self.layout.reserved)]);
    }

    /// Returns the bytes of the value, to be written; reserved bytes are zero.
    #[inline(always)]
    pub fn to_bytes(&self) -> ValueBytes<'a>
        ensures { result ≡ value_of self.now }
    {
        let mut front = [0; FRONT_SIZE];
        let place = self.layout.front_size();
        self.put_front(&mut front);
        let front_size = self.layout.address.put(self.address, &mut front, place);
        let rest = self.rest.unwrap_or(&[]);
        ValueBytes {
            front,
            front_size,
            rest,
        }
    }

    /// Proves that what is written reads as the same, by the same layout.
    #[inline(always)]
    pub fn reads_back(&self)
        ensures { read self.now.layout (value_of self.now) ≡ Some self.now }
    {
        let _layout = self.layout;
        are_words(self.numbers());
        are_numbers(self.short_numbers());
    }
}

/// Reads the numbers of four bytes at the front of a value.
#[inline(always)]
fn numbers_at(layout: Layout, value: &[u8]) -> [u32; 2]
    requires room { IsTrue (has_room layout) }
    requires long { front_size layout ≤ length value.now }
    ensures { take layout.numbers result ≡ fields number32 4 layout.numbers value.now }
{
    match layout.numbers {
        0 => [0, 0],
        1 => [read_u32_be(value), 0],
        _ => [read_u32_be(value), read_u32_be(&value[4..])],
    }
}

/// Reads the numbers of two bytes after them.
#[inline(always)]
fn short_numbers_at(layout: Layout, value: &[u8]) -> [u16; 3]
    requires room { IsTrue (has_room layout) }
    requires long { front_size layout ≤ length value.now }
    ensures { take layout.short_numbers result
        ≡ fields number16 2 layout.short_numbers (drop (4 * layout.numbers) value.now) }
{
    let bytes = &value[4 * usize::from(layout.numbers)..];
    match layout.short_numbers {
        0 => [0, 0, 0],
        1 => [read_u16_be(bytes), 0, 0],
        2 => [read_u16_be(bytes), read_u16_be(&bytes[2..]), 0],
        _ => [
            read_u16_be(bytes),
            read_u16_be(&bytes[2..]),
            read_u16_be(&bytes[4..]),
        ],
    }
}

/// Proves that numbers of four bytes are below 2^32.
#[inline(always)]
fn are_words(numbers: &[u32])
    ensures { AllByRecursion (λ n. n < 2 ^ 32) numbers.now }
{}
