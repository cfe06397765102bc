//! How the value of a type is laid out.

ghost use Rattle.std.specs.{Prelude.{◌≡◌, ◌≤◌, ◌+◌, length, option_map}, Option.{option_copied}};
ghost use Rattle.dcsctp_tlv.specs.Image.{put};
ghost use Rattle.dcsctp_registry.specs.Layout.{address_allows, count_at, rest_allows, has_room, front_size, header_size, begins_with, octets_at, split_address, rest_in, header_of, address_bytes};

use crate::items::are_items;
use dcsctp_tlv::frame::{TLV_HEADER_SIZE, put_bytes};
use dcsctp_tlv::number::read_u16_be;

/// How an address lies in a value.
#[derive(Clone, Copy, Debug)]
pub enum AddressForm {
    /// There is none.
    Nothing,
    /// The four octets of one of IPv4.
    Ipv4,
    /// The sixteen octets of one of IPv6.
    Ipv6,
    /// An address parameter, IPv4 Address or IPv6 Address, with its header.
    Parameter,
}

/// What ends a value.
#[derive(Clone, Copy, Debug)]
pub enum Rest {
    /// Nothing more.
    Nothing,
    /// Any bytes.
    Bytes,
    /// Numbers of two bytes each.
    ShortNumbers,
    /// Parameters or error causes.
    Items,
    /// Three lists one after the other, of four bytes each, whose counts are the value's numbers of
    /// two bytes.
    Lists,
}

/// How the value of a type is laid out: numbers of four bytes each, numbers of two, reserved bytes,
/// an address, and the rest. No type has more than two numbers of four bytes, three of two and two
/// reserved bytes.
#[derive(Clone, Copy, Debug)]
pub struct Layout {
    /// How many numbers of four bytes.
    pub numbers: u8,
    /// How many numbers of two bytes.
    pub short_numbers: u8,
    /// How many bytes after them that are written as zeros, and not looked at.
    pub reserved: u8,
    /// The address.
    pub address: AddressForm,
    /// The rest.
    pub rest: Rest,
}

impl Layout {
    /// Returns whether it has no more before the address than any type has.
    #[inline(always)]
    pub(crate) fn has_room(&self) -> bool
        ensures { result ≡ has_room self.now }
    {
        self.numbers <= 2 && self.short_numbers <= 3 && self.reserved <= 2
    }

    /// Returns how many bytes come before the address and the rest.
    #[inline(always)]
    pub fn front_size(&self) -> usize
        ensures size { result ≡ front_size self.now }
        ensures small { result ≤ 2000 }
    {
        4 * usize::from(self.numbers)
            + 2 * usize::from(self.short_numbers)
            + usize::from(self.reserved)
    }
}

impl AddressForm {
    /// Returns how many bytes come before the octets.
    #[inline(always)]
    pub fn header_size(self) -> usize
        ensures size { result ≡ header_size self }
        ensures small { result ≤ 4 }
    {
        match self {
            AddressForm::Nothing | AddressForm::Ipv4 | AddressForm::Ipv6 => 0,
            AddressForm::Parameter => TLV_HEADER_SIZE,
        }
    }

    /// Returns whether an address is as this says.
    #[inline(always)]
    pub(crate) fn allows(self, address: Option<&[u8]>) -> bool
        ensures { result ≡ address_allows self (option_copied address.entry) }
    {
        match address {
            None => matches!(self, AddressForm::Nothing),
            Some(octets) => match self {
                AddressForm::Nothing => false,
                AddressForm::Ipv4 => octets.len() == 4,
                AddressForm::Ipv6 => octets.len() == 16,
                AddressForm::Parameter => octets.len() == 4 || octets.len() == 16,
            },
        }
    }

    /// Returns the octets of the address at the front of bytes, and the bytes after it; `None` if
    /// and only if it isn't there as this says.
    #[inline(always)]
    pub(crate) fn split<'a>(self, bytes: &'a [u8]) -> Option<(Option<&'a [u8]>, &'a [u8])>
        ensures { option_map (λ parts. (option_copied parts.0, parts.1.now)) result
            ≡ split_address self bytes.now }
    {
        match self {
            AddressForm::Nothing => Some((None, bytes)),
            AddressForm::Ipv4 => octets_at(bytes, 0, 4),
            AddressForm::Ipv6 => octets_at(bytes, 0, 16),
            AddressForm::Parameter if begins_with(bytes, 5, 8) => octets_at(bytes, 4, 4),
            AddressForm::Parameter if begins_with(bytes, 6, 20) => octets_at(bytes, 4, 16),
            AddressForm::Parameter => None,
        }
    }

    /// Writes an address at a place; all other bytes stay. Returns the place after it.
    #[inline(always)]
    pub(crate) fn put(self, address: Option<&[u8]>, output: &mut [u8], place: usize) -> usize
        requires { place + length (address_bytes self (option_copied address))
            ≤ length output.old }
        ensures written { output.new ≡ put output.old place
            (address_bytes self (option_copied address.entry)) }
        ensures end { result ≡ place + length (address_bytes self (option_copied address.entry)) }
    {
        let Some(octets) = address else {
            return place;
        };
        let header = self.header(octets);
        put_bytes(output, place, header);
        let octets_place = place + header.len();
        put_bytes(output, octets_place, octets);
        octets_place + octets.len()
    }

    /// Returns the bytes before the octets.
    #[inline(always)]
    fn header(self, octets: &[u8]) -> &'static [u8]
        ensures { result.now ≡ header_of self octets.now }
    {
        match self {
            AddressForm::Nothing | AddressForm::Ipv4 | AddressForm::Ipv6 => &[],
            AddressForm::Parameter if octets.len() == 4 => &[0, 5, 0, 8],
            AddressForm::Parameter => &[0, 6, 0, 20],
        }
    }
}

/// Returns so many octets after a header, and the bytes after them; `None` if and only if there are
/// fewer.
#[inline(always)]
fn octets_at<'a>(
    bytes: &'a [u8],
    header: usize,
    count: usize,
) -> Option<(Option<&'a [u8]>, &'a [u8])>
    requires { header + count ≤ 20 }
    ensures { option_map (λ parts. (option_copied parts.0, parts.1.now)) result
        ≡ octets_at header count bytes.now }
{
    let end = header + count;
    if bytes.len() < end {
        return None;
    }
    Some((Some(&bytes[header..end]), &bytes[end..]))
}

/// Returns whether bytes begin with the header of a parameter of this type and this length.
#[inline(always)]
fn begins_with(bytes: &[u8], typ: u16, length: usize) -> bool
    ensures { result ≡ begins_with typ length bytes.now }
{
    bytes.len() >= TLV_HEADER_SIZE
        && read_u16_be(bytes) == typ
        && usize::from(read_u16_be(&bytes[2..])) == length
}

impl Rest {
    /// Returns whether the rest is as this says; the counts are the value's numbers of two bytes.
    #[inline(always)]
    pub(crate) fn allows(self, counts: &[u16], rest: Option<&[u8]>) -> bool
        ensures { result ≡ rest_allows self counts.now (option_copied rest.entry) }
    {
        match rest {
            None => matches!(self, Rest::Nothing),
            Some(bytes) => match self {
                Rest::Nothing => false,
                Rest::Bytes => true,
                Rest::ShortNumbers => bytes.len() == 2 * (bytes.len() / 2),
                Rest::Items => are_items(bytes),
                Rest::Lists => {
                    let entries = count_at(counts, 0) + count_at(counts, 1) + count_at(counts, 2);
                    bytes.len() == 4 * entries
                }
            },
        }
    }

    /// Returns the rest, of the bytes that are left: none where there is to be none, and none are
    /// left.
    #[inline(always)]
    pub(crate) fn of<'a>(self, bytes: &'a [u8]) -> Option<&'a [u8]>
        ensures { option_copied result ≡ rest_in self bytes.now }
    {
        if matches!(self, Rest::Nothing) && bytes.is_empty() {
            None
        } else {
            Some(bytes)
        }
    }
}

/// Returns the number at an index; 0 where there are fewer.
#[inline(always)]
fn count_at(counts: &[u16], index: usize) -> usize
    ensures count { result ≡ count_at counts.now index }
    ensures small { result ≤ 65535 }
{
    match counts.get(index) {
        Some(count) => usize::from(*count),
        None => 0,
    }
}
