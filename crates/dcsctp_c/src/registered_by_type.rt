//! What is made of the layout of a type that has no kind. Each layout is a constant where it is used,
//! so that what is made of it is compiled for it alone. registry/make.py writes this file:
//! registry/sctp.txt is edited in its place.

ghost use Rattle.std.specs.{Prelude.{◌≡◌}, Option.{option_and_then}};
ghost use Rattle.dcsctp_registry.specs.{CauseLayouts.{cause_rows}, ChunkLayouts.{chunk_rows}, ParameterLayouts.{parameter_rows}, Registered.{layout_in}};

use crate::registered::ByLayout;
use dcsctp_registry::layout::{AddressForm, Layout, Rest};

/// Returns what is made of the layout of a chunk of this type.
#[tactic(auto, unfolding(dcsctp_registry::specs::ChunkLayouts::chunk_rows))]
pub(crate) fn chunk_by_type<M: ByLayout>(typ: u8, maker: &M) -> Option<M::Made>
    ensures { result ≡ option_and_then (M.made maker.now) (layout_in chunk_rows typ) }
{
    match typ {
        12 => maker.by(layout(1, 0, 0, AddressForm::Nothing, Rest::Nothing)),
        13 => maker.by(layout(1, 0, 0, AddressForm::Nothing, Rest::Nothing)),
        15 => maker.by(layout(0, 2, 0, AddressForm::Nothing, Rest::Bytes)),
        16 => maker.by(layout(2, 3, 2, AddressForm::Nothing, Rest::Lists)),
        128 => maker.by(layout(1, 0, 0, AddressForm::Nothing, Rest::Items)),
        129 => maker.by(layout(2, 1, 2, AddressForm::Nothing, Rest::Bytes)),
        132 => maker.by(layout(0, 0, 0, AddressForm::Nothing, Rest::Bytes)),
        193 => maker.by(layout(1, 0, 0, AddressForm::Parameter, Rest::Items)),
        _ => None,
    }
}

/// Returns what is made of the layout of a parameter of this type.
#[tactic(auto, unfolding(dcsctp_registry::specs::ParameterLayouts::parameter_rows))]
pub(crate) fn parameter_by_type<M: ByLayout>(typ: u16, maker: &M) -> Option<M::Made>
    ensures { result ≡ option_and_then (M.made maker.now) (layout_in parameter_rows typ) }
{
    match typ {
        5 => maker.by(layout(0, 0, 0, AddressForm::Ipv4, Rest::Nothing)),
        6 => maker.by(layout(0, 0, 0, AddressForm::Ipv6, Rest::Nothing)),
        8 => maker.by(layout(0, 0, 0, AddressForm::Nothing, Rest::Items)),
        9 => maker.by(layout(1, 0, 0, AddressForm::Nothing, Rest::Nothing)),
        11 => maker.by(layout(0, 0, 0, AddressForm::Nothing, Rest::Bytes)),
        12 => maker.by(layout(0, 0, 0, AddressForm::Nothing, Rest::ShortNumbers)),
        0x8000 => maker.by(layout(0, 0, 0, AddressForm::Nothing, Rest::Nothing)),
        0x8002 => maker.by(layout(0, 0, 0, AddressForm::Nothing, Rest::Bytes)),
        0x8003 => maker.by(layout(0, 0, 0, AddressForm::Nothing, Rest::Bytes)),
        0x8004 => maker.by(layout(0, 0, 0, AddressForm::Nothing, Rest::ShortNumbers)),
        0x8005 => maker.by(layout(0, 0, 0, AddressForm::Nothing, Rest::Bytes)),
        0xc001 => maker.by(layout(1, 0, 0, AddressForm::Parameter, Rest::Nothing)),
        0xc002 => maker.by(layout(1, 0, 0, AddressForm::Parameter, Rest::Nothing)),
        0xc003 => maker.by(layout(1, 0, 0, AddressForm::Nothing, Rest::Items)),
        0xc004 => maker.by(layout(1, 0, 0, AddressForm::Parameter, Rest::Nothing)),
        0xc005 => maker.by(layout(1, 0, 0, AddressForm::Nothing, Rest::Nothing)),
        0xc006 => maker.by(layout(1, 0, 0, AddressForm::Nothing, Rest::Nothing)),
        _ => None,
    }
}

/// Returns what is made of the layout of an error cause of this code.
#[tactic(auto, unfolding(dcsctp_registry::specs::CauseLayouts::cause_rows))]
pub(crate) fn cause_by_type<M: ByLayout>(code: u16, maker: &M) -> Option<M::Made>
    ensures { result ≡ option_and_then (M.made maker.now) (layout_in cause_rows code) }
{
    match code {
        1 => maker.by(layout(0, 1, 2, AddressForm::Nothing, Rest::Nothing)),
        3 => maker.by(layout(1, 0, 0, AddressForm::Nothing, Rest::Nothing)),
        4 => maker.by(layout(0, 0, 0, AddressForm::Nothing, Rest::Nothing)),
        5 => maker.by(layout(0, 0, 0, AddressForm::Nothing, Rest::Items)),
        7 => maker.by(layout(0, 0, 0, AddressForm::Nothing, Rest::Nothing)),
        8 => maker.by(layout(0, 0, 0, AddressForm::Nothing, Rest::Items)),
        11 => maker.by(layout(0, 0, 0, AddressForm::Nothing, Rest::Items)),
        0x00a0 => maker.by(layout(0, 0, 0, AddressForm::Nothing, Rest::Items)),
        0x00a1 => maker.by(layout(0, 0, 0, AddressForm::Nothing, Rest::Items)),
        0x00a2 => maker.by(layout(0, 0, 0, AddressForm::Nothing, Rest::Items)),
        0x00a3 => maker.by(layout(0, 0, 0, AddressForm::Nothing, Rest::Nothing)),
        0x00a4 => maker.by(layout(0, 0, 0, AddressForm::Nothing, Rest::Items)),
        0x0105 => maker.by(layout(0, 1, 0, AddressForm::Nothing, Rest::Nothing)),
        _ => None,
    }
}

/// Returns a layout by its parts.
#[inline(always)]
fn layout(numbers: u8, short_numbers: u8, reserved: u8, address: AddressForm, rest: Rest) -> Layout
    ensures { result ≡ record {
      numbers = numbers;
      short_numbers = short_numbers;
      reserved = reserved;
      address = address;
      rest = rest;
    } }
{
    Layout {
        numbers,
        short_numbers,
        reserved,
        address,
        rest,
    }
}
