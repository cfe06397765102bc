//! An INIT for an association that is there already: it may add no addresses to it.

ghost use Rattle.std.specs.{Prelude.{◌≡◌, ◌↔◌, IsOk, IfErr}, List.{concat}};
ghost use Rattle.dcsctp_borrowed.specs.Part.{part_of};
ghost use Rattle.dcsctp_buffer.specs.{Buffer.{Declines}, Item.{IsLastChunk, IsExtensible, HasItemRoom, IsItemAdded, ExtendsCauses}};
ghost use Rattle.dcsctp_receive.specs.{Chunks.{items_of}, Unrecognized.{wholes}, Handling.{action_by}, Restart.{adds_addresses, new_addresses}};

use crate::reported::{Handling, Listed, list_part, next_reported};
use dcsctp_buffer::error::WriteError;
use dcsctp_buffer::item::add_written;

/// The error cause Restart of an Association with New Addresses (RFC 9260 section 3.3.10.11).
const RESTART_WITH_NEW_ADDRESSES: u16 = 11;

/// Returns whether an INIT adds addresses to an association, which is answered by an ABORT under
/// its Initiate Tag; the association stays as it is (RFC 9260 section 5.2.2, and section 5.2.1 in
/// the state COOKIE-ECHOED).
///
/// `list` holds the INIT's parameters, after its fixed-length ones, and `known` the association's
/// addresses, as parameters too: IPv4 Address and IPv6 Address. What comes after the first whose
/// length is impossible isn't looked at. The address that the packet came from is none of them: the
/// caller looks at it.
///
/// Each of the INIT's addresses is compared with each known one, so the time grows with the product
/// of both sizes: the caller bounds how many addresses an association has.
pub fn adds_addresses(list: &[u8], known: &[u8]) -> bool
    ensures { result ≡ adds_addresses known.now list.now }
{
    let handling = Handling::Addresses(list_part(known));
    match next_reported(list_part(list), handling) {
        Some(_) => true,
        None => false,
    }
}

/// Adds to an ABORT, the packet's last chunk, which begins at `start`, the error cause Restart of
/// an Association with New Addresses (RFC 9260 section 3.3.10.11): it lists the addresses that the
/// INIT adds, in order, as they are in the INIT. `list`, `known` and the time are as of
/// `adds_addresses`.
///
/// Returns what `add_written` of `dcsctp_buffer` returns, and then changes nothing.
pub fn add_new_addresses(
    buffer: &mut [u8],
    size: &mut usize,
    start: usize,
    list: &[u8],
    known: &[u8],
) -> Result<(), WriteError>
    ensures room { IsOk result
        ↔ HasItemRoom buffer.old size.old start (new_addresses known.now list.now) }
    ensures added { IsOk result → IsItemAdded 11 (new_addresses known.now list.now)
        buffer.old size.old start buffer.new size.new }
    ensures causes { IsOk result → ExtendsCauses 11 (new_addresses known.now list.now) }
    ensures declined { IfErr result (Declines (IsLastChunk buffer.old size.old start)
        (IsExtensible buffer.old start (new_addresses known.now list.now))
        (HasItemRoom buffer.old size.old start (new_addresses known.now list.now))) }
    ensures unchanged { IfErr result (λ e. (buffer.new ≡ buffer.old) × (size.new ≡ size.old)) }
{
    let value = new_addresses(list, known);
    add_written(buffer, size, start, RESTART_WITH_NEW_ADDRESSES, &value)
}

/// Returns the addresses that the INIT adds.
fn new_addresses<'a>(list: &'a [u8], known: &'a [u8]) -> Listed<'a>
    ensures { concat (wholes (action_by result.handling) (items_of (part_of result.list)))
        ≡ new_addresses known.now list.now }
{
    Listed {
        list: list_part(list),
        handling: Handling::Addresses(list_part(known)),
    }
}
