//! Parameters or error causes of any types in bytes, one after the other.

ghost use Rattle.std.specs.Prelude.{◌≡◌, length};
ghost use Rattle.dcsctp_registry.specs.Items.{are_items_of};

use dcsctp_tlv::frame::split_frame;

/// Returns whether the bytes are parameters or error causes one after the other (RFC 9260 sections
/// 3.2.1 and 3.3.10), of any types, with any values: the last one may lack its padding, and nothing
/// else may be missing or left over. `RawParameter::from_bytes` reads the one at their front.
pub fn are_items(bytes: &[u8]) -> bool
    ensures { result ≡ are_items_of (length bytes.now) bytes.now }
{
    let mut rest = bytes;
    while !rest.is_empty() {
        let Ok((_, after)) = split_frame(rest) else {
            return false;
        };
        rest = after;
    }
    true
}
