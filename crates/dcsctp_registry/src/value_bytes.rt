//! The bytes of a value whose type has no kind of its own, to be written.

ghost use Rattle.std.specs.Prelude.{◌≡◌, ◌≤◌, ◌+◌, length};
ghost use Rattle.dcsctp_tlv.specs.Image.{put};

use dcsctp_buffer::item::WritableItem;
use dcsctp_tlv::frame::put_bytes;
use std::marker::Model;

/// The most bytes before the rest: two numbers of four bytes, three of two, two reserved, and an
/// IPv6 Address.
pub(crate) const FRONT_SIZE: usize = 36;

/// The bytes of a value: those before the rest, and the rest.
#[derive(Clone, Debug, Drop)]
pub struct ValueBytes<'a> {
    pub(crate) front: [u8; FRONT_SIZE],
    pub(crate) front_size: usize,
    pub(crate) rest: &'a [u8],
}

impl<'a> Model for ValueBytes<'a> {
    ghost use Rattle.std.specs.Prelude.{◌≤◌, ℕ, List, ◌++◌, take};

    ghost Value = { List ℕ };

    ghost view = { λ v. take v.front_size v.front ++ v.rest.now };

    ghost invariant = { λ v. v.front_size ≤ 36 };
}

/// The value without the header and the padding.
impl WritableItem for ValueBytes<'_> {
    ghost value = { λ v. v };

    fn value_size(&self) -> usize {
        self.front_size + self.rest.len()
    }

    fn put_value(&self, output: &mut [u8], place: usize) {
        put_some(output, place, &self.front[..self.front_size]);
        put_some(output, place + self.front_size, self.rest);
    }
}

/// Writes bytes at a place, if there are any, without a call where there are none.
#[inline(always)]
fn put_some(output: &mut [u8], place: usize, bytes: &[u8])
    requires { place + length bytes.now ≤ length output.old }
    ensures { output.new ≡ put output.old place bytes.now }
{
    if !bytes.is_empty() {
        put_bytes(output, place, bytes);
    }
}
