//! What is written in pieces.

ghost use Rattle.std.specs.Prelude.{◌≡◌, ◌+◌, ◌≤◌, ◌++◌, length};
ghost use Rattle.dcsctp_tlv.specs.Image.{put};

use dcsctp_tlv::frame::put_bytes;

/// Writes three pieces to the front, one after the other; the bytes after them stay.
pub(crate) fn put_three(output: &mut [u8], first: &[u8], second: &[u8], third: &[u8])
    requires { length first.now + length second.now + length third.now ≤ length output.old }
    ensures { output.new ≡ put output.old 0 (first.now ++ (second.now ++ third.now)) }
{
    put_bytes(output, 0, first);
    put_bytes(output, first.len(), second);
    put_bytes(output, first.len() + second.len(), third);
}
