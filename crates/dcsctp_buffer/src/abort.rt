//! ABORT, whose reason lies anywhere.

ghost use Rattle.std.specs.Prelude.{◌≡◌};
ghost use Rattle.dcsctp_wire.specs.Chunk.{Abort as AbortTree};
ghost use Rattle.dcsctp_cause.specs.Text.{IsText};
ghost use Rattle.dcsctp_buffer.specs.Abort.{view};

use crate::one_item::{one_item_size, put_one_item};
use crate::writable_chunk::WritableChunk;
use dcsctp_chunk::flags::one_flag;
use dcsctp_wire::packet::abort_chunk::CHUNK_TYPE;
use dcsctp_wire::packet::user_initiated_abort_error_cause::CAUSE_CODE;

/// ABORT (RFC 9260 section 3.3.7) to be written, with a User-Initiated Abort (section 3.3.10.12) as
/// its one cause.
#[derive(Clone, Copy, Debug)]
pub struct BorrowedAbort<'a> {
    /// Whether the packet's verification tag is reflected, the T bit: it is the one that the
    /// receiver writes into its own packets (RFC 9260 section 8.5.1).
    pub tag_reflected: bool,
    /// Why, in the upper layer's words.
    pub reason: &'a str,
}

impl WritableChunk for BorrowedAbort<'_> {
    ghost tree = { λ a. AbortTree (view a) };

    fn written_size(&self) -> Option<usize> {
        one_item_size(self.reason.as_bytes())
    }

    fn write_to(&self, output: &mut [u8]) {
        put_one_item(
            CHUNK_TYPE,
            one_flag(self.tag_reflected),
            CAUSE_CODE,
            text_bytes(self.reason),
            output,
        );
    }
}

/// Returns the bytes of a text.
fn text_bytes(text: &str) -> &[u8]
    ensures bytes { result.now ≡ text.now }
    ensures text { IsText text.now }
{
    text.as_bytes()
}
