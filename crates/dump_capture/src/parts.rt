//! Parts of bytes.

ghost use Rattle.std.specs.Prelude.{◌≡◌, drop, take};

/// Returns the bytes after the first `count`; none if there are fewer.
pub(crate) fn after(bytes: &[u8], count: usize) -> &[u8]
    ensures { result.now ≡ drop count bytes.now }
{
    &bytes[count.min(bytes.len())..]
}

/// Returns the first `count` bytes; all if there are fewer.
pub(crate) fn front(bytes: &[u8], count: usize) -> &[u8]
    ensures { result.now ≡ take count bytes.now }
{
    &bytes[..count.min(bytes.len())]
}
