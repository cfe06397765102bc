//! The association shared key (RFC 4895 section 6.1).

ghost use Rattle.std.specs.Prelude.{◌≡◌, ◌↔◌, ◌+◌, ◌≤◌, ◌++◌, IsSome, IfSome, IfNone, IsTrue, length};
ghost use Rattle.dcsctp_tlv.specs.Image.{put};
ghost use Rattle.dcsctp_receive.specs.SharedKey.{ComesFirst, Orders, vector_number};

use crate::pieces::put_three;
use dcsctp_tlv::frame::are_zeros;
use std::cmp::Ordering;

/// Writes the association shared key (RFC 4895 section 6.1) to the front of the buffer: the
/// endpoint pair shared key, and after it the key vectors of both ends, the numerically smaller
/// first, or where they are equal as numbers, the shorter. Returns its size.
///
/// A key vector is the RANDOM, the Chunk List and the Requested HMAC Algorithm parameter that an
/// end sent, in this order, each with its header and without padding. Which end's is passed first
/// doesn't matter.
///
/// Returns `None`, and changes nothing, if and only if the buffer has no room for the key. All
/// bytes after it stay.
pub fn write_shared_key(
    buffer: &mut [u8],
    pair_key: &[u8],
    one: &[u8],
    other: &[u8],
) -> Option<usize>
    ensures room { IsSome result
        ↔ (length pair_key.now + length one.now + length other.now ≤ length buffer.old) }
    ensures size { IfSome result
        (λ size. size ≡ length pair_key.now + length one.now + length other.now) }
    ensures one_first { IsSome result → ComesFirst one.now other.now
        → buffer.new ≡ put buffer.old 0 (pair_key.now ++ (one.now ++ other.now)) }
    ensures other_first { IsSome result → ComesFirst other.now one.now
        → buffer.new ≡ put buffer.old 0 (pair_key.now ++ (other.now ++ one.now)) }
    ensures unchanged { IfNone result (buffer.new ≡ buffer.old) }
{
    let room = buffer.len();
    if room < pair_key.len()
        || room - pair_key.len() < one.len()
        || room - pair_key.len() - one.len() < other.len()
    {
        return None;
    }
    if comes_first(one, other) {
        put_three(buffer, pair_key, one, other);
    } else {
        put_three(buffer, pair_key, other, one);
    }
    Some(pair_key.len() + one.len() + other.len())
}

/// Returns whether the first key vector comes before the other.
fn comes_first(one: &[u8], other: &[u8]) -> bool
    ensures { IsTrue result ↔ ComesFirst one.now other.now }
{
    match compare_vectors(one, other) {
        Ordering::Less => true,
        Ordering::Equal => one.len() <= other.len(),
        Ordering::Greater => false,
    }
}

/// Compares the numbers that two key vectors are.
fn compare_vectors(one: &[u8], other: &[u8]) -> Ordering
    ensures { Orders result (vector_number one.now) (vector_number other.now) }
{
    // what the longer one has before the bytes that both have
    let (one_front, one_rest) = one.split_at(one.len().saturating_sub(other.len()));
    let (other_front, other_rest) = other.split_at(other.len().saturating_sub(one.len()));
    if !are_zeros(one_front) {
        return Ordering::Greater;
    }
    if !are_zeros(other_front) {
        return Ordering::Less;
    }
    compare_same_size(one_rest, other_rest)
}

/// Compares the numbers that two byte vectors of one size are.
fn compare_same_size(one: &[u8], other: &[u8]) -> Ordering
    requires { length one.now ≡ length other.now }
    ensures { Orders result (vector_number one.now) (vector_number other.now) }
{
    for i in 0..one.len() {
        if one[i] < other[i] {
            return Ordering::Less;
        }
        if one[i] > other[i] {
            return Ordering::Greater;
        }
    }
    Ordering::Equal
}
