//! The key of `--auth-key`.

use dump_packet::PairKey;

/// The most bytes of a key.
const MOST_BYTES: usize = 128;

/// Returns the key that is written so: digits in hexadecimal, two a byte, or none; before them the
/// Shared Key Identifier and a colon, if that isn't 0. `None` if it isn't a key.
pub fn auth_key_of(text: &str) -> Option<PairKey> {
    let (identifier, digits) = text.split_once(':').unwrap_or(("0", text));
    let (identifier, digits) = (identifier.parse::<u16>().ok()?, digits.as_bytes());
    let mut bytes = [0; MOST_BYTES];
    if digits.len() % 2 != 0 || digits.len() / 2 > MOST_BYTES {
        return None;
    }
    for i in 0..digits.len() / 2 {
        let (high, low) = (value_of(digits[2 * i])?, value_of(digits[2 * i + 1])?);
        bytes[i] = high << 4 | low;
    }
    PairKey::new(identifier, &bytes[..digits.len() / 2])
}

/// Returns the value of a digit; `None` if it isn't one.
fn value_of(digit: u8) -> Option<u8> {
    match digit {
        b'0'..=b'9' => Some(digit - b'0'),
        b'a'..=b'f' => Some(digit - b'a' + 10),
        b'A'..=b'F' => Some(digit - b'A' + 10),
        _ => None,
    }
}
