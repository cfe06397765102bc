//! HMAC (RFC 2104) over SHA-1 and SHA-256 (FIPS 180-4).

ghost use Rattle.std.specs.Prelude.{◌≡◌, ℕ, ◌≤◌, ◌-◌, ◌++◌, List, [], length, replicate};
ghost use Rattle.dcsctp_receive.specs.Hmac.{digest, digest_size, block_key, padded, hmac, hmac_identifier, mac_bytes, Hashes, IsHmacOf};
ghost use Rattle.dcsctp_receive.specs.declared.hmac.HashFunction.{HashFunction};

use dcsctp_tlv::frame::put_bytes;
use sha1::Sha1;
use sha2::{Digest, Sha256};

/// The bytes of a block of SHA-1 and of SHA-256: B of RFC 2104.
const BLOCK_SIZE: usize = 64;

/// The byte that is repeated in ipad (RFC 2104 section 2).
const IPAD: u8 = 0x36;

/// The byte that is repeated in opad (RFC 2104 section 2).
const OPAD: u8 = 0x5C;

/// A hash function that an HMAC is made with, which RFC 2104 calls H.
#[derive(Clone, Copy, Debug, PartialEq, Eq)]
pub enum HashFunction {
    /// SHA-1: its HMAC has 20 bytes.
    Sha1,
    /// SHA-256: its HMAC has 32 bytes.
    Sha256,
}

impl HashFunction {
    /// Returns the number of bytes of a digest, and so of an HMAC.
    pub fn digest_size(self) -> usize
        ensures { result ≡ digest_size self }
    {
        match self {
            HashFunction::Sha1 => 20,
            HashFunction::Sha256 => 32,
        }
    }

    /// Returns the HMAC Identifier (RFC 4895 section 3.3).
    pub fn hmac_identifier(self) -> u16
        ensures { result ≡ hmac_identifier self }
    {
        match self {
            HashFunction::Sha1 => 1,
            HashFunction::Sha256 => 3,
        }
    }
}

/// An HMAC that was computed.
#[derive(Clone, Copy, Debug)]
pub enum Mac {
    /// HMAC with SHA-1.
    Sha1([u8; 20]),
    /// HMAC with SHA-256.
    Sha256([u8; 32]),
}

impl Mac {
    /// Returns the bytes of the HMAC.
    pub fn as_bytes(&self) -> &[u8]
        ensures { result.now ≡ mac_bytes self.now }
    {
        match self {
            Mac::Sha1(bytes) => bytes,
            Mac::Sha256(bytes) => bytes,
        }
    }
}

/// A text that is hashed piece by piece.
#[derive(Drop)]
enum Hasher {
    Sha1(Sha1),
    Sha256(Sha256),
}

impl Hasher {
    /// Begins with no text.
    fn new(function: HashFunction) -> Hasher
        ensures { Hashes result function [] }
    {
        match function {
            HashFunction::Sha1 => Hasher::Sha1(Sha1::new()),
            HashFunction::Sha256 => Hasher::Sha256(Sha256::new()),
        }
    }

    /// Adds bytes to the text.
    fn update(&mut self, bytes: &[u8])
        ensures { (function : HashFunction) (text : List ℕ) → Hashes self.old function text
            → Hashes self.new function (text ++ bytes.now) }
    {
        match self {
            Hasher::Sha1(hasher) => hasher.update(bytes),
            Hasher::Sha256(hasher) => hasher.update(bytes),
        }
    }

    /// Returns the digest of the text.
    fn finalize(self) -> Mac
        ensures { (function : HashFunction) (text : List ℕ) → Hashes self function text
            → mac_bytes result ≡ digest function text }
    {
        match self {
            Hasher::Sha1(hasher) => Mac::Sha1(hasher.finalize()),
            Hasher::Sha256(hasher) => Mac::Sha256(hasher.finalize()),
        }
    }
}

/// The HMAC of a text that comes piece by piece.
#[derive(Drop)]
pub struct Hmac {
    inner: Hasher,
    outer: Hasher,
}

impl Hmac {
    /// Begins the HMAC of no text, under a key of any length.
    pub fn new(function: HashFunction, key: &[u8]) -> Hmac
        ensures { IsHmacOf result function key.now [] }
    {
        let key = block_key(function, key);
        let mut inner = Hasher::new(function);
        inner.update(&padded(&key, IPAD));
        let mut outer = Hasher::new(function);
        outer.update(&padded(&key, OPAD));
        Hmac { inner, outer }
    }

    /// Adds bytes to the text.
    pub fn update(&mut self, bytes: &[u8])
        ensures { (function : HashFunction) (key text : List ℕ)
            → IsHmacOf self.old function key text
            → IsHmacOf self.new function key (text ++ bytes.now) }
    {
        self.inner.update(bytes);
    }

    /// Returns the HMAC of the text.
    pub fn finalize(self) -> Mac
        ensures { (function : HashFunction) (key text : List ℕ) → IsHmacOf self function key text
            → mac_bytes result ≡ hmac function key text }
    {
        let mut outer = self.outer;
        outer.update(self.inner.finalize().as_bytes());
        outer.finalize()
    }

    /// Returns the HMAC of a text in one piece.
    pub fn of(function: HashFunction, key: &[u8], text: &[u8]) -> Mac
        ensures { mac_bytes result ≡ hmac function key.now text.now }
    {
        let mut hmac = Hmac::new(function, key);
        hmac.update(text);
        hmac.finalize()
    }
}

/// Returns the key as a block.
fn block_key(function: HashFunction, key: &[u8]) -> [u8; BLOCK_SIZE]
    ensures { result ≡ block_key function key.now }
{
    let mut block = [0; BLOCK_SIZE];
    if key.len() > BLOCK_SIZE {
        let mut hasher = Hasher::new(function);
        hasher.update(key);
        let digest = hasher.finalize();
        put_bytes(&mut block, 0, digest.as_bytes());
    } else {
        put_bytes(&mut block, 0, key);
    }
    block
}

/// Returns the block XOR the pad.
fn padded(block: &[u8; BLOCK_SIZE], pad: u8) -> [u8; BLOCK_SIZE]
    ensures { result ≡ padded pad block.now }
{
    let mut bytes = [0; BLOCK_SIZE];
    for i in 0..BLOCK_SIZE {
        bytes[i] = block[i] ^ pad;
    }
    bytes
}
