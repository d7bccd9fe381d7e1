// HMAC (RFC 2104), over SHA-1 and over SHA-256.

ghost use Rattle.std.specs.Prelude.{◌≡◌, ℕ, ◌≤◌, List, [], ◌++◌, length};
ghost use Rattle.sha1.specs.Sha1.{sha1};
ghost use Rattle.sha2.specs.Sha256.{sha256};
ghost use Rattle.key_derivation.specs.Hmac.{zero_padded, xored, short_key, hmac};

use sha1::Sha1;
use sha2::{Digest, Sha256};

// The length of a block of SHA-1 and of SHA-256.
const BLOCK_LEN: usize = 64;

// The bytes of ipad and of opad.
const INNER_PAD: u8 = 0x36;

const OUTER_PAD: u8 = 0x5c;

/// HMAC-SHA-1 (RFC 2104) of a text, under a key of any length.
///
/// It hashes the text and three blocks of 64 bytes, and before them a key that is longer than one.
pub fn hmac_sha1(key: &[u8], text: &[u8]) -> [u8; 20]
    ensures { result ≡ hmac sha1 key.now text.now }
{
    let mut mac = HmacSha1::new(key);
    mac.update(text);
    mac.finalize()
}

/// HMAC-SHA-256 (RFC 2104) of a text, under a key of any length.
///
/// It hashes the text and three blocks of 64 bytes, and before them a key that is longer than one.
#[tactic(auto, unfolding(crate::specs::Hmac::hmac, crate::specs::Hmac::inner_key, crate::specs::Hmac::outer_key))]
pub fn hmac_sha256(key: &[u8], text: &[u8]) -> [u8; 32]
    ensures { result ≡ hmac sha256 key.now text.now }
{
    let block = sha256_key(key);
    let mut inner = Sha256::new();
    inner.update(xored(&block, INNER_PAD));
    inner.update(text);
    let mut outer = Sha256::new();
    outer.update(xored(&block, OUTER_PAD));
    outer.update(inner.finalize());
    outer.finalize()
}

// HMAC-SHA-1 of a text that comes in pieces. A copy of one that holds no text yet saves hashing the
// key again.
#[derive(Drop)]
pub(crate) struct HmacSha1 {
    // Has taken in the key xored with ipad, and the text so far.
    inner: Sha1,
    // Has taken in the key xored with opad.
    outer: Sha1,
}

impl HmacSha1 {
    ghost use Rattle.key_derivation.specs.Keyed.{Holds};

    // The state of the empty text under a key.
    #[tactic(auto, unfolding(crate::specs::Hmac::inner_key, crate::specs::Hmac::outer_key))]
    pub(crate) fn new(key: &[u8]) -> HmacSha1
        ensures { Holds result key.now [] }
    {
        let block = sha1_key(key);
        let mut inner = Sha1::new();
        inner.update(&xored(&block, INNER_PAD));
        let mut outer = Sha1::new();
        outer.update(&xored(&block, OUTER_PAD));
        HmacSha1 { inner, outer }
    }

    // A copy of this state.
    pub(crate) fn copy(&self) -> HmacSha1
        ensures { result ≡ self.now }
    {
        HmacSha1 {
            inner: self.inner.clone().unwrap(),
            outer: self.outer.clone().unwrap(),
        }
    }

    // Adds `piece` to the text.
    pub(crate) fn update(&mut self, piece: &[u8])
        ensures { (key text : List ℕ) → Holds self.old key text → Holds self.new key (text ++ piece.now) }
    {
        self.inner.update(piece);
    }

    // The HMAC of the text.
    #[tactic(auto, unfolding(crate::specs::Hmac::hmac))]
    pub(crate) fn finalize(self) -> [u8; 20]
        ensures { (key text : List ℕ) → Holds self key text → result ≡ hmac sha1 key text }
    {
        let HmacSha1 { inner, mut outer } = self;
        outer.update(&inner.finalize());
        outer.finalize()
    }
}

// The block that stands for a key under SHA-1.
fn sha1_key(key: &[u8]) -> [u8; BLOCK_LEN]
    ensures { result ≡ zero_padded (short_key sha1 key.now) }
{
    if key.len() > BLOCK_LEN {
        zero_padded(&Sha1::digest(key))
    } else {
        zero_padded(key)
    }
}

// The block that stands for a key under SHA-256.
fn sha256_key(key: &[u8]) -> [u8; BLOCK_LEN]
    ensures { result ≡ zero_padded (short_key sha256 key.now) }
{
    if key.len() > BLOCK_LEN {
        zero_padded(&Sha256::digest(key))
    } else {
        zero_padded(key)
    }
}

// The bytes, and zeros up to the length of a block.
fn zero_padded(bytes: &[u8]) -> [u8; BLOCK_LEN]
    requires { length bytes.now ≤ 64 }
    ensures { result ≡ zero_padded bytes.now }
{
    let mut block = [0; BLOCK_LEN];
    block[..bytes.len()].copy_from_slice(bytes);
    block
}

// A block with each of its bytes xored with the pad's.
#[tactic(auto, using(crate::proofs::Xors::xored_more, crate::proofs::Writes::replaced_all))]
fn xored(block: &[u8; BLOCK_LEN], pad: u8) -> [u8; BLOCK_LEN]
    ensures { result ≡ xored block.now pad }
{
    let mut padded = *block;
    for byte in padded.iter_mut() {
        *byte ^= pad;
    }
    padded
}
