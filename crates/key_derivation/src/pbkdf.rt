// PBKDF2 (RFC 8018, 5.2) with HMAC-SHA-1 as its pseudorandom function.

ghost use Rattle.std.specs.Prelude.{◌≡◌, ℕ, ◌+◌, ◌≤◌, List, [], length};
ghost use Rattle.sha1.specs.Sha1.{sha1};
ghost use Rattle.key_derivation.specs.Hmac.{hmac};
ghost use Rattle.key_derivation.specs.Keyed.{Holds};
ghost use Rattle.key_derivation.specs.Pbkdf2.{block_of, first_text, pbkdf2, xor_bytes};
ghost use Rattle.key_derivation.specs.Turning.{IsAfter};

use crate::hmac::HmacSha1;

// The length of a digest of SHA-1, and so of a block.
const DIGEST_LEN: usize = 20;

/// Fills `out` with the key that PBKDF2 (RFC 8018, 5.2) with HMAC-SHA-1 derives from a password, a
/// salt and an iteration count, the number of turns.
///
/// It hashes the password once, and two blocks of 64 bytes a turn for each started 20 bytes of `out`.
pub fn pbkdf2(pass: &[u8], salt: &[u8], turns: u32, out: &mut [u8])
    requires some_turn { 1 ≤ turns }
    requires short { length out.old ≤ 1024 }
    ensures { out.new ≡ pbkdf2 pass.now salt.now turns (length out.old) }
{
    let keyed = HmacSha1::new(pass);
    let count = out.len().div_ceil(DIGEST_LEN);
    for index in 0..count {
        let block = derived_block(&keyed, salt, turns, index as u32 + 1);
        let begin = DIGEST_LEN * index;
        let size = DIGEST_LEN.min(out.len() - begin);
        out[begin..begin + size].copy_from_slice(&block[..size]);
    }
}

// Block `number` of the derived key, from the state of the empty text under the password.
fn derived_block(keyed: &HmacSha1, salt: &[u8], turns: u32, number: u32) -> [u8; DIGEST_LEN]
    requires { 1 ≤ turns }
    ensures { (pass : List ℕ) → Holds keyed.now pass [] → result ≡ block_of pass salt.now turns number }
{
    let mut block = Block::first(keyed, salt, number);
    block.turn(keyed, turns - 1);
    block.bytes
}

/// A block of a derived key after some turns. Further turns go on from it.
#[derive(Drop)]
pub(crate) struct Block {
    // U_n of the last turn.
    value: [u8; DIGEST_LEN],
    /// All turns so far, xored.
    pub(crate) bytes: [u8; DIGEST_LEN],
}

impl Block {
    /// Block `number` after one turn, from the state of the empty text under the password.
    pub(crate) fn first(keyed: &HmacSha1, salt: &[u8], number: u32) -> Block
        ensures { (pass : List ℕ) → Holds keyed.now pass [] → IsAfter result pass (first_text salt.now number) 1 }
    {
        let value = first_turn(keyed, salt, number);
        Block {
            value,
            bytes: value,
        }
    }

    /// The block after so many further turns. A turn hashes two blocks of 64 bytes.
    pub(crate) fn turn(&mut self, keyed: &HmacSha1, turns: u32)
        ensures { (pass text : List ℕ) (before : ℕ) → 1 ≤ before → Holds keyed.now pass [] → IsAfter self.old pass text before
            → IsAfter self.new pass text (before + turns) }
    {
        for _turn in 0..turns {
            self.value = next_turn(keyed, &self.value);
            xor_into(&mut self.bytes, &self.value);
        }
    }
}

// U_1: the HMAC of the salt and the block's number.
fn first_turn(keyed: &HmacSha1, salt: &[u8], number: u32) -> [u8; DIGEST_LEN]
    ensures { (pass : List ℕ) → Holds keyed.now pass [] → result ≡ hmac sha1 pass (first_text salt.now number) }
{
    let mut mac = keyed.copy();
    mac.update(salt);
    mac.update(&number.to_be_bytes());
    mac.finalize()
}

// U_n from the one before it.
fn next_turn(keyed: &HmacSha1, value: &[u8; DIGEST_LEN]) -> [u8; DIGEST_LEN]
    ensures { (pass : List ℕ) → Holds keyed.now pass [] → result ≡ hmac sha1 pass value.now }
{
    let mut mac = keyed.copy();
    mac.update(value);
    mac.finalize()
}

// Xors `value` onto `block`, byte by byte.
#[tactic(auto, using(crate::proofs::Xors::xor_bytes_more, crate::proofs::Xors::xor_bytes_all))]
fn xor_into(block: &mut [u8; DIGEST_LEN], value: &[u8; DIGEST_LEN])
    ensures { block.new ≡ xor_bytes block.old value.now }
{
    for index in 0..DIGEST_LEN {
        block[index] ^= value[index];
    }
}
