//! The expanded key, and the cipher on one block.
ghost use Rattle.std.specs.Prelude.{◌≡◌, ◌<◌, ◌≤◌};
ghost use Rattle.aes_cbc.specs.Block.{sum_of_bytes};
ghost use Rattle.aes_cbc.specs.Expansion.{round_addend, next_word, key_expansion};
ghost use Rattle.aes_cbc.specs.Cipher.{round_key, cipher, inv_cipher};

use crate::steps::{inv_mix_columns, mix_columns, restore, substitute, sum_of_blocks};
use crate::tables::{round_constant, sub_byte};
use std::fmt;
use std::marker::Model;

/// A key of AES-128, expanded once for many blocks. Contracts see its 44 words of four bytes: the words 4n to
/// 4n + 3 are round key n (FIPS 197, section 5.2).
#[derive(Drop)]
pub struct Schedule {
    words: [[u8; 4]; 44],
}

impl Model for Schedule {
    ghost use Rattle.std.specs.Prelude.{ℕ, List};

    ghost Value = { List (List ℕ) };

    ghost view = { λ schedule. schedule.words };
}

impl fmt::Debug for Schedule {
    // The words are a secret.
    fn fmt<W: fmt::Write>(&self, f: &mut fmt::Formatter<W>) -> fmt::Result {
        f.write_str("Schedule { .. }")
    }
}

impl Schedule {
    /// Expands the key. It takes no memory.
    pub fn new(key: &[u8; 16]) -> Schedule
        ensures { result ≡ key_expansion key.now }
    {
        let mut words = [[0; 4]; 44];
        'words: for i in 0..44 {
            words[i] = next_word(key, &words, i);
        }
        Schedule { words }
    }

    /// The block, encrypted.
    pub fn encrypt_block(&self, block: &[u8; 16]) -> [u8; 16]
        ensures { result ≡ cipher self.now block.now }
    {
        let mut state = sum_of_blocks(block, &self.round_key(0));
        'rounds: for round in 0..9 {
            let mixed = mix_columns(&substitute(&state));
            state = sum_of_blocks(&mixed, &self.round_key(round + 1));
        }
        sum_of_blocks(&substitute(&state), &self.round_key(10))
    }

    /// The block, decrypted.
    pub fn decrypt_block(&self, block: &[u8; 16]) -> [u8; 16]
        ensures { result ≡ inv_cipher self.now block.now }
    {
        let mut state = sum_of_blocks(block, &self.round_key(10));
        'rounds: for round in 0..9 {
            let keyed = sum_of_blocks(&restore(&state), &self.round_key(9 - round));
            state = inv_mix_columns(&keyed);
        }
        sum_of_blocks(&restore(&state), &self.round_key(0))
    }

    // The four words of a round key, as the columns of a block.
    #[inline]
    pub(crate) fn round_key(&self, round: usize) -> [u8; 16]
        requires { round ≤ 10 }
        ensures { result ≡ round_key self.now round }
    {
        let mut key = [0; 16];
        'bytes: for i in 0..16 {
            key[i] = self.words[4 * round + i / 4][i % 4];
        }
        key
    }
}

// Word i of the expansion, from the words before it.
fn next_word(key: &[u8; 16], words: &[[u8; 4]; 44], i: usize) -> [u8; 4]
    requires { i < 44 }
    ensures { result ≡ next_word key.now words.now i }
{
    if i < 4 {
        return [key[4 * i], key[4 * i + 1], key[4 * i + 2], key[4 * i + 3]];
    }
    sum_of_words(&words[i - 4], &round_addend(&words[i - 1], i))
}

// What is added to the word four places back, for word i.
fn round_addend(before: &[u8; 4], i: usize) -> [u8; 4]
    requires is_after_the_key { 4 ≤ i }
    requires is_word { i < 44 }
    ensures { result ≡ round_addend before.now i }
{
    if i % 4 != 0 {
        return *before;
    }
    let [a, b, c, d] = *before;
    let constant = round_constant(i / 4);
    [
        sub_byte(b) ^ constant,
        sub_byte(c),
        sub_byte(d),
        sub_byte(a),
    ]
}

// The sum of two words, byte by byte.
fn sum_of_words(left: &[u8; 4], right: &[u8; 4]) -> [u8; 4]
    ensures { result ≡ sum_of_bytes left.now right.now }
{
    let ([a, b, c, d], [w, x, y, z]) = (*left, *right);
    [a ^ w, b ^ x, c ^ y, d ^ z]
}
