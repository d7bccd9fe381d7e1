//! Cipher block chaining over a padded text.
ghost use Rattle.std.specs.Prelude.{◌≡◌, ℕ, ◌↔◌, ◌++◌, length, IfOk, Err};
ghost use Rattle.std.specs.List.{concat};
ghost use Rattle.aes_cbc.specs.Block.{sum_of_bytes};
ghost use Rattle.aes_cbc.specs.Cipher.{inv_cipher};
ghost use Rattle.aes_cbc.specs.Chaining.{AreWholeBlocks, HasBadLength, IsCbcText, HasNoPadding, HasText, cbc_encrypted, decrypted_blocks, last_or};

use crate::padding::{padded_block, padding_of};
use crate::steps::sum_of_blocks;
use crate::{CbcFault, NoMemory, Schedule};
use std::alloc::Global;

/// The cipher text of a text: its blocks in a chain that begins with the initialization vector (SP 800-38A,
/// section 6.2), after a padding of 1 to 16 bytes (RFC 5652, section 6.3).
///
/// The vector is to be one that nobody can foretell (SP 800-38A, appendix C), and it does not stand in the answer.
///
/// It takes time linear in the length of the text, and reserves its memory once.
pub fn cbc_encrypt(
    alloc: Global,
    schedule: &Schedule,
    iv: &[u8; 16],
    plain: &[u8],
) -> Result<Vec<u8>, NoMemory>
    ensures { IfOk result (λ cipher. cipher.items ≡ cbc_encrypted schedule.now iv.now plain.now) }
{
    let (blocks, rest) = plain.as_chunks::<16>();
    let mut cipher = Vec::with_capacity(alloc, plain.len() - rest.len() + 16)?;
    let mut chained = *iv;
    'chain: for block in blocks {
        chained = schedule.encrypt_block(&sum_of_blocks(block, &chained));
        cipher.extend_from_slice(&chained)?;
    }
    let last = sum_of_blocks(&padded_block(rest), &chained);
    cipher.extend_from_slice(&schedule.encrypt_block(&last))?;
    Ok(cipher)
}

/// The text of a cipher text, without its padding. The padding is tested before memory is taken, and so want of
/// memory is answered only where there is a text.
///
/// It takes time linear in the length of the cipher text, and reserves its memory once.
pub fn cbc_decrypt(
    alloc: Global,
    schedule: &Schedule,
    iv: &[u8; 16],
    cipher: &[u8],
) -> Result<Vec<u8>, CbcFault>
    ensures text { IfOk result (λ text.
        AreWholeBlocks cipher.now × IsCbcText schedule.now iv.now cipher.now text.items) }
    ensures length { (len : ℕ) → (result ≡ Err (CbcFault.Length len)) ↔
        ((len ≡ length cipher.now) × HasBadLength cipher.now) }
    ensures padding { (result ≡ Err CbcFault.Padding) ↔
        (AreWholeBlocks cipher.now × HasNoPadding schedule.now iv.now cipher.now) }
    ensures memory { result ≡ Err CbcFault.NoMemory →
        AreWholeBlocks cipher.now × HasText schedule.now iv.now cipher.now }
{
    let (blocks, part) = cipher.as_chunks::<16>();
    let bad_length = CbcFault::Length {
        len: cipher.len() as u64,
    };
    if !part.is_empty() {
        return Err(bad_length);
    }
    let Some((last, front)) = blocks.split_last() else {
        return Err(bad_length);
    };
    let end = decrypt_last(schedule, iv, front, last);
    let Some(size) = padding_of(&end) else {
        return Err(CbcFault::Padding);
    };
    let text = decrypt_blocks(alloc, schedule, iv, front, &end[..16 - size])?;
    Ok(text)
}

// The last block, decrypted in a chain, from the blocks in front of it.
fn decrypt_last(schedule: &Schedule, iv: &[u8; 16], front: &[[u8; 16]], last: &[u8; 16]) -> [u8; 16]
    ensures { result ≡ sum_of_bytes (inv_cipher schedule.now last.now) (last_or iv.now front.now) }
{
    let before = front.last().unwrap_or(iv);
    sum_of_blocks(&schedule.decrypt_block(last), before)
}

// The blocks, decrypted in a chain, and then the end of the text.
fn decrypt_blocks(
    alloc: Global,
    schedule: &Schedule,
    iv: &[u8; 16],
    blocks: &[[u8; 16]],
    end: &[u8],
) -> Result<Vec<u8>, NoMemory>
    ensures { IfOk result (λ text. text.items ≡
        concat (decrypted_blocks schedule.now iv.now blocks.now) ++ end.now) }
{
    let size = blocks.as_flattened().len() + end.len();
    let mut text = Vec::with_capacity(alloc, size)?;
    let mut before = *iv;
    'chain: for block in blocks {
        text.extend_from_slice(&sum_of_blocks(&schedule.decrypt_block(block), &before))?;
        before = *block;
    }
    text.extend_from_slice(end)?;
    Ok(text)
}
