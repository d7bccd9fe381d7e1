//! Unsealing a blob.
ghost use Rattle.std.specs.Prelude.{◌≡◌, ℕ, List, Ok, Err, IfOk, IfErr};
ghost use Rattle.base64.specs.Engines.{standard};
ghost use Rattle.base64.specs.GeneralPurpose.{decode_of};
ghost use Rattle.aes_cbc.specs.Chaining.{AreWholeBlocks};
ghost use Rattle.nigori.specs.Unsealing.{Decodes, IsNoBase64, HasBadLength, HasBadTag, HasBadPadding, HoldsText, AnswersExactly};
ghost use Rattle.nigori.specs.Verdicts.{IsDecodingFault, IsBytesVerdict, IsCipherVerdict};

use crate::UnsealFault;
use aes_cbc::{CbcFault, Schedule, cbc_decrypt};
use base64::DecodeAllocError;
use base64::engine::general_purpose::STANDARD;
use key_derivation::{NigoriKey, hmac_sha256};
use std::alloc::Global;
use wire_fields::Octets;

/// The text of a blob that was sealed under this key. Its faults are tested in the order of their variants, but
/// want of memory can come before any other.
///
/// It takes time and memory linear in the length of the blob.
pub fn unseal(alloc: Global, key: &NigoriKey, blob: &[u8]) -> Result<Octets, UnsealFault>
    ensures text { (text : List ℕ) → AnswersExactly result (Ok text) (Decodes blob.now (HoldsText key.now text)) }
    ensures not_base64 { AnswersExactly result (Err UnsealFault.NotBase64) (IsNoBase64 blob.now) }
    ensures bad_length { (len : ℕ) → AnswersExactly result (Err (UnsealFault.BadLength len))
        (Decodes blob.now (HasBadLength len)) }
    ensures bad_tag { (found computed : List ℕ) → AnswersExactly result (Err (UnsealFault.BadTag found computed))
        (Decodes blob.now (HasBadTag key.now found computed)) }
    ensures bad_padding { AnswersExactly result (Err UnsealFault.BadPadding)
        (Decodes blob.now (HasBadPadding key.now)) }
{
    let bytes = decoded(alloc, blob)?;
    text_of_bytes(alloc, key, &bytes)
}

// The bytes of a blob.
fn decoded(alloc: Global, blob: &[u8]) -> Result<Vec<u8>, UnsealFault>
    ensures bytes { IfOk result (λ bytes. decode_of standard blob.now ≡ Ok bytes.items) }
    ensures fault { IfErr result (IsDecodingFault blob.now) }
{
    match STANDARD.decode(alloc, blob) {
        Ok(bytes) => Ok(bytes),
        Err(DecodeAllocError::DecodeError(_)) => Err(UnsealFault::NotBase64),
        Err(DecodeAllocError::OutOfMemory) => Err(UnsealFault::NoMemory),
    }
}

// The text that the bytes of a blob hold.
fn text_of_bytes(alloc: Global, key: &NigoriKey, bytes: &[u8]) -> Result<Octets, UnsealFault>
    ensures { IsBytesVerdict key.now bytes.now result }
{
    let bad_length = UnsealFault::BadLength {
        len: bytes.len() as u64,
    };
    let Some((iv, rest)) = bytes.split_first_chunk::<16>() else {
        return Err(bad_length);
    };
    let Some((cipher, found)) = rest.split_last_chunk::<32>() else {
        return Err(bad_length);
    };
    if cipher.is_empty() || cipher.len() % 16 != 0 {
        return Err(bad_length);
    }
    let computed = hmac_sha256(&key.mac, cipher);
    if *found != computed {
        return Err(UnsealFault::BadTag {
            found: *found,
            computed,
        });
    }
    text_of_cipher(alloc, key, iv, cipher)
}

// The text of a cipher text.
fn text_of_cipher(
    alloc: Global,
    key: &NigoriKey,
    iv: &[u8; 16],
    cipher: &[u8],
) -> Result<Octets, UnsealFault>
    requires { AreWholeBlocks cipher.now }
    ensures { IsCipherVerdict key.now iv.now cipher.now result }
{
    match cbc_decrypt(alloc, &Schedule::new(&key.enc), iv, cipher) {
        Ok(text) => Ok(Octets::from_vec(text)),
        Err(CbcFault::Padding) => Err(UnsealFault::BadPadding),
        Err(CbcFault::NoMemory) => Err(UnsealFault::NoMemory),
        Err(CbcFault::Length { .. }) => unreachable!(),
    }
}
