//! Sealing a text, and naming a key by a sealed word.
ghost use Rattle.std.specs.Prelude.{◌≡◌, IfOk};
ghost use Rattle.base64.specs.Engines.{standard};
ghost use Rattle.base64.specs.GeneralPurpose.{encode_of};
ghost use Rattle.nigori.specs.Sealing.{cipher_of, key_name, sealed, tagged};

use aes_cbc::{Schedule, cbc_encrypt};
use base64::engine::general_purpose::STANDARD;
use key_derivation::{NigoriKey, hmac_sha256};
use std::alloc::Global;
use wire_fields::{NoMemory, Octets};

// The word `nigori-key` after its length, and the number 1 after its own.
const NAME_TEXT: &[u8; 22] = b"\0\0\0\x0anigori-key\0\0\0\x04\0\0\0\x01";

/// The name of a key: 88 characters of base64, the same ones at each call. The part `user` has no say in it.
///
/// It encrypts and hashes a text of fixed length.
#[tactic(auto, unfolding(crate::specs::Sealing::key_name, crate::specs::Sealing::name_text))]
pub fn key_name(alloc: Global, key: &NigoriKey) -> Result<Octets, NoMemory>
    ensures { IfOk result (λ name. name ≡ key_name key.now) }
{
    let bytes = encrypted_and_tagged(alloc, key, NAME_TEXT, &[0; 16])?;
    base64_text(alloc, &bytes)
}

/// A text, sealed under a key: base64 of the initialization vector, the encrypted text and its tag.
///
/// The vector is to be one that nobody can foretell. The tag does not cover it: a blob whose vector was
/// changed can unseal to another text.
///
/// It takes time and memory linear in the length of the text.
#[tactic(auto, unfolding(crate::specs::Sealing::sealed))]
pub fn seal(alloc: Global, key: &NigoriKey, plain: &[u8], iv: &[u8; 16]) -> Result<Octets, NoMemory>
    ensures { IfOk result (λ blob. blob ≡ sealed key.now plain.now iv.now) }
{
    let tagged = encrypted_and_tagged(alloc, key, plain, iv)?;
    let mut bytes = Vec::from_slice(alloc, iv)?;
    bytes.extend_from_slice(&tagged)?;
    base64_text(alloc, &bytes)
}

// The cipher text of a text, and its tag after it.
fn encrypted_and_tagged(
    alloc: Global,
    key: &NigoriKey,
    plain: &[u8],
    iv: &[u8; 16],
) -> Result<Vec<u8>, NoMemory>
    ensures { IfOk result (λ bytes. bytes.items ≡ tagged key.now (cipher_of key.now plain.now iv.now)) }
{
    let Ok(mut bytes) = cbc_encrypt(alloc, &Schedule::new(&key.enc), iv, plain) else {
        return Err(NoMemory);
    };
    let tag = hmac_sha256(&key.mac, &bytes);
    bytes.extend_from_slice(&tag)?;
    Ok(bytes)
}

// The bytes in standard base64 with padding.
fn base64_text(alloc: Global, bytes: &[u8]) -> Result<Octets, NoMemory>
    ensures { IfOk result (λ text. text ≡ encode_of standard bytes.now) }
{
    let text = STANDARD.encode(alloc, bytes)?;
    Ok(Octets::from_vec(text.into_bytes()))
}
