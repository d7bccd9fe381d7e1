// The values are those of FIPS 197, of SP 800-38A, of OpenSSL and of an independent model.
use super::*;
use std::alloc::{AllocError, Global};
use std::test::Fail;

mod rows;

use rows::ROWS;

// The key of FIPS 197, appendices A.1 and B, and of SP 800-38A, appendix F.2.1.
const KEY: u128 = 0x2b7e151628aed2a6abf7158809cf4f3c;

// The initialization vector of SP 800-38A, appendix F.2.1.
const IV: u128 = 0x000102030405060708090a0b0c0d0e0f;

// Its text, and the text encrypted.
const PLAIN: [u128; 4] = [
    0x6bc1bee22e409f96e93d7e117393172a,
    0xae2d8a571e03ac9c9eb76fac45af8e51,
    0x30c81c46a35ce411e5fbc1191a0a52ef,
    0xf69f2445df4f9b17ad2b417be66c3710,
];

const CIPHER: [u128; 4] = [
    0x7649abac8119b246cee98e9b12e9197d,
    0x5086cb9b507219ee95db113a917678b2,
    0x73bed6b8e3c1743b7116e69e22229516,
    0x3ff1caa1681fac09120eca307586e1a7,
];

// What follows it for the padding, as OpenSSL gives it.
const CIPHER_OF_PADDING: u128 = 0x8cb82807230e1321d3fae00d18cc2012;

fn bytes_of(alloc: Global, blocks: &[u128]) -> Result<Vec<u8>, AllocError> {
    let mut bytes = Vec::new(alloc);
    for block in blocks {
        bytes.extend_from_slice(&block.to_be_bytes())?;
    }
    Ok(bytes)
}

// What a cipher text of one block gives whose text, with its padding, is this block.
fn decrypt_to(alloc: Global, padded: u128) -> Result<Vec<u8>, CbcFault> {
    let iv = (IV ^ PLAIN[0] ^ padded).to_be_bytes();
    let schedule = Schedule::new(&KEY.to_be_bytes());
    cbc_decrypt(alloc, &schedule, &iv, &CIPHER[0].to_be_bytes())
}

#[test]
fn the_expansion_ends_in_its_last_round_key(rt: HostRuntime) -> Result<(), Fail> {
    let schedule = Schedule::new(&KEY.to_be_bytes());
    let last = u128::from_be_bytes(schedule.round_key(10));
    assert_eq!(rt; last, 0xd014f9a8c9ee2589e13f0cc8b6630ca6);
    Ok(())
}

#[test]
fn blocks_are_encrypted_and_decrypted(rt: HostRuntime) -> Result<(), Fail> {
    let standard = [
        [
            KEY,
            0x3243f6a8885a308d313198a2e0370734,
            0x3925841d02dc09fbdc118597196a0b32,
        ],
        [
            0x000102030405060708090a0b0c0d0e0f,
            0x00112233445566778899aabbccddeeff,
            0x69c4e0d86a7b0430d8cdb78070b4c55a,
        ],
    ];
    for [key, plain, cipher] in standard.iter().chain(ROWS.iter()) {
        let schedule = Schedule::new(&key.to_be_bytes());
        let encrypted = schedule.encrypt_block(&plain.to_be_bytes());
        assert_eq!(rt; u128::from_be_bytes(encrypted), *cipher);
        let decrypted = schedule.decrypt_block(&cipher.to_be_bytes());
        assert_eq!(rt; u128::from_be_bytes(decrypted), *plain);
    }
    Ok(())
}

#[test]
fn a_text_is_encrypted_and_decrypted(rt: HostRuntime) -> Result<(), Fail> {
    let alloc = rt.alloc();
    let schedule = Schedule::new(&KEY.to_be_bytes());
    let plain = bytes_of(alloc, &PLAIN)?;
    let mut wanted = bytes_of(alloc, &CIPHER)?;
    wanted.extend_from_slice(&CIPHER_OF_PADDING.to_be_bytes())?;
    let cipher = cbc_encrypt(alloc, &schedule, &IV.to_be_bytes(), &plain)?;
    assert_eq!(rt; cipher.as_slice(), wanted.as_slice());
    let text = cbc_decrypt(alloc, &schedule, &IV.to_be_bytes(), &cipher)?;
    assert_eq!(rt; text.as_slice(), plain.as_slice());
    for len in 0..plain.len() {
        let cipher = cbc_encrypt(alloc, &schedule, &IV.to_be_bytes(), &plain[..len])?;
        assert_eq!(rt; cipher.len(), len / 16 * 16 + 16);
        let text = cbc_decrypt(alloc, &schedule, &IV.to_be_bytes(), &cipher)?;
        assert_eq!(rt; text.as_slice(), &plain[..len]);
    }
    Ok(())
}

#[test]
fn a_bad_length_is_told(rt: HostRuntime) -> Result<(), Fail> {
    let alloc = rt.alloc();
    let schedule = Schedule::new(&KEY.to_be_bytes());
    let cipher = bytes_of(alloc, &CIPHER)?;
    for len in 0..cipher.len() {
        if len == 0 || len % 16 != 0 {
            let answer = cbc_decrypt(alloc, &schedule, &IV.to_be_bytes(), &cipher[..len]);
            assert_eq!(rt; answer.err(), Some(CbcFault::Length { len: len as u64 }));
        }
    }
    Ok(())
}

#[test]
fn a_wrong_padding_is_told(rt: HostRuntime) -> Result<(), Fail> {
    let alloc = rt.alloc();
    let right = [
        (0x000102030405060708090a0b0c0d0e01, 15),
        (0x000102030405060708090a0b0c0d0202, 14),
        (0x000d0d0d0d0d0d0d0d0d0d0d0d0d0d0d, 3),
        (0x000f0f0f0f0f0f0f0f0f0f0f0f0f0f0f, 1),
        (0x10101010101010101010101010101010, 0),
    ];
    for (padded, len) in right {
        let text = decrypt_to(alloc, padded)?;
        assert_eq!(rt; text.as_slice(), &u128::to_be_bytes(padded)[..len]);
    }
    let wrong = [
        0x000102030405060708090a0b0c0d0e00,
        0x000102030405060708090a0b0c0d0e02,
        0x000102030405060708090a0b0c030203,
        0x00100f0f0f0f0f0f0f0f0f0f0f0f0f0f,
        0x0f101010101010101010101010101010,
        0x11111111111111111111111111111111,
        PLAIN[0],
    ];
    for padded in wrong {
        assert_eq!(rt; decrypt_to(alloc, padded).err(), Some(CbcFault::Padding));
    }
    Ok(())
}

#[test]
fn the_laws_are_called_and_texts_printed(rt: HostRuntime) -> Result<(), Fail> {
    inverse_cipher_undoes_cipher();
    cipher_undoes_inverse_cipher();
    decryption_undoes_encryption();
    let alloc = rt.alloc();
    let faults = [
        (CbcFault::Length { len: 15 }, "15 bytes are no whole blocks"),
        (CbcFault::Padding, "wrong padding"),
        (CbcFault::NoMemory, "no memory"),
    ];
    for (fault, text) in faults {
        assert_eq!(rt; format!(in alloc; "{fault}")?.as_str(), text);
    }
    assert_eq!(rt; format!(in alloc; "{NoMemory}")?.as_str(), "no memory");
    let schedule = Schedule::new(&KEY.to_be_bytes());
    let shown = format!(in alloc; "{schedule:?}")?;
    assert_eq!(rt; shown.as_str(), "Schedule { .. }");
    Ok(())
}
