use crate::{derive, hmac_sha1, hmac_sha256, pbkdf2};
use std::alloc::{AllocError, Global};
use std::fmt::Write;
use std::test::Fail;

const JEFE_TEXT: &[u8] = b"what do ya want for nothing?";

const LONG_KEY_TEXT: &[u8] = b"Test Using Larger Than Block-Size Key - Hash Key First";

fn hexadecimal(alloc: Global, bytes: &[u8]) -> Result<String, AllocError> {
    let mut text = String::new(alloc);
    for byte in bytes {
        write!(text, "{byte:02x}")?;
    }
    Ok(text)
}

// RFC 2202, section 3: the cases 2, 3, 6 and 7.
#[test]
fn hmac_sha1_of_the_standard(rt: HostRuntime) -> Result<(), Fail> {
    let long_text = b"Test Using Larger Than Block-Size Key and Larger Than One Block-Size Data";
    let cases: [(&[u8], &[u8], &str); 4] = [
        (
            b"Jefe",
            JEFE_TEXT,
            "effcdf6ae5eb2fa2d27416d5f184df9c259a7c79",
        ),
        (
            &[0xaa; 20],
            &[0xdd; 50],
            "125d7342b9ac11cd91a39af48aa17b4f63f175d3",
        ),
        (
            &[0xaa; 80],
            LONG_KEY_TEXT,
            "aa4ae5e15272d00e95705637ce8a3b55ed402112",
        ),
        (
            &[0xaa; 80],
            long_text,
            "e8e99d0f45237d786d6bbaa7965c7808bbff1a91",
        ),
    ];
    for (key, text, digest) in cases {
        let found = hexadecimal(rt.alloc(), &hmac_sha1(key, text))?;
        assert_eq!(rt; found.as_str(), digest);
    }
    Ok(())
}

// RFC 4231, sections 4.3, 4.4, 4.7 and 4.8.
#[test]
fn hmac_sha256_of_the_standard(rt: HostRuntime) -> Result<(), Fail> {
    let long_text = b"This is a test using a larger than block-size key and a larger than \
        block-size data. The key needs to be hashed before being used by the HMAC algorithm.";
    let cases: [(&[u8], &[u8], &str); 4] = [
        (
            b"Jefe",
            JEFE_TEXT,
            "5bdcc146bf60754e6a042426089575c75a003f089d2739839dec58b964ec3843",
        ),
        (
            &[0xaa; 20],
            &[0xdd; 50],
            "773ea91e36800e46854db8ebd09181a72959098b3ef8c122d9635514ced565fe",
        ),
        (
            &[0xaa; 131],
            LONG_KEY_TEXT,
            "60e431591ee0b67f0d8a26aacbf5b77f8e0bc6213728c5140546040f0ee37f54",
        ),
        (
            &[0xaa; 131],
            long_text,
            "9b09ffa71b942fcb27635fbcd5b0e944bfdc63644f0713938a7f51535c3a35e2",
        ),
    ];
    for (key, text, digest) in cases {
        let found = hexadecimal(rt.alloc(), &hmac_sha256(key, text))?;
        assert_eq!(rt; found.as_str(), digest);
    }
    Ok(())
}

// RFC 6070, section 2, with 20 bytes.
#[test]
fn pbkdf2_of_20_bytes(rt: HostRuntime) -> Result<(), Fail> {
    let cases = [
        (1, "0c60c80f961f0e71f3a9b524af6012062fe037a6"),
        (2, "ea6c014dc72d6f8ccd1ed92ace1d41f0d8de8957"),
        (4096, "4b007901b765489abead49d926f721d065a429c1"),
    ];
    for (turns, derived) in cases {
        let mut out = [0; 20];
        assert!(rt; turns >= 1);
        pbkdf2(b"password", b"salt", turns, &mut out);
        assert_eq!(rt; hexadecimal(rt.alloc(), &out)?.as_str(), derived);
    }
    Ok(())
}

// RFC 6070, section 2: two blocks, and zero bytes in the password and the salt.
#[test]
fn pbkdf2_of_other_lengths(rt: HostRuntime) -> Result<(), Fail> {
    let mut longer = [0; 25];
    let salt = b"saltSALTsaltSALTsaltSALTsaltSALTsalt";
    pbkdf2(b"passwordPASSWORDpassword", salt, 4096, &mut longer);
    let derived = "3d2eec4fe41c849b80c8d83662c0e44a8b291a964cf2f07038";
    assert_eq!(rt; hexadecimal(rt.alloc(), &longer)?.as_str(), derived);

    let mut shorter = [0; 16];
    pbkdf2(b"pass\0word", b"sa\0lt", 4096, &mut shorter);
    let derived = "56fa6aa75548099dcc37d7f03425e0c3";
    assert_eq!(rt; hexadecimal(rt.alloc(), &shorter)?.as_str(), derived);
    Ok(())
}

// Made by an independent program: a passphrase of no byte and one of a zero byte, which have the
// same keys, one that fills a block, one that is a byte longer, and one with letters past ASCII.
#[test]
fn keys_of_passphrases(rt: HostRuntime) {
    let cases: [(&[u8], u128, u128, u128); 6] = [
        (
            b"",
            0x30ad91052046ec068592c217b207e262,
            0x6e964bae613e0d69efb727e90009b10e,
            0x87088342d6dd05bbe008c5d7dc0114e2,
        ),
        (
            b"\0",
            0x30ad91052046ec068592c217b207e262,
            0x6e964bae613e0d69efb727e90009b10e,
            0x87088342d6dd05bbe008c5d7dc0114e2,
        ),
        (
            b"first",
            0x0f53363963997fc433ad7c5b8c777e57,
            0x4bb0fa2370f6585a0146fdf255646201,
            0x12cb7481e22825161ea206cec9d4e4b0,
        ),
        (
            &[b'x'; 64],
            0x151a2c2cc9af6229b0c3478afebee41a,
            0xd12e8352c7e6a5434a38fadf284766e3,
            0xdee7af62ee939f3bbae9a840ab790d89,
        ),
        (
            &[b'y'; 65],
            0x807da2bcacdd815d46d2dac39402e40f,
            0x0b6b2da7e53284847dbdfd7bb4286de8,
            0x103bf511757fa43224880e500d252c62,
        ),
        (
            b"pass\xc3\xa9",
            0x1bbc41cbcc9074b8a3f40e1b06d86443,
            0x5c3d8aaac2c653720726996e9c423a40,
            0x4318965ef10c3a9560e7744be381d671,
        ),
    ];
    for (pass, user, enc, mac) in cases {
        let key = derive(pass);
        assert_eq!(rt; u128::from_be_bytes(key.user), user);
        assert_eq!(rt; u128::from_be_bytes(key.enc), enc);
        assert_eq!(rt; u128::from_be_bytes(key.mac), mac);
    }
}
