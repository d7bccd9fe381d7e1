// The rows were made by an independent model of the layout; the other blobs are altered ones of it.
use super::*;
use base64::DecodeAllocError;
use base64::engine::general_purpose::STANDARD;
use key_derivation::{NigoriKey, derive};
use std::alloc::{AllocError, Global};
use std::test::Fail;
use wire_fields::Octets;

mod rows;

use rows::{NAMED, SEALED};

const IV: [u8; 16] = *b"\x0f\x1e\x2d\x3c\x4b\x5a\x69\x78\x87\x96\xa5\xb4\xc3\xd2\xe1\xf0";

fn key_of(parts: &[u128; 3]) -> NigoriKey {
    NigoriKey {
        user: parts[0].to_be_bytes(),
        enc: parts[1].to_be_bytes(),
        mac: parts[2].to_be_bytes(),
    }
}

// The blob of the same bytes but for one, in which these bits are turned.
fn altered(alloc: Global, blob: &[u8], place: usize, bits: u8) -> Result<String, DecodeAllocError> {
    let mut bytes = STANDARD.decode(alloc, blob)?;
    if let Some(byte) = bytes.get_mut(place) {
        *byte ^= bits;
    }
    Ok(STANDARD.encode(alloc, &bytes)?)
}

// The last 32 bytes of a blob.
fn tag_of(alloc: Global, blob: &[u8]) -> Result<[u8; 32], DecodeAllocError> {
    let bytes = STANDARD.decode(alloc, blob)?;
    let Some((_, tag)) = bytes.split_last_chunk::<32>() else {
        return Ok([0; 32]);
    };
    Ok(*tag)
}

// The blob of so many bytes of zero.
fn zeros(alloc: Global, len: usize) -> Result<String, AllocError> {
    STANDARD.encode(alloc, &[0; 130][..len.min(130)])
}

fn fault_of(answer: &Result<Octets, UnsealFault>) -> Option<UnsealFault> {
    match answer {
        Ok(_) => None,
        Err(fault) => Some(*fault),
    }
}

#[test]
fn texts_are_sealed_and_unsealed(rt: HostRuntime) -> Result<(), Fail> {
    let alloc = rt.alloc();
    for (parts, iv, text, blob) in SEALED {
        let key = key_of(&parts);
        let sealed = seal(alloc, &key, text, &iv.to_be_bytes())?;
        assert_eq!(rt; sealed.as_slice(), blob);
        let unsealed = unseal(alloc, &key, blob)?;
        assert_eq!(rt; unsealed.as_slice(), text);
    }
    Ok(())
}

#[test]
fn keys_have_their_names(rt: HostRuntime) -> Result<(), Fail> {
    let alloc = rt.alloc();
    for (parts, wanted) in NAMED {
        let name = key_name(alloc, &key_of(&parts))?;
        assert_eq!(rt; name.as_slice(), wanted);
        assert_eq!(rt; name.len(), 88);
    }
    Ok(())
}

#[test]
fn a_changed_tag_is_told_with_the_right_one(rt: HostRuntime) -> Result<(), Fail> {
    let alloc = rt.alloc();
    let key = derive(b"first");
    let blob = seal(alloc, &key, b"", &IV)?;
    assert_eq!(rt; blob.len(), 88);
    assert!(rt; unseal(alloc, &key, blob.as_slice())?.is_empty());
    let changed = altered(alloc, blob.as_slice(), 63, 0x80)?;
    let wanted = UnsealFault::BadTag {
        found: tag_of(alloc, changed.as_bytes())?,
        computed: tag_of(alloc, blob.as_slice())?,
    };
    let answer = unseal(alloc, &key, changed.as_bytes());
    assert_eq!(rt; fault_of(&answer), Some(wanted));
    let other = unseal(alloc, &derive(b"second"), blob.as_slice());
    assert!(rt; matches!(fault_of(&other), Some(UnsealFault::BadTag { .. })));
    Ok(())
}

#[test]
fn a_changed_vector_is_not_told_as_such(rt: HostRuntime) -> Result<(), Fail> {
    let alloc = rt.alloc();
    let key = derive(b"first");
    let empty = seal(alloc, &key, b"", &IV)?;
    let changed = altered(alloc, empty.as_slice(), 0, 0x01)?;
    let answer = unseal(alloc, &key, changed.as_bytes());
    assert_eq!(rt; fault_of(&answer), Some(UnsealFault::BadPadding));

    let letters = seal(alloc, &key, b"abcdefghijklmnopqrst", &IV)?;
    let changed = altered(alloc, letters.as_slice(), 0, 0x01)?;
    let text = unseal(alloc, &key, changed.as_bytes())?;
    assert_eq!(rt; text.as_slice(), b"\x60bcdefghijklmnopqrst".as_slice());
    Ok(())
}

#[test]
fn a_text_that_is_no_base64_is_told(rt: HostRuntime) -> Result<(), Fail> {
    let alloc = rt.alloc();
    let key = derive(b"first");
    let blobs: [&[u8]; 5] = [
        b"A",
        b"AAA",
        b"AA",
        b"AA\n=",
        // That of the first row, with a bit set past its last byte.
        b"Bt/gT6JJS/p33o0U4vizGSDEOjNwf7sv+EPyXJGDTLp3v2HInM7M+9yuFOoDOQJqFfwbpoJpfuHqvZcoI0Y5FB==",
    ];
    for blob in blobs {
        let answer = unseal(alloc, &key, blob);
        assert_eq!(rt; fault_of(&answer), Some(UnsealFault::NotBase64));
    }
    Ok(())
}

#[test]
fn a_bad_length_is_told(rt: HostRuntime) -> Result<(), Fail> {
    let alloc = rt.alloc();
    let key = derive(b"first");
    let short = unseal(alloc, &key, b"AAAA");
    assert_eq!(rt; fault_of(&short), Some(UnsealFault::BadLength { len: 3 }));
    for len in [0, 16, 32, 47, 48, 63, 65, 79, 81] {
        let blob = zeros(alloc, len)?;
        let answer = unseal(alloc, &key, blob.as_bytes());
        let wanted = UnsealFault::BadLength { len: len as u64 };
        assert_eq!(rt; fault_of(&answer), Some(wanted));
    }
    for len in [64, 80, 96] {
        let blob = zeros(alloc, len)?;
        let answer = unseal(alloc, &key, blob.as_bytes());
        assert!(rt; matches!(fault_of(&answer), Some(UnsealFault::BadTag { .. })));
    }
    Ok(())
}

#[test]
fn the_laws_are_called_and_faults_printed(rt: HostRuntime) -> Result<(), Fail> {
    unsealing_undoes_sealing();
    names_have_88_characters();
    let alloc = rt.alloc();
    let tags = UnsealFault::BadTag {
        found: [0; 32],
        computed: [1; 32],
    };
    let faults = [
        (UnsealFault::NotBase64, "no base64"),
        (
            UnsealFault::BadLength { len: 3 },
            "3 bytes are no sealed text",
        ),
        (tags, "wrong tag"),
        (UnsealFault::BadPadding, "wrong padding"),
        (UnsealFault::NoMemory, "no memory"),
    ];
    for (fault, text) in faults {
        assert_eq!(rt; format!(in alloc; "{fault}")?.as_str(), text);
    }
    Ok(())
}
