// Texts that an independent model sealed: the parts of the key, the vector, the text, and the blob. None of the texts is
// the message of a login, so a worker that unseals one tells that.
use super::*;
use key_derivation::NigoriKey;
use std::test::Fail;

const TEXTS: [([u128; 3], u128, &[u8], &[u8]); 6] = [
    (
        [
            0xf91ee25e5635a41304781da877e6e5e8,
            0x0454043a777fc92e8fc66254d185ee35,
            0x4c5ef05e33168303c892d1e3ed90f193,
        ],
        0x06dfe04fa2494bfa77de8d14e2f8b319,
        b"",
        b"Bt/gT6JJS/p33o0U4vizGSDEOjNwf7sv+EPyXJGDTLp3v2HInM7M+9yuFOoDOQJqFfwbpoJpfuHqvZcoI0Y5FA==",
    ),
    (
        [
            0x55813aedeeeb1cf97c6b86a9c38e9c34,
            0xf3d85352ec503e168137939f85fc7667,
            0x8516d613a1127030dceaf9a854ee5c30,
        ],
        0x9b01dbe7406382d984a4f88379923424,
        b"\x26",
        b"mwHb50BjgtmEpPiDeZI0JEhZ19Z3C18zXOnLxEbrZJuZ4Huk/ZVEwKsV7+DUu2SWun6ay/cKdQiijaEPVoYO4w==",
    ),
    (
        [
            0x28e077b5170e1314e1551e8450183f31,
            0xa6df5c7f3f3c8c2628997b6a6e474d9e,
            0x6bc1959b84839dfd23394633896fb78b,
        ],
        0xf45a700209102577808df487569823ce,
        b"\x40\x84\xa9\xe2\x64\xc6\xa8\x91\x18\xd7\x56\xfb\x84\x49\x8a",
        b"9FpwAgkQJXeAjfSHVpgjzjAIja27a4Y9LVarF5nkffRc2ccXeGCFGsG8C+amVrDWAJ/7WRXAytE12a9y3hykzQ==",
    ),
    (
        [
            0xd5dfd816e9aa25636f5df592698f3cfa,
            0x2fe1c2f196ec84b292addc070a29e8ae,
            0x1f21c09bb53c2582cd1c0908b3237ddf,
        ],
        0x8d4135cb5a50b917c1129beae618d5d5,
        b"\x2e\xb5\xd5\x69\xbb\x25\x6a\xfa\x12\x47\x19\x8d\x27\xda\x1d\x49",
        b"jUE1y1pQuRfBEpvq5hjV1Qy+9m9s71VSiMzDSPxL1Odh/kAsovk0DuFILozTw5APAh44PxB4xYUPM2BinYYYWe5FeTuXXCWIdcqzg/dHmMg=",
    ),
    (
        [
            0x8972c22832e8a929565b5c256d53db48,
            0x6f4fc3bc0b514fe91f7d711b7c533a52,
            0x149777d414afdd274211be2db6d61031,
        ],
        0x700e7f2bba782612d54870293ca9c5d2,
        b"\x3b\x2b\x1d\x75\xe6\x3a\xb2\x52\x50\x3e\x51\x94\x6b\x1d\xbd\x14\xd7",
        b"cA5/K7p4JhLVSHApPKnF0jcDSjKw+I8QuuPR/3/WCfgDVsptUpbd9FYERQvGkscDOWItdQm7b5yWtSQE1BBiA0wYkA19oPZtVhiPS72cpUE=",
    ),
    (
        [
            0xe3ec7bca57b46b37b7b73b72b14a11c2,
            0xfe31cdd8ce033a6a6139f6fcd87b28da,
            0x41ca528ed17b71e00adfaea08585b98b,
        ],
        0x2041a49e7bb566ed2c10bf3f4073c6de,
        b"\x8a\xec\xc5\x73\xde\xed\xeb\xaf\xba\xd6\xe9\x62\x6d\xb6\xf7\x1d\x6c\xa5\x76\x8b\xb0\x11\xbe\xbe\xf3\x36\xa0\xde\x2f\x9b\x10\x9d\x09\x82\x29\x49\xc9\x75\x2d\x04\xde\xc5\x13\x54\x00\x20\x7c\x22\xb2",
        b"IEGknnu1Zu0sEL8/QHPG3lWUMiw22XBXA2p9JkmwoHmd4COGOB1WW7iVWK4mx5CFiy8CyU4XYiezQtyEPFBho95D+Nz+X6kZeyZ+cotf0ty0mvNc3JUJ/POYh3FBZuP1KxKlbWIpqNfJdbx0M14ulw==",
    ),
];

fn key_of(parts: &[u128; 3]) -> NigoriKey {
    NigoriKey {
        user: parts[0].to_be_bytes(),
        enc: parts[1].to_be_bytes(),
        mac: parts[2].to_be_bytes(),
    }
}

// A bag with one key, and a text sealed under it.
fn sealed_with(
    alloc: Global,
    key: &NigoriKey,
    text: &[u8],
    vector: u128,
) -> Result<(KeyBag, Sealed), Fail> {
    let mut bag = KeyBag::new(alloc);
    bag.add(key)?;
    let names = bag.names()?;
    let Some(name) = names.as_slice().first() else {
        return Err("no key".into());
    };
    match bag.seal_named(name, text, &vector.to_be_bytes()) {
        Ok(sealed) => Ok((bag, sealed)),
        Err(_) => Err("not sealed".into()),
    }
}

// What is told is that a text was unsealed which is no content.
fn is_no_content(worker: &Worker) -> bool {
    match worker.blocked() {
        Some(blocked) => matches!(blocked.cause, BlockCause::Content(_)),
        None => false,
    }
}

#[test]
fn texts_are_sealed_and_unsealed(rt: HostRuntime) -> Result<(), Fail> {
    for (parts, vector, text, blob) in TEXTS {
        let (bag, sealed) = sealed_with(rt.alloc(), &key_of(&parts), text, vector)?;
        assert_eq!(rt; sealed.blob.as_slice(), blob);
        let mut worker = Worker::new(rt.alloc(), Kind::Password);
        let entity = entity(rt.alloc(), hash_of(b"a"), 7, Specifics::Password(sealed));
        assert!(rt; is_pending(take(rt.alloc(), &mut worker, &bag, entity)?));
        assert!(rt; is_no_content(&worker));
    }
    Ok(())
}
