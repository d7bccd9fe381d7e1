// The bytes are worked out by hand from the table of an entity's fields; the hash is the base64 of twenty zero bytes.
use crate::*;
use client_tags::{Kind, TagHash};
use std::test::Fail;
use sync_specifics::Specifics;
use wire_fields::Octets;

#[test]
fn an_entity_with_an_id_alone(rt: HostRuntime) -> Result<(), Fail> {
    let entity = decode_entity(rt.alloc(), b"\x0a\x01x")?;
    assert_eq!(rt; entity.id.as_slice(), b"x".as_slice());
    assert_eq!(rt; entity.version, 0);
    assert!(rt; !entity.deleted);
    assert!(rt; entity.specifics.is_none());
    assert_eq!(rt; entity.hash, None);
    let bytes = encode_entity(rt.alloc(), &entity)?;
    assert_eq!(rt; bytes.as_slice(), b"\x0a\x01x".as_slice());
    Ok(())
}

#[test]
fn a_negative_version_has_ten_bytes(rt: HostRuntime) -> Result<(), Fail> {
    let bytes = b"\x20\xff\xff\xff\xff\xff\xff\xff\xff\xff\x01";
    let entity = decode_entity(rt.alloc(), bytes)?;
    assert_eq!(rt; entity.version, -1);
    assert!(rt; entity.id.is_empty());
    let again = encode_entity(rt.alloc(), &entity)?;
    assert_eq!(rt; again.as_slice(), bytes.as_slice());
    Ok(())
}

#[test]
fn an_entity_with_all_its_fields(rt: HostRuntime) -> Result<(), Fail> {
    let entity = Entity {
        id: Octets::from_slice(rt.alloc(), b"x")?,
        version: 7,
        deleted: true,
        specifics: Some(Specifics::EmptyOf(Kind::Preference)),
        hash: Some(TagHash::from_bytes([0; 20])),
    };
    let bytes = encode_entity(rt.alloc(), &entity)?;
    let wanted =
        b"\x0a\x01x\x20\x07\x90\x01\x01\xaa\x01\x04\xb2\xb4\x12\x00\xba\x01\x1cAAAAAAAAAAAAAAAAAAAAAAAAAAA=";
    assert_eq!(rt; bytes.as_slice(), wanted.as_slice());
    let again = decode_entity(rt.alloc(), wanted)?;
    assert_eq!(rt; again.version, 7);
    assert!(rt; again.deleted);
    assert!(rt; again.specifics.is_some());
    assert_eq!(rt; again.hash, Some(TagHash::from_bytes([0; 20])));
    Ok(())
}

#[test]
fn a_hash_that_is_no_hash_text_is_none(rt: HostRuntime) -> Result<(), Fail> {
    let rows: [&[u8]; 4] = [
        b"\xba\x01\x00",
        b"\xba\x01\x03abc",
        b"\xba\x01\x1cAAAAAAAAAAAAAAAAAAAAAAAAAAB=",
        b"\xba\x01\x1cAAAAAAAAAAAAAAAAAAAAAAAAAAA=\xba\x01\x01A",
    ];
    for bytes in rows {
        assert_eq!(rt; decode_entity(rt.alloc(), bytes)?.hash, None);
    }
    Ok(())
}

#[test]
fn any_number_but_0_says_that_it_was_deleted(rt: HostRuntime) -> Result<(), Fail> {
    let rows: [(&[u8], bool); 3] = [
        (b"\x90\x01\x02", true),
        (b"\x90\x01\x80\x00", false),
        (b"\x90\x01\x01\x90\x01\x00", false),
    ];
    for (bytes, deleted) in rows {
        assert_eq!(rt; decode_entity(rt.alloc(), bytes)?.deleted, deleted);
    }
    Ok(())
}
