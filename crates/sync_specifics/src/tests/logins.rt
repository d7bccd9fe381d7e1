// The bytes and the faults are worked out by hand from the table of a login's fields.
use crate::*;
use std::alloc::Global;
use std::test::Fail;
use wire_fields::{NoMemory, Octets};
use wire_format::WireReason;

// Realm, origin, the user's element and value, the password's element and value.
const TEXTS: [u8; 18] = *b"\x12\x01r\x1a\x01o\x2a\x01u\x32\x01v\x3a\x01p\x42\x01s";

fn login(alloc: Global, created: i64) -> Result<Password, NoMemory> {
    Ok(Password {
        origin: Octets::from_slice(alloc, b"o")?,
        user_element: Octets::from_slice(alloc, b"u")?,
        user_value: Octets::from_slice(alloc, b"v")?,
        pass_element: Octets::from_slice(alloc, b"p")?,
        realm: Octets::from_slice(alloc, b"r")?,
        secret: Octets::from_slice(alloc, b"s")?,
        created,
        extra: Octets::new(alloc),
    })
}

fn fault_of(alloc: Global, bytes: &[u8]) -> Option<MessageFault> {
    match decode_password(alloc, bytes) {
        Ok(_) => None,
        Err(fault) => Some(fault),
    }
}

#[test]
fn a_login_is_its_texts(rt: HostRuntime) -> Result<(), Fail> {
    let bytes = encode_password(rt.alloc(), &login(rt.alloc(), 0)?)?;
    assert_eq!(rt; bytes.as_slice(), TEXTS.as_slice());
    let again = decode_password(rt.alloc(), &TEXTS)?;
    assert_eq!(rt; again.realm.as_slice(), b"r".as_slice());
    assert_eq!(rt; again.origin.as_slice(), b"o".as_slice());
    assert_eq!(rt; again.user_element.as_slice(), b"u".as_slice());
    assert_eq!(rt; again.user_value.as_slice(), b"v".as_slice());
    assert_eq!(rt; again.pass_element.as_slice(), b"p".as_slice());
    assert_eq!(rt; again.secret.as_slice(), b"s".as_slice());
    assert_eq!(rt; again.created, 0);
    Ok(())
}

#[test]
fn unknown_fields_are_kept(rt: HostRuntime) -> Result<(), Fail> {
    let mut value = login(rt.alloc(), 3)?;
    value.extra = Octets::from_slice(rt.alloc(), b"\x08\x01")?;
    let bytes = encode_password(rt.alloc(), &value)?;
    assert_eq!(rt;
        bytes.as_slice().get(18..),
        Some(b"\x58\x03\x08\x01".as_slice())
    );
    let again = decode_password(rt.alloc(), bytes.as_slice())?;
    assert_eq!(rt; again.extra, value.extra);
    Ok(())
}

#[test]
fn a_login_was_made_at_some_time(rt: HostRuntime) -> Result<(), Fail> {
    let rows: [(i64, &[u8]); 4] = [
        (3, b"\x58\x03"),
        (-1, b"\x58\xff\xff\xff\xff\xff\xff\xff\xff\xff\x01"),
        (i64::MAX, b"\x58\xff\xff\xff\xff\xff\xff\xff\xff\x7f"),
        (i64::MIN, b"\x58\x80\x80\x80\x80\x80\x80\x80\x80\x80\x01"),
    ];
    for (created, end) in rows {
        let bytes = encode_password(rt.alloc(), &login(rt.alloc(), created)?)?;
        assert_eq!(rt; bytes.as_slice().get(..18), Some(TEXTS.as_slice()));
        assert_eq!(rt; bytes.as_slice().get(18..), Some(end));
        let again = decode_password(rt.alloc(), bytes.as_slice())?;
        assert_eq!(rt; again.created, created);
    }
    Ok(())
}

#[test]
fn all_texts_have_to_be_there(rt: HostRuntime) -> Result<(), Fail> {
    let missing = |field| MessageReason::Missing { field };
    let rows: [(&[u8], u64, MessageReason); 8] = [
        (b"", 0, missing(2)),
        (
            b"\x1a\x01o\x2a\x01u\x32\x01v\x3a\x01p\x42\x01s",
            15,
            missing(2),
        ),
        (
            b"\x12\x01r\x2a\x01u\x32\x01v\x3a\x01p\x42\x01s",
            15,
            missing(3),
        ),
        (
            b"\x12\x01r\x1a\x01o\x32\x01v\x3a\x01p\x42\x01s",
            15,
            missing(5),
        ),
        (
            b"\x12\x01r\x1a\x01o\x2a\x01u\x3a\x01p\x42\x01s",
            15,
            missing(6),
        ),
        (
            b"\x12\x01r\x1a\x01o\x2a\x01u\x32\x01v\x42\x01s",
            15,
            missing(7),
        ),
        (
            b"\x12\x01r\x1a\x01o\x2a\x01u\x32\x01v\x3a\x01p",
            15,
            missing(8),
        ),
        (
            b"\x12\x01r\x2a\x01u\x32\x01v\x3a\x01p\x58\x00",
            14,
            missing(3),
        ),
    ];
    for (bytes, at, reason) in rows {
        assert_eq!(rt;
            fault_of(rt.alloc(), bytes),
            Some(MessageFault { at, reason })
        );
    }
    Ok(())
}

#[test]
fn a_login_has_its_wire_kinds(rt: HostRuntime) -> Result<(), Fail> {
    let rows: [(&[u8], u64, MessageReason); 4] = [
        (b"\x5a\x00", 0, MessageReason::WrongKind { field: 11 }),
        (
            b"\x12\x01r\x40\x01\x5a\x00",
            3,
            MessageReason::WrongKind { field: 8 },
        ),
        (b"\x5a\x00\x58\x80", 4, MessageReason::Wire(WireReason::Cut)),
        (
            b"\x58\xff\xff\xff\xff\xff\xff\xff\xff\xff\x02",
            10,
            MessageReason::Wire(WireReason::LongVarint),
        ),
    ];
    for (bytes, at, reason) in rows {
        assert_eq!(rt;
            fault_of(rt.alloc(), bytes),
            Some(MessageFault { at, reason })
        );
    }
    Ok(())
}
