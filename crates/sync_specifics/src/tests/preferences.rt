// The bytes and the faults are worked out by hand from the table of a preference's fields.
use crate::*;
use std::alloc::Global;
use std::test::Fail;
use wire_fields::{NoMemory, Octets};
use wire_format::WireReason;

fn fault_of(alloc: Global, bytes: &[u8]) -> Option<MessageFault> {
    match decode_preference(alloc, bytes) {
        Ok(_) => None,
        Err(fault) => Some(fault),
    }
}

#[test]
fn a_preference_is_its_name_and_its_value(rt: HostRuntime) -> Result<(), Fail> {
    let value = Preference {
        name: Octets::from_slice(rt.alloc(), b"a")?,
        value: Octets::from_slice(rt.alloc(), b"1")?,
        extra: Octets::new(rt.alloc()),
    };
    let bytes = encode_preference(rt.alloc(), &value)?;
    assert_eq!(rt; bytes.as_slice(), b"\x0a\x01a\x12\x011".as_slice());
    let again = decode_preference(rt.alloc(), bytes.as_slice())?;
    assert_eq!(rt; again.name, value.name);
    assert_eq!(rt; again.value, value.value);
    Ok(())
}

#[test]
fn empty_texts_are_written(rt: HostRuntime) -> Result<(), Fail> {
    let value = Preference {
        name: Octets::new(rt.alloc()),
        value: Octets::new(rt.alloc()),
        extra: Octets::new(rt.alloc()),
    };
    let bytes = encode_preference(rt.alloc(), &value)?;
    assert_eq!(rt; bytes.as_slice(), b"\x0a\x00\x12\x00".as_slice());
    let again = decode_preference(rt.alloc(), bytes.as_slice())?;
    assert!(rt; again.name.is_empty() && again.value.is_empty());
    Ok(())
}

#[test]
fn order_and_unknown_fields_do_not_matter_and_the_last_counts(rt: HostRuntime) -> Result<(), Fail> {
    let rows: [&[u8]; 4] = [
        b"\x12\x011\x0a\x01a",
        b"\x18\x07\x0a\x01a\x2b\x08\x01\x2c\x12\x011\x22\x01x",
        b"\x0a\x01b\x12\x012\x0a\x01a\x12\x011",
        b"\x8a\x00\x01a\x12\x81\x001",
    ];
    for bytes in rows {
        let value = decode_preference(rt.alloc(), bytes)?;
        assert_eq!(rt; value.name.as_slice(), b"a".as_slice());
        assert_eq!(rt; value.value.as_slice(), b"1".as_slice());
    }
    Ok(())
}

#[test]
fn unknown_fields_are_kept(rt: HostRuntime) -> Result<(), Fail> {
    let value = decode_preference(rt.alloc(), b"\x98\x00\x07\x0a\x01a\x12\x011")?;
    assert_eq!(rt; value.extra.as_slice(), b"\x18\x07".as_slice());
    let bytes = encode_preference(rt.alloc(), &value)?;
    assert_eq!(rt; bytes.as_slice(), b"\x0a\x01a\x12\x011\x18\x07".as_slice());
    Ok(())
}

#[test]
fn some_extras_are_canonical(rt: HostRuntime) {
    let rows: [(&[u8], bool); 5] = [
        (b"", true),
        (b"\x18\x07", true),
        (b"\x0a", false),
        (b"\x0a\x00", false),
        (b"\x18\x87\x00", false),
    ];
    for (extra, canonical) in rows {
        assert_eq!(rt; is_canonical_extra(Kind::Preference, extra), canonical);
    }
    assert!(rt; is_canonical_extra(Kind::Password, b"\x08\x01"));
    assert!(rt; !is_canonical_extra(Kind::Password, b"\x58\x01"));
}

#[test]
fn faults_come_by_their_class_and_then_by_their_place(rt: HostRuntime) -> Result<(), Fail> {
    let missing = |field| MessageReason::Missing { field };
    let wrong = |field| MessageReason::WrongKind { field };
    let rows: [(&[u8], u64, MessageReason); 9] = [
        (b"", 0, missing(1)),
        (b"\x0a\x01a", 3, missing(2)),
        (b"\x12\x011", 3, missing(1)),
        (b"\x08\x01", 0, wrong(1)),
        (b"\x08\x01\x0a\x01a\x12\x011", 0, wrong(1)),
        (b"\x0a\x01a\x12\x011\x10\x01\x08\x01", 6, wrong(2)),
        (
            b"\x08\x01\x12\x051",
            5,
            MessageReason::Wire(WireReason::Cut),
        ),
        (
            b"\x0a\x01a\x0e",
            3,
            MessageReason::Wire(WireReason::BadKind),
        ),
        (b"\x02\x00", 0, MessageReason::Wire(WireReason::ZeroNumber)),
    ];
    for (bytes, at, reason) in rows {
        assert_eq!(rt;
            fault_of(rt.alloc(), bytes),
            Some(MessageFault { at, reason })
        );
    }
    Ok(())
}
