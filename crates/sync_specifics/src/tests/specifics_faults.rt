// The faults are worked out by hand from the tables of the fields in specifics.
use crate::*;
use std::alloc::Global;
use std::test::Fail;
use wire_format::WireReason;

fn fault_of(alloc: Global, bytes: &[u8]) -> Option<MessageFault> {
    match decode_specifics(alloc, bytes) {
        Ok(_) => None,
        Err(fault) => Some(fault),
    }
}

#[test]
fn a_preference_has_both_texts_or_none(rt: HostRuntime) -> Result<(), Fail> {
    let rows: [(&[u8], u64, u32); 4] = [
        (b"\xb2\xb4\x12\x03\x0a\x01a", 7, 2),
        (b"\xb2\xb4\x12\x03\x12\x011", 7, 1),
        (b"\xb2\xb4\x12\x03\x0a\x01a\xb2\xb4\x12\x00", 11, 2),
        (b"\x8a\xb3\x16\x00\xb2\xb4\x12\x03\x0a\x01a\x10\x01", 11, 2),
    ];
    for (bytes, at, field) in rows {
        let reason = MessageReason::Missing { field };
        assert_eq!(rt;
            fault_of(rt.alloc(), bytes),
            Some(MessageFault { at, reason })
        );
    }
    Ok(())
}

#[test]
fn an_encrypted_text_needs_both_its_fields(rt: HostRuntime) -> Result<(), Fail> {
    let rows: [(&[u8], u64, u32); 6] = [
        (b"\x0a\x00", 2, 1),
        (b"\x0a\x03\x0a\x01k\xb2\xb4\x12\x00", 5, 2),
        (b"\x0a\x03\x12\x01b\x8a\xb3\x16\x00", 5, 1),
        (b"\x8a\xb3\x16\x02\x0a\x00", 6, 1),
        (b"\x8a\xb3\x16\x05\x0a\x03\x0a\x01k\x10\x01", 9, 2),
        (b"\x8a\xa8\x17\x05\x0a\x03\x12\x01b", 9, 1),
    ];
    for (bytes, at, field) in rows {
        let reason = MessageReason::Missing { field };
        assert_eq!(rt;
            fault_of(rt.alloc(), bytes),
            Some(MessageFault { at, reason })
        );
    }
    Ok(())
}

#[test]
fn wrong_kinds_are_looked_for_in_the_type_that_counts(rt: HostRuntime) -> Result<(), Fail> {
    let rows: [(&[u8], u64, u32); 7] = [
        (b"\xb2\xb4\x12\x02\x08\x01", 4, 1),
        (b"\xb2\xb4\x12\x05\x0a\x01a\x10\x01", 7, 2),
        (b"\x8a\xb3\x16\x02\x08\x01", 4, 1),
        (b"\x8a\xa8\x17\x03\xf2\x01\x00", 4, 30),
        (b"\xb0\xb4\x12\x01", 0, 37702),
        (b"\x08\x01\xb2\xb4\x12\x02\x08\x01", 0, 1),
        (b"\x0a\x02\x08\x01\x88\xb3\x16\x01", 2, 1),
    ];
    for (bytes, at, field) in rows {
        let reason = MessageReason::WrongKind { field };
        assert_eq!(rt;
            fault_of(rt.alloc(), bytes),
            Some(MessageFault { at, reason })
        );
    }
    Ok(())
}

#[test]
fn another_passphrase_type_is_out_of_range(rt: HostRuntime) -> Result<(), Fail> {
    let rows: [(&[u8], u64); 5] = [
        (
            b"\x8a\xa8\x17\x0b\x0a\x06\x0a\x01k\x12\x01b\xf0\x01\x00",
            12,
        ),
        (
            b"\x8a\xa8\x17\x0b\x0a\x06\x0a\x01k\x12\x01b\xf0\x01\x06",
            12,
        ),
        (b"\x8a\xa8\x17\x03\xf0\x01\x06", 4),
        (b"\x8a\xa8\x17\x06\xf0\x01\x02\xf0\x01\x07", 7),
        (b"\x8a\xa8\x17\x05\x0a\x00\xf0\x01\x06", 6),
    ];
    for (bytes, at) in rows {
        let reason = MessageReason::Range { field: 30 };
        assert_eq!(rt;
            fault_of(rt.alloc(), bytes),
            Some(MessageFault { at, reason })
        );
    }
    Ok(())
}

#[test]
fn wire_faults_of_all_messages_come_first(rt: HostRuntime) -> Result<(), Fail> {
    let rows: [(&[u8], u64, WireReason); 7] = [
        (b"\x08\x01\xb2\xb4\x12\x05\x0a", 7, WireReason::Cut),
        (b"\xb2\xb4\x12\x01\x08\x8a\xb3\x16\x00", 5, WireReason::Cut),
        (
            b"\x0a\x06\x0a\x01k\x12\x01b\xb2\xb4\x12\x01\x08",
            13,
            WireReason::Cut,
        ),
        (
            b"\x08\x01\x8a\xa8\x17\x01\x0e\xb2\xb4\x12\x00",
            6,
            WireReason::BadKind,
        ),
        (b"\x8a\xb3\x16\x04\x0a\x02\x0a\x05", 8, WireReason::Cut),
        (b"\x0a\x01\x0c", 2, WireReason::StrayEnd),
        (b"\xb2\xb4\x12\x02\x0a\x01\x04", 6, WireReason::Cut),
    ];
    for (bytes, at, reason) in rows {
        let reason = MessageReason::Wire(reason);
        assert_eq!(rt;
            fault_of(rt.alloc(), bytes),
            Some(MessageFault { at, reason })
        );
    }
    Ok(())
}

#[test]
fn an_encrypted_text_of_another_type_is_not_looked_at(rt: HostRuntime) -> Result<(), Fail> {
    let bytes = b"\x8a\xb3\x16\x03\x0a\x01\x0c\xb2\xb4\x12\x00";
    assert_eq!(rt; fault_of(rt.alloc(), bytes), None);
    Ok(())
}
