// The faults are worked out by hand from the wire format and the tables of the fields in messages to a server.
use crate::*;
use std::alloc::Global;
use std::test::Fail;
use wire_format::WireReason;

fn fault_of(alloc: Global, bytes: &[u8]) -> Option<MessageFault> {
    match decode_to(alloc, bytes) {
        Ok(_) => None,
        Err(fault) => Some(fault),
    }
}

#[test]
fn each_wire_reason(rt: HostRuntime) -> Result<(), Fail> {
    let rows: [(&[u8], u64, WireReason); 10] = [
        (b"\x18", 1, WireReason::Cut),
        (
            b"\x18\xff\xff\xff\xff\xff\xff\xff\xff\xff\x02",
            10,
            WireReason::LongVarint,
        ),
        (b"\x18\x02\x2a\x00\x3e", 4, WireReason::BadKind),
        (b"\x00\x02", 0, WireReason::ZeroNumber),
        (b"\x80\x80\x80\x80\x10\x00", 0, WireReason::BigNumber),
        (b"\x18\x02\x0b\x10\x01", 5, WireReason::OpenGroup),
        (b"\x18\x05\x0c", 2, WireReason::StrayEnd),
        (&[0x0b; 33], 32, WireReason::TooDeep),
        (b"\x18\x01\x22\x00\x2a\x01\x0c", 6, WireReason::StrayEnd),
        (b"\x18\x01\x22\x04\x0a\x02\x0a\x05", 8, WireReason::Cut),
    ];
    for (bytes, at, reason) in rows {
        let reason = MessageReason::Wire(reason);
        assert_eq!(rt;
            fault_of(rt.alloc(), bytes),
            Some(MessageFault { at, reason })
        );
    }
    Ok(())
}

#[test]
fn what_is_missing(rt: HostRuntime) -> Result<(), Fail> {
    let rows: [(&[u8], u64, u32); 6] = [
        (b"", 0, 3),
        (b"\x10\x01\x22\x03\x12\x01S", 7, 3),
        (b"\x18\x01", 2, 4),
        (b"\x18\x01\x2a\x00", 4, 4),
        (b"\x18\x02", 2, 5),
        (b"\x18\x02\x2a\x04\x32\x02\x12\x00\x3a\x00", 8, 1),
    ];
    for (bytes, at, field) in rows {
        let reason = MessageReason::Missing { field };
        assert_eq!(rt;
            fault_of(rt.alloc(), bytes),
            Some(MessageFault { at, reason })
        );
    }
    Ok(())
}

#[test]
fn wrong_kinds_are_told_before_what_is_missing(rt: HostRuntime) -> Result<(), Fail> {
    let rows: [(&[u8], u64, u32); 4] = [
        (b"\x1a\x01\xff\x22\x00", 0, 3),
        (b"\x18\x01\x22\x04\x0a\x02\x08\x01", 6, 1),
        (b"\x18\x01\x20\x01", 2, 4),
        (b"\x18\x02\x2a\x04\x32\x02\x10\x00", 6, 2),
    ];
    for (bytes, at, field) in rows {
        let reason = MessageReason::WrongKind { field };
        assert_eq!(rt;
            fault_of(rt.alloc(), bytes),
            Some(MessageFault { at, reason })
        );
    }
    Ok(())
}

#[test]
fn a_number_that_names_no_request(rt: HostRuntime) -> Result<(), Fail> {
    let rows: [(&[u8], u64); 3] = [
        (b"\x18\x00\x22\x00", 0),
        (b"\x18\x03", 0),
        (b"\x18\x01\x22\x00\x18\x05", 4),
    ];
    for (bytes, at) in rows {
        let reason = MessageReason::Range { field: 3 };
        assert_eq!(rt;
            fault_of(rt.alloc(), bytes),
            Some(MessageFault { at, reason })
        );
    }
    Ok(())
}

#[test]
fn a_token_of_three_bytes(rt: HostRuntime) -> Result<(), Fail> {
    let rows: [(&[u8], u64); 2] = [
        (
            b"\x18\x02\x2a\x0b\x32\x09\x08\xc6\xa6\x02\x12\x03\x00\x00\x07",
            10,
        ),
        (b"\x18\x02\x2a\x07\x32\x05\x12\x03\x00\x00\x07", 6),
    ];
    for (bytes, at) in rows {
        let reason = MessageReason::BadToken { len: 3 };
        assert_eq!(rt;
            fault_of(rt.alloc(), bytes),
            Some(MessageFault { at, reason })
        );
    }
    Ok(())
}
