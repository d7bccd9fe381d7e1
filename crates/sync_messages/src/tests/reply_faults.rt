// The faults are worked out by hand from the wire format and the tables of the fields in messages from a server.
use crate::*;
use std::alloc::Global;
use std::test::Fail;
use wire_format::WireReason;

fn fault_of(alloc: Global, bytes: &[u8]) -> Option<MessageFault> {
    match decode_from(alloc, bytes) {
        Ok(_) => None,
        Err(fault) => Some(fault),
    }
}

#[test]
fn wire_faults(rt: HostRuntime) -> Result<(), Fail> {
    let rows: [(&[u8], u64, WireReason); 5] = [
        (b"\x0a\x03\x0b\x10\x01", 5, WireReason::OpenGroup),
        (b"\x12\x01\xff\x32\x00", 3, WireReason::Cut),
        (b"\x20\x05\x96\x03", 2, WireReason::BadKind),
        (
            b"\x0a\x06\x0b\x10\x09\x0c\x00\x00",
            6,
            WireReason::ZeroNumber,
        ),
        (
            b"\x0a\x04\x0b\x10\x07\x0c\x12\x00\x0c",
            8,
            WireReason::StrayEnd,
        ),
    ];
    for (bytes, at, reason) in rows {
        let reason = MessageReason::Wire(reason);
        assert_eq!(rt;
            fault_of(rt.alloc(), bytes),
            Some(MessageFault { at, reason })
        );
    }
    Ok(())
}

#[test]
fn what_is_missing(rt: HostRuntime) -> Result<(), Fail> {
    let rows: [(&[u8], u64, u32); 5] = [
        (b"", 0, 1),
        (b"\x20\x00", 2, 1),
        (b"\x32\x01\x12", 3, 1),
        (b"\x0a\x04\x0b\x30\x07\x0c\x32\x00", 5, 2),
        (b"\x12\x04\x2a\x02\x12\x00", 6, 1),
    ];
    for (bytes, at, field) in rows {
        let reason = MessageReason::Missing { field };
        assert_eq!(rt;
            fault_of(rt.alloc(), bytes),
            Some(MessageFault { at, reason })
        );
    }
    Ok(())
}

#[test]
fn numbers_out_of_range(rt: HostRuntime) -> Result<(), Fail> {
    let rows: [(&[u8], u64, u32); 5] = [
        (b"\x20\x80\x80\x80\x80\x08\x0a\x01\x0c", 0, 4),
        (
            b"\x20\x05\x20\xff\xff\xff\xff\xff\xff\xff\xff\xff\x01",
            2,
            4,
        ),
        (b"\x0a\x04\x0b\x10\x00\x0c", 3, 2),
        (b"\x0a\x06\x0b\x10\x01\x10\x07\x0c", 5, 2),
        (
            b"\x12\x0b\x20\xff\xff\xff\xff\xff\xff\xff\xff\xff\x01",
            2,
            4,
        ),
    ];
    for (bytes, at, field) in rows {
        let reason = MessageReason::Range { field };
        assert_eq!(rt;
            fault_of(rt.alloc(), bytes),
            Some(MessageFault { at, reason })
        );
    }
    Ok(())
}

#[test]
fn fields_of_another_wire_kind(rt: HostRuntime) -> Result<(), Fail> {
    let rows: [(&[u8], u64, u32); 4] = [
        (b"\x08\x01\x20\x05", 0, 1),
        (b"\x0a\x02\x08\x05", 2, 1),
        (b"\x0a\x06\x0b\x30\x07\x18\x01\x0c", 5, 3),
        (b"\x12\x04\x0a\x02\x08\x01", 4, 1),
    ];
    for (bytes, at, field) in rows {
        let reason = MessageReason::WrongKind { field };
        assert_eq!(rt;
            fault_of(rt.alloc(), bytes),
            Some(MessageFault { at, reason })
        );
    }
    Ok(())
}
