// The faults are worked out by hand from the wire format and the tables of an entity and its specifics.
use crate::*;
use std::alloc::Global;
use std::test::Fail;
use wire_fields::Octets;
use wire_format::WireReason;

fn fault_of(alloc: Global, bytes: &[u8]) -> Option<MessageFault> {
    match decode_entity(alloc, bytes) {
        Ok(_) => None,
        Err(fault) => Some(fault),
    }
}

#[test]
fn each_class_of_fault_in_an_entity(rt: HostRuntime) -> Result<(), Fail> {
    let rows: [(&[u8], u64, MessageReason); 8] = [
        // an id of five bytes, of which one is there, and the end of a group that never began
        (b"\x0a\x05x", 3, MessageReason::Wire(WireReason::Cut)),
        (
            b"\x0a\x01x\x0c",
            3,
            MessageReason::Wire(WireReason::StrayEnd),
        ),
        // specifics that end behind the first byte of a field
        (
            b"\x0a\x01x\xaa\x01\x01\x0a",
            7,
            MessageReason::Wire(WireReason::Cut),
        ),
        // an id as a number, and a version as bytes
        (b"\x08\x01", 0, MessageReason::WrongKind { field: 1 }),
        (
            b"\x0a\x01x\x22\x00",
            3,
            MessageReason::WrongKind { field: 4 },
        ),
        // keys with the passphrase type 9
        (
            b"\xaa\x01\x07\x8a\xa8\x17\x03\xf0\x01\x09",
            7,
            MessageReason::Range { field: 30 },
        ),
        // a preference with its name alone, and with a stray end behind it
        (
            b"\xaa\x01\x07\xb2\xb4\x12\x03\x0a\x01a",
            10,
            MessageReason::Missing { field: 2 },
        ),
        (
            b"\xaa\x01\x07\xb2\xb4\x12\x03\x0a\x01a\x0c",
            10,
            MessageReason::Wire(WireReason::StrayEnd),
        ),
    ];
    for (bytes, at, reason) in rows {
        assert_eq!(rt;
            fault_of(rt.alloc(), bytes),
            Some(MessageFault { at, reason })
        );
    }
    Ok(())
}

// A mebibyte is no want of memory.
#[test]
fn an_id_may_have_a_mebibyte(rt: HostRuntime) -> Result<(), Fail> {
    let alloc = rt.alloc();
    let entity = Entity {
        id: Octets::from_vec(vec![in alloc; b'x'; 0x10_0000]?),
        version: 1,
        deleted: false,
        specifics: None,
        hash: None,
    };
    let bytes = encode_entity(alloc, &entity)?;
    assert_eq!(rt; bytes.len(), 0x10_0006);
    let again = decode_entity(alloc, bytes.as_slice())?;
    assert_eq!(rt; again.id.len(), 0x10_0000);
    Ok(())
}
