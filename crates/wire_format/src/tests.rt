// The bytes and the faults are worked out by hand from the wire format.
use super::*;
use std::test::Fail;

// The first fault that a reader finds, if any. No field has fewer bytes than one.
fn fault_of(bytes: &[u8]) -> Option<WireFault> {
    let mut reader = FieldReader::new(bytes);
    for _ in 0..=bytes.len() {
        match reader.next() {
            Ok(Some(_)) => {}
            Ok(None) => return None,
            Err(fault) => return Some(fault),
        }
    }
    None
}

#[test]
fn each_reason_has_its_place(rt: HostRuntime) -> Result<(), Fail> {
    let rows: [(&[u8], u64, WireReason); 12] = [
        (b"\x0a\x05\x61", 3, WireReason::Cut),
        (b"\x08\x01\x80", 3, WireReason::Cut),
        (
            b"\x20\xff\xff\xff\xff\xff\xff\xff\xff\xff\xff\x01",
            10,
            WireReason::LongVarint,
        ),
        (
            b"\xff\xff\xff\xff\xff\xff\xff\xff\xff\x02",
            9,
            WireReason::LongVarint,
        ),
        (b"\x08\x01\x0e", 2, WireReason::BadKind),
        (b"\x0f", 0, WireReason::BadKind),
        (b"\x00\x01", 0, WireReason::ZeroNumber),
        (b"\x80\x80\x80\x80\x10\x01", 0, WireReason::BigNumber),
        (b"\x0b\x10\x01", 3, WireReason::OpenGroup),
        (b"\x0c", 0, WireReason::StrayEnd),
        (b"\x0b\x14", 1, WireReason::StrayEnd),
        (b"\x0b\x13\x0c", 2, WireReason::StrayEnd),
    ];
    for (bytes, at, reason) in rows {
        assert_eq!(rt; fault_of(bytes), Some(WireFault { at, reason }));
    }
    Ok(())
}

#[test]
fn each_front_of_a_message_has_its_fault(rt: HostRuntime) -> Result<(), Fail> {
    let message = b"\x08\x96\x01\x1a\x02ab\x23\x08\x01\x24";
    let wholes = [0, 3, 7, 11];
    let opens = [8, 10];
    for end in 0..=message.len() {
        let reason = if opens.contains(&end) {
            WireReason::OpenGroup
        } else {
            WireReason::Cut
        };
        let wanted = if wholes.contains(&end) {
            None
        } else {
            Some(WireFault {
                at: end as u64,
                reason,
            })
        };
        assert_eq!(rt; fault_of(&message[..end]), wanted);
    }
    Ok(())
}

#[test]
fn groups_nest_to_a_depth_of_32(rt: HostRuntime) -> Result<(), Fail> {
    let mut bytes = [0x0c_u8; 66];
    bytes[..32].fill(0x0b);
    assert_eq!(rt; fault_of(&bytes[..64]), None);
    bytes[32] = 0x0b;
    let fault = Some(WireFault {
        at: 32,
        reason: WireReason::TooDeep,
    });
    assert_eq!(rt; fault_of(&bytes), fault);
    Ok(())
}

#[test]
fn a_number_may_have_a_longer_spelling(rt: HostRuntime) -> Result<(), Fail> {
    let mut reader = FieldReader::new(b"\x88\x80\x00\x81\x00");
    let Ok(Some(field)) = reader.next() else {
        return Err("a field was read".into());
    };
    assert_eq!(rt; field.number, 1);
    assert!(rt; matches!(field.payload, Payload::Varint(1)));
    Ok(())
}

#[test]
fn a_varint_has_up_to_64_bits(rt: HostRuntime) -> Result<(), Fail> {
    let mut reader = FieldReader::new(b"\x20\xff\xff\xff\xff\xff\xff\xff\xff\xff\x01");
    let Ok(Some(field)) = reader.next() else {
        return Err("a field was read".into());
    };
    assert_eq!(rt; field.number, 4);
    assert!(rt; matches!(field.payload, Payload::Varint(u64::MAX)));
    Ok(())
}

#[test]
fn fixed_values_have_their_lowest_byte_first(rt: HostRuntime) -> Result<(), Fail> {
    let mut reader = FieldReader::new(b"\x11\x02\x01\0\0\0\0\0\0\x1d\x03\x02\x01\0");
    let Ok(Some(eight)) = reader.next() else {
        return Err("a field was read".into());
    };
    assert!(rt; matches!(eight.payload, Payload::Eight(0x0102)));
    let Ok(Some(four)) = reader.next() else {
        return Err("a second field was read".into());
    };
    assert_eq!(rt; four.at, 9);
    assert!(rt; matches!(four.payload, Payload::Four(0x0001_0203)));
    Ok(())
}

#[test]
fn contents_stand_between_their_ends(rt: HostRuntime) -> Result<(), Fail> {
    let mut reader = FieldReader::new(b"\x1a\x02ab\x23\x08\x01\x24");
    let Ok(Some(field)) = reader.next() else {
        return Err("a field was read".into());
    };
    let Payload::Bytes(content) = field.payload else {
        return Err("the field has bytes".into());
    };
    assert_eq!(rt; content, b"ab".as_slice());
    let Ok(Some(field)) = reader.next() else {
        return Err("a group was read".into());
    };
    let Payload::Group(content) = field.payload else {
        return Err("the field is a group".into());
    };
    assert_eq!(rt; content, b"\x08\x01".as_slice());
    assert!(rt; matches!(reader.next(), Ok(None)));
    Ok(())
}

#[test]
fn a_fault_is_told_again(rt: HostRuntime) -> Result<(), Fail> {
    let mut reader = FieldReader::new(b"\x08\x01\x08");
    assert!(rt; matches!(reader.next(), Ok(Some(_))));
    for _ in 0..2 {
        let Err(fault) = reader.next() else {
            return Err("the fault is told".into());
        };
        let cut = WireFault {
            at: 3,
            reason: WireReason::Cut,
        };
        assert_eq!(rt; fault, cut);
    }
    Ok(())
}

#[test]
fn a_varint_has_one_byte_for_seven_bits(rt: HostRuntime) -> Result<(), Fail> {
    let rows: [(u64, usize); 8] = [
        (0, 1),
        (127, 1),
        (128, 2),
        (16_383, 2),
        (16_384, 3),
        ((1 << 63) - 1, 9),
        (1 << 63, 10),
        (u64::MAX, 10),
    ];
    for (value, len) in rows {
        assert_eq!(rt; varint_len(value), len);
        assert_eq!(rt; spell_varint(value).len(), len);
    }
    assert_eq!(rt; spell_varint(150).as_slice(), b"\x96\x01".as_slice());
    assert_eq!(rt; spell_header(1, 2).as_slice(), b"\x0a".as_slice());
    assert_eq!(rt; varint_field_len(16, 150), 4);
    assert_eq!(rt; bytes_field_len(1, 128), 131);
    assert_eq!(rt; group_field_len(16, 5), 9);
    Ok(())
}

#[test]
fn a_fault_is_shown_with_its_place(rt: HostRuntime) -> Result<(), Fail> {
    let rows = [
        (WireReason::Cut, "at 3: cut"),
        (WireReason::LongVarint, "at 3: long varint"),
        (WireReason::BadKind, "at 3: bad kind"),
        (WireReason::ZeroNumber, "at 3: zero number"),
        (WireReason::BigNumber, "at 3: big number"),
        (WireReason::OpenGroup, "at 3: open group"),
        (WireReason::StrayEnd, "at 3: stray end"),
        (WireReason::TooDeep, "at 3: too deep"),
    ];
    for (reason, text) in rows {
        let shown = format!(in rt.alloc(); "{}", WireFault { at: 3, reason })?;
        assert_eq!(rt; shown.as_str(), text);
    }
    Ok(())
}

#[test]
fn has_laws() {
    fields_have_no_fault();
    fields_join();
    bytes_have_one_fault();
    bytes_are_one_list();
    one_field_stands_at_a_front();
    staying_faults_stay();
    least_varints_are_shortest();
    written_fields_are_fields();
}
