// The bytes, the places and the faults are worked out by hand from the wire format.
use super::*;
use std::alloc::Global;
use std::test::Fail;
use wire_fields::{FieldWriter, NoMemory};
use wire_format::{WireFault, WireReason};

// A number, some bytes, and a group.
const TABLE: [Known; 3] = [
    Known(1, WireKind::Varint),
    Known(2, WireKind::Bytes),
    Known(3, WireKind::Group),
];

// 1: 7, 2: "ab", 4: 5, 3: a group with 1: 1, 1: 9, 2: "c".
const INPUT: [u8; 17] = *b"\x08\x07\x12\x02ab\x20\x05\x1b\x08\x01\x1c\x08\x09\x12\x01c";

fn placed(number: u32, at: usize, held: Held) -> PlacedField {
    PlacedField { number, at, held }
}

fn fault(at: u64, reason: MessageReason) -> Option<MessageFault> {
    Some(MessageFault { at, reason })
}

fn read(alloc: Global, input: &[u8]) -> Result<Message, NoMemory> {
    Message::read(alloc, input, &[Part::whole(input)], &TABLE)
}

#[test]
fn known_fields_are_kept_and_others_read_over(rt: HostRuntime) -> Result<(), Fail> {
    let message = read(rt.alloc(), &INPUT)?;
    let fields = [
        placed(1, 0, Held::Varint(7)),
        placed(2, 2, Held::Bytes(Part { begin: 4, end: 6 })),
        placed(3, 8, Held::Group(Part { begin: 9, end: 11 })),
        placed(1, 12, Held::Varint(9)),
        placed(2, 14, Held::Bytes(Part { begin: 16, end: 17 })),
    ];
    assert_eq!(rt; message.fields.as_slice(), fields.as_slice());
    assert_eq!(rt; message.end, 17);
    assert_eq!(rt; message.wire_fault(), None);
    assert_eq!(rt; message.wrong_kind(&TABLE), None);
    Ok(())
}

#[test]
fn the_last_field_of_a_number_counts(rt: HostRuntime) -> Result<(), Fail> {
    let input = INPUT;
    let message = Message::read(rt.alloc(), &input, &[Part::whole(&input)], &TABLE)?;
    assert_eq!(rt; message.last(1), Some(placed(1, 12, Held::Varint(9))));
    assert!(rt; message.has(3));
    assert!(rt; !message.has(4));
    assert_eq!(rt; message.varint(1), Some(9));
    assert_eq!(rt; message.varint(2), None);
    assert_eq!(rt; message.content(2), Some(Part { begin: 16, end: 17 }));
    assert_eq!(rt; message.content(1), None);
    assert_eq!(rt; message.bytes(&input, 2), b"c".as_slice());
    assert_eq!(rt; message.bytes(&input, 5), b"".as_slice());
    Ok(())
}

#[test]
fn repeated_fields_are_all_there(rt: HostRuntime) -> Result<(), Fail> {
    let message = read(rt.alloc(), &INPUT)?;
    let parts = message.parts(rt.alloc(), 2)?;
    let both = [Part { begin: 4, end: 6 }, Part { begin: 16, end: 17 }];
    assert_eq!(rt; parts.as_slice(), both.as_slice());
    let groups = message.groups(rt.alloc(), 3)?;
    assert_eq!(rt; groups.as_slice(), [Part { begin: 9, end: 11 }].as_slice());
    assert!(rt; message.parts(rt.alloc(), 3)?.is_empty());
    assert!(rt; message.groups(rt.alloc(), 2)?.is_empty());
    Ok(())
}

#[test]
fn a_group_of_a_long_header_has_its_content(rt: HostRuntime) -> Result<(), Fail> {
    let input = b"\x83\x01\x08\x01\x84\x01";
    let known = [Known(16, WireKind::Group)];
    let message = Message::read(rt.alloc(), input, &[Part::whole(input)], &known)?;
    let group = placed(16, 0, Held::Group(Part { begin: 2, end: 4 }));
    assert_eq!(rt; message.last(16), Some(group));
    Ok(())
}

#[test]
fn pieces_are_joined_in_their_order(rt: HostRuntime) -> Result<(), Fail> {
    let input = b"\x08\x01\x08\x02";
    let pieces = [Part { begin: 2, end: 4 }, Part { begin: 0, end: 2 }];
    let message = Message::read(rt.alloc(), input, &pieces, &TABLE)?;
    let fields = [placed(1, 2, Held::Varint(2)), placed(1, 0, Held::Varint(1))];
    assert_eq!(rt; message.fields.as_slice(), fields.as_slice());
    assert_eq!(rt; message.end, 2);
    let none = Message::read(rt.alloc(), input, &[], &TABLE)?;
    assert!(rt; none.fields.is_empty());
    assert_eq!(rt;
        none.missing(1),
        fault(0, MessageReason::Missing { field: 1 })
    );
    Ok(())
}

#[test]
fn an_inner_message_is_read_from_all_its_pieces(rt: HostRuntime) -> Result<(), Fail> {
    let input = b"\x12\x02\x08\x05\x08\x07\x12\x02\x08\x06";
    let outer = Message::read(rt.alloc(), input, &[Part::whole(input)], &TABLE)?;
    let inner = outer.inner(rt.alloc(), input, 2, &TABLE)?;
    let fields = [placed(1, 2, Held::Varint(5)), placed(1, 8, Held::Varint(6))];
    assert_eq!(rt; inner.fields.as_slice(), fields.as_slice());
    assert_eq!(rt; inner.end, 10);
    Ok(())
}

#[test]
fn reading_stops_at_a_wire_fault(rt: HostRuntime) -> Result<(), Fail> {
    let input = b"\x08\x01\x12\x05a\x08\x02";
    let pieces = [
        Part { begin: 0, end: 2 },
        Part { begin: 2, end: 5 },
        Part { begin: 5, end: 7 },
    ];
    let message = Message::read(rt.alloc(), input, &pieces, &TABLE)?;
    assert_eq!(rt; message.varint(1), Some(1));
    let cut = WireFault {
        at: 5,
        reason: WireReason::Cut,
    };
    assert_eq!(rt; message.wire_fault, Some(cut));
    assert_eq!(rt;
        message.wire_fault(),
        fault(5, MessageReason::Wire(WireReason::Cut))
    );
    assert_eq!(rt; message.end, 7);
    Ok(())
}

#[test]
fn a_fault_of_an_inner_message_stands_at_its_place_in_the_input(
    rt: HostRuntime,
) -> Result<(), Fail> {
    let input = b"\x08\x01\x12\x03\x08\x02\x0f";
    let outer = Message::read(rt.alloc(), input, &[Part::whole(input)], &TABLE)?;
    assert_eq!(rt; outer.wire_fault(), None);
    let inner = outer.inner(rt.alloc(), input, 2, &TABLE)?;
    assert_eq!(rt;
        inner.wire_fault(),
        fault(6, MessageReason::Wire(WireReason::BadKind))
    );
    Ok(())
}

#[test]
fn another_wire_kind_than_the_tables_is_told(rt: HostRuntime) -> Result<(), Fail> {
    let rows: [(&[u8], u64, u32); 7] = [
        (b"\x0a\x00\x08\x05", 0, 1),
        (b"\x08\x05\x0a\x00", 2, 1),
        (b"\x08\x05\x0d\x00\x00\x00\x00", 2, 1),
        (b"\x09\x00\x00\x00\x00\x00\x00\x00\x00", 0, 1),
        (b"\x22\x00\x10\x01\x18\x01", 2, 2),
        (b"\x1b\x1c\x1a\x00", 2, 3),
        (b"\x13\x14", 0, 2),
    ];
    for (bytes, at, field) in rows {
        let message = read(rt.alloc(), bytes)?;
        assert_eq!(rt;
            message.wrong_kind(&TABLE),
            fault(at, MessageReason::WrongKind { field })
        );
    }
    Ok(())
}

#[test]
fn a_field_of_another_kind_hides_the_value_before_it(rt: HostRuntime) -> Result<(), Fail> {
    let message = read(rt.alloc(), b"\x08\x05\x0a\x00")?;
    assert!(rt; message.has(1));
    assert_eq!(rt; message.varint(1), None);
    assert_eq!(rt; message.missing(1), None);
    Ok(())
}

#[test]
fn faults_stand_at_the_end_or_at_the_field_that_counts(rt: HostRuntime) -> Result<(), Fail> {
    let message = read(rt.alloc(), &INPUT)?;
    let range = MessageReason::Range { field: 1 };
    assert_eq!(rt; message.missing(1), None);
    assert_eq!(rt;
        message.missing(4),
        fault(17, MessageReason::Missing { field: 4 })
    );
    assert_eq!(rt; message.fault_of(1, range), fault(12, range));
    assert_eq!(rt; message.fault_of(4, range), None);
    Ok(())
}

#[test]
fn wire_faults_are_told_first_and_missing_fields_last(rt: HostRuntime) -> Result<(), Fail> {
    let missing = fault(0, MessageReason::Missing { field: 2 });
    let also = fault(0, MessageReason::Missing { field: 3 });
    let later = fault(5, MessageReason::WrongKind { field: 1 });
    let range = fault(3, MessageReason::Range { field: 4 });
    let token = fault(3, MessageReason::BadToken { len: 7 });
    let wire = fault(9, MessageReason::Wire(WireReason::Cut));
    let rows = [
        ([missing, later, None], later),
        ([later, missing, range], range),
        ([later, range, token], range),
        ([token, later, range], token),
        ([missing, range, wire], wire),
        ([None, missing, also], missing),
        ([also, None, missing], also),
        ([None, None, None], None),
    ];
    for (faults, told) in rows {
        assert_eq!(rt; first_fault(&faults), told);
    }
    assert_eq!(rt; first_fault(&[]), None);
    assert_eq!(rt; first_of(missing, wire), wire);
    assert_eq!(rt; first_of(wire, missing), wire);
    Ok(())
}

#[test]
fn each_reason_has_its_text(rt: HostRuntime) -> Result<(), Fail> {
    let rows = [
        (MessageReason::Wire(WireReason::Cut), "at 7: cut"),
        (
            MessageReason::Wire(WireReason::LongVarint),
            "at 7: long varint",
        ),
        (MessageReason::Wire(WireReason::BadKind), "at 7: bad kind"),
        (
            MessageReason::Wire(WireReason::ZeroNumber),
            "at 7: zero number",
        ),
        (
            MessageReason::Wire(WireReason::BigNumber),
            "at 7: big number",
        ),
        (
            MessageReason::Wire(WireReason::OpenGroup),
            "at 7: open group",
        ),
        (MessageReason::Wire(WireReason::StrayEnd), "at 7: stray end"),
        (MessageReason::Wire(WireReason::TooDeep), "at 7: too deep"),
        (MessageReason::Missing { field: 3 }, "at 7: missing 3"),
        (MessageReason::WrongKind { field: 4 }, "at 7: wrong kind 4"),
        (MessageReason::Range { field: 30 }, "at 7: range 30"),
        (MessageReason::BadToken { len: 9 }, "at 7: bad token 9"),
        (MessageReason::NoMemory, "at 7: no memory"),
    ];
    for (reason, text) in rows {
        let fault = MessageFault { at: 7, reason };
        let written = format!(in rt.alloc(); "{fault}")?;
        assert_eq!(rt; written.as_str(), text);
    }
    Ok(())
}

#[test]
fn want_of_memory_is_a_fault_at_0(rt: HostRuntime) -> Result<(), Fail> {
    let wanting = MessageFault::from(NoMemory);
    assert_eq!(rt; Some(wanting), fault(0, MessageReason::NoMemory));
    Ok(())
}

#[test]
fn fields_that_say_nothing_are_left_out(rt: HostRuntime) -> Result<(), Fail> {
    let mut writer = FieldWriter::new(rt.alloc());
    write_unless_zero(&mut writer, 1, 0)?;
    write_unless_empty(&mut writer, 2, b"")?;
    write_unless_zero(&mut writer, 1, 300)?;
    write_unless_empty(&mut writer, 2, b"a")?;
    assert_eq!(rt;
        writer.finish().as_slice(),
        b"\x08\xac\x02\x12\x01a".as_slice()
    );
    Ok(())
}

// 4: 7 and 5: "x" in longer spellings, 1: 1, 6: eight bytes, 7: four bytes, 8: a group with 1: 1 in a longer spelling.
const LONG: &[u8] =
    b"\xa0\x00\x87\x00\x2a\x81\x00x\x08\x01\x3112345678\x3dabcd\x43\x08\x81\x00\xc4\x00";

// Its fields but the known one, each as short as it can be.
const SHORT: &[u8] = b"\x20\x07\x2a\x01x\x3112345678\x3dabcd\x43\x08\x81\x00\x44";

#[test]
fn unknown_fields_are_told_in_their_order_as_short_as_can_be(rt: HostRuntime) -> Result<(), Fail> {
    let message = Message::read_whole(rt.alloc(), LONG, &[Part::whole(LONG)])?;
    assert_eq!(rt; message.fields.len(), 6);
    assert_eq!(rt; message.varint(1), Some(1));
    let extra = message.unknown(rt.alloc(), LONG, &TABLE)?;
    assert_eq!(rt; extra.as_slice(), SHORT);
    let all = message.unknown(rt.alloc(), LONG, &[])?;
    assert_eq!(rt; all.len(), SHORT.len() + 2);
    Ok(())
}

#[test]
fn unknown_fields_of_all_pieces_are_joined(rt: HostRuntime) -> Result<(), Fail> {
    let input = b"\x12\x02\x20\x05\x08\x07\x12\x04\x08\x01\x20\x06";
    let outer = Message::read(rt.alloc(), input, &[Part::whole(input)], &TABLE)?;
    let inner = outer.inner_whole(rt.alloc(), input, 2)?;
    assert_eq!(rt; inner.varint(1), Some(1));
    let extra = inner.unknown(rt.alloc(), input, &TABLE)?;
    assert_eq!(rt; extra.as_slice(), b"\x20\x05\x20\x06".as_slice());
    let bytes = with_extra(rt.alloc(), b"\x08\x01", extra.as_slice())?;
    assert_eq!(rt; bytes.as_slice(), b"\x08\x01\x20\x05\x20\x06".as_slice());
    Ok(())
}

#[test]
fn an_extra_is_canonical_where_it_is_unknown_fields_of_least_length(rt: HostRuntime) {
    let rows: [(&[u8], bool); 9] = [
        (b"", true),
        (b"\x20\x07", true),
        (SHORT, true),
        (LONG, false),
        (b"\x0a", false),
        (b"\x0a\x00", false),
        (b"\x20\x87\x00", false),
        (b"\xa0\x00\x07", false),
        (b"\x43\x08\x81\x00\xc4\x00", false),
    ];
    for (extra, canonical) in rows {
        assert_eq!(rt; is_canonical_extra(&TABLE, extra), canonical);
    }
}

#[test]
fn has_laws() {
    pieces_are_one_message();
    extras_are_canonical();
}
