use super::*;
use std::alloc::Global;
use std::test::Fail;
use wire_format::WireReason;

mod rows;

use rows::SHOWN;

#[test]
fn recorded_messages_are_shown(rt: HostRuntime) -> Result<(), Fail> {
    let alloc = rt.alloc();
    for row in SHOWN {
        let message = WireMessage::read(alloc, row.direction, row.bytes)?;
        let canonical = message.is_spelled(alloc, row.bytes)?;
        assert_eq!(rt; canonical, row.canonical);
        let text = shown_text(alloc, &message, canonical)?;
        assert_eq!(rt; text.as_slice(), row.text);
    }
    Ok(())
}

#[test]
fn the_canonical_bytes_are_written(rt: HostRuntime) -> Result<(), Fail> {
    let alloc = rt.alloc();
    let skipped = b"\x0a\x09\x0b\x30\x07\x98\x06\x05\x10\x01\x0c";
    let canonical = b"\x0a\x06\x0b\x10\x01\x30\x07\x0c";
    let message = WireMessage::read(alloc, Direction::FromServer, skipped)?;
    assert_eq!(rt; message.encode(alloc)?.as_slice(), canonical.as_slice());
    assert!(rt; !message.is_spelled(alloc, skipped)?);
    assert!(rt; message.is_spelled(alloc, canonical)?);
    Ok(())
}

#[test]
fn bytes_of_the_other_direction_have_a_fault(rt: HostRuntime) -> Result<(), Fail> {
    let alloc = rt.alloc();
    match WireMessage::read(alloc, Direction::ToServer, b"\x0a\x00") {
        Ok(_) => assert!(rt; false),
        Err(fault) => {
            let text = fault_of(alloc, fault)?;
            assert_eq!(rt; text.as_slice(), b"at 2: missing 3".as_slice());
        }
    }
    Ok(())
}

fn fault_of(alloc: Global, fault: MessageFault) -> Result<Vec<u8>, Fail> {
    let mut out = Vec::new(alloc);
    write_fault(&mut out, fault)?;
    Ok(out)
}

#[test]
fn each_reason_has_its_words(rt: HostRuntime) -> Result<(), Fail> {
    let reasons: [(MessageReason, &[u8]); 12] = [
        (MessageReason::Wire(WireReason::Cut), b"at 7: cut"),
        (
            MessageReason::Wire(WireReason::LongVarint),
            b"at 7: long varint",
        ),
        (MessageReason::Wire(WireReason::BadKind), b"at 7: bad kind"),
        (
            MessageReason::Wire(WireReason::ZeroNumber),
            b"at 7: zero number",
        ),
        (
            MessageReason::Wire(WireReason::BigNumber),
            b"at 7: big number",
        ),
        (
            MessageReason::Wire(WireReason::OpenGroup),
            b"at 7: open group",
        ),
        (
            MessageReason::Wire(WireReason::StrayEnd),
            b"at 7: stray end",
        ),
        (MessageReason::Wire(WireReason::TooDeep), b"at 7: too deep"),
        (MessageReason::Missing { field: 3 }, b"at 7: missing 3"),
        (
            MessageReason::WrongKind { field: 45873 },
            b"at 7: wrong kind 45873",
        ),
        (MessageReason::Range { field: 30 }, b"at 7: range 30"),
        (MessageReason::BadToken { len: 9 }, b"at 7: bad token 9"),
    ];
    for (reason, words) in reasons {
        let text = fault_of(rt.alloc(), MessageFault { at: 7, reason })?;
        assert_eq!(rt; text.as_slice(), words);
    }
    Ok(())
}

#[test]
fn bytes_are_checked(rt: HostRuntime) {
    bytes_say_one_message();
    assert_eq!(rt; checked_text(true), b"ok canonical\n".as_slice());
    assert_eq!(rt; checked_text(false), b"ok other\n".as_slice());
}
