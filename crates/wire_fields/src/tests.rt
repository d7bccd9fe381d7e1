// Each public call once with ample memory.
use super::*;
use std::cmp::Ordering;
use std::test::Fail;

#[test]
fn octets_are_their_bytes(rt: HostRuntime) -> Result<(), Fail> {
    let alloc = rt.alloc();
    let text = Octets::from_slice(alloc, b"tag")?;
    assert_eq!(rt; text.as_slice(), b"tag".as_slice());
    assert_eq!(rt; text.len(), 3);
    assert!(rt; !text.is_empty());
    let copy = text.copy()?;
    assert_eq!(rt; copy.as_slice(), b"tag".as_slice());
    assert_eq!(rt; copy, text);
    let same = Octets::from_vec(b"tag".to_vec(alloc)?);
    assert_eq!(rt; same, text);
    let empty = Octets::new(alloc);
    assert_eq!(rt; empty.len(), 0);
    assert!(rt; empty.is_empty());
    assert_eq!(rt; empty.copy()?, empty);
    Ok(())
}

// A mebibyte is no want of memory.
#[test]
fn octets_may_have_a_mebibyte(rt: HostRuntime) -> Result<(), Fail> {
    let bytes = vec![in rt.alloc(); 7; 0x10_0000]?;
    let octets = Octets::from_slice(rt.alloc(), &bytes)?;
    assert_eq!(rt; octets.len(), 0x10_0000);
    assert!(rt; octets.copy()? == octets);
    Ok(())
}

#[test]
fn octets_are_ordered_as_words_are(rt: HostRuntime) -> Result<(), Fail> {
    let alloc = rt.alloc();
    let words: [&[u8]; 5] = [b"", b"a", b"ab", b"b", b"\xff"];
    for (place, word) in words.iter().enumerate() {
        for (other_place, other_word) in words.iter().enumerate() {
            let text = Octets::from_slice(alloc, word)?;
            let other = Octets::from_slice(alloc, other_word)?;
            let order = place.cmp(&other_place);
            assert_eq!(rt; text.cmp(&other), order, "{text:?} and {other:?}");
            assert_eq!(rt; text.partial_cmp(&other), Some(order));
            assert_eq!(rt; text == other, order == Ordering::Equal);
        }
    }
    Ok(())
}

#[test]
fn a_list_is_its_values(rt: HostRuntime) -> Result<(), Fail> {
    let alloc = rt.alloc();
    let mut list = List::new(alloc);
    assert_eq!(rt; list.len(), 0);
    assert!(rt; list.is_empty());
    list.push(7_u32)?;
    list.push(5)?;
    assert_eq!(rt; list.len(), 2);
    assert!(rt; !list.is_empty());
    assert_eq!(rt; list.as_slice(), [7, 5].as_slice());
    let copy = list.copy()?;
    list.push(9)?;
    assert_eq!(rt; copy.as_slice(), [7, 5].as_slice());
    assert_eq!(rt; list.into_vec().as_slice(), [7, 5, 9].as_slice());
    let made = List::from_vec([4_u32].to_vec(alloc)?);
    assert_eq!(rt; made.as_slice(), [4].as_slice());
    Ok(())
}

#[test]
fn a_list_owns_what_is_pushed(rt: HostRuntime) -> Result<(), Fail> {
    let alloc = rt.alloc();
    let mut list = List::new(alloc);
    list.push(Octets::from_slice(alloc, b"first")?)?;
    list.push(Octets::new(alloc))?;
    let [first, second] = list.as_slice() else {
        return Err("two texts were pushed".into());
    };
    assert_eq!(rt; first.as_slice(), b"first".as_slice());
    assert!(rt; second.is_empty());
    Ok(())
}

#[test]
fn shows_that_memory_was_wanting(rt: HostRuntime) -> Result<(), Fail> {
    let text = format!(in rt.alloc(); "{NoMemory}")?;
    assert_eq!(rt; text.as_str(), "no memory");
    Ok(())
}

// The bytes of fields are worked out by hand from the wire format.
#[test]
fn varint_fields_are_the_shortest(rt: HostRuntime) -> Result<(), Fail> {
    let mut writer = FieldWriter::new(rt.alloc());
    writer.varint(1, 0)?;
    writer.varint(15, 127)?;
    writer.varint(16, 128)?;
    writer.varint(536_870_911, u64::MAX)?;
    let fields =
        b"\x08\x00\x78\x7f\x80\x01\x80\x01\xf8\xff\xff\xff\x0f\xff\xff\xff\xff\xff\xff\xff\xff\xff\x01";
    assert_eq!(rt; writer.finish().as_slice(), fields.as_slice());
    Ok(())
}

#[test]
fn bytes_fields_have_a_length(rt: HostRuntime) -> Result<(), Fail> {
    let mut writer = FieldWriter::new(rt.alloc());
    writer.bytes(2, b"testing")?;
    writer.bytes(16, b"")?;
    writer.bytes(1, &[7; 128])?;
    let written = writer.finish();
    let front = b"\x12\x07testing\x82\x01\x00\x0a\x80\x01\x07";
    assert_eq!(rt; written.len(), 143);
    assert_eq!(rt; &written.as_slice()[..16], front.as_slice());
    Ok(())
}

#[test]
fn a_group_stands_in_a_group(rt: HostRuntime) -> Result<(), Fail> {
    let alloc = rt.alloc();
    let mut field = FieldWriter::new(alloc);
    field.varint(1, 1)?;
    let mut inner = FieldWriter::new(alloc);
    inner.group(2, field.finish().as_slice())?;
    let mut outer = FieldWriter::new(alloc);
    outer.group(1, inner.finish().as_slice())?;
    let written = outer.finish();
    assert_eq!(rt; written.as_slice(), b"\x0b\x13\x08\x01\x14\x0c".as_slice());
    let mut reader = FieldReader::new(written.as_slice());
    let Ok(Some(field)) = reader.next() else {
        return Err("a group was written".into());
    };
    let Payload::Group(content) = field.payload else {
        return Err("the field is a group".into());
    };
    assert_eq!(rt; content, b"\x13\x08\x01\x14".as_slice());
    Ok(())
}

// Feeds bytes one by one, and then all of them are there.
fn feed_each(pieces: &mut Pieces, bytes: &[u8]) -> Result<(), PieceFault> {
    for place in 0..bytes.len() {
        pieces.feed(&bytes[place..place + 1])?;
    }
    Ok(())
}

#[test]
fn pieces_end_in_the_fault_of_the_whole(rt: HostRuntime) -> Result<(), Fail> {
    let rows: [(&[u8], u64, WireReason); 3] = [
        (b"\x0a\x05\x61", 3, WireReason::Cut),
        (b"\x0b\x10\x01", 3, WireReason::OpenGroup),
        (b"\x08\x01\x80", 3, WireReason::Cut),
    ];
    for (bytes, at, reason) in rows {
        let mut pieces = Pieces::new(rt.alloc());
        feed_each(&mut pieces, bytes)?;
        let Err(fault) = pieces.finish() else {
            return Err("the bytes are at fault".into());
        };
        assert_eq!(rt; fault, WireFault { at, reason });
    }
    Ok(())
}

#[test]
fn a_length_and_its_content_come_apart(rt: HostRuntime) -> Result<(), Fail> {
    let mut pieces = Pieces::new(rt.alloc());
    pieces.feed(b"\x0a\x01")?;
    pieces.feed(b"\x61")?;
    let Ok(whole) = pieces.finish() else {
        return Err("the bytes are fields".into());
    };
    assert_eq!(rt; whole.as_slice(), b"\x0a\x01\x61".as_slice());
    Ok(())
}

#[test]
fn a_message_may_be_cut_at_each_place(rt: HostRuntime) -> Result<(), Fail> {
    let message = b"\x08\x96\x01\x1a\x02ab\x23\x0b\x08\x01\x0c\x24\x15\x01\x02\x03\x04";
    for end in 0..=message.len() {
        let mut pieces = Pieces::new(rt.alloc());
        pieces.feed(&message[..end])?;
        feed_each(&mut pieces, &message[end..])?;
        let Ok(whole) = pieces.finish() else {
            return Err("the bytes are fields".into());
        };
        assert_eq!(rt; whole.as_slice(), message.as_slice());
    }
    Ok(())
}

// Eight million fields, each of two bytes: a walk from the start at each piece would take hours.
#[test]
fn a_long_message_in_short_pieces_takes_no_longer(rt: HostRuntime) -> Result<(), Fail> {
    let piece = b"\x08\x01".repeat(rt.alloc(), 512)?;
    let mut pieces = Pieces::new(rt.alloc());
    for _ in 0..16_384 {
        pieces.feed(&piece)?;
    }
    let Ok(whole) = pieces.finish() else {
        return Err("the bytes are fields".into());
    };
    assert_eq!(rt; whole.len(), 0x100_0000);
    Ok(())
}

// The last of these bytes brings the fault, which is told at once and kept.
#[test]
fn a_fault_that_stays_is_told_at_once(rt: HostRuntime) -> Result<(), Fail> {
    let rows: [(&[u8], u64, WireReason); 6] = [
        (
            b"\x20\xff\xff\xff\xff\xff\xff\xff\xff\xff\xff",
            10,
            WireReason::LongVarint,
        ),
        (b"\x08\x01\x0e", 2, WireReason::BadKind),
        (b"\x08\x01\x00", 2, WireReason::ZeroNumber),
        (b"\x80\x80\x80\x80\x10", 0, WireReason::BigNumber),
        (b"\x0b\x13\x0c", 2, WireReason::StrayEnd),
        (&[0x0b; 33], 32, WireReason::TooDeep),
    ];
    for (bytes, at, reason) in rows {
        let fault = WireFault { at, reason };
        let last = bytes.len() - 1;
        let mut pieces = Pieces::new(rt.alloc());
        feed_each(&mut pieces, &bytes[..last])?;
        for piece in [&bytes[last..], b"\x08\x01", b""] {
            assert_eq!(rt; pieces.feed(piece), Err(PieceFault::Wire(fault)));
        }
        let Err(found) = pieces.finish() else {
            return Err("the fault is told again".into());
        };
        assert_eq!(rt; found, fault);
    }
    Ok(())
}

#[test]
fn shows_why_a_piece_was_not_taken(rt: HostRuntime) -> Result<(), Fail> {
    let fault = WireFault {
        at: 3,
        reason: WireReason::Cut,
    };
    let text = format!(in rt.alloc(); "{}, {}", PieceFault::from(fault), PieceFault::NoMemory)?;
    assert_eq!(rt; text.as_str(), "at 3: cut, no memory");
    Ok(())
}
