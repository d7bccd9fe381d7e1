// The bytes are worked out by hand from the tables of the fields in messages to a server.
use crate::*;
use client_tags::Kind;
use progress_marker::Mark;
use std::alloc::Global;
use std::test::Fail;
use wire_fields::{List, NoMemory, Octets};

// Asks for the preferences that are newer than version 7.
const FROM_MARK_7: [u8; 20] =
    *b"\x18\x02\x2a\x10\x32\x0e\x08\xc6\xa6\x02\x12\x08\x00\x00\x00\x00\x00\x00\x00\x07";

fn ask(alloc: Global, version: u64) -> Result<ToServer, NoMemory> {
    let mut marks = List::new(alloc);
    marks.push(Marker {
        kind: Kind::Preference,
        mark: Mark { version },
    })?;
    Ok(ToServer {
        birthday: None,
        request: Request::Updates(GetUpdates { marks }),
    })
}

#[test]
fn asks_for_preferences_from_a_mark(rt: HostRuntime) -> Result<(), Fail> {
    let message = ask(rt.alloc(), 7)?;
    let bytes = encode_to(rt.alloc(), &message)?;
    assert_eq!(rt; bytes.as_slice(), FROM_MARK_7.as_slice());
    assert_eq!(rt; encoded_len_to(&message), 20);
    let again = decode_to(rt.alloc(), bytes.as_slice())?;
    assert!(rt; again.birthday.is_none());
    let Request::Updates(updates) = &again.request else {
        return Err("it asks for updates".into());
    };
    let marker = Marker {
        kind: Kind::Preference,
        mark: Mark { version: 7 },
    };
    assert_eq!(rt; updates.marks.as_slice(), [marker].as_slice());
    Ok(())
}

#[test]
fn mark_0_has_a_token_of_zero_bytes(rt: HostRuntime) -> Result<(), Fail> {
    let bytes = encode_to(rt.alloc(), &ask(rt.alloc(), 0)?)?;
    let wanted =
        b"\x18\x02\x2a\x10\x32\x0e\x08\xc6\xa6\x02\x12\x08\x00\x00\x00\x00\x00\x00\x00\x00";
    assert_eq!(rt; bytes.as_slice(), wanted.as_slice());
    Ok(())
}

#[test]
fn a_commit_with_all_its_fields(rt: HostRuntime) -> Result<(), Fail> {
    let wanted = b"\x18\x01\x22\x08\x0a\x03\x0a\x01x\x12\x01g\x3a\x01b";
    let message = decode_to(rt.alloc(), wanted)?;
    let Some(birthday) = &message.birthday else {
        return Err("it has a birthday".into());
    };
    assert_eq!(rt; birthday.as_slice(), b"b".as_slice());
    let Request::Commit(commit) = &message.request else {
        return Err("it is a commit".into());
    };
    assert_eq!(rt; commit.guid.as_slice(), b"g".as_slice());
    assert_eq!(rt; commit.entries.len(), 1);
    let bytes = encode_to(rt.alloc(), &message)?;
    assert_eq!(rt; bytes.as_slice(), wanted.as_slice());
    Ok(())
}

// A message has a commit without entries and without a name of the cache, and no birthday.
fn is_empty_commit(message: &ToServer) -> bool {
    match &message.request {
        Request::Commit(commit) => {
            commit.guid.is_empty() && commit.entries.is_empty() && message.birthday.is_none()
        }
        Request::Updates(_) => false,
    }
}

#[test]
fn a_commit_is_read_whatever_stands_beside_it(rt: HostRuntime) -> Result<(), Fail> {
    let rows: [&[u8]; 6] = [
        b"\x18\x01\x22\x00",
        b"\x98\x80\x00\x01\xa2\x80\x00\x80\x00",
        b"\x98\x06\x05\x18\x01\x22\x02\x18\x01",
        b"\x18\x02\x18\x01\x22\x00",
        b"\x18\x07\x18\x01\x22\x00",
        b"\x18\x01\x22\x00\x2a\x04\x32\x02\x12\x00",
    ];
    for bytes in rows {
        let message = decode_to(rt.alloc(), bytes)?;
        assert!(rt; is_empty_commit(&message));
    }
    Ok(())
}

// How many marks a message asks from.
fn count_of_marks(message: &ToServer) -> Option<usize> {
    match &message.request {
        Request::Updates(updates) => Some(updates.marks.len()),
        Request::Commit(_) => None,
    }
}

#[test]
fn markers_of_other_types_are_read_over(rt: HostRuntime) -> Result<(), Fail> {
    let rows: [(&[u8], usize); 5] = [
        (b"\x18\x02\x2a\x00", 0),
        (b"\x18\x02\x2a\x09\x32\x07\x08\x01\x12\x03\x00\x00\x07", 0),
        (b"\x18\x02\x2a\x06\x32\x04\x08\x01\x10\x05", 0),
        (
            b"\x18\x02\x2a\x0c\x32\x02\x08\x01\x32\x06\x08\xc6\xa6\x02\x12\x00",
            1,
        ),
        (b"\x18\x02\x2a\x00\x22\x04\x0a\x02\x08\x01", 0),
    ];
    for (bytes, count) in rows {
        let message = decode_to(rt.alloc(), bytes)?;
        assert_eq!(rt; count_of_marks(&message), Some(count));
    }
    Ok(())
}
