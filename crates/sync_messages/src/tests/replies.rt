// The bytes are worked out by hand from the tables of the fields in messages from a server.
use crate::*;
use client_tags::Kind;
use progress_marker::Mark;
use std::alloc::Global;
use std::test::Fail;
use wire_fields::{List, NoMemory, Octets};

fn answered(alloc: Global) -> Result<FromServer, NoMemory> {
    let mut answers = List::new(alloc);
    answers.push(EntryAnswer {
        outcome: Outcome::Success,
        id: Octets::new(alloc),
        version: 7,
    })?;
    Ok(FromServer {
        birthday: None,
        reply: Reply::Committed(answers),
    })
}

#[test]
fn one_answer(rt: HostRuntime) -> Result<(), Fail> {
    let wanted = b"\x0a\x06\x0b\x10\x01\x30\x07\x0c";
    let bytes = encode_from(rt.alloc(), &answered(rt.alloc())?)?;
    assert_eq!(rt; bytes.as_slice(), wanted.as_slice());
    let rows: [&[u8]; 3] = [
        wanted,
        b"\x0a\x09\x0b\x30\x07\x98\x06\x05\x10\x01\x0c",
        b"\x12\x01\x0c\x0a\x06\x0b\x10\x01\x30\x07\x0c",
    ];
    for bytes in rows {
        let message = decode_from(rt.alloc(), bytes)?;
        assert!(rt; message.birthday.is_none());
        let Reply::Committed(answers) = &message.reply else {
            return Err("it answers a commit".into());
        };
        assert_eq!(rt; answers.len(), 1);
        let answer = &answers.as_slice()[0];
        assert_eq!(rt; answer.outcome, Outcome::Success);
        assert!(rt; answer.id.is_empty());
        assert_eq!(rt; answer.version, 7);
    }
    Ok(())
}

#[test]
fn each_outcome_has_its_number(rt: HostRuntime) {
    let outcomes = [
        Outcome::Success,
        Outcome::Conflict,
        Outcome::Retry,
        Outcome::Invalid,
        Outcome::OverQuota,
        Outcome::Transient,
    ];
    for (place, outcome) in outcomes.iter().enumerate() {
        assert_eq!(rt; outcome.number() as usize, place + 1);
        assert_eq!(rt; Outcome::from_number(place as u64 + 1), Some(*outcome));
    }
    assert_eq!(rt; Outcome::from_number(0), None);
    assert_eq!(rt; Outcome::from_number(7), None);
}

#[test]
fn updates_with_all_their_fields(rt: HostRuntime) -> Result<(), Fail> {
    let wanted =
        b"\x12\x17\x0a\x03\x0a\x01x\x20\x02\x2a\x0e\x08\x81\xf5\x02\x12\x08\x00\x00\x00\x00\x00\x00\x00\x07\x32\x01b";
    let message = decode_from(rt.alloc(), wanted)?;
    let Some(birthday) = &message.birthday else {
        return Err("it has a birthday".into());
    };
    assert_eq!(rt; birthday.as_slice(), b"b".as_slice());
    let Reply::Updates(updates) = &message.reply else {
        return Err("it tells updates".into());
    };
    assert_eq!(rt; updates.entries.len(), 1);
    assert_eq!(rt; updates.remaining, 2);
    let marker = Marker {
        kind: Kind::Nigori,
        mark: Mark { version: 7 },
    };
    assert_eq!(rt; updates.marks.as_slice(), [marker].as_slice());
    let bytes = encode_from(rt.alloc(), &message)?;
    assert_eq!(rt; bytes.as_slice(), wanted.as_slice());
    assert_eq!(rt; encoded_len_from(&message), 28);
    Ok(())
}

// The reason for which a server does not handle a request.
fn code_of(message: &FromServer) -> Option<u32> {
    match &message.reply {
        Reply::Refused(code) => Some(*code),
        Reply::Committed(_) | Reply::Updates(_) => None,
    }
}

#[test]
fn beside_an_error_code_nothing_is_looked_at(rt: HostRuntime) -> Result<(), Fail> {
    let rows: [(&[u8], u32); 5] = [
        (b"\x20\x05", 5),
        (b"\x20\xff\xff\xff\xff\x07", 2_147_483_647),
        (b"\x20\x00\x20\x02\x32\x02v\x22", 2),
        (b"\x0a\x01\x0c\x20\x05", 5),
        (b"\x20\x05\x12\x04\x0a\x02\x08\x01", 5),
    ];
    for (bytes, code) in rows {
        let message = decode_from(rt.alloc(), bytes)?;
        assert_eq!(rt; code_of(&message), Some(code));
    }
    Ok(())
}

#[test]
fn a_refusal_with_a_birthday(rt: HostRuntime) -> Result<(), Fail> {
    let message = FromServer {
        birthday: Some(Octets::from_slice(rt.alloc(), b"v\x22")?),
        reply: Reply::Refused(2),
    };
    let bytes = encode_from(rt.alloc(), &message)?;
    assert_eq!(rt; bytes.as_slice(), b"\x20\x02\x32\x02v\x22".as_slice());
    Ok(())
}
