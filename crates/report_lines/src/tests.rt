use super::*;
use client_tags::TagHash;
use std::alloc::Global;
use std::test::Fail;
use sync_model::{Content, Fate, Kind, Row, Value};
use sync_values::{Password, Preference};
use wire_fields::{NoMemory, Octets};

#[test]
fn lines_of_numbers(rt: HostRuntime) -> Result<(), Fail> {
    let mut out = Vec::new(rt.alloc());
    write_events_line(&mut out, 8, 0)?;
    write_server_line(&mut out, 1, 1)?;
    write_client_line(&mut out, 1, false)?;
    write_client_line(&mut out, 2, true)?;
    let counts = SideCounts {
        mark: 1,
        due: 2,
        reseal: 3,
        pending: 4,
        mailbox: 5,
    };
    write_side_line(&mut out, 1, Kind::Nigori, counts)?;
    write_totals_line(&mut out, 1, 2)?;
    assert_eq!(rt;
        out.as_slice(),
        b"events 8 void 0\nserver version 1 keys 1\nclient 1 behind\nclient 2 caught-up\n\
          side 1 nigori mark 1 due 2 reseal 3 pending 4 mailbox 5\nrequests 1 deliveries 2\n"
            .as_slice()
    );
    Ok(())
}

#[test]
fn lines_of_fates(rt: HostRuntime) -> Result<(), Fail> {
    let mut out = Vec::new(rt.alloc());
    write_fate_line(&mut out, 1, Kind::Preference, 1, Some(Fate::Committed(1)))?;
    write_fate_line(&mut out, 1, Kind::Preference, 1, None)?;
    write_fate_line(&mut out, 1, Kind::Preference, 3, Some(Fate::Followed(4)))?;
    write_fate_line(&mut out, 1, Kind::Preference, 4, Some(Fate::Matched(2)))?;
    let (version, row) = (1, Row::C6);
    let taken = Fate::Taken { version, row };
    write_fate_line(&mut out, 2, Kind::Nigori, 1, Some(taken))?;
    let echoed = Fate::Taken {
        version,
        row: Row::C0,
    };
    write_fate_line(&mut out, 1, Kind::Preference, 1, Some(echoed))?;
    let merged = Fate::Merged { version, row };
    write_fate_line(&mut out, 2, Kind::Preference, 1, Some(merged))?;
    assert_eq!(rt;
        out.as_slice(),
        b"fate 1 preference 1 committed 1\nfate 1 preference 1 stands\n\
          fate 1 preference 3 followed 4\nfate 1 preference 4 matched 2\n\
          fate 2 nigori 1 taken 1 C6\nfate 1 preference 1 taken 1 C0\n\
          fate 2 preference 1 merged 1 C6\n"
            .as_slice()
    );
    Ok(())
}

fn preference(alloc: Global, extra: &[u8]) -> Result<Value, NoMemory> {
    Ok(Value::Preference(Preference {
        name: Octets::from_slice(alloc, b"a")?,
        value: Octets::from_slice(alloc, b"1")?,
        extra: Octets::from_slice(alloc, extra)?,
    }))
}

// The hash of the preference `a`: SHA-1 over b2 b4 12 00 and `a`.
fn hash_of_a() -> TagHash {
    TagHash::from_bytes([
        0x2b, 0x1d, 0xa3, 0x3b, 0xbc, 0x55, 0xab, 0xcf, 0xb7, 0x94, 0x96, 0x5e, 0x8a, 0xf4, 0x4f,
        0x38, 0xd8, 0x68, 0xec, 0x46,
    ])
}

#[test]
fn lines_of_values(rt: HostRuntime) -> Result<(), Fail> {
    let content = Content {
        value: preference(rt.alloc(), b"")?,
        number: 1,
        lock: None,
        draw: None,
    };
    let mut out = Vec::new(rt.alloc());
    write_entity_line(&mut out, 1, Kind::Preference, &hash_of_a(), &content)?;
    write_value_line(
        &mut out,
        1,
        Kind::Preference,
        &hash_of_a(),
        1,
        &content.value,
    )?;
    assert_eq!(rt;
        out.as_slice(),
        b"entity 1 preference Kx2jO7xVq8+3lJZeivRPONho7EY= plain a 1\n\
          value 1 preference Kx2jO7xVq8+3lJZeivRPONho7EY= known 1 a 1\n"
            .as_slice()
    );
    Ok(())
}

#[test]
fn the_fields_of_a_newer_client_end_a_value(rt: HostRuntime) -> Result<(), Fail> {
    let value = preference(rt.alloc(), b"\x18\x07")?;
    let mut out = Vec::new(rt.alloc());
    write_value_line(&mut out, 2, Kind::Preference, &hash_of_a(), 0, &value)?;
    assert_eq!(rt;
        out.as_slice(),
        b"value 2 preference Kx2jO7xVq8+3lJZeivRPONho7EY= known 0 a 1 + %18%07\n".as_slice()
    );
    Ok(())
}

// The digest of the empty text (FIPS 180-4).
const DIGEST: [u8; 32] = [
    0xe3, 0xb0, 0xc4, 0x42, 0x98, 0xfc, 0x1c, 0x14, 0x9a, 0xfb, 0xf4, 0xc8, 0x99, 0x6f, 0xb9, 0x24,
    0x27, 0xae, 0x41, 0xe4, 0x64, 0x9b, 0x93, 0x4c, 0xa4, 0x95, 0x99, 0x1b, 0x78, 0x52, 0xb8, 0x55,
];

#[test]
fn a_digest_has_64_digits(rt: HostRuntime) -> Result<(), Fail> {
    let mut out = Vec::new(rt.alloc());
    write_digest_line(&mut out, &DIGEST)?;
    assert_eq!(rt;
        out.as_slice(),
        b"digest e3b0c44298fc1c149afbf4c8996fb92427ae41e4649b934ca495991b7852b855\n".as_slice()
    );
    Ok(())
}

fn login(alloc: Global) -> Result<Value, NoMemory> {
    Ok(Value::Password(Password {
        origin: Octets::from_slice(alloc, b"https://a.example/")?,
        user_element: Octets::from_slice(alloc, b"user")?,
        user_value: Octets::from_slice(alloc, b"me")?,
        pass_element: Octets::new(alloc),
        realm: Octets::from_slice(alloc, b"a realm")?,
        secret: Octets::from_slice(alloc, b"-")?,
        created: -12,
        extra: Octets::new(alloc),
    }))
}

#[test]
fn parts(rt: HostRuntime) -> Result<(), Fail> {
    let mut out = Vec::new(rt.alloc());
    write_value(&mut out, &login(rt.alloc())?)?;
    write_lock(&mut out, &None)?;
    assert_eq!(rt;
        out.as_slice(),
        b"https://a.example/ user me - a%20realm %2D -12plain".as_slice()
    );
    Ok(())
}
