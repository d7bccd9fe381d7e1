// The hashes and their texts were computed with Python's hashlib and base64.
use super::*;
use std::test::Fail;

const LOGIN_TAG: &[u8] = b"https%3A%2F%2Fa.example%2F|u|bob|p|https%3A%2F%2Fa.example%2F";

#[test]
fn kinds_have_their_numbers(rt: HostRuntime) {
    let numbers = [
        (Kind::Nigori, 47745),
        (Kind::Preference, 37702),
        (Kind::Password, 45873),
    ];
    for (kind, number) in numbers {
        assert_eq!(rt; kind.number(), number);
        assert_eq!(rt; Kind::from_number(u64::from(number)), Some(kind));
    }
}

#[test]
fn the_keys_are_taken_first(rt: HostRuntime) {
    assert!(rt; Kind::Nigori.is_before(&Kind::Preference));
    assert!(rt; Kind::Preference.is_before(&Kind::Password));
    assert!(rt; Kind::Nigori.is_before(&Kind::Password));
    for kind in [Kind::Nigori, Kind::Preference, Kind::Password] {
        assert!(rt; !kind.is_before(&kind));
    }
    assert!(rt; !Kind::Password.is_before(&Kind::Nigori));
}

#[test]
fn other_numbers_are_of_no_kind(rt: HostRuntime) {
    for number in [0, 1, 37701, 37703, 45872, 45874, 47744, 47746, u64::MAX] {
        assert_eq!(rt; Kind::from_number(number), None, "at {number}");
    }
    // The number of a kind and 2 to the 32nd, which 32 bits would not tell from the kind's.
    assert_eq!(rt; Kind::from_number(47745 + 0x1_0000_0000), None);
}

#[test]
fn a_password_tag_is_escaped(rt: HostRuntime) -> Result<(), Fail> {
    let site = b"https://a.example/";
    let tag = password_tag(rt.alloc(), site, b"u", b"bob", b"p", site)?;
    assert_eq!(rt; tag.as_slice(), LOGIN_TAG);
    let marks = password_tag(rt.alloc(), b"-._~", b"|%", b" \xff\x00", b"", b"azAZ09")?;
    assert_eq!(rt;
        marks.as_slice(),
        b"-._~|%7C%25|%20%FF%00||azAZ09".as_slice()
    );
    tags_tell_logins();
    Ok(())
}

#[test]
fn a_login_is_hashed_as_its_tag(rt: HostRuntime) {
    let site = b"https://a.example/";
    let hash = login_hash(site, b"u", b"bob", b"p", site);
    assert_eq!(rt; hash.text(), *b"PsDFe4mD2AyXaMxLe8xOfe4kq9Q=");
    let of_no_texts = login_hash(b"", b"", b"", b"", b"");
    assert_eq!(rt; of_no_texts.text(), *b"UczXQr7uvsFbYJHfx4Wvc2SjRaU=");
}

#[test]
fn the_nigori_tag_is_its_name(rt: HostRuntime) {
    assert_eq!(rt; nigori_tag(), b"google_chrome_nigori".as_slice());
}

#[test]
fn tags_have_their_hashes(rt: HostRuntime) {
    let texts: [(Kind, &[u8], &[u8; 28]); 6] = [
        (Kind::Nigori, nigori_tag(), b"iPVWQUE1aTW2hwWDf4pxMXMmlno="),
        (Kind::Nigori, b"", b"EJ/+6eZPe5L/ygtw6+49okpM3rs="),
        (
            Kind::Preference,
            b"homepage",
            b"0yuFwtPF2x0mPZBlnwML1rTbWLg=",
        ),
        (Kind::Preference, b"", b"cVcwJj3dnLTKvGkjynWbC5meGAk="),
        (Kind::Password, LOGIN_TAG, b"PsDFe4mD2AyXaMxLe8xOfe4kq9Q="),
        (Kind::Password, b"||||", b"UczXQr7uvsFbYJHfx4Wvc2SjRaU="),
    ];
    for (kind, tag, text) in texts {
        let hash = tag_hash(kind, tag);
        assert_eq!(rt; hash.text(), *text);
        assert_eq!(rt; TagHash::from_text(text), Some(hash));
    }
}

#[test]
fn a_hash_is_its_bytes(rt: HostRuntime) {
    let bytes = [
        0x88, 0xf5, 0x56, 0x41, 0x41, 0x35, 0x69, 0x35, 0xb6, 0x87, 0x05, 0x83, 0x7f, 0x8a, 0x71,
        0x31, 0x73, 0x26, 0x96, 0x7a,
    ];
    assert_eq!(rt; *tag_hash(Kind::Nigori, nigori_tag()).as_bytes(), bytes);
    assert_eq!(rt;
        TagHash::from_text(b"iPVWQUE1aTW2hwWDf4pxMXMmlno="),
        Some(TagHash::from_bytes(bytes))
    );
    assert!(rt; TagHash::from_bytes([0; 20]) < TagHash::from_bytes(bytes));
}

#[test]
fn other_texts_are_of_no_hash(rt: HostRuntime) {
    let others: [&[u8]; 10] = [
        b"",
        // 27 and 29 characters
        b"iPVWQUE1aTW2hwWDf4pxMXMmlno",
        b"iPVWQUE1aTW2hwWDf4pxMXMmlno==",
        // characters of no alphabet, and of the one for URLs
        b"iPVWQUE1aTW2hw Df4pxMXMmlno=",
        b"*PVWQUE1aTW2hwWDf4pxMXMmlno=",
        b"EJ_-6eZPe5L_ygtw6-49okpM3rs=",
        // bits past the last byte
        b"iPVWQUE1aTW2hwWDf4pxMXMmlnp=",
        // another padding, none (21 bytes), and two of it (19 bytes)
        b"iPVWQUE1aTW2hwWDf4pxMXMmlno-",
        b"iPVWQUE1aTW2hwWDf4pxMXMmlnoA",
        b"iPVWQUE1aTW2hwWDf4pxMXMmlg==",
    ];
    for text in others {
        assert_eq!(rt; TagHash::from_text(text), None, "at {text:?}");
    }
}

#[test]
fn shows_that_memory_was_wanting(rt: HostRuntime) -> Result<(), Fail> {
    let text = format!(in rt.alloc(); "{NoMemory}")?;
    assert_eq!(rt; text.as_str(), "no memory");
    Ok(())
}
