// The bytes are worked out by hand from the tables of the fields in specifics.
use crate::*;
use std::alloc::Global;
use std::test::Fail;
use wire_fields::{NoMemory, Octets};

fn sealed(alloc: Global) -> Result<Sealed, NoMemory> {
    Ok(Sealed {
        key_name: Octets::from_slice(alloc, b"k")?,
        blob: Octets::from_slice(alloc, b"b")?,
    })
}

#[test]
fn a_preference_in_specifics(rt: HostRuntime) -> Result<(), Fail> {
    let value = Specifics::Preference(Preference {
        name: Octets::from_slice(rt.alloc(), b"a")?,
        value: Octets::from_slice(rt.alloc(), b"1")?,
        extra: Octets::new(rt.alloc()),
    });
    let bytes = encode_specifics(rt.alloc(), &value)?;
    assert_eq!(rt;
        bytes.as_slice(),
        b"\xb2\xb4\x12\x06\x0a\x01a\x12\x011".as_slice()
    );
    let again = decode_specifics(rt.alloc(), bytes.as_slice())?;
    let Some(Specifics::Preference(preference)) = &again else {
        return Err("a preference was written".into());
    };
    assert_eq!(rt; preference.name.as_slice(), b"a".as_slice());
    assert_eq!(rt; preference.value.as_slice(), b"1".as_slice());
    Ok(())
}

#[test]
fn a_preference_in_specifics_keeps_its_unknown_fields(rt: HostRuntime) -> Result<(), Fail> {
    let value = Specifics::Preference(Preference {
        name: Octets::from_slice(rt.alloc(), b"a")?,
        value: Octets::from_slice(rt.alloc(), b"1")?,
        extra: Octets::from_slice(rt.alloc(), b"\x18\x07")?,
    });
    let wanted = b"\xb2\xb4\x12\x08\x0a\x01a\x12\x011\x18\x07";
    let bytes = encode_specifics(rt.alloc(), &value)?;
    assert_eq!(rt; bytes.as_slice(), wanted.as_slice());
    let rows: [&[u8]; 2] = [wanted, b"\xb2\xb4\x12\x08\x18\x07\x0a\x01a\x12\x011"];
    for bytes in rows {
        let again = decode_specifics(rt.alloc(), bytes)?;
        let Some(Specifics::Preference(preference)) = &again else {
            return Err("a preference was written".into());
        };
        assert_eq!(rt; preference.name.as_slice(), b"a".as_slice());
        assert_eq!(rt; preference.value.as_slice(), b"1".as_slice());
        assert_eq!(rt; preference.extra.as_slice(), b"\x18\x07".as_slice());
    }
    Ok(())
}

#[test]
fn a_preference_in_two_pieces_is_joined(rt: HostRuntime) -> Result<(), Fail> {
    let bytes = b"\xb2\xb4\x12\x03\x0a\x01a\x8a\xb3\x16\x00\xb2\xb4\x12\x03\x12\x011";
    let again = decode_specifics(rt.alloc(), bytes)?;
    let Some(Specifics::Preference(preference)) = &again else {
        return Err("the pieces make a preference".into());
    };
    assert_eq!(rt; preference.name.as_slice(), b"a".as_slice());
    assert_eq!(rt; preference.value.as_slice(), b"1".as_slice());
    Ok(())
}

#[test]
fn a_sealed_preference_has_an_empty_message_beside_it(rt: HostRuntime) -> Result<(), Fail> {
    let value = Specifics::SealedPreference(sealed(rt.alloc())?);
    let bytes = encode_specifics(rt.alloc(), &value)?;
    let wanted = b"\x0a\x06\x0a\x01k\x12\x01b\xb2\xb4\x12\x00";
    assert_eq!(rt; bytes.as_slice(), wanted.as_slice());
    let again = decode_specifics(rt.alloc(), wanted)?;
    let Some(Specifics::SealedPreference(sealed)) = &again else {
        return Err("a sealed preference was written".into());
    };
    assert_eq!(rt; sealed.key_name.as_slice(), b"k".as_slice());
    assert_eq!(rt; sealed.blob.as_slice(), b"b".as_slice());
    Ok(())
}

#[test]
fn a_preference_is_sealed_whatever_its_message_holds(rt: HostRuntime) -> Result<(), Fail> {
    let rows: [&[u8]; 4] = [
        b"\x0a\x06\x0a\x01k\x12\x01b\xb2\xb4\x12\x02\x08\x01",
        b"\x0a\x06\x0a\x01k\x12\x01b\xb2\xb4\x12\x03\x0a\x01a",
        b"\xb2\xb4\x12\x06\x0a\x01a\x12\x011\x0a\x06\x0a\x01k\x12\x01b",
        b"\x0a\x03\x0a\x01k\xb2\xb4\x12\x00\x0a\x03\x12\x01b",
    ];
    for bytes in rows {
        let again = decode_specifics(rt.alloc(), bytes)?;
        let is_sealed = matches!(&again, Some(Specifics::SealedPreference(_)));
        assert!(rt; is_sealed);
    }
    Ok(())
}

#[test]
fn a_login_in_specifics(rt: HostRuntime) -> Result<(), Fail> {
    let bytes = encode_specifics(rt.alloc(), &Specifics::Password(sealed(rt.alloc())?))?;
    let wanted = b"\x8a\xb3\x16\x08\x0a\x06\x0a\x01k\x12\x01b";
    assert_eq!(rt; bytes.as_slice(), wanted.as_slice());
    let again = decode_specifics(rt.alloc(), wanted)?;
    let Some(Specifics::Password(sealed)) = &again else {
        return Err("a login was written".into());
    };
    assert_eq!(rt; sealed.key_name.as_slice(), b"k".as_slice());
    assert_eq!(rt; sealed.blob.as_slice(), b"b".as_slice());
    Ok(())
}

#[test]
fn keys_in_specifics(rt: HostRuntime) -> Result<(), Fail> {
    let value = Specifics::Nigori(NigoriContent {
        bag: sealed(rt.alloc())?,
        pass_kind: PassKind::Custom,
    });
    let bytes = encode_specifics(rt.alloc(), &value)?;
    let wanted = b"\x8a\xa8\x17\x0b\x0a\x06\x0a\x01k\x12\x01b\xf0\x01\x04";
    assert_eq!(rt; bytes.as_slice(), wanted.as_slice());
    let again = decode_specifics(rt.alloc(), wanted)?;
    let Some(Specifics::Nigori(nigori)) = &again else {
        return Err("keys were written".into());
    };
    assert_eq!(rt; nigori.bag.key_name.as_slice(), b"k".as_slice());
    assert_eq!(rt; nigori.bag.blob.as_slice(), b"b".as_slice());
    assert_eq!(rt; nigori.pass_kind, PassKind::Custom);
    Ok(())
}

#[test]
fn an_absent_passphrase_type_is_implicit(rt: HostRuntime) -> Result<(), Fail> {
    let bytes = b"\x8a\xa8\x17\x08\x0a\x06\x0a\x01k\x12\x01b";
    let again = decode_specifics(rt.alloc(), bytes)?;
    let Some(Specifics::Nigori(nigori)) = &again else {
        return Err("there are keys".into());
    };
    assert_eq!(rt; nigori.pass_kind, PassKind::Implicit);
    Ok(())
}

#[test]
fn each_passphrase_type_has_its_number(rt: HostRuntime) -> Result<(), Fail> {
    let kinds = [
        PassKind::Implicit,
        PassKind::Keystore,
        PassKind::Frozen,
        PassKind::Custom,
        PassKind::Vault,
    ];
    for (place, kind) in kinds.iter().enumerate() {
        assert_eq!(rt; kind.number() as usize, place + 1);
        assert_eq!(rt; PassKind::from_number(place as u64 + 1), Some(*kind));
    }
    assert_eq!(rt; PassKind::from_number(0), None);
    assert_eq!(rt; PassKind::from_number(6), None);
    Ok(())
}

#[test]
fn an_empty_message_of_each_type(rt: HostRuntime) -> Result<(), Fail> {
    let rows: [(Kind, &[u8]); 3] = [
        (Kind::Preference, b"\xb2\xb4\x12\x00"),
        (Kind::Password, b"\x8a\xb3\x16\x00"),
        (Kind::Nigori, b"\x8a\xa8\x17\x00"),
    ];
    for (kind, wanted) in rows {
        let bytes = encode_specifics(rt.alloc(), &Specifics::EmptyOf(kind))?;
        assert_eq!(rt; bytes.as_slice(), wanted);
    }
    Ok(())
}

// The type of which specifics are an empty message.
fn empty_type(value: &Option<Specifics>) -> Option<Kind> {
    match value {
        Some(Specifics::EmptyOf(kind)) => Some(*kind),
        _ => None,
    }
}

#[test]
fn the_last_type_counts_and_the_others_are_fields_alone(rt: HostRuntime) -> Result<(), Fail> {
    let rows: [(&[u8], Kind); 6] = [
        (b"\xb2\xb4\x12\x00", Kind::Preference),
        (b"\xb2\xb4\x12\x02\x18\x01", Kind::Preference),
        (b"\xb2\xb4\x12\x02\x08\x01\x8a\xb3\x16\x00", Kind::Password),
        (
            b"\x8a\xb3\x16\x02\x08\x01\x8a\xa8\x17\x03\xf0\x01\x02",
            Kind::Nigori,
        ),
        (
            b"\x8a\xa8\x17\x03\xf0\x01\x09\xb2\xb4\x12\x00",
            Kind::Preference,
        ),
        (b"\x8a\xb3\x16\x02\x10\x01\x18\x01", Kind::Password),
    ];
    for (bytes, kind) in rows {
        let value = decode_specifics(rt.alloc(), bytes)?;
        assert_eq!(rt; empty_type(&value), Some(kind));
    }
    Ok(())
}

#[test]
fn without_a_type_there_is_nothing(rt: HostRuntime) -> Result<(), Fail> {
    let rows: [&[u8]; 3] = [b"", b"\x10\x01", b"\x0a\x06\x0a\x01k\x12\x01b"];
    for bytes in rows {
        let value = decode_specifics(rt.alloc(), bytes)?;
        assert!(rt; value.is_none());
    }
    Ok(())
}
