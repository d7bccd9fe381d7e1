// Each copy once with ample memory, its fields beside those that it was made from.
use crate::*;
use std::alloc::Global;
use std::test::Fail;
use wire_fields::{List, NoMemory, Octets};

const KEYS: [NigoriKey; 2] = [
    NigoriKey {
        user: [1; 16],
        enc: [2; 16],
        mac: [3; 16],
    },
    NigoriKey {
        user: [4; 16],
        enc: [5; 16],
        mac: [6; 16],
    },
];

fn preference(alloc: Global) -> Result<Preference, NoMemory> {
    Ok(Preference {
        name: Octets::from_slice(alloc, b"home")?,
        value: Octets::from_slice(alloc, b"on")?,
        extra: Octets::from_slice(alloc, b"\x18\x07")?,
    })
}

fn password(alloc: Global) -> Result<Password, NoMemory> {
    Ok(Password {
        origin: Octets::from_slice(alloc, b"https://a.example")?,
        user_element: Octets::from_slice(alloc, b"user")?,
        user_value: Octets::from_slice(alloc, b"ann")?,
        pass_element: Octets::from_slice(alloc, b"pass")?,
        realm: Octets::from_slice(alloc, b"a.example")?,
        secret: Octets::from_slice(alloc, b"hush")?,
        created: -3,
        extra: Octets::from_slice(alloc, b"\x60\x01")?,
    })
}

fn nigori(alloc: Global) -> Result<NigoriValue, NoMemory> {
    Ok(NigoriValue {
        lock: Octets::from_slice(alloc, b"key")?,
        keys: List::from_vec(Vec::from_slice(alloc, &KEYS)?),
        pass_kind: PassKind::Custom,
    })
}

#[test]
fn copies_a_preference(rt: HostRuntime) -> Result<(), Fail> {
    let copy = preference(rt.alloc())?.copy()?;
    assert_eq!(rt; copy.name.as_slice(), b"home".as_slice());
    assert_eq!(rt; copy.value.as_slice(), b"on".as_slice());
    assert_eq!(rt; copy.extra.as_slice(), b"\x18\x07".as_slice());
    Ok(())
}

#[test]
fn copies_a_password(rt: HostRuntime) -> Result<(), Fail> {
    let copy = password(rt.alloc())?.copy()?;
    assert_eq!(rt; copy.origin.as_slice(), b"https://a.example".as_slice());
    assert_eq!(rt; copy.user_element.as_slice(), b"user".as_slice());
    assert_eq!(rt; copy.user_value.as_slice(), b"ann".as_slice());
    assert_eq!(rt; copy.pass_element.as_slice(), b"pass".as_slice());
    assert_eq!(rt; copy.realm.as_slice(), b"a.example".as_slice());
    assert_eq!(rt; copy.secret.as_slice(), b"hush".as_slice());
    assert_eq!(rt; copy.created, -3);
    assert_eq!(rt; copy.extra.as_slice(), b"\x60\x01".as_slice());
    Ok(())
}

#[test]
fn copies_a_nigori_value(rt: HostRuntime) -> Result<(), Fail> {
    let copy = nigori(rt.alloc())?.copy()?;
    assert_eq!(rt; copy.lock.as_slice(), b"key".as_slice());
    assert_eq!(rt; copy.keys.as_slice(), KEYS.as_slice());
    assert_eq!(rt; copy.pass_kind, PassKind::Custom);
    Ok(())
}

#[test]
fn copies_no_value(rt: HostRuntime) -> Result<(), Fail> {
    let copy = Value::Absent.copy()?;
    assert!(rt; matches!(&copy, Value::Absent));
    Ok(())
}

#[test]
fn copies_a_value_that_is_a_preference(rt: HostRuntime) -> Result<(), Fail> {
    let copy = Value::Preference(preference(rt.alloc())?).copy()?;
    let Value::Preference(copy) = &copy else {
        return Err("a preference was copied".into());
    };
    assert_eq!(rt; copy.value.as_slice(), b"on".as_slice());
    Ok(())
}

#[test]
fn copies_a_value_that_is_a_password(rt: HostRuntime) -> Result<(), Fail> {
    let copy = Value::Password(password(rt.alloc())?).copy()?;
    let Value::Password(copy) = &copy else {
        return Err("a password was copied".into());
    };
    assert_eq!(rt; copy.secret.as_slice(), b"hush".as_slice());
    Ok(())
}

#[test]
fn copies_a_value_that_is_a_nigori(rt: HostRuntime) -> Result<(), Fail> {
    let copy = Value::Nigori(nigori(rt.alloc())?).copy()?;
    let Value::Nigori(copy) = &copy else {
        return Err("a nigori value was copied".into());
    };
    assert_eq!(rt; copy.keys.len(), 2);
    Ok(())
}
