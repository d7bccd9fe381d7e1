use super::rows::SEALED;
use super::{key_of, named_bag};
use crate::*;
use nigori::key_name;
use std::test::Fail;
use sync_specifics::Sealed;
use wire_fields::Octets;

#[test]
fn texts_are_sealed_by_name_and_unsealed(rt: HostRuntime) -> Result<(), Fail> {
    let mut bag = named_bag(rt.alloc())?;
    for (parts, iv, text, blob) in SEALED {
        let key = key_of(&parts);
        bag.add(&key)?;
        let name = key_name(rt.alloc(), &key)?;
        let sealed = bag.seal_named(&name, text, &iv.to_be_bytes())?;
        assert_eq!(rt; sealed.key_name.as_slice(), name.as_slice());
        assert_eq!(rt; sealed.blob.as_slice(), blob);
        assert_eq!(rt; bag.unseal_any(&sealed)?.as_slice(), text);
    }
    Ok(())
}

#[test]
fn texts_are_sealed_by_default(rt: HostRuntime) -> Result<(), Fail> {
    let mut bag = named_bag(rt.alloc())?;
    for (parts, iv, text, blob) in SEALED {
        let key = key_of(&parts);
        bag.add(&key)?;
        let name = key_name(rt.alloc(), &key)?;
        let Ok(()) = bag.set_default(name.copy()?) else {
            return Err("the key was added".into());
        };
        let Some(default) = bag.default_name() else {
            return Err("a default was set".into());
        };
        assert_eq!(rt; default.as_slice(), name.as_slice());
        let sealed = bag.seal_default(text, &iv.to_be_bytes())?;
        assert_eq!(rt; sealed.key_name.as_slice(), name.as_slice());
        assert_eq!(rt; sealed.blob.as_slice(), blob);
    }
    Ok(())
}

#[test]
fn a_text_that_another_sealed_is_unsealed(rt: HostRuntime) -> Result<(), Fail> {
    let mut bag = named_bag(rt.alloc())?;
    let (parts, _, text, blob) = SEALED[3];
    let key = key_of(&parts);
    bag.add(&key)?;
    let sealed = Sealed {
        key_name: key_name(rt.alloc(), &key)?,
        blob: Octets::from_slice(rt.alloc(), blob)?,
    };
    assert_eq!(rt; bag.unseal_any(&sealed)?.as_slice(), text);
    Ok(())
}
