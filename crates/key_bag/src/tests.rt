// The keys, names and sealed texts are those of an independent model; the bytes of messages are worked out by hand
// from the tables of a key's and a bag's fields.
use super::*;
use key_derivation::NigoriKey;
use std::alloc::Global;
use std::test::Fail;
use wire_fields::{NoMemory, Octets};

mod faults;
mod messages;
mod rows;
mod texts;

use rows::NAMED;

fn key_of(parts: &[u128; 3]) -> NigoriKey {
    NigoriKey {
        user: parts[0].to_be_bytes(),
        enc: parts[1].to_be_bytes(),
        mac: parts[2].to_be_bytes(),
    }
}

// A bag of the named keys, without a default.
fn named_bag(alloc: Global) -> Result<KeyBag, NoMemory> {
    let mut bag = KeyBag::new(alloc);
    for (parts, _) in NAMED {
        bag.add(&key_of(&parts))?;
    }
    Ok(bag)
}

#[test]
fn a_new_bag_is_empty(rt: HostRuntime) -> Result<(), Fail> {
    let bag = KeyBag::new(rt.alloc());
    assert!(rt; bag.is_empty());
    assert_eq!(rt; bag.len(), 0);
    assert!(rt; bag.names()?.is_empty());
    let (_, name) = &NAMED[0];
    assert!(rt; !bag.has(*name));
    Ok(())
}

#[test]
fn a_key_is_added_once(rt: HostRuntime) -> Result<(), Fail> {
    let mut bag = KeyBag::new(rt.alloc());
    for (parts, name) in NAMED {
        assert!(rt; !bag.has(name));
        assert_eq!(rt; bag.add(&key_of(&parts))?, Added::New);
        assert_eq!(rt; bag.add(&key_of(&parts))?, Added::Present);
        assert!(rt; bag.has(name));
    }
    assert_eq!(rt; bag.len(), 3);
    Ok(())
}

#[test]
fn names_come_in_the_order_of_adding(rt: HostRuntime) -> Result<(), Fail> {
    let bag = named_bag(rt.alloc())?;
    let names = bag.names()?;
    assert_eq!(rt; names.len(), 3);
    for (name, (_, wanted)) in names.as_slice().iter().zip(NAMED.iter()) {
        assert_eq!(rt; name.as_slice(), wanted.as_slice());
    }
    Ok(())
}

#[test]
fn laws_hold() {
    packed_keys_are_unpacked();
    sealed_texts_are_unsealed();
}
