use super::rows::NAMED;
use super::{key_of, named_bag};
use crate::*;
use std::alloc::Global;
use std::test::Fail;
use sync_specifics::{MessageFault, MessageReason};
use wire_fields::NoMemory;

// A key and a name of it, as they stand in the message of a bag: all texts are shorter than 128 bytes.
fn key_bytes(alloc: Global, parts: &[u128; 3], name: &[u8]) -> Result<Vec<u8>, NoMemory> {
    let mut bytes = Vec::from_slice(alloc, &[0x0a])?;
    bytes.push(name.len().min(127) as u8)?;
    bytes.extend_from_slice(name)?;
    for (part, number) in parts.iter().zip([0x12, 0x1a, 0x22]) {
        bytes.extend_from_slice(&[number, 0x10])?;
        bytes.extend_from_slice(&part.to_be_bytes())?;
    }
    Ok(bytes)
}

#[test]
fn a_bag_is_packed_with_its_names(rt: HostRuntime) -> Result<(), Fail> {
    let alloc = rt.alloc();
    let mut wanted = Vec::new(alloc);
    for (parts, name) in NAMED {
        // 144 bytes follow: a field of 90 for the name and three of 18 for the parts.
        wanted.extend_from_slice(b"\x12\x90\x01")?;
        wanted.extend_from_slice(&key_bytes(alloc, &parts, name)?)?;
    }
    let packed = named_bag(alloc)?.pack()?;
    assert_eq!(rt; packed.as_slice(), wanted.as_slice());
    Ok(())
}

#[test]
fn what_was_packed_is_unpacked(rt: HostRuntime) -> Result<(), Fail> {
    let alloc = rt.alloc();
    let packed = named_bag(alloc)?.pack()?;
    let keys = KeyBag::unpack(alloc, packed.as_slice())?;
    assert_eq!(rt; keys.len(), 3);
    for (key, (parts, _)) in keys.as_slice().iter().zip(NAMED.iter()) {
        assert_eq!(rt; *key, key_of(parts));
    }
    Ok(())
}

#[test]
fn a_name_beside_a_key_is_not_believed(rt: HostRuntime) -> Result<(), Fail> {
    let alloc = rt.alloc();
    let (parts, name) = NAMED[0];
    let mut bytes = Vec::from_slice(alloc, b"\x12\x39")?;
    bytes.extend_from_slice(&key_bytes(alloc, &parts, b"x")?)?;
    let keys = KeyBag::unpack(alloc, &bytes)?;
    assert_eq!(rt; keys.as_slice(), [key_of(&parts)].as_slice());
    let mut bag = KeyBag::new(alloc);
    bag.add(&key_of(&parts))?;
    assert!(rt; bag.has(name));
    assert!(rt; !bag.has(b"x"));
    Ok(())
}

#[test]
fn bytes_that_say_no_keys_are_refused(rt: HostRuntime) -> Result<(), Fail> {
    let fault = MessageFault {
        at: 2,
        reason: MessageReason::Missing { field: 2 },
    };
    let answer = KeyBag::unpack(rt.alloc(), b"\x12\x00");
    assert!(rt; matches!(&answer, Err(told) if *told == fault));
    Ok(())
}
