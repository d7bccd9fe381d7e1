// The bytes and the faults are worked out by hand from the tables of a key's and a bag's fields.
use crate::*;
use std::alloc::Global;
use std::test::Fail;
use wire_fields::{List, NoMemory, Octets};
use wire_format::WireReason;

const ZEROS: NigoriKey = NigoriKey {
    user: [0; 16],
    enc: [0; 16],
    mac: [0; 16],
};

// A text that is joined from pieces.
fn joined(alloc: Global, pieces: &[&[u8]]) -> Result<Vec<u8>, NoMemory> {
    let mut bytes = Vec::new(alloc);
    for piece in pieces {
        bytes.extend_from_slice(piece)?;
    }
    Ok(bytes)
}

// A key whose parts have these bytes each.
fn key_bytes(alloc: Global, user: u8, enc: u8, mac: u8) -> Result<Vec<u8>, NoMemory> {
    joined(
        alloc,
        &[
            b"\x12\x10",
            &[user; 16],
            b"\x1a\x10",
            &[enc; 16],
            b"\x22\x10",
            &[mac; 16],
        ],
    )
}

fn fault_of(alloc: Global, bytes: &[u8]) -> Option<MessageFault> {
    match decode_key(alloc, bytes) {
        Ok(_) => None,
        Err(fault) => Some(fault),
    }
}

fn bag_fault_of(alloc: Global, bytes: &[u8]) -> Option<MessageFault> {
    match decode_keys(alloc, bytes) {
        Ok(_) => None,
        Err(fault) => Some(fault),
    }
}

fn fault(at: u64, reason: MessageReason) -> Option<MessageFault> {
    Some(MessageFault { at, reason })
}

#[test]
fn a_key_is_its_three_parts(rt: HostRuntime) -> Result<(), Fail> {
    let zeros = key_bytes(rt.alloc(), 0, 0, 0)?;
    assert_eq!(rt;
        encode_key(rt.alloc(), &ZEROS)?.as_slice(),
        zeros.as_slice()
    );
    assert_eq!(rt; decode_key(rt.alloc(), zeros.as_slice())?, ZEROS);
    let key = NigoriKey {
        user: [1; 16],
        enc: [2; 16],
        mac: [3; 16],
    };
    let bytes = key_bytes(rt.alloc(), 1, 2, 3)?;
    assert_eq!(rt; encode_key(rt.alloc(), &key)?.as_slice(), bytes.as_slice());
    assert_eq!(rt; decode_key(rt.alloc(), bytes.as_slice())?, key);
    Ok(())
}

#[test]
fn a_name_is_read_over_and_the_last_part_counts(rt: HostRuntime) -> Result<(), Fail> {
    let key = key_bytes(rt.alloc(), 0, 0, 0)?;
    let named = joined(rt.alloc(), &[b"\x0a\x01n", &key, b"\x2a\x01x"])?;
    assert_eq!(rt; decode_key(rt.alloc(), &named)?, ZEROS);
    let other = joined(
        rt.alloc(),
        &[&key_bytes(rt.alloc(), 7, 8, 9)?, b"\x12\x00", &key],
    )?;
    assert_eq!(rt; decode_key(rt.alloc(), &other)?, ZEROS);
    Ok(())
}

#[test]
fn a_key_needs_its_parts(rt: HostRuntime) -> Result<(), Fail> {
    let missing = |field| MessageReason::Missing { field };
    let alloc = rt.alloc();
    assert_eq!(rt; fault_of(alloc, b""), fault(0, missing(2)));
    let first = joined(alloc, &[b"\x12\x10", &[0; 16]])?;
    assert_eq!(rt; fault_of(alloc, &first), fault(18, missing(3)));
    let last = joined(alloc, &[b"\x1a\x10", &[0; 16], b"\x22\x10", &[0; 16]])?;
    assert_eq!(rt; fault_of(alloc, &last), fault(36, missing(2)));
    let ends = joined(alloc, &[b"\x12\x10", &[0; 16], b"\x22\x10", &[0; 16]])?;
    assert_eq!(rt; fault_of(alloc, &ends), fault(36, missing(3)));
    Ok(())
}

#[test]
fn a_part_of_another_length_is_out_of_range(rt: HostRuntime) -> Result<(), Fail> {
    let range = |field| MessageReason::Range { field };
    let alloc = rt.alloc();
    let short = joined(alloc, &[b"\x12\x0f", &[0; 15]])?;
    assert_eq!(rt; fault_of(alloc, &short), fault(0, range(2)));
    let long = joined(alloc, &[b"\x12\x10", &[0; 16], b"\x22\x11", &[0; 17]])?;
    assert_eq!(rt; fault_of(alloc, &long), fault(18, range(4)));
    let key = key_bytes(alloc, 0, 0, 0)?;
    let last = joined(alloc, &[&key, b"\x1a\x00"])?;
    assert_eq!(rt; fault_of(alloc, &last), fault(54, range(3)));
    let wrong = joined(alloc, &[b"\x08\x01", &last])?;
    assert_eq!(rt;
        fault_of(alloc, &wrong),
        fault(0, MessageReason::WrongKind { field: 1 })
    );
    Ok(())
}

#[test]
fn a_bag_is_its_keys(rt: HostRuntime) -> Result<(), Fail> {
    let alloc = rt.alloc();
    let zeros = key_bytes(alloc, 0, 0, 0)?;
    let other = key_bytes(alloc, 1, 2, 3)?;
    let bytes = joined(alloc, &[b"\x12\x36", &zeros, b"\x12\x39\x0a\x01n", &other])?;
    let mut keys = List::new(alloc);
    keys.push(ZEROS)?;
    keys.push(NigoriKey {
        user: [1; 16],
        enc: [2; 16],
        mac: [3; 16],
    })?;
    let again = decode_keys(alloc, &bytes)?;
    assert_eq!(rt; again.as_slice(), keys.as_slice());
    let spaced = joined(alloc, &[b"\x18\x01", &bytes, b"\x0a\x00"])?;
    assert_eq!(rt; decode_keys(alloc, &spaced)?.as_slice(), keys.as_slice());
    assert!(rt; decode_keys(alloc, b"")?.is_empty());
    Ok(())
}

#[test]
fn an_empty_name_is_left_out(rt: HostRuntime) -> Result<(), Fail> {
    let alloc = rt.alloc();
    let zeros = key_bytes(alloc, 0, 0, 0)?;
    let names = List::from_vec(vec![in alloc;
        Octets::new(alloc),
        Octets::from_slice(alloc, b"n")?,
    ]?);
    let keys = List::from_vec(vec![in alloc; ZEROS, ZEROS]?);
    let bytes = encode_keys(alloc, &names, &keys)?;
    let wanted = joined(alloc, &[b"\x12\x36", &zeros, b"\x12\x39\x0a\x01n", &zeros])?;
    assert_eq!(rt; bytes.as_slice(), wanted.as_slice());
    Ok(())
}

#[test]
fn the_first_fault_of_all_keys_is_told(rt: HostRuntime) -> Result<(), Fail> {
    let alloc = rt.alloc();
    let key = key_bytes(alloc, 0, 0, 0)?;
    let second = joined(alloc, &[b"\x12\x36", &key, b"\x12\x00\x12\x00"])?;
    assert_eq!(rt;
        bag_fault_of(alloc, &second),
        fault(58, MessageReason::Missing { field: 2 })
    );
    let range = joined(alloc, &[b"\x12\x00\x12\x02\x12\x00\x12\x36", &key])?;
    assert_eq!(rt;
        bag_fault_of(alloc, &range),
        fault(4, MessageReason::Range { field: 2 })
    );
    let wrong = joined(alloc, &[b"\x12\x00\x10\x01\x12\x36", &key])?;
    assert_eq!(rt;
        bag_fault_of(alloc, &wrong),
        fault(2, MessageReason::WrongKind { field: 2 })
    );
    let wire = joined(alloc, &[b"\x10\x01\x12\x01\x07"])?;
    let zero = MessageReason::Wire(WireReason::ZeroNumber);
    assert_eq!(rt; bag_fault_of(alloc, &wire), fault(4, zero));
    Ok(())
}
