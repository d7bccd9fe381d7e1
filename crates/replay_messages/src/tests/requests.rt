// The bytes are worked out by hand from the tables of the format.
ghost use Rattle.replay_messages.specs.Forms.{IsPlainCall};

use super::{SET_A, commit_of, hash_of_a, plain_entry, set_a};
use crate::request_message;
use client_tags::Kind;
use std::alloc::Global;
use std::test::Fail;
use sync_messages::encode_to;
use sync_model::{Call, Content, Marker, Request, Value};
use wire_fields::{List, NoMemory, Octets};

// Asks for the preferences that are newer than version 7.
const FROM_MARK_7: [u8; 20] =
    *b"\x18\x02\x2a\x10\x32\x0e\x08\xc6\xa6\x02\x12\x08\x00\x00\x00\x00\x00\x00\x00\x07";

// Client 12's deletion of the preference `a`, based on version 3.
const DELETE_A: [u8; 96] =
    *b"\x18\x01\x22\x5c\x0a\x4f\x0a\x2237702|Kx2jO7xVq8+3lJZeivRPONho7EY=\x20\x03\x90\x01\x01\xaa\x01\x04\xb2\xb4\x12\x00\xba\x01\x1cKx2jO7xVq8+3lJZeivRPONho7EY=\x12\x09client-12";

fn bytes_of(alloc: Global, client: u32, request: &Request<Content>) -> Result<Octets, NoMemory>
    requires { IsPlainCall request.now.call }
{
    encode_to(alloc, &request_message(alloc, client, request)?)
}

#[test]
fn asks_for_preferences_from_a_mark(rt: HostRuntime) -> Result<(), Fail> {
    let mut marks = List::new(rt.alloc());
    marks.push(Marker {
        kind: Kind::Preference,
        mark: 7,
    })?;
    let request = Request {
        birthday: None,
        call: Call::Updates(marks),
    };
    let bytes = bytes_of(rt.alloc(), 1, &request)?;
    assert_eq!(rt; bytes.as_slice(), FROM_MARK_7.as_slice());
    Ok(())
}

#[test]
fn stores_a_preference(rt: HostRuntime) -> Result<(), Fail> {
    let request = set_a(rt.alloc())?;
    let bytes = bytes_of(rt.alloc(), 1, &request)?;
    assert_eq!(rt; bytes.as_slice(), SET_A.as_slice());
    Ok(())
}

#[test]
fn deletes_a_preference(rt: HostRuntime) -> Result<(), Fail> {
    let request = commit_of(rt.alloc(), plain_entry(hash_of_a(), 3, Value::Absent))?;
    let bytes = bytes_of(rt.alloc(), 12, &request)?;
    assert_eq!(rt; bytes.as_slice(), DELETE_A.as_slice());
    Ok(())
}
