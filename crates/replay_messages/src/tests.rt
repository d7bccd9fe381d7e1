ghost use Rattle.std.specs.Prelude.{IfOk};
ghost use Rattle.replay_messages.specs.Forms.{IsPlain, IsPlainCall, IsPlainValue};

use client_tags::{Kind, TagHash, tag_hash};
use std::alloc::Global;
use sync_model::{Call, Content, Entry, Key, Request, Value};
use sync_values::Preference;
use wire_fields::{List, NoMemory, Octets};

mod reading;
mod records;
mod requests;

// The bytes of client 1's request to store the preference `a` with the value `1`, worked out by the tables of the
// format; the hash's text is the base64 of SHA-1 over `b2 b4 12 00` and `a`.
const SET_A: [u8; 60] =
    *b"\x18\x01\x22\x38\x0a\x2c\xaa\x01\x0a\xb2\xb4\x12\x06\x0a\x01a\x12\x011\xba\x01\x1cKx2jO7xVq8+3lJZeivRPONho7EY=\x12\x08client-1";

// The bytes of a reply without a birthday that says of one entry that it is stored as the write of version 7.
const STORED: [u8; 8] = *b"\x0a\x06\x0b\x10\x01\x30\x07\x0c";

fn hash_of_a() -> TagHash {
    tag_hash(Kind::Preference, b"a")
}

fn plain_entry(hash: TagHash, version: u64, value: Value) -> Entry<Content>
    requires { IsPlainValue value }
    ensures { IsPlain result }
{
    // It is known to have twenty bytes.
    let _bytes = hash.as_bytes();
    Entry {
        key: Key {
            kind: Kind::Preference,
            hash,
        },
        version,
        content: Content {
            value,
            number: 1,
            lock: None,
            draw: None,
        },
    }
}

fn commit_of(alloc: Global, entry: Entry<Content>) -> Result<Request<Content>, NoMemory>
    requires { IsPlain entry }
    ensures { IfOk result (λ request. IsPlainCall request.call) }
{
    let mut entries = List::new(alloc);
    entries.push(entry)?;
    Ok(Request {
        birthday: None,
        call: Call::Commit(entries),
    })
}

// The request to store the preference `a` with the value `1`.
#[tactic(auto, using(crate::proofs::NoExtra::no_extra))]
fn set_a(alloc: Global) -> Result<Request<Content>, NoMemory>
    ensures { IfOk result (λ request. IsPlainCall request.call) }
{
    let name = Octets::from_slice(alloc, b"a")?;
    let value = Octets::from_slice(alloc, b"1")?;
    let extra = Octets::new(alloc);
    let preference = Preference { name, value, extra };
    commit_of(
        alloc,
        plain_entry(hash_of_a(), 0, Value::Preference(preference)),
    )
}
