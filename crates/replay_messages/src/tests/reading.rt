ghost use Rattle.std.specs.Prelude.{◌≡◌, IfOk};
ghost use Rattle.sync_messages.specs.Laws.{IsSayable};
ghost use Rattle.replay_messages.specs.Forms.{IsPlainCall};

use super::{STORED, set_a};
use crate::{FromServer, ToServer, read_reply, read_request, request_message, server_agrees};
use std::alloc::Global;
use std::test::Fail;
use sync_messages::{EntryAnswer, Outcome, Reply, Request as Asked, encode_from, encode_to};
use sync_model::{Content, Request};
use wire_fields::{List, NoMemory, Octets};

// A request after it was written and read again.
fn request_read(alloc: Global, request: &Request<Content>) -> Result<ToServer, NoMemory>
    requires { IsPlainCall request.now.call }
{
    let message = request_message(alloc, 1, request)?;
    let bytes = encode_to(alloc, &message)?;
    read_request(alloc, bytes.as_slice())
}

#[test]
fn a_request_is_read(rt: HostRuntime) -> Result<(), Fail> {
    let request = set_a(rt.alloc())?;
    let message = request_read(rt.alloc(), &request)?;
    assert!(rt; message.birthday.is_none());
    let Asked::Commit(commit) = &message.request else {
        return Err("it is a commit".into());
    };
    assert_eq!(rt; commit.guid.as_slice(), b"client-1".as_slice());
    assert_eq!(rt; commit.entries.len(), 1);
    Ok(())
}

// A reply that says of one entry that it is stored as the write of version 7.
fn stored(alloc: Global) -> Result<FromServer, NoMemory>
    ensures { IfOk result (λ message. IsSayable message) }
{
    let mut answers = List::new(alloc);
    answers.push(EntryAnswer {
        outcome: Outcome::Success,
        id: Octets::new(alloc),
        version: 7,
    })?;
    Ok(FromServer {
        birthday: None,
        reply: Reply::Committed(answers),
    })
}

#[test]
fn a_reply_is_read(rt: HostRuntime) -> Result<(), Fail> {
    let bytes = encode_from(rt.alloc(), &stored(rt.alloc())?)?;
    assert_eq!(rt; bytes.as_slice(), STORED.as_slice());
    let message = read_reply(rt.alloc(), bytes.as_slice())?;
    let Reply::Committed(answers) = &message.reply else {
        return Err("it has answers".into());
    };
    assert_eq!(rt; answers.len(), 1);
    Ok(())
}

#[test]
fn the_law_is_called() {
    server_agrees();
}
