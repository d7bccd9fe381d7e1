//! Reading messages from a server.
ghost use Rattle.std.specs.Prelude.{◌≡◌, ◌^◌, ◌<◌, ◌≤◌, IfOk};
ghost use Rattle.message_fields.specs.Lookups.{AreWithin};
ghost use Rattle.message_fields.specs.Faults.{Answered, missing};
ghost use Rattle.sync_messages.specs.Replies.{AreUpdates, IsCommitted, IsReply, SaysFrom, code_fault, code_of, code_or_zero, from_fault, remaining_fault, reply_kind};

use crate::answer::answers_in;
use crate::entity::entities_in;
use crate::marker::markers_in;
use crate::message::{FromServer, Reply, Updates};
use crate::request::octets_in;
use crate::tables::{COMMITTED_FIELDS, FROM_FIELDS, UPDATES_FIELDS};
use message_fields::{Message, MessageFault, MessageReason, Part, first_fault};
use std::alloc::Global;
use wire_fields::{List, NoMemory};

// The greatest error code.
const LAST_CODE: u64 = 2_147_483_647;

// What a message from a server holds: the first of these that is there.
#[derive(Clone, Copy, Debug, PartialEq, Eq)]
pub(crate) enum ReplyKind {
    Refused,
    Committed,
    Updates,
    Nothing,
}

/// Reads a message from a server, in time linear in the bytes. Beside an error code nothing else is looked at, and
/// beside answers to a commit no updates.
pub fn decode_from(alloc: Global, bytes: &[u8]) -> Result<FromServer, MessageFault>
    ensures { Answered (SaysFrom bytes.now) result }
{
    let own = Message::read(alloc, bytes, &[Part::whole(bytes)], &FROM_FIELDS)?;
    let (fault, reply) = reply_in(alloc, bytes, &own)?;
    match from_fault(&own, fault) {
        None => Ok(FromServer {
            birthday: octets_in(alloc, bytes, &own, 6)?,
            reply,
        }),
        Some(fault) => Err(fault),
    }
}

// What a message holds, and what is at fault in it.
fn reply_in(
    alloc: Global,
    input: &[u8],
    own: &Message,
) -> Result<(Option<MessageFault>, Reply), NoMemory>
    requires { AreWithin input.now own.now.fields }
    ensures { IfOk result (λ found. IsReply input.now own.now (reply_kind own.now) found.0 found.1) }
{
    match reply_kind(own) {
        ReplyKind::Refused => Ok((code_fault(own), Reply::Refused(code_or_zero(code(own))))),
        ReplyKind::Committed => committed_in(alloc, input, own),
        ReplyKind::Updates => updates_in(alloc, input, own),
        ReplyKind::Nothing => Ok((own.missing(1), Reply::Refused(0))),
    }
}

fn committed_in(
    alloc: Global,
    input: &[u8],
    own: &Message,
) -> Result<(Option<MessageFault>, Reply), NoMemory>
    requires { AreWithin input.now own.now.fields }
    ensures { IfOk result (λ found. IsCommitted input.now own.now found.0 found.1) }
{
    let message = own.inner(alloc, input, 1, &COMMITTED_FIELDS)?;
    let groups = message.groups(alloc, 1)?;
    let (answers_fault, answers) = answers_in(alloc, input, groups.as_slice())?;
    let fault = first_fault(&[
        answers_fault,
        message.wire_fault(),
        message.wrong_kind(&COMMITTED_FIELDS),
    ]);
    Ok((fault, Reply::Committed(List::from_vec(answers))))
}

fn updates_in(
    alloc: Global,
    input: &[u8],
    own: &Message,
) -> Result<(Option<MessageFault>, Reply), NoMemory>
    requires { AreWithin input.now own.now.fields }
    ensures { IfOk result (λ found. AreUpdates input.now own.now found.0 found.1) }
{
    let message = own.inner(alloc, input, 2, &UPDATES_FIELDS)?;
    let entry_parts = message.parts(alloc, 1)?;
    let (entries_fault, entries) = entities_in(alloc, input, entry_parts.as_slice())?;
    let marker_parts = message.parts(alloc, 5)?;
    let (markers_fault, marks) = markers_in(alloc, input, marker_parts.as_slice())?;
    let fault = first_fault(&[
        entries_fault,
        markers_fault,
        message.wire_fault(),
        message.wrong_kind(&UPDATES_FIELDS),
        remaining_fault(&message),
    ]);
    Ok((
        fault,
        Reply::Updates(Updates {
            entries: List::from_vec(entries),
            remaining: message.varint(4).unwrap_or(0),
            marks: List::from_vec(marks),
        }),
    ))
}

// What is at fault in a message, where this is at fault in what it holds.
fn from_fault(own: &Message, fault: Option<MessageFault>) -> Option<MessageFault>
    ensures { result ≡ from_fault own.now fault }
{
    first_fault(&[fault, own.wire_fault(), own.wrong_kind(&FROM_FIELDS)])
}

// The error code of a message.
fn code(own: &Message) -> u64
    ensures { result ≡ code_of own.now }
{
    own.varint(4).unwrap_or(0)
}

fn reply_kind(own: &Message) -> ReplyKind
    ensures { result ≡ reply_kind own.now }
{
    if code(own) > 0 {
        ReplyKind::Refused
    } else if own.has(1) {
        ReplyKind::Committed
    } else if own.has(2) {
        ReplyKind::Updates
    } else {
        ReplyKind::Nothing
    }
}

// An error code that is too great.
fn code_fault(own: &Message) -> Option<MessageFault>
    ensures { result ≡ code_fault own.now }
{
    if code(own) <= LAST_CODE {
        return None;
    }
    own.fault_of(4, MessageReason::Range { field: 4 })
}

fn code_or_zero(code: u64) -> u32
    ensures { result ≡ code_or_zero code }
{
    if code <= LAST_CODE { code as u32 } else { 0 }
}

// A count of what is left that is negative.
fn remaining_fault(updates: &Message) -> Option<MessageFault>
    ensures { result ≡ remaining_fault updates.now }
{
    if updates.varint(4).unwrap_or(0) < 1 << 63 {
        return None;
    }
    updates.fault_of(4, MessageReason::Range { field: 4 })
}
