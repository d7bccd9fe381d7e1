//! Reading messages to a server.
ghost use Rattle.std.specs.Prelude.{◌≡◌, Ok, Err, IfOk};
ghost use Rattle.message_fields.specs.Lookups.{AreWithin, bytes_in_field, number_of};
ghost use Rattle.message_fields.specs.Faults.{Answered};
ghost use Rattle.sync_messages.specs.Requests.{IsCommit, IsGetUpdates, IsRequest, SaysTo, kind_fault, named, request_kind, to_fault};

use crate::entity::entities_in;
use crate::marker::markers_in;
use crate::message::{Commit, GetUpdates, Request, ToServer};
use crate::tables::{COMMIT_FIELDS, GET_UPDATES_FIELDS, TO_FIELDS};
use message_fields::{Message, MessageFault, MessageReason, Part, first_fault};
use std::alloc::Global;
use wire_fields::{List, NoMemory, Octets};

// The request that a message to a server names.
#[derive(Clone, Copy, Debug, PartialEq, Eq)]
pub(crate) enum RequestKind {
    Commit,
    Updates,
}

/// Reads a message to a server, in time linear in the bytes.
pub fn decode_to(alloc: Global, bytes: &[u8]) -> Result<ToServer, MessageFault>
    ensures { Answered (SaysTo bytes.now) result }
{
    let own = Message::read(alloc, bytes, &[Part::whole(bytes)], &TO_FIELDS)?;
    let commit = own.inner(alloc, bytes, 4, &COMMIT_FIELDS)?;
    let updates = own.inner(alloc, bytes, 5, &GET_UPDATES_FIELDS)?;
    let (fault, request) = request_in(alloc, bytes, &own, &commit, &updates)?;
    match to_fault(&own, &commit, &updates, fault) {
        None => Ok(ToServer {
            birthday: octets_in(alloc, bytes, &own, 7)?,
            request,
        }),
        Some(fault) => Err(fault),
    }
}

// The content of a bytes field, if it is there.
pub(crate) fn octets_in(
    alloc: Global,
    input: &[u8],
    message: &Message,
    number: u32,
) -> Result<Option<Octets>, NoMemory>
    requires { AreWithin input.now message.now.fields }
    ensures { IfOk result (λ octets. octets ≡ bytes_in_field input.now number message.now.fields) }
{
    match message.bytes_in_field(input, number) {
        None => Ok(None),
        Some(bytes) => Ok(Some(Octets::from_slice(alloc, bytes)?)),
    }
}

// The request that a message names, and what is at fault in it.
fn request_in(
    alloc: Global,
    input: &[u8],
    own: &Message,
    commit: &Message,
    updates: &Message,
) -> Result<(Option<MessageFault>, Request), NoMemory>
    requires commit { AreWithin input.now commit.now.fields }
    requires updates { AreWithin input.now updates.now.fields }
    ensures { IfOk result (λ found. IsRequest input.now own.now commit.now updates.now (named own.now) found.0 found.1) }
{
    match named(own) {
        Some(RequestKind::Commit) => commit_in(alloc, input, own, commit),
        Some(RequestKind::Updates) => updates_in(alloc, input, own, updates),
        None => Ok((
            None,
            Request::Updates(GetUpdates {
                marks: List::new(alloc),
            }),
        )),
    }
}

fn commit_in(
    alloc: Global,
    input: &[u8],
    own: &Message,
    commit: &Message,
) -> Result<(Option<MessageFault>, Request), NoMemory>
    requires { AreWithin input.now commit.now.fields }
    ensures { IfOk result (λ found. IsCommit input.now own.now commit.now found.0 found.1) }
{
    let parts = commit.parts(alloc, 1)?;
    let (entries_fault, entries) = entities_in(alloc, input, parts.as_slice())?;
    let fault = first_fault(&[
        entries_fault,
        commit.wrong_kind(&COMMIT_FIELDS),
        own.missing(4),
    ]);
    let guid = Octets::from_slice(alloc, commit.bytes(input, 2))?;
    Ok((
        fault,
        Request::Commit(Commit {
            guid,
            entries: List::from_vec(entries),
        }),
    ))
}

fn updates_in(
    alloc: Global,
    input: &[u8],
    own: &Message,
    updates: &Message,
) -> Result<(Option<MessageFault>, Request), NoMemory>
    requires { AreWithin input.now updates.now.fields }
    ensures { IfOk result (λ found. IsGetUpdates input.now own.now updates.now found.0 found.1) }
{
    let parts = updates.parts(alloc, 6)?;
    let (markers_fault, marks) = markers_in(alloc, input, parts.as_slice())?;
    let fault = first_fault(&[
        markers_fault,
        updates.wrong_kind(&GET_UPDATES_FIELDS),
        own.missing(5),
    ]);
    Ok((
        fault,
        Request::Updates(GetUpdates {
            marks: List::from_vec(marks),
        }),
    ))
}

// What is at fault in a message, where this is at fault in the request that it names.
fn to_fault(
    own: &Message,
    commit: &Message,
    updates: &Message,
    fault: Option<MessageFault>,
) -> Option<MessageFault>
    ensures { result ≡ to_fault own.now commit.now updates.now fault }
{
    first_fault(&[
        fault,
        commit.wire_fault(),
        updates.wire_fault(),
        own.wire_fault(),
        own.wrong_kind(&TO_FIELDS),
        kind_fault(own),
        own.missing(3),
    ])
}

// The request that a message names, if it names one.
fn named(own: &Message) -> Option<RequestKind>
    ensures { result ≡ named own.now }
{
    request_kind(own.varint(3)?)
}

fn request_kind(number: u64) -> Option<RequestKind>
    ensures { result ≡ request_kind number }
{
    match number {
        1 => Some(RequestKind::Commit),
        2 => Some(RequestKind::Updates),
        _ => None,
    }
}

// A number that names no request.
fn kind_fault(own: &Message) -> Option<MessageFault>
    ensures { result ≡ kind_fault own.now (number_of 3 own.now.fields) }
{
    if request_kind(own.varint(3)?).is_some() {
        return None;
    }
    own.fault_of(3, MessageReason::Range { field: 3 })
}
