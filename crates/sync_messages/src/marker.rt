//! Reading progress markers.
ghost use Rattle.std.specs.Prelude.{◌≡◌, ◌++◌, option_to_list, IfOk, OnOk};
ghost use Rattle.message_fields.specs.Fields.{ArePartsOf};
ghost use Rattle.message_fields.specs.Lookups.{AreWithin, content_of};
ghost use Rattle.progress_marker.specs.Tokens.{version_of};
ghost use Rattle.sync_messages.specs.Markers.{AreMarkersIn, is_of_other_type, marker_fault, marker_kind, marker_of, token_fault};

use crate::message::Marker;
use crate::tables::{MARKER_FIELDS, OTHER_MARKER_FIELDS};
use client_tags::Kind;
use message_fields::{Message, MessageFault, MessageReason, Part, first_fault, first_of};
use progress_marker::Mark;
use std::alloc::Global;
use wire_fields::NoMemory;

// The markers that stand in these parts, and what is at fault in them. Those of other types are read over.
pub(crate) fn markers_in(
    alloc: Global,
    input: &[u8],
    parts: &[Part],
) -> Result<(Option<MessageFault>, Vec<Marker>), NoMemory>
    requires { ArePartsOf input.now parts.now }
    ensures { IfOk result (λ found. AreMarkersIn input.now parts.now found.0 found.1.items) }
{
    let mut fault = None;
    let mut markers = Vec::new(alloc);
    for part in parts {
        let message = Message::read(alloc, input, &[*part], &MARKER_FIELDS)?;
        fault = first_of(fault, marker_fault(&message));
        push_marker(&mut markers, marker_in(input, &message))?;
    }
    Ok((fault, markers))
}

fn push_marker(markers: &mut Vec<Marker>, marker: Option<Marker>) -> Result<(), NoMemory>
    ensures { OnOk result (markers.new.items ≡ markers.old.items ++ option_to_list marker) }
{
    if let Some(marker) = marker {
        markers.push(marker)?;
    }
    Ok(())
}

// What a marker says, if it is of one of the types.
fn marker_in(input: &[u8], message: &Message) -> Option<Marker>
    requires { AreWithin input.now message.now.fields }
    ensures { result ≡ marker_of input.now message.now }
{
    let kind = marker_kind(message)?;
    Some(Marker {
        kind,
        mark: mark_of(message.bytes(input, 2)),
    })
}

// The mark of a token; mark 0 for one that is none.
#[tactic(auto, unfolding(progress_marker::specs::Tokens::version_of))]
fn mark_of(token: &[u8]) -> Mark
    ensures { result ≡ record { version = version_of token.now } }
{
    match Mark::read(token) {
        Ok(mark) => mark,
        Err(_) => Mark { version: 0 },
    }
}

// The type that a marker names, if it names one.
fn marker_kind(message: &Message) -> Option<Kind>
    ensures { result ≡ marker_kind message.now }
{
    Kind::from_number(message.varint(1)?)
}

fn is_of_other_type(message: &Message) -> bool
    ensures { result ≡ is_of_other_type message.now }
{
    message.varint(1).is_some() && marker_kind(message).is_none()
}

// What is at fault in a marker.
fn marker_fault(message: &Message) -> Option<MessageFault>
    ensures { result ≡ marker_fault message.now }
{
    if is_of_other_type(message) {
        return first_fault(&[
            message.wire_fault(),
            message.wrong_kind(&OTHER_MARKER_FIELDS),
        ]);
    }
    first_fault(&[
        message.wire_fault(),
        message.wrong_kind(&MARKER_FIELDS),
        token_fault(message),
        message.missing(1),
    ])
}

// A token of another length than 0 and 8.
fn token_fault(message: &Message) -> Option<MessageFault>
    ensures { result ≡ token_fault message.now (content_of 2 message.now.fields) }
{
    let part = message.content(2)?;
    let len = part.end.saturating_sub(part.begin);
    if len == 0 || len == 8 {
        return None;
    }
    message.fault_of(2, MessageReason::BadToken { len: len as u64 })
}
