//! What a reply's message says of each type.
ghost use Rattle.std.specs.Prelude.{◌≡◌, map, Option, IfOk, IfSome};
ghost use Rattle.std.specs.Option.{option_map};
ghost use Rattle.sync_messages.specs.Laws.{HaveCanonicalExtras, HasCanonicalReply};
ghost use Rattle.sync_model.specs.declared.message.Task.TheVariants.{Batch as Updating};
ghost use Rattle.sync_model.specs.Receiving.{letter_of};
ghost use Rattle.sync_model.specs.Servers.{mark_of};
ghost use Rattle.replay_messages.specs.Replies.{marker_in};
ghost use Rattle.replay_messages.specs.Forms.{IsPlainCall};
ghost use Rattle.replay_client.specs.Readings.{batch_read, letters_of_updates, letters_read, ArePlainLetters};

use crate::updates::{acks_of, updates_of};
use client_tags::Kind;
use std::alloc::Global;
use sync_messages::{Marker, Reply, Updates};
use sync_model::{Ack, Batch, Call, Content, Marker as Asked, Task, Update};
use wire_fields::{List, NoMemory};

/// What a reply says of each type.
#[derive(Drop)]
pub(crate) struct Letters {
    pub(crate) nigori: Option<Task>,
    pub(crate) preference: Option<Task>,
    pub(crate) password: Option<Task>,
}

// The last of the marks that are asked for a type.
fn mark_asked(kind: Kind, markers: &[Asked]) -> Option<u64>
    ensures { result ≡ mark_of kind markers.now }
{
    let mut mark = None;
    for marker in markers {
        if marker.kind == kind {
            mark = Some(marker.mark);
        }
    }
    mark
}

// The last of the marks that are told for a type.
fn mark_told(kind: Kind, markers: &[Marker]) -> Option<u64>
    ensures { result ≡ mark_of kind (map marker_in markers.now) }
{
    let mut mark = None;
    for marker in markers {
        if marker.kind == kind {
            mark = Some(marker.mark.version);
        }
    }
    mark
}

fn letter_of(acks: List<Ack>) -> Option<Task>
    ensures { result ≡ letter_of acks }
{
    if acks.is_empty() {
        None
    } else {
        Some(Task::Acks(acks))
    }
}

// A letter of a type's updates, if the type is among those that were asked for.
fn batch_of(kind: Kind, asked: &[Asked], updates: List<Update>, told: &[Marker]) -> Option<Task>
    ensures { result ≡ batch_read kind (mark_of kind asked.now) updates (map marker_in told.now) }
{
    let asked = mark_asked(kind, asked)?;
    Some(Task::Batch(Batch {
        updates,
        mark: mark_told(kind, told).unwrap_or(asked),
    }))
}

// The letters of what a get-updates with these marks is told.
fn letters_of_updates(
    alloc: Global,
    asked: &[Asked],
    updates: &Updates,
) -> Result<Letters, NoMemory>
    requires { HaveCanonicalExtras updates.now.entries }
    ensures read { IfOk result (λ letters. letters ≡ letters_of_updates asked.now updates.now) }
    ensures plain { IfOk result ArePlainLetters }
{
    let preferences = updates_of(alloc, updates.entries.as_slice())?;
    let told = updates.marks.as_slice();
    Ok(Letters {
        nigori: batch_of(Kind::Nigori, asked, List::new(alloc), told),
        preference: batch_of(Kind::Preference, asked, preferences, told),
        password: batch_of(Kind::Password, asked, List::new(alloc), told),
    })
}

/// What a reply says of each type, if it answers the call. It takes time in what the reply holds.
#[tactic(auto, unfolding(crate::specs::Readings::letters_read))]
pub(crate) fn letters_in(
    alloc: Global,
    call: &Call<Content>,
    reply: &Reply,
) -> Result<Option<Letters>, NoMemory>
    requires call { IsPlainCall call.now }
    requires reply { HasCanonicalReply reply.now }
    ensures read { IfOk result (λ letters. letters ≡ letters_read call.now reply.now) }
    ensures plain { IfOk result (λ letters. IfSome letters ArePlainLetters) }
{
    match (call, reply) {
        (Call::Commit(entries), Reply::Committed(answers)) if entries.len() == answers.len() => {
            let acks = acks_of(alloc, entries.as_slice(), answers.as_slice())?;
            Ok(Some(Letters {
                nigori: None,
                preference: letter_of(acks),
                password: None,
            }))
        }
        (Call::Updates(marks), Reply::Updates(updates)) => {
            Ok(Some(letters_of_updates(alloc, marks.as_slice(), updates)?))
        }
        _ => Ok(None),
    }
}
