//! Requests as messages.
ghost use Rattle.std.specs.Prelude.{◌≡◌, ℕ, ◌==◌, if◌then◌else◌, [], map, IfOk};
ghost use Rattle.std.specs.List.{AllByRecursion};
ghost use Rattle.sync_messages.specs.Laws.{IsSayableRequest};
ghost use Rattle.sync_model.specs.Values.{is_absent};
ghost use Rattle.replay_messages.specs.Replies.{id_of, told_marker};
ghost use Rattle.replay_messages.specs.Forms.{IsPlain, IsPlainCall};
ghost use Rattle.replay_messages.specs.Sealed.{plain_specifics};
ghost use Rattle.replay_messages.specs.Messages.{guid_of, entity_of, call_told, request_told};

use client_tags::Kind;
use itoa::Buffer;
use progress_marker::Mark;
use std::alloc::Global;
use sync_messages::{Commit, Entity, GetUpdates, Marker as ToldMarker, Request as Asked, ToServer};
use sync_model::{Call, Content, Entry, Key, Marker, Request, Value};
use sync_specifics::Specifics;
use wire_fields::{List, NoMemory, Octets};

/// A client's request as a message, in time linear in its size. Nothing seals its entries, so it is the same in a run of
/// any seed.
#[tactic(auto, unfolding(crate::specs::Messages::request_told))]
pub fn request_message(
    alloc: Global,
    client: u32,
    request: &Request<Content>,
) -> Result<ToServer, NoMemory>
    requires { IsPlainCall request.now.call }
    ensures message { IfOk result (λ message. (seed : ℕ) → message ≡ request_told seed client request.now) }
    ensures sayable { IfOk result (λ message. IsSayableRequest message.request) }
{
    Ok(ToServer {
        birthday: copied(&request.birthday)?,
        request: told_call(alloc, client, &request.call)?,
    })
}

fn copied(octets: &Option<Octets>) -> Result<Option<Octets>, NoMemory>
    ensures { IfOk result (λ copy. copy ≡ octets.now) }
{
    match octets {
        None => Ok(None),
        Some(octets) => Ok(Some(octets.copy()?)),
    }
}

fn told_call(alloc: Global, client: u32, call: &Call<Content>) -> Result<Asked, NoMemory>
    requires { IsPlainCall call.now }
    ensures { IfOk result (λ asked. (seed : ℕ) → asked ≡ call_told seed client call.now) }
{
    match call {
        Call::Commit(entries) => Ok(Asked::Commit(Commit {
            guid: guid_of(alloc, client)?,
            entries: told_entries(alloc, entries.as_slice())?,
        })),
        Call::Updates(marks) => Ok(Asked::Updates(GetUpdates {
            marks: told_markers(alloc, marks.as_slice())?,
        })),
    }
}

/// The name that a client gives itself.
#[tactic(auto, unfolding(crate::specs::Messages::guid_of))]
fn guid_of(alloc: Global, client: u32) -> Result<Octets, NoMemory>
    ensures { IfOk result (λ guid. guid ≡ guid_of client) }
{
    let mut buffer = Buffer::new();
    let mut guid = Vec::from_slice(alloc, b"client-")?;
    guid.extend_from_slice(buffer.format(client).as_bytes())?;
    Ok(Octets::from_vec(guid))
}

fn told_markers(alloc: Global, markers: &[Marker]) -> Result<List<ToldMarker>, NoMemory>
    ensures { IfOk result (λ told. told ≡ map told_marker markers.now) }
{
    let mut told = Vec::with_capacity(alloc, markers.len())?;
    for marker in markers {
        told.push(ToldMarker {
            kind: marker.kind,
            mark: Mark {
                version: marker.mark,
            },
        })?;
    }
    Ok(List::from_vec(told))
}

fn told_entries(alloc: Global, entries: &[Entry<Content>]) -> Result<List<Entity>, NoMemory>
    requires { AllByRecursion IsPlain entries.now }
    ensures { IfOk result (λ told. (seed : ℕ) → told ≡ map (entity_of seed) entries.now) }
{
    let mut told = Vec::with_capacity(alloc, entries.len())?;
    for entry in entries {
        told.push(told_entry(alloc, entry)?)?;
    }
    Ok(List::from_vec(told))
}

fn told_entry(alloc: Global, entry: &Entry<Content>) -> Result<Entity, NoMemory>
    requires { IsPlain entry.now }
    ensures { IfOk result (λ entity. (seed : ℕ) → entity ≡ entity_of seed entry.now) }
{
    Ok(Entity {
        id: id_based(alloc, entry.version, &entry.key)?,
        version: entry.version.cast_signed(),
        deleted: is_absent(&entry.content.value),
        specifics: Some(plain_specifics(entry.key.kind, &entry.content.value)?),
        hash: Some(entry.key.hash),
    })
}

fn is_absent(value: &Value) -> bool
    ensures { result ≡ is_absent value.now }
{
    matches!(value, Value::Absent)
}

// A value as specifics that nothing seals; of a value that is always sealed the type alone.
fn plain_specifics(kind: Kind, value: &Value) -> Result<Specifics, NoMemory>
    ensures { IfOk result (λ specifics. specifics ≡ plain_specifics kind value.now) }
{
    match value {
        Value::Preference(preference) => Ok(Specifics::Preference(preference.copy()?)),
        Value::Absent | Value::Password(_) | Value::Nigori(_) => Ok(Specifics::EmptyOf(kind)),
    }
}

// The name of the entity that an entry is based on; none where it is based on none.
fn id_based(alloc: Global, version: u64, key: &Key) -> Result<Octets, NoMemory>
    ensures { IfOk result (λ id. id ≡ (if version == 0 then [] else id_of key.now)) }
{
    if version == 0 {
        return Ok(Octets::new(alloc));
    }
    id_of(alloc, key)
}

/// The name that a server gives the entity of this key.
#[tactic(auto, unfolding(crate::specs::Replies::id_of))]
pub fn id_of(alloc: Global, key: &Key) -> Result<Octets, NoMemory>
    ensures { IfOk result (λ id. id ≡ id_of key.now) }
{
    let mut buffer = Buffer::new();
    let mut id = Vec::new(alloc);
    id.extend_from_slice(buffer.format(key.kind.number()).as_bytes())?;
    id.push(b'|')?;
    id.extend_from_slice(&key.hash.text())?;
    Ok(Octets::from_vec(id))
}
