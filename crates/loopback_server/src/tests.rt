ghost use Rattle.std.specs.Prelude.{IfOk};
ghost use Rattle.sync_messages.specs.Laws.{HasCanonicalRequest};
ghost use Rattle.sync_model.specs.History.{IsBased};
ghost use Rattle.sync_specifics.specs.Extras.{HasCanonicalExtra, HasCanonicalExtraIfSome};

use super::*;
use client_tags::{Kind, TagHash};
use progress_marker::Mark;
use std::alloc::Global;
use std::test::Fail;
use sync_messages::{
    Commit, Entity, EntryAnswer, FromServer, GetUpdates, Marker, Outcome, Reply, Request, ToServer,
    Updates,
};
use sync_specifics::{Preference, Sealed, Specifics};
use wire_fields::{List, NoMemory, Octets};

mod commits;
mod updates;

// The name of the preference whose hash is zero.
const NAME: &[u8] = b"37702|AAAAAAAAAAAAAAAAAAAAAAAAAAA=";

fn server(alloc: Global) -> Result<Server, NoMemory>
    ensures { IfOk result (λ server. IsBased server.history) }
{
    Ok(Server::new(alloc, Octets::from_slice(alloc, b"here")?))
}

fn entity(alloc: Global, specifics: Specifics, number: u8, version: i64, deleted: bool) -> Entity
    requires { HasCanonicalExtra specifics }
    ensures { HasCanonicalExtraIfSome result.specifics }
{
    Entity {
        id: Octets::new(alloc),
        version,
        deleted,
        specifics: Some(specifics),
        hash: Some(TagHash::from_bytes([number; 20])),
    }
}

#[tactic(auto, using(replay_messages::proofs::NoExtra::no_extra))]
fn preference(alloc: Global, number: u8, version: i64) -> Result<Entity, NoMemory>
    ensures { IfOk result (λ entity. HasCanonicalExtraIfSome entity.specifics) }
{
    let specifics = Specifics::Preference(Preference {
        name: Octets::from_slice(alloc, b"a")?,
        value: Octets::from_slice(alloc, b"1")?,
        extra: Octets::new(alloc),
    });
    Ok(entity(alloc, specifics, number, version, false))
}

fn password(alloc: Global, number: u8, version: i64) -> Result<Entity, NoMemory>
    ensures { IfOk result (λ entity. HasCanonicalExtraIfSome entity.specifics) }
{
    let specifics = Specifics::Password(Sealed {
        key_name: Octets::from_slice(alloc, b"k")?,
        blob: Octets::from_slice(alloc, b"text")?,
    });
    Ok(entity(alloc, specifics, number, version, false))
}

fn deletion(alloc: Global, kind: Kind, number: u8, version: i64) -> Entity
    ensures { HasCanonicalExtraIfSome result.specifics }
{
    entity(alloc, Specifics::EmptyOf(kind), number, version, true)
}

fn commit_of(alloc: Global, entity: Entity) -> Result<ToServer, NoMemory>
    requires { HasCanonicalExtraIfSome entity.specifics }
    ensures { IfOk result (λ message. HasCanonicalRequest message.request) }
{
    let mut entries = List::new(alloc);
    entries.push(entity)?;
    Ok(ToServer {
        birthday: None,
        request: Request::Commit(Commit {
            guid: Octets::new(alloc),
            entries,
        }),
    })
}

fn reply_to(server: &mut Server, message: &ToServer) -> Result<Reply, NoMemory>
    requires { HasCanonicalRequest message.now.request }
    ensures { IsBased server.old.history → IsBased server.new.history }
{
    let FromServer {
        birthday: _birthday,
        reply,
    } = server.handle(message)?;
    Ok(reply)
}

// The answer to a commit of one entity.
fn commit(
    alloc: Global,
    server: &mut Server,
    entity: Entity,
) -> Result<Option<EntryAnswer>, NoMemory>
    requires { HasCanonicalExtraIfSome entity.specifics }
    ensures { IsBased server.old.history → IsBased server.new.history }
{
    match reply_to(server, &commit_of(alloc, entity)?)? {
        Reply::Committed(answers) => Ok(answers.into_vec().pop()),
        _ => Ok(None),
    }
}

fn is_answer(answer: &Option<EntryAnswer>, outcome: Outcome, id: &[u8], version: i64) -> bool {
    match answer {
        None => false,
        Some(answer) => {
            answer.outcome == outcome && answer.id.as_slice() == id && answer.version == version
        }
    }
}

// What a server tells to a get-updates with these marks.
fn updates_above(
    alloc: Global,
    server: &mut Server,
    marks: &[(Kind, u64)],
) -> Result<Updates, NoMemory> {
    let mut markers = List::new(alloc);
    for (kind, version) in marks {
        markers.push(Marker {
            kind: *kind,
            mark: Mark { version: *version },
        })?;
    }
    let message = ToServer {
        birthday: Some(Octets::from_slice(alloc, b"here")?),
        request: Request::Updates(GetUpdates { marks: markers }),
    };
    match reply_to(server, &message)? {
        Reply::Updates(updates) => Ok(updates),
        _ => Ok(Updates {
            entries: List::new(alloc),
            remaining: u64::MAX,
            marks: List::new(alloc),
        }),
    }
}

fn versions(alloc: Global, entities: &[Entity]) -> Result<Vec<i64>, NoMemory> {
    let mut versions = Vec::new(alloc);
    for entity in entities {
        versions.push(entity.version)?;
    }
    Ok(versions)
}

fn marks(alloc: Global, markers: &[Marker]) -> Result<Vec<(Kind, u64)>, NoMemory> {
    let mut marks = Vec::new(alloc);
    for marker in markers {
        marks.push((marker.kind, marker.mark.version))?;
    }
    Ok(marks)
}
