//! What a type takes of the entities of a reply.
ghost use Rattle.std.specs.Prelude.{◌≡◌, ◌++◌, IfOk, OnOk, option_to_list};
ghost use Rattle.sync_model.specs.Values.{same_kind};
ghost use Rattle.replay_messages.specs.Entries.{kind_of, is_empty, stored};
ghost use Rattle.type_worker.specs.Entries.{is_written, is_of, entry_at, entry_of, entries_of};

use crate::pending::SentEntry;
use client_tags::{Kind, TagHash, nigori_tag, tag_hash};
use std::alloc::Global;
use std::collections::VecDeque;
use sync_messages::Entity;
use sync_specifics::Specifics;
use wire_fields::{List, NoMemory};

// What a type takes of the entities of a reply; the others are passed over.
pub(crate) fn entries_of(
    alloc: Global,
    kind: Kind,
    entities: List<Entity>,
) -> Result<List<SentEntry>, NoMemory>
    ensures { IfOk result (λ entries. entries ≡ entries_of kind entities) }
{
    let mut entries = Vec::new(alloc);
    let mut entities = VecDeque::from_vec(entities.into_vec());
    'entities: while let Some(entity) = entities.pop_front() {
        push_if_some(&mut entries, entry_of(kind, entity))?;
    }
    Ok(List::from_vec(entries))
}

// Puts an entry, if there is one, at the end.
fn push_if_some(entries: &mut Vec<SentEntry>, entry: Option<SentEntry>) -> Result<(), NoMemory>
    ensures { OnOk result (entries.new.items ≡ entries.old.items ++ option_to_list entry) }
{
    if let Some(entry) = entry {
        entries.push(entry)?;
    }
    Ok(())
}

// An entity as a type takes it, if it does.
#[tactic(auto, unfolding(crate::specs::Entries::entry_of))]
fn entry_of(kind: Kind, entity: Entity) -> Option<SentEntry>
    ensures { result ≡ entry_of kind entity }
{
    let hash = entity.hash?;
    let specifics = entity.specifics?;
    entry_at(
        kind,
        entity.version,
        hash,
        stored(entity.deleted, specifics),
    )
}

// An entity of this version, hash and specifics as a type takes it, if it does.
fn entry_at(kind: Kind, version: i64, hash: TagHash, specifics: Specifics) -> Option<SentEntry>
    ensures { result ≡ entry_at kind version hash specifics }
{
    if is_same(kind_of(&specifics), kind) && is_written(version) && is_of(kind, &hash, &specifics) {
        Some(SentEntry {
            hash,
            version: version.cast_unsigned(),
            specifics,
        })
    } else {
        None
    }
}

// Specifics as they are stored: of what is deleted the type alone.
fn stored(deleted: bool, specifics: Specifics) -> Specifics
    ensures { result ≡ stored deleted specifics }
{
    if deleted {
        Specifics::EmptyOf(kind_of(&specifics))
    } else {
        specifics
    }
}

fn kind_of(specifics: &Specifics) -> Kind
    ensures { result ≡ kind_of specifics.now }
{
    match specifics {
        Specifics::EmptyOf(kind) => *kind,
        Specifics::Preference(_) => Kind::Preference,
        Specifics::SealedPreference(_) => Kind::Preference,
        Specifics::Password(_) => Kind::Password,
        Specifics::Nigori(_) => Kind::Nigori,
    }
}

fn is_same(first: Kind, second: Kind) -> bool
    ensures { result ≡ same_kind first second }
{
    first == second
}

// A server gives this version to a write.
fn is_written(version: i64) -> bool
    ensures { result ≡ is_written version }
{
    version > 0
}

// A type takes an entity of its own with this hash and these specifics.
fn is_of(kind: Kind, hash: &TagHash, specifics: &Specifics) -> bool
    ensures { result ≡ is_of kind hash.now specifics.now }
{
    match kind {
        Kind::Nigori => *hash == tag_hash(Kind::Nigori, nigori_tag()) && !is_empty(specifics),
        Kind::Preference => true,
        Kind::Password => true,
    }
}

// Specifics say no more than a type.
fn is_empty(specifics: &Specifics) -> bool
    ensures { result ≡ is_empty specifics.now }
{
    matches!(specifics, Specifics::EmptyOf(_))
}
