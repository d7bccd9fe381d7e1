//! What is read of the entities of a commit before any is stored.
ghost use Rattle.std.specs.Prelude.{◌≡◌, map, IfOk, IfSome};
ghost use Rattle.loopback_server.specs.Candidates.{entry_read, HasId, HaveIds};
ghost use Rattle.replay_messages.specs.Entries.{entry_in, kind_of, is_empty, may_not_be_stored, stored};
ghost use Rattle.loopback_server.specs.Indexes.{key_of};
ghost use Rattle.replay_messages.specs.Replies.{id_of};

use crate::write::{EntityKey, Write};
use client_tags::Kind;
use replay_messages::id_of;
use std::alloc::Global;
use sync_messages::Entity;
use sync_specifics::{NigoriContent, Specifics};
use wire_fields::{NoMemory, Octets};

/// A write that may come of an entity, with the name that the entity then has.
#[derive(Debug, Drop)]
pub(crate) struct Candidate {
    pub(crate) write: Write,
    pub(crate) id: Octets,
}

fn kind_of(specifics: &Specifics) -> Kind
    ensures { result ≡ kind_of specifics.now }
{
    match specifics {
        Specifics::EmptyOf(kind) => *kind,
        Specifics::Preference(_) | Specifics::SealedPreference(_) => Kind::Preference,
        Specifics::Password(_) => Kind::Password,
        Specifics::Nigori(_) => Kind::Nigori,
    }
}

/// Specifics say no more than a type.
pub(crate) fn is_empty(specifics: &Specifics) -> bool
    ensures { result ≡ is_empty specifics.now }
{
    matches!(specifics, Specifics::EmptyOf(_))
}

fn may_not_be_stored(deleted: bool, specifics: &Specifics) -> bool
    ensures { result ≡ may_not_be_stored deleted specifics.now }
{
    if deleted {
        kind_of(specifics) == Kind::Nigori
    } else {
        is_empty(specifics)
    }
}

/// A second owner of the same specifics, in time linear in their bytes.
pub(crate) fn copied(specifics: &Specifics) -> Result<Specifics, NoMemory>
    ensures { IfOk result (λ copy. copy ≡ specifics.now) }
{
    match specifics {
        Specifics::EmptyOf(kind) => Ok(Specifics::EmptyOf(*kind)),
        Specifics::Preference(preference) => Ok(Specifics::Preference(preference.copy()?)),
        Specifics::SealedPreference(sealed) => Ok(Specifics::SealedPreference(sealed.copy()?)),
        Specifics::Password(sealed) => Ok(Specifics::Password(sealed.copy()?)),
        Specifics::Nigori(keys) => Ok(Specifics::Nigori(NigoriContent {
            bag: keys.bag.copy()?,
            pass_kind: keys.pass_kind,
        })),
    }
}

// Specifics as they are stored.
fn stored(deleted: bool, specifics: &Specifics) -> Result<Specifics, NoMemory>
    ensures { IfOk result (λ kept. kept ≡ stored deleted specifics.now) }
{
    if deleted {
        Ok(Specifics::EmptyOf(kind_of(specifics)))
    } else {
        copied(specifics)
    }
}

// The write that may come of an entity, if it may be stored.
#[tactic(auto, unfolding(replay_messages::specs::Entries::entry_in))]
fn candidate_of(alloc: Global, entity: &Entity) -> Result<Option<Candidate>, NoMemory>
    ensures entry { IfOk result (λ read. entry_read read ≡ entry_in entity.now) }
    ensures id { IfOk result (λ read. HasId read) }
{
    let Some(specifics) = &entity.specifics else {
        return Ok(None);
    };
    let Some(hash) = &entity.hash else {
        return Ok(None);
    };
    if may_not_be_stored(entity.deleted, specifics) {
        return Ok(None);
    }
    let key = EntityKey {
        kind: kind_of(specifics),
        hash: *hash,
    };
    Ok(Some(Candidate {
        id: id_of(alloc, &key.named())?,
        write: Write {
            key,
            base: entity.version.cast_unsigned(),
            specifics: stored(entity.deleted, specifics)?,
        },
    }))
}

/// What is read of some entities, in time linear in their bytes.
pub(crate) fn candidates_of(
    alloc: Global,
    entities: &[Entity],
) -> Result<Vec<Option<Candidate>>, NoMemory>
    ensures entries { IfOk result (λ read. map entry_read read.items ≡ map entry_in entities.now) }
    ensures ids { IfOk result (λ read. HaveIds read.items) }
{
    let mut candidates = Vec::with_capacity(alloc, entities.len())?;
    for entity in entities {
        candidates.push(candidate_of(alloc, entity)?)?;
    }
    Ok(candidates)
}
