// Stories over a bag with one key.
use crate::*;
use client_tags::{Kind, TagHash, nigori_tag, tag_hash};
use key_bag::KeyBag;
use progress_marker::Mark;
use std::alloc::Global;
use sync_messages::Entity;
use sync_model::{Task, Update};
use sync_specifics::{Sealed, Specifics};
use sync_values::{Password, Preference, Value};
use wire_fields::{List, NoMemory, Octets};

mod opening;
mod passing;
mod rows;
mod sealed_texts;
mod sending;
mod settling;
mod waiting;

fn hash_of(name: &[u8]) -> TagHash {
    tag_hash(Kind::Preference, name)
}

fn bag_with_key(alloc: Global) -> Result<KeyBag, NoMemory> {
    let mut bag = KeyBag::new(alloc);
    bag.add(&rows::key())?;
    Ok(bag)
}

fn bag_with_default(alloc: Global) -> Result<KeyBag, NoMemory> {
    let name = Octets::from_slice(alloc, rows::NAME)?;
    let mut bag = bag_with_key(alloc)?;
    let _refused = bag.set_default(name);
    Ok(bag)
}

fn sealed(alloc: Global, name: &[u8], blob: &[u8]) -> Result<Sealed, NoMemory> {
    let key_name = Octets::from_slice(alloc, name)?;
    let blob = Octets::from_slice(alloc, blob)?;
    Ok(Sealed { key_name, blob })
}

// The preference `a` with the value `1`.
fn preference(alloc: Global) -> Result<Preference, NoMemory> {
    let name = Octets::from_slice(alloc, b"a")?;
    let value = Octets::from_slice(alloc, b"1")?;
    let extra = Octets::new(alloc);
    Ok(Preference { name, value, extra })
}

// The login that the rows seal.
fn login(alloc: Global) -> Result<Password, NoMemory> {
    let origin = Octets::from_slice(alloc, b"o")?;
    let user_element = Octets::from_slice(alloc, b"ue")?;
    let user_value = Octets::from_slice(alloc, b"ann")?;
    let pass_element = Octets::from_slice(alloc, b"pe")?;
    let realm = Octets::from_slice(alloc, b"r")?;
    let secret = Octets::from_slice(alloc, b"s3")?;
    let extra = Octets::new(alloc);
    Ok(Password {
        origin,
        user_element,
        user_value,
        pass_element,
        realm,
        secret,
        created: 5,
        extra,
    })
}

fn entity(alloc: Global, hash: TagHash, version: i64, specifics: Specifics) -> Entity {
    Entity {
        id: Octets::new(alloc),
        version,
        deleted: false,
        specifics: Some(specifics),
        hash: Some(hash),
    }
}

// An entity of the sealed preference `a`.
fn sealed_entity(alloc: Global, name: &[u8], blob: &[u8]) -> Result<Entity, NoMemory> {
    let sealed = sealed(alloc, name, blob)?;
    Ok(entity(alloc, hash_of(b"a"), 7, Specifics::SealedPreference(sealed)))
}

// A reply of one entity is taken.
fn take(
    alloc: Global,
    worker: &mut Worker,
    bag: &KeyBag,
    entity: Entity,
) -> Result<Taken, NoMemory> {
    let mut entities = List::new(alloc);
    entities.push(entity)?;
    worker.take_updates(bag, entities, Mark { version: 9 })
}

// The last update of a batch that is ready.
fn last_update(taken: Taken) -> Option<Update> {
    match taken {
        Taken::Ready(task) => last_in(task),
        Taken::Pending => None,
    }
}

fn last_in(task: Task) -> Option<Update> {
    match task {
        Task::Batch(batch) => batch.updates.into_vec().pop(),
        Task::Acks(_) => None,
    }
}

// A batch waits.
fn is_pending(taken: Taken) -> bool {
    matches!(taken, Taken::Pending)
}

fn is_named(name: &Option<Octets>, wanted: &[u8]) -> bool {
    match name {
        None => false,
        Some(name) => name.as_slice() == wanted,
    }
}
