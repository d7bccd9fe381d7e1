use super::rows::{NAME, PREFERENCE};
use super::*;
use std::test::Fail;

// A type takes an entity, or passes over it: nothing then waits, and its batch is empty.
fn is_taken(alloc: Global, kind: Kind, entity: Entity) -> Result<bool, NoMemory> {
    let bag = bag_with_key(alloc)?;
    let mut worker = Worker::new(alloc, kind);
    let taken = take(alloc, &mut worker, &bag, entity)?;
    Ok(last_update(taken).is_some())
}

#[test]
fn an_entity_of_the_type_is_taken(rt: HostRuntime) -> Result<(), Fail> {
    let entity = sealed_entity(rt.alloc(), NAME, PREFERENCE)?;
    assert!(rt; is_taken(rt.alloc(), Kind::Preference, entity)?);
    Ok(())
}

#[test]
fn another_type_is_passed_over(rt: HostRuntime) -> Result<(), Fail> {
    let entity = sealed_entity(rt.alloc(), NAME, PREFERENCE)?;
    assert!(rt; !is_taken(rt.alloc(), Kind::Password, entity)?);
    Ok(())
}

#[test]
fn an_entity_without_a_hash_is_passed_over(rt: HostRuntime) -> Result<(), Fail> {
    let mut entity = sealed_entity(rt.alloc(), NAME, PREFERENCE)?;
    entity.hash = None;
    assert!(rt; !is_taken(rt.alloc(), Kind::Preference, entity)?);
    Ok(())
}

#[test]
fn an_entity_without_specifics_is_passed_over(rt: HostRuntime) -> Result<(), Fail> {
    let mut entity = sealed_entity(rt.alloc(), NAME, PREFERENCE)?;
    entity.specifics = None;
    assert!(rt; !is_taken(rt.alloc(), Kind::Preference, entity)?);
    Ok(())
}

// The preference `a` was written as this version.
fn is_taken_at(alloc: Global, version: i64) -> Result<bool, NoMemory> {
    let mut entity = sealed_entity(alloc, NAME, PREFERENCE)?;
    entity.version = version;
    is_taken(alloc, Kind::Preference, entity)
}

#[test]
fn a_version_that_no_write_has_is_passed_over(rt: HostRuntime) -> Result<(), Fail> {
    assert!(rt; is_taken_at(rt.alloc(), 1)?);
    assert!(rt; !is_taken_at(rt.alloc(), 0)?);
    assert!(rt; !is_taken_at(rt.alloc(), -1)?);
    Ok(())
}

// Sealed keys of a profile with this hash.
fn keys_entity(alloc: Global, hash: TagHash) -> Result<Entity, NoMemory> {
    let bag = sealed(alloc, NAME, super::rows::KEYS)?;
    let pass_kind = sync_specifics::PassKind::Custom;
    let content = sync_specifics::NigoriContent { bag, pass_kind };
    Ok(entity(alloc, hash, 7, Specifics::Nigori(content)))
}

#[test]
fn keys_of_another_hash_are_passed_over(rt: HostRuntime) -> Result<(), Fail> {
    let entity = keys_entity(rt.alloc(), tag_hash(Kind::Nigori, b"another"))?;
    assert!(rt; !is_taken(rt.alloc(), Kind::Nigori, entity)?);
    Ok(())
}

#[test]
fn a_deletion_of_keys_is_passed_over(rt: HostRuntime) -> Result<(), Fail> {
    let mut entity = keys_entity(rt.alloc(), tag_hash(Kind::Nigori, nigori_tag()))?;
    entity.deleted = true;
    assert!(rt; !is_taken(rt.alloc(), Kind::Nigori, entity)?);
    Ok(())
}
