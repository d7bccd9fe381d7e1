use super::rows::{KEYS, LOGIN, NAME, PREFERENCE, key};
use super::*;
use std::test::Fail;
use sync_specifics::{NigoriContent, PassKind};

// A type's one entity of a reply, which opens, as an update.
fn opened(
    alloc: Global,
    kind: Kind,
    hash: TagHash,
    specifics: Specifics,
) -> Result<Option<Update>, NoMemory> {
    let bag = bag_with_key(alloc)?;
    let mut worker = Worker::new(alloc, kind);
    let taken = take(alloc, &mut worker, &bag, entity(alloc, hash, 7, specifics))?;
    Ok(last_update(taken))
}

fn is_the_preference(value: &Value) -> bool {
    match value {
        Value::Preference(preference) => {
            preference.name.as_slice() == b"a".as_slice()
                && preference.value.as_slice() == b"1".as_slice()
        }
        _ => false,
    }
}

fn is_the_login(value: &Value) -> bool {
    match value {
        Value::Password(login) => {
            login.user_value.as_slice() == b"ann".as_slice()
                && login.secret.as_slice() == b"s3".as_slice()
                && login.created == 5
        }
        _ => false,
    }
}

fn are_the_keys(value: &Value) -> bool {
    match value {
        Value::Nigori(nigori) => {
            nigori.lock.as_slice() == NAME && nigori.keys.as_slice() == [key()].as_slice()
        }
        _ => false,
    }
}

#[test]
fn a_plain_preference_opens(rt: HostRuntime) -> Result<(), Fail> {
    let specifics = Specifics::Preference(preference(rt.alloc())?);
    let update = opened(rt.alloc(), Kind::Preference, hash_of(b"a"), specifics)?;
    let Some(update) = update else {
        return Err("no update".into());
    };
    assert_eq!(rt; update.version, 7);
    assert!(rt; update.hash == hash_of(b"a"));
    assert!(rt; update.lock.is_none());
    assert!(rt; is_the_preference(&update.value));
    Ok(())
}

#[test]
fn a_sealed_preference_opens(rt: HostRuntime) -> Result<(), Fail> {
    let specifics = Specifics::SealedPreference(sealed(rt.alloc(), NAME, PREFERENCE)?);
    let update = opened(rt.alloc(), Kind::Preference, hash_of(b"a"), specifics)?;
    let Some(update) = update else {
        return Err("no update".into());
    };
    assert!(rt; is_named(&update.lock, NAME));
    assert!(rt; is_the_preference(&update.value));
    Ok(())
}

#[test]
fn a_login_opens(rt: HostRuntime) -> Result<(), Fail> {
    let specifics = Specifics::Password(sealed(rt.alloc(), NAME, LOGIN)?);
    let update = opened(rt.alloc(), Kind::Password, hash_of(b"a"), specifics)?;
    let Some(update) = update else {
        return Err("no update".into());
    };
    assert!(rt; is_named(&update.lock, NAME));
    assert!(rt; is_the_login(&update.value));
    Ok(())
}

#[test]
fn the_keys_of_a_profile_open(rt: HostRuntime) -> Result<(), Fail> {
    let specifics = Specifics::Nigori(NigoriContent {
        bag: sealed(rt.alloc(), NAME, KEYS)?,
        pass_kind: PassKind::Custom,
    });
    let hash = tag_hash(Kind::Nigori, nigori_tag());
    let update = opened(rt.alloc(), Kind::Nigori, hash, specifics)?;
    let Some(update) = update else {
        return Err("no update".into());
    };
    assert!(rt; is_named(&update.lock, NAME));
    assert!(rt; are_the_keys(&update.value));
    Ok(())
}

// An entity that is deleted is taken as a deletion, whatever it holds.
fn deleted(alloc: Global) -> Result<Option<Update>, NoMemory> {
    let bag = KeyBag::new(alloc);
    let mut worker = Worker::new(alloc, Kind::Preference);
    let mut entity = sealed_entity(alloc, NAME, PREFERENCE)?;
    entity.deleted = true;
    let taken = take(alloc, &mut worker, &bag, entity)?;
    Ok(last_update(taken))
}

#[test]
fn a_deletion_opens(rt: HostRuntime) -> Result<(), Fail> {
    let Some(update) = deleted(rt.alloc())? else {
        return Err("no update".into());
    };
    assert!(rt; update.lock.is_none());
    assert!(rt; matches!(&update.value, Value::Absent));
    Ok(())
}

#[test]
fn specifics_of_a_type_alone_are_a_deletion(rt: HostRuntime) -> Result<(), Fail> {
    let specifics = Specifics::EmptyOf(Kind::Preference);
    let update = opened(rt.alloc(), Kind::Preference, hash_of(b"a"), specifics)?;
    let Some(update) = update else {
        return Err("no update".into());
    };
    assert!(rt; matches!(&update.value, Value::Absent));
    Ok(())
}
