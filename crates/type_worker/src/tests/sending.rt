use super::rows::{FIRST, KEYS, LOGIN, NAME, OTHER_NAME, PREFERENCE, SECOND, key};
use super::*;
use random_vectors::{Dice, SeedDice};
use std::test::Fail;
use sync_model::Offer;
use sync_values::{NigoriValue, PassKind};

fn offer(value: Value) -> Offer {
    Offer {
        hash: hash_of(b"a"),
        known: 0,
        value,
        number: 1,
    }
}

// The keys of a profile under the lock of this name.
fn keys(alloc: Global, lock: &[u8]) -> Result<NigoriValue, NoMemory> {
    let lock = Octets::from_slice(alloc, lock)?;
    let mut keys = List::new(alloc);
    keys.push(key())?;
    Ok(NigoriValue {
        lock,
        keys,
        pass_kind: PassKind::Custom,
    })
}

// What a type that holds nothing sends of one offer, and the vector that is drawn next.
fn sent(
    alloc: Global,
    kind: Kind,
    bag: &KeyBag,
    seals: bool,
    offer: Offer,
) -> Result<(Option<Entity>, u128), NoMemory> {
    let mut offers = List::new(alloc);
    offers.push(offer)?;
    sent_of(bag, &Worker::new(alloc, kind), seals, &offers)
}

fn sent_of(
    bag: &KeyBag,
    worker: &Worker,
    seals: bool,
    offers: &List<Offer>,
) -> Result<(Option<Entity>, u128), NoMemory> {
    let mut dice = SeedDice::new([0; 32], 0);
    let entities = worker.contribution(bag, seals, offers, &mut dice)?;
    Ok((entities.into_vec().pop(), u128::from_be_bytes(dice.iv())))
}

// An entity holds this text, sealed under the named key.
fn holds(entity: &Option<Entity>, blob: &[u8]) -> bool {
    let Some(entity) = entity else {
        return false;
    };
    match &entity.specifics {
        Some(Specifics::SealedPreference(text)) => is_sealed(text, blob),
        Some(Specifics::Password(text)) => is_sealed(text, blob),
        Some(Specifics::Nigori(content)) => is_sealed(&content.bag, blob),
        _ => false,
    }
}

fn is_sealed(text: &Sealed, blob: &[u8]) -> bool {
    text.key_name.as_slice() == NAME && text.blob.as_slice() == blob
}

fn is_plain(entity: &Option<Entity>) -> bool {
    let Some(entity) = entity else {
        return false;
    };
    matches!(&entity.specifics, Some(Specifics::Preference(_)))
}

#[test]
fn a_plain_preference_draws_nothing(rt: HostRuntime) -> Result<(), Fail> {
    let bag = bag_with_default(rt.alloc())?;
    let offer = offer(Value::Preference(preference(rt.alloc())?));
    let (entity, next) = sent(rt.alloc(), Kind::Preference, &bag, false, offer)?;
    assert!(rt; is_plain(&entity));
    assert_eq!(rt; next, FIRST);
    Ok(())
}

#[test]
fn a_preference_is_sealed_where_that_is_asked(rt: HostRuntime) -> Result<(), Fail> {
    let bag = bag_with_default(rt.alloc())?;
    let offer = offer(Value::Preference(preference(rt.alloc())?));
    let (entity, next) = sent(rt.alloc(), Kind::Preference, &bag, true, offer)?;
    assert!(rt; holds(&entity, PREFERENCE));
    assert_eq!(rt; next, SECOND);
    Ok(())
}

#[test]
fn a_login_is_sealed(rt: HostRuntime) -> Result<(), Fail> {
    let bag = bag_with_default(rt.alloc())?;
    let offer = offer(Value::Password(login(rt.alloc())?));
    let (entity, next) = sent(rt.alloc(), Kind::Password, &bag, false, offer)?;
    assert!(rt; holds(&entity, LOGIN));
    assert_eq!(rt; next, SECOND);
    Ok(())
}

#[test]
fn keys_are_sealed_under_their_own_lock(rt: HostRuntime) -> Result<(), Fail> {
    let bag = bag_with_key(rt.alloc())?;
    let offer = offer(Value::Nigori(keys(rt.alloc(), NAME)?));
    let (entity, next) = sent(rt.alloc(), Kind::Nigori, &bag, false, offer)?;
    assert!(rt; holds(&entity, KEYS));
    assert_eq!(rt; next, SECOND);
    Ok(())
}

#[test]
fn a_deletion_draws_nothing(rt: HostRuntime) -> Result<(), Fail> {
    let bag = bag_with_default(rt.alloc())?;
    let (entity, next) = sent(
        rt.alloc(),
        Kind::Password,
        &bag,
        false,
        offer(Value::Absent),
    )?;
    let Some(entity) = entity else {
        return Err("nothing is sent".into());
    };
    assert!(rt; entity.deleted);
    assert!(rt; matches!(&entity.specifics, Some(Specifics::EmptyOf(Kind::Password))));
    assert_eq!(rt; next, FIRST);
    Ok(())
}

// The name and the version of what is sent of a deletion that is based on version 7.
#[test]
fn an_entity_is_based_on_what_is_known(rt: HostRuntime) -> Result<(), Fail> {
    let bag = bag_with_default(rt.alloc())?;
    let mut offer = offer(Value::Absent);
    offer.known = 7;
    let (entity, _) = sent(rt.alloc(), Kind::Preference, &bag, false, offer)?;
    let Some(entity) = entity else {
        return Err("nothing is sent".into());
    };
    assert_eq!(rt; entity.version, 7);
    assert_eq!(rt;
        entity.id.as_slice(),
        b"37702|Kx2jO7xVq8+3lJZeivRPONho7EY=".as_slice()
    );
    Ok(())
}

#[test]
fn nothing_is_sent_of_no_offers(rt: HostRuntime) -> Result<(), Fail> {
    let bag = bag_with_default(rt.alloc())?;
    let worker = Worker::new(rt.alloc(), Kind::Password);
    let (entity, next) = sent_of(&bag, &worker, false, &List::new(rt.alloc()))?;
    assert!(rt; entity.is_none());
    assert_eq!(rt; next, FIRST);
    Ok(())
}

// A worker in which a sealed preference waits.
fn waiting_worker(alloc: Global) -> Result<Worker, NoMemory> {
    let mut worker = Worker::new(alloc, Kind::Preference);
    let entity = sealed_entity(alloc, NAME, PREFERENCE)?;
    let _taken = take(alloc, &mut worker, &KeyBag::new(alloc), entity)?;
    Ok(worker)
}

#[test]
fn nothing_is_sent_while_a_batch_waits(rt: HostRuntime) -> Result<(), Fail> {
    let bag = bag_with_default(rt.alloc())?;
    let worker = waiting_worker(rt.alloc())?;
    let mut offers = List::new(rt.alloc());
    offers.push(offer(Value::Absent))?;
    let (entity, next) = sent_of(&bag, &worker, false, &offers)?;
    assert!(rt; entity.is_none());
    assert_eq!(rt; next, FIRST);
    Ok(())
}

#[test]
fn nothing_is_sent_without_the_default_key(rt: HostRuntime) -> Result<(), Fail> {
    let bag = bag_with_key(rt.alloc())?;
    let (entity, next) = sent(
        rt.alloc(),
        Kind::Password,
        &bag,
        false,
        offer(Value::Absent),
    )?;
    assert!(rt; entity.is_none());
    assert_eq!(rt; next, FIRST);
    Ok(())
}

#[test]
fn nothing_is_sent_without_the_own_lock(rt: HostRuntime) -> Result<(), Fail> {
    let bag = bag_with_default(rt.alloc())?;
    let offer = offer(Value::Nigori(keys(rt.alloc(), OTHER_NAME)?));
    let (entity, next) = sent(rt.alloc(), Kind::Nigori, &bag, false, offer)?;
    assert!(rt; entity.is_none());
    assert_eq!(rt; next, FIRST);
    Ok(())
}

// What one device sends of a login, as another one takes it from the server as version 1.
fn sent_and_taken(alloc: Global) -> Result<Option<Update>, NoMemory> {
    let login = login(alloc)?;
    let bag = bag_with_default(alloc)?;
    let (entity, _) = sent(
        alloc,
        Kind::Password,
        &bag,
        false,
        offer(Value::Password(login)),
    )?;
    let Some(mut entity) = entity else {
        return Ok(None);
    };
    entity.version = 1;
    let mut worker = Worker::new(alloc, Kind::Password);
    let taken = take(alloc, &mut worker, &bag, entity)?;
    Ok(last_update(taken))
}

#[test]
fn what_one_device_sends_another_takes(rt: HostRuntime) -> Result<(), Fail> {
    let Some(update) = sent_and_taken(rt.alloc())? else {
        return Err("no update".into());
    };
    assert!(rt; is_named(&update.lock, NAME));
    let Value::Password(login) = &update.value else {
        return Err("no login".into());
    };
    assert_eq!(rt; login.secret.as_slice(), b"s3".as_slice());
    Ok(())
}
