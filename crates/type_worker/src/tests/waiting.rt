use super::rows::{NAME, NO_PREFERENCE, OTHER_NAME, PREFERENCE, key};
use super::*;
use nigori::UnsealFault;
use std::test::Fail;
use sync_specifics::{MessageFault, MessageReason};

// A worker in which the sealed preference `a` waits for the key of this name.
fn waiting_worker(alloc: Global, name: &[u8]) -> Result<Worker, NoMemory> {
    let mut worker = Worker::new(alloc, Kind::Preference);
    let entity = sealed_entity(alloc, name, PREFERENCE)?;
    let _taken = take(alloc, &mut worker, &KeyBag::new(alloc), entity)?;
    Ok(worker)
}

// The cause of what a worker tells, if it tells of anything.
fn cause(worker: &Worker) -> Option<&BlockCause> {
    match worker.blocked() {
        None => None,
        Some(blocked) => Some(&blocked.cause),
    }
}

fn is_no_key(cause: Option<&BlockCause>, wanted: &[u8]) -> bool {
    match cause {
        Some(BlockCause::NoKey { name }) => name.as_slice() == wanted,
        _ => false,
    }
}

#[test]
fn a_new_worker_holds_nothing(rt: HostRuntime) -> Result<(), Fail> {
    let bag = KeyBag::new(rt.alloc());
    let mut worker = Worker::new(rt.alloc(), Kind::Preference);
    assert_eq!(rt; worker.pending_len(), 0);
    assert!(rt; worker.blocked().is_none());
    assert!(rt; !worker.opens(&bag)?);
    assert!(rt; worker.keys_changed(&bag)?.is_none());
    Ok(())
}

#[test]
fn a_batch_waits_for_its_key(rt: HostRuntime) -> Result<(), Fail> {
    let worker = waiting_worker(rt.alloc(), NAME)?;
    assert_eq!(rt; worker.pending_len(), 1);
    assert!(rt; is_no_key(cause(&worker), NAME));
    assert!(rt; !worker.opens(&KeyBag::new(rt.alloc()))?);
    assert!(rt; worker.opens(&bag_with_key(rt.alloc())?)?);
    Ok(())
}

#[test]
fn a_batch_that_opens_waits_until_it_is_dropped(rt: HostRuntime) -> Result<(), Fail> {
    let mut bag = KeyBag::new(rt.alloc());
    let mut worker = waiting_worker(rt.alloc(), NAME)?;
    assert!(rt; worker.keys_changed(&bag)?.is_none());
    bag.add(&key())?;
    let Some(task) = worker.keys_changed(&bag)? else {
        return Err("no task".into());
    };
    assert!(rt; last_in(task).is_some());
    assert_eq!(rt; worker.pending_len(), 1);
    assert!(rt; is_no_key(cause(&worker), NAME));
    worker.drop_pending();
    assert_eq!(rt; worker.pending_len(), 0);
    assert!(rt; worker.blocked().is_none());
    Ok(())
}

#[test]
fn a_batch_takes_the_place_of_one_that_waits(rt: HostRuntime) -> Result<(), Fail> {
    let bag = bag_with_key(rt.alloc())?;
    let mut worker = waiting_worker(rt.alloc(), NAME)?;
    let shut = sealed_entity(rt.alloc(), OTHER_NAME, PREFERENCE)?;
    let taken = take(rt.alloc(), &mut worker, &bag, shut)?;
    assert!(rt; is_pending(taken));
    assert_eq!(rt; worker.pending_len(), 1);
    assert!(rt; is_no_key(cause(&worker), OTHER_NAME));
    let open = sealed_entity(rt.alloc(), NAME, PREFERENCE)?;
    let taken = take(rt.alloc(), &mut worker, &bag, open)?;
    assert!(rt; !is_pending(taken));
    assert_eq!(rt; worker.pending_len(), 0);
    Ok(())
}

// A worker that tried a sealed preference of this text under a bag with its key.
fn tried_worker(alloc: Global, blob: &[u8]) -> Result<Worker, NoMemory> {
    let bag = bag_with_key(alloc)?;
    let mut worker = Worker::new(alloc, Kind::Preference);
    let entity = sealed_entity(alloc, NAME, blob)?;
    let _taken = take(alloc, &mut worker, &bag, entity)?;
    Ok(worker)
}

#[test]
fn a_text_that_its_key_does_not_unseal_waits(rt: HostRuntime) -> Result<(), Fail> {
    let worker = tried_worker(rt.alloc(), b"?")?;
    assert!(rt;
        matches!(
            cause(&worker),
            Some(BlockCause::Unseal(UnsealFault::NotBase64))
        )
    );
    Ok(())
}

fn is_content(cause: Option<&BlockCause>, wanted: MessageFault) -> bool {
    match cause {
        Some(BlockCause::Content(fault)) => *fault == wanted,
        _ => false,
    }
}

#[test]
fn a_text_that_is_no_preference_waits(rt: HostRuntime) -> Result<(), Fail> {
    let worker = tried_worker(rt.alloc(), NO_PREFERENCE)?;
    let wanted = MessageFault {
        at: 4,
        reason: MessageReason::Missing { field: 37702 },
    };
    assert!(rt; is_content(cause(&worker), wanted));
    Ok(())
}

// A worker that tried three preferences under a bag with the key of the first one.
fn worker_of_three(alloc: Global) -> Result<Worker, NoMemory> {
    let bag = bag_with_key(alloc)?;
    let mut worker = Worker::new(alloc, Kind::Preference);
    let mut entities = List::new(alloc);
    entities.push(sealed_entity(alloc, NAME, PREFERENCE)?)?;
    entities.push(sealed_entity(alloc, OTHER_NAME, PREFERENCE)?)?;
    entities.push(sealed_entity(alloc, b"a third name", PREFERENCE)?)?;
    let _taken = worker.take_updates(&bag, entities, Mark { version: 9 })?;
    Ok(worker)
}

#[test]
fn the_first_that_does_not_open_is_told(rt: HostRuntime) -> Result<(), Fail> {
    let worker = worker_of_three(rt.alloc())?;
    assert_eq!(rt; worker.pending_len(), 3);
    assert!(rt; is_no_key(cause(&worker), OTHER_NAME));
    Ok(())
}
