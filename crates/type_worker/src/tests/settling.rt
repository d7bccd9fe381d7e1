use super::rows::NAME;
use super::*;
use std::test::Fail;
use sync_messages::{EntryAnswer, Outcome};
use sync_model::{Ack, Offer};

// The acknowledgements of the deletion of `a`, edit 3, that was sealed under the named key and answered so.
fn settled(alloc: Global, outcome: Outcome, version: i64) -> Result<List<Ack>, NoMemory> {
    let name = Octets::from_slice(alloc, NAME)?;
    let mut locks = List::new(alloc);
    locks.push(Lock { name: Some(name) })?;
    let mut answers = List::new(alloc);
    answers.push(EntryAnswer {
        outcome,
        id: Octets::new(alloc),
        version,
    })?;
    let mut offers = List::new(alloc);
    offers.push(Offer {
        hash: hash_of(b"a"),
        known: 2,
        value: Value::Absent,
        number: 3,
    })?;
    settle(alloc, offers, locks, &answers)
}

#[test]
fn what_is_stored_is_acknowledged(rt: HostRuntime) -> Result<(), Fail> {
    let Some(ack) = settled(rt.alloc(), Outcome::Success, 8)?.into_vec().pop() else {
        return Err("no acknowledgement".into());
    };
    assert!(rt; ack.hash == hash_of(b"a"));
    assert_eq!(rt; ack.version, 8);
    assert_eq!(rt; ack.number, 3);
    assert!(rt; is_named(&ack.lock, NAME));
    Ok(())
}

#[test]
fn a_version_that_no_write_has_is_read_as_0(rt: HostRuntime) -> Result<(), Fail> {
    for version in [0, -3] {
        let Some(ack) = settled(rt.alloc(), Outcome::Success, version)?
            .into_vec()
            .pop()
        else {
            return Err("no acknowledgement".into());
        };
        assert_eq!(rt; ack.version, 0);
    }
    Ok(())
}

#[test]
fn no_other_answer_acknowledges(rt: HostRuntime) -> Result<(), Fail> {
    for outcome in [
        Outcome::Conflict,
        Outcome::Retry,
        Outcome::Invalid,
        Outcome::OverQuota,
        Outcome::Transient,
    ] {
        assert!(rt; settled(rt.alloc(), outcome, 8)?.is_empty());
    }
    Ok(())
}
