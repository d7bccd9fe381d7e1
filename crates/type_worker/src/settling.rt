//! What the answers to a commit acknowledge.
ghost use Rattle.std.specs.Prelude.{◌≡◌, ◌++◌, IfOk, OnOk};
ghost use Rattle.type_worker.specs.Settling.{settled, ack_by, ack_of, version_of};

use std::alloc::Global;
use std::collections::VecDeque;
use sync_messages::{EntryAnswer, Outcome};
use sync_model::{Ack, Offer};
use wire_fields::{List, NoMemory, Octets};

/// The name of the key that sealed an offer, if one did.
#[derive(Debug, Drop)]
pub struct Lock {
    pub name: Option<Octets>,
}

/// The acknowledgements that the answers to a commit give to its offers, each of which was sealed under the lock at its
/// place. An offer without a lock or an answer at its place is not acknowledged. It takes time linear in their number.
pub fn settle(
    alloc: Global,
    offers: List<Offer>,
    locks: List<Lock>,
    answers: &List<EntryAnswer>,
) -> Result<List<Ack>, NoMemory>
    ensures { IfOk result (λ acks. acks ≡ settled offers locks answers.now) }
{
    let offers = VecDeque::from_vec(offers.into_vec());
    let locks = VecDeque::from_vec(locks.into_vec());
    settled(alloc, offers, locks, answers.as_slice())
}

// The acknowledgements that answers give to offers that were sent with these locks.
fn settled(
    alloc: Global,
    mut offers: VecDeque<Offer>,
    mut locks: VecDeque<Lock>,
    answers: &[EntryAnswer],
) -> Result<List<Ack>, NoMemory>
    ensures { IfOk result (λ acks. acks ≡ settled offers.items locks.items answers.now) }
{
    let mut acks = Vec::new(alloc);
    for answer in answers {
        let Some(offer) = offers.pop_front() else {
            return Ok(List::from_vec(acks));
        };
        let Some(lock) = locks.pop_front() else {
            return Ok(List::from_vec(acks));
        };
        acknowledge(&mut acks, offer, lock, answer)?;
    }
    Ok(List::from_vec(acks))
}

// Puts the acknowledgement that an answer gives to an offer, if it gives one, at the end.
fn acknowledge(
    acks: &mut Vec<Ack>,
    offer: Offer,
    lock: Lock,
    answer: &EntryAnswer,
) -> Result<(), NoMemory>
    ensures { OnOk result (acks.new.items ≡ acks.old.items ++ ack_by offer lock answer.now.version answer.now.outcome) }
{
    match answer.outcome {
        Outcome::Success => acks.push(ack_of(offer, lock, version_of(answer.version)))?,
        Outcome::Conflict
        | Outcome::Retry
        | Outcome::Invalid
        | Outcome::OverQuota
        | Outcome::Transient => {}
    }
    Ok(())
}

// The acknowledgement of an offer that was sealed under this lock and stored as this version.
fn ack_of(offer: Offer, lock: Lock, version: u64) -> Ack
    ensures { result ≡ ack_of offer lock version }
{
    Ack {
        hash: offer.hash,
        version,
        value: offer.value,
        number: offer.number,
        lock: lock.name,
    }
}

// The version that an answer names; one below 0 is read as 0.
fn version_of(version: i64) -> u64
    ensures { result ≡ version_of version }
{
    if version < 0 {
        return 0;
    }
    version.cast_unsigned()
}
