//! What a type sends of its offers.
ghost use Rattle.std.specs.Prelude.{◌≡◌, IsTrue, Some, length, IfOk, OnErr};
ghost use Rattle.replay_messages.specs.Sealed.{plain_specifics};
ghost use Rattle.sync_model.specs.Sending.{lock_for};
ghost use Rattle.type_worker.specs.Sending.{wanted_name, has_lock, have_locks, is_held_back, id_based, entity_with, IsContribution, IsSentUnder, MayHaveDrawn};
ghost use Rattle.type_worker.specs.Sent.{IsSentPlain, IsSentSealed, IsSentBy};

use crate::locks::{is_absent, lacks_own_lock, lock_for, needs_default, wanted_name};
use crate::sealing::{plain_specifics, sealed_specifics};
use crate::worker::Worker;
use client_tags::Kind;
use key_bag::KeyBag;
use random_vectors::Dice;
use replay_messages::id_of;
use std::alloc::Global;
use sync_messages::Entity;
use sync_model::{Key, Offer};
use sync_specifics::Specifics;
use wire_fields::{List, NoMemory, Octets};

impl Worker {
    /// What is sent of some offers: an entity for each, in their order, and sealed where a key seals it. A vector is
    /// drawn for each that is sealed. Nothing is sent, and nothing drawn, while a batch waits, where the default key is
    /// needed and missing, and where the bag lacks the key of the own lock of a profile's keys. Logins are sealed
    /// always, and preferences where `seals` asks for it. It takes time linear in the size of the offers, and for each
    /// in the number of the keys.
    pub fn contribution<D: Dice>(
        &self,
        bag: &KeyBag,
        seals: bool,
        offers: &List<Offer>,
        dice: &mut D,
    ) -> Result<List<Entity>, NoMemory>
        ensures sent { IfOk result
            (IsContribution self.now bag.now seals offers.now (D.place dice.old) (D.place dice.new)) }
        ensures err { OnErr result (MayHaveDrawn (length offers.now) (D.place dice.old) (D.place dice.new)) }
    {
        let name = wanted_name(bag, seals, self.kind)?;
        if self.is_held_back(bag, seals, &name, offers.as_slice()) {
            return Ok(List::new(self.alloc));
        }
        sent_entities(self.alloc, bag, self.kind, &name, offers.as_slice(), dice)
    }

    // Nothing is sent: a batch waits, the default key is needed and missing, or a profile's keys lack their own.
    fn is_held_back(
        &self,
        bag: &KeyBag,
        seals: bool,
        name: &Option<Octets>,
        offers: &[Offer],
    ) -> bool
        requires { name.now ≡ wanted_name bag.now seals self.now.kind }
        ensures { result ≡ is_held_back self.now bag.now seals offers.now }
    {
        self.pending.is_some()
            || (needs_default(seals, self.kind) && name.is_none())
            || lacks_own_lock(bag, self.kind, offers)
    }
}

// Some offers as entities, each that a key seals with the next vector.
fn sent_entities<D: Dice>(
    alloc: Global,
    bag: &KeyBag,
    kind: Kind,
    name: &Option<Octets>,
    offers: &[Offer],
    dice: &mut D,
) -> Result<List<Entity>, NoMemory>
    requires { IsTrue (have_locks bag.now kind name.now offers.now) }
    ensures sent { IfOk result (IsSentUnder bag.now kind name.now offers.now (D.place dice.old) (D.place dice.new)) }
    ensures err { OnErr result (MayHaveDrawn (length offers.now) (D.place dice.old) (D.place dice.new)) }
{
    let mut entities = List::new(alloc);
    for offer in offers {
        entities.push(sent_entity(alloc, bag, kind, name, offer, dice)?)?;
    }
    Ok(entities)
}

// An offer as an entity, sealed where a key seals it.
fn sent_entity<D: Dice>(
    alloc: Global,
    bag: &KeyBag,
    kind: Kind,
    name: &Option<Octets>,
    offer: &Offer,
    dice: &mut D,
) -> Result<Entity, NoMemory>
    requires { IsTrue (has_lock bag.now (lock_for kind name.now offer.now.value)) }
    ensures sent { IfOk result (IsSentBy bag.now kind offer.now (lock_for kind name.now offer.now.value)
        (D.place dice.old) (D.place dice.new)) }
    ensures err { OnErr result (MayHaveDrawn 1 (D.place dice.old) (D.place dice.new)) }
{
    match lock_for(kind, name, &offer.value) {
        None => plain_entity(alloc, kind, offer),
        Some(lock) => sealed_entity(alloc, bag, kind, offer, lock, dice),
    }
}

// An offer that no key seals as an entity.
fn plain_entity(alloc: Global, kind: Kind, offer: &Offer) -> Result<Entity, NoMemory>
    ensures { IfOk result (λ entity. entity ≡ entity_with kind offer.now (plain_specifics kind offer.now.value)) }
{
    let specifics = plain_specifics(kind, &offer.value)?;
    entity_with(alloc, kind, offer, specifics)
}

// An offer as an entity that is sealed under the bag's key of this name with the next vector.
fn sealed_entity<D: Dice>(
    alloc: Global,
    bag: &KeyBag,
    kind: Kind,
    offer: &Offer,
    lock: &Octets,
    dice: &mut D,
) -> Result<Entity, NoMemory>
    requires { IsTrue (has_lock bag.now (Some lock.now)) }
    ensures sent { IfOk result (IsSentSealed bag.now kind offer.now lock.now (D.place dice.old) (D.place dice.new)) }
    ensures err { OnErr result (MayHaveDrawn 1 (D.place dice.old) (D.place dice.new)) }
{
    let vector = dice.iv();
    let specifics = sealed_specifics(alloc, bag, kind, lock, &offer.value, &vector)?;
    entity_with(alloc, kind, offer, specifics)
}

// An offer as an entity with these specifics.
fn entity_with(
    alloc: Global,
    kind: Kind,
    offer: &Offer,
    specifics: Specifics,
) -> Result<Entity, NoMemory>
    ensures { IfOk result (λ entity. entity ≡ entity_with kind offer.now specifics) }
{
    Ok(Entity {
        id: id_based(alloc, kind, offer)?,
        version: offer.known.cast_signed(),
        deleted: is_absent(&offer.value),
        specifics: Some(specifics),
        hash: Some(offer.hash),
    })
}

// The name of the entity on which an offer is based, empty where it is based on none.
fn id_based(alloc: Global, kind: Kind, offer: &Offer) -> Result<Octets, NoMemory>
    ensures { IfOk result (λ id. id ≡ id_based kind offer.now) }
{
    if offer.known == 0 {
        return Ok(Octets::new(alloc));
    }
    id_of(
        alloc,
        &Key {
            kind,
            hash: offer.hash,
        },
    )
}
