//! Reading entities.
ghost use Rattle.std.specs.Prelude.{◌≡◌, ◌≤◌, length, IfOk};
ghost use Rattle.client_tags.specs.Hashes.{hash_bytes_of};
ghost use Rattle.message_fields.specs.Fields.{IsPartOf, ArePartsOf};
ghost use Rattle.message_fields.specs.Lookups.{AreWithin, bytes_in_field};
ghost use Rattle.message_fields.specs.Faults.{Answered};
ghost use Rattle.sync_specifics.specs.Specifics.{AreAllWithin};
ghost use Rattle.sync_messages.specs.Entities.{AreEntityFields, AreEntityWithin, AreEntitiesIn, SaysEntity, entity_fault, entity_of, hash_in};

use crate::message::Entity;
use crate::tables::ENTITY_FIELDS;
use client_tags::TagHash;
use message_fields::{Message, MessageFault, Part, first_fault, first_of};
use std::alloc::Global;
use sync_specifics::SpecificsFields;
use wire_fields::{NoMemory, Octets};

// The messages in an entity: its own, and those in its specifics.
#[derive(Debug, Drop)]
pub(crate) struct EntityFields {
    pub(crate) own: Message,
    pub(crate) specifics: SpecificsFields,
}

impl EntityFields {
    fn read(alloc: Global, input: &[u8], part: Part) -> Result<EntityFields, NoMemory>
        requires { IsPartOf input.now part }
        ensures fields { IfOk result (λ fields. AreEntityFields input.now part fields) }
        ensures within { IfOk result (λ fields. AreEntityWithin input.now fields) }
    {
        let own = Message::read(alloc, input, &[part], &ENTITY_FIELDS)?;
        let parts = own.parts(alloc, 21)?;
        let specifics = SpecificsFields::read(alloc, input, parts.as_slice())?;
        Ok(EntityFields { own, specifics })
    }

    fn fault(&self) -> Option<MessageFault>
        ensures { result ≡ entity_fault self.now }
    {
        first_fault(&[
            self.specifics.fault(),
            self.own.wire_fault(),
            self.own.wrong_kind(&ENTITY_FIELDS),
        ])
    }

    fn value(&self, alloc: Global, input: &[u8]) -> Result<Entity, NoMemory>
        requires { AreEntityWithin input.now self.now }
        ensures { IfOk result (λ entity. entity ≡ entity_of input.now self.now) }
    {
        Ok(Entity {
            id: Octets::from_slice(alloc, self.own.bytes(input, 1))?,
            version: self.own.varint(4).unwrap_or(0).cast_signed(),
            deleted: self.own.varint(18).unwrap_or(0) != 0,
            specifics: self.specifics.value(alloc, input)?,
            hash: self.hash(input),
        })
    }

    fn hash(&self, input: &[u8]) -> Option<TagHash>
        requires { AreEntityWithin input.now self.now }
        ensures { result ≡ hash_in (bytes_in_field input.now 23 self.now.own.fields) }
    {
        TagHash::from_text(self.own.bytes_in_field(input, 23)?)
    }
}

/// Reads an entity by itself, in time linear in the bytes.
pub fn decode_entity(alloc: Global, bytes: &[u8]) -> Result<Entity, MessageFault>
    ensures { Answered (SaysEntity bytes.now) result }
{
    let fields = EntityFields::read(alloc, bytes, Part::whole(bytes))?;
    match fields.fault() {
        None => Ok(fields.value(alloc, bytes)?),
        Some(fault) => Err(fault),
    }
}

// The entities that stand in these parts, and what is at fault in them.
pub(crate) fn entities_in(
    alloc: Global,
    input: &[u8],
    parts: &[Part],
) -> Result<(Option<MessageFault>, Vec<Entity>), NoMemory>
    requires { ArePartsOf input.now parts.now }
    ensures { IfOk result (λ found. AreEntitiesIn input.now parts.now found.0 found.1.items) }
{
    let mut fault = None;
    let mut entities = Vec::new(alloc);
    for part in parts {
        let fields = EntityFields::read(alloc, input, *part)?;
        fault = first_of(fault, fields.fault());
        entities.push(fields.value(alloc, input)?)?;
    }
    Ok((fault, entities))
}
