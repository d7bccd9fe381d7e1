//! Writing entities.
ghost use Rattle.std.specs.Prelude.{◌≡◌, ◌++◌, IfOk, OnOk};
ghost use Rattle.wire_format.specs.Faults.{IsNumber};
ghost use Rattle.sync_messages.specs.Spellings.{entities_bytes, entity_bytes, flag_if_true, hash_if_some, specifics_if_some};

use crate::message::Entity;
use client_tags::TagHash;
use message_fields::{write_unless_empty, write_unless_zero};
use std::alloc::Global;
use sync_specifics::{Specifics, encode_specifics};
use wire_fields::{FieldWriter, NoMemory, Octets};

/// The canonical bytes of an entity, in time linear in their number.
pub fn encode_entity(alloc: Global, entity: &Entity) -> Result<Octets, NoMemory>
    ensures { IfOk result (λ bytes. bytes ≡ entity_bytes entity.now) }
{
    let mut writer = FieldWriter::new(alloc);
    write_unless_empty(&mut writer, 1, entity.id.as_slice())?;
    write_unless_zero(&mut writer, 4, entity.version.cast_unsigned())?;
    write_flag(&mut writer, 18, entity.deleted)?;
    write_specifics(&mut writer, alloc, &entity.specifics)?;
    write_hash(&mut writer, &entity.hash)?;
    Ok(writer.finish())
}

// Writes the fields of some entities.
pub(crate) fn write_entities(
    writer: &mut FieldWriter,
    alloc: Global,
    number: u32,
    entities: &[Entity],
) -> Result<(), NoMemory>
    requires { IsNumber number }
    ensures { OnOk result (writer.new ≡ writer.old ++ entities_bytes number entities.now) }
{
    for entity in entities {
        writer.bytes(number, encode_entity(alloc, entity)?.as_slice())?;
    }
    Ok(())
}

fn write_flag(writer: &mut FieldWriter, number: u32, flag: bool) -> Result<(), NoMemory>
    requires { IsNumber number }
    ensures { OnOk result (writer.new ≡ writer.old ++ flag_if_true number flag) }
{
    if flag {
        writer.varint(number, 1)?;
    }
    Ok(())
}

fn write_specifics(
    writer: &mut FieldWriter,
    alloc: Global,
    specifics: &Option<Specifics>,
) -> Result<(), NoMemory>
    ensures { OnOk result (writer.new ≡ writer.old ++ specifics_if_some specifics.now) }
{
    if let Some(specifics) = specifics {
        writer.bytes(21, encode_specifics(alloc, specifics)?.as_slice())?;
    }
    Ok(())
}

fn write_hash(writer: &mut FieldWriter, hash: &Option<TagHash>) -> Result<(), NoMemory>
    ensures { OnOk result (writer.new ≡ writer.old ++ hash_if_some hash.now) }
{
    if let Some(hash) = hash {
        writer.bytes(23, &hash.text())?;
    }
    Ok(())
}
