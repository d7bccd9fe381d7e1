//! The keys of a profile as messages by themselves.
ghost use Rattle.std.specs.Prelude.{◌≡◌, ◌∷◌, ◌++◌, [], length, IfOk, OnOk};
ghost use Rattle.message_fields.specs.Fields.{ArePartsOf};
ghost use Rattle.message_fields.specs.Lookups.{AreWithin};
ghost use Rattle.message_fields.specs.Faults.{Answered};
ghost use Rattle.sync_specifics.specs.Keys.{AreKeysIn, part_fault, key_fault, key_of, key_bytes, keys_bytes, sixteen, SaysKey, SaysKeys};

use crate::tables::{BAG_FIELDS, KEY_FIELDS};
use key_derivation::NigoriKey;
use message_fields::{
    Message, MessageFault, MessageReason, Part, first_fault, first_of, write_unless_empty,
};
use std::alloc::Global;
use wire_fields::{FieldWriter, List, NoMemory, Octets};

/// Reads a key by itself, whose three parts have to be there with 16 bytes each, in time linear in the bytes.
/// A name is read over.
pub fn decode_key(alloc: Global, bytes: &[u8]) -> Result<NigoriKey, MessageFault>
    ensures { Answered (SaysKey bytes.now) result }
{
    let message = Message::read(alloc, bytes, &[Part::whole(bytes)], &KEY_FIELDS)?;
    match key_fault(&message) {
        None => Ok(key_in(bytes, &message)),
        Some(fault) => Err(fault),
    }
}

/// The canonical bytes of a key without a name.
pub fn encode_key(alloc: Global, key: &NigoriKey) -> Result<Octets, NoMemory>
    ensures { IfOk result (λ bytes. bytes ≡ key_bytes [] key.now) }
{
    key_bytes(alloc, &[], key)
}

/// Reads some keys, in time linear in the bytes. Their names are read over.
pub fn decode_keys(alloc: Global, bytes: &[u8]) -> Result<List<NigoriKey>, MessageFault>
    ensures { Answered (SaysKeys bytes.now) result }
{
    let bag = Message::read(alloc, bytes, &[Part::whole(bytes)], &BAG_FIELDS)?;
    let parts = bag.parts(alloc, 2)?;
    let (fault, keys) = keys_in(alloc, bytes, parts.as_slice())?;
    match first_fault(&[fault, bag.wire_fault(), bag.wrong_kind(&BAG_FIELDS)]) {
        None => Ok(List::from_vec(keys)),
        Some(fault) => Err(fault),
    }
}

// The keys that stand in these parts, and what is at fault in them.
fn keys_in(
    alloc: Global,
    input: &[u8],
    parts: &[Part],
) -> Result<(Option<MessageFault>, Vec<NigoriKey>), NoMemory>
    requires { ArePartsOf input.now parts.now }
    ensures { IfOk result (λ found. AreKeysIn input.now parts.now found.0 found.1.items) }
{
    let mut fault = None;
    let mut keys = Vec::new(alloc);
    for part in parts {
        let key = Message::read(alloc, input, &[*part], &KEY_FIELDS)?;
        fault = first_of(fault, key_fault(&key));
        keys.push(key_in(input, &key))?;
    }
    Ok((fault, keys))
}

/// The canonical bytes of some keys with these names, in time linear in their number. An empty name is left out.
pub fn encode_keys(
    alloc: Global,
    names: &List<Octets>,
    keys: &List<NigoriKey>,
) -> Result<Octets, NoMemory>
    requires { length names.now ≡ length keys.now }
    ensures { IfOk result (λ bytes. bytes ≡ keys_bytes names.now keys.now) }
{
    bag_bytes(alloc, names.as_slice(), keys.as_slice())
}

fn bag_bytes(alloc: Global, names: &[Octets], keys: &[NigoriKey]) -> Result<Octets, NoMemory>
    requires { length names.now ≡ length keys.now }
    ensures { IfOk result (λ bytes. bytes ≡ keys_bytes names.now keys.now) }
{
    let mut writer = FieldWriter::new(alloc);
    for place in 0..keys.len() {
        let key = key_bytes(alloc, names[place].as_slice(), &keys[place])?;
        writer.bytes(2, key.as_slice())?;
    }
    Ok(writer.finish())
}

fn key_fault(message: &Message) -> Option<MessageFault>
    ensures { result ≡ key_fault message.now }
{
    first_fault(&[
        message.wire_fault(),
        message.wrong_kind(&KEY_FIELDS),
        part_fault(message, 2),
        part_fault(message, 3),
        part_fault(message, 4),
        message.missing(2),
        message.missing(3),
        message.missing(4),
    ])
}

// A part of a key that has another length than 16 bytes.
fn part_fault(message: &Message, number: u32) -> Option<MessageFault>
    ensures { result ≡ part_fault number message.now }
{
    let part = message.content(number)?;
    if part.end.saturating_sub(part.begin) == 16 {
        return None;
    }
    message.fault_of(number, MessageReason::Range { field: number })
}

fn key_in(input: &[u8], message: &Message) -> NigoriKey
    requires { AreWithin input.now message.now.fields }
    ensures { result ≡ key_of input.now message.now }
{
    NigoriKey {
        user: sixteen(message.bytes(input, 2)),
        enc: sixteen(message.bytes(input, 3)),
        mac: sixteen(message.bytes(input, 4)),
    }
}

fn sixteen(bytes: &[u8]) -> [u8; 16]
    ensures { result ≡ sixteen bytes.now }
{
    <[u8; 16]>::try_from(bytes).unwrap_or([0; 16])
}

// The bytes of a key of this name.
fn key_bytes(alloc: Global, name: &[u8], key: &NigoriKey) -> Result<Octets, NoMemory>
    ensures { IfOk result (λ bytes. bytes ≡ key_bytes name.now key.now) }
{
    let mut writer = FieldWriter::new(alloc);
    write_unless_empty(&mut writer, 1, name)?;
    writer.bytes(2, &key.user)?;
    writer.bytes(3, &key.enc)?;
    writer.bytes(4, &key.mac)?;
    Ok(writer.finish())
}
