//! What a reply's message says of preferences: acknowledgements and updates.
ghost use Rattle.std.specs.Prelude.{◌≡◌, length, option_to_list, IfOk, IfSome};
ghost use Rattle.std.specs.List.{AllByRecursion};
ghost use Rattle.sync_messages.specs.Laws.{HaveCanonicalExtras};
ghost use Rattle.sync_specifics.specs.Extras.{HasCanonicalExtra, HasCanonicalExtraIfSome};
ghost use Rattle.replay_messages.specs.Forms.{IsPlain, IsPlainValue};
ghost use Rattle.replay_client.specs.Mail.{IsPlainUpdate};
ghost use Rattle.replay_client.specs.Readings.{ack_read, acks_read, value_read, update_read, updates_read};

use crate::client::copied;
use client_tags::Kind;
use std::alloc::Global;
use sync_messages::{Entity, EntryAnswer, Outcome};
use sync_model::{Ack, Content, Entry, Update, Value};
use sync_specifics::Specifics;
use wire_fields::{List, NoMemory};

/// The last version that there is.
const LAST_VERSION: u64 = (1 << 63) - 1;

// The acknowledgement that an answer gives to an entry, if any.
fn ack_of(entry: &Entry<Content>, answer: &EntryAnswer) -> Result<Option<Ack>, NoMemory>
    ensures { IfOk result (λ ack. option_to_list ack ≡ ack_read entry.now answer.now) }
{
    let Outcome::Success = answer.outcome else {
        return Ok(None);
    };
    let version = answer.version.cast_unsigned();
    if version > LAST_VERSION {
        return Ok(None);
    }
    Ok(Some(Ack {
        hash: entry.key.hash,
        version,
        value: entry.content.value.copy()?,
        number: entry.content.number,
        lock: copied(&entry.content.lock)?,
    }))
}

/// The acknowledgements in the answers to the entries of a commit.
#[tactic(auto, unfolding(crate::specs::Readings::acks_read))]
pub(crate) fn acks_of(
    alloc: Global,
    mut entries: &[Entry<Content>],
    mut answers: &[EntryAnswer],
) -> Result<List<Ack>, NoMemory>
    ensures { IfOk result (λ acks. acks ≡ acks_read entries.now answers.now) }
{
    let mut acks = List::new(alloc);
    'entries: while let [entry, later_entries @ ..] = entries {
        let [answer, later_answers @ ..] = answers else {
            break;
        };
        if let Some(ack) = ack_of(entry, answer)? {
            acks.push(ack)?;
        }
        entries = later_entries;
        answers = later_answers;
    }
    Ok(acks)
}

// The value of a preference's entity that nothing seals, if it is one.
fn value_of(deleted: bool, specifics: &Specifics) -> Result<Option<Value>, NoMemory>
    requires { HasCanonicalExtra specifics.now }
    ensures read { IfOk result (λ value. value ≡ value_read deleted specifics.now) }
    ensures plain { IfOk result (λ value. IfSome value IsPlainValue) }
{
    match specifics {
        Specifics::EmptyOf(Kind::Preference) => Ok(Some(Value::Absent)),
        Specifics::Preference(_) if deleted => Ok(Some(Value::Absent)),
        Specifics::Preference(preference) => Ok(Some(Value::Preference(preference.copy()?))),
        _ => Ok(None),
    }
}

// The update that an entity says, if it is of a preference that nothing seals.
fn update_of(entity: &Entity) -> Result<Option<Update>, NoMemory>
    requires { HasCanonicalExtraIfSome entity.now.specifics }
    ensures read { IfOk result (λ update. option_to_list update ≡ update_read entity.now) }
    ensures plain { IfOk result (λ update. IfSome update IsPlainUpdate) }
{
    let (Some(hash), Some(specifics)) = (&entity.hash, &entity.specifics) else {
        return Ok(None);
    };
    let version = entity.version.cast_unsigned();
    if version > LAST_VERSION {
        return Ok(None);
    }
    let Some(value) = value_of(entity.deleted, specifics)? else {
        return Ok(None);
    };
    Ok(Some(Update {
        hash: *hash,
        version,
        value,
        lock: None,
    }))
}

/// The updates that some entities say.
#[tactic(auto, unfolding(crate::specs::Readings::updates_read))]
pub(crate) fn updates_of(alloc: Global, mut entities: &[Entity]) -> Result<List<Update>, NoMemory>
    requires { HaveCanonicalExtras entities.now }
    ensures read { IfOk result (λ updates. updates ≡ updates_read entities.now) }
    ensures plain { IfOk result (AllByRecursion IsPlainUpdate) }
{
    let mut updates = List::new(alloc);
    'entities: while let [entity, later @ ..] = entities {
        if let Some(update) = update_of(entity)? {
            updates.push(update)?;
        }
        entities = later;
    }
    Ok(updates)
}
