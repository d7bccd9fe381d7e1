//! What an entity's specifics say under a bag of keys.
ghost use Rattle.std.specs.Prelude.{◌≡◌, Some, IsSome};
ghost use Rattle.message_fields.specs.Faults.{Answered};
ghost use Rattle.sync_specifics.specs.Keys.{SaysKeys};
ghost use Rattle.type_worker.specs.Opening.{sealed_in, nigori_with, SaysAs, SaysPreferenceWithin, SaysWithin};
ghost use Rattle.type_worker.specs.Openings.{IsOpened};

use crate::open_fault::OpenFault;
use key_bag::KeyBag;
use std::alloc::Global;
use sync_specifics::{
    MessageFault, MessageReason, NigoriContent, NigoriValue, Preference, Sealed, Specifics, Value,
    bytes_say_one_thing, decode_keys, decode_password, decode_specifics,
};

// The value that specifics say under a bag. Those that say a type alone are of a deletion.
pub(crate) fn opened_specifics(
    alloc: Global,
    bag: &KeyBag,
    specifics: &Specifics,
) -> Result<Value, OpenFault>
    ensures { IsOpened bag.now specifics.now result }
{
    match specifics {
        Specifics::EmptyOf(_) => Ok(Value::Absent),
        Specifics::Preference(preference) => Ok(Value::Preference(preference.copy()?)),
        Specifics::SealedPreference(sealed) => opened_text(alloc, bag, specifics, sealed),
        Specifics::Password(sealed) => opened_text(alloc, bag, specifics, sealed),
        Specifics::Nigori(content) => opened_text(alloc, bag, specifics, &content.bag),
    }
}

// The value that the sealed text of specifics says under a bag.
fn opened_text(
    alloc: Global,
    bag: &KeyBag,
    specifics: &Specifics,
    sealed: &Sealed,
) -> Result<Value, OpenFault>
    requires { sealed_in specifics.now ≡ Some sealed.now }
    ensures { IsOpened bag.now specifics.now result }
{
    bytes_say_one_thing();
    let text = bag.unseal_any(sealed)?;
    Ok(said_within(alloc, specifics, text.as_slice())?)
}

// What the unsealed text of specifics says.
fn said_within(alloc: Global, specifics: &Specifics, text: &[u8]) -> Result<Value, MessageFault>
    requires { IsSome (sealed_in specifics.now) }
    ensures { Answered (SaysWithin specifics.now text.now) result }
{
    match specifics {
        Specifics::EmptyOf(_) => unreachable!(),
        Specifics::Preference(_) => unreachable!(),
        Specifics::SealedPreference(_) => Ok(Value::Preference(preference_within(alloc, text)?)),
        Specifics::Password(_) => Ok(Value::Password(decode_password(alloc, text)?)),
        Specifics::Nigori(content) => nigori_within(alloc, content, text),
    }
}

// The preference that the unsealed text of one says: plain specifics of it.
fn preference_within(alloc: Global, text: &[u8]) -> Result<Preference, MessageFault>
    ensures { Answered (SaysPreferenceWithin text.now) result }
{
    match decode_specifics(alloc, text)? {
        Some(Specifics::Preference(preference)) => Ok(preference),
        _ => Err(MessageFault {
            at: text.len() as u64,
            reason: MessageReason::Missing { field: 37702 },
        }),
    }
}

// The keys of a profile that an unsealed text says, under the lock that sealed them.
fn nigori_within(alloc: Global, content: &NigoriContent, text: &[u8]) -> Result<Value, MessageFault>
    ensures { Answered (SaysAs SaysKeys (nigori_with content.now) text.now) result }
{
    Ok(Value::Nigori(NigoriValue {
        lock: content.bag.key_name.copy()?,
        keys: decode_keys(alloc, text)?,
        pass_kind: content.pass_kind,
    }))
}
