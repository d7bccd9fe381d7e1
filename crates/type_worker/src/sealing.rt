//! The specifics of a value, plain or sealed under a key.
ghost use Rattle.std.specs.Prelude.{◌≡◌, IsTrue, Some, IfOk, map};
ghost use Rattle.nigori.specs.Sealing.{key_name};
ghost use Rattle.sync_specifics.specs.Keys.{keys_bytes};
ghost use Rattle.replay_messages.specs.Sealed.{plain_specifics, text_to_seal, specifics_around};
ghost use Rattle.type_worker.specs.Sending.{has_lock, text_under};

use client_tags::Kind;
use key_bag::{AnyFault, KeyBag};
use key_derivation::NigoriKey;
use nigori::key_name;
use std::alloc::Global;
use sync_specifics::{
    NigoriContent, Sealed, Specifics, Value, encode_keys, encode_password, encode_specifics,
};
use wire_fields::{List, NoMemory, Octets};

// A value as specifics that nothing seals; of a value that is always sealed the type alone.
pub(crate) fn plain_specifics(kind: Kind, value: &Value) -> Result<Specifics, NoMemory>
    ensures { IfOk result (λ specifics. specifics ≡ plain_specifics kind value.now) }
{
    match value {
        Value::Preference(preference) => Ok(Specifics::Preference(preference.copy()?)),
        Value::Absent | Value::Password(_) | Value::Nigori(_) => Ok(Specifics::EmptyOf(kind)),
    }
}

// A value as specifics that the bag's key of this name seals with a vector.
pub(crate) fn sealed_specifics(
    alloc: Global,
    bag: &KeyBag,
    kind: Kind,
    lock: &Octets,
    value: &Value,
    vector: &[u8; 16],
) -> Result<Specifics, NoMemory>
    requires { IsTrue (has_lock bag.now (Some lock.now)) }
    ensures { IfOk result (λ specifics.
        specifics ≡ specifics_around kind value.now (text_under bag.now lock.now vector.now value.now)) }
{
    let text = text_under(alloc, bag, lock, value, vector)?;
    Ok(specifics_around(kind, value, text))
}

// A value's text, sealed under the bag's key of this name with a vector.
fn text_under(
    alloc: Global,
    bag: &KeyBag,
    lock: &Octets,
    value: &Value,
    vector: &[u8; 16],
) -> Result<Sealed, NoMemory>
    requires { IsTrue (has_lock bag.now (Some lock.now)) }
    ensures { IfOk result (λ text. text ≡ text_under bag.now lock.now vector.now value.now) }
{
    let plain = text_to_seal(alloc, value)?;
    match bag.seal_named(lock, plain.as_slice(), vector) {
        Ok(text) => Ok(text),
        Err(AnyFault::NoMemory) => Err(NoMemory),
        Err(AnyFault::NoKey { .. }) => unreachable!(),
        Err(AnyFault::Unseal(_)) => unreachable!(),
    }
}

// The text of a value that is sealed: of a preference its plain specifics, of a login its message, of a profile's keys
// all of them with their names.
fn text_to_seal(alloc: Global, value: &Value) -> Result<Octets, NoMemory>
    ensures { IfOk result (λ text. text ≡ text_to_seal value.now) }
{
    match value {
        Value::Absent => Ok(Octets::new(alloc)),
        Value::Preference(preference) => {
            encode_specifics(alloc, &Specifics::Preference(preference.copy()?))
        }
        Value::Password(password) => encode_password(alloc, password),
        Value::Nigori(nigori) => keys_text(alloc, &nigori.keys),
    }
}

// Some keys with their names, as a message.
fn keys_text(alloc: Global, keys: &List<NigoriKey>) -> Result<Octets, NoMemory>
    ensures { IfOk result (λ text. text ≡ keys_bytes (map key_name keys.now) keys.now) }
{
    let names = key_names(alloc, keys.as_slice())?;
    encode_keys(alloc, &names, keys)
}

fn key_names(alloc: Global, keys: &[NigoriKey]) -> Result<List<Octets>, NoMemory>
    ensures { IfOk result (λ names. names ≡ map key_name keys.now) }
{
    let mut names = Vec::with_capacity(alloc, keys.len())?;
    for key in keys {
        names.push(key_name(alloc, key)?)?;
    }
    Ok(List::from_vec(names))
}

// A value's specifics with its text sealed; nothing seals a deletion.
fn specifics_around(kind: Kind, value: &Value, text: Sealed) -> Specifics
    ensures { result ≡ specifics_around kind value.now text }
{
    match value {
        Value::Absent => Specifics::EmptyOf(kind),
        Value::Preference(_) => Specifics::SealedPreference(text),
        Value::Password(_) => Specifics::Password(text),
        Value::Nigori(nigori) => Specifics::Nigori(NigoriContent {
            bag: text,
            pass_kind: nigori.pass_kind,
        }),
    }
}
