//! The names of the keys under which a type's values are sealed.
ghost use Rattle.std.specs.Prelude.{◌≡◌, if◌then◌else◌, None, IfOk, IsTrue, option_copied};
ghost use Rattle.sync_model.specs.Sending.{lock_for, own_lock};
ghost use Rattle.sync_model.specs.Values.{is_absent};
ghost use Rattle.type_worker.specs.Sending.{needs_default, wanted_name, has_lock, lacks_own_lock, have_own_locks};

use client_tags::Kind;
use key_bag::KeyBag;
use sync_model::Offer;
use sync_specifics::Value;
use wire_fields::{NoMemory, Octets};

// Logins are always sealed under the default key, preferences where that is asked, and a profile's keys never.
pub(crate) fn needs_default(seals: bool, kind: Kind) -> bool
    ensures { result ≡ needs_default seals kind }
{
    match kind {
        Kind::Nigori => false,
        Kind::Preference => seals,
        Kind::Password => true,
    }
}

// The name of the key under which a type's values are sealed, if there is one.
pub(crate) fn wanted_name(bag: &KeyBag, seals: bool, kind: Kind) -> Result<Option<Octets>, NoMemory>
    ensures name { IfOk result (λ name. name ≡ wanted_name bag.now seals kind) }
    ensures has { IfOk result (λ name. IsTrue (has_lock bag.now name)) }
{
    if needs_default(seals, kind) {
        default_name(bag)
    } else {
        Ok(None)
    }
}

// The name of the default key, if there is one.
fn default_name(bag: &KeyBag) -> Result<Option<Octets>, NoMemory>
    ensures name { IfOk result (λ name. name ≡ bag.now.default) }
    ensures has { IfOk result (λ name. IsTrue (has_lock bag.now name)) }
{
    match bag.default_name() {
        None => Ok(None),
        Some(name) => Ok(Some(name.copy()?)),
    }
}

// The name of the key that seals a value of a type, given the one that is wanted. A profile's keys are sealed under
// their own lock, and nothing seals a deletion.
pub(crate) fn lock_for<'a>(
    kind: Kind,
    name: &'a Option<Octets>,
    value: &'a Value,
) -> Option<&'a Octets>
    ensures { option_copied result ≡ lock_for kind name.now value.now }
{
    match kind {
        Kind::Nigori => own_lock(value),
        Kind::Preference => unless_absent(name, value),
        Kind::Password => unless_absent(name, value),
    }
}

// The name that is wanted, unless there is no value.
fn unless_absent<'a>(name: &'a Option<Octets>, value: &Value) -> Option<&'a Octets>
    ensures { option_copied result ≡ (if is_absent value.now then None else name.now) }
{
    if is_absent(value) {
        return None;
    }
    name.as_ref()
}

pub(crate) fn is_absent(value: &Value) -> bool
    ensures { result ≡ is_absent value.now }
{
    matches!(value, Value::Absent)
}

// The lock of a profile's keys, if a value is one.
fn own_lock(value: &Value) -> Option<&Octets>
    ensures { option_copied result ≡ own_lock value.now }
{
    match value {
        Value::Nigori(nigori) => Some(&nigori.lock),
        Value::Absent | Value::Preference(_) | Value::Password(_) => None,
    }
}

// The bag lacks the key of the own lock of a profile's keys that are offered.
pub(crate) fn lacks_own_lock(bag: &KeyBag, kind: Kind, offers: &[Offer]) -> bool
    ensures { result ≡ lacks_own_lock bag.now kind offers.now }
{
    match kind {
        Kind::Nigori => !have_own_locks(bag, offers),
        Kind::Preference => false,
        Kind::Password => false,
    }
}

// The bag has the keys of all own locks of what is offered.
fn have_own_locks(bag: &KeyBag, offers: &[Offer]) -> bool
    ensures { result ≡ have_own_locks bag.now offers.now }
{
    for offer in offers {
        if !has_own_lock(bag, &offer.value) {
            return false;
        }
    }
    true
}

// The bag has the key of a value's own lock, if it has one.
fn has_own_lock(bag: &KeyBag, value: &Value) -> bool
    ensures { result ≡ has_lock bag.now (own_lock value.now) }
{
    match own_lock(value) {
        None => true,
        Some(lock) => bag.has(lock.as_slice()),
    }
}
