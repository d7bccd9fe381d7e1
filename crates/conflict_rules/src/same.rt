//! When two values are one: all their fields are, those that only a newer client knows too.
ghost use Rattle.std.specs.Prelude.{◌≡◌};
ghost use Rattle.std.specs.Str.{bytes_eq};
ghost use Rattle.std.specs.Ordering.{int_eq};
ghost use lib.Pointwise.{pointwise};
ghost use Rattle.sync_model.specs.Values.{same_pass_kind, same_nigori_key, same_preference, same_login, same_nigori, same_value, is_absent};

use sync_values::{NigoriKey, NigoriValue, PassKind, Password, Preference, Value};
use wire_fields::Octets;

fn same_text(a: &Octets, b: &Octets) -> bool
    ensures { result ≡ bytes_eq a.now b.now }
{
    a.as_slice() == b.as_slice()
}

fn same_preferences(a: &Preference, b: &Preference) -> bool
    ensures { result ≡ same_preference a.now b.now }
{
    same_text(&a.name, &b.name) && same_text(&a.value, &b.value) && same_text(&a.extra, &b.extra)
}

fn same_logins(a: &Password, b: &Password) -> bool
    ensures { result ≡ same_login a.now b.now }
{
    same_text(&a.origin, &b.origin)
        && same_text(&a.user_element, &b.user_element)
        && same_text(&a.user_value, &b.user_value)
        && same_text(&a.pass_element, &b.pass_element)
        && same_text(&a.realm, &b.realm)
        && same_text(&a.secret, &b.secret)
        && a.created == b.created
        && same_text(&a.extra, &b.extra)
}

fn same_pass_kinds(a: PassKind, b: PassKind) -> bool
    ensures { result ≡ same_pass_kind a b }
{
    match (a, b) {
        (PassKind::Implicit, PassKind::Implicit) => true,
        (PassKind::Keystore, PassKind::Keystore) => true,
        (PassKind::Frozen, PassKind::Frozen) => true,
        (PassKind::Custom, PassKind::Custom) => true,
        (PassKind::Vault, PassKind::Vault) => true,
        _ => false,
    }
}

fn same_keys(a: &[NigoriKey], b: &[NigoriKey]) -> bool
    ensures { result ≡ pointwise same_nigori_key a.now b.now }
{
    a == b
}

fn same_nigoris(a: &NigoriValue, b: &NigoriValue) -> bool
    ensures { result ≡ same_nigori a.now b.now }
{
    same_text(&a.lock, &b.lock)
        && same_keys(a.keys.as_slice(), b.keys.as_slice())
        && same_pass_kinds(a.pass_kind, b.pass_kind)
}

/// All fields of two values are equal, those that only a newer client knows too. It takes time in their length.
#[tactic(auto, unfolding(sync_model::specs::Values::same_value))]
pub fn same_values(a: &Value, b: &Value) -> bool
    ensures { result ≡ same_value a.now b.now }
{
    match (a, b) {
        (Value::Absent, Value::Absent) => true,
        (Value::Preference(a), Value::Preference(b)) => same_preferences(a, b),
        (Value::Password(a), Value::Password(b)) => same_logins(a, b),
        (Value::Nigori(a), Value::Nigori(b)) => same_nigoris(a, b),
        _ => false,
    }
}

/// There is no value.
pub(crate) fn is_absent(value: &Value) -> bool
    ensures { result ≡ is_absent value.now }
{
    matches!(value, Value::Absent)
}
