//! What an edit says: its key, how long its texts are, and what it makes of the key.
ghost use Rattle.std.specs.Prelude.{◌≡◌, ◌+◌, ℕ, length, IfOk};
ghost use Rattle.client_tags.specs.Hashes.{tag_hash as hash_of_tag};
ghost use Rattle.client_tags.specs.Tags.{password_tag as tag_of_login};
ghost use Rattle.client_tags.specs.declared.Kind.TheVariants.{Preference as preference_kind, Password as password_kind};
ghost use Rattle.sync_values.specs.declared.value.Value.TheVariants.{Preference as preference_value, Password as login_value};
ghost use Rattle.sync_model.specs.Edits.{edit_value, edit_length, login_tag, preference_length, login_length};
ghost use Rattle.sync_model.specs.Values.{extra_in};
ghost use Rattle.type_processor.specs.Edits.{edit_hash, told_length};

use client_tags::{TagHash, login_hash, nigori_tag, tag_hash};
use std::alloc::Global;
use sync_model::{Edit, Kind, Value};
use sync_values::{Password, Preference};
use wire_fields::{NoMemory, Octets};

// The hash of the login that these five texts name.
fn hash_of_texts(
    origin: &Octets,
    user_element: &Octets,
    user_value: &Octets,
    pass_element: &Octets,
    realm: &Octets,
) -> TagHash
    ensures { result
        ≡ hash_of_tag password_kind (tag_of_login origin.now user_element.now user_value.now pass_element.now realm.now) }
{
    login_hash(
        origin.as_slice(),
        user_element.as_slice(),
        user_value.as_slice(),
        pass_element.as_slice(),
        realm.as_slice(),
    )
}

fn hash_of_login(login: &Password) -> TagHash
    ensures { result ≡ hash_of_tag password_kind (login_tag login.now) }
{
    hash_of_texts(
        &login.origin,
        &login.user_element,
        &login.user_value,
        &login.pass_element,
        &login.realm,
    )
}

fn preference_hash(name: &Octets) -> TagHash
    ensures { result ≡ hash_of_tag preference_kind name.now }
{
    tag_hash(Kind::Preference, name.as_slice())
}

/// The hash of the key that an edit changes, in time linear in its texts.
pub(crate) fn edit_hash(edit: &Edit) -> TagHash
    ensures { result ≡ edit_hash edit.now }
{
    match edit {
        Edit::SetPreference(preference) => preference_hash(&preference.name),
        Edit::NewerPreference(preference) => preference_hash(&preference.name),
        Edit::DeletePreference(name) => preference_hash(name),
        Edit::SetPassword(login) => hash_of_login(login),
        Edit::NewerPassword(login) => hash_of_login(login),
        Edit::DeletePassword {
            origin,
            user_element,
            user_value,
            pass_element,
            realm,
        } => hash_of_texts(origin, user_element, user_value, pass_element, realm),
        Edit::SetNigori(_) => tag_hash(Kind::Nigori, nigori_tag()),
    }
}

// The fields of a value that only a newer client knows.
fn extra_in(value: &Value) -> &[u8]
    ensures { result.now ≡ extra_in value.now }
{
    match value {
        Value::Preference(preference) => preference.extra.as_slice(),
        Value::Password(login) => login.extra.as_slice(),
        _ => &[],
    }
}

// How long a text is; the greatest number that there is stands for those above it.
fn text_length(text: &Octets) -> u64
    ensures { result ≡ told_length (length text.now) }
{
    text.len() as u64
}

// The length of further texts with that of another one. It stays at the greatest number that there is.
fn with_text(len: u64, text: &Octets) -> u64
    ensures { (before : ℕ) → len ≡ told_length before → result ≡ told_length (before + length text.now) }
{
    len.saturating_add(text.len() as u64)
}

// The length of texts with that of unknown fields.
fn with_extra(len: u64, extra: &[u8]) -> u64
    ensures { (before : ℕ) → len ≡ told_length before → result ≡ told_length (before + length extra.now) }
{
    len.saturating_add(extra.len() as u64)
}

fn preference_length(preference: &Preference, extra: &[u8]) -> u64
    ensures { result ≡ told_length (preference_length preference.now + length extra.now) }
{
    let name = text_length(&preference.name);
    with_extra(with_text(name, &preference.value), extra)
}

// How many bytes the five texts have that name a login.
fn site_length(
    origin: &Octets,
    user_element: &Octets,
    user_value: &Octets,
    pass_element: &Octets,
    realm: &Octets,
) -> u64
    ensures { result ≡ told_length (length origin.now + length user_element.now + length user_value.now
        + length pass_element.now + length realm.now) }
{
    let site = with_text(text_length(origin), user_element);
    let user = with_text(with_text(site, user_value), pass_element);
    with_text(user, realm)
}

fn login_length(login: &Password, extra: &[u8]) -> u64
    ensures { result ≡ told_length (login_length login.now + length extra.now) }
{
    let site = site_length(
        &login.origin,
        &login.user_element,
        &login.user_value,
        &login.pass_element,
        &login.realm,
    );
    with_extra(with_text(site, &login.secret), extra)
}

/// How many bytes the texts of an edit have, and the unknown fields of the value that it makes of the own value before
/// it; the greatest number that there is stands for those above it.
pub(crate) fn edit_length(own: &Value, edit: &Edit) -> u64
    ensures { result ≡ told_length (edit_length own.now edit.now) }
{
    match edit {
        Edit::SetPreference(preference) => preference_length(preference, extra_in(own)),
        Edit::NewerPreference(preference) => preference_length(
            preference,
            preference.extra.as_slice(),
        ),
        Edit::DeletePreference(name) => text_length(name),
        Edit::SetPassword(login) => login_length(login, extra_in(own)),
        Edit::NewerPassword(login) => login_length(login, login.extra.as_slice()),
        Edit::DeletePassword {
            origin,
            user_element,
            user_value,
            pass_element,
            realm,
        } => site_length(origin, user_element, user_value, pass_element, realm),
        Edit::SetNigori(nigori) => text_length(&nigori.lock),
    }
}

fn set_preference(preference: Preference, extra: Octets) -> Value
    ensures { result ≡ preference_value (record preference { extra = extra }) }
{
    let Preference { name, value, .. } = preference;
    Value::Preference(Preference { name, value, extra })
}

fn set_login(mut login: Password, extra: Octets) -> Value
    ensures { result ≡ login_value (record login { extra = extra }) }
{
    login.extra = extra;
    Value::Password(login)
}

/// What an edit makes of the own value before it. What is set keeps the fields of that one that only a newer client
/// knows, which it copies.
pub(crate) fn edit_value(alloc: Global, own: &Value, edit: Edit) -> Result<Value, NoMemory>
    ensures { IfOk result (λ value. value ≡ edit_value own.now edit) }
{
    match edit {
        Edit::SetPreference(preference) => Ok(set_preference(
            preference,
            Octets::from_slice(alloc, extra_in(own))?,
        )),
        Edit::NewerPreference(preference) => Ok(Value::Preference(preference)),
        Edit::SetPassword(login) => Ok(set_login(login, Octets::from_slice(alloc, extra_in(own))?)),
        Edit::NewerPassword(login) => Ok(Value::Password(login)),
        Edit::SetNigori(nigori) => Ok(Value::Nigori(nigori)),
        _ => Ok(Value::Absent),
    }
}
