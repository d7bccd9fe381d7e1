//! The messages in specifics.
ghost use Rattle.std.specs.Prelude.{◌≡◌, ◌≤◌, Some, length, IfOk};
ghost use Rattle.std.specs.List.{filter_map, last_or};
ghost use Rattle.message_fields.specs.Fields.{ArePartsOf};
ghost use Rattle.message_fields.specs.Lookups.{AreWithin, number_or};
ghost use Rattle.sync_values.specs.PassKinds.{pass_kind_of_number};
ghost use Rattle.sync_specifics.specs.Specifics.{AreSpecificsFields, AreAllWithin, type_of, pass_kind_or_implicit, sealed_fault_in, is_plain, plain_fault, preference_type_fault, password_type_fault, pass_kind_fault, nigori_type_fault, type_fault, specifics_fault, preference_specifics, password_specifics, nigori_specifics, specifics_of};

use crate::preference::{preference_fault, preference_in};
use crate::sealed::{sealed_fault, sealed_in};
use crate::specifics::{NigoriContent, Specifics};
use crate::tables::{
    NIGORI_FIELDS, PASSWORD_FIELDS, PREFERENCE_FIELDS, SEALED_FIELDS, SPECIFICS_FIELDS,
};
use client_tags::Kind;
use message_fields::{Message, MessageFault, MessageReason, Part, PlacedField, first_fault};
use std::alloc::Global;
use sync_values::PassKind;
use wire_fields::NoMemory;

/// The messages in specifics: their own, and those of each type, with the encrypted text in each. That of a preference
/// has all its fields, and the others those that are known.
#[derive(Debug, Drop)]
pub struct SpecificsFields {
    pub own: Message,
    pub sealed: Message,
    pub preference: Message,
    pub password: Message,
    pub sealed_password: Message,
    pub nigori: Message,
    pub sealed_keys: Message,
}

impl SpecificsFields {
    /// Reads the pieces of specifics, in time linear in the bytes.
    pub fn read(alloc: Global, input: &[u8], parts: &[Part]) -> Result<SpecificsFields, NoMemory>
        requires { ArePartsOf input.now parts.now }
        ensures fields { IfOk result (λ fields. AreSpecificsFields input.now parts.now fields) }
        ensures within { IfOk result (λ fields. AreAllWithin input.now fields) }
    {
        let own = Message::read(alloc, input, parts, &SPECIFICS_FIELDS)?;
        let sealed = own.inner(alloc, input, 1, &SEALED_FIELDS)?;
        let preference = own.inner_whole(alloc, input, 37702)?;
        let password = own.inner(alloc, input, 45873, &PASSWORD_FIELDS)?;
        let sealed_password = password.inner(alloc, input, 1, &SEALED_FIELDS)?;
        let nigori = own.inner(alloc, input, 47745, &NIGORI_FIELDS)?;
        let sealed_keys = nigori.inner(alloc, input, 1, &SEALED_FIELDS)?;
        Ok(SpecificsFields {
            own,
            sealed,
            preference,
            password,
            sealed_password,
            nigori,
            sealed_keys,
        })
    }

    /// What is at fault in the specifics.
    pub fn fault(&self) -> Option<MessageFault>
        ensures { result ≡ specifics_fault self.now }
    {
        first_fault(&[
            sealed_fault_in(&self.own, &self.sealed),
            self.type_fault(),
            self.preference.wire_fault(),
            self.password.wire_fault(),
            self.nigori.wire_fault(),
            self.own.wire_fault(),
            self.own.wrong_kind(&SPECIFICS_FIELDS),
        ])
    }

    /// What the specifics say where nothing is at fault, in time linear in the texts.
    pub fn value(&self, alloc: Global, input: &[u8]) -> Result<Option<Specifics>, NoMemory>
        requires { AreAllWithin input.now self.now }
        ensures { IfOk result (λ value. value ≡ specifics_of input.now self.now) }
    {
        match type_of(self.own.fields.as_slice()) {
            None => Ok(None),
            Some(Kind::Nigori) => Ok(Some(self.nigori_value(alloc, input)?)),
            Some(Kind::Preference) => Ok(Some(self.preference_value(alloc, input)?)),
            Some(Kind::Password) => Ok(Some(self.password_value(alloc, input)?)),
        }
    }

    // What is at fault in the message of the type that counts.
    fn type_fault(&self) -> Option<MessageFault>
        ensures { result ≡ type_fault self.now (type_of self.now.own.fields) }
    {
        match type_of(self.own.fields.as_slice())? {
            Kind::Nigori => self.nigori_fault(),
            Kind::Preference => self.preference_fault(),
            Kind::Password => self.password_fault(),
        }
    }

    fn preference_fault(&self) -> Option<MessageFault>
        ensures { result ≡ preference_type_fault self.now }
    {
        if self.own.has(1) {
            self.preference.wire_fault()
        } else {
            plain_fault(&self.preference)
        }
    }

    fn password_fault(&self) -> Option<MessageFault>
        ensures { result ≡ password_type_fault self.now }
    {
        first_fault(&[
            sealed_fault_in(&self.password, &self.sealed_password),
            self.password.wire_fault(),
            self.password.wrong_kind(&PASSWORD_FIELDS),
        ])
    }

    fn nigori_fault(&self) -> Option<MessageFault>
        ensures { result ≡ nigori_type_fault self.now }
    {
        first_fault(&[
            sealed_fault_in(&self.nigori, &self.sealed_keys),
            self.nigori.wire_fault(),
            self.nigori.wrong_kind(&NIGORI_FIELDS),
            pass_kind_fault(&self.nigori),
        ])
    }

    fn preference_value(&self, alloc: Global, input: &[u8]) -> Result<Specifics, NoMemory>
        requires { AreAllWithin input.now self.now }
        ensures { IfOk result (λ value. value ≡ preference_specifics input.now self.now) }
    {
        if self.own.has(1) {
            let sealed = sealed_in(alloc, input, &self.sealed)?;
            Ok(Specifics::SealedPreference(sealed))
        } else if is_plain(&self.preference) {
            let preference = preference_in(alloc, input, &self.preference)?;
            Ok(Specifics::Preference(preference))
        } else {
            Ok(Specifics::EmptyOf(Kind::Preference))
        }
    }

    fn password_value(&self, alloc: Global, input: &[u8]) -> Result<Specifics, NoMemory>
        requires { AreAllWithin input.now self.now }
        ensures { IfOk result (λ value. value ≡ password_specifics input.now self.now) }
    {
        if !self.password.has(1) {
            return Ok(Specifics::EmptyOf(Kind::Password));
        }
        let sealed = sealed_in(alloc, input, &self.sealed_password)?;
        Ok(Specifics::Password(sealed))
    }

    fn nigori_value(&self, alloc: Global, input: &[u8]) -> Result<Specifics, NoMemory>
        requires { AreAllWithin input.now self.now }
        ensures { IfOk result (λ value. value ≡ nigori_specifics input.now self.now) }
    {
        if !self.nigori.has(1) {
            return Ok(Specifics::EmptyOf(Kind::Nigori));
        }
        Ok(Specifics::Nigori(NigoriContent {
            bag: sealed_in(alloc, input, &self.sealed_keys)?,
            pass_kind: pass_kind_in(&self.nigori).unwrap_or(PassKind::Implicit),
        }))
    }
}

// The type that the last type field names.
fn type_of(fields: &[PlacedField]) -> Option<Kind>
    ensures { result ≡ type_of fields.now }
{
    let mut last = None;
    for field in fields {
        let kind = Kind::from_number(u64::from(field.number));
        if kind.is_some() {
            last = kind;
        }
    }
    last
}

// What is at fault in the encrypted text of a message, where it has one.
fn sealed_fault_in(message: &Message, sealed: &Message) -> Option<MessageFault>
    ensures { result ≡ sealed_fault_in message.now sealed.now }
{
    if message.has(1) {
        sealed_fault(sealed)
    } else {
        None
    }
}

// Whether a preference has a name or a value.
fn is_plain(preference: &Message) -> bool
    ensures { result ≡ is_plain preference.now }
{
    preference.has(1) || preference.has(2)
}

// What is at fault in a preference's message that stands by itself.
fn plain_fault(preference: &Message) -> Option<MessageFault>
    ensures { result ≡ plain_fault preference.now }
{
    if is_plain(preference) {
        preference_fault(preference)
    } else {
        first_fault(&[
            preference.wire_fault(),
            preference.wrong_kind(&PREFERENCE_FIELDS),
        ])
    }
}

// The kind of the passphrase, if its number is that of one.
fn pass_kind_in(nigori: &Message) -> Option<PassKind>
    ensures { result ≡ pass_kind_of_number (number_or 1 30 nigori.now.fields) }
{
    PassKind::from_number(nigori.varint(30).unwrap_or(1))
}

// A kind of the passphrase whose number is that of none.
fn pass_kind_fault(nigori: &Message) -> Option<MessageFault>
    ensures { result ≡ pass_kind_fault nigori.now }
{
    if pass_kind_in(nigori).is_some() {
        return None;
    }
    nigori.fault_of(30, MessageReason::Range { field: 30 })
}
