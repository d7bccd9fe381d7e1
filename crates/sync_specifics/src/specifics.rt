//! What an entity holds, as a message has it.
ghost use Rattle.std.specs.Prelude.{◌≡◌, IfOk};
ghost use Rattle.message_fields.specs.Faults.{Answered};
ghost use Rattle.wire_format.specs.Spellings.{bytes_field};
ghost use Rattle.sync_specifics.specs.SealedTexts.{sealed_bytes};
ghost use Rattle.sync_specifics.specs.Preferences.{preference_bytes};
ghost use Rattle.sync_specifics.specs.Specifics.{SaysSpecifics, specifics_bytes, nigori_bytes};

use crate::fields::SpecificsFields;
use crate::preference::encode_preference;
use crate::sealed::{Sealed, sealed_bytes};
use client_tags::Kind;
use message_fields::{MessageFault, Part};
use std::alloc::Global;
use sync_values::{PassKind, Preference};
use wire_fields::{FieldWriter, NoMemory, Octets};

/// The encrypted keys of a profile, and the kind of the passphrase that locks them.
#[derive(Debug, Drop)]
pub struct NigoriContent {
    pub bag: Sealed,
    pub pass_kind: PassKind,
}

/// What an entity holds, as a message has it.
#[derive(Debug, Drop)]
pub enum Specifics {
    /// An empty message of the type, as a deleted entity has it.
    EmptyOf(Kind),
    Preference(Preference),
    SealedPreference(Sealed),
    Password(Sealed),
    Nigori(NigoriContent),
}

/// Reads specifics, in time linear in the bytes; `None` without a field of a known type.
pub fn decode_specifics(alloc: Global, bytes: &[u8]) -> Result<Option<Specifics>, MessageFault>
    ensures { Answered (SaysSpecifics bytes.now) result }
{
    let fields = SpecificsFields::read(alloc, bytes, &[Part::whole(bytes)])?;
    match fields.fault() {
        None => Ok(fields.value(alloc, bytes)?),
        Some(fault) => Err(fault),
    }
}

/// The canonical bytes of specifics, in time linear in their number.
pub fn encode_specifics(alloc: Global, value: &Specifics) -> Result<Octets, NoMemory>
    ensures { IfOk result (λ bytes. bytes ≡ specifics_bytes value.now) }
{
    let mut writer = FieldWriter::new(alloc);
    match value {
        Specifics::EmptyOf(kind) => writer.bytes(kind.number(), &[])?,
        Specifics::Preference(preference) => {
            writer.bytes(37702, encode_preference(alloc, preference)?.as_slice())?;
        }
        Specifics::SealedPreference(sealed) => {
            writer.bytes(1, sealed_bytes(alloc, sealed)?.as_slice())?;
            writer.bytes(37702, &[])?;
        }
        Specifics::Password(sealed) => {
            writer.bytes(45873, password_bytes(alloc, sealed)?.as_slice())?;
        }
        Specifics::Nigori(nigori) => {
            writer.bytes(47745, nigori_bytes(alloc, nigori)?.as_slice())?;
        }
    }
    Ok(writer.finish())
}

// The bytes of a login's message.
fn password_bytes(alloc: Global, sealed: &Sealed) -> Result<Octets, NoMemory>
    ensures { IfOk result (λ bytes. bytes ≡ bytes_field 1 (sealed_bytes sealed.now)) }
{
    let mut writer = FieldWriter::new(alloc);
    writer.bytes(1, sealed_bytes(alloc, sealed)?.as_slice())?;
    Ok(writer.finish())
}

// The bytes of the keys' message.
fn nigori_bytes(alloc: Global, nigori: &NigoriContent) -> Result<Octets, NoMemory>
    ensures { IfOk result (λ bytes. bytes ≡ nigori_bytes nigori.now) }
{
    let mut writer = FieldWriter::new(alloc);
    writer.bytes(1, sealed_bytes(alloc, &nigori.bag)?.as_slice())?;
    writer.varint(30, u64::from(nigori.pass_kind.number()))?;
    Ok(writer.finish())
}
