//! A preference as a message by itself.
ghost use Rattle.std.specs.Prelude.{◌≡◌, IfOk};
ghost use Rattle.message_fields.specs.Lookups.{AreWithin};
ghost use Rattle.message_fields.specs.Faults.{Answered};
ghost use Rattle.sync_specifics.specs.Preferences.{preference_fault, preference_of, preference_bytes, SaysPreference};

use crate::tables::PREFERENCE_FIELDS;
use message_fields::{Message, MessageFault, Part, first_fault, with_extra};
use std::alloc::Global;
use sync_values::Preference;
use wire_fields::{FieldWriter, NoMemory, Octets};

/// Reads a preference by itself, whose two texts have to be there, in time linear in the bytes. Its unknown fields are
/// kept.
pub fn decode_preference(alloc: Global, bytes: &[u8]) -> Result<Preference, MessageFault>
    ensures { Answered (SaysPreference bytes.now) result }
{
    let message = Message::read_whole(alloc, bytes, &[Part::whole(bytes)])?;
    match preference_fault(&message) {
        None => Ok(preference_in(alloc, bytes, &message)?),
        Some(fault) => Err(fault),
    }
}

/// The canonical bytes of a preference, in time linear in their number.
pub fn encode_preference(alloc: Global, value: &Preference) -> Result<Octets, NoMemory>
    ensures { IfOk result (λ bytes. bytes ≡ preference_bytes value.now) }
{
    let mut writer = FieldWriter::new(alloc);
    writer.bytes(1, value.name.as_slice())?;
    writer.bytes(2, value.value.as_slice())?;
    with_extra(alloc, writer.finish().as_slice(), value.extra.as_slice())
}

// What is at fault in a preference.
pub(crate) fn preference_fault(message: &Message) -> Option<MessageFault>
    ensures { result ≡ preference_fault message.now }
{
    first_fault(&[
        message.wire_fault(),
        message.wrong_kind(&PREFERENCE_FIELDS),
        message.missing(1),
        message.missing(2),
    ])
}

// What a preference says.
pub(crate) fn preference_in(
    alloc: Global,
    input: &[u8],
    message: &Message,
) -> Result<Preference, NoMemory>
    requires { AreWithin input.now message.now.fields }
    ensures { IfOk result (λ preference. preference ≡ preference_of input.now message.now) }
{
    Ok(Preference {
        name: Octets::from_slice(alloc, message.bytes(input, 1))?,
        value: Octets::from_slice(alloc, message.bytes(input, 2))?,
        extra: message.unknown(alloc, input, &PREFERENCE_FIELDS)?,
    })
}
