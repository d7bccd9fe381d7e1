ghost use Rattle.std.specs.Prelude.{◌≡◌, IfOk};
ghost use Rattle.message_fields.specs.Lookups.{AreWithin};
ghost use Rattle.sync_specifics.specs.SealedTexts.{sealed_fault, sealed_of, sealed_bytes};

use crate::tables::SEALED_FIELDS;
use message_fields::{Message, MessageFault, first_fault};
use std::alloc::Global;
use wire_fields::{FieldWriter, NoMemory, Octets};

/// An encrypted text, and the name of the key that locks it.
#[derive(Debug, Drop)]
pub struct Sealed {
    pub key_name: Octets,
    pub blob: Octets,
}

impl Sealed {
    /// A second owner of the same bytes, in time linear in their number.
    pub fn copy(&self) -> Result<Sealed, NoMemory>
        ensures { IfOk result (λ copy. copy ≡ self.now) }
    {
        Ok(Sealed {
            key_name: self.key_name.copy()?,
            blob: self.blob.copy()?,
        })
    }
}

// What is at fault in an encrypted text.
pub(crate) fn sealed_fault(message: &Message) -> Option<MessageFault>
    ensures { result ≡ sealed_fault message.now }
{
    first_fault(&[
        message.wire_fault(),
        message.wrong_kind(&SEALED_FIELDS),
        message.missing(1),
        message.missing(2),
    ])
}

// What an encrypted text says.
pub(crate) fn sealed_in(alloc: Global, input: &[u8], message: &Message) -> Result<Sealed, NoMemory>
    requires { AreWithin input.now message.now.fields }
    ensures { IfOk result (λ sealed. sealed ≡ sealed_of input.now message.now) }
{
    Ok(Sealed {
        key_name: Octets::from_slice(alloc, message.bytes(input, 1))?,
        blob: Octets::from_slice(alloc, message.bytes(input, 2))?,
    })
}

// The bytes of an encrypted text.
pub(crate) fn sealed_bytes(alloc: Global, sealed: &Sealed) -> Result<Octets, NoMemory>
    ensures { IfOk result (λ bytes. bytes ≡ sealed_bytes sealed.now) }
{
    let mut writer = FieldWriter::new(alloc);
    writer.bytes(1, sealed.key_name.as_slice())?;
    writer.bytes(2, sealed.blob.as_slice())?;
    Ok(writer.finish())
}
