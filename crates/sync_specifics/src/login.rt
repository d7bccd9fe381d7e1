//! The data of a login as a message by itself.
ghost use Rattle.std.specs.Prelude.{◌≡◌, IfOk};
ghost use Rattle.message_fields.specs.Lookups.{AreWithin};
ghost use Rattle.message_fields.specs.Faults.{Answered};
ghost use Rattle.sync_specifics.specs.Logins.{login_fault, login_of, login_bytes, SaysLogin};

use crate::tables::LOGIN_FIELDS;
use message_fields::{Message, MessageFault, Part, first_fault, with_extra, write_unless_zero};
use std::alloc::Global;
use sync_values::Password;
use wire_fields::{FieldWriter, NoMemory, Octets};

/// Reads the data of a login by itself, all of whose texts have to be there, in time linear in the bytes. Its unknown
/// fields are kept.
pub fn decode_password(alloc: Global, bytes: &[u8]) -> Result<Password, MessageFault>
    ensures { Answered (SaysLogin bytes.now) result }
{
    let message = Message::read_whole(alloc, bytes, &[Part::whole(bytes)])?;
    match login_fault(&message) {
        None => Ok(login_in(alloc, bytes, &message)?),
        Some(fault) => Err(fault),
    }
}

/// The canonical bytes of a login's data, in time linear in their number.
pub fn encode_password(alloc: Global, value: &Password) -> Result<Octets, NoMemory>
    ensures { IfOk result (λ bytes. bytes ≡ login_bytes value.now) }
{
    let mut writer = FieldWriter::new(alloc);
    writer.bytes(2, value.realm.as_slice())?;
    writer.bytes(3, value.origin.as_slice())?;
    writer.bytes(5, value.user_element.as_slice())?;
    writer.bytes(6, value.user_value.as_slice())?;
    writer.bytes(7, value.pass_element.as_slice())?;
    writer.bytes(8, value.secret.as_slice())?;
    write_unless_zero(&mut writer, 11, value.created.cast_unsigned())?;
    with_extra(alloc, writer.finish().as_slice(), value.extra.as_slice())
}

fn login_fault(message: &Message) -> Option<MessageFault>
    ensures { result ≡ login_fault message.now }
{
    first_fault(&[
        message.wire_fault(),
        message.wrong_kind(&LOGIN_FIELDS),
        message.missing(2),
        message.missing(3),
        message.missing(5),
        message.missing(6),
        message.missing(7),
        message.missing(8),
    ])
}

fn login_in(alloc: Global, input: &[u8], message: &Message) -> Result<Password, NoMemory>
    requires { AreWithin input.now message.now.fields }
    ensures { IfOk result (λ login. login ≡ login_of input.now message.now) }
{
    let text = |number| Octets::from_slice(alloc, message.bytes(input, number));
    Ok(Password {
        origin: text(3)?,
        user_element: text(5)?,
        user_value: text(6)?,
        pass_element: text(7)?,
        realm: text(2)?,
        secret: text(8)?,
        created: message.varint(11).unwrap_or(0).cast_signed(),
        extra: message.unknown(alloc, input, &LOGIN_FIELDS)?,
    })
}
