//! Writing messages from a server.
ghost use Rattle.std.specs.Prelude.{◌≡◌, ◌++◌, IfOk, OnOk};
ghost use Rattle.sync_messages.specs.Spellings.{answer_bytes, answers_bytes, from_bytes, reply_bytes, updates_bytes};

use crate::message::{EntryAnswer, FromServer, Reply, Updates};
use crate::write_entity::write_entities;
use crate::write_marker::write_markers;
use crate::write_request::write_if_some;
use message_fields::{write_unless_empty, write_unless_zero};
use std::alloc::Global;
use wire_fields::{FieldWriter, NoMemory, Octets};

/// The canonical bytes of a message from a server, in time linear in their number: each content is copied once for
/// each message in which it stands.
pub fn encode_from(alloc: Global, message: &FromServer) -> Result<Octets, NoMemory>
    ensures { IfOk result (λ bytes. bytes ≡ from_bytes message.now) }
{
    let mut writer = FieldWriter::new(alloc);
    write_reply(&mut writer, alloc, &message.reply)?;
    write_if_some(&mut writer, 6, &message.birthday)?;
    Ok(writer.finish())
}

// Writes the field of what a message holds.
fn write_reply(writer: &mut FieldWriter, alloc: Global, reply: &Reply) -> Result<(), NoMemory>
    ensures { OnOk result (writer.new ≡ writer.old ++ reply_bytes reply.now) }
{
    match reply {
        Reply::Committed(answers) => {
            writer.bytes(1, answers_bytes(alloc, answers.as_slice())?.as_slice())
        }
        Reply::Updates(updates) => writer.bytes(2, updates_bytes(alloc, updates)?.as_slice()),
        Reply::Refused(code) => write_unless_zero(writer, 4, u64::from(*code)),
    }
}

fn answers_bytes(alloc: Global, answers: &[EntryAnswer]) -> Result<Octets, NoMemory>
    ensures { IfOk result (λ bytes. bytes ≡ answers_bytes answers.now) }
{
    let mut writer = FieldWriter::new(alloc);
    for answer in answers {
        writer.group(1, answer_bytes(alloc, answer)?.as_slice())?;
    }
    Ok(writer.finish())
}

fn answer_bytes(alloc: Global, answer: &EntryAnswer) -> Result<Octets, NoMemory>
    ensures { IfOk result (λ bytes. bytes ≡ answer_bytes answer.now) }
{
    let mut writer = FieldWriter::new(alloc);
    writer.varint(2, u64::from(answer.outcome.number()))?;
    write_unless_empty(&mut writer, 3, answer.id.as_slice())?;
    write_unless_zero(&mut writer, 6, answer.version.cast_unsigned())?;
    Ok(writer.finish())
}

fn updates_bytes(alloc: Global, updates: &Updates) -> Result<Octets, NoMemory>
    ensures { IfOk result (λ bytes. bytes ≡ updates_bytes updates.now) }
{
    let mut writer = FieldWriter::new(alloc);
    write_entities(&mut writer, alloc, 1, updates.entries.as_slice())?;
    write_unless_zero(&mut writer, 4, updates.remaining)?;
    write_markers(&mut writer, alloc, 5, updates.marks.as_slice())?;
    Ok(writer.finish())
}
