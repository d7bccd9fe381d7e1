//! Writing messages to a server.
ghost use Rattle.std.specs.Prelude.{◌≡◌, ◌++◌, IfOk, OnOk};
ghost use Rattle.wire_format.specs.Faults.{IsNumber};
ghost use Rattle.sync_messages.specs.Spellings.{bytes_if_some, commit_bytes, markers_bytes, request_bytes, to_bytes};

use crate::message::{Commit, GetUpdates, Request, ToServer};
use crate::write_entity::write_entities;
use crate::write_marker::write_markers;
use message_fields::write_unless_empty;
use std::alloc::Global;
use wire_fields::{FieldWriter, NoMemory, Octets};

/// The canonical bytes of a message to a server, in time linear in their number: each content is copied once for each
/// message in which it stands.
pub fn encode_to(alloc: Global, message: &ToServer) -> Result<Octets, NoMemory>
    ensures { IfOk result (λ bytes. bytes ≡ to_bytes message.now) }
{
    let mut writer = FieldWriter::new(alloc);
    write_request(&mut writer, alloc, &message.request)?;
    write_if_some(&mut writer, 7, &message.birthday)?;
    Ok(writer.finish())
}

// Writes a bytes field, or nothing where it is not there.
pub(crate) fn write_if_some(
    writer: &mut FieldWriter,
    number: u32,
    content: &Option<Octets>,
) -> Result<(), NoMemory>
    requires { IsNumber number }
    ensures { OnOk result (writer.new ≡ writer.old ++ bytes_if_some number content.now) }
{
    if let Some(content) = content {
        writer.bytes(number, content.as_slice())?;
    }
    Ok(())
}

// Writes which request it is, and its message.
fn write_request(writer: &mut FieldWriter, alloc: Global, request: &Request) -> Result<(), NoMemory>
    ensures { OnOk result (writer.new ≡ writer.old ++ request_bytes request.now) }
{
    match request {
        Request::Commit(commit) => {
            writer.varint(3, 1)?;
            writer.bytes(4, commit_bytes(alloc, commit)?.as_slice())?;
        }
        Request::Updates(updates) => {
            writer.varint(3, 2)?;
            writer.bytes(5, get_updates_bytes(alloc, updates)?.as_slice())?;
        }
    }
    Ok(())
}

fn commit_bytes(alloc: Global, commit: &Commit) -> Result<Octets, NoMemory>
    ensures { IfOk result (λ bytes. bytes ≡ commit_bytes commit.now) }
{
    let mut writer = FieldWriter::new(alloc);
    write_entities(&mut writer, alloc, 1, commit.entries.as_slice())?;
    write_unless_empty(&mut writer, 2, commit.guid.as_slice())?;
    Ok(writer.finish())
}

fn get_updates_bytes(alloc: Global, updates: &GetUpdates) -> Result<Octets, NoMemory>
    ensures { IfOk result (λ bytes. bytes ≡ markers_bytes 6 updates.now.marks) }
{
    let mut writer = FieldWriter::new(alloc);
    write_markers(&mut writer, alloc, 6, updates.marks.as_slice())?;
    Ok(writer.finish())
}
