//! Writing fields that are left out where they say nothing.
ghost use Rattle.std.specs.Prelude.{◌≡◌, ◌++◌, IfOk, OnOk, OnErr};
ghost use Rattle.wire_format.specs.Faults.{IsNumber};
ghost use Rattle.message_fields.specs.Written.{varint_unless_zero, bytes_unless_empty};

use std::alloc::Global;
use wire_fields::{FieldWriter, NoMemory, Octets};

/// Writes a varint field, or nothing where it is 0.
pub fn write_unless_zero(writer: &mut FieldWriter, number: u32, value: u64) -> Result<(), NoMemory>
    requires { IsNumber number }
    ensures ok { OnOk result (writer.new ≡ writer.old ++ varint_unless_zero number value) }
    ensures err { OnErr result (writer.new ≡ writer.old) }
{
    if value == 0 {
        return Ok(());
    }
    writer.varint(number, value)
}

/// Writes a bytes field, or nothing where it is empty, in time linear in the bytes.
pub fn write_unless_empty(
    writer: &mut FieldWriter,
    number: u32,
    content: &[u8],
) -> Result<(), NoMemory>
    requires { IsNumber number }
    ensures ok { OnOk result (writer.new ≡ writer.old ++ bytes_unless_empty number content.now) }
    ensures err { OnErr result (writer.new ≡ writer.old) }
{
    if content.is_empty() {
        return Ok(());
    }
    writer.bytes(number, content)
}

/// The bytes of a message's known fields, and after them those of its unknown ones, in time linear in both.
pub fn with_extra(alloc: Global, known: &[u8], extra: &[u8]) -> Result<Octets, NoMemory>
    ensures { IfOk result (λ bytes. bytes ≡ known.now ++ extra.now) }
{
    let mut bytes = Vec::from_slice(alloc, known)?;
    bytes.extend_from_slice(extra)?;
    Ok(Octets::from_vec(bytes))
}
