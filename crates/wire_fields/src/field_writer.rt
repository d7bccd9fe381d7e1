//! Writing the fields of a message one by one.
ghost use Rattle.std.specs.Prelude.{◌≡◌, ◌+◌, ◌^◌, ◌<◌, ℕ, List, [], ◌++◌, length, OnOk, OnErr};
ghost use Rattle.wire_format.specs.Faults.{IsNumber};
ghost use Rattle.wire_format.specs.Spellings.{varint_field, bytes_field, group_field};

use crate::{NoMemory, Octets};
use std::alloc::Global;
use std::marker::Model;
use wire_format::{spell_header, spell_varint};

/// Writes the fields of a message one by one (Protocol Buffers, Encoding, Message Structure).
///
/// Contracts see the bytes that were written so far.
#[derive(Debug, Drop)]
pub struct FieldWriter {
    bytes: Vec<u8>,
}

impl Model for FieldWriter {
    ghost Value = { List ℕ };

    ghost view = { λ writer. writer.bytes.items };
}

impl FieldWriter {
    /// A writer of no fields. It takes no memory.
    pub fn new(alloc: Global) -> FieldWriter
        ensures { result ≡ [] }
    {
        FieldWriter {
            bytes: Vec::new(alloc),
        }
    }

    /// Writes a field that holds a varint (kind 0), in constant time over many calls.
    pub fn varint(&mut self, number: u32, value: u64) -> Result<(), NoMemory>
        requires { IsNumber number }
        ensures ok { OnOk result (self.new ≡ self.old ++ varint_field number value) }
        ensures err { OnErr result (self.new ≡ self.old) }
    {
        let header = spell_header(number, 0);
        let value = spell_varint(value);
        append(&mut self.bytes, header.as_slice(), value.as_slice(), &[])
    }

    /// Writes a field that holds bytes (kind 2), in time linear in their number over many calls.
    pub fn bytes(&mut self, number: u32, content: &[u8]) -> Result<(), NoMemory>
        requires { IsNumber number }
        ensures ok { OnOk result (self.new ≡ self.old ++ bytes_field number content.now) }
        ensures err { OnErr result (self.new ≡ self.old) }
    {
        let header = spell_header(number, 2);
        let count = spell_varint(content.len() as u64);
        append(
            &mut self.bytes,
            header.as_slice(),
            count.as_slice(),
            content,
        )
    }

    /// Writes a group (kinds 3 and 4), in time linear in the length of its content over many calls.
    ///
    /// What is written is a field where the content is fields that leave room for one group around them.
    pub fn group(&mut self, number: u32, content: &[u8]) -> Result<(), NoMemory>
        requires { IsNumber number }
        ensures ok { OnOk result (self.new ≡ self.old ++ group_field number content.now) }
        ensures err { OnErr result (self.new ≡ self.old) }
    {
        let start = spell_header(number, 3);
        let end = spell_header(number, 4);
        append(&mut self.bytes, start.as_slice(), content, end.as_slice())
    }

    /// The bytes that were written, without a copy.
    pub fn finish(self) -> Octets
        ensures { result ≡ self }
    {
        Octets::from_vec(self.bytes)
    }
}

// Adds three texts of bytes at the end, or none of them: where there is room for all, nothing fails any more.
fn append(bytes: &mut Vec<u8>, first: &[u8], second: &[u8], third: &[u8]) -> Result<(), NoMemory>
    requires { length first.now + length second.now + length third.now < 2 ^ 64 }
    ensures ok { OnOk result (bytes.new.items ≡ bytes.old.items ++ first.now ++ second.now ++ third.now) }
    ensures err { OnErr result (bytes.new.items ≡ bytes.old.items) }
{
    bytes.reserve(first.len() + second.len() + third.len())?;
    bytes.extend_from_slice(first)?;
    bytes.extend_from_slice(second)?;
    bytes.extend_from_slice(third)?;
    Ok(())
}
