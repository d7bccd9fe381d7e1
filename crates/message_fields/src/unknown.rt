//! The fields of a message that its table lacks, kept as they are spelled.
ghost use Rattle.std.specs.Prelude.{◌≡◌, ◌≤◌, ◌<◌, ◌++◌, ◌∷◌, [], IsTrue, ◌↔◌, length, IfOk, OnOk};
ghost use Rattle.wire_format.specs.Spellings.{header_of};
ghost use Rattle.message_fields.specs.Lookups.{IsWithin, AreWithin};
ghost use Rattle.message_fields.specs.Unknown.{spelled, is_least, extra_of, IsCanonicalExtra};

use crate::field::{Held, Known, PlacedField};
use crate::message::{Message, content};
use crate::read::{is_known, placed};
use std::alloc::Global;
use wire_fields::{
    NoMemory, Octets, bytes_field_len, group_field_len, spell_header, spell_varint,
    varint_field_len, varint_len,
};
use wire_format::FieldReader;

impl Message {
    /// The spelling of the fields that this table lacks, in their order: headers, numbers and lengths of least length,
    /// and contents unchanged. It takes time linear in the fields and in that spelling.
    pub fn unknown(&self, alloc: Global, input: &[u8], known: &[Known]) -> Result<Octets, NoMemory>
        requires { AreWithin input.now self.now.fields }
        ensures { IfOk result (λ extra. extra ≡ extra_of known.now input.now self.now.fields) }
    {
        let mut bytes = Vec::new(alloc);
        for field in self.fields.as_slice() {
            spell_unknown(&mut bytes, input, field, known)?;
        }
        Ok(Octets::from_vec(bytes))
    }
}

/// Whether these bytes are the unknown fields of the message that they are by themselves, each as short as it can be.
/// It takes no memory, and time linear in the bytes.
pub fn is_canonical_extra(known: &[Known], extra: &[u8]) -> bool
    ensures { IsTrue result ↔ IsCanonicalExtra known.now extra.now }
{
    let mut reader = FieldReader::new(extra);
    loop {
        let field = match reader.next() {
            Ok(Some(field)) => field,
            Ok(None) => return true,
            Err(_) => return false,
        };
        let end = reader.place();
        let placed = placed(extra, 0, end, &field);
        if !is_least(extra, &placed, end, known) {
            return false;
        }
    }
}

// Whether the table lacks a field that ends at a place of the input, and no spelling of it is shorter.
fn is_least(input: &[u8], field: &PlacedField, end: usize, known: &[Known]) -> bool
    requires within { IsWithin input.now field.now.held }
    requires before { field.now.at ≤ end }
    ensures { result ≡ is_least known.now input.now field.now end }
{
    !is_known(field, known) && spelled_len(input, field) == end - field.at
}

// Adds the spelling of a field that the table lacks.
fn spell_unknown(
    bytes: &mut Vec<u8>,
    input: &[u8],
    field: &PlacedField,
    known: &[Known],
) -> Result<(), NoMemory>
    requires { IsWithin input.now field.now.held }
    ensures { OnOk result (bytes.new.items ≡ bytes.old.items ++ extra_of known.now input.now (field.now ∷ [])) }
{
    if is_known(field, known) {
        return Ok(());
    }
    spell(bytes, input, field)
}

// Adds the least spelling of a field.
fn spell(bytes: &mut Vec<u8>, input: &[u8], field: &PlacedField) -> Result<(), NoMemory>
    requires { IsWithin input.now field.now.held }
    ensures { OnOk result (bytes.new.items ≡ bytes.old.items ++ spelled input.now field.now) }
{
    let number = field.number;
    match field.held {
        Held::Varint(value) => {
            let value = spell_varint(value);
            append(
                bytes,
                spell_header(number, 0).as_slice(),
                value.as_slice(),
                &[],
            )
        }
        Held::Eight(part) => {
            append(
                bytes,
                spell_header(number, 1).as_slice(),
                content(input, part),
                &[],
            )
        }
        Held::Bytes(part) => {
            let content = content(input, part);
            let count = spell_varint(content.len() as u64);
            append(
                bytes,
                spell_header(number, 2).as_slice(),
                count.as_slice(),
                content,
            )
        }
        Held::Group(part) => {
            let end = spell_header(number, 4);
            append(
                bytes,
                spell_header(number, 3).as_slice(),
                content(input, part),
                end.as_slice(),
            )
        }
        Held::Four(part) => {
            append(
                bytes,
                spell_header(number, 5).as_slice(),
                content(input, part),
                &[],
            )
        }
    }
}

// Adds three texts of bytes at the end.
fn append(bytes: &mut Vec<u8>, first: &[u8], second: &[u8], third: &[u8]) -> Result<(), NoMemory>
    ensures { OnOk result (bytes.new.items ≡ bytes.old.items ++ (first.now ++ second.now ++ third.now)) }
{
    bytes.extend_from_slice(first)?;
    bytes.extend_from_slice(second)?;
    bytes.extend_from_slice(third)?;
    Ok(())
}

// How many bytes the least spelling of a field has.
fn spelled_len(input: &[u8], field: &PlacedField) -> usize
    requires { IsWithin input.now field.now.held }
    ensures { result ≡ length (spelled input.now field.now) }
{
    let number = field.number;
    match field.held {
        Held::Varint(value) => varint_field_len(number, value),
        Held::Eight(part) => header_len(number, 1) + content(input, part).len(),
        Held::Bytes(part) => bytes_field_len(number, content(input, part).len()),
        Held::Group(part) => group_field_len(number, content(input, part).len()),
        Held::Four(part) => header_len(number, 5) + content(input, part).len(),
    }
}

// How many bytes the header has of a field of this number and kind.
fn header_len(number: u32, kind: u8) -> usize
    requires { kind < 8 }
    ensures is_length { result ≡ length (header_of number kind) }
    ensures at_most_ten { result ≤ 10 }
{
    varint_len(u64::from(number) * 8 + u64::from(kind))
}
