ghost use Rattle.std.specs.Prelude.{◌≡◌, ◌≤◌, List, ◌++◌, ◌∷◌, [], Some, None, IfOk, MatchOption};
ghost use Rattle.std.specs.List.{AllByRecursion, find};
ghost use Rattle.message_fields.specs.Fields.{IsPartOf, bytes_in};
ghost use Rattle.message_fields.specs.Readings.{IsReading, IsWholeReading};
ghost use Rattle.message_fields.specs.Lookups.{has, last_of, number_of, content_of, bytes_of, bytes_in_field, parts_of, groups_of, parts_by, bytes_held, group_held, AreWithin, StandWith};
ghost use Rattle.message_fields.specs.Faults.{wrong_kind, is_of_kind, is_of_wrong_kind, wire_fault, missing, fault_at, fault_of};

use crate::fault::{MessageFault, MessageReason};
use crate::field::{Held, Known, Part, PlacedField, WireKind};
use std::alloc::Global;
use wire_fields::{List, NoMemory};
use wire_format::WireFault;

/// The fields of a message, in order, as its pieces have them up to the first wire fault: all, or those that its table
/// knows.
#[derive(Debug, Drop)]
pub struct Message {
    pub fields: List<PlacedField>,
    pub wire_fault: Option<WireFault>,
    /// Where the last piece ends.
    pub end: usize,
}

impl Message {
    /// The last field of this number, which is the one that counts. It takes time linear in the fields.
    pub fn last(&self, number: u32) -> Option<PlacedField>
        ensures { result ≡ last_of number self.now.fields }
    {
        last_of(self.fields.as_slice(), number)
    }

    pub fn has(&self, number: u32) -> bool
        ensures { result ≡ has number self.now.fields }
    {
        self.last(number).is_some()
    }

    /// The value of a varint field.
    pub fn varint(&self, number: u32) -> Option<u64>
        ensures { result ≡ number_of number self.now.fields }
    {
        match self.last(number)?.held {
            Held::Varint(value) => Some(value),
            _ => None,
        }
    }

    /// Where the content of a bytes field stands.
    pub fn content(&self, number: u32) -> Option<Part>
        ensures { result ≡ content_of number self.now.fields }
    {
        match self.last(number)?.held {
            Held::Bytes(part) => Some(part),
            _ => None,
        }
    }

    /// The content of a bytes field; no bytes where it is not there.
    pub fn bytes<'a>(&self, input: &'a [u8], number: u32) -> &'a [u8]
        requires { AreWithin input.now self.now.fields }
        ensures { result.now ≡ bytes_of input.now number self.now.fields }
    {
        match self.content(number) {
            Some(part) => content(input, part),
            None => &[],
        }
    }

    /// The content of a bytes field, if it is there.
    pub fn bytes_in_field<'a>(&self, input: &'a [u8], number: u32) -> Option<&'a [u8]>
        requires { AreWithin input.now self.now.fields }
        ensures { MatchOption result
            (bytes_in_field input.now number self.now.fields ≡ None)
            (λ bytes. bytes_in_field input.now number self.now.fields ≡ Some bytes.now) }
    {
        let part = self.content(number)?;
        Some(content(input, part))
    }

    /// The pieces of an inner message, or the values of a repeated field. It takes time linear in the fields.
    pub fn parts(&self, alloc: Global, number: u32) -> Result<Vec<Part>, NoMemory>
        ensures parts { IfOk result (λ parts. parts.items ≡ parts_of number self.now.fields) }
        ensures within { IfOk result (λ parts. StandWith self.now.fields parts.items) }
    {
        parts_of(alloc, self.fields.as_slice(), number)
    }

    /// The contents of the groups of this number. It takes time linear in the fields.
    pub fn groups(&self, alloc: Global, number: u32) -> Result<Vec<Part>, NoMemory>
        ensures groups { IfOk result (λ parts. parts.items ≡ groups_of number self.now.fields) }
        ensures within { IfOk result (λ parts. StandWith self.now.fields parts.items) }
    {
        groups_of(alloc, self.fields.as_slice(), number)
    }

    /// The inner message of this number, read from all its pieces by its own table, in time linear in the fields
    /// of both.
    pub fn inner(
        &self,
        alloc: Global,
        input: &[u8],
        number: u32,
        known: &[Known],
    ) -> Result<Message, NoMemory>
        requires { AreWithin input.now self.now.fields }
        ensures reading { IfOk result (λ message. IsReading known.now input.now (parts_of number self.now.fields) message) }
        ensures within { IfOk result (λ message. AreWithin input.now message.fields) }
    {
        let parts = self.parts(alloc, number)?;
        Message::read(alloc, input, parts.as_slice(), known)
    }

    /// The inner message of this number with all its fields, read from all its pieces, in time and memory linear in
    /// the fields of both.
    pub fn inner_whole(&self, alloc: Global, input: &[u8], number: u32) -> Result<Message, NoMemory>
        requires { AreWithin input.now self.now.fields }
        ensures reading { IfOk result (λ message. IsWholeReading input.now (parts_of number self.now.fields) message) }
        ensures within { IfOk result (λ message. AreWithin input.now message.fields) }
    {
        let parts = self.parts(alloc, number)?;
        Message::read_whole(alloc, input, parts.as_slice())
    }

    /// The fault of bytes that are no fields.
    pub fn wire_fault(&self) -> Option<MessageFault>
        ensures { result ≡ wire_fault self.now }
    {
        let fault = self.wire_fault?;
        Some(MessageFault {
            at: fault.at,
            reason: MessageReason::Wire(fault.reason),
        })
    }

    /// The first field of another wire kind than the table gives it. It takes time linear in the fields.
    pub fn wrong_kind(&self, known: &[Known]) -> Option<MessageFault>
        ensures { result ≡ wrong_kind known.now self.now }
    {
        let field = first_of_wrong_kind(self.fields.as_slice(), known)?;
        Some(field.fault(MessageReason::WrongKind {
            field: field.number,
        }))
    }

    /// A field that has to be there and is not.
    pub fn missing(&self, number: u32) -> Option<MessageFault>
        ensures { result ≡ missing number self.now }
    {
        if self.has(number) {
            return None;
        }
        Some(MessageFault {
            at: self.end as u64,
            reason: MessageReason::Missing { field: number },
        })
    }

    /// A fault at the field of this number that counts.
    pub fn fault_of(&self, number: u32, reason: MessageReason) -> Option<MessageFault>
        ensures { result ≡ fault_of number reason self.now }
    {
        Some(self.last(number)?.fault(reason))
    }
}

impl PlacedField {
    fn fault(&self, reason: MessageReason) -> MessageFault
        ensures { result ≡ fault_at self.now reason }
    {
        MessageFault {
            at: self.at as u64,
            reason,
        }
    }
}

impl WireKind {
    fn is_of(self, held: Held) -> bool
        ensures { result ≡ is_of_kind self held }
    {
        matches!(
            (self, held),
            (WireKind::Varint, Held::Varint(_))
                | (WireKind::Bytes, Held::Bytes(_))
                | (WireKind::Group, Held::Group(_))
        )
    }
}

// Whether the table gives the field another wire kind.
fn is_of_wrong_kind(field: &PlacedField, known: &[Known]) -> bool
    ensures { result ≡ is_of_wrong_kind known.now field.now }
{
    known.iter().any(|entry| entry.0 == field.number && !entry.1.is_of(field.held))
}

fn first_of_wrong_kind(fields: &[PlacedField], known: &[Known]) -> Option<PlacedField>
    ensures { result ≡ find (is_of_wrong_kind known.now) fields.now }
{
    for field in fields {
        if is_of_wrong_kind(field, known) {
            return Some(*field);
        }
    }
    None
}

// The contents of the bytes fields of this number.
fn parts_of(alloc: Global, fields: &[PlacedField], number: u32) -> Result<Vec<Part>, NoMemory>
    ensures { IfOk result (λ parts. parts.items ≡ parts_of number fields.now) }
{
    let mut parts = Vec::new(alloc);
    for field in fields {
        if let Held::Bytes(part) = field.held {
            if field.number == number {
                parts.push(part)?;
            }
        }
    }
    Ok(parts)
}

// The contents of the groups of this number.
fn groups_of(alloc: Global, fields: &[PlacedField], number: u32) -> Result<Vec<Part>, NoMemory>
    ensures { IfOk result (λ parts. parts.items ≡ groups_of number fields.now) }
{
    let mut parts = Vec::new(alloc);
    for field in fields {
        if let Held::Group(part) = field.held {
            if field.number == number {
                parts.push(part)?;
            }
        }
    }
    Ok(parts)
}

// The bytes of a part.
pub(crate) fn content(input: &[u8], part: Part) -> &[u8]
    requires { IsPartOf input.now part }
    ensures { result.now ≡ bytes_in input.now part }
{
    &input[part.begin..part.end]
}

// The last field of this number.
fn last_of(fields: &[PlacedField], number: u32) -> Option<PlacedField>
    ensures { result ≡ last_of number fields.now }
{
    let mut last = None;
    for field in fields {
        if field.number == number {
            last = Some(*field);
        }
    }
    last
}
