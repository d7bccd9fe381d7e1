//! Reading the pieces of a message.
ghost use Rattle.std.specs.Prelude.{◌≡◌, ◌<◌, ◌≤◌, ◌+◌, ◌^◌, ◌++◌, ◌∷◌, [], ℕ, List, length, slice_range, Option, IfOk, OnOk};
ghost use Rattle.std.specs.List.{AllByRecursion, filter};
ghost use Rattle.wire_format.specs.Varints.{GoOn};
ghost use Rattle.wire_format.specs.Fields.{IsField};
ghost use Rattle.message_fields.specs.Fields.{IsPartOf, ArePartsOf, IsFieldIn, Holds, bytes_in};
ghost use Rattle.message_fields.specs.Readings.{IsReading, IsReadingOf, IsWholeReading, IsRead, is_kept, is_known, end_of};
ghost use Rattle.message_fields.specs.Lookups.{AreWithin};

use crate::field::{Held, Known, Part, PlacedField};
use crate::message::{Message, content};
use std::alloc::Global;
use wire_fields::{List, NoMemory};
use wire_format::{Field, FieldReader, Payload, WireFault};

impl Message {
    /// Reads the pieces of a message, which are parts of the input, up to the first wire fault. `known` is the
    /// message's table: other fields are read over.
    ///
    /// It takes time linear in the fields of the pieces, and memory for those that the table knows.
    pub fn read(
        alloc: Global,
        input: &[u8],
        parts: &[Part],
        known: &[Known],
    ) -> Result<Message, NoMemory>
        requires { ArePartsOf input.now parts.now }
        ensures reading { IfOk result (λ message. IsReading known.now input.now parts.now message) }
        ensures within { IfOk result (λ message. AreWithin input.now message.fields) }
    {
        read_pieces(alloc, input, parts, Some(known))
    }

    /// Reads the pieces of a message, which are parts of the input, up to the first wire fault, with all its fields.
    ///
    /// It takes time and memory linear in the fields of the pieces.
    pub fn read_whole(alloc: Global, input: &[u8], parts: &[Part]) -> Result<Message, NoMemory>
        requires { ArePartsOf input.now parts.now }
        ensures reading { IfOk result (λ message. IsWholeReading input.now parts.now message) }
        ensures within { IfOk result (λ message. AreWithin input.now message.fields) }
    {
        read_pieces(alloc, input, parts, None)
    }
}

// Reads the pieces of a message. Of its fields those are kept that the table knows, or all without a table.
fn read_pieces(
    alloc: Global,
    input: &[u8],
    parts: &[Part],
    known: Option<&[Known]>,
) -> Result<Message, NoMemory>
    requires { ArePartsOf input.now parts.now }
    ensures reading { IfOk result (λ message. IsReadingOf (is_kept known.entry) input.now parts.now message) }
    ensures within { IfOk result (λ message. AreWithin input.now message.fields) }
{
    let mut fields = Vec::new(alloc);
    for part in parts {
        let fault = read_part(&mut fields, input, *part, known)?;
        if fault.is_some() {
            return Ok(message(fields, fault, parts));
        }
    }
    Ok(message(fields, None, parts))
}

// What was read of these pieces.
fn message(fields: Vec<PlacedField>, wire_fault: Option<WireFault>, parts: &[Part]) -> Message
    ensures { result ≡ record { fields = fields.items; wire_fault = wire_fault; end = end_of 0 parts.now } }
{
    Message {
        fields: List::from_vec(fields),
        wire_fault,
        end: end_of(parts),
    }
}

// Where the last of some pieces ends.
fn end_of(parts: &[Part]) -> usize
    ensures { result ≡ end_of 0 parts.now }
{
    let mut end = 0;
    for part in parts {
        end = part.end;
    }
    end
}

// Adds the fields of a piece that are kept, up to its fault.
fn read_part(
    fields: &mut Vec<PlacedField>,
    input: &[u8],
    part: Part,
    known: Option<&[Known]>,
) -> Result<Option<WireFault>, NoMemory>
    requires { IsPartOf input.now part }
    ensures { IfOk result (λ fault. IsRead (is_kept known.entry) input.now part fields.old.items fields.new.items fault) }
{
    let mut reader = FieldReader::new(content(input, part));
    loop {
        let field = match reader.next() {
            Ok(Some(field)) => field,
            Ok(None) => return Ok(None),
            Err(fault) => return Ok(Some(fault_in(part, fault))),
        };
        let placed = placed(input, part.begin, part.begin + reader.place(), &field);
        push_kept(fields, placed, known)?;
    }
}

// Adds a field that is kept.
fn push_kept(
    fields: &mut Vec<PlacedField>,
    field: PlacedField,
    known: Option<&[Known]>,
) -> Result<(), NoMemory>
    ensures { OnOk result (fields.new.items ≡ fields.old.items ++ filter (is_kept known.entry) (field ∷ [])) }
{
    if is_kept(&field, known) {
        fields.push(field)?;
    }
    Ok(())
}

// A fault of a part, in the input.
fn fault_in(part: Part, fault: WireFault) -> WireFault
    requires { part.begin + fault.at < 2 ^ 64 }
    ensures { (result.at ≡ part.begin + fault.at) × (result.reason ≡ fault.reason) }
{
    WireFault {
        at: part.begin as u64 + fault.at,
        reason: fault.reason,
    }
}

// Whether the field is kept.
fn is_kept(field: &PlacedField, known: Option<&[Known]>) -> bool
    ensures { result ≡ is_kept known.entry field.now }
{
    match known {
        None => true,
        Some(known) => is_known(field, known),
    }
}

// Whether the table has the field.
pub(crate) fn is_known(field: &PlacedField, known: &[Known]) -> bool
    ensures { result ≡ is_known known.now field.now }
{
    known.iter().any(|entry| entry.0 == field.number)
}

// A field that was read from a part of the input, and that ends at a place of the input.
pub(crate) fn placed(input: &[u8], begin: usize, end: usize, field: &Field<'_>) -> PlacedField
    requires before { begin + field.now.at ≤ end }
    requires within { end ≤ length input.now }
    requires is_field { IsField (slice_range input.now (begin + field.now.at) end) field.now.number field.now.payload }
    ensures is_field { IsFieldIn input.now result end }
    ensures same { (result.number ≡ field.now.number) × (result.at ≡ begin + field.now.at) }
{
    let at = begin + field.at;
    PlacedField {
        number: field.number,
        at,
        held: held(input, at, end, field.number, field.payload),
    }
}

// What the field holds that stands between two places of the input.
fn held(input: &[u8], at: usize, end: usize, number: u32, payload: Payload<'_>) -> Held
    requires before { at ≤ end }
    requires within { end ≤ length input.now }
    requires is_field { IsField (slice_range input.now at end) number payload }
    ensures { Holds input.now at end number payload.entry result }
{
    match payload {
        Payload::Varint(value) => Held::Varint(value),
        Payload::Bytes(content) => Held::Bytes(Part {
            begin: end - content.len(),
            end,
        }),
        Payload::Group(content) => {
            let begin = at + varint_len(&input[at..end]);
            Held::Group(Part {
                begin,
                end: begin + content.len(),
            })
        }
        Payload::Eight(_) => Held::Eight(Part {
            begin: end - 8,
            end,
        }),
        Payload::Four(_) => Held::Four(Part {
            begin: end - 4,
            end,
        }),
    }
}

// How many bytes the varint has at the front of some bytes.
fn varint_len(bytes: &[u8]) -> usize
    ensures { (front : List ℕ) → (last : ℕ) → (after : List ℕ) → bytes.now ≡ (front ++ last ∷ []) ++ after →
        GoOn front → last < 128 → result ≡ length front + 1 }
{
    let mut count = 0;
    while count < bytes.len() && bytes[count] >= 128 {
        count += 1;
    }
    count + 1
}
