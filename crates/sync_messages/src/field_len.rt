//! How long fields are, as they are written.
ghost use Rattle.std.specs.Prelude.{ℕ, List, ◌++◌};
ghost use Rattle.wire_format.specs.Spellings.{varint_field, bytes_field, group_field};
ghost use Rattle.message_fields.specs.Written.{bytes_unless_empty, varint_unless_zero};
ghost use Rattle.sync_messages.specs.Lengths.{IsLength};
ghost use Rattle.sync_messages.specs.Spellings.{bytes_if_some};

use wire_fields::{Octets, spell_header, varint_field_len, varint_len};

// The length of two texts, one after the other.
pub(crate) fn len_of_both(first: u64, second: u64) -> u64
    ensures { (a : List ℕ) → (b : List ℕ) → IsLength first a → IsLength second b → IsLength result (a ++ b) }
{
    first.saturating_add(second)
}

// The length of bytes that are written as they are.
pub(crate) fn len_as_it_is(bytes: &Octets) -> u64
    ensures { IsLength result bytes.now }
{
    bytes.as_slice().len() as u64
}

pub(crate) fn len_of_varint(number: u32, value: u64) -> u64
    ensures { IsLength result (varint_field number value) }
{
    varint_field_len(number, value) as u64
}

pub(crate) fn len_unless_zero(number: u32, value: u64) -> u64
    ensures { IsLength result (varint_unless_zero number value) }
{
    if value == 0 {
        return 0;
    }
    len_of_varint(number, value)
}

// The length of a field that holds bytes of this length.
pub(crate) fn len_around(number: u32, content_len: u64) -> u64
    ensures { (content : List ℕ) → IsLength content_len content → IsLength result (bytes_field number content) }
{
    let front = spell_header(number, 2).len() + varint_len(content_len);
    content_len.saturating_add(front as u64)
}

pub(crate) fn len_of_bytes(number: u32, content: &[u8]) -> u64
    ensures { IsLength result (bytes_field number content.now) }
{
    len_around(number, content.len() as u64)
}

pub(crate) fn len_of_octets(number: u32, content: &Octets) -> u64
    ensures { IsLength result (bytes_field number content.now) }
{
    len_of_bytes(number, content.as_slice())
}

pub(crate) fn len_unless_empty(number: u32, content: &Octets) -> u64
    ensures { IsLength result (bytes_unless_empty number content.now) }
{
    if content.is_empty() {
        return 0;
    }
    len_of_octets(number, content)
}

pub(crate) fn len_if_some(number: u32, content: &Option<Octets>) -> u64
    ensures { IsLength result (bytes_if_some number content.now) }
{
    match content {
        None => 0,
        Some(content) => len_of_octets(number, content),
    }
}

// The length of a group whose content has this length.
pub(crate) fn len_of_group(number: u32, content_len: u64) -> u64
    ensures { (content : List ℕ) → IsLength content_len content → IsLength result (group_field number content) }
{
    let around = spell_header(number, 3).len() + spell_header(number, 4).len();
    content_len.saturating_add(around as u64)
}
