//! The spellings that a writer gives to numbers, of each the least one, and how long what it writes is.
ghost use Rattle.std.specs.Prelude.{◌≡◌, ◌+◌, ◌^◌, ◌<◌, ◌≤◌, ℕ, List, length};
ghost use Rattle.wire_format.specs.Spellings.{varint_of, header_of, varint_field, bytes_field, group_field};

use arrayvec::ArrayVec;

/// The varint of least length of a number (Protocol Buffers, Encoding, Base 128 Varints).
pub fn spell_varint(value: u64) -> ArrayVec<u8, 10>
    ensures { result.items ≡ varint_of value }
{
    let mut bytes = ArrayVec::new();
    let mut rest = value;
    while rest >= 128 {
        bytes.push((rest % 128 + 128) as u8);
        rest /= 128;
    }
    bytes.push(rest as u8);
    bytes
}

/// The header of a field of this number and kind (Protocol Buffers, Encoding, Message Structure).
pub fn spell_header(number: u32, kind: u8) -> ArrayVec<u8, 10>
    requires { kind < 8 }
    ensures { result.items ≡ header_of number kind }
{
    spell_varint(u64::from(number) * 8 + u64::from(kind))
}

/// How many bytes the varint of least length of a number has.
pub fn varint_len(value: u64) -> usize
    ensures is_length { result ≡ length (varint_of value) }
    ensures at_most_ten { result ≤ 10 }
{
    let mut rest = value;
    for len in 1..10 {
        if rest < 128 {
            return len;
        }
        rest /= 128;
    }
    10
}

/// How many bytes a field has, as it is written, that holds this varint.
pub fn varint_field_len(number: u32, value: u64) -> usize
    ensures is_length { result ≡ length (varint_field number value) }
    ensures at_most_twenty { result ≤ 20 }
{
    header_len(number, 0) + varint_len(value)
}

/// How many bytes a field has, as it is written, that holds so many bytes.
pub fn bytes_field_len(number: u32, content_len: usize) -> usize
    requires { content_len < 2 ^ 63 }
    ensures is_length { (content : List ℕ) → length content ≡ content_len → result ≡ length (bytes_field number content) }
    ensures at_most_twenty_more { result ≤ content_len + 20 }
{
    header_len(number, 2) + varint_len(content_len as u64) + content_len
}

/// How many bytes a group has, as it is written, whose content has so many.
pub fn group_field_len(number: u32, content_len: usize) -> usize
    requires { content_len < 2 ^ 63 }
    ensures is_length { (content : List ℕ) → length content ≡ content_len → result ≡ length (group_field number content) }
    ensures at_most_twenty_more { result ≤ content_len + 20 }
{
    header_len(number, 3) + content_len + header_len(number, 4)
}

fn header_len(number: u32, kind: u8) -> usize
    requires { kind < 8 }
    ensures is_length { result ≡ length (header_of number kind) }
    ensures at_most_ten { result ≤ 10 }
{
    varint_len(u64::from(number) * 8 + u64::from(kind))
}
