//! What the header fields of a head say of the body.
ghost use Rattle.std.specs.Prelude.{◌≡◌, ◌<◌, ◌↔◌, length, map, All, IsTrue, true, option_map, IfSome, IfOk, IfErr, ◌≤◌};
ghost use Rattle.std.specs.List.{list_any, list_all, find};
ghost use Rattle.std.specs.Char.{is_ascii_digit};
ghost use Rattle.std.specs.Str.Parse.{digits_value};
ghost use Rattle.httparse.specs.Spans.{IsHeaderWithin, header_bytes};
ghost use Rattle.http_edge.specs.Faults.{IfLinkFault};
ghost use Rattle.http_edge.specs.Fields.{is_named, is_coding, is_length, agrees, is_number, stated_length, body_length, longest_body};

use crate::EdgeFault;
use httparse::spans::HeaderSpan;

// The longest body that is read.
const LONGEST_BODY: u64 = 16_777_216;

// The length of the body that the fields of this head promise, or why none is read.
#[tactic(auto, unfolding(crate::specs::Fields::body_length))]
pub(crate) fn body_length(head: &[u8], fields: &[HeaderSpan]) -> Result<u64, EdgeFault>
    requires { All (IsHeaderWithin (length head.now)) fields.now }
    ensures length { result ≡ body_length (map (header_bytes head.now) fields.now) }
    ensures within { IfOk result (λ count. count ≤ longest_body) }
    ensures cause { IfErr result (λ fault. IfLinkFault fault ⊥ (Unit {0})) }
{
    if is_encoded(head, fields) {
        return Err(EdgeFault::Encoded);
    }
    match stated_length(head, fields) {
        None => Err(EdgeFault::NoLength),
        Some(length) if length > LONGEST_BODY => Err(EdgeFault::TooBig { length }),
        Some(length) => Ok(length),
    }
}

fn is_encoded(head: &[u8], fields: &[HeaderSpan]) -> bool
    requires { All (IsHeaderWithin (length head.now)) fields.now }
    ensures { result ≡ list_any is_coding (map (header_bytes head.now) fields.now) }
{
    for field in fields {
        if is_coding(head, *field) {
            return true;
        }
    }
    false
}

#[tactic(auto, unfolding(crate::specs::Fields::stated_length))]
fn stated_length(head: &[u8], fields: &[HeaderSpan]) -> Option<u64>
    requires { All (IsHeaderWithin (length head.now)) fields.now }
    ensures { result ≡ stated_length (map (header_bytes head.now) fields.now) }
{
    let first = first_length(head, fields)?;
    let text = first.value.of(head);
    if is_number(text) && all_agree(head, fields, text) {
        Some(number_of(text))
    } else {
        None
    }
}

fn first_length(head: &[u8], fields: &[HeaderSpan]) -> Option<HeaderSpan>
    requires { All (IsHeaderWithin (length head.now)) fields.now }
    ensures first { option_map (header_bytes head.now) result ≡ find is_length (map (header_bytes head.now) fields.now) }
    ensures within { IfSome result (IsHeaderWithin (length head.now)) }
{
    for field in fields {
        if is_length(head, *field) {
            return Some(*field);
        }
    }
    None
}

fn all_agree(head: &[u8], fields: &[HeaderSpan], text: &[u8]) -> bool
    requires { All (IsHeaderWithin (length head.now)) fields.now }
    ensures { result ≡ list_all (agrees text.now) (map (header_bytes head.now) fields.now) }
{
    for field in fields {
        if !agrees(head, *field, text) {
            return false;
        }
    }
    true
}

#[tactic(auto, unfolding(crate::specs::Fields::is_named))]
fn is_named(name: &[u8], head: &[u8], field: HeaderSpan) -> bool
    requires { IsHeaderWithin (length head.now) field }
    ensures { result ≡ is_named name.now (header_bytes head.now field) }
{
    field.name.of(head).eq_ignore_ascii_case(name)
}

#[tactic(auto, unfolding(crate::specs::Fields::is_coding))]
fn is_coding(head: &[u8], field: HeaderSpan) -> bool
    requires { IsHeaderWithin (length head.now) field }
    ensures { result ≡ is_coding (header_bytes head.now field) }
{
    if is_named(b"transfer-encoding", head, field) {
        return true;
    }
    is_named(b"content-encoding", head, field) && field.value.of(head) != b"identity".as_slice()
}

#[tactic(auto, unfolding(crate::specs::Fields::is_length))]
fn is_length(head: &[u8], field: HeaderSpan) -> bool
    requires { IsHeaderWithin (length head.now) field }
    ensures { result ≡ is_length (header_bytes head.now field) }
{
    is_named(b"content-length", head, field)
}

fn agrees(head: &[u8], field: HeaderSpan, text: &[u8]) -> bool
    requires { IsHeaderWithin (length head.now) field }
    ensures { result ≡ agrees text.now (header_bytes head.now field) }
{
    !is_length(head, field) || field.value.of(head) == text
}

fn is_number(text: &[u8]) -> bool
    ensures { result ≡ is_number text.now }
{
    !text.is_empty() && text.len() <= 10 && are_digits(text)
}

fn are_digits(text: &[u8]) -> bool
    ensures { result ≡ list_all is_ascii_digit text.now }
{
    text.iter().all(|byte| byte.is_ascii_digit())
}

fn number_of(text: &[u8]) -> u64
    requires { is_number text.now ≡ true }
    ensures { result ≡ digits_value 10 text.now }
{
    let mut number = 0;
    for digit in text {
        number = number * 10 + u64::from(*digit - b'0');
    }
    number
}
