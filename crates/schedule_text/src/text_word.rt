//! Words that spell any bytes.

ghost use Rattle.std.specs.Prelude.{◌≡◌, ◌≢◌, ◌<◌, ◌/◌, ◌%◌, ◌∷◌, [], ◌++◌, List, ℕ, true, false, IfOk, MatchOption, MatchResult};
ghost use Rattle.std.specs.List.{flat_map};
ghost use Rattle.std.specs.Fmt.{digit_glyph};
ghost use Rattle.sync_model.specs.Text.{is_plain, byte_text, text_word};
ghost use Rattle.sync_specifics.specs.Extras.{HasExtra};
ghost use Rattle.schedule_text.specs.Grammar.{AnyText, AnyExtra};
ghost use Rattle.schedule_text.specs.Spelling.{AreBytes, IsExtra};
ghost use Rattle.schedule_text.specs.Reading.{IsFaultIn, IsSlotFault, Reads};
ghost use Rattle.schedule_text.specs.Refusals.{words_of};

use crate::fault::{LineFault, LineReason};
use crate::pieces::{are_same, one_word};
use std::alloc::Global;
use sync_model::Kind;
use sync_specifics::is_canonical_extra;
use wire_fields::{NoMemory, Octets};

/// A byte stands for itself in a word.
fn is_visible(byte: u8) -> bool
    ensures { result ≡ is_plain byte }
{
    33 <= byte && byte <= 126 && byte != b'%'
}

/// The value of an upper-case hexadecimal digit.
fn hex_value(digit: u8) -> Option<u8>
    ensures { MatchOption result ((value : ℕ) → value < 16 → digit ≢ digit_glyph true value)
        (λ value. (value < 16) × (digit ≡ digit_glyph true value)) }
{
    match digit {
        b'0'..=b'9' => Some(digit - b'0'),
        b'A'..=b'F' => Some(digit - b'A' + 10),
        _ => None,
    }
}

/// The byte whose two digits stand after a `%`, and what follows them.
fn escaped_at(digits: &[u8]) -> Option<(u8, &[u8])>
    ensures { MatchOption result
        ((byte : ℕ) (rest : List ℕ) → byte < 256 → is_plain byte ≡ false
        → digits.now ≢ digit_glyph true (byte / 16) ∷ digit_glyph true (byte % 16) ∷ rest)
        (λ x. (is_plain x.0 ≡ false)
        × (digits.now ≡ digit_glyph true (x.0 / 16) ∷ digit_glyph true (x.0 % 16) ∷ x.1.now)) }
{
    let [high, low, rest @ ..] = digits else {
        return None;
    };
    let byte = hex_value(*high)? * 16 + hex_value(*low)?;
    if is_visible(byte) {
        return None;
    }
    Some((byte, rest))
}

/// The byte that the front of a word stands for, and the rest of the word.
fn byte_at(word: &[u8]) -> Option<(u8, &[u8])>
    ensures { MatchOption result
        ((byte : ℕ) (rest : List ℕ) → byte < 256 → word.now ≢ byte_text byte ++ rest)
        (λ x. word.now ≡ byte_text x.0 ++ x.1.now) }
{
    let [first, rest @ ..] = word else {
        return None;
    };
    if is_visible(*first) {
        return Some((*first, rest));
    }
    if *first != b'%' {
        return None;
    }
    escaped_at(rest)
}

/// The bytes that stand in a word one after the other.
fn bytes_of(alloc: Global, word: &[u8]) -> Result<Option<Vec<u8>>, NoMemory>
    ensures { IfOk result (λ found. MatchOption found
        ((text : List ℕ) → AreBytes text → word.now ≢ flat_map byte_text text)
        (λ bytes. AreBytes bytes.items × (word.now ≡ flat_map byte_text bytes.items))) }
{
    let mut bytes = Vec::new(alloc);
    let mut rest = word;
    while !rest.is_empty() {
        let Some((byte, after)) = byte_at(rest) else {
            return Ok(None);
        };
        bytes.push(byte)?;
        rest = after;
    }
    Ok(Some(bytes))
}

/// The text that a word spells.
fn text_of(alloc: Global, word: &[u8]) -> Result<Option<Octets>, NoMemory>
    ensures { IfOk result (λ found. Reads AreBytes text_word word.now found) }
{
    if word.is_empty() {
        return Ok(None);
    }
    if are_same(word, b"-") {
        return Ok(Some(Octets::new(alloc)));
    }
    if are_same(word, b"%2D") {
        return Ok(Some(Octets::from_slice(alloc, b"-")?));
    }
    match bytes_of(alloc, word)? {
        Some(bytes) => Ok(Some(Octets::from_vec(bytes))),
        None => Ok(None),
    }
}

/// The text of a word that must spell one.
pub(crate) fn text_in(alloc: Global, word: &[u8]) -> Result<Octets, LineFault>
    ensures { MatchResult result (λ text. AreBytes text × (word.now ≡ text_word text))
        (λ fault. IsSlotFault AnyText word.now fault) }
{
    match text_of(alloc, word)? {
        Some(text) => Ok(text),
        None => Err(LineFault::Bad(LineReason::Word)),
    }
}

/// The text of a line that has one word.
pub(crate) fn one_text(alloc: Global, line: &[u8]) -> Result<Octets, LineFault>
    ensures { MatchResult result (λ text. AreBytes text × (words_of line.now ≡ text_word text ∷ []))
        (λ fault. IsFaultIn ((AnyText ∷ []) ∷ []) (words_of line.now) fault) }
{
    let Some(word) = one_word(line) else {
        return Err(LineFault::Bad(LineReason::Form));
    };
    text_in(alloc, word)
}

/// The unknown fields of a word that must spell canonical ones of this type.
pub(crate) fn extra_in(alloc: Global, kind: Kind, word: &[u8]) -> Result<Octets, LineFault>
    requires { HasExtra kind }
    ensures { MatchResult result (λ extra. AreBytes extra × IsExtra kind extra × (word.now ≡ text_word extra))
        (λ fault. IsSlotFault (AnyExtra kind) word.now fault) }
{
    let extra = text_in(alloc, word)?;
    if !is_canonical_extra(kind, extra.as_slice()) {
        return Err(LineFault::Bad(LineReason::Word));
    }
    Ok(extra)
}
