//! The numbers of a line.

ghost use Rattle.std.specs.Prelude.{◌≡◌, ◌↔◌, ◌≢◌, ◌<◌, ◌≤◌, ◌^◌, ◌*◌, ◌+◌, ◌∷◌, [], length, slice_index, IsTrue, MatchOption, MatchResult};
ghost use Rattle.std.specs.Fmt.{decimal};
ghost use Rattle.std.specs.Str.Parse.{AllDigits, digits_value};
ghost use Rattle.schedule_text.specs.Grammar.{Between};
ghost use Rattle.schedule_text.specs.Spelling.{IsUpTo};
ghost use Rattle.schedule_text.specs.Faults.{IsDecimal};
ghost use Rattle.schedule_text.specs.Reading.{IsFaultIn, IsSlotFault};
ghost use Rattle.schedule_text.specs.Refusals.{words_of};

use crate::fault::{LineFault, LineReason};
use crate::pieces::{one_word, two_words};

/// There are digits alone.
fn are_digits(word: &[u8]) -> bool
    ensures { IsTrue result ↔ AllDigits 10 word.now }
{
    for byte in word {
        if !byte.is_ascii_digit() {
            return false;
        }
    }
    true
}

/// A word may be a number, by its first byte: no number has a zero in front of other digits.
fn may_begin(word: &[u8]) -> bool
    ensures { IsTrue result ↔ ((0 < length word.now) × (slice_index word.now 0 ≡ 48 → length word.now ≡ 1)) }
{
    !word.is_empty() && (word[0] != b'0' || word.len() == 1)
}

/// A word spells a number, of any length.
fn is_decimal(word: &[u8]) -> bool
    ensures { IsTrue result ↔ IsDecimal word.now }
{
    may_begin(word) && are_digits(word)
}

/// Ten times a number and a digit, if it has 64 bits at most.
fn with_digit(number: u64, digit: u64) -> Option<u64>
    ensures { MatchOption result (2 ^ 64 ≤ 10 * number + digit) (λ n. n ≡ 10 * number + digit) }
{
    number.checked_mul(10)?.checked_add(digit)
}

/// The number that some digits spell, if it has 64 bits at most.
fn value_of(word: &[u8]) -> Option<u64>
    requires { AllDigits 10 word.now }
    ensures { MatchOption result (2 ^ 64 ≤ digits_value 10 word.now) (λ n. n ≡ digits_value 10 word.now) }
{
    let mut number: u64 = 0;
    for byte in word {
        number = with_digit(number, u64::from(*byte - b'0'))?;
    }
    Some(number)
}

/// The number of a word, from one number to another.
pub(crate) fn number_in(word: &[u8], low: u64, high: u64) -> Result<u64, LineFault>
    ensures { MatchResult result (λ number. (low ≤ number) × (number ≤ high) × (word.now ≡ decimal number))
        (λ fault. IsSlotFault (Between low high) word.now fault) }
{
    if !is_decimal(word) {
        return Err(LineFault::Bad(LineReason::Number));
    }
    match value_of(word) {
        Some(number) if low <= number && number <= high => Ok(number),
        _ => Err(LineFault::Bad(LineReason::Range)),
    }
}

/// The number of a word, from 1 up to another.
pub(crate) fn number_up_to(word: &[u8], high: u32) -> Result<u32, LineFault>
    ensures { MatchResult result (λ number. IsUpTo high number × (word.now ≡ decimal number))
        (λ fault. IsSlotFault (Between 1 high) word.now fault) }
{
    let number = number_in(word, 1, u64::from(high))?;
    Ok(number as u32)
}

/// The number of a line that has one word, from 1 up to another.
pub(crate) fn one_number(line: &[u8], high: u32) -> Result<u32, LineFault>
    ensures { MatchResult result (λ number. IsUpTo high number × (words_of line.now ≡ decimal number ∷ []))
        (λ fault. IsFaultIn ((Between 1 high ∷ []) ∷ []) (words_of line.now) fault) }
{
    let Some(word) = one_word(line) else {
        return Err(LineFault::Bad(LineReason::Form));
    };
    number_up_to(word, high)
}

/// The numbers of a line that has two words, each from 1 up to another.
pub(crate) fn two_numbers(
    line: &[u8],
    first_high: u32,
    second_high: u32,
) -> Result<(u32, u32), LineFault>
    ensures { MatchResult result
        (λ numbers. IsUpTo first_high numbers.0 × IsUpTo second_high numbers.1
        × (words_of line.now ≡ decimal numbers.0 ∷ decimal numbers.1 ∷ []))
        (λ fault. IsFaultIn ((Between 1 first_high ∷ Between 1 second_high ∷ []) ∷ []) (words_of line.now) fault) }
{
    let Some((first, second)) = two_words(line) else {
        return Err(LineFault::Bad(LineReason::Form));
    };
    let first = number_up_to(first, first_high)?;
    let second = number_up_to(second, second_high)?;
    Ok((first, second))
}
