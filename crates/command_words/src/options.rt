//! Options behind a command's name.
ghost use Rattle.std.specs.Prelude.{◌≡◌, ℕ, List, ◌<◌, ◌≤◌, ◌^◌, drop, MatchOption};
ghost use Rattle.std.specs.Fmt.{decimal};
ghost use Rattle.std.specs.List.{list_all};
ghost use Rattle.std.specs.Option.{option_copied};
ghost use Rattle.command_words.specs.Options.{value_in, HasNumber};
ghost use Rattle.command_words.specs.Commands.{may_name, is_store_name, HasStore};

use itoa::Buffer;
use outer_edge::Words;

// The value of the first option of this name.
pub(crate) fn value_of<'a>(words: &'a Words, name: &str) -> Option<&'a str>
    ensures { option_copied result ≡ value_in (drop 1 words.now) name.now }
{
    let len = words.len();
    let mut place = 1;
    while place < len && len - place > 1 {
        if words.get(place)? == name {
            return words.get(place + 1);
        }
        place += 2;
    }
    None
}

// The number from one to another that a word spells.
fn number_in(word: &str, low: u64, high: u64) -> Option<u64>
    ensures { MatchOption result ((number : ℕ) → word.now ≡ decimal number → low ≤ number → number ≤ high → ⊥)
        (λ number. (word.now ≡ decimal number) × (low ≤ number) × (number ≤ high)) }
{
    let number = word.parse::<u64>().ok()?;
    let mut buffer = Buffer::new();
    if low <= number && number <= high && buffer.format(number) == word {
        Some(number)
    } else {
        None
    }
}

// The number from one to another that is the value of an option.
pub(crate) fn number_of(words: &Words, name: &str, low: u64, high: u64) -> Option<u64>
    ensures { MatchOption result ((number : ℕ) → HasNumber words.now name.now low high number → ⊥)
        (HasNumber words.now name.now low high) }
{
    number_in(value_of(words, name)?, low, high)
}

// A byte that may stand in a store's name.
fn may_name(byte: u8) -> bool
    ensures { result ≡ may_name byte }
{
    matches!(byte, b'a'..=b'z' | b'0'..=b'9' | b'_')
}

// Each of some bytes may stand in a store's name.
fn may_all_name(bytes: &[u8]) -> bool
    ensures { result ≡ list_all may_name bytes.now }
{
    for byte in bytes {
        if !may_name(*byte) {
            return false;
        }
    }
    true
}

// A word is a store's name.
fn is_store_name(word: &str) -> bool
    ensures { result ≡ is_store_name word.now }
{
    let bytes = word.as_bytes();
    0 < bytes.len() && bytes.len() <= 64 && may_all_name(bytes)
}

// The store's name that is the value of an option.
pub(crate) fn store_of<'a>(words: &'a Words, name: &str) -> Option<&'a str>
    ensures { MatchOption result ((store : List ℕ) → HasStore words.now name.now store → ⊥)
        (λ store. HasStore words.now name.now store.now) }
{
    let store = value_of(words, name)?;
    if is_store_name(store) {
        Some(store)
    } else {
        None
    }
}
