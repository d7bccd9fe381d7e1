//! Pieces of a text.

ghost use Rattle.std.specs.Prelude.{◌≡◌, ◌≢◌, ◌↔◌, ◌∷◌, [], ◌++◌, List, ℕ, length, MatchOption, IsTrue, ◌==◌, position};
ghost use Rattle.std.specs.List.{AllByRecursion};
ghost use Rattle.schedule_text.specs.Reading.{IsCut};
ghost use Rattle.schedule_text.specs.Refusals.{words_of};

/// Where the first byte of this value stands.
fn first_place(bytes: &[u8], byte: u8) -> Option<usize>
    ensures { result ≡ position (λ other. other == byte) bytes.now }
{
    bytes.iter().position(|other| *other == byte)
}

/// What stands before the first byte of this value, and what follows it.
pub(crate) fn cut_at(bytes: &[u8], byte: u8) -> Option<(&[u8], &[u8])>
    ensures { MatchOption result (AllByRecursion (λ other. other ≢ byte) bytes.now)
        (λ cut. IsCut bytes.now byte cut.0.now cut.1.now) }
{
    let at = first_place(bytes, byte)?;
    Some((&bytes[..at], &bytes[at + 1..]))
}

/// What follows a front.
pub(crate) fn after<'a>(bytes: &'a [u8], front: &[u8]) -> Option<&'a [u8]>
    ensures { MatchOption result ((rest : List ℕ) → bytes.now ≢ front.now ++ rest)
        (λ rest. bytes.now ≡ front.now ++ rest.now) }
{
    bytes.strip_prefix(front)
}

/// Two texts are the same.
pub(crate) fn are_same(bytes: &[u8], text: &[u8]) -> bool
    ensures { IsTrue result ↔ (bytes.now ≡ text.now) }
{
    bytes == text
}

/// The word of a line that has one.
pub(crate) fn one_word(line: &[u8]) -> Option<&[u8]>
    ensures { MatchOption result (length (words_of line.now) ≢ 1) (λ word. words_of line.now ≡ word.now ∷ []) }
{
    match cut_at(line, b' ') {
        Some(_) => None,
        None => Some(line),
    }
}

/// The first word of a line that has more, and what follows it.
pub(crate) fn cut_word(line: &[u8]) -> Option<(&[u8], &[u8])>
    ensures { MatchOption result (length (words_of line.now) ≡ 1)
        (λ cut. words_of line.now ≡ cut.0.now ∷ words_of cut.1.now) }
{
    cut_at(line, b' ')
}

/// The words of a line that has two.
pub(crate) fn two_words(line: &[u8]) -> Option<(&[u8], &[u8])>
    ensures { MatchOption result (length (words_of line.now) ≢ 2)
        (λ words. words_of line.now ≡ words.0.now ∷ words.1.now ∷ []) }
{
    let (first, rest) = cut_word(line)?;
    let second = one_word(rest)?;
    Some((first, second))
}
